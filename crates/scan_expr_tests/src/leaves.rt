//! Columns of lists, and columns from a leaf's segment: numbers, and texts and truth values, which are kept in one buffer
//! and as bits. Such a column is said as `DTYPE @ ROWS @ BYTES @ START/LETTERS/LETTERS`: of the segment's rows from one
//! on those at which the first mask is true, and then of those behind them by the second.
use crate::columns::{How, column, column_told, evaluated, stepped};
use crate::lines::{Told, hold, shown, sides};
use crate::words::{dtype, mask};
use scan_columns::Column;
use scan_segments::ByteBuffer;
use scan_spelling::{LeafColumn, Spelling};
use scan_values::{DType, Mask, NoMemory};
use std::alloc::Global;
use std::fmt::Write;
use std::process::Abort;
use std::sync::Arc;

// ---- lists
/// The elements, cut into two, none, which is null, and one.
fn cut(rt: &impl Abort, alloc: Global, dtype: Arc<DType>, elements: Column) -> Column {
    let Some(element) = dtype.as_list_element_opt() else {
        panic!(rt; "no list");
    };
    if *elements.dtype() != *element {
        panic!(rt; "another dtype");
    }
    if elements.len() != 3 {
        panic!(rt; "another length");
    }
    if !dtype.is_nullable() {
        panic!(rt; "not nullable");
    }
    let ends = Vec::from_slice(alloc, &[2, 2, 3]).expect(rt, "from_slice");
    let bits = Vec::from_slice(alloc, &[true, false, true]).expect(rt, "from_slice");
    Column::lists(alloc, dtype, ends, Some(Mask::from_bools(bits)), elements).expect(rt, "lists")
}

// ---- leaves
fn bytes(rt: &impl Abort, alloc: Global, words: &str) -> ByteBuffer {
    let mut bytes = Vec::new(alloc);
    for word in words.split_whitespace() {
        bytes
            .push(word.parse::<u8>().expect(rt, "parse"))
            .expect(rt, "push");
    }
    ByteBuffer::new(alloc, bytes).expect(rt, "new")
}

/// A segment of so many rows.
fn leaf(
    rt: &impl Abort,
    alloc: Global,
    dtype: &DType,
    rows: &str,
    spelled: ByteBuffer,
) -> LeafColumn {
    if !dtype.is_scalar() {
        panic!(rt; "not a scalar dtype");
    }
    let rows = rows.parse::<u64>().expect(rt, "parse");
    LeafColumn::read(alloc, Spelling::One, dtype, rows, spelled).expect(rt, "read")
}

/// Of the rows of a leaf from one on those at which the first mask is true, and then of those behind them by the other.
fn rows_of(
    rt: &impl Abort,
    alloc: Global,
    dtype: Arc<DType>,
    leaf: &LeafColumn,
    start: usize,
    first: &[bool],
    more: &[bool],
) -> Result<Column, NoMemory> {
    if *leaf.dtype() != *dtype {
        panic!(rt; "another dtype");
    }
    if leaf.len() < start {
        panic!(rt; "too few rows");
    }
    if leaf.len() - start < first.len() {
        panic!(rt; "too few rows");
    }
    let end = start + first.len();
    if leaf.len() - end < more.len() {
        panic!(rt; "too few rows");
    }
    let column = Column::from_leaf(alloc, dtype, leaf, start, first)?;
    column.extend_from_leaf(alloc, leaf, end, more)
}

/// The column of `DTYPE @ ROWS @ BYTES @ START/LETTERS/LETTERS`.
fn leaf_rows(rt: &impl Abort, alloc: Global, case: &str) -> Column {
    let (words, case) = sides(rt, case, " @ ");
    let (rows, case) = sides(rt, case, " @ ");
    let (spelled, case) = sides(rt, case, " @ ");
    let (start, masks) = sides(rt, case, "/");
    let (first, more) = sides(rt, masks, "/");
    let dtype = dtype(rt, alloc, words);
    let leaf = leaf(rt, alloc, &dtype, rows, bytes(rt, alloc, spelled));
    rows_of(
        rt,
        alloc,
        Arc::new(alloc, dtype).expect(rt, "new"),
        &leaf,
        start.parse::<usize>().expect(rt, "parse"),
        mask(rt, alloc, first).as_slice(),
        mask(rt, alloc, more).as_slice(),
    )
    .expect(rt, "rows_of")
}

/// What a column lends of how it is kept.
fn lent_told(rt: &impl Abort, alloc: Global, column: &Column) -> String {
    let mut text = String::new(alloc);
    if let Some(texts) = column.texts() {
        let (bytes, ends) = (texts.bytes(), texts.ends());
        write!(text, "texts {bytes:?} to {ends:?}:").expect(rt, "write");
        for i in 0..texts.len() {
            match texts.text(i) {
                Some(one) => write!(text, " \"{one}\"").expect(rt, "write"),
                None => write!(text, " null").expect(rt, "write"),
            }
        }
    }
    if let Some(truths) = column.truths() {
        write!(text, "truths {truths:?}").expect(rt, "write");
    }
    if let Some(numbers) = column.numbers() {
        write!(text, "numbers {numbers:?}").expect(rt, "write");
    }
    if let Some(there) = column.validity() {
        write!(text, "; there {there:?}").expect(rt, "write");
    }
    text
}

/// Calls on columns of lists and of leaves.
#[derive(Clone, Copy)]
enum On {
    /// `STEPS -> VALUES`, of the lists of 1 and null, of nothing, which is null, and of 3.
    Lists,
    /// `LEAF | STEPS -> VALUES`.
    Steps,
    /// `LEAF | STEPS -> WHAT IS LENT`.
    Lent,
    /// `LEAF | EXPRESSION -> VALUES`.
    Values,
}

impl Told for On {
    fn told(&self, rt: &impl Abort, alloc: Global, case: &str) -> String {
        match self {
            On::Lists => {
                let dtype = Arc::new(alloc, dtype(rt, alloc, "i8 ? list ?")).expect(rt, "new");
                let lists = cut(rt, alloc, dtype, column(rt, alloc, "i8 ? @ 1 null 3"));
                column_told(rt, alloc, Ok(stepped(rt, alloc, lists, case)))
            }
            On::Steps => {
                let (rows, steps) = sides(rt, case, " | ");
                column_told(
                    rt,
                    alloc,
                    Ok(stepped(rt, alloc, leaf_rows(rt, alloc, rows), steps)),
                )
            }
            On::Lent => {
                let (rows, steps) = sides(rt, case, " | ");
                lent_told(
                    rt,
                    alloc,
                    &stepped(rt, alloc, leaf_rows(rt, alloc, rows), steps),
                )
            }
            On::Values => {
                let (rows, words) = sides(rt, case, " | ");
                evaluated(rt, alloc, How::Lent, leaf_rows(rt, alloc, rows), words)
            }
        }
    }
}

#[test]
fn a_column_of_lists_gives_its_lists_with_their_elements(rt: HostRuntime) {
    let alloc = rt.alloc();
    hold(
        &rt,
        alloc,
        &On::Lists,
        "copy: -> [1, null], null, [3]
filter:011 -> null, [3]
from:1 -> null, [3]
then:0 -> [1, null], null, [3], [1, null], null, [3]",
    );
}

// Below, the numbers 1, null and 3; the texts "ab", null under a byte that is no text, "" and "é"; the truth values true,
// null, false and true.
#[test]
fn texts_of_a_leaf_stay_in_one_buffer_and_truth_values_are_lent_where_all_are_there(
    rt: HostRuntime,
) {
    let alloc = rt.alloc();
    hold(
        &rt,
        alloc,
        &On::Steps,
        "i32 ? @ 3 @ 1 0 1 1 0 0 0 0 0 0 0 3 0 0 0 @ 1/11/ | copy: -> null, 3
text ? @ 4 @ 1 0 1 1 2 0 0 0 97 98 1 0 0 0 255 0 0 0 0 2 0 0 0 195 169 @ 0/1/111 | copy: -> \"ab\", null, \"\", \"é\"
text ? @ 4 @ 1 0 1 1 2 0 0 0 97 98 1 0 0 0 255 0 0 0 0 2 0 0 0 195 169 @ 0/1/001 | copy: -> \"ab\", \"é\"",
    );
    hold(
        &rt,
        alloc,
        &On::Lent,
        "text ? @ 4 @ 1 0 1 1 2 0 0 0 97 98 1 0 0 0 255 0 0 0 0 2 0 0 0 195 169 @ 0/1/111 | copy: -> texts [97, 98, 195, 169] to [2, 2, 2, 4]: \"ab\" null \"\" \"é\"; there [true, false, true, true]
text ? @ 4 @ 1 0 1 1 2 0 0 0 97 98 1 0 0 0 255 0 0 0 0 2 0 0 0 195 169 @ 0/1/111 | filter:1011 -> texts [97, 98, 195, 169] to [2, 2, 4]: \"ab\" \"\" \"é\"; there [true, true, true]
text ? @ 4 @ 1 0 1 1 2 0 0 0 97 98 1 0 0 0 255 0 0 0 0 2 0 0 0 195 169 @ 0/1/111 | mask:0111 -> texts [97, 98, 195, 169] to [2, 2, 2, 4]: null null \"\" \"é\"; there [false, false, true, true]
text ? @ 4 @ 1 0 1 1 2 0 0 0 97 98 1 0 0 0 255 0 0 0 0 2 0 0 0 195 169 @ 0/1/111 | from:2 -> texts [195, 169] to [0, 2]: \"\" \"é\"; there [true, true]
text ? @ 4 @ 1 0 1 1 2 0 0 0 97 98 1 0 0 0 255 0 0 0 0 2 0 0 0 195 169 @ 0/1/111 | then:2 copy: -> texts [97, 98, 195, 169, 195, 169] to [2, 2, 2, 4, 4, 6]: \"ab\" null \"\" \"é\" \"\" \"é\"; there [true, false, true, true, true, true]
bool ? @ 4 @ 1 0 1 1 1 0 0 1 @ 0/1/111 | copy: -> ; there [true, false, true, true]
bool ? @ 4 @ 1 0 1 1 1 0 0 1 @ 0/1/011 | copy: -> truths [true, false, true]; there [true, true, true]
i32 ? @ 3 @ 1 0 1 1 0 0 0 0 0 0 0 3 0 0 0 @ 0/101/ | copy: -> numbers [1, 3]; there [true, true]",
    );
    hold(
        &rt,
        alloc,
        &On::Values,
        "text ? @ 4 @ 1 0 1 1 2 0 0 0 97 98 1 0 0 0 255 0 0 0 0 2 0 0 0 195 169 @ 0/1/111 | $ text:b < -> true, null, true, false
text ? @ 4 @ 1 0 1 1 2 0 0 0 97 98 1 0 0 0 255 0 0 0 0 2 0 0 0 195 169 @ 0/1/111 | $ $ < -> false, null, false, false
text ? @ 4 @ 1 0 1 1 2 0 0 0 97 98 1 0 0 0 255 0 0 0 0 2 0 0 0 195 169 @ 0/1/111 | text:b $ < -> false, null, false, true",
    );
}
