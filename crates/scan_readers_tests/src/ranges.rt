//! Ranges and rows of splits, the grid on which splits of elements are placed, ids of segments, and keys and bytes that are
//! copied.
use crate::caches::key;
use crate::told::push_numbers;
use crate::words::{bytes, numbers, sides};
use scan_segments::SegmentId;
use scan_splits::{
    RowSplits, SplitRange, SplitRangeFault, list_split_grid_size, map_element_split_to_outer_grid,
};
use std::alloc::Global;
use std::process::Abort;
use std::string::String;

/// What a range of a reader's rows is, and whether a reader of so many rows has them.
fn told_range(
    rt: &impl Abort,
    alloc: Global,
    made: Result<SplitRange, SplitRangeFault>,
    rows: u64,
) -> String {
    match made {
        Ok(range) => {
            let offset = range.row_offset();
            let local = range.row_range();
            let root = range.root_row_range();
            let (start, end, first, last) = (local.start, local.end, root.start, root.end);
            let (len, is_empty) = (range.len(), range.is_empty());
            let fault = range.check_bounds(rows).err();
            let copy = range.clone().expect(rt, "clone");
            let is_copied = copy == range;
            format!(in alloc;
                "{offset}; {start}..{end}; {first}..{last}; {len} rows, none {is_empty}; fault {fault:?}; copied {is_copied}"
            ).expect(rt, "format")
        }
        Err(fault) => format!(in alloc; "{fault:?}").expect(rt, "format"),
    }
}

/// The rows that are left of those of a script: `3` pushes that row, `extend` the rows 1 and 2, and `reserve` makes room for
/// two.
fn told_rows(rt: &impl Abort, alloc: Global, script: &str) -> String {
    let mut splits = RowSplits::new_capacity(alloc, 0).expect(rt, "new_capacity");
    for word in script.split_whitespace() {
        match word {
            "reserve" => splits.reserve(2).expect(rt, "reserve"),
            "extend" => splits
                .extend_ascending(&[1, 2])
                .expect(rt, "extend_ascending"),
            _ => splits
                .push(word.parse::<u64>().expect(rt, "parse"))
                .expect(rt, "push"),
        }
    }
    let mut text = String::new(alloc);
    let rows = splits.into_sorted_deduped();
    push_numbers(rt, alloc, rows.as_slice(), &mut text);
    text
}

/// What is told of a kind of numbers.
fn told_numbers(rt: &impl Abort, alloc: Global, kind: &str, of: &[u64]) -> String {
    match of {
        [number] => {
            if kind == "grid" {
                let cells = list_split_grid_size(*number);
                return format!(in alloc; "{cells}").expect(rt, "format");
            }
            match SegmentId::try_from(*number as usize) {
                Ok(id) => {
                    let number = *id;
                    format!(in alloc; "{id} {number}").expect(rt, "format")
                }
                Err(fault) => format!(in alloc; "{fault:?}").expect(rt, "format"),
            }
        }
        [first, last] => told_range(rt, alloc, SplitRange::root(*first..*last), *last),
        [a, b, c, d] => {
            if kind == "range" {
                return told_range(rt, alloc, SplitRange::try_new(*a, *b..*c), *d);
            }
            let placed = map_element_split_to_outer_grid(*a, *b, *c, *d);
            format!(in alloc; "{placed:?}").expect(rt, "format")
        }
        _ => panic!(rt; "of other numbers nothing is told"),
    }
}

// A range is in order and within the root, and has its rows there: `range OFFSET,FIRST,LAST,ROWS`; rows are left once and in
// order, and are added after there is room; a grid has a power of two of cells, and 64 at least; a split of elements is placed
// on the nearest cell, `place SPLIT,ELEMENTS,LISTS,CELLS`, and the greatest numbers do not wrap; a number past u32 is no id of
// a segment.
const NUMBERS: &str = "range 0,3,2,9 -> Reversed
range 18446744073709551615,0,1,9 -> Overflow
range 18446744073709551615,3,2,9 -> Reversed
range 5,1,3,2 -> 5; 1..3; 6..8; 2 rows, none false; fault Some(Bounds); copied true
range 5,1,3,3 -> 5; 1..3; 6..8; 2 rows, none false; fault None; copied true
root 3,2 -> Reversed
root 0,3 -> 0; 0..3; 0..3; 3 rows, none false; fault None; copied true
rows 0 10 20 0 10 20 5 -> [0,5,10,20]
rows 1 1 2 -> [1,2]
rows reserve extend 1 -> [1,2]
grid 0 -> 64
grid 524288 -> 64
grid 524289 -> 128
grid 1000000 -> 128
grid 18446744073709551615 -> 2251799813685248
place 50,100,1000,64 -> Some(500)
place 1,1000,1000,64 -> None
place 100,100,1000,64 -> None
place 0,100,1000,64 -> None
place 50,100,0,64 -> None
place 50,100,1000,1 -> None
place 9223372036854775808,18446744073709551615,18446744073709551615,2 -> Some(9223372036854775807)
id 7 -> SegmentId(7) 7
id 4294967296 -> TooLarge";

#[test]
fn ranges_rows_cells_and_ids_are_what_their_numbers_say(rt: HostRuntime) {
    let alloc = rt.alloc();
    for line in NUMBERS.lines() {
        let (case, wanted) = sides(&rt, line, " -> ");
        let (kind, text) = sides(&rt, case, " ");
        let told = match kind {
            "rows" => told_rows(&rt, alloc, text),
            _ => told_numbers(&rt, alloc, kind, numbers(&rt, alloc, text).as_slice()),
        };
        assert_eq!(rt; told.as_str(), wanted, "at {case}");
    }
    assert_eq!(rt; *SegmentId::default(), 0);
    let one = key(&rt, alloc, "1", "a");
    let copy = one.try_clone().expect(&rt, "try_clone");
    assert!(rt; copy == one);
    let buffer = bytes(&rt, alloc, "0405")
        .try_clone()
        .expect(&rt, "try_clone");
    assert!(rt; buffer.as_slice() == [4, 5].as_slice());
}
