//! Words of cases: numbers, bytes in hex, masks, dtypes, and expressions, in which what a word works on stands before it,
//! as in `$ get:a i32:1 >`.
use scan_expr::Expression;
use scan_layout::Spelling;
use scan_segments::ByteBuffer;
use scan_values::{DType, FieldMask, FieldName, FieldPath, Mask, Nullability, PType, Value};
use std::alloc::Global;
use std::process::Abort;

/// The two sides of a mark.
pub(crate) fn sides<'a>(rt: &impl Abort, line: &'a str, mark: &str) -> (&'a str, &'a str) {
    match line.split_once(mark) {
        Some(sides) => sides,
        None => panic!(rt; "half a line"),
    }
}

/// The same, or all of a text without the mark, and nothing.
pub(crate) fn before<'a>(text: &'a str, mark: &str) -> (&'a str, &'a str) {
    match text.split_once(mark) {
        Some(sides) => sides,
        None => (text, ""),
    }
}

/// What was made last.
pub(crate) fn taken<T: Drop>(rt: &impl Abort, stack: &mut Vec<T>) -> T {
    match stack.pop() {
        Some(made) => made,
        None => panic!(rt; "nothing stands before this word"),
    }
}

/// So many of what was made last, in the order in which they were made.
pub(crate) fn last<T: Drop>(
    rt: &impl Abort,
    alloc: Global,
    stack: &mut Vec<T>,
    count: usize,
) -> Vec<T> {
    let mut made = Vec::new(alloc);
    for _ in 0..count {
        made.push(taken(rt, stack)).expect(rt, "push");
    }
    made.reverse();
    made
}

/// Numbers with a comma between two of them, or none.
pub(crate) fn numbers(rt: &impl Abort, alloc: Global, text: &str) -> Vec<u64> {
    let mut numbers = Vec::new(alloc);
    if text.is_empty() {
        return numbers;
    }
    for number in text.split(',') {
        numbers
            .push(number.parse::<u64>().expect(rt, "parse"))
            .expect(rt, "push");
    }
    numbers
}

/// Bytes in hex.
pub(crate) fn bytes(rt: &impl Abort, alloc: Global, text: &str) -> ByteBuffer {
    let bytes = hex::decode(alloc, text).expect(rt, "decode");
    ByteBuffer::new(alloc, bytes).expect(rt, "new")
}

/// A mask of noughts and ones.
pub(crate) fn mask(rt: &impl Abort, alloc: Global, text: &str) -> Mask {
    let mut bits = Vec::new(alloc);
    for byte in text.as_bytes() {
        bits.push(*byte == b'1').expect(rt, "push");
    }
    Mask::from_bools(bits)
}

/// Names that stand in a word: `a,b`.
pub(crate) fn names(rt: &impl Abort, alloc: Global, text: &str) -> Vec<FieldName> {
    let mut names = Vec::new(alloc);
    for name in text.split(',') {
        names
            .push(FieldName::from_str(alloc, name).expect(rt, "from_str"))
            .expect(rt, "push");
    }
    names
}

/// Masks of fields: `all`, `none`, or that of the path of these names.
pub(crate) fn field_masks(rt: &impl Abort, alloc: Global, word: &str) -> Vec<FieldMask> {
    let mut masks = Vec::new(alloc);
    match word {
        "none" => masks,
        "all" => {
            masks.push(FieldMask::All).expect(rt, "push");
            masks
        }
        _ => {
            let path = FieldPath::from_names(names(rt, alloc, word));
            masks.push(FieldMask::Prefix(path)).expect(rt, "push");
            masks
        }
    }
}

/// A spelling by its number, or the one where none is said.
pub(crate) fn spelling(rt: &impl Abort, word: &str) -> Spelling {
    match word {
        "" => Spelling::default(),
        "1" => Spelling::One,
        "2" => Spelling::Two,
        _ => panic!(rt; "no spelling"),
    }
}

/// The dtype of a leaf: `i32`, `utf8?`.
pub(crate) fn dtype(rt: &impl Abort, word: &str) -> DType {
    let (word, nullability) = match word.strip_suffix('?') {
        Some(word) => (word, Nullability::Nullable),
        None => (word, Nullability::NonNullable),
    };
    match word {
        "bool" => DType::bool(nullability),
        "utf8" => DType::utf8(nullability),
        "u8" => DType::primitive(PType::U8, nullability),
        "u32" => DType::primitive(PType::U32, nullability),
        "u64" => DType::primitive(PType::U64, nullability),
        "i32" => DType::primitive(PType::I32, nullability),
        "i64" => DType::primitive(PType::I64, nullability),
        _ => panic!(rt; "no dtype of a leaf"),
    }
}

/// Null, a truth value or a number.
pub(crate) fn value(rt: &impl Abort, word: &str) -> Value {
    match word {
        "null" => Value::Null,
        "true" => Value::Bool(true),
        "false" => Value::Bool(false),
        _ => Value::Int(word.parse::<i128>().expect(rt, "parse")),
    }
}

/// What a word alone makes of what was made last.
fn of_last(rt: &impl Abort, alloc: Global, stack: &mut Vec<Expression>, word: &str) -> Expression {
    let e = taken(rt, stack);
    let made = match word {
        "is_null" => Expression::is_null(alloc, e),
        "is_not_null" => Expression::is_not_null(alloc, e),
        "length" => Expression::list_length(alloc, e),
        "=" => Expression::eq(alloc, taken(rt, stack), e),
        ">" => Expression::gt(alloc, taken(rt, stack), e),
        ">=" => Expression::gt_eq(alloc, taken(rt, stack), e),
        "+" => Expression::checked_add(alloc, taken(rt, stack), e),
        "and" => Expression::and(alloc, taken(rt, stack), e),
        _ => panic!(rt; "no word of an expression"),
    };
    made.expect(rt, "made")
}

/// What a word with a name, names or a number makes.
fn with_text(
    rt: &impl Abort,
    alloc: Global,
    stack: &mut Vec<Expression>,
    word: &str,
    text: &str,
) -> Expression {
    match word {
        "get" => {
            let name = FieldName::from_str(alloc, text).expect(rt, "from_str");
            Expression::get_item(alloc, name, taken(rt, stack)).expect(rt, "get_item")
        }
        "select" => {
            let names = names(rt, alloc, text);
            Expression::select(alloc, names, taken(rt, stack)).expect(rt, "select")
        }
        _ => Expression::lit(dtype(rt, word), value(rt, text)),
    }
}

/// An expression: `$ get:a i32:1 >`.
pub(crate) fn expression(rt: &impl Abort, alloc: Global, words: &str) -> Expression {
    let mut stack = Vec::new(alloc);
    for word in words.split_whitespace() {
        let made = match word.split_once(':') {
            Some((word, text)) => with_text(rt, alloc, &mut stack, word, text),
            None => match word {
                "$" => Expression::root(),
                "row_idx" => Expression::row_idx(),
                _ => of_last(rt, alloc, &mut stack, word),
            },
        };
        stack.push(made).expect(rt, "push");
    }
    taken(rt, &mut stack)
}
