//! Dtypes, expressions and values, read from words. What a word works on stands before it, as in `$ get:a i32:1 +`.
use crate::lines::sides;
use scan_expr::Expression;
use scan_values::{
    Array, DType, FieldName, Mask, Nullability, PType, StructFields, Text, Value, Values,
};
use std::alloc::Global;
use std::process::Abort;

/// What was made last.
pub(crate) fn taken<T: Drop>(rt: &impl Abort, stack: &mut Vec<T>) -> T {
    match stack.pop() {
        Some(made) => made,
        None => panic!(rt; "nothing stands before this word"),
    }
}

/// So many of what was made last, in the order in which they were made.
fn last<T: Drop>(rt: &impl Abort, alloc: Global, stack: &mut Vec<T>, count: usize) -> Vec<T> {
    let mut made = Vec::new(alloc);
    for _ in 0..count {
        made.push(taken(rt, stack)).expect(rt, "push");
    }
    made.reverse();
    made
}

/// Names that stand in a word: `a,b`.
pub(crate) fn names(rt: &impl Abort, alloc: Global, text: &str) -> Vec<FieldName> {
    let mut names = Vec::new(alloc);
    for name in text.split(',') {
        names
            .push(FieldName::from_str(alloc, name).expect(rt, "from_str"))
            .expect(rt, "push");
    }
    names
}

fn integer_type(rt: &impl Abort, name: &str) -> PType {
    match name {
        "i8" => PType::I8,
        "i32" => PType::I32,
        "i64" => PType::I64,
        "u8" => PType::U8,
        "u64" => PType::U64,
        _ => panic!(rt; "no integer type"),
    }
}

// ---- dtypes
fn structure(rt: &impl Abort, alloc: Global, stack: &mut Vec<DType>, text: &str) -> DType {
    let names = names(rt, alloc, text);
    let dtypes = last(rt, alloc, stack, names.len());
    if names.len() != dtypes.len() {
        panic!(rt; "uneven");
    }
    DType::struct_(StructFields::new(names, dtypes), Nullability::NonNullable).expect(rt, "struct_")
}

fn dtype_by(rt: &impl Abort, alloc: Global, stack: &mut Vec<DType>, word: &str) -> DType {
    match word.split_once(':') {
        Some((_, text)) => structure(rt, alloc, stack, text),
        None => match word {
            "?" => taken(rt, stack).nullable(),
            "list" => DType::list(alloc, taken(rt, stack), Nullability::NonNullable).expect(
                rt, "list",
            ),
            "bool" => DType::boolean(),
            "text" => DType::text(),
            _ => DType::primitive(integer_type(rt, word), Nullability::NonNullable),
        },
    }
}

/// A dtype: `i32 ?`, `i32 list`, `i32 bool struct:a,b ?`.
pub(crate) fn dtype(rt: &impl Abort, alloc: Global, words: &str) -> DType {
    let mut stack = Vec::new(alloc);
    for word in words.split_whitespace() {
        let made = dtype_by(rt, alloc, &mut stack, word);
        stack.push(made).expect(rt, "push");
    }
    taken(rt, &mut stack)
}

// ---- expressions
/// What a word makes of the last two.
fn of_two(rt: &impl Abort, alloc: Global, stack: &mut Vec<Expression>, word: &str) -> Expression {
    let b = taken(rt, stack);
    let a = taken(rt, stack);
    let made = match word {
        "and" => Expression::and(alloc, a, b),
        "or" => Expression::or(alloc, a, b),
        "mask" => Expression::mask(alloc, a, b),
        "=" => Expression::eq(alloc, a, b),
        "!=" => Expression::not_eq(alloc, a, b),
        "<" => Expression::lt(alloc, a, b),
        "<=" => Expression::lt_eq(alloc, a, b),
        ">" => Expression::gt(alloc, a, b),
        ">=" => Expression::gt_eq(alloc, a, b),
        "+" => Expression::checked_add(alloc, a, b),
        "-" => Expression::checked_sub(alloc, a, b),
        _ => panic!(rt; "no word of an expression"),
    };
    made.expect(rt, "made")
}

/// What a word alone makes.
fn alone(rt: &impl Abort, alloc: Global, stack: &mut Vec<Expression>, word: &str) -> Expression {
    let made = match word {
        "$" => return Expression::root(),
        "#" => return Expression::row_idx(),
        "true" => return Expression::lit_bool(true),
        "false" => return Expression::lit_bool(false),
        "not" => Expression::not(alloc, taken(rt, stack)),
        "is_null" => Expression::is_null(alloc, taken(rt, stack)),
        "is_not_null" => Expression::is_not_null(alloc, taken(rt, stack)),
        "length" => Expression::list_length(alloc, taken(rt, stack)),
        _ => return of_two(rt, alloc, stack, word),
    };
    made.expect(rt, "made")
}

fn pack(rt: &impl Abort, alloc: Global, stack: &mut Vec<Expression>, text: &str) -> Expression {
    let names = names(rt, alloc, text);
    let parts = last(rt, alloc, stack, names.len());
    if names.len() != parts.len() {
        panic!(rt; "uneven");
    }
    Expression::pack(names, parts, Nullability::NonNullable)
}

/// What was made last, in so many structs of it alone, each under `p`.
fn packs(rt: &impl Abort, alloc: Global, stack: &mut Vec<Expression>, count: usize) -> Expression {
    for _ in 0..count {
        let made = pack(rt, alloc, stack, "p");
        stack.push(made).expect(rt, "push");
    }
    taken(rt, stack)
}

/// What a word with names or a number makes.
fn with_text(
    rt: &impl Abort,
    alloc: Global,
    stack: &mut Vec<Expression>,
    word: &str,
    text: &str,
) -> Expression {
    let made = match word {
        "get" => {
            let name = FieldName::from_str(alloc, text).expect(rt, "from_str");
            Expression::get_item(alloc, name, taken(rt, stack))
        }
        "select" => Expression::select(alloc, names(rt, alloc, text), taken(rt, stack)),
        "exclude" => Expression::select_exclude(alloc, names(rt, alloc, text), taken(rt, stack)),
        "text" => Expression::lit_utf8(alloc, text),
        "pack" => return pack(rt, alloc, stack, text),
        "packs" => return packs(rt, alloc, stack, text.parse::<usize>().expect(rt, "parse")),
        _ => {
            let number = text.parse::<i128>().expect(rt, "parse");
            return Expression::lit_int(integer_type(rt, word), number);
        }
    };
    made.expect(rt, "made")
}

/// An expression: `$ get:a is_null`, `$ get:a # i32:1 pack:x,y,z`, `$ packs:63`.
pub(crate) fn expression(rt: &impl Abort, alloc: Global, words: &str) -> Expression {
    let mut stack = Vec::new(alloc);
    for word in words.split_whitespace() {
        let made = match word.split_once(':') {
            Some((word, text)) => with_text(rt, alloc, &mut stack, word, text),
            None => alone(rt, alloc, &mut stack, word),
        };
        stack.push(made).expect(rt, "push");
    }
    taken(rt, &mut stack)
}

// ---- values
/// So many of the values that were made last.
fn values_of(rt: &impl Abort, alloc: Global, stack: &mut Vec<Value>, count: &str) -> Values {
    Values::new(last(rt, alloc, stack, count.parse::<usize>().expect(rt, "parse")))
}

fn value_by(rt: &impl Abort, alloc: Global, stack: &mut Vec<Value>, word: &str) -> Value {
    match word.split_once(':') {
        Some((what, text)) => match what {
            "text" => Value::Text(Text::new(String::from_str(alloc, text).expect(rt, "from_str"))),
            "list" => Value::List(values_of(rt, alloc, stack, text)),
            _ => Value::Struct(values_of(rt, alloc, stack, text)),
        },
        None => match word {
            "null" => Value::Null,
            "true" => Value::Bool(true),
            "false" => Value::Bool(false),
            _ => Value::Int(word.parse::<i128>().expect(rt, "parse")),
        },
    }
}

/// Values: `null 5 true text:x`; a list of three and a struct of two: `1 2 3 list:3 null 5 struct:2`.
pub(crate) fn values(rt: &impl Abort, alloc: Global, words: &str) -> Vec<Value> {
    let mut stack = Vec::new(alloc);
    for word in words.split_whitespace() {
        let made = value_by(rt, alloc, &mut stack, word);
        stack.push(made).expect(rt, "push");
    }
    stack
}

/// The array of `DTYPE @ VALUES`.
pub(crate) fn array(rt: &impl Abort, alloc: Global, case: &str) -> Array {
    let (words, rows) = sides(rt, case, " @ ");
    let dtype = dtype(rt, alloc, words);
    Array::try_new(dtype, values(rt, alloc, rows)).expect(rt, "try_new")
}

/// A mask by its letters, 1 where it is true.
pub(crate) fn mask(rt: &impl Abort, alloc: Global, letters: &str) -> Mask {
    let mut bits = Vec::new(alloc);
    for letter in letters.as_bytes() {
        bits.push(*letter == b'1').expect(rt, "push");
    }
    Mask::from_bools(bits)
}
