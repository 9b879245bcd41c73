//! The order of values.
ghost use Rattle.std.specs.Prelude.{◌≡◌, map};
ghost use Rattle.std.specs.Cmp.Lexicographic.{slice_cmp};
ghost use Rattle.scan_values.specs.Values.{val_of};
ghost use Rattle.scan_groups.specs.Cells.{cell_val};
ghost use Rattle.scan_groups.specs.Order.{kind_of, truth_of, number_of, text_of, value_cmp};

use crate::cell::Cell;
use scan_values::Value;
use std::cmp::Ordering;

fn kind_in(value: &Value) -> u8
    ensures { result ≡ kind_of (val_of value.now) }
{
    match value {
        Value::Null => 0,
        Value::Bool(_) => 1,
        Value::Int(_) => 2,
        Value::Text(_) => 3,
        Value::List(_) => 4,
        Value::Struct(_) => 5,
    }
}

fn truth_in(value: &Value) -> bool
    ensures { result ≡ truth_of (val_of value.now) }
{
    match value {
        Value::Bool(b) => *b,
        _ => false,
    }
}

fn number_in(value: &Value) -> i128
    ensures { result ≡ number_of (val_of value.now) }
{
    match value {
        Value::Int(n) => *n,
        _ => 0,
    }
}

fn text_in(value: &Value) -> &[u8]
    ensures { result.now ≡ text_of (val_of value.now) }
{
    match value {
        Value::Text(text) => text.as_str().as_bytes(),
        _ => &[],
    }
}

fn kind_of(cell: Cell) -> u8
    ensures { result ≡ kind_of (cell_val cell.entry) }
{
    match cell {
        Cell::Null => 0,
        Cell::Truth(_) => 1,
        Cell::Number(_) => 2,
        Cell::Text(_) => 3,
        Cell::Held(value) => kind_in(value),
    }
}

fn truth_of(cell: Cell) -> bool
    ensures { result ≡ truth_of (cell_val cell.entry) }
{
    match cell {
        Cell::Truth(b) => b,
        Cell::Held(value) => truth_in(value),
        Cell::Null => false,
        Cell::Number(_) => false,
        Cell::Text(_) => false,
    }
}

pub(crate) fn number_of(cell: Cell) -> i128
    ensures { result ≡ number_of (cell_val cell.entry) }
{
    match cell {
        Cell::Number(n) => n,
        Cell::Held(value) => number_in(value),
        Cell::Null => 0,
        Cell::Truth(_) => 0,
        Cell::Text(_) => 0,
    }
}

fn text_of<'a>(cell: Cell<'a>) -> &'a [u8]
    ensures { result.now ≡ text_of (cell_val cell.entry) }
{
    match cell {
        Cell::Text(text) => text.as_bytes(),
        Cell::Held(value) => text_in(value),
        Cell::Null => &[],
        Cell::Truth(_) => &[],
        Cell::Number(_) => &[],
    }
}

fn compare_parts(a: Cell, b: Cell) -> Ordering
    ensures { result ≡ value_cmp (cell_val a.entry) (cell_val b.entry) }
{
    kind_of(a)
        .cmp(&kind_of(b))
        .then(truth_of(a).cmp(&truth_of(b)))
        .then(number_of(a).cmp(&number_of(b)))
        .then(text_of(a).cmp(&text_of(b)))
}

/// Which of two lent values comes first.
pub(crate) fn compare_cells(a: Cell, b: Cell) -> Ordering
    ensures { result ≡ value_cmp (cell_val a.entry) (cell_val b.entry) }
{
    let Cell::Number(x) = a else {
        return compare_parts(a, b);
    };
    let Cell::Number(y) = b else {
        return compare_parts(a, b);
    };
    x.cmp(&y)
}

/// Which of two values comes first: null before false, true, integers by value, texts by their bytes, lists and structs.
/// Two lists, and two structs, are not told apart.
pub fn compare(a: &Value, b: &Value) -> Ordering
    ensures { result ≡ value_cmp (val_of a.now) (val_of b.now) }
{
    compare_cells(Cell::of(a), Cell::of(b))
}

/// Which of two lists of values comes first, by the first two that differ, else by their lengths.
pub(crate) fn compare_all(a: &[Value], b: &[Value]) -> Ordering
    ensures { result ≡ slice_cmp value_cmp (map val_of a.now) (map val_of b.now) }
{
    match a {
        [] => match b {
            [] => Ordering::Equal,
            [_, ..] => Ordering::Less,
        },
        [x, xs @ ..] => match b {
            [] => Ordering::Greater,
            [y, ys @ ..] => match compare(x, y) {
                Ordering::Less => Ordering::Less,
                Ordering::Equal => compare_all(xs, ys),
                Ordering::Greater => Ordering::Greater,
            },
        },
    }
}
