//! Requests by their words: `of:z least:2 rows:1..3 exclude:0,3 part:1..2 limit:5 unordered`.
use crate::rows::{int, name};
use scan_expr::{Expression, ScanRequest};
use scan_values::{Nullability, Selection, StrictSorted, Value};
use std::alloc::Global;
use std::ops::Range;
use std::process::Abort;

/// The two sides of a mark.
pub(crate) fn sides<'a>(rt: &impl Abort, line: &'a str, mark: &str) -> (&'a str, &'a str) {
    match line.split_once(mark) {
        Some(sides) => sides,
        None => panic!(rt; "half a line"),
    }
}

/// What stands in a case behind this word.
pub(crate) fn after<'a>(case: &'a str, word: &str) -> Option<&'a str> {
    for part in case.split_whitespace() {
        if let Some(text) = part.strip_prefix(word) {
            return Some(text);
        }
    }
    None
}

/// The number behind a word, or another where the word is lacking.
pub(crate) fn number(rt: &impl Abort, case: &str, word: &str, otherwise: u64) -> u64 {
    match after(case, word) {
        Some(text) => text.parse::<u64>().expect(rt, "parse"),
        None => otherwise,
    }
}

/// Rising numbers: `2,7`.
pub(crate) fn rising(rt: &impl Abort, alloc: Global, text: &str) -> StrictSorted {
    let mut numbers = Vec::new(alloc);
    for number in text.split(',') {
        numbers
            .push(number.parse::<u64>().expect(rt, "parse"))
            .expect(rt, "push");
    }
    StrictSorted::try_new(numbers).expect(rt, "try_new")
}

fn range(rt: &impl Abort, case: &str, word: &str) -> Option<Range<u64>> {
    let Some(text) = after(case, word) else {
        return None;
    };
    let (start, end) = sides(rt, text, "..");
    Some(start.parse::<u64>().expect(rt, "parse")..end.parse::<u64>().expect(rt, "parse"))
}

fn selection(rt: &impl Abort, alloc: Global, case: &str) -> Selection {
    match after(case, "exclude:") {
        Some(text) => Selection::ExcludeByIndex(rising(rt, alloc, text)),
        None => Selection::All,
    }
}

fn limit(rt: &impl Abort, case: &str) -> Option<u64> {
    match after(case, "limit:") {
        Some(text) => Some(text.parse::<u64>().expect(rt, "parse")),
        None => None,
    }
}

/// `$`, its length, a struct without fields, or the field `z`.
fn expression(rt: &impl Abort, alloc: Global, text: &str) -> Expression {
    match text {
        "$" => Expression::root(),
        "length" => Expression::list_length(alloc, Expression::root()).expect(rt, "list_length"),
        "nothing" => {
            let nothing = Nullability::NonNullable;
            Expression::pack(Vec::new(alloc), Vec::new(alloc), nothing)
        }
        _ => Expression::get_item(alloc, name(rt, alloc, text), Expression::root()).expect(
            rt, "get_item",
        ),
    }
}

/// `$ >= n`, of i32.
fn at_least(rt: &impl Abort, alloc: Global, n: i128) -> Expression {
    let n = Expression::lit(int(), Value::Int(n));
    Expression::gt_eq(alloc, Expression::root(), n).expect(rt, "gt_eq")
}

fn filter(rt: &impl Abort, alloc: Global, case: &str) -> Option<Expression> {
    if let Some(text) = after(case, "least:") {
        return Some(at_least(rt, alloc, text.parse::<i128>().expect(rt, "parse")));
    }
    match after(case, "where:") {
        Some(text) => Some(expression(rt, alloc, text)),
        None => None,
    }
}

fn projection(rt: &impl Abort, alloc: Global, case: &str) -> Expression {
    match after(case, "of:") {
        Some(text) => expression(rt, alloc, text),
        None => Expression::root(),
    }
}

/// The request of a case.
pub(crate) fn request(rt: &impl Abort, alloc: Global, case: &str) -> ScanRequest {
    let rows = range(rt, case, "rows:");
    let files = range(rt, case, "part:");
    let limit = limit(rt, case);
    let selection = selection(rt, alloc, case);
    let filter = filter(rt, alloc, case);
    let mut request = ScanRequest::new(projection(rt, alloc, case));
    request.filter = filter;
    request.row_range = rows;
    request.selection = selection;
    request.partition_range = files;
    request.limit = limit;
    request.ordered = after(case, "unordered").is_none();
    request
}
