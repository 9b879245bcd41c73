//! What scans of a source tell, as a text: each part as `0..4 limit 5 exact 4`, what it gives as ` gives 1 2`, of rows
//! ` 1-10 2-20`.
ghost use Rattle.std.specs.Prelude.{◌≡◌, []};

use crate::rows::segments;
use scan_readers::LayoutReader;
use scan_segments::MemorySource;
use scan_sources::{
    LayoutReaderDataSource, LayoutReaderScan, LayoutReaderSplit, LayoutScan, Precision, ScanRequest,
};
use scan_streams::{ArrayIter, Identity, ScanStream, StreamFault};
use scan_values::{Array, Value};
use std::alloc::Global;
use std::process::Abort;
use std::string::String;

/// A number that is known, estimated or not known.
pub(crate) fn known(rt: &impl Abort, alloc: Global, count: Precision<u64>) -> String {
    match count {
        Precision::Exact(n) => format!(in alloc; "exact {n}").expect(rt, "format"),
        Precision::Inexact(n) => format!(in alloc; "inexact {n}").expect(rt, "format"),
        Precision::Absent => String::from_str(alloc, "absent").expect(rt, "from_str"),
    }
}

fn limited(rt: &impl Abort, alloc: Global, limit: Option<u64>) -> String {
    match limit {
        Some(n) => format!(in alloc; " limit {n}").expect(rt, "format"),
        None => String::new(alloc),
    }
}

/// A part: its rows, its limit and its count of rows.
fn part(rt: &impl Abort, alloc: Global, split: &LayoutReaderSplit) -> String {
    let rows = split.row_range();
    let start = rows.start;
    let end = rows.end;
    let limit = limited(rt, alloc, split.limit());
    let count = known(rt, alloc, split.row_count());
    format!(in alloc; "{start}..{end}{limit} {count}").expect(rt, "format")
}

/// A scan of a source in parts, where that is what comes.
pub(crate) fn parts<R: LayoutReader + Drop>(
    rt: &impl Abort,
    alloc: Global,
    source: &mut LayoutReaderDataSource<R>,
    request: ScanRequest,
) -> LayoutReaderScan {
    match source.scan(alloc, request) {
        Ok(LayoutScan::Splits(scan)) => scan,
        Ok(LayoutScan::Empty(_)) => panic!(rt; "nothing is read"),
        Err(_) => panic!(rt; "a refusal"),
    }
}

// A number, or the two numbers of a row.
fn push_value(rt: &impl Abort, alloc: Global, value: &Value, text: &mut String) {
    let told = match value {
        Value::Int(number) => format!(in alloc; " {number}").expect(rt, "format"),
        Value::Struct(values) => match values.as_slice() {
            [Value::Int(a), Value::Int(b)] => format!(in alloc; " {a}-{b}").expect(rt, "format"),
            _ => panic!(rt; "no two numbers"),
        },
        _ => panic!(rt; "not a number"),
    };
    text.push_str(told.as_str()).expect(rt, "push_str");
}

fn push_array(rt: &impl Abort, alloc: Global, array: &Array, text: &mut String) {
    for value in array.as_slice() {
        push_value(rt, alloc, value, text);
    }
}

/// Tells an array, and whether there was one.
fn push_next(
    rt: &impl Abort,
    alloc: Global,
    next: &Option<Result<Array, StreamFault<()>>>,
    text: &mut String,
) -> bool {
    match next {
        Some(Ok(array)) => {
            push_array(rt, alloc, array, text);
            true
        }
        Some(Err(_)) => panic!(rt; "a fault"),
        None => false,
    }
}

fn push_arrays(
    rt: &impl Abort,
    alloc: Global,
    arrays: &mut ArrayIter<Identity<()>, MemorySource>,
    text: &mut String,
) {
    for _ in 0..4 {
        let next = arrays.next(alloc);
        if !push_next(rt, alloc, &next, text) {
            return ();
        }
    }
    panic!(rt; "more than four arrays")
}

/// The rows that a stream gives.
pub(crate) fn push_stream(
    rt: &impl Abort,
    alloc: Global,
    stream: ScanStream<Identity<()>>,
    text: &mut String,
)
    requires { (stream.feed).live ≡ [] }
{
    let mut arrays = ArrayIter::new(stream, segments(rt, alloc));
    push_arrays(rt, alloc, &mut arrays, text)
}

/// The numbers that a part gives.
pub(crate) fn push_given(
    rt: &impl Abort,
    alloc: Global,
    split: LayoutReaderSplit,
    text: &mut String,
) {
    text.push_str(" gives").expect(rt, "push_str");
    push_stream(rt, alloc, split.execute(alloc).expect(rt, "execute"), text)
}

/// Each part of a scan, up to nine of them, and what it gives.
pub(crate) fn given(rt: &impl Abort, alloc: Global, scan: LayoutReaderScan) -> String {
    let mut scan = scan;
    let mut text = String::new(alloc);
    for _ in 0..9 {
        let Some(split) = scan.next_partition(alloc).expect(rt, "next_partition") else {
            break;
        };
        text.push_str(part(rt, alloc, &split).as_str())
            .expect(rt, "push_str");
        push_given(rt, alloc, split, &mut text);
        text.push_str(";").expect(rt, "push_str");
    }
    text
}
