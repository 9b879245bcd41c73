//! Iterators of scans that are set up.
use crate::case::{asked, sides};
use crate::rows::{int, prepared};
use crate::sources::source;
use crate::told::{push_next, refused};
use scan_core::{ArrayIter, Identity, RepeatedScan};
use scan_segments::MemorySource;
use std::alloc::Global;
use std::process::Abort;
use std::string::String;

/// What three calls of an iterator give.
fn calls(rt: &impl Abort, alloc: Global, arrays: ArrayIter<Identity<u8>, MemorySource>) -> String {
    let mut arrays = arrays;
    let mut text = String::new(alloc);
    for _ in 0..3 {
        push_next(rt, alloc, &arrays.next(alloc), &mut text);
    }
    text
}

/// What an iterator of a scan gives over the source of a case, or why there is none.
fn once(
    rt: &impl Abort,
    alloc: Global,
    scan: &mut RepeatedScan<Identity<u8>>,
    case: &str,
) -> String {
    let source = source(rt, alloc, case);
    match scan.execute_array_iter(alloc, asked(rt, case), source) {
        Ok(arrays) => calls(rt, alloc, arrays),
        Err(fault) => refused(rt, alloc, fault),
    }
}

/// Whether `CASE -> TEXT` holds of each of two iterators of one scan.
fn gives_twice(rt: &impl Abort, alloc: Global, line: &str) -> bool {
    let (case, wanted) = sides(rt, line, " -> ");
    let mut scan = prepared(rt, alloc, case);
    let first = once(rt, alloc, &mut scan, case);
    let second = once(rt, alloc, &mut scan, case);
    (first.as_str() == wanted) & (second.as_str() == wanted)
}

// Each execution has the whole limit, and a fault comes once in each.
#[test]
fn a_scan_is_executed_twice_in_a_row(rt: HostRuntime) {
    for line in "file wait:0,1,2 -> (1 10),(2 20),(3 30); none; none
two of:b at_once:2 limit:1 wait:0,1,2 -> 10; none; none
two of:b at_once:1 fail:1 -> 10,20; source SegmentId(3); none
two of:b at_once:1 asked:0..3 -> 10,20; 30; none
two of:b at_once:1 asked:2..1 -> the range is reversed, or its end passes the row count
two of:b at_once:1 asked:0..4 -> the range is reversed, or its end passes the row count"
        .lines()
    {
        assert!(rt; gives_twice(&rt, rt.alloc(), line), "at {line}");
    }
}

/// Whether an iterator has the dtype of `b`.
fn is_of_b(rt: &impl Abort, alloc: Global) -> bool {
    let source = source(rt, alloc, "");
    let mut scan = prepared(rt, alloc, "two of:b");
    let arrays = scan
        .execute_array_iter(alloc, None, source)
        .expect(rt, "execute_array_iter");
    *arrays.dtype() == int()
}

#[test]
fn an_iterator_has_the_dtype_of_the_projection(rt: HostRuntime) {
    assert!(rt; is_of_b(&rt, rt.alloc()));
}
