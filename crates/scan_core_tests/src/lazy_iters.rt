//! Iterators that builders set up when they are first asked.
ghost use Rattle.std.specs.Prelude.{◌≡◌};

use crate::case::{number, sides};
use crate::rows::{count, file, int, scan};
use crate::sources::source;
use crate::told::{Made, push_next};
use scan_core::{MapStep, ScanIter};
use scan_readers::LayoutReader;
use scan_segments::MemorySource;
use std::alloc::Global;
use std::process::Abort;
use std::string::String;

/// What so many calls give.
#[tactic(auto, using(crate::proofs::Applying::iter_applies))]
fn calls<T: Made + Drop, M: MapStep<Out = T, Fault = u8> + Drop, R: LayoutReader + Drop>(
    rt: &impl Abort,
    alloc: Global,
    iter: &mut ScanIter<R, M, MemorySource>,
    count: u64,
) -> String
    requires step { (m : M) → M.can_apply m }
{
    let mut text = String::new(alloc);
    for _ in 0..count {
        let next = iter.next(alloc);
        push_next(rt, alloc, &next, &mut text);
    }
    text
}

/// What the calls of a case give.
fn arrays(rt: &impl Abort, alloc: Global, case: &str) -> String {
    let count = number(rt, case, "calls:", 3);
    let mut reader = file(rt, alloc, case);
    let source = source(rt, alloc, case);
    let mut arrays = scan(rt, alloc, &mut reader, case).into_array_iter(source);
    calls(rt, alloc, &mut arrays, count)
}

/// Whether `CASE -> TEXT` holds.
fn gives(rt: &impl Abort, alloc: Global, line: &str) -> bool {
    let (case, wanted) = sides(rt, line, " -> ");
    arrays(rt, alloc, case).as_str() == wanted
}

#[test]
fn the_array_of_each_split_comes_however_late_it_is(rt: HostRuntime) {
    for line in "two of:b at_once:1 wait:0,1,2 calls:4 -> 10,20; 30; none; none
two of:b at_once:2 wait:0,1,2 calls:4 -> 10,20; 30; none; none
two of:b at_once:4 wait:0,1,2 calls:4 -> 10,20; 30; none; none"
        .lines()
    {
        assert!(rt; gives(&rt, rt.alloc(), line), "at {line}");
    }
}

#[test]
fn a_fault_comes_once_and_then_nothing(rt: HostRuntime) {
    for line in "two of:b at_once:1 fail:1 wait:0 calls:4 -> source SegmentId(2); none; none; none
two of:b at_once:1 segments:3 calls:4 -> 10,20; corrupt SegmentId(3); none; none
two of:b at_once:0 calls:4 -> setup: the concurrency is 0; none; none; none"
        .lines()
    {
        assert!(rt; gives(&rt, rt.alloc(), line), "at {line}");
    }
}

#[test]
fn a_limit_counts_the_rows_that_pass_the_filter(rt: HostRuntime) {
    for line in "two of:b least:1 limit:9 -> 10,20; 30; none
two of:b least:1 limit:1 -> 10; none; none
two of:b least:2 limit:2 -> 20; 30; none
two of:b least:3 limit:1 -> 30; none; none
two of:b least:2 limit:0 -> none; none; none"
        .lines()
    {
        assert!(rt; gives(&rt, rt.alloc(), line), "at {line}");
    }
}

/// What three calls give of what a map that refuses one row alone makes of three rows.
fn counted(rt: &impl Abort, alloc: Global, case: &str) -> String {
    let mut reader = file(rt, alloc, case);
    let source = source(rt, alloc, case);
    let builder = scan(rt, alloc, &mut reader, case);
    let mut counts = builder.map(|array| count(array)).into_iter(source);
    calls(rt, alloc, &mut counts, 3)
}

#[test]
fn a_map_makes_something_else_of_each_array(rt: HostRuntime) {
    let alloc = rt.alloc();
    for (case, wanted) in [
        ("file", "3 rows; none; none"),
        ("file limit:2", "2 rows; none; none"),
        ("file limit:1", "map 7; none; none"),
        ("file limit:0", "none; none; none"),
    ] {
        assert_eq!(rt; counted(&rt, alloc, case).as_str(), wanted);
    }
}

/// Whether its dtype is that of `b`, before the first call and after it.
fn is_of_b(rt: &impl Abort, alloc: Global, case: &str) -> bool {
    let mut reader = file(rt, alloc, case);
    let source = source(rt, alloc, case);
    let mut iter = scan(rt, alloc, &mut reader, case).into_array_iter(source);
    let before = *iter.dtype() == int();
    calls(rt, alloc, &mut iter, 1);
    before & (*iter.dtype() == int())
}

#[test]
fn an_iterator_has_the_dtype_of_the_projection(rt: HostRuntime) {
    let alloc = rt.alloc();
    assert!(rt; is_of_b(&rt, alloc, "two of:b at_once:1"));
    assert!(rt; is_of_b(&rt, alloc, "two of:b at_once:0"));
}
