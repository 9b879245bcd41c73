//! Iterators over a source of their own.
use crate::maps::UnlessOf;
use crate::six_rows::{got, int, source_of, splits, stream, stream_of};
use crate::stories::{begin, push, push_fault, push_number};
use scan_segments::MemorySource;
use scan_streams::{ArrayIter, Identity, Mapped, StreamFault};
use scan_values::Array;
use std::alloc::Global;
use std::process::Abort;

/// How many rows an array has that comes next, or the fault in its place.
fn push_next(
    rt: &impl Abort,
    alloc: Global,
    next: &Option<Result<Array, StreamFault<usize>>>,
    text: &mut String,
) {
    begin(rt, text);
    match next {
        Some(Ok(array)) => push_number(rt, alloc, "", array.len() as i128, text),
        Some(Err(fault)) => push_fault(rt, alloc, fault, text),
        None => push(rt, text, "none"),
    }
}

/// What so many calls give.
fn counts(
    rt: &impl Abort,
    alloc: Global,
    iter: &mut ArrayIter<UnlessOf, MemorySource>,
    count: usize,
) -> String {
    let mut text = String::new(alloc);
    for _ in 0..count {
        let next = iter.next(alloc);
        push_next(rt, alloc, &next, &mut text);
    }
    text
}

fn is_of_ints(iter: &ArrayIter<UnlessOf, MemorySource>) -> bool {
    *iter.dtype() == int()
}

/// What so many calls of an iterator over numbers give.
fn story(rt: &impl Abort, alloc: Global, case: &str, count: usize) -> String {
    let source = source_of(rt, alloc, case);
    let stream = stream_of(rt, alloc, case);
    let mut iter = ArrayIter::new(stream, source);
    if !is_of_ints(&iter) {
        panic!(rt; "another dtype");
    }
    counts(rt, alloc, &mut iter, count)
}

// It gives none for ever, and a fault once.
#[test]
fn an_iterator_polls_on_to_its_end(rt: HostRuntime) {
    for (case, wanted) in [
        ("wait:0,1,3", "2; 1; 3; none; none"),
        ("refuse:1 wait:1", "2; map 1; none; none; none"),
    ] {
        let told = story(&rt, rt.alloc(), case, 5);
        assert_eq!(rt; told.as_str(), wanted);
    }
}

/// How many rows an array has.
fn rows_of(array: Array) -> Result<usize, u8> {
    Ok(array.len())
}

fn rows_in(next: &Option<Result<usize, StreamFault<u8>>>) -> Option<usize> {
    match next {
        Some(Ok(rows)) => Some(*rows),
        _ => None,
    }
}

/// What a function makes of the first array.
fn first_of(rt: &impl Abort, alloc: Global) -> Option<usize> {
    let source = source_of(rt, alloc, "wait:0");
    let splits = got(rt, splits(alloc, 2, 3));
    let identity: Identity<u8> = Identity::new();
    let step = Mapped::new(identity, |array| rows_of(array));
    let stream = stream(rt, alloc, splits, true, 1, None, step);
    let mut iter = ArrayIter::new(stream, source);
    rows_in(&iter.next(alloc))
}

#[test]
fn an_iterator_gives_what_a_function_makes_of_its_arrays(rt: HostRuntime) {
    assert_eq!(rt; first_of(&rt, rt.alloc()), Some(2));
}
