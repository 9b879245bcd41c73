//! The splits of scans, executed: what each wants, poll by poll, and what it gives.
use crate::case::{after, asked, sides};
use crate::rows::{Plain, count, file, in_tens, prepared, scan, thirty};
use crate::sources::segment;
use crate::told::{push_split, refused};
use scan_core::{Identity, SetupFault, SplitFuture, SplitPoll};
use scan_readers::LayoutReader;
use scan_segments::SegmentId;
use scan_splits::{Arrival, Inbox};
use scan_values::Array;
use std::alloc::Global;
use std::process::Abort;
use std::string::String;

/// A split that gives its array.
type Split = SplitFuture<Identity<u8>>;

fn deliver(rt: &impl Abort, alloc: Global, inbox: &mut Inbox, ids: &[SegmentId]) {
    for id in ids {
        if inbox.has(*id) {
            panic!(rt; "wanted again");
        }
        let bytes = segment(rt, alloc, **id);
        inbox
            .deliver(*id, Arrival::Bytes(bytes))
            .expect(rt, "deliver");
    }
}

/// Tells a poll, and gives the split what it wants; whether it wants something.
fn goes_on(
    rt: &impl Abort,
    alloc: Global,
    poll: &SplitPoll<Array, u8>,
    inbox: &mut Inbox,
    text: &mut String,
) -> bool {
    push_split(rt, alloc, poll, text);
    match poll {
        SplitPoll::Pending(ids) => {
            deliver(rt, alloc, inbox, ids.as_slice());
            true
        }
        _ => false,
    }
}

/// What the polls of a split tell, up to four, before each of which all that it wanted arrives.
fn told(rt: &impl Abort, alloc: Global, split: Split) -> String {
    let mut split = split;
    let mut inbox = Inbox::new(alloc);
    let mut text = String::new(alloc);
    for _ in 0..4 {
        if !goes_on(rt, alloc, &split.poll(alloc, &inbox), &mut inbox, &mut text) {
            return text;
        }
    }
    panic!(rt; "more than four polls")
}

/// What splits tell, one after the other, or why there are none.
fn story(rt: &impl Abort, alloc: Global, splits: Result<Vec<Split>, SetupFault>) -> String {
    match splits {
        Ok(splits) => {
            let mut text = String::new(alloc);
            for split in splits {
                if !text.is_empty() {
                    text.push_str(" / ").expect(rt, "push_str");
                }
                text.push_str(told(rt, alloc, split).as_str())
                    .expect(rt, "push_str");
            }
            text
        }
        Err(fault) => refused(rt, alloc, fault),
    }
}

/// What the splits of a builder tell.
fn built<R: LayoutReader + Drop>(rt: &impl Abort, alloc: Global, builder: Plain<R>) -> String {
    story(rt, alloc, builder.build(alloc))
}

/// What the splits of a case tell.
fn of_case(rt: &impl Abort, alloc: Global, case: &str) -> String {
    match after(case, "tens") {
        Some(_) => {
            let mut reader = thirty(rt, alloc);
            built(rt, alloc, in_tens(rt, alloc, &mut reader, case))
        }
        None => {
            let mut reader = file(rt, alloc, case);
            built(rt, alloc, scan(rt, alloc, &mut reader, case))
        }
    }
}

/// Whether `CASE -> TEXT` holds of the splits that a builder gives.
fn gives(rt: &impl Abort, alloc: Global, line: &str) -> bool {
    let (case, wanted) = sides(rt, line, " -> ");
    of_case(rt, alloc, case).as_str() == wanted
}

// A split wants the segments of its rows; a filter is waited for before the projection, and where no row passes nothing
// more is wanted; a conjunct over row numbers runs first; rows are numbered from the offset on; a builder is checked
// before its limit, which futures don't have.
#[test]
fn splits_want_and_give_what_their_scan_asks_for(rt: HostRuntime) {
    for line in "two of:b -> wants 2; gives 10,20 / wants 3; gives 30
file of:b least:2 -> wants 0; wants 1; gives 20,30
file of:b least:100 -> wants 0; gives none
file of:b least:1 below:0 -> gives none
file of:# offset:5 rows:1..3 -> gives 6,7
file of:a below:7 offset:5 -> wants 0; gives 1,2
two of:b include:2,18446744073709551615 -> wants 3; gives 30
two of:b exclude:0,2 -> wants 2; gives 20 / gives none
tens rows:8..21 unordered -> gives 8,9 / gives 10,11,12,13,14,15,16,17,18,19 / gives 20
file of:a by:2 -> wants 0; gives 1,2 / wants 0; gives 3
file by:2 limit:2 -> futures of a scan that has a limit
file by:0 limit:2 -> splits of no rows"
        .lines()
    {
        assert!(rt; gives(&rt, rt.alloc(), line), "at {line}");
    }
}

/// Whether `CASE -> TEXT` holds of each of two executions of a scan that is set up.
fn gives_twice(rt: &impl Abort, alloc: Global, line: &str) -> bool {
    let (case, wanted) = sides(rt, line, " -> ");
    let mut scan = prepared(rt, alloc, case);
    let first = story(rt, alloc, scan.execute(alloc, asked(rt, case)));
    let second = story(rt, alloc, scan.execute(alloc, asked(rt, case)));
    (first.as_str() == wanted) & (second.as_str() == wanted)
}

#[test]
fn two_executions_of_a_scan_give_the_same(rt: HostRuntime) {
    for line in "file of:a -> wants 0; gives 1,2,3
file of:a asked:0..3 -> wants 0; gives 1,2,3
file of:a asked:2..1 -> the range is reversed, or its end passes the row count
file of:a asked:0..4 -> the range is reversed, or its end passes the row count
file of:a limit:9 asked:0..3 -> futures of a scan that has a limit
file of:a limit:9 asked:2..1 -> futures of a scan that has a limit"
        .lines()
    {
        assert!(rt; gives_twice(&rt, rt.alloc(), line), "at {line}");
    }
}

/// One more, or a fault of eight.
fn one_more(n: usize) -> Result<usize, u8> {
    if n >= 8 {
        return Err(8);
    }
    Ok(n + 1)
}

/// What the first split of thirty rows is made to.
fn mapped(rt: &impl Abort, alloc: Global, case: &str) -> String {
    let mut reader = thirty(rt, alloc);
    let builder = in_tens(rt, alloc, &mut reader, case);
    let counted = builder.map(|array| count(array)).map(|n| one_more(n));
    for split in counted.build(alloc).expect(rt, "build") {
        let mut split = split;
        let mut text = String::new(alloc);
        push_split(rt, alloc, &split.poll(alloc, &Inbox::new(alloc)), &mut text);
        return text;
    }
    panic!(rt; "no split")
}

#[test]
fn maps_are_called_one_after_the_other(rt: HostRuntime) {
    let alloc = rt.alloc();
    assert_eq!(rt; mapped(&rt, alloc, "rows:4..30").as_str(), "gives 7 rows");
    assert_eq!(rt; mapped(&rt, alloc, "rows:29..30").as_str(), "map 7");
    assert_eq!(rt; mapped(&rt, alloc, "rows:0..30").as_str(), "map 8");
}
