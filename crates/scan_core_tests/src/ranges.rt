//! The ranges of a scan's splits, where a whole file is split, and why a scan is not set up.
use crate::case::{after, asked, sides};
use crate::rows::{Plain, file, in_tens, scan, thirty};
use crate::told::numbers_told;
use scan_core::SetupFault;
use scan_readers::LayoutReader;
use std::alloc::Global;
use std::ops::Range;
use std::process::Abort;
use std::string::String;

/// Ranges with a blank before each: ` 0..2 2..3`.
fn spelled(rt: &impl Abort, alloc: Global, ranges: &[Range<u64>]) -> String {
    let mut text = String::new(alloc);
    for range in ranges {
        let start = range.start;
        let end = range.end;
        text.push_str(
            format!(in alloc; " {start}..{end}")
                .expect(rt, "format")
                .as_str(),
        )
        .expect(rt, "push_str");
    }
    text
}

/// Why a scan is not set up, with a blank before it.
fn refused(rt: &impl Abort, alloc: Global, fault: SetupFault) -> String {
    format!(in alloc; " {fault}").expect(rt, "format")
}

/// The ranges of the splits that a builder sets up, or why it does not.
fn ranges<R: LayoutReader + Drop>(
    rt: &impl Abort,
    alloc: Global,
    builder: Plain<R>,
    case: &str,
) -> String {
    match builder.prepare(alloc) {
        Ok(scan) => spelled(
            rt,
            alloc,
            &scan
                .split_ranges(alloc, asked(rt, case))
                .expect(rt, "split_ranges"),
        ),
        Err(fault) => refused(rt, alloc, fault),
    }
}

/// The ranges of a case.
fn of_case(rt: &impl Abort, alloc: Global, case: &str) -> String {
    match after(case, "thirty") {
        Some(_) => {
            let mut reader = thirty(rt, alloc);
            ranges(rt, alloc, scan(rt, alloc, &mut reader, case), case)
        }
        None => match after(case, "tens") {
            Some(_) => {
                let mut reader = thirty(rt, alloc);
                ranges(rt, alloc, in_tens(rt, alloc, &mut reader, case), case)
            }
            None => {
                let mut reader = file(rt, alloc, case);
                ranges(rt, alloc, scan(rt, alloc, &mut reader, case), case)
            }
        },
    }
}

/// Whether `CASE -> RANGES` holds.
fn holds(rt: &impl Abort, alloc: Global, line: &str) -> bool {
    let (case, wanted) = sides(rt, line, " ->");
    of_case(rt, alloc, case).as_str() == wanted
}

// Natural splits are in tens; ranges that do not meet have none, and rows past the file neither.
#[test]
fn splits_are_cut_within_what_is_asked_for(rt: HostRuntime) {
    for line in "tens -> 0..10 10..20 20..30
tens asked:5..25 -> 5..10 10..20 20..25
tens asked:10..20 -> 10..20
tens asked:12..13 -> 12..13
tens asked:12..12 ->
tens rows:5..25 include:7,12,40 -> 7..10 10..13
tens rows:5..25 asked:0..12 -> 5..10 10..12
tens rows:5..10 asked:10..30 ->
tens include:7,12,40 asked:0..25 -> 7..10 10..13
tens include:30,40 ->
tens exclude:0,29 -> 0..10 10..20 20..30
thirty by:12 rows:5..25 -> 5..17 17..25
file -> 0..3
two -> 0..2 2..3"
        .lines()
    {
        assert!(rt; holds(&rt, rt.alloc(), line), "at {line}");
    }
}

// Each setting is refused by its name, and of two faults the first is told.
#[test]
fn the_first_fault_of_the_settings_is_told(rt: HostRuntime) {
    for line in "file at_once:1 by:1 rows:0..3 offset:18446744073709551612 -> 0..1 1..2 2..3
file at_once:0 by:1 rows:0..3 -> the concurrency is 0
file at_once:1 by:0 rows:0..3 -> splits of no rows
file at_once:1 by:1 rows:2..1 -> the range is reversed, or its end passes the row count
file at_once:1 by:1 rows:0..4 -> the range is reversed, or its end passes the row count
file at_once:1 by:1 rows:0..3 offset:18446744073709551615 -> the row offset and the row count pass u64 in sum
file at_once:0 by:0 rows:0..3 -> the concurrency is 0
file at_once:0 by:1 rows:2..1 -> the concurrency is 0
file at_once:0 by:1 rows:0..3 offset:18446744073709551615 -> the concurrency is 0
file at_once:1 by:0 rows:2..1 -> splits of no rows
file at_once:1 by:0 rows:0..3 offset:18446744073709551615 -> splits of no rows
file at_once:1 by:1 rows:0..4 offset:18446744073709551615 -> the range is reversed, or its end passes the row count"
        .lines()
    {
        assert!(rt; holds(&rt, rt.alloc(), line), "at {line}");
    }
}

/// Where all rows of a reader are split, or why they are not.
fn told(rt: &impl Abort, alloc: Global, splits: Result<Vec<u64>, SetupFault>) -> String {
    match splits {
        Ok(splits) => numbers_told(rt, alloc, splits.as_slice()),
        Err(fault) => refused(rt, alloc, fault),
    }
}

fn full_of_case(rt: &impl Abort, alloc: Global, case: &str) -> String {
    match after(case, "tens") {
        Some(_) => {
            let mut reader = thirty(rt, alloc);
            let mut builder = in_tens(rt, alloc, &mut reader, case);
            told(rt, alloc, builder.full_file_splits(alloc))
        }
        None => {
            let mut reader = file(rt, alloc, case);
            let mut builder = scan(rt, alloc, &mut reader, case);
            told(rt, alloc, builder.full_file_splits(alloc))
        }
    }
}

// Whatever rows are asked for.
#[test]
fn a_whole_file_is_split(rt: HostRuntime) {
    let alloc = rt.alloc();
    assert_eq!(rt; full_of_case(&rt, alloc, "file rows:1..2").as_str(), " 0 3");
    assert_eq!(rt;
        full_of_case(&rt, alloc, "file rows:1..2 by:2").as_str(),
        " 0 2 3"
    );
    assert_eq!(rt; full_of_case(&rt, alloc, "tens").as_str(), " 0 30");
    assert_eq!(rt;
        full_of_case(&rt, alloc, "file by:0").as_str(),
        " splits of no rows"
    );
}
