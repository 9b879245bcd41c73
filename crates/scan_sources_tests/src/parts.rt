//! The parts of scans of one reader: their rows, their limits and what they give; and why a source is not scanned.
use crate::requests::{number, request, sides};
use crate::rows::{file, ten};
use crate::told::{given, parts, push_given};
use scan_readers::RowsReader;
use scan_sources::{LayoutReaderDataSource, Precision};
use scan_values::{DTypeKind, PType};
use std::alloc::Global;
use std::process::Abort;
use std::string::String;

#[test]
fn a_source_tells_its_rows(rt: HostRuntime) {
    let alloc = rt.alloc();
    let source = ten(&rt, alloc);
    assert!(rt; source.dtype().kind() == DTypeKind::Primitive(PType::I32));
    assert!(rt; source.row_count() == Precision::Exact(10));
    assert!(rt; source.byte_size() == Precision::Absent);
}

/// Ten numbers, in parts of so many rows, of four where nothing is said.
fn in_parts(rt: &impl Abort, alloc: Global, case: &str) -> LayoutReaderDataSource<RowsReader> {
    let size = number(rt, case, "by:", 4);
    ten(rt, alloc).with_split_max_row_count(size)
}

/// Whether `CASE -> PARTS` holds of ten numbers.
fn gives(rt: &impl Abort, alloc: Global, line: &str) -> bool {
    let (case, wanted) = sides(rt, line, " -> ");
    let request = request(rt, alloc, case);
    let mut source = in_parts(rt, alloc, case);
    given(rt, alloc, parts(rt, alloc, &mut source, request)).as_str() == wanted
}

// Parts of an unordered scan with a filter share the limit.
#[test]
fn the_limit_is_lessened_part_by_part(rt: HostRuntime) {
    for line in "limit:5 -> 0..4 limit 5 exact 4 gives 0 1 2 3;4..8 limit 1 exact 1 gives 4;
limit:5 unordered -> 0..4 limit 5 exact 4 gives 0 1 2 3;4..8 limit 1 exact 1 gives 4;
least:2 limit:3 unordered -> 0..4 limit 3 inexact 3 gives 2 3;4..8 limit 3 inexact 3 gives 4;8..10 limit 3 inexact 2 gives;"
        .lines()
    {
        assert!(rt; gives(&rt, rt.alloc(), line), "at {line}");
    }
}

#[test]
fn parts_are_counted_by_the_rows_that_are_left(rt: HostRuntime) {
    let alloc = rt.alloc();
    let mut source = in_parts(&rt, alloc, "");
    let mut scan = parts(&rt, alloc, &mut source, request(&rt, alloc, "limit:5"));
    assert!(rt; scan.dtype().kind() == DTypeKind::Primitive(PType::I32));
    assert!(rt; scan.partition_count() == Precision::Inexact(3));
    assert!(rt;
        scan.next_partition(alloc)
            .expect(&rt, "next_partition")
            .is_some()
    );
    assert!(rt; scan.partition_count() == Precision::Inexact(2));
    assert!(rt;
        scan.next_partition(alloc)
            .expect(&rt, "next_partition")
            .is_some()
    );
    assert!(rt; scan.partition_count() == Precision::Exact(0));
    assert!(rt;
        scan.next_partition(alloc)
            .expect(&rt, "next_partition")
            .is_none()
    );
}

#[test]
fn a_part_tells_itself(rt: HostRuntime) {
    let alloc = rt.alloc();
    let mut source = file(&rt, alloc, 3);
    let mut scan = parts(&rt, alloc, &mut source, request(&rt, alloc, "rows:1..3"));
    let Some(split) = scan.next_partition(alloc).expect(&rt, "next_partition") else {
        panic!(rt; "no part");
    };
    assert!(rt; *split.row_range() == (1..3));
    assert!(rt; split.limit() == None);
    assert_eq!(rt; split.index(), 1);
    assert!(rt; split.row_count() == Precision::Exact(2));
    assert!(rt; split.byte_size() == Precision::Absent);
    let mut told = String::new(alloc);
    push_given(&rt, alloc, split, &mut told);
    assert_eq!(rt; told.as_str(), " gives 2 3");
}

/// Why ten numbers are not scanned.
fn refusal(rt: &impl Abort, alloc: Global, case: &str) -> String {
    let request = request(rt, alloc, case);
    let mut source = in_parts(rt, alloc, case);
    match source.scan(alloc, request) {
        Ok(_) => String::from_str(alloc, "none").expect(rt, "from_str"),
        Err(fault) => format!(in alloc; "{fault}").expect(rt, "format"),
    }
}

// Sizes are checked before ranges, and the projection is bound before the filter; partitions play no part.
#[test]
fn a_scan_of_ten_numbers_is_refused_by_its_first_fault(rt: HostRuntime) {
    let alloc = rt.alloc();
    for (case, wanted) in [
        ("by:4", "none"),
        ("by:4 rows:3..10", "none"),
        ("by:4 rows:10..10", "none"),
        ("by:0", "splits of no rows"),
        ("by:0 rows:3..2", "splits of no rows"),
        (
            "by:4 rows:3..2",
            "the range is reversed, or its end passes the row count",
        ),
        (
            "by:4 rows:0..11",
            "the range is reversed, or its end passes the row count",
        ),
        ("of:z where:$", "not a struct"),
        ("where:z", "not a struct"),
        ("where:$", "not a boolean of the nullability that is wanted"),
        ("part:7..9", "none"),
    ] {
        assert_eq!(rt; refusal(&rt, alloc, case).as_str(), wanted);
    }
}
