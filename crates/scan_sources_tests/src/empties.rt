//! Scans of which nothing is read but the number of rows.
use crate::requests::request;
use crate::rows::{file, ten};
use scan_readers::LayoutReader;
use scan_sources::{Empty, LayoutReaderDataSource, LayoutScan, Precision, ScanRequest};
use scan_values::{DTypeKind, Value};
use std::alloc::Global;
use std::process::Abort;

/// A scan of which nothing is read, where that is what comes.
fn empty<R: LayoutReader + Drop>(
    rt: &impl Abort,
    alloc: Global,
    source: LayoutReaderDataSource<R>,
    request: ScanRequest,
) -> Empty {
    let mut source = source;
    match source.scan(alloc, request) {
        Ok(LayoutScan::Empty(empty)) => empty,
        Ok(LayoutScan::Splits(_)) => panic!(rt; "rows are read"),
        Err(_) => panic!(rt; "a refusal"),
    }
}

/// How many structs without fields come next; none at the end.
fn next(rt: &impl Abort, alloc: Global, empty: &mut Empty) -> Option<usize> {
    let Some(array) = empty.next_array(alloc).expect(rt, "next_array") else {
        return None;
    };
    for value in array.as_slice() {
        match value {
            Value::Struct(fields) => {
                if fields.len() != 0 {
                    panic!(rt; "a field");
                }
            }
            _ => panic!(rt; "not a struct"),
        }
    }
    Some(array.len())
}

#[test]
fn rows_without_fields_are_counted(rt: HostRuntime) {
    let alloc = rt.alloc();
    let mut rows = empty(
        &rt,
        alloc,
        ten(&rt, alloc),
        request(&rt, alloc, "of:nothing limit:5"),
    );
    assert!(rt; rows.dtype().kind() == DTypeKind::Struct);
    assert!(rt; rows.partition_count() == Precision::Exact(1));
    assert!(rt; rows.row_count() == Precision::Exact(5));
    assert!(rt; rows.byte_size() == Precision::Exact(0));
    assert_eq!(rt; rows.index(), 0);
    assert!(rt; next(&rt, alloc, &mut rows) == Some(5));
    assert!(rt; next(&rt, alloc, &mut rows) == None);
    assert!(rt; next(&rt, alloc, &mut rows) == None);
}

#[test]
fn many_rows_come_in_arrays(rt: HostRuntime) {
    let alloc = rt.alloc();
    let mut rows = empty(
        &rt,
        alloc,
        file(&rt, alloc, 70_000),
        request(&rt, alloc, "of:nothing"),
    );
    assert!(rt; rows.row_count() == Precision::Exact(70_000));
    assert!(rt; next(&rt, alloc, &mut rows) == Some(65_536));
    assert!(rt; next(&rt, alloc, &mut rows) == Some(4_464));
    assert!(rt; next(&rt, alloc, &mut rows) == None);
}

#[test]
fn selected_rows_of_the_range_are_counted(rt: HostRuntime) {
    let alloc = rt.alloc();
    let request = request(&rt, alloc, "of:nothing rows:2..6 exclude:0,3");
    let mut rows = empty(&rt, alloc, ten(&rt, alloc), request);
    assert!(rt; rows.row_count() == Precision::Exact(3));
    assert!(rt; next(&rt, alloc, &mut rows) == Some(3));
    assert!(rt; next(&rt, alloc, &mut rows) == None);
}
