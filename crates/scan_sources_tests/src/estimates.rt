//! Files of two columns, of which one is opened or none, and what is known of their rows and bytes.
use crate::pairs::{file, pair};
use scan_multi_sources::{MultiLayoutChild, MultiLayoutDataSource, Precision, SourceFault};
use scan_values::DTypeKind;
use std::alloc::Global;
use std::process::Abort;

/// Files that are opened by so many numbers, with these sizes.
fn deferred(
    rt: &impl Abort,
    alloc: Global,
    count: u8,
    sizes: &[Option<u64>],
) -> Result<MultiLayoutDataSource<u8>, SourceFault> {
    let mut factories = Vec::new(alloc);
    for factory in 0..count {
        factories.push(factory).expect(rt, "push");
    }
    let sizes = Vec::from_slice(alloc, sizes).expect(rt, "from_slice");
    let dtype = pair(rt, alloc);
    MultiLayoutDataSource::new_deferred(alloc, dtype, factories, sizes)
}

/// An opened file of so many rows and two others, with these sizes.
fn after_first(
    rt: &impl Abort,
    alloc: Global,
    rows: u64,
    sizes: &[Option<u64>],
) -> Result<MultiLayoutDataSource<u8>, SourceFault> {
    let others = Vec::from_slice(alloc, &[1, 2]).expect(rt, "from_slice");
    let sizes = Vec::from_slice(alloc, sizes).expect(rt, "from_slice");
    MultiLayoutDataSource::new_with_first(alloc, file(rt, alloc, rows), others, sizes)
}

/// What is known of the rows and the bytes of a source that is made.
fn known(
    made: Result<MultiLayoutDataSource<u8>, SourceFault>,
) -> Option<(Precision<u64>, Precision<u64>)> {
    match made {
        Ok(source) => Some((source.row_count(), source.byte_size())),
        Err(_) => None,
    }
}

/// Whether byte sizes do not fit.
fn is_unfit(made: Result<MultiLayoutDataSource<u8>, SourceFault>) -> bool {
    match made {
        Ok(_) => false,
        Err(fault) => fault == SourceFault::ByteSizes,
    }
}

#[test]
fn sizes_are_none_or_one_for_each_file(rt: HostRuntime) {
    let alloc = rt.alloc();
    assert!(rt; is_unfit(deferred(&rt, alloc, 3, &[None, None])));
    assert!(rt; is_unfit(deferred(&rt, alloc, 0, &[None])));
    assert!(rt; !is_unfit(deferred(&rt, alloc, 3, &[])));
    assert!(rt; !is_unfit(deferred(&rt, alloc, 3, &[None, Some(1), None])));
    assert!(rt; is_unfit(after_first(&rt, alloc, 10, &[None, None])));
    assert!(rt; !is_unfit(after_first(&rt, alloc, 10, &[])));
    assert!(rt; !is_unfit(after_first(&rt, alloc, 10, &[None, Some(1), None])));
}

#[test]
fn one_file_tells_the_rows_of_three(rt: HostRuntime) {
    let alloc = rt.alloc();
    let some = known(after_first(&rt, alloc, 10, &[Some(100), None, Some(50)]));
    assert!(rt; some == Some((Precision::Inexact(30), Precision::Inexact(225))));
    let most = known(after_first(&rt, alloc, u64::MAX, &[Some(u64::MAX), None, Some(9)]));
    let last = Precision::Inexact(u64::MAX);
    assert!(rt; most == Some((last, last)));
    let all = known(after_first(&rt, alloc, 10, &[Some(1), Some(2), Some(3)]));
    assert!(rt; all == Some((Precision::Inexact(30), Precision::Exact(6))));
}

#[test]
fn files_that_are_not_opened_tell_nothing(rt: HostRuntime) {
    let alloc = rt.alloc();
    let none = known(deferred(&rt, alloc, 3, &[]));
    assert!(rt; none == Some((Precision::Absent, Precision::Absent)));
    let no_file = known(deferred(&rt, alloc, 0, &[]));
    assert!(rt; no_file == Some((Precision::Exact(0), Precision::Exact(0))));
}

/// The byte sizes of a source's files, and which of them are opened.
fn listed(rt: &impl Abort, alloc: Global, children: &[MultiLayoutChild<u8>]) -> String {
    let mut text = String::new(alloc);
    for child in children {
        match child {
            MultiLayoutChild::Opened { .. } => text.push_str(" opened").expect(rt, "push_str"),
            MultiLayoutChild::Deferred { factory, .. } => {
                text.push_str(
                    format!(in alloc; " {factory}")
                        .expect(rt, "format")
                        .as_str(),
                )
                .expect(rt, "push_str")
            }
        }
        if let Some(size) = child.byte_size() {
            text.push_str(format!(in alloc; ":{size}").expect(rt, "format").as_str())
                .expect(rt, "push_str");
        }
    }
    text
}

#[test]
fn a_source_tells_its_files(rt: HostRuntime) {
    let alloc = rt.alloc();
    let Ok(source) = after_first(&rt, alloc, 10, &[Some(100), None, Some(50)]) else {
        panic!(rt; "no source");
    };
    let source = source.with_concurrency(2);
    assert!(rt; source.dtype().kind() == DTypeKind::Struct);
    let told = listed(&rt, alloc, source.children());
    assert_eq!(rt; told.as_str(), " opened:100 1 2:50");
}
