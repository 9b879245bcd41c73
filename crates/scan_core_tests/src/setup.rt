//! What a builder tells of itself.
use crate::rows::{file, int, scan, scan_all};

#[test]
fn a_scan_is_in_order_by_four_splits(rt: HostRuntime) {
    let alloc = rt.alloc();
    let mut reader = file(&rt, alloc, "");
    let builder = scan_all(&rt, alloc, &mut reader);
    assert!(rt; builder.ordered());
    assert_eq!(rt; builder.concurrency(), 4);
    let changed = builder.with_ordered(false).with_concurrency(2);
    assert!(rt; !changed.ordered());
    assert_eq!(rt; changed.concurrency(), 2);
}

#[test]
fn its_dtype_is_that_of_the_projection(rt: HostRuntime) {
    let alloc = rt.alloc();
    let mut reader = file(&rt, alloc, "");
    let builder = scan(&rt, alloc, &mut reader, "of:b");
    assert!(rt; *builder.dtype() == int());
    let scan = builder.prepare(alloc).expect(&rt, "prepare");
    assert!(rt; *scan.dtype() == int());
}
