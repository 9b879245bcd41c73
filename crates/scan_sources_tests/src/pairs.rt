//! Files of two columns of numbers, and their dtype.
use crate::rows::{int, leaf};
use scan_layout::{LayoutRef, StructLayout};
use scan_values::{DType, Nullability, StructFields};
use std::alloc::Global;
use std::process::Abort;

/// The struct of the numbers `a` and `b`.
pub(crate) fn pair(rt: &impl Abort, alloc: Global) -> DType {
    let mut pairs = Vec::new(alloc);
    pairs.push(("a", int())).expect(rt, "push");
    pairs.push(("b", int())).expect(rt, "push");
    let fields = StructFields::from_pairs(alloc, pairs).expect(rt, "from_pairs");
    DType::struct_(fields, Nullability::NonNullable).expect(rt, "struct_")
}

/// A file of so many pairs: the segment 0 has `a`, and 1 has `b`.
pub(crate) fn file(rt: &impl Abort, alloc: Global, rows: u64) -> LayoutRef {
    let mut children = Vec::new(alloc);
    children.push(leaf(rt, alloc, 0, rows)).expect(rt, "push");
    children.push(leaf(rt, alloc, 1, rows)).expect(rt, "push");
    let layout = StructLayout::new(alloc, rows, pair(rt, alloc), children).expect(rt, "new");
    layout.node().clone().expect(rt, "clone")
}
