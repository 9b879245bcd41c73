//! Lazy scans over files, segments and caches of one's own: what an engine, a reader of files, a catalogue and a
//! client of a store call, under one name. The modules are those of the Rust's `vortex-layout` and of the crates that
//! it stands on. Nothing is written here: each item is one of a crate below, and CALLING.md has a caller for each task.
#![tactic(auto)]

pub mod arrays;
pub mod dtype;
pub mod expr;
pub mod file;
pub mod layouts;
pub mod mask;
pub mod scan;
pub mod segments;

pub use scan_layout::{
    ChildFault, ChildOpener, Layout, LayoutFault, LayoutKind, LayoutNode, LayoutReaderContext,
    LayoutRef, LazyReaderChildren, LeafSegments, MaskFault, Nodes, SlotFault,
};
pub use scan_readers::{
    ArrayFuture, Arrival, Inbox, LayoutReader, LayoutReaderRef, MaskFuture, Plan, Poll, Reader,
    RowSplits, RowsReader, SplitFault, SplitRange, SplitRangeFault, WantedIds,
};
pub use scan_splits::register_layout_splits;
pub use scan_values::NoMemory;
