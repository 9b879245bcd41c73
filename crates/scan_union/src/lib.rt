//! The scan of files of older schemas under one dtype.
#![tactic(auto)]

mod fault;
mod opening;
mod scan;
mod seat;

pub use fault::UnionFault;
pub use scan::{scan_union, scan_union_columns};
