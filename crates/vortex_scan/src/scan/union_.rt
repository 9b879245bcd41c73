//! Files of older schemas under one dtype: scans of them, and one file as it is under the dtype. An own call over the
//! Rust's parts.

pub use scan_union::{UnionFault, scan_union, scan_union_columns};
pub use scan_widened::{FileFault, UnionSource, layout_under, open_under};
