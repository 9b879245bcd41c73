//! What is asked for, and scans of it: of many files in one call, by places, of files of older schemas, of one reader,
//! and of sources on which catalogues stand. After the Rust's `scan`, and its `vortex-scan` for requests and selections.

pub mod collect;
pub mod groups;
pub mod layout;
pub mod limit;
pub mod lookup;
pub mod multi;
pub mod repeated_scan;
pub mod scan_builder;
pub mod tasks;
pub mod union_;

pub use scan_expr::ScanRequest;
pub use scan_values::{Selection, StrictSorted, StrictSortedFault};
