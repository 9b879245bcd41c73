//! Builders of scans of one reader, and where they split its rows. After the Rust's `scan::scan_builder`.

pub use scan_core::{
    LentReader, OverReader, ScanBuilder, SplitBy, intersect_ranges, span_of, split_ranges,
};
