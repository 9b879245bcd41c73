//! Sources of the rows of one reader, scans of them in parts, and laws of what the parts give. After the Rust's
//! `scan::layout`.

pub use scan_sources::{
    BoundScanRequest, Empty, LayoutReaderDataSource, LayoutReaderScan, LayoutReaderSplit,
    LayoutScan, Plain, SharedLimit, SourceFault, parts_cover_the_scan, parts_give_the_first_rows,
    parts_give_the_scan, splits_give_their_rows,
};
