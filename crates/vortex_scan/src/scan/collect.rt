//! Whole runs: streams, iterators, scans and builders that are read to their end, and the law of what they give. The Rust
//! collects its streams and iterators.

pub use scan_collect::{
    read_iterator, read_rows, read_rows_from, read_scan, read_scan_from, read_stream,
    reads_give_the_first_rows,
};
