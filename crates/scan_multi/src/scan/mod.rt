//! After the Rust's `scan`.
mod columns;
mod fault;
mod files;
mod output;
mod request;

pub use columns::{scan_columns_of, scan_into};
pub use fault::{RangeFault, ScanFault};
pub use files::scan_files;
pub use output::{ColumnChunk, ColumnOutput, ScanChunk, ScanOutput};
