//! The top call over files: a scan of their rows under a request.
#![tactic(auto)]

mod scan;

pub use scan::{
    ColumnChunk, ColumnOutput, RangeFault, ScanChunk, ScanFault, ScanOutput, scan_columns_of,
    scan_files, scan_into,
};
pub use scan_drive::{ChunkSink, DriveEnd, Flow, Gate, Kept, NoGate, ScanFile, ScanReport};
pub use scan_opener::{BoxedFactory, LayoutReaderFactory, MemoryOpener, Opening};
