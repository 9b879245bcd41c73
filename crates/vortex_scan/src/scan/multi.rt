//! Scans of many files in one call, openers of files, sources of the rows of many files, and laws of the polls of these.
//! After the Rust's `scan::multi`; the calls `scan_into`, `scan_columns_of` and `scan_files` are own ones over its parts.

pub use scan_multi::{
    BoxedFactory, ChunkSink, ColumnChunk, ColumnOutput, DriveEnd, Flow, Gate, Kept,
    LayoutReaderFactory, MemoryOpener, NoGate, Opening, RangeFault, ScanChunk, ScanFault, ScanFile,
    ScanOutput, ScanReport, scan_columns_of, scan_files, scan_into,
};
pub use scan_multi_sources::{
    MultiFault, MultiLayoutChild, MultiLayoutDataSource, MultiLayoutPartition, MultiLayoutScan,
    PartitionPoll,
};
pub use scan_polls::{
    files_are_answered_once, files_come_in_rising_places, files_come_in_their_order,
    files_stand_once, no_file_is_due_at_the_end, no_more_files_are_begun,
    numbers_of_partitions_rise, opened_files_come_first, opened_files_stand_first,
    partitions_are_numbered_by_delivery,
};
