//! Scans of one reader that are set up once and executed often, as streams and iterators, and laws of what their splits
//! give. After the Rust's `scan::repeated_scan`.

pub use scan_core::{
    ArrayIter, Identity, LazyScanStream, MapStep, Mapped, RepeatedScan, ScanIter, ScanPlans,
    ScanSettings, ScanStream, SetupFault, StreamFault, StreamPoll, splits_follow_each_other,
    splits_give_what_is_asked, streams_give_the_first_rows,
};
