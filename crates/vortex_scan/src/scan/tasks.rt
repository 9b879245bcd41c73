//! What one split of a scan gives. After the Rust's `scan::tasks`.

pub use scan_core::{SplitFuture, SplitPoll};
