//! Readers that number another's rows. After the Rust's `layouts::row_idx`.

pub use scan_readers::{RowIdxFault, RowIdxLayoutReader, plan_with_numbers};
