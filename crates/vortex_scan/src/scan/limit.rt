//! A budget of rows that threads claim from. After the Rust's `scan::limit`.

pub use scan_core::{Claims, LimitSeat, RowLimit};
