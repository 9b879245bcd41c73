//! What is known of a number. After the Rust's `expr::stats`.

pub use scan_sources::Precision;
