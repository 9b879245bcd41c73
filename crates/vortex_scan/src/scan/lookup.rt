//! Rows of files by their places, call after call. An own call over the Rust's parts.

pub use scan_lookup::{LookupFault, LookupSession, Place};
