//! Masks of rows. After the Rust's `vortex-mask`.

pub use scan_values::Mask;
