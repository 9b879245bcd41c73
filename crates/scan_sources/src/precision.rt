//! What is known of a number. After the Rust's `vortex_array::expr::stats`.

/// What is known of a number, as of the rows of a source.
#[derive(Clone, Copy, Debug, PartialEq, Eq)]
pub enum Precision<T> {
    /// It is this.
    Exact(T),
    /// It may be another.
    Inexact(T),
    /// Nothing is known of it.
    Absent,
}
