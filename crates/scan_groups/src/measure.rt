//! What is told of the rows of a group.

/// A measure over the rows of a group. All but a count read a value of each row, at a place.
#[derive(Clone, Copy, Debug, PartialEq, Eq)]
pub enum Measured {
    /// How many rows there are.
    Count,
    /// At how many of them the value is not null.
    Values(usize),
    /// The sum of the integers, or null where there are no values.
    Sum(usize),
    /// The least value, or null where there are none.
    Least(usize),
    /// The greatest value, or null where there are none.
    Greatest(usize),
}
