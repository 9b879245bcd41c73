//! Places of rows.

/// The place of a row: its file in the list, and its number in that file.
#[derive(Clone, Copy, Debug, PartialEq, Eq, PartialOrd, Ord, Hash)]
pub struct Place {
    pub file: usize,
    pub row: u64,
}
