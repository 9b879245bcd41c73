//! A group of rows.
use scan_values::Values;

/// The values of a key, and of the measures over the rows that have it.
#[derive(Drop)]
pub struct Group {
    pub key: Values,
    pub measures: Values,
}
