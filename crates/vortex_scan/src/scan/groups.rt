//! Groups of rows by their keys, with totals over each. Own types.

pub use scan_groups::{Cell, Group, Groups, GroupsFault, Measured, RowPlaces, Run, compare};
