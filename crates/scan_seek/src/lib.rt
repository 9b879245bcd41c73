//! One file of a look-up: it is opened once, and rows of it are read by their numbers.
#![tactic(auto)]

mod keeping;
mod opening;
mod reading;

pub use keeping::{Kept, RowStanding};
pub use opening::{OpenFault, open};
pub use reading::{SeekFault, read_rows};
