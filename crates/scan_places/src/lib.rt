//! Places of rows in files: their files are opened once, and each place is looked at.
#![tactic(auto)]

mod fault;
mod place;
mod walk;

pub use fault::PlaceFault;
pub use place::Place;
pub use walk::open_places;
