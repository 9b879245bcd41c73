//! A budget of rows that several workers claim from at once, after the crate's `scan::limit`.
#![tactic(auto)]

mod budget;
pub mod laws;
mod limit;
mod seat;

pub use limit::RowLimit;
pub use seat::LimitSeat;
