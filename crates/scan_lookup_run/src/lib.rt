//! The program that looks rows of files up by their places, over any input and output.
#![tactic(auto)]

mod places;
mod program;
mod reading;

pub use program::run_lookup;
