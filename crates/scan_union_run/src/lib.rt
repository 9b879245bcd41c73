//! The program over files of older schemas: from the bytes of a manifest to the lines of its files' rows, read under
//! one dtype.
#![tactic(auto)]

mod program;

pub use program::run_union;
