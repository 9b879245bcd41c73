//! Segments of a source that are brought through a cache: each is asked for once, and what comes is put.
#![tactic(auto)]

mod fetching;

pub use fetching::{Miss, bring};
