//! Arrays that are computed once, by whichever thread finishes first, after the crate's `arrays::shared`.
#![tactic(auto)]

mod array;
mod vtable;

pub use array::{Answer, Law, Note, Shared, SharedArray, SharedPoll, SharedSlots};
pub use vtable::SharedProbeState;
