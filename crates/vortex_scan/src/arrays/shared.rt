//! Arrays that are computed once and shared. After the Rust's `arrays::shared`.

pub use scan_readers::{
    Answer, Law, Note, Shared, SharedArray, SharedPoll, SharedProbeState, SharedSlots,
};
