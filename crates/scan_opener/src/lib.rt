//! What opens the files of a scan: openers that give layouts.
#![tactic(auto)]

mod opener;

pub use opener::{BoxedFactory, LayoutReaderFactory, MemoryOpener, Opening};
