//! A file of an older schema under another dtype: what opens it, and a source of its segments over the file's own.
#![tactic(auto)]

mod fault;
mod laws;
mod opening;
mod source;
mod stage;

pub use fault::FileFault;
pub use opening::{layout_under, open_under};
pub use source::UnionSource;
