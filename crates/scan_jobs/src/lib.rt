//! What the program `sib` is asked to do, by the words of its command line, and why it stops.
#![tactic(auto)]

mod fault;
mod job;
mod words;

pub use fault::ToolFault;
pub use job::{Format, ImportJob, Job, ScanJob, VerifyJob};
pub use words::{Said, words_said};
