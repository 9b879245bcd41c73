//! Streams of a scan: the splits in progress, what of their segments is live, and their arrays in turn.
#![tactic(auto)]

mod array_iter;
mod claims;
mod desk;
mod fault;
mod feed;
mod look;
mod map_step;
mod places;
mod plans;
mod queue;
mod reading;
mod run;
mod setup;
mod slot;
mod start;
mod stream;
mod threads;

pub use array_iter::ArrayIter;
pub use claims::Claims;
pub use desk::{Desk, Reply};
pub use fault::{Halt, StreamFault, StreamPoll};
pub use map_step::{Identity, MapStep, Mapped};
pub use places::Places;
pub use plans::ScanPlans;
pub use queue::{SplitQueue, SplitRows};
pub use reading::{Next, Reading};
pub use run::{Run, RunPoll};
pub use setup::SetupFault;
pub use slot::Slot;
pub use stream::ScanStream;
pub use threads::{scan_plans_cross_threads, steps_cross_threads, streams_cross_threads};
