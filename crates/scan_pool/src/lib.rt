//! A pool of threads that live over many phases of work. An own type: the Rust has its runtime's.
#![tactic(auto)]

mod mail;
mod pool;
mod seat;

pub use mail::Work;
pub use pool::{Seated, close_all, run_all, with_threads};
pub use seat::{Seat, Server, boxes};
