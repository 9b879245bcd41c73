// What may cross threads.
use crate::map_step::{Identity, Mapped};
use crate::plans::ScanPlans;
use crate::stream::ScanStream;

fn crosses<T: Send + Sync>() {}

fn goes_over<T: Send>() {}

/// The plans of a scan may be sent to other threads and be shared by them.
pub fn scan_plans_cross_threads() {
    crosses::<ScanPlans>();
}

/// Steps may be sent to other threads and be shared by them, where their parts may be.
pub fn steps_cross_threads<M: Send + Sync, G: Send + Sync, B: Send + Sync, E: Send + Sync>() {
    crosses::<Identity<E>>();
    crosses::<Mapped<M, G, B>>();
}

/// A stream may be sent to another thread, where its map may be shared. The seat of its limit is for one thread at a time.
pub fn streams_cross_threads<M: Send + Sync>() {
    goes_over::<ScanStream<M>>();
}
