// What may cross threads.
use crate::split::SplitFuture;

fn crosses<T: Send + Sync>() {}

/// The futures of splits may be sent to other threads and be shared by them, where what is made of their arrays may be.
pub fn splits_cross_threads<M: Send + Sync>() {
    crosses::<SplitFuture<M>>();
}
