// What may cross threads.
use crate::column::Column;

fn crosses<T: Send + Sync>() {}

/// Columns may be sent to other threads and be shared by them.
pub fn columns_cross_threads() {
    crosses::<Column>();
}
