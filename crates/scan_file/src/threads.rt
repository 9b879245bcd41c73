// What may cross threads.
use crate::rows::FileRows;
use crate::split::FileSplit;

fn crosses<T: Send + Sync>() {}

/// The splits of files, and rows with their values, may be sent to other threads and be shared by them.
pub fn file_splits_cross_threads() {
    crosses::<FileSplit>();
    crosses::<FileRows>();
}
