//! The files of a scan, as a drive over many files sees them: how a file is opened, and what its splits give.
#![tactic(auto)]

mod fault;
mod opener;
mod planning;
mod rows;
mod split;
mod threads;

pub use fault::FileFault;
pub use opener::FileOpener;
pub use rows::FileRows;
pub use split::FileSplit;
pub use threads::file_splits_cross_threads;
