//! A writer of files on disk: a layout and its segments, or the rows of an array, as a file in the form of
//! docs/FILES.md, over anything that takes bytes in order.
#![tactic(auto)]

mod bytes_out;
mod fault;
mod file;
mod footer;
mod new_file;
mod rows;

pub use bytes_out::{BytesOut, MemoryOut};
pub use fault::{OutFault, WriteFault};
pub use file::write_file;
pub use new_file::NewFile;
pub use rows::{file_of, write_batches, write_rows};
