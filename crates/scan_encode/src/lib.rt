//! Rows of arrays as a layout and the bytes of its segments.
#![tactic(auto)]

mod batches;
mod fault;
mod leaf;
mod rows;
mod segments;
mod texts;
mod tree;

pub use batches::encode_batches;
pub use fault::RowsFault;
pub use leaf::WriteOptions;
pub use segments::Segments;
pub use tree::encode_rows;
