//! What streams, iterators and scans give from their first poll to their end.
#![tactic(auto)]

mod iterator;
mod laws;
mod scan;
mod stream;
mod turn;

pub use iterator::read_iterator;
pub use laws::{reads_give_the_first_rows, worked_rows};
pub use scan::{read_rows, read_rows_from, read_scan, read_scan_from};
pub use stream::read_stream;
