//! The program's second task: it generates three files of rows, scans them, and writes a line of what it found.
//!
//! Each file has n rows, numbered from file to file. A row numbered g has the id g, the value g mod 10, or null where
//! g mod 5 is 4, and a list of g mod 4 elements, of which the element j is (g + j) mod 256. Each leaf is cut into
//! segments of a thousand rows.

mod columns;
mod files;
mod request;
mod scan;
mod segments;
mod totals;
mod words;

pub(crate) use scan::generated_text;
pub(crate) use words::generated_of;
