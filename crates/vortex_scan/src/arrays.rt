//! Values row by row and by columns. After the Rust's `arrays`, `scalar` and `arrays::shared`.

pub mod shared;

pub use scan_columns::{Bools, Cells, Column, Constant, Ints, Lists, Structs, Texts};
pub use scan_values::{Array, ArrayFault, Text, Value, Values};
