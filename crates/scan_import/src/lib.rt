//! Rows of CSV and of lines of JSON, as arrays of a dtype, and the dtype that they show.
#![tactic(auto)]

mod cell;
mod csv_rows;
mod fault;
mod guess;
mod json;
mod json_rows;
mod shown;

pub use csv_rows::rows_of_csv;
pub use fault::{ImportCause, ImportFault};
pub use guess::dtype_of_csv;
pub use json_rows::rows_of_json;
pub use shown::dtype_of_json;
