//! Groups of the rows of many files, and totals over each.
#![tactic(auto)]

mod check;
mod fault;
mod lent;
mod program;
mod reading;
mod request;
mod rows;
mod scan;
mod spec;
mod table;

pub use fault::TableFault;
pub use program::run_table;
pub use scan::scan_table;
pub use scan_groups::Group;
pub use spec::{Measure, TableSpec};
pub use table::Table;
