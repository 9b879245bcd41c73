//! The rows of a scan, written as they come: as lines of JSON or of CSV, and how far a scan is.
#![tactic(auto)]

mod csv_lines;
mod lines;
mod printer;
mod progress;

pub use csv_lines::push_names;
pub use lines::{LinesFault, scan_csv, scan_lines};
pub use printer::PrintFault;
pub use progress::{Meter, NoProgress, Progress, ScanProgress, Terminals, Watch, tell_stage};
