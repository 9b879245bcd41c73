//! What the program `sib` does with files on disk: it shows, verifies, scans and imports them, and explains scans.
#![tactic(auto)]

mod asked;
mod explain;
mod files;
mod import;
mod run;
mod scan;
mod show;
mod verify;

pub use run::run_sib;
pub use scan_jobs::ToolFault;
pub use scan_printing::Terminals;
