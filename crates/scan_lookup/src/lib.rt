//! Rows of files by their places: a session keeps what it has opened, and asks for what the rows of a call touch alone.
#![tactic(auto)]

mod fault;
mod groups;
mod looking;
mod numbers;
mod session;

pub use fault::LookupFault;
pub use scan_drive::ScanFile;
pub use scan_opener::{BoxedFactory, LayoutReaderFactory, MemoryOpener, Opening};
pub use scan_places::Place;
pub use session::LookupSession;
