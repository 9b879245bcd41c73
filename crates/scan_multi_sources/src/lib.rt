//! Sources of the rows of many files: which files they have, what is known of their rows and bytes, and scans of them.
#![tactic(auto)]

mod child;
mod fault;
mod file_scan;
mod giving;
mod known;
mod loan;
mod looking;
mod numbers;
mod partition;
mod scan;
mod slot;
mod source;
mod start;

pub use child::MultiLayoutChild;
pub use fault::MultiFault;
pub use file_scan::FileScan;
pub use loan::{GivesBack, LentSource};
pub use partition::MultiLayoutPartition;
pub use scan::{MultiLayoutScan, PartitionPoll};
pub use scan_core::{Identity, ScanStream, SetupFault};
pub use scan_expr::ScanRequest;
pub use scan_opener::{BoxedFactory, LayoutReaderFactory, MemoryOpener};
pub use scan_sources::{Precision, SourceFault};
pub use source::MultiLayoutDataSource;
