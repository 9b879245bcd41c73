//! Sources of data, on which catalogues stand: what is known of their rows, and scans of them in parts that are executed by themselves.
#![tactic(auto)]

mod empty;
mod fault;
mod laws;
mod precision;
mod request;
mod scan;
mod shared_limit;
mod source;
mod split;

pub use empty::Empty;
pub use fault::SourceFault;
pub use laws::{
    parts_cover_the_scan, parts_give_the_first_rows, parts_give_the_scan, splits_give_their_rows,
};
pub use precision::Precision;
pub use request::{BoundScanRequest, Plain, range_or_all};
pub use scan::{LayoutReaderScan, LayoutScan};
pub use scan_core::{Identity, ScanStream, SetupFault};
pub use scan_expr::ScanRequest;
pub use shared_limit::{SharedLimit, claims_of, shared};
pub use source::LayoutReaderDataSource;
pub use split::{LayoutReaderSplit, estimate};
