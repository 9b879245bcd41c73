//! A catalogue that scans a source twice.
ghost use Rattle.std.specs.Prelude.{IfOk};
ghost use Rattle.vortex_scan.specs.Sources.Requests.{bound_request};
ghost use Rattle.vortex_scan.specs.Sources.Sources.{Starts};

use std::alloc::Global;
use vortex_scan::LayoutReader;
use vortex_scan::scan::ScanRequest;
use vortex_scan::scan::layout::{LayoutReaderDataSource, LayoutScan, SourceFault};

/// Scans a source of one reader, and the same source once more. The second scan is of the rows that the source had before
/// the first, in parts of the same size: the first has changed neither.
pub fn scan_source_twice<R: LayoutReader + Drop>(
    alloc: Global,
    source: &mut LayoutReaderDataSource<R>,
    first: ScanRequest,
    second: ScanRequest,
) -> Result<(LayoutScan, LayoutScan), SourceFault>
    ensures first { IfOk result (λ both. Starts (R.state source.old.reader) source.old.size
        (bound_request (R.state source.old.reader).dtype first) both.0) }
    ensures second { IfOk result (λ both. Starts (R.state source.old.reader) source.old.size
        (bound_request (R.state source.old.reader).dtype second) both.1) }
{
    let first = source.scan(alloc, first)?;
    let second = source.scan(alloc, second)?;
    Ok((first, second))
}
