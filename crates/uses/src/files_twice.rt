//! A catalogue that scans a source of many files twice.
ghost use Rattle.std.specs.Prelude.{◌≡◌, IfOk};
ghost use Rattle.vortex_scan.specs.MultiSources.MultiScans.{MultiScan, files_left};
ghost use Rattle.vortex_scan.specs.MultiSources.Starts.{StartsMulti, numbers_of};
ghost use Rattle.vortex_scan.specs.Sources.Requests.{bound_request};

use std::alloc::Global;
use vortex_scan::expr::stats::Precision;
use vortex_scan::scan::ScanRequest;
use vortex_scan::scan::layout::SourceFault;
use vortex_scan::scan::multi::{LayoutReaderFactory, MultiLayoutDataSource, MultiLayoutScan};

/// How many files a scan of what is asked for begins with. The scan is dropped, and the source is as it was; so it is after
/// a refusal.
pub fn files_asked<O: LayoutReaderFactory + Drop>(
    alloc: Global,
    source: &mut MultiLayoutDataSource<O>,
    request: ScanRequest,
) -> Result<Precision<usize>, SourceFault>
    ensures count { IfOk result (λ n. (s : MultiScan O) × (StartsMulti source.old
        (bound_request source.old.dtype request) (numbers_of request) s × (n ≡ files_left s))) }
    ensures same { source.new ≡ source.old }
{
    match source.scan(alloc, request) {
        Ok(scan) => Ok(scan.partition_count()),
        Err(fault) => Err(fault),
    }
}

/// Begins a scan of a source and drops it, and scans the source once more: of the files that it had before the first.
pub fn scan_files_twice<'s, O: LayoutReaderFactory + Drop>(
    alloc: Global,
    source: &'s mut MultiLayoutDataSource<O>,
    first: ScanRequest,
    second: ScanRequest,
) -> Result<MultiLayoutScan<'s, O>, SourceFault>
    ensures { IfOk result (λ s. StartsMulti source.old
        (bound_request source.old.dtype second) (numbers_of second) s.files) }
{
    files_asked(alloc, source, first)?;
    source.scan(alloc, second)
}
