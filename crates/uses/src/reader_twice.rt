//! A caller of its own reader, of which it sets up two scans.
ghost use Rattle.std.specs.Prelude.{◌≡◌, IfOk, Some};
ghost use Rattle.vortex_scan.specs.Partition.Partable.{IsScope};

use std::alloc::Global;
use vortex_scan::LayoutReader;
use vortex_scan::scan::repeated_scan::{Identity, RepeatedScan, ScanSettings, SetupFault};
use vortex_scan::scan::scan_builder::LentReader;

/// A scan of the first rows of a reader.
///
/// # Errors
/// Those of `ScanBuilder::prepare`. Whatever is answered, the reader's rows are as they were.
pub fn first_rows_of<R: LayoutReader + Drop>(
    alloc: Global,
    reader: &mut R,
    count: u64,
) -> Result<RepeatedScan<Identity<()>>, SetupFault>
    requires { IsScope (R.state reader.old).dtype }
    ensures limit { IfOk result (λ s. s.limit ≡ Some count) }
    ensures rows { IfOk result (λ s. s.rows ≡ (R.state reader.old).rows) }
    ensures same { R.state reader.new ≡ R.state reader.old }
{
    let settings = ScanSettings::all(alloc, reader)?;
    let builder = LentReader::of(reader, settings).with_limit(count);
    builder.prepare(alloc)
}

/// Two scans of a reader, one after the other: both are of the same rows.
pub fn first_rows_twice<R: LayoutReader + Drop>(
    alloc: Global,
    reader: &mut R,
    first: u64,
    second: u64,
) -> Result<(RepeatedScan<Identity<()>>, RepeatedScan<Identity<()>>), SetupFault>
    requires { IsScope (R.state reader.old).dtype }
    ensures rows { IfOk result (λ both. (both.0.rows ≡ (R.state reader.old).rows)
        × (both.1.rows ≡ (R.state reader.old).rows)) }
    ensures same { R.state reader.new ≡ R.state reader.old }
{
    let first = first_rows_of(alloc, reader, first)?;
    let second = first_rows_of(alloc, reader, second)?;
    Ok((first, second))
}
