//! A caller of its own reader, whose rows it reads from the first on.
ghost use Rattle.std.specs.Prelude.{◌≡◌, IfOk, Some, map, take};
ghost use Rattle.vortex_scan.specs.Values.Selections.{numbers};
ghost use Rattle.vortex_scan.specs.Segments.Source.{Store, none_live};
ghost use Rattle.vortex_scan.specs.Partition.Partable.{IsScope};
ghost use Rattle.vortex_scan.specs.Collect.Reads.{values_given};

use std::alloc::Global;
use vortex_scan::LayoutReader;
use vortex_scan::arrays::Array;
use vortex_scan::scan::collect::{read_rows, read_rows_from};
use vortex_scan::scan::repeated_scan::{ScanSettings, StreamFault};
use vortex_scan::scan::scan_builder::LentReader;
use vortex_scan::segments::SegmentSource;

/// The values of the first rows of a reader, up to so many, in their order. Over a source that tells what it holds they are
/// the reader's own values at its rows 0, 1, .. Whatever is answered, the reader's rows are as they were, and nothing is
/// live in the source.
///
/// # Errors
/// Those of `read_rows`.
pub fn first_values<R: LayoutReader + Drop, S: SegmentSource>(
    alloc: Global,
    reader: &mut R,
    source: &mut S,
    count: u64,
) -> Result<Vec<Array>, StreamFault<()>>
    requires scope { IsScope (R.state reader.old).dtype }
    requires idle { (S.state source.old).live ≡ none_live }
    ensures values { IfOk result (λ v. (store : Store) → (S.state source.old).holds ≡ Some store → values_given v.items
        ≡ take count (map ((R.state reader.old).value store) (numbers 0 (R.state reader.old).rows))) }
    ensures idle { (S.state source.new).live ≡ none_live }
    ensures same { R.state reader.new ≡ R.state reader.old }
{
    match ScanSettings::all(alloc, reader) {
        Ok(settings) => {
            let builder = LentReader::of(reader, settings).with_limit(count);
            read_rows(alloc, builder, source)
        }
        Err(_) => Err(StreamFault::NoMemory),
    }
}

/// The same over a source of its own.
///
/// # Errors
/// Those of `read_rows_from`.
pub fn first_values_from<R: LayoutReader + Drop, S: SegmentSource + Drop>(
    alloc: Global,
    reader: &mut R,
    source: S,
    count: u64,
) -> Result<Vec<Array>, StreamFault<()>>
    requires scope { IsScope (R.state reader.old).dtype }
    requires idle { (S.state source).live ≡ none_live }
    ensures values { IfOk result (λ v. (store : Store) → (S.state source).holds ≡ Some store → values_given v.items
        ≡ take count (map ((R.state reader.old).value store) (numbers 0 (R.state reader.old).rows))) }
    ensures same { R.state reader.new ≡ R.state reader.old }
{
    match ScanSettings::all(alloc, reader) {
        Ok(settings) => {
            let builder = LentReader::of(reader, settings).with_limit(count);
            read_rows_from(alloc, builder, source)
        }
        Err(_) => Err(StreamFault::NoMemory),
    }
}

/// All values of a reader, in their order: over a source that tells what it holds its own values at its rows 0, 1, ..
/// Whatever is answered, the reader's rows are as they were, and nothing is live in the source.
///
/// # Errors
/// Those of `read_rows`.
pub fn read_all<R: LayoutReader + Drop, S: SegmentSource>(
    alloc: Global,
    reader: &mut R,
    source: &mut S,
) -> Result<Vec<Array>, StreamFault<()>>
    requires scope { IsScope (R.state reader.old).dtype }
    requires idle { (S.state source.old).live ≡ none_live }
    ensures values { IfOk result (λ v. (store : Store) → (S.state source.old).holds ≡ Some store → values_given v.items
        ≡ map ((R.state reader.old).value store) (numbers 0 (R.state reader.old).rows)) }
    ensures idle { (S.state source.new).live ≡ none_live }
    ensures same { R.state reader.new ≡ R.state reader.old }
{
    match ScanSettings::all(alloc, reader) {
        Ok(settings) => {
            let builder = LentReader::of(reader, settings);
            read_rows(alloc, builder, source)
        }
        Err(_) => Err(StreamFault::NoMemory),
    }
}
