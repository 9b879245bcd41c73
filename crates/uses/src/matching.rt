//! A caller of its own reader that reads the rows at which a filter is true, by a stream and by an iterator.
ghost use Rattle.std.specs.Prelude.{◌≡◌, IfOk, IfSome, Some, take};
ghost use Rattle.vortex_scan.specs.Collect.Reads.{values_given};
ghost use Rattle.vortex_scan.specs.Core.BuilderData.{IsFilter, IsOver};
ghost use Rattle.vortex_scan.specs.Core.Prepared.{IsPrepared};
ghost use Rattle.vortex_scan.specs.Core.ScanData.{IsScan};
ghost use Rattle.vortex_scan.specs.Core.Settings.{builder_by};
ghost use Rattle.vortex_scan.specs.Segments.Source.{Store, none_live};
ghost use Rattle.vortex_scan.specs.Sources.Plain.{Plain};
ghost use Rattle.uses.specs.Matches.{first_settings, matches};

use std::alloc::Global;
use vortex_scan::LayoutReader;
use vortex_scan::arrays::Array;
use vortex_scan::expr::BoundExpression;
use vortex_scan::scan::Selection;
use vortex_scan::scan::collect::{read_iterator, read_stream, reads_give_the_first_rows};
use vortex_scan::scan::repeated_scan::{
    Identity, RepeatedScan, ScanSettings, SetupFault, StreamFault,
};
use vortex_scan::scan::scan_builder::{LentReader, SplitBy};
use vortex_scan::segments::SegmentSource;

/// The values of an expression at the first rows of a reader at which a filter is true, at most so many, in their order, as
/// a stream gives them from its first poll to its end. Over a source that tells what it holds they are the first of all
/// such rows. Whatever is answered, the reader's rows are as they were, and nothing is live in the source.
///
/// # Errors
/// Those of `ScanBuilder::prepare` and of `read_stream`.
pub fn first_matches<R: LayoutReader + Drop, S: SegmentSource>(
    alloc: Global,
    reader: &mut R,
    projection: BoundExpression,
    filter: Option<BoundExpression>,
    most: u64,
    source: &mut S,
) -> Result<Vec<Array>, StreamFault<()>>
    requires over { IsOver (R.state reader.old).dtype projection }
    requires passes { IfSome filter (IsFilter (R.state reader.old).dtype) }
    requires idle { (S.state source.old).live ≡ none_live }
    ensures values { IfOk result (λ v. (store : Store) → (S.state source.old).holds ≡ Some store → values_given v.items
        ≡ take most (matches (R.state reader.old) projection filter store)) }
    ensures idle { (S.state source.new).live ≡ none_live }
    ensures same { R.state reader.new ≡ R.state reader.old }
{
    reads_give_the_first_rows::<R, Identity<()>>();
    let mut scan = match scan_of_matches(alloc, reader, projection, filter, most) {
        Ok(scan) => scan,
        Err(fault) => return Err(StreamFault::Setup(fault)),
    };
    match scan.execute_array_stream(alloc, None) {
        Ok(stream) => read_stream(alloc, stream, source),
        Err(fault) => Err(StreamFault::Setup(fault)),
    }
}

/// The same as an iterator over a source of its own gives them, from its first call to its last.
///
/// # Errors
/// Those of `ScanBuilder::prepare` and of `read_iterator`.
pub fn first_matches_from<R: LayoutReader + Drop, S: SegmentSource + Drop>(
    alloc: Global,
    reader: &mut R,
    projection: BoundExpression,
    filter: Option<BoundExpression>,
    most: u64,
    source: S,
) -> Result<Vec<Array>, StreamFault<()>>
    requires over { IsOver (R.state reader.old).dtype projection }
    requires passes { IfSome filter (IsFilter (R.state reader.old).dtype) }
    requires idle { (S.state source).live ≡ none_live }
    ensures values { IfOk result (λ v. (store : Store) → (S.state source).holds ≡ Some store → values_given v.items
        ≡ take most (matches (R.state reader.old) projection filter store)) }
    ensures same { R.state reader.new ≡ R.state reader.old }
{
    reads_give_the_first_rows::<R, Identity<()>>();
    let mut scan = match scan_of_matches(alloc, reader, projection, filter, most) {
        Ok(scan) => scan,
        Err(fault) => return Err(StreamFault::Setup(fault)),
    };
    match scan.execute_array_iter(alloc, None, source) {
        Ok(arrays) => read_iterator(alloc, arrays),
        Err(fault) => Err(StreamFault::Setup(fault)),
    }
}

/// A scan of the first rows of a reader at which a filter is true, at most so many.
fn scan_of_matches<R: LayoutReader + Drop>(
    alloc: Global,
    reader: &mut R,
    projection: BoundExpression,
    filter: Option<BoundExpression>,
    most: u64,
) -> Result<RepeatedScan<Identity<()>>, SetupFault>
    requires over { IsOver (R.state reader.old).dtype projection }
    requires passes { IfSome filter (IsFilter (R.state reader.old).dtype) }
    ensures prepared { IfOk result (λ s. (step : Plain) × IsPrepared (R.state reader.old)
        (builder_by reader.old (first_settings projection filter most step)) s) }
    ensures stands { IfOk result (λ s. IsScan s) }
    ensures same { R.state reader.new ≡ R.state reader.old }
{
    let settings = ScanSettings {
        projection,
        filter,
        ordered: true,
        row_range: None,
        selection: Selection::All,
        row_offset: 0,
        split_by: SplitBy::Layout,
        natural_splits: None,
        limit: Some(most),
        concurrency: 4,
        step: Identity::new(),
    };
    let builder = LentReader::of(reader, settings);
    builder.prepare(alloc)
}
