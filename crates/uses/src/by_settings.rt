//! A caller of its own reader that sets a scan up by settings alone.
ghost use Rattle.std.specs.Prelude.{◌≡◌, ◌≤◌, IfOk, IsPermutation, Some};
ghost use Rattle.vortex_scan.specs.Collect.Reads.{values_given};
ghost use Rattle.vortex_scan.specs.Core.BuilderData.{IsOver};
ghost use Rattle.vortex_scan.specs.Core.RowRanges.{is_past};
ghost use Rattle.vortex_scan.specs.Segments.Source.{Store, none_live};
ghost use Rattle.vortex_scan.specs.Values.Selections.{numbers};
ghost use Rattle.uses.specs.Matches.{at_rows, range_settings};

use std::alloc::Global;
use std::ops::Range;
use vortex_scan::LayoutReader;
use vortex_scan::arrays::Array;
use vortex_scan::expr::BoundExpression;
use vortex_scan::scan::Selection;
use vortex_scan::scan::collect::read_scan;
use vortex_scan::scan::repeated_scan::{
    Identity, ScanSettings, SetupFault, StreamFault, splits_give_what_is_asked,
};
use vortex_scan::scan::scan_builder::SplitBy;
use vortex_scan::segments::SegmentSource;

/// The values of an expression at the rows of a range, as they are read. Over a source that tells what it holds they are
/// those of all these rows, each once, in some order. Whatever is answered, the reader's rows are as they were, and nothing
/// is live in the source.
///
/// # Errors
/// `Setup(RowRange)` where the range is reversed or its end passes the row count. Else those of `read_stream`.
pub fn values_of_range<R: LayoutReader + Drop, S: SegmentSource>(
    alloc: Global,
    reader: &mut R,
    projection: BoundExpression,
    range: Range<u64>,
    source: &mut S,
) -> Result<Vec<Array>, StreamFault<()>>
    requires over { IsOver (R.state reader.old).dtype projection }
    requires idle { (S.state source.old).live ≡ none_live }
    ensures values { IfOk result (λ v. (store : Store) → (S.state source.old).holds ≡ Some store → IsPermutation
        (at_rows (R.state reader.old) projection store (numbers range.start range.end)) (values_given v.items)) }
    ensures within { IfOk result (λ v. (range.start ≤ range.end) × (range.end ≤ (R.state reader.old).rows)) }
    ensures idle { (S.state source.new).live ≡ none_live }
    ensures same { R.state reader.new ≡ R.state reader.old }
{
    splits_give_what_is_asked::<R, Identity<()>>();
    if is_past(&range, reader.row_count()) {
        return Err(StreamFault::Setup(SetupFault::RowRange));
    }
    let settings = in_any_order(projection, range);
    let mut scan = match settings.prepare(alloc, reader) {
        Ok(scan) => scan,
        Err(_) => return Err(StreamFault::NoMemory),
    };
    read_scan(alloc, &mut scan, None, source)
}

/// The settings of a scan of the rows of a range in any order.
fn in_any_order(projection: BoundExpression, range: Range<u64>) -> ScanSettings<Identity<()>>
    ensures { result ≡ range_settings projection range result.step }
{
    ScanSettings {
        projection,
        filter: None,
        ordered: false,
        row_range: Some(range),
        selection: Selection::All,
        row_offset: 0,
        split_by: SplitBy::Layout,
        natural_splits: None,
        limit: None,
        concurrency: 4,
        step: Identity::new(),
    }
}

/// Whether a range is reversed, or ends past so many rows.
fn is_past(range: &Range<u64>, rows: u64) -> bool
    ensures { result ≡ is_past (Some range.now) rows }
{
    range.end < range.start || rows < range.end
}
