//! Scans that are set up, executed and read to their end.
ghost use Rattle.std.specs.Prelude.{◌≡◌, IfErr, IfOk, Some, None};
ghost use Rattle.scan_segments.specs.Source.{SourceState, Store, none_live};
ghost use Rattle.scan_core.specs.Given.{Rises, asked_values, values_of};
ghost use Rattle.scan_core.specs.ScanData.{splits_of};
ghost use Rattle.scan_core.specs.Settings.{builder_by};
ghost use Rattle.scan_collect.specs.Asked.{StopsRows, StopsScan};
ghost use Rattle.scan_collect.specs.Reads.{values_given};
ghost use Rattle.scan_collect.specs.Rows.{GivesFirst};

use crate::iterator::read_iterator;
use crate::stream::read_stream;
use scan_core::{
    Identity, RepeatedScan, ScanBuilder, StreamFault, splits_give_what_is_asked,
    streams_give_the_first_rows,
};
use scan_readers::LayoutReader;
use scan_segments::SegmentSource;
use scan_values::Array;
use std::alloc::Global;
use std::ops::Range;

/// All arrays of all that a builder scans, over a source without a live request. Over a source that tells what it holds
/// their values are the first of the rows that the builder asks for, as many as its limit: the values of its projection at
/// those rows that it selects of its range at which each conjunct of its filter is true. They come in the order of the
/// rows, or where the builder has no order in some order; none comes twice. Whatever is answered, nothing is live in the
/// end, and the reader's rows are as they were.
///
/// # Errors
/// `Setup` with the first thing that is wrong with the builder's settings, or with want of memory. `Source` only where the
/// source failed, `Corrupt` only where what it holds of a segment is no good, `Overflow` only where a sum or difference is
/// past its dtype. Else `NoMemory` alone.
pub fn read_rows<'r, R: LayoutReader + Drop, E: Drop, S: SegmentSource>(
    alloc: Global,
    builder: ScanBuilder<'r, R, Identity<E>>,
    source: &mut S,
) -> Result<Vec<Array>, StreamFault<E>>
    requires idle { (S.state source.old).live ≡ none_live }
    requires rises { Rises builder.settings.selection }
    ensures rows { IfOk result (λ v. (store : Store) → (S.state source.old).holds ≡ Some store
        → GivesFirst builder.entry.settings.ordered builder.entry.settings.limit
        (asked_values (R.state builder.entry.reader.now) (builder_by builder.entry.reader.now builder.entry.settings)
        None store) (values_given v.items)) }
    ensures stops { IfErr result (StopsRows (R.state builder.entry.reader.now)
        (builder_by builder.entry.reader.now builder.entry.settings) (S.state source.old) (S.state source.new)) }
    ensures idle { (S.state source.new).live ≡ none_live }
    ensures same { R.state builder.exit.0.now ≡ R.state builder.entry.reader.now }
{
    splits_give_what_is_asked::<R, Identity<E>>();
    match builder.prepare(alloc) {
        Ok(scan) => {
            let mut whole = scan;
            read_scan(alloc, &mut whole, None, source)
        }
        Err(fault) => Err(StreamFault::Setup(fault)),
    }
}

/// The same of an iterator over a source of its own.
///
/// # Errors
/// Those of `read_rows`, `Source` only where the source can fail.
pub fn read_rows_from<'r, R: LayoutReader + Drop, E: Drop, S: SegmentSource + Drop>(
    alloc: Global,
    builder: ScanBuilder<'r, R, Identity<E>>,
    source: S,
) -> Result<Vec<Array>, StreamFault<E>>
    requires idle { (S.state source).live ≡ none_live }
    requires rises { Rises builder.settings.selection }
    ensures rows { IfOk result (λ v. (store : Store) → (S.state source).holds ≡ Some store
        → GivesFirst builder.entry.settings.ordered builder.entry.settings.limit
        (asked_values (R.state builder.entry.reader.now) (builder_by builder.entry.reader.now builder.entry.settings)
        None store) (values_given v.items)) }
    ensures stops { IfErr result (λ f. (after : SourceState) × StopsRows (R.state builder.entry.reader.now)
        (builder_by builder.entry.reader.now builder.entry.settings) (S.state source) after f) }
    ensures same { R.state builder.exit.0.now ≡ R.state builder.entry.reader.now }
{
    splits_give_what_is_asked::<R, Identity<E>>();
    match builder.prepare(alloc) {
        Ok(scan) => {
            let mut whole = scan;
            read_scan_from(alloc, &mut whole, None, source)
        }
        Err(fault) => Err(StreamFault::Setup(fault)),
    }
}

/// All arrays of a scan, or of those of its rows in a further range, as a stream gives them: the first values that its
/// splits give, as many as its limit, in the order of the splits, or in some order where the scan has none. Whatever is
/// answered, nothing is live in the end, and the scan may be executed again.
///
/// # Errors
/// `Setup` where the range is reversed or its end passes the row count, or with want of memory. Else those of
/// `read_stream`.
pub fn read_scan<E: Drop, S: SegmentSource>(
    alloc: Global,
    scan: &mut RepeatedScan<Identity<E>>,
    row_range: Option<Range<u64>>,
    source: &mut S,
) -> Result<Vec<Array>, StreamFault<E>>
    requires idle { (S.state source.old).live ≡ none_live }
    ensures read { IfOk result (λ v. (store : Store) → (S.state source.old).holds ≡ Some store
        → GivesFirst scan.old.ordered scan.old.limit (values_of (splits_of scan.old row_range) store)
        (values_given v.items)) }
    ensures stops { IfErr result (StopsScan (S.state source.old) (S.state source.new) scan.old row_range) }
    ensures idle { (S.state source.new).live ≡ none_live }
    ensures same { scan.new ≡ scan.old }
{
    streams_give_the_first_rows::<Identity<E>>();
    match scan.execute_array_stream(alloc, row_range) {
        Ok(stream) => read_stream(alloc, stream, source),
        Err(fault) => Err(StreamFault::Setup(fault)),
    }
}

/// The same of an iterator over a source of its own.
///
/// # Errors
/// Those of `read_scan`, `Source` only where the source can fail.
pub fn read_scan_from<E: Drop, S: SegmentSource + Drop>(
    alloc: Global,
    scan: &mut RepeatedScan<Identity<E>>,
    row_range: Option<Range<u64>>,
    source: S,
) -> Result<Vec<Array>, StreamFault<E>>
    requires idle { (S.state source).live ≡ none_live }
    ensures read { IfOk result (λ v. (store : Store) → (S.state source).holds ≡ Some store
        → GivesFirst scan.old.ordered scan.old.limit (values_of (splits_of scan.old row_range) store)
        (values_given v.items)) }
    ensures stops { IfErr result (λ f. (after : SourceState)
        × StopsScan (S.state source) after scan.old row_range f) }
    ensures same { scan.new ≡ scan.old }
{
    streams_give_the_first_rows::<Identity<E>>();
    match scan.execute_array_iter(alloc, row_range, source) {
        Ok(arrays) => read_iterator(alloc, arrays),
        Err(fault) => Err(StreamFault::Setup(fault)),
    }
}
