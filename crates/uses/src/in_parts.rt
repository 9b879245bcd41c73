//! A catalogue that asks for the rows of a source in parts.
ghost use Rattle.std.specs.Prelude.{◌≡◌, IfOk, None};
ghost use Rattle.vortex_scan.specs.Collect.Reads.{values_given};
ghost use Rattle.vortex_scan.specs.Core.Given.{Rises};
ghost use Rattle.vortex_scan.specs.Segments.Source.{none_live};
ghost use Rattle.vortex_scan.specs.Sources.Requests.{bound_request, shared_limit};
ghost use Rattle.uses.specs.InParts.{GivesOf, IsReadInParts, KeepsPart, PushesPart, ReadsNext, ReadsParts};

use std::alloc::Global;
use std::ops::Range;
use vortex_scan::LayoutReader;
use vortex_scan::arrays::Array;
use vortex_scan::expr::transform::parts_may_be_parted;
use vortex_scan::scan::ScanRequest;
use vortex_scan::scan::collect::read_stream;
use vortex_scan::scan::layout::{
    Empty, LayoutReaderDataSource, LayoutReaderScan, LayoutReaderSplit, LayoutScan, SourceFault,
    parts_cover_the_scan, parts_give_the_first_rows,
};
use vortex_scan::scan::repeated_scan::{Identity, StreamFault};
use vortex_scan::segments::SegmentSource;

/// What a part of a scan gives of its rows.
#[derive(Drop)]
pub struct RowsOfPart {
    pub rows: Range<u64>,
    pub arrays: Vec<Array>,
}

/// What a request gives that is asked in parts.
#[derive(Drop)]
pub enum InParts {
    /// Nothing is read of the rows.
    Counted(Empty),
    /// Each part, in the order of the rows.
    Read(Vec<RowsOfPart>),
}

/// Why a request is not read in parts.
#[derive(Drop)]
pub enum PartsFault {
    /// The source refuses it.
    Source(SourceFault),
    /// A part of it can't be read.
    Part(StreamFault<()>),
}

/// What comes of a call for the next part.
#[derive(Drop)]
enum Turn {
    More,
    Last,
    Stop(StreamFault<()>),
}

/// The rows that a request asks of a source, part by part, as long as there is a part: of a request without a limit, without
/// a filter, or in order, whose parts share no limit. The parts follow each other from the first row of the request's range,
/// without a limit to its last. What they give, over segments that are told, are the first of the rows that the request asks
/// for, as many as its limit: the values of its projection at the selected rows of its range at which its filter is true. In
/// order, with a filter and a limit, these are the first of what the parts give one after the other; else they are all of it,
/// in the order of the rows or, where the request has none, in some order. Whatever is answered, the source's rows are as
/// they were, and nothing is live.
///
/// # Errors
/// `Source` with a fault of `LayoutReaderDataSource::scan`, `Part` with one of `read_stream`.
pub fn rows_in_parts<R: LayoutReader + Drop, S: SegmentSource>(
    alloc: Global,
    source: &mut LayoutReaderDataSource<R>,
    request: ScanRequest,
    segments: &mut S,
) -> Result<InParts, PartsFault>
    requires own { shared_limit (bound_request (R.state source.old.reader).dtype request) ≡ None }
    requires rises { Rises request.selection }
    requires idle { (S.state segments.old).live ≡ none_live }
    ensures parts { IfOk result (IsReadInParts (R.state source.old.reader)
        (bound_request (R.state source.old.reader).dtype request) (S.state segments.old).holds) }
    ensures idle { (S.state segments.new).live ≡ none_live }
    ensures same { R.state source.new.reader ≡ R.state source.old.reader }
{
    parts_may_be_parted();
    parts_cover_the_scan::<Identity<()>>();
    parts_give_the_first_rows::<Identity<()>>();
    let scan = match source.scan(alloc, request) {
        Ok(scan) => scan,
        Err(fault) => return Err(PartsFault::Source(fault)),
    };
    let mut left = match scan {
        LayoutScan::Empty(rows) => return Ok(InParts::Counted(rows)),
        LayoutScan::Splits(parts) => parts,
    };
    match read_parts(alloc, &mut left, segments) {
        Ok(read) => Ok(InParts::Read(read)),
        Err(fault) => Err(PartsFault::Part(fault)),
    }
}

/// All parts of a scan that share no limit, read to their end.
fn read_parts<S: SegmentSource>(
    alloc: Global,
    scan: &mut LayoutReaderScan,
    segments: &mut S,
) -> Result<Vec<RowsOfPart>, StreamFault<()>>
    requires own { scan.old.seat ≡ None }
    requires idle { (S.state segments.old).live ≡ none_live }
    ensures parts { IfOk result (λ v. ReadsParts (S.state segments.old).holds scan.old scan.new v.items) }
    ensures idle { (S.state segments.new).live ≡ none_live }
{
    let mut read = Vec::new(alloc);
    'parts: loop {
        match read_part(alloc, scan, &mut read, segments) {
            Turn::More => {}
            Turn::Last => return Ok(read),
            Turn::Stop(fault) => return Err(fault),
        }
    }
}

/// The next part of a scan whose parts share no limit, read to its end and kept, where there is one.
fn read_part<S: SegmentSource>(
    alloc: Global,
    scan: &mut LayoutReaderScan,
    read: &mut Vec<RowsOfPart>,
    segments: &mut S,
) -> Turn
    requires own { scan.old.seat ≡ None }
    requires idle { (S.state segments.old).live ≡ none_live }
    ensures reads { ReadsNext (S.state segments.old).holds scan.old scan.new read.old.items read.new.items result }
    ensures idle { (S.state segments.new).live ≡ none_live }
    ensures holds { (S.state segments.new).holds ≡ (S.state segments.old).holds }
{
    match scan.next_partition(alloc) {
        Ok(Some(part)) => keep_part(alloc, part, read, segments),
        Ok(None) => Turn::Last,
        Err(_) => Turn::Stop(StreamFault::NoMemory),
    }
}

/// Reads a part that shares no limit to its end, and keeps what it gives.
fn keep_part<S: SegmentSource>(
    alloc: Global,
    part: LayoutReaderSplit,
    read: &mut Vec<RowsOfPart>,
    segments: &mut S,
) -> Turn
    requires own { part.seat ≡ None }
    requires idle { (S.state segments.old).live ≡ none_live }
    ensures keeps { KeepsPart (S.state segments.old).holds part read.old.items read.new.items result }
    ensures idle { (S.state segments.new).live ≡ none_live }
    ensures holds { (S.state segments.new).holds ≡ (S.state segments.old).holds }
{
    match rows_of_part(alloc, part, segments) {
        Ok(rows) => push_part(read, rows),
        Err(fault) => Turn::Stop(fault),
    }
}

/// Keeps what a part gives.
fn push_part(read: &mut Vec<RowsOfPart>, rows: RowsOfPart) -> Turn
    ensures { PushesPart rows read.old.items read.new.items result }
{
    match read.push(rows) {
        Ok(()) => Turn::More,
        Err(_) => Turn::Stop(StreamFault::NoMemory),
    }
}

/// What a part gives that shares no limit, read to its end.
fn rows_of_part<S: SegmentSource>(
    alloc: Global,
    part: LayoutReaderSplit,
    segments: &mut S,
) -> Result<RowsOfPart, StreamFault<()>>
    requires own { part.seat ≡ None }
    requires idle { (S.state segments.old).live ≡ none_live }
    ensures rows { IfOk result (λ r. r.rows ≡ part.range) }
    ensures values { IfOk result (λ r. GivesOf (S.state segments.old).holds part (values_given r.arrays.items)) }
    ensures idle { (S.state segments.new).live ≡ none_live }
    ensures holds { (S.state segments.new).holds ≡ (S.state segments.old).holds }
{
    let range = part.row_range();
    let rows = range.start..range.end;
    let stream = match part.execute(alloc) {
        Ok(stream) => stream,
        Err(fault) => return Err(StreamFault::Setup(fault)),
    };
    match read_stream(alloc, stream, segments) {
        Ok(arrays) => Ok(RowsOfPart { rows, arrays }),
        Err(fault) => Err(fault),
    }
}
