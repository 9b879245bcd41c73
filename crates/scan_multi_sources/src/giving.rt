//! The partitions of a scan of many files, and why a file has none. After the Rust's `scan::multi`.
ghost use Rattle.std.specs.Prelude.{◌≡◌, [], IfOk, None, false};
ghost use Rattle.scan_layout.specs.Form.{HasForm};
ghost use Rattle.scan_layout.specs.Layout.{dtype_of, rows_of};
ghost use Rattle.scan_readers.specs.LeafPlans.{layout_state};
ghost use Rattle.scan_streams.specs.Grants.{HasRoom};
ghost use Rattle.scan_core.specs.RowRanges.{is_past};
ghost use Rattle.scan_sources.specs.Requests.{IsBoundOver, IsScanOfRequest};
ghost use Rattle.scan_sources.specs.Splits.{own_limit};
ghost use Rattle.scan_multi_sources.specs.FileFaults.{ends_past, file_fault, is_too_many, past_fault, rows_after};
ghost use Rattle.scan_multi_sources.specs.MultiScans.{Makes, MakesPartition};
ghost use Rattle.scan_multi_sources.specs.Partitions.{MakesPart, part_size};
ghost use Rattle.scan_multi_sources.specs.Numbers.{is_given};

use crate::fault::MultiFault;
use crate::file_scan::FileScan;
use crate::partition::MultiLayoutPartition;
use scan_layout::{LayoutNode, LayoutReaderContext, LayoutRef};
use scan_opener::LayoutReaderFactory;
use scan_readers::Reader;
use scan_sources::{
    BoundScanRequest, LayoutReaderSplit, Plain, SharedLimit, claims_of, range_or_all,
};
use scan_values::{DType, NoMemory, Text};
use std::alloc::Global;
use std::ops::Range;

impl<O: LayoutReaderFactory + Drop> FileScan<O> {
    /// The partition of a file whose layout is there. None where its number is not to be given.
    pub(crate) fn partition(
        &mut self,
        alloc: Global,
        place: usize,
        layout: &LayoutRef,
    ) -> Result<Option<MultiLayoutPartition>, MultiFault>
        ensures { MakesPartition self.old self.new place layout.now.value result }
    {
        match self.fault_of(place, layout) {
            Some(fault) => Err(fault),
            None => self.sound_partition(alloc, place, layout),
        }
    }

    /// The same of a file of a layout with which nothing is wrong.
    fn sound_partition(
        &mut self,
        alloc: Global,
        place: usize,
        layout: &LayoutRef,
    ) -> Result<Option<MultiLayoutPartition>, MultiFault>
        requires { file_fault self.old.source.dtype self.old.request.row_range place layout.now.value ≡ None }
        ensures { MakesPartition self.old self.new place layout.now.value result }
    {
        if !self.is_given() {
            return Ok(None);
        }
        if self.is_too_many(layout.row_count()) {
            return Err(MultiFault::TooManyRows(place));
        }
        match self.make(alloc, place, layout) {
            Ok(partition) => Ok(Some(partition)),
            Err(_) => Err(MultiFault::NoMemory),
        }
    }

    /// What is wrong with a file of a layout.
    fn fault_of(&self, place: usize, layout: &LayoutNode) -> Option<MultiFault>
        ensures { result ≡ file_fault self.now.source.dtype self.now.request.row_range place layout.now }
    {
        fault_of(self.source.dtype(), &self.request.row_range, place, layout)
    }

    /// Whether the file that is delivered next is to be given, by its number.
    fn is_given(&self) -> bool
        ensures { result ≡ is_given self.now.numbers self.now.delivered }
    {
        self.numbers.has(self.delivered as u64)
    }

    /// Whether a shared limit can not count these rows beside those of the layouts given.
    fn is_too_many(&self, rows: u64) -> bool
        ensures { result ≡ is_too_many self.now.seat self.now.given_rows rows }
    {
        match &self.row_limit {
            Some(_) => self.given_rows.checked_add(rows).is_none(),
            None => false,
        }
    }

    /// The partition of a file with which nothing is wrong.
    fn make(
        &mut self,
        alloc: Global,
        place: usize,
        layout: &LayoutRef,
    ) -> Result<MultiLayoutPartition, NoMemory>
        requires good { file_fault self.old.source.dtype self.old.request.row_range place layout.now.value ≡ None }
        requires few { is_too_many self.old.seat self.old.given_rows (rows_of layout.now.value) ≡ false }
        ensures { Makes self.old self.new place layout.now.value result }
    {
        let given = rows_after(&self.row_limit, self.given_rows, layout.row_count());
        let split = split_of(alloc, &self.request, &mut self.row_limit, layout)?;
        self.given_rows = given;
        let bytes = self.source.bytes_at(place);
        Ok(MultiLayoutPartition::new(split, self.delivered, place, bytes))
    }
}

/// The rows of the layouts given, with these, where a limit is shared.
fn rows_after(shared: &Option<SharedLimit>, given: u64, rows: u64) -> u64
    requires { is_too_many shared.now given rows ≡ false }
    ensures { result ≡ rows_after shared.now given rows }
{
    match shared {
        Some(_) => given + rows,
        None => given,
    }
}

/// The part of a file of a layout that a request asks for, which is all in one part.
fn split_of(
    alloc: Global,
    request: &BoundScanRequest,
    shared: &mut Option<SharedLimit>,
    layout: &LayoutRef,
) -> Result<LayoutReaderSplit, NoMemory>
    requires form { HasForm layout.now.value (dtype_of layout.now.value) }
    requires over { IsBoundOver (dtype_of layout.now.value) request.now }
    requires range { is_past request.now.row_range (rows_of layout.now.value) ≡ false }
    requires room { HasRoom shared.old (part_size request.now layout.now.value) }
    ensures { MakesPart request.now layout.now.value shared.old shared.new result }
{
    let limit = request.limit;
    let all = scan_of(alloc, request, layout)?;
    let scan = all.with_some_limit(own_limit(shared, limit))?;
    let rows = range_or_all(&request.row_range, layout.row_count());
    let claims = claims_of(shared, rows.end - rows.start)?;
    Ok(LayoutReaderSplit::new(scan, rows, limit, claims))
}

/// The limit that a partition has for itself: all of it, unless it is shared.
fn own_limit(shared: &Option<SharedLimit>, limit: Option<u64>) -> Option<u64>
    ensures { result ≡ own_limit shared.now limit }
{
    match shared {
        Some(_) => None,
        None => limit,
    }
}

/// What is wrong with a file of a layout, of which this dtype is wanted and a range of rows is asked for.
fn fault_of(
    dtype: &DType,
    range: &Option<Range<u64>>,
    place: usize,
    layout: &LayoutNode,
) -> Option<MultiFault>
    ensures { result ≡ file_fault dtype.now range.now place layout.now }
{
    if *layout.dtype() != *dtype {
        return Some(MultiFault::DTypeMismatch(place));
    }
    match layout.check(dtype) {
        Ok(()) => past_fault(range, place, layout.row_count()),
        Err(fault) => Some(MultiFault::Layout(place, fault)),
    }
}

/// Whether a range ends past so many rows of the file at a place, as a fault.
fn past_fault(range: &Option<Range<u64>>, place: usize, rows: u64) -> Option<MultiFault>
    ensures { result ≡ past_fault place (ends_past range.now rows) }
{
    match range {
        Some(range) if range.end > rows => Some(MultiFault::RowRange(place)),
        _ => None,
    }
}

/// The scan of a request over the rows of a file of a layout, but for the limit.
fn scan_of(alloc: Global, request: &BoundScanRequest, layout: &LayoutRef) -> Result<Plain, NoMemory>
    requires form { HasForm layout.now.value (dtype_of layout.now.value) }
    requires over { IsBoundOver (dtype_of layout.now.value) request.now }
    requires range { is_past request.now.row_range (rows_of layout.now.value) ≡ false }
    ensures { IfOk result (λ s. IsScanOfRequest (layout_state [] layout.now.value) request.now s) }
{
    let mut reader = file_reader(alloc, layout)?;
    let request = request.try_clone(alloc)?;
    request.prepare(alloc, &mut reader)
}

/// A reader of the layout of a file.
fn file_reader(alloc: Global, layout: &LayoutRef) -> Result<Reader<u8>, NoMemory>
    requires { HasForm layout.now.value (dtype_of layout.now.value) }
    ensures { IfOk result (λ r. (r.name ≡ []) × (r.layout ≡ layout.now.value)) }
{
    let shared = LayoutReaderContext::new(alloc);
    let name = Text::new(String::new(alloc));
    Reader::from_layout(alloc, name, layout, &shared)
}
