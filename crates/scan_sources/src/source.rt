//! A source of the rows of one reader. After the Rust's `scan::layout`.
ghost use Rattle.std.specs.Prelude.{◌≡◌, ◌<◌, IfOk, IfSome, Err, false};
ghost use Rattle.scan_core.specs.RowRanges.{is_past};
ghost use Rattle.scan_sources.specs.Faults.{Refuses, number_refusal};
ghost use Rattle.scan_sources.specs.Requests.{IsBoundOver, bound_request, reads_nothing};
ghost use Rattle.scan_sources.specs.Scans.{LeavesSame, StartsScan, source_data, source_refusal};
ghost use Rattle.scan_sources.specs.Sources.{Starts};
ghost use Rattle.scan_sources.specs.declared.precision.Precision.TheVariants as precision;

use crate::empty::Empty;
use crate::fault::SourceFault;
use crate::precision::Precision;
use crate::request::{BoundScanRequest, is_past, range_or_all};
use crate::scan::{LayoutReaderScan, LayoutScan};
use crate::shared_limit::shared;
use scan_expr::ScanRequest;
use scan_readers::LayoutReader;
use scan_values::{DType, NoMemory};
use std::alloc::Global;
use std::marker::Model;

/// A source of the rows of one reader. Contracts see the reader, and how many rows a part of a scan has at most.
#[derive(Drop)]
pub struct LayoutReaderDataSource<R: LayoutReader> {
    reader: R,
    split_max_row_count: u64,
}

impl<R: LayoutReader> Model for LayoutReaderDataSource<R> {
    ghost use Rattle.scan_sources.specs.Scans.{SourceData, source_code, source_data};

    ghost Value = { SourceData R };

    ghost coded = { source_code R.code };

    ghost view = { λ a. source_data a.reader a.split_max_row_count };
}

impl<R: LayoutReader + Drop> LayoutReaderDataSource<R> {
    /// The rows of a reader, all in one part.
    pub fn new(reader: R) -> Self
        ensures { result ≡ source_data reader 18446744073709551615 }
    {
        LayoutReaderDataSource {
            reader,
            split_max_row_count: u64::MAX,
        }
    }

    /// With at most so many rows in a part.
    pub fn with_split_max_row_count(self, rows: u64) -> Self
        ensures { result ≡ record self { size = rows } }
    {
        let mut source = self;
        source.split_max_row_count = rows;
        source
    }

    /// The dtype of the rows, before any projection.
    pub fn dtype(&self) -> &DType
        ensures { result.now ≡ (R.state self.now.reader).dtype }
    {
        self.reader.dtype()
    }

    /// The number of its rows.
    pub fn row_count(&self) -> Precision<u64>
        ensures { result ≡ precision.Exact (R.state self.now.reader).rows }
    {
        Precision::Exact(self.reader.row_count())
    }

    /// Nothing is known of the number of its bytes.
    pub fn byte_size(&self) -> Precision<u64>
        ensures { result ≡ precision.Absent }
    {
        Precision::Absent
    }

    /// A scan of what is asked for, which is planned here, once for all its parts. What the request restricts of
    /// partitions plays no part.
    ///
    /// # Errors
    /// The first that holds, and exactly then, unless memory runs out before: `SplitSize` where a part has no rows;
    /// `RowRange` where the range is reversed or its end passes the row count; `Bind` with the first fault of the
    /// projection, then of the filter, then `NotBool`. The first two take no memory. Each of them leaves the source as it
    /// was. Else `NoMemory` alone. Whatever is answered, the rows stay as they were: a further scan gives the same.
    pub fn scan(&mut self, alloc: Global, request: ScanRequest) -> Result<LayoutScan, SourceFault>
        ensures numbers { IfSome (number_refusal self.old.size request.row_range (R.state self.old.reader).rows)
            (λ f. result ≡ Err f) }
        ensures fault { Refuses result (source_refusal (R.state self.old.reader) self.old.size request) }
        ensures scan { IfOk result (λ s. Starts (R.state self.old.reader) self.old.size
            (bound_request (R.state self.old.reader).dtype request) s) }
        ensures size { self.new.size ≡ self.old.size }
        ensures same { R.state self.new.reader ≡ R.state self.old.reader }
        ensures refused { LeavesSame self.old self.new result }
    {
        if self.split_max_row_count == 0 {
            return Err(SourceFault::SplitSize);
        }
        if is_past(&request.row_range, self.reader.row_count()) {
            return Err(SourceFault::RowRange);
        }
        let request = BoundScanRequest::try_new(alloc, request, self.reader.dtype())?;
        Ok(self.scan_bound(alloc, request)?)
    }

    /// The same of a request over the rows' dtype, with which nothing is wrong.
    fn scan_bound(
        &mut self,
        alloc: Global,
        request: BoundScanRequest,
    ) -> Result<LayoutScan, NoMemory>
        requires size { 0 < self.old.size }
        requires over { IsBoundOver (R.state self.old.reader).dtype request }
        requires range { is_past request.row_range (R.state self.old.reader).rows ≡ false }
        ensures scan { IfOk result (λ s. Starts (R.state self.old.reader) self.old.size request s) }
        ensures size { self.new.size ≡ self.old.size }
        ensures same { R.state self.new.reader ≡ R.state self.old.reader }
    {
        let rows = self.reader.row_count();
        if request.reads_nothing() {
            let dtype = request.dtype().try_clone(alloc)?;
            return Ok(LayoutScan::Empty(Empty::new(dtype, request.asked_count(rows))));
        }
        let size = self.split_max_row_count;
        let scan = split_scan(alloc, &mut self.reader, size, request)?;
        Ok(LayoutScan::Splits(scan))
    }
}

/// A scan in parts of this size of a request over a reader's rows.
fn split_scan<R: LayoutReader + Drop>(
    alloc: Global,
    reader: &mut R,
    split_size: u64,
    request: BoundScanRequest,
) -> Result<LayoutReaderScan, NoMemory>
    requires size { 0 < split_size }
    requires over { IsBoundOver (R.state reader.old).dtype request }
    requires range { is_past request.row_range (R.state reader.old).rows ≡ false }
    ensures starts { IfOk result (λ s. StartsScan (R.state reader.old) split_size request s) }
    ensures same { R.state reader.new ≡ R.state reader.old }
{
    let rows = range_or_all(&request.row_range, reader.row_count());
    let limit = request.limit;
    let row_limit = shared(alloc, request.shared_limit())?;
    let scan = request.prepare(alloc, reader)?;
    Ok(LayoutReaderScan::new(scan, rows, split_size, limit, row_limit))
}
