//! Parts of scans of one reader. After the Rust's `scan::layout`.
ghost use Rattle.std.specs.Prelude.{◌≡◌, IfOk, None, is_some};
ghost use Rattle.scan_core.specs.Setup.{Refuses};
ghost use Rattle.scan_streams.specs.Grants.{HasRoom};
ghost use Rattle.scan_streams.specs.Plans.{has_filter};
ghost use Rattle.scan_streams.specs.Splits.{reach};
ghost use Rattle.scan_sources.specs.Splits.{IsSplit, IsStreamOfSplit, estimate, reader_split, selected_count, split_count};
ghost use Rattle.scan_sources.specs.declared.precision.Precision.TheVariants as precision;

use crate::precision::Precision;
use crate::request::{Plain, cut_by};
use scan_streams::{Claims, Identity, ScanStream, SetupFault};
use std::alloc::Global;
use std::marker::Model;
use std::ops::Range;

/// A part of a scan of one reader: a range of its rows, to be executed by itself. The parts share the plans, so a scan
/// plans once. Contracts see the scan, the rows, the limit that it got, and its seat where that is shared.
#[derive(Drop)]
pub struct LayoutReaderSplit {
    scan: Plain,
    row_range: Range<u64>,
    limit: Option<u64>,
    claims: Option<Claims>,
}

impl Model for LayoutReaderSplit {
    ghost use Rattle.scan_sources.specs.Plain.{Plain, plain_code};
    ghost use Rattle.scan_sources.specs.Splits.{ReaderSplit, IsSplit, reader_split, split_code};

    ghost Value = { ReaderSplit Plain };

    ghost coded = { split_code plain_code };

    ghost view = { λ a. reader_split a.scan a.row_range a.limit a.claims };

    ghost invariant = { λ a. IsSplit (reader_split a.scan a.row_range a.limit a.claims) };
}

impl LayoutReaderSplit {
    /// A part of a scan, with the limit that it got.
    pub fn new(
        scan: Plain,
        row_range: Range<u64>,
        limit: Option<u64>,
        claims: Option<Claims>,
    ) -> LayoutReaderSplit
        requires { IsSplit (reader_split scan row_range limit claims) }
        ensures { result ≡ reader_split scan row_range limit claims }
    {
        LayoutReaderSplit {
            scan,
            row_range,
            limit,
            claims,
        }
    }

    /// Its rows.
    pub fn row_range(&self) -> &Range<u64>
        ensures { result.now ≡ self.now.range }
    {
        &self.row_range
    }

    /// The limit that it got, by itself or shared.
    pub fn limit(&self) -> Option<u64>
        ensures { result ≡ self.now.limit }
    {
        self.limit
    }

    /// Its first row, by which it is known among the parts of its scan.
    pub fn index(&self) -> u64
        ensures { result ≡ self.now.range.start }
    {
        self.row_range.start
    }

    /// The number of its selected rows, up to its limit. It is exact where there is no filter.
    pub fn row_count(&self) -> Precision<u64>
        ensures { result ≡ split_count self.now }
    {
        estimate(self.has_filter(), self.selected_count())
    }

    /// The number of its selected rows, up to its limit.
    pub fn selected_count(&self) -> u64
        ensures { result ≡ selected_count self.now }
    {
        let selected = self.scan.selection().row_count_in_range(&self.row_range);
        cut_by(self.limit, selected)
    }

    /// Whether a filter decides which of these it gives.
    pub fn has_filter(&self) -> bool
        ensures { result ≡ has_filter self.now.scan.plans }
    {
        self.scan.has_filter()
    }

    /// Whether it shares its limit with other parts.
    pub fn is_shared(&self) -> bool
        ensures { result ≡ is_some self.now.seat }
    {
        self.claims.is_some()
    }

    /// Nothing is known of the number of its bytes.
    pub fn byte_size(&self) -> Precision<u64>
        ensures { result ≡ precision.Absent }
    {
        Precision::Absent
    }

    /// A stream of its rows: of the selected ones of the request's range that lie in it, at which the filter is true, up
    /// to its limit. Nothing is read before the stream is polled.
    ///
    /// # Errors
    /// `NoMemory` alone.
    pub fn execute(self, alloc: Global) -> Result<ScanStream<Identity<()>>, SetupFault>
        ensures stream { IfOk result (λ t. IsStreamOfSplit self t) }
        ensures room { IfOk result (λ t. HasRoom (t.feed).seat (reach (t.feed).splits)) }
        ensures fault { Refuses result None }
    {
        let LayoutReaderSplit {
            scan,
            row_range,
            claims,
            ..
        } = self;
        let mut scan = scan;
        match claims {
            Some(claims) => scan.execute_claiming(alloc, Some(row_range), claims),
            None => scan.execute_stream(alloc, Some(row_range)),
        }
    }
}

/// A number of rows, which a filter may lessen.
pub fn estimate(filtered: bool, rows: u64) -> Precision<u64>
    ensures { result ≡ estimate filtered rows }
{
    if filtered {
        Precision::Inexact(rows)
    } else {
        Precision::Exact(rows)
    }
}
