//! Scans of one reader in parts. After the Rust's `scan::layout`.
ghost use Rattle.std.specs.Prelude.{◌≡◌, ◌≤◌};
ghost use Rattle.scan_core.specs.Streaming.{scan_dtype};
ghost use Rattle.scan_sources.specs.Scans.{GivesPart, IsReaderScan, is_over, is_used, left_after, lessened, next_range, parts_left, reader_scan};
ghost use Rattle.scan_sources.specs.Splits.{own_limit};

use crate::empty::Empty;
use crate::precision::Precision;
use crate::request::Plain;
use crate::shared_limit::{SharedLimit, claims_of};
use crate::split::LayoutReaderSplit;
use scan_values::{DType, NoMemory};
use std::alloc::Global;
use std::marker::Model;
use std::ops::Range;

/// A scan of one reader.
#[derive(Drop)]
pub enum LayoutScan {
    /// Nothing is read but the number of rows.
    Empty(Empty),
    /// Its rows are read in parts.
    Splits(LayoutReaderScan),
}

/// A scan of one reader in parts, each of which has so many of its rows. Contracts see the scan of all rows, the first
/// row that is in no part yet, the end, the size of a part, what is left of the limit, and the seat where parts share it.
#[derive(Drop)]
pub struct LayoutReaderScan {
    scan: Plain,
    next_row: u64,
    end_row: u64,
    split_size: u64,
    remaining_limit: Option<u64>,
    row_limit: Option<SharedLimit>,
}

impl Model for LayoutReaderScan {
    ghost use Rattle.scan_sources.specs.Plain.{Plain, plain_code};
    ghost use Rattle.scan_sources.specs.Scans.{ReaderScan, IsReaderScan, reader_scan, reader_scan_code};

    ghost Value = { ReaderScan Plain };

    ghost coded = { reader_scan_code plain_code };

    ghost view = { λ a. reader_scan a.scan a.next_row a.end_row a.split_size a.remaining_limit a.row_limit };

    ghost invariant = { λ a. IsReaderScan
        (reader_scan a.scan a.next_row a.end_row a.split_size a.remaining_limit a.row_limit) };
}

impl LayoutReaderScan {
    /// A scan of a range of rows, in parts of this size.
    pub(crate) fn new(
        scan: Plain,
        range: Range<u64>,
        split_size: u64,
        limit: Option<u64>,
        row_limit: Option<SharedLimit>,
    ) -> LayoutReaderScan
        requires { IsReaderScan (reader_scan scan range.start range.end split_size limit row_limit) }
        ensures { result ≡ reader_scan scan range.start range.end split_size limit row_limit }
    {
        LayoutReaderScan {
            scan,
            next_row: range.start,
            end_row: range.end,
            split_size,
            remaining_limit: limit,
            row_limit,
        }
    }

    /// The dtype of the projection.
    pub fn dtype(&self) -> &DType
        ensures { result.now ≡ scan_dtype self.now.scan }
    {
        self.scan.dtype()
    }

    /// How many parts are left: exactly none at its end, else about as many as the rows that are left make.
    pub fn partition_count(&mut self) -> Precision<usize>
        ensures count { result ≡ parts_left self.old }
        ensures same { self.new ≡ self.old }
    {
        if self.is_over() {
            return Precision::Exact(0);
        }
        let rows = self.end_row - self.next_row;
        Precision::Inexact(rows.div_ceil(self.split_size) as usize)
    }

    /// The next part: the rows behind those of the part before, as many as a part has or all that are left. Without a
    /// filter each part gets what the selected rows of those before leave of the limit. With one each part of an ordered
    /// scan gets the whole limit, and those of an unordered one share it. None at the end, where no row is left, or
    /// nothing of the limit. A call that finds no memory changes nothing.
    pub fn next_partition(&mut self, alloc: Global) -> Result<Option<LayoutReaderSplit>, NoMemory>
        ensures gives { GivesPart self.old self.new result }
        ensures lies { IsReaderScan self.old }
    {
        if self.is_over() {
            return Ok(None);
        }
        let range = self.next_range();
        let left = self.left_after(&range);
        let limit = self.remaining_limit;
        let scan = self.scan.with_some_limit(self.own_limit())?;
        let claims = claims_of(&mut self.row_limit, range.end - range.start)?;
        self.next_row = range.end;
        self.remaining_limit = left;
        Ok(Some(LayoutReaderSplit::new(scan, range, limit, claims)))
    }

    /// Whether no row is left, or nothing of the limit.
    fn is_over(&self) -> bool
        ensures over { result ≡ is_over self.now }
        ensures lies { IsReaderScan self.now }
    {
        self.end_row <= self.next_row || is_used(self.remaining_limit)
    }

    /// The rows of the next part.
    fn next_range(&self) -> Range<u64>
        ensures { result ≡ next_range self.now }
    {
        let end = self.next_row.saturating_add(self.split_size);
        self.next_row..end.min(self.end_row)
    }

    /// The limit that the next part has for itself.
    fn own_limit(&self) -> Option<u64>
        ensures { result ≡ own_limit self.now.seat self.now.left }
    {
        match &self.row_limit {
            Some(_) => None,
            None => self.remaining_limit,
        }
    }

    /// What is left of the limit behind the next part.
    fn left_after(&self, range: &Range<u64>) -> Option<u64>
        requires rows { range.now ≡ next_range self.now }
        requires order { range.now.start ≤ range.now.end }
        ensures { result ≡ left_after self.now }
    {
        let selected = self.scan.selection().row_count_in_range(range);
        lessened(self.scan.has_filter(), self.remaining_limit, selected)
    }
}

/// Whether nothing is left of a limit.
fn is_used(limit: Option<u64>) -> bool
    ensures { result ≡ is_used limit }
{
    match limit {
        Some(rows) => rows == 0,
        None => false,
    }
}

/// What is left of a limit: without a filter it is lessened by so many rows.
fn lessened(filtered: bool, left: Option<u64>, rows: u64) -> Option<u64>
    ensures { result ≡ lessened filtered left rows }
{
    if filtered {
        return left;
    }
    match left {
        Some(limit) => Some(limit.saturating_sub(rows)),
        None => None,
    }
}
