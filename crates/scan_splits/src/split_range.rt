//! Ranges of rows in which a reader registers splits. After the Rust's `reader`.
ghost use Rattle.std.specs.Prelude.{◌≡◌, ◌+◌, ◌-◌, ◌≤◌, ◌<◌, ◌^◌, ◌↔◌, IfErr, IsOk, Ok, nat_le};
ghost use Rattle.scan_splits.specs.RowSpans.{RowSpan, IsRowSpan, span_of};

use std::alloc::AllocError;
use std::clone::Clone;
use std::marker::Model;
use std::ops::Range;
use thiserror::Error;

/// Why there is no range of splits, or why a reader has not its rows.
#[derive(Clone, Copy, Debug, PartialEq, Eq, Error)]
pub enum SplitRangeFault {
    #[error("the start is above the end")]
    Reversed,
    #[error("the end passes the greatest u64 in the root")]
    Overflow,
    #[error("the end passes the row count")]
    Bounds,
}

/// Rows of a reader in which its splits are registered, and the row of the root at which its row 0 stands. Contracts
/// see the offset, the start and the end.
#[derive(Debug, Drop, PartialEq, Eq)]
pub struct SplitRange {
    row_offset: u64,
    row_range: Range<u64>,
}

impl Model for SplitRange {
    ghost use Rattle.scan_splits.specs.RowSpans.{RowSpan, IsRowSpan};

    ghost Value = { RowSpan };

    ghost view = { λ a. record { offset = a.row_offset; start = a.row_range.start; end = a.row_range.end } };

    ghost invariant = { λ a. IsRowSpan (record {
      offset = a.row_offset;
      start = a.row_range.start;
      end = a.row_range.end;
    }) };

    ghost inverse = { λ s. record { row_offset = s.offset; row_range = record { start = s.start; end = s.end } } };
}

impl Clone for SplitRange {
    ghost is_clone = { λ range copy. copy ≡ range };

    /// The same range. It takes no memory, and does not fail.
    fn clone(&self) -> Result<SplitRange, AllocError>
        ensures { result ≡ Ok self.now }
    {
        Ok(SplitRange {
            row_offset: self.row_offset,
            row_range: self.row_range.start..self.row_range.end,
        })
    }
}

impl SplitRange {
    /// The rows of a range, which is local to a reader, and the row of the root at which the reader begins.
    ///
    /// # Errors
    /// The first of: `Reversed` exactly where the start is above the end, and `Overflow` exactly where the offset plus
    /// the end passes u64.
    pub fn try_new(row_offset: u64, row_range: Range<u64>) -> Result<Self, SplitRangeFault>
        ensures { result ≡ span_of row_offset row_range }
    {
        if row_range.start > row_range.end {
            return Err(SplitRangeFault::Reversed);
        }
        if row_offset.checked_add(row_range.end).is_none() {
            return Err(SplitRangeFault::Overflow);
        }
        Ok(SplitRange {
            row_offset,
            row_range,
        })
    }

    /// The rows of a range of the root.
    ///
    /// # Errors
    /// `Reversed` exactly where the start is above the end, and nothing else.
    pub fn root(row_range: Range<u64>) -> Result<Self, SplitRangeFault>
        ensures made { result ≡ span_of 0 row_range }
        ensures fault { IfErr result (λ f. f ≡ SplitRangeFault.Reversed) }
    {
        Self::try_new(0, row_range)
    }

    /// All of so many rows, of a root.
    pub fn whole(row_count: u64) -> Self
        ensures { result ≡ record { offset = 0; start = 0; end = row_count } }
    {
        SplitRange {
            row_offset: 0,
            row_range: 0..row_count,
        }
    }

    /// The row of the root at which the reader's row 0 stands.
    pub fn row_offset(&self) -> u64
        ensures { result ≡ self.now.offset }
    {
        self.row_offset
    }

    /// The rows, local to the reader.
    pub fn row_range(&self) -> &Range<u64>
        ensures start { result.now.start ≡ self.now.start }
        ensures end { result.now.end ≡ self.now.end }
        ensures form { IsRowSpan self.now }
    {
        &self.row_range
    }

    /// How many rows there are.
    pub fn len(&self) -> u64
        ensures { result ≡ self.now.end - self.now.start }
    {
        self.row_range.end - self.row_range.start
    }

    /// Whether there is no row.
    pub fn is_empty(&self) -> bool
        ensures { result ≡ nat_le self.now.end self.now.start }
    {
        self.row_range.end <= self.row_range.start
    }

    /// The rows, as rows of the root.
    pub fn root_row_range(&self) -> Range<u64>
        ensures start { result.start ≡ self.now.offset + self.now.start }
        ensures end { result.end ≡ self.now.offset + self.now.end }
    {
        self.row_offset + self.row_range.start..self.row_offset + self.row_range.end
    }

    /// Whether a reader of so many rows has them.
    ///
    /// # Errors
    /// `Bounds` exactly where the end passes the row count.
    pub fn check_bounds(&self, row_count: u64) -> Result<(), SplitRangeFault>
        ensures fits { IsOk result ↔ (self.now.end ≤ row_count) }
        ensures fault { IfErr result (λ f. f ≡ SplitRangeFault.Bounds) }
    {
        if self.row_range.end > row_count {
            return Err(SplitRangeFault::Bounds);
        }
        Ok(())
    }
}
