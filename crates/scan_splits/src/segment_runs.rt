//! The segments of a leaf, from which a poll goes to the one that has a row. An own type: the Rust's leaves have one
//! segment each.
ghost use Rattle.std.specs.Prelude.{◌≡◌, ℕ, ◌+◌, ◌≤◌, ◌<◌, ◌↔◌, drop, Err, ◌^◌, ◌++◌, ◌∷◌, [], length, map, filter, IfOk, OnOk, slice_index_or, Some, None, nat_lt, if◌then◌else◌};
ghost use Rattle.std.specs.List.Sorted.{IsNonDecreasing};
ghost use Rattle.scan_layout.specs.Edges.{segment_ends, is_inside};
ghost use Rattle.scan_layout.specs.Check.{total_rows};
ghost use Rattle.scan_splits.specs.RowLists.{shifted, Pushes};
ghost use Rattle.scan_splits.specs.Runs.{runs_of, start_of};
ghost use Rattle.scan_splits.specs.SplitFaults.{Tells};

use crate::fault::SplitFault;
use crate::push::{push_end, push_ends};
use crate::row_splits::RowSplits;
use crate::split_range::SplitRange;
use scan_layout::LeafSegments;
use scan_segments::SegmentId;
use scan_values::NoMemory;
use std::alloc::Global;
use std::marker::Model;

/// The segments of a leaf in row order, by their ids and the rows at which they end. Contracts see them as a list of
/// pairs, an id and a number of rows each, as they see the segments of a layout.
#[derive(Drop)]
pub struct SegmentRuns {
    ids: Vec<SegmentId>,
    ends: Vec<u64>,
}

impl Model for SegmentRuns {
    ghost use Rattle.std.specs.Prelude.{◌≡◌, List, ℕ, map};
    ghost use Rattle.scan_layout.specs.Edges.{segment_ends};
    ghost use Rattle.scan_splits.specs.Runs.{runs_of};

    ghost Value = { List (ℕ × ℕ) };

    ghost view = { λ a. runs_of 0 a.ids.items a.ends.items };

    ghost invariant = { λ a. record {
      ids : a.ids.items ≡ map (λ g. g.0) (runs_of 0 a.ids.items a.ends.items);
      ends : a.ends.items ≡ segment_ends 0 (runs_of 0 a.ids.items a.ends.items);
    } };
}

impl SegmentRuns {
    // The segments of these ids, which end at these rows.
    fn made(ids: Vec<SegmentId>, ends: Vec<u64>, segments: &[(SegmentId, u64)]) -> SegmentRuns
        requires ids { ids.items ≡ map (λ g. g.0) segments.now }
        requires ends { ends.items ≡ segment_ends 0 segments.now }
        ensures { result ≡ segments.now }
    {
        SegmentRuns { ids, ends }
    }

    /// The segments of a leaf, whose rows sum within u64.
    pub fn from_segments(alloc: Global, segments: &LeafSegments) -> Result<SegmentRuns, NoMemory>
        requires { total_rows segments.now < 2 ^ 64 }
        ensures { IfOk result (λ runs. runs ≡ segments.now) }
    {
        let segments = segments.as_slice();
        let ids = ids_of(alloc, segments)?;
        let ends = ends_of(alloc, segments)?;
        Ok(SegmentRuns::made(ids, ends, segments))
    }

    /// How many segments there are.
    pub fn len(&self) -> usize
        ensures { result ≡ length self.now }
    {
        self.ids.len()
    }

    /// The rows of all segments.
    pub fn row_count(&self) -> u64
        ensures { result ≡ total_rows self.now }
    {
        self.start(self.len())
    }

    /// The id of the segment of an index.
    pub fn id(&self, i: usize) -> SegmentId
        requires { i < length self.now }
        ensures { result ≡ (slice_index_or self.now i (0, 0)).0 }
    {
        self.ids[i]
    }

    /// The row at which the segment of an index begins. For the number of segments it is the number of rows.
    pub fn start(&self, i: usize) -> u64
        requires { i ≤ length self.now }
        ensures { result ≡ start_of self.now i }
    {
        if i == 0 {
            return 0;
        }
        self.ends[i - 1]
    }

    /// The row at which the segment of an index ends, without this row.
    pub fn end(&self, i: usize) -> u64
        requires { i < length self.now }
        ensures { result ≡ start_of self.now (i + 1) }
    {
        self.ends[i]
    }

    /// How many rows the segment of an index has.
    pub fn rows(&self, i: usize) -> u64
        requires { i < length self.now }
        ensures { result ≡ (slice_index_or self.now i (0, 0)).1 }
    {
        self.end(i) - self.start(i)
    }

    /// The index of the first segment that ends past a row, which is the one that has the row. The number of segments
    /// where none does. It is a binary search.
    pub fn first_at(&self, row: u64) -> usize
        ensures within { result ≤ length self.now }
        ensures before { (k : ℕ) → k < result → start_of self.now (k + 1) ≤ row }
        ensures past { result < length self.now → row < start_of self.now (result + 1) }
    {
        self.ends.partition_point(|end| *end <= row)
    }

    /// Registers the splits of the leaf in a range: the rows at which its segments end strictly inside the range, and
    /// the range's end, each plus the range's row offset. What was pushed before a refusal stays.
    ///
    /// # Errors
    /// `Bounds` exactly where the range's end passes the rows of all segments. `NoMemory`.
    pub fn register_splits(
        &self,
        range: &SplitRange,
        splits: &mut RowSplits,
    ) -> Result<(), SplitFault>
        ensures bounds { (result ≡ Err SplitFault.Bounds) ↔ (total_rows self.now < range.now.end) }
        ensures first { Tells result
            (if nat_lt (total_rows self.now) range.now.end then Some SplitFault.Bounds else None) }
        ensures pushed { Pushes result (shifted range.now.offset (filter (is_inside range.now.start range.now.end)
            (segment_ends 0 self.now) ++ range.now.end ∷ [])) splits.old splits.new }
    {
        if range.check_bounds(self.row_count()).is_err() {
            return Err(SplitFault::Bounds);
        }
        self.push_splits(range, splits)?;
        Ok(())
    }

    // Pushes the splits of the leaf in a range.
    fn push_splits(&self, range: &SplitRange, splits: &mut RowSplits) -> Result<(), NoMemory>
        ensures { Pushes result (shifted range.now.offset (filter (is_inside range.now.start range.now.end)
            (segment_ends 0 self.now) ++ range.now.end ∷ [])) splits.old splits.new }
    {
        push_ends(self.ends_past(range.row_range().start), range, splits)?;
        push_end(range, splits)
    }

    // The rows at which segments end, from the first one past a row on.
    fn ends_past(&self, row: u64) -> &[u64]
        ensures rise { IsNonDecreasing result.now }
        ensures ends { (hi : ℕ) →
            filter (is_inside row hi) result.now ≡ filter (is_inside row hi) (segment_ends 0 self.now) }
    {
        let first = self.first_at(row);
        rows_from(&self.ends, first)
    }
}

// The rows from an index on.
fn rows_from(rows: &[u64], first: usize) -> &[u64]
    requires { first ≤ length rows.now }
    ensures { result.now ≡ drop first rows.now }
{
    &rows[first..]
}

// The ids of segments.
fn ids_of(alloc: Global, segments: &[(SegmentId, u64)]) -> Result<Vec<SegmentId>, NoMemory>
    ensures { IfOk result (λ v. v.items ≡ map (λ g. g.0) segments.now) }
{
    let mut ids = Vec::with_capacity(alloc, segments.len())?;
    for (id, _) in segments {
        ids.push(*id)?;
    }
    Ok(ids)
}

// The rows at which segments end.
#[tactic(auto, using(crate::proofs::Runs::ends_at, crate::proofs::Runs::ends_past, crate::proofs::Runs::total_rows_at))]
fn ends_of(alloc: Global, segments: &[(SegmentId, u64)]) -> Result<Vec<u64>, NoMemory>
    requires { total_rows segments.now < 2 ^ 64 }
    ensures { IfOk result (λ v. v.items ≡ segment_ends 0 segments.now) }
{
    let mut ends = Vec::with_capacity(alloc, segments.len())?;
    let mut end: u64 = 0;
    for (_, rows) in segments {
        end += *rows;
        ends.push(end)?;
    }
    Ok(ends)
}
