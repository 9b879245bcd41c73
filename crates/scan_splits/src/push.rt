//! Rows of a range that are pushed as splits of the root.
ghost use Rattle.std.specs.Prelude.{◌≡◌, ◌≤◌, ◌<◌, ◌+◌, ◌∷◌, [], filter, MatchOption};
ghost use Rattle.std.specs.List.Sorted.{IsNonDecreasing};
ghost use Rattle.scan_layout.specs.Edges.{is_inside, segment_ends};
ghost use Rattle.scan_splits.specs.RowLists.{shifted, Pushes};

use crate::row_splits::RowSplits;
use crate::split_range::SplitRange;
use scan_segments::SegmentId;
use scan_values::NoMemory;

/// Pushes the end of a range.
pub(crate) fn push_end(range: &SplitRange, splits: &mut RowSplits) -> Result<(), NoMemory>
    ensures { Pushes result (shifted range.now.offset (range.now.end ∷ [])) splits.old splits.new }
{
    push_row(range, range.row_range().end, splits)
}

/// Pushes a row that is strictly inside a range, and no other.
#[tactic(auto, using(crate::proofs::Pushing::adds_none))]
pub(crate) fn push_inside(
    range: &SplitRange,
    row: u64,
    splits: &mut RowSplits,
) -> Result<(), NoMemory>
    ensures { Pushes result (shifted range.now.offset (filter (is_inside range.now.start range.now.end) (row ∷ [])))
        splits.old splits.new }
{
    let rows = range.row_range();
    if rows.start < row && row < rows.end {
        return push_row(range, row, splits);
    }
    Ok(())
}

// Pushes a row of a range.
#[tactic(auto, using(crate::proofs::Pushing::adds_one, crate::proofs::Pushing::adds_less))]
fn push_row(range: &SplitRange, row: u64, splits: &mut RowSplits) -> Result<(), NoMemory>
    requires { row ≤ range.now.end }
    ensures { Pushes result (shifted range.now.offset (row ∷ [])) splits.old splits.new }
{
    let _rows = range.row_range();
    splits.push(range.row_offset() + row)
}

// The end of a segment of so many rows, where it is below a row.
fn end_below(begin: u64, rows: u64, limit: u64) -> Option<u64>
    ensures { MatchOption result (limit ≤ begin + rows) (λ end. (end ≡ begin + rows) × (end < limit)) }
{
    match begin.checked_add(rows) {
        Some(end) => { if end < limit { Some(end) } else { None } }
        None => None,
    }
}

/// Pushes the ends of segments that are strictly inside a range.
pub(crate) fn push_segment_ends(
    segments: &[(SegmentId, u64)],
    range: &SplitRange,
    splits: &mut RowSplits,
) -> Result<(), NoMemory>
    ensures { Pushes result (shifted range.now.offset (filter (is_inside range.now.start range.now.end)
        (segment_ends 0 segments.now))) splits.old splits.new }
{
    let limit = range.row_range().end;
    let mut begin: u64 = 0;
    for (_, rows) in segments {
        let Some(end) = end_below(begin, *rows, limit) else {
            return Ok(());
        };
        push_inside(range, end, splits)?;
        begin = end;
    }
    Ok(())
}

/// Pushes those of rising rows that are strictly inside a range.
pub(crate) fn push_ends(
    ends: &[u64],
    range: &SplitRange,
    splits: &mut RowSplits,
) -> Result<(), NoMemory>
    requires { IsNonDecreasing ends.now }
    ensures { Pushes result (shifted range.now.offset (filter (is_inside range.now.start range.now.end) ends.now))
        splits.old splits.new }
{
    let limit = range.row_range().end;
    for end in ends {
        if *end >= limit {
            return Ok(());
        }
        push_inside(range, *end, splits)?;
    }
    Ok(())
}
