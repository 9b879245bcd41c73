//! The ranges of a scan's splits. After the Rust's `scan::repeated_scan`.
ghost use Rattle.std.specs.Prelude.{◌≡◌, ℕ, IfOk, true, filter};
ghost use Rattle.scan_values.specs.StrictSorted.{is_rising};
ghost use Rattle.scan_core.specs.RowRanges.{is_in, is_past, narrowed, IsRange};
ghost use Rattle.scan_core.specs.SplitRanges.{neighbours, cut_at, split_ranges, common, span_of, inside, spanned};

use scan_values::{NoMemory, Selection, StrictSorted};
use std::alloc::Global;
use std::ops::Range;

/// The ranges between neighbours of rising boundaries. Of a range, where there is one, the parts into which those that
/// lie strictly inside it cut it; a range without rows has none.
pub fn split_ranges(
    alloc: Global,
    boundaries: &[u64],
    range: &Option<Range<u64>>,
) -> Result<Vec<Range<u64>>, NoMemory>
    requires { is_rising boundaries.now ≡ true }
    ensures { IfOk result (λ v. v.items ≡ split_ranges boundaries.now range.now) }
{
    match range {
        Some(range) => cut_at(alloc, boundaries, range),
        None => neighbours(alloc, boundaries),
    }
}

/// The ranges between neighbours.
fn neighbours(alloc: Global, boundaries: &[u64]) -> Result<Vec<Range<u64>>, NoMemory>
    ensures { IfOk result (λ v. v.items ≡ neighbours boundaries.now) }
{
    let mut ranges = Vec::new(alloc);
    for i in 1..boundaries.len() {
        ranges.push(boundaries[i - 1]..boundaries[i])?;
    }
    Ok(ranges)
}

/// A range, cut at those of rising boundaries that lie strictly inside it. A range without rows gives none.
fn cut_at(
    alloc: Global,
    boundaries: &[u64],
    range: &Range<u64>,
) -> Result<Vec<Range<u64>>, NoMemory>
    requires { is_rising boundaries.now ≡ true }
    ensures { IfOk result (λ v. v.items ≡ cut_at boundaries.now range.now) }
{
    let mut ranges = Vec::new(alloc);
    if range.start >= range.end {
        return Ok(ranges);
    }
    let mut start = range.start;
    for row in inside(boundaries, range) {
        ranges.push(start..*row)?;
        start = *row;
    }
    ranges.push(start..range.end)?;
    Ok(ranges)
}

/// Those of rising boundaries that lie strictly inside a range.
fn inside<'a>(boundaries: &'a [u64], range: &Range<u64>) -> &'a [u64]
    requires { is_rising boundaries.now ≡ true }
    ensures { result.now ≡ inside range.now boundaries.now }
{
    let below = &boundaries[..boundaries.partition_point(|row| *row < range.end)];
    let first = below.partition_point(|row| *row <= range.start);
    &below[first..]
}

/// The rows that lie in both of two ranges, where both are given.
pub fn intersect_ranges(a: Option<Range<u64>>, b: Option<Range<u64>>) -> Option<Range<u64>>
    ensures { result ≡ common a b }
{
    match (a, b) {
        (Some(a), Some(b)) => Some(a.start.max(b.start)..a.end.min(b.end)),
        (Some(a), None) => Some(a),
        (None, b) => b,
    }
}

/// The range from the first to the last of the rows below a number that a selection names, without rows where none is
/// below it. None where the selection names no rows.
pub fn span_of(selection: &Selection, rows: u64) -> Option<Range<u64>>
    ensures { result ≡ span_of selection.now rows }
{
    match selection {
        Selection::IncludeByIndex(indices) => span_within(indices, rows),
        _ => None,
    }
}

/// The range from the first to the last of the numbers below another. None where there are no numbers at all.
fn span_within(indices: &StrictSorted, rows: u64) -> Option<Range<u64>>
    ensures { result ≡ span_of (Selection.IncludeByIndex indices.now) rows }
{
    let numbers = indices.as_slice();
    if numbers.is_empty() {
        return None;
    }
    let below = indices.rank(rows);
    if below == 0 {
        return Some(0..0);
    }
    Some(numbers[0]..numbers[below - 1] + 1)
}

/// Whether a range is reversed, or ends past so many rows.
pub(crate) fn is_past(range: &Option<Range<u64>>, rows: u64) -> bool
    ensures { result ≡ is_past range.now rows }
{
    match range {
        Some(range) => range.end < range.start || rows < range.end,
        None => false,
    }
}

/// The same range.
pub(crate) fn copy_of(range: &Option<Range<u64>>) -> Option<Range<u64>>
    ensures { result ≡ range.now }
{
    match range {
        Some(range) => Some(range.start..range.end),
        None => None,
    }
}

/// The rows of a range from the first to the last that are named, where a selection names rows. No rows where it names
/// none of them.
pub(crate) fn narrowed(selection: &Selection, range: &Range<u64>) -> Range<u64>
    ensures span { result ≡ narrowed selection.now range.now }
    ensures within { (rows : ℕ) → IsRange rows range.now → IsRange rows result }
{
    match selection {
        Selection::IncludeByIndex(rows) => picked_span(rows, range),
        _ => range.start..range.end,
    }
}

/// The range from the first to the last of the numbers that lie in a range, or no rows.
fn picked_span(rows: &StrictSorted, range: &Range<u64>) -> Range<u64>
    ensures span { result ≡ spanned (filter (is_in range.now) rows.now) }
    ensures within { (rows : ℕ) → IsRange rows range.now → IsRange rows result }
{
    let numbers = rows.as_slice();
    let first = rows.rank(range.start);
    let end = rows.rank(range.end);
    if end <= first {
        return 0..0;
    }
    numbers[first]..numbers[end - 1] + 1
}
