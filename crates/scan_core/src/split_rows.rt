//! Which rows the splits of a stream are about. After the Rust's `scan::repeated_scan`, which lessens the limit split by split.
ghost use Rattle.std.specs.Prelude.{◌≡◌, ◌≤◌, IfOk, map};
ghost use Rattle.scan_core.specs.Given.{Rises};
ghost use Rattle.scan_core.specs.RowRanges.{AreForward, narrowed};
ghost use Rattle.scan_core.specs.Streaming.{all_rows, cut_to, first_rows, rows_within};

use crate::splits::narrowed;
use scan_streams::SplitRows;
use scan_values::{NoMemory, Selection};
use std::alloc::Global;
use std::collections::VecDeque;
use std::ops::Range;

/// Splits of the rows that a selection picks of ranges: of all of them, or, with a limit, of so many of the first, and
/// none after these. Each is narrowed to the rows from the first to the last that are named, where rows are named.
pub(crate) fn rows_within(
    alloc: Global,
    selection: &Selection,
    limit: Option<u64>,
    ranges: &[Range<u64>],
) -> Result<VecDeque<SplitRows>, NoMemory>
    requires { AreForward ranges.now }
    ensures rows { IfOk result (λ v. v.items ≡ rows_within selection.now limit (map (narrowed selection.now) ranges.now)) }
    ensures rises { Rises selection.now }
{
    rises(selection);
    match limit {
        Some(limit) => first_rows(alloc, selection, limit, ranges),
        None => all_rows(alloc, selection, ranges),
    }
}

/// The indices of a selection rise.
fn rises(selection: &Selection)
    ensures { Rises selection.now }
{
    if let Selection::IncludeByIndex(rows) = selection {
        let _rows = rows.as_slice();
    }
}

/// Splits of all rows.
fn all_rows(
    alloc: Global,
    selection: &Selection,
    ranges: &[Range<u64>],
) -> Result<VecDeque<SplitRows>, NoMemory>
    ensures { IfOk result (λ v. v.items ≡ all_rows (map (narrowed selection.now) ranges.now)) }
{
    let mut rows = VecDeque::with_capacity(alloc, ranges.len())?;
    for range in ranges {
        rows.push_back(SplitRows {
            range: narrowed(selection, range),
            most: None,
        })?;
    }
    Ok(rows)
}

/// Splits of so many of the first rows.
fn first_rows(
    alloc: Global,
    selection: &Selection,
    limit: u64,
    ranges: &[Range<u64>],
) -> Result<VecDeque<SplitRows>, NoMemory>
    requires { AreForward ranges.now }
    ensures { IfOk result (λ v. v.items ≡ first_rows selection.now limit (map (narrowed selection.now) ranges.now)) }
{
    let mut rows = VecDeque::new(alloc);
    let mut left = limit;
    for range in ranges {
        if left == 0 {
            return Ok(rows);
        }
        let range = narrowed(selection, range);
        let count = selection.row_count_in_range(&range);
        rows.push_back(SplitRows {
            range,
            most: cut_to(left, count),
        })?;
        left = left.saturating_sub(count);
    }
    Ok(rows)
}

/// A limit on the rows of a split, where it has more.
fn cut_to(left: u64, count: u64) -> Option<usize>
    ensures { result ≡ cut_to left count }
{
    if count <= left {
        return None;
    }
    Some(left as usize)
}
