//! The splits of lists, by those of their elements. After the Rust's `layouts::list::reader`.
ghost use Rattle.std.specs.Prelude.{◌≡◌, ◌++◌, ◌∷◌, [], filter};
ghost use Rattle.scan_layout.specs.Edges.{is_inside, list_split_grid_size};
ghost use Rattle.scan_splits.specs.RowLists.{shifted, Pushes};
ghost use Rattle.scan_splits.specs.ListSplits.{mapped_inside, unless_again};

use crate::grid::{list_split_grid_size, map_element_split_to_outer_grid};
use crate::push::{push_end, push_inside};
use crate::row_splits::RowSplits;
use crate::split_range::SplitRange;
use scan_values::NoMemory;

/// Registers the splits of so many lists in a range, by the splits of all their elements: each is placed on the grid of
/// the lists. Then the range's end. Of splits in rising order a row is pushed once. What was pushed before a refusal
/// stays.
pub fn register_list_splits(
    element_splits: &[u64],
    element_rows: u64,
    rows: u64,
    range: &SplitRange,
    splits: &mut RowSplits,
) -> Result<(), NoMemory>
    ensures { Pushes result (shifted range.now.offset (mapped_inside element_rows rows (list_split_grid_size rows)
        range.now.start range.now.end element_splits.now ++ range.now.end ∷ [])) splits.old splits.new }
{
    let grid = list_split_grid_size(rows);
    push_mapped(element_splits, element_rows, rows, grid, range, splits)?;
    push_end(range, splits)
}

// Pushes the splits of elements as rows of the lists that are strictly inside a range.
fn push_mapped(
    element_splits: &[u64],
    element_rows: u64,
    rows: u64,
    grid: u64,
    range: &SplitRange,
    splits: &mut RowSplits,
) -> Result<(), NoMemory>
    ensures { Pushes result (shifted range.now.offset
        (mapped_inside element_rows rows grid range.now.start range.now.end element_splits.now)) splits.old splits.new }
{
    let mut last = None;
    for e in element_splits {
        let row = map_element_split_to_outer_grid(*e, element_rows, rows, grid);
        push_new(range, row, last, splits)?;
        last = row;
    }
    Ok(())
}

// Pushes a row that is strictly inside a range, unless it is the last one again.
#[tactic(auto, using(crate::proofs::Pushing::adds_none))]
fn push_new(
    range: &SplitRange,
    row: Option<u64>,
    last: Option<u64>,
    splits: &mut RowSplits,
) -> Result<(), NoMemory>
    ensures { Pushes result (shifted range.now.offset
        (filter (is_inside range.now.start range.now.end) (unless_again last row))) splits.old splits.new }
{
    let Some(row) = row else {
        return Ok(());
    };
    match last {
        Some(other) => {
            if other == row {
                Ok(())
            } else {
                push_inside(range, row, splits)
            }
        }
        None => push_inside(range, row, splits),
    }
}
