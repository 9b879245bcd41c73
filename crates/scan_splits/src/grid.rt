//! How splits of the elements of lists become splits of the lists. After the Rust's `layouts::list::reader`.
ghost use Rattle.std.specs.Prelude.{◌≡◌, ◌+◌, ◌*◌, ◌/◌, ◌<◌, ◌^◌};
ghost use Rattle.scan_layout.specs.Edges.{list_split_grid_size, map_element_split_to_outer_grid, grid_row};

// The fewest cells of a grid, so that a short list is split too.
const LEAST_CELLS: u64 = 64;

// How many rows a cell has at most, but for the rounding to a power of two.
const ROWS_OF_A_CELL: u64 = 8192;

/// The number of cells of the grid on which splits of the elements of so many lists are placed.
pub fn list_split_grid_size(rows: u64) -> u64
    ensures { result ≡ list_split_grid_size rows }
{
    let cells = rows.div_ceil(ROWS_OF_A_CELL).next_power_of_two();
    cells.max(LEAST_CELLS)
}

/// The row of the lists at which a split of their elements is placed, on a grid of so many cells. `None` where the
/// split is at an end of the elements, there are no lists or less than two cells, or the row would be at an end of the
/// lists. It holds over all of u64, and for any number of cells.
pub fn map_element_split_to_outer_grid(
    e: u64,
    element_rows: u64,
    rows: u64,
    grid: u64,
) -> Option<u64>
    ensures { result ≡ map_element_split_to_outer_grid e element_rows rows grid }
{
    if e == 0 || e >= element_rows || rows == 0 || grid < 2 {
        return None;
    }
    let half = u128::from(element_rows / 2);
    let cell = (times(e, grid) + half) / u128::from(element_rows);
    if cell >= u128::from(grid) {
        return None;
    }
    grid_row(cell as u64, rows, grid)
}

// The row at which a cell of the grid begins.
fn grid_row(cell: u64, rows: u64, grid: u64) -> Option<u64>
    requires { cell < grid }
    ensures { result ≡ grid_row cell rows grid }
{
    if cell == 0 {
        return None;
    }
    let row = times(cell, rows) / u128::from(grid);
    if row == 0 || row >= u128::from(rows) {
        return None;
    }
    Some(row as u64)
}

// A product, which has twice the bits.
fn times(a: u64, b: u64) -> u128
    ensures product { result ≡ a * b }
    ensures room { result + 2 ^ 64 < 2 ^ 128 }
{
    u128::from(a) * u128::from(b)
}
