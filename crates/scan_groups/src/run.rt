//! What a column has at rows, one after the other.
ghost use Rattle.std.specs.Prelude.{◌≡◌, ◌<◌, length, get_or};
ghost use Rattle.scan_values.specs.Val.{null_val};
ghost use Rattle.scan_groups.specs.Cells.{cell_val, run_vals};

use crate::cell::Cell;

/// Values of rows, one after the other.
#[derive(Clone, Copy)]
pub enum Run<'a> {
    /// Integers, none of which is null.
    Numbers(&'a [i64]),
    /// Values of any kind.
    Cells(&'a [Cell<'a>]),
    /// So many nulls.
    Nulls(usize),
}

impl<'a> Run<'a> {
    /// How many.
    pub fn len(self) -> usize
        ensures { result ≡ length (run_vals self.entry) }
    {
        match self {
            Run::Numbers(numbers) => numbers.len(),
            Run::Cells(cells) => cells.len(),
            Run::Nulls(len) => len,
        }
    }

    /// The value at a place.
    pub(crate) fn cell(self, i: usize) -> Cell<'a>
        requires { i < length (run_vals self) }
        ensures { cell_val result ≡ get_or (run_vals self.entry) i null_val }
    {
        match self {
            Run::Numbers(numbers) => Cell::Number(i128::from(numbers[i])),
            Run::Cells(cells) => cells[i],
            Run::Nulls(_) => Cell::Null,
        }
    }
}
