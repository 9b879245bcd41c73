// What expressions are evaluated on, and what they give.
ghost use Rattle.std.specs.Prelude.{◌≡◌, IfOk, IfSome, length, map, pos, replicate, true};
ghost use Rattle.std.specs.List.{range_with_len};
ghost use Rattle.scan_values.specs.Values.{val_of};
ghost use Rattle.scan_values.specs.Val.{int_val};
ghost use Rattle.scan_columns.specs.Cells.{vals_in};
ghost use Rattle.scan_columns.specs.Nested.{AreLong};
ghost use Rattle.scan_columns.specs.Rows.{given_vals, rows_of, struct_at};

use crate::cells::{Cells, Structs};
use scan_values::{NoMemory, Value, Values};
use std::alloc::Global;

/// Cells that stand elsewhere, or that were made.
pub(crate) enum Given<'a> {
    Held(&'a Cells),
    Made(Cells),
}

impl<'a> Drop for Given<'a> {
    fn drop(self) {
        match self {
            Given::Held(_) => {}
            Given::Made(_) => {}
        }
    }
}

impl<'a> Given<'a> {
    pub(crate) fn as_cells(&self) -> &Cells
        ensures { vals_in result.now ≡ given_vals self.now }
    {
        match self {
            Given::Held(cells) => cells,
            Given::Made(cells) => cells,
        }
    }

    /// The cells, where they stand elsewhere.
    pub(crate) fn held(&self) -> Option<&'a Cells>
        ensures { IfSome result (λ c. vals_in c.now ≡ given_vals self.entry.now) }
    {
        match self {
            Given::Held(cells) => Some(*cells),
            Given::Made(_) => None,
        }
    }

    /// The cells, copied where they stand elsewhere.
    pub(crate) fn into_cells(self, alloc: Global) -> Result<Cells, NoMemory>
        ensures { IfOk result (λ c. vals_in c ≡ given_vals self.entry) }
    {
        match self {
            Given::Held(cells) => cells.try_clone(alloc),
            Given::Made(cells) => Ok(cells),
        }
    }
}

/// The values of one column, or the structs of the values of several, which are so many.
#[derive(Clone, Copy)]
pub(crate) enum Rows<'a> {
    Whole(&'a Cells),
    Parts(&'a [Cells], usize),
}

impl<'a> Rows<'a> {
    /// How many.
    pub(crate) fn len(self) -> usize
        ensures { result ≡ length (rows_of self.entry) }
    {
        match self {
            Rows::Whole(cells) => cells.len(),
            Rows::Parts(_, len) => len,
        }
    }
}

/// The structs of the values of columns, which are so many.
pub(crate) fn structs_of(alloc: Global, columns: Vec<Cells>, len: usize) -> Result<Cells, NoMemory>
    requires { AreLong len (map vals_in columns.items) }
    ensures { IfOk result (λ c. vals_in c ≡ map (struct_at (map vals_in columns.items)) (range_with_len 0 len)) }
{
    let valid = all_there(alloc, len)?;
    Ok(Cells::Structs(Structs::new(valid, columns)))
}

fn all_there(alloc: Global, len: usize) -> Result<Vec<bool>, NoMemory>
    ensures { IfOk result (λ v. v.items ≡ replicate len true) }
{
    Ok(vec![in alloc; true; len]?)
}

/// The cells, where each is lent at once: lists and structs as values.
pub(crate) fn laid_out<'a>(alloc: Global, cells: &'a Cells) -> Result<Given<'a>, NoMemory>
    ensures { IfOk result (λ g. given_vals g ≡ vals_in cells.entry.now) }
{
    match cells {
        Cells::Lists(_) | Cells::Structs(_) => {
            let values = cells.try_clone(alloc)?.into_values(alloc)?;
            Ok(Given::Made(Cells::Values(Values::new(values))))
        }
        _ => Ok(Given::Held(cells)),
    }
}

/// The numbers from 0, so many.
pub(crate) fn numbers(alloc: Global, len: usize) -> Result<Cells, NoMemory>
    ensures { IfOk result (λ c. vals_in c ≡ map (λ r. int_val (pos r)) (range_with_len 0 len)) }
{
    let mut items = Vec::with_capacity(alloc, len)?;
    for i in 0..len {
        items.push(Value::Int(i as i128))?;
    }
    Ok(Cells::Values(Values::new(items)))
}
