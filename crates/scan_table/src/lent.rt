//! The cells of a column, lent.
ghost use Rattle.std.specs.Prelude.{◌≡◌, IfOk, IfSome, cond, map, option_map, true};
ghost use Rattle.std.specs.List.{list_all};
ghost use Rattle.scan_values.specs.Val.{bool_val, int_val, null_val};
ghost use Rattle.scan_values.specs.Values.{val_of};
ghost use Rattle.scan_columns.specs.Cells.{vals_in};
ghost use Rattle.scan_columns.specs.Texts.{texts_in};
ghost use Rattle.scan_groups.specs.Cells.{cell_val};
ghost use Rattle.scan_groups.specs.Order.{is_scalar};
ghost use Rattle.scan_spelling.specs.LeafColumns.{text_or_null};

use scan_columns::{Bools, Cells, Ints, Texts};
use scan_groups::Cell;
use scan_values::{NoMemory, Value};
use std::alloc::Global;

fn int_cell<'a>(number: i128, there: bool) -> Cell<'a>
    ensures { cell_val result ≡ cond there (int_val number) null_val }
{
    if there {
        Cell::Number(number)
    } else {
        Cell::Null
    }
}

fn int_cells<'a>(alloc: Global, ints: &Ints) -> Result<Vec<Cell<'a>>, NoMemory>
    ensures values { IfOk result (λ cs. map cell_val cs.items ≡ ints.now) }
    ensures scalars { IfOk result (λ cs. list_all is_scalar (map cell_val cs.items) ≡ true) }
{
    let mut cells = Vec::with_capacity(alloc, ints.len())?;
    for i in 0..ints.len() {
        let (number, there) = ints.slot(i);
        cells.push(int_cell(number, there))?;
    }
    Ok(cells)
}

fn bool_cell<'a>(truth: bool, there: bool) -> Cell<'a>
    ensures { cell_val result ≡ cond there (bool_val truth) null_val }
{
    if there {
        Cell::Truth(truth)
    } else {
        Cell::Null
    }
}

fn bool_cells<'a>(alloc: Global, bools: &Bools) -> Result<Vec<Cell<'a>>, NoMemory>
    ensures values { IfOk result (λ cs. map cell_val cs.items ≡ bools.now) }
    ensures scalars { IfOk result (λ cs. list_all is_scalar (map cell_val cs.items) ≡ true) }
{
    let mut cells = Vec::with_capacity(alloc, bools.len())?;
    for i in 0..bools.len() {
        let (truth, there) = bools.slot(i);
        cells.push(bool_cell(truth, there))?;
    }
    Ok(cells)
}

fn text_cell<'a>(text: Option<&'a str>) -> Cell<'a>
    ensures { cell_val result ≡ text_or_null (option_map (λ t. t.now) text.entry) }
{
    match text {
        Some(text) => Cell::Text(text),
        None => Cell::Null,
    }
}

fn text_cells<'a>(alloc: Global, texts: &'a Texts) -> Result<Vec<Cell<'a>>, NoMemory>
    ensures values { IfOk result (λ cs. map cell_val cs.items ≡ texts_in texts.entry.now) }
    ensures scalars { IfOk result (λ cs. list_all is_scalar (map cell_val cs.items) ≡ true) }
{
    let mut cells = Vec::with_capacity(alloc, texts.len())?;
    for i in 0..texts.len() {
        cells.push(text_cell(texts.text(i)))?;
    }
    Ok(cells)
}

/// Values, lent.
pub(crate) fn value_cells<'a>(alloc: Global, values: &'a [Value]) -> Result<Vec<Cell<'a>>, NoMemory>
    ensures { IfOk result (λ cs. map cell_val cs.items ≡ map val_of values.entry.now) }
{
    let mut cells = Vec::with_capacity(alloc, values.len())?;
    for value in values {
        cells.push(Cell::of(value))?;
    }
    Ok(cells)
}

/// The integers, truth values or texts, and nulls, of a column that is kept as such.
pub(crate) fn lent_cells<'a>(
    alloc: Global,
    cells: &'a Cells,
) -> Result<Option<Vec<Cell<'a>>>, NoMemory>
    ensures values { IfOk result (λ o. IfSome o (λ cs. map cell_val cs.items ≡ vals_in cells.entry.now)) }
    ensures scalars { IfOk result (λ o. IfSome o (λ cs. list_all is_scalar (map cell_val cs.items) ≡ true)) }
{
    match cells {
        Cells::Ints(ints) => Ok(Some(int_cells(alloc, ints)?)),
        Cells::Bools(bools) => Ok(Some(bool_cells(alloc, bools)?)),
        Cells::Texts(texts) => Ok(Some(text_cells(alloc, texts)?)),
        Cells::Values(_) | Cells::Constant(_) | Cells::Lists(_) | Cells::Structs(_) => Ok(None),
    }
}
