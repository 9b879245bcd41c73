//! Columns that are made of columns.
ghost use Rattle.std.specs.Prelude.{◌≡◌, ◌≤◌, true, IfOk, Some, map, length};
ghost use Rattle.scan_values.specs.Arrays.{ArrayData, of_parts};
ghost use Rattle.scan_values.specs.Val.{vals_of, marked_all};
ghost use Rattle.scan_values.specs.Fits.{fits_all};
ghost use Rattle.scan_values.specs.Kinds.{element_of};
ghost use Rattle.scan_columns.specs.Cells.{vals_in};
ghost use Rattle.scan_columns.specs.Typed.{typed};
ghost use Rattle.scan_columns.specs.Nested.{list_of, struct_of, sizes, Rises, total, cuts, rows_of, AreLong};
ghost use Rattle.scan_columns.specs.Parts.{bits_of, AreBits, AreFieldsOf, AllFitting, items_of};

use crate::cells::{Cells, Lists, Structs};
use crate::column::Column;
use crate::ends::Ends;
use scan_values::{DType, Mask, NoMemory};
use std::alloc::Global;
use std::sync::Arc;

impl Column {
    /// Structs of which each field's values stand in a column, in the order of the dtype's fields: null where `validity`
    /// is false. No value is made.
    pub fn structs(
        alloc: Global,
        dtype: Arc<DType>,
        validity: Option<Mask>,
        fields: Vec<Column>,
        len: usize,
    ) -> Result<Column, NoMemory>
        requires fields { AreFieldsOf fields.items dtype.value }
        requires length { AreLong len (map items_of fields.items) }
        requires validity { AreBits validity len dtype.value }
        ensures { IfOk result (λ c. c ≡ of_parts dtype.value
            (typed struct_of (rows_of len (map items_of fields.items)) (bits_of validity len))) }
    {
        let valid = valid_bits(alloc, validity, len)?;
        let fields = cells_of(alloc, fields)?;
        Ok(Column::of_fitting(dtype, Cells::Structs(Structs::new(valid, fields))))
    }

    /// Lists of which all elements stand in a column, each list from where the one before it ends to its own end: null
    /// where `validity` is false. No value is made.
    pub fn lists(
        alloc: Global,
        dtype: Arc<DType>,
        ends: Vec<usize>,
        validity: Option<Mask>,
        elements: Column,
    ) -> Result<Column, NoMemory>
        requires element { Some elements.dtype ≡ element_of dtype.value }
        requires rises { Rises 0 ends.items }
        requires whole { total (sizes 0 ends.items) ≡ length elements.items }
        requires validity { AreBits validity (length ends.items) dtype.value }
        ensures { IfOk result (λ c. c ≡ of_parts dtype.value
            (typed list_of (cuts (sizes 0 ends.items) elements.items) (bits_of validity (length ends.items)))) }
    {
        let _count = elements.len();
        let valid = valid_bits(alloc, validity, ends.len())?;
        let elements = Box::new(alloc, elements.into_cells())?;
        Ok(Column::of_fitting(
            dtype,
            Cells::Lists(Lists::new(Ends::new(ends), valid, elements)),
        ))
    }

    /// The cells, without the dtype.
    pub(crate) fn into_cells(self) -> Cells
        ensures items { vals_in result ≡ self.items }
        ensures fit { fits_all (marked_all (vals_of self.items)) self.dtype ≡ true }
    {
        self.cells
    }
}

/// The bits of a mask, which are all true where there is none.
fn valid_bits(alloc: Global, mask: Option<Mask>, len: usize) -> Result<Vec<bool>, NoMemory>
    ensures { IfOk result (λ v. v.items ≡ bits_of mask len) }
{
    match mask {
        Some(mask) => Ok(Vec::from_slice(alloc, mask.as_slice())?),
        None => Ok(vec![in alloc; true; len]?),
    }
}

/// The cells of columns.
pub(crate) fn cells_of(alloc: Global, columns: Vec<Column>) -> Result<Vec<Cells>, NoMemory>
    ensures items { IfOk result (λ v. map vals_in v.items ≡ map items_of columns.items) }
    ensures fit { IfOk result (λ _. AllFitting columns.items) }
{
    let mut made = Vec::with_capacity(alloc, columns.len())?;
    for column in columns {
        made.push(column.into_cells())?;
    }
    Ok(made)
}
