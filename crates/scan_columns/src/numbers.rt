//! Columns of the numbers of rows.
ghost use Rattle.std.specs.Prelude.{◌≡◌, ◌≤◌, ◌+◌, ◌^◌, ◌++◌, ◌∷◌, [], IfOk, pos, length};
ghost use Rattle.std.specs.List.{items_where_true};
ghost use Rattle.scan_values.specs.Arrays.{of_parts};
ghost use Rattle.scan_values.specs.DataType.{int_type};
ghost use Rattle.scan_values.specs.Val.{int_val};
ghost use Rattle.scan_values.specs.declared.ptype.PType.{PType};
ghost use Rattle.scan_values.specs.declared.ptype.Nullability.{Nullability};
ghost use Rattle.scan_columns.specs.Numbers.{numbers_from};

use crate::cells::Cells;
use crate::column::Column;
use crate::ints::Ints;
use crate::kept::Kept;
use scan_values::{DType, NoMemory, Nullability, PType};
use std::alloc::Global;
use std::sync::Arc;

impl Column {
    /// Of so many numbers as the mask has, from a first one on, those at which it is true.
    pub fn row_numbers(alloc: Global, first: u64, mask: &[bool]) -> Result<Column, NoMemory>
        requires { first + length mask.now ≤ 2 ^ 64 }
        ensures { IfOk result (λ c. c ≡ of_parts (int_type PType.U64 Nullability.NonNullable)
            (items_where_true mask.now (numbers_from first (length mask.now)))) }
    {
        let dtype = DType::primitive(PType::U64, Nullability::NonNullable);
        let dtype = Arc::new(alloc, dtype)?;
        let ints = numbered(alloc, first, mask)?;
        Ok(Column::of_fitting(dtype, Cells::Ints(ints)))
    }
}

fn numbered(alloc: Global, first: u64, mask: &[bool]) -> Result<Ints, NoMemory>
    requires { first + length mask.now ≤ 2 ^ 64 }
    ensures { IfOk result (λ v. v ≡ items_where_true mask.now (numbers_from first (length mask.now))) }
{
    let mut made = Ints::new(Kept::Narrow(Vec::new(alloc)), Vec::new(alloc));
    for i in 0..mask.len() {
        made = one_number(made, first + i as u64, mask[i])?;
    }
    Ok(made)
}

fn one_number(ints: Ints, number: u64, taken: bool) -> Result<Ints, NoMemory>
    ensures { IfOk result (λ v. v ≡ ints ++ items_where_true (taken ∷ []) (int_val (pos number) ∷ [])) }
{
    if taken {
        ints.pushed(Some(number as i128))
    } else {
        Ok(ints)
    }
}
