// Cells that are kept as values.
ghost use Rattle.std.specs.Prelude.{◌≡◌, ◌≤◌, ◌++◌, IfOk, map, length, slice_range};
ghost use Rattle.std.specs.List.{items_where_true};
ghost use Rattle.scan_values.specs.Values.{val_of};
ghost use Rattle.scan_values.specs.Masks.{null_where_false};
ghost use Rattle.scan_columns.specs.Compared.{compare_val};

use crate::compared::compared_one;
use scan_expr::Binary;
use scan_values::{Mask, NoMemory, Value};
use std::alloc::Global;
use std::ops::Range;

/// Copies of the values at which the mask is true.
pub(crate) fn kept_values(alloc: Global, values: &[Value], m: &Mask) -> Result<Vec<Value>, NoMemory>
    requires { length m.now ≡ length values.now }
    ensures { IfOk result (λ v. map val_of v.items ≡ items_where_true m.now (map val_of values.now)) }
{
    let bits = m.as_slice();
    let mut items = Vec::with_capacity(alloc, m.true_count())?;
    for (i, value) in values.iter().enumerate() {
        if bits[i] {
            items.push(value.try_clone(alloc)?)?;
        }
    }
    Ok(items)
}

/// Copies of the values, null where the mask is false.
pub(crate) fn masked_values(
    alloc: Global,
    values: &[Value],
    m: &Mask,
) -> Result<Vec<Value>, NoMemory>
    requires { length m.now ≡ length values.now }
    ensures { IfOk result (λ v. map val_of v.items ≡ null_where_false m.now (map val_of values.now)) }
{
    let bits = m.as_slice();
    let mut items = Vec::with_capacity(alloc, bits.len())?;
    for (i, value) in values.iter().enumerate() {
        if bits[i] {
            items.push(value.try_clone(alloc)?)?;
        } else {
            items.push(Value::Null)?;
        }
    }
    Ok(items)
}

/// Copies of the values of a range of places.
#[tactic(auto, using(crate::proofs::ListLemmas::map_slice))]
pub(crate) fn copied(
    alloc: Global,
    values: &[Value],
    r: Range<usize>,
) -> Result<Vec<Value>, NoMemory>
    requires ordered { r.start ≤ r.end }
    requires within { r.end ≤ length values.now }
    ensures { IfOk result (λ v. map val_of v.items ≡ slice_range (map val_of values.now) r.start r.end) }
{
    clone_values(alloc, &values[r.start..r.end])
}

fn clone_values(alloc: Global, values: &[Value]) -> Result<Vec<Value>, NoMemory>
    ensures { IfOk result (λ v. map val_of v.items ≡ map val_of values.now) }
{
    let mut items = Vec::with_capacity(alloc, values.len())?;
    for value in values {
        items.push(value.try_clone(alloc)?)?;
    }
    Ok(items)
}

/// The values, and then the others.
pub(crate) fn appended(values: Vec<Value>, others: Vec<Value>) -> Result<Vec<Value>, NoMemory>
    ensures { IfOk result (λ v. map val_of v.items ≡ map val_of values.items ++ map val_of others.items) }
{
    let mut made = values;
    for value in others {
        made.push(value)?;
    }
    Ok(made)
}

/// Of each value whether it compares so with a number.
pub(crate) fn compared_values(
    alloc: Global,
    op: Binary,
    values: &[Value],
    literal: i128,
) -> Result<Vec<Value>, NoMemory>
    ensures { IfOk result (λ v. map val_of v.items ≡ map (compare_val op literal) (map val_of values.now)) }
{
    let mut made = Vec::with_capacity(alloc, values.len())?;
    for value in values {
        made.push(compared_one(op, value, literal))?;
    }
    Ok(made)
}
