// Parts of an expression that were evaluated, joined by its root.
ghost use Rattle.std.specs.Prelude.{◌≡◌, IfOk, Err, map, take, drop, true, false, option_to_list};
ghost use Rattle.std.specs.List.{range_with_len};
ghost use Rattle.scan_values.specs.Arrays.{ArrayData};
ghost use Rattle.scan_values.specs.Fits.{fits_all};
ghost use Rattle.scan_values.specs.Val.{struct_val, vals_of, marked, marked_all};
ghost use Rattle.scan_values.specs.Values.{val_of};
ghost use Rattle.scan_expr.specs.Infer.{infer};
ghost use Rattle.scan_partition.specs.Joining.{heads, AreAsLong, AreFitting, IsScopeOf, joined_at, root_overflows};

use scan_expr::{ApplyFault, BoundExpression};
use scan_values::{Array, NoMemory, Value, Values};
use std::alloc::Global;
use std::marker::Model;
use std::vec::IntoIter;

/// The items of an array that are still to come.
#[derive(Drop)]
struct Column {
    rest: IntoIter<Value>,
}

impl Model for Column {
    ghost use Rattle.std.specs.Prelude.{List, map};
    ghost use Rattle.std.specs.Coded.{coded_list};
    ghost use Rattle.std.specs.Vec.Iter.{into_iter_items};
    ghost use Rattle.scan_values.specs.Val.{Val, val_code};
    ghost use Rattle.scan_values.specs.Values.{val_of};

    ghost Value = { List Val };

    ghost coded = { coded_list val_code };

    ghost view = { λ a. map val_of (into_iter_items a.rest) };
}

impl Column {
    fn of(array: Array) -> Column
        ensures items { result ≡ array.items }
        ensures fit { fits_all (marked_all (vals_of array.items)) array.dtype ≡ true }
    {
        Column {
            rest: array.into_vec().into_iter(),
        }
    }

    /// The next item.
    fn next(&mut self) -> Option<Value>
        ensures item { map val_of (option_to_list result) ≡ take 1 self.old }
        ensures rest { self.new ≡ drop 1 self.old }
    {
        self.rest.next()
    }
}

/// The columns of arrays.
fn columns_of(alloc: Global, arrays: Vec<Array>) -> Result<Vec<Column>, NoMemory>
    ensures items { IfOk result (λ v. v.items ≡ map (λ (a : ArrayData). a.items) arrays.items) }
    ensures fit { IfOk result (λ _. AreFitting arrays.items) }
{
    let mut columns = Vec::with_capacity(alloc, arrays.len())?;
    for array in arrays {
        columns.push(Column::of(array))?;
    }
    Ok(columns)
}

/// The struct of the next item of each column.
fn next_row(alloc: Global, columns: &mut [Column]) -> Result<Value, NoMemory>
    ensures row { IfOk result (λ v. val_of v ≡ struct_val (vals_of (heads columns.old))) }
    ensures rest { IfOk result (λ _. columns.new ≡ map (drop 1) columns.old) }
{
    let mut row = Vec::with_capacity(alloc, columns.len())?;
    for column in columns.iter_mut() {
        if let Some(value) = column.next() {
            row.push(value)?;
        }
    }
    Ok(Value::Struct(Values::new(row)))
}

/// The root's value for each row of the arrays. `Overflow` where a sum or a difference in it is none of its type.
pub(crate) fn joined(
    alloc: Global,
    root: &BoundExpression,
    arrays: Vec<Array>,
    len: usize,
) -> Result<Array, ApplyFault>
    requires scope { IsScopeOf arrays.items root.now.scope }
    requires length { AreAsLong len arrays.items }
    ensures dtype { IfOk result (λ a. a.dtype ≡ infer root.now.scope root.now.expr) }
    ensures items { IfOk result (λ a. map marked a.items ≡ map (joined_at root.now arrays.items) (range_with_len 0 len)) }
    ensures within { IfOk result (λ _. root_overflows root.now arrays.items len ≡ false) }
    ensures overflow { result ≡ Err ApplyFault.Overflow → root_overflows root.now arrays.items len ≡ true }
{
    let mut columns = columns_of(alloc, arrays)?;
    let mut items = Vec::with_capacity(alloc, len)?;
    for number in 0..len {
        let row = next_row(alloc, &mut columns)?;
        let value = root.value_of(alloc, row, number as u64)?;
        items.push(value)?;
    }
    let dtype = root.dtype().try_clone(alloc)?;
    Ok(Array::of_fitting(dtype, items))
}
