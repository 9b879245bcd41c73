// The operators on one column.
ghost use Rattle.std.specs.Prelude.{◌≡◌, ◌≢◌, IfOk, IfSome, map, Err, None, true, false};
ghost use Rattle.scan_values.specs.Values.{val_of};
ghost use Rattle.scan_values.specs.Val.{int_val};
ghost use Rattle.scan_expr.specs.Bound.{bound_of};
ghost use Rattle.scan_expr.specs.Expr.{unary, root};
ghost use Rattle.scan_expr.specs.Overflow.{overflows_on};
ghost use Rattle.scan_expr.specs.Typing.{unary_fault};
ghost use Rattle.scan_columns.specs.Cells.{vals_in};
ghost use Rattle.scan_columns.specs.Rows.{given_vals};
ghost use Rattle.scan_columns.specs.Typed.{cell};
ghost use Rattle.scan_columns.specs.Evaluated.{value_on, unary_val};
ghost use Rattle.scan_columns.specs.Operands.{test_val, test_bit, length_val};

use crate::bools::Bools;
use crate::cells::Cells;
use crate::constant::Constant;
use crate::ints::Ints;
use crate::kept::Kept;
use crate::rows::{Given, laid_out};
use crate::slots::contrary;
use scan_expr::{ApplyFault, BoundExpression, Unary};
use scan_values::{DType, NoMemory, Value, Values};
use std::alloc::Global;
use std::sync::Arc;

/// The values of an operator on values of this dtype: a field is lent where the structs are, if none is null.
pub(crate) fn changed_given<'a>(
    alloc: Global,
    op: &Unary,
    dtype: &DType,
    values: Given<'a>,
) -> Result<Given<'a>, ApplyFault>
    requires { unary_fault op.now dtype.now ≡ None }
    ensures items { IfOk result (λ g. given_vals g ≡ map (unary_val op.now dtype.now) (given_vals values.entry)) }
    ensures never { result ≢ Err ApplyFault.Overflow }
{
    match values.held() {
        Some(cells) => match lent_field(op, dtype, cells) {
            Some(field) => Ok(Given::Held(field)),
            None => Ok(Given::Made(changed(alloc, op, dtype, cells)?)),
        },
        None => Ok(Given::Made(changed(alloc, op, dtype, values.as_cells())?)),
    }
}

/// The field that an access to structs of this dtype gives, where it can be lent.
fn lent_field<'a>(op: &Unary, dtype: &DType, cells: &'a Cells) -> Option<&'a Cells>
    ensures { IfSome result (λ c. vals_in c.now ≡ map (unary_val op.now dtype.now) (vals_in cells.entry.now)) }
{
    match (op, cells) {
        (Unary::GetItem(name), Cells::Structs(structs)) => structs.lent_field(dtype, name),
        _ => None,
    }
}

/// The values of an operator on values of this dtype, made anew.
fn changed(alloc: Global, op: &Unary, dtype: &DType, cells: &Cells) -> Result<Cells, ApplyFault>
    requires { unary_fault op.now dtype.now ≡ None }
    ensures items { IfOk result (λ c. vals_in c ≡ map (unary_val op.now dtype.now) (vals_in cells.now)) }
    ensures never { result ≢ Err ApplyFault.Overflow }
{
    match typed_changed(alloc, op, dtype, cells)? {
        Some(made) => Ok(made),
        None => {
            let node = over_root(alloc, op, dtype)?;
            let flat = laid_out(alloc, cells)?;
            row_by_row(alloc, &node, flat.as_cells())
        }
    }
}

/// The same, where the values are kept so that the operator makes no value a cell.
fn typed_changed(
    alloc: Global,
    op: &Unary,
    dtype: &DType,
    cells: &Cells,
) -> Result<Option<Cells>, NoMemory>
    ensures { IfOk result (λ o. IfSome o (λ c. vals_in c ≡ map (unary_val op.now dtype.now) (vals_in cells.now))) }
{
    match op {
        Unary::Not => match cells {
            Cells::Bools(bools) => Ok(Some(Cells::Bools(bools.negated(alloc)?))),
            _ => Ok(None),
        },
        Unary::IsNull => Ok(Some(null_tests(alloc, true, dtype, cells)?)),
        Unary::IsNotNull => Ok(Some(null_tests(alloc, false, dtype, cells)?)),
        Unary::ListLength => Ok(Some(Cells::Ints(lengths(alloc, cells)?))),
        Unary::GetItem(name) => match cells {
            Cells::Structs(structs) => structs.field(alloc, dtype, name),
            _ => Ok(None),
        },
        _ => Ok(None),
    }
}

/// Of each value of this dtype whether it is null, if `want` is true, or is not.
fn null_tests(alloc: Global, want: bool, dtype: &DType, cells: &Cells) -> Result<Cells, NoMemory>
    ensures { IfOk result (λ c. vals_in c ≡ map (test_val want dtype.now) (vals_in cells.now)) }
{
    if dtype.is_nullable() {
        let nulls = cells.nulls(alloc)?;
        let bits = tested(alloc, want, nulls.as_slice())?;
        Ok(Cells::Bools(Bools::of_bits(alloc, bits)?))
    } else {
        Ok(Cells::Constant(Constant::new(Value::Bool(!want), cells.len())))
    }
}

/// The bits, or the contrary of each.
fn tested(alloc: Global, want: bool, bits: &[bool]) -> Result<Vec<bool>, NoMemory>
    ensures { IfOk result (λ v. v.items ≡ map (test_bit want) bits.now) }
{
    if want {
        Ok(Vec::from_slice(alloc, bits)?)
    } else {
        contrary(alloc, bits)
    }
}

/// The length of a list, and whether the value is one.
fn length_slot(value: &Value) -> (i128, bool)
    ensures { cell int_val result ≡ length_val (val_of value.now) }
{
    match value {
        Value::List(values) => (values.len() as i128, true),
        _ => (0, false),
    }
}

/// The length of each list.
fn lengths(alloc: Global, cells: &Cells) -> Result<Ints, NoMemory>
    ensures { IfOk result (λ v. v ≡ map length_val (vals_in cells.now)) }
{
    match cells {
        Cells::Lists(lists) => lists.lengths(alloc),
        _ => {
            let flat = laid_out(alloc, cells)?;
            value_lengths(alloc, flat.as_cells())
        }
    }
}

/// The same, of one value after another.
fn value_lengths(alloc: Global, cells: &Cells) -> Result<Ints, NoMemory>
    ensures { IfOk result (λ v. v ≡ map length_val (vals_in cells.now)) }
{
    let mut values = Vec::with_capacity(alloc, cells.len())?;
    let mut valid = Vec::with_capacity(alloc, cells.len())?;
    for i in 0..cells.len() {
        let row = cells.lent(alloc, i)?;
        let (length, there) = length_slot(row.as_value());
        values.push(length)?;
        valid.push(there)?;
    }
    let numbers = Kept::of_wide(alloc, values)?;
    Ok(Ints::new(numbers, valid))
}

/// The operator on `$`.
fn over_root(alloc: Global, op: &Unary, dtype: &DType) -> Result<BoundExpression, NoMemory>
    requires { unary_fault op.now dtype.now ≡ None }
    ensures { IfOk result (λ b. b ≡ bound_of dtype.now (unary op.now root)) }
{
    let scope = Arc::new(alloc, dtype.try_clone(alloc)?)?;
    let values = BoundExpression::root(alloc, &scope)?;
    BoundExpression::unary(alloc, op.try_clone(alloc)?, values)
}

/// The values of an expression on one value after another.
fn row_by_row(alloc: Global, expr: &BoundExpression, cells: &Cells) -> Result<Cells, ApplyFault>
    ensures items { IfOk result (λ c. vals_in c ≡ map (value_on expr.now.scope expr.now.expr) (vals_in cells.now)) }
    ensures within { IfOk result (λ _. overflows_on expr.now.scope expr.now.expr (vals_in cells.now) ≡ false) }
    ensures overflow { result ≡ Err ApplyFault.Overflow →
        overflows_on expr.now.scope expr.now.expr (vals_in cells.now) ≡ true }
{
    let mut items = Vec::with_capacity(alloc, cells.len())?;
    for i in 0..cells.len() {
        let row = cells.lent(alloc, i)?;
        let value = expr.value_at(alloc, row.as_value(), 0)?;
        items.push(value)?;
    }
    Ok(Cells::Values(Values::new(items)))
}
