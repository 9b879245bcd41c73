// The nodes of an expression, over rows.
ghost use Rattle.std.specs.Prelude.{◌≡◌, List, IfOk, IfSome, map, length, replicate, Err, None, true, false, All};
ghost use Rattle.std.specs.List.{list_any};
ghost use Rattle.scan_values.specs.Values.{val_of};
ghost use Rattle.scan_expr.specs.Expr.{unary, binary};
ghost use Rattle.scan_expr.specs.Infer.{infer, binary_type};
ghost use Rattle.scan_expr.specs.Typing.{unary_fault};
ghost use Rattle.scan_columns.specs.Cells.{vals_in};
ghost use Rattle.scan_columns.specs.Evaluated.{value_in, overflows_in};
ghost use Rattle.scan_columns.specs.Rows.{given_vals, rows_of, AreRowsOf, IsFieldAt, row_value, row_number, bound_in, bound_overflows_in};

use crate::binary::combined;
use crate::cells::Cells;
use crate::constant::Constant;
use crate::rows::{Given, Rows, numbers, structs_of};
use crate::structs::{column_at, copied_cells, place_in};
use crate::unary::changed_given;
use scan_expr::{ApplyFault, Binary, BoundExpression, BoundNode, Unary};
use scan_values::{DType, NoMemory, Value};
use std::alloc::Global;

/// The place of the field of the scope that an expression is, where it is one.
pub(crate) fn field_place(expr: &BoundExpression) -> Option<usize>
    ensures { IfSome result (IsFieldAt expr.now.scope expr.now.expr) }
{
    match expr.node() {
        BoundNode::Unary(op, x) => match op {
            Unary::GetItem(name) => {
                if x.is_root() {
                    place_in(x.scope(), name)
                } else {
                    None
                }
            }
            _ => None,
        },
        _ => None,
    }
}

/// The part that an expression is, where it is one.
fn part_of<'a>(expr: &BoundExpression, rows: Rows<'a>) -> Option<&'a Cells>
    requires { AreRowsOf expr.now.scope rows }
    ensures items { IfSome result (λ c. vals_in c.now ≡
        map (value_in expr.now.scope expr.now.expr) (rows_of rows.entry)) }
    ensures within { IfSome result (λ _. overflows_in expr.now.scope expr.now.expr (rows_of rows.entry) ≡ false) }
{
    match rows {
        Rows::Whole(_) => None,
        Rows::Parts(columns, _) => match field_place(expr) {
            Some(place) => column_at(columns, place),
            None => None,
        },
    }
}

/// The values of an expression in rows.
#[cycle(evaluation)]
pub(crate) fn evaluated<'a>(
    alloc: Global,
    expr: &BoundExpression,
    rows: Rows<'a>,
) -> Result<Given<'a>, ApplyFault>
    requires { AreRowsOf expr.now.scope rows }
    ensures items { IfOk result (λ g. given_vals g ≡
        map (value_in expr.now.scope expr.now.expr) (rows_of rows.entry)) }
    ensures within { IfOk result (λ _. overflows_in expr.now.scope expr.now.expr (rows_of rows.entry) ≡ false) }
    ensures overflow { result ≡ Err ApplyFault.Overflow →
        overflows_in expr.now.scope expr.now.expr (rows_of rows.entry) ≡ true }
{
    if let Some(part) = part_of(expr, rows) {
        return Ok(Given::Held(part));
    }
    let dtype = expr.dtype();
    match expr.node() {
        BoundNode::Root => Ok(whole(alloc, expr.scope(), rows)?),
        BoundNode::RowIdx => Ok(Given::Made(row_numbers(alloc, rows)?)),
        BoundNode::Literal(_, value) => Ok(Given::Made(repeated(alloc, value, rows.len())?)),
        BoundNode::Unary(op, x) => one_changed(alloc, op, x, rows),
        BoundNode::Binary(op, x, y) => two_combined(alloc, op, dtype, x, y, rows),
        BoundNode::Pack(_, parts, _) => {
            let columns = each_evaluated(alloc, parts, rows)?;
            Ok(Given::Made(structs_of(alloc, columns, rows.len())?))
        }
    }
}

/// The values themselves.
fn whole<'a>(alloc: Global, scope: &DType, rows: Rows<'a>) -> Result<Given<'a>, NoMemory>
    requires { AreRowsOf scope.now rows }
    ensures { IfOk result (λ g. given_vals g ≡ map row_value (rows_of rows.entry)) }
{
    match rows {
        Rows::Whole(cells) => Ok(Given::Held(cells)),
        Rows::Parts(columns, len) => {
            let copies = copied_cells(alloc, columns)?;
            Ok(Given::Made(structs_of(alloc, copies, len)?))
        }
    }
}

/// The rows' numbers.
fn row_numbers<'a>(alloc: Global, rows: Rows<'a>) -> Result<Cells, NoMemory>
    ensures { IfOk result (λ c. vals_in c ≡ map row_number (rows_of rows.entry)) }
{
    match rows {
        Rows::Whole(cells) => Ok(Cells::Constant(Constant::new(Value::Int(0), cells.len()))),
        Rows::Parts(_, len) => Ok(numbers(alloc, len)?),
    }
}

/// A copy of a value, `len` times.
fn repeated(alloc: Global, value: &Value, len: usize) -> Result<Cells, NoMemory>
    ensures { IfOk result (λ c. vals_in c ≡ replicate len (val_of value.now)) }
{
    let value = value.try_clone(alloc)?;
    Ok(Cells::Constant(Constant::new(value, len)))
}

/// The values of an operator on an expression.
#[cycle(evaluation)]
fn one_changed<'a>(
    alloc: Global,
    op: &Unary,
    x: &BoundExpression,
    rows: Rows<'a>,
) -> Result<Given<'a>, ApplyFault>
    requires over { AreRowsOf x.now.scope rows }
    requires faultless { unary_fault op.now (infer x.now.scope x.now.expr) ≡ None }
    ensures items { IfOk result (λ g. given_vals g ≡
        map (value_in x.now.scope (unary op.now x.now.expr)) (rows_of rows.entry)) }
    ensures within { IfOk result (λ _.
        overflows_in x.now.scope (unary op.now x.now.expr) (rows_of rows.entry) ≡ false) }
    ensures overflow { result ≡ Err ApplyFault.Overflow →
        overflows_in x.now.scope (unary op.now x.now.expr) (rows_of rows.entry) ≡ true }
{
    let values = evaluated(alloc, x, rows)?;
    let made = changed_given(alloc, op, x.dtype(), values)?;
    Ok(made)
}

/// The values of an operator on two expressions; the dtype is that of its result.
#[cycle(evaluation)]
fn two_combined<'a>(
    alloc: Global,
    op: Binary,
    dtype: &DType,
    x: &BoundExpression,
    y: &BoundExpression,
    rows: Rows<'a>,
) -> Result<Given<'a>, ApplyFault>
    requires over { AreRowsOf x.now.scope rows }
    requires scopes { y.now.scope ≡ x.now.scope }
    requires typed { dtype.now ≡ binary_type op (infer x.now.scope x.now.expr) (infer x.now.scope y.now.expr) }
    ensures items { IfOk result (λ g. given_vals g ≡
        map (value_in x.now.scope (binary op x.now.expr y.now.expr)) (rows_of rows.entry)) }
    ensures within { IfOk result (λ _.
        overflows_in x.now.scope (binary op x.now.expr y.now.expr) (rows_of rows.entry) ≡ false) }
    ensures overflow { result ≡ Err ApplyFault.Overflow →
        overflows_in x.now.scope (binary op x.now.expr y.now.expr) (rows_of rows.entry) ≡ true }
{
    let first = evaluated(alloc, x, rows)?;
    let second = evaluated(alloc, y, rows)?;
    let left = first.as_cells();
    let right = second.as_cells();
    let made = combined(alloc, op, dtype, left, right)?;
    Ok(Given::Made(made))
}

/// The values of each of some expressions.
#[cycle(evaluation)]
fn each_evaluated<'a>(
    alloc: Global,
    parts: &[BoundExpression],
    rows: Rows<'a>,
) -> Result<Vec<Cells>, ApplyFault>
    requires { All (λ b. AreRowsOf b.scope rows) parts.now }
    ensures items { IfOk result (λ v. map vals_in v.items ≡ map (bound_in (rows_of rows.entry)) parts.now) }
    ensures within { IfOk result (λ _. list_any (bound_overflows_in (rows_of rows.entry)) parts.now ≡ false) }
    ensures overflow { result ≡ Err ApplyFault.Overflow →
        list_any (bound_overflows_in (rows_of rows.entry)) parts.now ≡ true }
{
    let mut columns = Vec::with_capacity(alloc, parts.len())?;
    for part in parts {
        let given = evaluated(alloc, part, rows)?;
        columns.push(given.into_cells(alloc)?)?;
    }
    Ok(columns)
}
