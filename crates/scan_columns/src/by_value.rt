// The operators on values, one after another.
ghost use Rattle.std.specs.Prelude.{◌≡◌, pos, Err, true, false, IfOk, IfSome, IfNone, not};
ghost use Rattle.scan_values.specs.Values.{val_of};
ghost use Rattle.scan_values.specs.Val.{marked, bool_val};
ghost use Rattle.scan_values.specs.DataType.{DataType};
ghost use Rattle.scan_values.specs.Fits.{fits_int};
ghost use Rattle.scan_values.specs.declared.ptype.Nullability.{Nullability};
ghost use Rattle.scan_expr.specs.Eval.{binary_value, mask_value, logic_value, comparison_value, arithmetic_value, integer_of, combine, order, is_truth};
ghost use Rattle.scan_expr.specs.Overflow.{outside, spills};
ghost use Rattle.scan_columns.specs.Typed.{cell};
ghost use Rattle.scan_columns.specs.Literals.{is_comparison, is_sum};
ghost use Rattle.scan_columns.specs.Operands.{pair_val};

use crate::compared::{holds_of, is_null};
use scan_expr::{ApplyFault, Binary};
use scan_values::{DType, NoMemory, Value};
use std::alloc::Global;
use std::cmp::Ordering;

fn mask_of(alloc: Global, value: &Value, mask: &Value) -> Result<Value, NoMemory>
    ensures { IfOk result (λ v. marked (val_of v) ≡ mask_value (marked (val_of value.now)) (marked (val_of mask.now))) }
{
    match mask {
        Value::Bool(true) => value.try_clone(alloc),
        _ => Ok(Value::Null),
    }
}

fn is_truth(b: bool, value: &Value) -> bool
    ensures { result ≡ is_truth b (marked (val_of value.now)) }
{
    match value {
        Value::Bool(c) => *c == b,
        _ => false,
    }
}

fn logic_of(b: bool, x: &Value, y: &Value) -> Value
    ensures { (n : Nullability) → marked (val_of result) ≡
        logic_value b n (marked (val_of x.now)) (marked (val_of y.now)) }
{
    if is_truth(b, x) || is_truth(b, y) {
        Value::Bool(b)
    } else if is_truth(!b, x) && is_truth(!b, y) {
        Value::Bool(!b)
    } else {
        Value::Null
    }
}

fn order_of(x: &Value, y: &Value) -> Ordering
    ensures { result ≡ order (marked (val_of x.now)) (marked (val_of y.now)) }
{
    match x {
        Value::Bool(a) => match y {
            Value::Bool(b) => a.cmp(b),
            _ => Ordering::Equal,
        },
        Value::Int(a) => match y {
            Value::Int(b) => a.cmp(b),
            _ => Ordering::Equal,
        },
        Value::Text(a) => match y {
            Value::Text(b) => a.as_str().cmp(&b.as_str()),
            _ => Ordering::Equal,
        },
        _ => Ordering::Equal,
    }
}

fn comparison_of(op: Binary, x: &Value, y: &Value) -> Value
    ensures { (n : Nullability) → marked (val_of result) ≡
        comparison_value op n (marked (val_of x.now)) (marked (val_of y.now)) }
{
    if is_null(x) || is_null(y) {
        Value::Null
    } else {
        Value::Bool(holds_of(op, order_of(x, y)))
    }
}

/// Whether a comparison holds of two values, and whether both are there.
#[tactic(auto, using(crate::proofs::KernelLemmas::compared_slot))]
pub(crate) fn compared_pair(op: Binary, x: &Value, y: &Value) -> (bool, bool)
    requires { is_comparison op ≡ true }
    ensures { cell bool_val result ≡ pair_val op (val_of x.now) (val_of y.now) }
{
    (holds_of(op, order_of(x, y)), !is_null(x) & !is_null(y))
}

/// The sum or difference of two integers, where it is one of this dtype.
pub(crate) fn checked_of(op: Binary, dtype: &DType, a: i128, b: i128) -> Option<i128>
    ensures value { IfSome result (λ z. (z ≡ combine op a b) × (fits_int dtype.now (combine op a b) ≡ true)) }
    ensures none { IfNone result (fits_int dtype.now (combine op a b) ≡ false) }
{
    let sum = match op {
        Binary::CheckedAdd => a.checked_add(b),
        Binary::CheckedSub => a.checked_sub(b),
        _ => Some(0),
    };
    match sum {
        Some(z) => { if dtype.holds(z) { Some(z) } else { None } }
        None => None,
    }
}

/// The sum or difference of two values, whose dtype is an integer type.
fn arithmetic_of(op: Binary, dtype: &DType, x: &Value, y: &Value) -> Result<Value, ApplyFault>
    ensures value { fits_int dtype.now (pos 0) ≡ true → IfOk result (λ v. marked (val_of v) ≡
        arithmetic_value op dtype.now (marked (val_of x.now)) (marked (val_of y.now))) }
    ensures within { IfOk result (λ _.
        outside op dtype.now (integer_of (marked (val_of x.now))) (integer_of (marked (val_of y.now))) ≡ false) }
    ensures overflow { result ≡ Err ApplyFault.Overflow →
        outside op dtype.now (integer_of (marked (val_of x.now))) (integer_of (marked (val_of y.now))) ≡ true }
{
    if is_null(x) || is_null(y) {
        return Ok(Value::Null);
    }
    match (x, y) {
        (Value::Int(a), Value::Int(b)) => match checked_of(op, dtype, *a, *b) {
            Some(z) => Ok(Value::Int(z)),
            None => Err(ApplyFault::Overflow),
        },
        _ => Ok(Value::Int(0)),
    }
}

/// The value of an operator on two values; the dtype is that of its result.
pub(crate) fn binary_of(
    alloc: Global,
    op: Binary,
    dtype: &DType,
    x: &Value,
    y: &Value,
) -> Result<Value, ApplyFault>
    requires { is_sum op ≡ true → fits_int dtype.now (pos 0) ≡ true }
    ensures value { IfOk result (λ v. marked (val_of v) ≡
        binary_value op dtype.now (marked (val_of x.now)) (marked (val_of y.now))) }
    ensures within { IfOk result (λ _. spills op dtype.now (marked (val_of x.now)) (marked (val_of y.now)) ≡ false) }
    ensures overflow { result ≡ Err ApplyFault.Overflow →
        spills op dtype.now (marked (val_of x.now)) (marked (val_of y.now)) ≡ true }
{
    match op {
        Binary::Mask => Ok(mask_of(alloc, x, y)?),
        Binary::And => Ok(logic_of(false, x, y)),
        Binary::Or => Ok(logic_of(true, x, y)),
        Binary::CheckedAdd | Binary::CheckedSub => arithmetic_of(op, dtype, x, y),
        _ => Ok(comparison_of(op, x, y)),
    }
}
