// The operators on values.
ghost use Rattle.std.specs.Prelude.{◌≡◌, pos, Err, None, true, false, IfOk, if◌then◌else◌, not, IfSome, IfNone};
ghost use Rattle.scan_values.specs.Values.{val_of};
ghost use Rattle.scan_values.specs.Val.{vals_of, marked, marked_all};
ghost use Rattle.scan_values.specs.Marked.{struct, boolean};
ghost use Rattle.scan_values.specs.DataType.{DataType, is_nullable};
ghost use Rattle.scan_values.specs.Fits.{fits_int};
ghost use Rattle.scan_values.specs.declared.ptype.Nullability.{Nullability};
ghost use Rattle.scan_expr.specs.Infer.{struct_fields, binary_type};
ghost use Rattle.scan_expr.specs.Lending.{lent_val};
ghost use Rattle.scan_expr.specs.Eval.{unary_value, binary_value, of_struct, not_value, null_test, length_value, mask_value, logic_value, comparison_value, arithmetic_value, integer_of, combine, order, holds, is_truth, is_nothing};
ghost use Rattle.scan_expr.specs.Overflow.{outside, spills};
ghost use Rattle.scan_expr.specs.Typing.{unary_fault};
ghost use Rattle.scan_expr.specs.Places.{unary_places, nth, all_at, there_at};

use crate::op::{ApplyFault, Binary, Unary};
use scan_values::{DType, NoMemory, Value, Values};
use std::alloc::Global;
use std::cmp::Ordering;

/// A value that stands elsewhere, or that was made.
#[derive(Drop)]
pub enum Lent<'a> {
    Held(&'a Value),
    Made(Value),
}

impl<'a> Lent<'a> {
    pub fn as_value(&self) -> &Value
        ensures { val_of result.now ≡ lent_val self.now }
    {
        match self {
            Lent::Held(value) => value,
            Lent::Made(value) => value,
        }
    }

    /// The value, copied where it stands elsewhere.
    pub fn into_value(self, alloc: Global) -> Result<Value, NoMemory>
        ensures { IfOk result (λ v. val_of v ≡ lent_val self.entry) }
    {
        match self {
            Lent::Held(value) => value.try_clone(alloc),
            Lent::Made(value) => Ok(value),
        }
    }
}

/// The field at a place, lent by the struct.
fn field_lent<'a>(place: usize, value: &'a Value) -> Lent<'a>
    ensures { marked (lent_val result) ≡ of_struct (λ ms. nth ms place) (marked (val_of value.entry.now)) }
{
    match value {
        Value::Struct(values) => match values.as_slice().get(place) {
            Some(field) => Lent::Held(field),
            None => Lent::Made(Value::Null),
        },
        _ => Lent::Made(Value::Null),
    }
}

/// The field at a place, taken out of the struct.
fn field_taken(place: usize, value: Value) -> Value
    ensures { marked (val_of result) ≡ of_struct (λ ms. nth ms place) (marked (val_of value)) }
{
    match value {
        Value::Struct(values) => {
            if place < values.len() {
                values.into_vec().swap_remove(place)
            } else {
                Value::Null
            }
        }
        _ => Value::Null,
    }
}

fn get_item_of<'a>(place: usize, value: Lent<'a>) -> Lent<'a>
    ensures { marked (lent_val result) ≡ of_struct (λ ms. nth ms place) (marked (lent_val value.entry)) }
{
    match value {
        Lent::Held(v) => field_lent(place, v),
        Lent::Made(v) => Lent::Made(field_taken(place, v)),
    }
}

/// A copy of the field at a place.
fn field_copy(alloc: Global, place: usize, values: &Values) -> Result<Value, NoMemory>
    ensures { IfOk result (λ v. marked (val_of v) ≡ nth (marked_all (vals_of values.now)) place) }
{
    match values.as_slice().get(place) {
        Some(field) => field.try_clone(alloc),
        None => Ok(Value::Null),
    }
}

/// The fields at these places.
fn select_fields(alloc: Global, places: &[usize], values: &Values) -> Result<Values, NoMemory>
    ensures { IfOk result (λ vs. marked_all (vals_of vs) ≡ all_at (marked_all (vals_of values.now)) places.now) }
{
    let mut picked = Vec::with_capacity(alloc, places.len())?;
    for place in places {
        picked.push(field_copy(alloc, *place, values)?)?;
    }
    Ok(Values::new(picked))
}

/// Those of the fields at these places that are there.
fn left_fields(alloc: Global, places: &[usize], values: &Values) -> Result<Values, NoMemory>
    ensures { IfOk result (λ vs. marked_all (vals_of vs) ≡ there_at (marked_all (vals_of values.now)) places.now) }
{
    let items = values.as_slice();
    let mut left = Vec::with_capacity(alloc, places.len())?;
    for place in places {
        if *place < items.len() {
            left.push(items[*place].try_clone(alloc)?)?;
        }
    }
    Ok(Values::new(left))
}

fn select_of(alloc: Global, places: &[usize], value: &Value) -> Result<Value, NoMemory>
    ensures { IfOk result (λ v. marked (val_of v) ≡ of_struct (λ ms. struct (all_at ms places.now)) (marked (val_of value.now))) }
{
    match value {
        Value::Struct(values) => Ok(Value::Struct(select_fields(alloc, places, values)?)),
        _ => Ok(Value::Null),
    }
}

fn exclude_of(alloc: Global, places: &[usize], value: &Value) -> Result<Value, NoMemory>
    ensures { IfOk result (λ v. marked (val_of v) ≡ of_struct (λ ms. struct (there_at ms places.now)) (marked (val_of value.now))) }
{
    match value {
        Value::Struct(values) => Ok(Value::Struct(left_fields(alloc, places, values)?)),
        _ => Ok(Value::Null),
    }
}

fn not_of(value: &Value) -> Value
    ensures { (n : Nullability) → marked (val_of result) ≡ not_value n (marked (val_of value.now)) }
{
    match value {
        Value::Bool(b) => Value::Bool(!*b),
        _ => Value::Null,
    }
}

fn test_null(want: bool, dtype: &DType, value: &Value) -> Value
    ensures { marked (val_of result) ≡ (if is_nullable dtype.now then null_test want (marked (val_of value.now)) else boolean (not want)) }
{
    if dtype.is_nullable() && matches!(value, Value::Null) {
        Value::Bool(want)
    } else {
        Value::Bool(!want)
    }
}

fn length_of(value: &Value) -> Value
    ensures { (n : Nullability) → marked (val_of result) ≡ length_value n (marked (val_of value.now)) }
{
    match value {
        Value::List(values) => Value::Int(values.len() as i128),
        _ => Value::Null,
    }
}

/// The value of an operator on one value of this dtype, which takes the fields at these places.
pub(crate) fn unary_of<'a>(
    alloc: Global,
    op: &Unary,
    places: &[usize],
    dtype: &DType,
    value: Lent<'a>,
) -> Result<Lent<'a>, NoMemory>
    requires faultless { unary_fault op.now dtype.now ≡ None }
    requires placed { places.now ≡ unary_places op.now (struct_fields dtype.now) }
    ensures { IfOk result (λ v. marked (lent_val v) ≡ unary_value op.now dtype.now (marked (lent_val value.entry))) }
{
    match op {
        Unary::GetItem(_) => Ok(get_item_of(places[0], value)),
        Unary::Select(_) => Ok(Lent::Made(select_of(alloc, places, value.as_value())?)),
        Unary::Exclude(_) => Ok(Lent::Made(exclude_of(alloc, places, value.as_value())?)),
        Unary::Not => Ok(Lent::Made(not_of(value.as_value()))),
        Unary::IsNull => Ok(Lent::Made(test_null(true, dtype, value.as_value()))),
        Unary::IsNotNull => Ok(Lent::Made(test_null(false, dtype, value.as_value()))),
        Unary::ListLength => Ok(Lent::Made(length_of(value.as_value()))),
    }
}

fn mask_of<'a>(value: Lent<'a>, mask: &Value) -> Lent<'a>
    ensures { marked (lent_val result) ≡ mask_value (marked (lent_val value.entry)) (marked (val_of mask.now)) }
{
    match mask {
        Value::Bool(true) => value,
        _ => Lent::Made(Value::Null),
    }
}

fn is_truth(b: bool, value: &Value) -> bool
    ensures { result ≡ is_truth b (marked (val_of value.now)) }
{
    match value {
        Value::Bool(c) => *c == b,
        _ => false,
    }
}

fn is_null(value: &Value) -> bool
    ensures { result ≡ is_nothing (marked (val_of value.now)) }
{
    matches!(value, Value::Null)
}

fn logic_of(b: bool, x: &Value, y: &Value) -> Value
    ensures { (n : Nullability) → marked (val_of result) ≡ logic_value b n (marked (val_of x.now)) (marked (val_of y.now)) }
{
    if is_truth(b, x) || is_truth(b, y) {
        Value::Bool(b)
    } else if is_truth(!b, x) && is_truth(!b, y) {
        Value::Bool(!b)
    } else {
        Value::Null
    }
}

fn order_of(x: &Value, y: &Value) -> Ordering
    ensures { result ≡ order (marked (val_of x.now)) (marked (val_of y.now)) }
{
    match x {
        Value::Bool(a) => match y {
            Value::Bool(b) => a.cmp(b),
            _ => Ordering::Equal,
        },
        Value::Int(a) => match y {
            Value::Int(b) => a.cmp(b),
            _ => Ordering::Equal,
        },
        Value::Text(a) => match y {
            Value::Text(b) => a.as_str().cmp(&b.as_str()),
            _ => Ordering::Equal,
        },
        _ => Ordering::Equal,
    }
}

fn holds_of(op: Binary, order: Ordering) -> bool
    ensures { result ≡ holds op order }
{
    match op {
        Binary::Equal => order.is_eq(),
        Binary::NotEqual => !order.is_eq(),
        Binary::Less => order.is_lt(),
        Binary::LessOrEqual => !order.is_gt(),
        Binary::Greater => order.is_gt(),
        Binary::GreaterOrEqual => !order.is_lt(),
        _ => false,
    }
}

fn comparison_of(op: Binary, x: &Value, y: &Value) -> Value
    ensures { (n : Nullability) → marked (val_of result) ≡ comparison_value op n (marked (val_of x.now)) (marked (val_of y.now)) }
{
    if is_null(x) || is_null(y) {
        Value::Null
    } else {
        Value::Bool(holds_of(op, order_of(x, y)))
    }
}

/// The sum or difference of two integers, where it is one of this dtype.
fn checked_of(op: Binary, dtype: &DType, a: i128, b: i128) -> Option<i128>
    ensures value { IfSome result (λ z. (z ≡ combine op a b) × (fits_int dtype.now (combine op a b) ≡ true)) }
    ensures none { IfNone result (fits_int dtype.now (combine op a b) ≡ false) }
{
    let sum = match op {
        Binary::CheckedAdd => a.checked_add(b),
        Binary::CheckedSub => a.checked_sub(b),
        _ => Some(0),
    };
    match sum {
        Some(z) => { if dtype.holds(z) { Some(z) } else { None } }
        None => None,
    }
}

/// The sum or difference of two values, whose dtype is an integer type.
fn arithmetic_of(op: Binary, dtype: &DType, x: &Value, y: &Value) -> Result<Value, ApplyFault>
    ensures value { fits_int dtype.now (pos 0) ≡ true → IfOk result
        (λ v. marked (val_of v) ≡ arithmetic_value op dtype.now (marked (val_of x.now)) (marked (val_of y.now))) }
    ensures within { IfOk result (λ _. outside op dtype.now (integer_of (marked (val_of x.now))) (integer_of (marked (val_of y.now))) ≡ false) }
    ensures overflow { result ≡ Err ApplyFault.Overflow → outside op dtype.now
        (integer_of (marked (val_of x.now))) (integer_of (marked (val_of y.now))) ≡ true }
{
    if is_null(x) || is_null(y) {
        return Ok(Value::Null);
    }
    match (x, y) {
        (Value::Int(a), Value::Int(b)) => match checked_of(op, dtype, *a, *b) {
            Some(z) => Ok(Value::Int(z)),
            None => Err(ApplyFault::Overflow),
        },
        _ => Ok(Value::Int(0)),
    }
}

/// The value of an operator on two values; the dtype is that of its result.
pub(crate) fn binary_of<'a>(
    op: Binary,
    dtype: &DType,
    x: Lent<'a>,
    y: Lent<'a>,
) -> Result<Lent<'a>, ApplyFault>
    ensures value { (a b : DataType) → dtype.now ≡ binary_type op a b
        → IfOk result (λ v. marked (lent_val v) ≡ binary_value op dtype.now (marked (lent_val x.entry))
        (marked (lent_val y.entry))) }
    ensures within { IfOk result (λ _. spills op dtype.now (marked (lent_val x.entry)) (marked (lent_val y.entry)) ≡ false) }
    ensures overflow { result ≡ Err ApplyFault.Overflow → spills op dtype.now (marked (lent_val x.entry)) (marked (lent_val y.entry)) ≡ true }
{
    match op {
        Binary::Mask => Ok(mask_of(x, y.as_value())),
        Binary::And => Ok(Lent::Made(logic_of(false, x.as_value(), y.as_value()))),
        Binary::Or => Ok(Lent::Made(logic_of(true, x.as_value(), y.as_value()))),
        Binary::CheckedAdd | Binary::CheckedSub => {
            Ok(Lent::Made(arithmetic_of(op, dtype, x.as_value(), y.as_value())?))
        }
        _ => Ok(Lent::Made(comparison_of(op, x.as_value(), y.as_value()))),
    }
}
