//! Rows that are lent, and what is in them.
ghost use Rattle.std.specs.Prelude.{◌≡◌, ◌∷◌, ◌++◌, Some, IfOk, length, map, pos, slice_get, true};
ghost use Rattle.scan_values.specs.Kinds.{is_scalar_type};
ghost use Rattle.scan_values.specs.Val.{int_val};
ghost use Rattle.scan_values.specs.Values.{val_of};
ghost use Rattle.scan_spelling.specs.Cuts.{sums};
ghost use Rattle.scan_encode.specs.RowsIn.{row_in, rows_in};
ghost use Rattle.scan_encode.specs.Rows.{is_there, field_at, elements_of, all_elements, counts, validity, filler, leaf_value};

use scan_values::{DType, NoMemory, Text, Value};
use std::alloc::Global;

fn is_there(row: Option<&Value>) -> bool
    ensures { result ≡ is_there (row_in row.entry) }
{
    match row {
        Some(Value::Null) => false,
        Some(_) => true,
        None => false,
    }
}

/// Whether each row is no null.
pub(crate) fn validity(alloc: Global, rows: &[Option<&Value>]) -> Result<Vec<Value>, NoMemory>
    ensures { IfOk result (λ v. map val_of v.items ≡ validity (rows_in rows.now)) }
{
    let mut made = Vec::with_capacity(alloc, rows.len())?;
    for row in rows {
        made.push(Value::Bool(is_there(*row)))?;
    }
    Ok(made)
}

/// What a leaf has where there is no row.
fn filler(alloc: Global, dtype: &DType) -> Value
    requires { is_scalar_type dtype.now ≡ true }
    ensures { val_of result ≡ filler dtype.now }
{
    if dtype.is_nullable() {
        return Value::Null;
    }
    if dtype.is_bool() {
        return Value::Bool(false);
    }
    if dtype.is_utf8() {
        return Value::Text(Text::new(String::new(alloc)));
    }
    Value::Int(0)
}

fn leaf_value(alloc: Global, dtype: &DType, row: Option<&Value>) -> Result<Value, NoMemory>
    requires { is_scalar_type dtype.now ≡ true }
    ensures { IfOk result (λ v. val_of v ≡ leaf_value dtype.now (row_in row.entry)) }
{
    match row {
        Some(value) => value.try_clone(alloc),
        None => Ok(filler(alloc, dtype)),
    }
}

/// What a leaf of a scalar dtype has in each row.
pub(crate) fn leaf_values(
    alloc: Global,
    dtype: &DType,
    rows: &[Option<&Value>],
) -> Result<Vec<Value>, NoMemory>
    requires { is_scalar_type dtype.now ≡ true }
    ensures { IfOk result (λ v. map val_of v.items ≡ map (leaf_value dtype.now) (rows_in rows.now)) }
{
    let mut made = Vec::with_capacity(alloc, rows.len())?;
    for row in rows {
        made.push(leaf_value(alloc, dtype, *row)?)?;
    }
    Ok(made)
}

/// How many elements a list has.
#[tactic(auto, using(crate::proofs::RowsOf::parts_again))]
fn count(row: Option<&Value>) -> usize
    ensures { result ≡ length (elements_of (row_in row.entry)) }
{
    match row {
        Some(Value::List(items)) => items.len(),
        _ => 0,
    }
}

/// Where each list ends among the elements of all, of which there are so many, behind the 0 where the first begins.
pub(crate) fn offsets(
    alloc: Global,
    rows: &[Option<&Value>],
    most: usize,
) -> Result<Vec<Value>, NoMemory>
    requires { length (all_elements (rows_in rows.now)) ≡ most }
    ensures { IfOk result (λ v. map val_of v.items ≡
        map (λ n. int_val (pos n)) (0 ∷ sums 0 (counts (rows_in rows.now)))) }
{
    let mut made = Vec::with_capacity(alloc, rows.len() + 1)?;
    made.push(Value::Int(0))?;
    let mut end: usize = 0;
    for row in rows {
        end += count(*row);
        made.push(Value::Int(end as i128))?;
    }
    Ok(made)
}

#[tactic(auto, using(crate::proofs::RowsOf::parts_again))]
fn push_elements<'a>(
    row: Option<&'a Value>,
    elements: &mut Vec<Option<&'a Value>>,
) -> Result<(), NoMemory>
    ensures { IfOk result (λ _. rows_in elements.new.items ≡ rows_in elements.old.items ++ elements_of (row_in row.entry)) }
{
    if let Some(Value::List(items)) = row {
        for item in items.as_slice() {
            elements.push(Some(item))?;
        }
    }
    Ok(())
}

/// The elements of all lists, one list after the other.
pub(crate) fn elements<'a>(
    alloc: Global,
    rows: &[Option<&'a Value>],
) -> Result<Vec<Option<&'a Value>>, NoMemory>
    ensures { IfOk result (λ v. rows_in v.items ≡ all_elements (rows_in rows.now)) }
{
    let mut elements = Vec::new(alloc);
    for row in rows {
        push_elements(*row, &mut elements)?;
    }
    Ok(elements)
}

#[tactic(auto, using(crate::proofs::RowsOf::value_read, crate::proofs::RowsOf::value_past))]
fn nth(values: &[Value], i: usize) -> Option<&Value>
    ensures { row_in result ≡ slice_get (map val_of values.now) i }
{
    if i < values.len() {
        Some(&values[i])
    } else {
        None
    }
}

#[tactic(auto, using(crate::proofs::RowsOf::parts_again))]
fn field_at(row: Option<&Value>, i: usize) -> Option<&Value>
    ensures { row_in result ≡ field_at i (row_in row.entry) }
{
    match row {
        Some(Value::Struct(fields)) => nth(fields.as_slice(), i),
        _ => None,
    }
}

/// The field of each struct at a place.
pub(crate) fn field_values<'a>(
    alloc: Global,
    rows: &[Option<&'a Value>],
    i: usize,
) -> Result<Vec<Option<&'a Value>>, NoMemory>
    ensures { IfOk result (λ v. rows_in v.items ≡ map (field_at i) (rows_in rows.now)) }
{
    let mut made = Vec::with_capacity(alloc, rows.len())?;
    for row in rows {
        made.push(field_at(*row, i))?;
    }
    Ok(made)
}

/// These values, lent.
pub(crate) fn lent<'a>(
    alloc: Global,
    values: &'a [Value],
) -> Result<Vec<Option<&'a Value>>, NoMemory>
    ensures { IfOk result (λ v. rows_in v.items ≡ map Some (map val_of values.now)) }
{
    let mut made = Vec::with_capacity(alloc, values.len())?;
    for value in values {
        made.push(Some(value))?;
    }
    Ok(made)
}
