//! Rows of any dtype, written as a layout and its segments.
ghost use Rattle.std.specs.Prelude.{◌≡◌, ◌<◌, ◌∷◌, [], IfOk, IfErr, OnOk, None, Some, length, map, slice_get, true};
ghost use Rattle.scan_values.specs.declared.ptype.Nullability.TheVariants.{NonNullable};
ghost use Rattle.scan_values.specs.declared.ptype.PType.TheVariants.{U64};
ghost use Rattle.scan_values.specs.DataType.{bool_type, int_type, fields_of, nullability_of};
ghost use Rattle.scan_values.specs.FieldLists.{dtypes_of};
ghost use Rattle.scan_values.specs.Val.{vals_of};
ghost use Rattle.scan_values.specs.Kinds.{element_of, is_scalar_type, struct_fields_of};
ghost use Rattle.scan_values.specs.Values.{val_of};
ghost use Rattle.scan_layout.specs.LayoutView.{layouts_of};
ghost use Rattle.scan_encode.specs.Encoded.{Has, Holds, IsOf, stored};
ghost use Rattle.scan_encode.specs.Parts.{AllOf, AreChildren, IsValidity, given, offsets};
ghost use Rattle.scan_encode.specs.Rows.{all_elements, all_texts_fit, validity};
ghost use Rattle.scan_encode.specs.RowsIn.{rows_in};
ghost use Rattle.scan_encode.specs.Faults.{IsFull, IsUnwritten};

use crate::fault::RowsFault;
use crate::leaf::{WriteOptions, node_of, push_leaf};
use crate::rows::{elements, field_values, lent, offsets, validity};
use crate::segments::Segments;
use crate::texts::all_texts_fit;
use scan_layout::{LayoutKind, LayoutRef};
use scan_values::{Array, DType, NoMemory, Nullability, PType, StructFields, Value};
use std::alloc::Global;

/// Writes values as a leaf.
fn push_values(
    alloc: Global,
    options: &WriteOptions,
    dtype: &DType,
    values: &[Value],
    segments: &mut Segments,
) -> Result<LayoutRef, RowsFault>
    requires scalar { is_scalar_type dtype.now ≡ true }
    requires fit { AllOf dtype.now (given (map val_of values.now)) }
    ensures leaf { IfOk result (λ l. IsOf dtype.now (given (map val_of values.now)) segments.new l.value) }
    ensures has { Has (stored segments.new) segments.old }
    ensures refused { IfErr result (IsFull segments.new) }
{
    let rows = lent(alloc, values)?;
    push_leaf(alloc, options, dtype, rows.as_slice(), segments)
}

/// Writes whether each row is no null.
fn push_truths(
    alloc: Global,
    options: &WriteOptions,
    rows: &[Option<&Value>],
    segments: &mut Segments,
) -> Result<LayoutRef, RowsFault>
    ensures leaf { IfOk result (λ l.
        IsOf (bool_type NonNullable) (given (validity (rows_in rows.now))) segments.new l.value) }
    ensures has { Has (stored segments.new) segments.old }
    ensures refused { IfErr result (IsFull segments.new) }
{
    let values = validity(alloc, rows)?;
    let truth = DType::bool(Nullability::NonNullable);
    push_values(alloc, options, &truth, values.as_slice(), segments)
}

/// One layout.
fn one(alloc: Global, layout: LayoutRef) -> Result<Vec<LayoutRef>, NoMemory>
    ensures { IfOk result (λ v. layouts_of v.items ≡ layout.value ∷ []) }
{
    let mut made = Vec::new(alloc);
    made.push(layout)?;
    Ok(made)
}

/// Writes the validity of rows of a dtype, where it has one.
fn push_validity(
    alloc: Global,
    options: &WriteOptions,
    dtype: &DType,
    rows: &[Option<&Value>],
    segments: &mut Segments,
) -> Result<Vec<LayoutRef>, RowsFault>
    ensures valid { IfOk result (λ v.
        IsValidity (nullability_of dtype.now) (rows_in rows.now) segments.new (layouts_of v.items)) }
    ensures has { Has (stored segments.new) segments.old }
    ensures refused { IfErr result (IsFull segments.new) }
{
    match dtype.nullability() {
        Nullability::NonNullable => Ok(Vec::new(alloc)),
        Nullability::Nullable => {
            let truths = push_truths(alloc, options, rows, segments)?;
            Ok(one(alloc, truths)?)
        }
    }
}

/// Writes where lists of so many elements end.
fn push_offsets(
    alloc: Global,
    options: &WriteOptions,
    rows: &[Option<&Value>],
    most: usize,
    segments: &mut Segments,
) -> Result<LayoutRef, RowsFault>
    requires { length (all_elements (rows_in rows.now)) ≡ most }
    ensures leaf { IfOk result (λ l.
        IsOf (int_type U64 NonNullable) (given (offsets (rows_in rows.now))) segments.new l.value) }
    ensures has { Has (stored segments.new) segments.old }
    ensures refused { IfErr result (IsFull segments.new) }
{
    let values = offsets(alloc, rows, most)?;
    let dtype = DType::primitive(PType::U64, Nullability::NonNullable);
    push_values(alloc, options, &dtype, values.as_slice(), segments)
}

/// Writes rows of any dtype.
#[cycle(tree)]
pub(crate) fn push_tree(
    alloc: Global,
    options: &WriteOptions,
    dtype: &DType,
    rows: &[Option<&Value>],
    segments: &mut Segments,
) -> Result<LayoutRef, RowsFault>
    requires { AllOf dtype.now (rows_in rows.now) }
    ensures tree { IfOk result (λ l. IsOf dtype.now (rows_in rows.now) segments.new l.value) }
    ensures has { Has (stored segments.new) segments.old }
    ensures refused { IfErr result (IsFull segments.new) }
{
    match dtype.as_struct_fields_opt() {
        Some(fields) => push_structs(alloc, options, dtype, fields, rows, segments),
        None => push_items(alloc, options, dtype, rows, segments),
    }
}

/// Writes structs: their validity, and then each field.
#[cycle(tree)]
fn push_structs(
    alloc: Global,
    options: &WriteOptions,
    dtype: &DType,
    fields: &StructFields,
    rows: &[Option<&Value>],
    segments: &mut Segments,
) -> Result<LayoutRef, RowsFault>
    requires fields { Some (fields_of fields.now) ≡ struct_fields_of dtype.now }
    requires fit { AllOf dtype.now (rows_in rows.now) }
    ensures tree { IfOk result (λ l. IsOf dtype.now (rows_in rows.now) segments.new l.value) }
    ensures has { Has (stored segments.new) segments.old }
    ensures refused { IfErr result (IsFull segments.new) }
{
    let valid = push_validity(alloc, options, dtype, rows, segments)?;
    let children = push_fields(alloc, options, dtype, fields, rows, segments, valid)?;
    Ok(node_of(alloc, dtype, rows.len(), LayoutKind::Struct, children)?)
}

/// The dtype of a field.
fn field_of(fields: &StructFields, i: usize) -> &DType
    requires { i < length fields.now }
    ensures { Some result.now ≡ slice_get (dtypes_of fields.now) i }
{
    match fields.field_by_index(i) {
        Some(dtype) => dtype,
        None => unreachable!(),
    }
}

/// Writes each field of structs, behind the children that there are.
#[cycle(tree)]
fn push_fields(
    alloc: Global,
    options: &WriteOptions,
    dtype: &DType,
    fields: &StructFields,
    rows: &[Option<&Value>],
    segments: &mut Segments,
    children: Vec<LayoutRef>,
) -> Result<Vec<LayoutRef>, RowsFault>
    requires fields { Some (fields_of fields.now) ≡ struct_fields_of dtype.now }
    requires fit { AllOf dtype.now (rows_in rows.now) }
    requires valid { IsValidity (nullability_of dtype.now) (rows_in rows.now) segments.old (layouts_of children.items) }
    ensures children { IfOk result (λ v. AreChildren (nullability_of dtype.now) (fields_of fields.now)
        (rows_in rows.now) segments.new (layouts_of v.items)) }
    ensures has { Has (stored segments.new) segments.old }
    ensures refused { IfErr result (IsFull segments.new) }
{
    let mut made = children;
    for i in 0..fields.nfields() {
        let field = field_of(fields, i);
        let values = field_values(alloc, rows, i)?;
        let child = push_tree(alloc, options, field, values.as_slice(), segments)?;
        made.push(child)?;
    }
    Ok(made)
}

/// Writes lists, and scalars.
#[cycle(tree)]
fn push_items(
    alloc: Global,
    options: &WriteOptions,
    dtype: &DType,
    rows: &[Option<&Value>],
    segments: &mut Segments,
) -> Result<LayoutRef, RowsFault>
    requires none { struct_fields_of dtype.now ≡ None }
    requires fit { AllOf dtype.now (rows_in rows.now) }
    ensures tree { IfOk result (λ l. IsOf dtype.now (rows_in rows.now) segments.new l.value) }
    ensures has { Has (stored segments.new) segments.old }
    ensures refused { IfErr result (IsFull segments.new) }
{
    match dtype.as_list_element_opt() {
        Some(element) => push_lists(alloc, options, dtype, element, rows, segments),
        None => push_leaf(alloc, options, dtype, rows, segments),
    }
}

/// Writes lists: their elements, where each ends, and their validity.
#[cycle(tree)]
fn push_lists(
    alloc: Global,
    options: &WriteOptions,
    dtype: &DType,
    element: &DType,
    rows: &[Option<&Value>],
    segments: &mut Segments,
) -> Result<LayoutRef, RowsFault>
    requires element { Some element.now ≡ element_of dtype.now }
    requires fit { AllOf dtype.now (rows_in rows.now) }
    ensures tree { IfOk result (λ l. IsOf dtype.now (rows_in rows.now) segments.new l.value) }
    ensures has { Has (stored segments.new) segments.old }
    ensures refused { IfErr result (IsFull segments.new) }
{
    let values = elements(alloc, rows)?;
    let lent = values.as_slice();
    let offsets = push_offsets(alloc, options, rows, lent.len(), segments)?;
    let validity = push_validity(alloc, options, dtype, rows, segments)?;
    let elements = push_tree(alloc, options, element, lent, segments)?;
    let children = list_children(elements, offsets, validity)?;
    let kind = LayoutKind::List(PType::U64);
    Ok(node_of(alloc, dtype, rows.len(), kind, children)?)
}

/// The children of a list.
fn list_children(
    elements: LayoutRef,
    offsets: LayoutRef,
    validity: Vec<LayoutRef>,
) -> Result<Vec<LayoutRef>, NoMemory>
    ensures { IfOk result (λ v. layouts_of v.items ≡ elements.value ∷ offsets.value ∷ layouts_of validity.items) }
{
    let mut children = validity;
    children.insert(0, offsets)?;
    children.insert(0, elements)?;
    Ok(children)
}

/// Writes values of any dtype.
fn push_given(
    alloc: Global,
    options: &WriteOptions,
    dtype: &DType,
    values: &[Value],
    segments: &mut Segments,
) -> Result<LayoutRef, RowsFault>
    requires { AllOf dtype.now (given (map val_of values.now)) }
    ensures tree { IfOk result (λ l. IsOf dtype.now (given (map val_of values.now)) segments.new l.value) }
    ensures has { Has (stored segments.new) segments.old }
    ensures refused { IfErr result (IsFull segments.new) }
{
    let rows = lent(alloc, values)?;
    push_tree(alloc, options, dtype, rows.as_slice(), segments)
}

/// The layout of the rows of an array, whose segments are behind those that there are.
///
/// # Errors
/// `TooLong` exactly where a text has more than 4294967295 bytes: no segment is made then. `Segments` where there are
/// 4294967296, and `NoMemory`.
pub fn encode_rows(
    alloc: Global,
    rows: &Array,
    options: &WriteOptions,
    segments: &mut Segments,
) -> Result<LayoutRef, RowsFault>
    ensures holds { IfOk result (λ l. Holds rows.now.dtype rows.now.items segments.new l.value) }
    ensures short { OnOk result (all_texts_fit (vals_of rows.now.items) ≡ true) }
    ensures has { Has (stored segments.new) segments.old }
    ensures refused { IfErr result (IsUnwritten rows.now.items segments.new) }
{
    let values = rows.as_slice();
    if all_texts_fit(values) {
        push_given(alloc, options, rows.dtype(), values, segments)
    } else {
        Err(RowsFault::TooLong)
    }
}
