// The typing table: the dtype of a node, and its conditions.
ghost use Rattle.std.specs.Prelude.{◌≡◌, ◌≢◌, ◌≤◌, Err, Some, None, IfOk, IfErr, [], ◌∷◌, true, false, is_some, map, slice_get};
ghost use Rattle.scan_values.specs.Values.{val_of};
ghost use Rattle.scan_values.specs.DataType.{struct_type, fields_of, fields_depth, depth_of};
ghost use Rattle.scan_values.specs.FieldLists.{dtypes_of};
ghost use Rattle.scan_values.specs.Kinds.{ptype_of, struct_fields_of};
ghost use Rattle.scan_values.specs.NameFaults.{field_names};
ghost use Rattle.scan_expr.specs.Infer.{either, struct_fields, type_or_bool, raised, chosen, without, unary_type, sum_type, binary_type};
ghost use Rattle.scan_expr.specs.Places.{place_of, left_places, unary_places};
ghost use Rattle.scan_expr.specs.Typing.{typed, depth_fault, of_names, repeats, has_field, unless, literal_fault, unary_fault, binary_fault, same_ptypes, are_operands, logic_fault, choice_fault};

use crate::index::{NameSet, place_found, places_found, places_left};
use crate::op::{Binary, BindFault, Unary};
use scan_values::{
    DType, FieldName, NameFault, Names, NoMemory, Nullability, PType, StructFields, Value,
};
use std::alloc::Global;
use std::collections::BTreeSet;

/// The dtype, unless it is too deep.
pub(crate) fn shallow(dtype: DType) -> Result<DType, BindFault>
    ensures { result ≡ typed (depth_fault dtype) dtype }
{
    if dtype.depth() <= 64 {
        Ok(dtype)
    } else {
        Err(BindFault::Deep)
    }
}

pub(crate) fn fault_of(fault: NameFault) -> BindFault
    ensures { Some result ≡ of_names (Some fault) }
{
    match fault {
        NameFault::Repeated => BindFault::RepeatedName,
        NameFault::Reserved => BindFault::ReservedName,
    }
}

/// Nullable by either.
fn either(a: Nullability, b: Nullability) -> Nullability
    ensures { result ≡ either a b }
{
    match a {
        Nullability::NonNullable => b,
        Nullability::Nullable => Nullability::Nullable,
    }
}

/// The dtype of a field, nullable by the struct too.
fn raised(n: Nullability, field: DType) -> DType
    ensures { result ≡ raised n field }
{
    let nullability = either(n, field.nullability());
    field.with_nullability(nullability)
}

/// A struct that is known not to be too deep.
pub(crate) fn struct_within(fields: StructFields, n: Nullability) -> DType
    requires { fields_depth (fields_of fields) ≤ 65 }
    ensures { result ≡ struct_type (fields_of fields) n }
{
    match DType::struct_(fields, n) {
        Ok(dtype) => dtype,
        Err(_) => unreachable!(),
    }
}

// ---- Dtypes, whether the conditions hold or not.

/// The fields of a struct.
fn struct_fields(dtype: &DType) -> &StructFields
    requires { is_some (struct_fields_of dtype.now) ≡ true }
    ensures fields { fields_of result.now ≡ struct_fields dtype.now }
    ensures depth { depth_of dtype.now ≤ 66 }
{
    // What a dtype's depth may be is known of one that was asked for it.
    let _depth = dtype.depth();
    match dtype.as_struct_fields_opt() {
        Some(fields) => fields,
        None => unreachable!(),
    }
}

/// A copy of the dtype of the field at a place, or a nullable Bool where there is none.
fn dtype_at(alloc: Global, fields: &StructFields, place: usize) -> Result<DType, NoMemory>
    ensures { IfOk result (λ d. d ≡ type_or_bool (slice_get (dtypes_of fields.now) place)) }
{
    match fields.field_by_index(place) {
        Some(field) => field.try_clone(alloc),
        None => Ok(DType::bool(Nullability::Nullable)),
    }
}

/// The fields of these names, which stand at these places.
fn chosen(
    alloc: Global,
    names: &Names,
    fields: &StructFields,
    places: &[usize],
) -> Result<StructFields, NoMemory>
    requires { places.now ≡ map (place_of (fields_of fields.now)) names.now }
    ensures { IfOk result (λ fs. fields_of fs ≡ chosen names.now (fields_of fields.now)) }
{
    let mut dtypes = Vec::with_capacity(alloc, places.len())?;
    for place in places {
        dtypes.push(dtype_at(alloc, fields, *place)?)?;
    }
    Ok(StructFields::new(names.try_clone(alloc)?.into_vec(), dtypes))
}

/// The fields of other names.
fn others(alloc: Global, names: &Names, fields: &StructFields) -> Result<StructFields, NoMemory>
    ensures { IfOk result (λ fs. fields_of fs ≡ without names.now (fields_of fields.now)) }
{
    let taken = NameSet::of(alloc, names)?;
    let mut left = Vec::new(alloc);
    let mut dtypes = Vec::new(alloc);
    for (i, name) in fields.names().iter().enumerate() {
        if !taken.has(name) {
            if let Some(dtype) = fields.field_by_index(i) {
                left.push(name.try_clone(alloc)?)?;
                dtypes.push(dtype.try_clone(alloc)?)?;
            }
        }
    }
    Ok(StructFields::new(left, dtypes))
}

/// The dtype of an operator on a part of this dtype, of which it takes the fields at these places.
pub(crate) fn unary_type(
    alloc: Global,
    op: &Unary,
    dtype: &DType,
    places: &[usize],
) -> Result<DType, NoMemory>
    requires faultless { unary_fault op.now dtype.now ≡ None }
    requires placed { places.now ≡ unary_places op.now (struct_fields dtype.now) }
    ensures { IfOk result (λ d. d ≡ unary_type op.now dtype.now) }
{
    let n = dtype.nullability();
    match op {
        Unary::GetItem(_) => Ok(raised(n, dtype_at(alloc, struct_fields(dtype), places[0])?)),
        Unary::Select(names) => {
            let picked = chosen(alloc, names, struct_fields(dtype), places)?;
            Ok(struct_within(picked, n))
        }
        Unary::Exclude(names) => {
            let left = others(alloc, names, struct_fields(dtype))?;
            Ok(struct_within(left, n))
        }
        Unary::Not => Ok(DType::bool(n)),
        Unary::IsNull => Ok(DType::bool(Nullability::NonNullable)),
        Unary::IsNotNull => Ok(DType::bool(Nullability::NonNullable)),
        Unary::ListLength => Ok(DType::primitive(PType::U64, n)),
    }
}

/// The integer type of the left side, nullable by both.
fn sum_type(a: &DType, b: &DType) -> DType
    ensures { result ≡ sum_type a.now b.now }
{
    let ptype = match a.as_ptype_opt() {
        Some(p) => p,
        None => PType::U64,
    };
    DType::primitive(ptype, either(a.nullability(), b.nullability()))
}

/// The dtype of an operator on parts of these dtypes.
pub(crate) fn binary_type(
    alloc: Global,
    op: Binary,
    a: &DType,
    b: &DType,
) -> Result<DType, NoMemory>
    ensures { IfOk result (λ d. d ≡ binary_type op a.now b.now) }
{
    match op {
        Binary::Mask => Ok(a.try_clone(alloc)?.with_nullability(Nullability::Nullable)),
        Binary::CheckedAdd | Binary::CheckedSub => Ok(sum_type(a, b)),
        _ => Ok(DType::bool(either(a.nullability(), b.nullability()))),
    }
}

// ---- Dtypes with the conditions.

/// Whether a name stands twice.
fn repeats(alloc: Global, names: &[FieldName]) -> Result<bool, NoMemory>
    ensures { IfOk result (λ b. b ≡ repeats [] names.now) }
{
    let mut seen: BTreeSet<&str> = BTreeSet::new(alloc);
    for name in names {
        if !seen.insert(name.as_str())? {
            return Ok(true);
        }
    }
    Ok(false)
}

/// Where the fields of these names stand, or the first condition of a choice of them that fails.
fn choice_typed(
    alloc: Global,
    names: &Names,
    fields: &StructFields,
) -> Result<Vec<usize>, BindFault>
    ensures faultless { IfOk result (λ _. choice_fault names.now (fields_of fields.now) ≡ None) }
    ensures places { IfOk result (λ v. v.items ≡ map (place_of (fields_of fields.now)) names.now) }
    ensures fault { IfErr result (λ f. f ≢ BindFault.NoMemory → choice_fault names.now (fields_of fields.now) ≡ Some f) }
{
    if repeats(alloc, names.as_slice())? {
        return Err(BindFault::RepeatedName);
    }
    places_found(alloc, names, fields)
}

/// The fields of a struct, or that it is none.
fn fields_typed(dtype: &DType) -> Result<&StructFields, BindFault>
    ensures fields { IfOk result (λ fs. struct_fields_of dtype.now ≡ Some (fields_of fs.now)) }
    ensures fault { IfErr result (λ f. (f ≡ BindFault.NotStruct) × (struct_fields_of dtype.now ≡ None)) }
{
    match dtype.as_struct_fields_opt() {
        Some(fields) => Ok(fields),
        None => Err(BindFault::NotStruct),
    }
}

/// Where the fields of other names stand, or the first condition of a choice of these that fails.
fn left_typed(alloc: Global, names: &Names, fields: &StructFields) -> Result<Vec<usize>, BindFault>
    ensures faultless { IfOk result (λ _. choice_fault names.now (fields_of fields.now) ≡ None) }
    ensures places { IfOk result (λ v. v.items ≡ left_places names.now 0 (field_names (fields_of fields.now))) }
    ensures fault { IfErr result (λ f. f ≢ BindFault.NoMemory → choice_fault names.now (fields_of fields.now) ≡ Some f) }
{
    choice_typed(alloc, names, fields)?;
    Ok(places_left(alloc, names, fields)?)
}

/// No places, unless a condition does not hold.
fn none_typed(alloc: Global, holds: bool, fault: BindFault) -> Result<Vec<usize>, BindFault>
    ensures faultless { IfOk result (λ v. (v.items ≡ []) × (unless holds fault ≡ None)) }
    ensures fault { IfErr result (λ f. unless holds fault ≡ Some f) }
{
    if holds {
        Ok(Vec::new(alloc))
    } else {
        Err(fault)
    }
}

/// Where the fields stand that an operator takes of a part of this dtype, or the first of its conditions that fails.
pub(crate) fn places_typed(
    alloc: Global,
    op: &Unary,
    dtype: &DType,
) -> Result<Vec<usize>, BindFault>
    ensures faultless { IfOk result (λ _. unary_fault op.now dtype.now ≡ None) }
    ensures places { IfOk result (λ v. v.items ≡ unary_places op.now (struct_fields dtype.now)) }
    ensures fault { IfErr result (λ f. f ≢ BindFault.NoMemory → unary_fault op.now dtype.now ≡ Some f) }
{
    match op {
        Unary::GetItem(name) => place_found(alloc, name, fields_typed(dtype)?),
        Unary::Select(names) => choice_typed(alloc, names, fields_typed(dtype)?),
        Unary::Exclude(names) => left_typed(alloc, names, fields_typed(dtype)?),
        Unary::Not => none_typed(alloc, dtype.is_bool(), BindFault::NotBool),
        Unary::IsNull | Unary::IsNotNull => Ok(Vec::new(alloc)),
        Unary::ListLength => {
            let is_list = dtype.as_list_element_opt().is_some();
            none_typed(alloc, is_list, BindFault::NotList)
        }
    }
}

/// Both of one integer type.
fn same_ptypes(a: &DType, b: &DType) -> bool
    ensures { result ≡ same_ptypes (ptype_of a.now) (ptype_of b.now) }
{
    match a.as_ptype_opt() {
        Some(p) => match b.as_ptype_opt() {
            Some(q) => p == q,
            None => false,
        },
        None => false,
    }
}

fn are_operands(a: &DType, b: &DType) -> bool
    ensures { result ≡ are_operands a.now b.now }
{
    if a.is_bool() {
        b.is_bool()
    } else if a.is_utf8() {
        b.is_utf8()
    } else {
        same_ptypes(a, b)
    }
}

/// The first condition of an operator on two parts that fails.
fn binary_fault(op: Binary, a: &DType, b: &DType) -> Option<BindFault>
    ensures { result ≡ binary_fault op a.now b.now }
{
    let holds = match op {
        Binary::Mask => b.is_bool() && !b.is_nullable(),
        Binary::And | Binary::Or => a.is_bool() && b.is_bool(),
        Binary::CheckedAdd | Binary::CheckedSub => same_ptypes(a, b),
        _ => are_operands(a, b),
    };
    if holds {
        return None;
    }
    match op {
        Binary::Mask | Binary::And | Binary::Or => Some(BindFault::NotBool),
        _ => Some(BindFault::Operands),
    }
}

/// The dtype of an operator on parts of these dtypes, or the first of its conditions that fails.
pub(crate) fn binary_typed(
    alloc: Global,
    op: Binary,
    a: &DType,
    b: &DType,
) -> Result<DType, BindFault>
    ensures { result ≢ Err BindFault.NoMemory → result ≡ typed (binary_fault op a.now b.now) (binary_type op a.now b.now) }
{
    match binary_fault(op, a, b) {
        Some(fault) => Err(fault),
        None => Ok(binary_type(alloc, op, a, b)?),
    }
}

/// Whether a literal may have this value.
pub(crate) fn is_literal(dtype: &DType, value: &Value) -> bool
    ensures { unless result BindFault.Literal ≡ literal_fault dtype.now (val_of value.now) }
{
    dtype.is_scalar() && value.fits(dtype)
}
