//! Which dtype's values can be read as values of another.
ghost use Rattle.std.specs.Prelude.{◌≡◌, ◌&&◌, IfOk};
ghost use Rattle.scan_values.specs.DataType.{fields_of, is_nullable};
ghost use Rattle.scan_values.specs.FieldLists.{dtype_named};
ghost use Rattle.scan_values.specs.Kinds.{element_of, struct_fields_of};
ghost use Rattle.scan_widen.specs.FitsUnder.{
  null_fits,
  least_of,
  greatest_of,
  holds_all,
  are_lawful,
  passes_or,
  kinds_fit,
  fits_under,
  elements_fit,
  structs_fit,
  fields_fit,
};

use scan_values::{
    DType, DTypeKind, FieldName, NoMemory, Nullability, PType, StructFields, names_fault,
};
use std::alloc::Global;

// The least number of an integer type.
fn least(ptype: PType) -> i128
    ensures { result ≡ least_of ptype }
{
    match ptype {
        PType::U8 | PType::U16 | PType::U32 | PType::U64 => 0,
        PType::I8 => -128,
        PType::I16 => -32_768,
        PType::I32 => -2_147_483_648,
        PType::I64 => -9_223_372_036_854_775_808,
    }
}

// The greatest number of an integer type.
fn greatest(ptype: PType) -> i128
    ensures { result ≡ greatest_of ptype }
{
    match ptype {
        PType::U8 => 255,
        PType::U16 => 65_535,
        PType::U32 => 4_294_967_295,
        PType::U64 => 18_446_744_073_709_551_615,
        PType::I8 => 127,
        PType::I16 => 32_767,
        PType::I32 => 2_147_483_647,
        PType::I64 => 9_223_372_036_854_775_807,
    }
}

// Whether each number of one integer type is one of another.
fn holds_all(from: PType, to: PType) -> bool
    ensures { result ≡ holds_all from to }
{
    to.holds(least(from)) && to.holds(greatest(from))
}

// Whether what may be null may be null there.
fn null_fits(from: Nullability, to: Nullability) -> bool
    ensures { result ≡ null_fits from to }
{
    match (from, to) {
        (Nullability::NonNullable, _) => true,
        (Nullability::Nullable, Nullability::Nullable) => true,
        (Nullability::Nullable, Nullability::NonNullable) => false,
    }
}

// Whether a kind fits another, whatever the parts are.
fn kinds_fit(from: DTypeKind, to: DTypeKind) -> bool
    ensures { result ≡ kinds_fit from to }
{
    match (from, to) {
        (DTypeKind::Bool, DTypeKind::Bool) => true,
        (DTypeKind::Primitive(p), DTypeKind::Primitive(q)) => holds_all(p, q),
        (DTypeKind::Utf8, DTypeKind::Utf8) => true,
        (DTypeKind::List, DTypeKind::List) => true,
        (DTypeKind::Struct, DTypeKind::Struct) => true,
        _ => false,
    }
}

/// Whether the values of a dtype can be read as values of another: null only where the other has it, a truth value as a
/// truth value, a text as a text, a number as one of a type that has all numbers of its own, a list by its elements, and
/// a struct, whose names are neither repeated nor reserved, by its fields' names. A field that the struct lacks has to be
/// nullable there, and one that the other does not name is left unread. Linear in the fields of both but for the look-up
/// of a name.
///
/// # Errors
/// `NoMemory`.
#[cycle(fits)]
#[tactic(auto, using(crate::proofs::Fitting::no_null, crate::proofs::Fitting::no_kind, crate::proofs::Fitting::bools_fit, crate::proofs::Fitting::ints_fit, crate::proofs::Fitting::texts_fit))]
pub fn fits_under(alloc: Global, from: &DType, to: &DType) -> Result<bool, NoMemory>
    ensures { IfOk result (λ b. b ≡ fits_under from.now to.now) }
{
    if !null_fits(from.nullability(), to.nullability()) {
        return Ok(false);
    }
    if !kinds_fit(from.kind(), to.kind()) {
        return Ok(false);
    }
    match to.kind() {
        DTypeKind::Bool => Ok(true),
        DTypeKind::Primitive(_) => Ok(true),
        DTypeKind::Utf8 => Ok(true),
        DTypeKind::List => elements_fit(alloc, from, to),
        DTypeKind::Struct => structs_fit(alloc, from, to),
    }
}

// Whether the elements fit, of lists.
#[cycle(fits)]
#[tactic(auto, using(crate::proofs::Fitting::element_smaller))]
fn elements_fit(alloc: Global, from: &DType, to: &DType) -> Result<bool, NoMemory>
    ensures { IfOk result (λ b. b ≡ elements_fit (element_of from.now) (element_of to.now)) }
{
    let Some(from) = from.as_list_element_opt() else {
        return Ok(false);
    };
    match to.as_list_element_opt() {
        Some(to) => fits_under(alloc, from, to),
        None => Ok(false),
    }
}

// Whether the fields fit, of structs.
#[cycle(fits)]
#[tactic(auto, using(crate::proofs::Fitting::fields_smaller))]
fn structs_fit(alloc: Global, from: &DType, to: &DType) -> Result<bool, NoMemory>
    ensures { IfOk result (λ b. b ≡ structs_fit (struct_fields_of from.now) (struct_fields_of to.now)) }
{
    let Some(from) = from.as_struct_fields_opt() else {
        return Ok(false);
    };
    match to.as_struct_fields_opt() {
        Some(to) => lawful_fit(alloc, from, to),
        None => Ok(false),
    }
}

// Whether the names of fields are neither repeated nor reserved, and the wanted fields are found among them.
#[cycle(fits)]
fn lawful_fit(alloc: Global, from: &StructFields, to: &StructFields) -> Result<bool, NoMemory>
    ensures { IfOk result (λ b. b ≡ (are_lawful (fields_of from.now) && fields_fit (fields_of from.now) (fields_of to.now))) }
{
    match names_fault(alloc, from.names())? {
        Some(_) => Ok(false),
        None => fields_fit(alloc, from, to),
    }
}

// Whether each of the wanted fields is one of these that fits, or absent and nullable.
#[cycle(fits)]
#[tactic(auto, using(crate::proofs::Fitting::field_smaller))]
fn fields_fit(alloc: Global, from: &StructFields, to: &StructFields) -> Result<bool, NoMemory>
    ensures { IfOk result (λ b. b ≡ fields_fit (fields_of from.now) (fields_of to.now)) }
{
    let names = to.names();
    for i in 0..names.len() {
        let name = &names[i];
        match to.field_by_index(i) {
            Some(wanted) => {
                if !field_fits(alloc, from, name, wanted)? {
                    return Ok(false);
                }
            }
            None => return Ok(true),
        }
    }
    Ok(true)
}

// Whether the field of this name fits, or is absent where the wanted dtype is nullable.
#[cycle(fits)]
fn field_fits(
    alloc: Global,
    from: &StructFields,
    name: &FieldName,
    wanted: &DType,
) -> Result<bool, NoMemory>
    ensures { IfOk result (λ b. b ≡ passes_or (is_nullable wanted.now) (λ d. fits_under d wanted.now)
        (dtype_named name.now (fields_of from.now))) }
{
    match from.field(name) {
        Some(found) => fits_under(alloc, found, wanted),
        None => Ok(wanted.is_nullable()),
    }
}
