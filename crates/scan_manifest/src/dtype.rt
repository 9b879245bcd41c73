//! Dtypes, read from JSON.
ghost use Rattle.std.specs.Prelude.{◌≡◌, ◌≢◌, ◌∷◌, ◌*◌, ◌+◌, option_and_then, Some, None, codes};
ghost use Rattle.serde_json.specs.View.{view, items_view};
ghost use Rattle.serde_json.specs.Find.{get, as_array};
ghost use Rattle.scan_values.specs.DataType.{depth_of, list_type, struct_type, fields_of};
ghost use Rattle.scan_manifest.specs.Parse.{IsParse, IsParseBy};
ghost use Rattle.scan_manifest.specs.Json.{each};
ghost use Rattle.scan_manifest.specs.DTypes.{ptype_named, nullable_ptype_named, integer_from, scalar_named, nullability_in, shallow, field_in, list_dtype, struct_dtype, nested_dtype, dtype_within, dtype_in};

use crate::json::{
    Form, ParseFault, has_form, member, read_flag, read_items, read_pair, read_text,
};
use scan_values::{DType, DTypeFault, FieldName, Nullability, PType, StructFields};
use serde_json::Value;
use std::alloc::Global;

/// No JSON value that is read nests deeper.
pub(crate) const MOST_LEVELS: u32 = 128;

/// An integer type by its name.
pub(crate) fn ptype_named(name: &str) -> Option<PType>
    ensures { result ≡ ptype_named name.now }
{
    match name {
        "u8" => Some(PType::U8),
        "u16" => Some(PType::U16),
        "u32" => Some(PType::U32),
        "u64" => Some(PType::U64),
        "i8" => Some(PType::I8),
        "i16" => Some(PType::I16),
        "i32" => Some(PType::I32),
        "i64" => Some(PType::I64),
        _ => None,
    }
}

fn nullable_ptype_named(name: &str) -> Option<PType>
    ensures { result ≡ nullable_ptype_named name.now }
{
    match name {
        "u8?" => Some(PType::U8),
        "u16?" => Some(PType::U16),
        "u32?" => Some(PType::U32),
        "u64?" => Some(PType::U64),
        "i8?" => Some(PType::I8),
        "i16?" => Some(PType::I16),
        "i32?" => Some(PType::I32),
        "i64?" => Some(PType::I64),
        _ => None,
    }
}

fn integer_named(name: &str) -> Option<DType>
    ensures { result ≡ integer_from (ptype_named name.now) (nullable_ptype_named name.now) }
{
    match ptype_named(name) {
        Some(p) => Some(DType::primitive(p, Nullability::NonNullable)),
        None => match nullable_ptype_named(name) {
            Some(p) => Some(DType::primitive(p, Nullability::Nullable)),
            None => None,
        },
    }
}

fn scalar_named(name: &str) -> Option<DType>
    ensures { result ≡ scalar_named name.now }
{
    match name {
        "bool" => Some(DType::bool(Nullability::NonNullable)),
        "bool?" => Some(DType::bool(Nullability::Nullable)),
        "utf8" => Some(DType::utf8(Nullability::NonNullable)),
        "utf8?" => Some(DType::utf8(Nullability::Nullable)),
        _ => integer_named(name),
    }
}

/// Whether a dtype or a pack is nullable.
pub(crate) fn read_nullability(json: &Value) -> Result<Nullability, ParseFault>
    ensures { IsParse (nullability_in (view json.now)) result }
{
    if read_flag(json, "nullable", false)? {
        Ok(Nullability::Nullable)
    } else {
        Ok(Nullability::NonNullable)
    }
}

fn shallow_list(alloc: Global, element: DType, n: Nullability) -> Result<DType, ParseFault>
    ensures { IsParse (shallow (list_type element n)) result }
{
    match DType::list(alloc, element, n) {
        Ok(dtype) => Ok(dtype),
        Err(DTypeFault::Deep) => Err(ParseFault::Bad),
        Err(DTypeFault::NoMemory) => Err(ParseFault::NoMemory),
    }
}

fn shallow_struct(fields: StructFields, n: Nullability) -> Result<DType, ParseFault>
    ensures { IsParse (shallow (struct_type (fields_of fields) n)) result }
{
    match DType::struct_(fields, n) {
        Ok(dtype) => Ok(dtype),
        Err(DTypeFault::Deep) => Err(ParseFault::Bad),
        Err(DTypeFault::NoMemory) => Err(ParseFault::NoMemory),
    }
}

/// A dtype that nests no deeper than so many levels.
#[cycle(dtypes)]
fn read_dtype_within(alloc: Global, json: &Value, levels: u32) -> Result<DType, ParseFault>
    ensures { IsParse (dtype_within levels (view json.now)) result }
{
    if levels == 0 {
        return Err(ParseFault::Bad);
    }
    match json.as_str() {
        Some(text) => match scalar_named(text) {
            Some(dtype) => Ok(dtype),
            None => Err(ParseFault::Bad),
        },
        None => read_nested(alloc, json, levels - 1),
    }
}

#[cycle(dtypes)]
fn read_nested(alloc: Global, json: &Value, levels: u32) -> Result<DType, ParseFault>
    ensures { IsParse (nested_dtype (dtype_within levels) (view json.now) (get (codes "list") (view json.now))) result }
{
    match json.get("list") {
        Some(element) => read_list(alloc, json, element, levels),
        None => read_struct(alloc, json, member(json, "struct")?, levels),
    }
}

#[cycle(dtypes)]
fn read_list(alloc: Global, json: &Value, element: &Value, levels: u32) -> Result<DType, ParseFault>
    ensures { IsParse (list_dtype (dtype_within levels) (view json.now) (view element.now)) result }
{
    if !has_form(Form::ListDType, json) {
        return Err(ParseFault::Bad);
    }
    let element = read_dtype_within(alloc, element, levels)?;
    let n = read_nullability(json)?;
    shallow_list(alloc, element, n)
}

#[cycle(dtypes)]
fn read_struct(
    alloc: Global,
    json: &Value,
    fields: &Value,
    levels: u32,
) -> Result<DType, ParseFault>
    ensures { IsParse (struct_dtype (dtype_within levels) (view json.now) (view fields.now)) result }
{
    if !has_form(Form::StructDType, json) {
        return Err(ParseFault::Bad);
    }
    let fields = read_fields(alloc, read_items(fields)?, levels)?;
    let n = read_nullability(json)?;
    shallow_struct(fields, n)
}

#[cycle(dtypes)]
fn read_fields(alloc: Global, list: &[Value], levels: u32) -> Result<StructFields, ParseFault>
    ensures { IsParse (each (field_in (dtype_within levels)) (items_view list.now)) result }
{
    let mut names = Vec::new(alloc);
    let mut dtypes = Vec::new(alloc);
    for json in list {
        let (name, dtype) = read_field(alloc, json, levels)?;
        names.push(name)?;
        dtypes.push(dtype)?;
    }
    Ok(StructFields::new(names, dtypes))
}

#[cycle(dtypes)]
fn read_field(alloc: Global, json: &Value, levels: u32) -> Result<(FieldName, DType), ParseFault>
    ensures { IsParse (field_in (dtype_within levels) (view json.now)) result }
{
    let (name, dtype) = read_pair(json)?;
    let name = FieldName::new(String::from_str(alloc, read_text(name)?)?);
    let dtype = read_dtype_within(alloc, dtype, levels)?;
    Ok((name, dtype))
}

/// A dtype.
pub(crate) fn read_dtype(alloc: Global, json: &Value) -> Result<DType, ParseFault>
    ensures { IsParse (dtype_in (view json.now)) result }
{
    read_dtype_within(alloc, json, MOST_LEVELS)
}
