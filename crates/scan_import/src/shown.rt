//! The dtype that lines of JSON show.
ghost use Rattle.std.specs.Prelude.{◌≡◌, IfOk, IfSome, length, map, true};
ghost use Rattle.std.specs.List.{list_all};
ghost use Rattle.serde_json.specs.View.{view};
ghost use Rattle.scan_values.specs.FieldLists.{names_of};
ghost use Rattle.scan_import.specs.JsonLines.{HasMembers, ShowsMembers};
ghost use Rattle.scan_import.specs.Meaning.{is_object_of};

use crate::fault::{ImportCause, ImportFault, cause_of_read};
use crate::json::{MOST_LEVELS, has_fields, is_name};
use crate::json_rows::values_of_lines;
use scan_values::{DType, DTypeFault, FieldName, NoMemory, Nullability, PType, StructFields};
use serde_json::Value as Json;
use std::alloc::Global;
use std::io::{Read, read_to_string};

/// What the values at a place of the rows have in common.
#[derive(Clone, Copy, Debug, PartialEq, Eq)]
enum Kind {
    /// There is none but null.
    Nothing,
    Truth,
    /// Numbers from 0 to the greatest i64.
    Count,
    /// Numbers of an i64, some below 0.
    Signed,
    /// Numbers of a u64, some above the greatest i64.
    Unsigned,
    Text,
    List,
    Struct,
}

/// The kind of a number, where it is whole and of 64 bits.
fn kind_of_number(json: &Json) -> Option<Kind> {
    if let Some(n) = json.as_i64() {
        return Some(if n < 0 { Kind::Signed } else { Kind::Count });
    }
    match json.as_u64() {
        Some(_) => Some(Kind::Unsigned),
        None => None,
    }
}

fn kind_of(json: &Json) -> Option<Kind> {
    match json {
        Json::Null => Some(Kind::Nothing),
        Json::Bool(_) => Some(Kind::Truth),
        Json::Number(_) => kind_of_number(json),
        Json::String(_) => Some(Kind::Text),
        Json::Array(_) => Some(Kind::List),
        Json::Object(_) => Some(Kind::Struct),
    }
}

/// The least kind that has the values of both, where there is one.
fn joined(a: Kind, b: Kind) -> Option<Kind> {
    if a == b {
        return Some(a);
    }
    match (a, b) {
        (Kind::Nothing, other) => Some(other),
        (other, Kind::Nothing) => Some(other),
        (Kind::Count | Kind::Signed, Kind::Count | Kind::Signed) => Some(Kind::Signed),
        (Kind::Count | Kind::Unsigned, Kind::Count | Kind::Unsigned) => Some(Kind::Unsigned),
        _ => None,
    }
}

/// What values of a kind and one more have in common.
fn kind_with(kind: Kind, json: &Json) -> Option<Kind> {
    match kind_of(json) {
        Some(other) => joined(kind, other),
        None => None,
    }
}

/// What the values at a place have in common. Each stands with the number of its line, and there is none where it is null
/// or lacks.
fn kind_in(values: &[(u64, Option<&Json>)]) -> Result<Kind, ImportFault> {
    let mut kind = Kind::Nothing;
    for one in values {
        if let Some(json) = one.1 {
            match kind_with(kind, json) {
                Some(other) => kind = other,
                None => return Err(ImportFault::new(one.0, ImportCause::Mixed)),
            }
        }
    }
    Ok(kind)
}

fn nullability_of(values: &[(u64, Option<&Json>)]) -> Nullability {
    for one in values {
        if one.1.is_none() {
            return Nullability::Nullable;
        }
    }
    Nullability::NonNullable
}

/// A value, but for null.
fn there<'a>(json: &'a Json) -> Option<&'a Json> {
    match json {
        Json::Null => None,
        _ => Some(json),
    }
}

fn push_items<'a>(
    line: u64,
    items: &'a [Json],
    out: &mut Vec<(u64, Option<&'a Json>)>,
) -> Result<(), NoMemory> {
    for item in items {
        out.push((line, there(item)))?;
    }
    Ok(())
}

/// The items of the lists among values.
fn items_in<'a>(
    alloc: Global,
    values: &[(u64, Option<&'a Json>)],
) -> Result<Vec<(u64, Option<&'a Json>)>, NoMemory> {
    let mut items = Vec::new(alloc);
    for one in values {
        if let Some(json) = one.1 {
            if let Some(list) = json.as_array() {
                push_items(one.0, list.as_slice(), &mut items)?;
            }
        }
    }
    Ok(items)
}

fn push_names(alloc: Global, json: &Json, names: &mut Vec<FieldName>) -> Result<(), NoMemory> {
    if let Some(members) = json.as_object() {
        for key in members.keys() {
            if !is_name(names.as_slice(), key.as_str()) {
                let name = FieldName::from_str(alloc, key.as_str())?;
                names.push(name)?;
            }
        }
    }
    Ok(())
}

/// The names of the members of the objects among values: those of an object by rising names, where none had them before.
fn names_in(alloc: Global, values: &[(u64, Option<&Json>)]) -> Result<Vec<FieldName>, NoMemory> {
    let mut names = Vec::new(alloc);
    for one in values {
        if let Some(json) = one.1 {
            push_names(alloc, json, &mut names)?;
        }
    }
    Ok(names)
}

fn member_of<'a>(json: &'a Json, name: &FieldName) -> Option<&'a Json> {
    match json.get(name.as_str()) {
        Some(member) => there(member),
        None => None,
    }
}

/// The members of a name of the objects among values.
fn members_in<'a>(
    alloc: Global,
    values: &[(u64, Option<&'a Json>)],
    name: &FieldName,
) -> Result<Vec<(u64, Option<&'a Json>)>, NoMemory> {
    let mut members = Vec::new(alloc);
    for one in values {
        if let Some(json) = one.1 {
            members.push((one.0, member_of(json, name)))?;
        }
    }
    Ok(members)
}

fn of_dtype(fault: DTypeFault) -> ImportFault {
    match fault {
        DTypeFault::NoMemory => ImportFault::new(0, ImportCause::NoMemory),
        DTypeFault::Deep => ImportFault::new(1, ImportCause::Deep),
    }
}

/// The dtype that values show, of no more than so many levels below this one.
#[cycle(showing)]
fn dtype_of_values(
    alloc: Global,
    values: &[(u64, Option<&Json>)],
    levels: u32,
) -> Result<DType, ImportFault> {
    let nullability = nullability_of(values);
    match kind_in(values)? {
        Kind::Truth => Ok(DType::bool(nullability)),
        Kind::Count | Kind::Signed => Ok(DType::primitive(PType::I64, nullability)),
        Kind::Unsigned => Ok(DType::primitive(PType::U64, nullability)),
        Kind::Nothing | Kind::Text => Ok(DType::utf8(nullability)),
        Kind::List => list_of_values(alloc, values, nullability, levels),
        Kind::Struct => struct_of_values(alloc, values, nullability, levels),
    }
}

#[cycle(showing)]
fn list_of_values(
    alloc: Global,
    values: &[(u64, Option<&Json>)],
    nullability: Nullability,
    levels: u32,
) -> Result<DType, ImportFault> {
    if levels == 0 {
        return Err(ImportFault::new(1, ImportCause::Deep));
    }
    let items = items_in(alloc, values)?;
    let element = dtype_of_values(alloc, items.as_slice(), levels - 1)?;
    match DType::list(alloc, element, nullability) {
        Ok(dtype) => Ok(dtype),
        Err(fault) => Err(of_dtype(fault)),
    }
}

#[cycle(showing)]
fn struct_of_values(
    alloc: Global,
    values: &[(u64, Option<&Json>)],
    nullability: Nullability,
    levels: u32,
) -> Result<DType, ImportFault> {
    if levels == 0 {
        return Err(ImportFault::new(1, ImportCause::Deep));
    }
    let names = names_in(alloc, values)?;
    let dtypes = dtypes_of_members(alloc, values, names.as_slice(), levels - 1)?;
    match DType::struct_(StructFields::new(names, dtypes), nullability) {
        Ok(dtype) => Ok(dtype),
        Err(fault) => Err(of_dtype(fault)),
    }
}

/// The dtypes that the members of these names show.
#[cycle(showing)]
fn dtypes_of_members(
    alloc: Global,
    values: &[(u64, Option<&Json>)],
    names: &[FieldName],
    levels: u32,
) -> Result<Vec<DType>, ImportFault>
    ensures { IfOk result (λ dtypes. length dtypes.items ≡ length names.now) }
{
    let mut dtypes = Vec::with_capacity(alloc, names.len())?;
    for name in names {
        let members = members_in(alloc, values, name)?;
        let dtype = dtype_of_values(alloc, members.as_slice(), levels)?;
        dtypes.push(dtype)?;
    }
    Ok(dtypes)
}

/// The rows, which have to be objects.
fn rows_in<'a>(
    alloc: Global,
    rows: &'a [(u64, Json)],
) -> Result<Vec<(u64, Option<&'a Json>)>, ImportFault> {
    let mut values = Vec::with_capacity(alloc, rows.len())?;
    for row in rows {
        if row.1.as_object().is_none() {
            return Err(ImportFault::new(row.0, ImportCause::NotObject));
        }
        values.push((row.0, Some(&row.1)))?;
    }
    Ok(values)
}

fn dtype_of_rows(alloc: Global, rows: &[(u64, Json)]) -> Result<DType, ImportFault> {
    if rows.is_empty() {
        return Err(ImportFault::new(1, ImportCause::NoRows));
    }
    let values = rows_in(alloc, rows)?;
    let dtype = dtype_of_values(alloc, values.as_slice(), MOST_LEVELS)?;
    match dtype.names_fault(alloc)? {
        None => Ok(dtype),
        Some(_) => Err(ImportFault::new(1, ImportCause::Name)),
    }
}

fn have_fields(fields: &StructFields, rows: &[(u64, Json)]) -> bool
    ensures { result ≡ list_all (λ r. is_object_of (names_of fields.now) (view r.1)) rows.now }
{
    rows.iter().all(|row| has_fields(fields, &row.1))
}

/// Whether a dtype has a field for each member of the rows.
fn has_members(dtype: &DType, rows: &[(u64, Json)]) -> bool
    ensures { result ≡ true → HasMembers dtype.now (map (λ r. view r.1) rows.now) }
{
    match dtype.as_struct_fields_opt() {
        Some(fields) => have_fields(fields, rows),
        None => false,
    }
}

/// The dtype that lines of JSON show, member by member: truth values, numbers of an i64 or of a u64, texts, lists of what
/// their items show together, and structs of what their members show; nullable where a value is null or lacks. What has
/// no value but null is a text. The fields are the members of the first row by rising names, and behind them those that
/// come later.
///
/// # Errors
/// The first line that is no JSON object, or has a value that no dtype has together with those before it; and a name
/// that is reserved. The text and all its values are held in memory.
pub fn dtype_of_json<R: Read + Drop>(alloc: Global, input: R) -> Result<DType, ImportFault>
    ensures { IfOk result (λ d. IfSome (R.remaining input) (λ text. ShowsMembers text d)) }
{
    let text = match read_to_string(alloc, input) {
        Ok(text) => text,
        Err(fault) => return Err(ImportFault::new(0, cause_of_read(&fault))),
    };
    let rows = values_of_lines(alloc, text.as_str())?;
    let dtype = dtype_of_rows(alloc, rows.as_slice())?;
    if !has_members(&dtype, rows.as_slice()) {
        return Err(ImportFault::new(0, ImportCause::Key));
    }
    Ok(dtype)
}
