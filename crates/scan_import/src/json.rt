//! What a JSON value means as a value of a dtype.
ghost use Rattle.std.specs.Prelude.{◌≡◌, ◌<◌, IfOk, Some, length, map, option_map, option_and_then, slice_get, string_bytes};
ghost use Rattle.std.specs.BTreeMap.{keys};
ghost use Rattle.std.specs.List.{list_all, list_any};
ghost use Rattle.std.specs.Str.{bytes_eq};
ghost use Rattle.serde_json.specs.Find.{get, as_number, as_integer};
ghost use Rattle.serde_json.specs.View.{view, items_view};
ghost use Rattle.scan_values.specs.FieldLists.{names_of, dtypes_of};
ghost use Rattle.scan_values.specs.Kinds.{element_of, struct_fields_of};
ghost use Rattle.scan_values.specs.Values.{val_of};
ghost use Rattle.scan_import.specs.Lists.{AreMeant};
ghost use Rattle.scan_import.specs.Meaning.{bool_in, int_in, is_object_of, item_list, list_from, member_in, members_in, null_in, row_from, struct_from, text_in, value_within};

use crate::fault::ValuesFault;
use scan_values::{DType, FieldName, NoMemory, StructFields, Text, Value, Values};
use serde_json::{Map, Value as Json};
use std::alloc::Global;

/// Null, where a dtype has it.
pub(crate) fn null_of(dtype: &DType) -> Option<Value>
    ensures { option_map val_of result ≡ null_in dtype.now }
{
    if dtype.is_nullable() {
        Some(Value::Null)
    } else {
        None
    }
}

/// A truth value, where a dtype has it.
pub(crate) fn bool_of(dtype: &DType, value: bool) -> Option<Value>
    ensures { option_map val_of result ≡ bool_in dtype.now value }
{
    if dtype.is_bool() {
        Some(Value::Bool(value))
    } else {
        None
    }
}

/// A number, where a dtype has it.
pub(crate) fn integer_of(dtype: &DType, number: i128) -> Option<Value>
    ensures { option_map val_of result ≡ int_in dtype.now number }
{
    if dtype.holds(number) {
        Some(Value::Int(number))
    } else {
        None
    }
}

/// The whole number that a JSON value is.
fn number_in(json: &Json) -> Option<i128>
    ensures { result ≡ option_and_then as_integer (as_number (view json.now)) }
{
    if let Some(n) = json.as_u64() {
        return Some(n as i128);
    }
    match json.as_i64() {
        Some(n) => Some(n as i128),
        None => None,
    }
}

fn number_of(dtype: &DType, json: &Json) -> Option<Value>
    ensures { option_map val_of result
        ≡ option_and_then (int_in dtype.now) (option_and_then as_integer (as_number (view json.now))) }
{
    match number_in(json) {
        Some(number) => integer_of(dtype, number),
        None => None,
    }
}

/// A text, where a dtype has it.
pub(crate) fn text_of(alloc: Global, dtype: &DType, text: &str) -> Result<Option<Value>, NoMemory>
    ensures { IfOk result (λ o. option_map val_of o ≡ text_in dtype.now text.now) }
{
    if !dtype.is_utf8() {
        return Ok(None);
    }
    let text = String::from_str(alloc, text)?;
    Ok(Some(Value::Text(Text::new(text))))
}

/// How deep a dtype nests at most.
pub(crate) const MOST_LEVELS: u32 = 66;

/// What a JSON value means as a value of a dtype of no more than so many levels: null, a truth value, a whole number, a
/// text, a list of what its items mean, and a struct of what its members mean, where one that lacks is null. None where
/// it means none.
#[cycle(meaning)]
pub(crate) fn json_value(
    alloc: Global,
    dtype: &DType,
    json: &Json,
    levels: u32,
) -> Result<Option<Value>, NoMemory>
    ensures { IfOk result (λ o. option_map val_of o ≡ value_within levels dtype.now (view json.now)) }
{
    if levels == 0 {
        return Ok(None);
    }
    match json {
        Json::Null => Ok(null_of(dtype)),
        Json::Bool(value) => Ok(bool_of(dtype, *value)),
        Json::Number(_) => Ok(number_of(dtype, json)),
        Json::String(text) => text_of(alloc, dtype, text.as_str()),
        Json::Array(items) => list_value(alloc, dtype, items.as_slice(), levels - 1),
        Json::Object(_) => struct_value(alloc, dtype, json, levels - 1),
    }
}

/// The list of what items mean, where the dtype has lists.
#[cycle(meaning)]
fn list_value(
    alloc: Global,
    dtype: &DType,
    items: &[Json],
    levels: u32,
) -> Result<Option<Value>, NoMemory>
    ensures { IfOk result (λ o. option_map val_of o
        ≡ list_from (value_within levels) (element_of dtype.now) (items_view items.now)) }
{
    let Some(element) = dtype.as_list_element_opt() else {
        return Ok(None);
    };
    match items_value(alloc, element, items, levels) {
        Ok(values) => Ok(Some(Value::List(Values::new(values)))),
        Err(ValuesFault::Nothing(_)) => Ok(None),
        Err(ValuesFault::NoMemory) => Err(NoMemory),
    }
}

/// What items mean, each as a value of a dtype.
#[cycle(meaning)]
fn items_value(
    alloc: Global,
    element: &DType,
    items: &[Json],
    levels: u32,
) -> Result<Vec<Value>, ValuesFault>
    ensures { AreMeant (map (λ j. value_within levels element.now (view j)) items.now) result }
{
    let mut values = Vec::with_capacity(alloc, items.len())?;
    for (i, item) in items.iter().enumerate() {
        let found = json_value(alloc, element, item, levels)?;
        match found {
            Some(value) => values.push(value)?,
            None => return Err(ValuesFault::Nothing(i)),
        }
    }
    Ok(values)
}

/// The struct of what members mean, where the dtype has structs.
#[cycle(meaning)]
fn struct_value(
    alloc: Global,
    dtype: &DType,
    json: &Json,
    levels: u32,
) -> Result<Option<Value>, NoMemory>
    ensures { IfOk result (λ o. option_map val_of o
        ≡ struct_from (value_within levels) (struct_fields_of dtype.now) (view json.now)) }
{
    let Some(fields) = dtype.as_struct_fields_opt() else {
        return Ok(None);
    };
    if !has_fields(fields, json) {
        return Ok(None);
    }
    match members_value(alloc, fields, json, levels) {
        Ok(values) => Ok(Some(Value::Struct(Values::new(values)))),
        Err(ValuesFault::Nothing(_)) => Ok(None),
        Err(ValuesFault::NoMemory) => Err(NoMemory),
    }
}

/// What the member of each field means.
#[cycle(meaning)]
pub(crate) fn members_value(
    alloc: Global,
    fields: &StructFields,
    json: &Json,
    levels: u32,
) -> Result<Vec<Value>, ValuesFault>
    ensures { AreMeant (members_in (value_within levels) fields.now (view json.now)) result }
{
    let mut values = Vec::with_capacity(alloc, fields.nfields())?;
    for i in 0..fields.nfields() {
        let name = name_at(fields, i);
        let dtype = dtype_at(fields, i);
        let found = member_value(alloc, name, dtype, json, levels)?;
        match found {
            Some(value) => values.push(value)?,
            None => return Err(ValuesFault::Nothing(i)),
        }
    }
    Ok(values)
}

/// What the member of a name means, or null where it lacks.
#[cycle(meaning)]
fn member_value(
    alloc: Global,
    name: &FieldName,
    dtype: &DType,
    json: &Json,
    levels: u32,
) -> Result<Option<Value>, NoMemory>
    ensures { IfOk result (λ o. option_map val_of o
        ≡ member_in (value_within levels) dtype.now (get name.now (view json.now))) }
{
    match json.get(name.as_str()) {
        Some(member) => json_value(alloc, dtype, member, levels),
        None => Ok(null_of(dtype)),
    }
}

fn name_at(fields: &StructFields, i: usize) -> &FieldName
    requires { i < length fields.now }
    ensures { Some result.now ≡ slice_get (names_of fields.now) i }
{
    match fields.field_name(i) {
        Some(name) => name,
        None => unreachable!(),
    }
}

/// The dtype of the field at a place.
pub(crate) fn dtype_at(fields: &StructFields, i: usize) -> &DType
    requires { i < length fields.now }
    ensures { Some result.now ≡ slice_get (dtypes_of fields.now) i }
{
    match fields.field_by_index(i) {
        Some(dtype) => dtype,
        None => unreachable!(),
    }
}

/// Whether a name is among these.
pub(crate) fn is_name(names: &[FieldName], key: &str) -> bool
    ensures { result ≡ list_any (λ n. bytes_eq n key.now) names.now }
{
    names.iter().any(|name| name.as_str() == key)
}

fn are_names(names: &[FieldName], members: &Map<String, Json>) -> bool
    ensures { result ≡ list_all (λ k. list_any (λ n. bytes_eq n (string_bytes k)) names.now) (keys members.now) }
{
    members.keys().all(|key| is_name(names, key.as_str()))
}

/// Whether a value is an object whose members have names of fields.
pub(crate) fn has_fields(fields: &StructFields, json: &Json) -> bool
    ensures { result ≡ is_object_of (names_of fields.now) (view json.now) }
{
    match json.as_object() {
        Some(members) => are_names(fields.names(), members),
        None => false,
    }
}
