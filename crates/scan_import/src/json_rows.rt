//! Rows of lines of JSON.
ghost use Rattle.std.specs.Prelude.{◌≡◌, ◌==◌, IfOk, IfSome, Some, length, map, option_and_then};
ghost use Rattle.std.specs.Str as str_spec;
ghost use Rattle.serde_json.specs.Read.{read};
ghost use Rattle.serde_json.specs.View.{view};
ghost use Rattle.scan_values.specs.Values.{val_of};
ghost use Rattle.scan_import.specs.JsonLines.{AreLinesOf, AreValuesOf, IsJsonLinesOf, is_blank, line_in};
ghost use Rattle.scan_import.specs.Lists.{known};
ghost use Rattle.scan_import.specs.Meaning.{row_from, value_within, most_levels};

use crate::csv_rows::array_of;
use crate::fault::{ImportCause, ImportFault, ValuesFault, cause_of_read};
use crate::json::{MOST_LEVELS, has_fields, members_value};
use scan_values::{Array, DType, StructFields, Value, Values};
use serde_json::Value as Json;
use std::alloc::Global;
use std::io::{Read, read_to_string};

/// The JSON value of a line.
fn json_of(alloc: Global, text: &str) -> Result<Json, ImportCause>
    ensures { IfOk result (λ json. read text.now ≡ Some (view json)) }
{
    match Json::from_str(alloc, text) {
        Ok(json) => Ok(json),
        Err(fault) => {
            if fault.is_memory() {
                Err(ImportCause::NoMemory)
            } else {
                Err(ImportCause::NotJson)
            }
        }
    }
}

/// The row that a JSON value is.
fn row_of(alloc: Global, fields: &StructFields, json: &Json) -> Result<Value, ImportCause>
    ensures { IfOk result (λ v. row_from (value_within most_levels) fields.now (view json.now) ≡ known v) }
{
    if json.as_object().is_none() {
        return Err(ImportCause::NotObject);
    }
    if !has_fields(fields, json) {
        return Err(ImportCause::Key);
    }
    match members_value(alloc, fields, json, MOST_LEVELS) {
        Ok(values) => Ok(Value::Struct(Values::new(values))),
        Err(ValuesFault::Nothing(column)) => Err(ImportCause::NotOfType { column }),
        Err(ValuesFault::NoMemory) => Err(ImportCause::NoMemory),
    }
}

/// The row of a line.
fn row_of_line(alloc: Global, fields: &StructFields, text: &str) -> Result<Value, ImportCause>
    ensures { IfOk result (λ v. line_in fields.now text.now ≡ known v) }
{
    let json = json_of(alloc, text)?;
    row_of(alloc, fields, &json)
}

fn is_blank(line: &str) -> bool
    ensures { result ≡ is_blank line.now }
{
    line.trim().is_empty()
}

/// The JSON values of the lines of a text that are not blank, each with the number of its line.
pub(crate) fn values_of_lines(alloc: Global, text: &str) -> Result<Vec<(u64, Json)>, ImportFault>
    ensures { IfOk result (λ rows. AreValuesOf text.now (map (λ r. view r.1) rows.items)) }
{
    let mut rows = Vec::new(alloc);
    let mut number: u64 = 0;
    for line in text.lines() {
        number = number.saturating_add(1);
        if is_blank(line) {
            continue;
        }
        match json_of(alloc, line) {
            Ok(json) => rows.push((number, json))?,
            Err(cause) => return Err(ImportFault::new(number, cause)),
        }
    }
    Ok(rows)
}

/// The rows of the lines of a text.
fn rows_of_lines(
    alloc: Global,
    fields: &StructFields,
    text: &str,
) -> Result<Vec<Value>, ImportFault>
    ensures { IfOk result (λ rows. AreLinesOf fields.now text.now (map val_of rows.items)) }
{
    let mut rows = Vec::new(alloc);
    let mut number: u64 = 0;
    for line in text.lines() {
        number = number.saturating_add(1);
        if is_blank(line) {
            continue;
        }
        match row_of_line(alloc, fields, line) {
            Ok(row) => rows.push(row)?,
            Err(cause) => return Err(ImportFault::new(number, cause)),
        }
    }
    Ok(rows)
}

/// The rows of lines of JSON as an array of a dtype of structs: an object a line, whose members are fields. A member that
/// lacks is null where its field is nullable. Lines of spaces alone are passed over.
///
/// # Errors
/// The first line that gives no row, and why. The text and all rows are held in memory.
pub fn rows_of_json<R: Read + Drop>(
    alloc: Global,
    input: R,
    dtype: &DType,
) -> Result<Array, ImportFault>
    ensures dtype { IfOk result (λ rows. rows.dtype ≡ dtype.now) }
    ensures rows { IfOk result (λ rows. IfSome (R.remaining input) (λ text. IsJsonLinesOf dtype.now text rows.items)) }
{
    let Some(fields) = dtype.as_struct_fields_opt() else {
        return Err(ImportFault::new(0, ImportCause::NotStruct));
    };
    let text = match read_to_string(alloc, input) {
        Ok(text) => text,
        Err(fault) => return Err(ImportFault::new(0, cause_of_read(&fault))),
    };
    let rows = rows_of_lines(alloc, fields, text.as_str())?;
    let array = array_of(alloc, dtype, rows)?;
    Ok(array)
}
