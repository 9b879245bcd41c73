//! What a cell of a CSV means as a value of a dtype.
ghost use Rattle.std.specs.Prelude.{◌≡◌, IfOk, option_map, option_and_then};
ghost use Rattle.serde_json.specs.Read.{read};
ghost use Rattle.scan_values.specs.Values.{val_of};
ghost use Rattle.scan_import.specs.Cells.{cell_in, number_in, truth_in};
ghost use Rattle.scan_import.specs.Meaning.{int_in, value_in};

use crate::json::{MOST_LEVELS, bool_of, integer_of, json_value, text_of};
use scan_values::{DType, DTypeKind, NoMemory, Value};
use serde_json::Value as Json;
use std::alloc::Global;

/// What the text of a cell means as a value of a dtype: nothing is null where the dtype has it; else a text is itself, a
/// truth value `true` or `false`, a number its decimal digits, and a list or a struct its JSON. None where it means none.
pub(crate) fn cell_value(
    alloc: Global,
    dtype: &DType,
    cell: &str,
) -> Result<Option<Value>, NoMemory>
    ensures { IfOk result (λ o. option_map val_of o ≡ cell_in dtype.now cell.now) }
{
    if cell.is_empty() & dtype.is_nullable() {
        return Ok(Some(Value::Null));
    }
    match dtype.kind() {
        DTypeKind::Utf8 => text_of(alloc, dtype, cell),
        DTypeKind::Bool => match truth_of(cell) {
            Some(value) => Ok(bool_of(dtype, value)),
            None => Ok(None),
        },
        DTypeKind::Primitive(_) => Ok(digits_of(dtype, cell)),
        DTypeKind::List => nested_of(alloc, dtype, cell),
        DTypeKind::Struct => nested_of(alloc, dtype, cell),
    }
}

fn truth_of(cell: &str) -> Option<bool>
    ensures { result ≡ truth_in cell.now }
{
    match cell {
        "true" => Some(true),
        "false" => Some(false),
        _ => None,
    }
}

fn digits_of(dtype: &DType, cell: &str) -> Option<Value>
    ensures { option_map val_of result ≡ option_and_then (int_in dtype.now) (number_in cell.now) }
{
    match cell.parse::<i128>() {
        Ok(number) => integer_of(dtype, number),
        Err(_) => None,
    }
}

fn nested_of(alloc: Global, dtype: &DType, cell: &str) -> Result<Option<Value>, NoMemory>
    ensures { IfOk result (λ o. option_map val_of o ≡ option_and_then (value_in dtype.now) (read cell.now)) }
{
    match Json::from_str(alloc, cell) {
        Ok(json) => json_value(alloc, dtype, &json, MOST_LEVELS),
        Err(fault) => {
            if fault.is_memory() {
                Err(NoMemory)
            } else {
                Ok(None)
            }
        }
    }
}
