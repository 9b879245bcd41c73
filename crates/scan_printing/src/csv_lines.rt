//! The rows of a scan as CSV: a line of names first, and a cell for each field, without text for null, and JSON for a list
//! or a struct.
use scan_multi::ScanChunk;
use scan_run::push_value;
use scan_values::{DType, NoMemory, StructFields, Value};
use std::alloc::Global;

/// Whether a cell needs quotes.
fn needs_quotes(cell: &[u8]) -> bool {
    cell.iter()
        .any(|b| *b == b',' || *b == b'"' || *b == b'\n' || *b == b'\r')
}

/// Appends a cell, in quotes where it needs them.
fn push_cell(cell: &[u8], out: &mut Vec<u8>) -> Result<(), NoMemory> {
    if !needs_quotes(cell) {
        out.extend_from_slice(cell)?;
        return Ok(());
    }
    out.push(b'"')?;
    for b in cell {
        if *b == b'"' {
            out.push(b'"')?;
        }
        out.push(*b)?;
    }
    out.push(b'"')?;
    Ok(())
}

/// Appends the cell of a value: nothing for null, a text as it is, and JSON for the rest.
fn push_cell_of(
    alloc: Global,
    value: &Value,
    dtype: &DType,
    out: &mut Vec<u8>,
) -> Result<(), NoMemory> {
    match value {
        Value::Null => Ok(()),
        Value::Text(text) => push_cell(text.as_str().as_bytes(), out),
        _ => {
            let mut cell = Vec::new(alloc);
            push_value(value, dtype, &mut cell)?;
            push_cell(cell.as_slice(), out)
        }
    }
}

/// Appends the cells of a struct.
fn push_cells(
    alloc: Global,
    values: &[Value],
    fields: &StructFields,
    out: &mut Vec<u8>,
) -> Result<(), NoMemory> {
    for (i, value) in values.iter().enumerate() {
        if i > 0 {
            out.push(b',')?;
        }
        if let Some(dtype) = fields.field_by_index(i) {
            push_cell_of(alloc, value, dtype, out)?;
        }
    }
    Ok(())
}

/// Appends the line of a row: the cells of a struct's fields, or one cell.
fn push_row(
    alloc: Global,
    value: &Value,
    dtype: &DType,
    out: &mut Vec<u8>,
) -> Result<(), NoMemory> {
    match (value, dtype.as_struct_fields_opt()) {
        (Value::Struct(values), Some(fields)) => {
            push_cells(alloc, values.as_slice(), fields, out)?
        }
        (value, _) => push_cell_of(alloc, value, dtype, out)?,
    }
    out.push(b'\n')?;
    Ok(())
}

/// Appends the line of the names of a dtype's fields, as CSV; the word `value` where it is no struct.
pub fn push_names(dtype: &DType, out: &mut Vec<u8>) -> Result<(), NoMemory> {
    match dtype.as_struct_fields_opt() {
        Some(fields) => {
            for (i, name) in fields.names().iter().enumerate() {
                if i > 0 {
                    out.push(b',')?;
                }
                push_cell(name.as_str().as_bytes(), out)?;
            }
        }
        None => out.extend_from_slice(b"value")?,
    }
    out.push(b'\n')?;
    Ok(())
}

/// Appends the lines of a chunk.
pub(crate) fn push_chunk(
    alloc: Global,
    chunk: &ScanChunk,
    out: &mut Vec<u8>,
) -> Result<(), NoMemory> {
    for value in chunk.values.as_slice() {
        push_row(alloc, value, chunk.values.dtype(), out)?;
    }
    Ok(())
}
