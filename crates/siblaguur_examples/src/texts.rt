//! Texts that are read, and what each says: the blocks of `texts.txt`.
use crate::manifests::told_manifest;
use scan_conditions::{dtype_text, read_condition, read_dtype, read_selection};
use scan_expr::Expression;
use scan_import::{ImportFault, dtype_of_csv, dtype_of_json, rows_of_csv, rows_of_json};
use scan_values::{Array, DType, NoMemory};
use std::alloc::Global;
use std::fs::{self, Files};
use std::io::{self, Cursor, Error, ErrorKind};

/// The dtype of the rows that conditions and selections are over.
const ROWS: &str =
    "{a: i64, n: u8?, s: utf8, b: bool?, c: {d: u8, \"two words\": {e: i32}}, t: [i64], and: bool}";

/// Reads the texts of each block, and prints a line of it.
pub(crate) fn read_all(
    rt: &(impl Files + Print + Alloc<A = Global>),
    alloc: Global,
) -> io::Result<()> {
    let text = fs::read_to_string(rt, "texts.txt")?;
    for block in text.trim_ascii_end().split("\n\n") {
        if !block.starts_with("#") {
            read_block(rt, alloc, block)?;
        }
    }
    Ok(())
}

/// Reads the texts of a block, whose first line has what is asked of them and where in a text they stand, and prints that line
/// and whether all say what is wanted.
fn read_block(
    rt: &(impl Files + Print + Alloc<A = Global>),
    alloc: Global,
    block: &str,
) -> io::Result<()> {
    let (head, lines) = block.split_once('\n').unwrap_or((block, ""));
    let (kind, around) = head.split_once("; ").unwrap_or((head, "@"));
    let mut is_right = true;
    for line in lines.lines() {
        match holds(alloc, kind, around, line) {
            Ok(true) => {}
            Ok(false) => {
                println!(rt; "{line}")?;
                is_right = false;
            }
            Err(NoMemory) => return Err(Error::from(ErrorKind::OutOfMemory)),
        }
    }
    let verdict = if is_right { "as wanted" } else { "WRONG" };
    println!(rt; "{verdict}: {head}")
}

/// Whether the text of a line says what is wanted, or says something, and the same as another.
fn holds(alloc: Global, kind: &str, around: &str, line: &str) -> Result<bool, NoMemory> {
    let Some((text, wanted)) = line.split_once(" -> ") else {
        return Ok(false);
    };
    let found = told(alloc, kind, around, text)?;
    match wanted.strip_prefix("same as ") {
        Some(other) => {
            let other = told(alloc, kind, around, other)?;
            Ok(found.as_str() == other.as_str() && !found.starts_with("refused"))
        }
        None => Ok(found.as_str() == wanted),
    }
}

/// What a text says, in its place in another.
fn told(alloc: Global, kind: &str, around: &str, text: &str) -> Result<String, NoMemory> {
    let (front, back) = around.split_once('@').unwrap_or(("", ""));
    let text = repeated(alloc, text)?;
    let text = format!(in alloc; "{front}{text}{back}")?;
    match kind {
        "condition" => told_condition(alloc, text.as_str(), false),
        "selection" => told_condition(alloc, text.as_str(), true),
        "dtype of words" => told_dtype(alloc, text.as_str()),
        "rows of csv" => told_rows(alloc, text.as_str(), true),
        "rows of json" => told_rows(alloc, text.as_str(), false),
        "columns of csv" => told_columns(alloc, text.as_str(), true),
        "columns of json" => told_columns(alloc, text.as_str(), false),
        _ => told_manifest(alloc, kind, text.as_str()),
    }
}

/// A text in which `«TEXT*N»` stands for so many times the text.
fn repeated(alloc: Global, text: &str) -> Result<String, NoMemory> {
    let mut whole = String::new(alloc);
    for part in text.split('«') {
        match part.split_once('»') {
            Some((short, rest)) => {
                push_times(alloc, short, &mut whole)?;
                whole.push_str(rest)?;
            }
            None => whole.push_str(part)?,
        }
    }
    Ok(whole)
}

fn push_times(alloc: Global, short: &str, whole: &mut String) -> Result<(), NoMemory> {
    if let Some((text, count)) = short.split_once('*') {
        if let Ok(count) = count.parse::<usize>() {
            whole.push_str(text.repeat(alloc, count)?.as_str())?;
        }
    }
    Ok(())
}

/// The expression that a condition or a selection says over the rows, once it is bound.
fn told_condition(alloc: Global, text: &str, is_selection: bool) -> Result<String, NoMemory> {
    let Ok(rows) = read_dtype(alloc, ROWS) else {
        return Ok(String::new(alloc));
    };
    let read = if is_selection {
        read_selection(alloc, text, &rows)
    } else {
        read_condition(alloc, text, &rows)
    };
    match read {
        Ok(expression) => told_bound(alloc, &expression, &rows),
        Err(fault) => Ok(format!(in alloc; "refused {fault}")?),
    }
}

fn told_bound(alloc: Global, expression: &Expression, rows: &DType) -> Result<String, NoMemory> {
    match expression.bind(alloc, rows) {
        Ok(bound) => Ok(bound.to_string(alloc)?),
        Err(fault) => Ok(format!(in alloc; "refused {fault}")?),
    }
}

/// The words of the dtype that words say.
fn told_dtype(alloc: Global, text: &str) -> Result<String, NoMemory> {
    match read_dtype(alloc, text) {
        Ok(dtype) => dtype_text(alloc, &dtype),
        Err(fault) => Ok(format!(in alloc; "refused {fault}")?),
    }
}

/// The rows of a CSV, or of lines of JSON: `DTYPE | TEXT`, where `\n` is the end of a line.
fn told_rows(alloc: Global, text: &str, is_csv: bool) -> Result<String, NoMemory> {
    let (dtype, text) = text.split_once(" | ").unwrap_or(("", text));
    let text = text.replace(alloc, "\\n", "\n")?;
    let Ok(dtype) = read_dtype(alloc, dtype) else {
        return Ok(String::new(alloc));
    };
    let input = Cursor::new(text.as_bytes());
    if is_csv {
        told_array(alloc, rows_of_csv(alloc, input, &dtype))
    } else {
        told_array(alloc, rows_of_json(alloc, input, &dtype))
    }
}

fn told_array(alloc: Global, rows: Result<Array, ImportFault>) -> Result<String, NoMemory> {
    let rows = match rows {
        Ok(rows) => rows,
        Err(fault) => return Ok(format!(in alloc; "refused {fault}")?),
    };
    let mut text = String::new(alloc);
    for row in rows.as_slice() {
        text.push_str(format!(in alloc; "{row};")?.as_str())?;
    }
    Ok(text)
}

/// The dtype that the cells of a CSV, or lines of JSON, show.
fn told_columns(alloc: Global, text: &str, is_csv: bool) -> Result<String, NoMemory> {
    let text = text.replace(alloc, "\\n", "\n")?;
    let input = Cursor::new(text.as_bytes());
    let shown = if is_csv {
        dtype_of_csv(alloc, input)
    } else {
        dtype_of_json(alloc, input)
    };
    match shown {
        Ok(dtype) => dtype_text(alloc, &dtype),
        Err(fault) => Ok(format!(in alloc; "refused {fault}")?),
    }
}
