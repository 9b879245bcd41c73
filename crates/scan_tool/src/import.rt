//! Files that are made of a CSV or of lines of JSON.
use scan_conditions::{dtype_text, read_dtype};
use scan_disk_writer::{NewFile, WriteFault, write_rows};
use scan_encode::WriteOptions;
use scan_import::{
    ImportCause, ImportFault, dtype_of_csv, dtype_of_json, rows_of_csv, rows_of_json,
};
use scan_jobs::{ImportJob, ToolFault};
use scan_printing::{Watch, tell_stage};
use scan_values::{Array, DType, NoMemory};
use std::alloc::Global;
use std::fs::{File, Files};

/// The input, opened anew.
fn open_input<R: Files<File = File>>(rt: &R, alloc: Global, path: &str) -> Result<File, ToolFault> {
    match File::open(rt, path) {
        Ok(file) => Ok(file),
        Err(_) => Err(ToolFault::Open {
            path: String::from_str(alloc, path)?,
        }),
    }
}

/// Why the input gives no rows, told with the name and the dtype of a column.
fn of_import(
    alloc: Global,
    path: &str,
    dtype: Option<&DType>,
    fault: ImportFault,
) -> Result<ToolFault, NoMemory> {
    if fault.cause == ImportCause::NoMemory {
        return Ok(ToolFault::NoMemory);
    }
    let path = String::from_str(alloc, path)?;
    if let (ImportCause::NotOfType { column }, Some(dtype)) = (fault.cause, dtype) {
        if let Some(fields) = dtype.as_struct_fields_opt() {
            if let (Some(name), Some(dtype)) = (
                fields.field_name(column),
                fields.field_by_index(column),
            ) {
                return Ok(ToolFault::Cell {
                    path,
                    line: fault.line,
                    column: String::from_str(alloc, name.as_str())?,
                    dtype: dtype_text(alloc, dtype)?,
                });
            }
        }
    }
    Ok(ToolFault::Import { path, fault })
}

fn told<T: Drop>(
    alloc: Global,
    path: &str,
    dtype: Option<&DType>,
    outcome: Result<T, ImportFault>,
) -> Result<T, ToolFault> {
    match outcome {
        Ok(value) => Ok(value),
        Err(fault) => Err(of_import(alloc, path, dtype, fault)?),
    }
}

/// Whether a path names lines of JSON.
fn is_json(path: &str) -> bool {
    path.ends_with(".ndjson") || path.ends_with(".jsonl") || path.ends_with(".json")
}

/// The dtype that is told, or that the input shows.
fn dtype_of<R: Files<File = File>>(
    rt: &R,
    alloc: Global,
    job: &ImportJob,
) -> Result<DType, ToolFault> {
    let path = job.from.as_str();
    match &job.dtype {
        Some(text) => match read_dtype(alloc, text.as_str()) {
            Ok(dtype) => Ok(dtype),
            Err(fault) => Err(ToolFault::Condition {
                option: "--dtype",
                text: text.clone()?,
                fault,
            }),
        },
        None => {
            let input = open_input(rt, alloc, path)?;
            if is_json(path) {
                told(alloc, path, None, dtype_of_json(alloc, input))
            } else {
                told(alloc, path, None, dtype_of_csv(alloc, input))
            }
        }
    }
}

/// The rows of the input.
fn rows_of<R: Files<File = File>>(
    rt: &R,
    alloc: Global,
    path: &str,
    dtype: &DType,
) -> Result<Array, ToolFault> {
    let input = open_input(rt, alloc, path)?;
    if is_json(path) {
        told(alloc, path, Some(dtype), rows_of_json(alloc, input, dtype))
    } else {
        told(alloc, path, Some(dtype), rows_of_csv(alloc, input, dtype))
    }
}

/// Writes a file of rows. Nothing stands under its name unless it is whole.
fn write<R: Files<File = File>>(
    rt: &R,
    alloc: Global,
    path: &str,
    rows: &Array,
    options: &WriteOptions,
) -> Result<(), WriteFault> {
    let mut file = NewFile::create(alloc, rt, path)?;
    match write_rows(alloc, &mut file, rows, options) {
        Ok(()) => file.move_there(rt),
        Err(fault) => {
            file.remove(rt);
            Err(fault)
        }
    }
}

/// Makes a file of a CSV or of lines of JSON. Gives how many rows it has, and their dtype.
pub(crate) fn import<R: Files<File = File> + Eprint>(
    rt: &R,
    alloc: Global,
    job: &ImportJob,
    watch: Watch,
) -> Result<(usize, String), ToolFault> {
    if job.dtype.is_none() {
        tell_stage(rt, watch, job.from.as_str(), "the dtype is looked for");
    }
    let dtype = dtype_of(rt, alloc, job)?;
    tell_stage(rt, watch, job.from.as_str(), "rows are read");
    let rows = rows_of(rt, alloc, job.from.as_str(), &dtype)?;
    tell_stage(rt, watch, job.to.as_str(), "rows are written");
    let options = WriteOptions {
        segment_rows: job.rows,
        spelling: job.spelling,
    };
    match write(rt, alloc, job.to.as_str(), &rows, &options) {
        Ok(()) => Ok((rows.len(), dtype_text(alloc, &dtype)?)),
        Err(WriteFault::NoMemory) => Err(ToolFault::NoMemory),
        Err(fault) => Err(ToolFault::Write {
            path: job.to.clone()?,
            fault,
        }),
    }
}
