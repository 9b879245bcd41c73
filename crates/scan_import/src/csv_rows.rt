//! Rows of CSV.
ghost use Rattle.std.specs.Prelude.{◌≡◌, ◌<◌, ◌∷◌, ◌++◌, [], ℕ, List, IfOk, IfErr, IfSome, Some, length, map, option_map, option_and_then, position, slice_get};
ghost use Rattle.std.specs.Str.{bytes_eq};
ghost use Rattle.csv.specs.Machine.{next_record};
ghost use Rattle.csv.specs.Reading.{source_of, strip_bom, default_config};
ghost use Rattle.csv.specs.Records.{field_at, fields_of};
ghost use Rattle.csv.specs.declared.parser.State.TheVariants as st;
ghost use Rattle.scan_values.specs.Arrays.{of_parts};
ghost use Rattle.scan_values.specs.FieldLists.{names_of, dtypes_of};
ghost use Rattle.scan_values.specs.Kinds.{struct_fields_of};
ghost use Rattle.scan_values.specs.DataType.{field_list};
ghost use Rattle.scan_values.specs.Values.{val_of};
ghost use Rattle.scan_import.specs.Cells.{cell_in, cells_in, record_in};
ghost use Rattle.scan_import.specs.Csv.{AreColumns, AreNoColumns, AreRowsOf, IsCsvOf};
ghost use Rattle.scan_import.specs.CsvReader.{IsPlain, WasRead};
ghost use Rattle.scan_import.specs.Lists.{AreMeant, known};

use crate::cell::cell_value;
use crate::fault::{ImportCause, ImportFault, ValuesFault, cause_of_read};
use crate::json::dtype_at;
use csv::{Error, ErrorKind, Position, Reader, ReaderBuilder, StringRecord};
use scan_values::{Array, DType, FieldName, NoMemory, StructFields, Value, Values};
use std::alloc::Global;
use std::io::Read;

fn line_at(position: &Option<Position>) -> u64 {
    match position {
        Some(position) => position.line,
        None => 0,
    }
}

/// Why a record was not read, and in which line.
pub(crate) fn fault_of(fault: &Error) -> ImportFault {
    match fault.kind() {
        ErrorKind::Io(cause) => ImportFault::new(0, cause_of_read(cause)),
        ErrorKind::Utf8 { pos, err: _ } => ImportFault::new(line_at(pos), ImportCause::NotText),
        ErrorKind::UnequalLengths {
            pos,
            expected_len,
            len,
        } => {
            let cause = ImportCause::Cells {
                wanted: *expected_len,
                found: *len,
            };
            ImportFault::new(line_at(pos), cause)
        }
        _ => ImportFault::new(0, ImportCause::NoMemory),
    }
}

/// A reader of records, of which the first has names.
pub(crate) fn reader_of<R: Read + Drop>(alloc: Global, input: R) -> Reader<R>
    ensures plain { IsPlain result }
    ensures fresh { (bytes : List ℕ) → R.remaining input ≡ Some bytes → WasRead R.remaining bytes [] result }
{
    ReaderBuilder::new()
        .has_headers(false)
        .from_reader(alloc, input)
}

/// The names in the first line.
pub(crate) fn names_of<R: Read + Drop>(
    alloc: Global,
    reader: &mut Reader<R>,
) -> Result<Vec<FieldName>, ImportFault>
    requires { IsPlain reader.old }
    ensures plain { IfOk result (λ names. IsPlain reader.new) }
    ensures read { IfOk result (λ names. (bytes : List ℕ) → WasRead R.remaining bytes [] reader.old
        → WasRead R.remaining bytes (names.items ∷ []) reader.new) }
{
    let mut row = StringRecord::new(alloc);
    let found = match reader.read_record(&mut row) {
        Ok(found) => found,
        Err(fault) => {
            let ImportFault { line: _, cause } = fault_of(&fault);
            return Err(ImportFault::new(1, cause));
        }
    };
    if !found {
        return Err(ImportFault::new(1, ImportCause::NoNames));
    }
    let names = names_in(alloc, &row)?;
    Ok(names)
}

fn text_at(row: &StringRecord, i: usize) -> &str
    requires { i < length (fields_of row.now) }
    ensures { Some result.now ≡ field_at (fields_of row.now) i }
{
    match row.get(i) {
        Some(text) => text,
        None => unreachable!(),
    }
}

fn names_in(alloc: Global, row: &StringRecord) -> Result<Vec<FieldName>, NoMemory>
    ensures { IfOk result (λ names. names.items ≡ fields_of row.now) }
{
    let mut names = Vec::with_capacity(alloc, row.len())?;
    for i in 0..row.len() {
        let text = text_at(row, i);
        let name = FieldName::from_str(alloc, text)?;
        names.push(name)?;
    }
    Ok(names)
}

fn place_of(names: &[FieldName], name: &FieldName) -> Option<usize>
    ensures { result ≡ position (bytes_eq name.now) names.now }
{
    names.iter().position(|other| name.same(other))
}

/// In which column each field of the dtype stands.
fn columns_of(
    alloc: Global,
    fields: &StructFields,
    names: &[FieldName],
) -> Result<Vec<usize>, ImportFault>
    ensures ok { IfOk result (λ columns. AreColumns (names_of fields.now) names.now columns.items) }
    ensures err { IfErr result (λ e. AreNoColumns (names_of fields.now) names.now e.cause) }
{
    let mut columns = Vec::with_capacity(alloc, fields.nfields())?;
    let wanted = fields.names();
    for (column, name) in wanted.iter().enumerate() {
        let found = place_of(names, name);
        match found {
            Some(place) => columns.push(place)?,
            None => {
                let lacking = ImportFault::new(1, ImportCause::NoColumn { column });
                return Err(lacking);
            }
        }
    }
    let count = columns.len();
    let found = names.len();
    if found != count {
        let cause = ImportCause::Columns {
            wanted: count,
            found,
        };
        let uneven = ImportFault::new(1, cause);
        return Err(uneven);
    }
    Ok(columns)
}

/// What the cell at a place means as a value of a dtype.
fn value_at(
    alloc: Global,
    dtype: &DType,
    row: &StringRecord,
    place: usize,
) -> Result<Option<Value>, NoMemory>
    ensures { IfOk result (λ o. option_map val_of o
        ≡ option_and_then (cell_in dtype.now) (field_at (fields_of row.now) place)) }
{
    match row.get(place) {
        Some(cell) => cell_value(alloc, dtype, cell),
        None => Ok(None),
    }
}

/// What the cells of a record mean, each as a value of its field's dtype.
fn cells_value(
    alloc: Global,
    fields: &StructFields,
    columns: &[usize],
    row: &StringRecord,
) -> Result<Vec<Value>, ValuesFault>
    requires { length columns.now ≡ length fields.now }
    ensures { AreMeant (cells_in (dtypes_of fields.now) columns.now (fields_of row.now)) result }
{
    let mut values = Vec::with_capacity(alloc, columns.len())?;
    for i in 0..columns.len() {
        let dtype = dtype_at(fields, i);
        let place = columns[i];
        let found = value_at(alloc, dtype, row, place)?;
        match found {
            Some(value) => values.push(value)?,
            None => return Err(ValuesFault::Nothing(i)),
        }
    }
    Ok(values)
}

/// The row of a record.
fn row_of(
    alloc: Global,
    fields: &StructFields,
    columns: &[usize],
    row: &StringRecord,
) -> Result<Value, ImportFault>
    requires { length columns.now ≡ length fields.now }
    ensures { IfOk result (λ v. record_in (dtypes_of fields.now) columns.now (fields_of row.now) ≡ known v) }
{
    match cells_value(alloc, fields, columns, row) {
        Ok(values) => Ok(Value::Struct(Values::new(values))),
        Err(ValuesFault::Nothing(column)) => {
            let line = line_at(&row.position());
            Err(ImportFault::new(line, ImportCause::NotOfType { column }))
        }
        Err(ValuesFault::NoMemory) => Err(ImportFault::new(0, ImportCause::NoMemory)),
    }
}

/// The rows of the records that a reader still has.
fn rows_left<R: Read + Drop>(
    alloc: Global,
    reader: Reader<R>,
    fields: &StructFields,
    columns: &[usize],
) -> Result<Vec<Value>, ImportFault>
    requires plain { IsPlain reader }
    requires even { length columns.now ≡ length fields.now }
    ensures { IfOk result (λ rows. (bytes names : _) → WasRead R.remaining bytes (names ∷ []) reader
        → AreRowsOf (dtypes_of fields.now) columns.now bytes names (map val_of rows.items)) }
{
    let mut rows = Vec::new(alloc);
    for row in reader.into_records() {
        match row {
            Ok(row) => {
                let value = row_of(alloc, fields, columns, &row)?;
                rows.push(value)?;
            }
            Err(fault) => return Err(fault_of(&fault)),
        }
    }
    Ok(rows)
}

/// The rows of a CSV as an array of a dtype of structs. The first line has the names of the columns: those of the fields,
/// in any order. A cell without text is null where its field is nullable; else a text is itself, a truth value `true` or
/// `false`, a number its decimal digits, and a list or a struct JSON.
///
/// # Errors
/// The first line that gives no row, and why. All rows are held in memory.
pub fn rows_of_csv<R: Read + Drop>(
    alloc: Global,
    input: R,
    dtype: &DType,
) -> Result<Array, ImportFault>
    ensures dtype { IfOk result (λ rows. rows.dtype ≡ dtype.now) }
    ensures rows { IfOk result (λ rows. IfSome (R.remaining input) (λ bytes. IsCsvOf dtype.now bytes rows.items)) }
{
    let Some(fields) = dtype.as_struct_fields_opt() else {
        return Err(ImportFault::new(0, ImportCause::NotStruct));
    };
    let mut reader = reader_of(alloc, input);
    let names = names_of(alloc, &mut reader)?;
    let columns = columns_of(alloc, fields, names.as_slice())?;
    let rows = rows_left(alloc, reader, fields, columns.as_slice())?;
    let array = array_of(alloc, dtype, rows)?;
    Ok(array)
}

/// The array of rows of a dtype.
pub(crate) fn array_of(alloc: Global, dtype: &DType, rows: Vec<Value>) -> Result<Array, ImportFault>
    ensures { IfOk result (λ a. a ≡ of_parts dtype.now (map val_of rows.items)) }
{
    match Array::try_new(dtype.try_clone(alloc)?, rows) {
        Ok(array) => Ok(array),
        Err(_) => Err(ImportFault::new(0, ImportCause::Rows)),
    }
}
