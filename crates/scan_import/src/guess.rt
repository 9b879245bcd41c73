//! The dtype that the cells of a CSV show.
ghost use Rattle.std.specs.Prelude.{◌≡◌, ◌∷◌, [], ℕ, List, IfOk, IfSome, OnOk, length, zip};
ghost use Rattle.csv.specs.Reading.{AreRecords, default_config, strip_bom};
ghost use Rattle.csv.specs.declared.parser.State.TheVariants as st;
ghost use Rattle.scan_values.specs.DataType.{fields_of, struct_type};
ghost use Rattle.scan_import.specs.Csv.{ShowsNames};
ghost use Rattle.scan_import.specs.CsvReader.{IsPlain, WasRead};

use crate::csv_rows::{fault_of, names_of, reader_of};
use crate::fault::{ImportCause, ImportFault};
use csv::{Reader, StringRecord};
use scan_values::{DType, FieldName, NoMemory, Nullability, PType, StructFields};
use std::alloc::Global;
use std::io::Read;

/// What the cells of a column have in common.
#[derive(Clone, Copy, Debug, PartialEq, Eq)]
enum Kind {
    /// No cell has a text.
    Nothing,
    Truth,
    /// Numbers from 0 to the greatest i64.
    Count,
    /// Numbers of an i64, some below 0.
    Signed,
    /// Numbers of a u64, some above the greatest i64.
    Unsigned,
    Text,
}

/// What was seen of a column.
#[derive(Clone, Copy, Debug, PartialEq, Eq)]
struct Column {
    kind: Kind,
    has_empty: bool,
}

/// Whether a text is a number as it is printed: without a sign `+` and zeros in front.
fn is_plain_number(cell: &str) -> bool {
    let digits = cell.strip_prefix("-").unwrap_or(cell);
    cell == "0" || (!digits.starts_with("0") && !digits.starts_with("+"))
}

fn kind_of(cell: &str) -> Kind {
    if cell == "true" || cell == "false" {
        return Kind::Truth;
    }
    if !is_plain_number(cell) {
        return Kind::Text;
    }
    if let Ok(n) = cell.parse::<i64>() {
        return if n < 0 { Kind::Signed } else { Kind::Count };
    }
    match cell.parse::<u64>() {
        Ok(_) => Kind::Unsigned,
        Err(_) => Kind::Text,
    }
}

/// The least kind that has the cells of both.
fn joined(a: Kind, b: Kind) -> Kind {
    match (a, b) {
        (Kind::Nothing, other) => other,
        (other, Kind::Nothing) => other,
        (Kind::Truth, Kind::Truth) => Kind::Truth,
        (Kind::Count, Kind::Count) => Kind::Count,
        (Kind::Count | Kind::Signed, Kind::Count | Kind::Signed) => Kind::Signed,
        (Kind::Count | Kind::Unsigned, Kind::Count | Kind::Unsigned) => Kind::Unsigned,
        _ => Kind::Text,
    }
}

impl Column {
    fn new() -> Column {
        Column {
            kind: Kind::Nothing,
            has_empty: false,
        }
    }

    /// What was seen with one more cell.
    fn with(self, cell: &str) -> Column {
        if cell.is_empty() {
            Column {
                kind: self.kind,
                has_empty: true,
            }
        } else {
            Column {
                kind: joined(self.kind, kind_of(cell)),
                has_empty: self.has_empty,
            }
        }
    }

    fn dtype(self) -> DType {
        let nullability = if self.has_empty {
            Nullability::Nullable
        } else {
            Nullability::NonNullable
        };
        match self.kind {
            Kind::Truth => DType::bool(nullability),
            Kind::Count | Kind::Signed => DType::primitive(PType::I64, nullability),
            Kind::Unsigned => DType::primitive(PType::U64, nullability),
            Kind::Nothing | Kind::Text => DType::utf8(nullability),
        }
    }
}

/// What was seen of columns with the cells of one more record.
fn with_row(columns: Vec<Column>, row: &StringRecord) -> Vec<Column>
    ensures { length result.items ≡ length columns.items }
{
    let mut columns = columns;
    for i in 0..columns.len() {
        if let Some(cell) = row.get(i) {
            columns[i] = columns[i].with(cell);
        }
    }
    columns
}

/// What is seen of columns in the records that a reader still has.
fn columns_seen<R: Read + Drop>(
    alloc: Global,
    reader: Reader<R>,
    count: usize,
) -> Result<Vec<Column>, ImportFault>
    requires { IsPlain reader }
    ensures count { IfOk result (λ columns. length columns.items ≡ count) }
    ensures read { OnOk result ((bytes : List ℕ) (names : List (List ℕ)) → WasRead R.remaining bytes (names ∷ []) reader
        → (records : List (List (List ℕ))) × AreRecords default_config st.StartRecord (strip_bom bytes) (names ∷ records)) }
{
    let mut columns = vec![in alloc; Column::new(); count]?;
    for row in reader.into_records() {
        match row {
            Ok(row) => columns = with_row(columns, &row),
            Err(fault) => return Err(fault_of(&fault)),
        }
    }
    Ok(columns)
}

fn dtypes_of(alloc: Global, columns: &[Column]) -> Result<Vec<DType>, NoMemory>
    ensures { IfOk result (λ dtypes. length dtypes.items ≡ length columns.now) }
{
    let mut dtypes = Vec::with_capacity(alloc, columns.len())?;
    for column in columns {
        dtypes.push(column.dtype())?;
    }
    Ok(dtypes)
}

/// The dtype that the cells of a CSV show, field by field: truth values where all are `true` or `false`, else numbers of
/// an i64 or of a u64 where all are such numbers, else texts; nullable where a cell has no text.
///
/// # Errors
/// The first line that is no record of as many cells as the first, and a name that stands twice or is reserved.
pub fn dtype_of_csv<R: Read + Drop>(alloc: Global, input: R) -> Result<DType, ImportFault>
    ensures { IfOk result (λ d. IfSome (R.remaining input) (λ bytes. ShowsNames bytes d)) }
{
    let mut reader = reader_of(alloc, input);
    let names = names_of(alloc, &mut reader)?;
    let columns = columns_seen(alloc, reader, names.len())?;
    let dtypes = dtypes_of(alloc, columns.as_slice())?;
    let dtype = struct_of(alloc, names, dtypes)?;
    Ok(dtype)
}

/// The struct of these fields.
fn struct_of(alloc: Global, names: Vec<FieldName>, dtypes: Vec<DType>) -> Result<DType, ImportFault>
    requires { length names.items ≡ length dtypes.items }
    ensures { IfOk result (λ d. d ≡ struct_type (fields_of (zip names.items dtypes.items)) Nullability.NonNullable) }
{
    let fields = StructFields::new(names, dtypes);
    let Ok(dtype) = DType::struct_(fields, Nullability::NonNullable) else {
        return Err(ImportFault::new(1, ImportCause::NoMemory));
    };
    match dtype.names_fault(alloc)? {
        None => Ok(dtype),
        Some(_) => Err(ImportFault::new(1, ImportCause::Name)),
    }
}
