//! The dtype of generated files, and what is asked of them.
ghost use Rattle.std.specs.Prelude.{◌≡◌, ◌∷◌, [], IfOk, codes};
ghost use Rattle.scan_expr.specs.Expr.{unary};
ghost use Rattle.scan_expr.specs.declared.op.Unary.TheVariants as Unary;
ghost use Rattle.scan_run.specs.Generated.{number_type, value_type, lists_type, table_type, field, wanted_rows, wanted_fields, generated_request};

use scan_expr::{Expression, ScanRequest};
use scan_values::{DType, FieldName, NoMemory, Nullability, PType, StructFields, Value};
use std::alloc::Global;

pub(super) fn number_type(ptype: PType) -> DType
    ensures { result ≡ number_type ptype }
{
    DType::primitive(ptype, Nullability::NonNullable)
}

pub(super) fn value_type() -> DType
    ensures { result ≡ value_type }
{
    DType::primitive(PType::I32, Nullability::Nullable)
}

// Lists of bytes.
pub(super) fn lists_type(alloc: Global) -> Result<DType, NoMemory>
    ensures { IfOk result (λ d. d ≡ lists_type) }
{
    match DType::list(alloc, number_type(PType::U8), Nullability::NonNullable) {
        Ok(dtype) => Ok(dtype),
        Err(_) => Err(NoMemory),
    }
}

fn name(alloc: Global, text: &str) -> Result<FieldName, NoMemory>
    ensures { IfOk result (λ n. n ≡ text.now) }
{
    Ok(FieldName::new(String::from_str(alloc, text)?))
}

// The names of the columns.
fn column_names(alloc: Global) -> Result<Vec<FieldName>, NoMemory>
    ensures { IfOk result (λ v. v.items ≡ codes "id" ∷ codes "v" ∷ codes "l" ∷ []) }
{
    let mut names = Vec::new(alloc);
    names.push(name(alloc, "id")?)?;
    names.push(name(alloc, "v")?)?;
    names.push(name(alloc, "l")?)?;
    Ok(names)
}

// Their dtypes.
fn column_types(alloc: Global) -> Result<Vec<DType>, NoMemory>
    ensures { IfOk result (λ v. v.items ≡ number_type PType.U32 ∷ value_type ∷ lists_type ∷ []) }
{
    let mut dtypes = Vec::new(alloc);
    dtypes.push(number_type(PType::U32))?;
    dtypes.push(value_type())?;
    dtypes.push(lists_type(alloc)?)?;
    Ok(dtypes)
}

/// The dtype of a generated file: an id, a value that may be null, and a list of bytes.
pub(crate) fn table_type(alloc: Global) -> Result<DType, NoMemory>
    ensures { IfOk result (λ d. d ≡ table_type) }
{
    let fields = StructFields::new(column_names(alloc)?, column_types(alloc)?);
    match DType::struct_(fields, Nullability::NonNullable) {
        Ok(dtype) => Ok(dtype),
        Err(_) => Err(NoMemory),
    }
}

fn field(alloc: Global, text: &str) -> Result<Expression, NoMemory>
    ensures { IfOk result (λ e. e ≡ field text.now) }
{
    Expression::get_item(alloc, name(alloc, text)?, Expression::root())
}

fn wanted_rows(alloc: Global) -> Result<Expression, NoMemory>
    ensures { IfOk result (λ e. e ≡ wanted_rows) }
{
    let value = field(alloc, "v")?;
    let five = Expression::lit(number_type(PType::I32), Value::Int(5));
    Expression::gt_eq(alloc, value, five)
}

// The names of what is given of a row.
fn part_names(alloc: Global) -> Result<Vec<FieldName>, NoMemory>
    ensures { IfOk result (λ v. v.items ≡ codes "id" ∷ codes "n" ∷ []) }
{
    let mut names = Vec::new(alloc);
    names.push(name(alloc, "id")?)?;
    names.push(name(alloc, "n")?)?;
    Ok(names)
}

// What is given of a row.
fn parts(alloc: Global) -> Result<Vec<Expression>, NoMemory>
    ensures { IfOk result (λ v. v.items ≡ field (codes "id") ∷ unary Unary.ListLength (field (codes "l")) ∷ []) }
{
    let mut parts = Vec::new(alloc);
    parts.push(field(alloc, "id")?)?;
    parts.push(Expression::list_length(alloc, field(alloc, "l")?)?)?;
    Ok(parts)
}

fn wanted_fields(alloc: Global) -> Result<Expression, NoMemory>
    ensures { IfOk result (λ e. e ≡ wanted_fields) }
{
    let names = part_names(alloc)?;
    let parts = parts(alloc)?;
    Ok(Expression::pack(names, parts, Nullability::NonNullable))
}

/// What is asked: the id and the length of the list, of the rows whose value is at least 5.
pub(crate) fn generated_request(alloc: Global) -> Result<ScanRequest, NoMemory>
    ensures { IfOk result (λ r. r ≡ generated_request) }
{
    let filter = wanted_rows(alloc)?;
    let mut request = ScanRequest::new(wanted_fields(alloc)?);
    request.filter = Some(filter);
    Ok(request)
}
