//! The request of a table's scan.
ghost use Rattle.std.specs.Prelude.{◌≡◌, ◌++◌, IfOk, OnOk};
ghost use Rattle.std.specs.Fmt.{decimal};
ghost use Rattle.scan_table.specs.Spec.{key_names, key_parts, measure_names, measure_parts, names_of, own_names, projection_of, read_of, request_of};

use crate::spec::{Measure, TableSpec};
use itoa::Buffer;
use scan_expr::{Expression, ScanRequest};
use scan_values::{FieldName, NoMemory, Nullability, Selection};
use std::alloc::Global;
use std::ops::Range;

fn push_key_names(
    alloc: Global,
    keys: &[(FieldName, Expression)],
    names: &mut Vec<FieldName>,
) -> Result<(), NoMemory>
    ensures { OnOk result (names.new.items ≡ names.old.items ++ key_names keys.now) }
{
    for key in keys {
        names.push(key.0.try_clone(alloc)?)?;
    }
    Ok(())
}

fn push_measure_names(
    alloc: Global,
    measures: &[(FieldName, Measure)],
    names: &mut Vec<FieldName>,
) -> Result<(), NoMemory>
    ensures { OnOk result (names.new.items ≡ names.old.items ++ measure_names measures.now) }
{
    for measure in measures {
        names.push(measure.0.try_clone(alloc)?)?;
    }
    Ok(())
}

/// The names of keys and then of measures.
pub(crate) fn names_of(alloc: Global, spec: &TableSpec) -> Result<Vec<FieldName>, NoMemory>
    ensures { IfOk result (λ ns. ns.items ≡ names_of spec.now) }
{
    let mut names = Vec::new(alloc);
    push_key_names(alloc, spec.keys.as_slice(), &mut names)?;
    push_measure_names(alloc, spec.measures.as_slice(), &mut names)?;
    Ok(names)
}

fn push_key_parts(
    alloc: Global,
    keys: &[(FieldName, Expression)],
    parts: &mut Vec<Expression>,
) -> Result<(), NoMemory>
    ensures { OnOk result (parts.new.items ≡ parts.old.items ++ key_parts keys.now) }
{
    for key in keys {
        parts.push(key.1.try_clone(alloc)?)?;
    }
    Ok(())
}

fn push_measure_parts(
    alloc: Global,
    measures: &[(FieldName, Measure)],
    parts: &mut Vec<Expression>,
) -> Result<(), NoMemory>
    ensures { OnOk result (parts.new.items ≡ parts.old.items ++ measure_parts measures.now) }
{
    for measure in measures {
        let Some(part) = measure.1.expression() else {
            continue;
        };
        parts.push(part.try_clone(alloc)?)?;
    }
    Ok(())
}

/// What is read of each row: the expressions of keys, and then those of measures.
fn read_of(alloc: Global, spec: &TableSpec) -> Result<Vec<Expression>, NoMemory>
    ensures { IfOk result (λ es. es.items ≡ read_of spec.now) }
{
    let mut parts = Vec::new(alloc);
    push_key_parts(alloc, spec.keys.as_slice(), &mut parts)?;
    push_measure_parts(alloc, spec.measures.as_slice(), &mut parts)?;
    Ok(parts)
}

fn part_name(alloc: Global, part: usize) -> Result<FieldName, NoMemory>
    ensures { IfOk result (λ n. n ≡ decimal part) }
{
    let mut buffer = Buffer::new();
    let text = String::from_str(alloc, buffer.format(part))?;
    Ok(FieldName::new(text))
}

/// A name of its own for each part.
fn own_names(alloc: Global, parts: &[Expression]) -> Result<Vec<FieldName>, NoMemory>
    ensures { IfOk result (λ ns. ns.items ≡ own_names 0 parts.now) }
{
    let mut names = Vec::with_capacity(alloc, parts.len())?;
    for part in 0..parts.len() {
        names.push(part_name(alloc, part)?)?;
    }
    Ok(names)
}

/// A struct of what is read.
fn projection_of(alloc: Global, spec: &TableSpec) -> Result<Expression, NoMemory>
    ensures { IfOk result (λ e. e ≡ projection_of spec.now) }
{
    let parts = read_of(alloc, spec)?;
    let names = own_names(alloc, parts.as_slice())?;
    Ok(Expression::pack(names, parts, Nullability::NonNullable))
}

fn copy_of(range: &Option<Range<u64>>) -> Option<Range<u64>>
    ensures { result ≡ range.now }
{
    match range {
        Some(range) => Some(range.start..range.end),
        None => None,
    }
}

fn filter_of(alloc: Global, filter: &Option<Expression>) -> Result<Option<Expression>, NoMemory>
    ensures { IfOk result (λ f. f ≡ filter.now) }
{
    match filter {
        Some(filter) => Ok(Some(filter.try_clone(alloc)?)),
        None => Ok(None),
    }
}

/// The request for all rows of a table, in any order.
pub(crate) fn request_of(alloc: Global, spec: &TableSpec) -> Result<ScanRequest, NoMemory>
    ensures { IfOk result (λ request. request ≡ request_of spec.now) }
{
    let projection = projection_of(alloc, spec)?;
    let filter = filter_of(alloc, &spec.filter)?;
    let selection = spec.selection.try_clone(alloc)?;
    Ok(ScanRequest {
        projection,
        filter,
        row_range: copy_of(&spec.row_range),
        selection,
        partition_selection: Selection::All,
        partition_range: None,
        ordered: false,
        limit: None,
    })
}
