//! Selections of fields, read over a dtype.
ghost use Rattle.std.specs.Prelude.{◌≡◌, ◌∷◌, ◌++◌, [], IfOk, None, OnOk, map, string_bytes};
ghost use Rattle.scan_expr.specs.Typing.{bind_fault};
ghost use Rattle.scan_conditions.specs.Parts.{part_of};
ghost use Rattle.scan_conditions.specs.Reads.{AreSelected, IsSelected, SelectedTo};
ghost use Rattle.scan_conditions.specs.Written.{IsSelection, joined_names};

use crate::fault::{Cause, ConditionFault, cause_of};
use crate::lexer::parts_of;
use crate::path::{nested, path_at};
use crate::token::{Part, is_sign_at, place_at};
use scan_expr::Expression;
use scan_values::{DType, FieldName, NoMemory, Nullability};
use std::alloc::Global;

/// Appends a dot and a name.
fn push_dotted(text: &mut String, name: &FieldName) -> Result<(), NoMemory>
    ensures { OnOk result (string_bytes text.new ≡ string_bytes text.old ++ (46 ∷ name.now)) }
{
    text.push_str(".")?;
    text.push_str(name.as_str())?;
    Ok(())
}

/// Names with a dot between them.
fn joined(alloc: Global, names: &[FieldName]) -> Result<FieldName, NoMemory>
    ensures { IfOk result (λ n. n ≡ joined_names names.now) }
{
    if names.is_empty() {
        return Ok(FieldName::new(String::new(alloc)));
    }
    let mut text = String::from_str(alloc, names[0].as_str())?;
    for i in 1..names.len() {
        push_dotted(&mut text, &names[i])?;
    }
    Ok(FieldName::new(text))
}

/// Fields and the names under which they are selected.
#[derive(Drop)]
struct Selected {
    names: Vec<FieldName>,
    fields: Vec<Expression>,
}

/// The field that stands at a place, the name under which it is selected, and where it ends.
fn selected_at(
    alloc: Global,
    parts: &[Part],
    at: usize,
) -> Result<(FieldName, Expression, usize), ConditionFault>
    ensures { IfOk result (λ p. IsSelected (map part_of parts.now) at p.2 p.0 p.1) }
{
    let (names, end) = path_at(alloc, parts, at)?;
    let name = joined(alloc, names.as_slice())?;
    let field = nested(alloc, names.as_slice())?;
    Ok((name, field, end))
}

/// One field more.
fn with_field(selected: Selected, name: FieldName, field: Expression) -> Result<Selected, NoMemory>
    ensures names { IfOk result (λ s. s.names.items ≡ selected.names.items ++ name ∷ []) }
    ensures fields { IfOk result (λ s. s.fields.items ≡ selected.fields.items ++ field ∷ []) }
{
    let Selected {
        mut names,
        mut fields,
    } = selected;
    names.push(name)?;
    fields.push(field)?;
    Ok(Selected { names, fields })
}

/// The fields that stand at the beginning of parts, and where they end.
fn fields_at(alloc: Global, parts: &[Part]) -> Result<(Selected, usize), ConditionFault>
    ensures { IfOk result (λ p. SelectedTo (map part_of parts.now) p.1 p.0.names.items p.0.fields.items) }
{
    let names = Vec::new(alloc);
    let fields = Vec::new(alloc);
    let (name, field, begun) = selected_at(alloc, parts, 0)?;
    let first = with_field(Selected { names, fields }, name, field)?;
    let mut selected = first;
    let mut end = begun;
    'commas: for _ in 0..parts.len() {
        if !is_sign_at(parts, end, ",") {
            return Ok((selected, end));
        }
        let (more, other, next) = selected_at(alloc, parts, end + 1)?;
        let longer = with_field(selected, more, other)?;
        selected = longer;
        end = next;
    }
    Ok((selected, end))
}

/// The fields that parts say.
fn read_fields(alloc: Global, parts: &[Part]) -> Result<Selected, ConditionFault>
    ensures { IfOk result (λ x. AreSelected (map part_of parts.now) x.names.items x.fields.items) }
{
    let (selected, end) = fields_at(alloc, parts)?;
    if end < parts.len() {
        return Err(ConditionFault::new(place_at(parts, end), Cause::NoOperator));
    }
    Ok(selected)
}

/// The fields that a text says of rows of a dtype, as in `a, b.c`: a struct of them, each under its names with a dot
/// between them.
///
/// # Errors
/// A place at which the text shows that it is no selection, and why; and `NoMemory`.
pub fn read_selection(alloc: Global, text: &str, rows: &DType) -> Result<Expression, ConditionFault>
    ensures says { IfOk result (λ e. IsSelection text.now e) }
    ensures binds { IfOk result (λ e. bind_fault rows.now e ≡ None) }
{
    let parts = parts_of(alloc, text)?;
    let selected = read_fields(alloc, parts.as_slice())?;
    let Selected { names, fields } = selected;
    let expression = Expression::pack(names, fields, Nullability::NonNullable);
    match expression.bind(alloc, rows) {
        Ok(_) => Ok(expression),
        Err(fault) => Err(ConditionFault::new(0, cause_of(fault))),
    }
}
