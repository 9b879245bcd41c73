// Expressions that only choose fields of a struct.
ghost use Rattle.std.specs.Prelude.{◌≡◌, IfOk, map, length, option_map};
ghost use Rattle.scan_values.specs.DataType.{fields_of};
ghost use Rattle.scan_expr.specs.Expr.{parts_of};
ghost use Rattle.scan_expr.specs.Bound.{exprs_of};
ghost use Rattle.scan_expr.specs.Infer.{struct_fields};
ghost use Rattle.scan_partition.specs.Items.{root_item};
ghost use Rattle.scan_partition.specs.Direct.{same_names, field_item, field_of, direct_at, direct_parts, chosen_directly, place, read_places, projected};

use crate::expand::struct_names;
use scan_expr::{BoundExpression, BoundNode, Unary};
use scan_values::{DType, FieldName, Names, NoMemory, Nullability, StructFields};
use std::alloc::Global;
use std::marker::Model;

/// Fields of a struct that an expression gives as they stand, each under a name.
#[derive(Drop)]
pub struct DirectProjection {
    names: Names,
    fields: Vec<usize>,
}

impl Model for DirectProjection {
    ghost use Rattle.scan_partition.specs.Direct.{Projection, projection_code};

    ghost Value = { Projection };

    ghost coded = { projection_code };

    ghost view = { λ a. record { names = a.names; fields = a.fields.items } };
}

impl DirectProjection {
    /// The names of the fields that are given, in order.
    pub fn names(&self) -> &Names
        ensures { result.now ≡ self.now.names }
    {
        &self.names
    }

    /// The place in the struct of each field that is given.
    pub fn fields(&self) -> &[usize]
        ensures { result.now ≡ self.now.fields }
    {
        self.fields.as_slice()
    }
}

/// The place of the first field of this name, or the number of fields where there is none.
fn place_in(fields: &StructFields, name: &FieldName) -> usize
    ensures { result ≡ place (fields_of fields.now) name.now }
{
    match fields.find(name) {
        Some(i) => i,
        None => fields.nfields(),
    }
}

/// The same of a struct's fields.
fn place(scope: &DType, name: &FieldName) -> usize
    ensures { result ≡ place (struct_fields scope.now) name.now }
{
    match scope.as_struct_fields_opt() {
        Some(fields) => place_in(fields, name),
        None => 0,
    }
}

/// The fields of these names, under their own names.
fn chosen(alloc: Global, scope: &DType, names: Names) -> Result<DirectProjection, NoMemory>
    ensures { IfOk result (λ p. p ≡ projected (struct_fields scope.now) (same_names names)) }
{
    let mut fields = Vec::with_capacity(alloc, names.as_slice().len())?;
    for name in names.as_slice() {
        fields.push(place(scope, name))?;
    }
    Ok(DirectProjection { names, fields })
}

/// The fields that an operator on `$` chooses, or `None` where it does something else.
fn chosen_by(alloc: Global, scope: &DType, op: &Unary) -> Result<Option<DirectProjection>, NoMemory>
    ensures { IfOk result (λ o. o ≡ option_map (projected (struct_fields scope.now)) (direct_at op.now)) }
{
    match op {
        Unary::Select(names) => {
            let names = names.try_clone(alloc)?;
            Ok(Some(chosen(alloc, scope, names)?))
        }
        _ => Ok(None),
    }
}

/// The field that an operator on `$` is.
fn field_by(op: &Unary) -> Option<&FieldName>
    ensures { option_map (λ n. n.now) result ≡ field_item (root_item op.now) }
{
    match op {
        Unary::GetItem(name) => Some(name),
        _ => None,
    }
}

/// The field that an expression is, where it is `$.field`.
fn field_read(expr: &BoundExpression) -> Option<&FieldName>
    ensures { option_map (λ n. n.now) result ≡ field_of expr.now.expr }
{
    match expr.node() {
        BoundNode::Unary(op, part) => { if part.is_root() { field_by(op) } else { None } }
        _ => None,
    }
}

/// The places of the fields that expressions are, or `None` where one is something else.
fn places_read(
    alloc: Global,
    scope: &DType,
    parts: &[BoundExpression],
) -> Result<Option<Vec<usize>>, NoMemory>
    ensures { IfOk result (λ o. option_map (λ v. v.items) o ≡ read_places (struct_fields scope.now) (exprs_of parts.now)) }
{
    let mut read = Vec::with_capacity(alloc, parts.len())?;
    for part in parts {
        match field_read(part) {
            Some(name) => read.push(place(scope, name))?,
            None => return Ok(None),
        }
    }
    Ok(Some(read))
}

/// The fields that the parts of a `pack` are, under its names.
fn packed(
    alloc: Global,
    scope: &DType,
    names: &Names,
    parts: &[BoundExpression],
) -> Result<Option<DirectProjection>, NoMemory>
    requires { length parts.now ≡ length names.now }
    ensures { IfOk result (λ o. o ≡ option_map (projected (struct_fields scope.now)) (direct_parts (parts_of names.now (exprs_of parts.now)))) }
{
    match places_read(alloc, scope, parts)? {
        Some(fields) => {
            let names = names.try_clone(alloc)?;
            Ok(Some(DirectProjection { names, fields }))
        }
        None => Ok(None),
    }
}

/// The fields that an expression over a struct only chooses: `$`, a select of `$`, or a `pack` of `$.field` that is
/// not nullable. `None` for any other expression, and over a nullable struct.
pub(crate) fn direct_projection(
    alloc: Global,
    expr: &BoundExpression,
) -> Result<Option<DirectProjection>, NoMemory>
    ensures { IfOk result (λ o. o ≡ option_map (projected (struct_fields expr.now.scope)) (chosen_directly expr.now.scope expr.now.expr)) }
{
    let scope = expr.scope();
    if scope.is_nullable() {
        return Ok(None);
    }
    match expr.node() {
        BoundNode::Root => {
            let names = struct_names(alloc, scope)?;
            Ok(Some(chosen(alloc, scope, names)?))
        }
        BoundNode::Unary(op, part) => {
            if part.is_root() {
                chosen_by(alloc, scope, op)
            } else {
                Ok(None)
            }
        }
        BoundNode::Pack(names, parts, Nullability::NonNullable) => {
            packed(alloc, scope, names, parts)
        }
        _ => Ok(None),
    }
}
