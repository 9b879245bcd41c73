// Expansion of a struct's root by its fields.
ghost use Rattle.std.specs.Prelude.{◌≡◌, IfOk, None, map, if◌then◌else◌};
ghost use Rattle.scan_values.specs.DataType.{Name, bool_type, nullability_of};
ghost use Rattle.scan_values.specs.Val.{bool_val};
ghost use Rattle.scan_values.specs.NameFaults.{field_names};
ghost use Rattle.scan_expr.specs.Expr.{Expr, root, unary, binary, literal, pack};
ghost use Rattle.scan_expr.specs.Bound.{bound_of};
ghost use Rattle.scan_expr.specs.Needs.{other_names};
ghost use Rattle.scan_expr.specs.Infer.{struct_fields};
ghost use Rattle.scan_expr.specs.Typing.{unary_fault};
ghost use Rattle.scan_partition.specs.Rewrite.{NodesHold, AllNodesHold};
ghost use Rattle.scan_partition.specs.Expand.{unnamed, masked, is_here, items_of, expanded_fields, expanded_struct_root, expand_at, null_root, here_root};

use crate::places::Places;
use scan_expr::{Binary, BoundExpression, Unary};
use scan_values::{DType, FieldName, Names, NoMemory, Nullability, Value};
use std::alloc::Global;
use std::sync::Arc;

/// `is_not_null($)`.
fn is_here(alloc: Global, scope: &Arc<DType>) -> Result<BoundExpression, NoMemory>
    ensures { IfOk result (λ b. b ≡ bound_of scope.now.value is_here) }
{
    let root = BoundExpression::root(alloc, scope)?;
    BoundExpression::unary(alloc, Unary::IsNotNull, root)
}

/// Null where a nullable struct is null.
fn masked(
    alloc: Global,
    scope: &Arc<DType>,
    expr: BoundExpression,
) -> Result<BoundExpression, NoMemory>
    requires { expr.scope ≡ scope.now.value }
    ensures { IfOk result (λ b. b ≡ bound_of scope.now.value (masked (nullability_of scope.now.value) expr.expr)) }
{
    match scope.nullability() {
        Nullability::NonNullable => Ok(expr),
        Nullability::Nullable => {
            let here = is_here(alloc, scope)?;
            BoundExpression::binary(alloc, Binary::Mask, expr, here)
        }
    }
}

/// `$.f`.
pub(crate) fn field_root(
    alloc: Global,
    scope: &Arc<DType>,
    name: FieldName,
) -> Result<BoundExpression, NoMemory>
    requires { unary_fault (Unary.GetItem name) scope.now.value ≡ None }
    ensures { IfOk result (λ b. b ≡ bound_of scope.now.value (unary (Unary.GetItem name) root)) }
{
    let root = BoundExpression::root(alloc, scope)?;
    BoundExpression::unary(alloc, Unary::GetItem(name), root)
}

/// The fields of these names, each by itself.
fn field_roots(
    alloc: Global,
    scope: &Arc<DType>,
    names: &[FieldName],
) -> Result<Vec<BoundExpression>, NoMemory>
    requires { AllNodesHold scope.now.value (items_of names.now) }
    ensures { IfOk result (λ v. v.items ≡ map (λ (n : Name). bound_of scope.now.value (unary (Unary.GetItem n) root)) names.now) }
{
    let mut fields = Vec::with_capacity(alloc, names.len())?;
    for name in names {
        fields.push(field_root(alloc, scope, name.try_clone(alloc)?)?)?;
    }
    Ok(fields)
}

/// The fields of a struct, each by itself.
pub(crate) fn scope_fields(
    alloc: Global,
    scope: &Arc<DType>,
) -> Result<Vec<BoundExpression>, NoMemory>
    ensures { IfOk result (λ v. v.items ≡ map (λ (n : Name). bound_of scope.now.value (unary (Unary.GetItem n) root))
        (field_names (struct_fields scope.now.value))) }
{
    match scope.as_struct_fields_opt() {
        Some(fields) => field_roots(alloc, scope, fields.names()),
        None => Ok(Vec::new(alloc)),
    }
}

/// The struct of these fields, null where the whole is.
fn expanded_fields(
    alloc: Global,
    scope: &Arc<DType>,
    names: Names,
) -> Result<BoundExpression, NoMemory>
    requires { NodesHold scope.now.value (expanded_fields (nullability_of scope.now.value) names) }
    ensures { IfOk result (λ b. b ≡ bound_of scope.now.value (expanded_fields (nullability_of scope.now.value) names)) }
{
    let fields = field_roots(alloc, scope, names.as_slice())?;
    let whole = BoundExpression::pack(alloc, scope, names, fields, Nullability::NonNullable)?;
    masked(alloc, scope, whole)
}

/// The same names.
fn same_names(alloc: Global, names: &[FieldName]) -> Result<Names, NoMemory>
    ensures { IfOk result (λ ns. ns ≡ names.now) }
{
    let mut same = Vec::with_capacity(alloc, names.len())?;
    for name in names {
        same.push(name.try_clone(alloc)?)?;
    }
    Ok(Names::new(same))
}

/// The names that are not among others.
fn unnamed(alloc: Global, others: &[FieldName], names: &[FieldName]) -> Result<Names, NoMemory>
    ensures { IfOk result (λ ns. ns ≡ unnamed others.now names.now) }
{
    let places = Places::of_names(alloc, others)?;
    let mut left = Vec::new(alloc);
    for name in names {
        let taken = places.has(name);
        if !taken {
            left.push(name.try_clone(alloc)?)?;
        }
    }
    Ok(Names::new(left))
}

/// The names of a struct's fields.
pub(crate) fn struct_names(alloc: Global, dtype: &DType) -> Result<Names, NoMemory>
    ensures { IfOk result (λ ns. ns ≡ field_names (struct_fields dtype.now)) }
{
    match dtype.as_struct_fields_opt() {
        Some(fields) => same_names(alloc, fields.names()),
        None => Ok(Names::new(Vec::new(alloc))),
    }
}

/// The names of a struct's other fields.
fn left_names(alloc: Global, names: &Names, dtype: &DType) -> Result<Names, NoMemory>
    ensures { IfOk result (λ ns. ns ≡ other_names names.now (struct_fields dtype.now)) }
{
    match dtype.as_struct_fields_opt() {
        Some(fields) => unnamed(alloc, names.as_slice(), fields.names()),
        None => Ok(Names::new(Vec::new(alloc))),
    }
}

/// `$` by its fields.
pub(crate) fn expanded_root(alloc: Global, scope: &Arc<DType>) -> Result<BoundExpression, NoMemory>
    requires { NodesHold scope.now.value (expanded_struct_root scope.now.value) }
    ensures { IfOk result (λ b. b ≡ bound_of scope.now.value (expanded_struct_root scope.now.value)) }
{
    let names = struct_names(alloc, scope)?;
    expanded_fields(alloc, scope, names)
}

/// A truth value.
fn truth(alloc: Global, scope: &Arc<DType>, b: bool) -> Result<BoundExpression, NoMemory>
    ensures { IfOk result (λ x. x ≡ bound_of scope.now.value (literal (bool_type Nullability.NonNullable) (bool_val b))) }
{
    let dtype = DType::bool(Nullability::NonNullable);
    BoundExpression::literal(alloc, scope, dtype, Value::Bool(b))
}

/// Whether `$` is null, or is not.
fn null_root(alloc: Global, scope: &Arc<DType>, want: bool) -> Result<BoundExpression, NoMemory>
    ensures { IfOk result (λ b. b ≡ bound_of scope.now.value
        (if want then null_root (nullability_of scope.now.value) else here_root (nullability_of scope.now.value))) }
{
    if scope.nullability().is_nullable() {
        let here = is_here(alloc, scope)?;
        if want {
            BoundExpression::unary(alloc, Unary::Not, here)
        } else {
            Ok(here)
        }
    } else {
        truth(alloc, scope, !want)
    }
}

/// An operator on `$`, by the fields.
pub(crate) fn expanded_operator(
    alloc: Global,
    op: &Unary,
    scope: &Arc<DType>,
) -> Result<BoundExpression, NoMemory>
    requires { NodesHold scope.now.value (expand_at scope.now.value op.now) }
    ensures { IfOk result (λ b. b ≡ bound_of scope.now.value (expand_at scope.now.value op.now)) }
{
    match op {
        Unary::GetItem(name) => {
            let field = field_root(alloc, scope, name.try_clone(alloc)?)?;
            masked(alloc, scope, field)
        }
        Unary::Select(names) => expanded_fields(alloc, scope, names.try_clone(alloc)?),
        Unary::Exclude(names) => {
            let left = left_names(alloc, names, scope)?;
            expanded_fields(alloc, scope, left)
        }
        Unary::IsNull => null_root(alloc, scope, true),
        Unary::IsNotNull => null_root(alloc, scope, false),
        Unary::Not => {
            let root = expanded_root(alloc, scope)?;
            BoundExpression::unary(alloc, Unary::Not, root)
        }
        Unary::ListLength => {
            let root = expanded_root(alloc, scope)?;
            BoundExpression::unary(alloc, Unary::ListLength, root)
        }
    }
}
