// The parts of a partition.
ghost use Rattle.std.specs.Prelude.{◌≡◌, ◌≤◌, IfOk, map, length};
ghost use Rattle.scan_values.specs.DataType.{fields_of, fields_depth};
ghost use Rattle.scan_expr.specs.Bound.{bound_of};
ghost use Rattle.scan_expr.specs.Infer.{struct_fields, field_type};
ghost use Rattle.scan_expr.specs.Expr.{pack};
ghost use Rattle.scan_partition.specs.Rows.{item_type};
ghost use Rattle.scan_partition.specs.Partition.{part_of, numbered};
ghost use Rattle.scan_partition.specs.Rewrite.{rewritten, NodesHold};
ghost use Rattle.scan_partition.specs.Rewritings.{rules_of};
ghost use Rattle.scan_partition.specs.Plans.{lent_exprs};
ghost use Rattle.scan_partition.specs.Soles.{item_seen};

use crate::cuts::ItemRef;
use crate::leaves::number_name;
use crate::rewrite::{Rewriting, rewritten};
use scan_expr::BoundExpression;
use scan_values::{DType, FieldName, Names, NoMemory, Nullability};
use std::alloc::Global;
use std::sync::Arc;

/// The dtype of a field, or a nullable Bool where there is none.
fn field_dtype(alloc: Global, name: &FieldName, dtype: &DType) -> Result<DType, NoMemory>
    ensures { IfOk result (λ d. d ≡ field_type name.now (struct_fields dtype.now)) }
{
    match dtype.as_struct_fields_opt() {
        Some(fields) => match fields.field(name) {
            Some(field) => field.try_clone(alloc),
            None => Ok(DType::bool(Nullability::Nullable)),
        },
        None => Ok(DType::bool(Nullability::Nullable)),
    }
}

/// The dtype of an item of a struct.
pub(crate) fn item_dtype(alloc: Global, item: ItemRef, dtype: &DType) -> Result<DType, NoMemory>
    ensures { IfOk result (λ d. d ≡ item_type (struct_fields dtype.now) (item_seen item.entry)) }
{
    match item {
        ItemRef::Field(name) => field_dtype(alloc, name, dtype),
        ItemRef::Validity => Ok(DType::bool(Nullability::NonNullable)),
    }
}

/// Several parts, each written again, as a struct of the names `0`, `1` and so on.
fn numbered_parts(
    alloc: Global,
    what: Rewriting,
    parts: &[&BoundExpression],
    scope: &Arc<DType>,
) -> Result<BoundExpression, NoMemory>
    requires { NodesHold scope.now.value (pack (numbered 0 (map (rewritten (rules_of what scope.now.value)) (lent_exprs parts.now))) Nullability.NonNullable) }
    ensures { IfOk result (λ b. b ≡ bound_of scope.now.value
        (pack (numbered 0 (map (rewritten (rules_of what scope.now.value)) (lent_exprs parts.now)))
        Nullability.NonNullable)) }
{
    let mut names = Vec::with_capacity(alloc, parts.len())?;
    let mut made = Vec::with_capacity(alloc, parts.len())?;
    for (number, part) in parts.iter().enumerate() {
        let name = number_name(alloc, number)?;
        let again = rewritten(alloc, what, part, scope)?;
        names.push(name)?;
        made.push(again)?;
    }
    BoundExpression::pack(
        alloc,
        scope,
        Names::new(names),
        made,
        Nullability::NonNullable,
    )
}

/// The part of an item: its one cut, or a struct of its cuts, written again.
pub(crate) fn part_over(
    alloc: Global,
    what: Rewriting,
    parts: &[&BoundExpression],
    scope: &Arc<DType>,
) -> Result<BoundExpression, NoMemory>
    requires { NodesHold scope.now.value (part_of (map (rewritten (rules_of what scope.now.value)) (lent_exprs parts.now))) }
    ensures { IfOk result (λ b. b ≡ bound_of scope.now.value (part_of (map (rewritten (rules_of what scope.now.value)) (lent_exprs parts.now)))) }
{
    match parts {
        [] => BoundExpression::root(alloc, scope),
        [part] => rewritten(alloc, what, part, scope),
        _ => numbered_parts(alloc, what, parts, scope),
    }
}
