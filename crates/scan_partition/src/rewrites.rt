// The public rewritings of expressions, after the crate's `layouts/struct_.rs` and `layouts/list/expr.rs`.
ghost use Rattle.std.specs.Prelude.{◌≡◌, IfOk};
ghost use Rattle.scan_values.specs.DataType.{bool_type};
ghost use Rattle.scan_expr.specs.Bound.{bound_of};
ghost use Rattle.scan_expr.specs.Infer.{struct_fields, infer};
ghost use Rattle.scan_expr.specs.Expr.{root, unary, uses_row_index};
ghost use Rattle.scan_partition.specs.Items.{spelled, AtMost, use_of, IsExpanded};
ghost use Rattle.scan_partition.specs.Expand.{expanded_struct_root, expand};
ghost use Rattle.scan_partition.specs.Partition.{step_into};
ghost use Rattle.scan_partition.specs.Conditions.{IsStruct};
ghost use Rattle.scan_partition.specs.Partable.{IsScope, IsPartable, CanPart};
ghost use Rattle.scan_partition.specs.Tighter.{IsTighter};
ghost use Rattle.scan_partition.specs.Rows.{Distinct};
ghost use Rattle.scan_partition.specs.Stepped.{IsOverItem, IsOverTighter, IsOverLengths};
ghost use Rattle.scan_partition.specs.Split.{IsWhole};
ghost use Rattle.scan_partition.specs.Lists.{IsClass, necessary, rewrite_validity, rewrite_offsets};

use crate::expand::expanded_root;
use crate::item::Item;
use crate::list_::ListChildrenNeeded;
use crate::rewrite::{Rewriting, know_depths, rewritten};
use scan_expr::{BoundExpression, Unary};
use scan_values::{DType, NoMemory, Nullability};
use std::alloc::Global;
use std::sync::Arc;

/// `$` over a struct by its fields: `pack(f: $.f for every field)`, masked by `is_not_null($)` where the struct is
/// nullable. Where no name stands twice it gives the struct's own value. Condition: a struct.
pub fn expanded_struct_root(alloc: Global, dtype: &DType) -> Result<BoundExpression, NoMemory>
    requires { IsStruct dtype.now }
    ensures exact { IfOk result (λ b. b ≡ bound_of dtype.now (expanded_struct_root dtype.now)) }
    ensures values { Distinct (struct_fields dtype.now) → IfOk result (λ b. IsWhole (bound_of dtype.now root) b) }
    ensures again { IsScope dtype.now → IfOk result (λ b. CanPart b) }
{
    let _depth = dtype.depth();
    let copy = dtype.try_clone(alloc)?;
    let scope = Arc::new(alloc, copy)?;
    expanded_root(alloc, &scope)
}

/// An expression over a struct, by its fields: `$` becomes the expanded root, and under a nullable struct each field
/// of `$` is masked by `is_not_null($)`. On every value of the struct it gives the same value, or overflows, as before.
pub fn expand_struct_root(
    alloc: Global,
    expr: &BoundExpression,
) -> Result<BoundExpression, NoMemory>
    requires structure { IsStruct expr.now.scope }
    requires partable { IsPartable expr.now }
    ensures exact { IfOk result (λ b. b ≡ bound_of expr.now.scope (expand expr.now.scope expr.now.expr)) }
    ensures values { IfOk result (λ b. IsWhole expr.now b) }
    ensures again { IfOk result (λ b. CanPart b) }
    ensures numbers { IfOk result (λ b. uses_row_index b.expr ≡ uses_row_index expr.now.expr) }
{
    let _typed = expr.dtype();
    rewritten(alloc, Rewriting::Expand, expr, expr.shared_scope())
}

/// The same over what its one item is: `$.f`, or `is_not_null($)`, becomes `$`. Conditions: `$` stands in that item
/// alone, and the dtype is what the item has over the struct, or one that is null at fewer places, as a field's own.
/// Where the dtype is the item's over the struct, the dtype, each value and where it overflows are the expression's; else
/// the dtype may be null at fewer places, and the rest holds on each value of the dtype where each node's value is known.
pub fn step_into(
    alloc: Global,
    expr: &BoundExpression,
    item: &Item,
    field_dtype: &DType,
) -> Result<BoundExpression, NoMemory>
    requires expanded { IsExpanded expr.now.expr }
    requires alone { AtMost item.now (use_of expr.now.expr) }
    requires dtype { IsTighter field_dtype.now (infer expr.now.scope (spelled item.now)) }
    requires partable { IsPartable expr.now }
    ensures exact { IfOk result (λ b. b ≡ bound_of field_dtype.now (step_into expr.now.expr)) }
    ensures own { field_dtype.now ≡ infer expr.now.scope (spelled item.now) → IfOk result (λ b. IsOverItem expr.now item.now b) }
    ensures tighter { IfOk result (λ b. IsOverTighter expr.now item.now b) }
    ensures again { IfOk result (λ b. IsPartable b) }
    ensures numbers { IfOk result (λ b. uses_row_index b.expr ≡ uses_row_index expr.now.expr) }
{
    let _typed = expr.dtype();
    let copy = field_dtype.try_clone(alloc)?;
    let scope = Arc::new(alloc, copy)?;
    rewritten(alloc, Rewriting::StepIn, expr, &scope)
}

/// An expression that reads whether a list is null alone, over a Bool column that tells so.
pub fn rewrite_validity(alloc: Global, expr: &BoundExpression) -> Result<BoundExpression, NoMemory>
    requires { IsClass ListChildrenNeeded.Validity (necessary expr.now.expr) }
    ensures exact { IfOk result (λ b. b ≡ bound_of (bool_type Nullability.NonNullable) (rewrite_validity expr.now.expr)) }
    ensures own { IfOk result (λ b. IsOverItem expr.now Item.Validity b) }
    ensures again { IfOk result (λ b. IsPartable expr.now → IsPartable b) }
    ensures numbers { IfOk result (λ b. uses_row_index b.expr ≡ uses_row_index expr.now.expr) }
{
    let _typed = expr.dtype();
    know_depths(expr);
    let here = DType::bool(Nullability::NonNullable);
    let scope = Arc::new(alloc, here)?;
    rewritten(alloc, Rewriting::Validity, expr, &scope)
}

/// An expression that reads the length of a list alone, over a column of lengths. Condition: these are U64, and
/// nullable only where the list is, else what is written might not type over them. Over lengths of the list's
/// nullability the dtype, the values and the overflows are the expression's, but where a list is there of which nothing
/// is known: there it overflows only where the expression does.
pub fn rewrite_offsets(
    alloc: Global,
    expr: &BoundExpression,
    lengths: &DType,
) -> Result<BoundExpression, NoMemory>
    requires class { IsClass ListChildrenNeeded.OffsetsAndValidity (necessary expr.now.expr) }
    requires lengths { IsTighter lengths.now (infer expr.now.scope (unary Unary.ListLength root)) }
    ensures exact { IfOk result (λ b. b ≡ bound_of lengths.now (rewrite_offsets expr.now.expr)) }
    ensures tighter { IfOk result (λ b. IsTighter (infer b.scope b.expr) (infer expr.now.scope expr.now.expr)) }
    ensures own { lengths.now ≡ infer expr.now.scope (unary Unary.ListLength root) → IfOk result (λ b. IsOverLengths expr.now b) }
    ensures again { IfOk result (λ b. IsPartable expr.now → IsPartable b) }
    ensures numbers { IfOk result (λ b. uses_row_index b.expr ≡ uses_row_index expr.now.expr) }
{
    let _typed = expr.dtype();
    know_depths(expr);
    let copy = lengths.try_clone(alloc)?;
    let scope = Arc::new(alloc, copy)?;
    rewritten(alloc, Rewriting::Lengths, expr, &scope)
}
