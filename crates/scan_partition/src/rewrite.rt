// Expressions written again over a scope.
ghost use Rattle.std.specs.Prelude.{◌≡◌, ◌≤◌, IfOk, map, option_map};
ghost use Rattle.scan_values.specs.DataType.{nullability_of, is_nullable};
ghost use Rattle.scan_expr.specs.Expr.{Expr, root, unary, binary, literal, pack};
ghost use Rattle.scan_expr.specs.Bound.{bound_of};
ghost use Rattle.scan_partition.specs.Rewrite.{rewritten, or_kept, NodesHold};
ghost use Rattle.scan_partition.specs.Rewritings.{rules_of};
ghost use Rattle.scan_partition.specs.Shallow.{NodesWithin};

use crate::expand::{expanded_operator, expanded_root};
use crate::item::{child_item, row_item};
use scan_expr::{BoundExpression, BoundNode, Unary};
use scan_values::{DType, NoMemory};
use std::alloc::Global;
use std::sync::Arc;

/// What is done to an expression.
#[derive(Clone, Copy)]
pub(crate) enum Rewriting {
    /// Nothing.
    Keep,
    /// Items become `$`.
    StepIn,
    /// `$` becomes its fields.
    Expand,
    /// Null tests of `$`, over whether it is not null.
    Validity,
    /// The length of `$`, over the lengths.
    Lengths,
    /// The row number becomes `$`.
    Number,
    /// `$` and the row number become fields.
    Lift,
}

/// What becomes of `$`.
fn new_root(alloc: Global, what: Rewriting, scope: &Arc<DType>) -> Result<BoundExpression, NoMemory>
    requires { NodesHold scope.now.value ((rules_of what scope.now.value).on_root) }
    ensures { IfOk result (λ b. b ≡ bound_of scope.now.value ((rules_of what scope.now.value).on_root)) }
{
    match what {
        Rewriting::Expand => expanded_root(alloc, scope),
        Rewriting::Lift => child_item(alloc, scope),
        _ => BoundExpression::root(alloc, scope),
    }
}

/// What becomes of the row number.
fn new_row(alloc: Global, what: Rewriting, scope: &Arc<DType>) -> Result<BoundExpression, NoMemory>
    requires { NodesHold scope.now.value ((rules_of what scope.now.value).on_row) }
    ensures { IfOk result (λ b. b ≡ bound_of scope.now.value ((rules_of what scope.now.value).on_row)) }
{
    match what {
        Rewriting::Number => BoundExpression::root(alloc, scope),
        Rewriting::Lift => row_item(alloc, scope),
        _ => BoundExpression::row_idx(alloc, scope),
    }
}

/// What becomes of an operator on `$`, unless it is kept.
fn new_operator(
    alloc: Global,
    what: Rewriting,
    op: &Unary,
    scope: &Arc<DType>,
) -> Result<Option<BoundExpression>, NoMemory>
    requires { NodesHold scope.now.value (or_kept ((rules_of what scope.now.value).on_operator op.now) root) }
    ensures { IfOk result (λ o. o ≡ option_map (bound_of scope.now.value) ((rules_of what scope.now.value).on_operator op.now)) }
{
    match what {
        Rewriting::StepIn => stepped_operator(alloc, op, scope),
        Rewriting::Expand => Ok(Some(expanded_operator(alloc, op, scope)?)),
        Rewriting::Validity => validity_operator(alloc, op, scope),
        Rewriting::Lengths => length_operator(alloc, op, scope),
        _ => Ok(None),
    }
}

/// No node of an expression has a dtype deeper than dtypes may be.
pub(crate) fn know_depths(expr: &BoundExpression)
    ensures { NodesWithin 66 expr.now.scope expr.now.expr }
{
    let _depth = expr.dtype().depth();
    match expr.node() {
        BoundNode::Unary(_, part) => know_depths(part),
        BoundNode::Binary(_, x, y) => {
            know_depths(x);
            know_depths(y);
        }
        BoundNode::Pack(_, parts, _) => {
            for part in parts {
                know_depths(part);
            }
        }
        _ => {}
    }
}

/// An expression, written again over a scope.
pub(crate) fn rewritten(
    alloc: Global,
    what: Rewriting,
    expr: &BoundExpression,
    scope: &Arc<DType>,
) -> Result<BoundExpression, NoMemory>
    requires { NodesHold scope.now.value (rewritten (rules_of what scope.now.value) expr.now.expr) }
    ensures { IfOk result (λ b. b ≡ bound_of scope.now.value (rewritten (rules_of what scope.now.value) expr.now.expr)) }
{
    match expr.node() {
        BoundNode::Root => new_root(alloc, what, scope),
        BoundNode::RowIdx => new_row(alloc, what, scope),
        BoundNode::Literal(dtype, value) => {
            BoundExpression::literal(
                alloc,
                scope,
                dtype.try_clone(alloc)?,
                value.try_clone(alloc)?,
            )
        }
        BoundNode::Unary(op, part) => {
            if part.is_root() {
                if let Some(made) = new_operator(alloc, what, op, scope)? {
                    return Ok(made);
                }
            }
            let part = rewritten(alloc, what, part, scope)?;
            BoundExpression::unary(alloc, op.try_clone(alloc)?, part)
        }
        BoundNode::Binary(op, x, y) => {
            let x = rewritten(alloc, what, x, scope)?;
            let y = rewritten(alloc, what, y, scope)?;
            BoundExpression::binary(alloc, op, x, y)
        }
        BoundNode::Pack(names, parts, n) => {
            let mut made = Vec::with_capacity(alloc, parts.len())?;
            for part in parts {
                made.push(rewritten(alloc, what, part, scope)?)?;
            }
            BoundExpression::pack(alloc, scope, names.try_clone(alloc)?, made, n)
        }
    }
}

fn stepped_operator(
    alloc: Global,
    op: &Unary,
    scope: &Arc<DType>,
) -> Result<Option<BoundExpression>, NoMemory>
    ensures { IfOk result (λ o. o ≡ option_map (bound_of scope.now.value) ((rules_of Rewriting.StepIn scope.now.value).on_operator op.now)) }
{
    match op {
        Unary::GetItem(_) | Unary::IsNotNull => Ok(Some(BoundExpression::root(alloc, scope)?)),
        _ => Ok(None),
    }
}

fn validity_operator(
    alloc: Global,
    op: &Unary,
    scope: &Arc<DType>,
) -> Result<Option<BoundExpression>, NoMemory>
    requires { NodesHold scope.now.value (or_kept ((rules_of Rewriting.Validity scope.now.value).on_operator op.now) root) }
    ensures { IfOk result (λ o. o ≡ option_map (bound_of scope.now.value) ((rules_of Rewriting.Validity scope.now.value).on_operator op.now)) }
{
    match op {
        Unary::IsNotNull => Ok(Some(BoundExpression::root(alloc, scope)?)),
        Unary::IsNull => {
            let here = BoundExpression::root(alloc, scope)?;
            Ok(Some(BoundExpression::unary(alloc, Unary::Not, here)?))
        }
        _ => Ok(None),
    }
}

fn length_operator(
    alloc: Global,
    op: &Unary,
    scope: &Arc<DType>,
) -> Result<Option<BoundExpression>, NoMemory>
    ensures { IfOk result (λ o. o ≡ option_map (bound_of scope.now.value) ((rules_of Rewriting.Lengths scope.now.value).on_operator op.now)) }
{
    match op {
        Unary::ListLength => Ok(Some(BoundExpression::root(alloc, scope)?)),
        _ => Ok(None),
    }
}
