// The root of a partition.
ghost use Rattle.std.specs.Prelude.{◌≡◌, IfOk, map};
ghost use Rattle.scan_expr.specs.Bound.{bound_of, exprs_of};
ghost use Rattle.scan_partition.specs.Planted.{planted, parts_planted, list_planted, first_leaf, AllFit};
ghost use Rattle.scan_partition.specs.Leaves.{groups_in, leaves_from, scope_in};
ghost use Rattle.scan_partition.specs.Rewrite.{NodesHold};

use crate::cuts::{Sole, items_used};
use crate::leaves::Leaves;
use scan_expr::{BoundExpression, BoundNode};
use scan_values::NoMemory;
use std::alloc::Global;

/// The next leaf, and what stands after it.
fn next_leaf(
    alloc: Global,
    leaves: &Leaves,
    at: usize,
) -> Result<(BoundExpression, usize), NoMemory>
    requires { NodesHold (scope_in leaves.now) ((first_leaf (groups_in leaves.now) (leaves_from at leaves.now)).0) }
    ensures expr { IfOk result (λ p. p.0 ≡ bound_of (scope_in leaves.now)
        ((first_leaf (groups_in leaves.now) (leaves_from at leaves.now)).0)) }
    ensures rest { IfOk result (λ p. leaves_from p.1 leaves.now
        ≡ (first_leaf (groups_in leaves.now) (leaves_from at leaves.now)).1) }
{
    if at < leaves.plan.leaves.len() {
        let leaf = leaves.leaf(alloc, leaves.plan.leaves[at])?;
        Ok((leaf, at + 1))
    } else {
        Ok((BoundExpression::root(alloc, leaves.scope)?, at))
    }
}

/// The root, from a leaf on, and the leaf after it.
#[cycle(planting)]
pub(crate) fn plant(
    alloc: Global,
    leaves: &Leaves,
    at: usize,
    expr: &BoundExpression,
) -> Result<(BoundExpression, usize), NoMemory>
    requires { NodesHold (scope_in leaves.now) ((planted (groups_in leaves.now) (leaves_from at leaves.now) expr.now.expr).0) }
    ensures expr { IfOk result (λ p. p.0 ≡ bound_of (scope_in leaves.now)
        ((planted (groups_in leaves.now) (leaves_from at leaves.now) expr.now.expr).0)) }
    ensures rest { IfOk result (λ p. leaves_from p.1 leaves.now
        ≡ (planted (groups_in leaves.now) (leaves_from at leaves.now) expr.now.expr).1) }
{
    match items_used(expr) {
        Sole::One(_) => next_leaf(alloc, leaves, at),
        _ => plant_parts(alloc, leaves, at, expr),
    }
}

/// The same of an expression that is no leaf.
#[cycle(planting)]
fn plant_parts(
    alloc: Global,
    leaves: &Leaves,
    at: usize,
    expr: &BoundExpression,
) -> Result<(BoundExpression, usize), NoMemory>
    requires { NodesHold (scope_in leaves.now) ((parts_planted (groups_in leaves.now)
        (leaves_from at leaves.now) expr.now.expr).0) }
    ensures expr { IfOk result (λ p. p.0 ≡ bound_of (scope_in leaves.now)
        ((parts_planted (groups_in leaves.now) (leaves_from at leaves.now) expr.now.expr).0)) }
    ensures rest { IfOk result (λ p. leaves_from p.1 leaves.now
        ≡ (parts_planted (groups_in leaves.now) (leaves_from at leaves.now) expr.now.expr).1) }
{
    match expr.node() {
        BoundNode::Root => Ok((BoundExpression::root(alloc, leaves.scope)?, at)),
        BoundNode::RowIdx => Ok((BoundExpression::row_idx(alloc, leaves.scope)?, at)),
        BoundNode::Literal(dtype, value) => {
            let dtype = dtype.try_clone(alloc)?;
            let value = value.try_clone(alloc)?;
            Ok((
                BoundExpression::literal(alloc, leaves.scope, dtype, value)?,
                at,
            ))
        }
        BoundNode::Unary(op, part) => {
            let (part, at) = plant(alloc, leaves, at, part)?;
            Ok((
                BoundExpression::unary(alloc, op.try_clone(alloc)?, part)?,
                at,
            ))
        }
        BoundNode::Binary(op, x, y) => {
            let (x, at) = plant(alloc, leaves, at, x)?;
            let (y, at) = plant(alloc, leaves, at, y)?;
            Ok((BoundExpression::binary(alloc, op, x, y)?, at))
        }
        BoundNode::Pack(names, parts, n) => {
            let (parts, at) = plant_all(alloc, leaves, at, parts)?;
            let names = names.try_clone(alloc)?;
            Ok((
                BoundExpression::pack(alloc, leaves.scope, names, parts, n)?,
                at,
            ))
        }
    }
}

/// The same of several expressions, one after another.
#[cycle(planting)]
fn plant_all(
    alloc: Global,
    leaves: &Leaves,
    at: usize,
    exprs: &[BoundExpression],
) -> Result<(Vec<BoundExpression>, usize), NoMemory>
    requires { AllFit (scope_in leaves.now) ((list_planted (groups_in leaves.now)
        (leaves_from at leaves.now) (exprs_of exprs.now)).0) }
    ensures exprs { IfOk result (λ p. p.0.items ≡ map (bound_of (scope_in leaves.now))
        ((list_planted (groups_in leaves.now) (leaves_from at leaves.now) (exprs_of exprs.now)).0)) }
    ensures rest { IfOk result (λ p. leaves_from p.1 leaves.now
        ≡ (list_planted (groups_in leaves.now) (leaves_from at leaves.now) (exprs_of exprs.now)).1) }
{
    let mut planted = Vec::with_capacity(alloc, exprs.len())?;
    let mut next = at;
    for expr in exprs {
        let (part, after) = plant(alloc, leaves, next, expr)?;
        planted.push(part)?;
        next = after;
    }
    Ok((planted, next))
}
