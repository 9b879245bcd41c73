// Plans over the children of a list.
ghost use Rattle.std.specs.Prelude.{◌≡◌, IfOk, false};
ghost use Rattle.scan_values.specs.DataType.{bool_type, int_type, list_type, nullability_of};
ghost use Rattle.scan_expr.specs.Expr.{uses_row_index};
ghost use Rattle.scan_partition.specs.Lists.{IsClass, necessary};
ghost use Rattle.scan_plans.specs.Formed.{AreLengths, NeverOverflows};
ghost use Rattle.scan_plans.specs.Meaning.{plan_dtype};
ghost use Rattle.scan_plans.specs.OffsetsData.{AreNumbers};
ghost use Rattle.scan_plans.specs.PlanTree.{leaf, lists, valid};
ghost use Rattle.scan_readers.specs.ListPlans.{IsListType, IsListTypeOf, IsByLengthsOf, IsNeverNull, IsMaybeNull};
ghost use Rattle.scan_readers.specs.ListPlans.{IsNeverNullPlan, IsNullsPlan, IsLengthsPlan, IsValidLengthsPlan};
ghost use Rattle.scan_readers.specs.ListPlans.{IsListsPlan, IsValidListsPlan};

use crate::leaf::LeafReader;
use scan_expr::BoundExpression;
use scan_partition::{
    ListChildrenNeeded, necessary_children_are_needed, rewrite_offsets, rewrite_validity,
};
use scan_plans::{Offsets, PlanNode};
use scan_values::{DType, NoMemory, Nullability, PType};
use std::alloc::Global;
use std::sync::Arc;

/// The leaves of a list.
#[derive(Drop)]
pub(crate) struct ListLeaves {
    pub(crate) offsets: LeafReader,
    pub(crate) validity: Option<LeafReader>,
}

/// The node of an expression that reads at most whether a list is null, over lists that never are.
pub(crate) fn never_null_node(alloc: Global, expr: &BoundExpression) -> Result<PlanNode, NoMemory>
    requires scope { IsNeverNull expr.now.scope }
    requires class { necessary expr.now.expr ≡ ListChildrenNeeded.Validity }
    requires rows { uses_row_index expr.now.expr ≡ false }
    ensures plan { IfOk result (IsNeverNullPlan expr.now) }
{
    let copy = expr.try_clone(alloc)?;
    Ok(PlanNode::constant(copy))
}

/// The node of an expression that reads at most whether a list is null, by the leaf of the lists' validity.
pub(crate) fn nulls_node(
    alloc: Global,
    expr: &BoundExpression,
    validity: &LeafReader,
) -> Result<PlanNode, NoMemory>
    requires class { necessary expr.now.expr ≡ ListChildrenNeeded.Validity }
    requires rows { uses_row_index expr.now.expr ≡ false }
    requires validity { validity.now.dtype.value ≡ bool_type Nullability.NonNullable }
    ensures plan { IfOk result (IsNullsPlan expr.now validity.now) }
{
    let _law = necessary_children_are_needed();
    let over = rewrite_validity(alloc, expr)?;
    let leaf = validity.values()?;
    PlanNode::evaluate(alloc, over, leaf)
}

/// The node of an expression that reads at most how many elements lists have, by the node of how many these are.
pub(crate) fn by_lengths_node(
    alloc: Global,
    expr: &BoundExpression,
    lengths: PlanNode,
) -> Result<PlanNode, NoMemory>
    requires scope { IsListType expr.now.scope }
    requires class { IsClass ListChildrenNeeded.OffsetsAndValidity (necessary expr.now.expr) }
    requires rows { uses_row_index expr.now.expr ≡ false }
    requires dtype { plan_dtype lengths ≡ int_type PType.U64 (nullability_of expr.now.scope) }
    requires lengths { AreLengths lengths }
    ensures { IfOk result (IsByLengthsOf expr.now lengths) }
{
    let dtype = DType::primitive(PType::U64, expr.scope().nullability());
    let over = rewrite_offsets(alloc, expr, &dtype)?;
    let copy = expr.try_clone(alloc)?;
    PlanNode::by_lengths(alloc, copy, over, lengths)
}

/// The node of lists, none of which is null, by the node of their elements.
pub(crate) fn lists_node(
    alloc: Global,
    expr: &BoundExpression,
    elements: PlanNode,
    offsets: Offsets,
) -> Result<PlanNode, NoMemory>
    requires scope { IsListTypeOf (plan_dtype elements) expr.now.scope }
    requires overflow { NeverOverflows elements offsets.elements }
    ensures { IfOk result (λ p. p ≡
        lists (list_type (plan_dtype elements) Nullability.NonNullable) elements offsets) }
{
    let dtype = expr
        .scope()
        .try_clone(alloc)?
        .with_nullability(Nullability::NonNullable);
    let dtype = Arc::new(alloc, dtype)?;
    PlanNode::lists(alloc, dtype, elements, offsets)
}

/// A node under the leaf of a validity.
pub(crate) fn valid_node(
    alloc: Global,
    values: PlanNode,
    validity: &LeafReader,
) -> Result<PlanNode, NoMemory>
    requires { validity.now.dtype.value ≡ bool_type Nullability.NonNullable }
    ensures { IfOk result (λ p. p ≡
        valid values (leaf validity.now.dtype.value validity.now.spelling validity.now.runs.value)) }
{
    let leaf = validity.values()?;
    PlanNode::valid(alloc, values, leaf)
}

/// The node of an expression that reads how many elements lists have, none of which is null, by the leaf of offsets.
pub(crate) fn lengths_node(
    alloc: Global,
    expr: &BoundExpression,
    offsets: &LeafReader,
    elements: u64,
) -> Result<PlanNode, NoMemory>
    requires scope { IsNeverNull expr.now.scope }
    requires class { necessary expr.now.expr ≡ ListChildrenNeeded.OffsetsAndValidity }
    requires rows { uses_row_index expr.now.expr ≡ false }
    requires numbers { AreNumbers offsets.now.dtype.value }
    ensures plan { IfOk result (IsLengthsPlan expr.now offsets.now elements) }
{
    let _law = necessary_children_are_needed();
    let read = offsets.offsets(elements)?;
    by_lengths_node(alloc, expr, PlanNode::lengths(read))
}

/// The same of lists that may be null, by the leaf of their validity too.
pub(crate) fn valid_lengths_node(
    alloc: Global,
    expr: &BoundExpression,
    offsets: &LeafReader,
    elements: u64,
    validity: &LeafReader,
) -> Result<PlanNode, NoMemory>
    requires scope { IsMaybeNull expr.now.scope }
    requires class { necessary expr.now.expr ≡ ListChildrenNeeded.OffsetsAndValidity }
    requires rows { uses_row_index expr.now.expr ≡ false }
    requires numbers { AreNumbers offsets.now.dtype.value }
    requires validity { validity.now.dtype.value ≡ bool_type Nullability.NonNullable }
    ensures plan { IfOk result (IsValidLengthsPlan expr.now offsets.now elements validity.now) }
{
    let _law = necessary_children_are_needed();
    let read = offsets.offsets(elements)?;
    let lengths = valid_node(alloc, PlanNode::lengths(read), validity)?;
    by_lengths_node(alloc, expr, lengths)
}

/// The node of an expression over lists, none of which is null, by the node of all their elements and the leaf of
/// offsets.
pub(crate) fn all_node(
    alloc: Global,
    expr: &BoundExpression,
    node: PlanNode,
    offsets: &LeafReader,
    elements: u64,
) -> Result<PlanNode, NoMemory>
    requires scope { expr.now.scope ≡ list_type (plan_dtype node) Nullability.NonNullable }
    requires class { necessary expr.now.expr ≡ ListChildrenNeeded.All }
    requires rows { uses_row_index expr.now.expr ≡ false }
    requires numbers { AreNumbers offsets.now.dtype.value }
    requires overflow { NeverOverflows node elements }
    ensures plan { IfOk result (IsListsPlan expr.now node offsets.now elements) }
{
    let _law = necessary_children_are_needed();
    let read = offsets.offsets(elements)?;
    let copy = expr.try_clone(alloc)?;
    let values = lists_node(alloc, expr, node, read)?;
    PlanNode::evaluate(alloc, copy, values)
}

/// The same of lists that may be null, by the leaf of their validity too.
pub(crate) fn valid_all_node(
    alloc: Global,
    expr: &BoundExpression,
    node: PlanNode,
    offsets: &LeafReader,
    elements: u64,
    validity: &LeafReader,
) -> Result<PlanNode, NoMemory>
    requires scope { expr.now.scope ≡ list_type (plan_dtype node) Nullability.Nullable }
    requires class { necessary expr.now.expr ≡ ListChildrenNeeded.All }
    requires rows { uses_row_index expr.now.expr ≡ false }
    requires numbers { AreNumbers offsets.now.dtype.value }
    requires overflow { NeverOverflows node elements }
    requires validity { validity.now.dtype.value ≡ bool_type Nullability.NonNullable }
    ensures plan { IfOk result (IsValidListsPlan expr.now node offsets.now elements validity.now) }
{
    let _law = necessary_children_are_needed();
    let read = offsets.offsets(elements)?;
    let copy = expr.try_clone(alloc)?;
    let values = lists_node(alloc, expr, node, read)?;
    let under = valid_node(alloc, values, validity)?;
    PlanNode::evaluate(alloc, copy, under)
}
