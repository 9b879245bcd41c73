// Partitioning over the row's number and the child, after the crate's `layouts/row_idx`.
ghost use Rattle.std.specs.Prelude.{◌≡◌, ◌≤◌, ◌<◌, ◌^◌, IfOk, length, map};
ghost use Rattle.scan_values.specs.DataType.{depth_of};
ghost use Rattle.scan_expr.specs.Bound.{Bound, bound_of};
ghost use Rattle.scan_partition.specs.Lift.{lift};
ghost use Rattle.scan_partition.specs.Partition.{cuts};
ghost use Rattle.scan_partition.specs.Rewrite.{NodesHold};
ghost use Rattle.scan_partition.specs.RowDivided.{partition_of, uses_root, number_type, over_number, numbered_scope, row_divided};
ghost use Rattle.scan_partition.specs.Partable.{IsPartable, RowPartsPartable};
ghost use Rattle.scan_partition.specs.RowSplit.{IsOverRows, row_split, KeepsRows, AreOver};

use crate::divide::{Parting, PartitionedExpr, divide, struct_within};
use crate::item::Item;
use crate::rewrite::{Rewriting, rewritten};
use scan_expr::{ApplyFault, BoundExpression, BoundNode};
use scan_values::{Array, DType, FieldName, NoMemory, Nullability, PType};
use std::alloc::Global;
use std::marker::Model;
use std::string::String;
use std::sync::Arc;

/// What an expression reads: the row's number, or the child.
#[derive(Clone, Copy, Debug, PartialEq, Eq)]
pub enum Partition {
    RowIdx,
    Child,
}

impl Partition {
    ghost use Rattle.std.specs.Prelude.{◌≡◌};
    ghost use Rattle.scan_partition.specs.RowDivided.{partition_name};

    /// `row_idx` or `child`.
    pub fn name(&self) -> &str
        ensures { result.now ≡ partition_name self.now }
    {
        match self {
            Partition::RowIdx => "row_idx",
            Partition::Child => "child",
        }
    }
}

/// An expression taken apart by what it reads: a part for each, and a root over a struct of the parts' values.
#[derive(Drop)]
pub struct PartitionedRowIdx {
    items: Vec<Partition>,
    whole: PartitionedExpr,
}

impl Model for PartitionedRowIdx {
    ghost use Rattle.std.specs.Prelude.{◌≡◌, map};
    ghost use Rattle.scan_partition.specs.RowDivided.{RowDivided, row_divided_code, partition_of};

    ghost Value = { RowDivided };

    ghost coded = { row_divided_code };

    ghost view = { λ a. record { items = a.items.items; parts = a.whole.parts; root = a.whole.root } };

    ghost invariant = { λ a. a.items.items ≡ map partition_of a.whole.items };
}

impl PartitionedRowIdx {
    ghost use Rattle.std.specs.Prelude.{◌≡◌, ◌<◌, length, map, true, false, IfOk, Some, Err, slice_get};
    ghost use Rattle.std.specs.List.{range_with_len};
    ghost use Rattle.scan_values.specs.Val.{marked};
    ghost use Rattle.scan_expr.specs.Infer.{infer};
    ghost use Rattle.scan_partition.specs.Joining.{AreOfParts, joined_at, root_overflows};
    ghost use Rattle.scan_partition.specs.RowJoining.{JoinsRows};

    /// What is read, in order of first appearance. There is a part for each.
    pub fn items(&self) -> &[Partition]
        ensures items { result.now ≡ self.now.items }
        ensures even { length self.now.parts ≡ length result.now }
    {
        let _parts = self.whole.items();
        &self.items
    }

    /// The part of the item of this number: over the row's number, or over the child.
    pub fn part(&self, i: usize) -> &BoundExpression
        requires { i < length self.now.items }
        ensures { Some result.now ≡ slice_get self.now.parts i }
    {
        self.whole.part(i)
    }

    /// The root, over a struct of the parts' values under the items' names.
    pub fn root(&self) -> &BoundExpression
        ensures { result.now ≡ self.now.root }
    {
        self.whole.root()
    }

    /// For each row the root's value, over the struct of the parts' values in that row. Where the parts keep the whole
    /// of an expression, and each was evaluated on what it reads, these are the expression's values. `Overflow` exactly
    /// where the root overflows on some row. Condition: one array for each item, of its part's dtype and of this length.
    pub fn join(&self, alloc: Global, parts: Vec<Array>, len: usize) -> Result<Array, ApplyFault>
        requires { AreOfParts len self.now.parts parts.items }
        ensures dtype { IfOk result (λ a. a.dtype ≡ infer self.now.root.scope self.now.root.expr) }
        ensures items { IfOk result (λ a. map marked a.items ≡ map (joined_at self.now.root parts.items) (range_with_len 0 len)) }
        ensures whole { IfOk result (λ a. JoinsRows self.now parts.items len a.items) }
        ensures within { IfOk result (λ _. root_overflows self.now.root parts.items len ≡ false) }
        ensures overflow { result ≡ Err ApplyFault.Overflow → root_overflows self.now.root parts.items len ≡ true }
    {
        let _even = self.whole.items();
        self.whole.join(alloc, parts, len)
    }
}

/// An expression by what it reads.
#[derive(Drop)]
pub enum Partitioning {
    /// The row's number alone, which is `$` here.
    RowIdx(BoundExpression),
    /// The child alone.
    Child(BoundExpression),
    /// Both or neither.
    Both(PartitionedRowIdx),
}

/// Whether `$` stands in an expression.
fn uses_root(expr: &BoundExpression) -> bool
    ensures { result ≡ uses_root expr.now.expr }
{
    match expr.node() {
        BoundNode::Root => true,
        BoundNode::Unary(_, part) => uses_root(part),
        BoundNode::Binary(_, x, y) => uses_root(x) || uses_root(y),
        BoundNode::Pack(_, parts, _) => {
            for part in parts {
                if uses_root(part) {
                    return true;
                }
            }
            false
        }
        _ => false,
    }
}

/// The expression over the row's number.
fn over_number(alloc: Global, expr: &BoundExpression) -> Result<BoundExpression, NoMemory>
    requires { NodesHold number_type (over_number expr.now.expr) }
    ensures { IfOk result (λ b. b ≡ bound_of number_type (over_number expr.now.expr)) }
{
    let number = DType::primitive(PType::U64, Nullability::NonNullable);
    let scope = Arc::new(alloc, number)?;
    rewritten(alloc, Rewriting::Number, expr, &scope)
}

/// The struct of the row's number and the child.
fn numbered_scope(alloc: Global, child: &DType) -> Result<DType, NoMemory>
    requires { depth_of child.now ≤ 64 }
    ensures { IfOk result (λ d. d ≡ numbered_scope child.now) }
{
    let row_name = FieldName::new(String::from_str(alloc, "row_idx")?);
    let child_name = FieldName::new(String::from_str(alloc, "child")?);
    let mut names = Vec::with_capacity(alloc, 2)?;
    names.push(row_name)?;
    names.push(child_name)?;
    let child = child.try_clone(alloc)?;
    let mut dtypes = Vec::with_capacity(alloc, 2)?;
    dtypes.push(DType::primitive(PType::U64, Nullability::NonNullable))?;
    dtypes.push(child)?;
    Ok(struct_within(names, dtypes))
}

/// What an item of that struct reads.
fn partition_of(item: &Item) -> Partition
    ensures { result ≡ partition_of item.now }
{
    match item {
        Item::Field(name) => {
            if name.as_str() == "row_idx" {
                Partition::RowIdx
            } else {
                Partition::Child
            }
        }
        Item::Validity => Partition::Child,
    }
}

fn partitions_of(alloc: Global, items: &[Item]) -> Result<Vec<Partition>, NoMemory>
    ensures { IfOk result (λ v. v.items ≡ map partition_of items.now) }
{
    Ok(items.iter().map(partition_of).collect(alloc)?)
}

/// The expression by both.
fn by_both(alloc: Global, expr: &BoundExpression) -> Result<PartitionedRowIdx, NoMemory>
    requires { IsOverRows expr.now }
    ensures exact { IfOk result (λ d. d ≡ row_divided expr.now.scope expr.now.expr) }
    ensures few { IfOk result (λ _. length (cuts (lift expr.now.expr)) < 2 ^ 64) }
{
    let _typed = expr.dtype();
    let scope = Arc::new(alloc, numbered_scope(alloc, expr.scope())?)?;
    let lifted = rewritten(alloc, Rewriting::Lift, expr, &scope)?;
    let whole = divide(alloc, Parting::Stepped, &lifted)?;
    let items = partitions_of(alloc, whole.items())?;
    Ok(PartitionedRowIdx { items, whole })
}

/// An expression by the row's number and the child. The parts, each on what it reads, joined by the root give the
/// expression's value on each row, and its dtype. No row's number stands in a part or in the root: there it is `$`.
pub fn partition_row_idx(alloc: Global, expr: &BoundExpression) -> Result<Partitioning, NoMemory>
    requires { IsPartable expr.now }
    ensures exact { IfOk result (λ p. p ≡ row_split expr.now.scope expr.now.expr) }
    ensures joined { IfOk result (λ p. KeepsRows expr.now p) }
    ensures over { IfOk result (λ p. AreOver expr.now.scope p) }
    ensures again { IfOk result (λ p. RowPartsPartable p) }
{
    let _typed = expr.dtype();
    match (expr.uses_row_idx(), uses_root(expr)) {
        (true, false) => Ok(Partitioning::RowIdx(over_number(alloc, expr)?)),
        (false, true) => Ok(Partitioning::Child(expr.try_clone(alloc)?)),
        _ => Ok(Partitioning::Both(by_both(alloc, expr)?)),
    }
}
