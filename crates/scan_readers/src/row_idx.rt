//! Readers that number the rows of another. After the crate's `layouts/row_idx`.
ghost use Rattle.std.specs.Prelude.{◌≡◌, ◌≤◌, ◌+◌, ◌^◌, ◌<◌, ◌↔◌, [], Err, IfOk, OnErr, None, Some, length, true, false};
ghost use Rattle.scan_expr.specs.Expr.{uses_row_index};
ghost use Rattle.scan_partition.specs.Partable.{IsPartable, ArePartable};
ghost use Rattle.scan_partition.specs.RowSplit.{IsPartOver, PartsOver, read_type};
ghost use Rattle.scan_plans.specs.PlanData.{plan_data};
ghost use Rattle.scan_readers.specs.Kept.{find_plan, Makes, Stay};
ghost use Rattle.scan_readers.specs.PlanOf.{IsPlanOf};
ghost use Rattle.scan_readers.specs.RowIdxData.{row_idx_data, numbered_state};
ghost use Rattle.scan_readers.specs.RowParts.{IsPartPlan, ArePartPlans};

use crate::kept::KeptPlans;
use crate::reader::LayoutReader;
use scan_expr::BoundExpression;
use scan_partition::{Partition, PartitionedRowIdx, Partitioning, partition_row_idx};
use scan_plans::{Plan, PlanNode, PlanNodes};
use scan_splits::{RowSplits, SplitFault, SplitRange};
use scan_values::{DType, FieldMask, NoMemory, Text};
use std::alloc::Global;
use std::marker::Model;
use std::sync::Arc;
use thiserror::Error;

/// Why rows are not numbered.
#[derive(Clone, Copy, Debug, PartialEq, Eq, Error)]
pub enum RowIdxFault {
    #[error("the offset and the row count pass u64 in sum")]
    RowOffset,
    #[error("out of memory")]
    NoMemory,
}

/// A reader of another's rows that numbers them, from an offset on. Contracts see the offset, the other reader, and the
/// plans of expressions with row numbers that are kept.
#[derive(Drop)]
pub struct RowIdxLayoutReader<R: LayoutReader> {
    row_offset: u64,
    child: R,
    kept: KeptPlans,
}

impl<R: LayoutReader> Model for RowIdxLayoutReader<R> {
    ghost use Rattle.scan_readers.specs.RowIdxData.{RowIdxData, row_idx_data, row_idx_code, IsRowIdx};

    ghost Value = { RowIdxData R };

    ghost coded = { row_idx_code R.code };

    ghost view = { λ a. row_idx_data a.row_offset a.child a.kept };

    ghost invariant = { λ a. IsRowIdx a.row_offset (R.state a.child) a.kept };
}

impl<R: LayoutReader + Drop> RowIdxLayoutReader<R> {
    /// A reader that numbers the rows of another from an offset on.
    ///
    /// # Errors
    /// `RowOffset` exactly where the offset and the row count pass u64 in sum. Nothing else: no memory is taken.
    pub fn new(alloc: Global, row_offset: u64, child: R) -> Result<Self, RowIdxFault>
        ensures made { IfOk result (λ r. r ≡ row_idx_data row_offset child []) }
        ensures fault { (result ≡ Err RowIdxFault.RowOffset) ↔ (2 ^ 64 ≤ row_offset + (R.state child).rows) }
        ensures alone { OnErr result (result ≡ Err RowIdxFault.RowOffset) }
    {
        if row_offset.checked_add(child.row_count()).is_none() {
            return Err(RowIdxFault::RowOffset);
        }
        Ok(RowIdxLayoutReader {
            row_offset,
            child,
            kept: KeptPlans::new(alloc),
        })
    }
}

/// The node of a part of an expression, on what it reads: the rows' numbers, of which this is the first, or the rows.
fn part_node<R: LayoutReader>(
    alloc: Global,
    child: &mut R,
    first: u64,
    item: Partition,
    part: &BoundExpression,
) -> Result<PlanNode, NoMemory>
    requires numbers { first + (R.state child.old).rows < 2 ^ 64 }
    requires over { IsPartOver (read_type (R.state child.old).dtype item) part.now }
    requires bound { IsPartable part.now }
    ensures same { R.state child.new ≡ R.state child.old }
    ensures stay { Stay (R.kept child.old) (R.kept child.new) }
    ensures plan { IfOk result (λ n. IsPartPlan (R.state child.old) first item part.now n) }
{
    match item {
        Partition::RowIdx => {
            let part = part.try_clone(alloc)?;
            PlanNode::evaluate(alloc, part, PlanNode::numbers(first))
        }
        Partition::Child => child.plan(alloc, part)?.copy_node(alloc),
    }
}

/// The nodes of the parts of an expression.
fn part_nodes<R: LayoutReader>(
    alloc: Global,
    child: &mut R,
    first: u64,
    parted: &PartitionedRowIdx,
) -> Result<PlanNodes, NoMemory>
    requires numbers { first + (R.state child.old).rows < 2 ^ 64 }
    requires over { PartsOver (R.state child.old).dtype parted.now.items parted.now.parts }
    requires bound { ArePartable parted.now.parts }
    ensures same { R.state child.new ≡ R.state child.old }
    ensures stay { Stay (R.kept child.old) (R.kept child.new) }
    ensures plans { IfOk result (λ ns.
        ArePartPlans (R.state child.old) first parted.now.items parted.now.parts ns) }
{
    let items = parted.items();
    let mut nodes = Vec::with_capacity(alloc, items.len())?;
    for i in 0..items.len() {
        nodes.push(part_node(alloc, child, first, items[i], parted.part(i))?)?;
    }
    Ok(PlanNodes::new(nodes))
}

/// The node of an expression in which row numbers stand.
fn numbered_node<R: LayoutReader>(
    alloc: Global,
    child: &mut R,
    first: u64,
    expr: &BoundExpression,
) -> Result<PlanNode, NoMemory>
    requires numbers { first + (R.state child.old).rows < 2 ^ 64 }
    requires scope { expr.now.scope ≡ (R.state child.old).dtype }
    requires bound { IsPartable expr.now }
    requires uses { uses_row_index expr.now.expr ≡ true }
    ensures same { R.state child.new ≡ R.state child.old }
    ensures stay { Stay (R.kept child.old) (R.kept child.new) }
    ensures plan { IfOk result (λ n.
        IsPlanOf (numbered_state first (R.state child.old)) expr.now (plan_data expr.now n)) }
{
    match partition_row_idx(alloc, expr)? {
        Partitioning::RowIdx(part) => part_node(alloc, child, first, Partition::RowIdx, &part),
        Partitioning::Child(part) => part_node(alloc, child, first, Partition::Child, &part),
        Partitioning::Both(parted) => {
            let root = parted.root().try_clone(alloc)?;
            let nodes = part_nodes(alloc, child, first, &parted)?;
            Ok(PlanNode::over(root, nodes))
        }
    }
}

/// The plan of an expression in which row numbers may stand, over a reader whose rows are numbered from this number on.
/// A reader that numbers them makes the same. Nothing is kept but what the other reader keeps.
pub fn plan_with_numbers<R: LayoutReader>(
    alloc: Global,
    child: &mut R,
    first: u64,
    expr: &BoundExpression,
) -> Result<Arc<Plan>, NoMemory>
    requires numbers { first + (R.state child.old).rows < 2 ^ 64 }
    requires scope { expr.now.scope ≡ (R.state child.old).dtype }
    requires bound { IsPartable expr.now }
    ensures same { R.state child.new ≡ R.state child.old }
    ensures stay { Stay (R.kept child.old) (R.kept child.new) }
    ensures plan { IfOk result (λ p. IsPlanOf (numbered_state first (R.state child.old)) expr.now p.value) }
{
    if !expr.uses_row_idx() {
        return child.plan(alloc, expr);
    }
    let node = numbered_node(alloc, child, first, expr)?;
    Ok(Arc::new(alloc, Plan::new(expr.try_clone(alloc)?, node))?)
}

impl<R: LayoutReader + Drop> RowIdxLayoutReader<R> {
    /// The plan of an expression with row numbers of which none is kept, which is kept from then on.
    fn make(&mut self, alloc: Global, expr: &BoundExpression) -> Result<Arc<Plan>, NoMemory>
        requires scope { expr.now.scope ≡ (R.state self.old.child).dtype }
        requires bound { IsPartable expr.now }
        requires uses { uses_row_index expr.now.expr ≡ true }
        requires none { find_plan self.old.kept expr.now ≡ None }
        ensures made { Makes self.old.kept self.new.kept expr.now result }
        ensures plan { IfOk result (λ p.
            IsPlanOf (numbered_state self.old.offset (R.state self.old.child)) expr.now p.value) }
        ensures offset { self.new.offset ≡ self.old.offset }
        ensures same { R.state self.new.child ≡ R.state self.old.child }
        ensures stay { Stay (R.kept self.old.child) (R.kept self.new.child) }
    {
        let node = numbered_node(alloc, &mut self.child, self.row_offset, expr)?;
        let plan = Arc::new(alloc, Plan::new(expr.try_clone(alloc)?, node))?;
        self.kept.keep(plan)
    }
}

impl<R: LayoutReader + Drop> LayoutReader for RowIdxLayoutReader<R> {
    ghost use Rattle.scan_readers.specs.RowIdxData.{numbered_state, kept_by_numbers};

    ghost state = { λ r. numbered_state r.offset (R.state r.child) };

    ghost kept = { λ r. kept_by_numbers (R.kept r.child) r.kept };

    fn name(&self) -> &Text {
        self.child.name()
    }

    fn dtype(&self) -> &DType {
        self.child.dtype()
    }

    fn row_count(&self) -> u64 {
        self.child.row_count()
    }

    fn register_splits(
        &mut self,
        alloc: Global,
        masks: &[FieldMask],
        range: &SplitRange,
        splits: &mut RowSplits,
    ) -> Result<(), SplitFault> {
        self.child.register_splits(alloc, masks, range, splits)
    }

    fn plan(&mut self, alloc: Global, expr: &BoundExpression) -> Result<Arc<Plan>, NoMemory> {
        if !expr.uses_row_idx() {
            return self.child.plan(alloc, expr);
        }
        match self.kept.find(expr) {
            Some(plan) => Ok(plan.clone()?),
            None => self.make(alloc, expr),
        }
    }
}
