// Readers of the kinds of layouts.
ghost use Rattle.std.specs.Prelude.{◌≡◌, ◌↔◌, ◌<◌, IfOk, Err, true, false, option_map};
ghost use Rattle.scan_values.specs.DataType.{Name};
ghost use Rattle.scan_expr.specs.Expr.{uses_row_index};
ghost use Rattle.scan_layout.specs.Layout.{dtype_of, rows_of};
ghost use Rattle.scan_partition.specs.Partable.{IsPartable};
ghost use Rattle.scan_plans.specs.PlanData.{plan_data};
ghost use Rattle.scan_splits.specs.RowLists.{shifted, Pushes};
ghost use Rattle.scan_splits.specs.SplitFaults.{Tells};
ghost use Rattle.scan_readers.specs.KindView.{layout_of, leaf_of, made_of};
ghost use Rattle.scan_readers.specs.LeafPlans.{layout_state, is_leaf};
ghost use Rattle.scan_readers.specs.Made.{is_made, none_made, nth_made};
ghost use Rattle.scan_readers.specs.PlanOf.{IsPlanOf};
ghost use Rattle.scan_readers.specs.Reached.{reached, MakesWithin, MakesAll};
ghost use Rattle.scan_readers.specs.Readers.{split_fault};
ghost use Rattle.scan_readers.specs.StructData.{IsReadable};

use crate::leaf::LeafReader;
use crate::nested::NestedReader;
use scan_expr::BoundExpression;
use scan_layout::{LayoutKind, LayoutNode, LayoutRef};
use scan_plans::PlanNode;
use scan_splits::{RowSplits, SplitFault, SplitRange, register_layout_splits};
use scan_values::{DType, FieldMask, NoMemory};
use std::alloc::Global;

/// A reader of one kind of layout.
#[cycle(reader)]
#[derive(Drop)]
pub(crate) enum ReaderKind {
    Leaf(LeafReader),
    Nested(NestedReader),
}

impl ReaderKind {
    /// A reader of a layout, of whose children none is made.
    pub(crate) fn of_layout(alloc: Global, layout: &LayoutRef) -> Result<ReaderKind, NoMemory>
        requires { IsReadable layout.now.value }
        ensures layout { IfOk result (λ k. layout_of k ≡ layout.now.value) }
        ensures made { IfOk result (λ k. made_of k ≡ none_made layout.now.value) }
    {
        let node: &LayoutNode = layout;
        match &node.kind {
            LayoutKind::Leaf(segments, spelling) => {
                let leaf = LeafReader::of_segments(alloc, &node.dtype, *spelling, segments)?;
                Ok(ReaderKind::Leaf(leaf))
            }
            LayoutKind::Struct => Ok(ReaderKind::Nested(NestedReader::new(alloc, layout)?)),
            LayoutKind::List(_) => Ok(ReaderKind::Nested(NestedReader::new(alloc, layout)?)),
        }
    }

    /// The dtype of its rows.
    pub(crate) fn dtype(&self) -> &DType
        ensures { result.now ≡ dtype_of (layout_of self.now) }
    {
        match self {
            ReaderKind::Leaf(leaf) => &leaf.dtype,
            ReaderKind::Nested(reader) => reader.layout().dtype(),
        }
    }

    /// The number of its rows.
    pub(crate) fn row_count(&self) -> u64
        ensures { result ≡ rows_of (layout_of self.now) }
    {
        match self {
            ReaderKind::Leaf(leaf) => leaf.runs.row_count(),
            ReaderKind::Nested(reader) => reader.layout().row_count(),
        }
    }

    /// Registers its splits by masks in a range, each plus the range's row offset. No child is made.
    pub(crate) fn register_splits(
        &self,
        alloc: Global,
        masks: &[FieldMask],
        range: &SplitRange,
        splits: &mut RowSplits,
    ) -> Result<(), SplitFault>
        ensures bounds { (result ≡ Err SplitFault.Bounds) ↔ (rows_of (layout_of self.now) < range.now.end) }
        ensures first { (name : Name) →
            Tells result (split_fault (layout_state name (layout_of self.now)) masks.now range.now.end) }
        ensures pushed { (name : Name) → Pushes result (shifted range.now.offset
            ((layout_state name (layout_of self.now)).edges masks.now range.now.start range.now.end))
            splits.old splits.new }
    {
        match self {
            ReaderKind::Leaf(leaf) => leaf.runs.register_splits(range, splits),
            ReaderKind::Nested(reader) => {
                register_layout_splits(alloc, reader.layout(), masks, range, splits)
            }
        }
    }

    /// The leaf that it reads.
    pub(crate) fn leaf(&self) -> Result<LeafReader, NoMemory>
        requires { is_leaf (layout_of self.now) ≡ true }
        ensures { IfOk result (λ r. leaf_of r ≡ layout_of self.now) }
    {
        match self {
            ReaderKind::Leaf(leaf) => leaf.share(),
            ReaderKind::Nested(reader) => {
                let _own = reader.layout();
                unreachable!()
            }
        }
    }

    /// The child of an index, where it is made.
    fn child(&self, index: usize) -> Option<&ReaderKind>
        ensures { option_map (λ k. made_of k.now) result ≡ nth_made (made_of self.now) index }
    {
        match self {
            ReaderKind::Leaf(_) => None,
            ReaderKind::Nested(reader) => reader.child(index),
        }
    }

    /// Whether the child at a path of indices is made.
    #[tactic(auto, using(crate::proofs::Making::made_below, crate::proofs::Making::made_not, crate::proofs::Making::made_end))]
    pub(crate) fn is_made(&self, path: &[usize]) -> bool
        ensures { result ≡ is_made (made_of self.now) path.now }
    {
        let mut reader = self;
        for index in path {
            match reader.child(*index) {
                Some(child) => reader = child,
                None => return false,
            }
        }
        true
    }

    /// The node of an expression. The children that the expression reaches are made, and no other.
    #[cycle(planning)]
    pub(crate) fn node(
        &mut self,
        alloc: Global,
        expr: &BoundExpression,
    ) -> Result<PlanNode, NoMemory>
        requires readable { IsReadable (layout_of self.old) }
        requires scope { expr.now.scope ≡ dtype_of (layout_of self.old) }
        requires bound { IsPartable expr.now }
        requires rows { uses_row_index expr.now.expr ≡ false }
        ensures same { layout_of self.new ≡ layout_of self.old }
        ensures within { MakesWithin (reached (layout_of self.old) expr.now) (made_of self.old) (made_of self.new) }
        ensures all { IfOk result (λ _.
            MakesAll (reached (layout_of self.old) expr.now) (made_of self.old) (made_of self.new)) }
        ensures plan { IfOk result (λ n. (name : Name) →
            IsPlanOf (layout_state name (layout_of self.old)) expr.now (plan_data expr.now n)) }
    {
        match self {
            ReaderKind::Leaf(leaf) => leaf.node(alloc, expr),
            ReaderKind::Nested(reader) => reader.node(alloc, expr),
        }
    }
}
