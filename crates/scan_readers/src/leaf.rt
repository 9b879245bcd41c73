// Readers of leaves.
ghost use Rattle.std.specs.Prelude.{◌≡◌, ◌<◌, ◌^◌, IfOk, Err, Ok, Some, None, true, false};
ghost use Rattle.scan_values.specs.Kinds.{is_scalar_type};
ghost use Rattle.scan_expr.specs.Expr.{uses_row_index};
ghost use Rattle.scan_layout.specs.Check.{total_rows};
ghost use Rattle.scan_plans.specs.OffsetsData.{AreNumbers, offsets_data};
ghost use Rattle.scan_plans.specs.PlanTree.{leaf};
ghost use Rattle.scan_readers.specs.LeafPlans.{leaf_layout, leaf_tree};
ghost use Rattle.scan_readers.specs.KindView.{leaf_of};

use crate::reading::reads_scope;
use scan_expr::BoundExpression;
use scan_layout::{LeafSegments, Spelling};
use scan_plans::{Offsets, PlanNode};
use scan_splits::SegmentRuns;
use scan_values::{DType, NoMemory};
use std::alloc::Global;
use std::sync::Arc;

/// A reader of a leaf.
#[derive(Drop)]
pub(crate) struct LeafReader {
    pub(crate) dtype: Arc<DType>,
    pub(crate) spelling: Spelling,
    pub(crate) runs: Arc<SegmentRuns>,
}

impl LeafReader {
    /// A reader of these segments, whose rows sum within u64.
    pub(crate) fn of_segments(
        alloc: Global,
        dtype: &DType,
        spelling: Spelling,
        segments: &LeafSegments,
    ) -> Result<LeafReader, NoMemory>
        requires { total_rows segments.now < 2 ^ 64 }
        ensures { IfOk result (λ r. leaf_of r ≡ leaf_layout dtype.now spelling segments.now) }
    {
        let dtype = Arc::new(alloc, dtype.try_clone(alloc)?)?;
        let runs = Arc::new(alloc, SegmentRuns::from_segments(alloc, segments)?)?;
        Ok(LeafReader {
            dtype,
            spelling,
            runs,
        })
    }

    /// Another handle on the leaf.
    pub(crate) fn share(&self) -> Result<LeafReader, NoMemory>
        ensures { IfOk result (λ r. leaf_of r ≡ leaf_of self.now) }
    {
        let dtype = self.dtype.clone()?;
        let runs = self.runs.clone()?;
        Ok(LeafReader {
            dtype,
            spelling: self.spelling,
            runs,
        })
    }

    /// The node of an expression over the leaf.
    pub(crate) fn node(&self, alloc: Global, expr: &BoundExpression) -> Result<PlanNode, NoMemory>
        requires scope { expr.now.scope ≡ self.now.dtype.value }
        requires rows { uses_row_index expr.now.expr ≡ false }
        requires scalar { is_scalar_type self.now.dtype.value ≡ true }
        ensures { IfOk result (λ n. n ≡
            leaf_tree self.now.dtype.value self.now.spelling self.now.runs.value expr.now) }
    {
        let expr = expr.try_clone(alloc)?;
        if !reads_scope(&expr) {
            return Ok(PlanNode::constant(expr));
        }
        let leaf = self.values()?;
        PlanNode::evaluate(alloc, expr, leaf)
    }

    /// The node of its values.
    pub(crate) fn values(&self) -> Result<PlanNode, NoMemory>
        requires { is_scalar_type self.now.dtype.value ≡ true }
        ensures { IfOk result (λ n. n ≡ leaf self.now.dtype.value self.now.spelling self.now.runs.value) }
    {
        let dtype = self.dtype.clone()?;
        let runs = self.runs.clone()?;
        Ok(PlanNode::leaf(dtype, self.spelling, runs))
    }

    /// Its values as the offsets of lists, over so many elements.
    pub(crate) fn offsets(&self, elements: u64) -> Result<Offsets, NoMemory>
        requires { AreNumbers self.now.dtype.value }
        ensures { IfOk result (λ o. o ≡
            offsets_data self.now.dtype.value self.now.spelling self.now.runs.value elements) }
    {
        let dtype = self.dtype.clone()?;
        let runs = self.runs.clone()?;
        Ok(Offsets::new(dtype, self.spelling, runs, elements))
    }
}
