//! Readers of rows. After the Rust's `reader`, whose readers evaluate an expression anew in each call.
ghost use Rattle.std.specs.Prelude.{◌≡◌, ◌≤◌, ◌<◌, ◌+◌, ◌++◌, ◌∷◌, ◌↔◌, [], Err, IfOk, Some, length, true, false};
ghost use Rattle.scan_values.specs.Fits.{is_bool_type};
ghost use Rattle.scan_expr.specs.Infer.{infer};
ghost use Rattle.scan_partition.specs.Partable.{IsPartable};
ghost use Rattle.scan_plans.specs.Futures.{future_data};
ghost use Rattle.scan_plans.specs.Masks.{mask_data};
ghost use Rattle.scan_plans.specs.Pruning.{pruned};
ghost use Rattle.scan_splits.specs.RowLists.{shifted, Pushes};
ghost use Rattle.scan_splits.specs.SplitFaults.{Tells};
ghost use Rattle.scan_readers.specs.Evaluations.{Filters, Projects, Prunes};
ghost use Rattle.scan_readers.specs.FieldNames.{name_fields};
ghost use Rattle.scan_readers.specs.Kept.{Stay};
ghost use Rattle.scan_readers.specs.PlanOf.{IsPlanOf};
ghost use Rattle.scan_readers.specs.Readers.{lacks_numbers, split_fault};

use scan_expr::BoundExpression;
use scan_plans::{ArrayFuture, MaskFuture, Plan};
use scan_splits::{RowSplits, SplitFault, SplitRange};
use scan_values::{DType, FieldMask, Mask, NoMemory, Text};
use std::alloc::Global;
use std::ops::Range;
use std::sync::Arc;

/// A reader of rows of one dtype. It makes plans of expressions, and keeps them.
pub trait LayoutReader {
    ghost use Rattle.scan_readers.specs.Readers.{ReaderState};
    ghost use Rattle.scan_readers.specs.Kept.{Kept};

    /// What no call changes: its rows with their values, what they touch, and where they are split.
    ghost state: { Self → ReaderState };

    /// The plan that it keeps of an expression.
    ghost kept: { Self → Kept };

    /// Its name, for those who look for faults.
    fn name(&self) -> &Text
        ensures { result.now ≡ (state self.now).name };

    /// The dtype of its rows.
    fn dtype(&self) -> &DType
        ensures { result.now ≡ (state self.now).dtype };

    /// The number of its rows.
    fn row_count(&self) -> u64
        ensures { result ≡ (state self.now).rows };

    /// Registers its splits by masks in a range of its rows, each plus the range's row offset. What was pushed before a
    /// refusal stays.
    ///
    /// # Errors
    /// `Bounds` exactly where the range's end passes the row count. Else `NoSuchField` exactly where a mask names no
    /// field, unless memory ran out before: `NoMemory`. A mask that matches all, or whose path names a field of the
    /// dtype, name by name, does name one.
    fn register_splits(
        &mut self,
        alloc: Global,
        masks: &[FieldMask],
        range: &SplitRange,
        splits: &mut RowSplits,
    ) -> Result<(), SplitFault>
        ensures same { state self.new ≡ state self.old }
        ensures stay { Stay (kept self.old) (kept self.new) }
        ensures bounds { (result ≡ Err SplitFault.Bounds) ↔ ((state self.old).rows < range.now.end) }
        ensures first { Tells result (split_fault (state self.old) masks.now range.now.end) }
        ensures named { name_fields (state self.old).dtype masks.now ≡ true →
            (state self.old).misses masks.now ≡ false }
        ensures pushed { Pushes result
            (shifted range.now.offset ((state self.old).edges masks.now range.now.start range.now.end))
            splits.old splits.new };

    /// The plan of an expression that is bound over its dtype, in which the row's number stands only where it numbers
    /// its rows. It is kept: equal expressions get the same plan.
    fn plan(&mut self, alloc: Global, expr: &BoundExpression) -> Result<Arc<Plan>, NoMemory>
        requires scope { expr.now.scope ≡ (state self.old).dtype }
        requires bound { IsPartable expr.now }
        requires numbers { lacks_numbers (state self.old) expr.now.expr ≡ false }
        ensures same { state self.new ≡ state self.old }
        ensures stay { Stay (kept self.old) (kept self.new) }
        ensures kept { IfOk result (λ p. kept self.new expr.now ≡ Some p.value) }
        ensures plan { IfOk result (λ p. IsPlanOf (state self.old) expr.now p.value) };

    /// The rows of a mask of a range at which the expression of one of its plans may be true, by what is known before
    /// anything is read: where it reads row numbers alone those at which it is true, else all. Nothing is wanted.
    fn pruning_evaluation(
        &self,
        alloc: Global,
        range: &Range<u64>,
        plan: &Arc<Plan>,
        mask: Mask,
    ) -> Result<MaskFuture, NoMemory>
        requires own { IsPlanOf (state self.now) (plan.now.value).expr plan.now.value }
        requires dtype { is_bool_type (infer (plan.now.value).expr.scope (plan.now.value).expr.expr) ≡ true }
        requires rows { range.now.end ≤ (state self.now).rows }
        requires length { range.now.start + length mask ≡ range.now.end }
        ensures made { IfOk result (λ m. m ≡ pruned (plan.now.value).tree range.now.start mask) }
        ensures means { IfOk result (λ m. Prunes (state self.now) (plan.now.value).expr range.now.start mask m) }
    {
        Plan::prune(alloc, plan, range, mask)
    }

    /// The rows of a mask of a range at which the expression of one of its plans is true.
    fn filter_evaluation(
        &self,
        range: &Range<u64>,
        plan: &Arc<Plan>,
        mask: MaskFuture,
    ) -> Result<MaskFuture, NoMemory>
        requires own { IsPlanOf (state self.now) (plan.now.value).expr plan.now.value }
        requires dtype { is_bool_type (infer (plan.now.value).expr.scope (plan.now.value).expr.expr) ≡ true }
        requires rows { range.now.end ≤ (state self.now).rows }
        requires length { range.now.start + length mask.known ≡ range.now.end }
        ensures made { IfOk result (λ m. m ≡
            mask_data mask.known (mask.filters ++ ((plan.now.value).tree, range.now.start) ∷ [])) }
        ensures means { IfOk result (λ m. Filters (state self.now) (plan.now.value).expr range.now.start mask m) }
    {
        Plan::filter(plan, range, mask)
    }

    /// The values of the expression of one of its plans at a mask's true rows of a range.
    fn projection_evaluation(
        &self,
        range: &Range<u64>,
        plan: &Arc<Plan>,
        mask: MaskFuture,
    ) -> Result<ArrayFuture, NoMemory>
        requires own { IsPlanOf (state self.now) (plan.now.value).expr plan.now.value }
        requires rows { range.now.end ≤ (state self.now).rows }
        requires length { range.now.start + length mask.known ≡ range.now.end }
        ensures made { IfOk result (λ f. f ≡ future_data plan.now.value range.now.start mask) }
        ensures means { IfOk result (λ f. Projects (state self.now) (plan.now.value).expr range.now.start mask f) }
    {
        Plan::project(plan, range, mask)
    }
}
