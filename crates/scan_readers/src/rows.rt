//! Readers of arrays in memory. An own type.
ghost use Rattle.std.specs.Prelude.{◌≡◌, [], IfOk, None, false};
ghost use Rattle.scan_expr.specs.Expr.{uses_row_index};
ghost use Rattle.scan_readers.specs.Kept.{find_plan, Makes};
ghost use Rattle.scan_readers.specs.PlanOf.{IsPlanOf};
ghost use Rattle.scan_readers.specs.RowsData.{rows_data, rows_state};

use crate::kept::KeptPlans;
use crate::reader::LayoutReader;
use scan_expr::BoundExpression;
use scan_plans::Plan;
use scan_splits::{RowSplits, SplitFault, SplitRange};
use scan_values::{Array, DType, FieldMask, NoMemory, Text};
use std::alloc::Global;
use std::marker::Model;
use std::sync::Arc;

/// A reader of the items of an array in memory. Its plans want nothing, and it is split nowhere but at the end of a
/// range. Contracts see its name, the array and the plans that it keeps.
#[derive(Drop)]
pub struct RowsReader {
    name: Text,
    array: Arc<Array>,
    kept: KeptPlans,
}

impl Model for RowsReader {
    ghost use Rattle.scan_readers.specs.RowsData.{RowsData, rows_data, rows_code, rows_state};
    ghost use Rattle.scan_plans.specs.PlanData.{EachPlan};
    ghost use Rattle.scan_readers.specs.PlanOf.{IsPlanOf};

    ghost Value = { RowsData };

    ghost coded = { rows_code };

    ghost view = { λ a. rows_data a.name a.array.value a.kept };

    ghost invariant = { λ a. EachPlan (λ p. IsPlanOf (rows_state a.name a.array.value) p.expr p) a.kept };
}

impl RowsReader {
    /// A reader of an array, of this name.
    pub fn new(alloc: Global, name: Text, rows: Arc<Array>) -> RowsReader
        ensures { result ≡ rows_data name rows.value [] }
    {
        RowsReader {
            name,
            array: rows,
            kept: KeptPlans::new(alloc),
        }
    }

    /// The plan of an expression of which none is kept, which is kept from then on.
    fn make(&mut self, alloc: Global, expr: &BoundExpression) -> Result<Arc<Plan>, NoMemory>
        requires scope { expr.now.scope ≡ self.old.array.dtype }
        requires rows { uses_row_index expr.now.expr ≡ false }
        requires none { find_plan self.old.kept expr.now ≡ None }
        ensures made { Makes self.old.kept self.new.kept expr.now result }
        ensures plan { IfOk result (λ p. IsPlanOf (rows_state self.old.name self.old.array) expr.now p.value) }
        ensures name { self.new.name ≡ self.old.name }
        ensures array { self.new.array ≡ self.old.array }
    {
        let plan = Plan::rows(alloc, expr.try_clone(alloc)?, self.array.clone()?)?;
        self.kept.keep(plan)
    }
}

impl LayoutReader for RowsReader {
    ghost use Rattle.scan_readers.specs.Kept.{find_plan};
    ghost use Rattle.scan_readers.specs.RowsData.{rows_state};

    ghost state = { λ r. rows_state r.name r.array };

    ghost kept = { λ r. find_plan r.kept };

    fn name(&self) -> &Text {
        &self.name
    }

    fn dtype(&self) -> &DType {
        self.array.dtype()
    }

    fn row_count(&self) -> u64 {
        self.array.len() as u64
    }

    #[tactic(auto, using(crate::proofs::Keeping::stays_same))]
    fn register_splits(
        &mut self,
        _alloc: Global,
        _masks: &[FieldMask],
        range: &SplitRange,
        splits: &mut RowSplits,
    ) -> Result<(), SplitFault> {
        if range.check_bounds(self.array.len() as u64).is_err() {
            return Err(SplitFault::Bounds);
        }
        splits.push(range.root_row_range().end)?;
        Ok(())
    }

    #[tactic(auto, using(crate::proofs::Keeping::stays_same))]
    fn plan(&mut self, alloc: Global, expr: &BoundExpression) -> Result<Arc<Plan>, NoMemory> {
        match self.kept.find(expr) {
            Some(plan) => Ok(plan.clone()?),
            None => self.make(alloc, expr),
        }
    }
}
