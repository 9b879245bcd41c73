//! The plans of a scan. After the Rust's `scan::tasks`, whose tasks hold them.
ghost use Rattle.std.specs.Prelude.{◌≡◌, ◌+◌, ◌++◌, IfOk, length};
ghost use Rattle.scan_expr.specs.Infer.{infer};
ghost use Rattle.scan_plans.specs.Masks.{mask_data};
ghost use Rattle.scan_plans.specs.PlanData.{IsPlan, EachPlan, plans_of};
ghost use Rattle.scan_streams.specs.Plans.{has_filter, IsConjunct, ReachTo, plans_data, filters_from, split_data};

use scan_plans::{ArrayFuture, MaskFuture, Plan};
use scan_values::{DType, Mask, NoMemory};
use std::alloc::Global;
use std::marker::Model;
use std::ops::Range;
use std::sync::Arc;

/// The plans of a scan: of its conjuncts, in the order in which they run, and of its projection. Contracts see the
/// plans.
#[derive(Drop)]
pub struct ScanPlans {
    conjuncts: Vec<Arc<Plan>>,
    projection: Arc<Plan>,
}

impl Model for ScanPlans {
    ghost use Rattle.scan_plans.specs.PlanData.{plans_of};
    ghost use Rattle.scan_streams.specs.Plans.{PlansData, plans_data, plans_code};

    ghost Value = { PlansData };

    ghost coded = { plans_code };

    ghost view = { λ a. plans_data (plans_of a.conjuncts.items) a.projection.value };
}

impl ScanPlans {
    /// The plans of conjuncts, in the order in which they are to run, and of a projection.
    pub fn new(conjuncts: Vec<Arc<Plan>>, projection: Arc<Plan>) -> ScanPlans
        ensures { result ≡ plans_data (plans_of conjuncts.items) projection.value }
    {
        ScanPlans {
            conjuncts,
            projection,
        }
    }

    /// The dtype of the projection.
    pub fn dtype(&self) -> &DType
        ensures dtype { result.now ≡ infer ((self.now.projection).expr).scope ((self.now.projection).expr).expr }
        ensures plan { IsPlan self.now.projection }
    {
        self.projection.expr().dtype()
    }

    /// Whether there are conjuncts.
    pub fn has_filter(&self) -> bool
        ensures { result ≡ has_filter self.now }
    {
        !self.conjuncts.is_empty()
    }

    /// The projection at those rows of a mask of a range at which each conjunct is true. A conjunct is asked only about
    /// rows at which all before it are true. One over row numbers alone wants nothing, so that it prunes.
    pub fn future(
        &self,
        alloc: Global,
        range: &Range<u64>,
        mask: Mask,
    ) -> Result<ArrayFuture, NoMemory>
        requires rows { ReachTo range.now.end self.now }
        requires length { range.now.start + length mask ≡ range.now.end }
        ensures { IfOk result (λ f. f ≡ split_data self.now range.now.start mask) }
    {
        let all = MaskFuture::ready(alloc, mask);
        let mask = filtered(&self.conjuncts, range, all)?;
        Plan::project(&self.projection, range, mask)
    }
}

/// The rows of a mask of a range at which each of several plans is true.
fn filtered(
    conjuncts: &[Arc<Plan>],
    range: &Range<u64>,
    mask: MaskFuture,
) -> Result<MaskFuture, NoMemory>
    requires plans { EachPlan (IsConjunct range.now.end) (plans_of conjuncts.now) }
    requires length { range.now.start + length mask.known ≡ range.now.end }
    ensures { IfOk result (λ m. m ≡
        mask_data mask.known (mask.filters ++ filters_from range.now.start (plans_of conjuncts.now))) }
{
    let mut left = mask;
    for conjunct in conjuncts {
        left = Plan::filter(conjunct, range, left)?;
    }
    Ok(left)
}
