// The plans that a reader keeps.
ghost use Rattle.std.specs.Prelude.{◌≡◌, ◌++◌, ◌∷◌, [], OnOk, OnErr, IfOk, None, drop, option_map};
ghost use Rattle.scan_plans.specs.PlanData.{plans_of};
ghost use Rattle.scan_readers.specs.Kept.{find_plan};

use scan_expr::BoundExpression;
use scan_plans::Plan;
use scan_values::NoMemory;
use std::alloc::Global;
use std::marker::Model;
use std::sync::Arc;

/// Plans, of which the first of an expression is found. Contracts see them as a list.
#[derive(Drop)]
pub(crate) struct KeptPlans {
    plans: Vec<Arc<Plan>>,
}

impl Model for KeptPlans {
    ghost use Rattle.std.specs.Prelude.{List};
    ghost use Rattle.std.specs.Coded.{coded_list};
    ghost use Rattle.scan_plans.specs.PlanData.{PlanData, plan_data_code};
    ghost use Rattle.scan_plans.specs.PlanData.{plans_of};

    ghost Value = { List PlanData };

    ghost coded = { coded_list plan_data_code };

    ghost view = { λ a. plans_of a.plans.items };
}

impl KeptPlans {
    /// No plans.
    pub(crate) fn new(alloc: Global) -> KeptPlans
        ensures { result ≡ [] }
    {
        KeptPlans {
            plans: Vec::new(alloc),
        }
    }

    /// The first plan of an expression.
    pub(crate) fn find(&self, expr: &BoundExpression) -> Option<&Arc<Plan>>
        ensures { option_map (λ r. r.now.value) result ≡ find_plan self.now expr.now }
    {
        find_among(&self.plans, expr)
    }

    /// Keeps a plan beside the others, and gives it back.
    pub(crate) fn keep(&mut self, plan: Arc<Plan>) -> Result<Arc<Plan>, NoMemory>
        ensures plan { IfOk result (λ p. p.value ≡ plan.value) }
        ensures ok { OnOk result (self.new ≡ self.old ++ plan.value ∷ []) }
        ensures err { OnErr result (self.new ≡ self.old) }
    {
        let copy = plan.clone()?;
        self.plans.push(copy)?;
        Ok(plan)
    }
}

// The first plan of an expression among plans.
#[tactic(auto, using(crate::proofs::Keeping::found_here, crate::proofs::Keeping::found_later, crate::proofs::Keeping::found_past))]
fn find_among<'a>(plans: &'a [Arc<Plan>], expr: &BoundExpression) -> Option<&'a Arc<Plan>>
    ensures { option_map (λ r. r.now.value) result ≡ find_plan (plans_of plans.entry.now) expr.now }
{
    for plan in plans {
        if *plan.expr() == *expr {
            return Some(plan);
        }
    }
    None
}
