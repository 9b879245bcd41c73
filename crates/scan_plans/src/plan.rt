//! Plans. After the Rust's readers, which evaluate an expression anew in each call.
ghost use Rattle.std.specs.Prelude.{◌≡◌, IfOk, false};
ghost use Rattle.scan_expr.specs.Expr.{uses_row_index};
ghost use Rattle.scan_expr.specs.Infer.{infer};
ghost use Rattle.scan_plans.specs.PlanTree.{evaluate, rows};
ghost use Rattle.scan_plans.specs.Meaning.{plan_dtype};
ghost use Rattle.scan_plans.specs.PlanData.{plan_data, IsPlan};
ghost use Rattle.scan_plans.specs.Pruning.{is_numbered};

use crate::node::PlanNode;
use scan_expr::BoundExpression;
use scan_values::{Array, NoMemory};
use std::alloc::Global;
use std::marker::Model;
use std::sync::Arc;

/// What a reader makes of an expression: what rows of it want of the segments, and what they give. It is never changed,
/// and may be shared. Contracts see the expression and the tree of its nodes.
#[derive(Drop)]
pub struct Plan {
    pub(crate) expr: BoundExpression,
    pub(crate) node: PlanNode,
}

impl Model for Plan {
    ghost use Rattle.scan_plans.specs.PlanData.{PlanData, plan_data, plan_data_code, IsPlan};

    ghost Value = { PlanData };

    ghost coded = { plan_data_code };

    ghost view = { λ a. plan_data a.expr a.node };

    ghost invariant = { λ a. IsPlan (plan_data a.expr a.node) };
}

impl Plan {
    /// The plan of an expression by a node, whose values have the expression's dtype.
    pub fn new(expr: BoundExpression, node: PlanNode) -> Plan
        requires { plan_dtype node ≡ infer expr.scope expr.expr }
        ensures { result ≡ plan_data expr node }
    {
        Plan { expr, node }
    }

    /// The plan of an expression over an array in memory.
    pub fn rows(
        alloc: Global,
        expr: BoundExpression,
        array: Arc<Array>,
    ) -> Result<Arc<Plan>, NoMemory>
        requires scope { (array.value).dtype ≡ expr.scope }
        requires unnumbered { uses_row_index expr.expr ≡ false }
        ensures { IfOk result (λ p. p.value ≡ plan_data expr
            (evaluate expr.scope expr.expr (rows (array.value).dtype (array.value).items))) }
    {
        let asked = expr.try_clone(alloc)?;
        let node = PlanNode::evaluate(alloc, expr, PlanNode::rows(array))?;
        Ok(Arc::new(alloc, Plan::new(asked, node))?)
    }

    /// The expression.
    pub fn expr(&self) -> &BoundExpression
        ensures expr { result.now ≡ self.now.expr }
        ensures dtype { IsPlan self.now }
    {
        &self.expr
    }

    /// Whether it is an expression over the numbers of rows alone: such a plan prunes.
    pub fn is_numbered(&self) -> bool
        ensures { result ≡ is_numbered self.now.tree }
    {
        self.node.is_numbered()
    }

    /// A copy of its node, which another plan may hold.
    pub fn copy_node(&self, alloc: Global) -> Result<PlanNode, NoMemory>
        ensures node { IfOk result (λ n. n ≡ self.now.tree) }
        ensures dtype { IsPlan self.now }
    {
        self.node.try_clone(alloc)
    }

    /// The node.
    pub(crate) fn node(&self) -> &PlanNode
        ensures { result.now ≡ self.now.tree }
    {
        &self.node
    }
}
