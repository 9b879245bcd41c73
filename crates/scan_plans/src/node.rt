//! The nodes of a plan.
ghost use Rattle.std.specs.Prelude.{◌≡◌, IfOk, true, false};
ghost use Rattle.scan_plans.specs.PlanTree.{leaf, rows, evaluate, over, constant, lists, lengths, valid, numbers, by_lengths, plans};
ghost use Rattle.scan_values.specs.Fits.{is_struct_type};
ghost use Rattle.scan_values.specs.Kinds.{is_scalar_type};
ghost use Rattle.scan_expr.specs.Expr.{uses_row_index};
ghost use Rattle.scan_plans.specs.Formed.{IsNode, NeverOverflows, AreLengths, IsByLengths, reads};
ghost use Rattle.scan_plans.specs.Meaning.{plan_dtype};
ghost use Rattle.scan_values.specs.DataType.{bool_type, list_type};
ghost use Rattle.scan_values.specs.declared.ptype.Nullability.TheVariants.{NonNullable};
ghost use Rattle.scan_plans.specs.Pruning.{are_numbers, is_numbered};

use crate::offsets::Offsets;
use scan_expr::BoundExpression;
use scan_layout::Spelling;
use scan_splits::SegmentRuns;
use scan_values::{Array, DType, NoMemory};
use std::alloc::Global;
use std::marker::Model;
use std::sync::Arc;

/// A node of a plan: a leaf's segments, values in memory, row numbers, or an expression over other nodes. Contracts see
/// it as a tree of these.
#[cycle(node)]
#[derive(Drop)]
pub struct PlanNode {
    pub(crate) kind: Kind,
}

/// What a node is.
#[cycle(node)]
#[derive(Drop)]
pub(crate) enum Kind {
    Leaf(Arc<DType>, Spelling, Arc<SegmentRuns>),
    Rows(Arc<Array>),
    Evaluate(BoundExpression, Box<PlanNode>),
    Over(BoundExpression, PlanNodes),
    Constant(BoundExpression),
    Lists(Arc<DType>, Box<PlanNode>, Offsets),
    Lengths(Offsets),
    Valid(Box<PlanNode>, Box<PlanNode>),
    Numbers(u64),
    ByLengths(BoundExpression, BoundExpression, Box<PlanNode>),
}

/// Nodes in order.
#[cycle(node)]
#[derive(Drop)]
pub struct PlanNodes {
    pub(crate) items: Vec<PlanNode>,
}

impl Model for PlanNodes {
    ghost use Rattle.std.specs.Prelude.{List};
    ghost use Rattle.std.specs.Coded.{coded_list};
    ghost use Rattle.scan_plans.specs.PlanTree.{PlanTree, trees_size, plans};
    ghost use Rattle.scan_plans.specs.PlanCode.{plan_code};

    ghost Value = { List PlanTree };

    ghost coded = { coded_list plan_code };

    ghost view = { λ a. a.items.items };

    ghost size = { λ ps. trees_size (plans ps) };

    ghost use Rattle.scan_plans.specs.PlanFalls.{most-plans};

    ghost size_decreases = { λ a h. most-plans a.items.items };
}

impl Model for PlanNode {
    ghost use Rattle.scan_plans.specs.PlanTree.{PlanTree, tree_size};
    ghost use Rattle.scan_plans.specs.PlanCode.{plan_code};
    ghost use Rattle.scan_plans.specs.Formed.{IsNode};

    ghost Value = { PlanTree };

    ghost coded = { plan_code };

    ghost use Rattle.scan_plans.specs.PlanView.{plan_of};

    ghost view = { λ a. plan_of a.kind };

    ghost invariant = { λ a. IsNode (plan_of a.kind) };

    ghost size = { tree_size };

    ghost use Rattle.scan_plans.specs.NodeFalls.{kind_falls};

    ghost size_decreases = { λ a h. kind_falls a.kind };
}

impl PlanNode {
    /// The values of a leaf's segments, of a scalar dtype.
    pub fn leaf(dtype: Arc<DType>, spelling: Spelling, runs: Arc<SegmentRuns>) -> PlanNode
        requires { is_scalar_type dtype.value ≡ true }
        ensures { result ≡ leaf dtype.value spelling runs.value }
    {
        PlanNode {
            kind: Kind::Leaf(dtype, spelling, runs),
        }
    }

    /// Values in memory.
    pub fn rows(array: Arc<Array>) -> PlanNode
        ensures { result ≡ rows (array.value).dtype (array.value).items }
    {
        PlanNode {
            kind: Kind::Rows(array),
        }
    }

    /// An expression over the values of a node, which are of its scope.
    pub fn evaluate(
        alloc: Global,
        expr: BoundExpression,
        node: PlanNode,
    ) -> Result<PlanNode, NoMemory>
        requires scope { plan_dtype node ≡ expr.scope }
        requires rows { uses_row_index expr.expr ≡ false }
        ensures { IfOk result (λ p. p ≡ evaluate expr.scope expr.expr node) }
    {
        let node = Box::new(alloc, node)?;
        Ok(PlanNode {
            kind: Kind::Evaluate(expr, node),
        })
    }

    /// An expression over structs, the fields of which are the values of nodes, by place.
    pub fn over(root: BoundExpression, parts: PlanNodes) -> PlanNode
        requires { IsNode (over root.scope root.expr (plans parts)) }
        ensures { result ≡ over root.scope root.expr (plans parts) }
    {
        PlanNode {
            kind: Kind::Over(root, parts),
        }
    }

    /// An expression that reads nothing of its scope, which is no struct.
    pub fn constant(expr: BoundExpression) -> PlanNode
        requires reads { reads expr.scope expr.expr ≡ false }
        requires rows { uses_row_index expr.expr ≡ false }
        requires scope { is_struct_type expr.scope ≡ false }
        ensures { result ≡ constant expr.scope expr.expr }
    {
        PlanNode {
            kind: Kind::Constant(expr),
        }
    }

    /// The numbers of rows as u64, from a first one on.
    pub fn numbers(first: u64) -> PlanNode
        ensures { result ≡ numbers first }
    {
        PlanNode {
            kind: Kind::Numbers(first),
        }
    }

    /// Lists, none of which is null, by the plan of their elements, which evaluates nothing that may overflow.
    pub fn lists(
        alloc: Global,
        dtype: Arc<DType>,
        elements: PlanNode,
        offsets: Offsets,
    ) -> Result<PlanNode, NoMemory>
        requires dtype { dtype.value ≡ list_type (plan_dtype elements) NonNullable }
        requires overflow { NeverOverflows elements offsets.elements }
        ensures { IfOk result (λ p. p ≡ lists dtype.value elements offsets) }
    {
        let elements = Box::new(alloc, elements)?;
        Ok(PlanNode {
            kind: Kind::Lists(dtype, elements, offsets),
        })
    }

    /// How many elements lists have, none of which is null.
    pub fn lengths(offsets: Offsets) -> PlanNode
        ensures { result ≡ lengths offsets }
    {
        PlanNode {
            kind: Kind::Lengths(offsets),
        }
    }

    /// An expression over lists that reads only whether they are null and how many elements they have, by the same over
    /// a node of how many they have.
    pub fn by_lengths(
        alloc: Global,
        expr: BoundExpression,
        over_lengths: BoundExpression,
        node: PlanNode,
    ) -> Result<PlanNode, NoMemory>
        requires scope { plan_dtype node ≡ over_lengths.scope }
        requires lengths { AreLengths node }
        requires means { IsByLengths expr.scope expr.expr over_lengths.scope over_lengths.expr }
        ensures { IfOk result (λ p. p ≡ by_lengths expr.scope expr.expr over_lengths.scope over_lengths.expr node) }
    {
        let node = Box::new(alloc, node)?;
        Ok(PlanNode {
            kind: Kind::ByLengths(expr, over_lengths, node),
        })
    }

    /// The values of a node, null where another is false. The dtype becomes nullable.
    pub fn valid(alloc: Global, values: PlanNode, validity: PlanNode) -> Result<PlanNode, NoMemory>
        requires { plan_dtype validity ≡ bool_type NonNullable }
        ensures { IfOk result (λ p. p ≡ valid values validity) }
    {
        let values = Box::new(alloc, values)?;
        let validity = Box::new(alloc, validity)?;
        Ok(PlanNode {
            kind: Kind::Valid(values, validity),
        })
    }

    /// Whether it gives the numbers of rows.
    fn are_numbers(&self) -> bool
        ensures { result ≡ are_numbers self.now }
    {
        match &self.kind {
            Kind::Numbers(_) => true,
            _ => false,
        }
    }

    /// Whether it is an expression over the numbers of rows.
    pub(crate) fn is_numbered(&self) -> bool
        ensures { result ≡ is_numbered self.now }
    {
        match &self.kind {
            Kind::Evaluate(_, node) => node.are_numbers(),
            _ => false,
        }
    }
}

impl PlanNodes {
    /// These nodes.
    pub fn new(items: Vec<PlanNode>) -> PlanNodes
        ensures { result ≡ items.items }
    {
        PlanNodes { items }
    }
}
