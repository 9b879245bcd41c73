// Copies of nodes: arrays, runs of segments and dtypes are shared.
ghost use Rattle.std.specs.Prelude.{◌≡◌, IfOk};

use crate::node::{Kind, PlanNode, PlanNodes};
use scan_values::NoMemory;
use std::alloc::Global;

impl PlanNode {
    /// A copy.
    #[cycle(copy)]
    pub fn try_clone(&self, alloc: Global) -> Result<PlanNode, NoMemory>
        ensures { IfOk result (λ n. n ≡ self.now) }
    {
        match &self.kind {
            Kind::Leaf(dtype, spelling, runs) => {
                Ok(PlanNode::leaf(dtype.clone()?, *spelling, runs.clone()?))
            }
            Kind::Rows(array) => Ok(PlanNode::rows(array.clone()?)),
            Kind::Evaluate(expr, node) => {
                let expr = expr.try_clone(alloc)?;
                PlanNode::evaluate(alloc, expr, node.try_clone(alloc)?)
            }
            Kind::Over(root, parts) => {
                let root = root.try_clone(alloc)?;
                Ok(PlanNode::over(root, parts.try_clone(alloc)?))
            }
            Kind::Constant(expr) => Ok(PlanNode::constant(expr.try_clone(alloc)?)),
            Kind::Lists(dtype, elements, offsets) => {
                let dtype = dtype.clone()?;
                let offsets = offsets.try_clone()?;
                PlanNode::lists(alloc, dtype, elements.try_clone(alloc)?, offsets)
            }
            Kind::Lengths(offsets) => Ok(PlanNode::lengths(offsets.try_clone()?)),
            Kind::Valid(values, validity) => {
                let values = values.try_clone(alloc)?;
                PlanNode::valid(alloc, values, validity.try_clone(alloc)?)
            }
            Kind::Numbers(first) => Ok(PlanNode::numbers(*first)),
            Kind::ByLengths(expr, over_lengths, node) => {
                let expr = expr.try_clone(alloc)?;
                let over_lengths = over_lengths.try_clone(alloc)?;
                PlanNode::by_lengths(alloc, expr, over_lengths, node.try_clone(alloc)?)
            }
        }
    }
}

impl PlanNodes {
    #[cycle(copy)]
    fn try_clone(&self, alloc: Global) -> Result<PlanNodes, NoMemory>
        ensures { IfOk result (λ ns. ns ≡ self.now) }
    {
        let mut copies = Vec::with_capacity(alloc, self.items.len())?;
        for node in &self.items {
            copies.push(node.try_clone(alloc)?)?;
        }
        Ok(PlanNodes::new(copies))
    }
}
