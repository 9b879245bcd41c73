// What an expression needs of a list, after the crate's `layouts/list/expr.rs`.
ghost use Rattle.std.specs.Prelude.{◌≡◌, IfOk};
ghost use Rattle.scan_partition.specs.Lists.{necessary, children_at};
ghost use Rattle.scan_partition.specs.ListUses.{greatest_use};

use scan_expr::{BoundExpression, BoundNode, Unary};

/// The children of a list that an expression reads.
#[derive(Clone, Copy, Debug, PartialEq, Eq, PartialOrd, Ord)]
pub enum ListChildrenNeeded {
    /// The validity.
    Validity,
    /// The offsets and the validity.
    OffsetsAndValidity,
    /// The elements too.
    All,
}

/// What an operator on `$` needs.
fn needed_at_root(op: &Unary) -> ListChildrenNeeded
    ensures { result ≡ children_at op.now }
{
    match op {
        Unary::IsNull | Unary::IsNotNull => ListChildrenNeeded::Validity,
        Unary::ListLength => ListChildrenNeeded::OffsetsAndValidity,
        _ => ListChildrenNeeded::All,
    }
}

/// The children of a list that an expression over it reads: for null tests of `$` the validity, for its length the
/// offsets too, for `$` itself all; else the greatest that a part reads.
pub fn necessary_children(expr: &BoundExpression) -> ListChildrenNeeded
    ensures exact { result ≡ necessary expr.now.expr }
    ensures greatest { result ≡ greatest_use expr.now.scope expr.now.expr }
{
    match expr.node() {
        BoundNode::Root => ListChildrenNeeded::All,
        BoundNode::Unary(op, part) => {
            if part.is_root() {
                needed_at_root(op)
            } else {
                necessary_children(part)
            }
        }
        BoundNode::Binary(_, x, y) => necessary_children(x).max(necessary_children(y)),
        BoundNode::Pack(_, parts, _) => {
            let mut needed = ListChildrenNeeded::Validity;
            for part in parts {
                needed = needed.max(necessary_children(part));
            }
            needed
        }
        _ => ListChildrenNeeded::Validity,
    }
}
