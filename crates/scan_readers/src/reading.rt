// Whether an expression reads anything of its scope.
ghost use Rattle.std.specs.Prelude.{◌≡◌};
ghost use Rattle.scan_plans.specs.Formed.{reads, reads_root};

use scan_expr::{BoundExpression, BoundNode, Unary};
use scan_values::DType;

/// Whether an operator reads anything of `$` itself.
fn reads_root(op: &Unary, dtype: &DType) -> bool
    ensures { result ≡ reads_root op.now dtype.now }
{
    match op {
        Unary::IsNull | Unary::IsNotNull => dtype.is_nullable(),
        _ => true,
    }
}

/// Whether an expression reads anything of its scope. A null test of what is never null does not.
#[tactic(auto, using(crate::proofs::Scopes::reads_under))]
pub(crate) fn reads_scope(expr: &BoundExpression) -> bool
    ensures { result ≡ reads expr.now.scope expr.now.expr }
{
    match expr.node() {
        BoundNode::Root => true,
        BoundNode::Unary(op, part) => {
            if part.is_root() {
                reads_root(op, part.scope())
            } else {
                reads_scope(part)
            }
        }
        BoundNode::Binary(_, x, y) => reads_scope(x) | reads_scope(y),
        BoundNode::Pack(_, parts, _) => {
            for part in parts {
                if reads_scope(part) {
                    return true;
                }
            }
            false
        }
        _ => false,
    }
}
