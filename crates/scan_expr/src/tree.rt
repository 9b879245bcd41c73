//! What expressions and bound expressions have in common: what stands at the top, with its parts.
ghost use Rattle.std.specs.Prelude.{◌≡◌};

use crate::bound::{BoundExpression, BoundNode};
use crate::op::{Binary, Unary};
use scan_values::{DType, FieldName, Nullability, Value};

/// What an expression is at its top, with its parts.
#[derive_where(Clone, Copy)]
pub enum Top<'a, T> {
    Root,
    RowIdx,
    Literal(&'a DType, &'a Value),
    Unary(&'a Unary, &'a T),
    Binary(Binary, &'a T, &'a T),
    Pack(&'a [FieldName], &'a [T], Nullability),
}

/// What is an expression.
pub trait Tree {
    ghost use Rattle.scan_expr.specs.Expr.{Expr};

    /// The expression.
    ghost expr: { Self → Expr };

    ghost use Rattle.std.specs.Prelude.{◌≡◌};
    ghost use Rattle.scan_expr.specs.Shown.{top_expr, IsEvenTop};

    /// What it is at its top.
    fn top(&self) -> Top<'_, Self>
    where
        Self: Sized,
        ensures expr { top_expr expr result ≡ expr self.now }
        ensures even { IsEvenTop result };
}

impl Tree for BoundExpression {
    ghost expr = { λ b. b.expr };

    fn top(&self) -> Top<'_, BoundExpression> {
        match self.node() {
            BoundNode::Root => Top::Root,
            BoundNode::RowIdx => Top::RowIdx,
            BoundNode::Literal(dtype, value) => Top::Literal(dtype, value),
            BoundNode::Unary(op, e) => Top::Unary(op, e),
            BoundNode::Binary(op, a, b) => Top::Binary(op, a, b),
            BoundNode::Pack(names, parts, n) => Top::Pack(names.as_slice(), parts, n),
        }
    }
}
