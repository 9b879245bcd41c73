//! Operators between two operands, and functions of one.
ghost use Rattle.std.specs.Prelude.{◌≡◌, ◌<◌, ◌∷◌, ◌+◌, IfOk, IfSome, drop, length, map};
ghost use Rattle.scan_expr.specs.Expr.{binary, unary};
ghost use Rattle.scan_conditions.specs.Parts.{part_of};
ghost use Rattle.scan_conditions.specs.Spelling.{word};
ghost use Rattle.scan_conditions.specs.Written.{binary_of, function_name, infix_level, infix_part, unary_of};

use crate::token::{Part, is_sign_at, is_word_at};
use scan_expr::Expression;
use scan_values::NoMemory;
use std::alloc::Global;

/// An operator between two operands.
#[derive(Clone, Copy, Debug, PartialEq, Eq)]
pub(crate) enum Infix {
    Or,
    And,
    Equal,
    NotEqual,
    Less,
    LessOrEqual,
    Greater,
    GreaterOrEqual,
    Plus,
    Minus,
}

/// A function of one operand.
#[derive(Clone, Copy, Debug, PartialEq, Eq)]
pub(crate) enum Function {
    IsNull,
    IsNotNull,
    ListLength,
}

impl Infix {
    /// How closely it binds: sums before comparisons, these before `not`, `and` and `or`.
    pub(crate) fn level(self) -> u8
        ensures { result ≡ infix_level self }
    {
        match self {
            Infix::Or => 1,
            Infix::And => 2,
            Infix::Equal => 4,
            Infix::NotEqual => 4,
            Infix::Less => 4,
            Infix::LessOrEqual => 4,
            Infix::Greater => 4,
            Infix::GreaterOrEqual => 4,
            Infix::Plus => 5,
            Infix::Minus => 5,
        }
    }

    /// The expression of this operator.
    pub(crate) fn join(
        self,
        alloc: Global,
        a: Expression,
        b: Expression,
    ) -> Result<Expression, NoMemory>
        ensures { IfOk result (λ e. e ≡ binary (binary_of self) a b) }
    {
        match self {
            Infix::Or => Expression::or(alloc, a, b),
            Infix::And => Expression::and(alloc, a, b),
            Infix::Equal => Expression::eq(alloc, a, b),
            Infix::NotEqual => Expression::not_eq(alloc, a, b),
            Infix::Less => Expression::lt(alloc, a, b),
            Infix::LessOrEqual => Expression::lt_eq(alloc, a, b),
            Infix::Greater => Expression::gt(alloc, a, b),
            Infix::GreaterOrEqual => Expression::gt_eq(alloc, a, b),
            Infix::Plus => Expression::checked_add(alloc, a, b),
            Infix::Minus => Expression::checked_sub(alloc, a, b),
        }
    }
}

impl Function {
    /// The expression of this function.
    pub(crate) fn call(self, alloc: Global, e: Expression) -> Result<Expression, NoMemory>
        ensures { IfOk result (λ x. x ≡ unary (unary_of self) e) }
    {
        match self {
            Function::IsNull => Expression::is_null(alloc, e),
            Function::IsNotNull => Expression::is_not_null(alloc, e),
            Function::ListLength => Expression::list_length(alloc, e),
        }
    }
}

/// The operator that stands at a place.
pub(crate) fn infix_at(parts: &[Part], at: usize) -> Option<Infix>
    ensures is { IfSome result (λ o. drop at (map part_of parts.now) ≡ infix_part o ∷ drop (at + 1) (map part_of parts.now)) }
    ensures within { IfSome result (λ _. at < length parts.now) }
{
    if is_word_at(parts, at, "and") {
        return Some(Infix::And);
    }
    if is_word_at(parts, at, "or") {
        return Some(Infix::Or);
    }
    infix_sign_at(parts, at)
}

/// The operator of signs that stands at a place.
fn infix_sign_at(parts: &[Part], at: usize) -> Option<Infix>
    ensures is { IfSome result (λ o. drop at (map part_of parts.now) ≡ infix_part o ∷ drop (at + 1) (map part_of parts.now)) }
    ensures within { IfSome result (λ _. at < length parts.now) }
{
    if is_sign_at(parts, at, "=") {
        return Some(Infix::Equal);
    }
    if is_sign_at(parts, at, "!=") {
        return Some(Infix::NotEqual);
    }
    if is_sign_at(parts, at, "<") {
        return Some(Infix::Less);
    }
    if is_sign_at(parts, at, "<=") {
        return Some(Infix::LessOrEqual);
    }
    if is_sign_at(parts, at, ">") {
        return Some(Infix::Greater);
    }
    if is_sign_at(parts, at, ">=") {
        return Some(Infix::GreaterOrEqual);
    }
    if is_sign_at(parts, at, "+") {
        return Some(Infix::Plus);
    }
    if is_sign_at(parts, at, "-") {
        return Some(Infix::Minus);
    }
    None
}

/// The function whose name stands at a place.
pub(crate) fn function_at(parts: &[Part], at: usize) -> Option<Function>
    ensures is { IfSome result (λ f. drop at (map part_of parts.now) ≡ word (function_name f) ∷ drop (at + 1) (map part_of parts.now)) }
    ensures within { IfSome result (λ _. at < length parts.now) }
{
    if is_word_at(parts, at, "is_null") {
        return Some(Function::IsNull);
    }
    if is_word_at(parts, at, "is_not_null") {
        return Some(Function::IsNotNull);
    }
    if is_word_at(parts, at, "list_length") {
        return Some(Function::ListLength);
    }
    None
}
