//! Operands of known and of unknown type, and what operators make of them.
ghost use Rattle.std.specs.Prelude.{◌≡◌, IfOk, Some, pos, neg_ℤ};
ghost use Rattle.scan_expr.specs.Expr.{binary};
ghost use Rattle.scan_expr.specs.Infer.{infer};
ghost use Rattle.scan_values.specs.Kinds.{ptype_of};
ghost use Rattle.scan_conditions.specs.Reads.{said_of};
ghost use Rattle.scan_conditions.specs.Written.{binary_of, joined_said, literal_beside, typed, untyped};

use crate::fault::{Cause, ConditionFault, cause_of};
use crate::operator::Infix;
use scan_expr::Expression;
use scan_values::{DType, PType};
use std::alloc::Global;

/// What an operand is: an expression, or a number whose type what stands beside it tells.
#[derive(Drop)]
pub(crate) enum Operand {
    Typed(Expression),
    Number(i128),
}

/// An expression, where it binds.
pub(crate) fn checked(
    alloc: Global,
    rows: &DType,
    e: Expression,
    place: usize,
) -> Result<Operand, ConditionFault>
    ensures { IfOk result (λ o. said_of o ≡ typed e) }
{
    match e.bind(alloc, rows) {
        Ok(_) => Ok(Operand::Typed(e)),
        Err(fault) => Err(ConditionFault::new(place, cause_of(fault))),
    }
}

/// The integer type of an expression.
fn ptype_beside(
    alloc: Global,
    rows: &DType,
    e: &Expression,
    place: usize,
) -> Result<PType, ConditionFault>
    ensures { IfOk result (λ p. ptype_of (infer rows.now e.now) ≡ Some p) }
{
    match e.bind(alloc, rows) {
        Ok(bound) => match bound.dtype().as_ptype_opt() {
            Some(ptype) => Ok(ptype),
            None => Err(ConditionFault::new(place, Cause::Operands)),
        },
        Err(fault) => Err(ConditionFault::new(place, cause_of(fault))),
    }
}

/// A number as a literal of the integer type of an expression.
fn literal_beside(
    alloc: Global,
    rows: &DType,
    number: i128,
    e: &Expression,
    place: usize,
) -> Result<Expression, ConditionFault>
    ensures { IfOk result (λ x. literal_beside rows.now number e.now ≡ Some x) }
{
    let ptype = ptype_beside(alloc, rows, e, place)?;
    if ptype.holds(number) {
        Ok(Expression::lit_int(ptype, number))
    } else {
        Err(ConditionFault::new(place, Cause::Range))
    }
}

/// What an operator makes of two expressions.
fn join_typed(
    alloc: Global,
    rows: &DType,
    op: Infix,
    first: Expression,
    second: Expression,
    place: usize,
) -> Result<Operand, ConditionFault>
    ensures { IfOk result (λ o. said_of o ≡ typed (binary (binary_of op) first second)) }
{
    let e = op.join(alloc, first, second)?;
    checked(alloc, rows, e, place)
}

/// What an operator makes of an expression and what stands behind it.
fn join_behind(
    alloc: Global,
    rows: &DType,
    op: Infix,
    first: Expression,
    second: Operand,
    place: usize,
) -> Result<Operand, ConditionFault>
    ensures { IfOk result (λ o. joined_said rows.now op (typed first) (said_of second) ≡ Some (said_of o)) }
{
    match second {
        Operand::Typed(second) => join_typed(alloc, rows, op, first, second, place),
        Operand::Number(number) => {
            let second = literal_beside(alloc, rows, number, &first, place)?;
            join_typed(alloc, rows, op, first, second, place)
        }
    }
}

/// What an operator that stands at a place makes of two operands.
pub(crate) fn join(
    alloc: Global,
    rows: &DType,
    op: Infix,
    first: Operand,
    second: Operand,
    place: usize,
) -> Result<Operand, ConditionFault>
    ensures { IfOk result (λ o. joined_said rows.now op (said_of first) (said_of second) ≡ Some (said_of o)) }
{
    match first {
        Operand::Typed(first) => join_behind(alloc, rows, op, first, second, place),
        Operand::Number(number) => join_before(alloc, rows, op, number, second, place),
    }
}

/// What an operator makes of a number and what stands behind it.
fn join_before(
    alloc: Global,
    rows: &DType,
    op: Infix,
    number: i128,
    second: Operand,
    place: usize,
) -> Result<Operand, ConditionFault>
    ensures { IfOk result (λ o. joined_said rows.now op (untyped number) (said_of second) ≡ Some (said_of o)) }
{
    match second {
        Operand::Typed(second) => {
            let first = literal_beside(alloc, rows, number, &second, place)?;
            join_typed(alloc, rows, op, first, second, place)
        }
        Operand::Number(_) => Err(ConditionFault::new(place, Cause::Untyped)),
    }
}

/// An operand whose type has to be known by itself.
pub(crate) fn typed_alone(operand: Operand, place: usize) -> Result<Expression, ConditionFault>
    ensures { IfOk result (λ e. said_of operand ≡ typed e) }
{
    match operand {
        Operand::Typed(e) => Ok(e),
        Operand::Number(_) => Err(ConditionFault::new(place, Cause::Untyped)),
    }
}

/// A number from 0 on.
pub(crate) fn whole(number: u64) -> Operand
    ensures { said_of result ≡ untyped (pos number) }
{
    Operand::Number(number as i128)
}

/// A number below 0.
pub(crate) fn below_zero(number: u64) -> Operand
    ensures { said_of result ≡ untyped (neg_ℤ (pos number)) }
{
    Operand::Number(-(number as i128))
}
