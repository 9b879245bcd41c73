//! The reader of conditions.
ghost use Rattle.std.specs.Prelude.{◌≡◌, ◌<◌, ◌≤◌, ◌∷◌, ◌+◌, IfOk, codes, drop, length, map};
ghost use Rattle.scan_conditions.specs.Parts.{part_of};
ghost use Rattle.scan_conditions.specs.Reads.{IsRead, SaysAll, said_of};
ghost use Rattle.scan_conditions.specs.Spelling.{sign, word};
ghost use Rattle.scan_conditions.specs.Written.{function_name, typed};

use crate::fault::{Cause, ConditionFault};
use crate::leaf::leaf_at;
use crate::operand::{Operand, checked, join, typed_alone};
use crate::operator::{Function, function_at, infix_at};
use crate::token::{Part, is_sign_at, is_word_at, place_at};
use scan_expr::Expression;
use scan_values::DType;
use std::alloc::Global;

/// How deep parentheses, functions and `not` nest at most.
pub(crate) const MOST_NESTED: u32 = 64;

/// What binds at least as closely as a level, and where it ends.
#[cycle(reading)]
pub(crate) fn level_at(
    alloc: Global,
    rows: &DType,
    parts: &[Part],
    at: usize,
    level: u8,
    depth: u32,
) -> Result<(Operand, usize), ConditionFault>
    requires { level ≤ 6 }
    ensures { IfOk result (λ p. IsRead rows.now level (map part_of parts.now) at p.1 (said_of p.0)) }
{
    if level >= 6 {
        return primary_at(alloc, rows, parts, at, depth);
    }
    if level == 3 {
        return contrary_at(alloc, rows, parts, at, depth);
    }
    joined_at(alloc, rows, parts, at, level, depth)
}

/// Operands with operators of one level between them.
#[cycle(reading)]
fn joined_at(
    alloc: Global,
    rows: &DType,
    parts: &[Part],
    at: usize,
    level: u8,
    depth: u32,
) -> Result<(Operand, usize), ConditionFault>
    requires { level ≤ 5 }
    ensures { IfOk result (λ p. IsRead rows.now level (map part_of parts.now) at p.1 (said_of p.0)) }
{
    let (first, begun) = level_at(alloc, rows, parts, at, level + 1, depth)?;
    let mut operand = first;
    let mut end = begun;
    'joined: for _ in at..parts.len() {
        let Some(op) = infix_at(parts, end) else {
            return Ok((operand, end));
        };
        let binds = op.level();
        if binds != level {
            return Ok((operand, end));
        }
        let (second, next) = level_at(alloc, rows, parts, end + 1, level + 1, depth)?;
        let both = join(alloc, rows, op, operand, second, place_at(parts, end))?;
        operand = both;
        end = next;
    }
    Ok((operand, end))
}

/// The contrary of what stands behind `not`, or what binds more closely.
#[cycle(reading)]
fn contrary_at(
    alloc: Global,
    rows: &DType,
    parts: &[Part],
    at: usize,
    depth: u32,
) -> Result<(Operand, usize), ConditionFault>
    ensures { IfOk result (λ p. IsRead rows.now 3 (map part_of parts.now) at p.1 (said_of p.0)) }
{
    if !is_word_at(parts, at, "not") {
        return level_at(alloc, rows, parts, at, 4, depth);
    }
    if depth == 0 {
        return Err(ConditionFault::new(place_at(parts, at), Cause::Deep));
    }
    let (inner, end) = level_at(alloc, rows, parts, at + 1, 3, depth - 1)?;
    let place = place_at(parts, at);
    let e = typed_alone(inner, place)?;
    let contrary = Expression::not(alloc, e)?;
    let operand = checked(alloc, rows, contrary, place)?;
    Ok((operand, end))
}

/// A function, parentheses, or what has no parts that are conditions.
#[cycle(reading)]
fn primary_at(
    alloc: Global,
    rows: &DType,
    parts: &[Part],
    at: usize,
    depth: u32,
) -> Result<(Operand, usize), ConditionFault>
    ensures { IfOk result (λ p. IsRead rows.now 6 (map part_of parts.now) at p.1 (said_of p.0)) }
{
    if is_sign_at(parts, at, "(") {
        return grouped_at(alloc, rows, parts, at, depth);
    }
    match function_at(parts, at) {
        Some(function) => call_at(alloc, rows, parts, at, function, depth),
        None => leaf_at(alloc, rows, parts, at),
    }
}

/// What stands in parentheses.
#[cycle(reading)]
fn grouped_at(
    alloc: Global,
    rows: &DType,
    parts: &[Part],
    at: usize,
    depth: u32,
) -> Result<(Operand, usize), ConditionFault>
    requires is { drop at (map part_of parts.now) ≡ sign (codes "(") ∷ drop (at + 1) (map part_of parts.now) }
    requires within { at < length parts.now }
    ensures { IfOk result (λ p. IsRead rows.now 6 (map part_of parts.now) at p.1 (said_of p.0)) }
{
    if depth == 0 {
        return Err(ConditionFault::new(place_at(parts, at), Cause::Deep));
    }
    let (operand, end) = level_at(alloc, rows, parts, at + 1, 1, depth - 1)?;
    if is_sign_at(parts, end, ")") {
        Ok((operand, end + 1))
    } else {
        Err(ConditionFault::new(place_at(parts, end), Cause::Open))
    }
}

/// A function of what stands in parentheses, or the field of its name.
#[cycle(reading)]
fn call_at(
    alloc: Global,
    rows: &DType,
    parts: &[Part],
    at: usize,
    function: Function,
    depth: u32,
) -> Result<(Operand, usize), ConditionFault>
    requires is { drop at (map part_of parts.now) ≡ word (function_name function) ∷ drop (at + 1) (map part_of parts.now) }
    requires within { at < length parts.now }
    ensures { IfOk result (λ p. IsRead rows.now 6 (map part_of parts.now) at p.1 (said_of p.0)) }
{
    if !is_sign_at(parts, at + 1, "(") {
        return leaf_at(alloc, rows, parts, at);
    }
    if depth == 0 {
        return Err(ConditionFault::new(place_at(parts, at), Cause::Deep));
    }
    let (inner, end) = level_at(alloc, rows, parts, at + 2, 1, depth - 1)?;
    if !is_sign_at(parts, end, ")") {
        return Err(ConditionFault::new(place_at(parts, at + 1), Cause::Open));
    }
    let place = place_at(parts, at);
    let e = typed_alone(inner, place)?;
    let called = function.call(alloc, e)?;
    let operand = checked(alloc, rows, called, place)?;
    Ok((operand, end + 1))
}

/// The expression that parts say.
pub(crate) fn read_parts(
    alloc: Global,
    rows: &DType,
    parts: &[Part],
) -> Result<Expression, ConditionFault>
    ensures { IfOk result (λ e. SaysAll rows.now (map part_of parts.now) (typed e)) }
{
    let (operand, end) = level_at(alloc, rows, parts, 0, 1, MOST_NESTED)?;
    if end < parts.len() {
        return Err(ConditionFault::new(place_at(parts, end), Cause::NoOperator));
    }
    let e = typed_alone(operand, place_at(parts, 0))?;
    Ok(e)
}
