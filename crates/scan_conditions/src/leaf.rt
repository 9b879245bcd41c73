//! Operands without parts.
ghost use Rattle.std.specs.Prelude.{◌≡◌, ◌<◌, ◌∷◌, ◌+◌, ◌-◌, ◌*◌, IfOk, IfSome, codes, drop, length, map, true};
ghost use Rattle.scan_values.specs.DataType.{DataType};
ghost use Rattle.scan_conditions.specs.Parts.{part_of};
ghost use Rattle.scan_conditions.specs.Reads.{IsNumber, IsRead, said_of};
ghost use Rattle.scan_conditions.specs.Spelling.{is_digit, sign, text};
ghost use Rattle.scan_conditions.specs.Written.{digits_behind, is_number};

use crate::fault::{Cause, ConditionFault};
use crate::lexer::is_digit;
use crate::operand::{Operand, below_zero, checked, whole};
use crate::path::{nested, path_at};
use crate::token::{Kind, Part, is_sign_at, is_word_at, place_at, word_at};
use scan_expr::Expression;
use scan_values::DType;
use std::alloc::Global;

fn more_digits(number: u64, digit: u8) -> Option<u64>
    requires { is_digit digit ≡ true }
    ensures { IfSome result (λ n. n ≡ number * 10 + (digit - 48)) }
{
    let value = digit - 48;
    number.checked_mul(10)?.checked_add(value as u64)
}

/// The number that decimal digits write, if it has no more than 64 bits.
fn number_of(digits: &[u8]) -> Option<u64>
    ensures { IfSome result (λ n. (is_number digits.now ≡ true) × (n ≡ digits_behind 0 digits.now)) }
{
    if digits.is_empty() {
        return None;
    }
    let mut number: u64 = 0;
    for c in digits {
        if !is_digit(*c) {
            return None;
        }
        let more = more_digits(number, *c)?;
        number = more;
    }
    Some(number)
}

/// The number that stands at a place.
fn number_at(parts: &[Part], at: usize) -> Option<u64>
    ensures is { IfSome result (λ n. IsNumber (map part_of parts.now) at n) }
    ensures within { IfSome result (λ _. at < length parts.now) }
{
    let word = word_at(parts, at)?;
    number_of(word.as_bytes())
}

/// A text, a name, a word or a number.
pub(crate) fn leaf_at(
    alloc: Global,
    rows: &DType,
    parts: &[Part],
    at: usize,
) -> Result<(Operand, usize), ConditionFault>
    ensures { IfOk result (λ p. IsRead rows.now 6 (map part_of parts.now) at p.1 (said_of p.0)) }
{
    match quoted_at(parts, at) {
        Some(text) => {
            let e = Expression::lit_utf8(alloc, text)?;
            Ok((Operand::Typed(e), at + 1))
        }
        None => unquoted_at(alloc, rows, parts, at),
    }
}

/// A name, a word or a number.
fn unquoted_at(
    alloc: Global,
    rows: &DType,
    parts: &[Part],
    at: usize,
) -> Result<(Operand, usize), ConditionFault>
    ensures { IfOk result (λ p. IsRead rows.now 6 (map part_of parts.now) at p.1 (said_of p.0)) }
{
    if is_sign_at(parts, at, "-") {
        return negative_at(parts, at);
    }
    match number_at(parts, at) {
        Some(number) => Ok((whole(number), at + 1)),
        None => word_leaf_at(alloc, rows, parts, at),
    }
}

/// The text in quotes that stands at a place.
fn quoted_at(parts: &[Part], at: usize) -> Option<&str>
    ensures is { IfSome result (λ t. drop at (map part_of parts.now) ≡ text t.now ∷ drop (at + 1) (map part_of parts.now)) }
    ensures within { IfSome result (λ _. at < length parts.now) }
{
    let part = parts.get(at)?;
    match part.kind {
        Kind::Text => Some(part.text.as_str()),
        _ => None,
    }
}

/// The number below 0 that stands at a place.
fn negative_at(parts: &[Part], at: usize) -> Result<(Operand, usize), ConditionFault>
    requires is { drop at (map part_of parts.now) ≡ sign (codes "-") ∷ drop (at + 1) (map part_of parts.now) }
    requires within { at < length parts.now }
    ensures { IfOk result (λ p. (s : DataType) → IsRead s 6 (map part_of parts.now) at p.1 (said_of p.0)) }
{
    match number_at(parts, at + 1) {
        Some(number) => Ok((below_zero(number), at + 2)),
        None => Err(ConditionFault::new(place_at(parts, at + 1), Cause::Number)),
    }
}

/// A truth value, the row's number, or a field.
fn word_leaf_at(
    alloc: Global,
    rows: &DType,
    parts: &[Part],
    at: usize,
) -> Result<(Operand, usize), ConditionFault>
    ensures { IfOk result (λ p. IsRead rows.now 6 (map part_of parts.now) at p.1 (said_of p.0)) }
{
    if is_word_at(parts, at, "true") {
        let truth = Expression::lit_bool(true);
        return Ok((Operand::Typed(truth), at + 1));
    }
    if is_word_at(parts, at, "false") {
        let contrary = Expression::lit_bool(false);
        return Ok((Operand::Typed(contrary), at + 1));
    }
    if is_word_at(parts, at, "#row_idx") {
        let row = Expression::row_idx();
        return Ok((Operand::Typed(row), at + 1));
    }
    let (names, end) = path_at(alloc, parts, at)?;
    let e = nested(alloc, names.as_slice())?;
    let operand = checked(alloc, rows, e, place_at(parts, at))?;
    Ok((operand, end))
}
