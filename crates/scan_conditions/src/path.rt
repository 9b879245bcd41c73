//! Names of fields, and names within one another.
ghost use Rattle.std.specs.Prelude.{◌≡◌, ◌<◌, ◌&&◌, IfOk, length, map, not};
ghost use Rattle.scan_expr.specs.Expr.{root};
ghost use Rattle.scan_conditions.specs.Parts.{part_of};
ghost use Rattle.scan_conditions.specs.Reads.{IsPath, IsName};
ghost use Rattle.scan_conditions.specs.Spelling.{begins, is_letter};
ghost use Rattle.scan_conditions.specs.Written.{is_reserved, names_field, nested};

use crate::fault::{Cause, ConditionFault};
use crate::lexer::begins_word;
use crate::token::{Kind, Part, is_sign_at, place_at};
use scan_expr::Expression;
use scan_values::{FieldName, NoMemory};
use std::alloc::Global;

/// Whether a word has a meaning of its own.
fn is_reserved(word: &str) -> bool
    ensures { result ≡ is_reserved word.now }
{
    word == "and" || (word == "or" || (word == "not" || (word == "true" || word == "false")))
}

/// Whether a word is the name of a field.
fn names_word(word: &str) -> bool
    ensures { result ≡ begins is_letter word.now && not (is_reserved word.now) }
{
    begins_word(word) & !is_reserved(word)
}

/// Whether a part is the name of a field.
fn names_field(part: &Part) -> bool
    ensures { result ≡ names_field (part_of part.now) }
{
    match part.kind {
        Kind::Word => names_word(part.text.as_str()),
        Kind::Name => true,
        Kind::Text => false,
        Kind::Sign => false,
    }
}

/// The name that stands at a place.
fn name_at(alloc: Global, parts: &[Part], at: usize) -> Result<FieldName, ConditionFault>
    ensures is { IfOk result (λ n. IsName (map part_of parts.now) at n) }
    ensures within { IfOk result (λ _. at < length parts.now) }
{
    let Some(part) = parts.get(at) else {
        return Err(ConditionFault::new(place_at(parts, at), Cause::NoOperand));
    };
    if !names_field(part) {
        return Err(ConditionFault::new(part.place, Cause::NoOperand));
    }
    let text = String::from_str(alloc, part.text.as_str())?;
    Ok(FieldName::new(text))
}

/// The names within one another that stand at a place, and where they end.
pub(crate) fn path_at(
    alloc: Global,
    parts: &[Part],
    at: usize,
) -> Result<(Vec<FieldName>, usize), ConditionFault>
    ensures { IfOk result (λ p. IsPath (map part_of parts.now) at p.1 p.0.items) }
{
    let mut names = Vec::new(alloc);
    let first = name_at(alloc, parts, at)?;
    names.push(first)?;
    let mut end = at + 1;
    'dots: for _ in at..parts.len() {
        if !is_sign_at(parts, end, ".") {
            return Ok((names, end));
        }
        let name = name_at(alloc, parts, end + 1)?;
        names.push(name)?;
        end += 2;
    }
    Ok((names, end))
}

/// The field of these names within one another.
pub(crate) fn nested(alloc: Global, names: &[FieldName]) -> Result<Expression, NoMemory>
    ensures { IfOk result (λ e. e ≡ nested root names.now) }
{
    let mut e = Expression::root();
    for name in names {
        let copy = name.try_clone(alloc)?;
        let field = Expression::get_item(alloc, copy, e)?;
        e = field;
    }
    Ok(e)
}
