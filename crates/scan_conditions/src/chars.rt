//! Characters of a text.
ghost use Rattle.std.specs.Prelude.{◌≡◌, ◌<◌, ◌≤◌, length, IfOk, IfSome, true};

use crate::fault::{Cause, ConditionFault};
use scan_values::FieldName;
use std::alloc::Global;

fn char_at(chars: &[char], at: usize) -> Option<char>
    ensures { IfSome result (λ _. at < length chars.now) }
{
    if at < chars.len() {
        Some(chars[at])
    } else {
        None
    }
}

/// Whether this character stands at a place.
pub(crate) fn is_at(chars: &[char], at: usize, c: char) -> bool
    ensures { result ≡ true → at < length chars.now }
{
    match char_at(chars, at) {
        Some(other) => other == c,
        None => false,
    }
}

fn is_word_start(c: char) -> bool {
    c.is_alphabetic() || c == '_'
}

fn is_word(c: char) -> bool {
    c.is_alphanumeric() || c == '_'
}

/// Where the word that goes on here ends.
pub(crate) fn word_end(chars: &[char], at: usize) -> usize
    requires { at ≤ length chars.now }
    ensures { (at ≤ result) × (result ≤ length chars.now) }
{
    for i in at..chars.len() {
        if !is_word(chars[i]) {
            return i;
        }
    }
    chars.len()
}

pub(crate) fn text_of(alloc: Global, chars: &[char]) -> Result<String, ConditionFault> {
    let mut text = String::new(alloc);
    for c in chars {
        text.push(*c)?;
    }
    Ok(text)
}

/// The text between the quote here and the next that does not stand twice, and where it ends.
fn quoted_at(
    alloc: Global,
    chars: &[char],
    at: usize,
    quote: char,
) -> Result<(String, usize), ConditionFault>
    requires { at < length chars.now }
    ensures { IfOk result (λ p. (at < p.1) × (p.1 ≤ length chars.now)) }
{
    let mut text = String::new(alloc);
    let mut end = at + 1;
    'quoted: for _ in at..chars.len() {
        let Some(c) = char_at(chars, end) else {
            return Err(ConditionFault::new(at, Cause::Quote));
        };
        if c == quote {
            if !is_at(chars, end + 1, quote) {
                return Ok((text, end + 1));
            }
            end += 1;
        }
        text.push(c)?;
        end += 1;
    }
    Err(ConditionFault::new(at, Cause::Quote))
}

/// The name that stands here, a word or in double quotes, and where it ends.
pub(crate) fn name_at(
    alloc: Global,
    chars: &[char],
    at: usize,
) -> Result<(FieldName, usize), ConditionFault>
    ensures { IfOk result (λ p. (at < p.1) × (p.1 ≤ length chars.now)) }
{
    let Some(c) = char_at(chars, at) else {
        return Err(ConditionFault::new(at, Cause::NoOperand));
    };
    if c == '"' {
        let (text, end) = quoted_at(alloc, chars, at, '"')?;
        return Ok((FieldName::new(text), end));
    }
    if !is_word_start(c) {
        return Err(ConditionFault::new(at, Cause::NoOperand));
    }
    let end = word_end(chars, at + 1);
    let text = text_of(alloc, &chars[at..end])?;
    Ok((FieldName::new(text), end))
}

/// Where the spaces that stand here end.
fn spaces_end(chars: &[char], at: usize) -> usize
    requires { at ≤ length chars.now }
    ensures { (at ≤ result) × (result ≤ length chars.now) }
{
    for i in at..chars.len() {
        if !chars[i].is_whitespace() {
            return i;
        }
    }
    chars.len()
}

/// Where the spaces that stand here end, if any do.
pub(crate) fn skip_spaces(chars: &[char], at: usize) -> usize {
    if at < chars.len() {
        spaces_end(chars, at)
    } else {
        at
    }
}
