//! The parts of a text, in order.
ghost use Rattle.std.specs.Prelude.{◌≡◌, ◌<◌, ◌+◌, ◌==◌, ◌∷◌, ◌++◌, [], length, drop, map, slice_get, IfOk, IfSome, Some, false, true, string_bytes};
ghost use Rattle.std.specs.List.{list_all};
ghost use Rattle.scan_conditions.specs.Parts.{part_of};
ghost use Rattle.scan_conditions.specs.Spelling.{Begins, IsQuoted, Passes, Spells, begins, doubled, is_between, is_digit, is_letter, is_mark, is_pair, is_single, is_space, is_word, sign, word};

use crate::fault::{Cause, ConditionFault};
use crate::token::{Kind, Part};
use scan_values::NoMemory;
use std::alloc::Global;
use std::str::from_utf8;

fn is_between(low: u8, high: u8, c: u8) -> bool
    ensures { result ≡ is_between low high c }
{
    low <= c && c <= high
}

/// A letter, `_`, or a byte of a character that is not ASCII.
fn is_letter(c: u8) -> bool
    ensures { result ≡ is_letter c }
{
    is_between(97, 122, c) || (is_between(65, 90, c) || (c == 95 || 128 <= c))
}

pub(crate) fn is_digit(c: u8) -> bool
    ensures { result ≡ is_digit c }
{
    is_between(48, 57, c)
}

fn is_word(c: u8) -> bool
    ensures { result ≡ is_word c }
{
    is_letter(c) || (is_digit(c) || c == 35)
}

fn is_space(c: u8) -> bool
    ensures { result ≡ is_space c }
{
    c == 32 || is_between(9, 13, c)
}

fn is_single(c: u8) -> bool
    ensures { result ≡ is_single c }
{
    c == 61 || (c == 60 || (c == 62 || (c == 43 || (c == 45 || is_mark(c)))))
}

/// A parenthesis, a comma or a dot.
fn is_mark(c: u8) -> bool
    ensures { result ≡ is_mark c }
{
    c == 40 || (c == 41 || (c == 44 || c == 46))
}

fn is_pair(c: u8, d: u8) -> bool
    ensures { result ≡ is_pair c d }
{
    d == 61 && (c == 33 || (c == 60 || c == 62))
}

fn byte_at(bytes: &[u8], at: usize) -> Option<u8>
    ensures value { result ≡ slice_get bytes.now at }
    ensures within { IfSome result (λ _. at < length bytes.now) }
{
    if at < bytes.len() {
        Some(bytes[at])
    } else {
        None
    }
}

fn is_byte_at(bytes: &[u8], at: usize, c: u8) -> bool
    ensures value { result ≡ begins (λ b. b == c) (drop at bytes.now) }
    ensures within { result ≡ true → at < length bytes.now }
{
    match byte_at(bytes, at) {
        Some(b) => b == c,
        None => false,
    }
}

/// Whether a word goes on here.
fn has_word_at(bytes: &[u8], at: usize) -> bool
    ensures { result ≡ begins is_word (drop at bytes.now) }
{
    match byte_at(bytes, at) {
        Some(b) => is_word(b),
        None => false,
    }
}

/// Whether a text begins with a letter.
pub(crate) fn begins_word(text: &str) -> bool
    ensures { result ≡ begins is_letter text.now }
{
    match byte_at(text.as_bytes(), 0) {
        Some(c) => is_letter(c),
        None => false,
    }
}

/// Where the spaces that stand here end.
fn spaces_end(bytes: &[u8], at: usize) -> usize
    ensures { Passes is_space (drop at bytes.now) (drop result bytes.now) }
{
    let mut end = at;
    'spaces: for _ in at..bytes.len() {
        let Some(c) = byte_at(bytes, end) else {
            return end;
        };
        if !is_space(c) {
            return end;
        }
        end += 1;
    }
    end
}

/// The text of some bytes.
fn text_of(alloc: Global, bytes: &[u8], place: usize) -> Result<String, ConditionFault>
    ensures { IfOk result (λ t. string_bytes t ≡ bytes.now) }
{
    match from_utf8(bytes) {
        Ok(text) => Ok(String::from_str(alloc, text)?),
        Err(_) => Err(ConditionFault::new(place, Cause::Character)),
    }
}

/// A byte between quotes, and what follows it.
fn quoted_byte(bytes: &[u8], at: usize, quote: u8) -> Option<(u8, usize)>
    ensures { IfSome result (λ p. drop at bytes.now ≡ doubled quote (p.0 ∷ []) ++ drop p.1 bytes.now) }
{
    let c = byte_at(bytes, at)?;
    if c != quote {
        return Some((c, at + 1));
    }
    let d = byte_at(bytes, at + 1)?;
    if d == quote { Some((c, at + 2)) } else { None }
}

/// The bytes between the quote here and the next that does not stand twice, and where that one stands.
fn quoted_bytes(
    alloc: Global,
    bytes: &[u8],
    at: usize,
    quote: u8,
) -> Result<(Vec<u8>, usize), ConditionFault>
    requires { slice_get bytes.now at ≡ Some quote }
    ensures { IfOk result (λ p. drop at bytes.now ≡ quote ∷ (doubled quote p.0.items ++ drop p.1 bytes.now)) }
{
    let mut content = Vec::new(alloc);
    let mut end = at + 1;
    'quoted: for _ in at..bytes.len() {
        let Some((c, next)) = quoted_byte(bytes, end, quote) else {
            return Ok((content, end));
        };
        content.push(c)?;
        end = next;
    }
    Ok((content, end))
}

/// The text in the quotes that stand here, and where it ends.
fn quoted_at(
    alloc: Global,
    bytes: &[u8],
    at: usize,
    quote: u8,
) -> Result<(String, usize), ConditionFault>
    requires { slice_get bytes.now at ≡ Some quote }
    ensures { IfOk result (λ p. IsQuoted quote (string_bytes p.0) (drop at bytes.now) (drop p.1 bytes.now)) }
{
    let (content, end) = quoted_bytes(alloc, bytes, at, quote)?;
    if !is_byte_at(bytes, end, quote) {
        return Err(ConditionFault::new(at, Cause::Quote));
    }
    if is_byte_at(bytes, end + 1, quote) {
        return Err(ConditionFault::new(at, Cause::Quote));
    }
    let text = text_of(alloc, content.as_slice(), at)?;
    Ok((text, end + 1))
}

/// The bytes of a word that stand here, and where they end.
fn word_bytes(alloc: Global, bytes: &[u8], at: usize) -> Result<(Vec<u8>, usize), NoMemory>
    ensures { IfOk result (λ p. (drop at bytes.now ≡ p.0.items ++ drop p.1 bytes.now) × (list_all is_word p.0.items ≡ true)) }
{
    let mut content = Vec::new(alloc);
    let mut end = at;
    'word: for _ in at..bytes.len() {
        let Some(c) = byte_at(bytes, end) else {
            return Ok((content, end));
        };
        if !is_word(c) {
            return Ok((content, end));
        }
        content.push(c)?;
        end += 1;
    }
    Ok((content, end))
}

/// The word that stands here.
fn word_part(alloc: Global, bytes: &[u8], at: usize) -> Result<Part, ConditionFault>
    ensures { IfOk result (λ p. Begins (part_of p) (drop at bytes.now) (drop p.end bytes.now)) }
{
    let (content, end) = word_bytes(alloc, bytes, at)?;
    if content.is_empty() {
        return Err(ConditionFault::new(at, Cause::Character));
    }
    if has_word_at(bytes, end) {
        return Err(ConditionFault::new(at, Cause::Character));
    }
    let text = text_of(alloc, content.as_slice(), at)?;
    Ok(Part {
        kind: Kind::Word,
        text,
        place: at,
        end,
    })
}

/// A sign of one character.
fn single_sign(alloc: Global, c: u8, at: usize, end: usize) -> Result<Part, ConditionFault>
    ensures { IfOk result (λ p. (part_of p ≡ sign (c ∷ [])) × (is_single c ≡ true) × (p.end ≡ end)) }
{
    if !is_single(c) {
        return Err(ConditionFault::new(at, Cause::Character));
    }
    let text = text_of(alloc, &[c], at)?;
    Ok(Part {
        kind: Kind::Sign,
        text,
        place: at,
        end,
    })
}

/// The sign that stands here.
fn sign_part(alloc: Global, bytes: &[u8], at: usize, c: u8) -> Result<Part, ConditionFault>
    requires { slice_get bytes.now at ≡ Some c }
    ensures { IfOk result (λ p. Begins (part_of p) (drop at bytes.now) (drop p.end bytes.now)) }
{
    let next = at + 1;
    match byte_at(bytes, next) {
        Some(d) => longest_sign(alloc, bytes, at, c, d),
        None => single_sign(alloc, c, at, next),
    }
}

/// The sign of these two characters, or of the first.
fn longest_sign(
    alloc: Global,
    bytes: &[u8],
    at: usize,
    c: u8,
    d: u8,
) -> Result<Part, ConditionFault>
    requires first { slice_get bytes.now at ≡ Some c }
    requires second { slice_get bytes.now (at + 1) ≡ Some d }
    requires within { at + 1 < length bytes.now }
    ensures { IfOk result (λ p. Begins (part_of p) (drop at bytes.now) (drop p.end bytes.now)) }
{
    if !is_pair(c, d) {
        return single_sign(alloc, c, at, at + 1);
    }
    let text = text_of(alloc, &[c, d], at)?;
    Ok(Part {
        kind: Kind::Sign,
        text,
        place: at,
        end: at + 2,
    })
}

/// The part of a text that stands here.
fn part_at(alloc: Global, bytes: &[u8], at: usize) -> Result<Part, ConditionFault>
    ensures { IfOk result (λ p. Begins (part_of p) (drop at bytes.now) (drop p.end bytes.now)) }
{
    let Some(c) = byte_at(bytes, at) else {
        return Err(ConditionFault::new(at, Cause::Character));
    };
    if c == 39 {
        let (text, end) = quoted_at(alloc, bytes, at, c)?;
        return Ok(Part {
            kind: Kind::Text,
            text,
            place: at,
            end,
        });
    }
    if c == 34 {
        let (name, after) = quoted_at(alloc, bytes, at, c)?;
        return Ok(Part {
            kind: Kind::Name,
            text: name,
            place: at,
            end: after,
        });
    }
    if is_word(c) {
        return word_part(alloc, bytes, at);
    }
    sign_part(alloc, bytes, at, c)
}

/// The parts of a text, in order.
pub(crate) fn parts_of(alloc: Global, text: &str) -> Result<Vec<Part>, ConditionFault>
    ensures { IfOk result (λ ps. Spells text.now (map part_of ps.items)) }
{
    let bytes = text.as_bytes();
    let mut parts = Vec::new(alloc);
    let mut at = spaces_end(bytes, 0);
    'parts: for _ in 0..bytes.len() {
        if at >= bytes.len() {
            return Ok(parts);
        }
        let part = part_at(alloc, bytes, at)?;
        let next = spaces_end(bytes, part.end);
        parts.push(part)?;
        at = next;
    }
    if at < bytes.len() {
        return Err(ConditionFault::new(at, Cause::Character));
    }
    Ok(parts)
}
