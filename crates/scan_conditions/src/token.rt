//! The parts of a text.
ghost use Rattle.std.specs.Prelude.{◌≡◌, ◌<◌, ◌∷◌, ◌+◌, IfSome, drop, length, map, true};
ghost use Rattle.scan_conditions.specs.Parts.{part_of};
ghost use Rattle.scan_conditions.specs.Spelling.{word, sign};

/// What a part of a text is.
#[derive(Clone, Copy, Debug, PartialEq, Eq)]
pub(crate) enum Kind {
    /// Letters and digits.
    Word,
    /// A name in double quotes.
    Name,
    /// A text in single quotes.
    Text,
    /// An operator, a parenthesis, or what stands between names.
    Sign,
}

/// A part of a text, without quotes, and the numbers of its first byte and of the one behind it.
#[derive(Drop)]
pub(crate) struct Part {
    pub(crate) kind: Kind,
    pub(crate) text: String,
    pub(crate) place: usize,
    pub(crate) end: usize,
}

/// Whether this word stands at a place.
pub(crate) fn is_word_at(parts: &[Part], at: usize, text: &str) -> bool
    ensures is { result ≡ true → drop at (map part_of parts.now) ≡ word text.now ∷ drop (at + 1) (map part_of parts.now) }
    ensures within { result ≡ true → at < length parts.now }
{
    match word_at(parts, at) {
        Some(found) => found == text,
        None => false,
    }
}

/// The word that stands at a place.
pub(crate) fn word_at(parts: &[Part], at: usize) -> Option<&str>
    ensures is { IfSome result (λ w. drop at (map part_of parts.now) ≡ word w.now ∷ drop (at + 1) (map part_of parts.now)) }
    ensures within { IfSome result (λ _. at < length parts.now) }
{
    match parts.get(at) {
        Some(part) => match part.kind {
            Kind::Word => Some(part.text.as_str()),
            _ => None,
        },
        None => None,
    }
}

/// The sign that stands at a place.
fn sign_at(parts: &[Part], at: usize) -> Option<&str>
    ensures is { IfSome result (λ w. drop at (map part_of parts.now) ≡ sign w.now ∷ drop (at + 1) (map part_of parts.now)) }
    ensures within { IfSome result (λ _. at < length parts.now) }
{
    match parts.get(at) {
        Some(part) => match part.kind {
            Kind::Sign => Some(part.text.as_str()),
            _ => None,
        },
        None => None,
    }
}

/// Whether this sign stands at a place.
pub(crate) fn is_sign_at(parts: &[Part], at: usize, text: &str) -> bool
    ensures is { result ≡ true → drop at (map part_of parts.now) ≡ sign text.now ∷ drop (at + 1) (map part_of parts.now) }
    ensures within { result ≡ true → at < length parts.now }
{
    match sign_at(parts, at) {
        Some(found) => found == text,
        None => false,
    }
}

/// The first byte of the part at a place, or the end of the last.
pub(crate) fn place_at(parts: &[Part], at: usize) -> usize {
    match parts.get(at) {
        Some(part) => part.place,
        None => match parts.last() {
            Some(part) => part.end,
            None => 0,
        },
    }
}
