//! What a line says by words.
use std::process::Abort;

/// The two sides of a mark.
pub(crate) fn sides<'a>(rt: &impl Abort, line: &'a str, mark: &str) -> (&'a str, &'a str) {
    match line.split_once(mark) {
        Some(sides) => sides,
        None => panic!(rt; "half a line"),
    }
}

/// What stands behind a word, or nothing. Words have this between them.
pub(crate) fn after<'a>(words: &'a str, between: char, word: &str) -> &'a str {
    for part in words.split(between) {
        if let Some(text) = part.strip_prefix(word) {
            return text;
        }
    }
    ""
}

/// The number behind a word, or 0 where the word is lacking.
pub(crate) fn number(rt: &impl Abort, words: &str, between: char, word: &str) -> u64 {
    match after(words, between, word) {
        "" => 0,
        text => text.parse::<u64>().expect(rt, "parse"),
    }
}

fn has(words: &str, word: &str) -> bool {
    for part in words.split_whitespace() {
        if part == word {
            return true;
        }
    }
    false
}

/// How many of some words are among others.
pub(crate) fn among(some: &str, others: &str) -> u64 {
    let mut count: u64 = 0;
    for word in some.split_whitespace() {
        if has(others, word) {
            count = count.saturating_add(1);
        }
    }
    count
}
