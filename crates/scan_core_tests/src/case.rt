//! What a case says, by its words: `two of:b least:2 limit:1 at_once:2 wait:0,1`.
use scan_core::SplitBy;
use scan_values::StrictSorted;
use std::alloc::Global;
use std::ops::Range;
use std::process::Abort;

/// The two sides of a mark.
pub(crate) fn sides<'a>(rt: &impl Abort, line: &'a str, mark: &str) -> (&'a str, &'a str) {
    match line.split_once(mark) {
        Some(sides) => sides,
        None => panic!(rt; "half a line"),
    }
}

/// What stands in a case behind this word.
pub(crate) fn after<'a>(case: &'a str, word: &str) -> Option<&'a str> {
    for part in case.split_whitespace() {
        if let Some(text) = part.strip_prefix(word) {
            return Some(text);
        }
    }
    None
}

/// The number behind a word, or another where the word is lacking.
pub(crate) fn number(rt: &impl Abort, case: &str, word: &str, otherwise: u64) -> u64 {
    match after(case, word) {
        Some(text) => text.parse::<u64>().expect(rt, "parse"),
        None => otherwise,
    }
}

/// Rising numbers: `2,7`.
pub(crate) fn rising(rt: &impl Abort, alloc: Global, text: &str) -> StrictSorted {
    let mut numbers = Vec::new(alloc);
    for number in text.split(',') {
        numbers
            .push(number.parse::<u64>().expect(rt, "parse"))
            .expect(rt, "push");
    }
    StrictSorted::try_new(numbers).expect(rt, "try_new")
}

/// The two ends behind a word: `5..25`.
pub(crate) fn ends(rt: &impl Abort, case: &str, word: &str) -> Option<(u64, u64)> {
    let Some(text) = after(case, word) else {
        return None;
    };
    let (start, end) = sides(rt, text, "..");
    Some((
        start.parse::<u64>().expect(rt, "parse"),
        end.parse::<u64>().expect(rt, "parse"),
    ))
}

/// The rows that are asked of a scan that is set up, where not all are: `asked:1..3`.
pub(crate) fn asked(rt: &impl Abort, case: &str) -> Option<Range<u64>> {
    match ends(rt, case, "asked:") {
        Some((start, end)) => Some(start..end),
        None => None,
    }
}

/// By so many rows, or by the ends of segments.
pub(crate) fn split_by(rt: &impl Abort, case: &str) -> SplitBy {
    match after(case, "by:") {
        Some(text) => SplitBy::RowCount(text.parse::<u64>().expect(rt, "parse")),
        None => SplitBy::default(),
    }
}

/// What a scan sets but for its expressions and the rows that it selects by their numbers.
#[derive(Clone, Copy)]
pub(crate) struct Settings {
    pub at_once: usize,
    pub by: SplitBy,
    pub rows: Option<(u64, u64)>,
    pub offset: u64,
    pub limit: Option<u64>,
    pub ordered: bool,
}

fn limit(rt: &impl Abort, case: &str) -> Option<u64> {
    match after(case, "limit:") {
        Some(text) => Some(text.parse::<u64>().expect(rt, "parse")),
        None => None,
    }
}

/// What a case sets, and what it does not say as a builder has it from the first.
pub(crate) fn settings_of(rt: &impl Abort, case: &str) -> Settings {
    Settings {
        at_once: number(rt, case, "at_once:", 4) as usize,
        by: split_by(rt, case),
        rows: ends(rt, case, "rows:"),
        offset: number(rt, case, "offset:", 0),
        limit: limit(rt, case),
        ordered: after(case, "unordered").is_none(),
    }
}
