//! Lines of cases, and what is told of each.
use std::alloc::Global;
use std::fmt::{Display, Write};
use std::process::Abort;

/// A call that cases are given to.
pub(crate) trait Told {
    /// What it gives of a case, in words.
    fn told(&self, rt: &impl Abort, alloc: Global, case: &str) -> String;
}

/// A line's two sides.
pub(crate) fn sides<'a>(rt: &impl Abort, line: &'a str, mark: &str) -> (&'a str, &'a str) {
    match line.split_once(mark) {
        Some(sides) => sides,
        None => panic!(rt; "half a line"),
    }
}

/// Looks whether each line `CASE -> WORDS` holds of a call.
pub(crate) fn hold<C: Told>(rt: &impl Abort, alloc: Global, call: &C, lines: &str) {
    for line in lines.lines() {
        let (case, wanted) = sides(rt, line, " -> ");
        let found = call.told(rt, alloc, case);
        assert!(rt; found.as_str() == wanted, "{line}, not {found}");
    }
}

/// Items as they are shown, one after another: `1, null, [2, 3]`.
pub(crate) fn shown<T: Display>(rt: &impl Abort, alloc: Global, items: &[T]) -> String {
    let mut text = String::new(alloc);
    for (i, item) in items.iter().enumerate() {
        if i > 0 {
            text.push_str(", ").expect(rt, "push_str");
        }
        write!(text, "{item}").expect(rt, "write");
    }
    text
}
