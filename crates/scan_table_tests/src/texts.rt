//! Cases by their lines.
use scan_values::StrictSorted;
use std::alloc::Global;
use std::process::Abort;

/// The two sides of a mark.
pub(crate) fn sides<'a>(rt: &impl Abort, line: &'a str, mark: &str) -> (&'a str, &'a str) {
    match line.split_once(mark) {
        Some(sides) => sides,
        None => panic!(rt; "half a line"),
    }
}

/// A text in which each name of the lines `<NAME> TEXT` stands for its text, where a text may use the names above it.
pub(crate) fn expanded(rt: &impl Abort, alloc: Global, names: &str, text: &str) -> String {
    let mut made = String::from_str(alloc, text).expect(rt, "from_str");
    for line in names.lines().rev() {
        let (name, meant) = sides(rt, line, " ");
        made = made
            .as_str()
            .replace(alloc, name, meant)
            .expect(rt, "replace");
    }
    made
}

/// Rising numbers: `0 1 3`.
pub(crate) fn rising(rt: &impl Abort, alloc: Global, text: &str) -> StrictSorted {
    let mut numbers = Vec::new(alloc);
    for number in text.split_whitespace() {
        numbers
            .push(number.parse::<u64>().expect(rt, "parse"))
            .expect(rt, "push");
    }
    StrictSorted::try_new(numbers).expect(rt, "try_new")
}
