//! Runs of the program: the cases of `runs.txt`.
use scan_run::run::run;
use scan_run::{MemoryInput, MemoryOutput, NoGate};
use scan_values::StrictSorted;
use std::alloc::Global;
use std::collections::hash_map::RandomState;
use std::fs::{self, Files};
use std::io;
use std::thread::Threads;

/// A case: the status that is wanted, the words, what its lines have to be (all in their order, or so many of them), what it
/// shows, the input, and the lines.
#[derive(Clone, Copy)]
struct Case<'a> {
    status: u8,
    words: &'a str,
    how: &'a str,
    title: &'a str,
    input: &'a str,
    lines: &'a str,
}

/// Runs each case, and prints a line of it.
pub(crate) fn run_all(
    rt: &(impl Threads + Sync + Files + Print + Alloc<A = Global>),
    alloc: Global,
    hasher: RandomState,
) -> io::Result<()> {
    let text = fs::read_to_string(rt, "runs.txt")?;
    let (names, cases) = text.trim_ascii_end().split_once("\n\n").unwrap_or(("", ""));
    for block in cases.split("\n\n") {
        if !block.starts_with("#") {
            run_block(rt, alloc, hasher, names, block)?;
        }
    }
    Ok(())
}

/// A text with what each name in it stands for, of these lines. The text of a name may have names of later lines.
fn spelled(alloc: Global, names: &str, text: &str) -> io::Result<String> {
    let mut whole = String::from_str(alloc, text)?;
    for line in names.lines() {
        if let Some((name, meaning)) = line.split_once(' ') {
            whole = whole.replace(alloc, name, meaning)?;
        }
    }
    Ok(whole)
}

fn case_of(block: &str) -> Option<Case<'_>> {
    let (head, rest) = block.split_once('\n').unwrap_or((block, ""));
    let (input, lines) = rest.split_once('\n').unwrap_or((rest, ""));
    let (status, head) = head.split_once("; ")?;
    let (words, head) = head.split_once("; ")?;
    let (how, title) = head.split_once("; ")?;
    let status = status.parse::<u8>().ok()?;
    Some(Case {
        status,
        words,
        how,
        title,
        input,
        lines,
    })
}

/// Runs the case of a block with each number of workers, and prints its status, what it shows, and whether all is as wanted.
fn run_block(
    rt: &(impl Threads + Sync + Files + Print + Alloc<A = Global>),
    alloc: Global,
    hasher: RandomState,
    names: &str,
    block: &str,
) -> io::Result<()> {
    let Some(case) = case_of(block) else {
        return println!(rt; "WRONG: no case: {block}");
    };
    let input = spelled(alloc, names, case.input)?;
    let lines = spelled(alloc, names, case.lines)?;
    let all = if input.contains("<each>") {
        "1 2 4"
    } else {
        "1"
    };
    let mut is_right = true;
    for each in all.split_whitespace() {
        let input = input.replace(alloc, "<each>", each)?;
        if !ends_so(rt, alloc, hasher, &case, input.as_str(), lines.as_str())? {
            is_right = false;
        }
    }
    let verdict = if is_right { "as wanted" } else { "WRONG" };
    let status = case.status;
    let title = case.title;
    println!(rt; "{status} {verdict}: {title}")
}

/// Whether a run on this input has the status and the lines of the case. If not, what it has is printed.
fn ends_so(
    rt: &(impl Threads + Sync + Files + Print + Alloc<A = Global>),
    alloc: Global,
    hasher: RandomState,
    case: &Case<'_>,
    input: &str,
    lines: &str,
) -> io::Result<bool> {
    let words = words_of(alloc, case.words)?;
    let bytes = Vec::from_slice(alloc, input.as_bytes())?;
    let mut input = MemoryInput::new(alloc, bytes, never(alloc));
    let mut output = MemoryOutput::new(alloc, never(alloc));
    let gate = NoGate::new();
    let status = run(
        rt,
        alloc,
        words.as_slice(),
        &mut input,
        &mut output,
        &gate,
        hasher,
    );
    let Ok(written) = std::str::from_utf8(output.written()) else {
        return Ok(false);
    };
    let is_right = status == case.status && are_wanted(case.how, lines, written);
    if !is_right {
        println!(rt; "{status}:\n{written}")?;
    }
    Ok(is_right)
}

/// The words of a case, of which '' is one without letters.
fn words_of(alloc: Global, text: &str) -> io::Result<Vec<String>> {
    let mut words = Vec::new(alloc);
    for word in text.split_whitespace() {
        let word = if word == "''" { "" } else { word };
        words.push(String::from_str(alloc, word)?)?;
    }
    Ok(words)
}

/// Calls that never fail.
fn never(alloc: Global) -> StrictSorted {
    StrictSorted::try_new(Vec::new(alloc)).unwrap()
}

/// Whether what was written is just these lines, or so many of them, in any order and each once.
fn are_wanted(how: &str, lines: &str, written: &str) -> bool {
    let Some(count) = how.strip_prefix("any ") else {
        return match written.strip_suffix("\n") {
            Some(written) => written == lines && !lines.is_empty(),
            None => written.is_empty() && lines.is_empty(),
        };
    };
    match count.parse::<u64>() {
        Ok(count) => count_of(lines, written) == count && count_of(written, written) == count,
        Err(_) => false,
    }
}

/// How many lines of a text are among others.
fn count_of(lines: &str, others: &str) -> u64 {
    let mut count = 0_u64;
    for line in lines.lines() {
        if has_line(others, line) {
            count = count.saturating_add(1);
        }
    }
    count
}

fn has_line(text: &str, wanted: &str) -> bool {
    for line in text.lines() {
        if line == wanted {
            return true;
        }
    }
    false
}
