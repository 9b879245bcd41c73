//! Runs the programs `table`, `union` and `lookup` on the examples of `table.txt`, `union.txt` and `lookup.txt`, and prints
//! for each whether its status and lines are those that are wanted.
//!
//! A file is blocks with an empty line between them. The first has names, a line each: `<NAME> TEXT`, where a text may use
//! the names above it. Each further block is an example: a line `STATUS; WORDS; HOW; TITLE`, the input, and the lines that
//! are wanted; a name in them stands for its text. HOW is empty, `read 0` or `write 0` where that call fails, `any 4` where
//! so many of the lines are wanted in any order, or `each u8 u16` where the run is made with `<each>` as each of these words.
//! Otherwise `<each>` is 1, 2 and 4.
#![tactic(auto)]

use scan_lookup_run::run_lookup;
use scan_run::{MemoryInput, MemoryOutput, NoGate};
use scan_table::run_table;
use scan_union_run::run_union;
use scan_values::StrictSorted;
use std::alloc::Global;
use std::collections::hash_map::RandomState;
use std::fs::{self, Files};
use std::io::{self, Error, ErrorKind};
use std::process::ExitCode;
use std::thread::Threads;

/// A program that is run.
#[derive(Clone, Copy)]
enum Program {
    Table,
    Union,
    Lookup,
}

/// What the first line of an example says.
#[derive(Clone, Copy)]
struct Head<'a> {
    status: u8,
    words: &'a str,
    how: &'a str,
    title: &'a str,
}

fn main(rt: HostRuntime) -> ExitCode {
    let Ok(hasher) = RandomState::new(&rt) else {
        return ExitCode::FAILURE;
    };
    for (program, path) in [
        (Program::Table, "table.txt"),
        (Program::Union, "union.txt"),
        (Program::Lookup, "lookup.txt"),
    ] {
        if run_examples(&rt, rt.alloc(), hasher, program, path).is_err() {
            return ExitCode::FAILURE;
        }
    }
    ExitCode::SUCCESS
}

/// Runs the examples of a file by a program, and prints a line of each.
fn run_examples(
    rt: &(impl Threads + Sync + Files + Print + Alloc<A = Global>),
    alloc: Global,
    hasher: RandomState,
    program: Program,
    path: &str,
) -> io::Result<()> {
    println!(rt; "{path}")?;
    let text = fs::read_to_string(rt, path)?;
    let text = text.as_str();
    let Some((names, examples)) = text.split_once("\n\n") else {
        return println!(rt; "{path}: no names");
    };
    for example in examples.trim_end().split("\n\n") {
        run_example(rt, alloc, hasher, program, names, example)?;
    }
    Ok(())
}

/// Runs one example, and prints its title, its status, and whether all is as it should be.
fn run_example(
    rt: &(impl Threads + Sync + Print),
    alloc: Global,
    hasher: RandomState,
    program: Program,
    names: &str,
    example: &str,
) -> io::Result<()> {
    let (first, rest) = example.split_once('\n').unwrap_or((example, ""));
    let Some(head) = head_of(first) else {
        return println!(rt; "{first}: no example");
    };
    let text = expanded(alloc, names, rest)?;
    let text = text.as_str();
    let Some((input, lines)) = text.split_once('\n') else {
        return println!(rt; "{first}: no input");
    };
    let each = match head.how.strip_prefix("each ") {
        Some(words) => words,
        None if input.contains("<each>") => "1 2 4",
        None => "once",
    };
    for word in each.split_whitespace() {
        let input = input.replace(alloc, "<each>", word)?;
        let (status, written) = outcome(rt, alloc, hasher, program, head, input.as_str())?;
        if status != head.status || !is_wanted(written.as_slice(), lines, head.how) {
            return println!(rt; "{}: {status} WRONG by {word}", head.title);
        }
    }
    println!(rt; "{}: {} as wanted", head.title, head.status)
}

/// What a line `STATUS; WORDS; HOW; TITLE` says.
fn head_of(line: &str) -> Option<Head<'_>> {
    let (status, rest) = line.split_once("; ")?;
    let (words, rest) = rest.split_once("; ")?;
    let (how, title) = rest.split_once("; ")?;
    Some(Head {
        status: status.parse::<u8>().ok()?,
        words,
        how,
        title,
    })
}

/// A text and the end of its last line, in which each name stands for its text.
fn expanded(alloc: Global, names: &str, text: &str) -> io::Result<String> {
    let mut made = String::from_str(alloc, text)?;
    made.push_str("\n")?;
    for line in names.lines().rev() {
        if let Some((name, meant)) = line.split_once(' ') {
            made = made.as_str().replace(alloc, name, meant)?;
        }
    }
    Ok(made)
}

/// The number of the call that fails, which stands behind this word, or none.
fn failing(alloc: Global, how: &str, word: &str) -> io::Result<StrictSorted> {
    let mut numbers = Vec::new(alloc);
    if let Some(text) = how.strip_prefix(word) {
        if let Ok(number) = text.parse::<u64>() {
            numbers.push(number)?;
        }
    }
    match StrictSorted::try_new(numbers) {
        Ok(numbers) => Ok(numbers),
        Err(_) => Err(Error::from(ErrorKind::InvalidInput)),
    }
}

/// The status of a run, and what it wrote.
fn outcome(
    rt: &(impl Threads + Sync),
    alloc: Global,
    hasher: RandomState,
    program: Program,
    head: Head<'_>,
    input: &str,
) -> io::Result<(u8, Vec<u8>)> {
    let reads = failing(alloc, head.how, "read ")?;
    let writes = failing(alloc, head.how, "write ")?;
    let mut words = Vec::new(alloc);
    for word in head.words.split_whitespace() {
        words.push(String::from_str(alloc, word)?)?;
    }
    let mut from = MemoryInput::new(alloc, Vec::from_slice(alloc, input.as_bytes())?, reads);
    let mut to = MemoryOutput::new(alloc, writes);
    let words = words.as_slice();
    let status = match program {
        Program::Table => run_table(rt, alloc, words, &mut from, &mut to, &NoGate::new(), hasher),
        Program::Union => run_union(rt, alloc, words, &mut from, &mut to, &NoGate::new()),
        Program::Lookup => run_lookup(alloc, words, &mut from, &mut to, hasher),
    };
    Ok((status, to.bytes))
}

/// Whether these lines were written, or so many of them in any order.
fn is_wanted(written: &[u8], lines: &str, how: &str) -> bool {
    let (Some(count), Ok(text)) = (how.strip_prefix("any "), str::from_utf8(written)) else {
        return written == lines.as_bytes();
    };
    let mut found: usize = 0;
    let mut length: usize = 0;
    for line in lines.lines() {
        if text.contains(line) {
            found = found.saturating_add(1);
            length = length.saturating_add(line.len()).saturating_add(1);
        }
    }
    match count.parse::<usize>() {
        Ok(count) => found == count && length == text.len(),
        Err(_) => false,
    }
}
