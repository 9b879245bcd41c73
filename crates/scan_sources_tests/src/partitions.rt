//! Scans of many files: which of them are given, by which numbers, and why one is not. A case names the files, and then
//! says what is asked: `- 3 3! 3? | rows:1..3`. A file is so many rows, `-` for one that is skipped, with `!` where its
//! first poll fails and `?` where it is pending.
use crate::pairs::{file, pair};
use crate::requests::{after, number, request, sides};
use crate::told::{known, push_stream};
use scan_layout::LayoutRef;
use scan_multi_sources::{
    MemoryOpener, MultiFault, MultiLayoutDataSource, MultiLayoutPartition, MultiLayoutScan,
    PartitionPoll, SourceFault,
};
use scan_values::StrictSorted;
use std::alloc::Global;
use std::process::Abort;
use std::string::String;

/// The number of the first poll, where a file's word ends so.
fn first_poll(rt: &impl Abort, alloc: Global, word: &str, mark: char) -> StrictSorted {
    let mut polls = Vec::new(alloc);
    if word.strip_suffix(mark).is_some() {
        polls.push(0).expect(rt, "push");
    }
    StrictSorted::try_new(polls).expect(rt, "try_new")
}

/// A word without its mark.
fn bare(word: &str) -> &str {
    match word.strip_suffix('!') {
        Some(rows) => rows,
        None => match word.strip_suffix('?') {
            Some(rows) => rows,
            None => word,
        },
    }
}

fn layout(rt: &impl Abort, alloc: Global, word: &str) -> Option<LayoutRef> {
    match word {
        "-" => None,
        _ => Some(file(rt, alloc, bare(word).parse::<u64>().expect(rt, "parse"))),
    }
}

/// What opens a file of a word.
fn opener(rt: &impl Abort, alloc: Global, word: &str) -> MemoryOpener {
    let failing = first_poll(rt, alloc, word, '!');
    let pending = first_poll(rt, alloc, word, '?');
    MemoryOpener::new(layout(rt, alloc, word), failing, pending)
}

fn openers(rt: &impl Abort, alloc: Global, words: &str) -> Vec<MemoryOpener> {
    let mut openers = Vec::new(alloc);
    for word in words.split_whitespace() {
        openers.push(opener(rt, alloc, word)).expect(rt, "push");
    }
    openers
}

fn made(
    rt: &impl Abort,
    made: Result<MultiLayoutDataSource<MemoryOpener>, SourceFault>,
) -> MultiLayoutDataSource<MemoryOpener> {
    match made {
        Ok(source) => source,
        Err(_) => panic!(rt; "no source"),
    }
}

/// The files of these words, behind an opened file of three rows where the case says so: `first`.
fn source(
    rt: &impl Abort,
    alloc: Global,
    words: &str,
    case: &str,
) -> MultiLayoutDataSource<MemoryOpener> {
    let openers = openers(rt, alloc, words);
    if after(case, "first").is_some() {
        let first = file(rt, alloc, 3);
        return made(
            rt,
            MultiLayoutDataSource::new_with_first(alloc, first, openers, Vec::new(alloc)),
        );
    }
    let dtype = pair(rt, alloc);
    made(
        rt,
        MultiLayoutDataSource::new_deferred(alloc, dtype, openers, Vec::new(alloc)),
    )
}

fn push_head(rt: &impl Abort, alloc: Global, partition: &MultiLayoutPartition, text: &mut String) {
    let index = partition.index();
    let child = partition.child();
    let rows = known(rt, alloc, partition.row_count());
    text.push_str(
        format!(in alloc; " {index} of {child} {rows}:")
            .expect(rt, "format")
            .as_str(),
    )
    .expect(rt, "push_str");
}

/// A partition, and the rows that it gives.
fn push_partition(
    rt: &impl Abort,
    alloc: Global,
    partition: MultiLayoutPartition,
    text: &mut String,
) {
    push_head(rt, alloc, &partition, text);
    push_stream(
        rt,
        alloc,
        partition.execute(alloc).expect(rt, "execute"),
        text,
    )
}

fn fault(rt: &impl Abort, alloc: Global, fault: MultiFault) -> String {
    match fault {
        MultiFault::Opener(place) => format!(in alloc; " opener {place}").expect(rt, "format"),
        MultiFault::RowRange(place) => format!(in alloc; " range {place}").expect(rt, "format"),
        MultiFault::TooManyRows(place) => format!(in alloc; " many {place}").expect(rt, "format"),
        _ => String::from_str(alloc, " other").expect(rt, "from_str"),
    }
}

/// The answers of the polls of a scan, up to nine.
fn told(rt: &impl Abort, alloc: Global, scan: MultiLayoutScan<MemoryOpener>) -> String {
    let mut scan = scan;
    let mut text = String::new(alloc);
    for _ in 0..9 {
        match scan.poll_partition(alloc) {
            PartitionPoll::Pending => text.push_str(" pending;").expect(rt, "push_str"),
            PartitionPoll::Partition(partition) => {
                push_partition(rt, alloc, partition, &mut text);
                text.push_str(";").expect(rt, "push_str");
            }
            PartitionPoll::Fault(cause) => {
                text.push_str(fault(rt, alloc, cause).as_str())
                    .expect(rt, "push_str");
                text.push_str(";").expect(rt, "push_str");
            }
            PartitionPoll::End => return text,
        }
    }
    panic!(rt; "no end")
}

/// What the scan of a case tells, or why it is refused.
fn polled(rt: &impl Abort, alloc: Global, words: &str, case: &str) -> String {
    let request = request(rt, alloc, case);
    let at_once = number(rt, case, "at_once:", 8) as usize;
    let mut source = source(rt, alloc, words, case).with_concurrency(at_once);
    match source.scan(alloc, request) {
        Ok(scan) => told(rt, alloc, scan),
        Err(fault) => format!(in alloc; " {fault}").expect(rt, "format"),
    }
}

/// Whether `FILES | CASE ->TEXT` holds.
fn holds(rt: &impl Abort, alloc: Global, line: &str) -> bool {
    let (case, wanted) = sides(rt, line, " ->");
    let (words, case) = sides(rt, case, " | ");
    polled(rt, alloc, words, case).as_str() == wanted
}

// A skipped file is not numbered; files come as they are listed, or as they open; faults are numbered too; unordered
// files share the limit; an opened file comes first.
#[test]
fn files_are_given_by_their_numbers(rt: HostRuntime) {
    for line in "- 3 3 | part:1..2 -> 1 of 2 exact 3: 1-10 2-20 3-30;
3? 3 | all -> pending; 0 of 0 exact 3: 1-10 2-20 3-30; 1 of 1 exact 3: 1-10 2-20 3-30;
3? 3 | unordered -> 0 of 1 exact 3: 1-10 2-20 3-30; 1 of 0 exact 3: 1-10 2-20 3-30;
3! 1 3 | rows:1..3 -> opener 0; range 1; 2 of 2 exact 2: 2-20 3-30;
3 3 18446744073709551610 | unordered limit:4 -> 0 of 0 inexact 3: 1-10 2-20 3-30; 1 of 1 inexact 3: 1-10; many 2;
3 | first rows:0..1 -> 0 of 0 exact 1: 1-10; 1 of 1 exact 1: 1-10;
3 | first rows:0..1 unordered -> 0 of 0 exact 1: 1-10; 1 of 1 exact 1: 1-10;"
        .lines()
    {
        assert!(rt; holds(&rt, rt.alloc(), line), "at {line}");
    }
}

// The length of a struct does not bind.
#[test]
fn a_scan_is_refused_by_the_first_of_its_faults(rt: HostRuntime) {
    for line in "3 | at_once:1 -> 0 of 0 exact 3: 1-10 2-20 3-30;
3 | at_once:0 -> the concurrency is 0
3 | at_once:0 rows:2..1 -> the concurrency is 0
3 | at_once:1 rows:2..1 -> the range is reversed, or its end passes the row count
3 | at_once:1 of:length rows:2..1 -> the range is reversed, or its end passes the row count
3 | at_once:1 of:length -> not a list"
        .lines()
    {
        assert!(rt; holds(&rt, rt.alloc(), line), "at {line}");
    }
}
