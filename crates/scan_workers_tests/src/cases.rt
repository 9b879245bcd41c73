//! Lines of cases. A line says what is looked at, files, what is asked of them, by how many workers and further words, and
//! then what is told by each number of workers; one that begins with `#` says what those behind it show.
use crate::gates::Meeting;
use crate::sinks::{counted, first};
use crate::told::scanned;
use crate::words::{after, among, number, sides};
use scan_multi::NoGate;
use std::alloc::Global;
use std::process::Abort;
use std::string::String;
use std::sync::atomic::Ordering;
use std::thread::Threads;

fn told<R: Abort + Threads + Sync>(
    rt: &R,
    alloc: Global,
    workers: usize,
    kind: &str,
    text: &str,
) -> String {
    match kind {
        "first" => first(rt, alloc, workers, text),
        "count" => counted(rt, alloc, workers, text),
        _ => scanned(rt, alloc, &NoGate::new(), workers, text),
    }
}

/// Whether what is told is what is wanted; of some, whether it is so many of all rows, none twice.
fn is_wanted(rt: &impl Abort, kind: &str, text: &str, told: &str, wanted: &str) -> bool {
    match kind {
        "some" => {
            let count = number(rt, text, ' ', "of:");
            (among(told, told) == count) & (among(wanted, told) == count)
        }
        _ => told == wanted,
    }
}

/// Adds what is told in place of what a line wants, where that is something else.
fn push_wrong<R: Abort + Threads + Sync>(rt: &R, alloc: Global, line: &str, wrong: &mut String) {
    let (case, wanted) = sides(rt, line, " ->");
    let (kind, text) = sides(rt, case, " ");
    for workers in after(text, ' ', "workers:").split(',') {
        let number = workers.parse::<usize>().expect(rt, "parse");
        let told = told(rt, alloc, number, kind, text);
        if !is_wanted(rt, kind, text, told.as_str(), wanted) {
            write!(wrong, "\n{case} by {workers} ->{told}").expect(rt, "write");
        }
    }
}

/// Holds each line to what it says.
fn hold<R: Abort + Threads + Sync>(rt: &R, alloc: Global, lines: &str) {
    let mut wrong = String::new(alloc);
    for line in lines.lines() {
        if line.strip_prefix('#').is_none() {
            push_wrong(rt, alloc, line, &mut wrong);
        }
    }
    assert!(rt; wrong.is_empty(), "{wrong}");
}

#[test]
fn the_number_of_workers_changes_no_answer(rt: HostRuntime) {
    hold(
        &rt,
        rt.alloc(),
        r##"# more workers give the same chunks, in no order the same rows
rows 6/opens:1,2/waits:1,2,5+3/waits:1,2,5 "$" workers:1,2,4 -> 0.0=0 0.1=1 0.2=2 0.3=3 0.4=4 0.5=5 1.0=0 1.1=1 1.2=2
some 6/opens:1,2/waits:1,2,5+3/waits:1,2,5 "$","ordered":false workers:1,2,4 of:9 -> 0.0=0 0.1=1 0.2=2 0.3=3 0.4=4 0.5=5 1.0=0 1.1=1 1.2=2
# in no order as many rows as the limit allows, none twice
some 6/opens:1,2/waits:1,2,5+3/waits:1,2,5 "$","ordered":false,"limit":0 workers:1,2,4 of:0 -> 0.0=0 0.1=1 0.2=2 0.3=3 0.4=4 0.5=5 1.0=0 1.1=1 1.2=2
some 6/opens:1,2/waits:1,2,5+3/waits:1,2,5 "$","ordered":false,"limit":1 workers:1,2,4 of:1 -> 0.0=0 0.1=1 0.2=2 0.3=3 0.4=4 0.5=5 1.0=0 1.1=1 1.2=2
some 6/opens:1,2/waits:1,2,5+3/waits:1,2,5 "$","ordered":false,"limit":7 workers:1,2,4 of:7 -> 0.0=0 0.1=1 0.2=2 0.3=3 0.4=4 0.5=5 1.0=0 1.1=1 1.2=2
some 6/opens:1,2/waits:1,2,5+3/waits:1,2,5 "$","ordered":false,"limit":9 workers:1,2,4 of:9 -> 0.0=0 0.1=1 0.2=2 0.3=3 0.4=4 0.5=5 1.0=0 1.1=1 1.2=2
some 6/opens:1,2/waits:1,2,5+3/waits:1,2,5 "$","ordered":false,"limit":12 workers:1,2,4 of:9 -> 0.0=0 0.1=1 0.2=2 0.3=3 0.4=4 0.5=5 1.0=0 1.1=1 1.2=2
# as many filtered rows as the limit allows
some 6/opens:1,2/waits:1,2,5+3/waits:1,2,5 "$","ordered":false,"limit":0,"filter":{"ge":["$",{"lit":2,"type":"u8"}]} workers:1,2,4 of:0 -> 0.2=2 0.3=3 0.4=4 0.5=5 1.2=2
some 6/opens:1,2/waits:1,2,5+3/waits:1,2,5 "$","ordered":false,"limit":3,"filter":{"ge":["$",{"lit":2,"type":"u8"}]} workers:1,2,4 of:3 -> 0.2=2 0.3=3 0.4=4 0.5=5 1.2=2
some 6/opens:1,2/waits:1,2,5+3/waits:1,2,5 "$","ordered":false,"limit":5,"filter":{"ge":["$",{"lit":2,"type":"u8"}]} workers:1,2,4 of:5 -> 0.2=2 0.3=3 0.4=4 0.5=5 1.2=2
some 6/opens:1,2/waits:1,2,5+3/waits:1,2,5 "$","ordered":false,"limit":7,"filter":{"ge":["$",{"lit":2,"type":"u8"}]} workers:1,2,4 of:5 -> 0.2=2 0.3=3 0.4=4 0.5=5 1.2=2
# a split gives its rows with their numbers, a file that is skipped none, and a range that ends past the rows is told
rows 3 "$","filter":{"ge":["$",{"lit":1,"type":"u8"}]} workers:1 -> 0.1=1 0.2=2
rows 3/skip+3 "$","filter":{"ge":["$",{"lit":1,"type":"u8"}]} workers:1 -> 1.1=1 1.2=2
rows 3 "$","range":[1,4],"filter":{"ge":["$",{"lit":1,"type":"u8"}]} workers:1 -> RowRange(Past { file: 0 })"##,
    );
}

#[test]
fn rows_and_faults_come_as_segments_do(rt: HostRuntime) {
    hold(
        &rt,
        rt.alloc(),
        r##"# rows are given as they are read, or in their order: the first row's segment waits twice, and the others come at once
rows 3/waits:0,3 "$","ordered":false workers:1 -> 0.1=1 0.2=2 0.0=0
rows 3/waits:0,3 "$" workers:1 -> 0.0=0 0.1=1 0.2=2
# a fault is told as it is met, or in its turn: the second row's segment fails where the first row's still waits
rows 3/fails:1,3/waits:0 "$","ordered":false workers:1 -> Source { file: 0, segment: SegmentId(1) }
rows 3/fails:1,3/waits:0 "$" workers:1 -> Source { file: 0, segment: SegmentId(0) }
rows 3/fails:1/waits:0,3 "$","ordered":false workers:1 -> Source { file: 0, segment: SegmentId(1) }
rows 3/fails:1/waits:0,3 "$" workers:1 -> Source { file: 0, segment: SegmentId(1) }
# no fault is told behind the limit
rows 3/fails:1 "$","limit":1 workers:1 -> 0.0=0
rows 3/fails:1 "$","ordered":false,"limit":1 workers:1 -> 0.0=0
rows 3/fails:1 "$","limit":2 workers:1 -> Source { file: 0, segment: SegmentId(1) }
rows 3/fails:1 "$","ordered":false,"limit":3 workers:1 -> Source { file: 0, segment: SegmentId(1) }
rows 3/fails:1 "$","limit":1,"filter":{"ge":["$",{"lit":0,"type":"u8"}]} workers:1 -> 0.0=0
rows 3/fails:1 "$","ordered":false,"limit":1,"filter":{"ge":["$",{"lit":0,"type":"u8"}]} workers:1 -> 0.0=0
rows 3/fails:1 "$","limit":2,"filter":{"ge":["$",{"lit":0,"type":"u8"}]} workers:1 -> Source { file: 0, segment: SegmentId(1) }
rows 3/fails:1 "$","ordered":false,"limit":3,"filter":{"ge":["$",{"lit":0,"type":"u8"}]} workers:1 -> Source { file: 0, segment: SegmentId(1) }
# in no order the first and the third row meet a limit of two where a filter tells which rows are given; else the first two claim it
rows 3/fails:1 "$","ordered":false,"limit":2,"filter":{"ge":["$",{"lit":0,"type":"u8"}]} workers:1 -> 0.0=0 0.2=2
rows 3/fails:1 "$","ordered":false,"limit":2 workers:1 -> Source { file: 0, segment: SegmentId(1) }
# the second file does not wait for the first
rows 3/below:20+3 "$","ordered":false workers:4 -> 1.0=0 1.1=1 1.2=2 0.2=2 0.0=0 0.1=1
# a finished file frees its place: six files, two at a time, of which the first is slow
rows 3/below:60+3+3+3+3+3 "$","ordered":false workers:2 -> 1.0=0 1.1=1 1.2=2 2.0=0 2.1=1 2.2=2 3.0=0 3.1=1 3.2=2 4.0=0 4.1=1 4.2=2 5.0=0 5.1=1 5.2=2 0.0=0 0.1=1 0.2=2
# the turns of files overlap: six files of six rounds take as long, two at a time, as three turns of two
rows 3/below:60+3/below:12+3/below:12+3/below:12+3/below:12+3/below:12+3/below:12 "$","ordered":false workers:3 -> 1.0=0 1.1=1 1.2=2 2.0=0 2.1=1 2.2=2 3.0=0 3.1=1 3.2=2 4.0=0 4.1=1 4.2=2 5.0=0 5.1=1 5.2=2 6.0=0 6.1=1 6.2=2 0.0=0 0.1=1 0.2=2
rows 3/below:42+3/below:12+3/below:12+3/below:12+3/below:12+3/below:12+3/below:12 "$","ordered":false workers:3 -> 1.0=0 1.1=1 1.2=2 2.0=0 2.1=1 2.2=2 3.0=0 3.1=1 3.2=2 4.0=0 4.1=1 4.2=2 0.0=0 0.1=1 0.2=2 5.0=0 5.1=1 5.2=2 6.0=0 6.1=1 6.2=2
# without a filter rows are claimed before they are read: nothing is asked of another file
rows 3/below:9+3/fails:0,1,2+3 "$","ordered":false,"limit":3 workers:2 and:asked -> 0.0=0 0.1=1 0.2=2 asked 3 0 0
# what is claimed is all that is asked for: one row more by the first split of the second file alone
rows 3/below:9+3/fails:0,1,2+3 "$","ordered":false,"limit":4 workers:2 and:asked -> Source { file: 1, segment: SegmentId(0) } asked 3 1 0
# filtered rows are claimed once they are read, so those of other files are read beside the first
rows 3/below:9+3/fails:0,1,2+3 "$","ordered":false,"limit":3,"filter":{"ge":["$",{"lit":0,"type":"u8"}]} workers:2 and:asked -> Source { file: 1, segment: SegmentId(0) } asked 3 3 0"##,
    );
}

#[test]
fn a_sink_has_what_was_given(rt: HostRuntime) {
    hold(
        &rt,
        rt.alloc(),
        r##"# a sink that stops has the first rows, or in no order some
first 3/below:60+3+3+3+3+3+3 "$" workers:2 most:4 -> Stop 2 opened; 0.0 0.1 0.2 1.0
first 3/below:60+3+3+3+3+3+3 "$","ordered":false workers:2 most:4 -> Stop 3 opened; 1.0 1.1 1.2 2.0
# one that does not stop has all
first 3/below:3+3+3+3+3+3+3 "$" workers:2 most:100 -> More 7 opened; 0.0 0.1 0.2 1.0 1.1 1.2 2.0 2.1 2.2 3.0 3.1 3.2 4.0 4.1 4.2 5.0 5.1 5.2 6.0 6.1 6.2
# no file is opened behind what is wanted
first 3+3+3+3+3+3+3 "$" workers:2 most:1 -> Stop 2 opened; 0.0
# a sink keeps what came before a fault
first 3/fails:3/waits:2 "$" workers:2 most:100 -> Source { file: 0, segment: SegmentId(2) } 1 opened; 0.0 0.1
first 3/fails:3/waits:2 "$","ordered":false workers:2 most:100 -> Source { file: 0, segment: SegmentId(2) } 1 opened; 0.0 0.1
# a sink may let its chunks go, and has counted the rows of all, or of those before a fault
count 3/below:3+3+3+3+3+3+3 "$" workers:2 -> More 7 opened; 21 rows
count 3/below:3+3+3+3+3+3+3 "$","ordered":false workers:2 -> More 7 opened; 21 rows
count 3/fails:3/waits:2 "$" workers:2 -> Source { file: 0, segment: SegmentId(2) } 1 opened; 2 rows
count 3/fails:3/waits:2 "$","ordered":false workers:2 -> Source { file: 0, segment: SegmentId(2) } 1 opened; 2 rows"##,
    );
}

// Two files, of which the first opens late.
const TWO: &str = r#"6/opens:1,2/waits:1,2,5+3/waits:1,2,5 "$" by"#;

const ROWS: &str = " 0.0=0 0.1=1 0.2=2 0.3=3 0.4=4 0.5=5 1.0=0 1.1=1 1.2=2";

/// Each worker is held at the gate until the other has come, so that both are in one phase at once.
#[test]
fn two_workers_meet_at_the_gate(rt: HostRuntime) {
    let gate = Meeting::new(10_000_000);
    let told = scanned(&rt, rt.alloc(), &gate, 2, TWO);
    assert_eq!(rt; gate.first_saw.load(Ordering::SeqCst), 1);
    assert_eq!(rt; gate.other_saw.load(Ordering::SeqCst), 1);
    assert_eq!(rt; told.as_str(), ROWS);
}

#[test]
fn one_worker_passes_the_gate_too(rt: HostRuntime) {
    let gate = Meeting::new(0);
    let told = scanned(&rt, rt.alloc(), &gate, 1, TWO);
    assert!(rt; gate.first.load(Ordering::SeqCst) > 0);
    assert_eq!(rt; gate.other.load(Ordering::SeqCst), 0);
    assert_eq!(rt; told.as_str(), ROWS);
}
