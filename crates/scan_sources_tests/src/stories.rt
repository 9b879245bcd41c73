//! What polls of streams give, as a text: `pending; 1,2; live 1; 3; end`.
ghost use Rattle.std.specs.Prelude.{◌≡◌};
ghost use Rattle.scan_segments.specs.MemorySource.{source_state};
ghost use Rattle.scan_streams.specs.Streams.{LiveAs};

use crate::maps::UnlessOf;
use scan_columns::Column;
use scan_segments::MemorySource;
use scan_streams::{Identity, ScanStream, StreamFault, StreamPoll};
use scan_values::{Array, Value};
use std::alloc::Global;
use std::process::Abort;
use std::string::String;

pub(crate) fn push(rt: &impl Abort, text: &mut String, words: &str) {
    text.push_str(words).expect(rt, "push_str")
}

/// A number behind words.
pub(crate) fn push_number(
    rt: &impl Abort,
    alloc: Global,
    words: &str,
    number: i128,
    text: &mut String,
) {
    push(
        rt,
        text,
        format!(in alloc; "{words}{number}")
            .expect(rt, "format")
            .as_str(),
    )
}

fn push_value(rt: &impl Abort, alloc: Global, words: &str, value: &Value, text: &mut String) {
    match value {
        Value::Int(number) => push_number(rt, alloc, words, *number, text),
        _ => panic!(rt; "no number"),
    }
}

fn push_array(rt: &impl Abort, alloc: Global, array: &Array, text: &mut String) {
    for (i, value) in array.as_slice().iter().enumerate() {
        push_value(rt, alloc, if i > 0 { "," } else { "" }, value, text);
    }
}

/// A fault of a stream whose map refuses with a number.
pub(crate) fn push_fault(
    rt: &impl Abort,
    alloc: Global,
    fault: &StreamFault<usize>,
    text: &mut String,
) {
    match fault {
        StreamFault::Source(id) => push_number(rt, alloc, "source ", **id as i128, text),
        StreamFault::Corrupt(id) => push_number(rt, alloc, "corrupt ", **id as i128, text),
        StreamFault::Map(number) => push_number(rt, alloc, "map ", *number as i128, text),
        StreamFault::Setup(_) => push(rt, text, "setup"),
        StreamFault::NoMemory => panic!(rt; "no memory"),
        StreamFault::Overflow => push(rt, text, "overflow"),
    }
}

/// Sets what follows apart.
pub(crate) fn begin(rt: &impl Abort, text: &mut String) {
    let mark = if text.is_empty() { "" } else { "; " };
    push(rt, text, mark)
}

fn push_poll(rt: &impl Abort, alloc: Global, poll: &StreamPoll<Array, usize>, text: &mut String) {
    begin(rt, text);
    match poll {
        StreamPoll::Pending => push(rt, text, "pending"),
        StreamPoll::Item(array) => push_array(rt, alloc, array, text),
        StreamPoll::End => push(rt, text, "end"),
        StreamPoll::Fault(fault) => push_fault(rt, alloc, fault, text),
    }
}

/// The segments that were asked, in order.
fn push_asked(rt: &impl Abort, alloc: Global, source: &MemorySource, text: &mut String) {
    begin(rt, text);
    push(rt, text, "asked");
    for id in source.asked() {
        push_number(rt, alloc, " ", **id as i128, text);
    }
}

/// How many segments are live.
fn push_live(rt: &impl Abort, alloc: Global, source: &MemorySource, text: &mut String) {
    begin(rt, text);
    push_number(rt, alloc, "live ", source.live().len() as i128, text)
}

/// What was told, and then how many segments are live.
pub(crate) fn and_live(
    rt: &impl Abort,
    alloc: Global,
    told: String,
    source: &MemorySource,
) -> String {
    let mut text = told;
    push_live(rt, alloc, source, &mut text);
    text
}

fn push_step(
    rt: &impl Abort,
    alloc: Global,
    stream: &mut ScanStream<UnlessOf>,
    source: &mut MemorySource,
    step: u8,
    text: &mut String,
)
    requires { LiveAs (source_state source.old).live (stream.old.feed).live }
    ensures { LiveAs (source_state source.new).live (stream.new.feed).live }
{
    match step {
        b'p' => {
            let poll = stream.poll_next(alloc, source);
            push_poll(rt, alloc, &poll, text)
        }
        b'a' => push_asked(rt, alloc, source, text),
        _ => push_live(rt, alloc, source, text),
    }
}

/// What a script tells: at p what a poll gives, at a what was asked, and at l how much is live.
pub(crate) fn told(
    rt: &impl Abort,
    alloc: Global,
    stream: &mut ScanStream<UnlessOf>,
    source: &mut MemorySource,
    script: &str,
) -> String
    requires { LiveAs (source_state source.old).live (stream.old.feed).live }
    ensures { LiveAs (source_state source.new).live (stream.new.feed).live }
{
    let mut text = String::new(alloc);
    for step in script.as_bytes() {
        push_step(rt, alloc, stream, source, *step, &mut text);
    }
    text
}

fn push_rows(rt: &impl Abort, alloc: Global, column: Column, text: &mut String) {
    let array = column.to_array(alloc).expect(rt, "to_array");
    push_array(rt, alloc, &array, text)
}

fn push_column(rt: &impl Abort, alloc: Global, poll: StreamPoll<Column, usize>, text: &mut String) {
    begin(rt, text);
    match poll {
        StreamPoll::Pending => push(rt, text, "pending"),
        StreamPoll::Item(column) => push_rows(rt, alloc, column, text),
        StreamPoll::End => push(rt, text, "end"),
        StreamPoll::Fault(fault) => push_fault(rt, alloc, &fault, text),
    }
}

/// What so many polls for columns give.
pub(crate) fn told_columns(
    rt: &impl Abort,
    alloc: Global,
    stream: &mut ScanStream<Identity<usize>>,
    source: &mut MemorySource,
    count: usize,
) -> String
    requires { LiveAs (source_state source.old).live (stream.old.feed).live }
    ensures { LiveAs (source_state source.new).live (stream.new.feed).live }
{
    let mut text = String::new(alloc);
    for _ in 0..count {
        push_column(rt, alloc, stream.poll_column(alloc, source), &mut text);
    }
    text
}
