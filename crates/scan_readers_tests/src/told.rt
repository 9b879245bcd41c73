//! What is told of polls, as a text: `wants 2 0; gives [1,null,3] at [0,1,2]`. In a script `poll` polls once, `run` polls
//! until nothing is wanted, and each time all that is wanted comes; at `2` the segment 2 comes as a store has it
//! (`0=0100 2=01`, bytes in hex; one that is not in it is missing), at `2=0100` with these bytes, and at `2!` it is missing;
//! from `anew` on nothing has come.
use crate::words::{bytes, sides};
use scan_plans::{ArrayFuture, MaskFuture};
use scan_segments::SegmentId;
use scan_splits::{Arrival, Inbox, Poll};
use scan_values::Value;
use std::alloc::Global;
use std::process::Abort;
use std::string::String;

pub(crate) fn push(rt: &impl Abort, text: &mut String, words: &str) {
    text.push_str(words).expect(rt, "push_str")
}

/// Sets what follows apart.
pub(crate) fn begin(rt: &impl Abort, text: &mut String) {
    let mark = if text.is_empty() { "" } else { "; " };
    push(rt, text, mark)
}

/// Numbers in brackets: `[1,2]`.
pub(crate) fn push_numbers(rt: &impl Abort, alloc: Global, numbers: &[u64], text: &mut String) {
    push(rt, text, "[");
    for (i, number) in numbers.iter().enumerate() {
        let mark = if i > 0 { "," } else { "" };
        let told = format!(in alloc; "{mark}{number}").expect(rt, "format");
        push(rt, text, told.as_str());
    }
    push(rt, text, "]")
}

/// The bits of a mask.
pub(crate) fn push_bits(rt: &impl Abort, bits: &[bool], text: &mut String) {
    for bit in bits {
        push(rt, text, if *bit { "1" } else { "0" });
    }
}

/// Values with a comma between two of them, which nest no deeper than so many levels.
#[cycle(print)]
pub(crate) fn push_values(
    rt: &impl Abort,
    alloc: Global,
    values: &[Value],
    levels: u32,
    text: &mut String,
) {
    for (i, value) in values.iter().enumerate() {
        push(rt, text, if i > 0 { "," } else { "" });
        push_value(rt, alloc, value, levels, text);
    }
}

// A list stands in brackets, a struct in braces.
#[cycle(print)]
fn push_value(rt: &impl Abort, alloc: Global, value: &Value, levels: u32, text: &mut String) {
    if levels == 0 {
        panic!(rt; "too deep");
    }
    match value {
        Value::Null => push(rt, text, "null"),
        Value::Bool(truth) => push(rt, text, if *truth { "true" } else { "false" }),
        Value::Int(number) => push(
            rt,
            text,
            format!(in alloc; "{number}").expect(rt, "format").as_str(),
        ),
        Value::Text(item) => push(rt, text, item.as_str()),
        Value::List(items) => {
            push(rt, text, "[");
            push_values(rt, alloc, items.as_slice(), levels - 1, text);
            push(rt, text, "]")
        }
        Value::Struct(items) => {
            push(rt, text, "{");
            push_values(rt, alloc, items.as_slice(), levels - 1, text);
            push(rt, text, "}")
        }
    }
}

/// The ids that a poll wants, in the order in which it wants them.
fn wanted(rt: &impl Abort, alloc: Global, ids: &[SegmentId], text: &mut String) -> Vec<u32> {
    let mut wanted = Vec::new(alloc);
    push(rt, text, "wants");
    for id in ids {
        let id = **id;
        push(
            rt,
            text,
            format!(in alloc; " {id}").expect(rt, "format").as_str(),
        );
        wanted.push(id).expect(rt, "push");
    }
    wanted
}

/// A future whose polls are told.
pub(crate) trait Polled {
    /// Polls it, and gives the ids that it wants: none where it is the last poll.
    fn tell(
        &mut self,
        rt: &impl Abort,
        alloc: Global,
        inbox: &Inbox,
        text: &mut String,
    ) -> Vec<u32>;
}

impl Polled for ArrayFuture {
    fn tell(
        &mut self,
        rt: &impl Abort,
        alloc: Global,
        inbox: &Inbox,
        text: &mut String,
    ) -> Vec<u32> {
        begin(rt, text);
        match self.poll(alloc, inbox) {
            Poll::Pending(ids) => wanted(rt, alloc, ids.as_slice(), text),
            Poll::Ready(array) => {
                push(rt, text, "gives [");
                push_values(rt, alloc, array.as_slice(), 9, text);
                push(rt, text, "] at ");
                let rows = self.rows(alloc).expect(rt, "rows");
                push_numbers(rt, alloc, rows.as_slice(), text);
                Vec::new(alloc)
            }
            Poll::Corrupt(id) => {
                let id = *id;
                let told = format!(in alloc; "corrupt {id}").expect(rt, "format");
                push(rt, text, told.as_str());
                Vec::new(alloc)
            }
            Poll::Overflow => {
                push(rt, text, "overflows");
                Vec::new(alloc)
            }
            Poll::NoMemory => panic!(rt; "no memory"),
        }
    }
}

impl Polled for MaskFuture {
    fn tell(
        &mut self,
        rt: &impl Abort,
        alloc: Global,
        inbox: &Inbox,
        text: &mut String,
    ) -> Vec<u32> {
        begin(rt, text);
        match self.poll(alloc, inbox) {
            Poll::Pending(ids) => wanted(rt, alloc, ids.as_slice(), text),
            Poll::Ready(mask) => {
                push(rt, text, "keeps ");
                push_bits(rt, mask.as_slice(), text);
                Vec::new(alloc)
            }
            Poll::Corrupt(id) => {
                let id = *id;
                let told = format!(in alloc; "corrupt {id}").expect(rt, "format");
                push(rt, text, told.as_str());
                Vec::new(alloc)
            }
            Poll::Overflow => {
                push(rt, text, "overflows");
                Vec::new(alloc)
            }
            Poll::NoMemory => panic!(rt; "no memory"),
        }
    }
}

// What a store has of a segment.
fn arrival(rt: &impl Abort, alloc: Global, store: &str, id: u32) -> Arrival {
    for word in store.split_whitespace() {
        let (segment, text) = sides(rt, word, "=");
        if segment.parse::<u32>().expect(rt, "parse") == id {
            return Arrival::Bytes(bytes(rt, alloc, text));
        }
    }
    Arrival::Missing
}

/// Segments come, as a store has them.
pub(crate) fn deliver(rt: &impl Abort, alloc: Global, inbox: &mut Inbox, store: &str, ids: &[u32]) {
    for id in ids {
        let segment = SegmentId::from(*id);
        if inbox.has(segment) {
            panic!(rt; "it has come before");
        }
        inbox
            .deliver(segment, arrival(rt, alloc, store, *id))
            .expect(rt, "deliver");
    }
}

fn run<F: Polled>(
    rt: &impl Abort,
    alloc: Global,
    future: &mut F,
    inbox: &mut Inbox,
    store: &str,
    text: &mut String,
) {
    for _ in 0..5 {
        let wants = future.tell(rt, alloc, inbox, text);
        if wants.is_empty() {
            return;
        }
        deliver(rt, alloc, inbox, store, wants.as_slice());
    }
    panic!(rt; "polled too often")
}

/// A segment comes, as a word of a script says.
fn come(rt: &impl Abort, alloc: Global, inbox: &mut Inbox, store: &str, word: &str) {
    let (from, id) = match word.split_once('=') {
        Some((id, _)) => (word, id),
        None => match word.strip_suffix('!') {
            Some(id) => ("", id),
            None => (store, word),
        },
    };
    let id = id.parse::<u32>().expect(rt, "parse");
    deliver(rt, alloc, inbox, from, &[id])
}

/// What a script tells of a future, over a store.
pub(crate) fn told<F: Polled>(
    rt: &impl Abort,
    alloc: Global,
    future: &mut F,
    store: &str,
    script: &str,
) -> String {
    let mut inbox = Inbox::new(alloc);
    let mut text = String::new(alloc);
    for word in script.split_whitespace() {
        match word {
            "poll" => {
                let _wants = future.tell(rt, alloc, &inbox, &mut text);
            }
            "run" => run(rt, alloc, future, &mut inbox, store, &mut text),
            "anew" => inbox = Inbox::new(alloc),
            _ => come(rt, alloc, &mut inbox, store, word),
        }
    }
    text
}
