//! What splits, streams and iterators give, as a text: `pending; 10,20; 30; end`, of rows `(1 10),(2 20)`; of splits
//! `wants 0; gives 1,2`.
use scan_core::{SetupFault, SplitPoll, StreamFault, StreamPoll};
use scan_segments::SegmentId;
use scan_values::{Array, Value};
use std::alloc::Global;
use std::process::Abort;
use std::string::String;

/// Sets what follows apart.
pub(crate) fn begin(rt: &impl Abort, text: &mut String) {
    if !text.is_empty() {
        text.push_str("; ").expect(rt, "push_str");
    }
}

/// What is made of an array, to be told.
pub(crate) trait Made {
    /// Tells it.
    fn push(&self, rt: &impl Abort, alloc: Global, text: &mut String);
}

fn push_number(rt: &impl Abort, alloc: Global, value: &Value, text: &mut String) {
    match value {
        Value::Int(number) => text
            .push_str(format!(in alloc; "{number}").expect(rt, "format").as_str())
            .expect(rt, "push_str"),
        _ => panic!(rt; "not a number"),
    }
}

// The numbers of a row: `(1 10)`.
fn push_row(rt: &impl Abort, alloc: Global, values: &[Value], text: &mut String) {
    text.push_str("(").expect(rt, "push_str");
    for (i, value) in values.iter().enumerate() {
        if i > 0 {
            text.push_str(" ").expect(rt, "push_str");
        }
        push_number(rt, alloc, value, text);
    }
    text.push_str(")").expect(rt, "push_str");
}

fn push_value(rt: &impl Abort, alloc: Global, value: &Value, text: &mut String) {
    match value {
        Value::Struct(values) => push_row(rt, alloc, values.as_slice(), text),
        value => push_number(rt, alloc, value, text),
    }
}

impl Made for Array {
    fn push(&self, rt: &impl Abort, alloc: Global, text: &mut String) {
        for (i, value) in self.as_slice().iter().enumerate() {
            if i > 0 {
                text.push_str(",").expect(rt, "push_str");
            }
            push_value(rt, alloc, value, text);
        }
    }
}

impl Made for usize {
    fn push(&self, rt: &impl Abort, alloc: Global, text: &mut String) {
        text.push_str(
            format!(in alloc; "{self} rows")
                .expect(rt, "format")
                .as_str(),
        )
        .expect(rt, "push_str");
    }
}

/// Why a scan is not set up or executed.
pub(crate) fn refused(rt: &impl Abort, alloc: Global, fault: SetupFault) -> String {
    format!(in alloc; "{fault}").expect(rt, "format")
}

fn fault_text(rt: &impl Abort, alloc: Global, fault: &StreamFault<u8>) -> String {
    match fault {
        StreamFault::Source(id) => format!(in alloc; "source {id}").expect(rt, "format"),
        StreamFault::Corrupt(id) => format!(in alloc; "corrupt {id}").expect(rt, "format"),
        StreamFault::Map(number) => format!(in alloc; "map {number}").expect(rt, "format"),
        StreamFault::Setup(why) => format!(in alloc; "setup: {why}").expect(rt, "format"),
        StreamFault::NoMemory => panic!(rt; "no memory"),
        StreamFault::Overflow => String::from_str(alloc, "overflow").expect(rt, "from_str"),
    }
}

/// Tells a poll of a stream.
pub(crate) fn push_poll<T: Made>(
    rt: &impl Abort,
    alloc: Global,
    poll: &StreamPoll<T, u8>,
    text: &mut String,
) {
    begin(rt, text);
    match poll {
        StreamPoll::Pending => text.push_str("pending").expect(rt, "push_str"),
        StreamPoll::Item(made) => made.push(rt, alloc, text),
        StreamPoll::End => text.push_str("end").expect(rt, "push_str"),
        StreamPoll::Fault(fault) => text
            .push_str(fault_text(rt, alloc, fault).as_str())
            .expect(rt, "push_str"),
    }
}

/// Tells what comes next of an iterator.
pub(crate) fn push_next<T: Made>(
    rt: &impl Abort,
    alloc: Global,
    next: &Option<Result<T, StreamFault<u8>>>,
    text: &mut String,
) {
    begin(rt, text);
    match next {
        Some(Ok(made)) => made.push(rt, alloc, text),
        Some(Err(fault)) => text
            .push_str(fault_text(rt, alloc, fault).as_str())
            .expect(rt, "push_str"),
        None => text.push_str("none").expect(rt, "push_str"),
    }
}

// The ids in rising order.
fn push_wants(rt: &impl Abort, alloc: Global, ids: &[SegmentId], text: &mut String) {
    let mut numbers = Vec::new(alloc);
    for id in ids {
        numbers.push(**id).expect(rt, "push");
    }
    numbers.sort().expect(rt, "sort");
    text.push_str("wants").expect(rt, "push_str");
    for id in &numbers {
        text.push_str(format!(in alloc; " {id}").expect(rt, "format").as_str())
            .expect(rt, "push_str");
    }
}

/// Tells a poll of a split.
pub(crate) fn push_split<T: Made>(
    rt: &impl Abort,
    alloc: Global,
    poll: &SplitPoll<T, u8>,
    text: &mut String,
) {
    begin(rt, text);
    match poll {
        SplitPoll::Pending(ids) => push_wants(rt, alloc, ids.as_slice(), text),
        SplitPoll::Ready(Some(made)) => {
            text.push_str("gives ").expect(rt, "push_str");
            made.push(rt, alloc, text);
        }
        SplitPoll::Ready(None) => text.push_str("gives none").expect(rt, "push_str"),
        SplitPoll::Corrupt(id) => text
            .push_str(
                format!(in alloc; "corrupt {id}")
                    .expect(rt, "format")
                    .as_str(),
            )
            .expect(rt, "push_str"),
        SplitPoll::Map(fault) => text
            .push_str(
                format!(in alloc; "map {fault}")
                    .expect(rt, "format")
                    .as_str(),
            )
            .expect(rt, "push_str"),
        SplitPoll::Overflow => text.push_str("overflow").expect(rt, "push_str"),
        SplitPoll::NoMemory => panic!(rt; "no memory"),
    }
}

/// Numbers with a blank before each.
pub(crate) fn numbers_told(rt: &impl Abort, alloc: Global, numbers: &[u64]) -> String {
    let mut text = String::new(alloc);
    for number in numbers {
        text.push_str(format!(in alloc; " {number}").expect(rt, "format").as_str())
            .expect(rt, "push_str");
    }
    text
}
