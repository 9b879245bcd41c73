//! Requests that holders share, in a table and under a lock: what polls give, what is asked, and what is held.
ghost use Rattle.scan_segments.specs.MemorySource.{source_state};
ghost use Rattle.scan_sharing.specs.Sharing.{Agree, entry_at};

use crate::sources::{push_asked, push_bytes, source};
use crate::told::{begin, push};
use crate::words::sides;
use scan_segments::{MemorySource, SegmentId, SegmentSource};
use scan_sharing::{SharedPolled, SharedSegmentSource, SharedTable, Ticket, TicketPolled};
use std::alloc::Global;
use std::collections::VecDeque;
use std::process::Abort;
use std::string::String;
use std::sync::Wait;
use std::thread;
use std::thread::Threads;

fn push_polled(rt: &impl Abort, alloc: Global, polled: &SharedPolled, text: &mut String) {
    begin(rt, text);
    match polled {
        SharedPolled::Pending => push(rt, text, "pending"),
        SharedPolled::Bytes(bytes) => push_bytes(rt, alloc, bytes.as_slice(), text),
        SharedPolled::Failed(faults) => {
            let faults = *faults;
            let told = format!(in alloc; "failed {faults}").expect(rt, "format");
            push(rt, text, told.as_str())
        }
        _ => push(rt, text, "another answer"),
    }
}

/// Two holders request a segment, poll it, and go.
fn share(
    rt: &impl Abort,
    alloc: Global,
    table: &mut SharedTable,
    source: &mut MemorySource,
    text: &mut String,
)
    requires { Agree (source_state source.old).live (entry_at table.old) }
    ensures { Agree (source_state source.new).live (entry_at table.new) }
{
    let id = SegmentId::from(5);
    let first = table.request(alloc, id, source).expect(rt, "request");
    let second = table.request(alloc, id, source).expect(rt, "request");
    if !table.holds(&first) {
        panic!(rt; "not held");
    }
    push_polled(rt, alloc, &table.poll(alloc, &first, source), text);
    if !table.holds(&second) {
        panic!(rt; "not held");
    }
    push_polled(rt, alloc, &table.poll(alloc, &second, source), text);
    if !table.holds(&first) {
        panic!(rt; "not held");
    }
    table.drop_holder(first, source);
    if !table.holds(&second) {
        panic!(rt; "not held");
    }
    table.drop_holder(second, source)
}

/// What a table tells of two holders, of two more, and of one that goes before any poll: whether its segment is held, another
/// one, and it still when it has gone; and how many segments are live then.
fn told_table(rt: &impl Abort, alloc: Global, polls: &str) -> String {
    let mut source = source(rt, alloc, polls);
    let mut table = SharedTable::new(alloc);
    let mut text = String::new(alloc);
    share(rt, alloc, &mut table, &mut source, &mut text);
    push_asked(rt, alloc, source.asked(), &mut text);
    share(rt, alloc, &mut table, &mut source, &mut text);
    push_asked(rt, alloc, source.asked(), &mut text);
    let id = SegmentId::from(5);
    let only = table.request(alloc, id, &mut source).expect(rt, "request");
    if !table.holds(&only) {
        panic!(rt; "not held");
    }
    let (held, other) = (table.contains(id), table.contains(SegmentId::from(6)));
    table.drop_holder(only, &mut source);
    let (live, still) = (source.live().len(), table.contains(id));
    let told = format!(in alloc; "; held {held}, {other}, {still}; live {live}").expect(
        rt, "format",
    );
    push(rt, &mut text, told.as_str());
    text
}

fn push_ticket<S: SegmentSource>(
    rt: &(impl Wait + Abort),
    alloc: Global,
    shared: &SharedSegmentSource<S>,
    ticket: Option<&Ticket>,
    text: &mut String,
) {
    let Some(ticket) = ticket else {
        panic!(rt; "no ticket");
    };
    begin(rt, text);
    match shared.poll_ticket(rt, alloc, ticket) {
        TicketPolled::Bytes(bytes) => push_bytes(rt, alloc, bytes.as_slice(), text),
        TicketPolled::Missing => push(rt, text, "missing"),
        TicketPolled::Failed(faults) => {
            let told = format!(in alloc; "failed {faults}").expect(rt, "format");
            push(rt, text, told.as_str())
        }
        TicketPolled::NotHeld => push(rt, text, "not held"),
        TicketPolled::Pending => push(rt, text, "pending"),
        TicketPolled::NoMemory => panic!(rt; "no memory"),
    }
}

/// What tickets of one source tell at another, or at the same. In a script `5` has a ticket of the segment 5 made, `first` and
/// `second` poll the first and the second of those that are there, and `drop` gives the first up.
fn told_tickets<S: SegmentSource>(
    rt: &(impl Wait + Abort),
    alloc: Global,
    giver: &SharedSegmentSource<S>,
    taker: &SharedSegmentSource<S>,
    script: &str,
) -> String {
    let mut tickets = VecDeque::new(alloc);
    let mut text = String::new(alloc);
    for word in script.split_whitespace() {
        match word {
            "first" => push_ticket(rt, alloc, taker, tickets.get(0), &mut text),
            "second" => push_ticket(rt, alloc, taker, tickets.get(1), &mut text),
            "drop" => {
                let Some(ticket) = tickets.pop_front() else {
                    panic!(rt; "no ticket");
                };
                let was_held = taker.drop_ticket(rt, ticket);
                begin(rt, &mut text);
                push(rt, &mut text, if was_held { "dropped" } else { "none" });
            }
            _ => {
                let id = SegmentId::from(word.parse::<u32>().expect(rt, "parse"));
                let ticket = giver.request(rt, alloc, id).expect(rt, "request");
                tickets.push_back(ticket).expect(rt, "push_back");
            }
        }
    }
    text
}

fn shared(
    rt: &impl Abort,
    alloc: Global,
    polls: &str,
    number: u64,
) -> SharedSegmentSource<MemorySource> {
    SharedSegmentSource::new(alloc, source(rt, alloc, polls), number)
}

// The first poll of a source that does not wait is for both holders, the next one for those that come when both are given up;
// where it waits, the second holder has the next poll; one that goes before any poll leaves the first to the next. A source
// in a table and one under a lock answer the same.
const SHARED: &str =
    "table 1; -> 03; 03; asked 5; failed 1; failed 1; asked 5 5; held true, false, false; live 0
table 0; -> failed 1; failed 1; asked 5; 03; 03; asked 5 5; held true, false, false; live 0
table 2;0 -> pending; 03; asked 5; failed 1; failed 1; asked 5 5; held true, false, false; live 0
1; 5 5 first second drop drop 5 5 first second drop drop 6 6 first second drop drop -> 03; 03; dropped; dropped; failed 1; failed 1; dropped; dropped; missing; missing; dropped; dropped
0; 5 5 first second drop drop 5 5 first second drop drop -> failed 1; failed 1; dropped; dropped; 03; 03; dropped; dropped
2;0 5 5 first second drop drop 5 5 first second drop drop -> pending; 03; dropped; dropped; failed 1; failed 1; dropped; dropped
1; 5 drop 5 5 first second drop drop 5 5 first second drop drop -> dropped; 03; 03; dropped; dropped; failed 1; failed 1; dropped; dropped";

#[test]
fn holders_share_one_request(rt: HostRuntime) {
    let alloc = rt.alloc();
    for line in SHARED.lines() {
        let (case, wanted) = sides(&rt, line, " -> ");
        let (kind, script) = sides(&rt, case, " ");
        let told = if kind == "table" {
            told_table(&rt, alloc, script)
        } else {
            let source = shared(&rt, alloc, kind, 7);
            told_tickets(&rt, alloc, &source, &source, script)
        };
        assert_eq!(rt; told.as_str(), wanted, "at {case}");
    }
}

#[test]
fn a_ticket_of_another_source_is_not_held(rt: HostRuntime) {
    let giver = shared(&rt, rt.alloc(), ";", 7);
    let taker = shared(&rt, rt.alloc(), ";", 8);
    let told = told_tickets(&rt, rt.alloc(), &giver, &taker, "5 first drop");
    assert_eq!(rt; told.as_str(), "not held; none");
}

/// One thread's part: a ticket, polled and given up. Whether it gave the bytes, and was held.
fn gets<S: SegmentSource>(
    rt: &impl Wait,
    alloc: Global,
    shared: &SharedSegmentSource<S>,
) -> (bool, bool) {
    match shared.request(rt, alloc, SegmentId::from(5)) {
        Ok(ticket) => {
            let came = match shared.poll_ticket(rt, alloc, &ticket) {
                TicketPolled::Bytes(bytes) => bytes.as_slice() == [3].as_slice(),
                _ => false,
            };
            (came, shared.drop_ticket(rt, ticket))
        }
        Err(_) => (false, false),
    }
}

fn two_get<R: Threads + Wait + Sync>(
    rt: &R,
    alloc: Global,
    shared: &SharedSegmentSource<MemorySource>,
) -> ((bool, bool), (bool, bool)) {
    thread::join(
        rt,
        move || gets(rt, alloc, shared),
        move || gets(rt, alloc, shared),
    )
}

#[test]
fn two_threads_share_a_source(rt: HostRuntime) {
    let source = shared(&rt, rt.alloc(), ";", 7);
    let both = two_get(&rt, rt.alloc(), &source);
    assert_eq!(rt; both, ((true, true), (true, true)));
}
