//! Arrays that are there, futures that threads poll, and a segment of texts that several splits read.
use crate::asked::{array, left, numbered, values};
use crate::told::{Polled, deliver, told};
use crate::words::{bytes, mask, sides};
use scan_plans::{ArrayFuture, MaskFuture};
use scan_readers::{Reader, RowIdxLayoutReader};
use scan_segments::{ByteBuffer, FlagGroup, SegmentId};
use scan_splits::{Arrival, Inbox, Poll};
use scan_values::{Array, Value};
use std::alloc::Global;
use std::process::Abort;
use std::string::String;
use std::thread;
use std::thread::Threads;

/// What the numbers 1, 2 and 3 give that are there, null outside each of these masks.
fn there(rt: &impl Abort, alloc: Global, masks: &str) -> String {
    let mut future = ArrayFuture::ready(alloc, array(rt, alloc, "i32", "1,2,3"));
    for bits in masks.split_whitespace() {
        let outer = MaskFuture::ready(alloc, mask(rt, alloc, bits));
        future = future.masked(outer).expect(rt, "masked");
    }
    told(rt, alloc, &mut future, "", "poll poll")
}

const THERE: &str = " -> gives [1,2,3] at [0,1,2]; gives [1,2,3] at [0,1,2]
001 -> gives [null,null,3] at [0,1,2]; gives [null,null,3] at [0,1,2]
110 011 -> gives [null,2,null] at [0,1,2]; gives [null,2,null] at [0,1,2]";

#[test]
fn an_array_that_is_there_is_given_at_once_and_under_masks(rt: HostRuntime) {
    for line in THERE.lines() {
        let (masks, wanted) = sides(&rt, line, " -> ");
        let told = there(&rt, rt.alloc(), masks);
        assert_eq!(rt; told.as_str(), wanted, "at {masks}");
    }
}

// ---- threads
/// Whether a poll gives null, 2 and null.
fn gives_two(poll: &Poll<Array>) -> bool {
    match poll {
        Poll::Ready(array) => {
            matches!(array.as_slice(), [Value::Null, Value::Int(2), Value::Null])
        }
        _ => false,
    }
}

/// A future, and whether its last poll gave these.
#[derive(Drop)]
struct Asked {
    future: ArrayFuture,
    gave: bool,
}

impl Asked {
    fn ask(&mut self, alloc: Global, inbox: &Inbox) {
        let gave = gives_two(&self.future.poll(alloc, inbox));
        self.gave = gave;
    }
}

/// Polls each of some futures, in threads.
fn ask_each<R: Threads + Sync>(rt: &R, alloc: Global, asked: &mut [Asked], inbox: &Inbox) {
    thread::for_each_mut(rt, asked, 2, &|_, one: &mut Asked| one.ask(alloc, inbox));
}

/// Three futures of one reader, and so of one plan over the same segments, that have not been polled: all rows, null but
/// for those of the first two that are above 1.
fn three(rt: &impl Abort, alloc: Global) -> Vec<Asked> {
    let mut reader = numbered(rt, alloc, "i32@0:2,1:1");
    let mut asked = Vec::new(alloc);
    for _ in 0..3 {
        let all = left(rt, alloc, &mut reader, "", "all");
        let future = values(rt, alloc, &mut reader, "$ under 110 $ i32:1 >", all);
        asked
            .push(Asked {
                future,
                gave: false,
            })
            .expect(rt, "push");
    }
    asked
}

#[test]
fn threads_poll_futures_over_one_inbox(rt: HostRuntime) {
    let alloc = rt.alloc();
    let mut inbox = Inbox::new(alloc);
    let mut asked = three(&rt, alloc);
    ask_each(&rt, alloc, &mut asked, &inbox);
    assert!(rt; asked.iter().all(|one| !one.gave));
    deliver(
        &rt,
        alloc,
        &mut inbox,
        "0=0100000002000000 1=03000000",
        &[0, 1],
    );
    ask_each(&rt, alloc, &mut asked, &inbox);
    assert!(rt; asked.iter().all(|one| one.gave));
}

// ---- texts
/// What a split of its own gives of the rows of a mask, where these bytes have come.
fn split_of(
    rt: &impl Abort,
    alloc: Global,
    reader: &mut RowIdxLayoutReader<Reader<u8>>,
    bytes: &ByteBuffer,
    bits: &str,
) -> String {
    let mut inbox = Inbox::new(alloc);
    let id = SegmentId::from(0);
    if inbox.has(id) {
        panic!(rt; "it has come before");
    }
    let shared = bytes.try_clone().expect(rt, "try_clone");
    inbox
        .deliver(id, Arrival::Bytes(shared))
        .expect(rt, "deliver");
    let mask = left(rt, alloc, reader, "", bits);
    let mut future = values(rt, alloc, reader, "$", mask);
    let mut text = String::new(alloc);
    let _wants = future.tell(rt, alloc, &inbox, &mut text);
    text
}

/// Whether it is kept beside the bytes where these texts end.
fn keeps(bytes: &ByteBuffer, rows: u64, ends: &[usize]) -> bool {
    match bytes.text_ends(FlagGroup::Absent, rows) {
        Some(kept) => kept.as_slice() == ends,
        None => false,
    }
}

// The texts `a`, `bc` and nothing.
#[test]
fn a_segment_of_texts_is_tested_once_for_all_splits_that_share_its_bytes(rt: HostRuntime) {
    let alloc = rt.alloc();
    let bytes = bytes(&rt, alloc, "010000006102000000626300000000");
    let mut reader = numbered(&rt, alloc, "utf8@0:3");
    assert!(rt; !keeps(&bytes, 3, &[5, 11, 15]));
    let first = split_of(&rt, alloc, &mut reader, &bytes, "100");
    assert_eq!(rt; first.as_str(), "gives [a] at [0]");
    assert!(rt; keeps(&bytes, 3, &[5, 11, 15]));
    assert!(rt; !keeps(&bytes, 2, &[5, 11]));
    let second = split_of(&rt, alloc, &mut reader, &bytes, "010");
    assert_eq!(rt; second.as_str(), "gives [bc] at [1]");
    let third = split_of(&rt, alloc, &mut reader, &bytes, "001");
    assert_eq!(rt; third.as_str(), "gives [] at [2]");
}
