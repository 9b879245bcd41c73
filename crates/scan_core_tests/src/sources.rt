//! Sources of the segments of the files, and what has been asked of them.
ghost use Rattle.std.specs.Prelude.{◌≡◌, []};

use crate::case::{after, number, rising};
use crate::told::begin;
use scan_segments::{ByteBuffer, MemorySource, SegmentId};
use scan_values::StrictSorted;
use std::alloc::Global;
use std::collections::BTreeMap;
use std::process::Abort;
use std::string::String;

// The bytes of a segment: `a`, `b`, and `b` in two.
fn bytes_of(id: u32) -> &'static [u8] {
    match id {
        0 => &[1, 0, 0, 0, 2, 0, 0, 0, 3, 0, 0, 0],
        1 => &[10, 0, 0, 0, 20, 0, 0, 0, 30, 0, 0, 0],
        2 => &[10, 0, 0, 0, 20, 0, 0, 0],
        _ => &[30, 0, 0, 0],
    }
}

/// A segment of the files.
pub(crate) fn segment(rt: &impl Abort, alloc: Global, id: u32) -> ByteBuffer {
    ByteBuffer::new(
        alloc,
        Vec::from_slice(alloc, bytes_of(id)).expect(rt, "from_slice"),
    )
    .expect(rt, "new")
}

fn segments(rt: &impl Abort, alloc: Global, count: u64) -> BTreeMap<SegmentId, ByteBuffer> {
    let mut segments = BTreeMap::new(alloc);
    for id in 0..count.min(4) as u32 {
        let inserted: Result<_, _> = segments.insert(SegmentId::from(id), segment(rt, alloc, id));
        inserted.expect(rt, "insert");
    }
    segments
}

fn polls(rt: &impl Abort, alloc: Global, case: &str, word: &str) -> StrictSorted {
    match after(case, word) {
        Some(text) => rising(rt, alloc, text),
        None => StrictSorted::try_new(Vec::new(alloc)).expect(rt, "try_new"),
    }
}

/// The source of a case, of which nothing was asked: it has all segments or the first so many, and some of its polls
/// fail or are put off, by their numbers: `segments:3 fail:1 wait:0,2`.
pub(crate) fn source(rt: &impl Abort, alloc: Global, case: &str) -> MemorySource
    ensures { result.live ≡ [] }
{
    let segments = segments(rt, alloc, number(rt, case, "segments:", 4));
    let failing = polls(rt, alloc, case, "fail:");
    let pending = polls(rt, alloc, case, "wait:");
    MemorySource::new(alloc, segments, failing, pending)
}

/// What was asked of a source, in rising order, and how many requests have not ended: `asked 0 2, live 2`.
pub(crate) fn push_source(
    rt: &impl Abort,
    alloc: Global,
    source: &MemorySource,
    text: &mut String,
) {
    let mut asked = Vec::new(alloc);
    for id in source.asked() {
        asked.push(**id).expect(rt, "push");
    }
    asked.sort().expect(rt, "sort");
    begin(rt, text);
    text.push_str("asked").expect(rt, "push_str");
    for id in &asked {
        text.push_str(format!(in alloc; " {id}").expect(rt, "format").as_str())
            .expect(rt, "push_str");
    }
    let live = source.live().len();
    text.push_str(
        format!(in alloc; ", live {live}")
            .expect(rt, "format")
            .as_str(),
    )
    .expect(rt, "push_str");
}

/// What was told, and then how many requests have not ended: `live 0`.
pub(crate) fn and_live(
    rt: &impl Abort,
    alloc: Global,
    told: String,
    source: &MemorySource,
) -> String {
    let live = source.live().len();
    let mut text = told;
    text.push_str(
        format!(in alloc; "; live {live}")
            .expect(rt, "format")
            .as_str(),
    )
    .expect(rt, "push_str");
    text
}
