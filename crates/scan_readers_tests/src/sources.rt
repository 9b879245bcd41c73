//! Sources of segments, in a box and behind a cache: what polls give, and what is asked. A source has the segments 0, of
//! `0102`, and 5, of `03`; its polls of some numbers fail, and of some are pending.
ghost use Rattle.std.specs.Prelude.{◌≡◌, [], None, true, false};
ghost use Rattle.scan_segments.specs.Cache.{CacheState};

use crate::caches::{bounded, sorted, source_id};
use crate::told::{begin, push};
use crate::words::{bytes, sides};
use scan_caches::{SegmentCacheSourceAdapter, SegmentEviction};
use scan_segments::{
    BoxedSource, ByteBuffer, CacheGet, CachePut, MemorySource, Polled, SegmentCache, SegmentId,
    SegmentSource,
};
use scan_values::NoMemory;
use std::alloc::Global;
use std::collections::BTreeMap;
use std::process::Abort;
use std::string::String;

/// A source by the numbers of the polls that fail, and of those that are pending: `1;0,2`.
pub(crate) fn source(rt: &impl Abort, alloc: Global, polls: &str) -> MemorySource
    ensures { result.live ≡ [] }
{
    let (failing, pending) = sides(rt, polls, ";");
    let failing = sorted(rt, alloc, failing);
    let pending = sorted(rt, alloc, pending);
    let mut segments = BTreeMap::new(alloc);
    let inserted: Result<_, _> = segments.insert(SegmentId::from(0), bytes(rt, alloc, "0102"));
    inserted.expect(rt, "insert");
    let inserted: Result<_, _> = segments.insert(SegmentId::from(5), bytes(rt, alloc, "03"));
    inserted.expect(rt, "insert");
    MemorySource::new(alloc, segments, failing, pending)
}

/// The bytes of a segment, in hex.
pub(crate) fn push_bytes(rt: &impl Abort, alloc: Global, bytes: &[u8], text: &mut String) {
    let told = hex::encode(alloc, bytes).expect(rt, "encode");
    push(rt, text, told.as_str())
}

/// Polls a request once. Whether it waits still.
fn poll<S: SegmentSource>(
    rt: &impl Abort,
    alloc: Global,
    source: &mut S,
    id: SegmentId,
    text: &mut String,
) -> bool
    requires { (S.state source.old).live id ≡ true }
    ensures { (S.state source.new).live id ≡ result }
{
    begin(rt, text);
    match source.poll_segment(alloc, id) {
        Polled::Pending => {
            push(rt, text, "pending");
            true
        }
        Polled::Bytes(bytes) => {
            push_bytes(rt, alloc, bytes.as_slice(), text);
            false
        }
        Polled::Missing => {
            push(rt, text, "missing");
            false
        }
        Polled::Failed => {
            push(rt, text, "failed");
            false
        }
        Polled::NoMemory => panic!(rt; "no memory"),
    }
}

/// Polls a request, and once more where it waits, and lets it go.
fn end<S: SegmentSource>(
    rt: &impl Abort,
    alloc: Global,
    source: &mut S,
    id: SegmentId,
    text: &mut String,
)
    requires { (S.state source.old).live id ≡ true }
    ensures { (S.state source.new).live id ≡ false }
{
    if !poll(rt, alloc, source, id, text) {
        return;
    }
    if !poll(rt, alloc, source, id, text) {
        return;
    }
    source.drop_request(id)
}

// ---- a box
/// Of a source in a box: a request of the segment 0 and its polls, and the same of another.
fn told_box(rt: &impl Abort, alloc: Global, inner: Box<dyn SegmentSource + Drop>) -> String
    requires { (state inner).live 0 ≡ false }
{
    let id = SegmentId::from(0);
    let mut boxed = BoxedSource(inner);
    let mut text = String::new(alloc);
    boxed.request(alloc, id).expect(rt, "request");
    end(rt, alloc, &mut boxed, id, &mut text);
    boxed.request(alloc, id).expect(rt, "request");
    end(rt, alloc, &mut boxed, id, &mut text);
    text
}

fn boxed(rt: &impl Abort, alloc: Global, polls: &str) -> Result<String, NoMemory> {
    let made = source(rt, alloc, polls);
    Ok(told_box(rt, alloc, Box::new(alloc, made)?))
}

// ---- an adapter
/// A cache of one file that keeps nothing. Its first lookups are pending, so many of them, and the others fail.
#[derive(Drop)]
struct Stubborn {
    waits: u64,
    faults: u64,
}

impl SegmentCache for Stubborn {
    ghost cache = { λ c. record { entries = None; ended = None; short = None; faults = c.faults; turns = c.waits } };

    ghost gets = { λ c id d r. Unit {0} };

    ghost puts = { λ c id bytes d r. Unit {0} };

    fn poll_get(&mut self, _alloc: Global, _id: SegmentId) -> CacheGet {
        if self.waits > 0 {
            self.waits -= 1;
            CacheGet::Pending
        } else {
            self.faults = self.faults.saturating_add(1);
            CacheGet::Failed
        }
    }

    fn poll_put(&mut self, _alloc: Global, _id: SegmentId, _buffer: &ByteBuffer) -> CachePut {
        CachePut::Passed
    }
}

/// What was asked of a source.
pub(crate) fn push_asked(rt: &impl Abort, alloc: Global, asked: &[SegmentId], text: &mut String) {
    begin(rt, text);
    push(rt, text, "asked");
    for id in asked {
        let id = **id;
        let told = format!(in alloc; " {id}").expect(rt, "format");
        push(rt, text, told.as_str());
    }
}

/// Of a source behind a cache: a request of the segment 0, its polls, and the same of another; and after each what was asked.
fn told_adapter<C: SegmentCache + Drop>(
    rt: &impl Abort,
    alloc: Global,
    cache: C,
    source: MemorySource,
) -> String
    requires { source.live ≡ [] }
{
    let id = SegmentId::from(0);
    let mut text = String::new(alloc);
    let mut adapter = SegmentCacheSourceAdapter::new(alloc, cache, source);
    adapter.request(alloc, id).expect(rt, "request");
    push_asked(rt, alloc, adapter.source().asked(), &mut text);
    end(rt, alloc, &mut adapter, id, &mut text);
    push_asked(rt, alloc, adapter.source().asked(), &mut text);
    adapter.request(alloc, id).expect(rt, "request");
    end(rt, alloc, &mut adapter, id, &mut text);
    push_asked(rt, alloc, adapter.source().asked(), &mut text);
    text
}

/// The same behind a view of a bounded cache, or behind a cache whose lookups are pending so often, and then fail.
fn behind(rt: &impl Abort, alloc: Global, cache: &str, polls: &str) -> String {
    let source = source(rt, alloc, polls);
    if cache == "bounded" {
        let mut cache = bounded(rt, alloc, SegmentEviction::Lru);
        let file = cache.for_file(source_id(rt, alloc, "a"));
        return told_adapter(rt, alloc, file, source);
    }
    let cache = Stubborn {
        waits: cache.parse::<u64>().expect(rt, "parse"),
        faults: 0,
    };
    told_adapter(rt, alloc, cache, source)
}

// A cache that has the bytes asks once; while a lookup waits nothing is asked, and the first poll that finds nothing asks. A
// poll of what stands before a source polls it once: the polls 0 and 2 of the source are pending and fail.
const BEHIND: &str = "bounded ; -> asked 0; 0102; asked 0; 0102; asked 0
1 2;0 -> asked; pending; 0102; asked 0; failed; asked 0 0
0 2;0 -> asked 0; pending; 0102; asked 0; failed; asked 0 0";

#[test]
fn what_stands_before_a_source_asks_once_and_polls_it_once(rt: HostRuntime) {
    let alloc = rt.alloc();
    for line in BEHIND.lines() {
        let (case, wanted) = sides(&rt, line, " -> ");
        let (cache, polls) = sides(&rt, case, " ");
        let told = behind(&rt, alloc, cache, polls);
        assert_eq!(rt; told.as_str(), wanted, "at {case}");
    }
    let told = boxed(&rt, alloc, "2;0").expect(&rt, "boxed");
    assert_eq!(rt; told.as_str(), "pending; 0102; failed");
}
