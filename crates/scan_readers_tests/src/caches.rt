//! Caches of segments. In a script `get:1:a` looks the segment 1 of the source `a` up, `put:1:0102` offers it of `a` with
//! these bytes, `counts` tells how many entries there are and their bytes, and `clear` drops all.
use crate::told::{begin, push};
use crate::words::{bytes, numbers, sides};
use scan_caches::{InstrumentedSegmentCache, MemoryCache, MokaSegmentCache, SegmentEviction};
use scan_segments::{
    CacheGet, KeyedSegmentCache, SegmentCache, SegmentId, SegmentKey, SegmentSourceId,
};
use scan_values::StrictSorted;
use std::alloc::Global;
use std::process::Abort;
use std::string::String;

pub(crate) fn sorted(rt: &impl Abort, alloc: Global, text: &str) -> StrictSorted {
    StrictSorted::try_new(numbers(rt, alloc, text)).expect(rt, "try_new")
}

pub(crate) fn source_id(rt: &impl Abort, alloc: Global, text: &str) -> SegmentSourceId {
    let text = String::from_str(alloc, text).expect(rt, "from_str");
    SegmentSourceId::new(alloc, text).expect(rt, "new")
}

pub(crate) fn key(rt: &impl Abort, alloc: Global, segment: &str, source: &str) -> SegmentKey {
    SegmentKey {
        source_id: source_id(rt, alloc, source),
        segment: SegmentId::from(segment.parse::<u32>().expect(rt, "parse")),
    }
}

fn push_get(rt: &impl Abort, got: &CacheGet, text: &mut String) {
    let told = match got {
        CacheGet::Pending => "pending",
        CacheGet::Hit(_) => "hit",
        CacheGet::Miss => "miss",
        CacheGet::Failed => "failed",
        CacheGet::NoMemory => panic!(rt; "no memory"),
    };
    begin(rt, text);
    push(rt, text, told)
}

fn step<C: KeyedSegmentCache>(
    rt: &impl Abort,
    alloc: Global,
    cache: &mut C,
    word: &str,
    text: &mut String,
) {
    let (what, of) = sides(rt, word, ":");
    let (segment, of) = sides(rt, of, ":");
    if what == "get" {
        let key = key(rt, alloc, segment, of);
        return push_get(rt, &cache.poll_get(alloc, &key), text);
    }
    let key = key(rt, alloc, segment, "a");
    let put = cache.poll_put(alloc, &key, &bytes(rt, alloc, of));
    let told = format!(in alloc; "{put:?}").expect(rt, "format");
    begin(rt, text);
    push(rt, text, told.as_str())
}

/// A cache of 12 bytes and 4 entries.
pub(crate) fn bounded(
    rt: &impl Abort,
    alloc: Global,
    eviction: SegmentEviction,
) -> MokaSegmentCache {
    MokaSegmentCache::new(alloc, 12, 4, eviction).expect(rt, "new")
}

/// What a bounded cache answers.
fn told_bounded(rt: &impl Abort, alloc: Global, eviction: SegmentEviction, script: &str) -> String {
    let mut cache = bounded(rt, alloc, eviction);
    let mut text = String::new(alloc);
    for word in script.split_whitespace() {
        match word {
            "counts" => {
                let (entries, size) = (cache.entry_count(), cache.weighted_size());
                let told = format!(in alloc; "; {entries} of {size}").expect(rt, "format");
                push(rt, &mut text, told.as_str());
            }
            "clear" => {
                cache.run_pending_tasks();
                cache.invalidate_all();
            }
            _ => step(rt, alloc, &mut cache, word, &mut text),
        }
    }
    text
}

/// What a cache in memory answers whose calls 0 and 5 fail, and whose call 1 is pending, and what it counts.
fn told_in_memory(rt: &impl Abort, alloc: Global, script: &str) -> String {
    let failing = sorted(rt, alloc, "0,5");
    let mut cache = MemoryCache::new(alloc, failing, sorted(rt, alloc, "1"));
    let mut text = String::new(alloc);
    for word in script.split_whitespace() {
        step(rt, alloc, &mut cache, word, &mut text);
    }
    let (ended, short) = (cache.ended().len(), cache.short());
    let told = format!(in alloc; "; ended {ended}, short {short}").expect(rt, "format");
    push(rt, &mut text, told.as_str());
    text
}

/// What a cache that counts answers over the view of one file: a lookup, an offer and a lookup, and what it counts.
fn told_counted(rt: &impl Abort, alloc: Global) -> String {
    let mut cache = bounded(rt, alloc, SegmentEviction::Lru);
    let file = cache.for_file(source_id(rt, alloc, "a"));
    let mut counting = InstrumentedSegmentCache::new(file);
    let id = SegmentId::from(3);
    let mut text = String::new(alloc);
    push_get(rt, &counting.poll_get(alloc, id), &mut text);
    let put = counting.poll_put(alloc, id, &bytes(rt, alloc, "09"));
    let told = format!(in alloc; "; {put:?}").expect(rt, "format");
    push(rt, &mut text, told.as_str());
    push_get(rt, &counting.poll_get(alloc, id), &mut text);
    let (hits, misses, stores) = (counting.hits(), counting.misses(), counting.stores());
    let told = format!(in alloc; "; hits {hits}, misses {misses}, stores {stores}").expect(
        rt, "format",
    );
    push(rt, &mut text, told.as_str());
    text
}

// Under use counts a segment that was looked up oftener takes the place of another.
const CACHES: &str =
    "lru put:0:000102030405060708090a0b put:1:000102030405060708090a0b get:0:a put:0:000102030405060708090a0b0c get:1:b get:1:a counts clear counts -> Stored; Stored; miss; Passed; miss; hit; 1 of 12; 0 of 0
tinylfu get:0:a get:0:a put:0:000102030405060708090a0b get:1:a put:1:000102030405060708090a0b get:1:a get:1:a put:1:000102030405060708090a0b counts get:0:a get:1:a clear counts -> miss; miss; Stored; miss; Passed; miss; miss; Stored; 1 of 12; miss; hit; 0 of 0
memory get:1:a get:1:a get:1:a put:1:0707 get:1:a put:1:0707 -> failed; pending; miss; Stored; hit; Failed; ended 5, short 0
counted - -> miss; Stored; hit; hits 1, misses 1, stores 1";

#[test]
fn caches_drop_what_is_oldest_or_used_least_and_count_what_they_answer(rt: HostRuntime) {
    let alloc = rt.alloc();
    for line in CACHES.lines() {
        let (case, wanted) = sides(&rt, line, " -> ");
        let (kind, script) = sides(&rt, case, " ");
        let told = match kind {
            "lru" => told_bounded(&rt, alloc, SegmentEviction::Lru, script),
            "tinylfu" => told_bounded(&rt, alloc, SegmentEviction::TinyLfu, script),
            "memory" => told_in_memory(&rt, alloc, script),
            _ => told_counted(&rt, alloc),
        };
        assert_eq!(rt; told.as_str(), wanted, "at {kind}");
    }
}
