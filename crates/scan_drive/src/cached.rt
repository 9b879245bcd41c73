//! Lookups and puts of a cache that are polled to their ends.
ghost use Rattle.std.specs.Prelude.{◌≡◌};
ghost use Rattle.scan_segments.specs.Cached.{Offers};
ghost use Rattle.scan_drive.specs.Wants.{IsLookedUp, PutsWhatCame};

use crate::desk::Reply;
use scan_segments::{ByteBuffer, CacheGet, CachePut, KeyedSegmentCache, SegmentKey};
use scan_splits::Arrival;
use std::alloc::Global;

/// How a want of a segment ended.
#[derive(Drop)]
pub enum Wanted {
    /// The cache has its bytes.
    Hit(ByteBuffer),
    /// It waits for a request that was live before.
    Shared,
    /// It waits for a request of its own.
    Asked,
}

/// How a lookup ended. One that failed is a miss.
#[derive(Drop)]
pub(crate) enum Looked {
    Hit(ByteBuffer),
    Missed,
    NoMemory,
}

/// Polls a lookup to its end.
pub(crate) fn look_up<C: KeyedSegmentCache>(
    alloc: Global,
    key: &SegmentKey,
    cache: &mut C,
) -> Looked
    ensures { IsLookedUp key.now (C.cache cache.old) (C.cache cache.new) result }
{
    'wait: loop {
        match cache.poll_get(alloc, key) {
            CacheGet::Pending => {}
            CacheGet::Hit(bytes) => return Looked::Hit(bytes),
            CacheGet::Miss => return Looked::Missed,
            CacheGet::Failed => return Looked::Missed,
            CacheGet::NoMemory => return Looked::NoMemory,
        }
    }
}

/// Offers bytes to a cache until the put ends.
fn offer<C: KeyedSegmentCache>(alloc: Global, key: &SegmentKey, bytes: &ByteBuffer, cache: &mut C)
    ensures { Offers key.now bytes.now (C.cache cache.old) (C.cache cache.new) }
{
    'wait: loop {
        match cache.poll_put(alloc, key, bytes) {
            CachePut::Pending => {}
            CachePut::Stored => return,
            CachePut::Passed => return,
            CachePut::Failed => return,
            CachePut::NoMemory => return,
        }
    }
}

/// Offers what came to a cache, where bytes came.
pub(crate) fn offer_reply<C: KeyedSegmentCache>(
    alloc: Global,
    key: &SegmentKey,
    reply: &Reply,
    cache: &mut C,
)
    ensures { PutsWhatCame key.now (C.cache cache.old) (C.cache cache.new) reply.now }
{
    match reply {
        Reply::Came(Arrival::Bytes(bytes), _) => offer(alloc, key, bytes, cache),
        Reply::Came(Arrival::Missing, _) => {}
        Reply::Pending => {}
        Reply::Failed(_) => {}
        Reply::NoMemory => {}
    }
}
