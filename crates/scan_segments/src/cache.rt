//! Caches of segments. After the Rust's `segments::cache`.
ghost use Rattle.std.specs.Prelude.{ℕ};

use crate::segment::{ByteBuffer, SegmentId, SegmentKey};
use std::alloc::Global;

/// How a lookup or a put of a key ended.
#[derive(Drop)]
pub enum CacheEvent<K> {
    /// A lookup that found nothing, or failed.
    Missed(K),
    /// A lookup that found bytes.
    Found(K),
    /// A put that stored the bytes, passed or failed.
    Offered(K),
}

/// What a poll of a lookup gives. `Pending` and `NoMemory` end no lookup.
#[derive(Drop)]
pub enum CacheGet {
    Pending,
    Hit(ByteBuffer),
    Miss,
    Failed,
    NoMemory,
}

/// What a poll of a put gives. Any answer but `Pending` ends the put.
#[derive(Clone, Copy, Debug, PartialEq, Eq)]
pub enum CachePut {
    Pending,
    Stored,
    Passed,
    Failed,
    NoMemory,
}

/// A cache of the segments of one file.
pub trait SegmentCache {
    ghost use Rattle.std.specs.Prelude.{ℕ, List};
    ghost use Rattle.scan_segments.specs.Cache.{CacheState};
    ghost use Rattle.scan_segments.specs.Cached.{IsGot, IsPut};

    /// The entries, what ended, the puts that found no memory, the faults and the turns.
    ghost cache: { Self → CacheState ℕ };

    ghost use Rattle.scan_segments.specs.declared.cache.CacheGet.{CacheGet as Get};
    ghost use Rattle.scan_segments.specs.declared.cache.CachePut.{CachePut as Put};

    /// What a lookup of this type does: the cache before, the id, the cache after and the answer.
    ghost gets: { Self → ℕ → Self → Get → Type 0 };

    /// The same of a put of these bytes.
    ghost puts: { Self → ℕ → List ℕ → Self → Put → Type 0 };

    /// Looks a segment up.
    fn poll_get(&mut self, alloc: Global, id: SegmentId) -> CacheGet
        ensures got { IsGot id (cache self.old) (cache self.new) result }
        ensures exact { gets self.old id self.new result };

    /// Offers the bytes of a segment.
    fn poll_put(&mut self, alloc: Global, id: SegmentId, buffer: &ByteBuffer) -> CachePut
        ensures put { IsPut id buffer.now (cache self.old) (cache self.new) result }
        ensures exact { puts self.old id buffer.now self.new result };
}

/// A cache of the segments of many files.
pub trait KeyedSegmentCache {
    ghost use Rattle.scan_segments.specs.declared.segment.SegmentKey.{SegmentKey as Key};
    ghost use Rattle.scan_segments.specs.Cache.{CacheState};
    ghost use Rattle.scan_segments.specs.Cached.{IsGot, IsPut};

    /// The entries, what ended, the puts that found no memory, the faults and the turns.
    ghost cache: { Self → CacheState Key };

    ghost use Rattle.std.specs.Prelude.{ℕ, List};
    ghost use Rattle.scan_segments.specs.declared.cache.CacheGet.{CacheGet as Get};
    ghost use Rattle.scan_segments.specs.declared.cache.CachePut.{CachePut as Put};

    /// What a lookup of this type does: the cache before, the key, the cache after and the answer.
    ghost gets: { Self → Key → Self → Get → Type 0 };

    /// The same of a put of these bytes.
    ghost puts: { Self → Key → List ℕ → Self → Put → Type 0 };

    /// Looks a key up.
    fn poll_get(&mut self, alloc: Global, key: &SegmentKey) -> CacheGet
        ensures got { IsGot key.now (cache self.old) (cache self.new) result }
        ensures exact { gets self.old key.now self.new result };

    /// Offers the bytes of a key.
    fn poll_put(&mut self, alloc: Global, key: &SegmentKey, buffer: &ByteBuffer) -> CachePut
        ensures put { IsPut key.now buffer.now (cache self.old) (cache self.new) result }
        ensures exact { puts self.old key.now buffer.now self.new result };
}
