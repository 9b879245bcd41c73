//! A cache that keeps nothing. After the Rust's `segments::cache`.
ghost use Rattle.std.specs.Prelude.{◌≡◌, None, Some};
ghost use Rattle.scan_segments.specs.Cache.{empty_cache};
ghost use Rattle.scan_segments.specs.Cached.{IsGot, IsPut};
ghost use Rattle.scan_segments.specs.declared.cache.CacheGet.TheVariants as get;
ghost use Rattle.scan_segments.specs.declared.cache.CachePut.TheVariants as put;

use scan_segments::{
    ByteBuffer, CacheGet, CachePut, KeyedSegmentCache, SegmentCache, SegmentId, SegmentKey,
};
use std::alloc::Global;

/// A cache that keeps nothing. It tells that it has no entries.
#[derive(Drop)]
pub struct NoOpSegmentCache;

impl NoOpSegmentCache {
    pub fn new() -> Self {
        NoOpSegmentCache
    }
}

impl KeyedSegmentCache for NoOpSegmentCache {
    ghost cache = { λ s. empty_cache };

    ghost gets = { λ s k t r. r ≡ get.Miss };

    ghost puts = { λ s k b t r. r ≡ put.Passed };

    fn poll_get(&mut self, alloc: Global, key: &SegmentKey) -> CacheGet
        ensures got { IsGot key.now empty_cache empty_cache result }
        ensures exact { result ≡ get.Miss }
    {
        CacheGet::Miss
    }

    fn poll_put(&mut self, alloc: Global, key: &SegmentKey, buffer: &ByteBuffer) -> CachePut
        ensures put { IsPut key.now buffer.now empty_cache empty_cache result }
        ensures exact { result ≡ put.Passed }
    {
        CachePut::Passed
    }
}

impl SegmentCache for NoOpSegmentCache {
    ghost cache = { λ s. empty_cache };

    ghost gets = { λ s k t r. r ≡ get.Miss };

    ghost puts = { λ s k b t r. r ≡ put.Passed };

    fn poll_get(&mut self, alloc: Global, id: SegmentId) -> CacheGet
        ensures got { IsGot id empty_cache empty_cache result }
        ensures exact { result ≡ get.Miss }
    {
        CacheGet::Miss
    }

    fn poll_put(&mut self, alloc: Global, id: SegmentId, buffer: &ByteBuffer) -> CachePut
        ensures put { IsPut id buffer.now empty_cache empty_cache result }
        ensures exact { result ≡ put.Passed }
    {
        CachePut::Passed
    }
}
