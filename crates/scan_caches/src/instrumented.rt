//! A cache that counts what another one answers. After the Rust's `segments::cache`.
ghost use Rattle.std.specs.Prelude.{◌≡◌};
ghost use Rattle.scan_segments.specs.Cached.{IsGot, IsPut};
ghost use Rattle.scan_caches.specs.Counted.{CountsGet, CountsPut};

use scan_segments::{
    ByteBuffer, CacheGet, CachePut, KeyedSegmentCache, SegmentCache, SegmentId, SegmentKey,
};
use std::alloc::Global;
use std::marker::Model;

/// A cache that passes each call on, and counts the hits, the lookups that missed or failed, and the puts that
/// stored. Each count stops at the greatest u64.
#[derive(Drop)]
pub struct InstrumentedSegmentCache<C> {
    cache: C,
    hits: u64,
    misses: u64,
    stores: u64,
}

impl<C> Model for InstrumentedSegmentCache<C> {
    ghost use Rattle.scan_caches.specs.Counted.{Counted};

    ghost Value = { Counted C };

    ghost view = { λ i. record { cache = i.cache; hits = i.hits; misses = i.misses; stores = i.stores } };
}

impl<C> InstrumentedSegmentCache<C> {
    /// Counts from 0 what this cache answers.
    pub fn new(cache: C) -> Self
        ensures { result ≡ record { cache = cache; hits = 0; misses = 0; stores = 0 } }
    {
        InstrumentedSegmentCache {
            cache,
            hits: 0,
            misses: 0,
            stores: 0,
        }
    }

    /// How many lookups found bytes.
    pub fn hits(&self) -> u64
        ensures { result ≡ self.now.hits }
    {
        self.hits
    }

    /// How many lookups missed or failed.
    pub fn misses(&self) -> u64
        ensures { result ≡ self.now.misses }
    {
        self.misses
    }

    /// How many puts stored.
    pub fn stores(&self) -> u64
        ensures { result ≡ self.now.stores }
    {
        self.stores
    }

    fn count_get(&mut self, got: &CacheGet)
        ensures counts { CountsGet got.now self.old self.new }
        ensures cache { self.new.cache ≡ self.old.cache }
    {
        match got {
            CacheGet::Hit(_) => self.hits = self.hits.saturating_add(1),
            CacheGet::Miss | CacheGet::Failed => self.misses = self.misses.saturating_add(1),
            CacheGet::Pending | CacheGet::NoMemory => {}
        }
    }

    fn count_put(&mut self, put: CachePut)
        ensures counts { CountsPut put self.old self.new }
        ensures cache { self.new.cache ≡ self.old.cache }
    {
        match put {
            CachePut::Stored => self.stores = self.stores.saturating_add(1),
            CachePut::Pending | CachePut::Passed | CachePut::Failed | CachePut::NoMemory => {}
        }
    }
}

impl<C: KeyedSegmentCache> KeyedSegmentCache for InstrumentedSegmentCache<C> {
    ghost cache = { λ i. C.cache i.cache };

    ghost gets = { λ i k j r. C.gets i.cache k j.cache r × CountsGet r i j };

    ghost puts = { λ i k b j r. C.puts i.cache k b j.cache r × CountsPut r i j };

    fn poll_get(&mut self, alloc: Global, key: &SegmentKey) -> CacheGet
        ensures got { IsGot key.now (C.cache self.old.cache) (C.cache self.new.cache) result }
        ensures exact { C.gets self.old.cache key.now self.new.cache result × CountsGet result self.old self.new }
    {
        let got = self.cache.poll_get(alloc, key);
        self.count_get(&got);
        got
    }

    fn poll_put(&mut self, alloc: Global, key: &SegmentKey, buffer: &ByteBuffer) -> CachePut
        ensures put { IsPut key.now buffer.now (C.cache self.old.cache) (C.cache self.new.cache) result }
        ensures exact { C.puts self.old.cache key.now buffer.now self.new.cache result
            × CountsPut result self.old self.new }
    {
        let put = self.cache.poll_put(alloc, key, buffer);
        self.count_put(put);
        put
    }
}

impl<C: SegmentCache> SegmentCache for InstrumentedSegmentCache<C> {
    ghost cache = { λ i. C.cache i.cache };

    ghost gets = { λ i k j r. C.gets i.cache k j.cache r × CountsGet r i j };

    ghost puts = { λ i k b j r. C.puts i.cache k b j.cache r × CountsPut r i j };

    fn poll_get(&mut self, alloc: Global, id: SegmentId) -> CacheGet
        ensures got { IsGot id (C.cache self.old.cache) (C.cache self.new.cache) result }
        ensures exact { C.gets self.old.cache id self.new.cache result × CountsGet result self.old self.new }
    {
        let got = self.cache.poll_get(alloc, id);
        self.count_get(&got);
        got
    }

    fn poll_put(&mut self, alloc: Global, id: SegmentId, buffer: &ByteBuffer) -> CachePut
        ensures put { IsPut id buffer.now (C.cache self.old.cache) (C.cache self.new.cache) result }
        ensures exact { C.puts self.old.cache id buffer.now self.new.cache result × CountsPut result self.old self.new }
    {
        let put = self.cache.poll_put(alloc, id, buffer);
        self.count_put(put);
        put
    }
}
