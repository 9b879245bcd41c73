//! The cache of one file, over the cache of many.
ghost use Rattle.std.specs.Prelude.{◌≡◌};
ghost use Rattle.scan_caches.specs.Bounded.{Gets, Puts, file_state};
ghost use Rattle.scan_segments.specs.Cached.{IsGot, IsPut};

use crate::bounded::MokaSegmentCache;
use lru::DefaultHasher;
use scan_segments::{
    ByteBuffer, CacheGet, CachePut, KeyedSegmentCache, SegmentCache, SegmentId, SegmentKey,
};
use std::alloc::Global;
use std::hash::BuildHasher;

/// A lent cache for the segments of one source. Each key that it looks up or puts has the source id of `key`.
#[derive(Drop)]
pub struct FileSegmentCache<'a, S: BuildHasher = DefaultHasher> {
    pub cache: &'a mut MokaSegmentCache<S>,
    /// The key of the last call.
    pub key: SegmentKey,
}

impl<'a, S: BuildHasher> SegmentCache for FileSegmentCache<'a, S> {
    ghost cache = { λ f. file_state f.key.source_id f.cache.now };

    ghost gets = { λ f k g r. Gets (record { source_id = f.key.source_id; segment = k }) f.cache.now g.cache.now r };

    ghost puts = { λ f k b g r. Puts (record {
      source_id = f.key.source_id;
      segment = k;
    }) b f.cache.now g.cache.now r };

    fn poll_get(&mut self, alloc: Global, id: SegmentId) -> CacheGet
        ensures got { IsGot id (file_state self.old.key.source_id self.old.cache.now)
            (file_state self.new.key.source_id self.new.cache.now) result }
        ensures exact { Gets (record {
          source_id = self.old.key.source_id;
          segment = id;
        }) self.old.cache.now self.new.cache.now result }
        ensures file { (self.new.key.source_id ≡ self.old.key.source_id)
            × (self.new.cache.ghost_name ≡ self.old.cache.ghost_name) }
    {
        self.key.segment = id;
        self.cache.poll_get(alloc, &self.key)
    }

    fn poll_put(&mut self, alloc: Global, id: SegmentId, buffer: &ByteBuffer) -> CachePut
        ensures put { IsPut id buffer.now (file_state self.old.key.source_id self.old.cache.now)
            (file_state self.new.key.source_id self.new.cache.now) result }
        ensures exact { Puts (record {
          source_id = self.old.key.source_id;
          segment = id;
        }) buffer.now self.old.cache.now self.new.cache.now result }
        ensures file { (self.new.key.source_id ≡ self.old.key.source_id)
            × (self.new.cache.ghost_name ≡ self.old.cache.ghost_name) }
    {
        self.key.segment = id;
        self.cache.poll_put(alloc, &self.key, buffer)
    }
}
