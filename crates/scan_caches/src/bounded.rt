//! The bounded cache of segments. After the Rust's `segments::cache`.
ghost use Rattle.std.specs.Prelude.{◌≡◌, ◌+◌, ◌-◌, ◌<◌, ◌≤◌, ◌&&◌, length, is_some, is_none, [], IfOk, OnOk, OnErr};
ghost use Rattle.lru.specs.LruCache.{lru_cache, put_entries};
ghost use Rattle.scan_segments.specs.Keys.{same_key};
ghost use Rattle.std.specs.Map.{lookup};
ghost use Rattle.scan_caches.specs.Bounded.{weight, fitted, keyed_state, Gets, Puts, bounded, with_both, fits, is_least as is_least_of};
ghost use Rattle.scan_caches.specs.UseOrder.{plain, held, Indexed};
ghost use Rattle.scan_segments.specs.Cached.{IsGot, IsPut};
ghost use Rattle.scan_caches.specs.declared.bounded.SegmentEviction.TheVariants as by;

use crate::file_cache::FileSegmentCache;
use crate::use_counts::{Held, drop_own, evict_used, is_least, place_front, place_of, use_key};
use lru::{DefaultHasher, LruCache};
use scan_segments::{
    ByteBuffer, CacheGet, CachePut, KeyedSegmentCache, SegmentId, SegmentKey, SegmentSourceId,
};
use scan_values::NoMemory;
use std::alloc::Global;
use std::collections::BTreeMap;
use std::hash::{BuildHasher, BuildHasherDefault};
use std::marker::Model;
use std::num::NonZeroUsize;

/// Which entries a cache drops first.
#[derive(Clone, Copy, Debug, PartialEq, Eq)]
pub enum SegmentEviction {
    /// The least recently used.
    Lru,
    /// Those that were looked up least often.
    TinyLfu,
}

impl Default for SegmentEviction {
    ghost is_default = { λ e. e ≡ by.Lru };

    /// The least recently used entries go first.
    fn default() -> Self {
        SegmentEviction::Lru
    }
}

/// Segments under their keys, as many as a number of bytes and a number of entries allow. A segment weighs its
/// length. Contracts see the pairs, the most recently used first, the two bounds, the eviction and the use counts.
#[derive(Drop)]
pub struct MokaSegmentCache<S: BuildHasher = DefaultHasher> {
    // There is room for one pair more than there may be, so that a push drops none by itself.
    pairs: LruCache<SegmentKey, Held, S>,
    uses: LruCache<SegmentKey, u64, S>,
    // Where each entry stands among those that are dropped by use counts, but for the front one where it is fresh.
    order: BTreeMap<(u64, u64), SegmentKey>,
    fresh: bool,
    clock: u64,
    capacity: u64,
    max_entries: usize,
    eviction: SegmentEviction,
    weight: u64,
}

impl<S: BuildHasher> Model for MokaSegmentCache<S> {
    ghost use Rattle.scan_caches.specs.Bounded.{Bounded};
    ghost use Rattle.scan_caches.specs.declared.bounded.SegmentEviction.TheVariants as by;

    ghost Value = { Bounded };

    ghost use Rattle.std.specs.Prelude.{◌≡◌, ◌≤◌};
    ghost use Rattle.scan_caches.specs.Bounded.{weight as weight_of};
    ghost use Rattle.std.specs.Prelude.{suc, ◌*◌, ◌<◌, length};
    ghost use Rattle.scan_caches.specs.Bounded.{bounded};
    ghost use Rattle.scan_caches.specs.UseOrder.{plain, Falls, Indexed, behind};

    ghost view = { λ c. bounded (plain c.pairs.entries) c.uses.entries c.capacity c.max_entries c.eviction };

    ghost invariant = { λ c. (c.weight ≡ weight_of (plain c.pairs.entries)) × (c.weight ≤ c.capacity)
        × (length c.pairs.entries ≤ c.max_entries) × (0 < c.max_entries) × (c.pairs.cap ≡ suc c.max_entries)
        × (c.uses.cap ≡ 4 * c.max_entries)
        × (c.eviction ≡ by.TinyLfu →
        Falls c.clock c.pairs.entries × Indexed c.uses.entries c.order (behind c.fresh c.pairs.entries)) };
}

impl MokaSegmentCache {
    /// An empty cache of at most so many bytes, and of 1 to 65,536 entries. Its keys are hashed from a fixed seed: where
    /// whoever names the sources is not trusted, make it by `with_hasher`.
    pub fn new(
        alloc: Global,
        max_capacity_bytes: u64,
        max_entries: usize,
        eviction: SegmentEviction,
    ) -> Result<Self, NoMemory>
        requires entries { (0 < max_entries) × (max_entries ≤ 65536) }
        ensures { IfOk result (λ c. c ≡ bounded [] [] max_capacity_bytes max_entries eviction) }
    {
        MokaSegmentCache::with_hasher(
            alloc,
            max_capacity_bytes,
            max_entries,
            eviction,
            BuildHasherDefault::new(),
        )
    }
}

impl<S: BuildHasher + Copy + Drop> MokaSegmentCache<S> {
    /// The same, whose keys are hashed by this.
    pub fn with_hasher(
        alloc: Global,
        max_capacity_bytes: u64,
        max_entries: usize,
        eviction: SegmentEviction,
        hasher: S,
    ) -> Result<Self, NoMemory>
        requires entries { (0 < max_entries) × (max_entries ≤ 65536) }
        ensures { IfOk result (λ c. c ≡ bounded [] [] max_capacity_bytes max_entries eviction) }
    {
        let Some(room) = NonZeroUsize::new(max_entries + 1) else {
            unreachable!();
        };
        let Some(counted) = NonZeroUsize::new(4 * max_entries) else {
            unreachable!();
        };
        let pairs = LruCache::with_hasher(alloc, room, hasher)?;
        let mut uses = LruCache::unbounded_with_hasher(alloc, hasher)?;
        uses.resize(counted);
        Ok(MokaSegmentCache {
            pairs,
            uses,
            order: BTreeMap::new(alloc),
            fresh: false,
            clock: 0,
            capacity: max_capacity_bytes,
            max_entries,
            eviction,
            weight: 0,
        })
    }
}

impl<S: BuildHasher> MokaSegmentCache<S> {
    /// What the entries weigh together, in bytes.
    pub fn weighted_size(&self) -> u64
        ensures size { result ≡ weight self.now.pairs }
        ensures fits { result ≤ self.now.capacity }
    {
        self.weight
    }

    /// How many entries there are.
    pub fn entry_count(&self) -> u64
        ensures count { result ≡ length self.now.pairs }
        ensures fits { result ≤ self.now.max_entries }
    {
        self.pairs.len() as u64
    }

    /// Does nothing: the counts are always exact.
    pub fn run_pending_tasks(&mut self)
        ensures { self.new ≡ self.old }
    {}

    /// Drops all entries and use counts.
    pub fn invalidate_all(&mut self)
        ensures { self.new ≡ with_both [] [] self.old }
    {
        self.pairs.clear();
        self.uses.clear();
        self.order.clear();
        self.fresh = false;
        self.weight = 0;
    }

    /// Lends the cache as that of the segments of one source.
    pub fn for_file(&mut self, source_id: SegmentSourceId) -> FileSegmentCache<'_, S>
        ensures lends { (result.cache.ghost_name ≡ self.entry.ghost_name) × (result.cache.now ≡ self.entry.now) }
        ensures id { result.key.source_id ≡ source_id }
    {
        FileSegmentCache {
            cache: self,
            key: SegmentKey {
                source_id,
                segment: SegmentId::from(0),
            },
        }
    }

    // Looks a key up, brings it to the front where it is there, and counts the use where uses are counted.
    fn look_up(&mut self, key: &SegmentKey) -> CacheGet
        ensures { Gets key.now self.old self.new result }
    {
        match self.eviction {
            SegmentEviction::Lru => self.look_up_last(key),
            SegmentEviction::TinyLfu => self.look_up_used(key),
        }
    }

    // Looks a key up, and brings it to the front where it is there.
    fn look_up_last(&mut self, key: &SegmentKey) -> CacheGet
        requires { self.old.eviction ≡ by.Lru }
        ensures { Gets key.now self.old self.new result }
    {
        let Some(held) = self.pairs.peek(key) else {
            return CacheGet::Miss;
        };
        let Ok(bytes) = held.bytes.try_clone() else {
            return CacheGet::NoMemory;
        };
        self.pairs.promote(key);
        CacheGet::Hit(bytes)
    }

    // The same, and counts the use.
    fn look_up_used(&mut self, key: &SegmentKey) -> CacheGet
        requires { self.old.eviction ≡ by.TinyLfu }
        ensures { Gets key.now self.old self.new result }
    {
        if place_front(&self.pairs, &self.uses, &mut self.order, self.fresh).is_err() {
            return CacheGet::NoMemory;
        }
        self.fresh = false;
        let Some(next) = self.clock.checked_add(1) else {
            return CacheGet::NoMemory;
        };
        match use_key(
            &mut self.pairs,
            &mut self.uses,
            &mut self.order,
            key,
            self.clock,
        ) {
            Ok(Some(bytes)) => {
                self.clock = next;
                self.fresh = true;
                CacheGet::Hit(bytes)
            }
            Ok(None) => {
                self.clock = next;
                CacheGet::Miss
            }
            Err(_) => CacheGet::NoMemory,
        }
    }

    // Stores a segment that is no heavier than the capacity and not rare, and drops pairs that then do not fit.
    fn store(&mut self, key: &SegmentKey, buffer: &ByteBuffer) -> CachePut
        ensures { Puts key.now buffer.now self.old self.new result }
    {
        let size = buffer.as_slice().len() as u64;
        if size > self.capacity {
            return CachePut::Passed;
        }
        match self.eviction {
            SegmentEviction::Lru => self.store_last(key, buffer, size),
            SegmentEviction::TinyLfu => self.store_used(key, buffer, size),
        }
    }

    // Stores a segment, and drops the least recently used ones that then do not fit.
    fn store_last(&mut self, key: &SegmentKey, buffer: &ByteBuffer, size: u64) -> CachePut
        requires size { (size ≡ length buffer.now) × (size ≤ self.old.capacity) }
        requires eviction { self.old.eviction ≡ by.Lru }
        ensures { Puts key.now buffer.now self.old self.new result }
    {
        let before = u128::from(self.weight) + u128::from(size);
        let Ok(old) = push_pair(&mut self.pairs, key, buffer, 0) else {
            return CachePut::NoMemory;
        };
        let total = before - u128::from(old);
        self.weight = evict(&mut self.pairs, self.capacity, self.max_entries, total);
        CachePut::Stored
    }

    // Whether a segment of this weight fits beside all entries.
    fn has_room(&self, size: u64) -> bool
        requires { size ≤ self.now.capacity }
        ensures { result ≡ fits (self.now.capacity - size) (self.now.max_entries - 1) self.now.pairs }
    {
        self.weight <= self.capacity - size && self.pairs.len() <= self.max_entries - 1
    }

    // Stores a segment that is not rare, and drops those looked up least often until all fits.
    fn store_used(&mut self, key: &SegmentKey, buffer: &ByteBuffer, size: u64) -> CachePut
        requires size { (size ≡ length buffer.now) × (size ≤ self.old.capacity) }
        requires eviction { self.old.eviction ≡ by.TinyLfu }
        ensures { Puts key.now buffer.now self.old self.new result }
    {
        let _len = self.pairs.len();
        let full = !self.has_room(size);
        if place_front(&self.pairs, &self.uses, &mut self.order, self.fresh).is_err() {
            return CachePut::NoMemory;
        }
        self.fresh = false;
        let place = place_of(&self.pairs, &self.uses, key);
        let known = place.is_some();
        if is_rare(&self.pairs, &self.uses, &mut self.order, key, known, full) {
            return CachePut::Passed;
        }
        let Some(next) = self.clock.checked_add(1) else {
            return CachePut::NoMemory;
        };
        let before = u128::from(self.weight) + u128::from(size);
        let Ok(old) = push_pair(&mut self.pairs, key, buffer, self.clock) else {
            return CachePut::NoMemory;
        };
        drop_own(&mut self.order, place);
        let total = before - u128::from(old);
        self.weight = evict_used(
            &mut self.pairs,
            &self.uses,
            &mut self.order,
            self.capacity,
            self.max_entries,
            self.clock,
            total,
        );
        self.clock = next;
        self.fresh = true;
        CachePut::Stored
    }
}

impl<S: BuildHasher> KeyedSegmentCache for MokaSegmentCache<S> {
    ghost cache = { keyed_state };

    ghost gets = { λ c k d r. Gets k c d r };

    ghost puts = { λ c k b d r. Puts k b c d r };

    fn poll_get(&mut self, alloc: Global, key: &SegmentKey) -> CacheGet
        ensures got { IsGot key.now (keyed_state self.old) (keyed_state self.new) result }
        ensures exact { Gets key.now self.old self.new result }
    {
        self.look_up(key)
    }

    fn poll_put(&mut self, alloc: Global, key: &SegmentKey, buffer: &ByteBuffer) -> CachePut
        ensures put { IsPut key.now buffer.now (keyed_state self.old) (keyed_state self.new) result }
        ensures exact { Puts key.now buffer.now self.old self.new result }
    {
        self.store(key, buffer)
    }
}

// Whether a key is no entry's, has no room beside the entries, and none of them was looked up less often.
fn is_rare<S: BuildHasher>(
    pairs: &LruCache<SegmentKey, Held, S>,
    uses: &LruCache<SegmentKey, u64, S>,
    order: &mut BTreeMap<(u64, u64), SegmentKey>,
    key: &SegmentKey,
    known: bool,
    full: bool,
) -> bool
    requires known { known ≡ is_some (lookup (same_key key.now) pairs.now.entries) }
    requires indexed { Indexed uses.now.entries order.old pairs.now.entries }
    ensures rare { result ≡ (is_none (lookup (same_key key.now) (plain pairs.now.entries))
        && full && is_least_of uses.now.entries key.now (plain pairs.now.entries)) }
    ensures indexed { Indexed uses.now.entries order.new pairs.now.entries }
{
    if known {
        return false;
    }
    if !full {
        return false;
    }
    is_least(pairs, uses, order, key)
}

// Stores a segment as the front pair of this time, and answers what the pair weighs that it takes the place of.
fn push_pair<S: BuildHasher>(
    pairs: &mut LruCache<SegmentKey, Held, S>,
    key: &SegmentKey,
    buffer: &ByteBuffer,
    tick: u64,
) -> Result<u64, NoMemory>
    ensures weight { IfOk result (λ gone.
        weight (plain pairs.new.entries) + gone ≡ weight (plain pairs.old.entries) + length buffer.now) }
    ensures pairs { OnOk result
        (pairs.new ≡ lru_cache (put_entries same_key pairs.old key.now (held buffer.now tick)) pairs.old.cap) }
    ensures err { OnErr result (pairs.new ≡ pairs.old) }
    ensures room { 0 < pairs.old.cap }
{
    let _len = pairs.len();
    let key = key.try_clone()?;
    let bytes = buffer.try_clone()?;
    match pairs.push(key, Held { bytes, tick }) {
        Ok(Some((_, old))) => Ok(old.bytes.as_slice().len() as u64),
        Ok(None) => Ok(0),
        Err(_) => Err(NoMemory),
    }
}

// Drops the last pairs until weight and number fit, and answers the weight that is left.
fn evict<S: BuildHasher>(
    pairs: &mut LruCache<SegmentKey, Held, S>,
    capacity: u64,
    max_entries: usize,
    mut total: u128,
) -> u64
    requires { total ≡ weight (plain pairs.old.entries) }
    ensures pairs { plain pairs.new.entries ≡ fitted capacity max_entries (plain pairs.old.entries) }
    ensures cap { pairs.new.cap ≡ pairs.old.cap }
    ensures weight { (result ≡ weight (plain pairs.new.entries)) × (result ≤ capacity) }
{
    while total > u128::from(capacity) || pairs.len() > max_entries {
        match pairs.pop_lru() {
            Some((_, held)) => total -= held.bytes.as_slice().len() as u128,
            None => unreachable!(),
        }
    }
    total as u64
}
