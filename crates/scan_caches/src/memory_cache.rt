//! A cache in memory without a bound. Some of its calls fail or are pending, by their numbers.
ghost use Rattle.std.specs.Prelude.{◌≡◌, ◌++◌, ◌∷◌, [], None, Some, OnOk, OnErr};
ghost use Rattle.scan_segments.specs.Cached.{IsGot, IsPut};
ghost use Rattle.scan_caches.specs.MemoryCache.{cache_state, GetsMemory, PutsMemory, LooksUp, IsKept};
ghost use Rattle.scan_segments.specs.Faults.{one_more};
ghost use Rattle.scan_segments.specs.declared.cache.CacheEvent.TheVariants as event;
ghost use Rattle.scan_segments.specs.declared.cache.CachePut.TheVariants as put;

use scan_segments::{
    ByteBuffer, CacheEvent, CacheGet, CachePut, KeyedSegmentCache, Outcome, Script, SegmentKey,
};
use scan_values::{NoMemory, StrictSorted};
use std::alloc::Global;
use std::collections::BTreeMap;
use std::marker::Model;

/// A cache of many files that keeps all that is put. It tells its entries, what ended, and how many puts found no
/// memory.
#[derive(Drop)]
pub struct MemoryCache {
    entries: BTreeMap<SegmentKey, ByteBuffer>,
    script: Script,
    ended: Vec<CacheEvent<SegmentKey>>,
    short: u64,
    faults: u64,
}

impl Model for MemoryCache {
    ghost use Rattle.scan_caches.specs.MemoryCache.{KeptCache};

    ghost Value = { KeptCache };

    ghost view = { λ c. record {
      entries = c.entries.entries;
      script = c.script;
      ended = c.ended.items;
      short = c.short;
      faults = c.faults;
    } };
}

impl MemoryCache {
    /// An empty cache. Its lookups and puts are numbered together from 0: those in `failing` fail, and of the
    /// others those in `pending` are pending.
    pub fn new(alloc: Global, failing: StrictSorted, pending: StrictSorted) -> Self
        ensures { result ≡ record {
          entries = [];
          script = record {
            failing = failing;
            pending = pending;
            next = Some 0;
          };
          ended = [];
          short = 0;
          faults = 0;
        } }
    {
        MemoryCache {
            entries: BTreeMap::new(alloc),
            script: Script::new(failing, pending),
            ended: Vec::new(alloc),
            short: 0,
            faults: 0,
        }
    }

    /// The lookups and puts that ended, in order.
    pub fn ended(&self) -> &[CacheEvent<SegmentKey>]
        ensures { result.now ≡ self.now.ended }
    {
        self.ended.as_slice()
    }

    /// How many puts found no memory, up to the greatest u64.
    pub fn short(&self) -> u64
        ensures { result ≡ self.now.short }
    {
        self.short
    }

    fn fall_short(&mut self) -> CachePut
        ensures short { self.new ≡ record self.old { short = one_more self.old.short } }
        ensures result { result ≡ put.NoMemory }
    {
        self.short = self.short.saturating_add(1);
        CachePut::NoMemory
    }
}

impl KeyedSegmentCache for MemoryCache {
    ghost cache = { cache_state };

    ghost gets = { λ c k d r. GetsMemory k c d r };

    ghost puts = { λ c k b d r. PutsMemory k b c d r };

    fn poll_get(&mut self, alloc: Global, key: &SegmentKey) -> CacheGet
        ensures got { IsGot key.now (cache_state self.old) (cache_state self.new) result }
        ensures exact { GetsMemory key.now self.old self.new result }
    {
        match self.script.step() {
            Outcome::Fails => match note_missed(&mut self.ended, key) {
                Ok(()) => {
                    self.faults = self.faults.saturating_add(1);
                    CacheGet::Failed
                }
                Err(_) => CacheGet::NoMemory,
            },
            Outcome::Waits => CacheGet::Pending,
            Outcome::Goes => look_up(&self.entries, &mut self.ended, key),
        }
    }

    fn poll_put(&mut self, alloc: Global, key: &SegmentKey, buffer: &ByteBuffer) -> CachePut
        ensures put { IsPut key.now buffer.now (cache_state self.old) (cache_state self.new) result }
        ensures exact { PutsMemory key.now buffer.now self.old self.new result }
    {
        match self.script.step() {
            Outcome::Fails => match note_offered(&mut self.ended, key) {
                Ok(()) => {
                    self.faults = self.faults.saturating_add(1);
                    CachePut::Failed
                }
                Err(_) => self.fall_short(),
            },
            Outcome::Waits => CachePut::Pending,
            Outcome::Goes => match store(&mut self.entries, &mut self.ended, key, buffer) {
                Ok(()) => CachePut::Stored,
                Err(_) => self.fall_short(),
            },
        }
    }
}

fn note_missed(ended: &mut Vec<CacheEvent<SegmentKey>>, key: &SegmentKey) -> Result<(), NoMemory>
    ensures ok { OnOk result (ended.new.items ≡ ended.old.items ++ event.Missed key.now ∷ []) }
    ensures err { OnErr result (ended.new.items ≡ ended.old.items) }
{
    let key = key.try_clone()?;
    ended.push(CacheEvent::Missed(key))?;
    Ok(())
}

fn note_found(ended: &mut Vec<CacheEvent<SegmentKey>>, key: &SegmentKey) -> Result<(), NoMemory>
    ensures ok { OnOk result (ended.new.items ≡ ended.old.items ++ event.Found key.now ∷ []) }
    ensures err { OnErr result (ended.new.items ≡ ended.old.items) }
{
    let key = key.try_clone()?;
    ended.push(CacheEvent::Found(key))?;
    Ok(())
}

fn note_offered(ended: &mut Vec<CacheEvent<SegmentKey>>, key: &SegmentKey) -> Result<(), NoMemory>
    ensures ok { OnOk result (ended.new.items ≡ ended.old.items ++ event.Offered key.now ∷ []) }
    ensures err { OnErr result (ended.new.items ≡ ended.old.items) }
{
    let key = key.try_clone()?;
    ended.push(CacheEvent::Offered(key))?;
    Ok(())
}

// Looks a key up, and notes how that ended.
fn look_up(
    entries: &BTreeMap<SegmentKey, ByteBuffer>,
    ended: &mut Vec<CacheEvent<SegmentKey>>,
    key: &SegmentKey,
) -> CacheGet
    ensures { LooksUp key.now entries.now.entries ended.old.items ended.new.items result }
{
    let Some(found) = entries.get(key) else {
        return match note_missed(ended, key) {
            Ok(()) => CacheGet::Miss,
            Err(_) => CacheGet::NoMemory,
        };
    };
    let Ok(buffer) = found.try_clone() else {
        return CacheGet::NoMemory;
    };
    match note_found(ended, key) {
        Ok(()) => CacheGet::Hit(buffer),
        Err(_) => CacheGet::NoMemory,
    }
}

// Keeps the bytes of a key, and notes that they were offered.
fn store(
    entries: &mut BTreeMap<SegmentKey, ByteBuffer>,
    ended: &mut Vec<CacheEvent<SegmentKey>>,
    key: &SegmentKey,
    buffer: &ByteBuffer,
) -> Result<(), NoMemory>
    ensures ok { OnOk result (ended.new.items ≡ ended.old.items ++ event.Offered key.now ∷ []) }
    ensures entries { OnOk result (IsKept key.now buffer.now entries.old.entries entries.new.entries) }
    ensures err { OnErr result ((ended.new.items ≡ ended.old.items) × (entries.new.entries ≡ entries.old.entries)) }
{
    ended.reserve(1)?;
    let stored = key.try_clone()?;
    let offered = key.try_clone()?;
    let buffer = buffer.try_clone()?;
    match entries.insert(stored, buffer) {
        Ok(_) => {
            ended.push_reserved(CacheEvent::Offered(offered));
            Ok(())
        }
        Err(_) => Err(NoMemory),
    }
}
