//! How often keys were looked up, and the order in which the entries of a bounded cache go for it.
//!
//! An entry's place in the order is how often its key was looked up, and when it last came to the front. Of the front
//! entry the place is made before the next call counts on it. A place that no entry has any more is passed by and
//! dropped once it is the first.
ghost use Rattle.std.specs.Prelude.{◌≡◌, ◌⊎◌, ◌<◌, ◌≤◌, ◌+◌, ◌-◌, ℕ, true, take, length, slice_get, is_some, option_map, Some, None, IfOk, OnOk, OnErr, MatchOption};
ghost use Rattle.std.specs.BTreeMap.{btree_map_len, Updates};
ghost use Rattle.std.specs.Map.{lookup, remove_entry};
ghost use Rattle.lru.specs.LruCache.{lru_cache, promoted, put_entries};
ghost use Rattle.scan_segments.specs.Keys.{same_key};
ghost use Rattle.scan_caches.specs.Bounded.{count_of as uses_of, used, weight, trimmed, is_least as is_least_of};
ghost use Rattle.scan_caches.specs.UseOrder.{plain, place, place_cmp, Falls, Indexed, behind, is_place as is_place_of, forgotten as forgotten_of};

use lru::LruCache;
use scan_segments::{ByteBuffer, SegmentKey};
use scan_values::NoMemory;
use std::collections::BTreeMap;
use std::hash::BuildHasher;

/// A segment that a cache holds, and when it last came to the front.
#[derive(Drop)]
pub(crate) struct Held {
    pub(crate) bytes: ByteBuffer,
    pub(crate) tick: u64,
}

// How often a key was looked up.
fn count_of<S: BuildHasher>(uses: &LruCache<SegmentKey, u64, S>, key: &SegmentKey) -> u64
    ensures { result ≡ uses_of uses.now.entries key.now }
{
    match uses.peek(key) {
        Some(count) => *count,
        None => 0,
    }
}

// Adds one to the count of a key that is remembered, which becomes the last key looked up. Answers what the count was.
fn count_again<S: BuildHasher>(
    uses: &mut LruCache<SegmentKey, u64, S>,
    key: &SegmentKey,
) -> Option<u64>
    ensures count { result ≡ lookup (same_key key.now) uses.old.entries }
    ensures uses { MatchOption result (uses.new ≡ uses.old)
        (λ _. uses.new ≡ lru_cache (used uses.old.cap key.now uses.old.entries) uses.old.cap) }
{
    let count = uses.get_mut(key)?;
    let before = *count;
    *count = before.saturating_add(1);
    Some(before)
}

// Counts the first use of a key that is not remembered, which becomes the last key looked up.
fn count_first<S: BuildHasher>(
    uses: &mut LruCache<SegmentKey, u64, S>,
    key: &SegmentKey,
) -> Result<(), NoMemory>
    requires { lookup (same_key key.now) uses.old.entries ≡ None }
    ensures ok { OnOk result (uses.new ≡ lru_cache (used uses.old.cap key.now uses.old.entries) uses.old.cap) }
    ensures err { OnErr result (uses.new ≡ uses.old) }
{
    let key = key.try_clone()?;
    match uses.put(key, 1) {
        Ok(_) => Ok(()),
        Err(_) => Err(NoMemory),
    }
}

// Whether a key is that of an entry at this place.
fn is_place<S: BuildHasher>(
    pairs: &LruCache<SegmentKey, Held, S>,
    uses: &LruCache<SegmentKey, u64, S>,
    place: (u64, u64),
    key: &SegmentKey,
) -> bool
    ensures { result ≡ is_place_of uses.now.entries pairs.now.entries place key.now }
{
    match pairs.peek(key) {
        Some(held) => held.tick == place.1 && count_of(uses, key) == place.0,
        None => false,
    }
}

/// Makes the place of the front entry, where it is still to be made.
pub(crate) fn place_front<S: BuildHasher>(
    pairs: &LruCache<SegmentKey, Held, S>,
    uses: &LruCache<SegmentKey, u64, S>,
    order: &mut BTreeMap<(u64, u64), SegmentKey>,
    fresh: bool,
) -> Result<(), NoMemory>
    requires fall { (n : ℕ) × Falls n pairs.now.entries }
    requires behind { Indexed uses.now.entries order.old (behind fresh pairs.now.entries) }
    ensures ok { OnOk result (Indexed uses.now.entries order.new pairs.now.entries) }
    ensures err { OnErr result (Indexed uses.now.entries order.new (behind fresh pairs.now.entries)) }
{
    if !fresh {
        return Ok(());
    }
    let Some((key, held)) = pairs.peek_mru() else {
        return Ok(());
    };
    let place = (count_of(uses, key), held.tick);
    match order.insert(place, key.try_clone()?) {
        Ok(_) => Ok(()),
        Err(_) => Err(NoMemory),
    }
}

/// The place of a key's entry.
pub(crate) fn place_of<S: BuildHasher>(
    pairs: &LruCache<SegmentKey, Held, S>,
    uses: &LruCache<SegmentKey, u64, S>,
    key: &SegmentKey,
) -> Option<(u64, u64)>
    ensures { result ≡ option_map (λ h. place uses.now.entries (key.now, h))
        (lookup (same_key key.now) pairs.now.entries) }
{
    match pairs.peek(key) {
        Some(held) => Some((count_of(uses, key), held.tick)),
        None => None,
    }
}

// The key whose count is forgotten where the first use of a key is counted.
fn forgotten<'a, S: BuildHasher>(
    uses: &'a LruCache<SegmentKey, u64, S>,
    key: &SegmentKey,
) -> Option<&'a SegmentKey>
    requires { lookup (same_key key.now) uses.now.entries ≡ None }
    ensures { option_map (λ k. k.now) result ≡ forgotten_of uses.now.cap key.now uses.now.entries }
{
    if uses.len() < uses.cap().get() {
        return None;
    }
    match uses.peek_lru() {
        Some((key, _)) => Some(key),
        None => None,
    }
}

// Makes the place that an entry has once its count is forgotten, and answers that which it had.
fn place_forgotten<S: BuildHasher>(
    pairs: &LruCache<SegmentKey, Held, S>,
    uses: &LruCache<SegmentKey, u64, S>,
    order: &mut BTreeMap<(u64, u64), SegmentKey>,
    key: &SegmentKey,
) -> Result<Option<(u64, u64)>, NoMemory>
    requires fall { (n : ℕ) × Falls n pairs.now.entries }
    requires first { lookup (same_key key.now) uses.now.entries ≡ None }
    requires indexed { Indexed uses.now.entries order.old pairs.now.entries }
    ensures kept { Indexed uses.now.entries order.new pairs.now.entries }
    ensures counted { OnOk result (Indexed (used uses.now.cap key.now uses.now.entries) order.new
        (remove_entry (same_key key.now) pairs.now.entries)) }
{
    let _len = pairs.len();
    let _count = uses.len();
    let Some(lost) = forgotten(uses, key) else {
        return Ok(None);
    };
    let Some(held) = pairs.peek(lost) else {
        return Ok(None);
    };
    match order.insert((0, held.tick), lost.try_clone()?) {
        Ok(_) => Ok(Some((count_of(uses, lost), held.tick))),
        Err(_) => Err(NoMemory),
    }
}

/// Drops the place that a key's entry had, where it had one.
pub(crate) fn drop_own(order: &mut BTreeMap<(u64, u64), SegmentKey>, place: Option<(u64, u64)>)
    ensures { MatchOption place (order.new ≡ order.old) (λ p. Updates place_cmp order.old order.new p None) }
{
    if let Some(place) = place {
        order.remove(&place);
    }
}

/// Drops a place that no entry has.
pub(crate) fn drop_place<S: BuildHasher>(
    pairs: &LruCache<SegmentKey, Held, S>,
    uses: &LruCache<SegmentKey, u64, S>,
    order: &mut BTreeMap<(u64, u64), SegmentKey>,
    fresh: bool,
    place: Option<(u64, u64)>,
)
    requires { Indexed uses.now.entries order.old (behind fresh pairs.now.entries) }
    ensures { Indexed uses.now.entries order.new (behind fresh pairs.now.entries) }
{
    let _len = pairs.len();
    let Some(place) = place else {
        return;
    };
    let Some(key) = order.get(&place) else {
        return;
    };
    if is_place(pairs, uses, place, key) {
        return;
    }
    order.remove(&place);
}

// Counts a use of a key. Answers how often it was looked up before, and the place that then is no entry's. The place of
// the key's own entry is not made.
fn count_at<S: BuildHasher>(
    pairs: &LruCache<SegmentKey, Held, S>,
    uses: &mut LruCache<SegmentKey, u64, S>,
    order: &mut BTreeMap<(u64, u64), SegmentKey>,
    key: &SegmentKey,
) -> Result<(u64, Option<(u64, u64)>), NoMemory>
    requires fall { (n : ℕ) × Falls n pairs.now.entries }
    requires indexed { Indexed uses.old.entries order.old pairs.now.entries }
    ensures before { IfOk result (λ r. r.0 ≡ uses_of uses.old.entries key.now) }
    ensures uses { OnOk result (uses.new ≡ lru_cache (used uses.old.cap key.now uses.old.entries) uses.old.cap) }
    ensures indexed { OnOk result
        (Indexed uses.new.entries order.new (remove_entry (same_key key.now) pairs.now.entries)) }
    ensures err { OnErr result ((uses.new ≡ uses.old) × Indexed uses.old.entries order.new pairs.now.entries) }
{
    let _len = pairs.len();
    let _count = uses.len();
    if let Some(count) = count_again(uses, key) {
        return Ok((count, None));
    }
    let stale = place_forgotten(pairs, uses, order, key)?;
    count_first(uses, key)?;
    Ok((0, stale))
}

// Brings an entry to the front, as this one.
fn bring_front<S: BuildHasher>(
    pairs: &mut LruCache<SegmentKey, Held, S>,
    key: SegmentKey,
    held: Held,
)
    requires { is_some (lookup (same_key key) pairs.old.entries) ≡ true }
    ensures { pairs.new ≡ lru_cache (put_entries same_key pairs.old key held) pairs.old.cap }
{
    match pairs.put(key, held) {
        Ok(_) => {}
        Err(_) => unreachable!(),
    }
}

/// Counts a use of a key. Its entry comes to the front at this time, and its bytes are given.
pub(crate) fn use_key<S: BuildHasher>(
    pairs: &mut LruCache<SegmentKey, Held, S>,
    uses: &mut LruCache<SegmentKey, u64, S>,
    order: &mut BTreeMap<(u64, u64), SegmentKey>,
    key: &SegmentKey,
    tick: u64,
) -> Result<Option<ByteBuffer>, NoMemory>
    requires fall { Falls tick pairs.old.entries }
    requires indexed { Indexed uses.old.entries order.old pairs.old.entries }
    ensures value { IfOk result (λ b. b ≡ lookup (same_key key.now) (plain pairs.old.entries)) }
    ensures pairs { OnOk result
        (plain pairs.new.entries ≡ promoted (same_key key.now) (plain pairs.old.entries)) }
    ensures cap { pairs.new.cap ≡ pairs.old.cap }
    ensures uses { OnOk result (uses.new ≡ lru_cache (used uses.old.cap key.now uses.old.entries) uses.old.cap) }
    ensures fall { OnOk result (Falls (tick + 1) pairs.new.entries) }
    ensures indexed { IfOk result (λ b. Indexed uses.new.entries order.new (behind (is_some b) pairs.new.entries)) }
    ensures err { OnErr result ((pairs.new ≡ pairs.old) × (uses.new ≡ uses.old)
        × Indexed uses.old.entries order.new pairs.old.entries) }
{
    let Some(held) = pairs.peek(key) else {
        let (_, stale) = count_at(pairs, uses, order, key)?;
        drop_place(pairs, uses, order, false, stale);
        return Ok(None);
    };
    let bytes = held.bytes.try_clone()?;
    let again = Held {
        bytes: held.bytes.try_clone()?,
        tick,
    };
    let own = key.try_clone()?;
    let last = held.tick;
    let (count, stale) = count_at(pairs, uses, order, key)?;
    order.remove(&(count, last));
    bring_front(pairs, own, again);
    drop_place(pairs, uses, order, true, stale);
    Ok(Some(bytes))
}

/// Whether no entry was looked up less often than this key.
pub(crate) fn is_least<S: BuildHasher>(
    pairs: &LruCache<SegmentKey, Held, S>,
    uses: &LruCache<SegmentKey, u64, S>,
    order: &mut BTreeMap<(u64, u64), SegmentKey>,
    key: &SegmentKey,
) -> bool
    requires { Indexed uses.now.entries order.old pairs.now.entries }
    ensures least { result ≡ is_least_of uses.now.entries key.now (plain pairs.now.entries) }
    ensures indexed { Indexed uses.now.entries order.new pairs.now.entries }
{
    let _len = pairs.len();
    while let Some((place, other)) = order.first_key_value() {
        let place = *place;
        if is_place(pairs, uses, place, other) {
            return count_of(uses, key) <= place.0;
        }
        order.remove(&place);
    }
    true
}

// Drops the first place, and its entry where there is one that came to the front before this time. Answers what the entry
// weighs.
fn drop_first<S: BuildHasher>(
    pairs: &mut LruCache<SegmentKey, Held, S>,
    uses: &LruCache<SegmentKey, u64, S>,
    order: &mut BTreeMap<(u64, u64), SegmentKey>,
    newest: u64,
) -> u64
    requires front { option_map (λ e. e.1.tick) (slice_get pairs.old.entries 0) ≡ Some newest }
    requires fall { (n : ℕ) × Falls n pairs.old.entries }
    requires indexed { Indexed uses.now.entries order.old (behind true pairs.old.entries) }
    requires some { 1 < length pairs.old.entries }
    ensures front { slice_get pairs.new.entries 0 ≡ slice_get pairs.old.entries 0 }
    ensures cap { pairs.new.cap ≡ pairs.old.cap }
    ensures fall { (n : ℕ) × Falls n pairs.new.entries }
    ensures indexed { Indexed uses.now.entries order.new (behind true pairs.new.entries) }
    ensures weight { result + weight (plain pairs.new.entries) ≡ weight (plain pairs.old.entries) }
    ensures trimmed { (c n : ℕ) →
        (c < weight (plain (behind true pairs.old.entries))) ⊎ (n < length (plain (behind true pairs.old.entries))) →
        trimmed uses.now.entries c n (plain (behind true pairs.new.entries))
        ≡ trimmed uses.now.entries c n (plain (behind true pairs.old.entries)) }
    ensures fewer { btree_map_len order.new < btree_map_len order.old }
{
    let _len = pairs.len();
    let Some((place, key)) = order.pop_first() else {
        unreachable!();
    };
    if place.1 >= newest {
        return 0;
    }
    if !is_place(pairs, uses, place, &key) {
        return 0;
    }
    match pairs.pop(&key) {
        Some(held) => held.bytes.as_slice().len() as u64,
        None => unreachable!(),
    }
}

/// Drops the entries behind the front one that were looked up least often until weight and number fit, and answers the
/// weight that is left.
pub(crate) fn evict_used<S: BuildHasher>(
    pairs: &mut LruCache<SegmentKey, Held, S>,
    uses: &LruCache<SegmentKey, u64, S>,
    order: &mut BTreeMap<(u64, u64), SegmentKey>,
    capacity: u64,
    max_entries: usize,
    newest: u64,
    mut total: u128,
) -> u64
    requires front { option_map (λ e. e.1.tick) (slice_get pairs.old.entries 0) ≡ Some newest }
    requires fall { (n : ℕ) × Falls n pairs.old.entries }
    requires indexed { Indexed uses.now.entries order.old (behind true pairs.old.entries) }
    requires total { total ≡ weight (plain pairs.old.entries) }
    requires fits { (weight (take 1 (plain pairs.old.entries)) ≤ capacity) × (0 < max_entries) }
    ensures front { slice_get pairs.new.entries 0 ≡ slice_get pairs.old.entries 0 }
    ensures cap { pairs.new.cap ≡ pairs.old.cap }
    ensures fall { (n : ℕ) × Falls n pairs.new.entries }
    ensures indexed { Indexed uses.now.entries order.new (behind true pairs.new.entries) }
    ensures weight { (result ≡ weight (plain pairs.new.entries)) × (result ≤ capacity) }
    ensures count { length pairs.new.entries ≤ max_entries }
    ensures trimmed { plain (behind true pairs.new.entries) ≡ trimmed uses.now.entries
        (capacity - weight (take 1 (plain pairs.old.entries))) (max_entries - 1) (plain (behind true pairs.old.entries)) }
{
    while total > u128::from(capacity) || pairs.len() > max_entries {
        total -= u128::from(drop_first(pairs, uses, order, newest));
    }
    total as u64
}
