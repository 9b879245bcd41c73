//! Segments of a file, by a cache or the file's source.
ghost use Rattle.std.specs.Prelude.{◌≡◌, ◌∷◌, [], None, OnOk, IfErr, true, is_some};
ghost use Rattle.std.specs.FinMap as map;
ghost use Rattle.scan_drive.specs.Desks.{Agree, waiters_at};
ghost use Rattle.scan_fetch.specs.Fetches.{point, IsApart, MayAsk, AreMet, Settles, Wants, Meets, Takes, Came, Brings, Brought, Misses};
ghost use Rattle.scan_fetch.specs.declared.fetching.Miss.{Miss};

use scan_drive::{Desk, Reply, Wanted};
use scan_segments::{KeyedSegmentCache, SegmentId, SegmentKey, SegmentSource};
use scan_splits::{Arrival, Inbox};
use scan_values::NoMemory;
use std::alloc::Global;

/// Why segments have not arrived.
#[derive(Clone, Copy, Debug, PartialEq, Eq)]
pub enum Miss {
    /// The source failed over one of them.
    Source(SegmentId),
    NoMemory,
}

/// Looks a segment up that is not live and has not arrived; where the cache has it it arrives, else it is asked for.
fn want_new<S: SegmentSource, C: KeyedSegmentCache>(
    alloc: Global,
    key: &SegmentKey,
    source: &mut S,
    desk: &mut Desk,
    cache: &mut C,
    inbox: &mut Inbox,
) -> Result<(), NoMemory>
    requires agree { Agree (S.state source.old).live desk.old }
    requires apart { IsApart (point (S.state source.old) (C.cache cache.old) desk.old inbox.old) }
    requires dead { waiters_at desk.old key.now.segment ≡ None }
    requires lacks { map.get inbox.old key.now.segment ≡ None }
    ensures wants { Wants key.now.source_id (key.now.segment ∷ [])
        (point (S.state source.old) (C.cache cache.old) desk.old inbox.old)
        (point (S.state source.new) (C.cache cache.new) desk.new inbox.new) }
    ensures meets { OnOk result (Meets key.now.source_id (key.now.segment ∷ [])
        (point (S.state source.old) (C.cache cache.old) desk.old inbox.old)
        (point (S.state source.new) (C.cache cache.new) desk.new inbox.new)) }
{
    let wanted = desk.want(alloc, key, 0, source, cache)?;
    settle(inbox, key.segment, wanted)
}

/// What the cache had of a segment arrives.
fn settle(inbox: &mut Inbox, id: SegmentId, wanted: Wanted) -> Result<(), NoMemory>
    requires { map.get inbox.old id ≡ None }
    ensures { Settles id wanted inbox.old inbox.new result }
{
    match wanted {
        Wanted::Hit(bytes) => inbox.deliver(id, Arrival::Bytes(bytes)),
        Wanted::Shared => Ok(()),
        Wanted::Asked => Ok(()),
    }
}

/// Looks a segment up; where the cache has it it arrives, else it is asked for. One that is live or has arrived is passed by.
fn want_one<S: SegmentSource, C: KeyedSegmentCache>(
    alloc: Global,
    key: &SegmentKey,
    source: &mut S,
    desk: &mut Desk,
    cache: &mut C,
    inbox: &mut Inbox,
) -> Result<(), NoMemory>
    requires agree { Agree (S.state source.old).live desk.old }
    requires apart { IsApart (point (S.state source.old) (C.cache cache.old) desk.old inbox.old) }
    ensures wants { Wants key.now.source_id (key.now.segment ∷ [])
        (point (S.state source.old) (C.cache cache.old) desk.old inbox.old)
        (point (S.state source.new) (C.cache cache.new) desk.new inbox.new) }
    ensures meets { OnOk result (Meets key.now.source_id (key.now.segment ∷ [])
        (point (S.state source.old) (C.cache cache.old) desk.old inbox.old)
        (point (S.state source.new) (C.cache cache.new) desk.new inbox.new)) }
{
    if desk.is_live(key.segment) {
        return Ok(());
    }
    if inbox.has(key.segment) {
        return Ok(());
    }
    want_new(alloc, key, source, desk, cache, inbox)
}

/// Looks each segment up; those that the cache has arrive, the others are asked for.
fn want_all<S: SegmentSource, C: KeyedSegmentCache>(
    alloc: Global,
    ids: &[SegmentId],
    key: &mut SegmentKey,
    source: &mut S,
    desk: &mut Desk,
    cache: &mut C,
    inbox: &mut Inbox,
) -> Result<(), NoMemory>
    requires agree { Agree (S.state source.old).live desk.old }
    requires apart { IsApart (point (S.state source.old) (C.cache cache.old) desk.old inbox.old) }
    ensures name { key.new.source_id ≡ key.old.source_id }
    ensures wants { Wants key.old.source_id ids.now
        (point (S.state source.old) (C.cache cache.old) desk.old inbox.old)
        (point (S.state source.new) (C.cache cache.new) desk.new inbox.new) }
    ensures meets { OnOk result (Meets key.old.source_id ids.now
        (point (S.state source.old) (C.cache cache.old) desk.old inbox.old)
        (point (S.state source.new) (C.cache cache.new) desk.new inbox.new)) }
{
    for id in ids {
        key.segment = *id;
        want_one(alloc, key, source, desk, cache, inbox)?;
    }
    Ok(())
}

/// Polls the live request of a segment to its end.
fn take_one<S: SegmentSource, C: KeyedSegmentCache>(
    alloc: Global,
    key: &SegmentKey,
    source: &mut S,
    desk: &mut Desk,
    cache: &mut C,
    inbox: &mut Inbox,
) -> Result<(), Miss>
    requires agree { Agree (S.state source.old).live desk.old }
    requires apart { IsApart (point (S.state source.old) (C.cache cache.old) desk.old inbox.old) }
    requires live { is_some (waiters_at desk.old key.now.segment) ≡ true }
    ensures takes { Takes key.now.source_id
        (point (S.state source.old) (C.cache cache.old) desk.old inbox.old)
        (point (S.state source.new) (C.cache cache.new) desk.new inbox.new) }
    ensures came { OnOk result (Came key.now.source_id (key.now.segment ∷ [])
        (point (S.state source.old) (C.cache cache.old) desk.old inbox.old)
        (point (S.state source.new) (C.cache cache.new) desk.new inbox.new)) }
    ensures misses { IfErr result (Misses (MayAsk key.now.source_id []) key.now.source_id
        (point (S.state source.old) (C.cache cache.old) desk.old inbox.old)
        (point (S.state source.new) (C.cache cache.new) desk.new inbox.new)) }
{
    'wait: loop {
        match desk.collect(alloc, key, source, cache) {
            Reply::Pending => {}
            Reply::NoMemory => return Err(Miss::NoMemory),
            Reply::Failed(_places) => return Err(Miss::Source(key.segment)),
            Reply::Came(arrival, _places) => return arrive(inbox, key.segment, arrival),
        }
    }
}

/// What came of a segment arrives.
fn arrive(inbox: &mut Inbox, id: SegmentId, arrival: Arrival) -> Result<(), Miss>
    requires { map.get inbox.old id ≡ None }
    ensures ok { OnOk result (inbox.new ≡ map.insert inbox.old id arrival) }
    ensures err { IfErr result (λ m. (m ≡ Miss.NoMemory) × (inbox.new ≡ inbox.old)) }
{
    match inbox.deliver(id, arrival) {
        Ok(()) => Ok(()),
        Err(NoMemory) => Err(Miss::NoMemory),
    }
}

/// Polls each of these segments that is live to its end.
fn take_all<S: SegmentSource, C: KeyedSegmentCache>(
    alloc: Global,
    ids: &[SegmentId],
    key: &mut SegmentKey,
    source: &mut S,
    desk: &mut Desk,
    cache: &mut C,
    inbox: &mut Inbox,
) -> Result<(), Miss>
    requires agree { Agree (S.state source.old).live desk.old }
    requires apart { IsApart (point (S.state source.old) (C.cache cache.old) desk.old inbox.old) }
    requires met { AreMet ids.now (point (S.state source.old) (C.cache cache.old) desk.old inbox.old) }
    ensures name { key.new.source_id ≡ key.old.source_id }
    ensures takes { Takes key.old.source_id
        (point (S.state source.old) (C.cache cache.old) desk.old inbox.old)
        (point (S.state source.new) (C.cache cache.new) desk.new inbox.new) }
    ensures came { OnOk result (Came key.old.source_id ids.now
        (point (S.state source.old) (C.cache cache.old) desk.old inbox.old)
        (point (S.state source.new) (C.cache cache.new) desk.new inbox.new)) }
    ensures misses { IfErr result (Misses (MayAsk key.old.source_id []) key.old.source_id
        (point (S.state source.old) (C.cache cache.old) desk.old inbox.old)
        (point (S.state source.new) (C.cache cache.new) desk.new inbox.new)) }
{
    for id in ids {
        if !desk.is_live(*id) {
            continue;
        }
        key.segment = *id;
        match take_one(alloc, key, source, desk, cache, inbox) {
            Ok(()) => {}
            Err(miss) => return Err(miss),
        }
    }
    Ok(())
}

/// Brings segments of a file: all that the cache has not are asked for before one is polled, and then each is polled to its
/// end. Those that are live are polled alone, and those that have arrived are passed by.
///
/// # Errors
/// `Source` only where the count of faults of the source rose. What is live then is dropped by `Desk::close`.
pub fn bring<S: SegmentSource, C: KeyedSegmentCache>(
    alloc: Global,
    ids: &[SegmentId],
    key: &mut SegmentKey,
    source: &mut S,
    desk: &mut Desk,
    cache: &mut C,
    inbox: &mut Inbox,
) -> Result<(), Miss>
    requires agree { Agree (S.state source.old).live desk.old }
    requires apart { IsApart (point (S.state source.old) (C.cache cache.old) desk.old inbox.old) }
    ensures name { key.new.source_id ≡ key.old.source_id }
    ensures brings { Brings key.old.source_id ids.now
        (point (S.state source.old) (C.cache cache.old) desk.old inbox.old)
        (point (S.state source.new) (C.cache cache.new) desk.new inbox.new) }
    ensures brought { OnOk result (Brought key.old.source_id ids.now
        (point (S.state source.old) (C.cache cache.old) desk.old inbox.old)
        (point (S.state source.new) (C.cache cache.new) desk.new inbox.new)) }
    ensures misses { IfErr result (Misses (MayAsk key.old.source_id ids.now) key.old.source_id
        (point (S.state source.old) (C.cache cache.old) desk.old inbox.old)
        (point (S.state source.new) (C.cache cache.new) desk.new inbox.new)) }
{
    match want_all(alloc, ids, key, source, desk, cache, inbox) {
        Ok(()) => take_all(alloc, ids, key, source, desk, cache, inbox),
        Err(NoMemory) => Err(Miss::NoMemory),
    }
}
