// Polls of a source for what splits of its file wait for.
ghost use Rattle.std.specs.Prelude.{◌≡◌, true, OnOk, ℕ, is_some};
ghost use Rattle.scan_values.specs.Selections.{is_among};
ghost use Rattle.scan_drive.specs.Desks.{Agree, waiters_at};
ghost use Rattle.scan_drive.specs.Fetches.{BringsNearer, WaitOn};
ghost use Rattle.scan_drive.specs.Links.{Linked};
ghost use Rattle.scan_drive.specs.Sources.{SourceMoves, NoId};
ghost use Rattle.scan_drive.specs.Steps.{PollsSource};
ghost use Rattle.scan_drive.specs.Trades.{Trades};

use crate::desk::{Desk, Reply};
use crate::slot::{Slot, hand, lose};
use crate::work::SplitWork;
use scan_segments::{KeyedSegmentCache, SegmentId, SegmentKey, SegmentSource, SegmentSourceId};
use scan_values::NoMemory;
use std::alloc::Global;

/// Polls a live id, and hands over what has come. Where the source has failed, the splits that wait are given up.
fn poll_one<W: SplitWork + Drop, S: SegmentSource, C: KeyedSegmentCache>(
    alloc: Global,
    key: &SegmentKey,
    source: &mut S,
    desk: &mut Desk,
    cache: &mut C,
    slots: &mut Vec<Slot<W, W::Rows>>,
) -> Result<(), NoMemory>
    requires agree { Agree (S.state source.old).live desk.old }
    requires links { (file : ℕ) × Linked file desk.old slots.old.items }
    requires live { is_some (waiters_at desk.old key.now.segment) ≡ true }
    ensures agree { Agree (S.state source.new).live desk.new }
    ensures source { SourceMoves NoId (S.state source.old) (S.state source.new) }
    ensures trades { Trades key.now.source_id (S.state source.old) (S.state source.new)
        (C.cache cache.old) (C.cache cache.new) }
    ensures polls { OnOk result (PollsSource W.split W.comes W.items key.now.source_id (S.state source.old) (S.state source.new)
        (C.cache cache.old) (C.cache cache.new) desk.old desk.new slots.old.items slots.new.items) }
    ensures waits { OnOk result (WaitOn key.now.segment desk.old desk.new) }
    ensures nearer { OnOk result (BringsNearer W.split key.now.segment (S.state source.old) (S.state source.new)
        desk.old slots.old.items slots.new.items) }
{
    match desk.collect(alloc, key, source, cache) {
        Reply::Pending => Ok(()),
        Reply::NoMemory => Err(NoMemory),
        Reply::Came(arrival, places) => hand(slots, places.as_slice(), key.segment, &arrival),
        Reply::Failed(places) => {
            lose(slots, places.as_slice(), key.segment);
            Ok(())
        }
    }
}

/// Polls each of these ids once that is live, and hands over what has come.
fn poll_all<W: SplitWork + Drop, S: SegmentSource, C: KeyedSegmentCache>(
    alloc: Global,
    key: &mut SegmentKey,
    ids: &[SegmentId],
    source: &mut S,
    desk: &mut Desk,
    cache: &mut C,
    slots: &mut Vec<Slot<W, W::Rows>>,
) -> Result<(), NoMemory>
    requires agree { Agree (S.state source.old).live desk.old }
    requires links { (file : ℕ) × Linked file desk.old slots.old.items }
    ensures agree { Agree (S.state source.new).live desk.new }
    ensures source { SourceMoves NoId (S.state source.old) (S.state source.new) }
    ensures trades { Trades key.old.source_id (S.state source.old) (S.state source.new)
        (C.cache cache.old) (C.cache cache.new) }
    ensures polls { OnOk result (PollsSource W.split W.comes W.items key.old.source_id (S.state source.old) (S.state source.new)
        (C.cache cache.old) (C.cache cache.new) desk.old desk.new slots.old.items slots.new.items) }
    ensures nearer { OnOk result ((id : ℕ) → is_among ids.now id ≡ true →
        BringsNearer W.split id (S.state source.old) (S.state source.new) desk.old slots.old.items slots.new.items) }
{
    for id in ids {
        if !desk.is_live(*id) {
            continue;
        }
        key.segment = *id;
        poll_one(alloc, key, source, desk, cache, slots)?;
    }
    Ok(())
}

/// Polls each live id of a file once, and hands over what has come.
pub fn fetch<W: SplitWork + Drop, S: SegmentSource, C: KeyedSegmentCache>(
    alloc: Global,
    name: &SegmentSourceId,
    source: &mut S,
    desk: &mut Desk,
    cache: &mut C,
    slots: &mut Vec<Slot<W, W::Rows>>,
) -> Result<(), NoMemory>
    requires agree { Agree (S.state source.old).live desk.old }
    requires links { (file : ℕ) × Linked file desk.old slots.old.items }
    ensures agree { Agree (S.state source.new).live desk.new }
    ensures source { SourceMoves NoId (S.state source.old) (S.state source.new) }
    ensures trades { Trades name.now (S.state source.old) (S.state source.new)
        (C.cache cache.old) (C.cache cache.new) }
    ensures polls { OnOk result (PollsSource W.split W.comes W.items name.now (S.state source.old) (S.state source.new)
        (C.cache cache.old) (C.cache cache.new) desk.old desk.new slots.old.items slots.new.items) }
    ensures nearer { OnOk result ((id : ℕ) →
        BringsNearer W.split id (S.state source.old) (S.state source.new) desk.old slots.old.items slots.new.items) }
{
    let ids = desk.live(alloc)?;
    let mut key = SegmentKey {
        source_id: name.try_clone()?,
        segment: SegmentId::default(),
    };
    poll_all(alloc, &mut key, &ids, source, desk, cache, slots)
}
