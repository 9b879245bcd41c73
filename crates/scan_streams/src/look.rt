// Polls of splits, and of the source for what they want.
ghost use Rattle.std.specs.Prelude.{◌≡◌, ◌<◌, ◌≤◌, ◌+◌, [], true, false, IfOk, OnOk, OnErr, IfErr, Option, List, ℕ, is_some, length};
ghost use Rattle.scan_splits.specs.Wanted.{no_repeats};
ghost use Rattle.scan_segments.specs.Source.{Store};
ghost use Rattle.scan_streams.specs.Desks.{Agree, waits, waiters_at, live_ids};
ghost use Rattle.scan_streams.specs.Looks.{Halts, MayAsk, LooksAt, HaltsAt, Looked, Among, Asked, EachGoes, PolledOne, Fetched};
ghost use Rattle.scan_streams.specs.Measures.{slots_steps};
ghost use Rattle.scan_streams.specs.Readings.{Linked, ListsDone};
ghost use Rattle.scan_streams.specs.Slots.{slot_at, slot_split, wanted_in, HasNews};
ghost use Rattle.scan_streams.specs.Sources.{SourceMoves, NoId};

use crate::desk::{Desk, Reply};
use crate::fault::Halt;
use crate::run::RunPoll;
use crate::slot::{Slot, hand, list_if};
use scan_segments::{SegmentId, SegmentSource};
use scan_values::NoMemory;
use std::alloc::Global;
use std::collections::VecDeque;

/// What a look at a slot has found.
#[derive(Clone, Copy, Debug, PartialEq, Eq)]
pub(crate) enum Found {
    /// No split that waits for nothing.
    Nothing,
    /// A split that is read now.
    Done,
    /// A split that waits for other segments now.
    Waits,
}

/// Polls the split in a slot, unless it waits for something.
fn poll_slot(alloc: Global, slot: &mut Slot) -> Result<Found, Halt>
    ensures looks { IfOk result (λ l. LooksAt slot.old slot.new l) }
    ensures halts { IfErr result (λ h. HaltsAt slot.old h) }
{
    let Slot::Run(run) = slot else {
        return Ok(Found::Nothing);
    };
    if !run.is_ready() {
        return Ok(Found::Nothing);
    }
    match run.poll(alloc) {
        RunPoll::Ready(array) => {
            *slot = Slot::Done(array);
            Ok(Found::Done)
        }
        RunPoll::Waits => Ok(Found::Waits),
        RunPoll::Corrupt(id) => Err(Halt::Corrupt(id)),
        RunPoll::Overflow => Err(Halt::Overflow),
        RunPoll::NoMemory => Err(Halt::NoMemory),
    }
}

/// A place waits for each of these ids, which are asked of the source unless they are live.
fn ask_all<S: SegmentSource>(
    alloc: Global,
    source: &mut S,
    desk: &mut Desk,
    ids: &[SegmentId],
    place: usize,
) -> Result<(), NoMemory>
    requires agree { Agree (S.state source.old).live desk.old }
    requires new { (id : ℕ) → waits desk.old id place ≡ false }
    requires distinct { no_repeats ids.now ≡ true }
    ensures agree { Agree (S.state source.new).live desk.new }
    ensures source { SourceMoves (Among ids.now) (S.state source.old) (S.state source.new) }
    ensures asked { OnOk result (Asked ids.now place desk.old desk.new) }
{
    for id in ids {
        desk.ask(alloc, *id, place, source)?;
    }
    Ok(())
}

/// Asks for all that the split in a slot wants.
fn ask_slot<S: SegmentSource>(
    alloc: Global,
    source: &mut S,
    desk: &mut Desk,
    slot: &Slot,
    place: usize,
) -> Result<(), NoMemory>
    requires agree { Agree (S.state source.old).live desk.old }
    requires new { (id : ℕ) → waits desk.old id place ≡ false }
    ensures agree { Agree (S.state source.new).live desk.new }
    ensures source { SourceMoves (Among (wanted_in slot.now)) (S.state source.old) (S.state source.new) }
    ensures asked { OnOk result (Asked (wanted_in slot.now) place desk.old desk.new) }
{
    match slot {
        Slot::Run(run) => ask_all(alloc, source, desk, run.wanted(), place),
        Slot::Empty | Slot::Done(_) => Ok(()),
    }
}

/// Polls the split in a slot that has news, and asks for what it wants now.
pub(crate) fn look<S: SegmentSource>(
    alloc: Global,
    source: &mut S,
    slots: &mut Vec<Slot>,
    done: &mut VecDeque<usize>,
    desk: &mut Desk,
    ordered: bool,
    place: usize,
) -> Result<(), Halt>
    requires agree { Agree (S.state source.old).live desk.old }
    requires links { Linked desk.old slots.old.items }
    requires done { ListsDone ordered slots.old.items done.old.items }
    ensures agree { Agree (S.state source.new).live desk.new }
    ensures source { SourceMoves (MayAsk (S.state source.old).holds (slot_split (slot_at slots.old.items place)))
        (S.state source.old) (S.state source.new) }
    ensures looked { OnOk result (Looked (S.state source.old).holds place slots.old.items slots.new.items) }
    ensures links { OnOk result (Linked desk.new slots.new.items) }
    ensures done { OnOk result (ListsDone ordered slots.new.items done.new.items) }
    ensures steps { OnOk result (slots_steps slots.new.items + length done.new.items
        ≤ slots_steps slots.old.items + length done.old.items) }
    ensures halts { IfErr result (λ h. Halts (S.state source.old) (S.state source.new)
        (slot_split (slot_at slots.old.items place)) h) }
{
    if place >= slots.len() {
        return Ok(());
    }
    match poll_slot(alloc, &mut slots[place]) {
        Ok(Found::Nothing) => Ok(()),
        Ok(Found::Waits) => match ask_slot(alloc, source, desk, &slots[place], place) {
            Ok(()) => Ok(()),
            Err(_) => Err(Halt::NoMemory),
        },
        Ok(Found::Done) => match list_if(!ordered, place, done) {
            Ok(()) => Ok(()),
            Err(_) => Err(Halt::NoMemory),
        },
        Err(halt) => Err(halt),
    }
}

/// Polls each live id once, and hands over what has come. It answers whether something has.
pub(crate) fn fetch<S: SegmentSource>(
    alloc: Global,
    source: &mut S,
    slots: &mut Vec<Slot>,
    news: &mut VecDeque<usize>,
    desk: &mut Desk,
) -> Result<bool, Halt>
    requires agree { Agree (S.state source.old).live desk.old }
    requires links { Linked desk.old slots.old.items }
    ensures agree { Agree (S.state source.new).live desk.new }
    ensures source { SourceMoves NoId (S.state source.old) (S.state source.new) }
    ensures goes { OnOk result (EachGoes (S.state source.old).holds slots.old.items slots.new.items) }
    ensures links { OnOk result (Linked desk.new slots.new.items) }
    ensures news { OnOk result (HasNews slots.old.items news.old.items → HasNews slots.new.items news.new.items) }
    ensures fetched { IfOk result (λ came. Fetched came slots.old.items slots.new.items news.old.items news.new.items
        desk.old (S.state source.old) (S.state source.new)) }
    ensures halts { IfErr result (λ h. Halts (S.state source.old) (S.state source.new) [] h) }
{
    match desk.live(alloc) {
        Ok(ids) => poll_all(alloc, source, slots, news, desk, ids.as_slice()),
        Err(_) => Err(Halt::NoMemory),
    }
}

/// Polls each of these ids once that is live, and hands over what has come. It answers whether something has.
fn poll_all<S: SegmentSource>(
    alloc: Global,
    source: &mut S,
    slots: &mut Vec<Slot>,
    news: &mut VecDeque<usize>,
    desk: &mut Desk,
    ids: &[SegmentId],
) -> Result<bool, Halt>
    requires agree { Agree (S.state source.old).live desk.old }
    requires links { Linked desk.old slots.old.items }
    requires ids { ids.now ≡ live_ids desk.old }
    ensures agree { Agree (S.state source.new).live desk.new }
    ensures source { SourceMoves NoId (S.state source.old) (S.state source.new) }
    ensures goes { OnOk result (EachGoes (S.state source.old).holds slots.old.items slots.new.items) }
    ensures links { OnOk result (Linked desk.new slots.new.items) }
    ensures news { OnOk result (HasNews slots.old.items news.old.items → HasNews slots.new.items news.new.items) }
    ensures fetched { IfOk result (λ came. Fetched came slots.old.items slots.new.items news.old.items news.new.items
        desk.old (S.state source.old) (S.state source.new)) }
    ensures halts { IfErr result (λ h. Halts (S.state source.old) (S.state source.new) [] h) }
{
    let mut came = false;
    for id in ids {
        if !desk.is_live(*id) {
            continue;
        }
        match poll_one(alloc, source, slots, news, desk, *id) {
            Ok(one) => came = came | one,
            Err(halt) => return Err(halt),
        }
    }
    Ok(came)
}

/// Polls a live id, and hands over what has come. It answers whether something has.
fn poll_one<S: SegmentSource>(
    alloc: Global,
    source: &mut S,
    slots: &mut Vec<Slot>,
    news: &mut VecDeque<usize>,
    desk: &mut Desk,
    id: SegmentId,
) -> Result<bool, Halt>
    requires agree { Agree (S.state source.old).live desk.old }
    requires links { Linked desk.old slots.old.items }
    requires live { is_some (waiters_at desk.old id) ≡ true }
    ensures agree { Agree (S.state source.new).live desk.new }
    ensures source { SourceMoves NoId (S.state source.old) (S.state source.new) }
    ensures goes { OnOk result (EachGoes (S.state source.old).holds slots.old.items slots.new.items) }
    ensures links { OnOk result (Linked desk.new slots.new.items) }
    ensures news { OnOk result (HasNews slots.old.items news.old.items → HasNews slots.new.items news.new.items) }
    ensures polled { IfOk result (λ came. PolledOne came id slots.old.items slots.new.items news.old.items news.new.items
        desk.old desk.new (S.state source.old) (S.state source.new)) }
    ensures halts { IfErr result (λ h. Halts (S.state source.old) (S.state source.new) [] h) }
{
    match desk.poll(alloc, id, source) {
        Reply::Pending => Ok(false),
        Reply::Failed => Err(Halt::Source(id)),
        Reply::NoMemory => Err(Halt::NoMemory),
        Reply::Came(arrival, places) => {
            match hand(slots, places.as_slice(), id, &arrival, news) {
                Ok(()) => Ok(true),
                Err(_) => Err(Halt::NoMemory),
            }
        }
    }
}
