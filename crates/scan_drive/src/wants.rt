// What splits want: each want is looked up in the cache, and what is not there waits at the desk of the file.
ghost use Rattle.std.specs.Prelude.{◌≡◌, [], ◌∷◌, true, false, Some, OnOk, IfOk, ℕ, length};
ghost use Rattle.scan_splits.specs.Wanted.{no_repeats};
ghost use Rattle.scan_values.specs.Selections.{is_among};
ghost use Rattle.scan_drive.specs.Asks.{WantsOne, WaitsThere, EachLinkedBut, IsWantedBy};
ghost use Rattle.scan_drive.specs.Desks.{Agree, waits};
ghost use Rattle.scan_drive.specs.Drives.{DesksAgree, SourcesMove, EachLinked, FilesWithin};
ghost use Rattle.scan_drive.specs.Ledger.{KeepsReport};
ghost use Rattle.scan_drive.specs.Links.{Among};
ghost use Rattle.scan_drive.specs.Looks.{WaitsForAll};
ghost use Rattle.scan_drive.specs.Slots.{slot_at, stage_waits, wanted_in};
ghost use Rattle.scan_drive.specs.Sources.{SourceMoves};
ghost use Rattle.scan_drive.specs.Steps.{WantsAll, WantsSlots};
ghost use Rattle.scan_drive.specs.Trades.{Trades, FilesTrade};
ghost use Rattle.scan_drive.specs.Wants.{OnlyLoses};

use crate::cached::Wanted;
use crate::desk::Desk;
use crate::files::ScanFile;
use crate::report::ScanReport;
use crate::slot::{Slot, Stage, hand_one};
use crate::work::SplitWork;
use scan_segments::{KeyedSegmentCache, SegmentId, SegmentKey, SegmentSource, SegmentSourceId};
use scan_splits::Arrival;
use scan_values::NoMemory;
use std::alloc::Global;
use std::collections::VecDeque;

/// Wants a segment for the split in a slot. What the cache has is handed to it at once.
fn want_one<W: Drop, R: Drop, S: SegmentSource, C: KeyedSegmentCache>(
    alloc: Global,
    key: &SegmentKey,
    place: usize,
    source: &mut S,
    desk: &mut Desk,
    cache: &mut C,
    slot: &mut Slot<W, R>,
    report: &mut ScanReport,
) -> Result<(), NoMemory>
    requires agree { Agree (S.state source.old).live desk.old }
    requires new { waits desk.old key.now.segment place ≡ false }
    requires takes { stage_waits slot.old.stage key.now.segment ≡ true }
    ensures agree { Agree (S.state source.new).live desk.new }
    ensures source { SourceMoves (Among (key.now.segment ∷ [])) (S.state source.old) (S.state source.new) }
    ensures trades { Trades key.now.source_id (S.state source.old) (S.state source.new)
        (C.cache cache.old) (C.cache cache.new) }
    ensures balance { OnOk result (KeepsReport key.now.source_id (S.state source.old) (S.state source.new)
        (C.cache cache.old) (C.cache cache.new) report.old report.new) }
    ensures loses { OnOk result (OnlyLoses (C.cache cache.old) (C.cache cache.new)) }
    ensures wants { OnOk result (WantsOne key.now place (C.cache cache.old) slot.old slot.new desk.old desk.new) }
{
    let wanted = desk.want(alloc, key, place, source, cache)?;
    report.count(&wanted);
    match wanted {
        Wanted::Hit(bytes) => {
            hand_one(slot, key.segment, &Arrival::Bytes(bytes))?;
            Ok(())
        }
        Wanted::Shared => Ok(()),
        Wanted::Asked => Ok(()),
    }
}

/// Wants each of these segments for the split in a slot.
fn want_all<W: SplitWork + Drop, S: SegmentSource, C: KeyedSegmentCache>(
    alloc: Global,
    key: &mut SegmentKey,
    ids: &[SegmentId],
    place: usize,
    source: &mut S,
    desk: &mut Desk,
    cache: &mut C,
    slot: &mut Slot<W, W::Rows>,
    report: &mut ScanReport,
) -> Result<(), NoMemory>
    requires agree { Agree (S.state source.old).live desk.old }
    requires new { (id : ℕ) → waits desk.old id place ≡ false }
    requires distinct { no_repeats ids.now ≡ true }
    requires takes { (id : ℕ) → stage_waits slot.old.stage id ≡ is_among ids.now id }
    ensures agree { Agree (S.state source.new).live desk.new }
    ensures source { SourceMoves (Among ids.now) (S.state source.old) (S.state source.new) }
    ensures trades { Trades key.old.source_id (S.state source.old) (S.state source.new)
        (C.cache cache.old) (C.cache cache.new) }
    ensures wants { OnOk result (WantsAll W.split W.comes W.items key.old.source_id (S.state source.old) (S.state source.new)
        (C.cache cache.old) (C.cache cache.new) report.old report.new slot.old slot.new) }
    ensures there { OnOk result (WaitsThere place slot.new desk.old desk.new) }
{
    for id in ids {
        key.segment = *id;
        want_one(alloc, key, place, source, desk, cache, slot, report)?;
    }
    Ok(())
}

/// The ids that the split in a slot wants.
fn wanted_of<W: Drop, R: Drop>(alloc: Global, slot: &Slot<W, R>) -> Result<Vec<SegmentId>, NoMemory>
    ensures ids { IfOk result (λ ids. ids.items ≡ wanted_in slot.now.stage) }
    ensures distinct { no_repeats (wanted_in slot.now.stage) ≡ true }
{
    match &slot.stage {
        Stage::Reads(run) => Ok(Vec::from_slice(alloc, run.wanted())?),
        Stage::Empty | Stage::Read(_) | Stage::Halted(_, _) => Ok(Vec::new(alloc)),
    }
}

/// Wants all that the split in a slot wants of the source of this name.
fn want_slot<W: SplitWork + Drop, S: SegmentSource, C: KeyedSegmentCache>(
    alloc: Global,
    name: &SegmentSourceId,
    place: usize,
    source: &mut S,
    desk: &mut Desk,
    cache: &mut C,
    slot: &mut Slot<W, W::Rows>,
    report: &mut ScanReport,
) -> Result<(), NoMemory>
    requires agree { Agree (S.state source.old).live desk.old }
    requires new { (id : ℕ) → waits desk.old id place ≡ false }
    requires waiting { WaitsForAll slot.old }
    ensures agree { Agree (S.state source.new).live desk.new }
    ensures source { SourceMoves (Among (wanted_in slot.old.stage)) (S.state source.old) (S.state source.new) }
    ensures trades { Trades name.now (S.state source.old) (S.state source.new)
        (C.cache cache.old) (C.cache cache.new) }
    ensures wants { OnOk result (WantsAll W.split W.comes W.items name.now (S.state source.old) (S.state source.new)
        (C.cache cache.old) (C.cache cache.new) report.old report.new slot.old slot.new) }
    ensures there { OnOk result (WaitsThere place slot.new desk.old desk.new) }
{
    let ids = wanted_of(alloc, slot)?;
    let mut key = SegmentKey {
        source_id: name.try_clone()?,
        segment: SegmentId::default(),
    };
    want_all(
        alloc, &mut key, &ids, place, source, desk, cache, slot, report,
    )?;
    Ok(())
}

/// Wants all that the splits at these places want, one after the other, each of the source of its file.
pub fn want_slots<W: SplitWork + Drop, O: Drop, S: SegmentSource + Drop, C: KeyedSegmentCache>(
    alloc: Global,
    asking: &mut VecDeque<usize>,
    files: &mut Vec<ScanFile<O, S>>,
    desks: &mut Vec<Desk>,
    cache: &mut C,
    slots: &mut Vec<Slot<W, W::Rows>>,
    report: &mut ScanReport,
) -> Result<(), NoMemory>
    requires agree { DesksAgree S.state files.old.items desks.old.items }
    requires within { FilesWithin (length files.old.items) slots.old.items }
    requires once { no_repeats asking.old.items ≡ true }
    requires links { EachLinkedBut asking.old.items desks.old.items slots.old.items }
    requires waiting { (place : ℕ) → is_among asking.old.items place ≡ true →
        WaitsForAll (slot_at slots.old.items place) }
    ensures agree { DesksAgree S.state files.new.items desks.new.items }
    ensures sources { SourcesMove S.state (IsWantedBy asking.old.items slots.old.items)
        files.old.items files.new.items }
    ensures trades { FilesTrade S.state files.old.items files.new.items (C.cache cache.old) (C.cache cache.new) }
    ensures wants { OnOk result (WantsSlots S.state W.split W.comes W.items files.old.items files.new.items
        (C.cache cache.old) (C.cache cache.new) report.old report.new slots.old.items slots.new.items) }
    ensures links { OnOk result (EachLinked desks.new.items slots.new.items) }
{
    'asking: while let Some(place) = asking.pop_front() {
        let k = slots[place].file;
        let file = &mut files[k];
        let desk = &mut desks[k];
        let slot = &mut slots[place];
        want_slot(
            alloc,
            &file.source_id,
            place,
            &mut file.source,
            desk,
            cache,
            slot,
            report,
        )?;
    }
    Ok(())
}
