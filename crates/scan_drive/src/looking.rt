// Polls of the splits that are read.
ghost use Rattle.std.specs.Prelude.{◌≡◌};
ghost use Rattle.scan_segments.specs.Source.{Store};
ghost use Rattle.scan_drive.specs.Files.{Item, Part};
ghost use Rattle.scan_drive.specs.Looks.{Looks, is_wait};
ghost use Rattle.scan_drive.specs.Slots.{SlotKeeps, given_up};
ghost use Rattle.scan_drive.specs.declared.looking.Found.TheVariants as found;

use crate::run::RunPoll;
use crate::slot::{Halt, Slot, Stage, give_up};
use crate::work::SplitWork;
use scan_segments::SegmentId;
use std::alloc::Global;

/// What a look at a slot has found.
#[derive(Clone, Copy, Debug, PartialEq, Eq)]
pub enum Found {
    /// No split that waits for nothing.
    Nothing,
    /// A split that is read now, or given up.
    Done,
    /// A split that waits for other segments now.
    Waits,
}

/// Gives up the split in a slot.
fn given_up<W: Drop, R: Drop>(slot: &mut Slot<W, R>, halt: Halt) -> Found
    ensures slot { slot.new ≡ given_up halt slot.old }
    ensures done { result ≡ found.Done }
{
    give_up(slot, halt);
    Found::Done
}

/// Polls the split in a slot, unless it waits for something.
pub fn poll_slot<W: SplitWork + Drop>(alloc: Global, slot: &mut Slot<W, W::Rows>) -> Found
    ensures keeps { (p : Part Item) (store : Store) → SlotKeeps W.split W.comes W.items p store slot.old slot.new }
    ensures looks { Looks W.split W.comes W.items slot.old.stage slot.new.stage result }
{
    let Stage::Reads(run) = &mut slot.stage else {
        return Found::Nothing;
    };
    if !run.is_ready() {
        return Found::Nothing;
    }
    match run.poll(alloc) {
        RunPoll::Waits => Found::Waits,
        RunPoll::Ready(rows) => {
            slot.stage = Stage::Read(rows);
            Found::Done
        }
        RunPoll::Corrupt(id) => given_up(slot, Halt::Corrupt(id)),
        RunPoll::Overflow => given_up(slot, Halt::Overflow),
        RunPoll::NoMemory => given_up(slot, Halt::NoMemory),
    }
}

impl Found {
    /// Whether it is a split that waits.
    pub(crate) fn is_wait(self) -> bool
        ensures { result ≡ is_wait self }
    {
        match self {
            Found::Nothing | Found::Done => false,
            Found::Waits => true,
        }
    }
}
