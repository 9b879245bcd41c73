//! The slots of the splits that are read at once, over all files. An own type: the Rust buffers tasks.
ghost use Rattle.std.specs.Prelude.{◌≡◌, true, false, IfOk, OnOk, MatchOption};
ghost use Rattle.scan_splits.specs.Wanted.{no_repeats};
ghost use Rattle.scan_drive.specs.Slots.{is_fresh, is_read, stage_given_up, handed, given_up, at_each, MayTake, AllTake, also_if};
ghost use Rattle.scan_drive.specs.declared.slot.Halt.TheVariants as halt;
ghost use Rattle.scan_drive.specs.declared.slot.Stage.TheVariants as stage;

use crate::run::Run;
use scan_segments::SegmentId;
use scan_splits::Arrival;
use scan_values::NoMemory;
use std::collections::VecDeque;

/// Why a split is not read any further.
#[derive(Clone, Copy, Debug, PartialEq, Eq)]
pub enum Halt {
    /// The source failed at a segment.
    Source(SegmentId),
    /// A segment is missing or no good.
    Corrupt(SegmentId),
    /// A sum or difference is past its dtype.
    Overflow,
    NoMemory,
}

/// How far the split in a slot is.
pub enum Stage<W, R> {
    /// No split is there.
    Empty,
    Reads(Run<W>),
    /// Its rows are there, and wait for their turn.
    Read(R),
    /// It is given up, and why waits for its turn.
    Halted(Run<W>, Halt),
}

impl<W: Drop, R: Drop> Drop for Stage<W, R> {
    fn drop(self) {
        match self {
            Stage::Empty => {}
            Stage::Reads(_) => {}
            Stage::Read(_) => {}
            Stage::Halted(_, _) => {}
        }
    }
}

impl<W: Drop, R: Drop> Stage<W, R> {
    /// A split that is read is given up.
    pub(crate) fn halted(self, halt: Halt) -> Stage<W, R>
        ensures { result ≡ stage_given_up halt self }
    {
        match self {
            Stage::Reads(run) => Stage::Halted(run, halt),
            other => other,
        }
    }

    /// The rows of a split that is read.
    pub(crate) fn into_rows(self) -> Option<R>
        ensures { MatchOption result (is_read self ≡ false) (λ rows. self ≡ stage.Read rows) }
    {
        match self {
            Stage::Read(rows) => Some(rows),
            Stage::Empty | Stage::Reads(_) | Stage::Halted(_, _) => None,
        }
    }
}

/// A place for a split of a file.
#[derive(Drop)]
pub struct Slot<W, R> {
    pub file: usize,
    pub stage: Stage<W, R>,
}

impl<W: Drop, R: Drop> Slot<W, R> {
    /// Whether its split waits for nothing, so that a poll brings it on.
    pub(crate) fn is_fresh(&self) -> bool
        ensures { result ≡ is_fresh self.now.stage }
    {
        match &self.stage {
            Stage::Reads(run) => run.is_ready(),
            Stage::Empty | Stage::Read(_) | Stage::Halted(_, _) => false,
        }
    }

    /// How many bytes have come of what its split wanted last.
    pub(crate) fn came(&self) -> usize {
        match &self.stage {
            Stage::Reads(run) => run.came(),
            Stage::Empty | Stage::Read(_) | Stage::Halted(_, _) => 0,
        }
    }

    /// Whether its split is read.
    pub(crate) fn has_rows(&self) -> bool
        ensures { result ≡ is_read self.now.stage }
    {
        match &self.stage {
            Stage::Read(_) => true,
            Stage::Empty | Stage::Reads(_) | Stage::Halted(_, _) => false,
        }
    }
}

/// What arrived, shared.
fn share(arrival: &Arrival) -> Result<Arrival, NoMemory>
    ensures { IfOk result (λ a. a ≡ arrival.now) }
{
    match arrival {
        Arrival::Bytes(bytes) => match bytes.try_clone() {
            Ok(shared) => Ok(Arrival::Bytes(shared)),
            Err(_) => Err(NoMemory),
        },
        Arrival::Missing => Ok(Arrival::Missing),
    }
}

/// Hands what arrived of an id to the split in a slot. A split that is given up takes nothing.
pub(crate) fn hand_one<W: Drop, R: Drop>(
    slot: &mut Slot<W, R>,
    id: SegmentId,
    arrival: &Arrival,
) -> Result<(), NoMemory>
    requires { MayTake id slot.old }
    ensures { OnOk result (slot.new ≡ handed id arrival.now slot.old) }
{
    match &mut slot.stage {
        Stage::Reads(run) => run.deliver(id, share(arrival)?),
        Stage::Halted(_, _) => Ok(()),
        Stage::Empty | Stage::Read(_) => unreachable!(),
    }
}

/// Lists a place, where it is to be.
pub(crate) fn list_if(yes: bool, place: usize, list: &mut VecDeque<usize>) -> Result<(), NoMemory>
    ensures { OnOk result (list.new.items ≡ also_if yes place list.old.items) }
{
    if !yes {
        return Ok(());
    }
    list.push_back(place)?;
    Ok(())
}

/// Hands what arrived of an id to the splits at these places, which wait for it.
pub fn hand<W: Drop, R: Drop>(
    slots: &mut Vec<Slot<W, R>>,
    places: &[usize],
    id: SegmentId,
    arrival: &Arrival,
) -> Result<(), NoMemory>
    requires wait { AllTake id places.now slots.old.items }
    requires distinct { no_repeats places.now ≡ true }
    ensures { OnOk result (slots.new.items ≡ at_each (handed id arrival.now) places.now slots.old.items) }
{
    for place in places {
        hand_one(&mut slots[*place], id, arrival)?;
    }
    Ok(())
}

/// Gives up the split in a slot.
pub(crate) fn give_up<W: Drop, R: Drop>(slot: &mut Slot<W, R>, halt: Halt)
    ensures { slot.new ≡ given_up halt slot.old }
{
    let stage = std::mem::replace(&mut slot.stage, Stage::Empty);
    slot.stage = stage.halted(halt);
}

/// The source has failed at an id: the splits at these places, which wait for it, are given up.
pub fn lose<W: Drop, R: Drop>(slots: &mut Vec<Slot<W, R>>, places: &[usize], id: SegmentId)
    requires wait { AllTake id places.now slots.old.items }
    requires distinct { no_repeats places.now ≡ true }
    ensures { slots.new.items ≡ at_each (given_up (halt.Source id)) places.now slots.old.items }
{
    for place in places {
        give_up(&mut slots[*place], Halt::Source(id));
    }
}
