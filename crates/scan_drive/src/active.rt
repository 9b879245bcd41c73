//! The splits that are active, over all files. An own type: the Rust buffers the tasks of one file at a time.
ghost use Rattle.std.specs.Prelude.{◌≡◌, ◌≢◌, ◌<◌, ◌∷◌, [], true, false, None, ℕ, List, OnOk, IfOk, IfSome, MatchOption, length, drop};
ghost use Rattle.scan_values.specs.Selections.{is_among};
ghost use Rattle.scan_drive.specs.Actives.{Seated, Becomes, IsRoom, Seats, IsFront, IsNext, Rotates};
ghost use Rattle.scan_drive.specs.Runs.{RunData};
ghost use Rattle.scan_drive.specs.Slots.{slot_at, is_halted, is_read, IsTaken};
ghost use Rattle.scan_drive.specs.declared.slot.Stage.TheVariants as stage;

use crate::run::Run;
use crate::slot::{Halt, Slot, Stage};
use scan_values::NoMemory;
use std::alloc::Global;
use std::collections::VecDeque;

/// The active splits. Each has a slot, whose place is its number while it is active.
#[derive(Drop)]
pub struct Active<W, R> {
    pub slots: Vec<Slot<W, R>>,
    /// The places of the active splits, in the order of their turns.
    pub turns: VecDeque<usize>,
    /// The places that are free.
    pub free: VecDeque<usize>,
}

/// What there is of the split whose turn it is.
#[derive(Drop)]
pub enum Front<R> {
    /// No split is active.
    Nothing,
    /// It is still read.
    Waits,
    /// Its rows, and of which file they are.
    Rows(usize, R),
    /// Why it is given up, and of which file it is.
    Halted(usize, Halt),
}

/// Puts a slot in a free place, or at the end where none is free.
fn put<W: Drop, R: Drop>(
    slots: &mut Vec<Slot<W, R>>,
    free: &mut VecDeque<usize>,
    slot: Slot<W, R>,
) -> Result<usize, NoMemory>
    requires { (p : ℕ) → is_among free.old.items p ≡ true → p < length slots.old.items }
    ensures becomes { IfOk result (λ p. Becomes p slot slots.old.items slots.new.items) }
    ensures room { IfOk result (λ p. IsRoom p free.old.items free.new.items slots.old.items slots.new.items) }
{
    match free.pop_front() {
        Some(place) => {
            slots[place] = slot;
            Ok(place)
        }
        None => {
            let place = slots.len();
            slots.push(slot)?;
            Ok(place)
        }
    }
}

/// Takes the rows out of a slot, where they are there.
pub(crate) fn take_rows<W: Drop, R: Drop>(slot: &mut Slot<W, R>) -> Option<R>
    ensures { IsTaken slot.old slot.new result }
{
    match &slot.stage {
        Stage::Read(_) => {}
        Stage::Empty | Stage::Reads(_) | Stage::Halted(_, _) => return None,
    }
    let stage = std::mem::replace(&mut slot.stage, Stage::Empty);
    stage.into_rows()
}

/// Why the split in a slot is given up, where it is.
fn halt_of<W, R>(slot: &Slot<W, R>) -> Option<Halt>
    ensures some { IfSome result (λ h. (r : RunData W) × (slot.now.stage ≡ stage.Halted r h)) }
    ensures none { result ≡ None → is_halted slot.now.stage ≡ false }
{
    match &slot.stage {
        Stage::Halted(_, halt) => Some(*halt),
        Stage::Empty | Stage::Reads(_) | Stage::Read(_) => None,
    }
}

/// The first of some places.
pub(crate) fn first_of(places: &VecDeque<usize>) -> Option<usize>
    ensures { MatchOption result (places.now.items ≡ []) (λ p. places.now.items ≡ p ∷ drop 1 places.now.items) }
{
    match places.front() {
        Some(place) => Some(*place),
        None => None,
    }
}

impl<W: Drop, R: Drop> Active<W, R> {
    /// No split is active.
    pub fn new(alloc: Global) -> Active<W, R>
        ensures seated { Seated result }
        ensures turns { result.turns.items ≡ [] }
    {
        Active {
            slots: Vec::new(alloc),
            turns: VecDeque::new(alloc),
            free: VecDeque::new(alloc),
        }
    }

    /// A split of a file becomes active. Its turn is after those of the others.
    pub fn seat(&mut self, alloc: Global, file: usize, work: W) -> Result<(), NoMemory>
        requires { Seated self.old }
        ensures { OnOk result (Seats file work self.old self.new) }
    {
        let stage = Stage::Reads(Run::new(alloc, work));
        let place = put(&mut self.slots, &mut self.free, Slot { file, stage })?;
        self.turns.push_back(place)?;
        Ok(())
    }

    /// What there is of the split whose turn it is. Where its rows are there, they are taken and its place is free.
    pub fn take_front(&mut self) -> Result<Front<R>, NoMemory>
        requires { Seated self.old }
        ensures { IfOk result (λ f. IsFront self.old self.new f) }
    {
        let Some(place) = first_of(&self.turns) else {
            return Ok(Front::Nothing);
        };
        let file = self.slots[place].file;
        if let Some(halt) = halt_of(&self.slots[place]) {
            return Ok(Front::Halted(file, halt));
        }
        match take_rows(&mut self.slots[place]) {
            None => Ok(Front::Waits),
            Some(rows) => {
                self.turns.pop_front();
                self.free.push_back(place)?;
                Ok(Front::Rows(file, rows))
            }
        }
    }

    /// The same, where a split that has no rows goes behind the others.
    pub fn take_next(&mut self) -> Result<Front<R>, NoMemory>
        requires { Seated self.old }
        ensures { IfOk result (λ f. IsNext self.old self.new f) }
    {
        let Some(place) = first_of(&self.turns) else {
            return Ok(Front::Nothing);
        };
        self.turns.pop_front();
        let file = self.slots[place].file;
        if let Some(halt) = halt_of(&self.slots[place]) {
            self.turns.push_back(place)?;
            return Ok(Front::Halted(file, halt));
        }
        match take_rows(&mut self.slots[place]) {
            None => {
                self.turns.push_back(place)?;
                Ok(Front::Waits)
            }
            Some(rows) => {
                self.free.push_back(place)?;
                Ok(Front::Rows(file, rows))
            }
        }
    }

    /// Whether the rows of the split whose turn it is are there.
    pub(crate) fn has_rows(&self) -> bool
        requires { Seated self.now }
        ensures { (place : ℕ) (later : List ℕ) → self.now.turns.items ≡ place ∷ later →
            result ≡ is_read (slot_at self.now.slots.items place).stage }
    {
        match first_of(&self.turns) {
            Some(place) => self.slots[place].has_rows(),
            None => false,
        }
    }

    /// The split whose turn it is goes behind the others, whatever there is of it.
    pub(crate) fn pass_on(&mut self) -> Result<(), NoMemory>
        requires { self.old.turns.items ≢ [] }
        ensures { OnOk result (Rotates self.old self.new) }
    {
        match self.turns.pop_front() {
            Some(place) => self.turns.push_back(place)?,
            None => {}
        }
        Ok(())
    }
}
