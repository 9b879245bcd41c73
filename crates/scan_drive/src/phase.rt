//! How far files are, and the splits that become active. An own type: the Rust opens and reads files one by one.
ghost use Rattle.std.specs.Prelude.{◌≡◌, ◌≢◌, ◌≤◌, ◌<◌, ◌+◌, ◌-◌, ◌^◌, [], true, false, nat_lt, OnOk, IfOk, length};
ghost use Rattle.scan_drive.specs.Actives.{Seated};
ghost use Rattle.scan_drive.specs.Claims.{AreClaimed, MayClaimMost, is_cut};
ghost use Rattle.scan_drive.specs.Phases.{SpentBelow, Takes, unopened, is_unopened};
ghost use Rattle.scan_drive.specs.Steps.{Activates};
ghost use Rattle.scan_drive.specs.Turns.{Counts, FitsIn, IsFull, IsStuck};

use crate::active::Active;
use crate::work::SplitWork;
use scan_values::NoMemory;
use std::alloc::Global;
use std::collections::VecDeque;

/// How far a file is.
#[derive(Drop)]
pub enum Phase<W, F> {
    /// Its opener has not answered yet.
    Unopened,
    /// The splits that are not active yet, and how many rows the file has.
    Queued(VecDeque<W>, u64),
    /// Why it is not read, which waits for its turn.
    Held(F),
}

/// What there is of the splits of a file that are not active yet.
#[derive(Drop)]
pub enum Taken<W> {
    Split(W),
    /// None is left.
    Spent,
    /// They are not known.
    Waits,
}

/// Takes the first split of a file that is not active.
fn take_split<W: SplitWork + Drop, F: Drop>(phase: &mut Phase<W, F>) -> Taken<W>
    ensures taken { Takes W.split W.comes phase.old phase.new result }
    ensures opened { is_unopened phase.new ≤ is_unopened phase.old }
{
    let Phase::Queued(splits, _) = phase else {
        return Taken::Waits;
    };
    if splits.is_empty() {
        return Taken::Spent;
    }
    match splits.pop_front() {
        Some(work) => Taken::Split(work),
        None => unreachable!(),
    }
}

/// How many files were counted, and how many rows these have.
#[derive(Clone, Copy, Debug, Default, PartialEq, Eq)]
pub struct Tally {
    pub files: usize,
    pub rows: u64,
}

impl Tally {
    /// Whether the rows of this file may be counted.
    pub(crate) fn fits<W, F>(&self, file: usize, phase: &Phase<W, F>) -> bool
        ensures { FitsIn file self.now phase.now result }
    {
        let Phase::Queued(_, rows) = phase else {
            return true;
        };
        self.files != file || self.rows.checked_add(*rows).is_some()
    }

    /// Counts the rows of the next file, where its splits are known, and says whether they may be counted.
    fn count<W, F>(&mut self, file: usize, phase: &Phase<W, F>) -> bool
        requires { file + 1 < 2 ^ 64 }
        ensures { Counts file self.old self.new phase.now result }
    {
        let Phase::Queued(_, rows) = phase else {
            return true;
        };
        if self.files != file {
            return true;
        }
        match self.rows.checked_add(*rows) {
            Some(sum) => {
                self.rows = sum;
                self.files = file + 1;
                true
            }
            None => false,
        }
    }
}

/// What splits have not claimed of a limit in no order, where they claim rows before they are read.
#[derive(Clone, Copy)]
pub struct Unclaimed {
    pub rows: u64,
    /// Whether the last split that became active has claimed more rows than were left.
    pub cut: bool,
}

impl Unclaimed {
    /// So many rows, of which none is claimed.
    pub(crate) fn new(rows: u64) -> Unclaimed
        ensures { result ≡ record { rows = rows; cut = false } }
    {
        Unclaimed { rows, cut: false }
    }

    /// What is left once a split has claimed so many rows.
    fn after(self, most: u64) -> Unclaimed
        ensures { result ≡ record { rows = self.rows - most; cut = nat_lt self.rows most } }
    {
        Unclaimed {
            rows: self.rows.saturating_sub(most),
            cut: self.rows < most,
        }
    }
}

/// Whether splits have claimed all rows of a limit.
pub(crate) fn all_claimed(unclaimed: Option<Unclaimed>) -> bool
    ensures all { result ≡ true → AreClaimed unclaimed }
    ensures some { result ≡ false → AreClaimed unclaimed → ⊥ }
{
    match unclaimed {
        Some(unclaimed) => unclaimed.rows == 0,
        None => false,
    }
}

/// Whether the last split that became active has claimed more rows than were left.
pub(crate) fn is_cut(unclaimed: Option<Unclaimed>) -> bool
    ensures { result ≡ is_cut unclaimed }
{
    match unclaimed {
        Some(unclaimed) => unclaimed.cut,
        None => false,
    }
}

/// Claims rows for a split, where splits do so before they are read.
fn claim<W: SplitWork>(
    alloc: Global,
    unclaimed: &mut Option<Unclaimed>,
    work: &W,
) -> Result<(), NoMemory>
    ensures { OnOk result (MayClaimMost W.split work.now unclaimed.old unclaimed.new) }
{
    let Some(before) = *unclaimed else {
        return Ok(());
    };
    let most = work.most(alloc)?;
    *unclaimed = Some(before.after(most));
    Ok(())
}

/// Whether one more split may be active: as long as there is room and rows are left that none has claimed. Where no
/// split is active one more is.
fn has_room(turns: &VecDeque<usize>, room: usize, unclaimed: Option<Unclaimed>) -> bool
    ensures room { result ≡ true → length turns.now.items < room }
    ensures claimed { result ≡ true → AreClaimed unclaimed → turns.now.items ≡ [] }
    ensures full { result ≡ false → IsFull room turns.now.items }
{
    turns.len() < room && (turns.is_empty() || !all_claimed(unclaimed))
}

/// Makes splits active in the order of their files, as long as there is room and rows are left that none has claimed. It
/// goes on at a file below which none has a split left, and answers with such a file.
pub fn activate<W: SplitWork + Drop, F: Drop>(
    alloc: Global,
    phases: &mut Vec<Phase<W, F>>,
    first: usize,
    active: &mut Active<W, W::Rows>,
    tally: &mut Tally,
    room: usize,
    unclaimed: &mut Option<Unclaimed>,
) -> Result<usize, NoMemory>
    requires below { SpentBelow phases.old.items first }
    requires within { first ≤ length phases.old.items }
    requires seated { Seated active.old }
    ensures len { length phases.new.items ≡ length phases.old.items }
    ensures opened { unopened phases.new.items ≤ unopened phases.old.items }
    ensures below { IfOk result (λ n. (n ≤ length phases.new.items) × SpentBelow phases.new.items n) }
    ensures seated { OnOk result (Seated active.new) }
    ensures goes { IfOk result (λ n. Activates W.split W.comes W.items first n tally.old tally.new active.old active.new
        phases.old.items phases.new.items) }
    ensures stuck { IfOk result (λ n. IsStuck room n tally.new phases.new.items active.new.turns.items) }
    ensures claimed { AreClaimed unclaimed.old → active.old.turns.items ≢ [] → active.new ≡ active.old }
{
    let mut first = first;
    while first < phases.len() && has_room(&active.turns, room, *unclaimed) {
        if !tally.count(first, &phases[first]) {
            return Ok(first);
        }
        match take_split(&mut phases[first]) {
            Taken::Split(work) => {
                claim(alloc, unclaimed, &work)?;
                active.seat(alloc, first, work)?;
            }
            Taken::Spent => first += 1,
            Taken::Waits => return Ok(first),
        }
    }
    Ok(first)
}
