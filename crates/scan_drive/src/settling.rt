//! What is given of a drive, and where it ends.
ghost use Rattle.std.specs.Prelude.{◌≡◌, ◌<◌, [], true, false, None, ℕ, List, OnOk, IfOk, IfErr, IfSome, MatchOption};
ghost use Rattle.scan_drive.specs.Batches.{AreFree};
ghost use Rattle.scan_drive.specs.Chunks.{given, KeepsRows};
ghost use Rattle.scan_drive.specs.Drives.{NoneOf};
ghost use Rattle.scan_drive.specs.Ends.{EndIs, Settles};
ghost use Rattle.scan_drive.specs.Handed.{with_taken};
ghost use Rattle.scan_drive.specs.Lost.{EachFollows};
ghost use Rattle.scan_drive.specs.Rounds.{Stands};
ghost use Rattle.scan_drive.specs.Steps.{SettlesAll, SettlesNot};
ghost use Rattle.scan_drive.specs.declared.delivery.Chunk.{Chunk};
ghost use Rattle.scan_drive.specs.declared.phase.Phase.TheVariants as phases;

use crate::batch::Batch;
use crate::delivery::DriveFault;
use crate::gate::Gate;
use crate::phase::{Phase, Tally, is_cut};
use crate::round::{Drive, give_out};
use crate::work::SplitWork;
use scan_pool::Seat;
use std::alloc::Global;
use std::collections::VecDeque;
use std::thread::Threads;

/// Why a drive ends without all rows.
#[derive(Drop)]
pub enum RoundFault<F> {
    /// A split is not read to its end, or memory is short.
    Split(DriveFault),
    /// With the rows of this file there are more than a u64 counts.
    TooManyRows(usize),
    /// Why a file is not read.
    Refused(usize, F),
}

/// What there is where no split is active.
#[derive(Drop)]
enum End<F> {
    /// All files are done.
    Done,
    TooMany,
    Refused(F),
    /// The next file is not open yet, or its splits become active.
    Open,
}

/// Takes why a file is not read.
fn take_held<W: Drop, F: Drop>(phase: &mut Phase<W, F>) -> Option<F>
    ensures { MatchOption result ((phase.new ≡ phase.old) × ((f : F) → phase.old ≡ phases.Held f → ⊥))
        (λ f. (phase.old ≡ phases.Held f) × (phase.new ≡ phases.Unopened)) }
{
    match phase {
        Phase::Held(_) => {}
        Phase::Unopened => return None,
        Phase::Queued(_, _) => return None,
    }
    match std::mem::replace(phase, Phase::Unopened) {
        Phase::Held(fault) => Some(fault),
        Phase::Unopened | Phase::Queued(_, _) => unreachable!(),
    }
}

/// Whether no split is active.
fn is_idle(turns: &VecDeque<usize>) -> bool
    ensures none { result ≡ true → turns.now.items ≡ [] }
    ensures some { result ≡ false → turns.now.items ≡ [] → ⊥ }
{
    turns.is_empty()
}

/// What there is where no split is active, and this is the first file that has splits left.
fn end_of<W: Drop, F: Drop>(phases: &mut Vec<Phase<W, F>>, first: usize, tally: &Tally) -> End<F>
    ensures { EndIs first tally.now phases.old.items phases.new.items result }
{
    if first >= phases.len() {
        return End::Done;
    }
    if !tally.fits(first, &phases[first]) {
        return End::TooMany;
    }
    match take_held(&mut phases[first]) {
        Some(fault) => End::Refused(fault),
        None => End::Open,
    }
}

/// Polls the splits that wait for nothing, and gives the rows of those whose turn it is, or in no order of all that
/// are read. It answers the places of the splits that wait for other segments now, or nothing once all is given or
/// the limit is met. What is said of the drive is so whatever was taken of it before.
pub(crate) fn settle<R: Threads + Sync, W: SplitWork + Drop + Send, F: Drop, G: Gate>(
    rt: &R,
    alloc: Global,
    gate: &G,
    workers: usize,
    seats: &mut [Seat<Batch<W, W::Rows>>],
    drive: &mut Drive<W, W::Rows, F>,
) -> Result<Option<VecDeque<usize>>, RoundFault<F>>
    requires workers { 0 < workers }
    requires free { AreFree seats.old }
    requires stands { (n : ℕ) × Stands n drive.old }
    ensures free { OnOk result (AreFree seats.new) }
    ensures report { drive.new.report ≡ drive.old.report }
    ensures waits { IfOk result (λ o. IfSome o (λ asking. (ts : List (Chunk W.Rows)) →
        Settles W.split W.comes W.items asking.items (with_taken ts drive.old) (with_taken ts drive.new))) }
    ensures all { IfOk result (λ o. o ≡ None → (ts : List (Chunk W.Rows)) →
        SettlesAll W.split W.comes W.items (with_taken ts drive.old) (with_taken ts drive.new)) }
    ensures some { OnOk result (KeepsRows W.items drive.old.chunks.items drive.new.chunks.items) }
    ensures follows { IfOk result (λ o. IfSome o (λ asking.
        EachFollows NoneOf NoneOf drive.old.active.slots.items drive.new.active.slots.items)) }
    ensures stops { IfErr result (λ e. (ts : List (Chunk W.Rows)) →
        SettlesNot W.split W.comes W.items (with_taken ts drive.old) (with_taken ts drive.new) e) }
{
    let asking = match give_out(
        rt,
        alloc,
        gate,
        workers,
        seats,
        drive.ordered,
        &mut drive.budget,
        &mut drive.active,
        &mut drive.chunks,
        &mut drive.left,
        is_cut(drive.unclaimed),
    ) {
        Ok(Some(asking)) => asking,
        Ok(None) => return Ok(None),
        Err(fault) => return Err(RoundFault::Split(fault)),
    };
    if !is_idle(&drive.active.turns) {
        return Ok(Some(asking));
    }
    match end_of(&mut drive.phases, drive.first, &drive.tally) {
        End::Done => Ok(None),
        End::TooMany => Err(RoundFault::TooManyRows(drive.first)),
        End::Refused(fault) => Err(RoundFault::Refused(drive.first, fault)),
        End::Open => Ok(Some(asking)),
    }
}
