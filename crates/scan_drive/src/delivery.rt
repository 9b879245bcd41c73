//! What is given, up to a limit: in turn, or as it is read. After the Rust's buffers of tasks, which keep the order or do not.
ghost use Rattle.std.specs.Prelude.{◌≡◌, ◌≢◌, ◌≤◌, ◌<◌, ◌+◌, ◌-◌, ◌++◌, ◌⊎◌, [], true, false, List, OnOk, IfOk, IfErr, MatchOption, Option, Some, None, option_map, unwrap_or};
ghost use Rattle.scan_drive.specs.Files.{Item};
ghost use Rattle.scan_drive.specs.Actives.{Seated, AllOk, Rotates};
ghost use Rattle.scan_drive.specs.Chunks.{HasRoom, AddsFile, Fits, KeepsRows, fault_of, given, Gives, IsDelivered, IsDeliverFault, IsCause};
ghost use Rattle.scan_drive.specs.Files.{Told, count, grouped};
ghost use Rattle.scan_drive.specs.Lost.{StopsOver};
ghost use Rattle.scan_drive.specs.Slots.{read_rows};
ghost use Rattle.scan_drive.specs.Steps.{GivesRows};
ghost use Rattle.scan_drive.specs.Turns.{GivesOn, TurnsWait};
ghost use Rattle.scan_drive.specs.declared.delivery.Delivered.TheVariants as delivered;
ghost use Rattle.scan_drive.specs.declared.delivery.DriveFault.TheVariants as faults;

use crate::active::{Active, Front};
use crate::outbox::Outbox;
use crate::slot::Halt;
use crate::work::SplitWork;
use scan_segments::SegmentId;
use scan_values::NoMemory;
use std::alloc::Global;

/// The rows of a split of a file, as they are given.
#[derive(Drop)]
pub struct Chunk<R> {
    pub file: usize,
    pub rows: R,
}

/// How far rows are given.
#[derive(Clone, Copy, Debug, PartialEq, Eq)]
pub enum Delivered {
    /// More may be given.
    More,
    /// The limit is met.
    Full,
}

/// Why splits of files are not read to their end.
#[derive(Clone, Copy, Debug, PartialEq, Eq)]
pub enum DriveFault {
    NoMemory,
    Source { file: usize, segment: SegmentId },
    Corrupt { file: usize, segment: SegmentId },
    Overflow { file: usize },
}

/// Why a split is given up, as a fault.
fn held(file: usize, halt: Halt) -> DriveFault
    ensures { result ≡ fault_of file halt }
{
    match halt {
        Halt::Source(segment) => DriveFault::Source { file, segment },
        Halt::Corrupt(segment) => DriveFault::Corrupt { file, segment },
        Halt::Overflow => DriveFault::Overflow { file },
        Halt::NoMemory => DriveFault::NoMemory,
    }
}

/// How many rows of so many may be given, where the limit is met by them.
fn full_at(left: Option<u64>, count: usize) -> Option<usize>
    ensures { MatchOption result (Fits count left) (λ n. (left ≡ Some n) × (n ≤ count)) }
{
    match left {
        None => None,
        Some(rows) => {
            if rows <= count as u64 {
                return Some(rows as usize);
            }
            None
        }
    }
}

/// How many rows may still be given after so many.
fn less(left: Option<u64>, count: usize) -> Option<u64>
    requires { Fits count left }
    ensures { result ≡ option_map (λ n. n - count) left }
{
    match left {
        None => None,
        Some(rows) => Some(rows - count as u64),
    }
}

/// Adds a chunk of the rows of a split, where there are some.
fn push_rows<W: SplitWork + Drop>(
    chunks: &mut Outbox<Chunk<W::Rows>>,
    file: usize,
    rows: W::Rows,
) -> Result<(), NoMemory>
    ensures given { OnOk result (given W.items chunks.new.items ≡
        given W.items chunks.old.items ++ grouped file (W.items rows)) }
    ensures some { OnOk result (KeepsRows W.items chunks.old.items chunks.new.items) }
    ensures file { OnOk result (AddsFile file chunks.old.items chunks.new.items) }
{
    if W::count(&rows) == 0 {
        return Ok(());
    }
    chunks.push(Chunk { file, rows })?;
    Ok(())
}

/// Gives the rows of a split, and no more of them than are left of the limit.
fn give<W: SplitWork + Drop>(
    alloc: Global,
    chunks: &mut Outbox<Chunk<W::Rows>>,
    left: &mut Option<u64>,
    file: usize,
    rows: W::Rows,
) -> Result<Delivered, NoMemory>
    ensures gives { IfOk result (λ d.
        Gives W.items file (W.items rows) chunks.old.items chunks.new.items left.old left.new d) }
    ensures some { OnOk result (KeepsRows W.items chunks.old.items chunks.new.items) }
    ensures file { OnOk result (AddsFile file chunks.old.items chunks.new.items) }
{
    let count = W::count(&rows);
    match full_at(*left, count) {
        Some(most) => {
            let first = W::first(alloc, rows, most)?;
            push_rows::<W>(chunks, file, first)?;
            Ok(Delivered::Full)
        }
        None => {
            push_rows::<W>(chunks, file, rows)?;
            *left = less(*left, count);
            Ok(Delivered::More)
        }
    }
}

/// Gives the rows of the splits that are read, in turn, up to the first that is not, and no more rows than are left of
/// the limit. Why a split is given up comes at its turn.
pub fn deliver<W: SplitWork + Drop>(
    alloc: Global,
    active: &mut Active<W, W::Rows>,
    chunks: &mut Outbox<Chunk<W::Rows>>,
    left: &mut Option<u64>,
) -> Result<Delivered, DriveFault>
    requires seated { Seated active.old }
    requires room { HasRoom left.old }
    ensures seated { OnOk result (Seated active.new) }
    ensures keeps { OnOk result (GivesRows W.split W.comes W.items active.old active.new chunks.old.items chunks.new.items) }
    ensures gives { IfOk result (λ d. d ≡ delivered.More → GivesOn W.split active.old active.new × TurnsWait active.new) }
    ensures delivered { IfOk result (λ d. IsDelivered W.split W.comes W.items true active.old active.new
        chunks.old.items chunks.new.items left.old left.new d) }
    ensures fault { IfErr result (λ e. IsDeliverFault W.split W.comes W.items active.old active.new
        chunks.old.items chunks.new.items left.old left.new e) }
    ensures cause { IfErr result (λ e. (tale : List (Told Item)) →
        AllOk W.split W.comes W.items tale active.old → IsCause tale e) }
    ensures stops { IfErr result (λ e. StopsOver active.old.slots.items e) }
{
    'turns: loop {
        match active.take_front() {
            Err(_) => return Err(DriveFault::NoMemory),
            Ok(Front::Nothing) => return Ok(Delivered::More),
            Ok(Front::Waits) => return Ok(Delivered::More),
            Ok(Front::Halted(file, halt)) => return Err(held(file, halt)),
            Ok(Front::Rows(file, rows)) => match give::<W>(alloc, chunks, left, file, rows) {
                Ok(Delivered::More) => {}
                Ok(Delivered::Full) => return Ok(Delivered::Full),
                Err(_) => return Err(DriveFault::NoMemory),
            },
        }
    }
}

/// The first of two faults, where there is one already.
fn first_fault(before: Option<DriveFault>, fault: DriveFault) -> Option<DriveFault>
    ensures { result ≡ Some (unwrap_or before fault) }
{
    match before {
        Some(first) => Some(first),
        None => Some(fault),
    }
}

/// Whether the rows of the split at this one of so many turns wait for others that are active, as those of the last one do
/// where it is cut.
fn is_held(cut: bool, turn: usize, turns: usize, active: usize) -> bool
    ensures cut { result ≡ true → cut ≡ true }
    ensures last { result ≡ true → turns ≤ turn + 1 }
    ensures others { result ≡ true → 1 < active }
{
    cut && turn >= turns.saturating_sub(1) && active > 1
}

/// The rows of the split whose turn it is wait for the others.
fn hold<W: Drop, R: Drop>(
    active: &mut Active<W, R>,
    why: Option<DriveFault>,
) -> Result<Delivered, DriveFault>
    requires { active.old.turns.items ≢ [] }
    ensures waits { IfOk result (λ d. (d ≡ delivered.More) × (why ≡ None) × Rotates active.old active.new) }
    ensures fault { IfErr result (λ e. (e ≡ faults.NoMemory) ⊎ (why ≡ Some e)) }
{
    match active.pass_on() {
        Ok(()) => {}
        Err(_) => return Err(DriveFault::NoMemory),
    }
    match why {
        Some(fault) => Err(fault),
        None => Ok(Delivered::More),
    }
}

/// Gives the rows of all splits that are read, up to the limit: the last one's once no other is active, where it is cut. Why a
/// split is given up comes once these are given.
fn deliver_any<W: SplitWork + Drop>(
    alloc: Global,
    active: &mut Active<W, W::Rows>,
    chunks: &mut Outbox<Chunk<W::Rows>>,
    left: &mut Option<u64>,
    cut: bool,
) -> Result<Delivered, DriveFault>
    requires seated { Seated active.old }
    requires room { HasRoom left.old }
    ensures seated { OnOk result (Seated active.new) }
    ensures keeps { OnOk result (GivesRows W.split W.comes W.items active.old active.new chunks.old.items chunks.new.items) }
    ensures gives { IfOk result (λ d. d ≡ delivered.More → GivesOn W.split active.old active.new × TurnsWait active.new) }
    ensures delivered { IfOk result (λ d. IsDelivered W.split W.comes W.items false active.old active.new
        chunks.old.items chunks.new.items left.old left.new d) }
    ensures cause { IfErr result (λ e. (tale : List (Told Item)) →
        AllOk W.split W.comes W.items tale active.old → IsCause tale e) }
    ensures stops { IfErr result (λ e. StopsOver active.old.slots.items e) }
    ensures reads { IfOk result (λ d. cut ≡ false → d ≡ delivered.More →
        count (given W.items chunks.new.items) ≡ count (given W.items chunks.old.items) + read_rows W.items active.old.slots.items) }
{
    let mut why = None;
    let turns = active.turns.len();
    for turn in 0..turns {
        if is_held(cut, turn, turns, active.turns.len()) && active.has_rows() {
            return hold(active, why);
        }
        match active.take_next() {
            Err(_) => return Err(DriveFault::NoMemory),
            Ok(Front::Nothing) => unreachable!(),
            Ok(Front::Waits) => continue,
            Ok(Front::Halted(file, halt)) => {
                why = first_fault(why, held(file, halt));
                continue;
            }
            Ok(Front::Rows(file, rows)) => match give::<W>(alloc, chunks, left, file, rows) {
                Ok(Delivered::More) => {}
                Ok(Delivered::Full) => return Ok(Delivered::Full),
                Err(_) => return Err(DriveFault::NoMemory),
            },
        }
    }
    match why {
        Some(fault) => Err(fault),
        None => Ok(Delivered::More),
    }
}

/// Gives rows of splits that are read, in turn or all of them, of which the last may be cut.
pub(crate) fn deliver_in<W: SplitWork + Drop>(
    alloc: Global,
    ordered: bool,
    active: &mut Active<W, W::Rows>,
    chunks: &mut Outbox<Chunk<W::Rows>>,
    left: &mut Option<u64>,
    cut: bool,
) -> Result<Delivered, DriveFault>
    requires seated { Seated active.old }
    requires room { HasRoom left.old }
    ensures seated { OnOk result (Seated active.new) }
    ensures keeps { OnOk result (GivesRows W.split W.comes W.items active.old active.new chunks.old.items chunks.new.items) }
    ensures gives { IfOk result (λ d. d ≡ delivered.More → GivesOn W.split active.old active.new × TurnsWait active.new) }
    ensures delivered { IfOk result (λ d. IsDelivered W.split W.comes W.items ordered active.old active.new
        chunks.old.items chunks.new.items left.old left.new d) }
    ensures fault { IfErr result (λ e. ordered ≡ true → IsDeliverFault W.split W.comes W.items active.old active.new
        chunks.old.items chunks.new.items left.old left.new e) }
    ensures cause { IfErr result (λ e. (tale : List (Told Item)) →
        AllOk W.split W.comes W.items tale active.old → IsCause tale e) }
    ensures stops { IfErr result (λ e. StopsOver active.old.slots.items e) }
    ensures reads { IfOk result (λ d. ordered ≡ false → cut ≡ false → d ≡ delivered.More →
        count (given W.items chunks.new.items) ≡ count (given W.items chunks.old.items) + read_rows W.items active.old.slots.items) }
{
    if ordered {
        return deliver(alloc, active, chunks, left);
    }
    deliver_any(alloc, active, chunks, left, cut)
}
