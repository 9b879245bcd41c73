//! The splits that wait for nothing are polled by workers, in phases that are joined. After the Rust's tasks, of which a runtime
//! polls as many at once as it has threads.
ghost use Rattle.std.specs.Prelude.{◌≡◌, ◌≤◌, ◌<◌, ◌+◌, ◌*◌, ◌^◌, true, false, All, OnOk, IfOk, IfSome, MatchOption, Some, ℕ, length, map, option_copied, slice_index_or};
ghost use Rattle.scan_limit.specs.Seats.{after_split};
ghost use Rattle.scan_drive.specs.Batches.{AreFree};
ghost use Rattle.scan_segments.specs.Source.{Store};
ghost use Rattle.scan_splits.specs.Wanted.{no_repeats};
ghost use Rattle.scan_drive.specs.Budgets.{IsOpen, IsPhase, GrantsAll, GrantsIn, UsesUp, UsesUpIn};
ghost use Rattle.scan_drive.specs.Claimed.{IsSeated, JobClaims, JobWorked, PhaseGrants, all_joined, joined, seated, unseated};
ghost use Rattle.scan_drive.specs.Files.{Item, Part};
ghost use Rattle.scan_drive.specs.Looks.{EachPolled};
ghost use Rattle.scan_drive.specs.Slots.{EachKeeps, HasFresh, slot_at, is_fresh, nothing};
ghost use Rattle.scan_drive.specs.Workers.{AreInTurn, AreJobs, JobPolled, TakesJob, IsWithin, listed, places_of, put_back};
ghost use Rattle.scan_drive.specs.declared.workers.Job.{Job};

use crate::batch::{Batch, poll_jobs};
use crate::budget::Budget;
use crate::claims::claim_slot;
use crate::gate::Gate;
use crate::looking::{Found, poll_slot};
use crate::slot::{Slot, Stage, list_if};
use crate::work::SplitWork;
use scan_limit::{LimitSeat, RowLimit};
use scan_pool::Seat;
use scan_values::NoMemory;
use std::alloc::Global;
use std::collections::VecDeque;
use std::thread;
use std::thread::Threads;

/// A split that waits for nothing, out of its slot while a worker has it.
#[derive(Drop)]
pub(crate) struct Job<W, R> {
    place: usize,
    slot: Slot<W, R>,
    /// What its poll has found.
    found: Found,
    /// Through which its rows are claimed, where there is a limit.
    seat: Option<LimitSeat>,
    /// Whether memory was short for what it claims.
    short: bool,
}

impl<W: Drop, R: Drop> Job<W, R> {
    /// How many bytes have come of what its split wanted last.
    pub(crate) fn came(&self) -> usize {
        self.slot.came()
    }
}

/// A slot without a split.
fn empty_slot<W: Drop, R: Drop>() -> Slot<W, R>
    ensures { result ≡ nothing }
{
    Slot {
        file: 0,
        stage: Stage::Empty,
    }
}

/// Takes the split at a place out of its slot, unless it waits for something.
fn take_job<W: Drop, R: Drop>(
    slots: &mut Vec<Slot<W, R>>,
    place: usize,
    jobs: &mut Vec<Job<W, R>>,
) -> Result<(), NoMemory>
    ensures { OnOk result (TakesJob place jobs.old.items jobs.new.items slots.old.items slots.new.items) }
{
    if place >= slots.len() {
        return Ok(());
    }
    if !slots[place].is_fresh() {
        return Ok(());
    }
    let slot = std::mem::replace(&mut slots[place], empty_slot());
    jobs.push(Job {
        place,
        slot,
        found: Found::Nothing,
        seat: None,
        short: false,
    })?;
    Ok(())
}

/// Takes the splits that wait for nothing out of their slots, in turn.
fn take_jobs<W: Drop, R: Drop>(
    alloc: Global,
    slots: &mut Vec<Slot<W, R>>,
    turns: &VecDeque<usize>,
) -> Result<Vec<Job<W, R>>, NoMemory>
    requires { HasFresh slots.old.items turns.now.items }
    ensures jobs { IfOk result (λ jobs. AreJobs jobs.items slots.old.items slots.new.items) }
    ensures all { IfOk result (λ jobs. HasFresh slots.old.items (places_of jobs.items)) }
    ensures order { IfOk result (λ jobs. AreInTurn (places_of jobs.items) turns.now.items) }
{
    let mut jobs = Vec::new(alloc);
    for i in 0..turns.len() {
        take_job(slots, turns[i], &mut jobs)?;
    }
    Ok(jobs)
}

/// Claims the rows of a split, where they are there.
fn claim_job<W: SplitWork + Drop>(alloc: Global, limit: &RowLimit, job: &mut Job<W, W::Rows>)
    requires { IsSeated (Some limit.now) job.old }
    ensures place { job.new.place ≡ job.old.place }
    ensures found { job.new.found ≡ job.old.found }
    ensures claims { JobClaims W.items (Some limit.now) job.old.slot job.old job.new }
{
    let Some(seat) = &mut job.seat else {
        unreachable!()
    };
    match claim_slot::<W>(alloc, limit, seat, &mut job.slot) {
        Ok(()) => {}
        Err(_) => {
            job.short = true;
        }
    }
}

/// Polls a split where it is, and claims its rows once they are there, where there is a limit.
fn poll_job<W: SplitWork + Drop>(alloc: Global, limit: Option<&RowLimit>, job: &mut Job<W, W::Rows>)
    requires seat { IsSeated (option_copied limit) job.old }
    ensures { JobWorked W.split W.comes W.items (option_copied limit.entry) job.old job.new }
{
    job.found = poll_slot(alloc, &mut job.slot);
    match limit {
        Some(limit) => claim_job(alloc, limit, job),
        None => {}
    }
}

/// What one worker does in a phase: it passes the gate, and polls its splits.
pub(crate) fn work<W: SplitWork + Drop, G: Gate>(
    alloc: Global,
    gate: &G,
    worker: usize,
    limit: Option<&RowLimit>,
    jobs: &mut [Job<W, W::Rows>],
)
    requires seats { All (IsSeated (option_copied limit)) jobs.old }
    ensures { (i : ℕ) (d : Job W W.Rows) → i < length jobs.old →
        JobWorked W.split W.comes W.items (option_copied limit.entry) (slice_index_or jobs.old i d) (slice_index_or jobs.new i d) }
{
    gate.pass(worker);
    for i in 0..jobs.len() {
        poll_job(alloc, limit, &mut jobs[i]);
    }
}

/// Polls each of these splits once, divided in equal parts among at most so many workers, and joins the workers.
fn run_phase<R: Threads + Sync, W: SplitWork + Drop + Send, G: Gate>(
    rt: &R,
    alloc: Global,
    gate: &G,
    workers: usize,
    limit: Option<&RowLimit>,
    jobs: &mut [Job<W, W::Rows>],
)
    requires workers { 0 < workers }
    requires seats { All (IsSeated (option_copied limit)) jobs.old }
    ensures { (i : ℕ) (d : Job W W.Rows) → i < length jobs.old →
        JobWorked W.split W.comes W.items (option_copied limit.entry) (slice_index_or jobs.old i d) (slice_index_or jobs.new i d) }
{
    if jobs.is_empty() {
        return;
    }
    let size = jobs.len().div_ceil(workers);
    let part = move |start: usize, part: &mut [Job<W, W::Rows>]|
        requires { (0 < size) × (start + 1 < 2 ^ 64) × All (IsSeated (option_copied limit)) part.now }
        ensures { (i : ℕ) (d : Job W W.Rows) → i < length part.entry.now →
            JobWorked W.split W.comes W.items (option_copied limit.entry) (slice_index_or part.entry.now i d) (slice_index_or part.exit.now i d) }
    { work(alloc, gate, start / size + 1, limit, part) };
    thread::for_each_chunk_mut(rt, jobs, size, &part);
}

/// Gives a split a seat of so much room, split off another.
fn seat_job<W: Drop, R: Drop>(
    limit: &RowLimit,
    seat: &mut LimitSeat,
    room: u64,
    job: &mut Job<W, R>,
) -> Result<(), NoMemory>
    requires own { seat.old.budget ≡ limit.now }
    requires room { room ≤ seat.old.room }
    ensures seat { OnOk result (seat.new ≡ after_split room seat.old) }
    ensures job { OnOk result (job.new ≡ seated limit.now room job.old) }
{
    job.seat = Some(limit.split(seat, room)?);
    Ok(())
}

/// Gives each split a seat of so much room, split off another.
fn seat_jobs<W: Drop, R: Drop>(
    limit: &RowLimit,
    seat: &mut LimitSeat,
    room: u64,
    jobs: &mut [Job<W, R>],
) -> Result<(), NoMemory>
    requires own { seat.old.budget ≡ limit.now }
    requires room { room * length jobs.old ≤ seat.old.room }
    ensures seat { OnOk result (seat.new ≡ after_split (room * length jobs.old) seat.old) }
    ensures jobs { OnOk result ((i : ℕ) (d : Job W R) → i < length jobs.old →
        slice_index_or jobs.new i d ≡ seated limit.now room (slice_index_or jobs.old i d)) }
{
    for i in 0..jobs.len() {
        seat_job(limit, seat, room, &mut jobs[i])?;
    }
    Ok(())
}

/// Joins the seat of a split into another, unless memory was short for what it claims.
fn join_job<W: Drop, R: Drop>(
    limit: &RowLimit,
    seat: &mut LimitSeat,
    job: &mut Job<W, R>,
) -> Result<(), NoMemory>
    requires own { seat.old.budget ≡ limit.now }
    requires seated { job.old.short ≡ false → IsSeated (Some limit.now) job.old }
    ensures own { OnOk result (seat.new.budget ≡ seat.old.budget) }
    ensures seat { OnOk result (seat.new ≡ joined job.old.seat seat.old) }
    ensures job { OnOk result ((job.old.short ≡ false) × (job.new ≡ unseated job.old)) }
{
    if job.short {
        return Err(NoMemory);
    }
    match job.seat.take() {
        Some(other) => limit.join(seat, other),
        None => {}
    }
    Ok(())
}

/// Joins the seats of splits into another, unless memory was short for what one of them claims.
fn join_jobs<W: Drop, R: Drop>(
    limit: &RowLimit,
    seat: &mut LimitSeat,
    jobs: &mut [Job<W, R>],
) -> Result<(), NoMemory>
    requires own { seat.old.budget ≡ limit.now }
    requires seated { All (λ (j : Job W R). j.short ≡ false → IsSeated (Some limit.now) j) jobs.old }
    ensures own { OnOk result (seat.new.budget ≡ seat.old.budget) }
    ensures seat { OnOk result (seat.new ≡ all_joined jobs.old seat.old) }
    ensures jobs { OnOk result ((i : ℕ) (d : Job W R) → i < length jobs.old →
        ((slice_index_or jobs.old i d).short ≡ false) × (slice_index_or jobs.new i d ≡ unseated (slice_index_or jobs.old i d))) }
{
    for i in 0..jobs.len() {
        join_job(limit, seat, &mut jobs[i])?;
    }
    Ok(())
}

/// An equal part of a seat's room for each of so many splits.
fn room_for_each(seat: &LimitSeat, count: usize) -> u64
    ensures { result * count ≤ seat.now.room }
{
    if count == 0 {
        return 0;
    }
    seat.room() / count as u64
}

/// A phase in which each worker claims the rows of the splits that it polls.
fn grant_phase<R: Threads + Sync, W: SplitWork + Drop + Send, G: Gate>(
    rt: &R,
    alloc: Global,
    gate: &G,
    workers: usize,
    budget: Budget,
    jobs: &mut [Job<W, W::Rows>],
) -> Result<Budget, NoMemory>
    requires { 0 < workers }
    ensures { IfOk result (λ b. PhaseGrants W.split W.comes W.items budget b jobs.old jobs.new) }
{
    let (limit, mut seat) = budget.into_parts();
    let room = room_for_each(&seat, jobs.len());
    seat_jobs(&limit, &mut seat, room, jobs)?;
    run_phase(rt, alloc, gate, workers, Some(&limit), jobs);
    join_jobs(&limit, &mut seat, jobs)?;
    Ok(Budget::of_parts(limit, seat))
}

/// Puts splits back into their slots. The places of those that wait for other segments now are listed, in their order.
fn put_jobs<W: Drop, R: Drop>(
    slots: &mut Vec<Slot<W, R>>,
    jobs: Vec<Job<W, R>>,
    asking: &mut VecDeque<usize>,
) -> Result<(), NoMemory>
    requires { All (IsWithin (length slots.old.items)) jobs.items }
    ensures slots { OnOk result (slots.new.items ≡ put_back jobs.items slots.old.items) }
    ensures asking { OnOk result (asking.new.items ≡ listed jobs.items asking.old.items) }
{
    for job in jobs {
        let Job {
            place,
            slot,
            found,
            ..
        } = job;
        slots[place] = slot;
        list_if(found.is_wait(), place, asking)?;
    }
    Ok(())
}

/// Polls the splits that wait for nothing, in one phase of the caller and the threads that serve the seats, and answers
/// the places of those that wait for other segments now, in turn.
pub(crate) fn poll_fresh<W: SplitWork + Drop + Send, G: Gate>(
    alloc: Global,
    gate: &G,
    seats: &mut [Seat<Batch<W, W::Rows>>],
    slots: &mut Vec<Slot<W, W::Rows>>,
    turns: &VecDeque<usize>,
) -> Result<VecDeque<usize>, NoMemory>
    requires free { AreFree seats.old }
    requires turns { HasFresh slots.old.items turns.now.items }
    ensures free { OnOk result (AreFree seats.new) }
    ensures polled { IfOk result (λ asking.
        EachPolled W.split W.comes W.items asking.items slots.old.items slots.new.items) }
    ensures once { IfOk result (λ asking. no_repeats asking.items ≡ true) }
    ensures keeps { OnOk result ((p : Part Item) (store : Store) →
        EachKeeps W.split W.comes W.items p store slots.old.items slots.new.items) }
    ensures settled { OnOk result ((place : ℕ) → is_fresh (slot_at slots.new.items place).stage ≡ false) }
    ensures order { IfOk result (λ asking. AreInTurn asking.items turns.now.items) }
{
    let jobs = take_jobs(alloc, slots, turns)?;
    let mut asking = VecDeque::with_capacity(alloc, jobs.len())?;
    let done = poll_jobs(alloc, gate, seats, jobs)?;
    put_jobs(slots, done, &mut asking)?;
    Ok(asking)
}

/// The same, where rows are claimed of a budget as they are there. It answers nothing once the budget is used up: then of
/// the splits that are read there are as many rows as it granted.
pub(crate) fn poll_granted<R: Threads + Sync, W: SplitWork + Drop + Send, G: Gate>(
    rt: &R,
    alloc: Global,
    gate: &G,
    workers: usize,
    budget: Budget,
    slots: &mut Vec<Slot<W, W::Rows>>,
    turns: &VecDeque<usize>,
) -> Result<Option<(Budget, VecDeque<usize>)>, NoMemory>
    requires workers { 0 < workers }
    requires turns { HasFresh slots.old.items turns.now.items }
    requires open { IsOpen budget }
    ensures polled { IfOk result (λ o. MatchOption o
        (UsesUp W.split W.comes W.items budget slots.old.items slots.new.items)
        (λ p. IsPhase W.split W.comes W.items p.1.items slots.old.items slots.new.items)) }
    ensures grants { IfOk result (λ o. IfSome o (λ p. GrantsAll W.items budget p.0 slots.new.items)) }
    ensures order { IfOk result (λ o. IfSome o (λ p. AreInTurn p.1.items turns.now.items)) }
{
    let mut jobs = take_jobs(alloc, slots, turns)?;
    let mut asking = VecDeque::with_capacity(alloc, jobs.len())?;
    let budget = grant_phase(rt, alloc, gate, workers, budget, jobs.as_mut_slice())?;
    put_jobs(slots, jobs, &mut asking)?;
    match budget.if_open() {
        Some(budget) => Ok(Some((budget, asking))),
        None => Ok(None),
    }
}

/// Polls the splits that wait for nothing, and where there is a budget lets the workers claim of it. It answers nothing once the
/// budget is used up.
pub(crate) fn poll_in<R: Threads + Sync, W: SplitWork + Drop + Send, G: Gate>(
    rt: &R,
    alloc: Global,
    gate: &G,
    workers: usize,
    seats: &mut [Seat<Batch<W, W::Rows>>],
    budget: &mut Option<Budget>,
    slots: &mut Vec<Slot<W, W::Rows>>,
    turns: &VecDeque<usize>,
) -> Result<Option<VecDeque<usize>>, NoMemory>
    requires workers { 0 < workers }
    requires free { AreFree seats.old }
    requires turns { HasFresh slots.old.items turns.now.items }
    requires open { IfSome budget.old IsOpen }
    ensures free { OnOk result (AreFree seats.new) }
    ensures polled { IfOk result (λ o. MatchOption o
        (UsesUpIn W.split W.comes W.items budget.old slots.old.items slots.new.items)
        (λ asking. IsPhase W.split W.comes W.items asking.items slots.old.items slots.new.items)) }
    ensures grants { IfOk result (λ o. IfSome o (λ asking. GrantsIn W.items budget.old budget.new slots.new.items)) }
    ensures order { IfOk result (λ o. IfSome o (λ asking. AreInTurn asking.items turns.now.items)) }
{
    let Some(open) = budget.take() else {
        return Ok(Some(poll_fresh(alloc, gate, seats, slots, turns)?));
    };
    match poll_granted(rt, alloc, gate, workers, open, slots, turns)? {
        Some((open, asking)) => {
            *budget = Some(open);
            Ok(Some(asking))
        }
        None => Ok(None),
    }
}
