//! The splits of a phase, divided in equal parts among the caller and the threads of a pool.
ghost use Rattle.std.specs.Prelude.{◌≡◌, ◌≤◌, ◌<◌, ◌++◌, All, OnOk, IfOk, None, ℕ, length, slice_index_or};
ghost use Rattle.std.specs.List.{AllZip};
ghost use Rattle.scan_drive.specs.Batches.{AreFree, BatchWorked, splits_in};
ghost use Rattle.scan_drive.specs.Claimed.{JobWorked};
ghost use Rattle.scan_drive.specs.declared.workers.Job.{Job};

use crate::gate::Gate;
use crate::work::SplitWork;
use crate::workers::{Job, work};
use scan_pool::{Seat, Work, run_all};
use scan_values::NoMemory;
use std::alloc::Global;

// So many bytes take about as long to poll as a thread to start.
const BYTES_FOR_A_START: usize = 1 << 17;

/// Splits that one worker polls.
#[derive(Drop)]
pub(crate) struct Batch<W, R> {
    jobs: Vec<Job<W, R>>,
    worker: usize,
    alloc: Global,
}

impl<W: SplitWork + Drop + Send> Work for Batch<W, W::Rows> {
    ghost use Rattle.scan_drive.specs.Batches.{BatchWorked};

    ghost done = { BatchWorked W.split W.comes W.items };
}

/// Passes the gate, and polls each split of a batch.
pub(crate) fn poll_batch<W: SplitWork + Drop, G: Gate>(gate: &G, batch: &mut Batch<W, W::Rows>)
    ensures { BatchWorked W.split W.comes W.items batch.old batch.new }
{
    work(
        batch.alloc,
        gate,
        batch.worker,
        None,
        batch.jobs.as_mut_slice(),
    );
}

/// Splits divided in parts of this size, of which the last splits come first and the first splits, which may be fewer,
/// last.
fn divide<W: Drop, R: Drop>(
    alloc: Global,
    size: usize,
    jobs: Vec<Job<W, R>>,
) -> Result<Vec<Batch<W, R>>, NoMemory>
    requires { 0 < size }
    ensures { IfOk result (λ batches. splits_in batches.items ≡ jobs.items) }
{
    let mut batches = Vec::new(alloc);
    let mut jobs = jobs;
    let mut worker: usize = 1;
    while jobs.len() > size {
        let last = jobs.split_off(jobs.len() - size)?;
        batches.push(Batch {
            jobs: last,
            worker,
            alloc,
        })?;
        worker = worker.saturating_add(1);
    }
    batches.push(Batch {
        jobs,
        worker,
        alloc,
    })?;
    Ok(batches)
}

/// The splits of batches, in their order.
fn gather<W: Drop, R: Drop>(
    alloc: Global,
    batches: Vec<Batch<W, R>>,
) -> Result<Vec<Job<W, R>>, NoMemory>
    ensures { IfOk result (λ jobs. jobs.items ≡ splits_in batches.items) }
{
    let mut batches = batches;
    let Some(first) = batches.pop() else {
        return Ok(Vec::new(alloc));
    };
    let mut jobs = first.jobs;
    while let Some(batch) = batches.pop() {
        let mut more = batch.jobs;
        jobs.append(&mut more)?;
    }
    Ok(jobs)
}

/// How many bytes have come of what these splits wanted last.
fn came<W: Drop, R: Drop>(jobs: &[Job<W, R>]) -> usize {
    let mut bytes: usize = 0;
    for job in jobs {
        bytes = bytes.saturating_add(job.came());
    }
    bytes
}

/// Among how many workers splits are divided: all, but two where no other thread has started yet and what has come for
/// the splits would not pay for it.
fn count_workers<W: SplitWork + Drop + Send>(
    seats: &[Seat<Batch<W, W::Rows>>],
    jobs: &[Job<W, W::Rows>],
) -> usize
    ensures { 0 < result }
{
    let all = seats.len().saturating_add(1);
    let Some(second) = seats.get(1) else {
        return all;
    };
    if second.has_sent() || came(jobs) >= BYTES_FOR_A_START {
        return all;
    }
    2
}

/// Polls each of these splits once, divided in equal parts among the caller and the threads that serve the seats, and
/// waits for all. What no thread has taken, the caller does.
pub(crate) fn poll_jobs<W: SplitWork + Drop + Send, G: Gate>(
    alloc: Global,
    gate: &G,
    seats: &mut [Seat<Batch<W, W::Rows>>],
    jobs: Vec<Job<W, W::Rows>>,
) -> Result<Vec<Job<W, W::Rows>>, NoMemory>
    requires { AreFree seats.old }
    ensures free { OnOk result (AreFree seats.new) }
    ensures done { IfOk result (λ done. AllZip (JobWorked W.split W.comes W.items None) jobs.items done.items) }
{
    if jobs.is_empty() {
        return Ok(jobs);
    }
    let size = jobs.len().div_ceil(count_workers(seats, jobs.as_slice()));
    let mut batches = divide(alloc, size, jobs)?;
    let poll = |batch: &mut Batch<W, W::Rows>|
        ensures { BatchWorked W.split W.comes W.items batch.entry.now batch.exit.now }
    { poll_batch(gate, batch) };
    run_all(seats, &mut batches, &poll)?;
    gather(alloc, batches)
}
