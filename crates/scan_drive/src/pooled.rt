//! Rounds of which threads poll splits that live as long as the rounds. After the Rust's runtime, whose threads outlive its tasks.
ghost use Rattle.std.specs.Prelude.{◌≡◌, ◌<◌, [], All, length};
ghost use Rattle.std.specs.List.{range_with_len};
ghost use Rattle.scan_drive.specs.Batches.{AreFree, BatchWorked};
ghost use Rattle.scan_drive.specs.Chunks.{HasRoom};
ghost use Rattle.scan_drive.specs.Drives.{DesksAgree, IsIdle};
ghost use Rattle.scan_drive.specs.Handed.{Hands, DriveTakes, made_by};
ghost use Rattle.scan_drive.specs.Line.{exchanged, placed_by};
ghost use Rattle.scan_drive.specs.LineRuns.{LineRuns};
ghost use Rattle.scan_drive.specs.Runnings.{Starts};
ghost use Rattle.scan_drive.specs.Steps.{LineKeeps};
ghost use Rattle.scan_pool.specs.Seats.{IsServing};

use crate::batch::{Batch, poll_batch};
use crate::budget::Budget;
use crate::desk::Desk;
use crate::files::ScanFile;
use crate::gate::Gate;
use crate::opening::SplitOpener;
use crate::round::Drive;
use crate::rounds::run_rounds;
use crate::settling::RoundFault;
use crate::sink::{ChunkSink, Flow, FromChunk};
use crate::work::SplitWork;
use scan_pool::{Seated, Server, close_all, with_threads};
use scan_segments::{KeyedSegmentCache, SegmentSource};
use std::alloc::Global;
use std::thread::Threads;

// How many threads a drive starts at most.
const MOST_THREADS: usize = 255;

/// How many threads poll splits beside the caller: none where workers claim rows of a budget, since each phase starts its
/// own there.
pub(crate) fn count_threads(workers: usize, budget: &Option<Budget>) -> usize {
    match budget {
        Some(_) => 0,
        None => workers.saturating_sub(1).min(MOST_THREADS),
    }
}

/// `run_rounds`, while a thread serves each box.
pub(crate) fn run_pooled<
    R: Threads + Sync,
    X: SplitOpener<O, W, F>,
    O: Drop,
    W: SplitWork + Drop + Send,
    F: Drop,
    S: SegmentSource + Drop,
    C: KeyedSegmentCache,
    G: Gate,
    T: FromChunk<W::Rows>,
    K: ChunkSink<T>,
>(
    rt: &R,
    alloc: Global,
    gate: &G,
    context: &X,
    files: &mut Vec<ScanFile<O, S>>,
    desks: &mut Vec<Desk>,
    cache: &mut C,
    seated: &mut Seated<Batch<W, W::Rows>, Drive<W, W::Rows, F>>,
    exchanges: &mut Vec<(usize, usize)>,
    order: &mut Vec<usize>,
    sink: &mut K,
    workers: usize,
    servers: &mut [Server<Batch<W, W::Rows>>],
) -> Result<Flow, RoundFault<F>>
    requires workers { 0 < workers }
    requires boxes { AreFree seated.old.seats.items × All IsServing servers.old }
    requires idle { All (IsIdle S.state) files.old.items }
    requires agree { DesksAgree S.state files.old.items desks.old.items }
    requires starts { Starts (length files.old.items) seated.old.state.left seated.old.state
        × HasRoom seated.old.state.left }
    requires none { (exchanges.old.items ≡ []) × (order.old.items ≡ range_with_len 0 (length files.old.items)) }
    ensures keeps { LineKeeps (X.state context.now) X.polls S.state W.split W.comes W.items workers files.old.items
        exchanges.new.items files.new.items desks.new.items (C.cache cache.old) (C.cache cache.new) seated.old.state }
    ensures order { order.new.items ≡ exchanged exchanges.new.items (range_with_len 0 (length files.old.items)) }
    ensures takes { Hands (made_by T.made (placed_by exchanges.new.items)) T.fits K.takes sink.old sink.new
        (DriveTakes (X.state context.now) S.state W.items seated.old.state.left seated.old.state.ordered
        (exchanged exchanges.new.items files.old.items) (C.cache cache.old)) }
    ensures runs { LineRuns (X.state context.now) X.polls (X.refuses context.now) (X.admits context.now) S.state
        W.split W.comes W.items T.made T.fits K.takes K.full result sink.old sink.new files.old.items
        exchanges.new.items files.new.items desks.new.items (C.cache cache.old) (C.cache cache.new)
        seated.old.state seated.new.state }
{
    if servers.is_empty() {
        return run_rounds(
            rt,
            alloc,
            gate,
            context,
            files,
            desks,
            cache,
            &mut seated.state,
            exchanges,
            order,
            sink,
            workers,
            seated.seats.as_mut_slice(),
        );
    }
    let poll = |batch: &mut Batch<W, W::Rows>|
        ensures { BatchWorked W.split W.comes W.items batch.entry.now batch.exit.now }
    { poll_batch(gate, batch) };
    let mut rounds = |seated: &mut Seated<Batch<W, W::Rows>, Drive<W, W::Rows, F>>| -> Result<
        Flow,
        RoundFault<F>,
    >
        requires workers { 0 < workers }
        requires free { AreFree seated.now.seats.items }
        requires idle { All (IsIdle S.state) files.now.items }
        requires agree { DesksAgree S.state files.now.items desks.now.items }
        requires starts { Starts (length files.now.items) seated.now.state.left seated.now.state
            × HasRoom seated.now.state.left }
        requires none { (exchanges.now.items ≡ []) × (order.now.items ≡ range_with_len 0 (length files.now.items)) }
        ensures keeps { LineKeeps (X.state context.entry.now) X.polls S.state W.split W.comes W.items workers
            files.entry.now.items exchanges.exit.now.items files.exit.now.items desks.exit.now.items
            (C.cache cache.entry.now) (C.cache cache.exit.now) seated.entry.now.state }
        ensures order { order.exit.now.items ≡ exchanged exchanges.exit.now.items
            (range_with_len 0 (length files.entry.now.items)) }
        ensures takes { Hands (made_by T.made (placed_by exchanges.exit.now.items)) T.fits K.takes sink.entry.now
            sink.exit.now (DriveTakes (X.state context.entry.now) S.state W.items seated.entry.now.state.left
            seated.entry.now.state.ordered (exchanged exchanges.exit.now.items files.entry.now.items)
            (C.cache cache.entry.now)) }
        ensures runs { LineRuns (X.state context.entry.now) X.polls (X.refuses context.entry.now)
            (X.admits context.entry.now) S.state W.split W.comes W.items T.made T.fits K.takes K.full result
            sink.entry.now sink.exit.now files.entry.now.items exchanges.exit.now.items files.exit.now.items
            desks.exit.now.items (C.cache cache.entry.now) (C.cache cache.exit.now) seated.entry.now.state
            seated.exit.now.state }
    {
        let done = run_rounds(
            rt,
            alloc,
            gate,
            context,
            files,
            desks,
            cache,
            &mut seated.state,
            exchanges,
            order,
            sink,
            workers,
            seated.seats.as_mut_slice(),
        );
        close_all(&seated.seats);
        done
    };
    with_threads(rt, servers, &poll, seated, &mut rounds)
}
