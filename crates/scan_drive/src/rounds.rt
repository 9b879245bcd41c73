//! Rounds of a drive over many files.
ghost use Rattle.std.specs.Prelude.{◌≡◌, ◌<◌, ◌++◌, ◌⊎◌, Ok, [], List, All, IfOk, IfErr, OnOk, length};
ghost use Rattle.std.specs.List.{range_with_len};
ghost use Rattle.scan_drive.specs.Batches.{AreFree};
ghost use Rattle.scan_drive.specs.Chunks.{HasRoom};
ghost use Rattle.scan_drive.specs.Drives.{DesksAgree, EachLinked, IsIdle};
ghost use Rattle.scan_drive.specs.Handed.{with_taken, Hands, WaitTakes, DriveTakes, WaitsFor, made_by, named_in};
ghost use Rattle.scan_drive.specs.Line.{exchanged, placed_by};
ghost use Rattle.scan_drive.specs.LineRuns.{LineRuns};
ghost use Rattle.scan_drive.specs.Rounds.{Stands};
ghost use Rattle.scan_drive.specs.Runnings.{Starts};
ghost use Rattle.scan_drive.specs.Steps.{RoundsKeep, RoundComes, RoundStops, WaitComes, WaitStops, LineKeeps};
ghost use Rattle.scan_drive.specs.Trades.{CacheAgrees};
ghost use Rattle.scan_drive.specs.declared.delivery.Chunk.{Chunk};
ghost use Rattle.scan_drive.specs.declared.delivery.DriveFault.TheVariants as faults;
ghost use Rattle.scan_drive.specs.declared.rounds.Wait.TheVariants as waits;
ghost use Rattle.scan_drive.specs.declared.settling.RoundFault.TheVariants as whys;
ghost use Rattle.scan_drive.specs.declared.sink.Flow.TheVariants as flows;

use crate::batch::Batch;
use crate::delivery::DriveFault;
use crate::desk::Desk;
use crate::files::ScanFile;
use crate::gate::Gate;
use crate::line::{bring_forward, hand_first, hand_over, swap_places};
use crate::opening::SplitOpener;
use crate::round::{Drive, bring_in, serve};
use crate::settling::{RoundFault, settle};
use crate::sink::{ChunkSink, Flow, FromChunk};
use crate::work::SplitWork;
use scan_pool::Seat;
use scan_segments::{KeyedSegmentCache, SegmentSource};
use scan_values::NoMemory;
use std::alloc::Global;
use std::thread::Threads;

/// What a round has come to.
#[derive(Clone, Copy, Debug, PartialEq, Eq)]
pub enum Round {
    /// Each opener that was polled has put off its answer.
    More,
    /// An opener has answered.
    Opened,
    /// All is given, or the limit is met.
    Done,
}

/// One round. What is said of the drive is so whatever was taken of it before.
pub(crate) fn make_round<
    R: Threads + Sync,
    X: SplitOpener<O, W, F>,
    O: Drop,
    W: SplitWork + Drop + Send,
    F: Drop,
    S: SegmentSource + Drop,
    C: KeyedSegmentCache,
    G: Gate,
>(
    rt: &R,
    alloc: Global,
    gate: &G,
    context: &X,
    files: &mut Vec<ScanFile<O, S>>,
    desks: &mut Vec<Desk>,
    cache: &mut C,
    drive: &mut Drive<W, W::Rows, F>,
    workers: usize,
    seats: &mut [Seat<Batch<W, W::Rows>>],
) -> Result<Round, RoundFault<F>>
    requires workers { 0 < workers }
    requires free { AreFree seats.old }
    requires agree { DesksAgree S.state files.old.items desks.old.items }
    requires stands { Stands (length files.old.items) drive.old }
    requires links { EachLinked desks.old.items drive.old.active.slots.items }
    ensures free { OnOk result (AreFree seats.new) }
    ensures keeps { (ts : List (Chunk W.Rows)) → RoundsKeep (X.state context.now) X.polls S.state W.split W.comes
        W.items
        (Unit {0}) workers files.old.items files.new.items desks.new.items (C.cache cache.old) (C.cache cache.new)
        (with_taken ts drive.old) }
    ensures comes { IfOk result (λ r. (ts : List (Chunk W.Rows)) → RoundComes (X.state context.now) X.polls
        (X.refuses context.now) (X.admits context.now) S.state W.split W.comes W.items r files.old.items files.new.items
        desks.new.items (C.cache cache.old) (C.cache cache.new) (with_taken ts drive.old) (with_taken ts drive.new)) }
    ensures stops { IfErr result (λ e. (ts : List (Chunk W.Rows)) → RoundStops (X.state context.now) X.polls
        (X.refuses context.now) (X.admits context.now) S.state W.split W.comes W.items files.old.items files.new.items
        (C.cache cache.old) (with_taken ts drive.old) (with_taken ts drive.new) e) }
{
    let opened = match bring_in(alloc, context, files, drive, workers) {
        Ok(opened) => opened,
        Err(_) => return Err(RoundFault::Split(DriveFault::NoMemory)),
    };
    let mut asking = match settle(rt, alloc, gate, workers, seats, drive) {
        Ok(Some(asking)) => asking,
        Ok(None) => return Ok(Round::Done),
        Err(fault) => return Err(fault),
    };
    match serve(
        alloc,
        files,
        desks,
        cache,
        &mut drive.active.slots,
        &drive.active.turns,
        &mut asking,
        &mut drive.report,
        drive.first,
    ) {
        Ok(()) => {}
        Err(_) => return Err(RoundFault::Split(DriveFault::NoMemory)),
    }
    if opened {
        return Ok(Round::Opened);
    }
    Ok(Round::More)
}

/// What rounds have come to, one after the other.
#[derive(Clone, Copy, Debug, PartialEq, Eq)]
pub enum Wait {
    /// An opener has answered.
    Opened,
    /// All is given, or the limit is met.
    Done,
    /// The sink wants no more.
    Stopped,
}

/// How rounds end with a fault, once what was given before it is handed over: where the sink wants no more by then,
/// it is not told.
fn end_wait<F: Drop>(
    handed: Result<Flow, NoMemory>,
    fault: RoundFault<F>,
) -> Result<Wait, RoundFault<F>>
    ensures ok { IfOk result (λ w. (w ≡ waits.Stopped) × (handed ≡ Ok flows.Stop)) }
    ensures err { IfErr result (λ e. ((handed ≡ Ok flows.More) × (e ≡ fault)) ⊎ (e ≡ whys.Split faults.NoMemory)) }
{
    match handed {
        Ok(Flow::More) => Err(fault),
        Ok(Flow::Stop) => Ok(Wait::Stopped),
        Err(_) => Err(RoundFault::Split(DriveFault::NoMemory)),
    }
}

/// Rounds until an opener answers, or all is given or the limit is met, or the sink wants no more. What each gives is
/// handed over, under the names of files. What is left falls with each.
fn wait_rounds<
    R: Threads + Sync,
    X: SplitOpener<O, W, F>,
    O: Drop,
    W: SplitWork + Drop + Send,
    F: Drop,
    S: SegmentSource + Drop,
    C: KeyedSegmentCache,
    G: Gate,
    T: FromChunk<W::Rows>,
    K: ChunkSink<T>,
>(
    rt: &R,
    alloc: Global,
    gate: &G,
    context: &X,
    files: &mut Vec<ScanFile<O, S>>,
    desks: &mut Vec<Desk>,
    cache: &mut C,
    drive: &mut Drive<W, W::Rows, F>,
    order: &Vec<usize>,
    sink: &mut K,
    workers: usize,
    seats: &mut [Seat<Batch<W, W::Rows>>],
) -> Result<Wait, RoundFault<F>>
    requires workers { 0 < workers }
    requires free { AreFree seats.old }
    requires agree { DesksAgree S.state files.old.items desks.old.items }
    requires stands { Stands (length files.old.items) drive.old }
    requires links { EachLinked desks.old.items drive.old.active.slots.items }
    ensures free { IfOk result (λ w. w ≡ waits.Opened → AreFree seats.new) }
    ensures keeps { (ts : List (Chunk W.Rows)) → RoundsKeep (X.state context.now) X.polls S.state W.split W.comes
        W.items
        (CacheAgrees S.state files.old.items (C.cache cache.old)) workers files.old.items files.new.items
        desks.new.items
        (C.cache cache.old) (C.cache cache.new) (with_taken ts drive.old) }
    ensures takes { Hands (made_by T.made (named_in order.now.items)) T.fits K.takes sink.old sink.new
        (λ us. (ts : List (Chunk W.Rows)) → WaitTakes (X.state context.now) S.state W.split W.comes W.items
        files.old.items (C.cache cache.old) (with_taken ts drive.old) (ts ++ us)) }
    ensures comes { IfOk result (λ w. WaitsFor w (K.full sink.new) (λ r.
        Hands (made_by T.made (named_in order.now.items)) T.fits K.takes sink.old sink.new
        (λ us. (drive.new.chunks.items ≡ []) × ((ts : List (Chunk W.Rows)) → WaitComes (X.state context.now) X.polls
        (X.refuses context.now) (X.admits context.now) S.state W.split W.comes W.items r files.old.items files.new.items
        desks.new.items (C.cache cache.old) (C.cache cache.new) (with_taken ts drive.old) (with_taken (ts ++ us)
        drive.new))))) }
    ensures stops { IfErr result (λ e. (us : List (Chunk W.Rows)) × ((ts : List (Chunk W.Rows)) → WaitStops
        (X.state context.now) X.polls (X.refuses context.now) (X.admits context.now) S.state W.split W.comes W.items
        files.old.items files.new.items (C.cache cache.old) (with_taken ts drive.old) (with_taken (ts ++ us)
        drive.new) e)) }
{
    'rounds: loop {
        let ordered = drive.ordered;
        let round = match make_round(
            rt, alloc, gate, context, files, desks, cache, drive, workers, seats,
        ) {
            Ok(round) => round,
            Err(fault) => {
                let handed = hand_first(&mut drive.chunks, ordered, &fault, order, sink);
                return end_wait(handed, fault);
            }
        };
        match hand_over(&mut drive.chunks, order, sink) {
            Ok(Flow::More) => {}
            Ok(Flow::Stop) => return Ok(Wait::Stopped),
            Err(_) => return Err(RoundFault::Split(DriveFault::NoMemory)),
        }
        match round {
            Round::More => {}
            Round::Opened => return Ok(Wait::Opened),
            Round::Done => return Ok(Wait::Done),
        }
    }
}

/// Rounds from the start until all is given or the limit is met, or the sink wants no more. Fewer files are unopened
/// after each answer of an opener. Where files are not read in order, those that are open are then brought before
/// those that are not: what is said here is said of the files as the exchanges leave them, and the order tells which
/// file stands at a place. Live requests are not dropped.
pub(crate) fn run_rounds<
    R: Threads + Sync,
    X: SplitOpener<O, W, F>,
    O: Drop,
    W: SplitWork + Drop + Send,
    F: Drop,
    S: SegmentSource + Drop,
    C: KeyedSegmentCache,
    G: Gate,
    T: FromChunk<W::Rows>,
    K: ChunkSink<T>,
>(
    rt: &R,
    alloc: Global,
    gate: &G,
    context: &X,
    files: &mut Vec<ScanFile<O, S>>,
    desks: &mut Vec<Desk>,
    cache: &mut C,
    drive: &mut Drive<W, W::Rows, F>,
    exchanges: &mut Vec<(usize, usize)>,
    order: &mut Vec<usize>,
    sink: &mut K,
    workers: usize,
    seats: &mut [Seat<Batch<W, W::Rows>>],
) -> Result<Flow, RoundFault<F>>
    requires workers { 0 < workers }
    requires free { AreFree seats.old }
    requires idle { All (IsIdle S.state) files.old.items }
    requires agree { DesksAgree S.state files.old.items desks.old.items }
    requires starts { Starts (length files.old.items) drive.old.left drive.old × HasRoom drive.old.left }
    requires none { (exchanges.old.items ≡ []) × (order.old.items ≡ range_with_len 0 (length files.old.items)) }
    ensures keeps { LineKeeps (X.state context.now) X.polls S.state W.split W.comes W.items workers files.old.items
        exchanges.new.items files.new.items desks.new.items (C.cache cache.old) (C.cache cache.new) drive.old }
    ensures order { order.new.items ≡ exchanged exchanges.new.items (range_with_len 0 (length files.old.items)) }
    ensures takes { Hands (made_by T.made (placed_by exchanges.new.items)) T.fits K.takes sink.old sink.new
        (DriveTakes (X.state context.now) S.state W.items drive.old.left drive.old.ordered
        (exchanged exchanges.new.items files.old.items) (C.cache cache.old)) }
    ensures runs { LineRuns (X.state context.now) X.polls (X.refuses context.now) (X.admits context.now) S.state
        W.split W.comes W.items T.made T.fits K.takes K.full result sink.old sink.new files.old.items
        exchanges.new.items files.new.items desks.new.items (C.cache cache.old) (C.cache cache.new) drive.old
        drive.new }
{
    'opens: loop {
        match wait_rounds(
            rt, alloc, gate, context, files, desks, cache, drive, order, sink, workers, seats,
        ) {
            Ok(Wait::Opened) => {}
            Ok(Wait::Done) => return Ok(Flow::More),
            Ok(Wait::Stopped) => return Ok(Flow::Stop),
            Err(fault) => return Err(fault),
        }
        let known = exchanges.len();
        let brought = bring_forward(files, desks, drive, exchanges, workers);
        swap_places(order, exchanges, known);
        match brought {
            Ok(()) => {}
            Err(_) => return Err(RoundFault::Split(DriveFault::NoMemory)),
        }
    }
}
