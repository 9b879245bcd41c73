//! One call over all files of a scan. After the Rust's `scan::multi`.
ghost use Rattle.std.specs.Prelude.{◌≡◌, ◌<◌, true, false, None, Ok, Err, All, IfOk, IfErr, option_map};
ghost use Rattle.scan_drive.specs.Budgets.{IsBudget};
ghost use Rattle.scan_drive.specs.Chunks.{HasRoom};
ghost use Rattle.scan_drive.specs.Drives.{IsIdle};
ghost use Rattle.scan_drive.specs.Drivings.{StopsDrive};
ghost use Rattle.scan_drive.specs.Forward.{fault_in};
ghost use Rattle.scan_drive.specs.Handed.{Hands, DriveTakes, EndsBy, named_in};
ghost use Rattle.scan_drive.specs.Runnings.{Starts};
ghost use Rattle.scan_drive.specs.Steps.{DriveGives, DriveKeeps};
ghost use Rattle.scan_drive.specs.declared.settling.RoundFault.{RoundFault};

use crate::active::Active;
use crate::budget::Budget;
use crate::delivery::DriveFault;
use crate::drive::{close_all, make_desks};
use crate::files::ScanFile;
use crate::gate::Gate;
use crate::line::{name_fault, places_of, put_back};
use crate::opening::SplitOpener;
use crate::outbox::Outbox;
use crate::phase::{Phase, Tally, Unclaimed};
use crate::pooled::{count_threads, run_pooled};
use crate::report::ScanReport;
use crate::round::Drive;
use crate::settling::RoundFault;
use crate::sink::{ChunkSink, Flow, FromChunk};
use crate::work::SplitWork;
use scan_pool::{Seated, boxes};
use scan_segments::{KeyedSegmentCache, SegmentSource};
use scan_values::NoMemory;
use std::alloc::Global;
use std::thread::Threads;

/// What a drive comes to: whether all was given, or the sink wanted no more, and how many segments were wanted.
#[derive(Clone, Copy, Debug, PartialEq, Eq)]
pub struct DriveEnd {
    pub flow: Flow,
    pub report: ScanReport,
}

/// What grants the rows of a limit in no order, where there is one and splits claim theirs once they are read.
fn budget_of(
    alloc: Global,
    limit: Option<u64>,
    ordered: bool,
    counted: bool,
) -> Result<Option<Budget>, NoMemory>
    requires { HasRoom limit }
    ensures { IfOk result (λ b. IsBudget ordered limit b) }
{
    if ordered || counted {
        return Ok(None);
    }
    match limit {
        None => Ok(None),
        Some(most) => Ok(Some(Budget::new(alloc, most)?)),
    }
}

/// What no split has claimed of a limit in no order, where splits claim rows before they are read: all of it.
fn unclaimed_of(limit: Option<u64>, ordered: bool, counted: bool) -> Option<Unclaimed>
    ensures order { ordered ≡ true → result ≡ None }
    ensures claims { ordered ≡ false → counted ≡ true → result ≡ option_map (λ n. record { rows = n; cut = false }) limit }
{
    if ordered || !counted {
        return None;
    }
    match limit {
        None => None,
        Some(rows) => Some(Unclaimed::new(rows)),
    }
}

/// Nothing is opened and nothing is given.
fn start<W: SplitWork + Drop, F: Drop>(
    alloc: Global,
    files: usize,
    limit: Option<u64>,
    ordered: bool,
    counted: bool,
) -> Result<Drive<W, W::Rows, F>, NoMemory>
    requires { HasRoom limit }
    ensures starts { IfOk result (λ d. Starts files limit d) }
    ensures order { IfOk result (λ d. d.ordered ≡ ordered) }
{
    let mut phases = Vec::new(alloc);
    for _ in 0..files {
        phases.push(Phase::Unopened)?;
    }
    Ok(Drive {
        phases,
        active: Active::new(alloc),
        chunks: Outbox::new(alloc),
        first: 0,
        tally: Tally::default(),
        left: limit,
        report: ScanReport::default(),
        ordered,
        budget: budget_of(alloc, limit, ordered, counted)?,
        unclaimed: unclaimed_of(limit, ordered, counted),
    })
}

/// What a drive comes to, with the file of a fault named in place of where it stood.
fn end_drive<F: Drop>(
    done: Result<Flow, RoundFault<F>>,
    report: ScanReport,
    order: &Vec<usize>,
) -> Result<DriveEnd, RoundFault<F>>
    ensures ok { IfOk result (λ e. (done ≡ Ok e.flow) × (e.report ≡ report)) }
    ensures err { IfErr result (λ e. (f : RoundFault F) × (done ≡ Err f) × (e ≡ fault_in (named_in order.now.items)
        f)) }
{
    match done {
        Ok(flow) => Ok(DriveEnd { flow, report }),
        Err(fault) => Err(name_fault(fault, order)),
    }
}

/// Gives the rows of all files to a sink, split by split as they are given, and no more of them than the limit: in
/// the order of files and splits, or else as they are read. What is given is handed over after each round, so that no
/// more is kept than what is active. Of a limit in no order splits claim rows before they are read, in the order in
/// which they become active, where their rows are counted by then, and none becomes active once all are claimed; or
/// else workers claim them as splits end. Where the sink wants no more, nothing else is read. After any answer the
/// files stand as they stood, no request is live, and the sink has taken a front of what is given where all is.
pub fn drive_files<
    R: Threads + Sync,
    X: SplitOpener<O, W, F>,
    O: Drop,
    W: SplitWork + Drop + Send,
    F: Drop,
    S: SegmentSource + Drop,
    C: KeyedSegmentCache,
    G: Gate,
    T: FromChunk<W::Rows>,
    K: ChunkSink<T>,
>(
    rt: &R,
    alloc: Global,
    gate: &G,
    context: &X,
    files: &mut Vec<ScanFile<O, S>>,
    cache: &mut C,
    sink: &mut K,
    workers: usize,
    limit: Option<u64>,
    ordered: bool,
    counted: bool,
) -> Result<DriveEnd, RoundFault<F>>
    requires workers { 0 < workers }
    requires idle { All (IsIdle S.state) files.old.items }
    requires limit { HasRoom limit }
    ensures keeps { DriveKeeps (X.state context.now) X.polls (X.admits context.now) S.state W.items limit ordered workers
        files.old.items files.new.items (C.cache cache.old) (C.cache cache.new) }
    ensures takes { Hands T.made T.fits K.takes sink.old sink.new
        (DriveTakes (X.state context.now) S.state W.items limit ordered files.old.items (C.cache cache.old)) }
    ensures gives { IfOk result (λ e. EndsBy e.flow (K.full sink.new)
        (Hands T.made T.fits K.takes sink.old sink.new (λ chunks. DriveGives (X.state context.now) X.polls
        (X.admits context.now) S.state W.items limit ordered files.old.items files.new.items
        (C.cache cache.old) (C.cache cache.new) chunks e.report))) }
    ensures fault { IfErr result (λ e. StopsDrive (X.state context.now) X.polls (X.refuses context.now)
        (X.admits context.now) S.state W.items limit ordered (C.cache cache.old) files.old.items files.new.items e) }
{
    let Ok(mut desks) = make_desks(alloc, files) else {
        return Err(RoundFault::Split(DriveFault::NoMemory));
    };
    let Ok(mut order) = places_of(alloc, files.len()) else {
        return Err(RoundFault::Split(DriveFault::NoMemory));
    };
    let Ok(drive) = start::<W, F>(alloc, files.len(), limit, ordered, counted) else {
        return Err(RoundFault::Split(DriveFault::NoMemory));
    };
    let Ok((seats, mut servers)) = boxes(alloc, count_threads(workers, &drive.budget)) else {
        return Err(RoundFault::Split(DriveFault::NoMemory));
    };
    let mut seated = Seated {
        seats,
        state: drive,
    };
    let mut exchanges = Vec::new(alloc);
    let done = run_pooled(
        rt,
        alloc,
        gate,
        context,
        files,
        &mut desks,
        cache,
        &mut seated,
        &mut exchanges,
        &mut order,
        sink,
        workers,
        servers.as_mut_slice(),
    );
    close_all(files, &mut desks);
    put_back(files, &exchanges);
    end_drive(done, seated.state.report, &order)
}
