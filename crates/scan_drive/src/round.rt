//! A round over all files. An own type: the Rust runs the tasks of one file after the other.
ghost use Rattle.std.specs.Prelude.{◌≡◌, ◌≢◌, ◌≤◌, ◌<◌, ◌+◌, ◌-◌, ◌^◌, ◌⊎◌, [], ℕ, List, true, false, Some, None, OnOk, IfOk, IfErr, IfSome, MatchOption, length};
ghost use Rattle.scan_drive.specs.Batches.{AreFree};
ghost use Rattle.scan_drive.specs.Actives.{AreSeats};
ghost use Rattle.scan_drive.specs.Asks.{EachLinkedBut, IsWantedBy};
ghost use Rattle.scan_drive.specs.Chunks.{HasRoom, IsMore, IsCut};
ghost use Rattle.scan_drive.specs.Budgets.{BudgetData, IsBudget};
ghost use Rattle.scan_drive.specs.Before.{IsDone, SoundInOrder};
ghost use Rattle.scan_drive.specs.Drives.{DesksAgree, SourcesMove, FilesWithin};
ghost use Rattle.scan_drive.specs.Ends.{limit_in};
ghost use Rattle.scan_drive.specs.Handed.{with_taken};
ghost use Rattle.scan_drive.specs.Moves.{EachMoves, KeepsSources, tells};
ghost use Rattle.scan_drive.specs.Polls.{PollsOn};
ghost use Rattle.scan_drive.specs.Rounds.{IsReady, AreAsking, IsFrontFile, Stands};
ghost use Rattle.scan_drive.specs.Steps.{BringsIn, GivesNot, GivesOut, GivesRows, Serves};
ghost use Rattle.scan_drive.specs.Trades.{FilesTrade};
ghost use Rattle.scan_drive.specs.declared.delivery.Chunk.{Chunk};
ghost use Rattle.scan_drive.specs.declared.files.ScanFile.{ScanFile};
ghost use Rattle.scan_drive.specs.Windows.{AreBusy, IsWindow};
ghost use Rattle.scan_splits.specs.Wanted.{no_repeats};

use crate::active::{Active, first_of};
use crate::batch::Batch;
use crate::budget::Budget;
use crate::delivery::{Chunk, Delivered, DriveFault, deliver_in};
use crate::desk::Desk;
use crate::drive::fetch_files;
use crate::files::{ScanFile, open_files};
use crate::gate::Gate;
use crate::opening::SplitOpener;
use crate::outbox::Outbox;
use crate::phase::{Phase, Tally, Unclaimed, activate, all_claimed};
use crate::report::ScanReport;
use crate::slot::Slot;
use crate::wants::want_slots;
use crate::work::SplitWork;
use crate::workers::poll_in;
use scan_pool::Seat;
use scan_segments::{KeyedSegmentCache, SegmentSource};
use scan_values::NoMemory;
use std::alloc::Global;
use std::collections::VecDeque;
use std::thread::Threads;

/// How far a drive is.
#[derive(Drop)]
pub struct Drive<W, R, F> {
    pub phases: Vec<Phase<W, F>>,
    pub active: Active<W, R>,
    /// Chunks that are given and wait to be taken.
    pub chunks: Outbox<Chunk<R>>,
    /// No file below it has a split that is not active yet.
    pub first: usize,
    pub tally: Tally,
    /// How many rows may still be given, where there is a limit.
    pub left: Option<u64>,
    pub report: ScanReport,
    /// Whether rows are given in the order of files and splits.
    pub ordered: bool,
    /// What grants the rows of a limit in no order, where splits tell how many they give only once they are read.
    pub budget: Option<Budget>,
    /// What no split has claimed of a limit in no order, where splits claim rows before they are read.
    pub unclaimed: Option<Unclaimed>,
}

/// The file of the split whose turn it is.
fn front_file<W: Drop, R: Drop>(turns: &VecDeque<usize>, slots: &Vec<Slot<W, R>>) -> Option<usize>
    requires { (free : List ℕ) × AreSeats turns.now.items free slots.now.items }
    ensures { MatchOption result (turns.now.items ≡ []) (IsFrontFile turns.now.items slots.now.items) }
{
    match first_of(turns) {
        Some(place) => Some(slots[place].file),
        None => None,
    }
}

/// Below which file all is given: that of the split whose turn it is, or else this one.
fn finished<W: Drop, R: Drop>(
    turns: &VecDeque<usize>,
    slots: &Vec<Slot<W, R>>,
    first: usize,
) -> usize
    requires { (free : List ℕ) × AreSeats turns.now.items free slots.now.items }
    ensures none { turns.now.items ≡ [] → result ≡ first }
    ensures done { IsDone turns.now.items slots.now.items first result }
{
    match front_file(turns, slots) {
        Some(file) => file,
        None => first,
    }
}

/// Up to which file requests are polled: all that may have an active split.
fn fetch_end(first: usize, front: usize, files: usize) -> usize
    ensures within { result ≤ files }
    ensures all { (k : ℕ) → (k ≤ front) ⊎ (k ≤ first) → k < files → k < result }
{
    first.max(front).saturating_add(1).min(files)
}

/// How many splits may be active.
fn room_for(workers: usize) -> usize
    requires { 0 < workers }
    ensures { 0 < result }
{
    workers.saturating_mul(4)
}

/// One more than before, where a file is below this one and is not the last that was counted.
fn count_file(busy: usize, file: usize, last: usize, first: usize) -> usize
    requires { busy + 1 < 2 ^ 64 }
    ensures { ((file < first) × (result ≡ busy + 1)) ⊎ (((first ≤ file) ⊎ (file ≡ last)) × (result ≡ busy)) }
{
    if file >= first || file == last {
        return busy;
    }
    busy + 1
}

/// How many files below this one have active splits, of which those of one file stand together.
fn count_busy<W: Drop, R: Drop>(
    turns: &VecDeque<usize>,
    slots: &Vec<Slot<W, R>>,
    first: usize,
) -> usize
    requires { (free : List ℕ) × AreSeats turns.now.items free slots.now.items }
    ensures few { result ≤ length turns.now.items }
    ensures busy { AreBusy turns.now.items slots.now.items first result }
{
    let mut busy = 0;
    let mut last = first;
    for i in 0..turns.len() {
        let place = turns[i];
        let file = slots[place].file;
        busy = count_file(busy, file, last, first);
        last = file;
    }
    busy
}

/// Up to which file openers are polled, so many files from one on.
fn window(from: usize, room: usize, files: usize) -> usize
    ensures within { result ≤ files }
    ensures some { from < files → 0 < room → from < result }
    ensures most { result ≤ from + room }
{
    from.saturating_add(room).min(files)
}

/// How many files may be opened beside those that are busy: none where all is claimed.
fn free_places(workers: usize, busy: usize, closed: bool) -> usize
    ensures most { result ≤ workers - busy }
    ensures all { closed ≡ false → result ≡ workers - busy }
    ensures none { closed ≡ true → result ≡ 0 }
{
    if closed {
        return 0;
    }
    workers.saturating_sub(busy)
}

/// Up to which file openers are polled, so that no more files are unfinished than there are workers: in order those
/// from the front on, and in no order a file that is finished frees its place, as long as rows are left that no split
/// has claimed.
pub(crate) fn window_end<W: Drop, R: Drop>(
    ordered: bool,
    turns: &VecDeque<usize>,
    slots: &Vec<Slot<W, R>>,
    first: usize,
    workers: usize,
    files: usize,
    claimed: bool,
) -> usize
    requires { (free : List ℕ) × AreSeats turns.now.items free slots.now.items }
    ensures within { result ≤ files }
    ensures some { turns.now.items ≡ [] → first < files → 0 < workers → first < result }
    ensures window { IsWindow ordered workers turns.now.items slots.now.items first result }
    ensures none { ordered ≡ false → claimed ≡ true → turns.now.items ≢ [] → result ≤ first }
{
    if ordered {
        let done = finished(turns, slots, first);
        return window(done, workers, files);
    }
    let busy = count_busy(turns, slots, first);
    let closed = claimed && !turns.is_empty();
    window(first, free_places(workers, busy, closed), files)
}

/// Polls the openers of the files in the window, and makes splits active. It says whether an opener has answered.
/// What is said of the drive is so whatever was taken of it before.
pub(crate) fn bring_in<X: SplitOpener<O, W, F>, O, W: SplitWork + Drop, F: Drop, S: SegmentSource>(
    alloc: Global,
    context: &X,
    files: &mut Vec<ScanFile<O, S>>,
    drive: &mut Drive<W, W::Rows, F>,
    workers: usize,
) -> Result<bool, NoMemory>
    requires workers { 0 < workers }
    requires stands { Stands (length files.old.items) drive.old }
    ensures moves { EachMoves (X.state context.now) X.polls S.state (Unit {0}) files.old.items files.new.items }
    ensures sources { KeepsSources files.old.items files.new.items }
    ensures rest { (drive.new.chunks ≡ drive.old.chunks) × (drive.new.left ≡ drive.old.left) × (drive.new.report ≡ drive.old.report)
        × (drive.new.ordered ≡ drive.old.ordered) × (drive.new.budget ≡ drive.old.budget) }
    ensures brings { IfOk result (λ b. (ts : List (Chunk W.Rows)) → BringsIn (X.state context.now) X.polls
        (X.refuses context.now) (X.admits context.now) S.state W.split W.comes W.items b files.old.items files.new.items
        (with_taken ts drive.old) (with_taken ts drive.new)) }
    ensures polls { (ts : List (Chunk W.Rows)) → PollsOn (X.state context.now) W.items drive.old.ordered workers
        (limit_in W.split W.comes W.items (with_taken ts drive.old)) (tells (X.state context.now) S.state
        files.old.items)
        (SoundInOrder W.split W.comes W.items (tells (X.state context.now) S.state files.old.items) (with_taken ts
        drive.old))
        drive.old.phases.items files.old.items files.new.items }
{
    let first = drive.first;
    let last = window_end(
        drive.ordered,
        &drive.active.turns,
        &drive.active.slots,
        first,
        workers,
        files.len(),
        all_claimed(drive.unclaimed),
    );
    let opened = open_files(alloc, context, files, &mut drive.phases, first, last)?;
    let room = room_for(workers);
    drive.first = activate(
        alloc,
        &mut drive.phases,
        first,
        &mut drive.active,
        &mut drive.tally,
        room,
        &mut drive.unclaimed,
    )?;
    Ok(opened)
}

/// Whether the last split waits for the others: where it is cut, since it has claimed more rows than were left.
fn holds_last(cut: bool, budget: &Option<Budget>) -> bool
    ensures none { (b : BudgetData) → budget.now ≡ Some b → result ≡ false }
    ensures cut { budget.now ≡ None → result ≡ cut }
{
    match budget {
        Some(_) => false,
        None => cut,
    }
}

/// Polls the splits that wait for nothing, and gives the rows of those whose turn it is, or in no order of all that
/// are read, which of a limit a budget has granted, and where the last is cut those of the others before it. It
/// answers the places of the splits that wait for other segments now, or nothing once the limit is met.
pub(crate) fn give_out<R: Threads + Sync, W: SplitWork + Drop + Send, G: Gate>(
    rt: &R,
    alloc: Global,
    gate: &G,
    workers: usize,
    seats: &mut [Seat<Batch<W, W::Rows>>],
    ordered: bool,
    budget: &mut Option<Budget>,
    active: &mut Active<W, W::Rows>,
    chunks: &mut Outbox<Chunk<W::Rows>>,
    left: &mut Option<u64>,
    cut: bool,
) -> Result<Option<VecDeque<usize>>, DriveFault>
    requires workers { 0 < workers }
    requires free { AreFree seats.old }
    requires ready { (n : ℕ) × IsReady n active.old }
    requires room { HasRoom left.old }
    requires budget { IsBudget ordered left.old budget.old }
    ensures free { OnOk result (AreFree seats.new) }
    ensures waits { IfOk result (λ o. IfSome o (λ asking. GivesOut W.split W.comes W.items ordered asking.items
        active.old active.new left.new budget.new)) }
    ensures keeps { OnOk result (GivesRows W.split W.comes W.items active.old active.new chunks.old.items chunks.new.items) }
    ensures gives { IfOk result (λ o. MatchOption o
        (IsCut W.split W.comes W.items ordered active.old chunks.old.items chunks.new.items left.old)
        (λ asking. IsMore W.split W.comes W.items ordered active.old active.new chunks.old.items chunks.new.items
        left.old left.new)) }
    ensures stops { IfErr result (λ e. GivesNot W.split W.comes W.items ordered active.old active.new
        chunks.old.items chunks.new.items left.old left.new e) }
{
    let held = holds_last(cut, budget);
    let polled = match poll_in(
        rt,
        alloc,
        gate,
        workers,
        seats,
        budget,
        &mut active.slots,
        &active.turns,
    ) {
        Ok(polled) => polled,
        Err(_) => return Err(DriveFault::NoMemory),
    };
    match deliver_in(alloc, ordered, active, chunks, left, held) {
        Ok(Delivered::More) => match polled {
            Some(asking) => Ok(Some(asking)),
            // A budget that is used up meets the limit.
            None => unreachable!(),
        },
        Ok(Delivered::Full) => Ok(None),
        Err(fault) => Err(fault),
    }
}

/// Wants what the splits at these places want, and polls each live request of the files that are read once.
pub(crate) fn serve<W: SplitWork + Drop, O: Drop, S: SegmentSource + Drop, C: KeyedSegmentCache>(
    alloc: Global,
    files: &mut Vec<ScanFile<O, S>>,
    desks: &mut Vec<Desk>,
    cache: &mut C,
    slots: &mut Vec<Slot<W, W::Rows>>,
    turns: &VecDeque<usize>,
    asking: &mut VecDeque<usize>,
    report: &mut ScanReport,
    first: usize,
) -> Result<(), NoMemory>
    requires agree { DesksAgree S.state files.old.items desks.old.items }
    requires seated { (free : List ℕ) × AreSeats turns.now.items free slots.old.items }
    requires within { FilesWithin (length files.old.items) slots.old.items }
    requires once { no_repeats asking.old.items ≡ true }
    requires links { EachLinkedBut asking.old.items desks.old.items slots.old.items }
    requires asks { AreAsking asking.old.items slots.old.items }
    ensures agree { DesksAgree S.state files.new.items desks.new.items }
    ensures sources { SourcesMove S.state (IsWantedBy asking.old.items slots.old.items) files.old.items files.new.items }
    ensures trades { FilesTrade S.state files.old.items files.new.items (C.cache cache.old) (C.cache cache.new) }
    ensures serves { OnOk result (Serves S.state W.split W.comes W.items turns.now.items first
        files.old.items files.new.items desks.new.items (C.cache cache.old) (C.cache cache.new)
        report.old report.new slots.old.items slots.new.items) }
{
    want_slots(alloc, asking, files, desks, cache, slots, report)?;
    let Some(front) = front_file(turns, slots) else {
        return Ok(());
    };
    let last = fetch_end(first, front, files.len());
    fetch_files(alloc, files, desks, cache, slots, front, last)
}
