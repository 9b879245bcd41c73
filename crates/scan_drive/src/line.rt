//! Files in the order in which they open. After the Rust's `buffer_unordered` over files.
ghost use Rattle.std.specs.Prelude.{◌≡◌, ◌≤◌, ◌<◌, ◌+◌, ◌^◌, ◌-◌, ◌⊎◌, ℕ, [], true, false, List, IfOk, drop, length, slice_index_or};
ghost use Rattle.std.specs.List.{range_with_len};
ghost use Rattle.std.specs.List.Sorted.{SwapsInRange};
ghost use Rattle.scan_drive.specs.Actives.{AreSeats};
ghost use Rattle.scan_drive.specs.Ends.{gives_first};
ghost use Rattle.scan_drive.specs.Forward.{BringsForward, KeepsLine, split_fault_in, fault_in};
ghost use Rattle.scan_drive.specs.Handed.{HandsOver, EndsBy, made_by, named_in};
ghost use Rattle.scan_drive.specs.Line.{exchanged, restored, renamed};
ghost use Rattle.scan_drive.specs.Phases.{is_unopened, phase_at};
ghost use Rattle.scan_drive.specs.declared.delivery.DriveFault.TheVariants as faults;
ghost use Rattle.scan_drive.specs.declared.phase.Phase.TheVariants as phases;
ghost use Rattle.scan_drive.specs.declared.sink.Flow.TheVariants as flows;

use crate::delivery::{Chunk, DriveFault};
use crate::desk::Desk;
use crate::files::ScanFile;
use crate::outbox::Outbox;
use crate::phase::Phase;
use crate::round::{Drive, window_end};
use crate::settling::RoundFault;
use crate::sink::{ChunkSink, Flow, FromChunk};
use crate::work::SplitWork;
use scan_values::NoMemory;
use std::alloc::Global;

/// Whether the opener of a file has not answered.
fn is_shut<W, F>(phase: &Phase<W, F>) -> bool
    ensures shut { result ≡ true → phase.now ≡ phases.Unopened }
    ensures opened { result ≡ false → is_unopened phase.now ≡ 0 }
{
    match phase {
        Phase::Unopened => true,
        Phase::Queued(_, _) => false,
        Phase::Held(_) => false,
    }
}

/// Exchanges two places, of which the second is open, unless the first one is.
fn exchange<O: Drop, S: Drop, W: SplitWork + Drop, F: Drop>(
    files: &mut Vec<ScanFile<O, S>>,
    desks: &mut Vec<Desk>,
    drive: &mut Drive<W, W::Rows, F>,
    exchanges: &mut Vec<(usize, usize)>,
    front: usize,
    place: usize,
) -> Result<(), NoMemory>
    requires apart { front ≤ place }
    requires within { place < length drive.old.phases.items }
    requires files { length files.old.items ≡ length drive.old.phases.items }
    requires desks { length desks.old.items ≡ length drive.old.phases.items }
    requires opened { is_unopened (phase_at drive.old.phases.items place) ≡ 0 }
    ensures { BringsForward (place + 1) exchanges.old.items exchanges.new.items
        files.old.items files.new.items desks.old.items desks.new.items drive.old drive.new }
{
    if !is_shut(&drive.phases[front]) {
        return Ok(());
    }
    exchanges.push((front, place))?;
    files.swap(front, place);
    desks.swap(front, place);
    drive.phases.swap(front, place);
    Ok(())
}

/// Brings files that are open before those that are not, from one place to another.
fn bring_between<O: Drop, S: Drop, W: SplitWork + Drop, F: Drop>(
    files: &mut Vec<ScanFile<O, S>>,
    desks: &mut Vec<Desk>,
    drive: &mut Drive<W, W::Rows, F>,
    exchanges: &mut Vec<(usize, usize)>,
    first: usize,
    last: usize,
) -> Result<(), NoMemory>
    requires within { last ≤ length drive.old.phases.items }
    requires files { length files.old.items ≡ length drive.old.phases.items }
    requires desks { length desks.old.items ≡ length drive.old.phases.items }
    ensures { BringsForward last exchanges.old.items exchanges.new.items
        files.old.items files.new.items desks.old.items desks.new.items drive.old drive.new }
{
    let mut front = first;
    for place in first..last {
        if is_shut(&drive.phases[place]) {
            continue;
        }
        exchange(files, desks, drive, exchanges, front, place)?;
        front += 1;
    }
    Ok(())
}

/// Brings files that are open before those that are not, among those whose openers are polled. What was exchanged is pushed
/// to the log. Where files are read in order, nothing is.
pub(crate) fn bring_forward<O: Drop, S: Drop, W: SplitWork + Drop, F: Drop>(
    files: &mut Vec<ScanFile<O, S>>,
    desks: &mut Vec<Desk>,
    drive: &mut Drive<W, W::Rows, F>,
    exchanges: &mut Vec<(usize, usize)>,
    workers: usize,
) -> Result<(), NoMemory>
    requires files { length files.old.items ≡ length drive.old.phases.items }
    requires desks { length desks.old.items ≡ length drive.old.phases.items }
    requires seated { (free : List ℕ) × AreSeats drive.old.active.turns.items free drive.old.active.slots.items }
    ensures line { KeepsLine workers exchanges.old.items exchanges.new.items
        files.old.items files.new.items desks.old.items desks.new.items drive.old drive.new }
    ensures order { drive.old.ordered ≡ true → exchanges.new.items ≡ exchanges.old.items }
{
    if drive.ordered {
        return Ok(());
    }
    let first = drive.first;
    let last = window_end(
        false,
        &drive.active.turns,
        &drive.active.slots,
        first,
        workers,
        files.len(),
        false,
    );
    if last <= first {
        return Ok(());
    }
    bring_between(files, desks, drive, exchanges, first, last)
}

/// Undoes the exchanges, the last one first.
pub(crate) fn put_back<O: Drop, S: Drop>(
    files: &mut Vec<ScanFile<O, S>>,
    exchanges: &Vec<(usize, usize)>,
)
    requires { SwapsInRange (length files.old.items) exchanges.now.items }
    ensures { files.new.items ≡ restored exchanges.now.items files.old.items }
{
    let mut left = exchanges.len();
    while left > 0 {
        left -= 1;
        let (front, place) = exchanges[left];
        files.swap(front, place);
    }
}

/// The files by their numbers: each stands at its own place.
pub(crate) fn places_of(alloc: Global, files: usize) -> Result<Vec<usize>, NoMemory>
    ensures { IfOk result (λ order. order.items ≡ range_with_len 0 files) }
{
    let mut order = Vec::new(alloc);
    for file in 0..files {
        order.push(file)?;
    }
    Ok(order)
}

/// Exchanges places as the exchanges from one on do.
pub(crate) fn swap_places(order: &mut Vec<usize>, exchanges: &Vec<(usize, usize)>, from: usize)
    requires { SwapsInRange (length order.old.items) (drop from exchanges.now.items) }
    ensures { order.new.items ≡ exchanged (drop from exchanges.now.items) order.old.items }
{
    for k in from..exchanges.len() {
        let (front, place) = exchanges[k];
        order.swap(front, place);
    }
}

/// The file at a place.
fn file_at(order: &Vec<usize>, place: usize) -> usize
    ensures { result ≡ slice_index_or order.now.items place place }
{
    if place < order.len() {
        order[place]
    } else {
        place
    }
}

/// A chunk that is named by its file, in place of where that stood.
fn name_chunk<R>(chunk: Chunk<R>, order: &Vec<usize>) -> Chunk<R>
    ensures { result ≡ renamed (named_in order.now.items) chunk }
{
    let Chunk { file, rows } = chunk;
    Chunk {
        file: file_at(order, file),
        rows,
    }
}

/// Hands over what waits, each chunk under the name of its file, as long as the sink wants more.
pub(crate) fn hand_over<R: Drop, T: FromChunk<R>, K: ChunkSink<T>>(
    chunks: &mut Outbox<Chunk<R>>,
    order: &Vec<usize>,
    sink: &mut K,
) -> Result<Flow, NoMemory>
    ensures over { HandsOver (made_by T.made (named_in order.now.items)) T.fits K.takes result chunks.old.items
        chunks.new.items sink.old sink.new }
    ensures ends { IfOk result (λ f. EndsBy f (K.full sink.new) (chunks.new.items ≡ [])) }
{
    'waiting: loop {
        let Some(chunk) = chunks.pop() else {
            return Ok(Flow::More);
        };
        match sink.take(T::from_chunk(name_chunk(chunk, order))) {
            Ok(Flow::More) => {}
            Ok(Flow::Stop) => return Ok(Flow::Stop),
            Err(short) => return Err(short),
        }
    }
}

/// Names the file of a split's fault in place of where it stood.
fn name_split_fault(fault: DriveFault, order: &Vec<usize>) -> DriveFault
    ensures { result ≡ split_fault_in (named_in order.now.items) fault }
{
    match fault {
        DriveFault::NoMemory => DriveFault::NoMemory,
        DriveFault::Source { file, segment } => DriveFault::Source {
            file: file_at(order, file),
            segment,
        },
        DriveFault::Corrupt { file, segment } => DriveFault::Corrupt {
            file: file_at(order, file),
            segment,
        },
        DriveFault::Overflow { file } => DriveFault::Overflow {
            file: file_at(order, file),
        },
    }
}

/// Names the file of a fault in place of where it stood.
pub(crate) fn name_fault<F: Drop>(fault: RoundFault<F>, order: &Vec<usize>) -> RoundFault<F>
    ensures { result ≡ fault_in (named_in order.now.items) fault }
{
    match fault {
        RoundFault::Split(fault) => RoundFault::Split(name_split_fault(fault, order)),
        RoundFault::TooManyRows(file) => RoundFault::TooManyRows(file_at(order, file)),
        RoundFault::Refused(file, why) => RoundFault::Refused(file_at(order, file), why),
    }
}

/// Whether what a round has given is known where it ends with this fault.
fn gives_first<F>(ordered: bool, fault: &RoundFault<F>) -> bool
    ensures { result ≡ gives_first ordered fault.now }
{
    match fault {
        RoundFault::Split(DriveFault::NoMemory) => false,
        RoundFault::Split(DriveFault::Source { .. }) => ordered,
        RoundFault::Split(DriveFault::Corrupt { .. }) => ordered,
        RoundFault::Split(DriveFault::Overflow { .. }) => ordered,
        RoundFault::TooManyRows(_) => true,
        RoundFault::Refused(_, _) => true,
    }
}

/// Hands over what was given before a fault, where that is known.
pub(crate) fn hand_first<R: Drop, F, T: FromChunk<R>, K: ChunkSink<T>>(
    chunks: &mut Outbox<Chunk<R>>,
    ordered: bool,
    fault: &RoundFault<F>,
    order: &Vec<usize>,
    sink: &mut K,
) -> Result<Flow, NoMemory>
    ensures over { HandsOver (made_by T.made (named_in order.now.items)) T.fits K.takes result chunks.old.items
        chunks.new.items sink.old sink.new }
    ensures none { gives_first ordered fault.now ≡ false → K.takes sink.old [] sink.new }
    ensures ends { IfOk result (λ f. f ≡ flows.Stop → K.full sink.new) }
{
    if gives_first(ordered, fault) {
        return hand_over(chunks, order, sink);
    }
    Ok(Flow::More)
}
