//! Files whose sources stand under another dtype, and back.
ghost use Rattle.std.specs.Prelude.{◌≡◌, ◌≤◌, ◌+◌, ◌++◌, [], All, IfOk, length, map, option_and_then, slice_get, vec_len, vec_capacity};
ghost use Rattle.std.specs.Fmt.{decimal};
ghost use Rattle.scan_values.specs.DataType.{DataType};
ghost use Rattle.scan_segments.specs.Source.{none_live};
ghost use Rattle.scan_opener.specs.Opener.{Given};
ghost use Rattle.scan_opener.specs.OpenerMemory.{given_of};
ghost use Rattle.scan_multi.specs.Lawful.{IsIdle};
ghost use Rattle.scan_widen.specs.Parts.{IsReadable};
ghost use Rattle.scan_widened.specs.Identity.{inner_of};
ghost use Rattle.scan_widened.specs.Sources.{Follow};
ghost use Rattle.scan_union.specs.Seats.{IsGivingOpener, IsSeat, IsSeatOf, back_all, make_all, rest_of};
ghost use Rattle.scan_union.specs.Under.{fault_over};

use crate::fault::UnionFault;
use scan_layout::LayoutRef;
use scan_multi::{MemoryOpener, ScanFault, ScanFile};
use scan_segments::{SegmentId, SegmentSource, SegmentSourceId};
use scan_values::{NoMemory, StrictSorted};
use scan_widen::{Behind, UnionLayout};
use scan_widened::UnionSource;
use std::alloc::Global;

/// A file as the scan of the other dtype has it.
pub(crate) type UnionFile<S> = ScanFile<MemoryOpener, UnionSource<S>>;

/// What a file is under the other dtype: an opener that gives its layout there, what stands behind its segments, and a name
/// for its source that no other file of the call has.
#[derive(Drop)]
pub(crate) struct Seat {
    pub(crate) opener: MemoryOpener,
    pub(crate) segments: Vec<Behind>,
    pub(crate) name: SegmentSourceId,
}

/// What is left of a file while its source is under the other dtype.
#[derive(Drop)]
pub(crate) struct Rest<O> {
    opener: O,
    source_id: SegmentSourceId,
}

fn no_numbers(alloc: Global) -> Result<StrictSorted, NoMemory>
    ensures { IfOk result (λ n. n ≡ []) }
{
    match StrictSorted::try_new(Vec::new(alloc)) {
        Ok(numbers) => Ok(numbers),
        Err(_) => Err(NoMemory),
    }
}

// An opener that gives this at once.
fn giving(alloc: Global, gives: Option<LayoutRef>) -> Result<MemoryOpener, NoMemory>
    ensures { IfOk result (IsGivingOpener (given_of gives)) }
{
    Ok(MemoryOpener::new(gives, no_numbers(alloc)?, no_numbers(alloc)?))
}

// The name of the source of the file at a place: its number.
fn name_of(alloc: Global, place: usize) -> Result<SegmentSourceId, NoMemory>
    ensures { IfOk result (λ n. n ≡ decimal place) }
{
    SegmentSourceId::new(alloc, format!(in alloc; "{place}")?)
}

/// What the file at a place is under the other dtype: `None` of one that is skipped.
pub(crate) fn seat_of(
    alloc: Global,
    place: usize,
    under: Option<UnionLayout>,
) -> Result<Seat, NoMemory>
    ensures { IfOk result (IsSeatOf place under) }
{
    match under {
        Some(UnionLayout { root, segments }) => Ok(Seat {
            opener: giving(alloc, Some(root))?,
            segments,
            name: name_of(alloc, place)?,
        }),
        None => Ok(Seat {
            opener: giving(alloc, None)?,
            segments: Vec::new(alloc),
            name: name_of(alloc, place)?,
        }),
    }
}

/// Puts the source of each file under the other dtype. What is left of the files is kept.
pub(crate) fn take_apart<O: Drop, S: SegmentSource + Drop>(
    alloc: Global,
    files: Vec<ScanFile<O, S>>,
    seats: Vec<Seat>,
    rests: &mut Vec<Rest<O>>,
    made: &mut Vec<UnionFile<S>>,
)
    requires even { length files.items ≡ length seats.items }
    requires rests { vec_len rests.old + length files.items ≤ vec_capacity rests.old }
    requires made { vec_len made.old + length files.items ≤ vec_capacity made.old }
    requires idle { All (λ f. (S.state f.source).live ≡ none_live) files.items }
    requires readable { All (λ s. All IsReadable s.segments.items) seats.items }
    ensures rests { rests.new.items ≡ rests.old.items ++ map rest_of files.items }
    ensures made { made.new.items ≡ made.old.items ++ make_all S.state files.items seats.items }
{
    for (file, seat) in files.into_iter().zip(seats) {
        let ScanFile {
            opener,
            source,
            source_id,
        } = file;
        let Seat {
            opener: giving,
            segments,
            name,
        } = seat;
        rests.push_reserved(Rest { opener, source_id });
        made.push_reserved(ScanFile {
            opener: giving,
            source: UnionSource::new(alloc, source, segments),
            source_id: name,
        });
    }
}

/// Puts the sources back into their files.
pub(crate) fn put_back<O: Drop, S: SegmentSource + Drop>(
    rests: Vec<Rest<O>>,
    made: Vec<UnionFile<S>>,
    files: &mut Vec<ScanFile<O, S>>,
)
    requires even { length rests.items ≡ length made.items }
    requires room { vec_len files.old + length rests.items ≤ vec_capacity files.old }
    ensures back { files.new.items ≡ files.old.items ++ back_all rests.items made.items }
    ensures follow { All (λ f. Follow S.state f.source) made.items }
{
    for (rest, file) in rests.into_iter().zip(made) {
        let Rest { opener, source_id } = rest;
        files.push_reserved(ScanFile {
            opener,
            source: file.source.into_inner(),
            source_id,
        });
    }
}

// The segment of a file behind one. Only a segment behind which one stands is asked or damaged.
fn inner_of<S: SegmentSource>(
    made: &[UnionFile<S>],
    place: usize,
    segment: SegmentId,
) -> Option<SegmentId>
    ensures { result ≡ option_and_then (λ f. inner_of f.source.behind segment) (slice_get made.now place) }
{
    match made.get(place) {
        Some(file) => file.source.inner_of(segment),
        None => None,
    }
}

/// A fault of the scan under the other dtype, as one of the files themselves.
pub(crate) fn fault_behind<S: SegmentSource>(made: &[UnionFile<S>], fault: ScanFault) -> UnionFault
    ensures { result ≡ fault_over (λ place segment. option_and_then (λ f. inner_of f.source.behind segment) (slice_get made.now place)) fault }
{
    match fault {
        ScanFault::Source { file, segment } => match inner_of(made, file, segment) {
            Some(segment) => UnionFault::Scan(ScanFault::Source { file, segment }),
            None => UnionFault::NoMemory,
        },
        ScanFault::Corrupt { file, segment } => match inner_of(made, file, segment) {
            Some(segment) => UnionFault::Scan(ScanFault::Corrupt { file, segment }),
            None => UnionFault::NoMemory,
        },
        _ => UnionFault::from(fault),
    }
}
