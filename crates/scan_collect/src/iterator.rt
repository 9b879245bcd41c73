//! Iterators, read to their end.
ghost use Rattle.std.specs.Prelude.{◌≡◌, IfOk, Some, IfErr};
ghost use Rattle.scan_segments.specs.Source.{Store};
ghost use Rattle.scan_streams.specs.Sources.{SourceMoves};
ghost use Rattle.scan_streams.specs.Streams.{MayFeed, SameStream};
ghost use Rattle.scan_collect.specs.Gathers.{Gathers};
ghost use Rattle.scan_collect.specs.Reads.{IsFresh, IsReadOf, MayStop, values_given};

use crate::turn::{Turn, keep};
use scan_segments::SegmentSource;
use scan_streams::{ArrayIter, Identity, StreamFault};
use scan_values::Array;
use std::alloc::Global;

/// All arrays that an iterator gives, to its end. Over a source that tells what it holds they are the first rows of the
/// splits that are left, as many as its limit: in the order of the splits, or, where the scan has none, in some order of
/// them. No row is given twice, and none of a split that can't be read to its end.
///
/// It takes the time of its calls.
///
/// # Errors
/// `Source` only where the source can fail, `Corrupt` only where what it holds of a segment is no good, `Overflow` only
/// where a sum or difference is past its dtype. Else `NoMemory` alone.
pub fn read_iterator<E: Drop, S: SegmentSource + Drop>(
    alloc: Global,
    arrays: ArrayIter<Identity<E>, S>,
) -> Result<Vec<Array>, StreamFault<E>>
    ensures read { IfOk result (λ v. (store : Store) → (S.state arrays.source).holds ≡ Some store
        → IsFresh store (arrays.stream).feed → IsReadOf store (arrays.stream).feed (values_given v.items)) }
    ensures stops { IfErr result (MayStop (S.state arrays.source) ((arrays.stream).feed).splits) }
{
    let mut left = arrays;
    let mut made = Vec::new(alloc);
    'calls: loop {
        match gather(alloc, &mut left, &mut made) {
            Turn::More => {}
            Turn::Last => return Ok(made),
            Turn::Stop(fault) => return Err(fault),
        }
    }
}

/// Asks an iterator once, and keeps what it gives.
fn gather<E: Drop, S: SegmentSource + Drop>(
    alloc: Global,
    arrays: &mut ArrayIter<Identity<E>, S>,
    made: &mut Vec<Array>,
) -> Turn<E>
    ensures source { SourceMoves (MayFeed (S.state arrays.old.source).holds (arrays.old.stream).feed)
        (S.state arrays.old.source) (S.state arrays.new.source) }
    ensures same { SameStream arrays.old.stream arrays.new.stream }
    ensures gathers { Gathers (S.state arrays.old.source) (S.state arrays.new.source)
        (arrays.old.stream).feed (arrays.new.stream).feed made.old.items made.new.items result }
{
    match arrays.next(alloc) {
        Some(Ok(array)) => keep(made, array),
        Some(Err(fault)) => Turn::Stop(fault),
        None => Turn::Last,
    }
}
