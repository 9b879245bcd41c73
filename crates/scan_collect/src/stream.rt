//! Streams, read to their end.
ghost use Rattle.std.specs.Prelude.{◌≡◌, IfOk, Some, IfErr};
ghost use Rattle.scan_segments.specs.Source.{Store, none_live};
ghost use Rattle.scan_streams.specs.Sources.{SourceMoves};
ghost use Rattle.scan_streams.specs.Streams.{LiveAs, MayFeed, SameStream};
ghost use Rattle.scan_collect.specs.Gathers.{Gathers};
ghost use Rattle.scan_collect.specs.Reads.{IsFresh, IsReadOf, StopsBy, values_given};

use crate::turn::{Turn, keep};
use scan_segments::SegmentSource;
use scan_streams::{Identity, ScanStream, StreamFault, StreamPoll};
use scan_values::Array;
use std::alloc::Global;

/// All arrays that a stream gives over a source, to its end. Over a source that tells what it holds they are the first
/// rows of the splits that are left, as many as its limit: in the order of the splits, or, where the stream has none, in
/// some order of them. No row is given twice, and none of a split that can't be read to its end. Whatever is answered,
/// nothing is live in the end.
///
/// It takes the time of its polls, and polls again where the source puts off an answer.
///
/// # Errors
/// `Source` only where the source failed, `Corrupt` only where what it holds of a segment is no good, `Overflow` only
/// where a sum or difference is past its dtype. Else `NoMemory` alone.
pub fn read_stream<E: Drop, S: SegmentSource>(
    alloc: Global,
    stream: ScanStream<Identity<E>>,
    source: &mut S,
) -> Result<Vec<Array>, StreamFault<E>>
    requires live { LiveAs (S.state source.old).live (stream.feed).live }
    ensures read { IfOk result (λ v. (store : Store) → (S.state source.old).holds ≡ Some store
        → IsFresh store stream.feed → IsReadOf store stream.feed (values_given v.items)) }
    ensures stops { IfErr result (StopsBy (S.state source.old) (S.state source.new) (stream.feed).splits) }
    ensures idle { (S.state source.new).live ≡ none_live }
    ensures source { SourceMoves (MayFeed (S.state source.old).holds stream.feed)
        (S.state source.old) (S.state source.new) }
{
    let mut left = stream;
    let mut arrays = Vec::new(alloc);
    'polls: loop {
        match gather(alloc, &mut left, &mut arrays, source) {
            Turn::More => {}
            Turn::Last => {
                left.cancel(source);
                return Ok(arrays);
            }
            Turn::Stop(fault) => {
                left.cancel(source);
                return Err(fault);
            }
        }
    }
}

/// Polls a stream once, and keeps what it gives.
fn gather<E: Drop, S: SegmentSource>(
    alloc: Global,
    stream: &mut ScanStream<Identity<E>>,
    arrays: &mut Vec<Array>,
    source: &mut S,
) -> Turn<E>
    requires live { LiveAs (S.state source.old).live (stream.old.feed).live }
    ensures live { LiveAs (S.state source.new).live (stream.new.feed).live }
    ensures source { SourceMoves (MayFeed (S.state source.old).holds stream.old.feed)
        (S.state source.old) (S.state source.new) }
    ensures same { SameStream stream.old stream.new }
    ensures gathers { Gathers (S.state source.old) (S.state source.new) stream.old.feed stream.new.feed
        arrays.old.items arrays.new.items result }
{
    match stream.poll_next(alloc, source) {
        StreamPoll::Pending => Turn::More,
        StreamPoll::Item(array) => keep(arrays, array),
        StreamPoll::End => Turn::Last,
        StreamPoll::Fault(fault) => Turn::Stop(fault),
    }
}
