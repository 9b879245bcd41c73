//! The items of a stream over a source of its own. After the Rust's `scan::scan_builder`, whose iterators block.
ghost use Rattle.std.specs.Prelude.{◌≡◌};
ghost use Rattle.scan_streams.specs.Iters.{iter_data, as_poll};
ghost use Rattle.scan_streams.specs.Sources.{SourceMoves};
ghost use Rattle.scan_streams.specs.Streams.{LiveAs, MayFeed, SameStream, Answers};

use crate::fault::{StreamFault, StreamPoll};
use crate::map_step::MapStep;
use crate::stream::ScanStream;
use scan_segments::SegmentSource;
use scan_values::DType;
use std::alloc::Global;
use std::marker::Model;

/// What a map makes of the arrays of splits, over a source of its own. Contracts see the stream and the source.
#[derive(Drop)]
pub struct ArrayIter<M, S: SegmentSource> {
    stream: ScanStream<M>,
    source: S,
}

impl<M, S: SegmentSource> Model for ArrayIter<M, S> {
    ghost use Rattle.scan_streams.specs.Iters.{IterData, iter_data, iter_code};
    ghost use Rattle.scan_streams.specs.Streams.{LiveAs};

    ghost Value = { IterData M S };

    ghost coded = { iter_code M.code S.code };

    ghost view = { λ a. iter_data a.stream a.source };

    ghost invariant = { λ a. LiveAs (S.state a.source).live (a.stream.feed).live };
}

impl<M: MapStep + Drop, S: SegmentSource + Drop> ArrayIter<M, S> {
    /// The items of a stream over a source whose live requests are those of the stream.
    pub fn new(stream: ScanStream<M>, source: S) -> ArrayIter<M, S>
        requires live { LiveAs (S.state source).live (stream.feed).live }
        ensures { result ≡ iter_data stream source }
    {
        ArrayIter { stream, source }
    }

    /// The dtype of the arrays before the map.
    pub fn dtype(&self) -> &DType
        ensures { result.now ≡ ((self.now.stream).feed).dtype }
    {
        self.stream.dtype()
    }

    /// What the map makes of the next array, however often the source puts off an answer, and none where no array is left.
    /// A fault is given once; after it, and after none, there is none.
    pub fn next(&mut self, alloc: Global) -> Option<Result<M::Out, StreamFault<M::Fault>>>
        requires step { M.can_apply (self.old.stream).step }
        ensures source { SourceMoves (MayFeed (S.state self.old.source).holds (self.old.stream).feed)
            (S.state self.old.source) (S.state self.new.source) }
        ensures same { SameStream self.old.stream self.new.stream }
        ensures answer { Answers M.answers (S.state self.old.source) (S.state self.new.source)
            self.old.stream self.new.stream (as_poll result) }
    {
        next_item(alloc, &mut self.stream, &mut self.source)
    }
}

/// What the map of a stream makes of the next array, however often the source puts off an answer.
fn next_item<M: MapStep + Drop, S: SegmentSource>(
    alloc: Global,
    stream: &mut ScanStream<M>,
    source: &mut S,
) -> Option<Result<M::Out, StreamFault<M::Fault>>>
    requires step { M.can_apply stream.old.step }
    requires live { LiveAs (S.state source.old).live (stream.old.feed).live }
    ensures live { LiveAs (S.state source.new).live (stream.new.feed).live }
    ensures source { SourceMoves (MayFeed (S.state source.old).holds stream.old.feed)
        (S.state source.old) (S.state source.new) }
    ensures same { SameStream stream.old stream.new }
    ensures answer { Answers M.answers (S.state source.old) (S.state source.new)
        stream.old stream.new (as_poll result) }
{
    'polls: loop {
        match stream.poll_next(alloc, source) {
            StreamPoll::Pending => {}
            StreamPoll::Item(made) => return Some(Ok(made)),
            StreamPoll::End => return None,
            StreamPoll::Fault(fault) => return Some(Err(fault)),
        }
    }
}
