//! A stream of what a map makes of the arrays of splits. After the Rust's `scan::repeated_scan`.
ghost use Rattle.std.specs.Prelude.{◌≡◌, ◌<◌, IfOk, length, map, min};
ghost use Rattle.scan_segments.specs.Source.{none_live};
ghost use Rattle.scan_streams.specs.Feeds.{new_feed, ReadsFew};
ghost use Rattle.scan_streams.specs.Grants.{HasRoom};
ghost use Rattle.scan_streams.specs.Sources.{SourceMoves, NoId};
ghost use Rattle.scan_streams.specs.Splits.{AllOf, new_split, reach};
ghost use Rattle.scan_streams.specs.Streams.{stream_data, LiveAs, MayFeed, SameStream, Answers, Maps, gives_itself, halt_fault};

use crate::claims::Claims;
use crate::fault::{Halt, StreamFault, StreamPoll};
use crate::feed::{Feed, FeedPoll};
use crate::map_step::{Identity, MapStep};
use crate::queue::SplitQueue;
use scan_columns::Column;
use scan_segments::SegmentSource;
use scan_values::{DType, NoMemory};
use std::alloc::Global;
use std::marker::Model;
use std::sync::Arc;

/// A stream of what a map makes of the arrays of splits, in split order or as they come. Contracts see what it reads (how
/// many splits at once, the splits that are still to be given, the ids that are live, the seat of its limit, and whether it
/// has ended), and the map.
#[derive(Drop)]
pub struct ScanStream<M> {
    feed: Feed,
    step: Arc<M>,
}

impl<M> Model for ScanStream<M> {
    ghost use Rattle.scan_streams.specs.Streams.{StreamData, stream_data, stream_code};

    ghost Value = { StreamData M };

    ghost coded = { stream_code M.code };

    ghost view = { λ s. stream_data s.feed s.step.value };
}

impl<M: MapStep + Drop> ScanStream<M> {
    /// A stream of the arrays of these splits, of which so many are read at once, or all where they are fewer. With claims
    /// each array's rows are claimed before it is mapped.
    pub fn new(
        alloc: Global,
        dtype: DType,
        splits: SplitQueue,
        ordered: bool,
        concurrency: usize,
        claims: Option<Claims>,
        step: Arc<M>,
    ) -> Result<ScanStream<M>, NoMemory>
        requires concurrency { 0 < concurrency }
        requires dtype { AllOf dtype (map new_split splits) }
        requires room { HasRoom claims (reach (map new_split splits)) }
        ensures { IfOk result (λ s. s ≡
            stream_data (new_feed dtype ordered (min concurrency (length splits)) (map new_split splits) claims)
            step.value) }
    {
        let feed = Feed::new(alloc, dtype, splits, ordered, concurrency, claims)?;
        Ok(ScanStream { feed, step })
    }

    /// The dtype of the arrays before the map.
    pub fn dtype(&self) -> &DType
        ensures { result.now ≡ (self.now.feed).dtype }
    {
        self.feed.dtype()
    }

    /// The law of what it reads: nothing of the splits behind the first so many as are read at once. It does nothing.
    pub fn reads_few_at_once(&self)
        ensures { ReadsFew (self.now.feed) }
    {
        self.feed.reads_few()
    }

    /// What the map makes of the next array, once that is there. A fault is given by the poll that meets it. Before a
    /// fault and before the end it drops what is live, and from then on each poll gives the end.
    pub fn poll_next<S: SegmentSource>(
        &mut self,
        alloc: Global,
        source: &mut S,
    ) -> StreamPoll<M::Out, M::Fault>
        requires step { M.can_apply self.old.step }
        requires live { LiveAs (S.state source.old).live (self.old.feed).live }
        ensures live { LiveAs (S.state source.new).live (self.new.feed).live }
        ensures source { SourceMoves (MayFeed (S.state source.old).holds self.old.feed)
            (S.state source.old) (S.state source.new) }
        ensures same { SameStream self.old self.new }
        ensures answer { Answers M.answers (S.state source.old) (S.state source.new) self.old self.new result }
    {
        match self.feed.next(alloc, source) {
            FeedPoll::Pending => StreamPoll::Pending,
            FeedPoll::Array(rows) => self.map(alloc, source, rows),
            FeedPoll::End => StreamPoll::End,
            FeedPoll::Halt(halt) => StreamPoll::Fault(fault_of(halt)),
        }
    }

    /// Drops all that is live.
    pub fn cancel<S: SegmentSource>(self, source: &mut S)
        requires { LiveAs (S.state source.old).live (self.feed).live }
        ensures idle { (S.state source.new).live ≡ none_live }
        ensures source { SourceMoves NoId (S.state source.old) (S.state source.new) }
    {
        let mut stream = self;
        stream.feed.end(source);
    }

    /// What the map makes of an array. A fault of the map ends the stream, and so does want of memory for the array.
    fn map<S: SegmentSource>(
        &mut self,
        alloc: Global,
        source: &mut S,
        rows: Column,
    ) -> StreamPoll<M::Out, M::Fault>
        requires step { M.can_apply self.old.step }
        requires live { LiveAs (S.state source.old).live (self.old.feed).live }
        ensures live { LiveAs (S.state source.new).live (self.new.feed).live }
        ensures source { SourceMoves NoId (S.state source.old) (S.state source.new) }
        ensures step { self.new.step ≡ self.old.step }
        ensures answer { Maps (M.answers self.old.step rows) self.old.feed self.new.feed result }
    {
        let Ok(array) = rows.to_array(alloc) else {
            self.feed.end(source);
            return StreamPoll::Fault(StreamFault::NoMemory);
        };
        match self.step.apply_step(array) {
            Ok(made) => StreamPoll::Item(made),
            Err(fault) => {
                self.feed.end(source);
                StreamPoll::Fault(StreamFault::Map(fault))
            }
        }
    }
}

impl<E: Drop> ScanStream<Identity<E>> {
    /// The next array as a column, once that is there: what `poll_next` gives, but no value is made for it. A fault is given
    /// by the poll that meets it. Before a fault and before the end it drops what is live, and from then on each poll gives
    /// the end.
    pub fn poll_column<S: SegmentSource>(
        &mut self,
        alloc: Global,
        source: &mut S,
    ) -> StreamPoll<Column, E>
        requires live { LiveAs (S.state source.old).live (self.old.feed).live }
        ensures live { LiveAs (S.state source.new).live (self.new.feed).live }
        ensures source { SourceMoves (MayFeed (S.state source.old).holds self.old.feed)
            (S.state source.old) (S.state source.new) }
        ensures same { SameStream self.old self.new }
        ensures answer { Answers gives_itself (S.state source.old) (S.state source.new) self.old self.new result }
    {
        match self.feed.next(alloc, source) {
            FeedPoll::Pending => StreamPoll::Pending,
            FeedPoll::Array(rows) => StreamPoll::Item(rows),
            FeedPoll::End => StreamPoll::End,
            FeedPoll::Halt(halt) => StreamPoll::Fault(fault_of(halt)),
        }
    }
}

/// The fault of a stream whose splits are not read any further.
fn fault_of<F>(halt: Halt) -> StreamFault<F>
    ensures { result ≡ halt_fault halt }
{
    match halt {
        Halt::Source(id) => StreamFault::Source(id),
        Halt::Corrupt(id) => StreamFault::Corrupt(id),
        Halt::Overflow => StreamFault::Overflow,
        Halt::NoMemory => StreamFault::NoMemory,
    }
}
