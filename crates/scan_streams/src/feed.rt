//! The arrays of splits in turn, as many rows of each as a limit grants. After the Rust's `scan::repeated_scan` and `scan::limit`.
ghost use Rattle.std.specs.Prelude.{◌≡◌, ◌<◌, ◌+◌, true, false, IfOk, length, map, min};
ghost use Rattle.scan_segments.specs.Source.{none_live};
ghost use Rattle.scan_streams.specs.Feeds.{new_feed, ended_feed, ReadsFew};
ghost use Rattle.scan_streams.specs.Grants.{Grants, HasRoom, is_spent};
ghost use Rattle.scan_streams.specs.Looks.{MayAsk};
ghost use Rattle.scan_streams.specs.Sources.{SourceMoves, NoId};
ghost use Rattle.scan_streams.specs.Splits.{AllOf, new_split, reach};
ghost use Rattle.scan_streams.specs.Streams.{LiveAs, MayFeed, SameFeed, Feeds, FeedsOf, first_rows};

use crate::claims::Claims;
use crate::fault::Halt;
use crate::queue::SplitQueue;
use crate::reading::{Next, Reading};
use scan_columns::Column;
use scan_segments::SegmentSource;
use scan_values::{DType, NoMemory};
use std::alloc::Global;
use std::marker::Model;

/// The arrays of splits in turn, as many rows of each as a limit grants. Contracts see how many splits are read at once,
/// the splits that are still to be given, the ids that are live, the seat of the limit, and whether it has ended.
#[derive(Drop)]
pub(crate) struct Feed {
    dtype: DType,
    reading: Reading,
    claims: Option<Claims>,
    ended: bool,
}

impl Model for Feed {
    ghost use Rattle.scan_streams.specs.Feeds.{FeedData, feed_code, feed_of, IsFeed};

    ghost Value = { FeedData };

    ghost coded = { feed_code };

    ghost view = { λ f. feed_of f.dtype f.reading f.claims f.ended };

    ghost invariant = { λ f. IsFeed f.dtype f.reading f.claims f.ended };
}

/// What comes next of a feed. After `End` and `Halt` that is the end.
#[derive(Drop)]
pub(crate) enum FeedPoll {
    /// The source put off an answer.
    Pending,
    /// The rows of a split that are granted, at least one.
    Array(Column),
    End,
    Halt(Halt),
}

impl Feed {
    /// Splits of which nothing has been read. So many are read at once, or all where they are fewer.
    pub(crate) fn new(
        alloc: Global,
        dtype: DType,
        splits: SplitQueue,
        ordered: bool,
        concurrency: usize,
        claims: Option<Claims>,
    ) -> Result<Feed, NoMemory>
        requires concurrency { 0 < concurrency }
        requires dtype { AllOf dtype (map new_split splits) }
        requires room { HasRoom claims (reach (map new_split splits)) }
        ensures { IfOk result (λ f. f ≡ new_feed dtype ordered (min concurrency (length splits))
            (map new_split splits) claims) }
    {
        let reading = Reading::new(alloc, splits, ordered, concurrency)?;
        Ok(Feed {
            dtype,
            reading,
            claims,
            ended: false,
        })
    }

    /// The dtype of the arrays.
    pub(crate) fn dtype(&self) -> &DType
        ensures { result.now ≡ self.now.dtype }
    {
        &self.dtype
    }

    /// Of the splits behind those that are read at once nothing has been read.
    pub(crate) fn reads_few(&self)
        ensures { ReadsFew self.now }
    {
        let _ended = self.ended;
    }

    /// The granted rows of the next array, once that is there. Before it halts or ends it drops what is live.
    pub(crate) fn next<S: SegmentSource>(&mut self, alloc: Global, source: &mut S) -> FeedPoll
        requires live { LiveAs (S.state source.old).live self.old.live }
        ensures live { LiveAs (S.state source.new).live self.new.live }
        ensures source { SourceMoves (MayFeed (S.state source.old).holds self.old)
            (S.state source.old) (S.state source.new) }
        ensures same { SameFeed self.old self.new }
        ensures answer { Feeds (S.state source.old) (S.state source.new) self.old self.new result }
    {
        if self.ended {
            return FeedPoll::End;
        }
        if is_spent(&self.claims) {
            self.end(source);
            return FeedPoll::End;
        }
        self.read(alloc, source)
    }

    /// Drops all that is live. From then on there is nothing more.
    pub(crate) fn end<S: SegmentSource>(&mut self, source: &mut S)
        requires { LiveAs (S.state source.old).live self.old.live }
        ensures ended { self.new ≡ ended_feed self.old }
        ensures idle { (S.state source.new).live ≡ none_live }
        ensures source { SourceMoves NoId (S.state source.old) (S.state source.new) }
    {
        self.reading.close(source);
        self.ended = true;
    }

    /// What comes next of a feed that has not ended.
    fn read<S: SegmentSource>(&mut self, alloc: Global, source: &mut S) -> FeedPoll
        requires live { LiveAs (S.state source.old).live self.old.live }
        requires going { self.old.ended ≡ false }
        ensures live { LiveAs (S.state source.new).live self.new.live }
        ensures source { SourceMoves (MayAsk (S.state source.old).holds self.old.splits)
            (S.state source.old) (S.state source.new) }
        ensures same { SameFeed self.old self.new }
        ensures answer { Feeds (S.state source.old) (S.state source.new) self.old self.new result }
    {
        match self.reading.next(alloc, source) {
            Ok(Next::Pending) => FeedPoll::Pending,
            Ok(Next::Array(array)) => self.give(alloc, source, array),
            Ok(Next::End) => {
                self.end(source);
                FeedPoll::End
            }
            Err(halt) => {
                self.reading.close(source);
                self.ended = true;
                FeedPoll::Halt(halt)
            }
        }
    }

    /// As many rows of an array that was read as are granted.
    fn give<S: SegmentSource>(&mut self, alloc: Global, source: &mut S, array: Column) -> FeedPoll
        requires live { LiveAs (S.state source.old).live self.old.live }
        requires going { self.old.ended ≡ false }
        requires dtype { array.dtype ≡ self.old.dtype }
        requires rows { 0 < length array.items }
        requires room { HasRoom self.old.seat (length array.items + reach self.old.splits) }
        ensures live { LiveAs (S.state source.new).live self.new.live }
        ensures source { SourceMoves NoId (S.state source.old) (S.state source.new) }
        ensures same { SameFeed self.old self.new }
        ensures answer { FeedsOf array self.old self.new result }
    {
        let granted = claim(&mut self.claims, array.len());
        if granted == 0 {
            self.end(source);
            return FeedPoll::End;
        }
        match trim(alloc, array, granted) {
            Ok(rows) => FeedPoll::Array(rows),
            Err(_) => {
                self.end(source);
                FeedPoll::Halt(Halt::NoMemory)
            }
        }
    }
}

/// Whether nothing is granted any more.
fn is_spent(claims: &Option<Claims>) -> bool
    ensures { result ≡ is_spent claims.now }
{
    match claims {
        Some(claims) => claims.is_spent(),
        None => false,
    }
}

/// How many of so many rows are granted.
fn claim(claims: &mut Option<Claims>, rows: usize) -> usize
    requires { HasRoom claims.old rows }
    ensures grants { Grants claims.old rows result claims.new }
    ensures spent { result < rows → is_spent claims.new ≡ true }
{
    match claims {
        Some(claims) => claims.take(rows as u64) as usize,
        None => rows,
    }
}

/// The first rows of an array.
fn trim(alloc: Global, array: Column, rows: usize) -> Result<Column, NoMemory>
    ensures { IfOk result (λ a. a ≡ first_rows rows array) }
{
    if rows >= array.len() {
        return Ok(array);
    }
    array.slice(alloc, 0..rows)
}
