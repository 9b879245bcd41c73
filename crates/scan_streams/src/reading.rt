//! Splits that are being read, a number of them at once, and their arrays in turn. After the Rust's
//! `scan::repeated_scan`, which buffers tasks.
ghost use Rattle.std.specs.Prelude.{◌≡◌, ◌<◌, [], IfOk, OnOk, IfErr, length, map, min};
ghost use Rattle.scan_values.specs.DataType.{DataType};
ghost use Rattle.scan_streams.specs.Advances.{LooksOn, FetchesOn, Advances};
ghost use Rattle.scan_streams.specs.Desks.{Agree};
ghost use Rattle.scan_streams.specs.Looks.{Halts, MayAsk, Comes, Gives, next_items, next_dtype};
ghost use Rattle.scan_streams.specs.Readings.{Standing, Linked, ListsDone, slot_count, splits_of, turn_after, IsNews, IsTurn};
ghost use Rattle.scan_streams.specs.declared.fault.Halt.TheVariants as halt;
ghost use Rattle.scan_streams.specs.Slots.{slot_at, slot_split};
ghost use Rattle.scan_streams.specs.Sources.{SourceMoves, NoId};
ghost use Rattle.scan_streams.specs.Splits.{Goes, AllOf, new_split};

use crate::desk::Desk;
use crate::fault::Halt;
use crate::look::{fetch, look};
use crate::queue::SplitQueue;
use crate::slot::Slot;
use crate::start::{start_all, take};
use scan_columns::Column;
use scan_segments::SegmentSource;
use scan_values::NoMemory;
use std::alloc::Global;
use std::collections::VecDeque;

/// Splits that are being read. Those that are queued are started in order, one for each slot that is free. An array is
/// given when its split's turn is, or, without an order, when it is there.
#[derive(Drop)]
pub struct Reading {
    queue: SplitQueue,
    slots: Vec<Slot>,
    // the slot whose turn it is, where the order is kept
    head: usize,
    // the slots of splits that wait for nothing
    news: VecDeque<usize>,
    // the slots of arrays, where no order is kept
    done: VecDeque<usize>,
    desk: Desk,
    ordered: bool,
}

/// What comes next of splits that are being read.
#[derive(Drop)]
pub enum Next {
    /// The source put off an answer.
    Pending,
    /// The array of a split. It has rows.
    Array(Column),
    /// Nothing is left.
    End,
}

/// One step.
#[derive(Drop)]
pub(crate) enum Step {
    More,
    Array(Column),
    Pending,
    End,
}

impl Reading {
    /// Splits of which nothing has been read. So many are read at once, or all where they are fewer.
    pub fn new(
        alloc: Global,
        splits: SplitQueue,
        ordered: bool,
        concurrency: usize,
    ) -> Result<Reading, NoMemory>
        requires { 0 < concurrency }
        ensures stands { IfOk result (λ r. Standing r) }
        ensures splits { IfOk result (λ r. splits_of r ≡ map new_split splits) }
        ensures desk { IfOk result (λ r. r.desk ≡ []) }
        ensures ordered { IfOk result (λ r. r.ordered ≡ ordered) }
        ensures begun { IfOk result (λ r. slot_count r ≡ min concurrency (length splits)) }
    {
        let mut queue = splits;
        let count = concurrency.min(queue.len());
        let mut slots = Vec::with_capacity(alloc, count)?;
        let mut news = VecDeque::with_capacity(alloc, count)?;
        start_all(alloc, &mut slots, &mut queue, &mut news, count)?;
        Ok(Reading {
            queue,
            slots,
            head: 0,
            news,
            done: VecDeque::new(alloc),
            desk: Desk::new(alloc),
            ordered,
        })
    }

    /// Reads on until an array with rows is there, nothing is left, or the source has put off an answer.
    pub fn next<S: SegmentSource>(&mut self, alloc: Global, source: &mut S) -> Result<Next, Halt>
        requires stands { Standing self.old }
        requires agree { Agree (S.state source.old).live self.old.desk }
        ensures agree { Agree (S.state source.new).live self.new.desk }
        ensures source { SourceMoves (MayAsk (S.state source.old).holds (splits_of self.old))
            (S.state source.old) (S.state source.new) }
        ensures ordered { self.new.ordered ≡ self.old.ordered }
        ensures stands { OnOk result (Standing self.new) }
        ensures goes { IfOk result (λ n. Goes self.old.ordered (S.state source.old).holds (next_items n)
            (splits_of self.old) (splits_of self.new)) }
        ensures comes { IfOk result (λ n. Comes n self.new (S.state source.old) (S.state source.new)) }
        ensures dtype { IfOk result (λ n. (d : DataType) → AllOf d (splits_of self.old) → next_dtype d n) }
        ensures begun { OnOk result (slot_count self.new ≡ slot_count self.old) }
        ensures halts { IfErr result (λ h. Halts (S.state source.old) (S.state source.new) (splits_of self.old) h) }
    {
        'steps: loop {
            let step = match self.advance(alloc, source) {
                Ok(step) => step,
                Err(halt) => return Err(halt),
            };
            match step {
                Step::More => {}
                Step::Pending => return Ok(Next::Pending),
                Step::End => return Ok(Next::End),
                Step::Array(array) => {
                    if !array.is_empty() {
                        return Ok(Next::Array(array));
                    }
                }
            }
        }
    }

    /// Drops all that is live.
    pub fn close<S: SegmentSource>(&mut self, source: &mut S)
        requires { Agree (S.state source.old).live self.old.desk }
        ensures desk { self.new.desk ≡ [] }
        ensures ordered { self.new.ordered ≡ self.old.ordered }
        ensures splits { splits_of self.new ≡ splits_of self.old }
        ensures begun { slot_count self.new ≡ slot_count self.old }
        ensures agree { Agree (S.state source.new).live self.new.desk }
        ensures source { SourceMoves NoId (S.state source.old) (S.state source.new) }
    {
        self.desk.close(source);
    }

    /// Polls a split that has news, or else gives an array whose turn it is, or else polls what is live.
    fn advance<S: SegmentSource>(&mut self, alloc: Global, source: &mut S) -> Result<Step, Halt>
        requires stands { Standing self.old }
        requires agree { Agree (S.state source.old).live self.old.desk }
        ensures agree { Agree (S.state source.new).live self.new.desk }
        ensures source { SourceMoves (MayAsk (S.state source.old).holds (splits_of self.old))
            (S.state source.old) (S.state source.new) }
        ensures ordered { self.new.ordered ≡ self.old.ordered }
        ensures advances { IfOk result (λ s. Advances s self.old self.new (S.state source.old) (S.state source.new)) }
        ensures halts { IfErr result (λ h. Halts (S.state source.old) (S.state source.new) (splits_of self.old) h) }
    {
        if let Some(place) = self.first_news() {
            return self.look_at(alloc, source, place);
        }
        if let Some(place) = self.turn() {
            return self.give(alloc, place);
        }
        if self.desk.is_empty() {
            return Ok(Step::End);
        }
        self.fetch_live(alloc, source)
    }

    /// The first slot that has news, which is taken off their list.
    fn first_news(&mut self) -> Option<usize>
        ensures { IsNews self.old self.new result }
    {
        match self.news.pop_front() {
            Some(place) => Some(place),
            None => None,
        }
    }

    /// Polls the split in a slot that has news.
    fn look_at<S: SegmentSource>(
        &mut self,
        alloc: Global,
        source: &mut S,
        place: usize,
    ) -> Result<Step, Halt>
        requires agree { Agree (S.state source.old).live self.old.desk }
        requires links { Linked self.old.desk self.old.slots.items }
        requires done { ListsDone self.old.ordered self.old.slots.items self.old.done.items }
        ensures agree { Agree (S.state source.new).live self.new.desk }
        ensures source { SourceMoves
            (MayAsk (S.state source.old).holds (slot_split (slot_at self.old.slots.items place)))
            (S.state source.old) (S.state source.new) }
        ensures ordered { self.new.ordered ≡ self.old.ordered }
        ensures looks { IfOk result (λ s. LooksOn (S.state source.old).holds place self.old self.new s) }
        ensures halts { IfErr result (λ h. Halts (S.state source.old) (S.state source.new)
            (slot_split (slot_at self.old.slots.items place)) h) }
    {
        match look(
            alloc,
            source,
            &mut self.slots,
            &mut self.done,
            &mut self.desk,
            self.ordered,
            place,
        ) {
            Ok(()) => Ok(Step::More),
            Err(halt) => Err(halt),
        }
    }

    /// Polls what is live.
    fn fetch_live<S: SegmentSource>(&mut self, alloc: Global, source: &mut S) -> Result<Step, Halt>
        requires agree { Agree (S.state source.old).live self.old.desk }
        requires links { Linked self.old.desk self.old.slots.items }
        ensures agree { Agree (S.state source.new).live self.new.desk }
        ensures source { SourceMoves NoId (S.state source.old) (S.state source.new) }
        ensures ordered { self.new.ordered ≡ self.old.ordered }
        ensures fetches { IfOk result (λ s. FetchesOn self.old self.new (S.state source.old) (S.state source.new) s) }
        ensures halts { IfErr result (λ h. Halts (S.state source.old) (S.state source.new) [] h) }
    {
        match fetch(
            alloc,
            source,
            &mut self.slots,
            &mut self.news,
            &mut self.desk,
        ) {
            Ok(true) => Ok(Step::More),
            Ok(false) => Ok(Step::Pending),
            Err(halt) => Err(halt),
        }
    }

    /// The slot of an array whose turn it is.
    fn turn(&mut self) -> Option<usize>
        ensures { IsTurn self.old self.new result }
    {
        if !self.ordered {
            return match self.done.pop_front() {
                Some(place) => Some(place),
                None => None,
            };
        }
        match self.slots.get(self.head) {
            Some(Slot::Done(_)) => Some(self.head),
            _ => None,
        }
    }

    /// Gives the array in a slot, which goes to the next split.
    fn give(&mut self, alloc: Global, place: usize) -> Result<Step, Halt>
        ensures gives { IfOk result (λ s. Gives place self.old self.new s) }
        ensures desk { self.new.desk ≡ self.old.desk }
        ensures ordered { self.new.ordered ≡ self.old.ordered }
        ensures halts { IfErr result (λ h. h ≡ halt.NoMemory) }
    {
        let taken = take(
            alloc,
            &mut self.slots,
            &mut self.queue,
            &mut self.news,
            place,
        );
        match taken {
            Ok(Some(array)) => {
                self.head = after_turn(self.ordered, self.head, self.slots.len());
                Ok(Step::Array(array))
            }
            Ok(None) => Ok(Step::More),
            Err(_) => Err(Halt::NoMemory),
        }
    }
}

/// The place whose turn it is after one of so many: the next in the ring, where the order is kept.
fn after_turn(ordered: bool, place: usize, count: usize) -> usize
    ensures { result ≡ turn_after ordered place count }
{
    if !ordered {
        return place;
    }
    if place >= count {
        return 0;
    }
    if count - place > 1 {
        return place + 1;
    }
    0
}
