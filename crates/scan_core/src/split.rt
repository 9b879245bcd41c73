//! What a split of a scan gives. After the Rust's `scan::tasks`, whose tasks are async functions.
ghost use Rattle.std.specs.Prelude.{◌≡◌};
ghost use Rattle.scan_values.specs.Arrays.{ArrayData};
ghost use Rattle.scan_splits.specs.declared.poll.Poll.TheVariants.{Ready};
ghost use Rattle.scan_plans.specs.Came.{Came, came};
ghost use Rattle.scan_plans.specs.Futures.{FutureData, SameFuture};
ghost use Rattle.scan_plans.specs.Polled.{Polls};
ghost use Rattle.scan_core.specs.SplitData.{with_step};
ghost use Rattle.scan_core.specs.SplitPolls.{PollsSplit};

use scan_plans::ArrayFuture;
use scan_segments::SegmentId;
use scan_splits::{Inbox, Poll, WantedIds};
use scan_streams::MapStep;
use scan_values::Array;
use std::alloc::Global;
use std::marker::Model;
use std::sync::Arc;

/// The array of a split, and what is made of it. Contracts see the array future and the step.
#[derive(Drop)]
pub struct SplitFuture<M> {
    array: ArrayFuture,
    step: Arc<M>,
}

impl<M> Model for SplitFuture<M> {
    ghost use Rattle.scan_core.specs.SplitData.{SplitData, split_code, with_step};

    ghost Value = { SplitData M };

    ghost coded = { split_code M.code };

    ghost view = { λ a. with_step a.array a.step.value };
}

/// The answer of a poll of a split: what was made of its rows, or that none is left; the segments that are wanted next;
/// a segment that is missing or no good; why nothing was made of its rows; a sum or difference past its dtype; or want
/// of memory.
#[derive(Drop)]
pub enum SplitPoll<Out, Fault> {
    Ready(Option<Out>),
    Pending(WantedIds),
    Corrupt(SegmentId),
    Map(Fault),
    Overflow,
    NoMemory,
}

impl<M> SplitFuture<M> {
    /// An array future, and what is to be made of the array.
    pub fn new(array: ArrayFuture, step: Arc<M>) -> SplitFuture<M>
        ensures { result ≡ with_step array step.value }
    {
        SplitFuture { array, step }
    }
}

impl<M: Drop> SplitFuture<M> {
    /// The array future, of which nothing is made.
    pub fn into_array(self) -> ArrayFuture
        ensures { result ≡ self.future }
    {
        let SplitFuture { array, step: _step } = self;
        array
    }
}

impl<M: MapStep> SplitFuture<M> {
    /// What is made of the rows of the split, or what is wanted next. Its step is one that may be applied to any array.
    /// After any answer but `Pending` and `NoMemory` it is not to be polled again.
    pub fn poll(&mut self, alloc: Global, inbox: &Inbox) -> SplitPoll<M::Out, M::Fault>
        requires step { M.can_apply self.old.step }
        ensures answer { PollsSplit (M.answers self.old.step) (came inbox.now) self.old.future result }
        ensures same { SameFuture (came inbox.now) self.new.future self.old.future }
        ensures step { self.new.step ≡ self.old.step }
    {
        let poll = self.array.poll(alloc, inbox);
        answered(&*self.step, poll)
    }
}

/// The answer of a poll of a split, by that of its array.
fn answered<M: MapStep>(step: &M, poll: Poll<Array>) -> SplitPoll<M::Out, M::Fault>
    requires { M.can_apply step.now }
    ensures { (here : Came) (f : FutureData) → Polls here f poll → PollsSplit (M.answers step.now) here f result }
{
    match poll {
        Poll::Ready(array) => mapped(step, array),
        Poll::Pending(ids) => SplitPoll::Pending(ids),
        Poll::Corrupt(id) => SplitPoll::Corrupt(id),
        Poll::Overflow => SplitPoll::Overflow,
        Poll::NoMemory => SplitPoll::NoMemory,
    }
}

/// What a step makes of an array, where it has items.
fn mapped<M: MapStep>(step: &M, array: Array) -> SplitPoll<M::Out, M::Fault>
    requires { M.can_apply step.now }
    ensures { (here : Came) (f : FutureData) → Polls here f (Ready array) → PollsSplit (M.answers step.now) here f result }
{
    if array.is_empty() {
        return SplitPoll::Ready(None);
    }
    match step.apply_step(array) {
        Ok(made) => SplitPoll::Ready(Some(made)),
        Err(fault) => SplitPoll::Map(fault),
    }
}
