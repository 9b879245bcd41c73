//! A split that is being read: its array to come, and what has arrived for it. An own type: the Rust awaits a task.
ghost use Rattle.std.specs.Prelude.{◌≡◌, [], true, false, OnOk, OnErr, IfOk};
ghost use Rattle.scan_splits.specs.Wanted.{no_repeats};
ghost use Rattle.scan_plans.specs.Came.{came};
ghost use Rattle.scan_plans.specs.Futures.{SameFuture};
ghost use Rattle.scan_streams.specs.Runs.{RunData, new_run, with_arrival, run_waits, is_ready, PollsRun};

use scan_columns::Column;
use scan_plans::ArrayFuture;
use scan_segments::SegmentId;
use scan_splits::{Arrival, Inbox, Poll, WantedIds};
use scan_values::NoMemory;
use std::alloc::Global;
use std::marker::Model;

/// The answer of a poll of a run.
#[derive(Drop)]
pub enum RunPoll {
    Ready(Column),
    /// It waits for segments.
    Waits,
    /// A segment is missing or no good.
    Corrupt(SegmentId),
    /// A sum or difference is past its dtype.
    Overflow,
    NoMemory,
}

/// A split that is being read. Contracts see its array to come, what has arrived for it, and the ids that its last poll
/// wanted. It waits for those of which nothing has arrived, and is polled again when it waits for none.
#[derive(Drop)]
pub struct Run {
    future: ArrayFuture,
    inbox: Inbox,
    wanted: Option<WantedIds>,
    // for how many ids it waits
    left: usize,
}

impl Model for Run {
    ghost use Rattle.scan_streams.specs.Runs.{RunData, run_code, listed, lacks};

    ghost Value = { RunData };

    ghost coded = { run_code };

    ghost use Rattle.std.specs.Prelude.{◌≡◌, length, filter, true};
    ghost use Rattle.scan_splits.specs.Wanted.{no_repeats};

    ghost view = { λ r. record { future = r.future; inbox = r.inbox; wanted = listed r.wanted } };

    ghost invariant = { λ r. record {
      distinct : no_repeats (listed r.wanted) ≡ true;
      left : r.left ≡ length (filter (lacks r.inbox) (listed r.wanted));
    } };
}

impl Run {
    /// A split of which nothing has been read.
    pub fn new(alloc: Global, future: ArrayFuture) -> Run
        ensures { result ≡ new_run future }
    {
        Run {
            future,
            inbox: Inbox::new(alloc),
            wanted: None,
            left: 0,
        }
    }

    /// Whether it waits for nothing, so that a poll brings it on.
    pub fn is_ready(&self) -> bool
        ensures { result ≡ is_ready self.now }
    {
        self.left == 0
    }

    /// The ids that the last poll wanted.
    pub fn wanted(&self) -> &[SegmentId]
        ensures wanted { result.now ≡ self.now.wanted }
        ensures distinct { no_repeats self.now.wanted ≡ true }
    {
        match &self.wanted {
            Some(ids) => ids.as_slice(),
            None => &[],
        }
    }

    /// Polls its array.
    pub fn poll(&mut self, alloc: Global) -> RunPoll
        requires { is_ready self.old ≡ true }
        ensures answer { PollsRun self.old self.new result }
        ensures same { SameFuture (came self.old.inbox) self.new.future self.old.future }
        ensures inbox { self.new.inbox ≡ self.old.inbox }
    {
        match self.future.poll_column(alloc, &self.inbox) {
            Poll::Ready(array) => RunPoll::Ready(array),
            Poll::Pending(ids) => {
                self.left = ids.as_slice().len();
                self.wanted = Some(ids);
                RunPoll::Waits
            }
            Poll::Corrupt(id) => RunPoll::Corrupt(id),
            Poll::Overflow => RunPoll::Overflow,
            Poll::NoMemory => RunPoll::NoMemory,
        }
    }

    /// Takes what has arrived of an id that it waits for, and answers whether it waits for nothing now.
    /// After a refusal the run is as before.
    pub fn deliver(&mut self, id: SegmentId, arrival: Arrival) -> Result<bool, NoMemory>
        requires { run_waits self.old id ≡ true }
        ensures ok { OnOk result (self.new ≡ with_arrival id arrival self.old) }
        ensures ready { IfOk result (λ b. b ≡ is_ready self.new) }
        ensures err { OnErr result (self.new ≡ self.old) }
    {
        self.inbox.deliver(id, arrival)?;
        self.left -= 1;
        Ok(self.left == 0)
    }
}
