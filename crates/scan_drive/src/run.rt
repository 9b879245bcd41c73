//! A split that is being read, and what has arrived for it. An own type: the Rust awaits a task.
ghost use Rattle.std.specs.Prelude.{◌≡◌, true, OnOk, OnErr};
ghost use Rattle.scan_splits.specs.Wanted.{no_repeats};
ghost use Rattle.scan_drive.specs.Runs.{RunData, new_run, with_arrival, run_waits, is_ready, PollsRun};
ghost use Rattle.scan_drive.specs.Splits.{SameSplit};

use crate::work::SplitWork;
use scan_segments::SegmentId;
use scan_splits::{Arrival, Inbox, Poll, WantedIds};
use scan_values::NoMemory;
use std::alloc::Global;
use std::marker::Model;

/// The answer of a poll of a run.
#[derive(Drop)]
pub enum RunPoll<R> {
    Ready(R),
    /// It waits for segments.
    Waits,
    /// A segment is missing or no good.
    Corrupt(SegmentId),
    /// A sum or difference is past its dtype.
    Overflow,
    NoMemory,
}

/// A split that is being read. Contracts see the split, what has arrived for it, and the ids that its last poll wanted.
/// It waits for those of which nothing has arrived, and is polled again when it waits for none.
#[derive(Drop)]
pub struct Run<W> {
    work: W,
    inbox: Inbox,
    wanted: Option<WantedIds>,
    // for how many ids it waits
    left: usize,
}

impl<W> Model for Run<W> {
    ghost use Rattle.scan_drive.specs.Runs.{RunData, run_code, listed};
    ghost use Rattle.scan_drive.specs.Splits.{lacks};

    ghost Value = { RunData W };

    ghost coded = { run_code W.code };

    ghost use Rattle.std.specs.Prelude.{◌≡◌, length, filter, true};
    ghost use Rattle.scan_splits.specs.Wanted.{no_repeats};

    ghost view = { λ r. record { work = r.work; inbox = r.inbox; wanted = listed r.wanted } };

    ghost invariant = { λ r. record {
      distinct : no_repeats (listed r.wanted) ≡ true;
      left : r.left ≡ length (filter (lacks r.inbox) (listed r.wanted));
    } };
}

impl<W> Run<W> {
    /// A split of which nothing has been read.
    pub fn new(alloc: Global, work: W) -> Run<W>
        ensures { result ≡ new_run work }
    {
        Run {
            work,
            inbox: Inbox::new(alloc),
            wanted: None,
            left: 0,
        }
    }

    /// Whether it waits for nothing, so that a poll brings it on.
    pub fn is_ready(&self) -> bool
        ensures { result ≡ is_ready self.now }
    {
        self.left == 0
    }

    /// The ids that the last poll wanted.
    pub fn wanted(&self) -> &[SegmentId]
        ensures wanted { result.now ≡ self.now.wanted }
        ensures distinct { no_repeats self.now.wanted ≡ true }
    {
        match &self.wanted {
            Some(ids) => ids.as_slice(),
            None => &[],
        }
    }

    /// How many bytes have come of the ids that the last poll wanted.
    pub(crate) fn came(&self) -> usize {
        let mut bytes: usize = 0;
        for id in self.wanted() {
            if let Some(Arrival::Bytes(part)) = self.inbox.get(*id) {
                bytes = bytes.saturating_add(part.as_slice().len());
            }
        }
        bytes
    }

    /// Takes what has arrived of an id that it waits for. After a refusal the run is as before.
    pub fn deliver(&mut self, id: SegmentId, arrival: Arrival) -> Result<(), NoMemory>
        requires { run_waits self.old id ≡ true }
        ensures ok { OnOk result (self.new ≡ with_arrival id arrival self.old) }
        ensures err { OnErr result (self.new ≡ self.old) }
    {
        self.inbox.deliver(id, arrival)?;
        self.left -= 1;
        Ok(())
    }
}

impl<W: SplitWork> Run<W> {
    /// Polls its split.
    pub fn poll(&mut self, alloc: Global) -> RunPoll<W::Rows>
        requires { is_ready self.old ≡ true }
        ensures answer { PollsRun W.split W.comes W.items self.old self.new result }
        ensures same { SameSplit W.split W.comes self.old.inbox self.new.work self.old.work }
        ensures inbox { self.new.inbox ≡ self.old.inbox }
    {
        match self.work.poll(alloc, &self.inbox) {
            Poll::Ready(rows) => RunPoll::Ready(rows),
            Poll::Pending(ids) => {
                self.left = ids.as_slice().len();
                self.wanted = Some(ids);
                RunPoll::Waits
            }
            Poll::Corrupt(id) => RunPoll::Corrupt(id),
            Poll::Overflow => RunPoll::Overflow,
            Poll::NoMemory => RunPoll::NoMemory,
        }
    }
}
