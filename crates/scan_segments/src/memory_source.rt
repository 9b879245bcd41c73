//! A source in memory. Some of its polls fail or are pending, by their numbers.
ghost use Rattle.std.specs.Prelude.{◌≡◌, ◌⊎◌, ◌++◌, ◌∷◌, [], List, ℕ, OnOk, OnErr, None, Some, not, ◌==◌};
ghost use Rattle.std.specs.FinMap as map;
ghost use Rattle.std.specs.Ordering.{nat_cmp};
ghost use Rattle.std.specs.BTreeSet.{insert_key};
ghost use Rattle.scan_segments.specs.MemorySource.{MemoryState, source_state, asked_also, ended, PollsMemory};
ghost use Rattle.scan_segments.specs.Source.{has, Begins, Stays, Ends, with_live, without_live};
ghost use Rattle.scan_segments.specs.Polled.{IsPolled};
ghost use Rattle.scan_segments.specs.Outcomes.{outcome_of};
ghost use Rattle.scan_segments.specs.declared.script.Outcome.TheVariants as outcome;
ghost use Rattle.scan_segments.specs.declared.source.Polled.TheVariants as polled;

use crate::requests::Requests;
use crate::script::{Outcome, Script};
use crate::segment::{ByteBuffer, SegmentId};
use crate::source::{Fits, Polled, Polls, SegmentSource};
use scan_values::{NoMemory, StrictSorted};
use std::alloc::Global;
use std::collections::{BTreeMap, BTreeSet};
use std::marker::Model;

/// Segments in memory, as a source of them. Contracts see its segments, its script, what was asked, what is live
/// and its faults.
#[derive(Drop)]
pub struct MemorySource {
    segments: BTreeMap<SegmentId, ByteBuffer>,
    script: Script,
    requests: Requests,
    faults: u64,
}

impl Model for MemorySource {
    ghost use Rattle.std.specs.FinMap as map;
    ghost use Rattle.scan_segments.specs.MemorySource.{MemoryState, memory_code};

    ghost Value = { MemoryState };

    ghost coded = { memory_code };

    ghost view = { λ a. record {
      segments = map.from_entries a.segments.entries;
      script = a.script;
      asked = a.requests.asked;
      live = a.requests.live;
      faults = a.faults;
    } };
}

impl MemorySource {
    /// A source of these segments. Its polls are numbered from 0: those in `failing` fail, and of the others those
    /// in `pending` are pending.
    pub fn new(
        alloc: Global,
        segments: BTreeMap<SegmentId, ByteBuffer>,
        failing: StrictSorted,
        pending: StrictSorted,
    ) -> Self
        ensures { result ≡ record {
          segments = map.from_entries segments.entries;
          script = record { failing = failing; pending = pending; next = Some 0 };
          asked = [];
          live = [];
          faults = 0;
        } }
    {
        MemorySource {
            segments,
            script: Script::new(failing, pending),
            requests: Requests::new(alloc),
            faults: 0,
        }
    }

    /// Each id that was asked, in order.
    pub fn asked(&self) -> &[SegmentId]
        ensures { result.now ≡ self.now.asked }
    {
        self.requests.asked()
    }

    /// The ids with a request that has not ended.
    pub fn live(&self) -> &BTreeSet<SegmentId>
        ensures { result.now.keys ≡ self.now.live }
    {
        self.requests.live()
    }

    /// How many polls failed, up to the greatest u64.
    pub fn faults(&self) -> u64
        ensures { result ≡ self.now.faults }
    {
        self.faults
    }

    fn end(&mut self, id: SegmentId)
        ensures after { self.new ≡ record self.old { live = ended id self.old.live } }
        ensures live { (λ k. has k (ended id self.old.live)) ≡ without_live id (λ k. has k self.old.live) }
    {
        self.requests.end(id);
    }
}

impl Fits for MemorySource {
    ghost fits = { λ id bytes. Unit {0} };
}

impl Polls for MemorySource {
    ghost polls = { λ s id t r. PollsMemory id s t r };
}

impl SegmentSource for MemorySource {
    ghost state = { source_state };

    fn request(&mut self, alloc: Global, id: SegmentId) -> Result<(), NoMemory>
        ensures ok { OnOk result (Begins id (source_state self.old) (source_state self.new)) }
        ensures err { OnErr result (Stays (source_state self.old) (source_state self.new)) }
        ensures asked { OnOk result (self.new ≡ asked_also id self.old) }
        ensures refused { OnErr result (self.new ≡ self.old) }
    {
        self.requests.begin(id)?;
        Ok(())
    }

    fn poll_segment(&mut self, alloc: Global, id: SegmentId) -> Polled
        ensures polled { IsPolled (λ id bytes. Unit {0}) id (source_state self.old) (source_state self.new) result }
        ensures exact { PollsMemory id self.old self.new result }
    {
        match self.script.step() {
            Outcome::Fails => {
                self.end(id);
                self.faults = self.faults.saturating_add(1);
                return Polled::Failed;
            }
            Outcome::Waits => return Polled::Pending,
            Outcome::Goes => {}
        }
        let Some(found) = self.segments.get(&id) else {
            self.end(id);
            return Polled::Missing;
        };
        let Ok(bytes) = found.try_clone() else {
            return Polled::NoMemory;
        };
        self.end(id);
        Polled::Bytes(bytes)
    }

    fn drop_request(&mut self, id: SegmentId)
        ensures ends { Ends id (source_state self.old) (source_state self.new) }
        ensures after { self.new ≡ record self.old { live = ended id self.old.live } }
    {
        self.end(id);
    }

    fn fault_count(&self) -> u64 {
        self.faults
    }
}
