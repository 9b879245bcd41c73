//! One request of a shared table: who holds it, and its answer once it has come.
ghost use Rattle.std.specs.Prelude.{◌≡◌, ◌<◌, ◌∷◌, [], None, Some, is_none, true, false, IfOk, IfErr, IfSome, OnOk, OnErr};
ghost use Rattle.scan_segments.specs.Source.{SourceState, without, Stays, Ends, has};
ghost use Rattle.scan_sharing.specs.Sharing.{Held, joined};
ghost use Rattle.scan_sharing.specs.SharedTables.{Gives, IsFound, IsOpen, PollsEntry, begun, has_others};
ghost use Rattle.scan_segments.specs.Polled.{PolledOnce};
ghost use Rattle.scan_sharing.specs.Kinds.{kind_in};
ghost use Rattle.scan_sharing.specs.declared.holder.SharedPolled.TheVariants as polled;

use crate::holder::{SharedAnswer, SharedKind, SharedPolled};
use scan_segments::{Polled, SegmentId, SegmentSource};
use scan_values::NoMemory;
use std::alloc::Global;
use std::collections::BTreeSet;
use std::marker::Model;

/// Who holds a request, by number, and its answer once it has come.
#[derive(Drop)]
pub(crate) struct Entry {
    holders: BTreeSet<u64>,
    answer: Option<SharedAnswer>,
}

impl Model for Entry {
    ghost use Rattle.scan_sharing.specs.declared.holder.SharedAnswer.{SharedAnswer};
    ghost use Rattle.scan_sharing.specs.Sharing.{Held};

    ghost Value = { Held SharedAnswer };

    ghost view = { λ e. record { holders = e.holders.keys; answer = e.answer } };
}

impl Entry {
    // A live request with one holder.
    pub(crate) fn new(alloc: Global, number: u64) -> Result<Entry, NoMemory>
        ensures { IfOk result (λ e. e ≡ begun number) }
    {
        let mut holders = BTreeSet::new(alloc);
        holders.insert(number)?;
        Ok(Entry {
            holders,
            answer: None,
        })
    }

    pub(crate) fn has(&self, number: u64) -> bool
        ensures { result ≡ has number self.now.holders }
    {
        self.holders.contains(&number)
    }

    pub(crate) fn is_live(&self) -> bool
        ensures { result ≡ is_none self.now.answer }
    {
        self.answer.is_none()
    }

    pub(crate) fn join(&mut self, number: u64) -> Result<(), NoMemory>
        ensures ok { OnOk result (self.new ≡ joined number (Some self.old)) }
        ensures err { OnErr result (self.new ≡ self.old) }
    {
        match self.holders.insert(number) {
            Ok(_) => Ok(()),
            Err(_) => Err(NoMemory),
        }
    }

    // Takes the number out of the holders, and answers whether there are others.
    pub(crate) fn leave(&mut self, number: u64) -> bool
        ensures left { self.new ≡ record { holders = without number self.old.holders; answer = self.old.answer } }
        ensures others { result ≡ has_others self.new }
    {
        take_number(&mut self.holders, number);
        !self.holders.is_empty()
    }

    // The answer that is kept, shared.
    fn kept(&self) -> Option<SharedPolled>
        ensures none { result ≡ None → self.now.answer ≡ None }
        ensures some { IfSome result (λ r. (is_none self.now.answer ≡ false) × Gives (Some self.now) r) }
    {
        match &self.answer {
            Some(answer) => Some(hand_out(answer)),
            None => None,
        }
    }

    // The kind of the answer that is kept.
    pub(crate) fn kind(&self) -> Option<SharedKind>
        ensures { result ≡ kind_in (Some self.now) }
    {
        match &self.answer {
            Some(SharedAnswer::Bytes(_)) => Some(SharedKind::Bytes),
            Some(SharedAnswer::Missing) => Some(SharedKind::Missing),
            Some(SharedAnswer::Failed(faults)) => Some(SharedKind::Failed(*faults)),
            None => None,
        }
    }

    fn keep(&mut self, answer: SharedAnswer)
        ensures { self.new ≡ record { holders = self.old.holders; answer = Some answer } }
    {
        self.answer = Some(answer);
    }

    // Gives the answer that is kept, or else polls the source and keeps what it answers.
    pub(crate) fn poll<S: SegmentSource>(
        &mut self,
        alloc: Global,
        id: SegmentId,
        source: &mut S,
    ) -> SharedPolled
        requires { (S.state source.old).live id ≡ is_none self.old.answer }
        ensures step { PollsEntry S.fits id (S.state source.old) (S.state source.new) self.old self.new }
        ensures once { PolledOnce S.polls id source.old source.new }
        ensures gives { Gives (Some self.new) result }
        ensures pending { result ≡ polled.Pending → (S.state source.new).turns < (S.state source.old).turns }
    {
        if let Some(polled) = self.kept() {
            return polled;
        }
        match ask(alloc, id, source) {
            Ok(answer) => {
                let polled = hand_out(&answer);
                self.keep(answer);
                polled
            }
            Err(polled) => polled,
        }
    }
}

// Takes the number out of the holders.
fn take_number(holders: &mut BTreeSet<u64>, number: u64)
    ensures { holders.new.keys ≡ without number holders.old.keys }
{
    holders.remove(&number);
}

// The answer that has come, shared.
fn hand_out(answer: &SharedAnswer) -> SharedPolled
    ensures { Gives (Some (record { holders = []; answer = Some answer.now })) result }
{
    match answer {
        SharedAnswer::Bytes(bytes) => match bytes.try_clone() {
            Ok(bytes) => SharedPolled::Bytes(bytes),
            Err(_) => SharedPolled::NoMemory,
        },
        SharedAnswer::Missing => SharedPolled::Missing,
        SharedAnswer::Failed(faults) => SharedPolled::Failed(*faults),
    }
}

// Polls a request of the source that is live.
fn ask<S: SegmentSource>(
    alloc: Global,
    id: SegmentId,
    source: &mut S,
) -> Result<SharedAnswer, SharedPolled>
    requires { (S.state source.old).live id ≡ true }
    ensures once { PolledOnce S.polls id source.old source.new }
    ensures ended { OnOk result (Ends id (S.state source.old) (S.state source.new)) }
    ensures found { IfOk result (IsFound S.fits id (S.state source.old) (S.state source.new)) }
    ensures open { OnErr result (Stays (S.state source.old) (S.state source.new)) }
    ensures pending { IfErr result (IsOpen (S.state source.old) (S.state source.new)) }
{
    match source.poll_segment(alloc, id) {
        Polled::Pending => Err(SharedPolled::Pending),
        Polled::Bytes(bytes) => Ok(SharedAnswer::Bytes(bytes)),
        Polled::Missing => Ok(SharedAnswer::Missing),
        Polled::Failed => Ok(SharedAnswer::Failed(source.fault_count())),
        Polled::NoMemory => Err(SharedPolled::NoMemory),
    }
}
