//! A source, the table of its requests and their history, as a shared source keeps them under its lock.
ghost use Rattle.std.specs.Prelude.{◌≡◌, ◌≢◌, ◌⊎◌, ◌+◌, ◌<◌, ◌∷◌, ◌++◌, [], ℕ, false, ◌↔◌, IfOk, OnOk, OnErr};
ghost use Rattle.std.specs.Bool.{OnTrue, OnFalse};
ghost use Rattle.scan_segments.specs.Source.{none_live, Stays, Ends};
ghost use Rattle.scan_sharing.specs.Sharing.{entry_at, after, is_held, Same};
ghost use Rattle.scan_sharing.specs.SharedTables.{Asks, Polls};
ghost use Rattle.scan_segments.specs.Polled.{PolledOnce};
ghost use Rattle.scan_sharing.specs.Kinds.{kind_in, came, arrival};
ghost use Rattle.scan_sharing.specs.Tickets.{GivesTicket, HasFit};
ghost use Rattle.scan_sharing.specs.declared.holder.SharedEvent.TheVariants as event;
ghost use Rattle.scan_sharing.specs.declared.holder.TicketPolled.TheVariants as polled;

use crate::holder::{Holder, SharedEvent, SharedKind, TicketPolled};
use crate::shared::SharedTable;
use crate::ticket::as_ticket;
use scan_segments::{SegmentId, SegmentSource};
use scan_values::NoMemory;
use std::alloc::Global;
use std::marker::Model;

/// A source, the table of its requests, and what happened to them. Contracts see these, and the room for events to
/// come, which is at least the number of live ids and holders together.
#[derive(Drop)]
pub struct Locked<S: SegmentSource> {
    source: S,
    table: SharedTable,
    history: Vec<SharedEvent<SharedKind>>,
    spare: usize,
}

impl<S: SegmentSource> Model for Locked<S> {
    ghost use Rattle.scan_sharing.specs.Locks.{LockedState, IsKept};
    ghost use Rattle.std.specs.Prelude.{◌+◌, ◌≤◌, vec_len, vec_capacity};

    ghost Value = { LockedState S };

    ghost view = { λ l. record { source = l.source; table = l.table; history = l.history.items; spare = l.spare } };

    ghost invariant = { λ l. IsKept S.fits (S.state l.source).live l.table l.history.items l.spare
        × (vec_len l.history + l.spare ≤ vec_capacity l.history) };
}

impl<S: SegmentSource> Locked<S> {
    /// A source without a live request, of which nothing has been asked yet.
    pub fn new(alloc: Global, source: S) -> Locked<S>
        requires { (S.state source).live ≡ none_live }
        ensures { result ≡ record { source = source; table = []; history = []; spare = 0 } }
    {
        Locked {
            source,
            table: SharedTable::new(alloc),
            history: Vec::new(alloc),
            spare: 0,
        }
    }

    /// One more holder of the id, which is the event of a request. Only an id without an entry is asked of the source.
    pub fn request(&mut self, alloc: Global, id: SegmentId) -> Result<Holder, NoMemory>
        ensures table { IfOk result (λ h. (h.id ≡ id)
            × Same (entry_at self.new.table) (after (event.Requested id h.number) (entry_at self.old.table))) }
        ensures history { IfOk result (λ h. self.new.history ≡ self.old.history ++ event.Requested id h.number ∷ []) }
        ensures fresh { IfOk result (λ h. (i : ℕ) → is_held h.number (entry_at self.old.table i) ≡ false) }
        ensures asked { OnOk result (Asks (entry_at self.old.table id) id (S.state self.old.source)
            (S.state self.new.source)) }
        ensures err { OnErr result ((self.new.table ≡ self.old.table) × (self.new.history ≡ self.old.history)
            × (self.new.spare ≡ self.old.spare)) }
        ensures stays { OnErr result (Stays (S.state self.old.source) (S.state self.new.source)) }
    {
        if self.history.reserve(self.spare + 3).is_err() {
            return Err(NoMemory);
        }
        match self.table.request(alloc, id, &mut self.source) {
            Ok(holder) => {
                self.history
                    .push_reserved(SharedEvent::Requested(id, holder.number()));
                self.spare += 2;
                Ok(holder)
            }
            Err(refused) => Err(refused),
        }
    }

    /// Polls for a holder, and the source at most once for it. Where the poll finds the answer, that is the event of an
    /// arrival. It is `NotHeld` exactly where the table has no such holder, and then nothing happens.
    pub fn poll(&mut self, alloc: Global, h: &Holder) -> TicketPolled
        ensures held { result ≡ polled.NotHeld ↔ (is_held h.now.number (entry_at self.old.table h.now.id) ≡ false) }
        ensures not_held { result ≡ polled.NotHeld → self.new ≡ self.old }
        ensures step { result ≢ polled.NotHeld
            → Polls S.fits (S.state self.old.source) (S.state self.new.source) self.old.table self.new.table h.now.id }
        ensures once { PolledOnce S.polls h.now.id self.old.source self.new.source }
        ensures event { self.new.history ≡ self.old.history ++ arrival h.now.id (came (kind_in
            (entry_at self.old.table h.now.id)) (kind_in (entry_at self.new.table h.now.id))) }
        ensures gives { GivesTicket (entry_at self.new.table h.now.id) result }
        ensures pending { result ≡ polled.Pending → (S.state self.new.source).turns < (S.state self.old.source).turns }
        ensures fits { HasFit S.fits h.now.id result }
    {
        if !self.table.holds(h) {
            return TicketPolled::NotHeld;
        }
        let before = self.table.kind(h);
        let polled = self.table.poll(alloc, h, &mut self.source);
        match arrived(before, self.table.kind(h)) {
            Some(kind) => {
                self.history
                    .push_reserved(SharedEvent::Arrived(h.id(), kind));
                self.spare -= 1;
                as_ticket(polled)
            }
            None => as_ticket(polled),
        }
    }

    /// Gives a holder up, which is the event of a drop. It is false exactly where the table has no such holder, and
    /// then nothing happens. It takes no memory.
    pub fn drop_ticket(&mut self, h: Holder) -> bool
        ensures held { result ≡ is_held h.number (entry_at self.old.table h.id) }
        ensures not_held { OnFalse result (self.new ≡ self.old) }
        ensures table { OnTrue result (Same (entry_at self.new.table) (after (event.Dropped h.id h.number)
            (entry_at self.old.table))) }
        ensures history { OnTrue result (self.new.history ≡ self.old.history ++ event.Dropped h.id h.number ∷ []) }
        ensures source { Stays (S.state self.old.source) (S.state self.new.source)
            ⊎ Ends h.id (S.state self.old.source) (S.state self.new.source) }
    {
        if !self.table.holds(&h) {
            return false;
        }
        let event = SharedEvent::Dropped(h.id(), h.number());
        self.table.drop_holder(h, &mut self.source);
        self.history.push_reserved(event);
        self.spare -= 1;
        true
    }
}

// The kind of an answer that has come.
fn arrived(before: Option<SharedKind>, now: Option<SharedKind>) -> Option<SharedKind>
    ensures { result ≡ came before now }
{
    match before {
        Some(_) => None,
        None => now,
    }
}
