//! A source that threads share. After the Rust's `segments::shared`.
ghost use Rattle.std.specs.Prelude.{◌≡◌, ◌≢◌, IfOk, false};
ghost use Rattle.scan_segments.specs.Source.{none_live};
ghost use Rattle.scan_sharing.specs.Tickets.{HasFit};
ghost use Rattle.scan_sharing.specs.declared.holder.TicketPolled.TheVariants as polled;

use crate::holder::TicketPolled;
use crate::locked::Locked;
use crate::ticket::Ticket;
use scan_segments::{SegmentId, SegmentSource};
use scan_values::NoMemory;
use std::alloc::Global;
use std::sync::{Mutex, Wait};

/// A source with its table and history under one lock, and the number that its tickets carry. Each shared source
/// has a number of its own, which the caller gives.
#[derive(Drop)]
pub struct SharedSegmentSource<S: SegmentSource> {
    state: Mutex<Locked<S>>,
    number: u64,
}

impl<S: SegmentSource> SharedSegmentSource<S> {
    /// Shares a source that has no live request.
    pub fn new(alloc: Global, inner: S, number: u64) -> SharedSegmentSource<S>
        requires { (S.state inner).live ≡ none_live }
        ensures { result.number ≡ number }
    {
        SharedSegmentSource {
            state: Mutex::new(Locked::new(alloc, inner)),
            number,
        }
    }

    /// Joins the request of the id where one is held, or else asks the source. It may wait for the lock.
    pub fn request(&self, rt: &impl Wait, alloc: Global, id: SegmentId) -> Result<Ticket, NoMemory>
        ensures { IfOk result (λ t. (t.source ≡ self.now.number) × (t.holder.id ≡ id)) }
    {
        match self.state.lock(rt).request(alloc, id) {
            Ok(holder) => Ok(Ticket::new(self.number, holder)),
            Err(refused) => Err(refused),
        }
    }

    /// Gives the answer of the ticket's request, or polls the source. It may wait for the lock, and never for the
    /// segment.
    pub fn poll_ticket(&self, rt: &impl Wait, alloc: Global, t: &Ticket) -> TicketPolled
        ensures other { t.now.source ≢ self.now.number → result ≡ polled.NotHeld }
        ensures fits { HasFit S.fits t.now.holder.id result }
    {
        if t.source() != self.number {
            return TicketPolled::NotHeld;
        }
        self.state.lock(rt).poll(alloc, t.holder())
    }

    /// Gives a ticket up, and answers whether it was held. It takes no memory, and may wait for the lock.
    pub fn drop_ticket(&self, rt: &impl Wait, t: Ticket) -> bool
        ensures { t.source ≢ self.now.number → result ≡ false }
    {
        if t.source() != self.number {
            return false;
        }
        self.state.lock(rt).drop_ticket(t.into_holder())
    }
}
