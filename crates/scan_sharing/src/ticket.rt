//! The right to the answer of a shared source.
ghost use Rattle.std.specs.Prelude.{◌≡◌};
ghost use Rattle.scan_sharing.specs.Tickets.{ticket_of};

use crate::holder::{Holder, SharedPolled, TicketPolled};
use scan_segments::SegmentId;
use std::marker::Model;

/// The right to the answer of one request of a shared source. Contracts see the number of that source, and the holder.
#[derive(Debug, Drop)]
pub struct Ticket {
    pub(crate) source: u64,
    pub(crate) holder: Holder,
}

impl Model for Ticket {
    ghost use Rattle.scan_sharing.specs.Holding.{Ticketing};

    ghost Value = { Ticketing };

    ghost view = { λ t. record { source = t.source; holder = t.holder } };
}

impl Ticket {
    pub(crate) fn new(source: u64, holder: Holder) -> Self
        ensures { result ≡ record { source = source; holder = holder } }
    {
        Ticket { source, holder }
    }

    /// The segment that was asked for.
    pub fn id(&self) -> SegmentId
        ensures { result ≡ self.now.holder.id }
    {
        self.holder.id()
    }

    /// The number of the shared source that gave the ticket.
    pub fn source(&self) -> u64
        ensures { result ≡ self.now.source }
    {
        self.source
    }

    pub(crate) fn holder(&self) -> &Holder
        ensures { result.now ≡ self.now.holder }
    {
        &self.holder
    }

    pub(crate) fn into_holder(self) -> Holder
        ensures { result ≡ self.holder }
    {
        self.holder
    }
}

pub(crate) fn as_ticket(polled: SharedPolled) -> TicketPolled
    ensures { result ≡ ticket_of polled }
{
    match polled {
        SharedPolled::Pending => TicketPolled::Pending,
        SharedPolled::Bytes(bytes) => TicketPolled::Bytes(bytes),
        SharedPolled::Missing => TicketPolled::Missing,
        SharedPolled::Failed(faults) => TicketPolled::Failed(faults),
        SharedPolled::NoMemory => TicketPolled::NoMemory,
    }
}
