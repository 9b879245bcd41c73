//! Who holds a request of a shared table, and the events of one.
ghost use Rattle.std.specs.Prelude.{◌≡◌};

use scan_segments::{ByteBuffer, SegmentId};
use std::marker::Model;

/// The right to the answer of a shared request: a segment, and a number that no other holder of the table has at
/// the time.
#[derive(Debug, Drop)]
pub struct Holder {
    id: SegmentId,
    number: u64,
}

impl Model for Holder {
    ghost use Rattle.scan_sharing.specs.Holding.{Holding};

    ghost Value = { Holding };

    ghost view = { λ h. record { id = h.id; number = h.number } };
}

impl Holder {
    pub(crate) fn new(id: SegmentId, number: u64) -> Self
        ensures { result ≡ record { id = id; number = number } }
    {
        Holder { id, number }
    }

    /// The segment that was asked for.
    pub fn id(&self) -> SegmentId
        ensures { result ≡ self.now.id }
    {
        self.id
    }

    /// The number of the holder.
    pub fn number(&self) -> u64
        ensures { result ≡ self.now.number }
    {
        self.number
    }
}

/// How a shared request ended. A failure carries the source's count of faults at that moment.
#[derive(Drop)]
pub enum SharedAnswer {
    Bytes(ByteBuffer),
    Missing,
    Failed(u64),
}

/// The kind of an answer: bytes, missing, or failed with the source's count of faults.
#[derive(Clone, Copy, Debug, PartialEq, Eq)]
pub enum SharedKind {
    Bytes,
    Missing,
    Failed(u64),
}

/// What a poll of a shared request gives.
#[derive(Drop)]
pub enum SharedPolled {
    Pending,
    Bytes(ByteBuffer),
    Missing,
    Failed(u64),
    NoMemory,
}

/// What happens to a shared table. An event that names a holder has its id and its number.
#[derive(Drop)]
pub enum SharedEvent<A> {
    Requested(SegmentId, u64),
    Arrived(SegmentId, A),
    Dropped(SegmentId, u64),
}

/// What a poll of a ticket gives. `NotHeld` is the answer for the ticket of another shared source.
#[derive(Drop)]
pub enum TicketPolled {
    Pending,
    Bytes(ByteBuffer),
    Missing,
    Failed(u64),
    NoMemory,
    NotHeld,
}
