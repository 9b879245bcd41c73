//! A source of segments: bytes by id, asked for and then polled. After the Rust's `segments::source`.
ghost use Rattle.std.specs.Prelude.{◌≡◌, ℕ, List, true, false, OnOk, OnErr};

use crate::segment::{ByteBuffer, SegmentId};
use scan_values::NoMemory;
use std::alloc::Global;

/// What a poll of a request gives. `Pending` and `NoMemory` leave the request live, any other answer ends it.
#[derive(Drop)]
pub enum Polled {
    Pending,
    Bytes(ByteBuffer),
    Missing,
    Failed,
    NoMemory,
}

/// What a type of sources says of an id and the bytes that come for it, whatever the source holds.
pub trait Fits {
    ghost use Rattle.std.specs.Prelude.{ℕ, List};

    ghost fits: { ℕ → List ℕ → Type 0 };
}

/// What one poll of a type of sources does: the source before, the id, the source after and the answer. Who polls another
/// source says by it that it polls once.
pub trait Polls {
    ghost use Rattle.std.specs.Prelude.{ℕ};
    ghost use Rattle.scan_segments.specs.declared.source.Polled.{Polled as Answer};

    ghost polls: { Self → ℕ → Self → Answer → Type 0 };
}

/// A source of the segments of one file. A request of an id is live until its answer or its drop.
pub trait SegmentSource: Fits + Polls {
    ghost use Rattle.scan_segments.specs.Source.{SourceState};

    /// What the source holds, what was asked, what is live, its faults and its turns.
    ghost state: { Self → SourceState };

    ghost use Rattle.std.specs.Prelude.{◌≡◌, true, false, OnOk, OnErr};
    ghost use Rattle.scan_segments.specs.Source.{Begins, Stays, Ends};
    ghost use Rattle.scan_segments.specs.Polled.{IsPolled};

    /// Asks for a segment that is not live. From then on it is.
    fn request(&mut self, alloc: Global, id: SegmentId) -> Result<(), NoMemory>
        requires { (state self.old).live id ≡ false }
        ensures ok { OnOk result (Begins id (state self.old) (state self.new)) }
        ensures err { OnErr result (Stays (state self.old) (state self.new)) };

    /// Polls the live request of a segment. It fails only where the count of faults rises, and is pending only
    /// where the turns fall.
    fn poll_segment(&mut self, alloc: Global, id: SegmentId) -> Polled
        requires { (state self.old).live id ≡ true }
        ensures polled { IsPolled Self.fits id (state self.old) (state self.new) result }
        ensures exact { Self.polls self.old id self.new result };

    /// Ends the live request of a segment.
    fn drop_request(&mut self, id: SegmentId)
        requires { (state self.old).live id ≡ true }
        ensures { Ends id (state self.old) (state self.new) };

    /// How often the source failed, up to the greatest u64.
    fn fault_count(&self) -> u64
        ensures { result ≡ (state self.now).faults };
}
