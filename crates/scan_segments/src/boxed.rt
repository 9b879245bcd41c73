//! Sources of different kinds in one list.
ghost use Rattle.std.specs.Prelude.{◌≡◌, ℕ, List};
ghost use Rattle.scan_segments.specs.Source.{SourceState};

use crate::segment::SegmentId;
use crate::source::{Fits, Polled, Polls, SegmentSource};
use scan_values::NoMemory;
use std::alloc::Global;

/// A boxed source. It passes each call on, once.
#[derive(Drop)]
pub struct BoxedSource(pub Box<dyn SegmentSource + Drop>);

impl Fits for BoxedSource {
    ghost fits = { λ id bytes. Unit {0} };
}

// One poll of a box is one poll of the source in it, whatever its type, and the box holds that source still.
impl Polls for BoxedSource {
    ghost use Rattle.std.specs.Prelude.{◌≡◌};

    ghost polls = { λ s id t r. (v : _) × (t.0 ≡ record s.0 { value = v })
        × (SegmentSource-box s.0).Polls.polls s.0.value id v r };
}

impl SegmentSource for BoxedSource {
    ghost state = { λ s. (SegmentSource-box s.0).SegmentSource.state s.0.value };

    fn request(&mut self, alloc: Global, id: SegmentId) -> Result<(), NoMemory> {
        self.0.request(alloc, id)
    }

    fn poll_segment(&mut self, alloc: Global, id: SegmentId) -> Polled {
        self.0.poll_segment(alloc, id)
    }

    fn drop_request(&mut self, id: SegmentId) {
        self.0.drop_request(id)
    }

    fn fault_count(&self) -> u64 {
        self.0.fault_count()
    }
}
