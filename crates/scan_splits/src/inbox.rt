//! What has arrived of the segments of a source. An own type: the Rust's futures await their segments.
ghost use Rattle.std.specs.Prelude.{◌≡◌, None, OnOk, OnErr, option_map, is_some};
ghost use Rattle.std.specs.FinMap as map;

use scan_segments::{ByteBuffer, SegmentId};
use scan_values::NoMemory;
use std::alloc::Global;
use std::collections::BTreeMap;
use std::marker::Model;

/// What came of a segment that was asked for.
#[derive(Drop)]
pub enum Arrival {
    Bytes(ByteBuffer),
    Missing,
}

/// What has arrived so far. Contracts see it as a finite map from ids to arrivals.
#[derive(Drop)]
pub struct Inbox {
    arrivals: BTreeMap<SegmentId, Arrival>,
}

impl Model for Inbox {
    ghost use Rattle.std.specs.FinMap as map;
    ghost use Rattle.scan_splits.specs.Arrivals.{Arrivals, arrivals_code};

    ghost Value = { Arrivals };

    ghost coded = { arrivals_code };

    ghost view = { λ a. map.from_entries a.arrivals.entries };
}

impl Inbox {
    /// Nothing has arrived.
    pub fn new(alloc: Global) -> Self
        ensures { result ≡ map.empty }
    {
        Inbox {
            arrivals: BTreeMap::new(alloc),
        }
    }

    /// What came of a segment of which nothing has arrived yet. After a refusal the inbox is as before.
    pub fn deliver(&mut self, id: SegmentId, arrival: Arrival) -> Result<(), NoMemory>
        requires { map.get self.old id ≡ None }
        ensures ok { OnOk result (self.new ≡ map.insert self.old id arrival) }
        ensures err { OnErr result (self.new ≡ self.old) }
    {
        self.arrivals.insert(id, arrival)?;
        Ok(())
    }

    /// Whether something has arrived of a segment.
    pub fn has(&self, id: SegmentId) -> bool
        ensures { result ≡ is_some (map.get self.now id) }
    {
        self.arrivals.contains_key(&id)
    }

    /// What has arrived of a segment.
    pub fn get(&self, id: SegmentId) -> Option<&Arrival>
        ensures { option_map (λ a. a.now) result ≡ map.get self.now id }
    {
        self.arrivals.get(&id)
    }
}
