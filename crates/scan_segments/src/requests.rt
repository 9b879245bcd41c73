//! The requests of a source, as one that is written anew keeps them.
ghost use Rattle.std.specs.Prelude.{◌≡◌, [], OnOk, OnErr};
ghost use Rattle.std.specs.Ordering.{nat_cmp};
ghost use Rattle.std.specs.BTreeMap.{is_at};
ghost use Rattle.std.specs.BTreeSet.{insert_key};
ghost use Rattle.std.specs.Set.{remove_key};
ghost use Rattle.scan_segments.specs.Source.{has, with_live, without_live};
ghost use Rattle.scan_segments.specs.Requests.{is_live, with_request, without_request};

use crate::segment::SegmentId;
use scan_values::NoMemory;
use std::alloc::Global;
use std::collections::BTreeSet;
use std::marker::Model;

/// What was asked of a source, in order, and which ids are live. A source that begins a request here where it is asked,
/// and ends it where it answers or the request is dropped, says by `source_of` what contracts see of it, and each clause
/// of `SegmentSource` on requests follows.
#[derive(Drop)]
pub struct Requests {
    asked: Vec<SegmentId>,
    live: BTreeSet<SegmentId>,
}

impl Model for Requests {
    ghost use Rattle.scan_segments.specs.Requests.{Requested};

    ghost Value = { Requested };

    ghost view = { λ r. record { asked = r.asked.items; live = r.live.keys } };
}

impl Requests {
    /// Nothing was asked.
    pub fn new(alloc: Global) -> Requests
        ensures { result ≡ record { asked = []; live = [] } }
    {
        Requests {
            asked: Vec::new(alloc),
            live: BTreeSet::new(alloc),
        }
    }

    /// Each id that was asked, in order.
    pub fn asked(&self) -> &[SegmentId]
        ensures { result.now ≡ self.now.asked }
    {
        self.asked.as_slice()
    }

    /// The ids with a request that has not ended.
    pub fn live(&self) -> &BTreeSet<SegmentId>
        ensures { result.now.keys ≡ self.now.live }
    {
        &self.live
    }

    /// Whether an id has a request that has not ended.
    pub fn is_live(&self, id: SegmentId) -> bool
        ensures { result ≡ is_live self.now id }
    {
        self.live.contains(&id)
    }

    /// The request of an id begins.
    pub fn begin(&mut self, id: SegmentId) -> Result<(), NoMemory>
        ensures begins { OnOk result (self.new ≡ with_request id self.old) }
        ensures live { OnOk result (is_live self.new ≡ with_live id (is_live self.old)) }
        ensures err { OnErr result (self.new ≡ self.old) }
    {
        self.asked.reserve(1)?;
        add_id(&mut self.live, id)?;
        self.asked.push_reserved(id);
        Ok(())
    }

    /// The request of an id ends.
    pub fn end(&mut self, id: SegmentId)
        ensures ends { self.new ≡ without_request id self.old }
        ensures live { is_live self.new ≡ without_live id (is_live self.old) }
    {
        drop_id(&mut self.live, id);
    }
}

// One more id of a set.
fn add_id(ids: &mut BTreeSet<SegmentId>, id: SegmentId) -> Result<(), NoMemory>
    ensures ok { OnOk result (ids.new.keys ≡ insert_key nat_cmp ids.old.keys id) }
    ensures live { OnOk result ((λ k. has k ids.new.keys) ≡ with_live id (λ k. has k ids.old.keys)) }
    ensures err { OnErr result (ids.new.keys ≡ ids.old.keys) }
{
    match ids.insert(id) {
        Ok(_) => Ok(()),
        Err(_) => Err(NoMemory),
    }
}

// The id out of a set.
fn drop_id(ids: &mut BTreeSet<SegmentId>, id: SegmentId)
    ensures keys { ids.new.keys ≡ remove_key (is_at (nat_cmp id)) ids.old.keys }
    ensures live { (λ k. has k ids.new.keys) ≡ without_live id (λ k. has k ids.old.keys) }
{
    ids.remove(&id);
}
