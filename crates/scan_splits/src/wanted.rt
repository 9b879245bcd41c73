//! The ids of the segments that a poll wants next. An own type: the Rust's futures await their segments.
ghost use Rattle.std.specs.Prelude.{◌≡◌, [], ◌∷◌, true, false, OnOk, OnErr, MatchOption};
ghost use Rattle.scan_values.specs.Selections.{is_among};
ghost use Rattle.scan_splits.specs.Wanted.{no_repeats, with_id, is_any};

use scan_segments::SegmentId;
use scan_values::NoMemory;
use std::alloc::Global;
use std::collections::BTreeSet;
use std::marker::Model;

/// Ids that are wanted: at least one, and each once. Contracts see the list of them.
#[derive(Drop)]
pub struct WantedIds {
    ids: Vec<SegmentId>,
}

impl Model for WantedIds {
    ghost use Rattle.std.specs.Prelude.{◌≡◌, ℕ, List, true};
    ghost use Rattle.scan_splits.specs.Wanted.{no_repeats, is_any};

    ghost Value = { List ℕ };

    ghost view = { λ a. a.ids.items };

    ghost invariant = { λ a. record { distinct : no_repeats a.ids.items ≡ true; any : is_any a.ids.items ≡ true } };
}

impl WantedIds {
    /// These ids, taken as they are.
    pub fn new(ids: Vec<SegmentId>) -> WantedIds
        requires distinct { no_repeats ids.items ≡ true }
        requires any { is_any ids.items ≡ true }
        ensures { result ≡ ids.items }
    {
        WantedIds { ids }
    }

    /// The ids, in the order in which they were first wanted.
    pub fn as_slice(&self) -> &[SegmentId]
        ensures ids { result.now ≡ self.now }
        ensures distinct { no_repeats self.now ≡ true }
        ensures any { is_any self.now ≡ true }
    {
        &self.ids
    }
}

/// Ids that are being collected, with a set of them beside. Contracts see the list of them, each once.
#[derive(Drop)]
pub struct Wants {
    ids: Vec<SegmentId>,
    known: BTreeSet<SegmentId>,
}

impl Model for Wants {
    ghost use Rattle.std.specs.Prelude.{◌≡◌, ℕ, List, true};
    ghost use Rattle.scan_values.specs.Selections.{is_among};
    ghost use Rattle.scan_splits.specs.Wanted.{no_repeats};

    ghost Value = { List ℕ };

    ghost view = { λ a. a.ids.items };

    ghost invariant = { λ a. record {
      distinct : no_repeats a.ids.items ≡ true;
      same : (id : ℕ) → is_among a.known.keys id ≡ is_among a.ids.items id;
    } };
}

impl Wants {
    /// No id.
    pub fn new(alloc: Global) -> Wants
        ensures { result ≡ [] }
    {
        Wants {
            ids: Vec::new(alloc),
            known: BTreeSet::new(alloc),
        }
    }

    /// The ids, in the order in which they were first wanted.
    pub fn as_slice(&self) -> &[SegmentId]
        ensures ids { result.now ≡ self.now }
        ensures distinct { no_repeats self.now ≡ true }
    {
        &self.ids
    }

    /// Whether an id is among them.
    pub fn has(&self, id: SegmentId) -> bool
        ensures { result ≡ is_among self.now id }
    {
        self.known.contains(&id)
    }

    /// One more id, unless it is among them. After a refusal the ids are as before.
    pub fn add(&mut self, id: SegmentId) -> Result<(), NoMemory>
        ensures ok { OnOk result (self.new ≡ with_id id self.old) }
        ensures err { OnErr result (self.new ≡ self.old) }
    {
        if self.has(id) {
            return Ok(());
        }
        self.ids.reserve(1)?;
        self.known.insert(id)?;
        self.ids.push_reserved(id);
        Ok(())
    }

    /// The ids, where there is one. It takes no memory.
    pub fn into_wanted(self) -> Option<WantedIds>
        ensures { MatchOption result (self ≡ []) (λ w. w ≡ self) }
    {
        let Wants { ids, known: _ } = self;
        if ids.is_empty() {
            return None;
        }
        Some(WantedIds::new(ids))
    }
}
