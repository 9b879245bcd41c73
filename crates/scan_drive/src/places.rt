//! Those that wait for a segment, by place.
ghost use Rattle.std.specs.Prelude.{◌≡◌, ◌∷◌, ◌++◌, [], true, false, IfOk, OnOk, OnErr};
ghost use Rattle.scan_values.specs.Selections.{is_among};
ghost use Rattle.scan_splits.specs.Wanted.{no_repeats, is_any};

use scan_values::NoMemory;
use std::alloc::Global;
use std::marker::Model;

/// Places of runs, at least one and each once. Contracts see the list of them.
#[derive(Drop)]
pub struct Places {
    places: Vec<usize>,
}

impl Model for Places {
    ghost use Rattle.std.specs.Prelude.{◌≡◌, ℕ, List, true};
    ghost use Rattle.scan_splits.specs.Wanted.{no_repeats, is_any};

    ghost Value = { List ℕ };

    ghost view = { λ a. a.places.items };

    ghost invariant = { λ a. record { distinct : no_repeats a.places.items ≡ true; any : is_any a.places.items ≡ true } };
}

impl Places {
    /// One place.
    pub fn one(alloc: Global, place: usize) -> Result<Places, NoMemory>
        ensures { IfOk result (λ p. p ≡ place ∷ []) }
    {
        let mut places = Vec::new(alloc);
        places.push(place)?;
        Ok(Places { places })
    }

    /// One more place. After a refusal they are as before.
    pub fn add(&mut self, place: usize) -> Result<(), NoMemory>
        requires { is_among self.old place ≡ false }
        ensures ok { OnOk result (self.new ≡ self.old ++ place ∷ []) }
        ensures err { OnErr result (self.new ≡ self.old) }
    {
        self.places.reserve(1)?;
        self.places.push_reserved(place);
        Ok(())
    }

    /// The places.
    pub fn as_slice(&self) -> &[usize]
        ensures places { result.now ≡ self.now }
        ensures distinct { no_repeats self.now ≡ true }
        ensures any { is_any self.now ≡ true }
    {
        &self.places
    }
}
