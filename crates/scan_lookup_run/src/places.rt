//! Lists of places, as the input has them.
ghost use Rattle.std.specs.Prelude.{◌≡◌};

use scan_lookup::Place;
use std::marker::Model;

/// The places of one look-up. Contracts see them as a list.
#[derive(Drop)]
pub struct Places {
    items: Vec<Place>,
}

impl Model for Places {
    ghost use Rattle.std.specs.Prelude.{List};
    ghost use Rattle.scan_places.specs.declared.place.Place.{Place};

    ghost Value = { List Place };

    ghost view = { λ a. a.items.items };
}

impl Places {
    /// The places of a list.
    pub fn new(items: Vec<Place>) -> Self
        ensures { result ≡ items.items }
    {
        Places { items }
    }

    /// The list, lent.
    pub fn as_slice(&self) -> &[Place]
        ensures { result.now ≡ self.now }
    {
        self.items.as_slice()
    }
}

/// The places of look-ups, one after the other. Contracts see them as lists.
#[derive(Drop)]
pub struct Lookups {
    lists: Vec<Places>,
}

impl Model for Lookups {
    ghost use Rattle.std.specs.Prelude.{List};
    ghost use Rattle.scan_places.specs.declared.place.Place.{Place};

    ghost Value = { List (List Place) };

    ghost view = { λ a. a.lists.items };
}

impl Lookups {
    /// The look-ups of a list.
    pub fn new(lists: Vec<Places>) -> Self
        ensures { result ≡ lists.items }
    {
        Lookups { lists }
    }

    /// The list, lent.
    pub fn as_slice(&self) -> &[Places]
        ensures { result.now ≡ self.now }
    {
        self.lists.as_slice()
    }
}
