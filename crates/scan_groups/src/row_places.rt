//! The places of the groups of rows.
ghost use Rattle.std.specs.Prelude.{◌≡◌, ◌∷◌, [], ◌<◌, ◌≤◌, All, IfOk, length};

use crate::adding::past_last;
use scan_values::NoMemory;
use std::alloc::Global;
use std::marker::Model;

/// The place of the group of each of some rows, and a place past them. Contracts see a list of places.
#[derive(Drop)]
pub struct RowPlaces {
    places: Vec<usize>,
    end: usize,
}

impl Model for RowPlaces {
    ghost use Rattle.std.specs.Prelude.{◌<◌, All, List, ℕ};

    ghost Value = { List ℕ };

    ghost view = { λ a. a.places.items };

    ghost invariant = { λ a. All (λ p. p < a.end) a.places.items };
}

impl RowPlaces {
    pub(crate) fn new(places: Vec<usize>) -> Result<RowPlaces, NoMemory>
        ensures { IfOk result (λ ps. ps ≡ places.items) }
    {
        let end = past_last(&places)?;
        Ok(RowPlaces { places, end })
    }

    /// Places that are all below an end.
    pub(crate) fn below(places: Vec<usize>, end: usize) -> RowPlaces
        requires { All (λ p. p < end) places.items }
        ensures { result ≡ places.items }
    {
        RowPlaces { places, end }
    }

    /// The place of one row.
    pub(crate) fn of(alloc: Global, place: usize) -> Result<RowPlaces, NoMemory>
        ensures { IfOk result (λ ps. ps ≡ place ∷ []) }
    {
        RowPlaces::new(vec![in alloc; place; 1]?)
    }

    /// How many rows.
    pub fn len(&self) -> usize
        ensures { result ≡ length self.now }
    {
        self.places.len()
    }

    pub(crate) fn as_slice(&self) -> &[usize]
        ensures { result.now ≡ self.now }
    {
        self.places.as_slice()
    }

    /// A place past all of these, and one of so many at most, where these are of so many.
    pub(crate) fn end(&self, count: usize) -> Result<usize, NoMemory>
        ensures past { IfOk result (λ n. All (λ p. p < n) self.now) }
        ensures within { All (λ p. p < count) self.now → IfOk result (λ n. n ≤ count) }
    {
        if self.end <= count {
            return Ok(self.end);
        }
        past_last(&self.places)
    }
}
