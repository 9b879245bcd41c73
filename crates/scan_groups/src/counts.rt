//! How many rows each group has.
ghost use Rattle.std.specs.Prelude.{◌≡◌, ◌+◌, ◌<◌, ◌≤◌, ◌^◌, [], All, IfOk, List, get_or, length, ℕ};
ghost use Rattle.scan_values.specs.Val.{Val};
ghost use Rattle.scan_groups.specs.Totals.{Adds, IsCount};

use crate::adding::grown;
use scan_values::NoMemory;
use std::alloc::Global;
use std::marker::Model;

/// At each place how many rows there are, and so many that none has more: a sum of them has not to be tested.
#[derive(Drop)]
pub(crate) struct Counts {
    counts: Vec<u64>,
    most: u64,
}

impl Model for Counts {
    ghost use Rattle.std.specs.Prelude.{◌≤◌, All, List, ℕ};

    ghost Value = { List ℕ };

    ghost view = { λ c. c.counts.items };

    ghost invariant = { λ c. All (λ n. n ≤ c.most) c.counts.items };
}

/// At each place the number of its rows, of which none is more than so many before.
#[inline(never)]
fn count_rows(counts: Vec<u64>, most: u64, places: &[usize]) -> Vec<u64>
    requires places { All (λ p. p < length counts.items) places.now }
    requires most { All (λ n. n ≤ most) counts.items }
    requires room { most + length places.now < 2 ^ 64 }
    ensures long { length result.items ≡ length counts.items }
    ensures most { All (λ n. n ≤ most + length places.now) result.items }
    ensures more { (vs : List Val) → length vs ≡ length places.now → Adds IsCount 0 places.now vs counts.items result.items }
{
    let mut counts = counts;
    for i in 0..places.len() {
        let place = places[i];
        counts[place] += 1;
    }
    counts
}

impl Counts {
    /// Of no rows.
    pub(crate) fn new(alloc: Global) -> Counts
        ensures { result ≡ [] }
    {
        Counts {
            counts: Vec::new(alloc),
            most: 0,
        }
    }

    fn made(counts: Vec<u64>, most: u64) -> Counts
        requires { All (λ n. n ≤ most) counts.items }
        ensures { result ≡ counts.items }
    {
        Counts { counts, most }
    }

    /// That of a place, which has no rows if it is behind the last.
    pub(crate) fn at(&self, place: usize) -> u64
        ensures { result ≡ get_or self.now place 0 }
    {
        match self.counts.get(place) {
            Some(count) => *count,
            None => 0,
        }
    }

    /// With further rows, each at a place below so many. More rows than a u64 holds are refused as want of memory.
    pub(crate) fn with_rows(self, groups: usize, places: &[usize]) -> Result<Counts, NoMemory>
        requires { All (λ p. p < groups) places.now }
        ensures short { IfOk result (λ ns. (n : ℕ) → length self ≤ n → groups ≤ n → length ns ≤ n) }
        ensures more { (vs : List Val) → length vs ≡ length places.now →
            IfOk result (λ ns. Adds IsCount 0 places.now vs self ns) }
    {
        let Counts { counts, most } = self;
        let Some(more) = most.checked_add(places.len() as u64) else {
            return Err(NoMemory);
        };
        let counts = count_rows(grown(counts, groups, 0)?, most, places);
        Ok(Counts::made(counts, more))
    }
}
