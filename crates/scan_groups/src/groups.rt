//! The running totals of all groups.
ghost use Rattle.std.specs.Prelude.{◌≡◌, ◌++◌, ◌<◌, ◌+◌, ℕ, List, IfErr, IfOk, MatchOption, Some, map, [], ◌∷◌, true, false, length, replicate};
ghost use Rattle.std.specs.List.{list_all, slice_get};
ghost use Rattle.scan_values.specs.Values.{val_of};
ghost use Rattle.scan_groups.specs.Cells.{cell_val, run_vals};
ghost use Rattle.scan_groups.specs.Order.{are_scalars, is_scalar};
ghost use Rattle.scan_groups.specs.Places.{ArePlaces};
ghost use Rattle.scan_groups.specs.Rows.{Row, AreGroups, IsPast};
ghost use Rattle.scan_groups.specs.Running.{AreOf, HasGroupsCause, HasRead, HavePlaces, IsUnder, count_of, is_past_in, made_of, measures_in, reads_in, val_in};
ghost use Rattle.scan_groups.specs.Totals.{length_of, measured_by, total_val, val_at};
ghost use Rattle.scan_groups.specs.declared.measure.Measured.{Measured};

use crate::cell::Cell;
use crate::counts::Counts;
use crate::fault::GroupsFault;
use crate::group::Group;
use crate::key::Key;
use crate::measure::Measured;
use crate::places::Places;
use crate::row_places::RowPlaces;
use crate::run::Run;
use crate::tally::Tally;
use scan_values::{NoMemory, Value, Values};
use std::alloc::Global;
use std::collections::BTreeMap;

/// The groups of the rows that have come so far.
#[derive(Drop)]
pub struct Groups {
    places: Places,
    tallies: Vec<Tally>,
}

/// The keys of no rows: where keys have no values, the empty one.
fn of_no_rows(alloc: Global, keys: usize) -> Result<Places, NoMemory>
    ensures { IfOk result (ArePlaces keys []) }
{
    let mut places = Places::new(alloc);
    if keys > 0 {
        return Ok(places);
    }
    places.begin(Key::new(Values::new(Vec::new(alloc))))?;
    Ok(places)
}

/// For each measure what it has come to over no rows.
fn no_tallies(alloc: Global, measures: &[Measured]) -> Result<Vec<Tally>, NoMemory>
    ensures of { IfOk result (λ ts. map measured_by ts.items ≡ measures.now) }
    ensures none { IfOk result (λ ts. map length_of ts.items ≡ replicate (length measures.now) 0) }
{
    let mut tallies = Vec::with_capacity(alloc, measures.len())?;
    for measure in measures {
        tallies.push(Tally::none(alloc, *measure))?;
    }
    Ok(tallies)
}

/// What is read at a place; null behind the last.
fn read_at<'a>(read: &'a [Value], place: Option<usize>) -> Cell<'a>
    ensures { cell_val result ≡ val_in place (map val_of read.entry.now) }
{
    let Some(place) = place else {
        return Cell::Null;
    };
    match read.get(place) {
        Some(value) => Cell::of(value),
        None => Cell::Null,
    }
}

/// The values of measures at a place.
fn values_at(alloc: Global, tallies: &[Tally], place: usize) -> Result<Values, NoMemory>
    ensures { IfOk result (λ vs. vs ≡ map (total_val place) tallies.now) }
{
    let mut values = Vec::with_capacity(alloc, tallies.len())?;
    for tally in tallies {
        values.push(tally.value(alloc, place)?)?;
    }
    Ok(Values::new(values))
}

/// The groups, by their keys.
fn groups_of(
    alloc: Global,
    keys: BTreeMap<Key, usize>,
    tallies: &[Tally],
) -> Result<Vec<Group>, NoMemory>
    ensures { IfOk result (λ gs. gs.items ≡ map (made_of tallies.now) keys.entries) }
{
    let mut made = Vec::with_capacity(alloc, keys.len())?;
    for (key, place) in keys {
        made.push(Group {
            key: key.into_values(),
            measures: values_at(alloc, tallies, place)?,
        })?;
    }
    Ok(made)
}

/// Whether some group's sum of a measure is neither an i64 nor a u64.
fn is_past(keys: &BTreeMap<Key, usize>, tally: &Tally) -> bool
    ensures { result ≡ is_past_in keys.now (Some tally.now) }
{
    for place in keys.values() {
        if tally.is_past(*place) {
            return true;
        }
    }
    false
}

impl Groups {
    /// Groups of no rows, by keys of so many values. Where keys have no values there is one group, of all rows.
    pub fn new(alloc: Global, keys: usize, measures: Vec<Measured>) -> Result<Groups, NoMemory>
        ensures { IfOk result (AreOf keys measures.items []) }
    {
        let places = of_no_rows(alloc, keys)?;
        let tallies = no_tallies(alloc, measures.as_slice())?;
        Ok(Groups { places, tallies })
    }

    /// How many measures there are.
    pub fn measure_count(&self) -> usize
        ensures { result ≡ count_of self.now }
    {
        self.tallies.len()
    }

    /// The place of what a measure reads, where it reads something.
    pub fn reads(&self, measure: usize) -> Option<usize>
        requires { measure < count_of self.now }
        ensures { result ≡ reads_in (measures_in self.now) measure }
    {
        self.tallies[measure].reads()
    }

    /// The places of the groups of further rows, whose keys are of one value each.
    pub fn place_run(&mut self, alloc: Global, run: Run) -> Result<RowPlaces, NoMemory>
        ensures { (keys : ℕ) → list_all is_scalar (run_vals run.entry) ≡ true →
            IfOk result (λ ps. HavePlaces keys (map (λ v. v ∷ []) (run_vals run.entry)) ps self.old self.new) }
    {
        self.places.place_run(alloc, run)
    }

    /// The places of the groups of so many further rows, whose keys have no values.
    pub fn place_keyless(&mut self, alloc: Global, len: usize) -> Result<RowPlaces, NoMemory>
        ensures { IfOk result (λ ps. HavePlaces 0 (replicate len []) ps self.old self.new) }
    {
        let place = self.places.place(Key::new(Values::new(Vec::new(alloc))))?;
        RowPlaces::new(vec![in alloc; place; len]?)
    }

    /// Of rows whose groups were found, what a measure reads.
    pub fn add_run(
        &mut self,
        alloc: Global,
        measure: usize,
        places: &RowPlaces,
        run: Run,
    ) -> Result<(), NoMemory>
        requires measure { measure < count_of self.old }
        requires even { length (run_vals run) ≡ length places.now }
        ensures { IfOk result (λ _. HasRead measure places.now (run_vals run.entry) self.old self.new) }
    {
        let tally = std::mem::replace(&mut self.tallies[measure], Tally::Count(Counts::new(alloc)));
        let end = places.end(self.places.count())?;
        let more = tally.with_rows(alloc, end, places.as_slice(), run)?;
        self.tallies[measure] = more;
        Ok(())
    }

    /// What measures read of the one row at a place.
    fn read_row(
        &mut self,
        alloc: Global,
        places: &RowPlaces,
        read: &[Value],
    ) -> Result<(), NoMemory>
        requires { length places.now ≡ 1 }
        ensures { (keys : ℕ) (ms : List Measured) (rows : List Row) (row : Row) →
            IsUnder keys ms rows (row ∷ []) places.now 0 self.old → row.read ≡ map val_of read.now →
            IfOk result (λ _. AreOf keys ms (rows ++ row ∷ []) self.new) }
    {
        for measure in 0..self.tallies.len() {
            let cell = read_at(read, self.tallies[measure].reads());
            self.add_run(alloc, measure, places, Run::Cells(&[cell]))?;
        }
        Ok(())
    }

    /// One more row: its key, of truth values, integers, texts and null, and what measures read. A place behind what is read
    /// has null. After a refusal nothing is known of the groups.
    pub fn add(&mut self, alloc: Global, key: Values, read: &[Value]) -> Result<(), NoMemory>
        ensures { (keys : ℕ) (ms : List Measured) (rows : List Row) → AreOf keys ms rows self.old → are_scalars key ≡ true →
            IfOk result (λ _. AreOf keys ms (rows ++ record { key = key; read = map val_of read.now } ∷ []) self.new) }
    {
        let place = self.places.place(Key::new(key))?;
        let places = RowPlaces::of(alloc, place)?;
        self.read_row(alloc, &places, read)
    }

    /// The first measure of which some group's sum is neither an i64 nor a u64.
    fn first_past(&self) -> Option<usize>
        ensures { MatchOption result
            ((i : ℕ) → i < length self.now.tallies.items → is_past_in self.now.places.keys (slice_get self.now.tallies.items i) ≡ false)
            (λ i. (is_past_in self.now.places.keys (slice_get self.now.tallies.items i) ≡ true)
            × ((j : ℕ) → j < i → is_past_in self.now.places.keys (slice_get self.now.tallies.items j) ≡ false)) }
    {
        for measure in 0..self.tallies.len() {
            if is_past(&self.places.keys, &self.tallies[measure]) {
                return Some(measure);
            }
        }
        None
    }

    /// The groups, by their keys, or the first measure of which some group's sum is neither an i64 nor a u64.
    pub fn into_groups(self, alloc: Global) -> Result<Vec<Group>, GroupsFault>
        ensures ok { (keys : ℕ) (ms : List Measured) (rows : List Row) → AreOf keys ms rows self →
            IfOk result (λ gs. AreGroups keys ms rows gs.items × ((i : ℕ) → IsPast ms rows i → ⊥)) }
        ensures err { (keys : ℕ) (ms : List Measured) (rows : List Row) → AreOf keys ms rows self →
            IfErr result (HasGroupsCause ms rows) }
    {
        let _count = self.places.keys.len();
        if let Some(measure) = self.first_past() {
            return Err(GroupsFault::SumRange { measure });
        }
        let Groups { places, tallies } = self;
        Ok(groups_of(alloc, places.into_keys(), &tallies)?)
    }
}
