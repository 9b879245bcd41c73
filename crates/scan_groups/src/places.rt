//! Which group each key has.
ghost use Rattle.std.specs.Prelude.{◌≡◌, ◌<◌, ◌≤◌, ◌+◌, ◌∷◌, [], IfOk, IfSome, List, None, Some, length, map, true, ℕ};
ghost use Rattle.std.specs.List.{list_all};
ghost use Rattle.scan_values.specs.Val.{Val, int_val};
ghost use Rattle.scan_groups.specs.Cells.{cell_val, run_vals};
ghost use Rattle.scan_groups.specs.Fronts.{AreFirst, IsFront};
ghost use Rattle.scan_groups.specs.Order.{are_scalars, is_scalar};
ghost use Rattle.scan_groups.specs.Places.{ArePlaces, Begins, Placed, PlacedAll, known, place_of};
ghost use Rattle.scan_groups.specs.Rows.{Row};

use crate::adding::larger;
use crate::cell::Cell;
use crate::key::Key;
use crate::known::Known;
use crate::near::{Near, Slot};
use crate::row_places::RowPlaces;
use crate::run::Run;
use scan_values::NoMemory;
use std::alloc::Global;
use std::collections::BTreeMap;

/// The place of the group of each key, and how many there are.
#[derive(Drop)]
pub(crate) struct Places {
    pub keys: BTreeMap<Key, usize>,
    count: usize,
    known: Known,
    near: Near,
}

/// The number of a value, where it is an i64.
fn number_in(cell: Cell) -> Option<i64>
    ensures { IfSome result (λ z. cell_val cell.entry ≡ int_val z) }
{
    match cell {
        Cell::Number(number) => i64::try_from(number).ok(),
        Cell::Null => None,
        Cell::Truth(_) => None,
        Cell::Text(_) => None,
        Cell::Held(_) => None,
    }
}

/// The places of the first numbers of some, so many of them, all below an end. Of the others nothing is told.
#[derive(Drop)]
struct Front {
    places: Vec<usize>,
    len: usize,
    end: usize,
}

/// The place behind one.
fn behind(place: usize) -> Result<usize, NoMemory>
    ensures { IfOk result (λ n. n ≡ place + 1) }
{
    match place.checked_add(1) {
        Some(end) => Ok(end),
        None => Err(NoMemory),
    }
}

impl Places {
    /// No keys.
    pub(crate) fn new(alloc: Global) -> Places
        ensures keys { result.keys.entries ≡ [] }
        ensures count { result.count ≡ 0 }
        ensures known { (v : Val) → known result.known v ≡ None }
        ensures near { result.near.slots.items ≡ [] }
    {
        Places {
            keys: BTreeMap::new(alloc),
            count: 0,
            known: Known::new(alloc),
            near: Near::new(alloc),
        }
    }

    fn find(&self, key: &Key) -> Option<usize>
        ensures { result ≡ place_of self.now key.now }
    {
        self.keys.get(key).copied()
    }

    /// A key that has no place gets the next one.
    pub(crate) fn begin(&mut self, key: Key) -> Result<usize, NoMemory>
        requires { place_of self.old key ≡ None }
        ensures { IfOk result (λ i. Begins self.old key i self.new) }
    {
        let place = self.count;
        let Some(count) = place.checked_add(1) else {
            return Err(NoMemory);
        };
        self.keys.insert(key, place)?;
        self.count = count;
        Ok(place)
    }

    /// The place of a key, a new one where it has none.
    pub(crate) fn place(&mut self, key: Key) -> Result<usize, NoMemory>
        ensures places { (keys : ℕ) (rows : List Row) (row : Row) → row.key ≡ key → ArePlaces keys rows self.old →
            are_scalars key ≡ true → IfOk result (Placed keys rows row self.old self.new) }
        ensures found { (i : ℕ) → place_of self.old key ≡ Some i → (self.new ≡ self.old) × IfOk result (λ p. p ≡ i) }
    {
        if let Some(place) = self.find(&key) {
            return Ok(place);
        }
        self.begin(key)
    }

    /// How many places there are.
    pub(crate) fn count(&self) -> usize
        ensures { result ≡ self.now.count }
    {
        self.count
    }

    /// The place of each key.
    pub(crate) fn into_keys(self) -> BTreeMap<Key, usize>
        ensures { result ≡ self.keys }
    {
        self.keys
    }

    /// The place of a key of one value, looked up in the maps.
    fn place_value(&mut self, alloc: Global, cell: Cell) -> Result<usize, NoMemory>
        ensures { (keys : ℕ) (rows : List Row) (row : Row) → row.key ≡ cell_val cell.entry ∷ [] → ArePlaces keys rows self.old →
            is_scalar (cell_val cell.entry) ≡ true → IfOk result (Placed keys rows row self.old self.new) }
    {
        if let Some(place) = self.known.get(cell) {
            return Ok(place);
        }
        let place = self.place(Key::of(alloc, cell)?)?;
        self.known.learn(alloc, cell, place)?;
        Ok(place)
    }

    /// The place of a number's key, which stands in its slot afterwards.
    #[inline(never)]
    fn place_far(&mut self, alloc: Global, number: i64) -> Result<usize, NoMemory>
        ensures { (keys : ℕ) (rows : List Row) (row : Row) → row.key ≡ int_val number ∷ [] → ArePlaces keys rows self.old →
            IfOk result (Placed keys rows row self.old self.new) }
    {
        let place = self.place_value(alloc, Cell::Number(i128::from(number)))?;
        self.near.keep(alloc, self.count, Slot { number, place })?;
        Ok(place)
    }

    /// The place of a number's key.
    #[inline(always)]
    fn place_number(&mut self, alloc: Global, number: i64) -> Result<usize, NoMemory>
        ensures { (keys : ℕ) (rows : List Row) (row : Row) → row.key ≡ int_val number ∷ [] → ArePlaces keys rows self.old →
            IfOk result (Placed keys rows row self.old self.new) }
    {
        match self.near.lend().find(number) {
            Some(place) => Ok(place),
            None => self.place_far(alloc, number),
        }
    }

    /// The place of a key of one value.
    fn place_cell(&mut self, alloc: Global, cell: Cell) -> Result<usize, NoMemory>
        ensures { (keys : ℕ) (rows : List Row) (row : Row) → row.key ≡ cell_val cell.entry ∷ [] → ArePlaces keys rows self.old →
            is_scalar (cell_val cell.entry) ≡ true → IfOk result (Placed keys rows row self.old self.new) }
    {
        match number_in(cell) {
            Some(number) => self.place_number(alloc, number),
            None => self.place_value(alloc, cell),
        }
    }

    /// The places of further numbers, up to the first that does not stand in its slot.
    #[inline(never)]
    fn find_numbers(&self, numbers: &[i64], front: Front) -> Front
        requires { IsFront numbers.now front }
        ensures front { IsFront numbers.now result }
        ensures more { front.len ≤ result.len }
        ensures places { (old : Places) → AreFirst numbers.now old self.now front → AreFirst numbers.now old self.now result }
    {
        let slots = self.near.lend();
        let Front { places, len, end } = front;
        let mut places = places;
        for i in len..numbers.len() {
            let Some(place) = slots.find_below(numbers[i], end) else {
                return Front {
                    places,
                    len: i,
                    end,
                };
            };
            places[i] = place;
        }
        Front {
            places,
            len: numbers.len(),
            end,
        }
    }

    /// The place of one more number, which stands in its slot afterwards.
    #[inline(never)]
    fn place_next(
        &mut self,
        alloc: Global,
        numbers: &[i64],
        front: Front,
    ) -> Result<Front, NoMemory>
        requires front { IsFront numbers.now front }
        requires more { front.len < length numbers.now }
        ensures front { IfOk result (IsFront numbers.now) }
        ensures more { IfOk result (λ f. f.len ≡ front.len + 1) }
        ensures places { (old : Places) → AreFirst numbers.now old self.old front →
            IfOk result (λ f. AreFirst numbers.now old self.new f) }
    {
        let Front { places, len, end } = front;
        let mut places = places;
        let place = self.place_far(alloc, numbers[len])?;
        places[len] = place;
        Ok(Front {
            places,
            len: len + 1,
            end: larger(end, behind(place)?),
        })
    }

    /// The places of further numbers, of one at least.
    fn place_more(
        &mut self,
        alloc: Global,
        numbers: &[i64],
        front: Front,
    ) -> Result<Front, NoMemory>
        requires front { IsFront numbers.now front }
        requires more { front.len < length numbers.now }
        ensures front { IfOk result (IsFront numbers.now) }
        ensures more { IfOk result (λ f. front.len < f.len) }
        ensures places { (old : Places) → AreFirst numbers.now old self.old front →
            IfOk result (λ f. AreFirst numbers.now old self.new f) }
    {
        let found = self.find_numbers(numbers, front);
        if found.len >= numbers.len() {
            return Ok(found);
        }
        self.place_next(alloc, numbers, found)
    }

    fn place_numbers(&mut self, alloc: Global, numbers: &[i64]) -> Result<RowPlaces, NoMemory>
        ensures even { IfOk result (λ ps. length ps ≡ length (map int_val numbers.now)) }
        ensures places { (keys : ℕ) (rows more : List Row) → map (λ row. row.key) more ≡ map (λ v. v ∷ []) (map int_val numbers.now) →
            ArePlaces keys rows self.old → IfOk result (λ ps. PlacedAll keys rows more self.old self.new ps) }
    {
        let places = vec![in alloc; self.count; numbers.len()]?;
        let mut front = Front {
            places,
            len: 0,
            end: self.count,
        };
        'numbers: while front.len < numbers.len() {
            front = self.place_more(alloc, numbers, front)?;
        }
        Ok(RowPlaces::below(front.places, front.end))
    }

    fn place_cells(&mut self, alloc: Global, run: Run) -> Result<RowPlaces, NoMemory>
        ensures even { IfOk result (λ ps. length ps ≡ length (run_vals run.entry)) }
        ensures places { (keys : ℕ) (rows more : List Row) → map (λ row. row.key) more ≡ map (λ v. v ∷ []) (run_vals run.entry) →
            ArePlaces keys rows self.old → list_all is_scalar (run_vals run.entry) ≡ true →
            IfOk result (λ ps. PlacedAll keys rows more self.old self.new ps) }
    {
        let mut places = vec![in alloc; 0usize; run.len()]?;
        for i in 0..places.len() {
            places[i] = self.place_cell(alloc, run.cell(i))?;
        }
        RowPlaces::new(places)
    }

    /// The places of keys of one value each.
    pub(crate) fn place_run(&mut self, alloc: Global, run: Run) -> Result<RowPlaces, NoMemory>
        ensures even { IfOk result (λ ps. length ps ≡ length (run_vals run.entry)) }
        ensures places { (keys : ℕ) (rows more : List Row) → map (λ row. row.key) more ≡ map (λ v. v ∷ []) (run_vals run.entry) →
            ArePlaces keys rows self.old → list_all is_scalar (run_vals run.entry) ≡ true →
            IfOk result (λ ps. PlacedAll keys rows more self.old self.new ps) }
    {
        match run {
            Run::Numbers(numbers) => self.place_numbers(alloc, numbers),
            Run::Cells(_) => self.place_cells(alloc, run),
            Run::Nulls(_) => self.place_cells(alloc, run),
        }
    }
}
