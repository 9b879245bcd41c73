//! The sums of all groups.
ghost use Rattle.std.specs.Prelude.{◌≡◌, ◌+◌, ◌*◌, ◌<◌, ◌≤◌, ◌^◌, [], All, IfOk, IfSome, List, Some, get_or, length, map, true, ℕ};
ghost use Rattle.scan_values.specs.Val.{int_val};
ghost use Rattle.scan_groups.specs.Cells.{run_vals};
ghost use Rattle.scan_groups.specs.Totals.{Adds, IsSumOf, no_sum};
ghost use Rattle.scan_groups.specs.Within.{AreWithin, IsShort, IsWithin};

use crate::adding::{grown, sum_cells, sum_numbers};
use crate::run::Run;
use crate::sum::Sum;
use scan_values::NoMemory;
use std::alloc::Global;
use std::marker::Model;

/// At each place a sum, and how far from nought, at most, what an i64 holds of each may be, where that is known: numbers
/// of 32 bits are added to it without a test.
#[derive(Drop)]
pub(crate) struct Sums {
    sums: Vec<Sum>,
    most: Option<u64>,
}

impl Model for Sums {
    ghost use Rattle.std.specs.Prelude.{List};
    ghost use Rattle.scan_groups.specs.declared.sum.Sum.{Sum};
    ghost use Rattle.scan_groups.specs.Within.{AreWithin};

    ghost Value = { List Sum };

    ghost view = { λ s. s.sums.items };

    ghost invariant = { λ s. AreWithin s.most s.sums.items };
}

/// A short number is at most so far from nought, 2^31.
const SHORT: u64 = 2_147_483_648;

/// Sums of short numbers may be so far from nought, 2^62.
const ROOM: u64 = 4_611_686_018_427_387_904;

#[inline(always)]
fn is_short(number: i64) -> bool
    ensures { result ≡ true → IsShort number }
{
    -2_147_483_648 <= number && number <= 2_147_483_647
}

/// Whether all numbers are of 32 bits.
#[inline(never)]
fn are_short(numbers: &[i64]) -> bool
    ensures { result ≡ true → All IsShort numbers.now }
{
    let mut short = true;
    for i in 0..numbers.len() {
        short = short & is_short(numbers[i]);
    }
    short
}

/// How far from nought sums may be with so many short numbers more.
fn most_with(most: u64, len: usize) -> Option<u64>
    ensures { IfSome result (λ n. (n ≡ most + len * 2 ^ 31) × (n < 2 ^ 63)) }
{
    let more = (len as u64).checked_mul(SHORT)?;
    let all = most.checked_add(more)?;
    if all <= ROOM { Some(all) } else { None }
}

/// How far from nought sums may be before and after short numbers; none where some number is not short, where it is not
/// known, and where an i64 might not have room.
fn room(most: Option<u64>, numbers: &[i64]) -> Option<(u64, u64)>
    ensures { IfSome result (λ r. (most ≡ Some r.0) × (r.1 ≡ r.0 + length numbers.now * 2 ^ 31) × (r.1 < 2 ^ 63)
        × All IsShort numbers.now) }
{
    let most = most?;
    let more = most_with(most, numbers.len())?;
    if are_short(numbers) {
        Some((most, more))
    } else {
        None
    }
}

/// At each place the sum with its short numbers.
#[inline(never)]
fn sum_short(sums: Vec<Sum>, most: u64, places: &[usize], numbers: &[i64]) -> Vec<Sum>
    requires places { All (λ p. p < length sums.items) places.now }
    requires even { length numbers.now ≡ length places.now }
    requires short { All IsShort numbers.now }
    requires most { All (IsWithin most) sums.items }
    requires room { most + length places.now * 2 ^ 31 < 2 ^ 63 }
    ensures long { length result.items ≡ length sums.items }
    ensures most { All (IsWithin (most + length places.now * 2 ^ 31)) result.items }
    ensures more { Adds IsSumOf no_sum places.now (map int_val numbers.now) sums.items result.items }
{
    let mut sums = sums;
    for i in 0..places.len() {
        let place = places[i];
        sums[place].add_short(numbers[i]);
    }
    sums
}

impl Sums {
    /// Of no values.
    pub(crate) fn new(alloc: Global) -> Sums
        ensures { result ≡ [] }
    {
        Sums {
            sums: Vec::new(alloc),
            most: Some(0),
        }
    }

    fn made(sums: Vec<Sum>, most: Option<u64>) -> Sums
        requires { AreWithin most sums.items }
        ensures { result ≡ sums.items }
    {
        Sums { sums, most }
    }

    /// That of a place, which has no values if it is behind the last.
    pub(crate) fn at(&self, place: usize) -> Sum
        ensures { result ≡ get_or self.now place no_sum }
    {
        match self.sums.get(place) {
            Some(sum) => *sum,
            None => Sum::none(),
        }
    }

    fn with_numbers(
        self,
        groups: usize,
        places: &[usize],
        numbers: &[i64],
    ) -> Result<Sums, NoMemory>
        requires places { All (λ p. p < groups) places.now }
        requires even { length numbers.now ≡ length places.now }
        ensures short { IfOk result (λ ss. (n : ℕ) → length self ≤ n → groups ≤ n → length ss ≤ n) }
        ensures more { IfOk result (Adds IsSumOf no_sum places.now (map int_val numbers.now) self) }
    {
        let Sums { sums, most } = self;
        let sums = grown(sums, groups, Sum::none())?;
        match room(most, numbers) {
            Some((most, more)) => {
                let sums = sum_short(sums, most, places, numbers);
                Ok(Sums::made(sums, Some(more)))
            }
            None => Ok(Sums::made(sum_numbers(sums, places, numbers)?, None)),
        }
    }

    fn with_cells(self, groups: usize, places: &[usize], run: Run) -> Result<Sums, NoMemory>
        requires places { All (λ p. p < groups) places.now }
        requires even { length (run_vals run) ≡ length places.now }
        ensures short { IfOk result (λ ss. (n : ℕ) → length self ≤ n → groups ≤ n → length ss ≤ n) }
        ensures more { IfOk result (Adds IsSumOf no_sum places.now (run_vals run.entry) self) }
    {
        let Sums { sums, most } = self;
        let sums = sum_cells(grown(sums, groups, Sum::none())?, places, run)?;
        Ok(Sums::made(sums, most))
    }

    /// With further rows, each at a place below so many: at each place the sum of its values that are not null.
    pub(crate) fn with_run(
        self,
        groups: usize,
        places: &[usize],
        run: Run,
    ) -> Result<Sums, NoMemory>
        requires places { All (λ p. p < groups) places.now }
        requires even { length (run_vals run) ≡ length places.now }
        ensures short { IfOk result (λ ss. (n : ℕ) → length self ≤ n → groups ≤ n → length ss ≤ n) }
        ensures more { IfOk result (Adds IsSumOf no_sum places.now (run_vals run.entry) self) }
    {
        match run {
            Run::Numbers(numbers) => self.with_numbers(groups, places, numbers),
            Run::Cells(_) => self.with_cells(groups, places, run),
            Run::Nulls(_) => self.with_cells(groups, places, run),
        }
    }
}
