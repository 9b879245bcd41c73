//! What one measure has come to, over the rows of each group.
ghost use Rattle.std.specs.Prelude.{◌≡◌, ◌<◌, All, IfOk, get_or, length, map};
ghost use Rattle.scan_values.specs.Val.{null_val};
ghost use Rattle.scan_values.specs.Values.{val_of};
ghost use Rattle.scan_groups.specs.Cells.{run_vals};
ghost use Rattle.scan_groups.specs.Totals.{IsMore, is_past, length_of, measured_by, place_read, total_val, val_of_sum};

use crate::adding::{count_values, find_greatest, find_least, grown, with_nulls};
use crate::all_sums::Sums;
use crate::counts::Counts;
use crate::measure::Measured;
use crate::run::Run;
use crate::sum::Sum;
use scan_values::{NoMemory, Value};
use std::alloc::Global;

/// The totals of a measure at the places of groups. A place past the last has the total of no rows.
#[derive(Drop)]
pub(crate) enum Tally {
    Count(Counts),
    Values(usize, Vec<u64>),
    Sum(usize, Sums),
    Least(usize, Vec<Value>),
    Greatest(usize, Vec<Value>),
}

/// The value of a sum.
fn sum_value(sum: Sum) -> Value
    ensures { val_of result ≡ val_of_sum sum }
{
    if !sum.any {
        return Value::Null;
    }
    match sum.value() {
        Some(n) => Value::Int(n),
        None => Value::Null,
    }
}

fn count_at(counts: &[u64], place: usize) -> u64
    ensures { result ≡ get_or counts.now place 0 }
{
    match counts.get(place) {
        Some(count) => *count,
        None => 0,
    }
}

fn value_at(alloc: Global, values: &[Value], place: usize) -> Result<Value, NoMemory>
    ensures { IfOk result (λ v. val_of v ≡ get_or (map val_of values.now) place null_val) }
{
    match values.get(place) {
        Some(value) => value.try_clone(alloc),
        None => Ok(Value::Null),
    }
}

impl Tally {
    /// Of no groups.
    pub(crate) fn none(alloc: Global, measure: Measured) -> Tally
        ensures of { measured_by result ≡ measure }
        ensures none { length_of result ≡ 0 }
    {
        match measure {
            Measured::Count => Tally::Count(Counts::new(alloc)),
            Measured::Values(place) => Tally::Values(place, Vec::new(alloc)),
            Measured::Sum(place) => Tally::Sum(place, Sums::new(alloc)),
            Measured::Least(place) => Tally::Least(place, Vec::new(alloc)),
            Measured::Greatest(place) => Tally::Greatest(place, Vec::new(alloc)),
        }
    }

    /// The place of what it reads, where it reads something.
    pub(crate) fn reads(&self) -> Option<usize>
        ensures { result ≡ place_read (measured_by self.now) }
    {
        match self {
            Tally::Count(_) => None,
            Tally::Values(place, _) => Some(*place),
            Tally::Sum(place, _) => Some(*place),
            Tally::Least(place, _) => Some(*place),
            Tally::Greatest(place, _) => Some(*place),
        }
    }

    /// With further rows: the place of the group of each, of so many, and what is read of each.
    pub(crate) fn with_rows(
        self,
        alloc: Global,
        groups: usize,
        places: &[usize],
        run: Run,
    ) -> Result<Tally, NoMemory>
        requires places { All (λ p. p < groups) places.now }
        requires even { length (run_vals run) ≡ length places.now }
        ensures { IfOk result (IsMore self places.now (run_vals run.entry) groups) }
    {
        match self {
            Tally::Count(counts) => Ok(Tally::Count(counts.with_rows(groups, places)?)),
            Tally::Values(place, counts) => {
                let counts = count_values(grown(counts, groups, 0)?, places, run)?;
                Ok(Tally::Values(place, counts))
            }
            Tally::Sum(place, sums) => {
                Ok(Tally::Sum(place, sums.with_run(groups, places, run)?))
            }
            Tally::Least(place, values) => {
                let values = find_least(alloc, with_nulls(values, groups)?, places, run)?;
                Ok(Tally::Least(place, values))
            }
            Tally::Greatest(place, values) => {
                let values = find_greatest(alloc, with_nulls(values, groups)?, places, run)?;
                Ok(Tally::Greatest(place, values))
            }
        }
    }

    /// Whether the total at a place is a sum that is neither an i64 nor a u64.
    pub(crate) fn is_past(&self, place: usize) -> bool
        ensures { result ≡ is_past place self.now }
    {
        match self {
            Tally::Count(_) => false,
            Tally::Values(_, _) => false,
            Tally::Sum(_, sums) => sums.at(place).value().is_none(),
            Tally::Least(_, _) => false,
            Tally::Greatest(_, _) => false,
        }
    }

    /// The value of the total at a place. A sum that is neither an i64 nor a u64 has none, and counts as null.
    pub(crate) fn value(&self, alloc: Global, place: usize) -> Result<Value, NoMemory>
        ensures { IfOk result (λ v. val_of v ≡ total_val place self.now) }
    {
        match self {
            Tally::Count(counts) => Ok(Value::Int(counts.at(place) as i128)),
            Tally::Values(_, counts) => Ok(Value::Int(count_at(counts, place) as i128)),
            Tally::Sum(_, sums) => Ok(sum_value(sums.at(place))),
            Tally::Least(_, values) => value_at(alloc, values, place),
            Tally::Greatest(_, values) => value_at(alloc, values, place),
        }
    }
}
