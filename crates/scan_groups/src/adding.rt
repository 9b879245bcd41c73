//! Totals with further rows: at the place of each row's group, what is read of the row is added to the total there.
ghost use Rattle.std.specs.Prelude.{◌≡◌, ◌+◌, ◌++◌, ◌<◌, ◌≤◌, ◌-◌, ◌∷◌, [], All, IfOk, List, cond, false, length, map, replicate, ℕ};
ghost use Rattle.scan_values.specs.Val.{Val, int_val, null_val};
ghost use Rattle.scan_values.specs.Values.{val_of};
ghost use Rattle.scan_values.specs.declared.value.Value.TheVariants.{Null};
ghost use Rattle.scan_groups.specs.Cells.{cell_val, run_vals};
ghost use Rattle.scan_groups.specs.Rows.{IsLeast, IsGreatest, OrNull, is_null};
ghost use Rattle.scan_groups.specs.Totals.{Adds, IsCountOf, IsGreatestOf, IsLeastOf, IsSumOf, NoneNull, no_sum};
ghost use Rattle.scan_groups.specs.Within.{IsWithin};

use crate::cell::Cell;
use crate::order::{compare_cells, number_of};
use crate::run::Run;
use crate::sum::Sum;
use scan_values::{NoMemory, Value};
use std::alloc::Global;
use std::cmp::Ordering;

/// One more. A count that no u64 holds is refused as want of memory.
fn one_more(n: u64) -> Result<u64, NoMemory>
    ensures { IfOk result (λ m. m ≡ n + 1) }
{
    match n.checked_add(1) {
        Some(n) => Ok(n),
        None => Err(NoMemory),
    }
}

fn one_more_unless(is_null: bool, n: u64) -> Result<u64, NoMemory>
    ensures { IfOk result (λ m. m ≡ cond is_null n (n + 1)) }
{
    if is_null { Ok(n) } else { one_more(n) }
}

/// At each place the number of its values that are not null.
pub(crate) fn count_values(
    counts: Vec<u64>,
    places: &[usize],
    run: Run,
) -> Result<Vec<u64>, NoMemory>
    requires places { All (λ p. p < length counts.items) places.now }
    requires even { length (run_vals run) ≡ length places.now }
    ensures long { IfOk result (λ ns. length ns.items ≡ length counts.items) }
    ensures more { IfOk result (λ ns. Adds IsCountOf 0 places.now (run_vals run.entry) counts.items ns.items) }
{
    let mut counts = counts;
    for i in 0..places.len() {
        let place = places[i];
        counts[place] = one_more_unless(run.cell(i).is_null(), counts[place])?;
    }
    Ok(counts)
}

/// At each place the sum with its numbers, each tested whether an i64 has room for it.
pub(crate) fn sum_numbers(
    sums: Vec<Sum>,
    places: &[usize],
    numbers: &[i64],
) -> Result<Vec<Sum>, NoMemory>
    requires places { All (λ p. p < length sums.items) places.now }
    requires even { length numbers.now ≡ length places.now }
    ensures long { IfOk result (λ ns. length ns.items ≡ length sums.items) }
    ensures more { IfOk result (λ ns. Adds IsSumOf no_sum places.now (map int_val numbers.now) sums.items ns.items) }
{
    let mut sums = sums;
    for i in 0..places.len() {
        let place = places[i];
        sums[place].add(numbers[i])?;
    }
    Ok(sums)
}

fn sum_with(sum: Sum, cell: Cell) -> Result<Sum, NoMemory>
    ensures near { IfOk result (λ s. s.near ≡ sum.near) }
    ensures more { (vs : List Val) → IsSumOf vs sum → IfOk result (λ s. IsSumOf (vs ++ cell_val cell.entry ∷ []) s) }
{
    if cell.is_null() {
        return Ok(sum);
    }
    sum.with(number_of(cell))
}

/// At each place the sum of its values that are not null.
pub(crate) fn sum_cells(sums: Vec<Sum>, places: &[usize], run: Run) -> Result<Vec<Sum>, NoMemory>
    requires places { All (λ p. p < length sums.items) places.now }
    requires even { length (run_vals run) ≡ length places.now }
    ensures long { IfOk result (λ ns. length ns.items ≡ length sums.items) }
    ensures near { (k : ℕ) → All (IsWithin k) sums.items → IfOk result (λ ns. All (IsWithin k) ns.items) }
    ensures more { IfOk result (λ ns. Adds IsSumOf no_sum places.now (run_vals run.entry) sums.items ns.items) }
{
    let mut sums = sums;
    for i in 0..places.len() {
        let place = places[i];
        sums[place] = sum_with(sums[place], run.cell(i))?;
    }
    Ok(sums)
}

/// The lesser of two, of which null is no value.
fn lesser(alloc: Global, least: Value, cell: Cell) -> Result<Value, NoMemory>
    ensures { (vs : List Val) → IsLeastOf vs (val_of least) →
        IfOk result (λ v. IsLeastOf (vs ++ cell_val cell.entry ∷ []) (val_of v)) }
{
    if cell.is_null() {
        return Ok(least);
    }
    less(alloc, least, cell)
}

fn less(alloc: Global, least: Value, cell: Cell) -> Result<Value, NoMemory>
    requires { is_null (cell_val cell) ≡ false }
    ensures { (vs : List Val) → NoneNull vs → OrNull IsLeast vs (val_of least) →
        IfOk result (λ v. OrNull IsLeast (vs ++ cell_val cell.entry ∷ []) (val_of v)) }
{
    let other = Cell::of(&least);
    if other.is_null() {
        return cell.to_value(alloc);
    }
    match compare_cells(cell, other) {
        Ordering::Less => cell.to_value(alloc),
        Ordering::Equal => Ok(least),
        Ordering::Greater => Ok(least),
    }
}

/// At each place the least of its values that are not null.
pub(crate) fn find_least(
    alloc: Global,
    values: Vec<Value>,
    places: &[usize],
    run: Run,
) -> Result<Vec<Value>, NoMemory>
    requires places { All (λ p. p < length values.items) places.now }
    requires even { length (run_vals run) ≡ length places.now }
    ensures long { IfOk result (λ us. length us.items ≡ length values.items) }
    ensures more { IfOk result (λ us. Adds IsLeastOf null_val places.now (run_vals run.entry)
        (map val_of values.items) (map val_of us.items)) }
{
    let mut values = values;
    for i in 0..places.len() {
        let place = places[i];
        let least = std::mem::replace(&mut values[place], Value::Null);
        let value = lesser(alloc, least, run.cell(i))?;
        values[place] = value;
    }
    Ok(values)
}

/// The greater of two, of which null is no value.
fn greater(alloc: Global, greatest: Value, cell: Cell) -> Result<Value, NoMemory>
    ensures { (vs : List Val) → IsGreatestOf vs (val_of greatest) →
        IfOk result (λ v. IsGreatestOf (vs ++ cell_val cell.entry ∷ []) (val_of v)) }
{
    if cell.is_null() {
        return Ok(greatest);
    }
    more(alloc, greatest, cell)
}

fn more(alloc: Global, greatest: Value, cell: Cell) -> Result<Value, NoMemory>
    requires { is_null (cell_val cell) ≡ false }
    ensures { (vs : List Val) → NoneNull vs → OrNull IsGreatest vs (val_of greatest) →
        IfOk result (λ v. OrNull IsGreatest (vs ++ cell_val cell.entry ∷ []) (val_of v)) }
{
    let other = Cell::of(&greatest);
    if other.is_null() {
        return cell.to_value(alloc);
    }
    match compare_cells(other, cell) {
        Ordering::Less => cell.to_value(alloc),
        Ordering::Equal => Ok(greatest),
        Ordering::Greater => Ok(greatest),
    }
}

/// At each place the greatest of its values that are not null.
pub(crate) fn find_greatest(
    alloc: Global,
    values: Vec<Value>,
    places: &[usize],
    run: Run,
) -> Result<Vec<Value>, NoMemory>
    requires places { All (λ p. p < length values.items) places.now }
    requires even { length (run_vals run) ≡ length places.now }
    ensures long { IfOk result (λ us. length us.items ≡ length values.items) }
    ensures more { IfOk result (λ us. Adds IsGreatestOf null_val places.now (run_vals run.entry)
        (map val_of values.items) (map val_of us.items)) }
{
    let mut values = values;
    for i in 0..places.len() {
        let place = places[i];
        let greatest = std::mem::replace(&mut values[place], Value::Null);
        let value = greater(alloc, greatest, run.cell(i))?;
        values[place] = value;
    }
    Ok(values)
}

/// The larger of two.
pub(crate) fn larger(a: usize, b: usize) -> usize
    ensures first { a ≤ result }
    ensures second { b ≤ result }
    ensures least { (n : ℕ) → a ≤ n → b ≤ n → result ≤ n }
{
    if a < b { b } else { a }
}

/// So many at least, the further ones of this value.
pub(crate) fn grown<T: Copy>(xs: Vec<T>, len: usize, x: T) -> Result<Vec<T>, NoMemory>
    ensures { IfOk result (λ ys. ys.items ≡ xs.items ++ replicate (len - length xs.items) x) }
{
    let mut xs = xs;
    let all = larger(xs.len(), len);
    xs.resize(all, x)?;
    Ok(xs)
}

/// So many at least, the further ones null.
pub(crate) fn with_nulls(values: Vec<Value>, len: usize) -> Result<Vec<Value>, NoMemory>
    ensures { IfOk result (λ vs. vs.items ≡ values.items ++ replicate (len - length values.items) Null) }
{
    let mut values = values;
    for i in values.len()..len {
        values.push(Value::Null)?;
    }
    Ok(values)
}

/// The last of places; the first place where there are none.
fn last_of(places: &[usize]) -> usize
    ensures past { All (λ p. p ≤ result) places.now }
    ensures least { (n : ℕ) → 0 < n → All (λ p. p < n) places.now → result < n }
{
    let mut last = 0;
    for place in places {
        last = larger(last, *place);
    }
    last
}

/// The first place past all of these.
pub(crate) fn past_last(places: &[usize]) -> Result<usize, NoMemory>
    ensures past { IfOk result (λ n. All (λ p. p < n) places.now) }
    ensures least { (n : ℕ) → All (λ p. p < n) places.now → IfOk result (λ m. m ≤ n) }
{
    if places.is_empty() {
        return Ok(0);
    }
    match last_of(places).checked_add(1) {
        Some(end) => Ok(end),
        None => Err(NoMemory),
    }
}
