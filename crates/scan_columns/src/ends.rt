// How many elements each list has, kept as where each ends.
ghost use Rattle.std.specs.Prelude.{◌≡◌, ◌<◌, ◌≤◌, ◌+◌, ◌^◌, ◌++◌, take, map, pos, IfOk, IsTrue, length, replicate, slice_range};
ghost use Rattle.std.specs.Int.{w64, cast_signed};
ghost use Rattle.std.specs.List.{items_where_true};
ghost use Rattle.scan_columns.specs.Nested.{sizes, sums, Rises, total, spread};
ghost use Rattle.scan_columns.specs.Kept.{numbers_in};
ghost use Rattle.scan_columns.specs.LastEnds.{last_from};

use crate::kept::Kept;
use scan_values::{Mask, NoMemory};
use std::alloc::{AllocError, Global};
use std::marker::Model;

/// How many elements each list has, kept as where each ends.
#[derive(Drop)]
pub struct Ends {
    ends: Vec<usize>,
}

impl Model for Ends {
    ghost use Rattle.std.specs.Prelude.{List, ℕ};
    ghost use Rattle.scan_columns.specs.Nested.{sizes, Rises};

    ghost Value = { List ℕ };

    ghost view = { λ a. sizes 0 a.ends.items };

    ghost invariant = { λ a. Rises 0 a.ends.items };
}

impl Ends {
    /// Where each list ends, of which none ends before it begins.
    pub fn new(ends: Vec<usize>) -> Ends
        requires { Rises 0 ends.items }
        ensures { result ≡ sizes 0 ends.items }
    {
        Ends { ends }
    }

    /// How many lists.
    #[tactic(auto, using(crate::proofs::NestedLemmas::sizes_length))]
    pub fn len(&self) -> usize
        ensures { result ≡ length self.now }
    {
        self.ends.len()
    }

    /// Where the list at a place begins, or, after the last, where that ends.
    #[tactic(auto, using(crate::proofs::NestedLemmas::sizes_length))]
    pub fn start(&self, i: usize) -> usize
        requires { i ≤ length self.now }
        ensures { result ≡ total (take i self.now) }
    {
        start_of(self.ends.as_slice(), i)
    }

    /// Where the list at a place ends.
    #[tactic(auto, using(crate::proofs::NestedLemmas::sizes_length))]
    pub fn end(&self, i: usize) -> usize
        requires { i < length self.now }
        ensures { result ≡ total (take (i + 1) self.now) }
    {
        end_of(self.ends.as_slice(), i)
    }

    /// Where each ends.
    pub fn as_slice(&self) -> &[usize]
        ensures sizes { sizes 0 result.now ≡ self.now }
        ensures rises { Rises 0 result.now }
    {
        self.ends.as_slice()
    }

    /// How many elements each has.
    pub fn counts(&self, alloc: Global) -> Result<Kept, NoMemory>
        ensures { IfOk result (λ v. numbers_in v ≡ map pos self.now) }
    {
        let ends = self.ends.as_slice();
        if are_near(ends) {
            let near = near_counts(alloc, ends)?;
            return Ok(Kept::Narrow(near));
        }
        let far = far_counts(alloc, ends)?;
        Kept::of_wide(alloc, far)
    }

    /// For each element, whether the mask is true at its list.
    #[tactic(auto, using(crate::proofs::NestedLemmas::sizes_length))]
    pub fn spread(&self, alloc: Global, m: &Mask) -> Result<Mask, NoMemory>
        requires { length m.now ≡ length self.now }
        ensures { IfOk result (λ v. v ≡ spread m.now self.now) }
    {
        spread_bits(alloc, self.ends.as_slice(), m.as_slice())
    }

    /// Those at which the mask is true, each moved to where the one before it now ends.
    #[tactic(auto, using(crate::proofs::NestedLemmas::rises_sums, crate::proofs::NestedLemmas::sizes_sums, crate::proofs::NestedLemmas::sizes_length))]
    pub fn filter(&self, alloc: Global, m: &Mask) -> Result<Ends, NoMemory>
        requires { length m.now ≡ length self.now }
        ensures { IfOk result (λ v. v ≡ items_where_true m.now self.now) }
    {
        let ends = kept_ends(alloc, self.ends.as_slice(), m)?;
        Ok(Ends::new(ends))
    }

    /// Those of a range of places, the first of which begins at 0.
    #[tactic(auto, using(crate::proofs::NestedLemmas::rises_sums, crate::proofs::NestedLemmas::sizes_sums, crate::proofs::NestedLemmas::sizes_length))]
    pub fn slice(&self, alloc: Global, from: usize, to: usize) -> Result<Ends, NoMemory>
        requires ordered { from ≤ to }
        requires within { to ≤ length self.now }
        ensures { IfOk result (λ v. v ≡ slice_range self.now from to) }
    {
        let ends = part_of(alloc, self.ends.as_slice(), from, to)?;
        Ok(Ends::new(ends))
    }

    /// These, and then the others.
    pub fn append(self, other: &Ends) -> Result<Ends, NoMemory>
        ensures { IfOk result (λ v. v ≡ self ++ other.now) }
    {
        let ends = joined(self.ends, other.ends.as_slice())?;
        Ok(Ends::new(ends))
    }

    /// A copy that equals this one.
    pub fn try_clone(&self, alloc: Global) -> Result<Ends, NoMemory>
        ensures { IfOk result (λ v. v ≡ self.now) }
    {
        let ends = Vec::from_slice(alloc, self.ends.as_slice())?;
        Ok(Ends::new(ends))
    }
}

fn start_of(ends: &[usize], i: usize) -> usize
    requires rises { Rises 0 ends.now }
    requires within { i ≤ length ends.now }
    ensures { result ≡ total (take i (sizes 0 ends.now)) }
{
    if i == 0 { 0 } else { ends[i - 1] }
}

fn end_of(ends: &[usize], i: usize) -> usize
    requires rises { Rises 0 ends.now }
    requires within { i < length ends.now }
    ensures { result ≡ total (take (i + 1) (sizes 0 ends.now)) }
{
    ends[i]
}

/// Whether where the last list ends is a number of an i64.
#[tactic(auto, using(crate::proofs::EndLemmas::last_is, crate::proofs::EndLemmas::none_is))]
fn are_near(ends: &[usize]) -> bool
    ensures { IsTrue result → last_from 0 ends.now < 2 ^ 63 }
{
    match ends.len() {
        0 => true,
        count => ends[count - 1] <= 9_223_372_036_854_775_807,
    }
}

/// How many elements each list has, written over others.
fn written_counts(made: Vec<i64>, ends: &[usize]) -> Vec<i64>
    requires rises { Rises 0 ends.now }
    requires low { last_from 0 ends.now < 2 ^ 63 }
    requires length { length made.items ≡ length ends.now }
    ensures { result.items ≡ map pos (sizes 0 ends.now) }
{
    let mut made = made;
    let mut start = 0;
    for i in 0..ends.len() {
        let end = ends[i];
        made[i] = (end - start) as i64;
        start = end;
    }
    made
}

fn near_counts(alloc: Global, ends: &[usize]) -> Result<Vec<i64>, NoMemory>
    requires rises { Rises 0 ends.now }
    requires low { last_from 0 ends.now < 2 ^ 63 }
    ensures { IfOk result (λ v. v.items ≡ map pos (sizes 0 ends.now)) }
{
    let made = signed(alloc, ends)?;
    Ok(written_counts(made, ends))
}

/// The numbers as i64: room to be written over, which takes less to make than zeros.
fn signed(alloc: Global, numbers: &[usize]) -> Result<Vec<i64>, AllocError>
    ensures { IfOk result (λ v. v.items ≡ map (λ n. cast_signed w64 n) numbers.now) }
{
    numbers
        .iter()
        .map(|n| (*n as u64).cast_signed())
        .collect(alloc)
}

fn far_counts(alloc: Global, ends: &[usize]) -> Result<Vec<i128>, NoMemory>
    requires { Rises 0 ends.now }
    ensures { IfOk result (λ v. v.items ≡ map pos (sizes 0 ends.now)) }
{
    let mut made = Vec::with_capacity(alloc, ends.len())?;
    let mut start = 0;
    for end in ends {
        let count = *end - start;
        made.push(count as i128)?;
        start = *end;
    }
    Ok(made)
}

fn more_bits(bits: Vec<bool>, bit: bool, count: usize) -> Result<Vec<bool>, NoMemory>
    ensures { IfOk result (λ v. v.items ≡ bits.items ++ replicate count bit) }
{
    let mut bits = bits;
    for i in 0..count {
        bits.push(bit)?;
    }
    Ok(bits)
}

fn spread_bits(alloc: Global, ends: &[usize], m: &[bool]) -> Result<Mask, NoMemory>
    requires rises { Rises 0 ends.now }
    requires even { length m.now ≡ length ends.now }
    ensures { IfOk result (λ v. v ≡ spread m.now (sizes 0 ends.now)) }
{
    let mut bits = Vec::new(alloc);
    let mut start = 0;
    for (i, end) in ends.iter().enumerate() {
        bits = more_bits(bits, m[i], *end - start)?;
        start = *end;
    }
    Ok(Mask::from_bools(bits))
}

fn kept_ends(alloc: Global, ends: &[usize], m: &Mask) -> Result<Vec<usize>, NoMemory>
    requires rises { Rises 0 ends.now }
    requires even { length m.now ≡ length ends.now }
    ensures { IfOk result (λ v. v.items ≡ sums 0 (items_where_true m.now (sizes 0 ends.now))) }
{
    let bits = m.as_slice();
    let mut made = Vec::with_capacity(alloc, m.true_count())?;
    let mut start = 0;
    let mut last = 0;
    for (i, end) in ends.iter().enumerate() {
        if bits[i] {
            last += *end - start;
            made.push(last)?;
        }
        start = *end;
    }
    Ok(made)
}

/// Ends from the one after `start` on, of which the first list begins at 0.
fn moved_back(alloc: Global, ends: &[usize], start: usize) -> Result<Vec<usize>, NoMemory>
    requires { Rises start ends.now }
    ensures { IfOk result (λ v. v.items ≡ sums 0 (sizes start ends.now)) }
{
    let mut made = Vec::with_capacity(alloc, ends.len())?;
    let mut before = start;
    let mut last = 0;
    for end in ends {
        last += *end - before;
        made.push(last)?;
        before = *end;
    }
    Ok(made)
}

/// The ends, and then others, of which the first list begins at `start`.
fn moved_on(ends: Vec<usize>, others: &[usize], start: usize) -> Result<Vec<usize>, NoMemory>
    requires { Rises 0 others.now }
    ensures { IfOk result (λ v. v.items ≡ ends.items ++ sums start (sizes 0 others.now)) }
{
    let mut made = ends;
    let mut before = 0;
    let mut last = start;
    for end in others {
        let Some(moved) = last.checked_add(*end - before) else {
            return Err(NoMemory);
        };
        made.push(moved)?;
        last = moved;
        before = *end;
    }
    Ok(made)
}

fn part_of(alloc: Global, ends: &[usize], from: usize, to: usize) -> Result<Vec<usize>, NoMemory>
    requires rises { Rises 0 ends.now }
    requires ordered { from ≤ to }
    requires within { to ≤ length ends.now }
    ensures { IfOk result (λ v. v.items ≡ sums 0 (slice_range (sizes 0 ends.now) from to)) }
{
    let start = start_of(ends, from);
    moved_back(alloc, &ends[from..to], start)
}

fn joined(ends: Vec<usize>, others: &[usize]) -> Result<Vec<usize>, NoMemory>
    requires rises { Rises 0 ends.items }
    requires others { Rises 0 others.now }
    ensures sizes { IfOk result (λ v. sizes 0 v.items ≡ sizes 0 ends.items ++ sizes 0 others.now) }
    ensures rises { IfOk result (λ v. Rises 0 v.items) }
{
    let start = start_of(ends.as_slice(), ends.len());
    let made = moved_on(ends, others, start)?;
    Ok(made)
}
