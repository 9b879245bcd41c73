// Selections of rows, after the crate's `scan::selection`.
ghost use Rattle.std.specs.Prelude.{◌≡◌, ◌≤◌, true, not, if◌then◌else◌, IfOk, Ok, Err, map, count_by};
ghost use Rattle.scan_values.specs.StrictSorted.{is_rising, rank};
ghost use Rattle.scan_values.specs.Selections.{numbers, is_among, row_mask, row_count};

use crate::mask::Mask;
use crate::memory::NoMemory;
use std::alloc::Global;
use std::default::Default;
use std::marker::Model;
use std::ops::Range;
use thiserror::Error;

/// Row numbers, each above the one before.
#[derive(Drop)]
pub struct StrictSorted {
    items: Vec<u64>,
}

impl Model for StrictSorted {
    ghost use Rattle.std.specs.Prelude.{◌≡◌, ℕ, List, true};
    ghost use Rattle.scan_values.specs.StrictSorted.{is_rising};

    ghost Value = { List ℕ };

    ghost view = { λ a. a.items.items };

    ghost invariant = { λ a. is_rising a.items.items ≡ true };
}

/// Why numbers are not strictly sorted.
#[derive(Clone, Copy, Debug, PartialEq, Eq, Error)]
pub enum StrictSortedFault {
    #[error("a number is not above the one before")]
    NotRising,
}

impl StrictSorted {
    /// The numbers, or `NotRising` where one is not above the one before.
    pub fn try_new(v: Vec<u64>) -> Result<StrictSorted, StrictSortedFault>
        ensures { result ≡ (if is_rising v.items then Ok v.items else Err StrictSortedFault.NotRising) }
    {
        if !is_rising(v.as_slice()) {
            return Err(StrictSortedFault::NotRising);
        }
        Ok(StrictSorted { items: v })
    }

    /// The numbers, each above the one before.
    pub fn as_slice(&self) -> &[u64]
        ensures items { result.now ≡ self.now }
        ensures rising { is_rising self.now ≡ true }
    {
        self.items.as_slice()
    }

    /// A copy that equals this one.
    pub fn try_clone(&self, alloc: Global) -> Result<StrictSorted, NoMemory>
        ensures { IfOk result (λ s. s ≡ self.now) }
    {
        let items = Vec::from_slice(alloc, self.items.as_slice())?;
        Ok(StrictSorted { items })
    }

    /// How many of the numbers are below `n`.
    pub fn rank(&self, n: u64) -> usize
        ensures { result ≡ rank n self.now }
    {
        rank_of(self.as_slice(), n)
    }

    /// Whether `n` is one of the numbers.
    pub fn contains(&self, n: u64) -> bool
        ensures { result ≡ is_among self.now n }
    {
        let items = self.as_slice();
        is_at(items, rank_of(items, n), n)
    }

    /// For each number of a range, whether it is one of these.
    fn marks(&self, alloc: Global, r: &Range<u64>) -> Result<Vec<bool>, NoMemory>
        requires { r.now.start ≤ r.now.end }
        ensures { IfOk result (λ v. v.items ≡ map (is_among self.now) (numbers r.now.start r.now.end)) }
    {
        let items = self.as_slice();
        let mut at = rank_of(items, r.start);
        let mut bits = Vec::with_capacity(alloc, (r.end - r.start) as usize)?;
        for n in r.start..r.end {
            let is_here = is_at(items, at, n);
            bits.push(is_here)?;
            at += is_here as usize;
        }
        Ok(bits)
    }

    /// How many numbers of a range are among these.
    fn count_within(&self, r: &Range<u64>) -> u64
        requires { r.now.start ≤ r.now.end }
        ensures { result ≡ count_by (is_among self.now) (numbers r.now.start r.now.end) }
    {
        let items = self.as_slice();
        (rank_of(items, r.end) - rank_of(items, r.start)) as u64
    }
}

/// How many of rising numbers are below `n`.
fn rank_of(items: &[u64], n: u64) -> usize
    requires { is_rising items.now ≡ true }
    ensures { result ≡ rank n items.now }
{
    items.partition_point(|x| *x < n)
}

/// Whether `n` stands at its rank among rising numbers.
fn is_at(items: &[u64], at: usize, n: u64) -> bool
    requires rising { is_rising items.now ≡ true }
    requires ranked { at ≡ rank n items.now }
    ensures { result ≡ is_among items.now n }
{
    at < items.len() && items[at] == n
}

fn is_rising(v: &[u64]) -> bool
    ensures { result ≡ is_rising v.now }
{
    for i in 1..v.len() {
        if v[i] <= v[i - 1] {
            return false;
        }
    }
    true
}

/// Which rows of a file are read. A row that is not there has no effect.
#[derive(Drop)]
pub enum Selection {
    All,
    IncludeByIndex(StrictSorted),
    ExcludeByIndex(StrictSorted),
}

impl Default for Selection {
    ghost use Rattle.std.specs.Prelude.{◌≡◌};
    ghost use Rattle.scan_values.specs.declared.selection.Selection.TheVariants.{All};

    ghost is_default = { λ s. s ≡ All };

    fn default() -> Selection {
        Selection::All
    }
}

impl Selection {
    /// For each row of a range, whether it is selected.
    pub fn row_mask(&self, alloc: Global, r: &Range<u64>) -> Result<Mask, NoMemory>
        requires { r.now.start ≤ r.now.end }
        ensures { IfOk result (λ m. m ≡ row_mask self.now r.now) }
    {
        match self {
            Selection::All => Mask::new_true(alloc, (r.end - r.start) as usize),
            Selection::IncludeByIndex(rows) => Ok(Mask::from_bools(rows.marks(alloc, r)?)),
            Selection::ExcludeByIndex(rows) => {
                let bits = rows.marks(alloc, r)?;
                Ok(Mask::from_bools(contrary(bits)))
            }
        }
    }

    /// How many rows of a range are selected.
    pub fn row_count_in_range(&self, r: &Range<u64>) -> u64
        requires { r.now.start ≤ r.now.end }
        ensures { result ≡ row_count self.now r.now }
    {
        match self {
            Selection::All => r.end - r.start,
            Selection::IncludeByIndex(rows) => rows.count_within(r),
            Selection::ExcludeByIndex(rows) => r.end - r.start - rows.count_within(r),
        }
    }

    /// A copy that equals this one.
    pub fn try_clone(&self, alloc: Global) -> Result<Selection, NoMemory>
        ensures { IfOk result (λ s. s ≡ self.now) }
    {
        match self {
            Selection::All => Ok(Selection::All),
            Selection::IncludeByIndex(rows) => Ok(Selection::IncludeByIndex(rows.try_clone(
                alloc,
            )?)),
            Selection::ExcludeByIndex(rows) => Ok(Selection::ExcludeByIndex(rows.try_clone(
                alloc,
            )?)),
        }
    }
}

/// The contrary of each truth value.
fn contrary(bits: Vec<bool>) -> Vec<bool>
    ensures { result.items ≡ map not bits.items }
{
    let mut bits = bits;
    for i in 0..bits.len() {
        bits[i] = !bits[i];
    }
    bits
}
