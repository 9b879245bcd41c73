// Masks of rows, after the crate's `vortex_mask`.
ghost use Rattle.std.specs.Prelude.{◌≡◌, ◌≤◌, ◌<◌, ◌*◌, ◌==◌, not, nat_lt, true, false, IfOk, length, replicate, slice_get, slice_range, position, Some};
ghost use Rattle.std.specs.List.{list_all};
ghost use Rattle.scan_values.specs.Masks.{true_count, last_true, both_true, limited, by_rank};

use crate::memory::NoMemory;
use std::alloc::Global;
use std::marker::Model;
use std::ops::Range;

/// A truth value for each row.
#[derive(Drop)]
pub struct Mask {
    bits: Vec<bool>,
    count: usize,
}

impl Model for Mask {
    ghost use Rattle.std.specs.Prelude.{◌≡◌, List, Bool};
    ghost use Rattle.scan_values.specs.Masks.{true_count};

    ghost Value = { List Bool };

    ghost view = { λ a. a.bits.items };

    ghost invariant = { λ a. a.count ≡ true_count a.bits.items };
}

impl Mask {
    /// All rows true.
    pub fn new_true(alloc: Global, len: usize) -> Result<Mask, NoMemory>
        ensures { IfOk result (λ m. m ≡ replicate len true) }
    {
        let bits = vec![in alloc; true; len]?;
        Ok(Mask { bits, count: len })
    }

    /// All rows false.
    pub fn new_false(alloc: Global, len: usize) -> Result<Mask, NoMemory>
        ensures { IfOk result (λ m. m ≡ replicate len false) }
    {
        let bits = vec![in alloc; false; len]?;
        Ok(Mask { bits, count: 0 })
    }

    /// The mask of these truth values, one for each row.
    pub fn from_bools(bits: Vec<bool>) -> Mask
        ensures { result ≡ bits.items }
    {
        let count = count_true(bits.as_slice());
        Mask { bits, count }
    }

    /// How many rows.
    pub fn len(&self) -> usize
        ensures { result ≡ length self.now }
    {
        self.bits.len()
    }

    /// Whether there is no row.
    pub fn is_empty(&self) -> bool
        ensures { result ≡ (length self.now == 0) }
    {
        self.bits.is_empty()
    }

    /// The truth values, row by row.
    pub fn as_slice(&self) -> &[bool]
        ensures { result.now ≡ self.now }
    {
        self.bits.as_slice()
    }

    /// How many rows are true.
    pub fn true_count(&self) -> usize
        ensures count { result ≡ true_count self.now }
        ensures within { result ≤ length self.now }
    {
        self.count
    }

    /// Whether the row at a place is true.
    pub fn get(&self, i: usize) -> bool
        requires { i < length self.now }
        ensures { Some result ≡ slice_get self.now i }
    {
        self.bits[i]
    }

    /// Whether every row is true; of an empty mask too.
    pub fn all_true(&self) -> bool
        ensures { result ≡ list_all (λ b. b) self.now }
    {
        self.count == self.bits.len()
    }

    /// Whether no row is true.
    pub fn all_false(&self) -> bool
        ensures { result ≡ list_all not self.now }
    {
        self.count == 0
    }

    /// The place of the first true row.
    pub fn first(&self) -> Option<usize>
        ensures { result ≡ position (λ b. b) self.now }
    {
        self.bits.iter().position(|b| *b)
    }

    /// The place of the last true row.
    pub fn last(&self) -> Option<usize>
        ensures { result ≡ last_true self.now }
    {
        let mut end = self.bits.len();
        while end > 0 {
            if self.bits[end - 1] {
                return Some(end - 1);
            }
            end -= 1;
        }
        None
    }

    /// Whether fewer than a fifth of the rows are true.
    pub fn is_sparse(&self) -> bool
        ensures { result ≡ nat_lt (5 * true_count self.now) (length self.now) }
    {
        5 * (self.count as u128) < self.bits.len() as u128
    }

    /// The rows that are true in both.
    pub fn and(&self, alloc: Global, other: &Mask) -> Result<Mask, NoMemory>
        requires { length self.now ≡ length other.now }
        ensures { IfOk result (λ m. m ≡ both_true self.now other.now) }
    {
        let bits = Vec::from_slice(alloc, self.bits.as_slice())?;
        Ok(Mask::from_bools(keep_both(bits, other.as_slice())))
    }

    /// Of the true rows only the first `n` stay true.
    pub fn limit(self, n: usize) -> Mask
        ensures { result ≡ limited n self }
    {
        if self.count <= n {
            return self;
        }
        let Mask { bits, count: _ } = self;
        Mask {
            bits: clear_after(bits, n),
            count: n,
        }
    }

    /// The rows of a range of places.
    pub fn slice(&self, alloc: Global, r: Range<usize>) -> Result<Mask, NoMemory>
        requires ordered { r.start ≤ r.end }
        requires within { r.end ≤ length self.now }
        ensures { IfOk result (λ m. m ≡ slice_range self.now r.start r.end) }
    {
        let bits = Vec::from_slice(alloc, &self.bits[r.start..r.end])?;
        Ok(Mask::from_bools(bits))
    }

    /// The k-th true row stays true where the k-th row of `other` is true.
    pub fn intersect_by_rank(&self, alloc: Global, other: &Mask) -> Result<Mask, NoMemory>
        requires { length other.now ≡ true_count self.now }
        ensures { IfOk result (λ m. m ≡ by_rank self.now other.now) }
    {
        if self.all_true() {
            return other.try_clone(alloc);
        }
        if other.all_true() {
            return self.try_clone(alloc);
        }
        let bits = Vec::from_slice(alloc, self.bits.as_slice())?;
        Ok(Mask::from_bools(keep_ranked(bits, other.as_slice())))
    }

    /// A copy that equals this one.
    pub fn try_clone(&self, alloc: Global) -> Result<Mask, NoMemory>
        ensures { IfOk result (λ m. m ≡ self.now) }
    {
        let bits = Vec::from_slice(alloc, self.bits.as_slice())?;
        Ok(Mask {
            bits,
            count: self.count,
        })
    }
}

/// So many truth values are counted at once, in a byte.
const BLOCK: usize = 128;

/// How many are true.
fn count_true(bits: &[bool]) -> usize
    ensures { result ≡ true_count bits.now }
{
    let mut count = 0;
    let mut rest = bits;
    while rest.len() > BLOCK {
        let (block, later) = rest.split_at(BLOCK);
        count += count_few(block) as usize;
        rest = later;
    }
    count + count_few(rest) as usize
}

fn count_few(bits: &[bool]) -> u8
    requires { length bits.now ≤ 255 }
    ensures { result ≡ true_count bits.now }
{
    let mut count = 0;
    for bit in bits {
        count += *bit as u8;
    }
    count
}

/// The truth values, false where one of the others is.
fn keep_both(bits: Vec<bool>, others: &[bool]) -> Vec<bool>
    requires { length bits.items ≡ length others.now }
    ensures { result.items ≡ both_true bits.items others.now }
{
    let mut bits = bits;
    for i in 0..bits.len() {
        bits[i] = bits[i] & others[i];
    }
    bits
}

/// The truth values, of which the k-th true one stays true where the k-th of the others is.
fn keep_ranked(bits: Vec<bool>, others: &[bool]) -> Vec<bool>
    requires { length others.now ≡ true_count bits.items }
    ensures { result.items ≡ by_rank bits.items others.now }
{
    let mut bits = bits;
    let mut rank = 0;
    for i in 0..bits.len() {
        let bit = bits[i];
        let kept = rank < others.len() && others[rank];
        bits[i] = bit & kept;
        rank += bit as usize;
    }
    bits
}

/// The rows, of which only the first `n` true ones stay true.
fn clear_after(bits: Vec<bool>, n: usize) -> Vec<bool>
    ensures { result.items ≡ limited n bits.items }
{
    let mut bits = bits;
    let mut left = n;
    for i in 0..bits.len() {
        if bits[i] {
            if left > 0 {
                left -= 1;
            } else {
                bits[i] = false;
            }
        }
    }
    bits
}
