// The slots of typed cells, of whatever kind.
ghost use Rattle.std.specs.Prelude.{◌≡◌, ◌≤◌, ◌&&◌, IfOk, map, length, not, slice_range};
ghost use Rattle.std.specs.List.{items_where_true, list_all, zip};
ghost use Rattle.scan_values.specs.Masks.{both_true};

use scan_spelling::keep_true;
use scan_values::{Mask, NoMemory};
use std::alloc::{AllocError, Global};

/// The items at which the mask is true: of one that is true at few of them one by one, else without a branch.
pub(crate) fn kept<T: Copy>(alloc: Global, items: &[T], m: &Mask) -> Result<Vec<T>, NoMemory>
    requires { length m.now ≡ length items.now }
    ensures { IfOk result (λ v. v.items ≡ items_where_true m.now items.now) }
{
    if m.is_sparse() {
        return few_kept(alloc, items, m);
    }
    let made = Vec::from_slice(alloc, items)?;
    Ok(keep_true(made, m.as_slice()))
}

fn few_kept<T: Copy>(alloc: Global, items: &[T], m: &Mask) -> Result<Vec<T>, NoMemory>
    requires { length m.now ≡ length items.now }
    ensures { IfOk result (λ v. v.items ≡ items_where_true m.now items.now) }
{
    let bits = m.as_slice();
    let mut made = Vec::with_capacity(alloc, m.true_count())?;
    for (i, item) in items.iter().enumerate() {
        if bits[i] {
            made.push(*item)?;
        }
    }
    Ok(made)
}

/// The items of a range of places.
pub(crate) fn part<T: Copy>(
    alloc: Global,
    items: &[T],
    from: usize,
    to: usize,
) -> Result<Vec<T>, NoMemory>
    requires ordered { from ≤ to }
    requires within { to ≤ length items.now }
    ensures { IfOk result (λ v. v.items ≡ slice_range items.now from to) }
{
    let made = Vec::from_slice(alloc, &items[from..to])?;
    Ok(made)
}

/// Where both bits are true, in one pass over both.
pub(crate) fn both(alloc: Global, bits: &[bool], others: &[bool]) -> Result<Vec<bool>, NoMemory>
    requires { length others.now ≡ length bits.now }
    ensures { IfOk result (λ v. v.items ≡ both_true bits.now others.now) }
{
    let made = each_both(alloc, bits, others)?;
    Ok(made)
}

fn each_both(alloc: Global, bits: &[bool], others: &[bool]) -> Result<Vec<bool>, AllocError>
    ensures { IfOk result (λ v. v.items ≡ map (λ p. p.0 && p.1) (zip bits.now others.now)) }
{
    bits.iter()
        .zip(others)
        .map(|(bit, other)| *bit & *other)
        .collect(alloc)
}

/// Of each bit the contrary.
pub(crate) fn contrary(alloc: Global, bits: &[bool]) -> Result<Vec<bool>, NoMemory>
    ensures { IfOk result (λ v. v.items ≡ map not bits.now) }
{
    let made = Vec::from_slice(alloc, bits)?;
    Ok(flipped(made))
}

fn flipped(bits: Vec<bool>) -> Vec<bool>
    ensures { result.items ≡ map not bits.items }
{
    let mut bits = bits;
    for i in 0..bits.len() {
        bits[i] = !bits[i];
    }
    bits
}

/// Whether every bit is true, without a way out.
pub(crate) fn all_true(bits: &[bool]) -> bool
    ensures { result ≡ list_all (λ b. b) bits.now }
{
    let mut all = true;
    for bit in bits {
        all &= *bit;
    }
    all
}
