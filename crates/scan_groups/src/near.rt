//! Numbers whose places were asked for lately.
ghost use Rattle.std.specs.Prelude.{◌≡◌, ◌<◌, [], All, IfOk, IfSome, List, ℕ};
ghost use Rattle.std.specs.BTreeMap.{BTreeMap};
ghost use Rattle.scan_values.specs.Val.{Val};
ghost use Rattle.scan_groups.specs.Near.{AreAt, IsAt};

use scan_values::NoMemory;
use std::alloc::Global;

/// A number, and the place of the key that it is.
#[derive(Clone, Copy)]
pub(crate) struct Slot {
    pub number: i64,
    pub place: usize,
}

/// Slots that are lent, each number in the one that the first bits of a product name.
#[derive(Clone, Copy)]
pub(crate) struct Slots<'a> {
    slots: &'a [Slot],
    shift: u32,
}

impl<'a> Slots<'a> {
    /// The place of a number's key, where it stands in its slot.
    #[inline(always)]
    pub(crate) fn find(self, number: i64) -> Option<usize>
        ensures { (m : BTreeMap (List Val) ℕ) → All (IsAt m) self.entry.slots.now →
            IfSome result (λ i. IsAt m (record { number = number; place = i })) }
    {
        let Some(slot) = self.slots.get(slot_of(number, self.shift)) else {
            return None;
        };
        if slot.number == number {
            Some(slot.place)
        } else {
            None
        }
    }

    /// The same, where the place is below an end.
    #[inline(always)]
    pub(crate) fn find_below(self, number: i64, end: usize) -> Option<usize>
        ensures at { (m : BTreeMap (List Val) ℕ) → All (IsAt m) self.entry.slots.now →
            IfSome result (λ i. IsAt m (record { number = number; place = i })) }
        ensures below { IfSome result (λ i. i < end) }
    {
        let Some(place) = self.find(number) else {
            return None;
        };
        if place < end { Some(place) } else { None }
    }
}

/// The slot of a number: the first bits of a product, by which numbers that lie side by side are apart.
#[inline(always)]
fn slot_of(number: i64, shift: u32) -> usize {
    let product = number.cast_unsigned().wrapping_mul(0x9e37_79b9_7f4a_7c15);
    product.wrapping_shr(shift) as usize
}

/// So many slots at first, and the bits of a product that are left out then.
const FIRST: (usize, u32) = (256, 56);

/// Numbers and the places of their keys, each number in the one slot that its bits name. What stands in a slot is true,
/// and a number that lost its slot to another is looked up elsewhere: numbers that all want one slot cost no more than that.
#[derive(Drop)]
pub(crate) struct Near {
    slots: Vec<Slot>,
    shift: u32,
}

impl Near {
    /// No numbers.
    pub(crate) fn new(alloc: Global) -> Near
        ensures { result.slots.items ≡ [] }
    {
        let slots = Vec::new(alloc);
        Near { slots, shift: 0 }
    }

    /// The slots, lent.
    #[inline(always)]
    pub(crate) fn lend(&self) -> Slots<'_>
        ensures { result.slots.now ≡ self.now.slots.items }
    {
        Slots {
            slots: self.slots.as_slice(),
            shift: self.shift,
        }
    }

    fn put(&mut self, slot: Slot)
        ensures { (m : BTreeMap (List Val) ℕ) → AreAt m self.old → IsAt m slot → AreAt m self.new }
    {
        let at = slot_of(slot.number, self.shift);
        if at < self.slots.len() {
            self.slots[at] = slot;
        }
    }

    /// Twice as many slots. What the others had is found again where it is looked up.
    fn grow(&mut self, alloc: Global, slot: Slot) -> Result<(), NoMemory>
        ensures { (m : BTreeMap (List Val) ℕ) → IsAt m slot → IfOk result (λ _. AreAt m self.new) }
    {
        let (len, shift) = match self.slots.len().checked_mul(2) {
            Some(0) => FIRST,
            Some(len) => (len, self.shift.saturating_sub(1)),
            None => return Err(NoMemory),
        };
        self.slots = vec![in alloc; slot; len]?;
        self.shift = shift;
        Ok(())
    }

    /// The place of a number's key, found elsewhere. There are four slots at least for each of so many groups.
    pub(crate) fn keep(&mut self, alloc: Global, groups: usize, slot: Slot) -> Result<(), NoMemory>
        ensures { (m : BTreeMap (List Val) ℕ) → AreAt m self.old → IsAt m slot → IfOk result (λ _. AreAt m self.new) }
    {
        if self.slots.len() / 4 < groups {
            return self.grow(alloc, slot);
        }
        self.put(slot);
        Ok(())
    }
}
