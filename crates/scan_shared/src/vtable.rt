//! Reading the items of a shared array.
ghost use Rattle.std.specs.Prelude.{◌≡◌, option_map, slice_get};
ghost use Rattle.scan_values.specs.Values.{val_of};
ghost use Rattle.scan_shared.specs.Shared.{array_of, Remembers};

use crate::array::{Law, Note, SharedArray};
use scan_values::Value;

/// What is kept between reads of single items: nothing, since an array's items are read by their place.
#[derive(Drop)]
pub struct SharedProbeState {}

impl SharedProbeState {
    /// The state before the first read.
    pub fn new() -> Self {
        SharedProbeState {}
    }

    /// The item at a place of the array that `current_array_ref` gives, or None past its end.
    pub fn probe<'a, E: Drop, C: Law<E>>(
        &mut self,
        s: &'a SharedArray<E, C>,
        n: &mut Note<E, C>,
        i: usize,
    ) -> Option<&'a Value>
        requires { n.old.cell ≡ s.now.cell }
        ensures note { (n.new.cell ≡ n.old.cell) × Remembers n.old.known n.new.known }
        ensures item { option_map (λ v. val_of v.now) result
            ≡ slice_get (array_of s.now.source n.new.known).items i }
    {
        s.current_array_ref(n).as_slice().get(i)
    }
}

impl Default for SharedProbeState {
    fn default() -> Self {
        SharedProbeState::new()
    }
}
