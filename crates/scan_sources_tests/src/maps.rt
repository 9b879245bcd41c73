//! A map that refuses arrays of so many rows.
ghost use Rattle.std.specs.Prelude.{◌≡◌};
ghost use Rattle.scan_sources_tests.specs.SixRows.{unless_of};

use scan_streams::MapStep;
use scan_values::Array;

/// The array itself, unless it has so many rows.
#[derive(Drop)]
pub(crate) struct UnlessOf {
    count: usize,
}

impl UnlessOf {
    /// It refuses arrays of so many rows.
    pub(crate) fn new(count: usize) -> UnlessOf {
        UnlessOf { count }
    }
}

impl MapStep for UnlessOf {
    type Out = Array;

    type Fault = usize;

    ghost can_apply = { λ _. Unit {0} };

    ghost answers = { λ s a r. r ≡ unless_of s.count a };

    fn apply_step(&self, array: Array) -> Result<Array, usize> {
        if array.len() == self.count {
            return Err(self.count);
        }
        Ok(array)
    }
}
