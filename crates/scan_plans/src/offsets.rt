//! The offsets of lists.
ghost use Rattle.std.specs.Prelude.{◌≡◌, IfOk};
ghost use Rattle.scan_plans.specs.OffsetsData.{offsets_data, AreNumbers};

use scan_layout::Spelling;
use scan_splits::SegmentRuns;
use scan_values::{DType, NoMemory};
use std::marker::Model;
use std::sync::Arc;

/// The offsets of lists: numbers in a leaf, one more than lists are, and how many elements there are.
#[derive(Drop)]
pub struct Offsets {
    pub(crate) dtype: Arc<DType>,
    pub(crate) spelling: Spelling,
    pub(crate) runs: Arc<SegmentRuns>,
    pub(crate) elements: u64,
}

impl Model for Offsets {
    ghost use Rattle.scan_plans.specs.OffsetsData.{OffsetsData, offsets_data, AreNumbers};
    ghost use Rattle.scan_plans.specs.PlanCode.{offsets_code};

    ghost Value = { OffsetsData };

    ghost coded = { offsets_code };

    ghost view = { λ a. offsets_data a.dtype.value a.spelling a.runs.value a.elements };

    ghost invariant = { λ a. AreNumbers a.dtype.value };
}

impl Offsets {
    /// Numbers of a leaf, which are not null.
    pub fn new(
        dtype: Arc<DType>,
        spelling: Spelling,
        runs: Arc<SegmentRuns>,
        elements: u64,
    ) -> Offsets
        requires { AreNumbers dtype.value }
        ensures { result ≡ offsets_data dtype.value spelling runs.value elements }
    {
        Offsets {
            dtype,
            spelling,
            runs,
            elements,
        }
    }

    /// The same, of which the dtype and the runs are shared.
    pub(crate) fn try_clone(&self) -> Result<Offsets, NoMemory>
        ensures { IfOk result (λ o. o ≡ self.now) }
    {
        let dtype = self.dtype.clone()?;
        let runs = self.runs.clone()?;
        Ok(Offsets::new(dtype, self.spelling, runs, self.elements))
    }
}
