//! Files of a scan that were begun. After the Rust's `scan::multi`, where they are futures.
ghost use Rattle.std.specs.Prelude.{◌≡◌, IfOk, map, option_map};
ghost use Rattle.std.specs.List.{slice_get};
ghost use Rattle.scan_multi_sources.specs.FileView.{slot_view};

use scan_layout::LayoutRef;
use scan_values::NoMemory;

/// How far a file is.
#[derive(Drop)]
pub(crate) enum Stage {
    /// Its opener has not answered.
    Opening,
    /// It is opened and not delivered.
    Opened(LayoutRef),
    /// Its opener failed, which is told in its turn.
    Failed,
}

/// A file that was begun, by its place among those of the source.
#[derive(Drop)]
pub(crate) struct Slot {
    pub place: usize,
    pub stage: Stage,
}

/// A copy of the file at an index, where there is one.
pub(crate) fn copy_at(window: &[Slot], at: usize) -> Result<Option<Slot>, NoMemory>
    ensures { IfOk result (λ s. option_map slot_view s ≡ slice_get (map slot_view window.now) at) }
{
    match window.get(at) {
        Some(slot) => Ok(Some(slot.copy()?)),
        None => Ok(None),
    }
}

impl Slot {
    /// A copy that equals this one.
    fn copy(&self) -> Result<Slot, NoMemory>
        ensures { IfOk result (λ s. slot_view s ≡ slot_view self.now) }
    {
        let stage = match &self.stage {
            Stage::Opening => Stage::Opening,
            Stage::Opened(layout) => Stage::Opened(layout.clone()?),
            Stage::Failed => Stage::Failed,
        };
        Ok(Slot {
            place: self.place,
            stage,
        })
    }
}
