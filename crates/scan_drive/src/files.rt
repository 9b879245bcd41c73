//! The files of a scan. After the Rust's `scan::multi`.
ghost use Rattle.std.specs.Prelude.{◌≡◌, ◌≤◌, ◌<◌, ◌+◌, ℕ, false, IfOk, length};
ghost use Rattle.scan_drive.specs.Openers.{as_number};
ghost use Rattle.scan_drive.specs.Phases.{SpentBelow, phase_at};
ghost use Rattle.scan_drive.specs.Steps.{OpensFiles, OpensKeep};
ghost use Rattle.scan_drive.specs.declared.files.ScanFile.{ScanFile};

use crate::opening::{SplitOpener, open_file};
use crate::phase::Phase;
use crate::work::SplitWork;
use scan_segments::{SegmentSource, SegmentSourceId};
use scan_values::NoMemory;
use std::alloc::Global;

/// A file: what opens it, what holds its segments, and the name of that source.
#[derive(Drop)]
pub struct ScanFile<O, S> {
    pub opener: O,
    pub source: S,
    pub source_id: SegmentSourceId,
}

/// One of two is true.
fn either(a: bool, b: bool) -> bool
    ensures number { as_number result ≤ as_number a + as_number b }
    ensures none { result ≡ false → (a ≡ false) × (b ≡ false) }
{
    if a { true } else { b }
}

/// Polls the opener of each file from one place to another once, unless it has answered, and says whether one has now.
pub fn open_files<X: SplitOpener<O, W, F>, O, W: SplitWork + Drop, F: Drop, S: SegmentSource>(
    alloc: Global,
    context: &X,
    files: &mut Vec<ScanFile<O, S>>,
    phases: &mut Vec<Phase<W, F>>,
    first: usize,
    last: usize,
) -> Result<bool, NoMemory>
    requires same { length phases.old.items ≡ length files.old.items }
    requires within { last ≤ length files.old.items }
    requires below { SpentBelow phases.old.items first }
    ensures len { length phases.new.items ≡ length phases.old.items }
    ensures below { (k : ℕ) → k < first → phase_at phases.new.items k ≡ phase_at phases.old.items k }
    ensures keeps { OpensKeep (X.state context.now) X.polls (X.refuses context.now) (X.admits context.now)
        S.state W.split W.comes W.items first last files.old.items files.new.items phases.old.items }
    ensures opens { IfOk result (λ b. OpensFiles (X.state context.now) X.polls (X.refuses context.now) (X.admits context.now)
        S.state W.split W.comes W.items b first last files.old.items files.new.items phases.old.items phases.new.items) }
{
    let mut any = false;
    for i in first..last {
        let file = &mut files[i];
        let phase = &mut phases[i];
        let opened = open_file(alloc, context, &mut file.opener, phase)?;
        any = either(any, opened);
    }
    Ok(any)
}
