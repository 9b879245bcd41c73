//! The steps of a round over all files.
ghost use Rattle.std.specs.Prelude.{◌≡◌, ◌≤◌, ◌<◌, true, All, IfOk, OnOk, length, map, ℕ};
ghost use Rattle.std.specs.List.Sorted.{IsSorted};
ghost use Rattle.scan_values.specs.Selections.{is_among};
ghost use Rattle.scan_drive.specs.Drives.{DesksAgree, SourcesMove, IsIdle, NoneOf, EachLinked, desk_at};
ghost use Rattle.scan_drive.specs.Desks.{IsAwaited};
ghost use Rattle.scan_drive.specs.Ledger.{FilesKeepLedger, KeepsAllBalance};
ghost use Rattle.scan_drive.specs.Order.{by_file};
ghost use Rattle.scan_drive.specs.Steps.{FetchesFiles};
ghost use Rattle.scan_drive.specs.Trades.{FilesTrade};
ghost use Rattle.scan_drive.specs.Wants.{Cache};

use crate::desk::Desk;
use crate::fetching::fetch;
use crate::files::ScanFile;
use crate::slot::Slot;
use crate::work::SplitWork;
use scan_segments::{KeyedSegmentCache, SegmentSource};
use scan_values::NoMemory;
use std::alloc::Global;

/// A desk for each file.
pub fn make_desks<O, S: SegmentSource>(
    alloc: Global,
    files: &Vec<ScanFile<O, S>>,
) -> Result<Vec<Desk>, NoMemory>
    requires { All (IsIdle S.state) files.now.items }
    ensures { IfOk result (λ desks. DesksAgree S.state files.now.items desks.items) }
{
    let mut desks = Vec::new(alloc);
    for file in 0..files.len() {
        desks.push(Desk::new(alloc, file))?;
    }
    Ok(desks)
}

/// Drops all that is live.
pub fn close_all<O: Drop, S: SegmentSource + Drop>(
    files: &mut Vec<ScanFile<O, S>>,
    desks: &mut Vec<Desk>,
)
    requires { DesksAgree S.state files.old.items desks.old.items }
    ensures idle { All (IsIdle S.state) files.new.items }
    ensures awaited { (k : ℕ) → k < length desks.old.items → IsAwaited (desk_at desks.old.items k) }
    ensures moves { SourcesMove S.state NoneOf files.old.items files.new.items }
    ensures ledger { (c : Cache) → FilesKeepLedger S.state files.old.items files.new.items c c }
    ensures balance { All (IsIdle S.state) files.old.items → KeepsAllBalance S.state files.old.items files.new.items }
{
    for i in 0..files.len() {
        let file = &mut files[i];
        let desk = &mut desks[i];
        desk.close(&mut file.source);
    }
}

/// The desks from one place to another, by their files: each file with its place.
fn desks_by_file(
    alloc: Global,
    desks: &Vec<Desk>,
    first: usize,
    last: usize,
) -> Result<Vec<(usize, usize)>, NoMemory>
    requires { last ≤ length desks.now.items }
    ensures within { IfOk result (λ found. All (λ p. p.1 < last) found.items) }
    ensures order { IfOk result (λ found. IsSorted by_file found.items) }
    ensures all { IfOk result (λ found. (k : ℕ) → first ≤ k → k < last → is_among (map (λ p. p.1) found.items) k ≡ true) }
{
    let mut found = Vec::new(alloc);
    for place in first..last {
        found.push((desks[place].file(), place))?;
    }
    found.sort_unstable();
    Ok(found)
}

/// Polls each live request of the files from one place to another once, by file and then by segment, and hands over what
/// has come.
pub fn fetch_files<W: SplitWork + Drop, O: Drop, S: SegmentSource + Drop, C: KeyedSegmentCache>(
    alloc: Global,
    files: &mut Vec<ScanFile<O, S>>,
    desks: &mut Vec<Desk>,
    cache: &mut C,
    slots: &mut Vec<Slot<W, W::Rows>>,
    first: usize,
    last: usize,
) -> Result<(), NoMemory>
    requires to { last ≤ length files.old.items }
    requires agree { DesksAgree S.state files.old.items desks.old.items }
    requires links { EachLinked desks.old.items slots.old.items }
    ensures agree { DesksAgree S.state files.new.items desks.new.items }
    ensures sources { SourcesMove S.state NoneOf files.old.items files.new.items }
    ensures trades { FilesTrade S.state files.old.items files.new.items (C.cache cache.old) (C.cache cache.new) }
    ensures fetches { OnOk result (FetchesFiles S.state W.split W.comes W.items first last files.old.items files.new.items
        desks.old.items desks.new.items (C.cache cache.old) (C.cache cache.new) slots.old.items slots.new.items) }
{
    let found = desks_by_file(alloc, desks, first, last)?;
    for i in 0..found.len() {
        let (_, k) = found[i];
        let file = &mut files[k];
        let desk = &mut desks[k];
        fetch(alloc, &file.source_id, &mut file.source, desk, cache, slots)?;
    }
    Ok(())
}
