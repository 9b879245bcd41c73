//! The splits of a file. After the Rust's `scan::scan_builder`, which each file is scanned by.
ghost use Rattle.std.specs.Prelude.{◌≡◌, ◌++◌, ◌∷◌, [], IfOk, None, filter};
ghost use Rattle.scan_layout.specs.Form.{HasForm};
ghost use Rattle.scan_layout.specs.Layout.{dtype_of};
ghost use Rattle.scan_file.specs.FileAsks.{IsAsk};
ghost use Rattle.scan_file.specs.FileScans.{AreFileSplits, IsFileScan, arrays_of, futures_in, may_give};
ghost use Rattle.scan_file.specs.Openings.{layout_fault};

use crate::opener::FileOpener;
use crate::split::FileSplit;
use scan_core::{Identity, ScanBuilder, SplitFuture};
use scan_layout::{LayoutReaderContext, LayoutRef};
use scan_plans::ArrayFuture;
use scan_readers::Reader;
use scan_values::{NoMemory, Text};
use std::alloc::Global;
use std::collections::VecDeque;

/// The splits of a file of a layout, as it is asked for: of those ranges that have a selected row.
pub(crate) fn file_splits(
    alloc: Global,
    layout: &LayoutRef,
    ask: &FileOpener,
) -> Result<VecDeque<FileSplit>, NoMemory>
    requires ask { IsAsk ask.now }
    requires good { layout_fault ask.now layout.now.value ≡ None }
    ensures { IfOk result (λ v. AreFileSplits ask.now layout.now.value v.items) }
{
    let futures = file_futures(alloc, layout, ask)?;
    with_rows(alloc, futures)
}

/// The futures of the splits of a file of a layout, as it is asked for.
fn file_futures(
    alloc: Global,
    layout: &LayoutRef,
    ask: &FileOpener,
) -> Result<Vec<SplitFuture<Identity<()>>>, NoMemory>
    requires ask { IsAsk ask.now }
    requires good { layout_fault ask.now layout.now.value ≡ None }
    ensures { IfOk result (λ v. IsFileScan ask.now layout.now.value (arrays_of v.items)) }
{
    let mut reader = file_reader(alloc, layout)?;
    let builder = ScanBuilder::new(alloc, &mut reader)?;
    let builder = ask.asked_of(alloc, builder)?;
    match builder.build(alloc) {
        Ok(futures) => Ok(futures),
        Err(_) => Err(NoMemory),
    }
}

/// A reader of the layout of a file.
fn file_reader(alloc: Global, layout: &LayoutRef) -> Result<Reader<u8>, NoMemory>
    requires { HasForm layout.now.value (dtype_of layout.now.value) }
    ensures { IfOk result (λ r. (r.name ≡ []) × (r.layout ≡ layout.now.value)) }
{
    let shared = LayoutReaderContext::new(alloc);
    let name = Text::new(String::new(alloc));
    Reader::from_layout(alloc, name, layout, &shared)
}

/// The splits of futures that may give a row, in order.
fn with_rows<M: Drop>(
    alloc: Global,
    futures: Vec<SplitFuture<M>>,
) -> Result<VecDeque<FileSplit>, NoMemory>
    ensures { IfOk result (λ v. futures_in v.items ≡ filter may_give (arrays_of futures.items)) }
{
    let mut splits = VecDeque::with_capacity(alloc, futures.len())?;
    for future in futures {
        push_split(&mut splits, future.into_array())?;
    }
    Ok(splits)
}

/// Adds the split of a future, where that may give a row.
fn push_split(splits: &mut VecDeque<FileSplit>, future: ArrayFuture) -> Result<(), NoMemory>
    ensures { IfOk result (λ _. futures_in splits.new.items ≡
        futures_in splits.old.items ++ filter may_give (future ∷ [])) }
{
    if future.is_empty() {
        return Ok(());
    }
    splits.push_back(FileSplit::new(future))?;
    Ok(())
}
