//! Where the rows of a reader are split. After the Rust's `scan::split_by`.
ghost use Rattle.std.specs.Prelude.{◌≡◌, ◌≢◌, ◌≤◌, ◌<◌, ◌↔◌, Err, IfOk, IfErr, true};
ghost use Rattle.scan_values.specs.StrictSorted.{is_rising};
ghost use Rattle.scan_splits.specs.RowLists.{shifted, Adds};
ghost use Rattle.scan_readers.specs.FieldNames.{name_fields};
ghost use Rattle.scan_readers.specs.Kept.{Stay};
ghost use Rattle.scan_core.specs.Boundaries.{boundaries, cut_rows, has_ends, is_nth};

use scan_readers::LayoutReader;
use scan_splits::{RowSplits, SplitFault, SplitRange};
use scan_streams::SetupFault;
use scan_values::{FieldMask, NoMemory};
use std::alloc::Global;
use std::ops::Range;

/// By what the rows of a reader are split.
#[derive(Clone, Copy, Debug, PartialEq, Eq, Default)]
pub enum SplitBy {
    /// By the reader's own splits.
    #[default]
    Layout,
    /// By a number of rows.
    RowCount(u64),
}

impl SplitBy {
    /// The rows at which a range of a reader's rows is split: its start, those strictly inside it, and its end, each
    /// once, in rising order. These are the splits that the reader registers by masks, or every so many rows from the
    /// start on. A range without rows gives the one number. The masks match all or name fields of the reader's dtype.
    ///
    /// # Errors
    /// `SplitSize` exactly for a row count of 0. Nothing else but `NoMemory`.
    pub fn splits<R: LayoutReader>(
        &self,
        alloc: Global,
        reader: &mut R,
        range: &Range<u64>,
        masks: &[FieldMask],
    ) -> Result<Vec<u64>, SetupFault>
        requires order { range.now.start ≤ range.now.end }
        requires rows { range.now.end ≤ (R.state reader.old).rows }
        requires named { name_fields (R.state reader.old).dtype masks.now ≡ true }
        ensures splits { IfOk result (λ v. v.items ≡ boundaries self.now (R.state reader.old) masks.now range.now) }
        ensures rising { IfOk result (λ v. is_rising v.items ≡ true) }
        ensures ends { IfOk result (λ v. has_ends range.now.start range.now.end v.items ≡ true) }
        ensures size { (result ≡ Err SetupFault.SplitSize) ↔ (self.now ≡ SplitBy.RowCount 0) }
        ensures fault { IfErr result (λ f. f ≢ SetupFault.NoMemory → f ≡ SetupFault.SplitSize) }
        ensures same { R.state reader.new ≡ R.state reader.old }
        ensures stay { Stay (R.kept reader.old) (R.kept reader.new) }
    {
        match self {
            SplitBy::Layout => Ok(own_splits(alloc, reader, range, masks)?),
            SplitBy::RowCount(0) => Err(SetupFault::SplitSize),
            SplitBy::RowCount(n) => Ok(every_rows(alloc, *n, range)?),
        }
    }
}

/// The splits of a range that a reader registers by masks, with the range's start and end.
fn own_splits<R: LayoutReader>(
    alloc: Global,
    reader: &mut R,
    range: &Range<u64>,
    masks: &[FieldMask],
) -> Result<Vec<u64>, NoMemory>
    requires order { range.now.start ≤ range.now.end }
    requires rows { range.now.end ≤ (R.state reader.old).rows }
    requires named { name_fields (R.state reader.old).dtype masks.now ≡ true }
    ensures splits { IfOk result (λ v. v.items ≡
        boundaries SplitBy.Layout (R.state reader.old) masks.now range.now) }
    ensures same { R.state reader.new ≡ R.state reader.old }
    ensures stay { Stay (R.kept reader.old) (R.kept reader.new) }
{
    let rows = SplitRange::root(range.start..range.end).unwrap();
    let mut splits = RowSplits::new_capacity(alloc, 2)?;
    splits.push(range.start)?;
    register(alloc, reader, &rows, masks, &mut splits)?;
    splits.push(range.end)?;
    let mut splits = splits.into_sorted_deduped();
    splits.retain(|row| range.start <= *row && *row <= range.end);
    Ok(splits)
}

/// Registers a reader's splits, of a range that it has and by masks that name its fields.
fn register<R: LayoutReader>(
    alloc: Global,
    reader: &mut R,
    range: &SplitRange,
    masks: &[FieldMask],
    splits: &mut RowSplits,
) -> Result<(), NoMemory>
    requires rows { range.now.end ≤ (R.state reader.old).rows }
    requires named { name_fields (R.state reader.old).dtype masks.now ≡ true }
    ensures same { R.state reader.new ≡ R.state reader.old }
    ensures stay { Stay (R.kept reader.old) (R.kept reader.new) }
    ensures pushed { IfOk result (λ _. Adds (shifted range.now.offset
        ((R.state reader.old).edges masks.now range.now.start range.now.end)) splits.old splits.new) }
{
    match reader.register_splits(alloc, masks, range, splits) {
        Ok(()) => Ok(()),
        Err(SplitFault::NoMemory) => Err(NoMemory),
        Err(_) => unreachable!(),
    }
}

/// The start of a range, every so many rows from there on, and its end.
fn every_rows(alloc: Global, n: u64, range: &Range<u64>) -> Result<Vec<u64>, NoMemory>
    requires size { 0 < n }
    requires order { range.now.start ≤ range.now.end }
    ensures { IfOk result (λ v. v.items ≡ cut_rows (is_nth n range.now.start) range.now) }
{
    let mut row = range.start;
    let mut splits = Vec::new(alloc);
    splits.push(row)?;
    while row < range.end {
        row += n.min(range.end - row);
        splits.push(row)?;
    }
    Ok(splits)
}
