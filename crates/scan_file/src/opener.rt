//! What opens the files of a scan. After the Rust's `scan::multi` and `scan::layout`, whose calls are async functions.
ghost use Rattle.std.specs.Prelude.{◌≡◌, IfOk, None};
ghost use Rattle.scan_core.specs.Given.{Rises};
ghost use Rattle.scan_core.specs.Settings.{builder_by};
ghost use Rattle.scan_file.specs.FileAsks.{IsAsk, asked_dtype, file_ask};
ghost use Rattle.scan_file.specs.FileScans.{IsAskedOf, IsNewBuilder};
ghost use Rattle.scan_file.specs.Opened.{IsOpened};
ghost use Rattle.scan_file.specs.Openings.{ends_past, layout_fault, past_fault};

use crate::fault::FileFault;
use crate::planning::file_splits;
use crate::split::FileSplit;
use scan_core::ScanBuilder;
use scan_drive::{Opening, SplitOpener};
use scan_expr::BoundExpression;
use scan_layout::{LayoutNode, LayoutRef};
use scan_opener::LayoutReaderFactory;
use scan_readers::LayoutReader;
use scan_values::{NoMemory, Selection};
use std::alloc::Global;
use std::collections::VecDeque;
use std::marker::Model;
use std::ops::Range;

/// What a scan asks of each of its files, by which they are opened. Contracts see the projection, the filter, the range
/// and the selection.
#[derive(Drop)]
pub struct FileOpener {
    projection: BoundExpression,
    filter: Option<BoundExpression>,
    row_range: Option<Range<u64>>,
    selection: Selection,
}

impl Model for FileOpener {
    ghost use Rattle.scan_file.specs.FileAsks.{FileAsk, IsAsk, ask_code, file_ask};

    ghost Value = { FileAsk };

    ghost coded = { ask_code };

    ghost view = { λ a. file_ask a.projection a.filter a.row_range a.selection };

    ghost invariant = { λ a. IsAsk (file_ask a.projection a.filter a.row_range a.selection) };
}

impl FileOpener {
    /// A scan of the rows of a range and a selection, of each file. The filter is bound over the projection's dtype and
    /// Bool, and the range is not reversed.
    pub fn new(
        projection: BoundExpression,
        filter: Option<BoundExpression>,
        row_range: Option<Range<u64>>,
        selection: Selection,
    ) -> FileOpener
        requires { IsAsk (file_ask projection filter row_range selection) }
        ensures { result ≡ file_ask projection filter row_range selection }
    {
        FileOpener {
            projection,
            filter,
            row_range,
            selection,
        }
    }

    /// A builder of the scan of a file, as it is asked for.
    pub(crate) fn asked_of<'r, R: LayoutReader + Drop, M: Drop>(
        &self,
        alloc: Global,
        builder: ScanBuilder<'r, R, M>,
    ) -> Result<ScanBuilder<'r, R, M>, NoMemory>
        requires dtype { (R.state builder.reader.now).dtype ≡ asked_dtype self.now }
        requires new { IsNewBuilder (builder_by builder.reader.now builder.settings) }
        requires all { builder.settings.row_range ≡ None }
        ensures { IfOk result (λ b. IsAskedOf self.now builder.entry.reader.now
            (builder_by b.reader.now b.settings)) }
    {
        let builder = builder
            .with_projection(self.projection.try_clone(alloc)?)
            .with_some_filter(copy_of(alloc, &self.filter)?)
            .with_selection(self.selection.try_clone(alloc)?);
        match &self.row_range {
            Some(range) => Ok(builder.with_row_range(range.start..range.end)),
            None => Ok(builder),
        }
    }

    /// Why a file of a layout is not read.
    fn fault_of(&self, layout: &LayoutNode) -> Option<FileFault>
        ensures { result ≡ layout_fault self.now layout.now }
    {
        let dtype = self.projection.scope();
        if *layout.dtype() != *dtype {
            return Some(FileFault::DTypeMismatch);
        }
        match layout.check(dtype) {
            Ok(()) => self.past_fault(layout.row_count()),
            Err(fault) => Some(FileFault::Layout(fault)),
        }
    }

    /// Whether the range ends past so many rows, as a fault.
    fn past_fault(&self, rows: u64) -> Option<FileFault>
        ensures { result ≡ past_fault (ends_past self.now.range rows) }
    {
        match &self.row_range {
            Some(range) if range.end > rows => Some(FileFault::RowRangePast),
            _ => None,
        }
    }

    /// The splits of a file of a layout, or why it is not read.
    fn opened(&self, alloc: Global, layout: &LayoutRef) -> Opening<FileSplit, FileFault>
        ensures { IsOpened self.now layout.now.value result }
    {
        rises(&self.selection);
        match self.fault_of(layout) {
            Some(fault) => Opening::Refused(fault),
            None => match file_splits(alloc, layout, self) {
                Ok(splits) => Opening::Opened(splits, layout.row_count()),
                Err(_) => Opening::NoMemory,
            },
        }
    }
}

/// The row numbers of a selection rise.
fn rises(selection: &Selection)
    ensures { Rises selection.now }
{
    if let Selection::IncludeByIndex(rows) = selection {
        let _rows = rows.as_slice();
    }
}

/// A copy of a filter, where there is one.
fn copy_of(
    alloc: Global,
    filter: &Option<BoundExpression>,
) -> Result<Option<BoundExpression>, NoMemory>
    ensures { IfOk result (λ f. f ≡ filter.now) }
{
    match filter {
        Some(filter) => Ok(Some(filter.try_clone(alloc)?)),
        None => Ok(None),
    }
}

impl<O: LayoutReaderFactory> SplitOpener<O, FileSplit, FileFault> for FileOpener {
    ghost use Rattle.scan_opener.specs.Opener.{PolledOnce};
    ghost use Rattle.scan_file.specs.Openings.{Admits, Refuses, file_state};

    ghost state = { λ a o. file_state a (O.opener o) };

    ghost polls = { λ old new. PolledOnce (O.opener old) (O.opener new) };

    ghost refuses = { λ a old new f. Refuses a (O.opener old) (O.opener new) f };

    ghost admits = { λ a old new ws. Admits a (O.opener old) ws };

    fn poll_open(&self, alloc: Global, opener: &mut O) -> Opening<FileSplit, FileFault> {
        match opener.poll_open(alloc) {
            scan_opener::Opening::Pending => Opening::Pending,
            scan_opener::Opening::Opened(layout) => self.opened(alloc, &layout),
            scan_opener::Opening::Skipped => Opening::Opened(VecDeque::new(alloc), 0),
            scan_opener::Opening::Failed => Opening::Refused(FileFault::Opener),
            scan_opener::Opening::NoMemory => Opening::NoMemory,
        }
    }
}
