// Requests of a scan, after the crate's `vortex_scan::ScanRequest`.
ghost use Rattle.std.specs.Prelude.{◌≡◌, None, true};

use crate::expression::Expression;
use scan_values::{NoMemory, Selection};
use std::alloc::Global;
use std::ops::Range;

/// What is read of files: the projection of the rows in a range and a selection that meet a filter, up to a limit.
#[derive(Drop)]
pub struct ScanRequest {
    pub projection: Expression,
    pub filter: Option<Expression>,
    pub row_range: Option<Range<u64>>,
    pub selection: Selection,
    pub partition_selection: Selection,
    pub partition_range: Option<Range<u64>>,
    pub ordered: bool,
    pub limit: Option<u64>,
}

impl ScanRequest {
    ghost use Rattle.std.specs.Prelude.{◌≡◌, IfOk};

    /// All rows, in their order.
    pub fn new(projection: Expression) -> ScanRequest
        ensures projection { result.projection ≡ projection }
        ensures filter { result.filter ≡ None }
        ensures row_range { result.row_range ≡ None }
        ensures selection { result.selection ≡ Selection.All }
        ensures partition_selection { result.partition_selection ≡ Selection.All }
        ensures partition_range { result.partition_range ≡ None }
        ensures ordered { result.ordered ≡ true }
        ensures limit { result.limit ≡ None }
    {
        ScanRequest {
            projection,
            filter: None,
            row_range: None,
            selection: Selection::All,
            partition_selection: Selection::All,
            partition_range: None,
            ordered: true,
            limit: None,
        }
    }

    pub fn try_clone(&self, alloc: Global) -> Result<ScanRequest, NoMemory>
        ensures { IfOk result (λ r. r ≡ self.now) }
    {
        let filter = match &self.filter {
            Some(filter) => Some(filter.try_clone(alloc)?),
            None => None,
        };
        Ok(ScanRequest {
            projection: self.projection.try_clone(alloc)?,
            filter,
            row_range: copy_of(&self.row_range),
            selection: self.selection.try_clone(alloc)?,
            partition_selection: self.partition_selection.try_clone(alloc)?,
            partition_range: copy_of(&self.partition_range),
            ordered: self.ordered,
            limit: self.limit,
        })
    }
}

fn copy_of(range: &Option<Range<u64>>) -> Option<Range<u64>>
    ensures { result ≡ range.now }
{
    match range {
        Some(r) => Some(r.start..r.end),
        None => None,
    }
}
