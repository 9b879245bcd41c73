//! What a request asks of each file, and what is wrong with it.
ghost use Rattle.std.specs.Prelude.{◌≡◌, ◌≢◌, Err, Some, IfOk, IfErr, option_map};
ghost use Rattle.scan_expr.specs.Bound.{bound_of};
ghost use Rattle.scan_expr.specs.Typing.{typed, filter_fault};
ghost use Rattle.scan_core.specs.Given.{Rises};
ghost use Rattle.scan_multi.specs.Checked.{IsChecked, IsRequestFault};
ghost use Rattle.scan_multi.specs.Request.{is_all, has_no_partitions, is_forward, first_plain_fault};

use crate::scan::fault::{RangeFault, ScanFault};
use scan_expr::{BindFault, BoundExpression, Expression, ScanRequest};
use scan_file::FileOpener;
use scan_values::{DType, Selection};
use std::alloc::Global;
use std::ops::Range;

/// What a request asks of each file, or the first fault of the request. Those of workers, partitions and range come
/// first, and need no memory.
pub(crate) fn check_request(
    alloc: Global,
    dtype: &DType,
    workers: usize,
    request: &ScanRequest,
) -> Result<FileOpener, ScanFault>
    ensures ok { IfOk result (λ a. IsChecked workers dtype.now request.now a) }
    ensures err { IfErr result (λ e. IsRequestFault workers dtype.now request.now e) }
{
    if let Some(fault) = plain_fault(workers, request) {
        return Err(fault);
    }
    let projection = request.projection.bind(alloc, dtype)?;
    let filter = bind_filter(alloc, dtype, &request.filter)?;
    rises(&request.selection);
    let selection = request.selection.try_clone(alloc)?;
    let range = copy_of(&request.row_range);
    Ok(FileOpener::new(projection, filter, range, selection))
}

/// What is wrong with the workers, the partitions or the range, the first of these.
fn plain_fault(workers: usize, request: &ScanRequest) -> Option<ScanFault>
    ensures { result ≡ first_plain_fault workers request.now }
{
    if workers == 0 {
        return Some(ScanFault::Concurrency);
    }
    if !has_no_partitions(request) {
        return Some(ScanFault::Partitions);
    }
    if !is_forward(&request.row_range) {
        return Some(ScanFault::RowRange(RangeFault::Reversed));
    }
    None
}

fn has_no_partitions(request: &ScanRequest) -> bool
    ensures { result ≡ has_no_partitions request.now }
{
    request.partition_range.is_none() && is_all(&request.partition_selection)
}

fn is_all(selection: &Selection) -> bool
    ensures { result ≡ is_all selection.now }
{
    matches!(selection, Selection::All)
}

/// Whether the start is at most the end.
fn is_forward(range: &Option<Range<u64>>) -> bool
    ensures { result ≡ is_forward range.now }
{
    match range {
        None => true,
        Some(range) => range.start <= range.end,
    }
}

/// The row numbers of a selection rise.
fn rises(selection: &Selection)
    ensures { Rises selection.now }
{
    if let Selection::IncludeByIndex(rows) = selection {
        let _rows = rows.as_slice();
    }
}

fn copy_of(range: &Option<Range<u64>>) -> Option<Range<u64>>
    ensures { result ≡ range.now }
{
    match range {
        Some(range) => Some(range.start..range.end),
        None => None,
    }
}

/// The filter of a request over a dtype, where there is one.
fn bind_filter(
    alloc: Global,
    dtype: &DType,
    filter: &Option<Expression>,
) -> Result<Option<BoundExpression>, BindFault>
    ensures { result ≢ Err BindFault.NoMemory →
        result ≡ typed (filter_fault dtype.now filter.now) (option_map (bound_of dtype.now) filter.now) }
{
    match filter {
        Some(filter) => Ok(Some(bind_test(alloc, dtype, filter)?)),
        None => Ok(None),
    }
}

/// A filter over a dtype, which is Bool.
fn bind_test(
    alloc: Global,
    dtype: &DType,
    filter: &Expression,
) -> Result<BoundExpression, BindFault>
    ensures { result ≢ Err BindFault.NoMemory →
        result ≡ typed (filter_fault dtype.now (Some filter.now)) (bound_of dtype.now filter.now) }
{
    let filter = filter.bind(alloc, dtype)?;
    if !filter.dtype().is_bool() {
        return Err(BindFault::NotBool);
    }
    Ok(filter)
}
