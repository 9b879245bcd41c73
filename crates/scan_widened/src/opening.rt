//! The opening of a file under a dtype.
ghost use Rattle.std.specs.Prelude.{◌≡◌, ◌≢◌, ◌≤◌, ◌<◌, ◌+◌, ◌^◌, IfOk, IfErr, IfSome, Some, None, true, false};
ghost use Rattle.scan_layout.specs.Layout.{dtype_of, rows_of};
ghost use Rattle.scan_layout.specs.Form.{HasForm};
ghost use Rattle.scan_layout.specs.Check.{first_fault};
ghost use Rattle.scan_opener.specs.Opener.{layout_of, skip, OpenerFailed};
ghost use Rattle.scan_opener.specs.OpenerMemory.{given_of};
ghost use Rattle.scan_widen.specs.FitsUnder.{fits_under};
ghost use Rattle.scan_widen.specs.Countable.{is_countable};
ghost use Rattle.scan_widened.specs.Faults.{is_within, has_room, file_fault, given_fault, IsUnder, IsGivenUnder, Gave, PolledToEnd, IsFileFault};
ghost use Rattle.scan_widened.specs.declared.fault.FileFault.TheVariants as fault;

use crate::fault::FileFault;
use scan_layout::{LayoutNode, LayoutRef};
use scan_opener::{LayoutReaderFactory, Opening};
use scan_values::DType;
use scan_widen::{UnionLayout, fits_under, is_countable, union_layout};
use std::alloc::Global;
use std::ops::Range;

// Whether a range ends within so many rows.
fn is_within(range: &Option<Range<u64>>, rows: u64) -> bool
    ensures { result ≡ is_within range.now rows }
{
    match range {
        Some(range) => range.end <= rows,
        None => true,
    }
}

// Whether the rows of a file are counted, with so many before them.
fn has_room(before: u64, layout: &LayoutNode) -> bool
    ensures { result ≡ has_room before layout.now }
{
    let rows = layout.row_count();
    if rows == u64::MAX {
        return false;
    }
    if !is_countable(layout) {
        return false;
    }
    before.checked_add(rows).is_some()
}

/// The layout of a file under a dtype, where so many rows are before its own: its segments are numbered from 0 in the order
/// of its leaves, and it is told what stands behind each.
///
/// # Errors
/// Exactly the first of: `DTypeMismatch` where the file's dtype does not fit under the other, `Layout` where it is not
/// well-formed under its own, `RowRangePast` where the range ends past its rows, `TooManyRows` where the rows reach 2^64 in
/// all, or those of the file or of a struct in it are the greatest u64, and `TooManySegments` where it has more than
/// 4294967296 under the dtype. `NoMemory` may come in place of any answer.
pub fn layout_under(
    alloc: Global,
    dtype: &DType,
    range: &Option<Range<u64>>,
    before: u64,
    layout: &LayoutNode,
) -> Result<UnionLayout, FileFault>
    ensures ok { IfOk result (IsUnder dtype.now range.now before layout.now) }
    ensures err { IfErr result (λ e. e ≢ fault.NoMemory → file_fault dtype.now range.now before layout.now ≡ Some e) }
{
    if !fits_under(alloc, layout.dtype(), dtype)? {
        return Err(FileFault::DTypeMismatch);
    }
    if let Err(fault) = layout.check(layout.dtype()) {
        return Err(FileFault::Layout(fault));
    }
    if !is_within(range, layout.row_count()) {
        return Err(FileFault::RowRangePast);
    }
    if !has_room(before, layout) {
        return Err(FileFault::TooManyRows);
    }
    match union_layout(alloc, dtype, layout)? {
        Some(union) => Ok(union),
        None => Err(FileFault::TooManySegments),
    }
}

// Polls an opener to its end.
fn open<O: LayoutReaderFactory>(
    alloc: Global,
    opener: &mut O,
) -> Result<Option<LayoutRef>, FileFault>
    ensures moves { PolledToEnd (O.opener opener.old) (O.opener opener.new) }
    ensures given { IfOk result (λ o. IfSome (O.opener opener.old).gives (λ g. g ≡ given_of o)) }
    ensures failed { IfErr result (λ e. e ≢ fault.NoMemory → (e ≡ fault.Opener) × OpenerFailed (O.opener opener.old) (O.opener opener.new)) }
{
    'wait: loop {
        match opener.poll_open(alloc) {
            Opening::Pending => {}
            Opening::Opened(layout) => return Ok(Some(layout)),
            Opening::Skipped => return Ok(None),
            Opening::Failed => return Err(FileFault::Opener),
            Opening::NoMemory => return Err(FileFault::NoMemory),
        }
    }
}

/// Opens a file under a dtype: its opener is polled to its end, and what it gives is laid out under the dtype, where so many
/// rows are before its own. `None` of a file that is skipped.
///
/// # Errors
/// `Opener`, only where its count of faults rose, and of what it gives those of `layout_under`.
pub fn open_under<O: LayoutReaderFactory>(
    alloc: Global,
    dtype: &DType,
    range: &Option<Range<u64>>,
    before: u64,
    opener: &mut O,
) -> Result<Option<UnionLayout>, FileFault>
    ensures moves { PolledToEnd (O.opener opener.old) (O.opener opener.new) }
    ensures ok { IfOk result (λ o. Gave (O.opener opener.old) (λ g. IsGivenUnder dtype.now range.now before g o)) }
    ensures err { IfErr result (IsFileFault dtype.now range.now before (O.opener opener.old) (O.opener opener.new)) }
{
    match open(alloc, opener)? {
        Some(layout) => Ok(Some(layout_under(alloc, dtype, range, before, &layout)?)),
        None => Ok(None),
    }
}
