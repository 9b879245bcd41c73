//! An engine that sums a column of numbers.
ghost use Rattle.std.specs.Prelude.{◌≡◌, ◌+ℤ◌, All, IfOk, IfSome, map, true};
ghost use Rattle.vortex_scan.specs.Values.Val.{int_val};
ghost use Rattle.vortex_scan.specs.Words.{IsIdle, IsLawful};
ghost use Rattle.uses.specs.Sums.{sum_of, values_in, chunk_values};
ghost use Rattle.uses.specs.Uses.{wanted};

use std::alloc::Global;
use std::thread::Threads;
use vortex_scan::dtype::DType;
use vortex_scan::scan::ScanRequest;
use vortex_scan::scan::multi::{
    ColumnChunk, LayoutReaderFactory, NoGate, ScanFault, ScanFile, scan_columns_of,
};
use vortex_scan::segments::{KeyedSegmentCache, SegmentSource};

/// A number, and the sum of others; none where an i128 does not hold it.
fn added(first: i128, numbers: &[i64]) -> Option<i128>
    ensures { IfSome result (λ z. z ≡ first +ℤ sum_of (map int_val numbers.now)) }
{
    let mut sum = first;
    for number in numbers {
        sum = sum.checked_add(i128::from(*number))?;
    }
    Some(sum)
}

/// The sum of the columns of chunks; none where one of them holds something else than numbers.
fn sum_in(chunks: &[ColumnChunk]) -> Option<i128>
    ensures { IfSome result (λ z. z ≡ sum_of (chunk_values chunks.now)) }
{
    let mut sum: i128 = 0;
    for chunk in chunks {
        sum = added(sum, chunk.values.numbers()?)?;
    }
    Some(sum)
}

/// The sum of a projection over the rows that an ordered request finds in files, read off their columns: over lawful
/// objects that of the row-by-row answer, cut at the limit. None where a value is null or no number of 64 bits, or an
/// i128 does not hold the sum.
#[tactic(none)]
pub fn sum_rows<
    R: Threads + Sync,
    O: LayoutReaderFactory + Drop,
    S: SegmentSource + Drop,
    C: KeyedSegmentCache,
>(
    rt: &R,
    alloc: Global,
    dtype: &DType,
    files: &mut Vec<ScanFile<O, S>>,
    cache: &mut C,
    request: &ScanRequest,
) -> Result<Option<i128>, ScanFault>
    requires { All (IsIdle O.opener S.state) files.old.items }
    ensures sum { IfOk result (λ o. IfSome o (λ z. IsLawful O.opener S.state files.old.items (C.cache cache.old) →
        request.now.ordered ≡ true →
        z ≡ sum_of (values_in (wanted O.opener S.state dtype.now request.now files.old.items)))) }
    ensures idle { All (IsIdle O.opener S.state) files.new.items }
    ensures lawful { IsLawful O.opener S.state files.old.items (C.cache cache.old) →
        IsLawful O.opener S.state files.new.items (C.cache cache.new) }
{
    let output = scan_columns_of(rt, alloc, dtype, files, cache, request, 1, &NoGate::new())?;
    Ok(sum_in(output.chunks.as_slice()))
}
