//! A service that looks up one row.
ghost use Rattle.std.specs.Prelude.{◌≡◌, [], ◌∷◌, All, IfOk, length};
ghost use Rattle.std.specs.Option.{option_map};
ghost use Rattle.vortex_scan.specs.Values.Values.{val_of};
ghost use Rattle.vortex_scan.specs.Values.declared.selection.Selection.TheVariants.{IncludeByIndex};
ghost use Rattle.vortex_scan.specs.Words.{IsIdle, IsLawful, told};
ghost use Rattle.uses.specs.Lookup.{IsLookedUp, first_value, row_request};

use std::alloc::Global;
use std::thread::Threads;
use vortex_scan::NoMemory;
use vortex_scan::arrays::Value;
use vortex_scan::dtype::DType;
use vortex_scan::expr::Expression;
use vortex_scan::scan::multi::{
    LayoutReaderFactory, NoGate, ScanChunk, ScanFault, ScanFile, scan_files,
};
use vortex_scan::scan::{ScanRequest, Selection, StrictSorted};
use vortex_scan::segments::{KeyedSegmentCache, SegmentSource};

/// The selection of one row.
fn only(alloc: Global, row: u64) -> Result<Selection, NoMemory>
    ensures { IfOk result (λ s. s ≡ IncludeByIndex (row ∷ [])) }
{
    let mut rows = Vec::new(alloc);
    rows.push(row)?;
    Ok(Selection::IncludeByIndex(StrictSorted::try_new(rows).unwrap()))
}

/// A request for one row, where the filter keeps it.
fn request_of(
    alloc: Global,
    projection: Expression,
    filter: Option<Expression>,
    row: u64,
) -> Result<ScanRequest, NoMemory>
    ensures { IfOk result (λ r. r ≡ row_request projection filter row) }
{
    let selection = only(alloc, row)?;
    let mut request = ScanRequest::new(projection);
    request.filter = filter;
    request.selection = selection;
    Ok(request)
}

/// The first value that chunks give.
fn first_value(chunks: Vec<ScanChunk>) -> Option<Value>
    ensures { option_map val_of result ≡ first_value chunks.items }
{
    let chunk = chunks.into_iter().next()?;
    chunk.values.into_vec().into_iter().next()
}

/// The value of a projection at one row of the one file. Over lawful objects it is that of the file's layout and store,
/// and no part of it is damaged; none comes exactly where the file is skipped or has no such row, or a conjunct of the
/// filter is false or null there.
#[tactic(none)]
pub fn value_at_row<
    R: Threads + Sync,
    O: LayoutReaderFactory + Drop,
    S: SegmentSource + Drop,
    C: KeyedSegmentCache,
>(
    rt: &R,
    alloc: Global,
    dtype: &DType,
    files: &mut Vec<ScanFile<O, S>>,
    cache: &mut C,
    projection: Expression,
    filter: Option<Expression>,
    row: u64,
) -> Result<Option<Value>, ScanFault>
    requires one { length files.old.items ≡ 1 }
    requires idle { All (IsIdle O.opener S.state) files.old.items }
    ensures value { IfOk result (λ v. IsLawful O.opener S.state files.old.items (C.cache cache.old) →
        All (IsLookedUp dtype.now projection filter row (option_map val_of v))
        (told O.opener S.state files.old.items)) }
    ensures idle { All (IsIdle O.opener S.state) files.new.items }
    ensures lawful { IsLawful O.opener S.state files.old.items (C.cache cache.old) →
        IsLawful O.opener S.state files.new.items (C.cache cache.new) }
{
    let request = request_of(alloc, projection, filter, row)?;
    let output = scan_files(rt, alloc, dtype, files, cache, &request, 1, &NoGate::new())?;
    Ok(first_value(output.chunks))
}
