//! The boundaries of splits over two columns of 30 rows, whose segments end at unequal rows.
ghost use Rattle.std.specs.Prelude.{◌≡◌, true};
ghost use Rattle.scan_readers.specs.FieldNames.{name_fields};

use crate::case::{ends, sides, split_by};
use crate::rows::{projection, uneven};
use crate::told::numbers_told;
use scan_core::{SetupFault, referenced_field_masks};
use scan_readers::LayoutReader;
use scan_values::{DType, FieldMask};
use std::alloc::Global;
use std::process::Abort;

/// What the expression of a case uses of a dtype.
fn masks(rt: &impl Abort, alloc: Global, dtype: &DType, case: &str) -> Vec<FieldMask>
    ensures { name_fields dtype.now result.items ≡ true }
{
    let bound = projection(rt, alloc, case)
        .bind(alloc, dtype)
        .expect(rt, "bind");
    referenced_field_masks(alloc, &bound, None).expect(rt, "referenced_field_masks")
}

/// Where the range of a case is split.
fn splits<R: LayoutReader>(
    rt: &impl Abort,
    alloc: Global,
    reader: &mut R,
    case: &str,
) -> Result<Vec<u64>, SetupFault> {
    let Some((start, end)) = ends(rt, case, "rows:") else {
        panic!(rt; "no range");
    };
    if start > end {
        panic!(rt; "a range in order");
    }
    if end > reader.row_count() {
        panic!(rt; "a range of the rows");
    }
    let by = split_by(rt, case);
    let masks = masks(rt, alloc, reader.dtype(), case);
    by.splits(alloc, reader, &(start..end), &masks)
}

/// Whether `CASE -> SPLITS` holds.
fn holds<R: LayoutReader>(rt: &impl Abort, alloc: Global, reader: &mut R, line: &str) -> bool {
    let (case, wanted) = sides(rt, line, " ->");
    let told = match splits(rt, alloc, reader, case) {
        Ok(found) => numbers_told(rt, alloc, found.as_slice()),
        Err(fault) => format!(in alloc; " {fault}").expect(rt, "format"),
    };
    told.as_str() == wanted
}

// By the ends of segments, or every so many rows from the range's start; splits of no rows are refused.
#[test]
fn a_reader_is_split_by_segments_or_by_rows(rt: HostRuntime) {
    let alloc = rt.alloc();
    let mut reader = uneven(&rt, alloc);
    for line in "rows:0..30 -> 0 5 12 30
rows:0..30 of:a -> 0 12 30
rows:5..12 -> 5 12
rows:6..29 of:b -> 6 12 29
rows:7..7 -> 7
rows:0..30 by:10 -> 0 10 20 30
rows:5..29 by:10 -> 5 15 25 29
rows:12..20 by:10 -> 12 20
rows:30..30 by:10 -> 30
rows:3..30 by:18446744073709551615 -> 3 30
rows:0..30 by:0 -> splits of no rows"
        .lines()
    {
        assert!(rt; holds(&rt, alloc, &mut reader, line), "at {line}");
    }
}
