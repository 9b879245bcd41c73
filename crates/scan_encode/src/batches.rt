//! The rows of several arrays, as one layout.
ghost use Rattle.std.specs.Prelude.{◌≡◌, ◌++◌, [], IfOk, IfErr, OnOk, map, true};
ghost use Rattle.scan_values.specs.Val.{vals_of};
ghost use Rattle.scan_values.specs.Values.{val_of};
ghost use Rattle.scan_encode.specs.Batches.{AreArraysOf, rows_of_all};
ghost use Rattle.scan_encode.specs.Encoded.{Has, Holds, stored};
ghost use Rattle.scan_encode.specs.Faults.{IsUnwritten};
ghost use Rattle.scan_encode.specs.Parts.{AllOf, given};
ghost use Rattle.scan_encode.specs.Rows.{all_texts_fit};
ghost use Rattle.scan_encode.specs.RowsIn.{rows_in};

use crate::fault::RowsFault;
use crate::leaf::WriteOptions;
use crate::segments::Segments;
use crate::texts::all_texts_fit;
use crate::tree::push_tree;
use scan_layout::LayoutRef;
use scan_values::{Array, DType, NoMemory, Value};
use std::alloc::Global;

/// Values, lent behind the rows that there are.
fn push_lent<'a>(values: &'a [Value], rows: &mut Vec<Option<&'a Value>>) -> Result<(), NoMemory>
    ensures { IfOk result (λ _. rows_in rows.new.items ≡ rows_in rows.old.items ++ given (map val_of values.now)) }
{
    for value in values {
        rows.push(Some(value))?;
    }
    Ok(())
}

/// The rows of arrays of a dtype, lent, one array after the other.
fn lent_all<'a>(
    alloc: Global,
    dtype: &DType,
    batches: &'a [Array],
) -> Result<Vec<Option<&'a Value>>, RowsFault>
    requires { AreArraysOf dtype.now batches.now }
    ensures rows { IfOk result (λ v. rows_in v.items ≡ given (rows_of_all batches.now)) }
    ensures fit { IfOk result (λ v. AllOf dtype.now (rows_in v.items)) }
    ensures short { OnOk result (all_texts_fit (vals_of (rows_of_all batches.now)) ≡ true) }
    ensures refused { IfErr result (IsUnwritten (rows_of_all batches.now) []) }
{
    let mut rows = Vec::new(alloc);
    for batch in batches {
        let values = batch.as_slice();
        if !all_texts_fit(values) {
            return Err(RowsFault::TooLong);
        }
        push_lent(values, &mut rows)?;
    }
    Ok(rows)
}

/// The layout of the rows of arrays of a dtype, one array after the other, whose segments are behind those that there
/// are. A segment may have rows of several arrays. The rows are lent, not copied.
///
/// # Errors
/// `TooLong` exactly where a text has more than 4294967295 bytes: no segment is made then. `Segments` where there are
/// 4294967296, and `NoMemory`.
pub fn encode_batches(
    alloc: Global,
    dtype: &DType,
    batches: &[Array],
    options: &WriteOptions,
    segments: &mut Segments,
) -> Result<LayoutRef, RowsFault>
    requires { AreArraysOf dtype.now batches.now }
    ensures holds { IfOk result (λ l. Holds dtype.now (rows_of_all batches.now) segments.new l.value) }
    ensures short { OnOk result (all_texts_fit (vals_of (rows_of_all batches.now)) ≡ true) }
    ensures has { Has (stored segments.new) segments.old }
    ensures refused { IfErr result (IsUnwritten (rows_of_all batches.now) segments.new) }
{
    match lent_all(alloc, dtype, batches) {
        Ok(rows) => push_tree(alloc, options, dtype, rows.as_slice(), segments),
        Err(fault) => Err(fault),
    }
}
