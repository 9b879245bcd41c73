//! Scans of which nothing is read but the number of their rows. After the Rust's `scan::layout`.
ghost use Rattle.std.specs.Prelude.{◌≡◌, IfOk, map, true};
ghost use Rattle.scan_values.specs.Arrays.{of_parts};
ghost use Rattle.scan_values.specs.Values.{val_of};
ghost use Rattle.scan_sources.specs.Empties.{GivesRows, bare_rows, empty_data};
ghost use Rattle.scan_sources.specs.Requests.{is_bare_struct};
ghost use Rattle.scan_sources.specs.declared.precision.Precision.TheVariants as precision;

use crate::precision::Precision;
use scan_values::{Array, DType, NoMemory, Value, Values};
use std::alloc::Global;
use std::marker::Model;

/// The most rows of an array.
const MOST_ROWS: u64 = 65_536;

/// A scan of structs without fields, which is its own one part: of each row such a struct is given, and nothing is read.
/// Contracts see the dtype, the number of rows, and how many of them were given.
#[derive(Drop)]
pub struct Empty {
    dtype: DType,
    row_count: u64,
    given: u64,
}

impl Model for Empty {
    ghost use Rattle.scan_sources.specs.Empties.{EmptyData, IsEmpty, empty_code, empty_data};

    ghost Value = { EmptyData };

    ghost coded = { empty_code };

    ghost view = { λ a. empty_data a.dtype a.row_count a.given };

    ghost invariant = { λ a. IsEmpty a.dtype a.row_count a.given };
}

impl Empty {
    /// So many rows of a struct without fields that is not nullable.
    pub(crate) fn new(dtype: DType, row_count: u64) -> Empty
        requires { is_bare_struct dtype ≡ true }
        ensures { result ≡ empty_data dtype row_count 0 }
    {
        Empty {
            dtype,
            row_count,
            given: 0,
        }
    }

    /// The dtype of the projection, a struct without fields.
    pub fn dtype(&self) -> &DType
        ensures { result.now ≡ self.now.dtype }
    {
        &self.dtype
    }

    /// There is one part, the scan itself.
    pub fn partition_count(&self) -> Precision<usize>
        ensures { result ≡ precision.Exact 1 }
    {
        Precision::Exact(1)
    }

    /// The number of the one part.
    pub fn index(&self) -> u64
        ensures { result ≡ 0 }
    {
        0
    }

    /// The number of its rows: the selected ones, up to the limit.
    pub fn row_count(&self) -> Precision<u64>
        ensures { result ≡ precision.Exact self.now.rows }
    {
        Precision::Exact(self.row_count)
    }

    /// The number of bytes that are read of a file, which is none.
    pub fn byte_size(&self) -> Precision<u64>
        ensures { result ≡ precision.Exact 0 }
    {
        Precision::Exact(0)
    }

    /// The next of its rows, at least one and at most 65,536. None exactly where all were given. A call that finds no
    /// memory changes nothing.
    pub fn next_array(&mut self, alloc: Global) -> Result<Option<Array>, NoMemory>
        ensures { GivesRows self.old self.new result }
    {
        let left = self.row_count - self.given;
        if left == 0 {
            return Ok(None);
        }
        let rows = left.min(MOST_ROWS);
        let array = bare_rows(alloc, &self.dtype, rows as usize)?;
        self.given += rows;
        Ok(Some(array))
    }
}

/// So many rows of a struct without fields.
fn bare_rows(alloc: Global, dtype: &DType, rows: usize) -> Result<Array, NoMemory>
    requires { is_bare_struct dtype.now ≡ true }
    ensures { IfOk result (λ a. a ≡ of_parts dtype.now (bare_rows rows)) }
{
    let values = bare_values(alloc, rows)?;
    let dtype = dtype.try_clone(alloc)?;
    Ok(Array::of_fitting(dtype, values))
}

/// So many structs without fields.
fn bare_values(alloc: Global, rows: usize) -> Result<Vec<Value>, NoMemory>
    ensures { IfOk result (λ v. map val_of v.items ≡ bare_rows rows) }
{
    let mut values = Vec::with_capacity(alloc, rows)?;
    for _row in 0..rows {
        values.push(Value::Struct(Values::new(Vec::new(alloc))))?;
    }
    Ok(values)
}
