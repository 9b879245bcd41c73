// Columns.
ghost use Rattle.std.specs.Prelude.{◌≡◌, ◌<◌, ◌≤◌, ◌==◌, ◌++◌, IfOk, IfSome, Some, map, length, replicate, true, slice_get, slice_range};
ghost use Rattle.std.specs.List.{items_where_true};
ghost use Rattle.scan_values.specs.Arrays.{of_parts};
ghost use Rattle.scan_values.specs.Values.{val_of};
ghost use Rattle.scan_values.specs.Val.{vals_of, marked, marked_all, int_val};
ghost use Rattle.scan_values.specs.Fits.{fits, fits_all, is_bool_type};
ghost use Rattle.scan_values.specs.Marked.{is_true};
ghost use Rattle.scan_values.specs.Masks.{null_where_false};
ghost use Rattle.scan_values.specs.DataType.{with_nullability};
ghost use Rattle.scan_values.specs.declared.ptype.Nullability.{Nullability};
ghost use Rattle.scan_expr.specs.Eval.{is_nothing};
ghost use Rattle.scan_expr.specs.Lending.{lent_val};
ghost use Rattle.scan_columns.specs.Cells.{vals_in};

use crate::cells::Cells;
use crate::constant::Constant;
use crate::ints::Ints;
use scan_expr::Lent;
use scan_values::{Array, DType, Mask, NoMemory, Nullability, Value};
use std::alloc::Global;
use std::marker::Model;
use std::ops::Range;
use std::sync::Arc;

/// So many values of one dtype, kept by kind: integers as numbers, truth values as bits, texts of a leaf in one buffer,
/// one value that stands everywhere once, and anything else as values. Columns share their dtype.
/// Contracts see of it what they see of an `Array`. After the crate's `vortex_array::ArrayRef`.
#[derive(Drop)]
pub struct Column {
    pub(crate) dtype: Arc<DType>,
    pub(crate) cells: Cells,
}

impl Model for Column {
    ghost use Rattle.std.specs.Prelude.{◌≡◌, true};
    ghost use Rattle.scan_values.specs.Arrays.{ArrayData, array_code};
    ghost use Rattle.scan_values.specs.Val.{vals_of, marked_all};
    ghost use Rattle.scan_values.specs.Fits.{fits_all};

    ghost Value = { ArrayData };

    ghost coded = { array_code };

    ghost use Rattle.scan_columns.specs.Cells.{vals_in};

    ghost view = { λ a. record { dtype = a.dtype.value; items = vals_in a.cells } };

    ghost invariant = { λ a. fits_all (marked_all (vals_of (vals_in a.cells))) a.dtype.value ≡ true };
}

impl Column {
    /// The cells under the dtype, where they are known to fit it.
    pub(crate) fn of_fitting(dtype: Arc<DType>, cells: Cells) -> Column
        requires { fits_all (marked_all (vals_of (vals_in cells))) dtype.value ≡ true }
        ensures { result ≡ of_parts dtype.value (vals_in cells) }
    {
        Column { dtype, cells }
    }

    /// An array's values.
    pub fn from_array(alloc: Global, from: Array) -> Result<Column, NoMemory>
        ensures { IfOk result (λ c. c ≡ from) }
    {
        let dtype = Arc::new(alloc, from.dtype().try_clone(alloc)?)?;
        let items = from.into_vec();
        let cells = Cells::of_values(alloc, &dtype, items)?;
        Ok(Column::of_fitting(dtype, cells))
    }

    /// One value of the dtype, `len` times.
    #[tactic(auto, using(crate::proofs::FitLemmas::fit_constant))]
    pub fn constant(dtype: Arc<DType>, value: Value, len: usize) -> Column
        requires { fits (marked (val_of value)) dtype.value ≡ true }
        ensures { result ≡ of_parts dtype.value (replicate len (val_of value)) }
    {
        Column::of_fitting(dtype, Cells::Constant(Constant::new(value, len)))
    }

    /// These numbers, which are of the dtype.
    pub fn of_numbers(
        alloc: Global,
        dtype: Arc<DType>,
        numbers: Vec<i64>,
    ) -> Result<Column, NoMemory>
        requires { fits_all (marked_all (vals_of (map int_val numbers.items))) dtype.value ≡ true }
        ensures { IfOk result (λ c. c ≡ of_parts dtype.value (map int_val numbers.items)) }
    {
        let ints = Ints::of_numbers(alloc, numbers)?;
        Ok(Column::of_fitting(dtype, Cells::Ints(ints)))
    }

    /// The numbers, where the values are kept as integers, all are there, and none is past those of an i64.
    pub fn numbers<'a>(&'a self) -> Option<&'a [i64]>
        ensures { IfSome result (λ xs. map int_val xs.now ≡ self.entry.now.items) }
    {
        self.cells.numbers()
    }

    /// The dtype of the values.
    pub fn dtype(&self) -> &DType
        ensures { result.now ≡ self.now.dtype }
    {
        &self.dtype
    }

    /// The dtype, to be shared by further columns of it.
    pub fn shared_dtype(&self) -> &Arc<DType>
        ensures { result.now.value ≡ self.now.dtype }
    {
        &self.dtype
    }

    /// How many values.
    pub fn len(&self) -> usize
        ensures { result ≡ length self.now.items }
    {
        self.cells.len()
    }

    /// Whether there is no value.
    pub fn is_empty(&self) -> bool
        ensures { result ≡ (length self.now.items == 0) }
    {
        self.len() == 0
    }

    /// The value at a place: lent where the column keeps it, or made.
    pub fn value<'a>(&'a self, alloc: Global, i: usize) -> Result<Lent<'a>, NoMemory>
        requires { i < length self.now.items }
        ensures { IfOk result (λ v. Some (lent_val v) ≡ slice_get self.entry.now.items i) }
    {
        self.cells.lent(alloc, i)
    }

    /// The values as an array, moved where they are kept as such.
    pub fn to_array(self, alloc: Global) -> Result<Array, NoMemory>
        ensures { IfOk result (λ a. a ≡ self) }
    {
        let Column { dtype, cells } = self;
        let items = cells.into_values(alloc)?;
        let dtype = dtype.try_clone(alloc)?;
        Ok(Array::of_fitting(dtype, items))
    }

    /// The values of a range of places.
    pub fn slice(&self, alloc: Global, r: Range<usize>) -> Result<Column, NoMemory>
        requires ordered { r.start ≤ r.end }
        requires within { r.end ≤ length self.now.items }
        ensures { IfOk result (λ c. c ≡ of_parts self.now.dtype (slice_range self.now.items r.start r.end)) }
    {
        let cells = self.cells.slice(alloc, r)?;
        let dtype = self.dtype.clone()?;
        Ok(Column { dtype, cells })
    }

    /// The values at which the mask is true.
    pub fn filter(&self, alloc: Global, m: &Mask) -> Result<Column, NoMemory>
        requires { length m.now ≡ length self.now.items }
        ensures { IfOk result (λ c. c ≡ of_parts self.now.dtype (items_where_true m.now self.now.items)) }
    {
        let cells = self.cells.filter(alloc, m)?;
        let dtype = self.dtype.clone()?;
        Ok(Column { dtype, cells })
    }

    /// The values, null where the mask is false; the dtype becomes nullable.
    pub fn mask(&self, alloc: Global, m: &Mask) -> Result<Column, NoMemory>
        requires { length m.now ≡ length self.now.items }
        ensures { IfOk result (λ c. c ≡ of_parts
            (with_nullability Nullability.Nullable self.now.dtype) (null_where_false m.now self.now.items)) }
    {
        let cells = self.cells.mask(alloc, m)?;
        let nullable = self
            .dtype
            .try_clone(alloc)?
            .with_nullability(Nullability::Nullable);
        let dtype = Arc::new(alloc, nullable)?;
        Ok(Column { dtype, cells })
    }

    /// The values, and then those of another column of the dtype, which are moved where there is no value yet.
    #[tactic(auto, using(crate::proofs::KeptLemmas::joined_none))]
    pub fn append(self, alloc: Global, other: Column) -> Result<Column, NoMemory>
        requires { other.dtype ≡ self.dtype }
        ensures { IfOk result (λ c. c ≡ of_parts self.dtype (self.items ++ other.items)) }
    {
        if self.is_empty() {
            return Ok(other);
        }
        let Column { dtype, cells } = self;
        let cells = cells.append(alloc, other.cells)?;
        Ok(Column { dtype, cells })
    }

    /// For each value, whether it is null.
    pub fn nulls(&self, alloc: Global) -> Result<Mask, NoMemory>
        ensures { IfOk result (λ m. m ≡ map (λ v. is_nothing (marked v)) self.now.items) }
    {
        self.cells.nulls(alloc)
    }

    /// For each value, whether it is true.
    pub fn to_mask(&self, alloc: Global) -> Result<Mask, NoMemory>
        requires { is_bool_type self.now.dtype ≡ true }
        ensures { IfOk result (λ m. m ≡ map (λ v. is_true (marked v)) self.now.items) }
    {
        self.cells.truths(alloc)
    }

    /// A copy that equals this one.
    pub fn try_clone(&self, alloc: Global) -> Result<Column, NoMemory>
        ensures { IfOk result (λ c. c ≡ self.now) }
    {
        let cells = self.cells.try_clone(alloc)?;
        let dtype = self.dtype.clone()?;
        Ok(Column { dtype, cells })
    }
}
