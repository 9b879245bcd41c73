// Arrays: a dtype, and values that fit it, after the crate's `vortex_array::ArrayRef`.
ghost use Rattle.std.specs.Prelude.{◌≡◌, ◌<◌, ◌≤◌, ◌==◌, map, length, true, if◌then◌else◌, slice_get, slice_range, IfOk, Some, Ok, Err};
ghost use Rattle.std.specs.List.{items_where_true};
ghost use Rattle.scan_values.specs.Arrays.{of_parts};
ghost use Rattle.scan_values.specs.Values.{val_of};
ghost use Rattle.scan_values.specs.Val.{vals_of, marked, marked_all};
ghost use Rattle.scan_values.specs.Fits.{fits_all, is_bool_type};
ghost use Rattle.scan_values.specs.DataType.{with_nullability};
ghost use Rattle.scan_values.specs.Marked.{is_true};
ghost use Rattle.scan_values.specs.Masks.{null_where_false};

use crate::dtype::DType;
use crate::mask::Mask;
use crate::memory::NoMemory;
use crate::ptype::Nullability;
use crate::value::{Value, Values};
use std::alloc::Global;
use std::marker::Model;
use std::ops::Range;
use thiserror::Error;

/// Values of one dtype.
#[derive(Drop)]
pub struct Array {
    dtype: DType,
    items: Values,
}

impl Model for Array {
    ghost use Rattle.std.specs.Prelude.{◌≡◌, true};
    ghost use Rattle.scan_values.specs.Arrays.{ArrayData, array_code};
    ghost use Rattle.scan_values.specs.Val.{vals_of, marked_all};
    ghost use Rattle.scan_values.specs.Fits.{fits_all};

    ghost Value = { ArrayData };

    ghost coded = { array_code };

    ghost view = { λ a. record { dtype = a.dtype; items = a.items } };

    ghost invariant = { λ a. fits_all (marked_all (vals_of a.items)) a.dtype ≡ true };
}

/// Why an array was not made.
#[derive(Clone, Copy, Debug, PartialEq, Eq, Error)]
pub enum ArrayFault {
    #[error("a value is not of the dtype")]
    NotOfType,
}

impl Array {
    /// The items under the dtype, or `NotOfType` where one does not fit.
    pub fn try_new(dtype: DType, items: Vec<Value>) -> Result<Array, ArrayFault>
        ensures { let vs = map val_of items.items in
            result ≡ (if fits_all (marked_all (vals_of vs)) dtype then Ok (of_parts dtype vs) else Err ArrayFault.NotOfType) }
    {
        let items = Values::new(items);
        if items.all_fit(&dtype) {
            Ok(Array { dtype, items })
        } else {
            Err(ArrayFault::NotOfType)
        }
    }

    /// The items under the dtype, where they are known to fit it.
    pub fn of_fitting(dtype: DType, items: Vec<Value>) -> Array
        requires { fits_all (marked_all (vals_of (map val_of items.items))) dtype ≡ true }
        ensures { result ≡ of_parts dtype (map val_of items.items) }
    {
        Array {
            dtype,
            items: Values::new(items),
        }
    }

    /// The dtype of the items.
    pub fn dtype(&self) -> &DType
        ensures { result.now ≡ self.now.dtype }
    {
        &self.dtype
    }

    /// How many items.
    pub fn len(&self) -> usize
        ensures { result ≡ length self.now.items }
    {
        self.items.len()
    }

    /// Whether there is no item.
    pub fn is_empty(&self) -> bool
        ensures { result ≡ (length self.now.items == 0) }
    {
        self.items.len() == 0
    }

    /// The items, each of which fits the dtype.
    pub fn as_slice(&self) -> &[Value]
        ensures items { map val_of result.now ≡ self.now.items }
        ensures fit { fits_all (marked_all (vals_of self.now.items)) self.now.dtype ≡ true }
    {
        self.items.as_slice()
    }

    /// The items, without the dtype.
    pub fn into_vec(self) -> Vec<Value>
        ensures items { map val_of result.items ≡ self.items }
        ensures fit { fits_all (marked_all (vals_of self.items)) self.dtype ≡ true }
    {
        self.items.into_vec()
    }

    /// The item at a place.
    pub fn get(&self, i: usize) -> &Value
        requires { i < length self.now.items }
        ensures { Some (val_of result.now) ≡ slice_get self.now.items i }
    {
        &self.items.as_slice()[i]
    }

    /// The items of a range of places.
    pub fn slice(&self, alloc: Global, r: Range<usize>) -> Result<Array, NoMemory>
        requires ordered { r.start ≤ r.end }
        requires within { r.end ≤ length self.now.items }
        ensures { IfOk result (λ a. a ≡ of_parts self.now.dtype (slice_range self.now.items r.start r.end)) }
    {
        let from = &self.items.as_slice()[r.start..r.end];
        let items = clone_values(alloc, from)?;
        let dtype = self.dtype.try_clone(alloc)?;
        Ok(Array {
            dtype,
            items: Values::new(items),
        })
    }

    /// The items at which the mask is true.
    pub fn filter(&self, alloc: Global, m: &Mask) -> Result<Array, NoMemory>
        requires { length m.now ≡ length self.now.items }
        ensures { IfOk result (λ a. a ≡ of_parts self.now.dtype (items_where_true m.now self.now.items)) }
    {
        let items = kept_values(alloc, self.items.as_slice(), m)?;
        let dtype = self.dtype.try_clone(alloc)?;
        Ok(Array {
            dtype,
            items: Values::new(items),
        })
    }

    /// The items, null where the mask is false; the dtype becomes nullable.
    pub fn mask(&self, alloc: Global, m: &Mask) -> Result<Array, NoMemory>
        requires { length m.now ≡ length self.now.items }
        ensures { IfOk result (λ a. a ≡ of_parts (with_nullability Nullability.Nullable self.now.dtype) (null_where_false m.now self.now.items)) }
    {
        let items = masked_values(alloc, self.items.as_slice(), m)?;
        let dtype = self
            .dtype
            .try_clone(alloc)?
            .with_nullability(Nullability::Nullable);
        Ok(Array {
            dtype,
            items: Values::new(items),
        })
    }

    /// For each item, whether it is true.
    pub fn to_mask(&self, alloc: Global) -> Result<Mask, NoMemory>
        requires { is_bool_type self.now.dtype ≡ true }
        ensures { IfOk result (λ m. m ≡ map (λ v. is_true (marked v)) self.now.items) }
    {
        let bits = are_true(alloc, self.items.as_slice())?;
        Ok(Mask::from_bools(bits))
    }

    /// A copy that equals this one.
    pub fn try_clone(&self, alloc: Global) -> Result<Array, NoMemory>
        ensures { IfOk result (λ a. a ≡ self.now) }
    {
        let dtype = self.dtype.try_clone(alloc)?;
        let items = self.items.try_clone(alloc)?;
        Ok(Array { dtype, items })
    }
}

/// For each value, whether it is true.
fn are_true(alloc: Global, values: &[Value]) -> Result<Vec<bool>, NoMemory>
    ensures { IfOk result (λ v. v.items ≡ map (λ v. is_true (marked (val_of v))) values.now) }
{
    Ok(values.iter().map(|v| v.is_true()).collect(alloc)?)
}

fn clone_values(alloc: Global, values: &[Value]) -> Result<Vec<Value>, NoMemory>
    ensures { IfOk result (λ v. map val_of v.items ≡ map val_of values.now) }
{
    let mut items = Vec::with_capacity(alloc, values.len())?;
    for value in values {
        items.push(value.try_clone(alloc)?)?;
    }
    Ok(items)
}

/// Copies of the values at which the mask is true.
fn kept_values(alloc: Global, values: &[Value], m: &Mask) -> Result<Vec<Value>, NoMemory>
    requires { length m.now ≡ length values.now }
    ensures { IfOk result (λ v. map val_of v.items ≡ items_where_true m.now (map val_of values.now)) }
{
    if m.all_true() {
        return clone_values(alloc, values);
    }
    let bits = m.as_slice();
    let mut items = Vec::with_capacity(alloc, m.true_count())?;
    for (i, value) in values.iter().enumerate() {
        if bits[i] {
            items.push(value.try_clone(alloc)?)?;
        }
    }
    Ok(items)
}

/// Copies of the values, null where the mask is false.
fn masked_values(alloc: Global, values: &[Value], m: &Mask) -> Result<Vec<Value>, NoMemory>
    requires { length m.now ≡ length values.now }
    ensures { IfOk result (λ v. map val_of v.items ≡ null_where_false m.now (map val_of values.now)) }
{
    let bits = m.as_slice();
    let mut items = Vec::with_capacity(alloc, bits.len())?;
    for (i, value) in values.iter().enumerate() {
        if bits[i] {
            items.push(value.try_clone(alloc)?)?;
        } else {
            items.push(Value::Null)?;
        }
    }
    Ok(items)
}
