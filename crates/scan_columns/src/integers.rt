// Operators on two columns of integers.
ghost use Rattle.std.specs.Prelude.{◌≡◌, ◌<◌, IfOk, IfSome, Some, Err, length, slice_get, true, false};
ghost use Rattle.scan_values.specs.Val.{int_val, bool_val, marked};
ghost use Rattle.scan_expr.specs.Overflow.{spills};
ghost use Rattle.scan_columns.specs.Cells.{vals_in};
ghost use Rattle.scan_columns.specs.Typed.{cell};
ghost use Rattle.scan_columns.specs.Evaluated.{binary_val, paired, spills_in};
ghost use Rattle.scan_columns.specs.Literals.{is_comparison, is_sum};
ghost use Rattle.scan_columns.specs.Operands.{numbers_in, pair_val};

use crate::bools::Bools;
use crate::by_value::checked_of;
use crate::cells::Cells;
use crate::compared::holds_of;
use crate::ints::Ints;
use crate::kept::Kept;
use scan_expr::{ApplyFault, Binary};
use scan_values::{DType, NoMemory};
use std::alloc::Global;

/// Integers: those of a column, or one that stands everywhere.
#[derive(Clone, Copy)]
pub(crate) enum Numbers<'a> {
    Each(&'a Ints),
    Same(i128, usize),
}

/// The cells as integers, where they are kept so.
pub(crate) fn numbers_of<'a>(cells: &'a Cells) -> Option<Numbers<'a>>
    ensures { IfSome result (λ n. numbers_in n ≡ vals_in cells.entry.now) }
{
    match cells {
        Cells::Ints(ints) => Some(Numbers::Each(ints)),
        Cells::Constant(constant) => match constant.number() {
            Some(number) => Some(Numbers::Same(number, constant.len())),
            None => None,
        },
        _ => None,
    }
}

impl<'a> Numbers<'a> {
    /// The number at a place, and whether it is there.
    fn slot(self, i: usize) -> (i128, bool)
        requires { i < length (numbers_in self) }
        ensures { Some (cell int_val result) ≡ slice_get (numbers_in self.entry) i }
    {
        match self {
            Numbers::Each(ints) => ints.slot(i),
            Numbers::Same(number, _) => (number, true),
        }
    }
}

/// Whether a comparison holds of two slots, where both are there.
fn compared_slots(op: Binary, x: (i128, bool), y: (i128, bool)) -> (bool, bool)
    requires { is_comparison op ≡ true }
    ensures { cell bool_val result ≡ pair_val op (cell int_val x) (cell int_val y) }
{
    (holds_of(op, x.0.cmp(&y.0)), x.1 & y.1)
}

/// Of each pair of integers whether a comparison holds: of two columns of i64 at once.
pub(crate) fn numbers_compared<'a>(
    alloc: Global,
    op: Binary,
    x: Numbers<'a>,
    y: Numbers<'a>,
    len: usize,
) -> Result<Bools, NoMemory>
    requires compares { is_comparison op ≡ true }
    requires first { length (numbers_in x) ≡ len }
    requires second { length (numbers_in y) ≡ len }
    ensures { IfOk result (λ v. v ≡ paired (pair_val op) (numbers_in x.entry) (numbers_in y.entry)) }
{
    if let (Numbers::Each(first), Numbers::Each(second)) = (x, y) {
        if let Some(made) = first.compare_each(alloc, op, second)? {
            return Ok(made);
        }
    }
    slots_compared(alloc, op, x, y, len)
}

/// The same, slot by slot.
fn slots_compared<'a>(
    alloc: Global,
    op: Binary,
    x: Numbers<'a>,
    y: Numbers<'a>,
    len: usize,
) -> Result<Bools, NoMemory>
    requires compares { is_comparison op ≡ true }
    requires first { length (numbers_in x) ≡ len }
    requires second { length (numbers_in y) ≡ len }
    ensures { IfOk result (λ v. v ≡ paired (pair_val op) (numbers_in x.entry) (numbers_in y.entry)) }
{
    let mut values = Vec::with_capacity(alloc, len)?;
    let mut valid = Vec::with_capacity(alloc, len)?;
    for i in 0..len {
        let (bit, there) = compared_slots(op, x.slot(i), y.slot(i));
        values.push(bit)?;
        valid.push(there)?;
    }
    Ok(Bools::new(values, valid))
}

/// The sum or difference of two slots, where both are there.
fn summed_slots(
    op: Binary,
    dtype: &DType,
    x: (i128, bool),
    y: (i128, bool),
) -> Result<(i128, bool), ApplyFault>
    requires { is_sum op ≡ true }
    ensures value { IfOk result (λ z. cell int_val z ≡ binary_val op dtype.now (cell int_val x) (cell int_val y)) }
    ensures within { IfOk result (λ _. spills op dtype.now (marked (cell int_val x)) (marked (cell int_val y)) ≡ false) }
    ensures overflow { result ≡ Err ApplyFault.Overflow →
        spills op dtype.now (marked (cell int_val x)) (marked (cell int_val y)) ≡ true }
{
    if x.1 & y.1 {
        match checked_of(op, dtype, x.0, y.0) {
            Some(sum) => Ok((sum, true)),
            None => Err(ApplyFault::Overflow),
        }
    } else {
        Ok((0, false))
    }
}

/// The sum or difference of each pair of integers.
pub(crate) fn numbers_summed<'a>(
    alloc: Global,
    op: Binary,
    dtype: &DType,
    x: Numbers<'a>,
    y: Numbers<'a>,
    len: usize,
) -> Result<Ints, ApplyFault>
    requires sums { is_sum op ≡ true }
    requires first { length (numbers_in x) ≡ len }
    requires second { length (numbers_in y) ≡ len }
    ensures items { IfOk result (λ v. v ≡ paired (binary_val op dtype.now) (numbers_in x.entry) (numbers_in y.entry)) }
    ensures within { IfOk result (λ _. spills_in op dtype.now (numbers_in x.entry) (numbers_in y.entry) ≡ false) }
    ensures overflow { result ≡ Err ApplyFault.Overflow →
        spills_in op dtype.now (numbers_in x.entry) (numbers_in y.entry) ≡ true }
{
    let mut values = Vec::with_capacity(alloc, len)?;
    let mut valid = Vec::with_capacity(alloc, len)?;
    for i in 0..len {
        let (sum, there) = summed_slots(op, dtype, x.slot(i), y.slot(i))?;
        values.push(sum)?;
        valid.push(there)?;
    }
    let numbers = Kept::of_wide(alloc, values)?;
    Ok(Ints::new(numbers, valid))
}
