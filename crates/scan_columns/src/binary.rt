// The operators on two columns.
ghost use Rattle.std.specs.Prelude.{◌≡◌, IfOk, IfSome, length, map, replicate, pos, Err, Some, true, false};
ghost use Rattle.scan_values.specs.Fits.{fits_int};
ghost use Rattle.scan_values.specs.Val.{int_val};
ghost use Rattle.scan_columns.specs.Cells.{vals_in};
ghost use Rattle.scan_columns.specs.Evaluated.{binary_val, paired, spills_in};
ghost use Rattle.scan_columns.specs.Literals.{is_comparison, is_logic, is_sum};
ghost use Rattle.scan_columns.specs.Operands.{pair_val};

use crate::bools::Bools;
use crate::by_value::{binary_of, compared_pair};
use crate::cells::Cells;
use crate::integers::{numbers_compared, numbers_of, numbers_summed};
use crate::strings::{compared_with_text, text_compared_with, texts_compared};
use crate::truths::{truths_of, truths_paired};
use scan_expr::{ApplyFault, Binary};
use scan_values::{DType, NoMemory, Values};
use std::alloc::Global;

/// The values of an operator on two columns; the dtype is that of its result.
pub(crate) fn combined(
    alloc: Global,
    op: Binary,
    dtype: &DType,
    x: &Cells,
    y: &Cells,
) -> Result<Cells, ApplyFault>
    requires even { length (vals_in y.now) ≡ length (vals_in x.now) }
    requires zero { is_sum op ≡ true → fits_int dtype.now (pos 0) ≡ true }
    ensures items { IfOk result (λ c. vals_in c ≡ paired (binary_val op dtype.now) (vals_in x.now) (vals_in y.now)) }
    ensures within { IfOk result (λ _. spills_in op dtype.now (vals_in x.now) (vals_in y.now) ≡ false) }
    ensures overflow { result ≡ Err ApplyFault.Overflow →
        spills_in op dtype.now (vals_in x.now) (vals_in y.now) ≡ true }
{
    if is_sum(op) {
        sums(alloc, op, dtype, x, y)
    } else {
        pairs(alloc, op, dtype, x, y)
    }
}

/// Sums or differences.
fn sums(alloc: Global, op: Binary, dtype: &DType, x: &Cells, y: &Cells) -> Result<Cells, ApplyFault>
    requires even { length (vals_in y.now) ≡ length (vals_in x.now) }
    requires zero { is_sum op ≡ true → fits_int dtype.now (pos 0) ≡ true }
    requires sums { is_sum op ≡ true }
    ensures items { IfOk result (λ c. vals_in c ≡ paired (binary_val op dtype.now) (vals_in x.now) (vals_in y.now)) }
    ensures within { IfOk result (λ _. spills_in op dtype.now (vals_in x.now) (vals_in y.now) ≡ false) }
    ensures overflow { result ≡ Err ApplyFault.Overflow →
        spills_in op dtype.now (vals_in x.now) (vals_in y.now) ≡ true }
{
    match typed_sums(alloc, op, dtype, x, y)? {
        Some(made) => Ok(made),
        None => by_values(alloc, op, dtype, x, y),
    }
}

/// The values of an operator that is no sum.
fn pairs(
    alloc: Global,
    op: Binary,
    dtype: &DType,
    x: &Cells,
    y: &Cells,
) -> Result<Cells, ApplyFault>
    requires even { length (vals_in y.now) ≡ length (vals_in x.now) }
    requires pairs { is_sum op ≡ false }
    ensures items { IfOk result (λ c. vals_in c ≡ paired (binary_val op dtype.now) (vals_in x.now) (vals_in y.now)) }
    ensures within { IfOk result (λ _. spills_in op dtype.now (vals_in x.now) (vals_in y.now) ≡ false) }
    ensures overflow { result ≡ Err ApplyFault.Overflow →
        spills_in op dtype.now (vals_in x.now) (vals_in y.now) ≡ true }
{
    match typed_pairs(alloc, op, x, y)? {
        Some(made) => Ok(made),
        None => by_values(alloc, op, dtype, x, y),
    }
}

/// Sums and differences, where both are kept as integers.
fn typed_sums(
    alloc: Global,
    op: Binary,
    dtype: &DType,
    x: &Cells,
    y: &Cells,
) -> Result<Option<Cells>, ApplyFault>
    requires even { length (vals_in y.now) ≡ length (vals_in x.now) }
    requires sums { is_sum op ≡ true }
    ensures items { IfOk result (λ o. IfSome o (λ c. vals_in c ≡
        paired (binary_val op dtype.now) (vals_in x.now) (vals_in y.now))) }
    ensures within { IfOk result (λ o. IfSome o (λ _. spills_in op dtype.now (vals_in x.now) (vals_in y.now) ≡ false)) }
    ensures overflow { result ≡ Err ApplyFault.Overflow →
        spills_in op dtype.now (vals_in x.now) (vals_in y.now) ≡ true }
{
    match (numbers_of(x), numbers_of(y)) {
        (Some(first), Some(second)) => {
            let sums = numbers_summed(alloc, op, dtype, first, second, x.len())?;
            Ok(Some(Cells::Ints(sums)))
        }
        _ => Ok(None),
    }
}

/// The values of an operator that is no sum, where both are kept so that it makes no value a cell.
fn typed_pairs(alloc: Global, op: Binary, x: &Cells, y: &Cells) -> Result<Option<Cells>, NoMemory>
    requires even { length (vals_in y.now) ≡ length (vals_in x.now) }
    ensures { IfOk result (λ o. IfSome o (λ c. vals_in c ≡ paired (pair_val op) (vals_in x.now) (vals_in y.now))) }
{
    if is_mask(op) {
        return Ok(Some(x.mask(alloc, &y.truths(alloc)?)?));
    }
    if is_comparison(op) {
        if let Some(made) = typed_comparison(alloc, op, x, y)? {
            return Ok(Some(made));
        }
    }
    if !is_comparison(op) & !is_logic(op) {
        return Ok(None);
    }
    match (truths_of(x), truths_of(y)) {
        (Some(first), Some(second)) => {
            let truths = truths_paired(alloc, op, first, second, x.len())?;
            Ok(Some(Cells::Bools(truths)))
        }
        _ => other_comparison(alloc, op, x, y),
    }
}

/// Of each pair whether a comparison holds, however both are kept.
fn other_comparison(
    alloc: Global,
    op: Binary,
    x: &Cells,
    y: &Cells,
) -> Result<Option<Cells>, NoMemory>
    requires even { length (vals_in y.now) ≡ length (vals_in x.now) }
    ensures { IfOk result (λ o. IfSome o (λ c. vals_in c ≡ paired (pair_val op) (vals_in x.now) (vals_in y.now))) }
{
    if is_comparison(op) {
        let truths = cells_compared(alloc, op, x, y)?;
        Ok(Some(Cells::Bools(truths)))
    } else {
        Ok(None)
    }
}

/// The same: of texts in one buffer, or one and a text that stands everywhere, where they stand, else of one value
/// after another.
fn cells_compared(alloc: Global, op: Binary, x: &Cells, y: &Cells) -> Result<Bools, NoMemory>
    requires even { length (vals_in y.now) ≡ length (vals_in x.now) }
    requires compares { is_comparison op ≡ true }
    ensures { IfOk result (λ v. v ≡ paired (pair_val op) (vals_in x.now) (vals_in y.now)) }
{
    match (x, y) {
        (Cells::Texts(first), Cells::Texts(second)) => texts_compared(alloc, op, first, second),
        (Cells::Texts(first), Cells::Constant(second)) => match second.text() {
            Some(text) => compared_with_text(alloc, op, first, second, text.as_bytes()),
            None => values_compared(alloc, op, x, y),
        },
        (Cells::Constant(first), Cells::Texts(second)) => match first.text() {
            Some(text) => text_compared_with(alloc, op, first, text.as_bytes(), second),
            None => values_compared(alloc, op, x, y),
        },
        _ => values_compared(alloc, op, x, y),
    }
}

/// Of each pair of values whether a comparison holds. A text is compared where it stands.
fn values_compared(alloc: Global, op: Binary, x: &Cells, y: &Cells) -> Result<Bools, NoMemory>
    requires even { length (vals_in y.now) ≡ length (vals_in x.now) }
    requires compares { is_comparison op ≡ true }
    ensures { IfOk result (λ v. v ≡ paired (pair_val op) (vals_in x.now) (vals_in y.now)) }
{
    let mut values = Vec::with_capacity(alloc, x.len())?;
    let mut valid = Vec::with_capacity(alloc, x.len())?;
    for i in 0..x.len() {
        let first = x.lent(alloc, i)?;
        let second = y.lent(alloc, i)?;
        let (bit, there) = compared_pair(op, first.as_value(), second.as_value());
        values.push(bit)?;
        valid.push(there)?;
    }
    Ok(Bools::new(values, valid))
}

/// Of each pair whether a comparison holds, where both are kept as integers.
fn typed_comparison(
    alloc: Global,
    op: Binary,
    x: &Cells,
    y: &Cells,
) -> Result<Option<Cells>, NoMemory>
    requires even { length (vals_in y.now) ≡ length (vals_in x.now) }
    requires compares { is_comparison op ≡ true }
    ensures { IfOk result (λ o. IfSome o (λ c. vals_in c ≡ paired (pair_val op) (vals_in x.now) (vals_in y.now))) }
{
    if let Some(literal) = repeated_number(y) {
        return Ok(Some(x.compare(alloc, op, literal)?));
    }
    match (numbers_of(x), numbers_of(y)) {
        (Some(first), Some(second)) => {
            let truths = numbers_compared(alloc, op, first, second, x.len())?;
            Ok(Some(Cells::Bools(truths)))
        }
        _ => Ok(None),
    }
}

fn is_mask(op: Binary) -> bool
    ensures { result ≡ true → op ≡ Binary.Mask }
{
    matches!(op, Binary::Mask)
}

fn is_sum(op: Binary) -> bool
    ensures { result ≡ is_sum op }
{
    matches!(op, Binary::CheckedAdd | Binary::CheckedSub)
}

fn is_logic(op: Binary) -> bool
    ensures { result ≡ is_logic op }
{
    matches!(op, Binary::And | Binary::Or)
}

fn is_comparison(op: Binary) -> bool
    ensures { result ≡ is_comparison op }
{
    match op {
        Binary::Equal | Binary::NotEqual => true,
        Binary::Less | Binary::LessOrEqual => true,
        Binary::Greater | Binary::GreaterOrEqual => true,
        _ => false,
    }
}

/// The number that stands everywhere, where one does.
fn repeated_number(cells: &Cells) -> Option<i128>
    ensures { IfSome result (λ z. vals_in cells.now ≡ replicate (length (vals_in cells.now)) (int_val z)) }
{
    match cells {
        Cells::Constant(constant) => constant.number(),
        _ => None,
    }
}

/// The values of an operator on one pair of values after another.
fn by_values(
    alloc: Global,
    op: Binary,
    dtype: &DType,
    x: &Cells,
    y: &Cells,
) -> Result<Cells, ApplyFault>
    requires even { length (vals_in y.now) ≡ length (vals_in x.now) }
    requires zero { is_sum op ≡ true → fits_int dtype.now (pos 0) ≡ true }
    ensures items { IfOk result (λ c. vals_in c ≡ paired (binary_val op dtype.now) (vals_in x.now) (vals_in y.now)) }
    ensures within { IfOk result (λ _. spills_in op dtype.now (vals_in x.now) (vals_in y.now) ≡ false) }
    ensures overflow { result ≡ Err ApplyFault.Overflow →
        spills_in op dtype.now (vals_in x.now) (vals_in y.now) ≡ true }
{
    let mut items = Vec::with_capacity(alloc, x.len())?;
    for i in 0..x.len() {
        let first = x.lent(alloc, i)?;
        let second = y.lent(alloc, i)?;
        let value = binary_of(alloc, op, dtype, first.as_value(), second.as_value())?;
        items.push(value)?;
    }
    Ok(Cells::Values(Values::new(items)))
}
