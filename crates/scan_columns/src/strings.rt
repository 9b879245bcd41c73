// Comparisons of texts, where they stand.
ghost use Rattle.std.specs.Prelude.{◌≡◌, cond, IfOk, length, replicate, true};
ghost use Rattle.scan_values.specs.Val.{bool_val, null_val, text_val};
ghost use Rattle.scan_columns.specs.Evaluated.{paired};
ghost use Rattle.scan_columns.specs.Literals.{is_comparison};
ghost use Rattle.scan_columns.specs.Operands.{pair_val};
ghost use Rattle.scan_columns.specs.Texts.{texts_in};
ghost use Rattle.scan_columns.specs.Typed.{cell};

use crate::bools::Bools;
use crate::compared::holds_of;
use crate::constant::Constant;
use crate::texts::Texts;
use scan_expr::Binary;
use scan_values::NoMemory;
use std::alloc::Global;

/// Whether a comparison holds of two texts, where both are there.
#[tactic(auto, using(crate::proofs::KernelLemmas::compare_texts))]
fn compared_slots(op: Binary, x: (&[u8], bool), y: (&[u8], bool)) -> (bool, bool)
    requires { is_comparison op ≡ true }
    ensures { cell bool_val result ≡ pair_val op
        (cond x.entry.1 (text_val x.entry.0.now) null_val)
        (cond y.entry.1 (text_val y.entry.0.now) null_val) }
{
    (holds_of(op, x.0.cmp(y.0)), x.1 & y.1)
}

/// Of each pair of texts whether a comparison holds.
pub(crate) fn texts_compared(
    alloc: Global,
    op: Binary,
    x: &Texts,
    y: &Texts,
) -> Result<Bools, NoMemory>
    requires compares { is_comparison op ≡ true }
    requires even { length (texts_in y.now) ≡ length (texts_in x.now) }
    ensures { IfOk result (λ v. v ≡ paired (pair_val op) (texts_in x.now) (texts_in y.now)) }
{
    let mut values = Vec::with_capacity(alloc, x.len())?;
    let mut valid = Vec::with_capacity(alloc, x.len())?;
    for i in 0..x.len() {
        let (bit, there) = compared_slots(op, x.slot(i), y.slot(i));
        values.push(bit)?;
        valid.push(there)?;
    }
    Ok(Bools::new(values, valid))
}

/// Of each text whether it compares so with the one that stands everywhere in a constant.
pub(crate) fn compared_with_text(
    alloc: Global,
    op: Binary,
    x: &Texts,
    other: &Constant,
    text: &[u8],
) -> Result<Bools, NoMemory>
    requires compares { is_comparison op ≡ true }
    requires even { length other.now ≡ length (texts_in x.now) }
    requires same { other.now ≡ replicate (length other.now) (text_val text.now) }
    ensures { IfOk result (λ v. v ≡ paired (pair_val op) (texts_in x.now) other.now) }
{
    let mut values = Vec::with_capacity(alloc, x.len())?;
    let mut valid = Vec::with_capacity(alloc, x.len())?;
    for i in 0..x.len() {
        let (bit, there) = compared_slots(op, x.slot(i), (text, true));
        values.push(bit)?;
        valid.push(there)?;
    }
    Ok(Bools::new(values, valid))
}

/// The same, of the text that stands everywhere with each.
pub(crate) fn text_compared_with(
    alloc: Global,
    op: Binary,
    other: &Constant,
    text: &[u8],
    y: &Texts,
) -> Result<Bools, NoMemory>
    requires compares { is_comparison op ≡ true }
    requires even { length (texts_in y.now) ≡ length other.now }
    requires same { other.now ≡ replicate (length other.now) (text_val text.now) }
    ensures { IfOk result (λ v. v ≡ paired (pair_val op) other.now (texts_in y.now)) }
{
    let mut values = Vec::with_capacity(alloc, y.len())?;
    let mut valid = Vec::with_capacity(alloc, y.len())?;
    for i in 0..y.len() {
        let (bit, there) = compared_slots(op, (text, true), y.slot(i));
        values.push(bit)?;
        valid.push(there)?;
    }
    Ok(Bools::new(values, valid))
}
