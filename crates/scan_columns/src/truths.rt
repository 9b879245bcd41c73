// Operators on two columns of truth values.
ghost use Rattle.std.specs.Prelude.{◌≡◌, ◌<◌, ◌||◌, IfOk, IfSome, Some, length, slice_get, true};
ghost use Rattle.scan_values.specs.Val.{bool_val, marked};
ghost use Rattle.scan_values.specs.declared.ptype.Nullability.{Nullability};
ghost use Rattle.scan_expr.specs.Eval.{logic_value};
ghost use Rattle.scan_columns.specs.Cells.{vals_in};
ghost use Rattle.scan_columns.specs.Typed.{cell};
ghost use Rattle.scan_columns.specs.Evaluated.{paired};
ghost use Rattle.scan_columns.specs.Literals.{is_comparison, is_logic};
ghost use Rattle.scan_columns.specs.Operands.{truths_in, pair_val};

use crate::bools::Bools;
use crate::cells::Cells;
use crate::compared::holds_of;
use scan_expr::Binary;
use scan_values::NoMemory;
use std::alloc::Global;

/// Truth values: those of a column, or one that stands everywhere.
#[derive(Clone, Copy)]
pub(crate) enum Truths<'a> {
    Each(&'a Bools),
    Same(bool, usize),
}

/// The cells as truth values, where they are kept so.
pub(crate) fn truths_of<'a>(cells: &'a Cells) -> Option<Truths<'a>>
    ensures { IfSome result (λ n. truths_in n ≡ vals_in cells.entry.now) }
{
    match cells {
        Cells::Bools(bools) => Some(Truths::Each(bools)),
        Cells::Constant(constant) => match constant.truth() {
            Some(bit) => Some(Truths::Same(bit, constant.len())),
            None => None,
        },
        _ => None,
    }
}

impl<'a> Truths<'a> {
    /// The truth value at a place, and whether it is there.
    fn slot(self, i: usize) -> (bool, bool)
        requires { i < length (truths_in self) }
        ensures { Some (cell bool_val result) ≡ slice_get (truths_in self.entry) i }
    {
        match self {
            Truths::Each(bools) => bools.slot(i),
            Truths::Same(bit, _) => (bit, true),
        }
    }
}

/// `and` of two slots where `b` is false, `or` where it is true: `b` where one is there and is `b`, else the contrary
/// where both are there.
fn logic_slots(b: bool, x: (bool, bool), y: (bool, bool)) -> (bool, bool)
    ensures { (n : Nullability) → marked (cell bool_val result) ≡ logic_value b n (marked (cell bool_val x)) (marked (cell bool_val y)) }
{
    let found = (x.1 & (x.0 == b)) | (y.1 & (y.0 == b));
    (found == b, found | (x.1 & y.1))
}

/// What an operator makes of two slots.
pub(crate) fn paired_slots(op: Binary, x: (bool, bool), y: (bool, bool)) -> (bool, bool)
    requires { (is_comparison op || is_logic op) ≡ true }
    ensures { cell bool_val result ≡ pair_val op (cell bool_val x) (cell bool_val y) }
{
    match op {
        Binary::And => logic_slots(false, x, y),
        Binary::Or => logic_slots(true, x, y),
        _ => (holds_of(op, x.0.cmp(&y.0)), x.1 & y.1),
    }
}

/// What an operator makes of each pair of truth values: of two columns at once.
pub(crate) fn truths_paired<'a>(
    alloc: Global,
    op: Binary,
    x: Truths<'a>,
    y: Truths<'a>,
    len: usize,
) -> Result<Bools, NoMemory>
    requires kind { (is_comparison op || is_logic op) ≡ true }
    requires first { length (truths_in x) ≡ len }
    requires second { length (truths_in y) ≡ len }
    ensures { IfOk result (λ v. v ≡ paired (pair_val op) (truths_in x.entry) (truths_in y.entry)) }
{
    if let (Truths::Each(first), Truths::Each(second)) = (x, y) {
        return first.pair(alloc, op, second);
    }
    slots_paired(alloc, op, x, y, len)
}

/// The same, slot by slot.
fn slots_paired<'a>(
    alloc: Global,
    op: Binary,
    x: Truths<'a>,
    y: Truths<'a>,
    len: usize,
) -> Result<Bools, NoMemory>
    requires kind { (is_comparison op || is_logic op) ≡ true }
    requires first { length (truths_in x) ≡ len }
    requires second { length (truths_in y) ≡ len }
    ensures { IfOk result (λ v. v ≡ paired (pair_val op) (truths_in x.entry) (truths_in y.entry)) }
{
    let mut values = Vec::with_capacity(alloc, len)?;
    let mut valid = Vec::with_capacity(alloc, len)?;
    for i in 0..len {
        let (bit, there) = paired_slots(op, x.slot(i), y.slot(i));
        values.push(bit)?;
        valid.push(there)?;
    }
    Ok(Bools::new(values, valid))
}
