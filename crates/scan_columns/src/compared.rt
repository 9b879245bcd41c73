// One value compared with a number.
ghost use Rattle.std.specs.Prelude.{◌≡◌, length, map, true, false};
ghost use Rattle.std.specs.List.{zip};
ghost use Rattle.std.specs.Ordering.{int_cmp};
ghost use Rattle.std.specs.declared.cmp.Ordering.{Ordering};
ghost use Rattle.scan_values.specs.Values.{val_of};
ghost use Rattle.scan_values.specs.Val.{marked};
ghost use Rattle.scan_expr.specs.Eval.{holds, is_nothing};
ghost use Rattle.scan_columns.specs.Compared.{compare_val, by_sides, sided};

use scan_expr::Binary;
use scan_values::Value;
use std::cmp::Ordering;

/// Whether a comparison holds of two values in this order.
pub(crate) fn holds_of(op: Binary, order: Ordering) -> bool
    ensures { result ≡ holds op order }
{
    match op {
        Binary::Equal => order.is_eq(),
        Binary::NotEqual => !order.is_eq(),
        Binary::Less => order.is_lt(),
        Binary::LessOrEqual => !order.is_gt(),
        Binary::Greater => order.is_gt(),
        Binary::GreaterOrEqual => !order.is_lt(),
        _ => false,
    }
}

/// Whether one value compares so with a number.
pub(crate) fn compared_one(op: Binary, value: &Value, literal: i128) -> Value
    ensures { val_of result ≡ compare_val op literal (val_of value.now) }
{
    match value {
        Value::Null => Value::Null,
        Value::Int(number) => Value::Bool(holds_of(op, number.cmp(&literal))),
        _ => Value::Bool(holds_of(op, Ordering::Equal)),
    }
}

/// Whether a value is null.
pub(crate) fn is_null(value: &Value) -> bool
    ensures { result ≡ is_nothing (marked (val_of value.now)) }
{
    matches!(value, Value::Null)
}

/// A comparison by sides: `other` of what lies on a side whose flag is set, and the contrary of the rest. So a loop
/// over numbers has no case in it.
#[derive(Clone, Copy)]
pub(crate) struct Sides {
    below: bool,
    above: bool,
    other: bool,
}

impl Sides {
    /// Those of a comparison: where it holds as it does not of equal ones.
    pub(crate) fn of(op: Binary) -> Sides
        ensures { (o : Ordering) → sided result o ≡ holds op o }
    {
        let other = !holds_of(op, Ordering::Equal);
        Sides {
            below: holds_of(op, Ordering::Less) == other,
            above: holds_of(op, Ordering::Greater) == other,
            other,
        }
    }

    /// Of each pair of numbers whether it holds of them, in bits that are so many.
    pub(crate) fn write_each(self, bits: Vec<bool>, numbers: &[i64], others: &[i64]) -> Vec<bool>
        requires first { length bits.items ≡ length numbers.now }
        requires second { length bits.items ≡ length others.now }
        ensures { result.items ≡ map (λ p. sided self (int_cmp p.0 p.1)) (zip numbers.now others.now) }
    {
        let mut bits = bits;
        for i in 0..bits.len() {
            bits[i] = lies_apart(self, numbers[i], others[i]);
        }
        bits
    }

    /// Of each number whether it holds of that and another, in bits that are so many.
    pub(crate) fn write(self, bits: Vec<bool>, numbers: &[i128], literal: i128) -> Vec<bool>
        requires { length bits.items ≡ length numbers.now }
        ensures { result.items ≡ map (λ z. sided self (int_cmp z literal)) numbers.now }
    {
        if self.below {
            if self.above {
                write_apart(bits, self.other, numbers, literal)
            } else {
                write_below(bits, self.other, numbers, literal)
            }
        } else {
            write_above(bits, self.above, self.other, numbers, literal)
        }
    }
}

/// Whether a comparison by these sides holds of two numbers.
fn lies_apart(sides: Sides, number: i64, other: i64) -> bool
    ensures { result ≡ sided sides (int_cmp number other) }
{
    ((sides.below & (number < other)) | (sides.above & (other < number))) == sides.other
}

/// The bits of a comparison of which both sides are other than equal numbers.
fn write_apart(bits: Vec<bool>, other: bool, numbers: &[i128], literal: i128) -> Vec<bool>
    requires { length bits.items ≡ length numbers.now }
    ensures { result.items ≡ map (λ z. by_sides true true other (int_cmp z literal)) numbers.now }
{
    let mut bits = bits;
    for i in 0..bits.len() {
        bits[i] = lies(true, true, other, &numbers[i], literal);
    }
    bits
}

/// The bits of one of which only the lesser numbers are.
fn write_below(bits: Vec<bool>, other: bool, numbers: &[i128], literal: i128) -> Vec<bool>
    requires { length bits.items ≡ length numbers.now }
    ensures { result.items ≡ map (λ z. by_sides true false other (int_cmp z literal)) numbers.now }
{
    let mut bits = bits;
    for i in 0..bits.len() {
        bits[i] = lies(true, false, other, &numbers[i], literal);
    }
    bits
}

/// The bits of one of which at most the greater numbers are.
fn write_above(
    bits: Vec<bool>,
    above: bool,
    other: bool,
    numbers: &[i128],
    literal: i128,
) -> Vec<bool>
    requires { length bits.items ≡ length numbers.now }
    ensures { result.items ≡ map (λ z. by_sides false above other (int_cmp z literal)) numbers.now }
{
    let mut bits = bits;
    for i in 0..bits.len() {
        bits[i] = lies(false, above, other, &numbers[i], literal);
    }
    bits
}

/// Whether a comparison by these sides holds of a number and another.
fn lies(below: bool, above: bool, other: bool, number: &i128, literal: i128) -> bool
    ensures { result ≡ by_sides below above other (int_cmp number.now literal) }
{
    ((below & (*number < literal)) | (above & (literal < *number))) == other
}
