// Integers, kept as numbers.
ghost use Rattle.std.specs.Prelude.{◌≡◌, ◌<◌, ◌≤◌, ◌++◌, ◌∷◌, [], slice_range, cond, IfOk, IfSome, Some, map, length, slice_get, true};
ghost use Rattle.std.specs.List.{items_where_true};
ghost use Rattle.std.specs.Ordering.{int_cmp};
ghost use Rattle.scan_expr.specs.Eval.{holds};
ghost use Rattle.scan_columns.specs.Compared.{compare_val};
ghost use Rattle.scan_values.specs.Values.{val_of};
ghost use Rattle.scan_values.specs.Val.{marked, null_val, int_val};
ghost use Rattle.scan_values.specs.Masks.{null_where_false};
ghost use Rattle.scan_expr.specs.Eval.{is_nothing};
ghost use Rattle.scan_spelling.specs.LeafColumns.{int_or_null, is_here};
ghost use Rattle.scan_columns.specs.Typed.{typed, cell};
ghost use Rattle.scan_columns.specs.Kept.{numbers_in};
ghost use Rattle.scan_columns.specs.Evaluated.{paired};
ghost use Rattle.scan_columns.specs.Literals.{is_comparison};
ghost use Rattle.scan_columns.specs.Operands.{pair_val};

use crate::bools::Bools;
use crate::compared::Sides;
use crate::kept::Kept;
use crate::slots::{all_true, both, contrary, kept};
use scan_expr::Binary;
use scan_spelling::IntRun;
use scan_values::{Mask, NoMemory, Value};
use std::alloc::{AllocError, Global};
use std::marker::Model;
use std::ops::Range;

/// Integers, each with whether it is there.
#[derive(Drop)]
pub struct Ints {
    numbers: Kept,
    valid: Vec<bool>,
}

impl Model for Ints {
    ghost use Rattle.std.specs.Prelude.{◌≡◌, List, length};
    ghost use Rattle.std.specs.Coded.{coded_list};
    ghost use Rattle.scan_values.specs.Val.{Val, val_code, int_val};
    ghost use Rattle.scan_columns.specs.Typed.{typed};

    ghost Value = { List Val };

    ghost coded = { coded_list val_code };

    ghost use Rattle.scan_columns.specs.Kept.{numbers_in};

    ghost view = { λ a. typed int_val (numbers_in a.numbers) a.valid.items };

    ghost invariant = { λ a. length a.valid.items ≡ length (numbers_in a.numbers) };
}

impl Ints {
    /// These values, null where `valid` is false.
    pub fn new(numbers: Kept, valid: Vec<bool>) -> Ints
        requires { length valid.items ≡ length (numbers_in numbers) }
        ensures { result ≡ typed int_val (numbers_in numbers) valid.items }
    {
        Ints { numbers, valid }
    }

    /// How many.
    #[tactic(auto, using(crate::proofs::TypedLemmas::typed_length))]
    pub fn len(&self) -> usize
        ensures { result ≡ length self.now }
    {
        self.numbers.len()
    }

    /// The value at a place.
    #[tactic(auto, using(crate::proofs::TypedLemmas::typed_length))]
    pub fn value(&self, i: usize) -> Value
        requires { i < length self.now }
        ensures { Some (val_of result) ≡ slice_get self.now i }
    {
        int_at(&self.numbers, self.valid.as_slice(), i)
    }

    /// The number of the slot at a place, and whether it is there.
    #[tactic(auto, using(crate::proofs::TypedLemmas::typed_length))]
    pub fn slot(&self, i: usize) -> (i128, bool)
        requires { i < length self.now }
        ensures { Some (cell int_val result) ≡ slice_get self.now i }
    {
        int_slot_at(&self.numbers, self.valid.as_slice(), i)
    }

    /// For each whether it is there.
    #[tactic(auto, using(crate::proofs::TypedLemmas::ints_here))]
    pub fn validity(&self) -> &[bool]
        ensures { result.now ≡ map is_here self.now }
    {
        self.valid.as_slice()
    }

    /// The numbers, where all are there and they are kept as i64.
    #[tactic(auto, using(crate::proofs::KeptLemmas::typed_all))]
    pub fn numbers<'a>(&'a self) -> Option<&'a [i64]>
        ensures { IfSome result (λ xs. map int_val xs.now ≡ self.entry.now) }
    {
        if all_true(self.valid.as_slice()) {
            self.numbers.as_narrow()
        } else {
            None
        }
    }

    /// These numbers, each there.
    #[tactic(auto, using(crate::proofs::KernelLemmas::typed_full))]
    pub fn of_numbers(alloc: Global, numbers: Vec<i64>) -> Result<Ints, NoMemory>
        ensures { IfOk result (λ v. v ≡ map int_val numbers.items) }
    {
        let valid = vec![in alloc; true; numbers.len()]?;
        Ok(Ints::new(Kept::Narrow(numbers), valid))
    }

    /// The values.
    pub fn to_values(&self, alloc: Global) -> Result<Vec<Value>, NoMemory>
        ensures { IfOk result (λ v. map val_of v.items ≡ self.now) }
    {
        match &self.numbers {
            Kept::Narrow(numbers) => narrow_values(alloc, numbers, self.valid.as_slice()),
            Kept::Wide(numbers) => int_values(alloc, numbers, self.valid.as_slice()),
        }
    }

    /// Where there is no value.
    #[tactic(auto, using(crate::proofs::TypedLemmas::int_nulls))]
    pub fn nulls(&self, alloc: Global) -> Result<Mask, NoMemory>
        ensures { IfOk result (λ m. m ≡ map (λ v. is_nothing (marked v)) self.now) }
    {
        let bits = contrary(alloc, self.valid.as_slice())?;
        Ok(Mask::from_bools(bits))
    }

    /// Those at which the mask is true.
    #[tactic(auto, using(crate::proofs::TypedLemmas::typed_where, crate::proofs::TypedLemmas::where_lengths, crate::proofs::TypedLemmas::typed_length))]
    pub fn filter(&self, alloc: Global, m: &Mask) -> Result<Ints, NoMemory>
        requires { length m.now ≡ length self.now }
        ensures { IfOk result (λ v. v ≡ items_where_true m.now self.now) }
    {
        let numbers = self.numbers.filter(alloc, m)?;
        let valid = kept(alloc, self.valid.as_slice(), m)?;
        Ok(Ints::new(numbers, valid))
    }

    /// These, null where the mask is false.
    #[tactic(auto, using(crate::proofs::TypedLemmas::typed_mask, crate::proofs::TypedLemmas::both_lengths, crate::proofs::TypedLemmas::typed_length))]
    pub fn mask(&self, alloc: Global, m: &Mask) -> Result<Ints, NoMemory>
        requires { length m.now ≡ length self.now }
        ensures { IfOk result (λ v. v ≡ null_where_false m.now self.now) }
    {
        let numbers = self.numbers.try_clone(alloc)?;
        let valid = both(alloc, self.valid.as_slice(), m.as_slice())?;
        Ok(Ints::new(numbers, valid))
    }

    /// Those of a range of places.
    #[tactic(auto, using(crate::proofs::TypedLemmas::typed_slice, crate::proofs::TypedLemmas::typed_length))]
    pub fn slice(&self, alloc: Global, r: Range<usize>) -> Result<Ints, NoMemory>
        requires ordered { r.start ≤ r.end }
        requires within { r.end ≤ length self.now }
        ensures { IfOk result (λ v. v ≡ slice_range self.now r.start r.end) }
    {
        let (start, end) = (r.start, r.end);
        let numbers = self.numbers.slice(alloc, start..end)?;
        let valid = Vec::from_slice(alloc, &self.valid[start..end])?;
        Ok(Ints::new(numbers, valid))
    }

    /// These, and then the others.
    #[tactic(auto, using(crate::proofs::TypedLemmas::typed_append))]
    pub fn append(self, other: &Ints) -> Result<Ints, NoMemory>
        ensures { IfOk result (λ v. v ≡ self ++ other.now) }
    {
        let Ints { numbers, mut valid } = self;
        let alloc = *valid.allocator();
        let numbers = numbers.append(alloc, &other.numbers)?;
        valid.extend_from_slice(other.valid.as_slice())?;
        Ok(Ints::new(numbers, valid))
    }

    /// These, and then those of a run.
    #[tactic(auto, using(crate::proofs::KeptLemmas::none_before))]
    pub fn extend(self, run: IntRun) -> Result<Ints, NoMemory>
        ensures { IfOk result (λ v. v ≡ self ++ run) }
    {
        let (numbers, valid) = run.into_parts();
        let more = Ints::new(Kept::Narrow(numbers), valid);
        if self.len() == 0 {
            Ok(more)
        } else {
            self.append(&more)
        }
    }

    /// These, and then one more.
    #[tactic(auto, using(crate::proofs::TypedLemmas::typed_append, crate::proofs::TypedLemmas::pushed_even))]
    pub fn pushed(self, value: Option<i128>) -> Result<Ints, NoMemory>
        ensures { IfOk result (λ v. v ≡ self ++ int_or_null value ∷ []) }
    {
        let Ints { numbers, mut valid } = self;
        let alloc = *valid.allocator();
        let numbers = numbers.pushed(alloc, value.unwrap_or(0))?;
        valid.push(value.is_some())?;
        Ok(Ints::new(numbers, valid))
    }

    /// A copy that equals this one.
    pub fn try_clone(&self, alloc: Global) -> Result<Ints, NoMemory>
        ensures { IfOk result (λ v. v ≡ self.now) }
    {
        let numbers = self.numbers.try_clone(alloc)?;
        let valid = Vec::from_slice(alloc, self.valid.as_slice())?;
        Ok(Ints::new(numbers, valid))
    }
}

impl Ints {
    /// Of each whether it compares so with a number.
    #[tactic(auto, using(crate::proofs::TypedLemmas::typed_compare))]
    pub fn compare(&self, alloc: Global, op: Binary, literal: i128) -> Result<Bools, NoMemory>
        ensures { IfOk result (λ b. b ≡ map (compare_val op literal) self.now) }
    {
        let values = self.numbers.compare(alloc, op, literal)?;
        let valid = Vec::from_slice(alloc, self.valid.as_slice())?;
        Ok(Bools::new(values, valid))
    }
}

impl Ints {
    /// Of each pair of these and others whether it compares so, where both are kept as i64.
    #[tactic(auto, using(crate::proofs::TypedLemmas::typed_length, crate::proofs::KernelLemmas::compare_pairs, crate::proofs::KernelLemmas::pairs_long))]
    pub fn compare_each(
        &self,
        alloc: Global,
        op: Binary,
        other: &Ints,
    ) -> Result<Option<Bools>, NoMemory>
        requires compares { is_comparison op ≡ true }
        requires even { length other.now ≡ length self.now }
        ensures { IfOk result (λ o. IfSome o (λ b. b ≡ paired (pair_val op) self.now other.now)) }
    {
        let Some(values) = self.numbers.compare_each(alloc, op, &other.numbers)? else {
            return Ok(None);
        };
        let valid = both(alloc, self.valid.as_slice(), other.valid.as_slice())?;
        Ok(Some(Bools::new(values, valid)))
    }
}

fn int_cell(number: i128, valid: bool) -> Value
    ensures { val_of result ≡ cond valid (int_val number) null_val }
{
    if valid {
        Value::Int(number)
    } else {
        Value::Null
    }
}

fn int_at(numbers: &Kept, valid: &[bool], i: usize) -> Value
    requires place { i < length (numbers_in numbers.now) }
    requires even { length valid.now ≡ length (numbers_in numbers.now) }
    ensures { Some (val_of result) ≡ slice_get (typed int_val (numbers_in numbers.now) valid.now) i }
{
    int_cell(numbers.at(i), valid[i])
}

fn int_pair(number: i128, there: bool) -> (i128, bool)
    ensures { cell int_val result ≡ cond there (int_val number) null_val }
{
    (number, there)
}

fn int_slot_at(numbers: &Kept, valid: &[bool], i: usize) -> (i128, bool)
    requires place { i < length (numbers_in numbers.now) }
    requires even { length valid.now ≡ length (numbers_in numbers.now) }
    ensures { Some (cell int_val result) ≡ slice_get (typed int_val (numbers_in numbers.now) valid.now) i }
{
    int_pair(numbers.at(i), valid[i])
}

fn int_value(number: i64) -> Value
    ensures { val_of result ≡ int_val number }
{
    Value::Int(i128::from(number))
}

fn full_values(alloc: Global, numbers: &[i64]) -> Result<Vec<Value>, AllocError>
    ensures { IfOk result (λ v. map val_of v.items ≡ map int_val numbers.now) }
{
    numbers.iter().map(|n| int_value(*n)).collect(alloc)
}

#[tactic(auto, using(crate::proofs::KeptLemmas::typed_all))]
fn narrow_values(alloc: Global, values: &[i64], valid: &[bool]) -> Result<Vec<Value>, NoMemory>
    requires { length valid.now ≡ length values.now }
    ensures { IfOk result (λ v. map val_of v.items ≡ typed int_val values.now valid.now) }
{
    if all_true(valid) {
        let made = full_values(alloc, values)?;
        return Ok(made);
    }
    null_values(alloc, values, valid)
}

fn null_values(alloc: Global, values: &[i64], valid: &[bool]) -> Result<Vec<Value>, NoMemory>
    requires { length valid.now ≡ length values.now }
    ensures { IfOk result (λ v. map val_of v.items ≡ typed int_val values.now valid.now) }
{
    let mut made = Vec::with_capacity(alloc, values.len())?;
    for (i, number) in values.iter().enumerate() {
        made.push(int_cell(i128::from(*number), valid[i]))?;
    }
    Ok(made)
}

fn int_values(alloc: Global, values: &[i128], valid: &[bool]) -> Result<Vec<Value>, NoMemory>
    requires { length valid.now ≡ length values.now }
    ensures { IfOk result (λ v. map val_of v.items ≡ typed int_val values.now valid.now) }
{
    let mut made = Vec::with_capacity(alloc, values.len())?;
    for (i, number) in values.iter().enumerate() {
        made.push(int_cell(*number, valid[i]))?;
    }
    Ok(made)
}

#[tactic(auto, using(crate::proofs::SideLemmas::sided_all))]
pub(crate) fn compared(
    alloc: Global,
    op: Binary,
    values: &[i128],
    literal: i128,
) -> Result<Vec<bool>, NoMemory>
    ensures { IfOk result (λ v. v.items ≡ map (λ z. holds op (int_cmp z literal)) values.now) }
{
    let bits = vec![in alloc; false; values.len()]?;
    Ok(Sides::of(op).write(bits, values, literal))
}

/// The number of a slot and whether it is there, of an integer or a null.
fn int_slot(value: &Value) -> Option<(i128, bool)>
    ensures { IfSome result (λ p. val_of value.now ≡ cond p.1 (int_val p.0) null_val) }
{
    match value {
        Value::Int(number) => Some((*number, true)),
        Value::Null => Some((0, false)),
        _ => None,
    }
}

/// The values as integers, or `None` where one is something else.
pub(crate) fn ints_of(alloc: Global, values: &[Value]) -> Result<Option<Ints>, NoMemory>
    ensures { IfOk result (λ o. IfSome o (λ t. t ≡ map val_of values.now)) }
{
    let mut numbers = Vec::with_capacity(alloc, values.len())?;
    let mut valid = Vec::with_capacity(alloc, values.len())?;
    for value in values {
        match int_slot(value) {
            Some((number, there)) => {
                numbers.push(number)?;
                valid.push(there)?;
            }
            None => return Ok(None),
        }
    }
    let numbers = Kept::of_wide(alloc, numbers)?;
    Ok(Some(Ints::new(numbers, valid)))
}
