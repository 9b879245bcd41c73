// Numbers, kept as i64 where each is one, else as i128.
ghost use Rattle.std.specs.Prelude.{◌≡◌, ◌<◌, ◌≤◌, ◌++◌, ◌∷◌, [], slice_range, IfOk, IfSome, Some, map, length, slice_get, false};
ghost use Rattle.std.specs.List.{items_where_true, zip};
ghost use Rattle.std.specs.Ordering.{int_cmp};
ghost use Rattle.scan_expr.specs.Eval.{holds};
ghost use Rattle.scan_expr.specs.declared.op.Binary.{Binary};
ghost use Rattle.scan_columns.specs.Kept.{numbers_in};
ghost use Rattle.scan_columns.specs.Literals.{is_comparison};

use crate::compared::Sides;
use crate::ints::compared;
use crate::slots::{kept, part};
use scan_expr::Binary;
use scan_values::{Mask, NoMemory};
use std::alloc::{AllocError, Global};
use std::ops::Range;

/// Numbers, as narrow as they are kept.
#[derive(Drop)]
pub enum Kept {
    Narrow(Vec<i64>),
    Wide(Vec<i128>),
}

fn wide_of(alloc: Global, numbers: &[i64]) -> Result<Vec<i128>, AllocError>
    ensures { IfOk result (λ v. v.items ≡ numbers.now) }
{
    numbers.iter().map(|n| i128::from(*n)).collect(alloc)
}

/// The numbers as i64, where each is one.
fn narrow_of(alloc: Global, numbers: &[i128]) -> Result<Option<Vec<i64>>, NoMemory>
    ensures { IfOk result (λ o. IfSome o (λ v. v.items ≡ numbers.now)) }
{
    let mut made = Vec::with_capacity(alloc, numbers.len())?;
    for number in numbers {
        let Ok(narrow) = i64::try_from(*number) else {
            return Ok(None);
        };
        made.push(narrow)?;
    }
    Ok(Some(made))
}

impl Kept {
    /// Numbers, as narrow as they can be kept.
    pub fn of_wide(alloc: Global, numbers: Vec<i128>) -> Result<Kept, NoMemory>
        ensures { IfOk result (λ v. numbers_in v ≡ numbers.items) }
    {
        match narrow_of(alloc, &numbers)? {
            Some(narrow) => Ok(Kept::Narrow(narrow)),
            None => Ok(Kept::Wide(numbers)),
        }
    }

    /// The numbers, where they are kept as i64.
    pub fn as_narrow<'a>(&'a self) -> Option<&'a [i64]>
        ensures { IfSome result (λ v. v.now ≡ numbers_in self.entry.now) }
    {
        match self {
            Kept::Narrow(numbers) => Some(numbers.as_slice()),
            Kept::Wide(_) => None,
        }
    }

    /// How many.
    pub fn len(&self) -> usize
        ensures { result ≡ length (numbers_in self.now) }
    {
        match self {
            Kept::Narrow(numbers) => numbers.len(),
            Kept::Wide(numbers) => numbers.len(),
        }
    }

    /// The number at a place.
    pub fn at(&self, i: usize) -> i128
        requires { i < length (numbers_in self.now) }
        ensures { Some result ≡ slice_get (numbers_in self.now) i }
    {
        match self {
            Kept::Narrow(numbers) => i128::from(numbers[i]),
            Kept::Wide(numbers) => numbers[i],
        }
    }

    /// The numbers as i128.
    pub fn widened(self, alloc: Global) -> Result<Vec<i128>, NoMemory>
        ensures { IfOk result (λ v. v.items ≡ numbers_in self) }
    {
        match self {
            Kept::Narrow(numbers) => Ok(wide_of(alloc, &numbers)?),
            Kept::Wide(numbers) => Ok(numbers),
        }
    }

    /// Those at which the mask is true.
    pub fn filter(&self, alloc: Global, m: &Mask) -> Result<Kept, NoMemory>
        requires { length m.now ≡ length (numbers_in self.now) }
        ensures { IfOk result (λ v. numbers_in v ≡ items_where_true m.now (numbers_in self.now)) }
    {
        match self {
            Kept::Narrow(numbers) => Ok(Kept::Narrow(kept(alloc, numbers, m)?)),
            Kept::Wide(numbers) => Ok(Kept::Wide(kept(alloc, numbers, m)?)),
        }
    }

    /// Those of a range of places.
    pub fn slice(&self, alloc: Global, r: Range<usize>) -> Result<Kept, NoMemory>
        requires ordered { r.start ≤ r.end }
        requires within { r.end ≤ length (numbers_in self.now) }
        ensures { IfOk result (λ v. numbers_in v ≡ slice_range (numbers_in self.now) r.start r.end) }
    {
        match self {
            Kept::Narrow(numbers) => Ok(Kept::Narrow(part(alloc, numbers, r.start, r.end)?)),
            Kept::Wide(numbers) => Ok(Kept::Wide(part(alloc, numbers, r.start, r.end)?)),
        }
    }

    /// A copy that equals these.
    pub fn try_clone(&self, alloc: Global) -> Result<Kept, NoMemory>
        ensures { IfOk result (λ v. numbers_in v ≡ numbers_in self.now) }
    {
        match self {
            Kept::Narrow(numbers) => Ok(Kept::Narrow(Vec::from_slice(alloc, numbers)?)),
            Kept::Wide(numbers) => Ok(Kept::Wide(Vec::from_slice(alloc, numbers)?)),
        }
    }

    /// These, and then the others.
    pub fn append(self, alloc: Global, other: &Kept) -> Result<Kept, NoMemory>
        ensures { IfOk result (λ v. numbers_in v ≡ numbers_in self ++ numbers_in other.now) }
    {
        match (self, other) {
            (Kept::Narrow(numbers), Kept::Narrow(others)) => narrow_joined(numbers, others),
            (first, second) => joined(
                first.widened(alloc)?,
                second.try_clone(alloc)?.widened(alloc)?,
            ),
        }
    }

    /// Of each whether it compares so with a number.
    pub fn compare(&self, alloc: Global, op: Binary, literal: i128) -> Result<Vec<bool>, NoMemory>
        ensures { IfOk result (λ v. v.items ≡ map (λ z. holds op (int_cmp z literal)) (numbers_in self.now)) }
    {
        match (self, i64::try_from(literal)) {
            (Kept::Narrow(numbers), Ok(narrow)) => Ok(narrow_compared(alloc, op, numbers, narrow)?),
            _ => {
                let wide = self.try_clone(alloc)?.widened(alloc)?;
                compared(alloc, op, &wide, literal)
            }
        }
    }

    /// Of each pair of these and others whether it compares so, where both are kept as i64.
    #[tactic(auto, using(crate::proofs::SideLemmas::sided_pairs))]
    pub fn compare_each(
        &self,
        alloc: Global,
        op: Binary,
        other: &Kept,
    ) -> Result<Option<Vec<bool>>, NoMemory>
        requires { length (numbers_in other.now) ≡ length (numbers_in self.now) }
        ensures { IfOk result (λ o. IfSome o (λ v. v.items ≡
            map (λ p. holds op (int_cmp p.0 p.1)) (zip (numbers_in self.now) (numbers_in other.now)))) }
    {
        match (self.as_narrow(), other.as_narrow()) {
            (Some(numbers), Some(others)) => {
                let bits = vec![in alloc; false; numbers.len()]?;
                Ok(Some(Sides::of(op).write_each(bits, numbers, others)))
            }
            _ => Ok(None),
        }
    }

    /// These, and then one more.
    pub fn pushed(self, alloc: Global, number: i128) -> Result<Kept, NoMemory>
        ensures { IfOk result (λ v. numbers_in v ≡ numbers_in self ++ number ∷ []) }
    {
        match (self, i64::try_from(number)) {
            (Kept::Narrow(mut numbers), Ok(narrow)) => {
                numbers.push(narrow)?;
                Ok(Kept::Narrow(numbers))
            }
            (numbers, _) => {
                let mut wide = numbers.widened(alloc)?;
                wide.push(number)?;
                Ok(Kept::Wide(wide))
            }
        }
    }
}

fn joined(first: Vec<i128>, second: Vec<i128>) -> Result<Kept, NoMemory>
    ensures { IfOk result (λ v. numbers_in v ≡ first.items ++ second.items) }
{
    let mut made = first;
    made.extend_from_slice(&second)?;
    Ok(Kept::Wide(made))
}

fn equal(alloc: Global, numbers: &[i64], literal: i64) -> Result<Vec<bool>, AllocError>
    ensures { IfOk result (λ v. v.items ≡ map (λ z. holds Binary.Equal (int_cmp z literal)) numbers.now) }
{
    numbers.iter().map(|z| *z == literal).collect(alloc)
}

fn not_equal(alloc: Global, numbers: &[i64], literal: i64) -> Result<Vec<bool>, AllocError>
    ensures { IfOk result (λ v. v.items ≡ map (λ z. holds Binary.NotEqual (int_cmp z literal)) numbers.now) }
{
    numbers.iter().map(|z| *z != literal).collect(alloc)
}

fn less(alloc: Global, numbers: &[i64], literal: i64) -> Result<Vec<bool>, AllocError>
    ensures { IfOk result (λ v. v.items ≡ map (λ z. holds Binary.Less (int_cmp z literal)) numbers.now) }
{
    numbers.iter().map(|z| *z < literal).collect(alloc)
}

fn at_most(alloc: Global, numbers: &[i64], literal: i64) -> Result<Vec<bool>, AllocError>
    ensures { IfOk result (λ v. v.items ≡ map (λ z. holds Binary.LessOrEqual (int_cmp z literal)) numbers.now) }
{
    numbers.iter().map(|z| *z <= literal).collect(alloc)
}

fn greater(alloc: Global, numbers: &[i64], literal: i64) -> Result<Vec<bool>, AllocError>
    ensures { IfOk result (λ v. v.items ≡ map (λ z. holds Binary.Greater (int_cmp z literal)) numbers.now) }
{
    numbers.iter().map(|z| *z > literal).collect(alloc)
}

fn at_least(alloc: Global, numbers: &[i64], literal: i64) -> Result<Vec<bool>, AllocError>
    ensures { IfOk result (λ v. v.items ≡ map (λ z. holds Binary.GreaterOrEqual (int_cmp z literal)) numbers.now) }
{
    numbers.iter().map(|z| *z >= literal).collect(alloc)
}

fn never(alloc: Global, op: Binary, numbers: &[i64], literal: i64) -> Result<Vec<bool>, AllocError>
    requires { is_comparison op ≡ false }
    ensures { IfOk result (λ v. v.items ≡ map (λ z. holds op (int_cmp z literal)) numbers.now) }
{
    numbers.iter().map(|z| no(op, *z, literal)).collect(alloc)
}

/// Of an operator that compares nothing.
fn no(op: Binary, number: i64, literal: i64) -> bool
    requires { is_comparison op ≡ false }
    ensures { result ≡ holds op (int_cmp number literal) }
{
    let _unused = (op, number, literal);
    false
}

fn narrow_compared(
    alloc: Global,
    op: Binary,
    numbers: &[i64],
    literal: i64,
) -> Result<Vec<bool>, AllocError>
    ensures { IfOk result (λ v. v.items ≡ map (λ z. holds op (int_cmp z literal)) numbers.now) }
{
    match op {
        Binary::Equal => equal(alloc, numbers, literal),
        Binary::NotEqual => not_equal(alloc, numbers, literal),
        Binary::Less => less(alloc, numbers, literal),
        Binary::LessOrEqual => at_most(alloc, numbers, literal),
        Binary::Greater => greater(alloc, numbers, literal),
        Binary::GreaterOrEqual => at_least(alloc, numbers, literal),
        Binary::Mask | Binary::And | Binary::Or | Binary::CheckedAdd | Binary::CheckedSub => {
            never(alloc, op, numbers, literal)
        }
    }
}

fn narrow_joined(first: Vec<i64>, second: &[i64]) -> Result<Kept, NoMemory>
    ensures { IfOk result (λ v. numbers_in v ≡ first.items ++ second.now) }
{
    let mut made = first;
    made.extend_from_slice(second)?;
    Ok(Kept::Narrow(made))
}
