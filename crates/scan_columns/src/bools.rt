// Truth values, kept as bits.
ghost use Rattle.std.specs.Prelude.{◌≡◌, ◌<◌, ◌≤◌, ◌++◌, ◌∷◌, [], slice_range, cond, IfOk, IfSome, Some, map, length, slice_get, ◌||◌, true};
ghost use Rattle.std.specs.List.{items_where_true};
ghost use Rattle.scan_values.specs.Marked.{is_true};
ghost use Rattle.scan_values.specs.Values.{val_of};
ghost use Rattle.scan_values.specs.Val.{marked, null_val, bool_val};
ghost use Rattle.scan_values.specs.Masks.{null_where_false};
ghost use Rattle.scan_expr.specs.Eval.{is_nothing};
ghost use Rattle.scan_spelling.specs.LeafColumns.{is_here};
ghost use Rattle.scan_columns.specs.Typed.{typed, cell};
ghost use Rattle.scan_columns.specs.Evaluated.{not_val, paired};
ghost use Rattle.scan_columns.specs.Literals.{is_comparison, is_logic};
ghost use Rattle.scan_columns.specs.Operands.{pair_val};

use crate::slots::{all_true, both, contrary, kept};
use crate::truths::paired_slots;
use scan_expr::Binary;
use scan_spelling::BoolRun;
use scan_values::{Mask, NoMemory, Value};
use std::alloc::Global;
use std::marker::Model;
use std::ops::Range;

/// Truth values, each with whether it is there.
#[derive(Drop)]
pub struct Bools {
    values: Vec<bool>,
    valid: Vec<bool>,
}

impl Model for Bools {
    ghost use Rattle.std.specs.Prelude.{◌≡◌, List, length};
    ghost use Rattle.std.specs.Coded.{coded_list};
    ghost use Rattle.scan_values.specs.Val.{Val, val_code, bool_val};
    ghost use Rattle.scan_columns.specs.Typed.{typed};

    ghost Value = { List Val };

    ghost coded = { coded_list val_code };

    ghost view = { λ a. typed bool_val a.values.items a.valid.items };

    ghost invariant = { λ a. length a.valid.items ≡ length a.values.items };
}

impl Bools {
    /// These values, null where `valid` is false.
    pub fn new(values: Vec<bool>, valid: Vec<bool>) -> Bools
        requires { length valid.items ≡ length values.items }
        ensures { result ≡ typed bool_val values.items valid.items }
    {
        Bools { values, valid }
    }

    /// How many.
    #[tactic(auto, using(crate::proofs::TypedLemmas::typed_length))]
    pub fn len(&self) -> usize
        ensures { result ≡ length self.now }
    {
        self.values.len()
    }

    /// The value at a place.
    #[tactic(auto, using(crate::proofs::TypedLemmas::typed_length))]
    pub fn value(&self, i: usize) -> Value
        requires { i < length self.now }
        ensures { Some (val_of result) ≡ slice_get self.now i }
    {
        bool_at(self.values.as_slice(), self.valid.as_slice(), i)
    }

    /// The bit of the slot at a place, and whether it is there.
    #[tactic(auto, using(crate::proofs::TypedLemmas::typed_length))]
    pub fn slot(&self, i: usize) -> (bool, bool)
        requires { i < length self.now }
        ensures { Some (cell bool_val result) ≡ slice_get self.now i }
    {
        bool_slot_at(self.values.as_slice(), self.valid.as_slice(), i)
    }

    /// For each whether it is there.
    #[tactic(auto, using(crate::proofs::TypedLemmas::bools_here))]
    pub fn validity(&self) -> &[bool]
        ensures { result.now ≡ map is_here self.now }
    {
        self.valid.as_slice()
    }

    /// The truth values, where all are there.
    #[tactic(auto, using(crate::proofs::KeptLemmas::typed_all))]
    pub fn all_there<'a>(&'a self) -> Option<&'a [bool]>
        ensures { IfSome result (λ bs. map bool_val bs.now ≡ self.entry.now) }
    {
        if all_true(self.valid.as_slice()) {
            Some(self.values.as_slice())
        } else {
            None
        }
    }

    /// The values.
    pub fn to_values(&self, alloc: Global) -> Result<Vec<Value>, NoMemory>
        ensures { IfOk result (λ v. map val_of v.items ≡ self.now) }
    {
        bool_values(alloc, self.values.as_slice(), self.valid.as_slice())
    }

    /// Where there is no value.
    #[tactic(auto, using(crate::proofs::TypedLemmas::bool_nulls))]
    pub fn nulls(&self, alloc: Global) -> Result<Mask, NoMemory>
        ensures { IfOk result (λ m. m ≡ map (λ v. is_nothing (marked v)) self.now) }
    {
        let bits = contrary(alloc, self.valid.as_slice())?;
        Ok(Mask::from_bools(bits))
    }

    /// Those at which the mask is true.
    #[tactic(auto, using(crate::proofs::TypedLemmas::typed_where, crate::proofs::TypedLemmas::where_lengths, crate::proofs::TypedLemmas::typed_length))]
    pub fn filter(&self, alloc: Global, m: &Mask) -> Result<Bools, NoMemory>
        requires { length m.now ≡ length self.now }
        ensures { IfOk result (λ v. v ≡ items_where_true m.now self.now) }
    {
        let values = kept(alloc, self.values.as_slice(), m)?;
        let valid = kept(alloc, self.valid.as_slice(), m)?;
        Ok(Bools::new(values, valid))
    }

    /// These, null where the mask is false.
    #[tactic(auto, using(crate::proofs::TypedLemmas::typed_mask, crate::proofs::TypedLemmas::both_lengths, crate::proofs::TypedLemmas::typed_length))]
    pub fn mask(&self, alloc: Global, m: &Mask) -> Result<Bools, NoMemory>
        requires { length m.now ≡ length self.now }
        ensures { IfOk result (λ v. v ≡ null_where_false m.now self.now) }
    {
        let values = Vec::from_slice(alloc, self.values.as_slice())?;
        let valid = both(alloc, self.valid.as_slice(), m.as_slice())?;
        Ok(Bools::new(values, valid))
    }

    /// Those of a range of places.
    #[tactic(auto, using(crate::proofs::TypedLemmas::typed_slice, crate::proofs::TypedLemmas::typed_length))]
    pub fn slice(&self, alloc: Global, r: Range<usize>) -> Result<Bools, NoMemory>
        requires ordered { r.start ≤ r.end }
        requires within { r.end ≤ length self.now }
        ensures { IfOk result (λ v. v ≡ slice_range self.now r.start r.end) }
    {
        let values = Vec::from_slice(alloc, &self.values[r.start..r.end])?;
        let valid = Vec::from_slice(alloc, &self.valid[r.start..r.end])?;
        Ok(Bools::new(values, valid))
    }

    /// These, and then the others.
    #[tactic(auto, using(crate::proofs::TypedLemmas::typed_append))]
    pub fn append(self, other: &Bools) -> Result<Bools, NoMemory>
        ensures { IfOk result (λ v. v ≡ self ++ other.now) }
    {
        let Bools {
            mut values,
            mut valid,
        } = self;
        values.extend_from_slice(other.values.as_slice())?;
        valid.extend_from_slice(other.valid.as_slice())?;
        Ok(Bools::new(values, valid))
    }

    /// These, and then those of a run.
    #[tactic(auto, using(crate::proofs::KeptLemmas::none_before))]
    pub fn extend(self, run: BoolRun) -> Result<Bools, NoMemory>
        ensures { IfOk result (λ v. v ≡ self ++ run) }
    {
        let (bits, valid) = run.into_parts();
        let more = Bools::new(bits, valid);
        if self.len() == 0 {
            Ok(more)
        } else {
            self.append(&more)
        }
    }

    /// A copy that equals this one.
    pub fn try_clone(&self, alloc: Global) -> Result<Bools, NoMemory>
        ensures { IfOk result (λ v. v ≡ self.now) }
    {
        let values = Vec::from_slice(alloc, self.values.as_slice())?;
        let valid = Vec::from_slice(alloc, self.valid.as_slice())?;
        Ok(Bools::new(values, valid))
    }
}

impl Bools {
    /// What an operator makes of each pair of these and others.
    #[tactic(auto, using(crate::proofs::TypedLemmas::typed_length))]
    pub fn pair(&self, alloc: Global, op: Binary, other: &Bools) -> Result<Bools, NoMemory>
        requires kind { (is_comparison op || is_logic op) ≡ true }
        requires even { length other.now ≡ length self.now }
        ensures { IfOk result (λ v. v ≡ paired (pair_val op) self.now other.now) }
    {
        let bits = vec![in alloc; false; self.len()]?;
        let valid = vec![in alloc; false; self.len()]?;
        Ok(pairs_written(
            op,
            bits,
            valid,
            self.values.as_slice(),
            self.valid.as_slice(),
            other.values.as_slice(),
            other.valid.as_slice(),
        ))
    }

    /// These truth values, each there.
    #[tactic(auto, using(crate::proofs::KernelLemmas::typed_full))]
    pub fn of_bits(alloc: Global, bits: Vec<bool>) -> Result<Bools, NoMemory>
        ensures { IfOk result (λ v. v ≡ map bool_val bits.items) }
    {
        let valid = vec![in alloc; true; bits.len()]?;
        Ok(Bools::new(bits, valid))
    }

    /// Of each the contrary.
    #[tactic(auto, using(crate::proofs::KernelLemmas::typed_not, crate::proofs::KernelLemmas::not_length))]
    pub fn negated(&self, alloc: Global) -> Result<Bools, NoMemory>
        ensures { IfOk result (λ v. v ≡ map not_val self.now) }
    {
        let values = contrary(alloc, self.values.as_slice())?;
        let valid = Vec::from_slice(alloc, self.valid.as_slice())?;
        Ok(Bools::new(values, valid))
    }

    /// Where the value is true.
    #[tactic(auto, using(crate::proofs::TypedLemmas::bool_truths))]
    pub fn truths(&self, alloc: Global) -> Result<Mask, NoMemory>
        ensures { IfOk result (λ m. m ≡ map (λ v. is_true (marked v)) self.now) }
    {
        let bits = both(alloc, self.values.as_slice(), self.valid.as_slice())?;
        Ok(Mask::from_bools(bits))
    }
}

/// What an operator makes of each pair of slots, written over others.
fn pairs_written(
    op: Binary,
    bits: Vec<bool>,
    valid: Vec<bool>,
    x: &[bool],
    x_valid: &[bool],
    y: &[bool],
    y_valid: &[bool],
) -> Bools
    requires kind { (is_comparison op || is_logic op) ≡ true }
    requires length { length valid.items ≡ length bits.items }
    requires first { length x.now ≡ length bits.items }
    requires first_valid { length x_valid.now ≡ length bits.items }
    requires second { length y.now ≡ length bits.items }
    requires second_valid { length y_valid.now ≡ length bits.items }
    ensures { result ≡ paired (pair_val op) (typed bool_val x.now x_valid.now) (typed bool_val y.now y_valid.now) }
{
    let mut bits = bits;
    let mut valid = valid;
    for i in 0..bits.len() {
        let (bit, there) = paired_slots(op, (x[i], x_valid[i]), (y[i], y_valid[i]));
        bits[i] = bit;
        valid[i] = there;
    }
    Bools::new(bits, valid)
}

fn bool_cell(b: bool, valid: bool) -> Value
    ensures { val_of result ≡ cond valid (bool_val b) null_val }
{
    if valid { Value::Bool(b) } else { Value::Null }
}

fn bool_at(values: &[bool], valid: &[bool], i: usize) -> Value
    requires place { i < length values.now }
    requires even { length valid.now ≡ length values.now }
    ensures { Some (val_of result) ≡ slice_get (typed bool_val values.now valid.now) i }
{
    bool_cell(values[i], valid[i])
}

fn bool_slot_at(values: &[bool], valid: &[bool], i: usize) -> (bool, bool)
    requires place { i < length values.now }
    requires even { length valid.now ≡ length values.now }
    ensures { Some (cell bool_val result) ≡ slice_get (typed bool_val values.now valid.now) i }
{
    (values[i], valid[i])
}

fn bool_values(alloc: Global, values: &[bool], valid: &[bool]) -> Result<Vec<Value>, NoMemory>
    requires { length valid.now ≡ length values.now }
    ensures { IfOk result (λ v. map val_of v.items ≡ typed bool_val values.now valid.now) }
{
    let mut made = Vec::with_capacity(alloc, values.len())?;
    for (i, b) in values.iter().enumerate() {
        made.push(bool_cell(*b, valid[i]))?;
    }
    Ok(made)
}

/// The bit of a slot and whether it is there, of a truth value or a null.
fn bool_slot(value: &Value) -> Option<(bool, bool)>
    ensures { IfSome result (λ p. val_of value.now ≡ cond p.1 (bool_val p.0) null_val) }
{
    match value {
        Value::Bool(bit) => Some((*bit, true)),
        Value::Null => Some((false, false)),
        _ => None,
    }
}

/// The values as truth values, or `None` where one is something else.
pub(crate) fn bools_of(alloc: Global, values: &[Value]) -> Result<Option<Bools>, NoMemory>
    ensures { IfOk result (λ o. IfSome o (λ t. t ≡ map val_of values.now)) }
{
    let mut bits = Vec::with_capacity(alloc, values.len())?;
    let mut valid = Vec::with_capacity(alloc, values.len())?;
    for value in values {
        match bool_slot(value) {
            Some((bit, there)) => {
                bits.push(bit)?;
                valid.push(there)?;
            }
            None => return Ok(None),
        }
    }
    Ok(Some(Bools::new(bits, valid)))
}
