// One value, so many times.
ghost use Rattle.std.specs.Prelude.{◌≡◌, ◌<◌, ◌≤◌, ◌-◌, IfOk, IfSome, Some, map, length, replicate, slice_get, slice_range};
ghost use Rattle.std.specs.List.{items_where_true};
ghost use Rattle.scan_values.specs.Values.{val_of};
ghost use Rattle.scan_values.specs.Val.{marked, bool_val, int_val, text_val};
ghost use Rattle.scan_expr.specs.Eval.{is_nothing};
ghost use Rattle.scan_columns.specs.Compared.{compare_val};

use crate::compared::{compared_one, is_null};
use scan_expr::Binary;
use scan_values::{Mask, NoMemory, Value};
use std::alloc::Global;
use std::marker::Model;
use std::ops::Range;

/// One value, so many times.
#[derive(Drop)]
pub struct Constant {
    value: Value,
    len: usize,
}

impl Model for Constant {
    ghost use Rattle.std.specs.Prelude.{List, replicate};
    ghost use Rattle.std.specs.Coded.{coded_list};
    ghost use Rattle.scan_values.specs.Val.{Val, val_code};
    ghost use Rattle.scan_values.specs.Values.{val_of};

    ghost Value = { List Val };

    ghost coded = { coded_list val_code };

    ghost view = { λ a. replicate a.len (val_of a.value) };
}

impl Constant {
    /// The value, `len` times.
    pub fn new(value: Value, len: usize) -> Constant
        ensures { result ≡ replicate len (val_of value) }
    {
        Constant { value, len }
    }

    /// How many.
    pub fn len(&self) -> usize
        ensures { result ≡ length self.now }
    {
        self.len
    }

    /// The value at a place.
    pub fn value(&self, i: usize) -> &Value
        requires { i < length self.now }
        ensures { Some (val_of result.now) ≡ slice_get self.now i }
    {
        let _ = i;
        &self.value
    }

    /// The values.
    pub fn to_values(&self, alloc: Global) -> Result<Vec<Value>, NoMemory>
        ensures { IfOk result (λ v. map val_of v.items ≡ self.now) }
    {
        copies(alloc, &self.value, self.len)
    }

    /// Where there is no value.
    #[tactic(auto, using(crate::proofs::TypedLemmas::replicate_map))]
    pub fn nulls(&self, alloc: Global) -> Result<Mask, NoMemory>
        ensures { IfOk result (λ m. m ≡ map (λ v. is_nothing (marked v)) self.now) }
    {
        if is_null(&self.value) {
            Mask::new_true(alloc, self.len)
        } else {
            Mask::new_false(alloc, self.len)
        }
    }

    /// The number that the value is, where it is one.
    pub fn number(&self) -> Option<i128>
        ensures { IfSome result (λ z. self.now ≡ replicate (length self.now) (int_val z)) }
    {
        match self.value {
            Value::Int(number) => Some(number),
            _ => None,
        }
    }

    /// The truth value that the value is, where it is one.
    pub fn truth(&self) -> Option<bool>
        ensures { IfSome result (λ b. self.now ≡ replicate (length self.now) (bool_val b)) }
    {
        match self.value {
            Value::Bool(bit) => Some(bit),
            _ => None,
        }
    }

    /// The text that the value is, where it is one.
    pub fn text<'a>(&'a self) -> Option<&'a str>
        ensures { IfSome result (λ t. self.entry.now ≡ replicate (length self.entry.now) (text_val t.now)) }
    {
        match &self.value {
            Value::Text(text) => Some(text.as_str()),
            _ => None,
        }
    }

    /// Of each whether it compares so with a number.
    #[tactic(auto, using(crate::proofs::TypedLemmas::constant_compare))]
    pub fn compare(&self, op: Binary, literal: i128) -> Constant
        ensures { result ≡ map (compare_val op literal) self.now }
    {
        Constant::new(compared_one(op, &self.value, literal), self.len)
    }

    /// Those at which the mask is true.
    #[tactic(auto, using(crate::proofs::TypedLemmas::where_constant))]
    pub fn filter(&self, alloc: Global, m: &Mask) -> Result<Constant, NoMemory>
        requires { length m.now ≡ length self.now }
        ensures { IfOk result (λ v. v ≡ items_where_true m.now self.now) }
    {
        let value = self.value.try_clone(alloc)?;
        Ok(Constant::new(value, m.true_count()))
    }

    /// Those of a range of places.
    #[tactic(auto, using(crate::proofs::TypedLemmas::constant_slice))]
    pub fn slice(&self, alloc: Global, r: Range<usize>) -> Result<Constant, NoMemory>
        requires ordered { r.start ≤ r.end }
        requires within { r.end ≤ length self.now }
        ensures { IfOk result (λ v. v ≡ slice_range self.now r.start r.end) }
    {
        let value = self.value.try_clone(alloc)?;
        Ok(Constant::new(value, r.end - r.start))
    }

    /// A copy that equals this one.
    pub fn try_clone(&self, alloc: Global) -> Result<Constant, NoMemory>
        ensures { IfOk result (λ v. v ≡ self.now) }
    {
        let value = self.value.try_clone(alloc)?;
        Ok(Constant::new(value, self.len))
    }
}

fn copies(alloc: Global, value: &Value, len: usize) -> Result<Vec<Value>, NoMemory>
    ensures { IfOk result (λ v. map val_of v.items ≡ replicate len (val_of value.now)) }
{
    let mut made = Vec::with_capacity(alloc, len)?;
    for i in 0..len {
        made.push(value.try_clone(alloc)?)?;
    }
    Ok(made)
}
