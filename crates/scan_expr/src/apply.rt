// Evaluation of bound expressions, row by row.
ghost use Rattle.std.specs.Prelude.{◌≡◌};

use crate::bound::{BoundExpression, Op};
use crate::evaluate::{Lent, binary_of, unary_of};
use crate::op::ApplyFault;
use scan_values::{Array, Value, Values};
use std::alloc::Global;

impl BoundExpression {
    ghost use Rattle.std.specs.Prelude.{IfOk, ◌≡◌, None, Err, true, false};
    ghost use Rattle.scan_values.specs.Values.{val_of};
    ghost use Rattle.scan_values.specs.Val.{marked};
    ghost use Rattle.scan_expr.specs.Eval.{eval};
    ghost use Rattle.scan_expr.specs.Overflow.{overflows};
    ghost use Rattle.scan_expr.specs.Lending.{lent_val};

    /// The value on a row of this number: lent by the row or by a literal, or made. `Overflow` where a sum or a
    /// difference in it is none of its type.
    pub fn evaluate<'a>(
        &'a self,
        alloc: Global,
        row: &'a Value,
        index: u64,
    ) -> Result<Lent<'a>, ApplyFault>
        ensures value { IfOk result (λ v. marked (lent_val v) ≡
            eval self.entry.now.scope self.entry.now.expr (marked (val_of row.entry.now)) index) }
        ensures within { IfOk result (λ _.
            overflows self.entry.now.scope self.entry.now.expr (marked (val_of row.entry.now)) index ≡ false) }
        ensures overflow { result ≡ Err ApplyFault.Overflow →
            overflows self.entry.now.scope self.entry.now.expr (marked (val_of row.entry.now)) index ≡ true }
    {
        match &self.op {
            Op::Root => Ok(Lent::Held(row)),
            Op::RowIdx => Ok(Lent::Made(Value::Int(index as i128))),
            Op::Literal(_, value) => Ok(Lent::Held(value)),
            Op::Unary(op) => {
                let child = &self.children[0];
                let value = child.evaluate(alloc, row, index)?;
                Ok(unary_of(alloc, op, self.places.as_slice(), child.dtype(), value)?)
            }
            Op::Binary(op) => {
                let first = &self.children[0];
                let second = &self.children[1];
                let x = first.evaluate(alloc, row, index)?;
                let y = second.evaluate(alloc, row, index)?;
                binary_of(*op, self.dtype(), x, y)
            }
            Op::Pack(..) => {
                let mut items = Vec::with_capacity(alloc, self.children.len())?;
                for child in &self.children {
                    items.push(child.evaluate(alloc, row, index)?.into_value(alloc)?)?;
                }
                Ok(Lent::Made(Value::Struct(Values::new(items))))
            }
        }
    }

    /// The value on a row of this number. `Overflow` where a sum or a difference in it is none of its type.
    pub fn value_at(&self, alloc: Global, row: &Value, index: u64) -> Result<Value, ApplyFault>
        ensures value { IfOk result (λ v. marked (val_of v) ≡
            eval self.now.scope self.now.expr (marked (val_of row.now)) index) }
        ensures within { IfOk result (λ _.
            overflows self.now.scope self.now.expr (marked (val_of row.now)) index ≡ false) }
        ensures overflow { result ≡ Err ApplyFault.Overflow →
            overflows self.now.scope self.now.expr (marked (val_of row.now)) index ≡ true }
    {
        let value = self.evaluate(alloc, row, index)?;
        Ok(value.into_value(alloc)?)
    }

    /// As `value_at`, on a row that is given away: what of it is passed on need not be copied.
    pub fn value_of(&self, alloc: Global, row: Value, index: u64) -> Result<Value, ApplyFault>
        ensures value { IfOk result (λ v. marked (val_of v) ≡
            eval self.now.scope self.now.expr (marked (val_of row)) index) }
        ensures within { IfOk result (λ _. overflows self.now.scope self.now.expr (marked (val_of row)) index ≡ false) }
        ensures overflow { result ≡ Err ApplyFault.Overflow →
            overflows self.now.scope self.now.expr (marked (val_of row)) index ≡ true }
    {
        match &self.op {
            Op::Root => Ok(row),
            Op::Unary(op) => {
                let child = &self.children[0];
                let value = Lent::Made(child.value_of(alloc, row, index)?);
                let made = unary_of(alloc, op, self.places.as_slice(), child.dtype(), value)?;
                Ok(made.into_value(alloc)?)
            }
            _ => self.value_at(alloc, &row, index),
        }
    }
}

impl BoundExpression {
    ghost use Rattle.std.specs.Prelude.{IfOk, map, ◌≡◌, Err, true, false};
    ghost use Rattle.scan_values.specs.Val.{marked};
    ghost use Rattle.scan_expr.specs.Expr.{uses_row_index};
    ghost use Rattle.scan_expr.specs.Infer.{infer};
    ghost use Rattle.scan_expr.specs.Eval.{eval};
    ghost use Rattle.scan_expr.specs.Overflow.{overflows_on};

    /// The values on the items of an array. `Overflow` where on some item a sum or a difference is none of its type.
    pub fn apply(&self, alloc: Global, scope: &Array) -> Result<Array, ApplyFault>
        requires scope { scope.now.dtype ≡ self.now.scope }
        requires rows { uses_row_index self.now.expr ≡ false }
        ensures dtype { IfOk result (λ a. a.dtype ≡ infer self.now.scope self.now.expr) }
        ensures items { IfOk result (λ a. map marked a.items ≡
            map (λ v. eval self.now.scope self.now.expr (marked v) 0) scope.now.items) }
        ensures within { IfOk result (λ _. overflows_on self.now.scope self.now.expr scope.now.items ≡ false) }
        ensures overflow { result ≡ Err ApplyFault.Overflow →
            overflows_on self.now.scope self.now.expr scope.now.items ≡ true }
    {
        let rows = scope.as_slice();
        let mut items = Vec::with_capacity(alloc, rows.len())?;
        for row in rows {
            items.push(self.value_at(alloc, row, 0)?)?;
        }
        let dtype = self.dtype().try_clone(alloc)?;
        Ok(Array::of_fitting(dtype, items))
    }
}
