// The rows of a node: what they lack, and what they give.
ghost use Rattle.std.specs.Prelude.{◌≡◌, ◌≤◌, ◌+◌, ◌^◌, ◌||◌, ℕ, List, [], IfOk, length, true, false};
ghost use Rattle.scan_values.specs.Arrays.{ArrayData, of_parts};
ghost use Rattle.scan_values.specs.DataType.{int_type, bool_type};
ghost use Rattle.scan_values.specs.declared.ptype.Nullability.TheVariants.{NonNullable};
ghost use Rattle.scan_values.specs.Fits.{is_struct_type};
ghost use Rattle.scan_values.specs.declared.ptype.PType.{PType};
ghost use Rattle.scan_values.specs.declared.ptype.Nullability.{Nullability};
ghost use Rattle.scan_expr.specs.Expr.{uses_row_index};
ghost use Rattle.scan_plans.specs.PlanTree.{PlanTree, PlanTrees, rows, evaluate, over, constant, numbers, plans, valid};
ghost use Rattle.scan_plans.specs.Came.{Came, came};
ghost use Rattle.scan_plans.specs.Meaning.{Within, AllWithin, true_rows};
ghost use Rattle.scan_plans.specs.Formed.{reads};
ghost use Rattle.scan_columns.specs.Joined.{IsScopeOf, AreAsLong};
ghost use Rattle.scan_plans.specs.Reads.{CollectsPlan, CollectsAll, Reads, ReadsAll, AreValues, AreColumns};

use crate::fault::ReadFault;
use crate::leaf::{collect_leaf, no_values, read_leaf};
use crate::lists::{lists_of, no_lists, read_lengths};
use crate::node::{Kind, PlanNode, PlanNodes};
use scan_columns::Column;
use scan_expr::BoundExpression;
use scan_splits::{Inbox, Wants};
use scan_values::{Array, DType, Mask, NoMemory, Nullability, PType, Value};
use std::alloc::Global;
use std::sync::Arc;

/// The items of an array at the true rows, of the rows from `first` on.
fn read_rows(alloc: Global, array: &Array, first: u64, mask: &Mask) -> Result<Column, ReadFault>
    requires { first + length mask.now ≤ length array.now.items }
    ensures { (here : Came) → Reads (rows array.now.dtype array.now.items) here (true_rows first mask.now) result }
{
    let first = first as usize;
    let end = array.len().min(first + mask.len());
    let part = array.slice(alloc, first..end)?;
    let kept = part.filter(alloc, mask)?;
    Ok(Column::from_array(alloc, kept)?)
}

/// An expression over values.
fn evaluated(alloc: Global, expr: &BoundExpression, column: Column) -> Result<Column, ReadFault>
    requires scope { column.dtype ≡ expr.now.scope }
    requires rows { uses_row_index expr.now.expr ≡ false }
    ensures { (p : PlanTree) (here : Came) (is : List ℕ) → AreValues p here is column →
        Reads (evaluate expr.now.scope expr.now.expr p) here is result }
{
    Ok(column.evaluate_owned(alloc, expr)?)
}

/// An expression over structs of values.
fn joined(
    alloc: Global,
    root: &BoundExpression,
    parts: Vec<Column>,
    len: usize,
) -> Result<Column, ReadFault>
    requires scope { IsScopeOf parts.items root.now.scope }
    requires length { AreAsLong len parts.items }
    requires rows { uses_row_index root.now.expr ≡ false }
    ensures { (ps : PlanTrees) (here : Came) (is : List ℕ) → AreColumns ps here is parts.items → len ≡ length is →
        Reads (over root.now.scope root.now.expr ps) here is result }
{
    Ok(Column::evaluate_over(alloc, root, parts, len)?)
}

/// The value of an expression that reads nothing of its scope, `len` times.
fn repeated(alloc: Global, expr: &BoundExpression, len: usize) -> Result<Column, ReadFault>
    requires reads { reads expr.now.scope expr.now.expr ≡ false }
    requires scope { is_struct_type expr.now.scope ≡ false }
    ensures { (here : Came) (is : List ℕ) → len ≡ length is →
        Reads (constant expr.now.scope expr.now.expr) here is result }
{
    if len == 0 {
        return Ok(no_values(alloc, expr.dtype())?);
    }
    let value = expr.value_at(alloc, &Value::Null, 0)?;
    let dtype = Arc::new(alloc, expr.dtype().try_clone(alloc)?)?;
    Ok(Column::constant(dtype, value, len))
}

/// The numbers of the true rows, of the rows from `first` on, where row 0 has a number.
#[tactic(auto, using(crate::proofs::Numbering::numbers_none))]
fn numbered(alloc: Global, number: u64, first: u64, bits: &[bool]) -> Result<Column, ReadFault>
    requires { number + (first + length bits.now) ≤ 2 ^ 64 }
    ensures { (here : Came) → Reads (numbers number) here (true_rows first bits.now) result }
{
    match number.checked_add(first) {
        Some(from) => Ok(Column::row_numbers(alloc, from, bits)?),
        None => Ok(no_numbers(alloc)?),
    }
}

/// No row numbers.
fn no_numbers(alloc: Global) -> Result<Column, NoMemory>
    ensures { IfOk result (λ c. c ≡ of_parts (int_type PType.U64 Nullability.NonNullable) []) }
{
    no_values(
        alloc,
        &DType::primitive(PType::U64, Nullability::NonNullable),
    )
}

/// Values, null where others are false.
fn validated(alloc: Global, values: &Column, validity: Column) -> Result<Column, ReadFault>
    requires dtype { validity.dtype ≡ bool_type NonNullable }
    requires length { length validity.items ≡ length values.now.items }
    ensures { (p v : PlanTree) (here : Came) (is : List ℕ) → AreValues v here is validity →
        AreValues p here is values.now → Reads (valid p v) here is result }
{
    let validity = validity.to_array(alloc)?;
    let _truths = validity.as_slice();
    let mask = validity.to_mask(alloc)?;
    Ok(values.mask(alloc, &mask)?)
}

impl PlanNode {
    /// Adds the ids of the segments that rows want next and that have not arrived.
    #[cycle(collect)]
    pub(crate) fn collect(
        &self,
        alloc: Global,
        first: u64,
        mask: &Mask,
        inbox: &Inbox,
        wants: &mut Wants,
    ) -> Result<(), ReadFault>
        requires { Within self.now (first + length mask.now) }
        ensures { CollectsPlan wants.old wants.new self.now (came inbox.now) (true_rows first mask.now) result }
    {
        match &self.kind {
            Kind::Leaf(_, _, runs) => collect_leaf(runs, first, mask.as_slice(), inbox, wants),
            Kind::Evaluate(_, node) => node.collect(alloc, first, mask, inbox, wants),
            Kind::Over(_, parts) => parts.collect(alloc, first, mask, inbox, wants),
            Kind::Rows(_) | Kind::Constant(_) | Kind::Numbers(_) => Ok(()),
            Kind::Lists(_, elements, offsets) => {
                match offsets.next(alloc, first, mask, inbox, wants)? {
                    Some(rows) => elements.collect(alloc, rows.first, &rows.mask, inbox, wants),
                    None => Ok(()),
                }
            }
            Kind::Lengths(offsets) => offsets.collect(alloc, first, mask, inbox, wants),
            Kind::Valid(values, validity) => {
                validity.collect(alloc, first, mask, inbox, wants)?;
                values.collect(alloc, first, mask, inbox, wants)
            }
            Kind::ByLengths(_, _, node) => node.collect(alloc, first, mask, inbox, wants),
        }
    }

    /// The values at the true rows, of the rows from `first` on, by what has arrived.
    #[cycle(read)]
    pub(crate) fn read(
        &self,
        alloc: Global,
        first: u64,
        mask: &Mask,
        inbox: &Inbox,
    ) -> Result<Column, ReadFault>
        requires { Within self.now (first + length mask.now) }
        ensures { Reads self.now (came inbox.now) (true_rows first mask.now) result }
    {
        match &self.kind {
            Kind::Leaf(dtype, spelling, runs) => {
                read_leaf(alloc, dtype, *spelling, runs, first, mask.as_slice(), inbox)
            }
            Kind::Rows(array) => read_rows(alloc, array, first, mask),
            Kind::Evaluate(expr, node) => {
                let column = node.read(alloc, first, mask, inbox)?;
                evaluated(alloc, expr, column)
            }
            Kind::Over(root, parts) => {
                let columns = parts.read(alloc, first, mask, inbox)?;
                joined(alloc, root, columns, mask.true_count())
            }
            Kind::Constant(expr) => repeated(alloc, expr, mask.true_count()),
            Kind::Lists(dtype, elements, offsets) => match offsets.whole(
                alloc, first, mask, inbox,
            )? {
                Some(whole) => {
                    let column = elements.read(alloc, whole.rows.first, &whole.rows.mask, inbox)?;
                    lists_of(alloc, dtype, &whole, column)
                }
                None => no_lists(alloc, dtype),
            },
            Kind::Lengths(offsets) => read_lengths(alloc, offsets, first, mask, inbox),
            Kind::Valid(values, validity) => {
                let validity = validity.read(alloc, first, mask, inbox)?;
                let column = values.read(alloc, first, mask, inbox)?;
                validated(alloc, &column, validity)
            }
            Kind::Numbers(number) => numbered(alloc, *number, first, mask.as_slice()),
            Kind::ByLengths(_, over_lengths, node) => {
                let column = node.read(alloc, first, mask, inbox)?;
                evaluated(alloc, over_lengths, column)
            }
        }
    }
}

impl PlanNodes {
    #[cycle(collect)]
    fn collect(
        &self,
        alloc: Global,
        first: u64,
        mask: &Mask,
        inbox: &Inbox,
        wants: &mut Wants,
    ) -> Result<(), ReadFault>
        requires { AllWithin (plans self.now) (first + length mask.now) }
        ensures { CollectsAll wants.old wants.new (plans self.now) (came inbox.now) (true_rows first mask.now) result }
    {
        for node in &self.items {
            node.collect(alloc, first, mask, inbox, wants)?;
        }
        Ok(())
    }

    /// A column for each node.
    #[cycle(read)]
    fn read(
        &self,
        alloc: Global,
        first: u64,
        mask: &Mask,
        inbox: &Inbox,
    ) -> Result<Vec<Column>, ReadFault>
        requires { AllWithin (plans self.now) (first + length mask.now) }
        ensures { ReadsAll (λ v. v.items) (plans self.now) (came inbox.now) (true_rows first mask.now) result }
    {
        let mut columns = Vec::with_capacity(alloc, self.items.len())?;
        for node in &self.items {
            columns.push(node.read(alloc, first, mask, inbox)?)?;
        }
        Ok(columns)
    }
}
