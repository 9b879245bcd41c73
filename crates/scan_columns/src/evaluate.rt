// Evaluation of bound expressions over columns.
ghost use Rattle.std.specs.Prelude.{◌≡◌, IfOk, map, length, Err, true, false, All};
ghost use Rattle.std.specs.List.{list_any, range_with_len};
ghost use Rattle.scan_values.specs.Val.{marked};
ghost use Rattle.scan_values.specs.Marked.{is_true};
ghost use Rattle.scan_expr.specs.Expr.{uses_row_index};
ghost use Rattle.scan_expr.specs.Infer.{infer};
ghost use Rattle.scan_expr.specs.Eval.{eval};
ghost use Rattle.scan_expr.specs.Overflow.{overflows_on};
ghost use Rattle.scan_columns.specs.Cells.{vals_in};
ghost use Rattle.scan_columns.specs.Evaluated.{value_in, overflows_in};
ghost use Rattle.scan_columns.specs.Rows.{part_rows, struct_at, bound_in, bound_overflows_in, beside, picked, AreBelow, AreColumnsOf, IsPlaced};
ghost use Rattle.scan_columns.specs.Joined.{AreAsLong, IsScopeOf, joined_at, root_overflows};

use crate::cells::Cells;
use crate::column::Column;
use crate::nodes::{evaluated, field_place};
use crate::parts::cells_of;
use crate::picks::{followed, picked};
use crate::rows::{Rows, structs_of};
use scan_expr::{ApplyFault, BoundExpression, BoundNode};
use scan_values::Mask;
use std::alloc::Global;
use std::sync::Arc;

impl Column {
    /// The values of an expression on the values of the column, as `BoundExpression::apply` has them. `Overflow` where
    /// on some value a sum or a difference is none of its type.
    pub fn evaluate(&self, alloc: Global, expr: &BoundExpression) -> Result<Column, ApplyFault>
        requires scope { self.now.dtype ≡ expr.now.scope }
        requires rows { uses_row_index expr.now.expr ≡ false }
        ensures dtype { IfOk result (λ c. c.dtype ≡ infer expr.now.scope expr.now.expr) }
        ensures items { IfOk result (λ c. map marked c.items ≡
            map (λ v. eval expr.now.scope expr.now.expr (marked v) 0) self.now.items) }
        ensures within { IfOk result (λ _. overflows_on expr.now.scope expr.now.expr self.now.items ≡ false) }
        ensures overflow { result ≡ Err ApplyFault.Overflow →
            overflows_on expr.now.scope expr.now.expr self.now.items ≡ true }
    {
        let given = evaluated(alloc, expr, Rows::Whole(&self.cells))?;
        let cells = given.into_cells(alloc)?;
        let dtype = Arc::new(alloc, expr.dtype().try_clone(alloc)?)?;
        Ok(Column::of_fitting(dtype, cells))
    }

    /// As `evaluate`, of a column that is given away: where the expression is `$`, nothing is copied.
    pub fn evaluate_owned(self, alloc: Global, expr: &BoundExpression) -> Result<Column, ApplyFault>
        requires scope { self.dtype ≡ expr.now.scope }
        requires rows { uses_row_index expr.now.expr ≡ false }
        ensures dtype { IfOk result (λ c. c.dtype ≡ infer expr.now.scope expr.now.expr) }
        ensures items { IfOk result (λ c. map marked c.items ≡
            map (λ v. eval expr.now.scope expr.now.expr (marked v) 0) self.items) }
        ensures within { IfOk result (λ _. overflows_on expr.now.scope expr.now.expr self.items ≡ false) }
        ensures overflow { result ≡ Err ApplyFault.Overflow →
            overflows_on expr.now.scope expr.now.expr self.items ≡ true }
    {
        if expr.is_root() {
            return Ok(self);
        }
        self.evaluate(alloc, expr)
    }

    /// For each value of the column, whether an expression is true on it; no value is made where the result is kept as
    /// bits. `Overflow` where on some value a sum or a difference is none of its type.
    pub fn evaluate_mask(&self, alloc: Global, expr: &BoundExpression) -> Result<Mask, ApplyFault>
        requires scope { self.now.dtype ≡ expr.now.scope }
        requires rows { uses_row_index expr.now.expr ≡ false }
        ensures truths { IfOk result (λ m. m ≡
            map (λ v. is_true (eval expr.now.scope expr.now.expr (marked v) 0)) self.now.items) }
        ensures within { IfOk result (λ _. overflows_on expr.now.scope expr.now.expr self.now.items ≡ false) }
        ensures overflow { result ≡ Err ApplyFault.Overflow →
            overflows_on expr.now.scope expr.now.expr self.now.items ≡ true }
    {
        let given = evaluated(alloc, expr, Rows::Whole(&self.cells))?;
        Ok(given.as_cells().truths(alloc)?)
    }

    /// For each row the root's value, over the struct of the parts' values in that row, which is not made: a field of
    /// the root is the part at its place. `Overflow` exactly where the root overflows on some row. Condition: the root
    /// is over a struct of the parts' dtypes, and each part has this length.
    pub fn evaluate_over(
        alloc: Global,
        root: &BoundExpression,
        parts: Vec<Column>,
        len: usize,
    ) -> Result<Column, ApplyFault>
        requires scope { IsScopeOf parts.items root.now.scope }
        requires length { AreAsLong len parts.items }
        ensures dtype { IfOk result (λ c. c.dtype ≡ infer root.now.scope root.now.expr) }
        ensures items { IfOk result (λ c. map marked c.items ≡
            map (joined_at root.now parts.items) (range_with_len 0 len)) }
        ensures within { IfOk result (λ _. root_overflows root.now parts.items len ≡ false) }
        ensures overflow { result ≡ Err ApplyFault.Overflow → root_overflows root.now parts.items len ≡ true }
    {
        let columns = cells_of(alloc, parts)?;
        let cells = over_columns(alloc, root, columns, len)?;
        let dtype = Arc::new(alloc, root.dtype().try_clone(alloc)?)?;
        Ok(Column::of_fitting(dtype, cells))
    }
}

/// The root over columns: one of them, moved, where the root is a field.
fn over_columns(
    alloc: Global,
    root: &BoundExpression,
    mut columns: Vec<Cells>,
    len: usize,
) -> Result<Cells, ApplyFault>
    requires over { AreColumnsOf root.now.scope len (map vals_in columns.items) }
    ensures items { IfOk result (λ c. vals_in c ≡
        map (value_in root.now.scope root.now.expr) (part_rows (map vals_in columns.items) len)) }
    ensures within { IfOk result (λ _.
        overflows_in root.now.scope root.now.expr (part_rows (map vals_in columns.items) len) ≡ false) }
    ensures overflow { result ≡ Err ApplyFault.Overflow →
        overflows_in root.now.scope root.now.expr (part_rows (map vals_in columns.items) len) ≡ true }
{
    match field_place(root) {
        Some(place) => Ok(columns.swap_remove(place)),
        None => over_node(alloc, root, columns, len),
    }
}

/// The same, of a root that is no field: the parts of a pack that are columns are moved.
fn over_node(
    alloc: Global,
    root: &BoundExpression,
    columns: Vec<Cells>,
    len: usize,
) -> Result<Cells, ApplyFault>
    requires over { AreColumnsOf root.now.scope len (map vals_in columns.items) }
    ensures items { IfOk result (λ c. vals_in c ≡
        map (value_in root.now.scope root.now.expr) (part_rows (map vals_in columns.items) len)) }
    ensures within { IfOk result (λ _.
        overflows_in root.now.scope root.now.expr (part_rows (map vals_in columns.items) len) ≡ false) }
    ensures overflow { result ≡ Err ApplyFault.Overflow →
        overflows_in root.now.scope root.now.expr (part_rows (map vals_in columns.items) len) ≡ true }
{
    match root.node() {
        BoundNode::Pack(_, parts, _) => packed(alloc, parts, columns, len),
        _ => {
            let given = evaluated(alloc, root, Rows::Parts(columns.as_slice(), len))?;
            Ok(given.into_cells(alloc)?)
        }
    }
}

/// The structs of the values of some expressions over columns.
fn packed(
    alloc: Global,
    parts: &[BoundExpression],
    columns: Vec<Cells>,
    len: usize,
) -> Result<Cells, ApplyFault>
    requires { All (λ b. AreColumnsOf b.scope len (map vals_in columns.items)) parts.now }
    ensures items { IfOk result (λ c. vals_in c ≡
        map (struct_at (map (bound_in (part_rows (map vals_in columns.items) len)) parts.now)) (range_with_len 0 len)) }
    ensures within { IfOk result (λ _.
        list_any (bound_overflows_in (part_rows (map vals_in columns.items) len)) parts.now ≡ false) }
    ensures overflow { result ≡ Err ApplyFault.Overflow →
        list_any (bound_overflows_in (part_rows (map vals_in columns.items) len)) parts.now ≡ true }
{
    let (places, made) = each_placed(alloc, parts, columns.as_slice(), len)?;
    let mut all = followed(columns, made)?;
    let cells = picked(alloc, &mut all, places.as_slice())?;
    Ok(structs_of(alloc, cells, len)?)
}

/// The place of each expression's values among the columns and those that are made here, which stand after them.
fn each_placed(
    alloc: Global,
    parts: &[BoundExpression],
    columns: &[Cells],
    len: usize,
) -> Result<(Vec<usize>, Vec<Cells>), ApplyFault>
    requires { All (λ b. AreColumnsOf b.scope len (map vals_in columns.now)) parts.now }
    ensures items { IfOk result (λ r. picked (beside columns.now r.1.items) r.0.items ≡
        map (bound_in (part_rows (map vals_in columns.now) len)) parts.now) }
    ensures below { IfOk result (λ r. AreBelow (length (beside columns.now r.1.items)) r.0.items) }
    ensures within { IfOk result (λ _.
        list_any (bound_overflows_in (part_rows (map vals_in columns.now) len)) parts.now ≡ false) }
    ensures overflow { result ≡ Err ApplyFault.Overflow →
        list_any (bound_overflows_in (part_rows (map vals_in columns.now) len)) parts.now ≡ true }
{
    let mut places = Vec::with_capacity(alloc, parts.len())?;
    let mut made = Vec::new(alloc);
    for part in parts {
        let (place, more) = placed(alloc, part, columns, len, made)?;
        places.push(place)?;
        made = more;
    }
    Ok((places, made))
}

/// The place of an expression's values among the columns and those that are made, to which its own may be added.
fn placed(
    alloc: Global,
    part: &BoundExpression,
    columns: &[Cells],
    len: usize,
    made: Vec<Cells>,
) -> Result<(usize, Vec<Cells>), ApplyFault>
    requires { AreColumnsOf part.now.scope len (map vals_in columns.now) }
    ensures items { IfOk result (λ r. IsPlaced (beside columns.now made.items) (beside columns.now r.1.items) r.0
        (bound_in (part_rows (map vals_in columns.now) len) part.now)) }
    ensures within { IfOk result (λ _. bound_overflows_in (part_rows (map vals_in columns.now) len) part.now ≡ false) }
    ensures overflow { result ≡ Err ApplyFault.Overflow →
        bound_overflows_in (part_rows (map vals_in columns.now) len) part.now ≡ true }
{
    match field_place(part) {
        Some(place) => Ok((place, made)),
        None => {
            let given = evaluated(alloc, part, Rows::Parts(columns, len))?;
            let cells = given.into_cells(alloc)?;
            let place = columns.len() + made.len();
            let mut made = made;
            made.push(cells)?;
            Ok((place, made))
        }
    }
}
