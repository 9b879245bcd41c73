// The parts of an expression that use one item each.
ghost use Rattle.std.specs.Prelude.{◌≡◌, ◌++◌, IfOk, map};
ghost use Rattle.scan_partition.specs.Items.{same_item, both, use_of, or_use, no_use, root_item};
ghost use Rattle.scan_partition.specs.Partition.{cuts, part_cuts};
ghost use Rattle.scan_partition.specs.Soles.{item_seen, sole_of, cut_seen};

use scan_expr::{BoundExpression, BoundNode, Unary};
use scan_values::{FieldName, NoMemory};

/// An item, lent.
#[derive(Clone, Copy)]
pub(crate) enum ItemRef<'a> {
    Field(&'a FieldName),
    Validity,
}

/// The items that an expression uses: none, one or more.
#[derive(Clone, Copy)]
pub(crate) enum Sole<'a> {
    Nothing,
    One(ItemRef<'a>),
    Many,
}

/// A largest part that uses one item.
#[derive(Clone, Copy)]
pub(crate) struct Cut<'a> {
    pub(crate) item: ItemRef<'a>,
    pub(crate) expr: &'a BoundExpression,
}

pub(crate) fn is_same_item(x: ItemRef, y: ItemRef) -> bool
    ensures { result ≡ same_item (item_seen x.entry) (item_seen y.entry) }
{
    match x {
        ItemRef::Field(n) => match y {
            ItemRef::Field(m) => n.same(m),
            ItemRef::Validity => false,
        },
        ItemRef::Validity => match y {
            ItemRef::Field(_) => false,
            ItemRef::Validity => true,
        },
    }
}

/// The items of two expressions.
fn both_soles<'a>(x: Sole<'a>, y: Sole<'a>) -> Sole<'a>
    ensures { sole_of result ≡ both (sole_of x.entry) (sole_of y.entry) }
{
    match x {
        Sole::Nothing => y,
        Sole::One(i) => match y {
            Sole::Nothing => x,
            Sole::One(j) => { if is_same_item(i, j) { x } else { Sole::Many } }
            Sole::Many => Sole::Many,
        },
        Sole::Many => Sole::Many,
    }
}

/// What an operator on `$` uses.
fn sole_at_root(op: &Unary) -> Sole<'_>
    ensures { sole_of result ≡ or_use (root_item op.now) no_use }
{
    match op {
        Unary::GetItem(name) => Sole::One(ItemRef::Field(name)),
        Unary::IsNotNull => Sole::One(ItemRef::Validity),
        _ => Sole::Nothing,
    }
}

/// The items that an expression uses.
pub(crate) fn items_used(expr: &BoundExpression) -> Sole<'_>
    ensures { sole_of result ≡ use_of expr.now.expr }
{
    match expr.node() {
        BoundNode::Unary(op, part) => {
            if part.is_root() {
                sole_at_root(op)
            } else {
                items_used(part)
            }
        }
        BoundNode::Binary(_, x, y) => both_soles(items_used(x), items_used(y)),
        BoundNode::Pack(_, parts, _) => {
            let mut all = Sole::Nothing;
            for part in parts {
                if let Sole::Many = all {
                    return Sole::Many;
                }
                all = both_soles(all, items_used(part));
            }
            all
        }
        _ => Sole::Nothing,
    }
}

/// Adds the largest parts of an expression that use one item, from left to right, and tells the items that it uses.
#[cycle(cutting)]
pub(crate) fn add_cuts<'a>(
    expr: &'a BoundExpression,
    found: &mut Vec<Cut<'a>>,
) -> Result<Sole<'a>, NoMemory>
    ensures used { IfOk result (λ s. sole_of s ≡ use_of expr.now.expr) }
    ensures cuts { IfOk result (λ _. map cut_seen found.new.items ≡ map cut_seen found.old.items ++ cuts expr.now.expr) }
{
    let start = found.len();
    let used = add_part_cuts(expr, found)?;
    match used {
        Sole::One(item) => {
            found.truncate(start);
            found.push(Cut { item, expr })?;
            Ok(used)
        }
        Sole::Nothing => Ok(used),
        Sole::Many => Ok(used),
    }
}

/// Adds those of its parts.
#[cycle(cutting)]
fn add_part_cuts<'a>(
    expr: &'a BoundExpression,
    found: &mut Vec<Cut<'a>>,
) -> Result<Sole<'a>, NoMemory>
    ensures used { IfOk result (λ s. sole_of s ≡ use_of expr.now.expr) }
    ensures cuts { IfOk result (λ _. map cut_seen found.new.items ≡ map cut_seen found.old.items ++ part_cuts expr.now.expr) }
{
    match expr.node() {
        BoundNode::Unary(op, part) => {
            if part.is_root() {
                Ok(sole_at_root(op))
            } else {
                add_cuts(part, found)
            }
        }
        BoundNode::Binary(_, x, y) => {
            let first = add_cuts(x, found)?;
            let second = add_cuts(y, found)?;
            Ok(both_soles(first, second))
        }
        BoundNode::Pack(_, parts, _) => {
            let mut all = Sole::Nothing;
            for part in parts {
                let used = add_cuts(part, found)?;
                all = both_soles(all, used);
            }
            Ok(all)
        }
        _ => Ok(Sole::Nothing),
    }
}
