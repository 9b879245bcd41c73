// Partitioning over the fields of a struct, after the crate's `layouts/struct_.rs`.
ghost use Rattle.std.specs.Prelude.{◌≡◌, ◌<◌, ◌^◌, ℕ, IfOk, length, []};
ghost use Rattle.scan_values.specs.DataType.{nullability_of};
ghost use Rattle.scan_values.specs.Marked.{Marked};
ghost use Rattle.scan_expr.specs.Infer.{struct_fields, infer};
ghost use Rattle.scan_expr.specs.Bound.{Bound};
ghost use Rattle.scan_partition.specs.Items.{IsExpanded};
ghost use Rattle.scan_partition.specs.Conditions.{IsStruct};
ghost use Rattle.scan_partition.specs.Partable.{IsPartable, ArePartable, PartsPartable};
ghost use Rattle.scan_partition.specs.Had.{AreItemsOf, HasItems, ReadsItemsOf};
ghost use Rattle.scan_partition.specs.Unnumbered.{IsUnnumbered, DividedUnnumbered, SplitUnnumbered};
ghost use Rattle.scan_partition.specs.Divided.{divided, kept, stepped, type_of_part};
ghost use Rattle.scan_partition.specs.Dividing.{GroupsFit};
ghost use Rattle.scan_partition.specs.Expand.{expand};
ghost use Rattle.scan_partition.specs.Partition.{cuts, groups_of, root_of, joined_type};
ghost use Rattle.scan_partition.specs.Rewrite.{NodesHold};
ghost use Rattle.scan_partition.specs.Soles.{item_seen};
ghost use Rattle.scan_partition.specs.Split.{split, split_by_items, KeepsWhole, KeptJoins};

use crate::cuts::{ItemRef, Sole, items_used};
use crate::direct::{DirectProjection, direct_projection};
use crate::divide::{Parting, PartitionedExpr, divide, own_item};
use crate::item::Item;
use crate::parts::item_dtype;
use crate::rewrite::{Rewriting, rewritten};
use crate::rewrites::expand_struct_root;
use scan_expr::BoundExpression;
use scan_values::NoMemory;
use std::alloc::Global;
use std::sync::Arc;

/// An expression over a struct, by the struct's items.
#[derive(Drop)]
pub enum Partitioned {
    /// It only chooses fields, of a struct that is not nullable.
    Direct(DirectProjection),
    /// It uses one item: the item, and the expression over it.
    Single(Item, BoundExpression),
    /// It uses none or several: a part for each, over the item, and the root over the parts.
    Multi(PartitionedExpr),
}

/// The expression over its one item.
fn single(alloc: Global, item: ItemRef, expanded: &BoundExpression) -> Result<Partitioned, NoMemory>
    requires { NodesHold ((stepped expanded.now.scope (item_seen item) expanded.now.expr).scope)
        ((stepped expanded.now.scope (item_seen item) expanded.now.expr).expr) }
    ensures { IfOk result (λ p. p ≡ Partitioned.Single (item_seen item.entry) (stepped expanded.now.scope (item_seen item.entry) expanded.now.expr)) }
{
    let own = own_item(alloc, item)?;
    let dtype = item_dtype(alloc, item, expanded.scope())?;
    let over = Arc::new(alloc, dtype)?;
    let part = rewritten(alloc, Rewriting::StepIn, expanded, &over)?;
    Ok(Partitioned::Single(own, part))
}

/// The expression over no item or several.
fn several(alloc: Global, expanded: &BoundExpression) -> Result<Partitioned, NoMemory>
    requires parts { GroupsFit (stepped expanded.now.scope) (groups_of (cuts expanded.now.expr)) }
    requires root { length (cuts expanded.now.expr) < 2 ^ 64
        → NodesHold (joined_type (type_of_part (stepped expanded.now.scope)) (cuts expanded.now.expr))
        (root_of (cuts expanded.now.expr) [] expanded.now.expr) }
    ensures exact { IfOk result (λ p. p ≡ Partitioned.Multi (divided (stepped expanded.now.scope) expanded.now.expr)) }
    ensures few { IfOk result (λ _. length (cuts expanded.now.expr) < 2 ^ 64) }
{
    Ok(Partitioned::Multi(divide(alloc, Parting::Stepped, expanded)?))
}

/// An expanded expression over a struct, taken apart: each largest part that uses one item goes to that item's part,
/// what uses none stays in the root. Evaluated on one value of the struct, the root over the parts gives the
/// expression's value.
pub fn partition(alloc: Global, expr: &BoundExpression) -> Result<PartitionedExpr, NoMemory>
    requires structure { IsStruct expr.now.scope }
    requires partable { IsPartable expr.now }
    requires expanded { IsExpanded expr.now.expr }
    ensures exact { IfOk result (λ p. p ≡ divided (kept expr.now.scope) expr.now.expr) }
    ensures joined { IfOk result (λ p. KeptJoins expr.now p) }
    ensures again { IfOk result (λ p. ArePartable p.parts) }
    ensures items { IfOk result (λ p. ReadsItemsOf expr.now.scope expr.now.expr → AreItemsOf expr.now.scope p.items) }
    ensures numbers { IfOk result (λ p. IsUnnumbered expr.now → DividedUnnumbered p) }
{
    let _typed = expr.dtype();
    divide(alloc, Parting::Kept, expr)
}

/// An expression over a struct, by the items that it uses.
fn by_items(alloc: Global, expr: &BoundExpression) -> Result<Partitioned, NoMemory>
    requires structure { IsStruct expr.now.scope }
    requires partable { IsPartable expr.now }
    ensures exact { IfOk result (λ p. p ≡ split_by_items expr.now.scope (expand expr.now.scope expr.now.expr)) }
    ensures joined { IfOk result (λ p. KeepsWhole expr.now p) }
{
    let _typed = expr.dtype();
    let expanded = expand_struct_root(alloc, expr)?;
    match items_used(&expanded) {
        Sole::One(item) => single(alloc, item, &expanded),
        Sole::Nothing => several(alloc, &expanded),
        Sole::Many => several(alloc, &expanded),
    }
}

/// An expression over a struct, by the fields that it chooses where it does no more, else by the struct's items, each
/// part over its item. Whatever is read of the fields where the struct is null or lost, the chosen fields, or the
/// parts joined by the root, give the expression's value, and its dtype.
pub fn partition_struct(alloc: Global, expr: &BoundExpression) -> Result<Partitioned, NoMemory>
    requires structure { IsStruct expr.now.scope }
    requires partable { IsPartable expr.now }
    ensures exact { IfOk result (λ p. p ≡ split expr.now.scope expr.now.expr) }
    ensures joined { IfOk result (λ p. KeepsWhole expr.now p) }
    ensures again { IfOk result (λ p. PartsPartable p) }
    ensures items { IfOk result (λ p. HasItems expr.now.scope p) }
    ensures numbers { IfOk result (λ p. IsUnnumbered expr.now → SplitUnnumbered p) }
{
    match direct_projection(alloc, expr)? {
        Some(projection) => Ok(Partitioned::Direct(projection)),
        None => by_items(alloc, expr),
    }
}
