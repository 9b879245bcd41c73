// An expression taken apart by its items.
ghost use Rattle.std.specs.Prelude.{◌≡◌, ◌≤◌, ◌<◌, ◌^◌, IfOk, map, length, zip, []};
ghost use Rattle.scan_values.specs.DataType.{struct_type, fields_of, fields_depth};
ghost use Rattle.scan_expr.specs.Bound.{Bound};
ghost use Rattle.scan_partition.specs.Items.{item_name};
ghost use Rattle.scan_partition.specs.Partition.{Group as CutGroup, cuts, groups_of, part_of, root_of, joined_type};
ghost use Rattle.scan_partition.specs.Divided.{group_part, type_of_part, divided};
ghost use Rattle.scan_partition.specs.Dividing.{parting, GroupsFit};
ghost use Rattle.scan_partition.specs.Rewrite.{NodesHold};
ghost use Rattle.scan_partition.specs.Plans.{group_seen};
ghost use Rattle.scan_partition.specs.Soles.{item_seen};

use crate::cuts::{ItemRef, add_cuts};
use crate::groups::{Group, planned};
use crate::item::Item;
use crate::join::joined;
use crate::leaves::{Leaves, name_of};
use crate::parts::{item_dtype, part_over};
use crate::rewrite::Rewriting;
use crate::root::plant;
use scan_expr::{ApplyFault, BoundExpression};
use scan_values::{Array, DType, FieldName, NoMemory, Nullability, StructFields};
use std::alloc::Global;
use std::marker::Model;
use std::sync::Arc;

/// How the part of an item is given.
#[derive(Clone, Copy)]
pub(crate) enum Parting {
    /// Over the struct, as it stands.
    Kept,
    /// Over the item.
    Stepped,
}

/// An expression taken apart: its items in order of first appearance, a part for each, and a root over a struct
/// of the parts' values. After the crate's `layouts/partitioned.rs`.
#[derive(Drop)]
pub struct PartitionedExpr {
    items: Vec<Item>,
    parts: Vec<BoundExpression>,
    root: BoundExpression,
}

impl Model for PartitionedExpr {
    ghost use Rattle.scan_partition.specs.Divided.{Divided, divided_code, IsDivided};

    ghost Value = { Divided };

    ghost coded = { divided_code };

    ghost view = { λ a. record { items = a.items.items; parts = a.parts.items; root = a.root } };

    ghost invariant = { λ a. IsDivided a.items.items a.parts.items a.root };
}

impl PartitionedExpr {
    ghost use Rattle.std.specs.Prelude.{◌≡◌, ◌<◌, length, map, true, false, IfOk, Some, Err, slice_get};
    ghost use Rattle.std.specs.List.{range_with_len};
    ghost use Rattle.scan_values.specs.Val.{marked};
    ghost use Rattle.scan_expr.specs.Infer.{infer};
    ghost use Rattle.scan_partition.specs.Joining.{AreOfParts, joined_at, root_overflows, JoinsWhole};

    /// The items, in order of first appearance. There is a part for each.
    pub fn items(&self) -> &[Item]
        ensures items { result.now ≡ self.now.items }
        ensures even { length self.now.parts ≡ length result.now }
    {
        &self.items
    }

    /// The part of the item of this number.
    pub fn part(&self, i: usize) -> &BoundExpression
        requires { i < length self.now.items }
        ensures { Some result.now ≡ slice_get self.now.parts i }
    {
        &self.parts[i]
    }

    /// The root, over a struct of the parts' values under the items' names.
    pub fn root(&self) -> &BoundExpression
        ensures { result.now ≡ self.now.root }
    {
        &self.root
    }

    /// For each row the root's value, over the struct of the parts' values in that row. Where the parts keep the whole
    /// of an expression, and each was evaluated on what is read of its item, these are the expression's values.
    /// `Overflow` exactly where the root overflows on some row. Condition: one array for each item, of its part's
    /// dtype and of this length.
    pub fn join(&self, alloc: Global, parts: Vec<Array>, len: usize) -> Result<Array, ApplyFault>
        requires { AreOfParts len self.now.parts parts.items }
        ensures dtype { IfOk result (λ a. a.dtype ≡ infer self.now.root.scope self.now.root.expr) }
        ensures items { IfOk result (λ a. map marked a.items ≡ map (joined_at self.now.root parts.items) (range_with_len 0 len)) }
        ensures whole { IfOk result (λ a. JoinsWhole self.now parts.items len a.items) }
        ensures within { IfOk result (λ _. root_overflows self.now.root parts.items len ≡ false) }
        ensures overflow { result ≡ Err ApplyFault.Overflow → root_overflows self.now.root parts.items len ≡ true }
    {
        joined(alloc, &self.root, parts, len)
    }
}

/// An item that is lent, as an own one.
pub(crate) fn own_item(alloc: Global, item: ItemRef) -> Result<Item, NoMemory>
    ensures { IfOk result (λ i. i ≡ item_seen item.entry) }
{
    match item {
        ItemRef::Field(name) => Ok(Item::Field(name.try_clone(alloc)?)),
        ItemRef::Validity => Ok(Item::Validity),
    }
}

/// The part of a group.
fn part_of_group(
    alloc: Global,
    how: Parting,
    group: &Group,
    scope: &Arc<DType>,
) -> Result<BoundExpression, NoMemory>
    requires { NodesHold ((group_part (parting how scope.now.value) (group_seen group.now)).scope)
        ((group_part (parting how scope.now.value) (group_seen group.now)).expr) }
    ensures { IfOk result (λ b. b ≡ group_part (parting how scope.now.value) (group_seen group.now)) }
{
    match how {
        Parting::Kept => part_over(alloc, Rewriting::Keep, &group.parts, scope),
        Parting::Stepped => {
            let dtype = item_dtype(alloc, group.item, scope)?;
            let over = Arc::new(alloc, dtype)?;
            part_over(alloc, Rewriting::StepIn, &group.parts, &over)
        }
    }
}

/// The items, their names, their parts and the parts' dtypes.
#[derive(Drop)]
struct Pieces {
    items: Vec<Item>,
    names: Vec<FieldName>,
    dtypes: Vec<DType>,
    parts: Vec<BoundExpression>,
}

fn pieces_of(
    alloc: Global,
    how: Parting,
    groups: &[Group],
    scope: &Arc<DType>,
) -> Result<Pieces, NoMemory>
    requires { GroupsFit (parting how scope.now.value) (map group_seen groups.now) }
    ensures items { IfOk result (λ p. p.items.items ≡ map (λ (g : CutGroup). g.0) (map group_seen groups.now)) }
    ensures names { IfOk result (λ p. p.names.items ≡ map (λ (g : CutGroup). item_name g.0) (map group_seen groups.now)) }
    ensures dtypes { IfOk result (λ p. p.dtypes.items ≡ map (λ (g : CutGroup). type_of_part
        (parting how scope.now.value) g.0 (part_of g.1)) (map group_seen groups.now)) }
    ensures parts { IfOk result (λ p. p.parts.items ≡ map (group_part (parting how scope.now.value)) (map group_seen groups.now)) }
{
    let mut items = Vec::with_capacity(alloc, groups.len())?;
    let mut names = Vec::with_capacity(alloc, groups.len())?;
    let mut dtypes = Vec::with_capacity(alloc, groups.len())?;
    let mut parts = Vec::with_capacity(alloc, groups.len())?;
    for group in groups {
        let part = part_of_group(alloc, how, group, scope)?;
        let item = own_item(alloc, group.item)?;
        let name = name_of(alloc, group.item)?;
        let dtype = part.dtype().try_clone(alloc)?;
        items.push(item)?;
        names.push(name)?;
        dtypes.push(dtype)?;
        parts.push(part)?;
    }
    Ok(Pieces {
        items,
        names,
        dtypes,
        parts,
    })
}

/// A struct that is known not to be too deep.
pub(crate) fn struct_within(names: Vec<FieldName>, dtypes: Vec<DType>) -> DType
    requires even { length names.items ≡ length dtypes.items }
    requires shallow { fields_depth (fields_of (zip names.items dtypes.items)) ≤ 65 }
    ensures { result ≡ struct_type (fields_of (zip names.items dtypes.items)) Nullability.NonNullable }
{
    match DType::struct_(StructFields::new(names, dtypes), Nullability::NonNullable) {
        Ok(dtype) => dtype,
        Err(_) => unreachable!(),
    }
}

/// An expression taken apart.
pub(crate) fn divide(
    alloc: Global,
    how: Parting,
    expr: &BoundExpression,
) -> Result<PartitionedExpr, NoMemory>
    requires parts { GroupsFit (parting how expr.now.scope) (groups_of (cuts expr.now.expr)) }
    requires root { length (cuts expr.now.expr) < 2 ^ 64 → NodesHold
        (joined_type (type_of_part (parting how expr.now.scope)) (cuts expr.now.expr))
        (root_of (cuts expr.now.expr) [] expr.now.expr) }
    ensures exact { IfOk result (λ p. p ≡ divided (parting how expr.now.scope) expr.now.expr) }
    ensures few { IfOk result (λ _. length (cuts expr.now.expr) < 2 ^ 64) }
{
    let mut found = Vec::new(alloc);
    add_cuts(expr, &mut found)?;
    let plan = planned(alloc, &found)?;
    let pieces = pieces_of(alloc, how, &plan.groups, expr.shared_scope())?;
    let scope = Arc::new(alloc, struct_within(pieces.names, pieces.dtypes))?;
    let leaves = Leaves::over(alloc, &plan, &scope)?;
    let (root, _) = plant(alloc, &leaves, 0, expr)?;
    Ok(PartitionedExpr {
        items: pieces.items,
        parts: pieces.parts,
        root,
    })
}
