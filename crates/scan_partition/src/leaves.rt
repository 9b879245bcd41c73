// Where the root of a partition reads the parts.
ghost use Rattle.std.specs.Prelude.{◌≡◌, IfOk, None, map};
ghost use Rattle.scan_expr.specs.Bound.{bound_of};
ghost use Rattle.scan_expr.specs.Expr.{root, unary};
ghost use Rattle.scan_expr.specs.Typing.{unary_fault};
ghost use Rattle.std.specs.Fmt.{decimal};
ghost use Rattle.scan_partition.specs.Items.{item_name};
ghost use Rattle.scan_partition.specs.Soles.{item_seen};
ghost use Rattle.scan_partition.specs.Plans.{group_seen};
ghost use Rattle.scan_partition.specs.Planted.{item_root};

use crate::cuts::ItemRef;
use crate::expand::{field_root, scope_fields};
use crate::groups::{Leaf, Plan, group_place};
use scan_expr::{BoundExpression, Unary};
use scan_values::{DType, FieldName, NoMemory};
use std::alloc::Global;
use std::string::String;
use std::sync::Arc;

/// The name of an item.
pub(crate) fn name_of(alloc: Global, item: ItemRef) -> Result<FieldName, NoMemory>
    ensures { IfOk result (λ n. n ≡ item_name (item_seen item.entry)) }
{
    match item {
        ItemRef::Field(name) => name.try_clone(alloc),
        ItemRef::Validity => Ok(FieldName::new(String::from_str(alloc, "#validity")?)),
    }
}

/// The name of a numbered part.
pub(crate) fn number_name(alloc: Global, number: usize) -> Result<FieldName, NoMemory>
    ensures { IfOk result (λ n. n ≡ decimal number) }
{
    Ok(FieldName::new(format!(in alloc; "{number}")?))
}

/// `$.item`.
fn item_access(
    alloc: Global,
    scope: &Arc<DType>,
    item: ItemRef,
) -> Result<BoundExpression, NoMemory>
    requires { unary_fault (Unary.GetItem (item_name (item_seen item))) scope.now.value ≡ None }
    ensures { IfOk result (λ b. b ≡ bound_of scope.now.value
        (unary (Unary.GetItem (item_name (item_seen item.entry))) root)) }
{
    field_root(alloc, scope, name_of(alloc, item)?)
}

/// The plan of a root over the struct of the parts' values, with `$.item` for each group.
#[derive(Drop)]
pub(crate) struct Leaves<'p, 'a> {
    pub(crate) plan: &'p Plan<'a>,
    pub(crate) scope: &'p Arc<DType>,
    items: Vec<BoundExpression>,
    ghost made: { items.items ≡ map (item_root scope.now.value) (map group_seen plan.now.groups.items) },
}

impl<'p, 'a> Leaves<'p, 'a> {
    ghost use Rattle.std.specs.Prelude.{◌≡◌, IfOk, Some, map};
    ghost use Rattle.scan_partition.specs.Places.{index_of};
    ghost use Rattle.scan_values.specs.NameFaults.{field_names};
    ghost use Rattle.scan_expr.specs.Bound.{bound_of};
    ghost use Rattle.scan_expr.specs.Infer.{struct_fields};
    ghost use Rattle.scan_partition.specs.Items.{item_name};
    ghost use Rattle.scan_partition.specs.Partition.{Group, found, leaf_of};
    ghost use Rattle.scan_partition.specs.Plans.{group_seen, leaf_seen};
    ghost use Rattle.scan_partition.specs.Leaves.{groups_in, leaves_from, scope_in};
    ghost use Rattle.scan_partition.specs.Soles.{item_seen};
    ghost use Rattle.scan_partition.specs.Rewrite.{NodesHold};

    /// A plan over a struct of a field for each group, in their order.
    pub(crate) fn over(
        alloc: Global,
        plan: &'p Plan<'a>,
        scope: &'p Arc<DType>,
    ) -> Result<Leaves<'p, 'a>, NoMemory>
        requires { field_names (struct_fields scope.now.value) ≡ map (λ (g : Group). item_name g.0) (map group_seen plan.now.groups.items) }
        ensures scope { IfOk result (λ l. scope_in l ≡ scope.entry.now.value) }
        ensures groups { IfOk result (λ l. groups_in l ≡ map group_seen plan.entry.now.groups.items) }
        ensures leaves { IfOk result (λ l. leaves_from 0 l ≡ map leaf_seen plan.entry.now.leaves.items) }
    {
        let items = scope_fields(alloc, scope)?;
        Ok(Leaves { plan, scope, items })
    }

    /// Where the root reads a part.
    pub(crate) fn leaf(&self, alloc: Global, leaf: Leaf) -> Result<BoundExpression, NoMemory>
        requires { NodesHold (scope_in self.now)
            (leaf_of (found (item_seen leaf.item) (groups_in self.now)) (item_seen leaf.item) leaf.number) }
        ensures { IfOk result (λ b. b ≡ bound_of (scope_in self.now)
            (leaf_of (found (item_seen leaf.entry.item) (groups_in self.now)) (item_seen leaf.entry.item) leaf.entry.number)) }
    {
        match group_place(self.plan, leaf.item) {
            Some(place) => self.group_leaf(alloc, leaf, place),
            None => item_access(alloc, self.scope, leaf.item),
        }
    }

    /// The same of an item whose group stands at a place.
    fn group_leaf(
        &self,
        alloc: Global,
        leaf: Leaf,
        place: usize,
    ) -> Result<BoundExpression, NoMemory>
        requires place { Some place ≡ index_of (item_seen leaf.item) (groups_in self.now) }
        requires holds { NodesHold (scope_in self.now)
            (leaf_of (found (item_seen leaf.item) (groups_in self.now)) (item_seen leaf.item) leaf.number) }
        ensures { IfOk result (λ b. b ≡ bound_of (scope_in self.now)
            (leaf_of (found (item_seen leaf.entry.item) (groups_in self.now)) (item_seen leaf.entry.item) leaf.entry.number)) }
    {
        let part = self.items[place].try_clone(alloc)?;
        if self.plan.groups[place].parts.len() <= 1 {
            return Ok(part);
        }
        let name = number_name(alloc, leaf.number)?;
        BoundExpression::unary(alloc, Unary::GetItem(name), part)
    }
}
