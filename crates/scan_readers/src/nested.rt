// Readers of structs and of lists.
ghost use Rattle.std.specs.Prelude.{◌≡◌, ◌<◌, IfOk, OnOk, OnErr, Some, None, [], ◌∷◌, false, map, option_map, replicate, unwrap_or};
ghost use Rattle.scan_values.specs.DataType.{Name, nullability_of};
ghost use Rattle.scan_expr.specs.Bound.{Bound};
ghost use Rattle.scan_expr.specs.Expr.{uses_row_index};
ghost use Rattle.scan_expr.specs.Infer.{struct_fields};
ghost use Rattle.scan_layout.specs.Layout.{kids_of, kind_of, dtype_of, rows_of, count};
ghost use Rattle.scan_layout.specs.Slots.{nth_kid, one_where, is_list_kind};
ghost use Rattle.scan_layout.specs.declared.node.LayoutKind.TheVariants.{Struct as StructKind};
ghost use Rattle.scan_partition.specs.Lists.{necessary};
ghost use Rattle.scan_partition.specs.Partable.{IsPartable};
ghost use Rattle.scan_plans.specs.PlanData.{plan_data};
ghost use Rattle.scan_readers.specs.KindView.{layout_of, leaf_of, made_of, made_in, IsOf};
ghost use Rattle.scan_readers.specs.LeafPlans.{layout_state, is_leaf};
ghost use Rattle.scan_readers.specs.Made.{none_made, nth_made, set_made, made_or_none, width};
ghost use Rattle.scan_readers.specs.PlanOf.{IsPlanOf};
ghost use Rattle.scan_readers.specs.ListKids.{IsList, HasLeaf, IsValidityOf, AreLeavesOf};
ghost use Rattle.scan_readers.specs.Reached.{elements_part, list_parts};
ghost use Rattle.scan_readers.specs.Reached.{item_child, item_parts, field_part, child_parts, reached, MakesWithin, MakesAll};
ghost use Rattle.scan_readers.specs.StructData.{struct_data, IsReadable};
ghost use Rattle.scan_readers.specs.StructPlans.{IsOverChild, AreOverChildren, IsParted, IsPartPlan, ArePartPlans, IsPartedPlan, Asks, AsksAll};

use crate::kind::ReaderKind;
use crate::leaf::LeafReader;
use crate::list::{
    ListLeaves, all_node, lengths_node, never_null_node, nulls_node, valid_all_node,
    valid_lengths_node,
};
use scan_expr::BoundExpression;
use scan_layout::{LayoutKind, LayoutNode, LayoutRef};
use scan_partition::{
    DirectProjection, Item, ListChildrenNeeded, Partitioned, PartitionedExpr, necessary_children,
    partition_struct,
};
use scan_plans::{PlanNode, PlanNodes};
use scan_values::{FieldName, NoMemory, Nullability};
use std::alloc::Global;
use std::marker::Model;
use std::rc::Rc;

/// A reader of a struct or of a list, whose children are made at first use. Contracts see its layout, and what is made.
#[cycle(reader)]
#[derive(Drop)]
pub(crate) struct NestedReader {
    layout: LayoutRef,
    children: Vec<Option<ReaderKind>>,
}

impl Model for NestedReader {
    ghost use Rattle.scan_readers.specs.StructData.{StructData, struct_data, struct_code};
    ghost use Rattle.scan_readers.specs.Made.{made_size};

    ghost Value = { StructData };

    ghost coded = { struct_code };

    ghost use Rattle.scan_readers.specs.KindView.{all_made, IsNestedReader};

    ghost view = { λ a. struct_data a.layout.value (all_made a.children.items) };

    ghost invariant = { λ a. IsNestedReader a.layout.value a.children.items };

    ghost size = { λ v. made_size v.made };

    ghost use Rattle.scan_readers.specs.KindFalls.{most_made};
    ghost use Rattle.std.proofs.Common.{arith};

    ghost size_decreases = { λ a h. most_made _ (Prim.omega arith) (λ k. Prim.omega arith) a.children.items };
}

// Places for so many children, of which none is made.
#[tactic(auto, using(crate::proofs::Making::none_more))]
fn unmade(alloc: Global, count: usize) -> Result<Vec<Option<ReaderKind>>, NoMemory>
    ensures { IfOk result (λ v. v.items ≡ replicate count None) }
{
    let mut children = Vec::with_capacity(alloc, count)?;
    for _place in 0..count {
        children.push(None)?;
    }
    Ok(children)
}

// The layout of the child of an index.
fn child_layout(layout: &LayoutRef, index: usize) -> &LayoutRef
    requires { index < count (kids_of layout.now.value) }
    ensures { nth_kid (kids_of layout.now.value) index ≡ Some result.now.value }
{
    &layout.children.as_slice()[index]
}

// A child of this layout, which is made where it is not.
fn made_child(
    alloc: Global,
    child: Option<ReaderKind>,
    layout: &LayoutRef,
) -> Result<ReaderKind, NoMemory>
    requires readable { IsReadable layout.now.value }
    requires of { IsOf layout.now.value child }
    ensures layout { IfOk result (λ k. layout_of k ≡ layout.now.value) }
    ensures made { IfOk result (λ k. made_of k ≡ made_or_none (made_in child) layout.now.value) }
    ensures none { OnErr result (child ≡ None) }
{
    match child {
        Some(child) => Ok(child),
        None => ReaderKind::of_layout(alloc, layout),
    }
}

impl NestedReader {
    /// A reader of a struct or of a list, of whose children none is made.
    pub(crate) fn new(alloc: Global, layout: &LayoutRef) -> Result<NestedReader, NoMemory>
        requires readable { IsReadable layout.now.value }
        requires nested { is_leaf layout.now.value ≡ false }
        ensures { IfOk result (λ r. r ≡ struct_data layout.now.value (none_made layout.now.value)) }
    {
        let children = unmade(alloc, layout.children.as_slice().len())?;
        match Rc::clone(layout) {
            Ok(layout) => Ok(NestedReader { layout, children }),
            Err(_) => Err(NoMemory),
        }
    }

    /// The struct or the list.
    pub(crate) fn layout(&self) -> &LayoutRef
        ensures layout { result.now.value ≡ self.now.layout }
        ensures readable { IsReadable self.now.layout }
        ensures nested { is_leaf self.now.layout ≡ false }
    {
        &self.layout
    }

    /// The child of an index, where it is made.
    pub(crate) fn child(&self, index: usize) -> Option<&ReaderKind>
        ensures { option_map (λ k. made_of k.now) result ≡ nth_made self.now.made index }
    {
        match self.children.get(index) {
            Some(child) => child.as_ref(),
            None => None,
        }
    }

    /// Whether it is a list.
    fn is_list(&self) -> bool
        ensures { result ≡ is_list_kind (kind_of self.now.layout) }
    {
        let node: &LayoutNode = &self.layout;
        match &node.kind {
            LayoutKind::List(_) => true,
            LayoutKind::Struct => false,
            LayoutKind::Leaf(_, _) => false,
        }
    }

    /// Whether its rows may be null.
    fn nullability(&self) -> Nullability
        ensures { result ≡ nullability_of (dtype_of self.now.layout) }
    {
        self.layout.dtype().nullability()
    }

    /// Where the children of fields begin.
    fn first_field(&self) -> usize
        ensures { result ≡ one_where (nullability_of (dtype_of self.now.layout)) }
    {
        match self.layout.dtype().nullability() {
            Nullability::NonNullable => 0,
            Nullability::Nullable => 1,
        }
    }

    /// The index of the child of a field.
    fn field_index(&self, name: &FieldName) -> usize
        ensures { result ≡ unwrap_or (item_child (struct_fields (dtype_of self.now.layout))
            (nullability_of (dtype_of self.now.layout)) (Item.Field name.now)) 0 }
    {
        match self.layout.dtype().as_struct_fields_opt() {
            Some(fields) => {
                let _count = fields.nfields();
                match fields.find(name) {
                    Some(place) => self.first_field() + place,
                    None => 0,
                }
            }
            None => 0,
        }
    }

    /// The index of the child of an item.
    fn item_index(&self, item: &Item) -> usize
        ensures { result ≡ unwrap_or (item_child (struct_fields (dtype_of self.now.layout))
            (nullability_of (dtype_of self.now.layout)) item.now) 0 }
    {
        match item {
            Item::Field(name) => self.field_index(name),
            Item::Validity => 0,
        }
    }

    /// Takes out the child of an index, which is made where it was not.
    fn take_child(&mut self, alloc: Global, index: usize) -> Result<ReaderKind, NoMemory>
        requires { index < count (kids_of self.old.layout) }
        ensures layout { self.new.layout ≡ self.old.layout }
        ensures wide { index < width self.old.made }
        ensures child { IfOk result (λ k. nth_kid (kids_of self.old.layout) index ≡ Some (layout_of k)) }
        ensures readable { IfOk result (λ k. IsReadable (layout_of k)) }
        ensures own { IfOk result (λ k. made_of k ≡ made_or_none (nth_made self.old.made index) (layout_of k)) }
        ensures out { OnOk result (self.new.made ≡ set_made self.old.made index None) }
        ensures kept { OnErr result (self.new.made ≡ self.old.made) }
    {
        let child = self.children[index].take();
        made_child(alloc, child, child_layout(&self.layout, index))
    }

    /// Puts back the child of an index.
    fn put_child(&mut self, index: usize, child: ReaderKind)
        requires { nth_kid (kids_of self.old.layout) index ≡ Some (layout_of child) }
        ensures { self.new ≡ struct_data self.old.layout (set_made self.old.made index (Some (made_of child))) }
    {
        self.children[index] = Some(child);
    }

    /// The node of an expression over the child of an index.
    #[cycle(planning)]
    fn child_node(
        &mut self,
        alloc: Global,
        index: usize,
        expr: &BoundExpression,
    ) -> Result<PlanNode, NoMemory>
        requires { IsOverChild self.old.layout (index, expr.now) }
        ensures asks { Asks ((index, expr.now) ∷ []) self.old self.new }
        ensures all { IfOk result (λ _. AsksAll ((index, expr.now) ∷ []) self.old self.new) }
        ensures plan { IfOk result (IsPartPlan (kids_of self.old.layout) (index, expr.now)) }
    {
        let mut child = self.take_child(alloc, index)?;
        let node = child.node(alloc, expr);
        self.put_child(index, child);
        node
    }

    /// The node of `$` over the child of the field at a place.
    #[cycle(planning)]
    fn field_node(&mut self, alloc: Global, place: usize) -> Result<PlanNode, NoMemory>
        requires { IsOverChild self.old.layout (field_part (dtype_of self.old.layout) place) }
        ensures asks { Asks (field_part (dtype_of self.old.layout) place ∷ []) self.old self.new }
        ensures all { IfOk result (λ _. AsksAll (field_part (dtype_of self.old.layout) place ∷ []) self.old self.new) }
        ensures plan { IfOk result (IsPartPlan (kids_of self.old.layout) (field_part (dtype_of self.old.layout) place)) }
    {
        let index = self.first_field() + place;
        let dtype = child_layout(&self.layout, index).dtype();
        let root = BoundExpression::new_root(alloc, dtype.try_clone(alloc)?)?;
        self.child_node(alloc, index, &root)
    }

    /// The nodes of fields.
    #[cycle(planning)]
    fn field_nodes(&mut self, alloc: Global, places: &[usize]) -> Result<Vec<PlanNode>, NoMemory>
        requires { AreOverChildren self.old.layout (map (field_part (dtype_of self.old.layout)) places.now) }
        ensures asks { Asks (map (field_part (dtype_of self.old.layout)) places.now) self.old self.new }
        ensures all { IfOk result (λ _. AsksAll (map (field_part (dtype_of self.old.layout)) places.now) self.old self.new) }
        ensures plans { IfOk result (λ ns. ArePartPlans (kids_of self.old.layout)
            (map (field_part (dtype_of self.old.layout)) places.now) ns.items) }
    {
        let mut nodes = Vec::with_capacity(alloc, places.len())?;
        for place in places {
            nodes.push(self.field_node(alloc, *place)?)?;
        }
        Ok(nodes)
    }

    /// The node of an expression that only chooses fields.
    #[cycle(planning)]
    fn chosen_node(
        &mut self,
        alloc: Global,
        expr: &BoundExpression,
        chosen: &DirectProjection,
    ) -> Result<PlanNode, NoMemory>
        requires { IsParted self.old.layout expr.now (Partitioned.Direct chosen.now) }
        ensures asks { Asks (child_parts expr.now.scope (Partitioned.Direct chosen.now)) self.old self.new }
        ensures all { IfOk result (λ _.
            AsksAll (child_parts expr.now.scope (Partitioned.Direct chosen.now)) self.old self.new) }
        ensures plan { IfOk result
            (IsPartedPlan (kids_of self.old.layout) expr.now (Partitioned.Direct chosen.now)) }
    {
        let root = BoundExpression::new_root(alloc, expr.dtype().try_clone(alloc)?)?;
        let nodes = self.field_nodes(alloc, chosen.fields())?;
        Ok(PlanNode::over(root, PlanNodes::new(nodes)))
    }

    /// The nodes of the parts of an expression.
    #[cycle(planning)]
    fn part_nodes(
        &mut self,
        alloc: Global,
        parts: &PartitionedExpr,
    ) -> Result<Vec<PlanNode>, NoMemory>
        requires { AreOverChildren self.old.layout
            (item_parts (dtype_of self.old.layout) parts.now.items parts.now.parts) }
        ensures asks { Asks (item_parts (dtype_of self.old.layout) parts.now.items parts.now.parts) self.old self.new }
        ensures all { IfOk result (λ _.
            AsksAll (item_parts (dtype_of self.old.layout) parts.now.items parts.now.parts) self.old self.new) }
        ensures plans { IfOk result (λ ns. ArePartPlans (kids_of self.old.layout)
            (item_parts (dtype_of self.old.layout) parts.now.items parts.now.parts) ns.items) }
    {
        let items = parts.items();
        let mut nodes = Vec::with_capacity(alloc, items.len())?;
        for i in 0..items.len() {
            let index = self.item_index(&items[i]);
            nodes.push(self.child_node(alloc, index, parts.part(i))?)?;
        }
        Ok(nodes)
    }

    /// The node of an expression by its root over its parts.
    #[cycle(planning)]
    fn joined_node(
        &mut self,
        alloc: Global,
        expr: &BoundExpression,
        parts: &PartitionedExpr,
    ) -> Result<PlanNode, NoMemory>
        requires { IsParted self.old.layout expr.now (Partitioned.Multi parts.now) }
        ensures asks { Asks (child_parts expr.now.scope (Partitioned.Multi parts.now)) self.old self.new }
        ensures all { IfOk result (λ _.
            AsksAll (child_parts expr.now.scope (Partitioned.Multi parts.now)) self.old self.new) }
        ensures plan { IfOk result
            (IsPartedPlan (kids_of self.old.layout) expr.now (Partitioned.Multi parts.now)) }
    {
        let root = parts.root().try_clone(alloc)?;
        let nodes = self.part_nodes(alloc, parts)?;
        Ok(PlanNode::over(root, PlanNodes::new(nodes)))
    }

    /// The node of an expression that is parted.
    #[cycle(planning)]
    fn parted_node(
        &mut self,
        alloc: Global,
        expr: &BoundExpression,
        parted: &Partitioned,
    ) -> Result<PlanNode, NoMemory>
        requires { IsParted self.old.layout expr.now parted.now }
        ensures asks { Asks (child_parts expr.now.scope parted.now) self.old self.new }
        ensures all { IfOk result (λ _. AsksAll (child_parts expr.now.scope parted.now) self.old self.new) }
        ensures plan { IfOk result (IsPartedPlan (kids_of self.old.layout) expr.now parted.now) }
    {
        match parted {
            Partitioned::Direct(chosen) => self.chosen_node(alloc, expr, chosen),
            Partitioned::Single(item, part) => {
                let index = self.item_index(item);
                self.child_node(alloc, index, part)
            }
            Partitioned::Multi(parts) => self.joined_node(alloc, expr, parts),
        }
    }

    /// The node of an expression over a struct.
    #[cycle(planning)]
    fn struct_node(&mut self, alloc: Global, expr: &BoundExpression) -> Result<PlanNode, NoMemory>
        requires kind { kind_of self.old.layout ≡ StructKind }
        requires scope { expr.now.scope ≡ dtype_of self.old.layout }
        requires bound { IsPartable expr.now }
        requires rows { uses_row_index expr.now.expr ≡ false }
        ensures same { self.new.layout ≡ self.old.layout }
        ensures within { MakesWithin (reached self.old.layout expr.now) self.old.made self.new.made }
        ensures all { IfOk result (λ _. MakesAll (reached self.old.layout expr.now) self.old.made self.new.made) }
        ensures plan { IfOk result (λ n. (name : Name) →
            IsPlanOf (layout_state name self.old.layout) expr.now (plan_data expr.now n)) }
    {
        let _own = self.layout();
        let parted = partition_struct(alloc, expr)?;
        self.parted_node(alloc, expr, &parted)
    }

    /// The leaf that the child of an index is, which is made where it is not.
    fn child_leaf(&mut self, alloc: Global, index: usize) -> Result<LeafReader, NoMemory>
        requires { HasLeaf self.old.layout index }
        ensures asks { (e : Bound) → Asks ((index, e) ∷ []) self.old self.new }
        ensures all { (e : Bound) → IfOk result (λ _. AsksAll ((index, e) ∷ []) self.old self.new) }
        ensures leaf { IfOk result (λ r. nth_kid (kids_of self.old.layout) index ≡ Some (leaf_of r)) }
    {
        let child = self.take_child(alloc, index)?;
        let leaf = child.leaf();
        self.put_child(index, child);
        leaf
    }

    /// The leaf of a list's validity, where the list may be null.
    fn validity_leaf(&mut self, alloc: Global) -> Result<Option<LeafReader>, NoMemory>
        requires { IsList self.old.layout }
        ensures asks { Asks (list_parts self.old.layout ListChildrenNeeded.Validity) self.old self.new }
        ensures all { IfOk result (λ _.
            AsksAll (list_parts self.old.layout ListChildrenNeeded.Validity) self.old self.new) }
        ensures leaf { IfOk result (IsValidityOf self.old.layout) }
    {
        match self.nullability() {
            Nullability::NonNullable => Ok(None),
            Nullability::Nullable => Ok(Some(self.child_leaf(alloc, 2)?)),
        }
    }

    /// The leaves of a list.
    fn list_leaves(&mut self, alloc: Global) -> Result<ListLeaves, NoMemory>
        requires { IsList self.old.layout }
        ensures asks { Asks (list_parts self.old.layout ListChildrenNeeded.OffsetsAndValidity) self.old self.new }
        ensures all { IfOk result (λ _.
            AsksAll (list_parts self.old.layout ListChildrenNeeded.OffsetsAndValidity) self.old self.new) }
        ensures leaves { IfOk result (AreLeavesOf self.old.layout) }
    {
        let offsets = self.child_leaf(alloc, 1)?;
        let validity = self.validity_leaf(alloc)?;
        Ok(ListLeaves { offsets, validity })
    }

    /// The number of a list's elements.
    fn element_count(&self) -> u64
        requires { IsList self.now.layout }
        ensures { option_map rows_of (nth_kid (kids_of self.now.layout) 0) ≡ Some result }
    {
        child_layout(&self.layout, 0).row_count()
    }

    /// The node of an expression that reads at most whether a list is null.
    fn list_nulls_node(
        &mut self,
        alloc: Global,
        expr: &BoundExpression,
    ) -> Result<PlanNode, NoMemory>
        requires list { IsList self.old.layout }
        requires class { necessary expr.now.expr ≡ ListChildrenNeeded.Validity }
        requires scope { expr.now.scope ≡ dtype_of self.old.layout }
        requires rows { uses_row_index expr.now.expr ≡ false }
        ensures asks { Asks (list_parts self.old.layout ListChildrenNeeded.Validity) self.old self.new }
        ensures all { IfOk result (λ _.
            AsksAll (list_parts self.old.layout ListChildrenNeeded.Validity) self.old self.new) }
        ensures plan { IfOk result (λ n. (name : Name) →
            IsPlanOf (layout_state name self.old.layout) expr.now (plan_data expr.now n)) }
    {
        match self.validity_leaf(alloc)? {
            None => never_null_node(alloc, expr),
            Some(validity) => nulls_node(alloc, expr, &validity),
        }
    }

    /// The node of an expression that reads how many elements a list has.
    fn list_lengths_node(
        &mut self,
        alloc: Global,
        expr: &BoundExpression,
    ) -> Result<PlanNode, NoMemory>
        requires list { IsList self.old.layout }
        requires class { necessary expr.now.expr ≡ ListChildrenNeeded.OffsetsAndValidity }
        requires scope { expr.now.scope ≡ dtype_of self.old.layout }
        requires rows { uses_row_index expr.now.expr ≡ false }
        ensures asks { Asks (list_parts self.old.layout ListChildrenNeeded.OffsetsAndValidity) self.old self.new }
        ensures all { IfOk result (λ _.
            AsksAll (list_parts self.old.layout ListChildrenNeeded.OffsetsAndValidity) self.old self.new) }
        ensures plan { IfOk result (λ n. (name : Name) →
            IsPlanOf (layout_state name self.old.layout) expr.now (plan_data expr.now n)) }
    {
        let leaves = self.list_leaves(alloc)?;
        let elements = self.element_count();
        match &leaves.validity {
            None => lengths_node(alloc, expr, &leaves.offsets, elements),
            Some(validity) => valid_lengths_node(alloc, expr, &leaves.offsets, elements, validity),
        }
    }

    /// The node of all elements of a list.
    #[cycle(planning)]
    fn elements_node(&mut self, alloc: Global) -> Result<PlanNode, NoMemory>
        requires list { IsList self.old.layout }
        requires over { IsOverChild self.old.layout (elements_part self.old.layout) }
        ensures asks { Asks (elements_part self.old.layout ∷ []) self.old self.new }
        ensures all { IfOk result (λ _. AsksAll (elements_part self.old.layout ∷ []) self.old self.new) }
        ensures plan { IfOk result (IsPartPlan (kids_of self.old.layout) (elements_part self.old.layout)) }
    {
        let dtype = child_layout(&self.layout, 0).dtype();
        let root = BoundExpression::new_root(alloc, dtype.try_clone(alloc)?)?;
        self.child_node(alloc, 0, &root)
    }

    /// The node of an expression that reads the elements of a list.
    #[cycle(planning)]
    fn list_all_node(&mut self, alloc: Global, expr: &BoundExpression) -> Result<PlanNode, NoMemory>
        requires list { IsList self.old.layout }
        requires class { necessary expr.now.expr ≡ ListChildrenNeeded.All }
        requires bound { IsPartable expr.now }
        requires scope { expr.now.scope ≡ dtype_of self.old.layout }
        requires rows { uses_row_index expr.now.expr ≡ false }
        ensures asks { Asks (list_parts self.old.layout ListChildrenNeeded.All) self.old self.new }
        ensures all { IfOk result (λ _.
            AsksAll (list_parts self.old.layout ListChildrenNeeded.All) self.old self.new) }
        ensures plan { IfOk result (λ n. (name : Name) →
            IsPlanOf (layout_state name self.old.layout) expr.now (plan_data expr.now n)) }
    {
        let node = self.elements_node(alloc)?;
        let leaves = self.list_leaves(alloc)?;
        let elements = self.element_count();
        match &leaves.validity {
            None => all_node(alloc, expr, node, &leaves.offsets, elements),
            Some(validity) => valid_all_node(
                alloc,
                expr,
                node,
                &leaves.offsets,
                elements,
                validity,
            ),
        }
    }

    /// The node of an expression over a list.
    #[cycle(planning)]
    fn list_node(&mut self, alloc: Global, expr: &BoundExpression) -> Result<PlanNode, NoMemory>
        requires list { IsList self.old.layout }
        requires bound { IsPartable expr.now }
        requires scope { expr.now.scope ≡ dtype_of self.old.layout }
        requires rows { uses_row_index expr.now.expr ≡ false }
        ensures asks { Asks (list_parts self.old.layout (necessary expr.now.expr)) self.old self.new }
        ensures all { IfOk result (λ _.
            AsksAll (list_parts self.old.layout (necessary expr.now.expr)) self.old self.new) }
        ensures plan { IfOk result (λ n. (name : Name) →
            IsPlanOf (layout_state name self.old.layout) expr.now (plan_data expr.now n)) }
    {
        match necessary_children(expr) {
            ListChildrenNeeded::Validity => self.list_nulls_node(alloc, expr),
            ListChildrenNeeded::OffsetsAndValidity => self.list_lengths_node(alloc, expr),
            ListChildrenNeeded::All => self.list_all_node(alloc, expr),
        }
    }

    /// The node of an expression. The children that it reaches are made, and no other.
    #[cycle(planning)]
    pub(crate) fn node(
        &mut self,
        alloc: Global,
        expr: &BoundExpression,
    ) -> Result<PlanNode, NoMemory>
        requires scope { expr.now.scope ≡ dtype_of self.old.layout }
        requires bound { IsPartable expr.now }
        requires rows { uses_row_index expr.now.expr ≡ false }
        ensures same { self.new.layout ≡ self.old.layout }
        ensures within { MakesWithin (reached self.old.layout expr.now) self.old.made self.new.made }
        ensures all { IfOk result (λ _. MakesAll (reached self.old.layout expr.now) self.old.made self.new.made) }
        ensures plan { IfOk result (λ n. (name : Name) →
            IsPlanOf (layout_state name self.old.layout) expr.now (plan_data expr.now n)) }
    {
        let _own = self.layout();
        if self.is_list() {
            self.list_node(alloc, expr)
        } else {
            self.struct_node(alloc, expr)
        }
    }
}
