//! Layouts of lists. After the Rust's `layouts::list`.
ghost use Rattle.std.specs.Prelude.{◌≡◌, IfOk, Some, option_map};
ghost use Rattle.scan_values.specs.Kinds.{element_of};
ghost use Rattle.scan_layout.specs.Layout.{dtype_of, rows_of, kind_of, kids_of, nodes, child};
ghost use Rattle.scan_layout.specs.LayoutView.{layouts_of};
ghost use Rattle.scan_layout.specs.Check.{level_fault, TellsOrNoMemory};
ghost use Rattle.scan_layout.specs.Slots.{
  list_slot,
  list_slot_type,
  TellsSlot,
  nth_kid,
  offsets_type,
  optional_node,
  list_made_of,
  level_fault_of,
  list_ptype,
  ptype_of_kind,
};

use super::{Layout, SlotFault, VTable};
use crate::check::level_fault;
use crate::fault::LayoutFault;
use crate::node::{LayoutKind, LayoutNode, LayoutRef};
use scan_values::{DType, NoMemory, Nullability, PType};
use std::alloc::Global;
use std::marker::{Model, PhantomData};

/// The index of the child that is the elements.
pub const ELEMENTS_CHILD_INDEX: usize = 0;

/// The index of the child that is the offsets.
pub const OFFSETS_CHILD_INDEX: usize = 1;

/// The index of the child that is the validity.
pub const VALIDITY_CHILD_INDEX: usize = 2;

/// The number of children of a list that is not nullable.
pub const NUM_CHILDREN_NON_NULLABLE: usize = 2;

/// The kind of lists.
#[derive(Clone, Copy, Debug)]
pub struct List;

impl VTable for List {
    ghost use Rattle.scan_layout.specs.Slots.{is_list_kind};

    ghost is_kind = { is_list_kind };
}

/// A layout of a list.
pub type ListLayout = Layout<List>;

/// The Rust's name of the kind.
pub type ListLayoutEncoding = List;

/// What a file keeps of a list beside its children: the integer type of its offsets. Contracts see it as that type.
#[derive(Clone, Copy, Debug, PartialEq)]
pub struct ListLayoutMetadata {
    offsets_ptype: PType,
}

impl Model for ListLayoutMetadata {
    ghost use Rattle.scan_values.specs.declared.ptype.PType.{PType};

    ghost Value = { PType };

    ghost view = { λ a. a.offsets_ptype };

    ghost inverse = { λ p. record { offsets_ptype = p } };
}

impl ListLayoutMetadata {
    /// The metadata of a list with offsets of an integer type.
    pub fn new(offsets_ptype: PType) -> Self
        ensures { result ≡ offsets_ptype }
    {
        ListLayoutMetadata { offsets_ptype }
    }

    /// The integer type of the offsets.
    pub fn offsets_ptype(&self) -> PType
        ensures { result ≡ self.now }
    {
        self.offsets_ptype
    }
}

// The integer type of offsets of a dtype, which are not nullable.
#[tactic(auto, using(crate::proofs::Typed::offsets_type_null, crate::proofs::Typed::offsets_type_none))]
fn offsets_type(dtype: &DType) -> Option<PType>
    ensures { result ≡ offsets_type dtype.now }
{
    match dtype.nullability() {
        Nullability::NonNullable => dtype.as_ptype_opt(),
        Nullability::Nullable => None,
    }
}

// The children of a list.
fn children_of(
    alloc: Global,
    elements: LayoutRef,
    offsets: LayoutRef,
    validity: Option<LayoutRef>,
) -> Result<Vec<LayoutRef>, NoMemory>
    ensures { IfOk result (λ v. nodes (layouts_of v.items) ≡ child elements.value (child offsets.value (optional_node validity))) }
{
    let mut children = Vec::new(alloc);
    children.push(elements)?;
    children.push(offsets)?;
    if let Some(validity) = validity {
        children.push(validity)?;
    }
    Ok(children)
}

impl Layout<List> {
    /// A list of these children, its validity where it is nullable. It has one row less than offsets.
    ///
    /// # Errors
    /// The first of: `ChildDType` where the dtype is no list or the offsets are no non-nullable integers, `ChildCount`,
    /// `Offsets` where there is no offset, `ChildRows`, and then `ChildDType` where a child has not its dtype.
    /// `NoMemory`.
    pub fn new(
        alloc: Global,
        dtype: DType,
        elements: LayoutRef,
        offsets: LayoutRef,
        validity: Option<LayoutRef>,
    ) -> Result<Self, LayoutFault>
        ensures made { IfOk result (λ l. list_made_of dtype (offsets_type (dtype_of offsets.value))
            elements.value offsets.value (optional_node validity) ≡ Some l) }
        ensures first { TellsOrNoMemory result (level_fault_of
            (list_made_of dtype (offsets_type (dtype_of offsets.value)) elements.value offsets.value
            (optional_node validity))) }
    {
        let Some(ptype) = offsets_type(offsets.dtype()) else {
            return Err(LayoutFault::ChildDType);
        };
        let row_count = offsets.row_count().saturating_sub(1);
        let children = children_of(alloc, elements, offsets, validity)?;
        let kind = LayoutKind::List(ptype);
        level_fault(&dtype, row_count, &kind, &children)?;
        match LayoutNode::from_parts(alloc, dtype, row_count, kind, children) {
            Ok(node) => Ok(Layout {
                node,
                kind: PhantomData,
            }),
            Err(_) => Err(LayoutFault::NoMemory),
        }
    }

    /// The elements of all rows.
    #[tactic(auto, using(crate::proofs::Typed::list_where))]
    pub fn elements(&self) -> &LayoutRef
        ensures { nth_kid (kids_of self.now) 0 ≡ Some result.now.value }
    {
        match self.node.child_at(ELEMENTS_CHILD_INDEX) {
            Some(elements) => elements,
            None => unreachable!(),
        }
    }

    /// The offsets into the elements, one more than rows.
    #[tactic(auto, using(crate::proofs::Typed::list_where))]
    pub fn offsets(&self) -> &LayoutRef
        ensures { nth_kid (kids_of self.now) 1 ≡ Some result.now.value }
    {
        match self.node.child_at(OFFSETS_CHILD_INDEX) {
            Some(offsets) => offsets,
            None => unreachable!(),
        }
    }

    /// Which rows are not null, where the list is nullable.
    pub fn validity(&self) -> Option<&LayoutRef>
        ensures { option_map (λ r. r.now.value) result ≡ nth_kid (kids_of self.now) 2 }
    {
        self.node.child_at(VALIDITY_CHILD_INDEX)
    }

    /// The dtype of its elements.
    #[tactic(auto, using(crate::proofs::Typed::element_where))]
    pub fn elements_dtype(&self) -> &DType
        ensures { element_of (dtype_of self.now) ≡ Some result.now }
    {
        match self.node.dtype().as_list_element_opt() {
            Some(element) => element,
            None => unreachable!(),
        }
    }

    /// The number of its slots, which are the indices of its children: elements, offsets and validity.
    pub fn nslots(&self) -> usize
        ensures { result ≡ 3 }
    {
        NUM_CHILDREN_NON_NULLABLE + 1
    }

    /// The index of the child that has a slot.
    pub fn slot_to_child(&self, slot: usize) -> Option<usize>
        ensures { result ≡ list_slot (dtype_of self.now) slot }
    {
        if slot < NUM_CHILDREN_NON_NULLABLE {
            return Some(slot);
        }
        if slot > VALIDITY_CHILD_INDEX {
            return None;
        }
        match self.node.dtype().nullability() {
            Nullability::NonNullable => None,
            Nullability::Nullable => Some(VALIDITY_CHILD_INDEX),
        }
    }

    /// The integer type of its offsets.
    #[tactic(auto, using(crate::proofs::Typed::ptype_where, crate::proofs::Typed::ptype_is))]
    pub fn offsets_ptype(&self) -> PType
        ensures { kind_of self.now ≡ LayoutKind.List result }
    {
        match self.node.list_ptype() {
            Some(ptype) => ptype,
            None => unreachable!(),
        }
    }

    /// The dtype of the child that has a slot.
    ///
    /// # Errors
    /// `NoSlot` exactly where no child has the slot, and `NoMemory`.
    #[tactic(auto, using(crate::proofs::Typed::ptype_of_list))]
    pub fn child_dtype(&self, alloc: Global, slot: usize) -> Result<DType, SlotFault>
        ensures { TellsSlot result (list_slot_type (dtype_of self.now) (ptype_of_kind (kind_of self.now)) slot) }
    {
        slot_dtype(
            alloc,
            self.node.dtype(),
            self.offsets_ptype(),
            self.elements_dtype(),
            slot,
        )
    }
}

impl LayoutNode {
    // The integer type of the offsets, of a list.
    fn list_ptype(&self) -> Option<PType>
        ensures { result ≡ list_ptype (kind_of self.now) }
    {
        match &self.kind {
            LayoutKind::List(ptype) => Some(*ptype),
            _ => None,
        }
    }
}

// The dtype of the child that has a slot of a list of these parts.
fn slot_dtype(
    alloc: Global,
    dtype: &DType,
    ptype: PType,
    element: &DType,
    slot: usize,
) -> Result<DType, SlotFault>
    requires { element_of dtype.now ≡ Some element.now }
    ensures { TellsSlot result (list_slot_type dtype.now ptype slot) }
{
    if slot == ELEMENTS_CHILD_INDEX {
        return match element.try_clone(alloc) {
            Ok(element) => Ok(element),
            Err(_) => Err(SlotFault::NoMemory),
        };
    }
    if slot == OFFSETS_CHILD_INDEX {
        return Ok(DType::primitive(ptype, Nullability::NonNullable));
    }
    if slot > VALIDITY_CHILD_INDEX {
        return Err(SlotFault::NoSlot);
    }
    match dtype.nullability() {
        Nullability::NonNullable => Err(SlotFault::NoSlot),
        Nullability::Nullable => Ok(DType::bool(Nullability::NonNullable)),
    }
}

impl LayoutNode {
    /// A node of a list of these children, its validity where it is nullable. It has one row less than offsets.
    ///
    /// # Errors
    /// Those of `Layout::<List>::new`.
    pub fn list(
        alloc: Global,
        dtype: DType,
        elements: LayoutRef,
        offsets: LayoutRef,
        validity: Option<LayoutRef>,
    ) -> Result<LayoutRef, LayoutFault>
        ensures made { IfOk result (λ r. list_made_of dtype (offsets_type (dtype_of offsets.value))
            elements.value offsets.value (optional_node validity) ≡ Some r.value) }
        ensures first { TellsOrNoMemory result (level_fault_of
            (list_made_of dtype (offsets_type (dtype_of offsets.value)) elements.value offsets.value
            (optional_node validity))) }
    {
        let layout = Layout::<List>::new(alloc, dtype, elements, offsets, validity)?;
        Ok(layout.into_node())
    }
}
