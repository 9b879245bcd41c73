//! Layouts of structs. After the Rust's `layouts::struct_`.
ghost use Rattle.std.specs.Prelude.{◌≡◌, IfOk, Some};
ghost use Rattle.scan_values.specs.Kinds.{struct_fields_of};
ghost use Rattle.scan_values.specs.DataType.{fields_of, struct_type};
ghost use Rattle.scan_layout.specs.Layout.{node, nodes, dtype_of};
ghost use Rattle.scan_layout.specs.LayoutView.{layouts_of};
ghost use Rattle.scan_layout.specs.Check.{level_fault, TellsOrNoMemory};
ghost use Rattle.scan_layout.specs.Slots.{struct_slots, struct_slot, struct_slot_type, TellsSlot, matching_fields, every_field, named_fields, field_of, fields_in, TellsMatches};
ghost use Rattle.std.specs.List.{list_any};
ghost use Rattle.scan_values.specs.FieldLists.{names_of};
ghost use Rattle.scan_values.specs.FieldPaths.{matches_all};

use super::field_places::FieldPlaces;
use super::{Layout, MaskFault, SlotFault, VTable};
use crate::check::level_fault;
use crate::fault::LayoutFault;
use crate::node::{LayoutKind, LayoutNode, LayoutRef};
use scan_values::{DType, FieldMask, Nullability, StructFields};
use std::alloc::Global;
use std::marker::PhantomData;

/// The kind of structs.
#[derive(Clone, Copy, Debug)]
pub struct Struct;

impl VTable for Struct {
    ghost use Rattle.scan_layout.specs.Slots.{is_struct_kind};

    ghost is_kind = { is_struct_kind };
}

// The child of a slot of a struct of these parts.
#[tactic(auto, using(crate::proofs::Typed::fields_length))]
fn slot_of(fields: &StructFields, nullability: Nullability, slot: usize) -> Option<usize>
    ensures { result ≡ struct_slot (struct_type (fields_of fields.now) nullability) slot }
{
    if slot == 0 {
        return match nullability {
            Nullability::NonNullable => None,
            Nullability::Nullable => Some(0),
        };
    }
    if slot - 1 >= fields.names().len() {
        return None;
    }
    match nullability {
        Nullability::NonNullable => Some(slot - 1),
        Nullability::Nullable => Some(slot),
    }
}

// The dtype of the child of a slot of a struct of these parts.
#[tactic(auto, using(crate::proofs::Kids::types_again))]
fn slot_dtype(
    alloc: Global,
    fields: &StructFields,
    nullability: Nullability,
    slot: usize,
) -> Result<DType, SlotFault>
    ensures { TellsSlot result (struct_slot_type (struct_type (fields_of fields.now) nullability) slot) }
{
    if slot == 0 {
        return match nullability {
            Nullability::NonNullable => Err(SlotFault::NoSlot),
            Nullability::Nullable => Ok(DType::bool(Nullability::NonNullable)),
        };
    }
    match fields.field_by_index(slot - 1) {
        Some(dtype) => match dtype.try_clone(alloc) {
            Ok(dtype) => Ok(dtype),
            Err(_) => Err(SlotFault::NoMemory),
        },
        None => Err(SlotFault::NoSlot),
    }
}

/// A layout of a struct.
pub type StructLayout = Layout<Struct>;

/// The Rust's name of the kind.
pub type StructLayoutEncoding = Struct;

impl Layout<Struct> {
    /// A struct of so many rows: its validity, where it is nullable, and a child for each field.
    ///
    /// # Errors
    /// The first of: `ChildDType` where the dtype is no struct, `ChildCount`, `ChildRows`, and then `ChildDType` where
    /// a child has not its dtype. `NoMemory`.
    pub fn new(
        alloc: Global,
        row_count: u64,
        dtype: DType,
        children: Vec<LayoutRef>,
    ) -> Result<Self, LayoutFault>
        ensures made { IfOk result (λ l. l ≡ node dtype row_count LayoutKind.Struct (nodes (layouts_of children.items))) }
        ensures first { TellsOrNoMemory result (level_fault (node dtype row_count LayoutKind.Struct (nodes (layouts_of children.items)))) }
    {
        level_fault(&dtype, row_count, &LayoutKind::Struct, &children)?;
        match LayoutNode::from_parts(alloc, dtype, row_count, LayoutKind::Struct, children) {
            Ok(node) => Ok(Layout {
                node,
                kind: PhantomData,
            }),
            Err(_) => Err(LayoutFault::NoMemory),
        }
    }

    /// The fields of its dtype.
    #[tactic(auto, using(crate::proofs::Typed::struct_where))]
    pub fn struct_fields(&self) -> &StructFields
        ensures { struct_fields_of (dtype_of self.now) ≡ Some (fields_of result.now) }
    {
        match self.node.dtype().as_struct_fields_opt() {
            Some(fields) => fields,
            None => unreachable!(),
        }
    }

    /// The number of its slots: slot 0 is its validity, and field i is slot i + 1.
    #[tactic(auto, using(crate::proofs::Typed::struct_count))]
    pub fn nslots(&self) -> usize
        ensures { result ≡ struct_slots (dtype_of self.now) }
    {
        self.struct_fields().names().len() + 1
    }

    /// The index of the child that has a slot.
    #[tactic(auto, using(crate::proofs::Typed::struct_is))]
    pub fn slot_to_child(&self, slot: usize) -> Option<usize>
        ensures { result ≡ struct_slot (dtype_of self.now) slot }
    {
        slot_of(self.struct_fields(), self.node.dtype().nullability(), slot)
    }

    /// The dtype of the child that has a slot.
    ///
    /// # Errors
    /// `NoSlot` exactly where no child has the slot, and `NoMemory`.
    #[tactic(auto, using(crate::proofs::Typed::struct_is))]
    pub fn child_dtype(&self, alloc: Global, slot: usize) -> Result<DType, SlotFault>
        ensures { TellsSlot result (struct_slot_type (dtype_of self.now) slot) }
    {
        slot_dtype(
            alloc,
            self.struct_fields(),
            self.node.dtype().nullability(),
            slot,
        )
    }

    /// The fields that masks match, each with the mask below it: every field where some mask matches all, else the
    /// field of the first name of each mask, in order. A field's number is its index.
    ///
    /// # Errors
    /// `NoSuchField` exactly where no mask matches all and a mask names no field, and `NoMemory`.
    #[tactic(auto, using(crate::proofs::Matches::fields_again))]
    pub fn matching_fields(
        &self,
        alloc: Global,
        masks: &[FieldMask],
    ) -> Result<Vec<(FieldMask, usize)>, MaskFault>
        ensures { TellsMatches result (matching_fields (fields_in (dtype_of self.now)) masks.now) }
    {
        matches_of(alloc, self.struct_fields(), masks)
    }
}

// Whether some mask matches all.
#[tactic(auto, using(crate::proofs::Matches::all_here, crate::proofs::Matches::all_later, crate::proofs::Matches::all_past))]
fn some_matches_all(masks: &[FieldMask]) -> bool
    ensures { result ≡ list_any matches_all masks.now }
{
    for mask in masks {
        if mask.matches_all() {
            return true;
        }
    }
    false
}

// Every one of so many fields.
#[tactic(auto, using(crate::proofs::Matches::every_at, crate::proofs::Matches::every_past))]
fn every_field(alloc: Global, count: usize) -> Result<Vec<(FieldMask, usize)>, MaskFault>
    ensures { TellsMatches result (Some (every_field 0 count)) }
{
    let mut found = Vec::new(alloc);
    for i in 0..count {
        found.push((FieldMask::All, i))?;
    }
    Ok(found)
}

// The place of the field of a mask's first name.
fn field_of(places: &FieldPlaces, mask: &FieldMask) -> Option<usize>
    ensures { result ≡ field_of (names_of places.now.fields.now) mask.now }
{
    match mask.starting_field() {
        Some(name) => places.find(name),
        None => None,
    }
}

// The field of each mask, with the mask below it.
#[tactic(auto, using(crate::proofs::Matches::named_at, crate::proofs::Matches::named_fault, crate::proofs::Matches::named_past))]
fn named_fields(
    alloc: Global,
    fields: &StructFields,
    masks: &[FieldMask],
) -> Result<Vec<(FieldMask, usize)>, MaskFault>
    ensures { TellsMatches result (named_fields (names_of fields.now) masks.now) }
{
    let Ok(places) = FieldPlaces::of(alloc, fields) else {
        return Err(MaskFault::NoMemory);
    };
    let mut found = Vec::new(alloc);
    for mask in masks {
        let Some(i) = field_of(&places, mask) else {
            return Err(MaskFault::NoSuchField);
        };
        let Ok(copy) = mask.try_clone(alloc) else {
            return Err(MaskFault::NoMemory);
        };
        if found.push((copy.step_into(), i)).is_err() {
            return Err(MaskFault::NoMemory);
        }
    }
    Ok(found)
}

// The fields that masks match.
#[tactic(auto, using(crate::proofs::Typed::fields_length, crate::proofs::Matches::names_again))]
fn matches_of(
    alloc: Global,
    fields: &StructFields,
    masks: &[FieldMask],
) -> Result<Vec<(FieldMask, usize)>, MaskFault>
    ensures { TellsMatches result (matching_fields (fields_of fields.now) masks.now) }
{
    if some_matches_all(masks) {
        every_field(alloc, fields.names().len())
    } else {
        named_fields(alloc, fields, masks)
    }
}

impl LayoutNode {
    /// A node of a struct of so many rows: its validity, where it is nullable, and a child for each field.
    ///
    /// # Errors
    /// Those of `Layout::<Struct>::new`.
    pub fn struct_(
        alloc: Global,
        dtype: DType,
        row_count: u64,
        children: Vec<LayoutRef>,
    ) -> Result<LayoutRef, LayoutFault>
        ensures made { IfOk result (λ r. r.value ≡ node dtype row_count LayoutKind.Struct (nodes (layouts_of children.items))) }
        ensures first { TellsOrNoMemory result (level_fault (node dtype row_count LayoutKind.Struct (nodes (layouts_of children.items)))) }
    {
        let layout = Layout::<Struct>::new(alloc, row_count, dtype, children)?;
        Ok(layout.into_node())
    }
}
