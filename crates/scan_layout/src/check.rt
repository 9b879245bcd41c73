//! The check of a layout. An own call: the Rust takes its files as they are.
ghost use Rattle.std.specs.Prelude.{◌≡◌, ◌↔◌, IsOk, ◌==◌, ◌^◌, ◌∷◌, length, nat_lt, if◌then◌else◌, Some, None};
ghost use Rattle.scan_values.specs.DataType.{int_type};
ghost use Rattle.scan_values.specs.FieldLists.{dtypes_of as field_types};
ghost use Rattle.scan_layout.specs.Layout.{node, nodes, dtype_of};
ghost use Rattle.scan_values.specs.Same.{same_type};
ghost use Rattle.scan_layout.specs.LayoutView.{layouts_of};
ghost use Rattle.scan_layout.specs.Check.{
  child_types,
  with_validity,
  validity_types,
  serves,
  offsets_fit,
  leaf_fault,
  rows_fault,
  all_have_rows,
  total_rows,
  offsets_rows,
  validity_rows,
  unless,
  ◌then◌,
  shape_fault,
  node_fault,
  fault_in,
  faults_in,
  first_fault,
  dtypes_fault,
  level_fault,
  Tells,
};
ghost use Rattle.scan_layout.specs.Form.{IsWellFormed};

use crate::fault::LayoutFault;
use crate::node::{LayoutKind, LayoutNode, LayoutRef};
use scan_segments::SegmentId;
use scan_values::{DType, Nullability, PType, StructFields};

// Whether the kind serves the dtype.
fn serves(kind: &LayoutKind, dtype: &DType) -> bool
    ensures { result ≡ serves kind.now dtype.now }
{
    match kind {
        LayoutKind::Leaf(_, _) => dtype.is_scalar(),
        LayoutKind::Struct => dtype.as_struct_fields_opt().is_some(),
        LayoutKind::List(_) => dtype.as_list_element_opt().is_some(),
    }
}

// Whether a list's second child is of the list's offsets.
#[tactic(auto, using(crate::proofs::Kids::second_is_short))]
fn offsets_fit(kind: &LayoutKind, children: &[LayoutRef]) -> bool
    ensures { result ≡ offsets_fit kind.now (nodes (layouts_of children.now)) }
{
    match kind {
        LayoutKind::List(ptype) => match children {
            [_, offsets, ..] => {
                let wanted = DType::primitive(*ptype, Nullability::NonNullable);
                *offsets.dtype() == wanted
            }
            _ => true,
        },
        _ => true,
    }
}

// How many children a node of the dtype and kind has.
#[tactic(auto, using(crate::proofs::Kids::types_again, crate::proofs::Kids::names_length))]
fn child_count(dtype: &DType, kind: &LayoutKind) -> usize
    ensures { result ≡ length (child_types dtype.now kind.now) }
{
    let validity = if dtype.is_nullable() { 1 } else { 0 };
    match kind {
        LayoutKind::Leaf(_, _) => 0,
        LayoutKind::Struct => match dtype.as_struct_fields_opt() {
            Some(fields) => fields.names().len() + validity,
            None => 0,
        },
        LayoutKind::List(_) => match dtype.as_list_element_opt() {
            Some(_) => 2 + validity,
            None => 0,
        },
    }
}

/// The sum of the rows of segments, where it is a u64.
#[tactic(auto, using(crate::proofs::Kids::total_rows_at, crate::proofs::Kids::total_rows_past, crate::proofs::Kids::total_fits, crate::proofs::Kids::total_passes))]
pub(crate) fn total_rows(segments: &[(SegmentId, u64)]) -> Option<u64>
    ensures { result ≡ (if nat_lt (total_rows segments.now) (2 ^ 64) then Some (total_rows segments.now) else None) }
{
    let mut total: u64 = 0;
    for (_, count) in segments {
        match total.checked_add(*count) {
            Some(sum) => total = sum,
            None => return None,
        }
    }
    Some(total)
}

// What is wrong with a leaf's rows.
#[tactic(auto, using(crate::proofs::Kids::leaf_sums, crate::proofs::Kids::leaf_passes))]
fn leaf_fault(segments: &[(SegmentId, u64)], rows: u64) -> Result<(), LayoutFault>
    ensures { Tells result (leaf_fault segments.now rows) }
{
    let Some(total) = total_rows(segments) else {
        return Err(LayoutFault::RowSum);
    };
    if total == rows {
        Ok(())
    } else {
        Err(LayoutFault::ChildRows)
    }
}

// Whether each child has so many rows.
#[tactic(auto, using(crate::proofs::Kids::all_have_rows_at, crate::proofs::Kids::nodes_past))]
fn all_have_rows(rows: u64, children: &[LayoutRef]) -> bool
    ensures { result ≡ all_have_rows rows (nodes (layouts_of children.now)) }
{
    for child in children {
        if child.row_count() != rows {
            return false;
        }
    }
    true
}

// Whether the offsets, where a list has them, are one more than its rows.
#[tactic(auto, using(crate::proofs::Kids::offsets_short))]
fn offsets_rows(rows: u64, children: &[LayoutRef]) -> bool
    ensures { result ≡ offsets_rows rows (nodes (layouts_of children.now)) }
{
    match children {
        [_, offsets, ..] => offsets.row_count().checked_sub(1) == Some(rows),
        _ => true,
    }
}

// Whether a list's validity, where it has one, has its rows.
#[tactic(auto, using(crate::proofs::Kids::validity_short))]
fn validity_rows(rows: u64, children: &[LayoutRef]) -> bool
    ensures { result ≡ validity_rows rows (nodes (layouts_of children.now)) }
{
    match children {
        [_, _, validity, ..] => validity.row_count() == rows,
        _ => true,
    }
}

// What is wrong with the rows of a list.
fn list_fault(rows: u64, children: &[LayoutRef]) -> Result<(), LayoutFault>
    ensures { Tells result (unless (offsets_rows rows (nodes (layouts_of children.now))) LayoutFault.Offsets
        then unless (validity_rows rows (nodes (layouts_of children.now))) LayoutFault.ChildRows) }
{
    if !offsets_rows(rows, children) {
        return Err(LayoutFault::Offsets);
    }
    if !validity_rows(rows, children) {
        return Err(LayoutFault::ChildRows);
    }
    Ok(())
}

// What is wrong with the rows of a node.
fn rows_fault(kind: &LayoutKind, rows: u64, children: &[LayoutRef]) -> Result<(), LayoutFault>
    ensures { Tells result (rows_fault kind.now rows (nodes (layouts_of children.now))) }
{
    match kind {
        LayoutKind::Leaf(segments, _) => leaf_fault(segments.as_slice(), rows),
        LayoutKind::Struct => {
            if all_have_rows(rows, children) {
                Ok(())
            } else {
                Err(LayoutFault::ChildRows)
            }
        }
        LayoutKind::List(_) => list_fault(rows, children),
    }
}

/// What is wrong with a node of these parts, whatever dtype is wanted of it.
#[tactic(auto, using(crate::proofs::Kids::count_nodes))]
pub(crate) fn shape_fault(
    dtype: &DType,
    rows: u64,
    kind: &LayoutKind,
    children: &[LayoutRef],
) -> Result<(), LayoutFault>
    ensures { Tells result (shape_fault (node dtype.now rows kind.now (nodes (layouts_of children.now)))) }
{
    if !serves(kind, dtype) {
        return Err(LayoutFault::ChildDType);
    }
    if !offsets_fit(kind, children) {
        return Err(LayoutFault::ChildDType);
    }
    if children.len() != child_count(dtype, kind) {
        return Err(LayoutFault::ChildCount);
    }
    rows_fault(kind, rows, children)
}

// What is wrong with a node of these parts, of which a dtype is wanted.
#[tactic(auto, using(crate::proofs::Kids::node_typed, crate::proofs::Kids::node_other))]
fn node_fault(
    dtype: &DType,
    rows: u64,
    kind: &LayoutKind,
    children: &[LayoutRef],
    wanted: &DType,
) -> Result<(), LayoutFault>
    ensures { Tells result (node_fault (node dtype.now rows kind.now (nodes (layouts_of children.now))) wanted.now) }
{
    if *dtype == *wanted {
        shape_fault(dtype, rows, kind, children)
    } else {
        Err(LayoutFault::ChildDType)
    }
}

impl LayoutNode {
    // What is wrong with the node itself, where this dtype is wanted.
    fn check_node(&self, wanted: &DType) -> Result<(), LayoutFault>
        ensures { Tells result (node_fault self.now wanted.now) }
    {
        node_fault(
            &self.dtype,
            self.row_count,
            &self.kind,
            self.children.as_slice(),
            wanted,
        )
    }

    // The first fault of the tree, of which this dtype is wanted.
    #[cycle(walk)]
    fn walk(&self, wanted: &DType) -> Result<(), LayoutFault>
        ensures { Tells result (fault_in self.now wanted.now) }
    {
        self.check_node(wanted)?;
        walk_children(&self.kind, self.children.as_slice(), wanted)
    }
}

// The first fault of the children, in their order, of a node of the kind and dtype.
#[cycle(walk)]
#[tactic(auto, using(crate::proofs::Kids::faults_in_none, crate::proofs::Kids::types_again))]
fn walk_children(
    kind: &LayoutKind,
    children: &[LayoutRef],
    dtype: &DType,
) -> Result<(), LayoutFault>
    ensures { Tells result (faults_in (nodes (layouts_of children.now)) (child_types dtype.now kind.now)) }
{
    match kind {
        LayoutKind::Leaf(_, _) => Ok(()),
        LayoutKind::Struct => match dtype.as_struct_fields_opt() {
            Some(fields) => walk_fields(children, dtype.nullability(), fields),
            None => Ok(()),
        },
        LayoutKind::List(ptype) => match dtype.as_list_element_opt() {
            Some(element) => walk_list(children, element, *ptype, dtype.nullability()),
            None => Ok(()),
        },
    }
}

#[cycle(walk)]
#[tactic(auto, using(crate::proofs::Kids::nodes_first, crate::proofs::Kids::nodes_none))]
fn walk_fields(
    children: &[LayoutRef],
    nullability: Nullability,
    fields: &StructFields,
) -> Result<(), LayoutFault>
    ensures { Tells result (faults_in (nodes (layouts_of children.now)) (with_validity nullability (field_types fields.now))) }
{
    match nullability {
        Nullability::NonNullable => walk_each(children, fields),
        Nullability::Nullable => match children {
            [validity, others @ ..] => {
                validity.walk(&DType::bool(Nullability::NonNullable))?;
                walk_each(others, fields)
            }
            [] => Ok(()),
        },
    }
}

#[cycle(walk)]
#[tactic(auto, using(crate::proofs::Kids::faults_in_at, crate::proofs::Kids::faults_in_short, crate::proofs::Kids::faults_in_past, crate::proofs::Sizes::child_below))]
fn walk_each(children: &[LayoutRef], fields: &StructFields) -> Result<(), LayoutFault>
    ensures { Tells result (faults_in (nodes (layouts_of children.now)) (field_types fields.now)) }
{
    for i in 0..children.len() {
        let child = &children[i];
        match fields.field_by_index(i) {
            Some(dtype) => child.walk(dtype)?,
            None => return Ok(()),
        }
    }
    Ok(())
}

#[cycle(walk)]
#[tactic(auto, using(crate::proofs::Kids::nodes_first, crate::proofs::Kids::nodes_none))]
fn walk_list(
    children: &[LayoutRef],
    element: &DType,
    ptype: PType,
    nullability: Nullability,
) -> Result<(), LayoutFault>
    ensures { Tells result (faults_in (nodes (layouts_of children.now)) (element.now ∷ int_type ptype Nullability.NonNullable ∷ validity_types nullability)) }
{
    match children {
        [elements, others @ ..] => {
            elements.walk(element)?;
            walk_offsets(others, ptype, nullability)
        }
        [] => Ok(()),
    }
}

#[cycle(walk)]
#[tactic(auto, using(crate::proofs::Kids::nodes_first, crate::proofs::Kids::nodes_none))]
fn walk_offsets(
    children: &[LayoutRef],
    ptype: PType,
    nullability: Nullability,
) -> Result<(), LayoutFault>
    ensures { Tells result (faults_in (nodes (layouts_of children.now)) (int_type ptype Nullability.NonNullable ∷ validity_types nullability)) }
{
    match children {
        [offsets, others @ ..] => {
            offsets.walk(&DType::primitive(ptype, Nullability::NonNullable))?;
            walk_validity(others, nullability)
        }
        [] => Ok(()),
    }
}

#[cycle(walk)]
#[tactic(auto, using(crate::proofs::Kids::nodes_first, crate::proofs::Kids::nodes_none, crate::proofs::Kids::faults_in_none, crate::proofs::Kids::faults_in_one))]
fn walk_validity(children: &[LayoutRef], nullability: Nullability) -> Result<(), LayoutFault>
    ensures { Tells result (faults_in (nodes (layouts_of children.now)) (validity_types nullability)) }
{
    match nullability {
        Nullability::NonNullable => Ok(()),
        Nullability::Nullable => match children {
            [validity, ..] => validity.walk(&DType::bool(Nullability::NonNullable)),
            [] => Ok(()),
        },
    }
}

impl LayoutNode {
    // The first fault of the tree, of which this dtype is wanted, its depth tested first.
    fn check_tree(&self, dtype: &DType) -> Result<(), LayoutFault>
        ensures { Tells result (first_fault self.now dtype.now) }
    {
        if dtype.depth() > 64 {
            return Err(LayoutFault::Deep);
        }
        self.walk(dtype)
    }

    /// Whether the layout is well-formed for a dtype, or its first fault. A node is tested before its children, and
    /// these in index order. Takes no memory.
    ///
    /// # Errors
    /// At the dtype that is handed in: `Deep`. At each node, the first of: `ChildDType`, `ChildCount`; `RowSum` and
    /// then `ChildRows` at a leaf; `ChildRows` at a struct; `Offsets` and then `ChildRows` at a list.
    #[tactic(auto, using(crate::proofs::Forms::well_formed, crate::proofs::Forms::no_fault))]
    pub fn check(&self, dtype: &DType) -> Result<(), LayoutFault>
        ensures first { Tells result (first_fault self.now dtype.now) }
        ensures form { IsOk result ↔ IsWellFormed self.now dtype.now }
    {
        self.check_tree(dtype)
    }
}

// Whether a child has the dtype that is wanted of it.
fn is_of(node: &LayoutRef, dtype: &DType) -> Result<(), LayoutFault>
    ensures { Tells result (unless (same_type (dtype_of node.now.value) dtype.now) LayoutFault.ChildDType) }
{
    if *node.dtype() == *dtype {
        Ok(())
    } else {
        Err(LayoutFault::ChildDType)
    }
}

// Whether children have the dtypes of fields.
#[tactic(auto, using(crate::proofs::Levels::dtypes_fault_at, crate::proofs::Levels::dtypes_fault_short, crate::proofs::Levels::dtypes_fault_past))]
fn are_of_fields(children: &[LayoutRef], fields: &StructFields) -> Result<(), LayoutFault>
    ensures { Tells result (dtypes_fault (nodes (layouts_of children.now)) (field_types fields.now)) }
{
    for i in 0..children.len() {
        let child = &children[i];
        match fields.field_by_index(i) {
            Some(dtype) => is_of(child, dtype)?,
            None => return Ok(()),
        }
    }
    Ok(())
}

// Whether a struct's children have their dtypes.
#[tactic(auto, using(crate::proofs::Kids::nodes_first, crate::proofs::Kids::nodes_none))]
fn are_of_struct(
    children: &[LayoutRef],
    nullability: Nullability,
    fields: &StructFields,
) -> Result<(), LayoutFault>
    ensures { Tells result (dtypes_fault (nodes (layouts_of children.now)) (with_validity nullability (field_types fields.now))) }
{
    match nullability {
        Nullability::NonNullable => are_of_fields(children, fields),
        Nullability::Nullable => match children {
            [validity, others @ ..] => {
                is_of(validity, &DType::bool(Nullability::NonNullable))?;
                are_of_fields(others, fields)
            }
            [] => Ok(()),
        },
    }
}

// Whether a list's validity has its dtype.
#[tactic(auto, using(crate::proofs::Kids::nodes_first, crate::proofs::Kids::nodes_none, crate::proofs::Levels::dtypes_fault_none, crate::proofs::Levels::dtypes_fault_one))]
fn is_of_validity(children: &[LayoutRef], nullability: Nullability) -> Result<(), LayoutFault>
    ensures { Tells result (dtypes_fault (nodes (layouts_of children.now)) (validity_types nullability)) }
{
    match nullability {
        Nullability::NonNullable => Ok(()),
        Nullability::Nullable => match children {
            [validity, ..] => is_of(validity, &DType::bool(Nullability::NonNullable)),
            [] => Ok(()),
        },
    }
}

// Whether a list's offsets and validity have their dtypes.
#[tactic(auto, using(crate::proofs::Kids::nodes_first, crate::proofs::Kids::nodes_none))]
fn are_of_offsets(
    children: &[LayoutRef],
    ptype: PType,
    nullability: Nullability,
) -> Result<(), LayoutFault>
    ensures { Tells result (dtypes_fault (nodes (layouts_of children.now)) (int_type ptype Nullability.NonNullable ∷ validity_types nullability)) }
{
    match children {
        [offsets, others @ ..] => {
            is_of(offsets, &DType::primitive(ptype, Nullability::NonNullable))?;
            is_of_validity(others, nullability)
        }
        [] => Ok(()),
    }
}

// Whether a list's children have their dtypes.
#[tactic(auto, using(crate::proofs::Kids::nodes_first, crate::proofs::Kids::nodes_none))]
fn are_of_list(
    children: &[LayoutRef],
    element: &DType,
    ptype: PType,
    nullability: Nullability,
) -> Result<(), LayoutFault>
    ensures { Tells result (dtypes_fault (nodes (layouts_of children.now))
        (element.now ∷ int_type ptype Nullability.NonNullable ∷ validity_types nullability)) }
{
    match children {
        [elements, others @ ..] => {
            is_of(elements, element)?;
            are_of_offsets(others, ptype, nullability)
        }
        [] => Ok(()),
    }
}

// Whether the children of a node have the dtypes that it gives them.
#[tactic(auto, using(crate::proofs::Levels::dtypes_fault_none, crate::proofs::Kids::types_again))]
fn dtypes_fault(dtype: &DType, kind: &LayoutKind, children: &[LayoutRef]) -> Result<(), LayoutFault>
    ensures { Tells result (dtypes_fault (nodes (layouts_of children.now)) (child_types dtype.now kind.now)) }
{
    match kind {
        LayoutKind::Leaf(_, _) => Ok(()),
        LayoutKind::Struct => match dtype.as_struct_fields_opt() {
            Some(fields) => are_of_struct(children, dtype.nullability(), fields),
            None => Ok(()),
        },
        LayoutKind::List(ptype) => match dtype.as_list_element_opt() {
            Some(element) => are_of_list(children, element, *ptype, dtype.nullability()),
            None => Ok(()),
        },
    }
}

/// What is wrong with one level of a layout of these parts.
pub(crate) fn level_fault(
    dtype: &DType,
    rows: u64,
    kind: &LayoutKind,
    children: &[LayoutRef],
) -> Result<(), LayoutFault>
    ensures { Tells result (level_fault (node dtype.now rows kind.now (nodes (layouts_of children.now)))) }
{
    shape_fault(dtype, rows, kind, children)?;
    dtypes_fault(dtype, kind, children)
}
