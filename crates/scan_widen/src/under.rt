//! The layout of a file under another dtype.
ghost use Rattle.std.specs.Prelude.{◌≡◌, ◌≤◌, ◌<◌, ◌+◌, ◌^◌, ◌++◌, ◌∷◌, ◌↔◌, [], if◌then◌else◌, map, true, length, All, IfOk, OnOk, IfSome, Some, None};
ghost use Rattle.scan_values.specs.DataType.{fields_of, is_nullable, nullability_of};
ghost use Rattle.scan_values.specs.FieldLists.{dtype_named};
ghost use Rattle.scan_values.specs.Kinds.{kind_of, is_scalar_type};
ghost use Rattle.scan_values.specs.Same.{same_type};
ghost use Rattle.scan_layout.specs.Layout.{node, nodes, no_nodes, dtype_of, rows_of, kids_of, kind_of as node_kind};
ghost use Rattle.scan_layout.specs.LayoutView.{layouts_of};
ghost use Rattle.scan_layout.specs.Form.{HasForm};
ghost use Rattle.scan_widen.specs.FitsUnder.{passes_or, fits_under, fields_fit};
ghost use Rattle.scan_widen.specs.Blanks.{flags, only_rows, one_leaf, blank_flags, blank_behind, blanks_behind, blank_under, flags_layouts, blank_layouts};
ghost use Rattle.scan_widen.specs.Countable.{is_countable};
ghost use Rattle.scan_widen.specs.Under.{
  segment_behind,
  segments_of,
  spelling_of,
  spelling_under,
  numbered,
  leaf_behind,
  leaf_under,
  validity_behind,
  validity_layouts,
  own_or_valid,
  behind,
  under,
  fields_behind,
  field_behind,
  field_under,
  field_layouts,
  kid_at,
  fields_in,
};
ghost use Rattle.scan_widen.specs.Parts.{HasValidity, IsReadable};

use crate::behind::{Behind, Widening};
use crate::count::{MOST_SEGMENTS, count_node};
use crate::parts::{
    element_of, field_child, fields_of, leaf_parts, list_parts, own_validity, wanted_fields,
};
use crate::scalar::ScalarType;
use scan_layout::{LayoutKind, LayoutNode, LayoutRef, LeafSegments};
use scan_segments::SegmentId;
use scan_spelling::Spelling;
use scan_values::{DType, DTypeKind, FieldName, NoMemory, Nullability, PType, StructFields};
use std::alloc::Global;

/// A layout under another dtype, and what stands behind each of its segments, which are numbered from 0 in the order of
/// the leaves.
#[derive(Drop)]
pub struct UnionLayout {
    pub root: LayoutRef,
    pub segments: Vec<Behind>,
}

// The next segment, behind which this stands.
fn add(made: &mut Vec<Behind>, one: Behind) -> Result<SegmentId, NoMemory>
    ensures id { IfOk result (λ id. id ≡ length made.old.items) }
    ensures added { OnOk result (made.new.items ≡ made.old.items ++ one ∷ []) }
{
    let Ok(id) = SegmentId::try_from(made.len()) else {
        return Err(NoMemory);
    };
    made.push(one)?;
    Ok(id)
}

// What stands behind a segment of a leaf of a dtype that is the same, or is not.
fn behind_of(
    same: bool,
    from: ScalarType,
    to: ScalarType,
    spelling: Spelling,
    id: SegmentId,
    rows: u64,
) -> Behind
    requires { same ≡ same_type from to }
    ensures { result ≡ segment_behind from to spelling (id, rows) }
{
    if same {
        Behind::Kept(id)
    } else {
        Behind::Widened(Widening {
            id,
            rows,
            spelling,
            from,
            to,
        })
    }
}

// The segments of a leaf, numbered on, behind each of which the leaf's own stands.
fn number_segments(
    made: &mut Vec<Behind>,
    alloc: Global,
    from: ScalarType,
    to: ScalarType,
    same: bool,
    spelling: Spelling,
    segments: &[(SegmentId, u64)],
) -> Result<Vec<(SegmentId, u64)>, NoMemory>
    requires { same ≡ same_type from to }
    ensures numbered { IfOk result (λ v. v.items ≡ numbered (length made.old.items) segments.now) }
    ensures behind { OnOk result (made.new.items ≡ made.old.items ++ map (segment_behind from to spelling) segments.now) }
{
    let mut numbers = Vec::with_capacity(alloc, segments.len())?;
    for i in 0..segments.len() {
        let segment = segments[i];
        let behind = behind_of(same, from, to, spelling, segment.0, segment.1);
        let number = add(made, behind)?;
        numbers.push((number, segment.1))?;
    }
    Ok(numbers)
}

// A leaf of these segments.
fn leaf_of(
    alloc: Global,
    dtype: &DType,
    rows: u64,
    segments: Vec<(SegmentId, u64)>,
    spelling: Spelling,
) -> Result<LayoutRef, NoMemory>
    ensures { IfOk result (λ r. r.value ≡ node dtype.now rows (LayoutKind.Leaf segments.items spelling) no_nodes) }
{
    let kind = LayoutKind::Leaf(LeafSegments::new(segments), spelling);
    LayoutNode::from_parts(alloc, dtype.try_clone(alloc)?, rows, kind, Vec::new(alloc))
}

// The spelling of a leaf of which the dtype is the same, or is not.
fn spelling_of_leaf(same: bool, spelling: Spelling) -> Spelling
    ensures { result ≡ (if same then spelling else Spelling.One) }
{
    if same { spelling } else { Spelling::One }
}

// A leaf under a scalar dtype: its segments are as they are where the dtype is the same, and else read as ones of it.
fn leaf_under(
    made: &mut Vec<Behind>,
    alloc: Global,
    dtype: &DType,
    node: &LayoutNode,
) -> Result<LayoutRef, NoMemory>
    requires scalar { is_scalar_type dtype.now ≡ true }
    requires own { is_scalar_type (dtype_of node.now) ≡ true }
    requires form { HasForm node.now (dtype_of node.now) }
    ensures layout { IfOk result (λ r. r.value ≡ leaf_under (length made.old.items) dtype.now node.now) }
    ensures behind { OnOk result (made.new.items ≡ made.old.items ++ leaf_behind dtype.now node.now) }
{
    let (segments, spelling) = leaf_parts(node);
    let own = node.dtype();
    let same = *own == *dtype;
    let from = ScalarType::of(own);
    let to = ScalarType::of(dtype);
    let numbers = number_segments(made, alloc, from, to, same, spelling, segments)?;
    let kept = spelling_of_leaf(same, spelling);
    leaf_of(alloc, dtype, node.row_count(), numbers, kept)
}

// A leaf of one segment, or of none where there are no rows.
#[tactic(auto, using(crate::proofs::Counting::only_none, crate::proofs::Counting::only_some))]
fn filled(
    made: &mut Vec<Behind>,
    alloc: Global,
    dtype: &DType,
    rows: u64,
    one: Behind,
) -> Result<LayoutRef, NoMemory>
    ensures layout { IfOk result (λ r. r.value ≡ one_leaf (length made.old.items) dtype.now rows) }
    ensures behind { OnOk result (made.new.items ≡ made.old.items ++ only_rows rows one) }
{
    let mut segments = Vec::new(alloc);
    if rows == 0 {
        return leaf_of(alloc, dtype, rows, segments, Spelling::One);
    }
    let id = add(made, one)?;
    segments.push((id, rows))?;
    leaf_of(alloc, dtype, rows, segments, Spelling::One)
}

// The dtype of validities.
fn flags() -> DType
    ensures { result ≡ flags }
{
    DType::bool(Nullability::NonNullable)
}

// Adds the validity that a nullability has of rows that the file does not have.
fn push_flags(
    made: &mut Vec<Behind>,
    alloc: Global,
    nullability: Nullability,
    rows: u64,
    children: &mut Vec<LayoutRef>,
) -> Result<(), NoMemory>
    ensures layout { OnOk result (layouts_of children.new.items
        ≡ layouts_of children.old.items ++ flags_layouts (length made.old.items) nullability rows) }
    ensures behind { OnOk result (made.new.items ≡ made.old.items ++ blank_flags nullability rows) }
{
    match nullability {
        Nullability::NonNullable => Ok(()),
        Nullability::Nullable => {
            let leaf = filled(
                made,
                alloc,
                &flags(),
                rows,
                Behind::Blank(ScalarType::flags(), rows),
            )?;
            children.push(leaf)?;
            Ok(())
        }
    }
}

// A leaf of rows that the file does not have.
fn blank_leaf(
    made: &mut Vec<Behind>,
    alloc: Global,
    dtype: &DType,
    rows: u64,
) -> Result<LayoutRef, NoMemory>
    requires { is_scalar_type dtype.now ≡ true }
    ensures layout { IfOk result (λ r. r.value ≡ one_leaf (length made.old.items) dtype.now rows) }
    ensures behind { OnOk result (made.new.items ≡ made.old.items ++ only_rows rows (Behind.Blank dtype.now rows)) }
{
    filled(
        made,
        alloc,
        dtype,
        rows,
        Behind::Blank(ScalarType::of(dtype), rows),
    )
}

// A node of a dtype with these children.
fn node_of(
    alloc: Global,
    dtype: &DType,
    rows: u64,
    kind: LayoutKind,
    children: Vec<LayoutRef>,
) -> Result<LayoutRef, NoMemory>
    ensures { IfOk result (λ r. r.value ≡ node dtype.now rows kind (nodes (layouts_of children.items))) }
{
    LayoutNode::from_parts(alloc, dtype.try_clone(alloc)?, rows, kind, children)
}

// Rows that the file does not have.
#[cycle(blank)]
fn blank_under(
    made: &mut Vec<Behind>,
    alloc: Global,
    dtype: &DType,
    rows: u64,
) -> Result<LayoutRef, NoMemory>
    requires { rows + 1 < 2 ^ 64 }
    ensures layout { IfOk result (λ r. r.value ≡ blank_under (length made.old.items) dtype.now rows) }
    ensures behind { OnOk result (made.new.items ≡ made.old.items ++ blank_behind dtype.now rows) }
{
    match dtype.kind() {
        DTypeKind::Bool => blank_leaf(made, alloc, dtype, rows),
        DTypeKind::Primitive(_) => blank_leaf(made, alloc, dtype, rows),
        DTypeKind::Utf8 => blank_leaf(made, alloc, dtype, rows),
        DTypeKind::List => blank_list(made, alloc, dtype, rows),
        DTypeKind::Struct => blank_struct(made, alloc, dtype, rows),
    }
}

#[cycle(blank)]
#[tactic(auto, using(crate::proofs::Fitting::element_smaller))]
fn blank_list(
    made: &mut Vec<Behind>,
    alloc: Global,
    dtype: &DType,
    rows: u64,
) -> Result<LayoutRef, NoMemory>
    requires list { kind_of dtype.now ≡ DTypeKind.List }
    requires room { rows + 1 < 2 ^ 64 }
    ensures layout { IfOk result (λ r. r.value ≡ blank_under (length made.old.items) dtype.now rows) }
    ensures behind { OnOk result (made.new.items ≡ made.old.items ++ blank_behind dtype.now rows) }
{
    let mut children = Vec::with_capacity(alloc, 3)?;
    let elements = blank_under(made, alloc, element_of(dtype), 0)?;
    children.push(elements)?;
    let numbers = DType::primitive(PType::U32, Nullability::NonNullable);
    let offsets = blank_leaf(made, alloc, &numbers, rows + 1)?;
    children.push(offsets)?;
    push_flags(made, alloc, dtype.nullability(), rows, &mut children)?;
    node_of(alloc, dtype, rows, LayoutKind::List(PType::U32), children)
}

#[cycle(blank)]
#[tactic(auto, using(crate::proofs::Fitting::fields_smaller))]
fn blank_struct(
    made: &mut Vec<Behind>,
    alloc: Global,
    dtype: &DType,
    rows: u64,
) -> Result<LayoutRef, NoMemory>
    requires record { kind_of dtype.now ≡ DTypeKind.Struct }
    requires room { rows + 1 < 2 ^ 64 }
    ensures layout { IfOk result (λ r. r.value ≡ blank_under (length made.old.items) dtype.now rows) }
    ensures behind { OnOk result (made.new.items ≡ made.old.items ++ blank_behind dtype.now rows) }
{
    let fields = fields_of(dtype);
    let mut children = Vec::new(alloc);
    push_flags(made, alloc, dtype.nullability(), rows, &mut children)?;
    push_blanks(made, alloc, fields, rows, &mut children)?;
    node_of(alloc, dtype, rows, LayoutKind::Struct, children)
}

// Adds such fields.
#[cycle(blank)]
#[tactic(auto, using(crate::proofs::Fitting::field_smaller))]
fn push_blanks(
    made: &mut Vec<Behind>,
    alloc: Global,
    fields: &StructFields,
    rows: u64,
    children: &mut Vec<LayoutRef>,
) -> Result<(), NoMemory>
    requires { rows + 1 < 2 ^ 64 }
    ensures layout { OnOk result (layouts_of children.new.items
        ≡ layouts_of children.old.items ++ blank_layouts (length made.old.items) (fields_of fields.now) rows) }
    ensures behind { OnOk result (made.new.items ≡ made.old.items ++ blanks_behind (fields_of fields.now) rows) }
{
    for i in 0..fields.nfields() {
        match fields.field_by_index(i) {
            Some(dtype) => {
                let blank = blank_under(made, alloc, dtype, rows)?;
                children.push(blank)?;
            }
            None => return Ok(()),
        }
    }
    Ok(())
}

// Adds the validity that a nullability has of a node: its own, or that of rows that are all there.
fn push_validity(
    made: &mut Vec<Behind>,
    alloc: Global,
    nullability: Nullability,
    node: &LayoutNode,
    place: usize,
    children: &mut Vec<LayoutRef>,
) -> Result<(), NoMemory>
    requires { HasValidity place node.now }
    ensures layout { OnOk result (layouts_of children.new.items
        ≡ layouts_of children.old.items ++ validity_layouts (length made.old.items) nullability node.now (kid_at (kids_of node.now) place)) }
    ensures behind { OnOk result (made.new.items
        ≡ made.old.items ++ validity_behind nullability node.now (kid_at (kids_of node.now) place)) }
{
    match nullability {
        Nullability::NonNullable => Ok(()),
        Nullability::Nullable => {
            let leaf = validity_of(made, alloc, node, place)?;
            children.push(leaf)?;
            Ok(())
        }
    }
}

// The validity of a node, or that of rows that are all there.
fn validity_of(
    made: &mut Vec<Behind>,
    alloc: Global,
    node: &LayoutNode,
    place: usize,
) -> Result<LayoutRef, NoMemory>
    requires { HasValidity place node.now }
    ensures layout { IfOk result (λ r. r.value ≡ own_or_valid (nullability_of (dtype_of node.now))
        (leaf_under (length made.old.items) flags (kid_at (kids_of node.now) place))
        (one_leaf (length made.old.items) flags (rows_of node.now))) }
    ensures behind { OnOk result (made.new.items
        ≡ made.old.items ++ validity_behind Nullability.Nullable node.now (kid_at (kids_of node.now) place)) }
{
    match node.dtype().nullability() {
        Nullability::NonNullable => {
            let rows = node.row_count();
            filled(made, alloc, &flags(), rows, Behind::Valid(rows))
        }
        Nullability::Nullable => leaf_under(made, alloc, &flags(), own_validity(node, place)),
    }
}

// A layout of good form under a dtype that its own fits.
#[cycle(under)]
fn node_under(
    made: &mut Vec<Behind>,
    alloc: Global,
    dtype: &DType,
    node: &LayoutNode,
) -> Result<LayoutRef, NoMemory>
    requires form { HasForm node.now (dtype_of node.now) }
    requires fits { fits_under (dtype_of node.now) dtype.now ≡ true }
    requires countable { is_countable node.now ≡ true }
    ensures layout { IfOk result (λ r. r.value ≡ under (length made.old.items) dtype.now node.now) }
    ensures behind { OnOk result (made.new.items ≡ made.old.items ++ behind dtype.now node.now) }
{
    match dtype.kind() {
        DTypeKind::Bool => leaf_under(made, alloc, dtype, node),
        DTypeKind::Primitive(_) => leaf_under(made, alloc, dtype, node),
        DTypeKind::Utf8 => leaf_under(made, alloc, dtype, node),
        DTypeKind::List => list_under(made, alloc, dtype, node),
        DTypeKind::Struct => struct_under(made, alloc, dtype, node),
    }
}

#[cycle(under)]
#[tactic(auto, using(crate::proofs::Fitting::element_smaller))]
fn list_under(
    made: &mut Vec<Behind>,
    alloc: Global,
    dtype: &DType,
    node: &LayoutNode,
) -> Result<LayoutRef, NoMemory>
    requires list { kind_of dtype.now ≡ DTypeKind.List }
    requires form { HasForm node.now (dtype_of node.now) }
    requires fits { fits_under (dtype_of node.now) dtype.now ≡ true }
    requires countable { is_countable node.now ≡ true }
    ensures layout { IfOk result (λ r. r.value ≡ under (length made.old.items) dtype.now node.now) }
    ensures behind { OnOk result (made.new.items ≡ made.old.items ++ behind dtype.now node.now) }
{
    let parts = list_parts(dtype, node);
    let mut children = Vec::with_capacity(alloc, 3)?;
    let elements = node_under(made, alloc, parts.element, parts.elements)?;
    children.push(elements)?;
    let offsets = leaf_under(made, alloc, parts.offsets.dtype(), parts.offsets)?;
    children.push(offsets)?;
    push_validity(made, alloc, dtype.nullability(), node, 2, &mut children)?;
    let kind = LayoutKind::List(parts.offsets_type);
    node_of(alloc, dtype, node.row_count(), kind, children)
}

#[cycle(under)]
#[tactic(auto, using(crate::proofs::Fitting::fields_smaller))]
fn struct_under(
    made: &mut Vec<Behind>,
    alloc: Global,
    dtype: &DType,
    node: &LayoutNode,
) -> Result<LayoutRef, NoMemory>
    requires record { kind_of dtype.now ≡ DTypeKind.Struct }
    requires form { HasForm node.now (dtype_of node.now) }
    requires fits { fits_under (dtype_of node.now) dtype.now ≡ true }
    requires countable { is_countable node.now ≡ true }
    ensures layout { IfOk result (λ r. r.value ≡ under (length made.old.items) dtype.now node.now) }
    ensures behind { OnOk result (made.new.items ≡ made.old.items ++ behind dtype.now node.now) }
{
    let fields = wanted_fields(dtype, node);
    let mut children = Vec::new(alloc);
    push_validity(made, alloc, dtype.nullability(), node, 0, &mut children)?;
    push_fields(made, alloc, fields, node, &mut children)?;
    node_of(alloc, dtype, node.row_count(), LayoutKind::Struct, children)
}

// Adds the wanted fields of a struct, in their order.
#[cycle(under)]
#[tactic(auto, using(crate::proofs::Fitting::field_smaller))]
fn push_fields(
    made: &mut Vec<Behind>,
    alloc: Global,
    fields: &StructFields,
    node: &LayoutNode,
    children: &mut Vec<LayoutRef>,
) -> Result<(), NoMemory>
    requires record { kind_of (dtype_of node.now) ≡ DTypeKind.Struct }
    requires form { HasForm node.now (dtype_of node.now) }
    requires fits { fields_fit (fields_in (dtype_of node.now)) (fields_of fields.now) ≡ true }
    requires countable { is_countable node.now ≡ true }
    ensures layout { OnOk result (layouts_of children.new.items
        ≡ layouts_of children.old.items ++ field_layouts (length made.old.items) (fields_of fields.now) node.now) }
    ensures behind { OnOk result (made.new.items ≡ made.old.items ++ fields_behind (fields_of fields.now) node.now) }
{
    let names = fields.names();
    for i in 0..names.len() {
        let name = &names[i];
        match fields.field_by_index(i) {
            Some(dtype) => {
                let field = field_under(made, alloc, name, dtype, node)?;
                children.push(field)?;
            }
            None => return Ok(()),
        }
    }
    Ok(())
}

// One wanted field: the child of its name, or rows that the file does not have.
#[cycle(under)]
fn field_under(
    made: &mut Vec<Behind>,
    alloc: Global,
    name: &FieldName,
    dtype: &DType,
    node: &LayoutNode,
) -> Result<LayoutRef, NoMemory>
    requires record { kind_of (dtype_of node.now) ≡ DTypeKind.Struct }
    requires form { HasForm node.now (dtype_of node.now) }
    requires fits { passes_or (is_nullable dtype.now) (λ d. fits_under d dtype.now)
        (dtype_named name.now (fields_in (dtype_of node.now))) ≡ true }
    requires countable { is_countable node.now ≡ true }
    ensures layout { IfOk result (λ r. r.value ≡ field_under (length made.old.items) name.now dtype.now node.now) }
    ensures behind { OnOk result (made.new.items ≡ made.old.items ++ field_behind name.now dtype.now node.now) }
{
    match field_child(node, name, dtype) {
        Some(child) => node_under(made, alloc, dtype, child),
        None => blank_under(made, alloc, dtype, node.row_count()),
    }
}

/// The layout of a file under another dtype, whose segments are numbered from 0 in the order of its leaves, with what
/// stands behind each. `layout` has good form under its own dtype, which fits the other, and no struct of it has the
/// greatest number of rows. Where a leaf's dtype is the same its segments are handed on in their spelling, else they are
/// widened; a field that the file lacks is blank, and a validity that is gained is one segment. The segments are counted
/// before any is made: the work is linear in what is made, and in the nodes of both where too many would be.
///
/// # Errors
/// `None` exactly where there would be more than 4294967296 segments. `NoMemory`.
pub fn union_layout(
    alloc: Global,
    dtype: &DType,
    layout: &LayoutNode,
) -> Result<Option<UnionLayout>, NoMemory>
    requires form { HasForm layout.now (dtype_of layout.now) }
    requires fits { fits_under (dtype_of layout.now) dtype.now ≡ true }
    requires countable { is_countable layout.now ≡ true }
    ensures layout { IfOk result (λ o. IfSome o (λ u. u.root.value ≡ under 0 dtype.now layout.now)) }
    ensures behind { IfOk result (λ o. IfSome o (λ u. u.segments.items ≡ behind dtype.now layout.now)) }
    ensures few { IfOk result (λ o. IfSome o (λ u. length u.segments.items ≤ 2 ^ 32)) }
    ensures readable { IfOk result (λ o. IfSome o (λ u. All IsReadable u.segments.items)) }
    ensures form { IfOk result (λ o. IfSome o (λ u. HasForm u.root.value dtype.now)) }
    ensures many { IfOk result (λ o. (o ≡ None) ↔ (2 ^ 32 < length (behind dtype.now layout.now))) }
{
    if count_node(dtype, layout) > MOST_SEGMENTS {
        return Ok(None);
    }
    let mut segments = Vec::new(alloc);
    let root = node_under(&mut segments, alloc, dtype, layout)?;
    Ok(Some(UnionLayout { root, segments }))
}
