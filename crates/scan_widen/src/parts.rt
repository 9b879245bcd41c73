//! The parts of a layout of good form, and of a dtype that its own fits.
ghost use Rattle.std.specs.Prelude.{◌≡◌, ◌<◌, Some, IfSome, option_map, true};
ghost use Rattle.scan_values.specs.DataType.{fields_of, is_nullable};
ghost use Rattle.scan_values.specs.FieldLists.{dtype_named};
ghost use Rattle.scan_values.specs.Kinds.{kind_of, element_of, struct_fields_of, is_scalar_type};
ghost use Rattle.scan_layout.specs.Layout.{dtype_of, kids_of, kind_of as node_kind, count};
ghost use Rattle.scan_layout.specs.Form.{HasForm};
ghost use Rattle.scan_layout.specs.Slots.{one_where};
ghost use Rattle.scan_widen.specs.Blanks.{flags};
ghost use Rattle.scan_widen.specs.Countable.{is_countable};
ghost use Rattle.scan_widen.specs.FitsUnder.{passes_or, fits_under, fields_fit};
ghost use Rattle.scan_widen.specs.Parts.{HasValidity, IsGoodField};
ghost use Rattle.scan_widen.specs.Under.{kid_at, field_kid, fields_in, segments_of, spelling_of};

use scan_layout::{LayoutKind, LayoutNode};
use scan_segments::SegmentId;
use scan_spelling::Spelling;
use scan_values::{DType, DTypeKind, FieldName, Nullability, PType, StructFields};

/// The dtype of the elements of a dtype of lists.
#[tactic(auto, using(crate::proofs::Forming::has_element))]
pub(crate) fn element_of(dtype: &DType) -> &DType
    requires { kind_of dtype.now ≡ DTypeKind.List }
    ensures { element_of dtype.now ≡ Some result.now }
{
    match dtype.as_list_element_opt() {
        Some(element) => element,
        None => unreachable!(),
    }
}

/// The fields of a dtype of structs.
#[tactic(auto, using(crate::proofs::Forming::has_fields))]
pub(crate) fn fields_of(dtype: &DType) -> &StructFields
    requires { kind_of dtype.now ≡ DTypeKind.Struct }
    ensures { struct_fields_of dtype.now ≡ Some (fields_of result.now) }
{
    match dtype.as_struct_fields_opt() {
        Some(fields) => fields,
        None => unreachable!(),
    }
}

// The child of an index.
fn child_at(node: &LayoutNode, index: usize) -> &LayoutNode
    requires { index < count (kids_of node.now) }
    ensures { result.now ≡ kid_at (kids_of node.now) index }
{
    let child = &node.children.as_slice()[index];
    child
}

// The type of the offsets of lists.
fn offsets_type(node: &LayoutNode) -> PType
    requires list { kind_of (dtype_of node.now) ≡ DTypeKind.List }
    requires form { HasForm node.now (dtype_of node.now) }
    ensures { node_kind node.now ≡ LayoutKind.List result }
{
    match &node.kind {
        LayoutKind::List(ptype) => *ptype,
        LayoutKind::Struct => unreachable!(),
        LayoutKind::Leaf(_, _) => unreachable!(),
    }
}

/// The parts of a layout of lists under a dtype.
#[derive(Drop)]
pub(crate) struct ListParts<'a, 'b> {
    pub(crate) element: &'a DType,
    pub(crate) elements: &'b LayoutNode,
    pub(crate) offsets: &'b LayoutNode,
    pub(crate) offsets_type: PType,
}

/// The dtype of the elements, the elements and the offsets of a layout under a dtype of lists.
pub(crate) fn list_parts<'a, 'b>(dtype: &'a DType, node: &'b LayoutNode) -> ListParts<'a, 'b>
    requires list { kind_of dtype.now ≡ DTypeKind.List }
    requires form { HasForm node.now (dtype_of node.now) }
    requires fits { fits_under (dtype_of node.now) dtype.now ≡ true }
    ensures dtype { element_of dtype.entry.now ≡ Some result.element.now }
    ensures kind { node_kind node.entry.now ≡ LayoutKind.List result.offsets_type }
    ensures elements { result.elements.now ≡ kid_at (kids_of node.entry.now) 0 }
    ensures form { HasForm result.elements.now (dtype_of result.elements.now) }
    ensures fits { fits_under (dtype_of result.elements.now) result.element.now ≡ true }
    ensures countable { is_countable node.entry.now ≡ true → is_countable result.elements.now ≡ true }
    ensures offsets { result.offsets.now ≡ kid_at (kids_of node.entry.now) 1 }
    ensures leaf { HasForm result.offsets.now (dtype_of result.offsets.now) }
    ensures scalar { is_scalar_type (dtype_of result.offsets.now) ≡ true }
    ensures validity { HasValidity 2 node.entry.now }
{
    ListParts {
        element: element_of(dtype),
        elements: child_at(node, 0),
        offsets: child_at(node, 1),
        offsets_type: offsets_type(node),
    }
}

/// The fields of a dtype of structs, which those of a layout fit.
#[tactic(auto, using(crate::proofs::Forming::struct_from, crate::proofs::Forming::struct_is, crate::proofs::Forming::fields_fit_in))]
pub(crate) fn wanted_fields<'a>(dtype: &'a DType, node: &LayoutNode) -> &'a StructFields
    requires record { kind_of dtype.now ≡ DTypeKind.Struct }
    requires form { HasForm node.now (dtype_of node.now) }
    requires fits { fits_under (dtype_of node.now) dtype.now ≡ true }
    ensures dtype { struct_fields_of dtype.entry.now ≡ Some (fields_of result.now) }
    ensures own { kind_of (dtype_of node.now) ≡ DTypeKind.Struct }
    ensures kind { node_kind node.now ≡ LayoutKind.Struct }
    ensures fits { fields_fit (fields_in (dtype_of node.now)) (fields_of result.now) ≡ true }
    ensures validity { HasValidity 0 node.now }
{
    fields_of(dtype)
}

// The index of the child of the first field.
fn first_field(nullability: Nullability) -> usize
    ensures { result ≡ one_where nullability }
{
    match nullability {
        Nullability::NonNullable => 0,
        Nullability::Nullable => 1,
    }
}

/// The child of a struct that is the field of this name, if it has one.
pub(crate) fn field_child<'a>(
    node: &'a LayoutNode,
    name: &FieldName,
    wanted: &DType,
) -> Option<&'a LayoutNode>
    requires record { kind_of (dtype_of node.now) ≡ DTypeKind.Struct }
    requires form { HasForm node.now (dtype_of node.now) }
    requires fits { passes_or (is_nullable wanted.now) (λ d. fits_under d wanted.now)
        (dtype_named name.now (fields_in (dtype_of node.now))) ≡ true }
    ensures is { option_map (λ l. l.now) result ≡ field_kid name.now node.entry.now }
    ensures good { IfSome result (λ l. IsGoodField node.entry.now l.now wanted.now) }
{
    let fields = fields_of(node.dtype());
    let _count = fields.nfields();
    match fields.find(name) {
        Some(place) => Some(child_at(node, first_field(node.dtype().nullability()) + place)),
        None => None,
    }
}

/// The validity of a nullable node.
pub(crate) fn own_validity(node: &LayoutNode, place: usize) -> &LayoutNode
    requires nullable { is_nullable (dtype_of node.now) ≡ true }
    requires valid { HasValidity place node.now }
    ensures is { result.now ≡ kid_at (kids_of node.now) place }
    ensures form { HasForm result.now (dtype_of result.now) }
    ensures flags { dtype_of result.now ≡ flags }
{
    child_at(node, place)
}

/// The segments of a leaf, and their spelling.
#[tactic(auto, using(crate::proofs::Forming::no_leaf, crate::proofs::Forming::no_leaf_list))]
pub(crate) fn leaf_parts(node: &LayoutNode) -> (&[(SegmentId, u64)], Spelling)
    requires scalar { is_scalar_type (dtype_of node.now) ≡ true }
    requires form { HasForm node.now (dtype_of node.now) }
    ensures segments { result.0.now ≡ segments_of (node_kind node.now) }
    ensures spelling { result.1 ≡ spelling_of (node_kind node.now) }
{
    match &node.kind {
        LayoutKind::Leaf(segments, spelling) => (segments.as_slice(), *spelling),
        LayoutKind::Struct => unreachable!(),
        LayoutKind::List(_) => unreachable!(),
    }
}
