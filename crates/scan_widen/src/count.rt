//! How many segments a layout has under another dtype, counted before any is made.
ghost use Rattle.std.specs.Prelude.{◌≡◌, ◌≤◌, ◌+◌, true, length};
ghost use Rattle.scan_values.specs.DataType.{fields_of, is_nullable};
ghost use Rattle.scan_values.specs.FieldLists.{dtype_named};
ghost use Rattle.scan_values.specs.Kinds.{kind_of, is_scalar_type};
ghost use Rattle.scan_layout.specs.Layout.{dtype_of, rows_of, kids_of, kind_of as node_kind};
ghost use Rattle.scan_layout.specs.Form.{HasForm};
ghost use Rattle.scan_widen.specs.declared.behind.Behind.{Behind};
ghost use Rattle.scan_widen.specs.FitsUnder.{passes_or, fits_under, fields_fit};
ghost use Rattle.scan_widen.specs.Blanks.{only_rows, blank_behind, blanks_behind, blank_flags};
ghost use Rattle.scan_widen.specs.Under.{behind, fields_behind, field_behind, validity_behind, segments_of, kid_at, fields_in};
ghost use Rattle.scan_widen.specs.Parts.{HasValidity};
ghost use Rattle.scan_widen.specs.Counts.{capped};

use crate::parts::{
    element_of, field_child, fields_of, leaf_parts, list_parts, own_validity, wanted_fields,
};
use scan_layout::LayoutNode;
use scan_values::{DType, DTypeKind, FieldName, Nullability, StructFields};

/// The most segments of a file.
pub(crate) const MOST_SEGMENTS: u64 = 4_294_967_296;

// The sum of two counts, as far as one past the most segments of a file.
fn sum(a: u64, b: u64) -> u64
    requires a { a ≤ 4294967297 }
    requires b { b ≤ 4294967297 }
    ensures sum { result ≡ capped (a + b) }
    ensures most { result ≤ 4294967297 }
{
    (a + b).min(MOST_SEGMENTS + 1)
}

// One segment where there are rows.
#[tactic(auto, using(crate::proofs::Counting::none_there, crate::proofs::Counting::one_there))]
fn one_of(rows: u64) -> u64
    ensures count { (b : Behind) → result ≡ length (only_rows rows b) }
    ensures most { result ≤ 1 }
{
    if rows == 0 { 0 } else { 1 }
}

// The segments of the validity of rows that the file does not have.
fn count_flags(nullability: Nullability, rows: u64) -> u64
    ensures count { result ≡ length (blank_flags nullability rows) }
    ensures most { result ≤ 1 }
{
    match nullability {
        Nullability::NonNullable => 0,
        Nullability::Nullable => one_of(rows),
    }
}

// The segments of rows that the file does not have.
#[cycle(blank)]
#[tactic(auto, using(crate::proofs::Fitting::element_smaller, crate::proofs::Fitting::fields_smaller))]
fn count_blank(dtype: &DType, rows: u64) -> u64
    ensures count { result ≡ capped (length (blank_behind dtype.now rows)) }
    ensures most { result ≤ 4294967297 }
{
    match dtype.kind() {
        DTypeKind::Bool => one_of(rows),
        DTypeKind::Primitive(_) => one_of(rows),
        DTypeKind::Utf8 => one_of(rows),
        DTypeKind::List => {
            let elements = count_blank(element_of(dtype), 0);
            sum(sum(elements, 1), count_flags(dtype.nullability(), rows))
        }
        DTypeKind::Struct => {
            let flags = count_flags(dtype.nullability(), rows);
            count_blanks(fields_of(dtype), rows, flags)
        }
    }
}

// A count with the segments of such fields.
#[cycle(blank)]
#[tactic(auto, using(crate::proofs::Fitting::field_smaller))]
fn count_blanks(fields: &StructFields, rows: u64, count: u64) -> u64
    requires { count ≤ 4294967297 }
    ensures count { result ≡ capped (count + length (blanks_behind (fields_of fields.now) rows)) }
    ensures most { result ≤ 4294967297 }
{
    let mut total = count;
    for i in 0..fields.nfields() {
        match fields.field_by_index(i) {
            Some(dtype) => total = sum(total, count_blank(dtype, rows)),
            None => return total,
        }
    }
    total
}

// The segments of a leaf.
fn count_leaf(node: &LayoutNode) -> u64
    requires scalar { is_scalar_type (dtype_of node.now) ≡ true }
    requires form { HasForm node.now (dtype_of node.now) }
    ensures count { result ≡ capped (length (segments_of (node_kind node.now))) }
    ensures most { result ≤ 4294967297 }
{
    let (segments, _) = leaf_parts(node);
    (segments.len() as u64).min(MOST_SEGMENTS + 1)
}

// The segments of the validity of a node under a nullability.
fn count_validity(nullability: Nullability, node: &LayoutNode, place: usize) -> u64
    requires { HasValidity place node.now }
    ensures count { result ≡ capped (length (validity_behind nullability node.now (kid_at (kids_of node.now) place))) }
    ensures most { result ≤ 4294967297 }
{
    match nullability {
        Nullability::NonNullable => 0,
        Nullability::Nullable => match node.dtype().nullability() {
            Nullability::NonNullable => one_of(node.row_count()),
            Nullability::Nullable => count_leaf(own_validity(node, place)),
        },
    }
}

/// How many segments a layout of good form has under a dtype that its own fits, as far as one past the most of a file.
#[cycle(count)]
pub(crate) fn count_node(dtype: &DType, node: &LayoutNode) -> u64
    requires form { HasForm node.now (dtype_of node.now) }
    requires fits { fits_under (dtype_of node.now) dtype.now ≡ true }
    ensures count { result ≡ capped (length (behind dtype.now node.now)) }
    ensures most { result ≤ 4294967297 }
{
    match dtype.kind() {
        DTypeKind::Bool => count_leaf(node),
        DTypeKind::Primitive(_) => count_leaf(node),
        DTypeKind::Utf8 => count_leaf(node),
        DTypeKind::List => count_list(dtype, node),
        DTypeKind::Struct => count_struct(dtype, node),
    }
}

#[cycle(count)]
#[tactic(auto, using(crate::proofs::Fitting::element_smaller))]
fn count_list(dtype: &DType, node: &LayoutNode) -> u64
    requires list { kind_of dtype.now ≡ DTypeKind.List }
    requires form { HasForm node.now (dtype_of node.now) }
    requires fits { fits_under (dtype_of node.now) dtype.now ≡ true }
    ensures count { result ≡ capped (length (behind dtype.now node.now)) }
    ensures most { result ≤ 4294967297 }
{
    let parts = list_parts(dtype, node);
    let elements = count_node(parts.element, parts.elements);
    let offsets = count_leaf(parts.offsets);
    let validity = count_validity(dtype.nullability(), node, 2);
    sum(sum(elements, offsets), validity)
}

#[cycle(count)]
#[tactic(auto, using(crate::proofs::Fitting::fields_smaller))]
fn count_struct(dtype: &DType, node: &LayoutNode) -> u64
    requires record { kind_of dtype.now ≡ DTypeKind.Struct }
    requires form { HasForm node.now (dtype_of node.now) }
    requires fits { fits_under (dtype_of node.now) dtype.now ≡ true }
    ensures count { result ≡ capped (length (behind dtype.now node.now)) }
    ensures most { result ≤ 4294967297 }
{
    let fields = wanted_fields(dtype, node);
    let validity = count_validity(dtype.nullability(), node, 0);
    count_fields(fields, node, validity)
}

// A count with the segments of the wanted fields of a struct.
#[cycle(count)]
#[tactic(auto, using(crate::proofs::Fitting::field_smaller))]
fn count_fields(fields: &StructFields, node: &LayoutNode, count: u64) -> u64
    requires record { kind_of (dtype_of node.now) ≡ DTypeKind.Struct }
    requires form { HasForm node.now (dtype_of node.now) }
    requires fits { fields_fit (fields_in (dtype_of node.now)) (fields_of fields.now) ≡ true }
    requires most { count ≤ 4294967297 }
    ensures count { result ≡ capped (count + length (fields_behind (fields_of fields.now) node.now)) }
    ensures most { result ≤ 4294967297 }
{
    let names = fields.names();
    let mut total = count;
    for i in 0..names.len() {
        let name = &names[i];
        match fields.field_by_index(i) {
            Some(dtype) => total = sum(total, count_field(name, dtype, node)),
            None => return total,
        }
    }
    total
}

// The segments of one wanted field.
#[cycle(count)]
fn count_field(name: &FieldName, dtype: &DType, node: &LayoutNode) -> u64
    requires record { kind_of (dtype_of node.now) ≡ DTypeKind.Struct }
    requires form { HasForm node.now (dtype_of node.now) }
    requires fits { passes_or (is_nullable dtype.now) (λ d. fits_under d dtype.now)
        (dtype_named name.now (fields_in (dtype_of node.now))) ≡ true }
    ensures count { result ≡ capped (length (field_behind name.now dtype.now node.now)) }
    ensures most { result ≤ 4294967297 }
{
    match field_child(node, name, dtype) {
        Some(child) => count_node(dtype, child),
        None => count_blank(dtype, node.row_count()),
    }
}
