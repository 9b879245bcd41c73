//! The registration of the splits of a layout. After the Rust's `register_splits` of its readers.
ghost use Rattle.std.specs.Prelude.{◌≡◌, ◌≤◌, ◌<◌, ◌+◌, ◌↔◌, ◌++◌, ◌∷◌, [], map, filter, Some, None, Err, IfOk, IfErr, IfSome, ◌^◌, length};
ghost use Rattle.std.specs.List.{list_any, flat_map};
ghost use Rattle.scan_values.specs.DataType.{fields_of, nullability_of, struct_type};
ghost use Rattle.scan_values.specs.FieldLists.{names_of};
ghost use Rattle.scan_values.specs.FieldPaths.{matches_all};
ghost use Rattle.scan_values.specs.Kinds.{struct_fields_of};
ghost use Rattle.scan_layout.specs.Layout.{nodes, rows_of};
ghost use Rattle.scan_layout.specs.LayoutView.{layouts_of};
ghost use Rattle.scan_layout.specs.RowValue.{nth_rows};
ghost use Rattle.scan_layout.specs.Laws.{path_of};
ghost use Rattle.scan_layout.specs.Slots.{one_where, matching_fields, every_field, named_fields, field_of};
ghost use Rattle.scan_layout.specs.Edges as cut;
ghost use Rattle.scan_layout.specs.Edges.{edges, nth_edges, segment_ends, is_inside, list_split_grid_size};
ghost use Rattle.scan_layout.specs.Edges.{struct_matches, matching, matching_one};
ghost use Rattle.scan_splits.specs.RowLists.{shifted, SameNumbers, Pushes};
ghost use Rattle.scan_splits.specs.ListSplits.{mapped_inside};
ghost use Rattle.scan_splits.specs.SplitFaults.{Tells};
ghost use Rattle.scan_splits.specs.LayoutSplits.{matched_edges, any_found, found_fields, misses, nth_misses, missing, split_fault};

use crate::fault::SplitFault;
use crate::list_splits::register_list_splits;
use crate::push::{push_end, push_segment_ends};
use crate::row_splits::RowSplits;
use crate::split_range::SplitRange;
use scan_layout::{ELEMENTS_CHILD_INDEX, LayoutKind, LayoutNode, LayoutRef};
use scan_segments::SegmentId;
use scan_values::{DType, FieldMask, NoMemory, Nullability, StructFields};
use std::alloc::Global;
use std::slice;

// How many splits of elements there is room for at first.
const ELEMENT_SPLITS: usize = 128;

/// Registers the splits of a layout in a range: the edges of its leaves under the masks, those of the elements of lists
/// on the grid of the lists, and the range's end, each plus the range's row offset. What was pushed before a refusal
/// stays.
///
/// # Errors
/// `Bounds` exactly where the range's end passes the row count. Else `NoSuchField` exactly where at a struct that the
/// masks reach none of them matches all and one names no field, unless memory ran out before: `NoMemory`.
pub fn register_layout_splits(
    alloc: Global,
    node: &LayoutNode,
    masks: &[FieldMask],
    range: &SplitRange,
    splits: &mut RowSplits,
) -> Result<(), SplitFault>
    ensures bounds { (result ≡ Err SplitFault.Bounds) ↔ (rows_of node.now < range.now.end) }
    ensures first { Tells result (split_fault node.now masks.now range.now.end) }
    ensures pushed { Pushes result (shifted range.now.offset
        (edges node.now (map path_of masks.now) range.now.start range.now.end)) splits.old splits.new }
{
    if range.check_bounds(node.row_count()).is_err() {
        return Err(SplitFault::Bounds);
    }
    register_node(alloc, node, masks, range, splits)
}

// Registers the splits of a node.
#[cycle(register)]
fn register_node(
    alloc: Global,
    node: &LayoutNode,
    masks: &[FieldMask],
    range: &SplitRange,
    splits: &mut RowSplits,
) -> Result<(), SplitFault>
    ensures first { Tells result (missing (misses node.now masks.now)) }
    ensures pushed { Pushes result (shifted range.now.offset
        (edges node.now (map path_of masks.now) range.now.start range.now.end)) splits.old splits.new }
{
    let children = node.children.as_slice();
    match &node.kind {
        LayoutKind::Leaf(segments, _) => register_segments(segments.as_slice(), range, splits),
        LayoutKind::Struct => register_struct(alloc, &node.dtype, children, masks, range, splits),
        LayoutKind::List(_) => register_list(alloc, node.row_count, children, range, splits),
    }
}

// Registers the splits of a leaf.
fn register_segments(
    segments: &[(SegmentId, u64)],
    range: &SplitRange,
    splits: &mut RowSplits,
) -> Result<(), SplitFault>
    ensures first { Tells result None }
    ensures pushed { Pushes result (shifted range.now.offset (filter (is_inside range.now.start range.now.end)
        (segment_ends 0 segments.now) ++ range.now.end ∷ [])) splits.old splits.new }
{
    push_segment_ends(segments, range, splits)?;
    push_end(range, splits)?;
    Ok(())
}

// Registers the splits of a list of these children.
#[cycle(register)]
fn register_list(
    alloc: Global,
    rows: u64,
    children: &[LayoutRef],
    range: &SplitRange,
    splits: &mut RowSplits,
) -> Result<(), SplitFault>
    ensures first { Tells result None }
    ensures pushed { Pushes result (shifted range.now.offset
        (mapped_inside (nth_rows (nodes (layouts_of children.now)) 0) rows (list_split_grid_size rows)
        range.now.start range.now.end
        (nth_edges (nodes (layouts_of children.now)) 0 ([] ∷ []) 0 (nth_rows (nodes (layouts_of children.now)) 0))
        ++ range.now.end ∷ [])) splits.old splits.new }
{
    if children.is_empty() {
        push_end(range, splits)?;
        return Ok(());
    }
    let elements = &children[ELEMENTS_CHILD_INDEX];
    let found = splits_of_all(alloc, elements)?;
    register_list_splits(&found, elements.row_count(), rows, range, splits)?;
    Ok(())
}

// The splits of all of a node, rising.
#[cycle(register)]
fn splits_of_all(alloc: Global, node: &LayoutNode) -> Result<Vec<u64>, NoMemory>
    ensures { IfOk result (λ v. SameNumbers v.items (edges node.now ([] ∷ []) 0 (rows_of node.now))) }
{
    let mut found = RowSplits::new_capacity(alloc, ELEMENT_SPLITS)?;
    let all = [FieldMask::All];
    let whole = SplitRange::whole(node.row_count());
    match register_node(alloc, node, &all, &whole, &mut found) {
        Ok(()) => Ok(found.into_sorted_deduped()),
        Err(_) => Err(NoMemory),
    }
}

// Registers the splits of a struct of these children.
#[cycle(register)]
fn register_struct(
    alloc: Global,
    dtype: &DType,
    children: &[LayoutRef],
    masks: &[FieldMask],
    range: &SplitRange,
    splits: &mut RowSplits,
) -> Result<(), SplitFault>
    ensures first { Tells result (missing (any_found (λ m. nth_misses (nodes (layouts_of children.now))
        (one_where (nullability_of dtype.now) + m.1) (m.0 ∷ []))
        (found_fields (struct_fields_of dtype.now) masks.now))) }
    ensures pushed { Pushes result (shifted range.now.offset (matched_edges (nodes (layouts_of children.now))
        (struct_matches dtype.now (map path_of masks.now)) range.now.start range.now.end ++ range.now.end ∷ []))
        splits.old splits.new }
{
    let Some(fields) = dtype.as_struct_fields_opt() else {
        push_end(range, splits)?;
        return Ok(());
    };
    let nullability = dtype.nullability();
    register_fields(alloc, nullability, fields, children, masks, range, splits)?;
    push_end(range, splits)?;
    Ok(())
}

// Registers the splits of a struct's validity, where it has one, and of the fields that masks match.
#[cycle(register)]
fn register_fields(
    alloc: Global,
    nullability: Nullability,
    fields: &StructFields,
    children: &[LayoutRef],
    masks: &[FieldMask],
    range: &SplitRange,
    splits: &mut RowSplits,
) -> Result<(), SplitFault>
    ensures first { Tells result (missing (any_found (λ m. nth_misses (nodes (layouts_of children.now))
        (one_where nullability + m.1) (m.0 ∷ [])) (matching_fields (fields_of fields.now) masks.now))) }
    ensures pushed { Pushes result (shifted range.now.offset (matched_edges (nodes (layouts_of children.now))
        (struct_matches (struct_type (fields_of fields.now) nullability) (map path_of masks.now))
        range.now.start range.now.end))
        splits.old splits.new }
{
    match nullability {
        Nullability::NonNullable => register_matching(
            alloc, 0, fields, children, masks, range, splits,
        ),
        Nullability::Nullable => {
            register_child(alloc, 0, children, &FieldMask::All, range, splits)?;
            register_matching(alloc, 1, fields, children, masks, range, splits)
        }
    }
}

// Registers the splits of the fields that masks match, the first of which is the child of an index.
#[cycle(register)]
fn register_matching(
    alloc: Global,
    first: usize,
    fields: &StructFields,
    children: &[LayoutRef],
    masks: &[FieldMask],
    range: &SplitRange,
    splits: &mut RowSplits,
) -> Result<(), SplitFault>
    requires { first < 2 }
    ensures first { Tells result (missing (any_found (λ m. nth_misses (nodes (layouts_of children.now))
        (first + m.1) (m.0 ∷ [])) (matching_fields (fields_of fields.now) masks.now))) }
    ensures pushed { Pushes result (shifted range.now.offset (matched_edges (nodes (layouts_of children.now))
        (matching (fields_of fields.now) first (map path_of masks.now)) range.now.start range.now.end))
        splits.old splits.new }
{
    if some_matches_all(masks) {
        register_every(alloc, first, fields, children, range, splits)
    } else {
        register_named(alloc, first, fields, children, masks, range, splits)
    }
}

// Whether some mask matches all.
fn some_matches_all(masks: &[FieldMask]) -> bool
    ensures { result ≡ list_any matches_all masks.now }
{
    masks.iter().any(|mask| mask.matches_all())
}

// Registers the splits of every field.
#[cycle(register)]
fn register_every(
    alloc: Global,
    first: usize,
    fields: &StructFields,
    children: &[LayoutRef],
    range: &SplitRange,
    splits: &mut RowSplits,
) -> Result<(), SplitFault>
    requires { first < 2 }
    ensures first { Tells result None }
    ensures pushed { Pushes result (shifted range.now.offset (matched_edges (nodes (layouts_of children.now))
        (cut.every_field (fields_of fields.now) first) range.now.start range.now.end)) splits.old splits.new }
{
    for i in 0..fields.names().len() {
        register_child(alloc, first + i, children, &FieldMask::All, range, splits)?;
    }
    Ok(())
}

// Registers the splits of the field that each mask names, under the mask below the name.
#[cycle(register)]
fn register_named(
    alloc: Global,
    first: usize,
    fields: &StructFields,
    children: &[LayoutRef],
    masks: &[FieldMask],
    range: &SplitRange,
    splits: &mut RowSplits,
) -> Result<(), SplitFault>
    requires { first < 2 }
    ensures first { Tells result (missing (any_found (λ m. nth_misses (nodes (layouts_of children.now))
        (first + m.1) (m.0 ∷ [])) (named_fields (names_of fields.now) masks.now))) }
    ensures pushed { Pushes result (shifted range.now.offset (matched_edges (nodes (layouts_of children.now))
        (flat_map (matching_one (fields_of fields.now) first) (map path_of masks.now)) range.now.start range.now.end))
        splits.old splits.new }
{
    for mask in masks {
        let Some(i) = field_of(fields, mask) else {
            return Err(SplitFault::NoSuchField);
        };
        let below = mask.try_clone(alloc)?.step_into();
        register_child(alloc, first + i, children, &below, range, splits)?;
    }
    Ok(())
}

// The place of the field of a mask's first name, which is below the number of the fields.
fn field_of(fields: &StructFields, mask: &FieldMask) -> Option<usize>
    ensures place { result ≡ field_of (names_of fields.now) mask.now }
    ensures below { IfSome result (λ i. i + 1 < 2 ^ 64) }
{
    let _count = fields.names().len();
    fields.find(mask.starting_field()?)
}

// Registers the splits of the child of an index, where there is one, under a mask.
#[cycle(register)]
#[tactic(auto, using(scan_layout::proofs::Sizes::child_below))]
fn register_child(
    alloc: Global,
    i: usize,
    children: &[LayoutRef],
    mask: &FieldMask,
    range: &SplitRange,
    splits: &mut RowSplits,
) -> Result<(), SplitFault>
    ensures first { Tells result (missing (nth_misses (nodes (layouts_of children.now)) i (mask.now ∷ []))) }
    ensures pushed { Pushes result (shifted range.now.offset (nth_edges (nodes (layouts_of children.now)) i
        (path_of mask.now ∷ []) range.now.start range.now.end)) splits.old splits.new }
{
    if i < children.len() {
        return register_node(alloc, &children[i], slice::from_ref(mask), range, splits);
    }
    Ok(())
}
