//! Layouts, read from JSON, each node unchecked.
ghost use Rattle.std.specs.Prelude.{◌≡◌, ◌∷◌, ◌*◌, ◌+◌, ◌^◌, ◌-◌, IfOk, option_and_then, Some, None, codes};
ghost use Rattle.serde_json.specs.View.{view, items_view};
ghost use Rattle.serde_json.specs.Find.{get, as_array};
ghost use Rattle.scan_layout.specs.LayoutView.{layouts_of};
ghost use Rattle.scan_manifest.specs.Parse.{IsParse, IsParseBy};
ghost use Rattle.scan_manifest.specs.Json.{each, each_from, list_in};
ghost use Rattle.scan_manifest.specs.Layouts.{truth, field_or_truth, struct_child, list_child, child_type, place_in, spelling_numbered, spelling_in, rows_in, children_in, leaf_layout, struct_layout, offsets_in, list_layout, tree_in, layout_within, layout_in};
ghost use Rattle.scan_values.specs.DataType.{fields_of, is_nullable};
ghost use Rattle.scan_values.specs.Kinds.{element_of, struct_fields_of};

use crate::dtype::{MOST_LEVELS, ptype_named};
use crate::json::{
    Form, ParseFault, has_form, member, read_items, read_number, read_number_to, read_pair,
    read_text,
};
use scan_layout::{LayoutKind, LayoutNode, LayoutRef, LeafSegments, Spelling};
use scan_segments::SegmentId;
use scan_values::{DType, NoMemory, Nullability, PType, StructFields};
use serde_json::Value;
use std::alloc::Global;

fn truth() -> DType
    ensures { result ≡ truth }
{
    DType::bool(Nullability::NonNullable)
}

fn field_or_truth(alloc: Global, fields: &StructFields, i: usize) -> Result<DType, NoMemory>
    ensures { IfOk result (λ d. d ≡ field_or_truth (fields_of fields.now) i) }
{
    match fields.field_by_index(i) {
        Some(dtype) => dtype.try_clone(alloc),
        None => Ok(truth()),
    }
}

fn struct_child(alloc: Global, dtype: &DType, i: usize) -> Result<DType, NoMemory>
    ensures { IfOk result (λ d. d ≡ struct_child (is_nullable dtype.now) (struct_fields_of dtype.now) i) }
{
    let Some(fields) = dtype.as_struct_fields_opt() else {
        return Ok(truth());
    };
    if !dtype.is_nullable() {
        return field_or_truth(alloc, fields, i);
    }
    if i == 0 {
        return Ok(truth());
    }
    field_or_truth(alloc, fields, i - 1)
}

fn element_or_truth(alloc: Global, dtype: &DType) -> Result<DType, NoMemory>
    ensures { IfOk result (λ d. d ≡ list_child PType.U8 (element_of dtype.now) 0) }
{
    match dtype.as_list_element_opt() {
        Some(element) => element.try_clone(alloc),
        None => Ok(truth()),
    }
}

fn list_child(alloc: Global, p: PType, dtype: &DType, i: usize) -> Result<DType, NoMemory>
    ensures { IfOk result (λ d. d ≡ list_child p (element_of dtype.now) i) }
{
    if i == 0 {
        return element_or_truth(alloc, dtype);
    }
    if i == 1 {
        return Ok(DType::primitive(p, Nullability::NonNullable));
    }
    Ok(truth())
}

/// The dtype of a child by its place.
fn child_type(alloc: Global, kind: &LayoutKind, dtype: &DType, i: usize) -> Result<DType, NoMemory>
    ensures { IfOk result (λ d. d ≡ child_type kind.now dtype.now i) }
{
    match kind {
        LayoutKind::Leaf(_, _) => Ok(truth()),
        LayoutKind::Struct => struct_child(alloc, dtype, i),
        LayoutKind::List(p) => list_child(alloc, *p, dtype, i),
    }
}

fn read_place(json: &Value) -> Result<(SegmentId, u64), ParseFault>
    ensures { IsParse (place_in (view json.now)) result }
{
    let (id, rows) = read_pair(json)?;
    let id = read_number_to(id, 4_294_967_295)?;
    let rows = read_number(rows)?;
    Ok((SegmentId::from(id as u32), rows))
}

fn read_places(alloc: Global, list: &[Value]) -> Result<Vec<(SegmentId, u64)>, ParseFault>
    ensures { IsParseBy (λ v. v.items) (each place_in (items_view list.now)) result }
{
    let mut places = Vec::new(alloc);
    for json in list {
        places.push(read_place(json)?)?;
    }
    Ok(places)
}

fn read_rows(json: &Value) -> Result<u64, ParseFault>
    ensures { IsParse (rows_in (view json.now)) result }
{
    read_number(member(json, "rows")?)
}

fn spelling_numbered(n: u64) -> Option<Spelling>
    ensures { result ≡ spelling_numbered n }
{
    match n {
        1 => Some(Spelling::One),
        2 => Some(Spelling::Two),
        _ => None,
    }
}

/// How the segments of a leaf are spelt: in spelling 1 where none is told.
fn read_spelling(json: &Value) -> Result<Spelling, ParseFault>
    ensures { IsParse (spelling_in (view json.now)) result }
{
    let Some(number) = json.get("spelling") else {
        return Ok(Spelling::One);
    };
    match spelling_numbered(read_number(number)?) {
        Some(spelling) => Ok(spelling),
        None => Err(ParseFault::Bad),
    }
}

fn read_offsets(json: &Value) -> Result<PType, ParseFault>
    ensures { IsParse (offsets_in (view json.now)) result }
{
    match ptype_named(read_text(member(json, "offsets")?)?) {
        Some(p) => Ok(p),
        None => Err(ParseFault::Bad),
    }
}

fn read_leaf(
    alloc: Global,
    dtype: DType,
    json: &Value,
    segments: &Value,
) -> Result<LayoutRef, ParseFault>
    ensures { IsParseBy (λ r. r.value) (leaf_layout dtype (view json.now) (view segments.now)) result }
{
    if !has_form(Form::LeafLayout, json) {
        return Err(ParseFault::Bad);
    }
    let spelling = read_spelling(json)?;
    let places = LeafSegments::new(read_places(alloc, read_items(segments)?)?);
    let rows = read_rows(json)?;
    let none = Vec::new(alloc);
    Ok(LayoutNode::from_parts(alloc, dtype, rows, LayoutKind::Leaf(places, spelling), none)?)
}

/// A layout of a dtype that nests no deeper than so many levels.
#[cycle(layouts)]
fn read_layout_within(
    alloc: Global,
    dtype: DType,
    json: &Value,
    levels: u32,
) -> Result<LayoutRef, ParseFault>
    ensures { IsParseBy (λ r. r.value) (layout_within levels dtype (view json.now)) result }
{
    if levels == 0 {
        return Err(ParseFault::Bad);
    }
    match json.get("leaf") {
        Some(segments) => read_leaf(alloc, dtype, json, segments),
        None => read_tree(alloc, dtype, json, levels - 1),
    }
}

#[cycle(layouts)]
fn read_tree(
    alloc: Global,
    dtype: DType,
    json: &Value,
    levels: u32,
) -> Result<LayoutRef, ParseFault>
    ensures { IsParseBy (λ r. r.value) (tree_in (layout_within levels) dtype (view json.now) (get (codes "struct") (view json.now))) result }
{
    match json.get("struct") {
        Some(children) => read_struct(alloc, dtype, json, children, levels),
        None => read_list(alloc, dtype, json, member(json, "list")?, levels),
    }
}

#[cycle(layouts)]
fn read_struct(
    alloc: Global,
    dtype: DType,
    json: &Value,
    children: &Value,
    levels: u32,
) -> Result<LayoutRef, ParseFault>
    ensures { IsParseBy (λ r. r.value) (struct_layout (layout_within levels) dtype (view json.now) (view children.now)) result }
{
    if !has_form(Form::StructLayout, json) {
        return Err(ParseFault::Bad);
    }
    let kind = LayoutKind::Struct;
    let children = read_children(alloc, &kind, &dtype, read_items(children)?, levels)?;
    let rows = read_rows(json)?;
    Ok(LayoutNode::from_parts(alloc, dtype, rows, kind, children)?)
}

#[cycle(layouts)]
fn read_list(
    alloc: Global,
    dtype: DType,
    json: &Value,
    children: &Value,
    levels: u32,
) -> Result<LayoutRef, ParseFault>
    ensures { IsParseBy (λ r. r.value) (list_layout (layout_within levels) dtype (view json.now) (view children.now)) result }
{
    if !has_form(Form::ListLayout, json) {
        return Err(ParseFault::Bad);
    }
    let kind = LayoutKind::List(read_offsets(json)?);
    let children = read_children(alloc, &kind, &dtype, read_items(children)?, levels)?;
    let rows = read_rows(json)?;
    Ok(LayoutNode::from_parts(alloc, dtype, rows, kind, children)?)
}

#[cycle(layouts)]
fn read_children(
    alloc: Global,
    kind: &LayoutKind,
    dtype: &DType,
    list: &[Value],
    levels: u32,
) -> Result<Vec<LayoutRef>, ParseFault>
    ensures { IsParseBy (λ v. layouts_of v.items) (each_from (λ i. layout_within levels (child_type kind.now dtype.now i)) 0 (items_view list.now)) result }
{
    let mut children = Vec::new(alloc);
    for (i, json) in list.iter().enumerate() {
        let dtype = child_type(alloc, kind, dtype, i)?;
        children.push(read_layout_within(alloc, dtype, json, levels)?)?;
    }
    Ok(children)
}

/// A layout of a dtype.
pub(crate) fn read_layout(
    alloc: Global,
    dtype: DType,
    json: &Value,
) -> Result<LayoutRef, ParseFault>
    ensures { IsParseBy (λ r. r.value) (layout_in dtype (view json.now)) result }
{
    read_layout_within(alloc, dtype, json, MOST_LEVELS)
}
