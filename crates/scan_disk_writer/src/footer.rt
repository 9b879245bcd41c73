//! The footer of a file, as JSON: a dtype and a layout as in a manifest, and where each segment stands.
ghost use Rattle.std.specs.Prelude.{◌≡◌, ◌≤◌, ◌<◌, ◌^◌, ◌++◌, IfOk, OnOk, None, Some, codes, length, map, slice_get, string_bytes};
ghost use Rattle.serde_json.specs.Data.{array, boolean, member, no_members, number, object, string, unsigned, depth};
ghost use Rattle.serde_json.specs.View.{view, items_of};
ghost use Rattle.scan_values.specs.DataType.{fields_of, nullability_of};
ghost use Rattle.scan_values.specs.FieldLists.{dtypes_of, names_of};
ghost use Rattle.scan_values.specs.Kinds.{struct_fields_of};
ghost use Rattle.scan_layout.specs.Layout.{nodes};
ghost use Rattle.scan_layout.specs.LayoutView.{layouts_of};
ghost use Rattle.scan_disk.specs.Footers.{footer_in, footer_of};
ghost use Rattle.scan_disk_writer.specs.FileBytes.{SegmentIdsFit, IdsFit, AllIdsFit};
ghost use Rattle.scan_disk_writer.specs.Json.{ptype_name, mark, scalar_name, named, json_of_dtype, json_of_fields};
ghost use Rattle.scan_disk_writer.specs.Json.{struct_type_data, list_type_data, leaf_data, struct_data, list_data};
ghost use Rattle.scan_disk_writer.specs.Json.{json_of_segment, spelling_number, json_of_layout};
ghost use Rattle.scan_disk_writer.specs.Json.{json_of_place, json_of_places, json_of_footer};

use scan_disk::Place;
use scan_layout::{LayoutKind, LayoutNode, LayoutRef};
use scan_segments::SegmentId;
use scan_spelling::Spelling;
use scan_values::{DType, FieldName, NoMemory, Nullability, PType, StructFields};
use serde_json::{Value, json};
use std::alloc::{AllocError, Global};

/// The name of an integer type.
fn ptype_name(p: PType) -> &'static str
    ensures { result.now ≡ ptype_name p }
{
    match p {
        PType::U8 => "u8",
        PType::U16 => "u16",
        PType::U32 => "u32",
        PType::U64 => "u64",
        PType::I8 => "i8",
        PType::I16 => "i16",
        PType::I32 => "i32",
        PType::I64 => "i64",
    }
}

/// The name of a scalar dtype, without the mark of a nullable one.
fn scalar_name(dtype: &DType) -> &'static str
    ensures { result.now ≡ scalar_name dtype.now }
{
    match dtype.as_ptype_opt() {
        Some(p) => ptype_name(p),
        None => { if dtype.is_bool() { "bool" } else { "utf8" } }
    }
}

/// What marks the name of a nullable scalar.
fn mark(nullability: Nullability) -> &'static str
    ensures { result.now ≡ mark nullability }
{
    match nullability {
        Nullability::NonNullable => "",
        Nullability::Nullable => "?",
    }
}

fn scalar_json(alloc: Global, dtype: &DType) -> Result<Value, NoMemory>
    ensures { IfOk result (λ v. view v ≡ string (scalar_name dtype.now ++ mark (nullability_of dtype.now))) }
{
    let name = scalar_name(dtype);
    let mark = mark(dtype.nullability());
    let text = format!(in alloc; "{name}{mark}")?;
    Ok(Value::String(text))
}

fn struct_type(alloc: Global, fields: Value, nullable: bool) -> Result<Value, AllocError>
    ensures { IfOk result (λ v. view v ≡ object (member (codes "nullable") (boolean nullable)
        (member (codes "struct") (view fields) no_members))) }
{
    json!(in alloc; {"struct": fields, "nullable": nullable})
}

fn list_type(alloc: Global, element: Value, nullable: bool) -> Result<Value, AllocError>
    ensures { IfOk result (λ v. view v ≡ list_type_data nullable (view element)) }
{
    json!(in alloc; {"list": element, "nullable": nullable})
}

/// A dtype.
#[cycle(dtype_json)]
fn dtype_json(alloc: Global, dtype: &DType) -> Result<Value, NoMemory>
    ensures { IfOk result (λ v. view v ≡ json_of_dtype dtype.now) }
{
    match dtype.as_struct_fields_opt() {
        Some(fields) => {
            let fields = fields_json(alloc, fields)?;
            let nullable = dtype.is_nullable();
            Ok(struct_type(alloc, fields, nullable)?)
        }
        None => items_json(alloc, dtype),
    }
}

/// A dtype of lists, or of scalars.
#[cycle(dtype_json)]
fn items_json(alloc: Global, dtype: &DType) -> Result<Value, NoMemory>
    requires { struct_fields_of dtype.now ≡ None }
    ensures { IfOk result (λ v. view v ≡ json_of_dtype dtype.now) }
{
    match dtype.as_list_element_opt() {
        Some(element) => {
            let element = dtype_json(alloc, element)?;
            let nullable = dtype.is_nullable();
            Ok(list_type(alloc, element, nullable)?)
        }
        None => scalar_json(alloc, dtype),
    }
}

fn named_json(alloc: Global, name: &FieldName, dtype: Value) -> Result<Value, NoMemory>
    ensures { IfOk result (λ v. view v ≡ named name.now (view dtype)) }
{
    let name = String::from_str(alloc, name.as_str())?;
    Ok(json!(in alloc; [name, dtype])?)
}

fn name_at(fields: &StructFields, i: usize) -> &FieldName
    requires { i < length fields.now }
    ensures { Some result.now ≡ slice_get (names_of fields.now) i }
{
    match fields.field_name(i) {
        Some(name) => name,
        None => unreachable!(),
    }
}

fn dtype_at(fields: &StructFields, i: usize) -> &DType
    requires { i < length fields.now }
    ensures { Some result.now ≡ slice_get (dtypes_of fields.now) i }
{
    match fields.field_by_index(i) {
        Some(dtype) => dtype,
        None => unreachable!(),
    }
}

#[cycle(dtype_json)]
fn fields_json(alloc: Global, fields: &StructFields) -> Result<Value, NoMemory>
    ensures { IfOk result (λ v. view v ≡ array (json_of_fields (fields_of fields.now))) }
{
    let mut made = Vec::new(alloc);
    for i in 0..fields.nfields() {
        let name = name_at(fields, i);
        let dtype = dtype_at(fields, i);
        let json = dtype_json(alloc, dtype)?;
        let field = named_json(alloc, name, json)?;
        made.push(field)?;
    }
    Ok(Value::Array(made))
}

fn segment_json(alloc: Global, segment: &(SegmentId, u64)) -> Result<Value, AllocError>
    ensures json { IfOk result (λ v. view v ≡ json_of_segment segment.now) }
    ensures id { OnOk result (segment.now.0 < 2 ^ 32) }
{
    let id = *segment.0 as u64;
    let rows = segment.1;
    json!(in alloc; [id, rows])
}

fn segments_json(alloc: Global, segments: &[(SegmentId, u64)]) -> Result<Value, NoMemory>
    ensures json { IfOk result (λ v. view v ≡ array (items_of (map json_of_segment segments.now))) }
    ensures ids { OnOk result (SegmentIdsFit segments.now) }
{
    let mut made = Vec::new(alloc);
    for segment in segments {
        let json = segment_json(alloc, segment)?;
        made.push(json)?;
    }
    Ok(Value::Array(made))
}

fn spelling_number(spelling: Spelling) -> u64
    ensures { result ≡ spelling_number spelling }
{
    match spelling {
        Spelling::One => 1,
        Spelling::Two => 2,
    }
}

fn leaf_value(alloc: Global, rows: u64, segments: Value, spelling: u64) -> Result<Value, AllocError>
    ensures { IfOk result (λ v. view v ≡ object (member (codes "leaf") (view segments)
        (member (codes "rows") (number (unsigned rows))
        (member (codes "spelling") (number (unsigned spelling)) no_members)))) }
{
    json!(in alloc; {"leaf": segments, "rows": rows, "spelling": spelling})
}

fn struct_value(alloc: Global, rows: u64, children: Value) -> Result<Value, AllocError>
    ensures { IfOk result (λ v. view v ≡ object (member (codes "rows") (number (unsigned rows))
        (member (codes "struct") (view children) no_members))) }
{
    json!(in alloc; {"struct": children, "rows": rows})
}

fn list_value(
    alloc: Global,
    rows: u64,
    offsets: &'static str,
    children: Value,
) -> Result<Value, AllocError>
    ensures { IfOk result (λ v. view v ≡ object (member (codes "list") (view children)
        (member (codes "offsets") (string offsets.now) (member (codes "rows") (number (unsigned rows)) no_members)))) }
{
    json!(in alloc; {"list": children, "offsets": offsets, "rows": rows})
}

fn leaf_json(
    alloc: Global,
    rows: u64,
    segments: &[(SegmentId, u64)],
    spelling: Spelling,
) -> Result<Value, NoMemory>
    ensures json { IfOk result (λ v. view v ≡ leaf_data rows segments.now spelling) }
    ensures ids { OnOk result (SegmentIdsFit segments.now) }
{
    let list = segments_json(alloc, segments)?;
    let number = spelling_number(spelling);
    Ok(leaf_value(alloc, rows, list, number)?)
}

/// A layout.
#[cycle(layout_json)]
fn layout_json(alloc: Global, layout: &LayoutNode) -> Result<Value, NoMemory>
    ensures json { IfOk result (λ v. view v ≡ json_of_layout layout.now) }
    ensures ids { OnOk result (IdsFit layout.now) }
{
    let rows = layout.row_count;
    let children = layout.children.as_slice();
    match &layout.kind {
        LayoutKind::Leaf(segments, spelling) => leaf_json(
            alloc,
            rows,
            segments.as_slice(),
            *spelling,
        ),
        LayoutKind::Struct => struct_json(alloc, rows, children),
        LayoutKind::List(p) => list_json(alloc, rows, *p, children),
    }
}

#[cycle(layout_json)]
fn struct_json(alloc: Global, rows: u64, children: &[LayoutRef]) -> Result<Value, NoMemory>
    ensures json { IfOk result (λ v. view v ≡ struct_data rows (items_of (map json_of_layout (layouts_of children.now)))) }
    ensures ids { OnOk result (AllIdsFit (nodes (layouts_of children.now))) }
{
    let list = children_json(alloc, children)?;
    Ok(struct_value(alloc, rows, list)?)
}

#[cycle(layout_json)]
fn list_json(alloc: Global, rows: u64, p: PType, children: &[LayoutRef]) -> Result<Value, NoMemory>
    ensures json { IfOk result (λ v. view v ≡ list_data rows p (items_of (map json_of_layout (layouts_of children.now)))) }
    ensures ids { OnOk result (AllIdsFit (nodes (layouts_of children.now))) }
{
    let list = children_json(alloc, children)?;
    let offsets = ptype_name(p);
    Ok(list_value(alloc, rows, offsets, list)?)
}

#[cycle(layout_json)]
fn children_json(alloc: Global, children: &[LayoutRef]) -> Result<Value, NoMemory>
    ensures json { IfOk result (λ v. view v ≡ array (items_of (map json_of_layout (layouts_of children.now)))) }
    ensures ids { OnOk result (AllIdsFit (nodes (layouts_of children.now))) }
{
    let mut made = Vec::new(alloc);
    for child in children {
        let json = layout_json(alloc, child)?;
        made.push(json)?;
    }
    Ok(Value::Array(made))
}

fn place_json(alloc: Global, id: u64, place: &Place) -> Result<Value, AllocError>
    ensures { IfOk result (λ v. view v ≡ json_of_place id place.now) }
{
    let digest = hex::encode(alloc, place.digest.as_slice())?;
    let offset = place.offset;
    let length = place.length;
    json!(in alloc; [id, offset, length, digest])
}

fn places_json(alloc: Global, places: &[Place]) -> Result<Value, NoMemory>
    ensures { IfOk result (λ v. view v ≡ array (items_of (json_of_places 0 places.now))) }
{
    let mut made = Vec::new(alloc);
    for i in 0..places.len() {
        let place = places[i];
        let json = place_json(alloc, i as u64, &place)?;
        made.push(json)?;
    }
    Ok(Value::Array(made))
}

fn footer_json(
    alloc: Global,
    dtype: Value,
    layout: Value,
    segments: Value,
) -> Result<Value, AllocError>
    ensures { IfOk result (λ v. view v ≡ object (member (codes "dtype") (view dtype)
        (member (codes "layout") (view layout) (member (codes "segments") (view segments) no_members)))) }
{
    json!(in alloc; {"dtype": dtype, "layout": layout, "segments": segments})
}

/// The footer of a file with this layout, in which the segment of each number stands at the place of that number.
pub(crate) fn footer_text(
    alloc: Global,
    layout: &LayoutNode,
    places: &[Place],
) -> Result<String, NoMemory>
    ensures says { IfOk result (λ s. depth (json_of_footer layout.now places.now) ≤ 127
        → footer_of (string_bytes s) ≡ footer_in (json_of_footer layout.now places.now)) }
    ensures ids { OnOk result (IdsFit layout.now) }
{
    let dtype = dtype_json(alloc, layout.dtype())?;
    let tree = layout_json(alloc, layout)?;
    let segments = places_json(alloc, places)?;
    let json = footer_json(alloc, dtype, tree, segments)?;
    let text = json.to_string(alloc)?;
    let _bytes = text.as_str();
    Ok(text)
}
