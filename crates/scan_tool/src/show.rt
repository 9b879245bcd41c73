//! What a file is: its dtype, its layout as a tree, and its sizes.
use crate::files::{MOST_LEVELS, OpenFile, length_of, segments_of};
use scan_conditions::dtype_text;
use scan_disk::Places;
use scan_layout::{LayoutKind, LayoutNode, LayoutRef, Spelling};
use scan_segments::SegmentId;
use scan_values::{FieldName, NoMemory};
use std::alloc::Global;

/// The bytes of segments, up to the greatest u64.
fn total_bytes(places: &Places, segments: &[(SegmentId, u64)]) -> u64 {
    let mut total = 0u64;
    for segment in segments {
        total = total.saturating_add(length_of(places, segment.0));
    }
    total
}

fn push_indent(depth: u32, out: &mut String) -> Result<(), NoMemory> {
    for _ in 0..depth {
        out.push_str("  ")?;
    }
    Ok(())
}

/// Appends the line of a leaf.
fn push_leaf(
    layout: &LayoutNode,
    places: &Places,
    segments: &[(SegmentId, u64)],
    spelling: Spelling,
    out: &mut String,
) -> Result<(), NoMemory> {
    let rows = layout.row_count;
    let count = segments.len();
    let bytes = total_bytes(places, segments);
    let number = match spelling {
        Spelling::One => 1u8,
        Spelling::Two => 2u8,
    };
    write!(
        out,
        "leaf, {rows} rows, {count} segments, {bytes} bytes, spelling {number}\n"
    )?;
    Ok(())
}

/// What a child of a node is called: a field by its name, and what stands beside them by what it is.
pub(crate) fn child_name<'a>(layout: &'a LayoutNode, i: usize) -> &'a str {
    match field_at(layout, i) {
        Some(name) => name.as_str(),
        None => match (&layout.kind, i) {
            (LayoutKind::List(_), 0) => "elements",
            (LayoutKind::List(_), 1) => "offsets",
            _ => "validity",
        },
    }
}

/// The field that a child of a node has, where it has one.
pub(crate) fn field_at<'a>(layout: &'a LayoutNode, i: usize) -> Option<&'a FieldName> {
    let fields = layout.dtype.as_struct_fields_opt()?;
    if layout.children.as_slice().len() <= fields.nfields() {
        return fields.field_name(i);
    }
    if i == 0 {
        return None;
    }
    fields.field_name(i - 1)
}

/// Appends the lines of a layout and of what is below it.
#[cycle(show)]
fn push_layout(
    layout: &LayoutNode,
    places: &Places,
    name: &str,
    depth: u32,
    levels: u32,
    out: &mut String,
) -> Result<(), NoMemory> {
    if levels == 0 {
        return Ok(());
    }
    push_indent(depth, out)?;
    write!(out, "{name}: ")?;
    match &layout.kind {
        LayoutKind::Leaf(segments, spelling) => {
            push_leaf(layout, places, segments.as_slice(), *spelling, out)
        }
        LayoutKind::Struct => {
            let rows = layout.row_count;
            write!(out, "struct, {rows} rows\n")?;
            push_children(layout, places, depth.saturating_add(1), levels - 1, out)
        }
        LayoutKind::List(_) => {
            let rows = layout.row_count;
            write!(out, "list, {rows} rows\n")?;
            push_children(layout, places, depth.saturating_add(1), levels - 1, out)
        }
    }
}

#[cycle(show)]
fn push_children(
    layout: &LayoutNode,
    places: &Places,
    depth: u32,
    levels: u32,
    out: &mut String,
) -> Result<(), NoMemory> {
    for (i, child) in layout.children.as_slice().iter().enumerate() {
        push_layout(child, places, child_name(layout, i), depth, levels, out)?;
    }
    Ok(())
}

/// What a file is, in lines.
pub(crate) fn shown<F>(alloc: Global, file: &OpenFile<F>) -> Result<String, NoMemory> {
    let segments = segments_of(alloc, &file.layout)?;
    let dtype = dtype_text(alloc, file.layout.dtype())?;
    let rows = file.layout.row_count();
    let count = segments.len();
    let bytes = total_bytes(&file.places, segments.as_slice());
    let path = file.path.as_str();
    let mut out = String::new(alloc);
    write!(
        out,
        "{path}: {rows} rows, {count} segments, {bytes} bytes of segments\n{dtype}\n"
    )?;
    push_layout(&file.layout, &file.places, "rows", 0, MOST_LEVELS, &mut out)?;
    Ok(out)
}
