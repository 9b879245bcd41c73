//! Which dtype fits another, and how many segments a layout may have under a dtype.
use crate::files::make;
use crate::texts::sides;
use scan_layout::{LayoutKind, LayoutNode, LayoutRef};
use scan_segments::SegmentId;
use scan_values::{DType, Nullability, StructFields};
use scan_widen::fits_under;
use scan_widened::{FileFault, layout_under};
use std::alloc::Global;
use std::process::Abort;

/// The dtype that a text says.
fn dtype(rt: &impl Abort, alloc: Global, text: &str) -> DType {
    let manifest = format!(in alloc;
        "{{\"dtype\":{text},\"files\":[],\"request\":{{\"projection\":\"$\"}}}}"
    ).expect(rt, "format");
    make(alloc, manifest.as_str()).expect(rt, "make").dtype
}

/// Whether a line `FROM under TO -> fits` holds, or `-> no`.
fn holds(rt: &impl Abort, alloc: Global, line: &str) -> bool {
    let (dtypes, wanted) = sides(rt, line, " -> ");
    let (from, to) = sides(rt, dtypes, " under ");
    let from = dtype(rt, alloc, from);
    let to = dtype(rt, alloc, to);
    fits_under(alloc, &from, &to).expect(rt, "fits_under") == (wanted == "fits")
}

// Fields are found by their names, which the file neither repeats nor reserves; null goes only where there is null, at
// each level.
const NESTED: &str =
    r##"{"struct":[["a","i32"],["b","i32"]]} under {"struct":[["a","i64"],["c","utf8?"]]} -> fits
{"struct":[["c","utf8"],["a","i64"]]} under {"struct":[["a","i64"],["c","utf8?"]]} -> fits
{"struct":[["a","utf8"]]} under {"struct":[["a","i64"],["c","utf8?"]]} -> no
{"struct":[["a","i32"]]} under {"struct":[["a","i64"],["c","utf8"]]} -> no
{"struct":[]} under {"struct":[]} -> fits
{"struct":[["a","i64"]]} under {"struct":[["a","i32"]]} -> no
{"struct":[["a","i32"],["a","i32"]]} under {"struct":[["a","i32"]]} -> no
{"struct":[["#validity","i32"],["a","i32"]]} under {"struct":[["a","i32"]]} -> no
{"struct":[["a","i32"]]} under {"struct":[["a","i32"],["a","i64"]]} -> fits
{"struct":[["s",{"struct":[["x","u8"],["x","u8"]]}]]} under {"struct":[]} -> fits
{"struct":[["s",{"struct":[["x","u8"],["x","u8"]]}]]} under {"struct":[["s",{"struct":[]}]]} -> no
{"list":"i8"} under {"list":"i16?","nullable":true} -> fits
{"list":"i8","nullable":true} under {"list":"i8"} -> no
{"list":"i8?"} under {"list":"i8"} -> no
{"struct":[["a","u8"]],"nullable":true} under {"struct":[["a","u8"]]} -> no
{"struct":[["a","u8"]]} under {"struct":[["a","u8?"]],"nullable":true} -> fits
{"list":{"struct":[["a","u8"]]}} under {"list":{"struct":[["a","u8"],["b",{"list":"bool","nullable":true}]]}} -> fits
{"list":"bool"} under "bool" -> no"##;

#[test]
fn nested_dtypes_fit_field_by_field_and_level_by_level(rt: HostRuntime) {
    for line in NESTED.lines() {
        assert!(rt; holds(&rt, rt.alloc(), line), "at {line}");
    }
}

/// A struct of so many fields of bytes, which all have one name.
fn bytes_named_alike(rt: &impl Abort, alloc: Global, fields: usize) -> DType {
    let mut pairs = Vec::new(alloc);
    for _ in 0..fields {
        pairs.push(("a", DType::u8())).expect(rt, "push");
    }
    let fields = StructFields::from_pairs(alloc, pairs).expect(rt, "from_pairs");
    DType::struct_(fields, Nullability::NonNullable).expect(rt, "struct_")
}

/// A struct of one field of bytes, of so many segments without rows.
fn many_segments(rt: &impl Abort, alloc: Global, segments: usize) -> LayoutRef {
    let of_leaf = vec![in alloc; (SegmentId::from(0), 0); segments].expect(rt, "vec");
    let mut children = Vec::new(alloc);
    children
        .push(LayoutNode::leaf(alloc, DType::u8(), of_leaf).expect(rt, "leaf"))
        .expect(rt, "push");
    let dtype = bytes_named_alike(rt, alloc, 1);
    LayoutNode::from_parts(alloc, dtype, 0, LayoutKind::Struct, children).expect(rt, "from_parts")
}

/// How many segments a layout of so many has under a dtype of so many fields of one name.
fn counted(
    rt: &impl Abort,
    alloc: Global,
    fields: usize,
    segments: usize,
) -> Result<usize, FileFault> {
    let layout = many_segments(rt, alloc, segments);
    let dtype = bytes_named_alike(rt, alloc, fields);
    match layout_under(alloc, &dtype, &None, 0, &layout) {
        Ok(union) => Ok(union.segments.len()),
        Err(fault) => Err(fault),
    }
}

#[test]
fn too_many_segments_are_counted_before_any_is_made(rt: HostRuntime) {
    let alloc = rt.alloc();
    assert_eq!(rt; counted(&rt, alloc, 3, 2), Ok(6));
    assert_eq!(rt;
        counted(&rt, alloc, 4_097, 1_048_576),
        Err(FileFault::TooManySegments)
    );
}
