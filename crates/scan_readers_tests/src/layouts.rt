//! Layouts by their words. What a word works on stands before it: `i32@0:2,1:1` is a leaf of two rows in the segment 0 and
//! one in the segment 1, `i32/2@0:3` one in spelling 2; `i32@0:3 bool@1:3 struct:3:a,b` is a struct of three rows,
//! `bool@2:3 i32@0:3 struct?:3:a` one that may be null, by its validity; `i32@0:5 u32@1:4 list` are lists of elements and
//! offsets; `list?` has its validity as well. A `-` behind `struct` or `list?` leaves the last child away. `unchecked` are two
//! lists of i32 of elements and offsets, whatever these are.
use crate::words::{dtype, last, names, sides, spelling, taken};
use scan_layout::{LayoutFault, LayoutKind, LayoutNode, LayoutRef, ListLayout, StructLayout};
use scan_segments::SegmentId;
use scan_values::{DType, Nullability, PType, StructFields};
use std::alloc::Global;
use std::process::Abort;

fn segments(rt: &impl Abort, alloc: Global, text: &str) -> Vec<(SegmentId, u64)> {
    let mut segments = Vec::new(alloc);
    if text.is_empty() {
        return segments;
    }
    for part in text.split(',') {
        let (id, rows) = sides(rt, part, ":");
        segments
            .push((
                SegmentId::from(id.parse::<u32>().expect(rt, "parse")),
                rows.parse::<u64>().expect(rt, "parse"),
            ))
            .expect(rt, "push");
    }
    segments
}

/// A leaf of segments of so many rows.
fn leaf(rt: &impl Abort, alloc: Global, word: &str) -> Result<LayoutRef, LayoutFault> {
    let (of, parts) = sides(rt, word, "@");
    let segments = segments(rt, alloc, parts);
    match of.split_once('/') {
        Some((of, text)) => {
            LayoutNode::leaf_with(alloc, dtype(rt, of), segments, spelling(rt, text))
        }
        None => LayoutNode::leaf(alloc, dtype(rt, of), segments),
    }
}

// The dtypes of all children but the first so many.
fn dtypes_past(rt: &impl Abort, alloc: Global, children: &[LayoutRef], first: usize) -> Vec<DType> {
    let Some(fields) = children.get(first..) else {
        panic!(rt; "no validity");
    };
    let mut dtypes = Vec::new(alloc);
    for child in fields {
        dtypes
            .push(child.dtype().try_clone(alloc).expect(rt, "try_clone"))
            .expect(rt, "push");
    }
    dtypes
}

/// A struct of what was made last, of rows and names: `3:a,b`. Before the fields stands the validity, where there is one.
pub(crate) fn struct_of(
    rt: &impl Abort,
    alloc: Global,
    stack: &mut Vec<LayoutRef>,
    text: &str,
    nullability: Nullability,
) -> Result<StructLayout, LayoutFault> {
    let (text, lacking) = match text.strip_suffix('-') {
        Some(text) => (text, 1),
        None => (text, 0),
    };
    let (rows, text) = sides(rt, text, ":");
    let names = names(rt, alloc, text);
    let validities = match nullability {
        Nullability::NonNullable => 0,
        Nullability::Nullable => 1,
    };
    let mut children = last(rt, alloc, stack, names.len().saturating_add(validities));
    let dtypes = dtypes_past(rt, alloc, children.as_slice(), validities);
    if names.len() != dtypes.len() {
        panic!(rt; "as many names as dtypes");
    }
    let dtype = DType::struct_(StructFields::new(names, dtypes), nullability).expect(rt, "struct_");
    let count = children.len().saturating_sub(lacking);
    children.truncate(count);
    StructLayout::new(
        alloc,
        rows.parse::<u64>().expect(rt, "parse"),
        dtype,
        children,
    )
}

/// Lists of elements, by their offsets, and with their validity where a list may be null.
pub(crate) fn list_of(
    rt: &impl Abort,
    alloc: Global,
    stack: &mut Vec<LayoutRef>,
    validity: Option<LayoutRef>,
    nullability: Nullability,
) -> Result<ListLayout, LayoutFault> {
    let offsets = taken(rt, stack);
    let elements = taken(rt, stack);
    let dtype = DType::list(
        alloc,
        elements.dtype().try_clone(alloc).expect(rt, "try_clone"),
        nullability,
    )
    .expect(rt, "list");
    ListLayout::new(alloc, dtype, elements, offsets, validity)
}

/// What a word makes of what was made last.
pub(crate) fn made(
    rt: &impl Abort,
    alloc: Global,
    stack: &mut Vec<LayoutRef>,
    word: &str,
) -> Result<LayoutRef, LayoutFault> {
    let plain = Nullability::NonNullable;
    let null = Nullability::Nullable;
    if let Some(text) = word.strip_prefix("struct:") {
        return Ok(struct_of(rt, alloc, stack, text, plain)?.into_node());
    }
    if let Some(text) = word.strip_prefix("struct?:") {
        return Ok(struct_of(rt, alloc, stack, text, null)?.into_node());
    }
    match word {
        "list" => Ok(list_of(rt, alloc, stack, None, plain)?.into_node()),
        "list?-" => Ok(list_of(rt, alloc, stack, None, null)?.into_node()),
        "list?" => {
            let validity = taken(rt, stack);
            Ok(list_of(rt, alloc, stack, Some(validity), null)?.into_node())
        }
        "unchecked" => {
            let kind = LayoutKind::List(PType::U32);
            let dtype = DType::list(alloc, dtype(rt, "i32"), plain).expect(rt, "list");
            let children = last(rt, alloc, stack, 2);
            Ok(LayoutNode::from_parts(alloc, dtype, 2, kind, children)?)
        }
        _ => leaf(rt, alloc, word),
    }
}

/// The layouts of words that no other word works on.
pub(crate) fn layouts(rt: &impl Abort, alloc: Global, words: &str) -> Vec<LayoutRef> {
    let mut stack = Vec::new(alloc);
    for word in words.split_whitespace() {
        let made = made(rt, alloc, &mut stack, word).expect(rt, "made");
        stack.push(made).expect(rt, "push");
    }
    stack
}
