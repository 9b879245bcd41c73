//! Layouts as a person reads them: a line for each node, its children below it, two columns further in.
//! `leaf i32?, 100 rows, spelling 1, segments 0 (50), 1 (50)` is a leaf of two segments of 50 rows each.
ghost use Rattle.std.specs.Prelude.{◌≡◌, ◌++◌, true, codes};
ghost use Rattle.std.specs.Fmt.{WritesOnOk};
ghost use Rattle.scan_layout.specs.Layout.{nodes};
ghost use Rattle.scan_layout.specs.LayoutView.{layouts_of};
ghost use Rattle.scan_layout.specs.Shown.{indent, shown_segment, shown_segments, shown_spelling, kind_front, kind_back};
ghost use Rattle.scan_layout.specs.Shown.{shown_node, shown_layout, shown_nodes};

use crate::node::{LayoutKind, LayoutNode, LayoutRef};
use scan_segments::SegmentId;
use scan_spelling::Spelling;
use scan_values::DType;
use scan_values::shown::comma;
use std::fmt::{self, Display, Formatter, Write};

impl Display for LayoutNode {
    ghost use Rattle.std.specs.Prelude.{Some};

    ghost output = { λ l. Some (shown_layout 0 l) };

    fn fmt<W: Write>(&self, f: &mut Formatter<W>) -> fmt::Result {
        show_layout(self, 0, f)
    }
}

/// What a line begins with, so many levels in.
pub fn show_indent<W: Write>(depth: usize, f: &mut Formatter<W>) -> fmt::Result
    ensures { WritesOnOk W.write_str_gives f.old result (indent depth) f.new }
{
    for _i in 0..depth {
        f.write_str("  ")?;
    }
    Ok(())
}

/// A segment by its id and its rows.
pub fn show_segment<W: Write>(id: SegmentId, rows: u64, f: &mut Formatter<W>) -> fmt::Result
    ensures { WritesOnOk W.write_str_gives f.old result (shown_segment (id, rows)) f.new }
{
    let id: u32 = *id;
    write!(f, "{id} ({rows})")
}

/// Segments by their ids and their rows.
fn show_segments<W: Write>(segments: &[(SegmentId, u64)], f: &mut Formatter<W>) -> fmt::Result
    ensures { WritesOnOk W.write_str_gives f.old result (shown_segments true segments.now) f.new }
{
    for (i, segment) in segments.iter().enumerate() {
        f.write_str(comma(i == 0))?;
        show_segment(segment.0, segment.1, f)?;
    }
    Ok(())
}

/// The name of a spelling.
pub fn spelling_name(spelling: Spelling) -> &'static str
    ensures { result.now ≡ shown_spelling spelling }
{
    match spelling {
        Spelling::One => "spelling 1",
        Spelling::Two => "spelling 2",
    }
}

/// What a node is.
fn front_of(kind: &LayoutKind) -> &'static str
    ensures { result.now ≡ kind_front kind.now }
{
    match kind {
        LayoutKind::Leaf(_, _) => "leaf ",
        LayoutKind::Struct => "struct ",
        LayoutKind::List(_) => "list ",
    }
}

/// What more is said of it.
fn show_back<W: Write>(kind: &LayoutKind, f: &mut Formatter<W>) -> fmt::Result
    ensures { WritesOnOk W.write_str_gives f.old result (kind_back kind.now) f.new }
{
    match kind {
        LayoutKind::Leaf(segments, spelling) => show_leaf(segments.as_slice(), *spelling, f),
        LayoutKind::Struct => Ok(()),
        LayoutKind::List(offsets) => write!(f, ", offsets {offsets}"),
    }
}

fn show_leaf<W: Write>(
    segments: &[(SegmentId, u64)],
    spelling: Spelling,
    f: &mut Formatter<W>,
) -> fmt::Result
    ensures { WritesOnOk W.write_str_gives f.old result
        (codes ", " ++ (shown_spelling spelling ++ (codes ", segments " ++ shown_segments true segments.now))) f.new }
{
    f.write_str(", ")?;
    f.write_str(spelling_name(spelling))?;
    f.write_str(", segments ")?;
    show_segments(segments, f)
}

/// The line of a node.
fn show_node<W: Write>(
    dtype: &DType,
    rows: u64,
    kind: &LayoutKind,
    f: &mut Formatter<W>,
) -> fmt::Result
    ensures { WritesOnOk W.write_str_gives f.old result (shown_node dtype.now rows kind.now) f.new }
{
    f.write_str(front_of(kind))?;
    write!(f, "{dtype}, {rows} rows")?;
    show_back(kind, f)
}

#[cycle(show)]
fn show_layout<W: Write>(layout: &LayoutNode, depth: usize, f: &mut Formatter<W>) -> fmt::Result
    ensures { WritesOnOk W.write_str_gives f.old result (shown_layout depth layout.now) f.new }
{
    show_node(&layout.dtype, layout.row_count, &layout.kind, f)?;
    show_nodes(layout.children.as_slice(), depth.saturating_add(1), f)
}

#[cycle(show)]
fn show_nodes<W: Write>(children: &[LayoutRef], depth: usize, f: &mut Formatter<W>) -> fmt::Result
    ensures { WritesOnOk W.write_str_gives f.old result (shown_nodes depth (nodes (layouts_of children.now))) f.new }
{
    for child in children {
        show_child(child, depth, f)?;
    }
    Ok(())
}

#[cycle(show)]
fn show_child<W: Write>(child: &LayoutNode, depth: usize, f: &mut Formatter<W>) -> fmt::Result
    ensures { WritesOnOk W.write_str_gives f.old result
        (codes "\n" ++ (indent depth ++ shown_layout depth child.now)) f.new }
{
    f.write_str("\n")?;
    show_indent(depth, f)?;
    show_layout(child, depth, f)
}
