//! Plans as a person reads them: a line for each node, what it stands on below it, two columns further in. A leaf's line
//! names all segments that rows of it may want.
ghost use Rattle.std.specs.Prelude.{◌≡◌, ◌++◌, true, codes, length};
ghost use Rattle.std.specs.Fmt.{WritesOnOk};
ghost use Rattle.scan_values.specs.Shown.{comma, shown_dtype};
ghost use Rattle.scan_layout.specs.Shown.{shown_segment, shown_segments, shown_spelling};
ghost use Rattle.scan_plans.specs.PlanTree.{plans};
ghost use Rattle.scan_plans.specs.Shown.{shown_leaf, shown_offsets, shown_step, shown_tree, shown_below, shown_trees, shown_plan};

use crate::node::{Kind, PlanNode, PlanNodes};
use crate::offsets::Offsets;
use crate::plan::Plan;
use scan_layout::Spelling;
use scan_layout::shown::{show_indent, show_segment, spelling_name};
use scan_segments::SegmentId;
use scan_splits::SegmentRuns;
use scan_values::DType;
use scan_values::shown::comma;
use std::fmt::{self, Display, Formatter, Write};

impl Display for Plan {
    ghost use Rattle.std.specs.Prelude.{Some};

    ghost output = { λ p. Some (shown_plan p) };

    fn fmt<W: Write>(&self, f: &mut Formatter<W>) -> fmt::Result {
        let expr = &self.expr;
        let scope = expr.scope();
        write!(f, "plan of {expr} over {scope}")?;
        show_below(&self.node, 1, f)
    }
}

impl Display for PlanNode {
    ghost use Rattle.std.specs.Prelude.{Some};

    ghost output = { λ p. Some (shown_tree 0 p) };

    fn fmt<W: Write>(&self, f: &mut Formatter<W>) -> fmt::Result {
        show_node(self, 0, f)
    }
}

/// Segments by their ids and their rows.
fn show_runs<W: Write>(runs: &SegmentRuns, f: &mut Formatter<W>) -> fmt::Result
    ensures { WritesOnOk W.write_str_gives f.old result (shown_segments true runs.now) f.new }
{
    for i in 0..runs.len() {
        show_run(i == 0, runs.id(i), runs.rows(i), f)?;
    }
    Ok(())
}

fn show_run<W: Write>(is_first: bool, id: SegmentId, rows: u64, f: &mut Formatter<W>) -> fmt::Result
    ensures { WritesOnOk W.write_str_gives f.old result (comma is_first ++ shown_segment (id, rows)) f.new }
{
    f.write_str(comma(is_first))?;
    show_segment(id, rows, f)
}

fn show_leaf<W: Write>(
    dtype: &DType,
    spelling: Spelling,
    runs: &SegmentRuns,
    f: &mut Formatter<W>,
) -> fmt::Result
    ensures { WritesOnOk W.write_str_gives f.old result (shown_leaf dtype.now spelling runs.now) f.new }
{
    write!(f, "{dtype}, ")?;
    show_spelled(spelling, runs, f)
}

fn show_spelled<W: Write>(
    spelling: Spelling,
    runs: &SegmentRuns,
    f: &mut Formatter<W>,
) -> fmt::Result
    ensures { WritesOnOk W.write_str_gives f.old result
        (shown_spelling spelling ++ (codes ", segments " ++ shown_segments true runs.now)) f.new }
{
    f.write_str(spelling_name(spelling))?;
    f.write_str(", segments ")?;
    show_runs(runs, f)
}

fn show_offsets<W: Write>(offsets: &Offsets, f: &mut Formatter<W>) -> fmt::Result
    ensures { WritesOnOk W.write_str_gives f.old result (shown_offsets offsets.now) f.new }
{
    f.write_str("offsets ")?;
    show_leaf(&offsets.dtype, offsets.spelling, &offsets.runs, f)
}

fn show_lists<W: Write>(dtype: &DType, offsets: &Offsets, f: &mut Formatter<W>) -> fmt::Result
    ensures { WritesOnOk W.write_str_gives f.old result
        (shown_dtype dtype.now ++ (codes ", " ++ shown_offsets offsets.now)) f.new }
{
    write!(f, "{dtype}, ")?;
    show_offsets(offsets, f)
}

/// What a node does, without what it stands on.
fn show_step<W: Write>(node: &PlanNode, f: &mut Formatter<W>) -> fmt::Result
    ensures { WritesOnOk W.write_str_gives f.old result (shown_step node.now) f.new }
{
    match &node.kind {
        Kind::Leaf(dtype, spelling, runs) => {
            f.write_str("leaf ")?;
            show_leaf(dtype, *spelling, runs, f)
        }
        Kind::Rows(array) => {
            let count = array.len();
            let dtype = array.dtype();
            write!(f, "{count} values in memory, {dtype}")
        }
        Kind::Evaluate(expr, _) => write!(f, "evaluate {expr}"),
        Kind::Over(expr, _) => write!(f, "evaluate {expr} over the fields"),
        Kind::Constant(expr) => write!(f, "constant {expr}"),
        Kind::Lists(dtype, _, offsets) => show_lists(dtype, offsets, f),
        Kind::Lengths(offsets) => {
            f.write_str("lengths, ")?;
            show_offsets(offsets, f)
        }
        Kind::Valid(_, _) => f.write_str("null where the second is not true"),
        Kind::Numbers(first) => write!(f, "row numbers from {first}"),
        Kind::ByLengths(_, expr, _) => write!(f, "evaluate {expr} over lengths"),
    }
}

#[cycle(show)]
fn show_node<W: Write>(node: &PlanNode, depth: usize, f: &mut Formatter<W>) -> fmt::Result
    ensures { WritesOnOk W.write_str_gives f.old result (shown_tree depth node.now) f.new }
{
    show_step(node, f)?;
    let depth = depth.saturating_add(1);
    match &node.kind {
        Kind::Leaf(_, _, _) => Ok(()),
        Kind::Rows(_) => Ok(()),
        Kind::Constant(_) => Ok(()),
        Kind::Lengths(_) => Ok(()),
        Kind::Numbers(_) => Ok(()),
        Kind::Evaluate(_, below) => show_below(below, depth, f),
        Kind::Over(_, parts) => show_nodes(parts, depth, f),
        Kind::Lists(_, elements, _) => show_below(elements, depth, f),
        Kind::Valid(values, validity) => {
            show_below(values, depth, f)?;
            show_below(validity, depth, f)
        }
        Kind::ByLengths(_, _, below) => show_below(below, depth, f),
    }
}

/// A node that another stands on, on lines of its own.
#[cycle(show)]
fn show_below<W: Write>(node: &PlanNode, depth: usize, f: &mut Formatter<W>) -> fmt::Result
    ensures { WritesOnOk W.write_str_gives f.old result (shown_below depth node.now) f.new }
{
    f.write_str("\n")?;
    show_indent(depth, f)?;
    show_node(node, depth, f)
}

#[cycle(show)]
fn show_nodes<W: Write>(nodes: &PlanNodes, depth: usize, f: &mut Formatter<W>) -> fmt::Result
    ensures { WritesOnOk W.write_str_gives f.old result (shown_trees depth (plans nodes.now)) f.new }
{
    for node in &nodes.items {
        show_below(node, depth, f)?;
    }
    Ok(())
}
