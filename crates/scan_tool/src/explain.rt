//! What a scan would ask of files, told by their footers alone: the plans of its filter and its projection, and the
//! segments that it may ask for.
ghost use Rattle.std.specs.Prelude.{◌≡◌, All, IfSome, true};
ghost use Rattle.scan_layout.specs.Form.{HasForm};
ghost use Rattle.scan_layout.specs.Layout.{dtype_of};
ghost use Rattle.scan_partition.specs.Partable.{IsPartable};
ghost use Rattle.scan_core.specs.BuilderData.{IsFilter};

use crate::asked::{asked_of, bound, bound_filter};
use crate::files::{MOST_LEVELS, OpenFile, check_layout};
use crate::show::{child_name, field_at};
use scan_core::referenced_field_masks;
use scan_disk::Places;
use scan_expr::BoundExpression;
use scan_jobs::{ScanJob, ToolFault};
use scan_layout::{LayoutKind, LayoutNode, LayoutReaderContext, LayoutRef};
use scan_multi::{RangeFault, ScanFault};
use scan_readers::{Plan, Reader, plan_with_numbers};
use scan_segments::SegmentId;
use scan_values::{FieldMask, FieldName, NoMemory, Text};
use std::alloc::Global;
use std::collections::BTreeSet;
use std::sync::Arc;

/// Rows from a first one up to an end.
#[derive(Clone, Copy, Debug, PartialEq, Eq)]
struct Span {
    first: u64,
    end: u64,
}

impl Span {
    /// Whether it has rows of another.
    fn meets(self, other: Span) -> bool {
        self.first < other.end && other.first < self.end
    }
}

/// A segment that a scan may ask for: of which leaf, and which of the leaf's rows it has.
#[derive(Drop)]
struct Wanted {
    leaf: String,
    id: SegmentId,
    rows: Span,
}

/// Appends the segments of a leaf that have rows of these, or all of them where it is not known which are wanted.
fn push_own(
    alloc: Global,
    segments: &[(SegmentId, u64)],
    rows: Option<Span>,
    leaf: &str,
    out: &mut Vec<Wanted>,
) -> Result<(), NoMemory> {
    let mut first = 0u64;
    for segment in segments {
        let end = first.saturating_add(segment.1);
        let own = Span { first, end };
        let is_wanted = match rows {
            Some(rows) => rows.meets(own),
            None => true,
        };
        if is_wanted {
            out.push(Wanted {
                leaf: String::from_str(alloc, leaf)?,
                id: segment.0,
                rows: own,
            })?;
        }
        first = end;
    }
    Ok(())
}

/// What is left of the paths below a child: below a field what begins with its name; validity, offsets and elements are
/// wanted whole.
fn paths_below<'a>(
    alloc: Global,
    paths: &[&'a [FieldName]],
    field: Option<&FieldName>,
) -> Result<Vec<&'a [FieldName]>, NoMemory> {
    let mut found = Vec::new(alloc);
    for path in paths {
        let path: &'a [FieldName] = *path;
        match (path.split_first(), field) {
            (Some((name, rest)), Some(field)) => {
                if *name == *field {
                    found.push(rest)?;
                }
            }
            (Some(_), None) => found.push(&path[path.len()..])?,
            (None, _) => found.push(path)?,
        }
    }
    Ok(found)
}

/// Which rows of a child are wanted for these rows of its parent: of offsets one more, of elements nobody knows without
/// the offsets.
fn rows_below(layout: &LayoutNode, rows: Option<Span>, child: usize) -> Option<Span> {
    match (&layout.kind, rows) {
        (LayoutKind::List(_), Some(rows)) => match child {
            0 => None,
            1 => Some(Span {
                first: rows.first,
                end: rows.end.saturating_add(1),
            }),
            _ => Some(rows),
        },
        (_, rows) => rows,
    }
}

/// The name of a child behind that of its parent.
fn name_below(alloc: Global, parent: &str, name: &str) -> Result<String, NoMemory> {
    if parent.is_empty() {
        return Ok(String::from_str(alloc, name)?);
    }
    Ok(format!(in alloc; "{parent}.{name}")?)
}

/// Appends the segments below a layout that are wanted by paths and rows.
#[cycle(wanted)]
fn push_wanted(
    alloc: Global,
    layout: &LayoutNode,
    paths: &[&[FieldName]],
    rows: Option<Span>,
    name: &str,
    levels: u32,
    out: &mut Vec<Wanted>,
) -> Result<(), NoMemory> {
    if levels == 0 || paths.is_empty() {
        return Ok(());
    }
    match &layout.kind {
        LayoutKind::Leaf(segments, _) => push_own(alloc, segments.as_slice(), rows, name, out),
        _ => push_children(alloc, layout, paths, rows, name, levels - 1, out),
    }
}

#[cycle(wanted)]
fn push_children(
    alloc: Global,
    layout: &LayoutNode,
    paths: &[&[FieldName]],
    rows: Option<Span>,
    name: &str,
    levels: u32,
    out: &mut Vec<Wanted>,
) -> Result<(), NoMemory> {
    for (i, child) in layout.children.as_slice().iter().enumerate() {
        let below = paths_below(alloc, paths, field_at(layout, i))?;
        let name = name_below(alloc, name, child_name(layout, i))?;
        let rows = rows_below(layout, rows, i);
        push_wanted(
            alloc,
            child,
            below.as_slice(),
            rows,
            name.as_str(),
            levels,
            out,
        )?;
    }
    Ok(())
}

/// The segments that an expression may ask for of rows of a layout.
fn wanted_of(
    alloc: Global,
    layout: &LayoutNode,
    expr: &BoundExpression,
    rows: Span,
) -> Result<Vec<Wanted>, NoMemory> {
    let mut found = Vec::new(alloc);
    if rows.first >= rows.end {
        return Ok(found);
    }
    let masks = referenced_field_masks(alloc, expr, None)?;
    let whole: Vec<FieldName> = Vec::new(alloc);
    let mut paths: Vec<&[FieldName]> = Vec::with_capacity(alloc, masks.len())?;
    for mask in &masks {
        match mask {
            FieldMask::All => paths.push(whole.as_slice())?,
            FieldMask::Prefix(path) => paths.push(path.names())?,
        }
    }
    push_wanted(
        alloc,
        layout,
        paths.as_slice(),
        Some(rows),
        "",
        MOST_LEVELS,
        &mut found,
    )?;
    Ok(found)
}

/// Appends a line for each segment, and counts those that are new.
fn push_lines(
    wanted: &[Wanted],
    places: &Places,
    counted: &mut Counted,
    out: &mut String,
) -> Result<(), NoMemory> {
    for one in wanted {
        let leaf = if one.leaf.is_empty() {
            "rows"
        } else {
            one.leaf.as_str()
        };
        let id = one.id;
        let number: u32 = *id;
        let first = one.rows.first;
        let end = one.rows.end;
        match places.get(id) {
            Some(place) => {
                let length = place.length;
                let offset = place.offset;
                write!(
                    out,
                    "  {leaf}: segment {number}, rows {first}..{end}, {length} bytes at {offset}\n"
                )?;
                counted.add(id, length)?;
            }
            None => write!(
                out,
                "  {leaf}: segment {number}, rows {first}..{end}, not in the file\n"
            )?,
        }
    }
    Ok(())
}

/// Which segments were told, and how many bytes they have together, up to the greatest u64.
#[derive(Drop)]
struct Counted {
    ids: BTreeSet<SegmentId>,
    bytes: u64,
}

impl Counted {
    fn add(&mut self, id: SegmentId, length: u64) -> Result<(), NoMemory> {
        if self.ids.insert(id)? {
            self.bytes = self.bytes.saturating_add(length);
        }
        Ok(())
    }
}

/// The plan of an expression over a layout, whose rows are numbered from 0 on.
fn plan_of(alloc: Global, layout: &LayoutRef, expr: &BoundExpression) -> Result<Arc<Plan>, NoMemory>
    requires form { HasForm layout.now.value (dtype_of layout.now.value) }
    requires scope { expr.now.scope ≡ dtype_of layout.now.value }
    requires bound { IsPartable expr.now }
{
    let shared: LayoutReaderContext<u8> = LayoutReaderContext::new(alloc);
    let name = Text::new(String::new(alloc));
    let _rows = layout.row_count();
    let mut reader = Reader::from_layout(alloc, name, layout, &shared)?;
    plan_with_numbers(alloc, &mut reader, 0, expr)
}

/// Whether a layout is well-formed, and of the dtype that an expression is bound over.
fn is_good(layout: &LayoutRef, expr: &BoundExpression) -> bool
    ensures form { result ≡ true → HasForm layout.now.value (dtype_of layout.now.value) }
    ensures scope { result ≡ true → expr.now.scope ≡ dtype_of layout.now.value }
{
    layout.check(expr.scope()).is_ok()
}

/// Appends a plan behind a word, where it is wanted.
fn push_shown(plan: &Plan, word: &str, out: &mut String) -> Result<(), NoMemory> {
    write!(out, "{word}: {plan}\n")?;
    Ok(())
}

/// Appends the plan of a projection over a good layout.
fn push_plan(
    alloc: Global,
    layout: &LayoutRef,
    expr: &BoundExpression,
    out: &mut String,
) -> Result<(), NoMemory>
    requires bound { IsPartable expr.now }
{
    if !is_good(layout, expr) {
        return Ok(());
    }
    let plan = plan_of(alloc, layout, expr)?;
    push_shown(&plan, "select", out)
}

/// Appends the plan of a conjunct over a good layout, if it is over row numbers alone, or if it is not.
fn push_conjunct(
    alloc: Global,
    layout: &LayoutRef,
    conjunct: &BoundExpression,
    numbered: bool,
    out: &mut String,
) -> Result<(), NoMemory>
    requires bound { IsPartable conjunct.now }
{
    if !is_good(layout, conjunct) {
        return Ok(());
    }
    let plan = plan_of(alloc, layout, conjunct)?;
    if plan.is_numbered() == numbered {
        push_shown(&plan, "where", out)?;
    }
    Ok(())
}

/// Appends the plans of a filter's conjuncts that are over row numbers alone, or of the others.
fn push_conjuncts(
    alloc: Global,
    layout: &LayoutRef,
    conjuncts: &[BoundExpression],
    numbered: bool,
    out: &mut String,
) -> Result<(), NoMemory>
    requires { All IsPartable conjuncts.now }
{
    for conjunct in conjuncts {
        push_conjunct(alloc, layout, conjunct, numbered, out)?;
    }
    Ok(())
}

/// Appends the plans of a filter's conjuncts in the order in which they run.
fn push_where(
    alloc: Global,
    layout: &LayoutRef,
    conjuncts: &[BoundExpression],
    out: &mut String,
) -> Result<(), NoMemory>
    requires { All IsPartable conjuncts.now }
{
    push_conjuncts(alloc, layout, conjuncts, true, out)?;
    push_conjuncts(alloc, layout, conjuncts, false, out)
}

/// Appends what the filter asks for of a file: its conjuncts in the order in which they run, and their segments.
fn push_filter(
    alloc: Global,
    layout: &LayoutRef,
    places: &Places,
    filter: &BoundExpression,
    rows: Span,
    counted: &mut Counted,
    out: &mut String,
) -> Result<(), NoMemory>
    requires { IsFilter filter.now.scope filter.now }
{
    let conjuncts = filter.conjuncts(alloc)?;
    push_where(alloc, layout, conjuncts.as_slice(), out)?;
    let wanted = wanted_of(alloc, layout, filter, rows)?;
    push_lines(wanted.as_slice(), places, counted, out)
}

/// Appends what the projection asks for of a file.
fn push_projection(
    alloc: Global,
    layout: &LayoutRef,
    places: &Places,
    projection: &BoundExpression,
    rows: Span,
    counted: &mut Counted,
    out: &mut String,
) -> Result<(), NoMemory>
    requires { IsPartable projection.now }
{
    push_plan(alloc, layout, projection, out)?;
    let wanted = wanted_of(alloc, layout, projection, rows)?;
    push_lines(wanted.as_slice(), places, counted, out)
}

/// The rows of a file that a job asks for, or that they end past the file's.
fn rows_of<F>(job: &ScanJob, file: &OpenFile<F>, place: usize) -> Result<Span, ToolFault> {
    let count = file.layout.row_count();
    let Some(range) = &job.range else {
        return Ok(Span {
            first: 0,
            end: count,
        });
    };
    if range.end > count {
        return Err(ToolFault::ScanOf {
            path: file.path.clone()?,
            fault: ScanFault::RowRange(RangeFault::Past { file: place }),
        });
    }
    Ok(Span {
        first: range.start,
        end: range.end,
    })
}

/// What a scan may ask of files, in lines. Of the rows that the filter does not let pass nothing is asked for the
/// projection, and a limit ends a scan before all is asked: so it asks for these segments or for some of them, and for no
/// other. Nothing but the footers is read.
pub(crate) fn explained<F>(
    alloc: Global,
    opened: &[OpenFile<F>],
    job: &ScanJob,
) -> Result<String, ToolFault> {
    let asked = asked_of(alloc, opened, job)?;
    check_range(job)?;
    let projection = bound(alloc, &asked.request.projection, &asked.dtype)?;
    let filter = bound_filter(alloc, &asked.request.filter, &asked.dtype)?;
    explained_of(alloc, opened, job, &projection, &filter)
}

/// That a range does not start after its end.
fn check_range(job: &ScanJob) -> Result<(), ToolFault> {
    match &job.range {
        Some(range) => {
            if range.start > range.end {
                return Err(ToolFault::Scan {
                    fault: ScanFault::RowRange(RangeFault::Reversed),
                });
            }
            Ok(())
        }
        None => Ok(()),
    }
}

/// What bound expressions may ask of files, in lines.
fn explained_of<F>(
    alloc: Global,
    opened: &[OpenFile<F>],
    job: &ScanJob,
    projection: &BoundExpression,
    filter: &Option<BoundExpression>,
) -> Result<String, ToolFault>
    requires projection { IsPartable projection.now }
    requires filter { IfSome filter.now (λ f. IsFilter f.scope f) }
{
    let mut out = String::new(alloc);
    for (place, file) in opened.iter().enumerate() {
        check_layout(file, place)?;
        let rows = rows_of(job, file, place)?;
        push_file(alloc, file, projection, filter, rows, &mut out)?;
    }
    Ok(out)
}

/// Appends what a scan may ask of a file.
fn push_file<F>(
    alloc: Global,
    file: &OpenFile<F>,
    projection: &BoundExpression,
    filter: &Option<BoundExpression>,
    rows: Span,
    out: &mut String,
) -> Result<(), NoMemory>
    requires projection { IsPartable projection.now }
    requires filter { IfSome filter.now (λ f. IsFilter f.scope f) }
{
    let path = file.path.as_str();
    let layout = &file.layout;
    let places = &file.places;
    let count = layout.row_count();
    let first = rows.first;
    let end = rows.end;
    write!(out, "{path}: rows {first}..{end} of {count}\n")?;
    let mut counted = Counted {
        ids: BTreeSet::new(alloc),
        bytes: 0,
    };
    if let Some(filter) = filter {
        push_filter(alloc, layout, places, filter, rows, &mut counted, out)?;
    }
    push_projection(alloc, layout, places, projection, rows, &mut counted, out)?;
    let number = counted.ids.len();
    let bytes = counted.bytes;
    write!(out, "at most {number} segments, {bytes} bytes\n")?;
    Ok(())
}
