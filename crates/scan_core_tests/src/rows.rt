//! Three rows of a file with the numbers `a` and `b`, thirty rows in memory, and scans of them.
ghost use Rattle.std.specs.Prelude.{◌≡◌, IfOk};
ghost use Rattle.scan_partition.specs.Partable.{IsPartable, IsScope};
ghost use Rattle.scan_expr.specs.Bound.{bound_of};
ghost use Rattle.scan_core.specs.BuilderData.{AreBoundaries, IsFilter};

use crate::case::{Settings, after, rising, settings_of};
use scan_core::{Identity, RepeatedScan, ScanBuilder};
use scan_expr::{BindFault, BoundExpression, Expression};
use scan_layout::{LayoutNode, LayoutReaderContext, LayoutRef, StructLayout};
use scan_readers::{LayoutReader, Reader, RowsReader};
use scan_segments::SegmentId;
use scan_values::{
    Array, DType, FieldName, Nullability, PType, Selection, StrictSorted, StructFields, Text, Value,
};
use std::alloc::Global;
use std::process::Abort;
use std::sync::Arc;

/// Numbers of i32, without null.
pub(crate) fn int() -> DType {
    DType::primitive(PType::I32, Nullability::NonNullable)
}

pub(crate) fn name(rt: &impl Abort, alloc: Global, name: &str) -> FieldName {
    FieldName::new(String::from_str(alloc, name).expect(rt, "from_str"))
}

// ---- files
// A leaf of segments of so many rows.
fn leaf(rt: &impl Abort, alloc: Global, dtype: DType, parts: &[(u32, u64)]) -> LayoutRef {
    let mut segments = Vec::new(alloc);
    for (id, rows) in parts {
        segments
            .push((SegmentId::from(*id), *rows))
            .expect(rt, "push");
    }
    LayoutNode::leaf(alloc, dtype, segments).expect(rt, "leaf")
}

fn first_type(truths: bool) -> DType {
    if truths { DType::boolean() } else { int() }
}

// The struct of `a`, truth values or numbers, and the numbers `b`.
fn structure(rt: &impl Abort, alloc: Global, truths: bool) -> DType {
    let mut pairs = Vec::new(alloc);
    pairs.push(("a", first_type(truths))).expect(rt, "push");
    pairs.push(("b", int())).expect(rt, "push");
    let fields = StructFields::from_pairs(alloc, pairs).expect(rt, "from_pairs");
    DType::struct_(fields, Nullability::NonNullable).expect(rt, "struct_")
}

// So many rows of `a`, truth values or numbers, and the numbers `b`, each in segments of so many rows.
fn columns(
    rt: &impl Abort,
    alloc: Global,
    rows: u64,
    truths: bool,
    first: &[(u32, u64)],
    second: &[(u32, u64)],
) -> LayoutRef {
    let mut children = Vec::new(alloc);
    children
        .push(leaf(rt, alloc, first_type(truths), first))
        .expect(rt, "push");
    children
        .push(leaf(rt, alloc, int(), second))
        .expect(rt, "push");
    let layout = StructLayout::new(alloc, rows, structure(rt, alloc, truths), children).expect(
        rt, "new",
    );
    layout.node().clone().expect(rt, "clone")
}

fn reader(rt: &impl Abort, alloc: Global, node: &LayoutRef) -> Reader<u8> {
    node.check(node.dtype()).expect(rt, "check");
    let shared = LayoutReaderContext::new(alloc);
    let name = Text::new(String::from_str(alloc, "file").expect(rt, "from_str"));
    Reader::from_layout(alloc, name, node, &shared).expect(rt, "from_layout")
}

/// The rows (1, 10), (2, 20) and (3, 30) of a file: `a` in the segment 0, and `b` in the segment 1, or, where the case
/// says `two`, in the segments 2, of two rows, and 3, of one, so that a scan of `b` has two splits.
pub(crate) fn file(rt: &impl Abort, alloc: Global, case: &str) -> Reader<u8> {
    match after(case, "two") {
        Some(_) => reader(
            rt,
            alloc,
            &columns(rt, alloc, 3, false, &[(0, 3)], &[(2, 2), (3, 1)]),
        ),
        None => reader(
            rt,
            alloc,
            &columns(rt, alloc, 3, false, &[(0, 3)], &[(1, 3)]),
        ),
    }
}

/// Three rows of the truth values `a`, in the segment 0, and the numbers `b`, in the segments 1, of two rows, and 2.
pub(crate) fn flagged(rt: &impl Abort, alloc: Global) -> Reader<u8> {
    reader(
        rt,
        alloc,
        &columns(rt, alloc, 3, true, &[(0, 3)], &[(1, 2), (2, 1)]),
    )
}

/// Thirty rows: `a` in segments of 12 and 18 rows, and `b` of 5, 7 and 18.
pub(crate) fn uneven(rt: &impl Abort, alloc: Global) -> Reader<u8> {
    let second: [(u32, u64); 3] = [(0, 5), (0, 7), (0, 18)];
    reader(
        rt,
        alloc,
        &columns(rt, alloc, 30, false, &[(0, 12), (0, 18)], &second),
    )
}

/// The numbers 0 to 29 in memory.
pub(crate) fn thirty(rt: &impl Abort, alloc: Global) -> RowsReader {
    let mut items = Vec::new(alloc);
    for number in 0..30_usize {
        items.push(Value::Int(number as i128)).expect(rt, "push");
    }
    let array = Arc::new(alloc, Array::try_new(int(), items).expect(rt, "try_new")).expect(
        rt, "new",
    );
    let name = Text::new(String::from_str(alloc, "memory").expect(rt, "from_str"));
    RowsReader::new(alloc, name, array)
}

// ---- expressions
/// `$.name`
pub(crate) fn field(rt: &impl Abort, alloc: Global, text: &str) -> Expression {
    Expression::get_item(alloc, name(rt, alloc, text), Expression::root()).expect(rt, "get_item")
}

/// What is scanned: `$`, `$.name` or the row's number.
pub(crate) fn projection(rt: &impl Abort, alloc: Global, case: &str) -> Expression {
    match after(case, "of:") {
        Some(text) => match text {
            "#" => Expression::row_idx(),
            _ => field(rt, alloc, text),
        },
        None => Expression::root(),
    }
}

// `$.a >= n`
fn at_least(rt: &impl Abort, alloc: Global, n: i128) -> Expression {
    let n = Expression::lit(int(), Value::Int(n));
    Expression::gt_eq(alloc, field(rt, alloc, "a"), n).expect(rt, "gt_eq")
}

// `row_idx() < n`
fn row_below(rt: &impl Abort, alloc: Global, n: i128) -> Expression {
    let number = DType::primitive(PType::U64, Nullability::NonNullable);
    let n = Expression::lit(number, Value::Int(n));
    Expression::lt(alloc, Expression::row_idx(), n).expect(rt, "lt")
}

fn least(rt: &impl Abort, alloc: Global, case: &str) -> Option<Expression> {
    match after(case, "least:") {
        Some(text) => Some(at_least(rt, alloc, text.parse::<i128>().expect(rt, "parse"))),
        None => None,
    }
}

// `$.a >= n` and `row_idx() < m`, or what the case says of it: `least:1 below:7`.
fn test(rt: &impl Abort, alloc: Global, case: &str) -> Option<Expression> {
    let Some(text) = after(case, "below:") else {
        return least(rt, alloc, case);
    };
    let below = row_below(rt, alloc, text.parse::<i128>().expect(rt, "parse"));
    match least(rt, alloc, case) {
        Some(least) => Some(Expression::and(alloc, least, below).expect(rt, "and")),
        None => Some(below),
    }
}

/// An expression over a dtype.
pub(crate) fn over(
    alloc: Global,
    e: &Expression,
    dtype: &DType,
) -> Result<BoundExpression, BindFault>
    ensures bound { IfOk result (λ b. b ≡ bound_of dtype.now e.now) }
    ensures partable { IfOk result (λ b. IsPartable b) }
{
    let bound = e.bind(alloc, dtype)?;
    Ok(bound)
}

// One that is true or false.
fn test_over(rt: &impl Abort, alloc: Global, e: &Expression, dtype: &DType) -> BoundExpression
    ensures { IsFilter dtype.now result }
{
    let bound = over(alloc, e, dtype).expect(rt, "over");
    if !bound.dtype().is_bool() {
        panic!(rt; "not a truth value");
    }
    bound
}

// ---- scans
// That names stand once at each depth of a dtype, and that it is not deep.
fn check_scope(rt: &impl Abort, alloc: Global, dtype: &DType)
    ensures { IsScope dtype.now }
{
    if dtype.names_fault(alloc).expect(rt, "names_fault").is_some() {
        panic!(rt; "a name stands twice");
    }
    if dtype.depth() > 64 {
        panic!(rt; "deep");
    }
}

/// A scan that makes nothing else of its arrays.
pub(crate) type Plain<'r, R> = ScanBuilder<'r, R, Identity<u8>>;

/// A scan of all rows of a reader.
pub(crate) fn scan_all<'r, R: LayoutReader + Drop>(
    rt: &impl Abort,
    alloc: Global,
    reader: &'r mut R,
) -> Plain<'r, R>
    ensures { R.state result.reader.now ≡ R.state reader.old }
{
    check_scope(rt, alloc, reader.dtype());
    ScanBuilder::new(alloc, reader).expect(rt, "new")
}

/// A scan of the values of an expression at all rows of a reader.
pub(crate) fn scan_of<'r, R: LayoutReader + Drop>(
    rt: &impl Abort,
    alloc: Global,
    reader: &'r mut R,
    e: &Expression,
) -> Plain<'r, R>
    ensures { R.state result.reader.now ≡ R.state reader.old }
{
    let projection = over(alloc, e, reader.dtype()).expect(rt, "over");
    let builder = scan_all(rt, alloc, reader);
    builder.with_projection(projection)
}

// The same at those rows at which a test is true, or at all.
fn scan_where<'r, R: LayoutReader + Drop>(
    rt: &impl Abort,
    alloc: Global,
    reader: &'r mut R,
    e: &Expression,
    test: &Option<Expression>,
) -> Plain<'r, R>
    ensures { R.state result.reader.now ≡ R.state reader.old }
{
    let Some(test) = test else {
        return scan_of(rt, alloc, reader, e);
    };
    let filter = test_over(rt, alloc, test, reader.dtype());
    let builder = scan_of(rt, alloc, reader, e);
    builder.with_filter(filter)
}

// With settings, of the rows of these numbers or else of those that are selected.
fn with<'r, R: LayoutReader + Drop>(
    builder: Plain<'r, R>,
    settings: Settings,
    included: Option<StrictSorted>,
    selected: Selection,
) -> Plain<'r, R> {
    let builder = builder
        .with_concurrency(settings.at_once)
        .with_split_by(settings.by)
        .with_row_offset(settings.offset)
        .with_ordered(settings.ordered);
    let builder = match settings.limit {
        Some(limit) => builder.with_limit(limit),
        None => builder.with_some_limit(None),
    };
    let builder = match settings.rows {
        Some((start, end)) => builder.with_row_range(start..end),
        None => builder,
    };
    match included {
        Some(rows) => builder.with_row_indices(rows),
        None => builder.with_selection(selected),
    }
}

// The numbers of the rows that are selected: `include:2,7`.
fn included(rt: &impl Abort, alloc: Global, case: &str) -> Option<StrictSorted> {
    match after(case, "include:") {
        Some(text) => Some(rising(rt, alloc, text)),
        None => None,
    }
}

// All rows, or all but those of these numbers: `exclude:0,2`.
fn selected(rt: &impl Abort, alloc: Global, case: &str) -> Selection {
    match after(case, "exclude:") {
        Some(text) => Selection::ExcludeByIndex(rising(rt, alloc, text)),
        None => Selection::All,
    }
}

/// The scan of a case.
pub(crate) fn scan<'r, R: LayoutReader + Drop>(
    rt: &impl Abort,
    alloc: Global,
    reader: &'r mut R,
    case: &str,
) -> Plain<'r, R> {
    let settings = settings_of(rt, case);
    let included = included(rt, alloc, case);
    let selected = selected(rt, alloc, case);
    let e = projection(rt, alloc, case);
    let builder = scan_where(rt, alloc, reader, &e, &test(rt, alloc, case));
    with(builder, settings, included, selected)
}

/// The scan of a case, set up.
pub(crate) fn prepared(rt: &impl Abort, alloc: Global, case: &str) -> RepeatedScan<Identity<u8>> {
    let mut reader = file(rt, alloc, case);
    scan(rt, alloc, &mut reader, case)
        .prepare(alloc)
        .expect(rt, "prepare")
}

// The boundaries 0, 10, 20 and 30.
fn tens(rt: &impl Abort, alloc: Global) -> Arc<Vec<u64>>
    ensures { AreBoundaries 0 30 result.value.items }
{
    let boundaries = Vec::from_slice(alloc, &[0, 10, 20, 30]).expect(rt, "from_slice");
    Arc::new(alloc, boundaries).expect(rt, "new")
}

// A scan of thirty rows that is split there.
fn whole_in_tens<'r>(
    rt: &impl Abort,
    alloc: Global,
    reader: &'r mut RowsReader,
) -> Plain<'r, RowsReader> {
    if reader.row_count() != 30 {
        panic!(rt; "not thirty rows");
    }
    let tens = tens(rt, alloc);
    let builder = scan_all(rt, alloc, reader);
    builder.with_natural_splits(tens)
}

/// What a case says of it.
pub(crate) fn in_tens<'r>(
    rt: &impl Abort,
    alloc: Global,
    reader: &'r mut RowsReader,
    case: &str,
) -> Plain<'r, RowsReader> {
    let settings = settings_of(rt, case);
    let included = included(rt, alloc, case);
    let selected = selected(rt, alloc, case);
    let builder = whole_in_tens(rt, alloc, reader);
    with(builder, settings, included, selected)
}

/// The number of an array's rows, or the fault 7 where there is one alone.
pub(crate) fn count(array: Array) -> Result<usize, u8> {
    if array.len() == 1 {
        return Err(7);
    }
    Ok(array.len())
}
