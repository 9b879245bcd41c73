//! What is asked of readers: layouts, rows in memory, and others that are boxed or lent, each under one that numbers its
//! rows. A case is `WHAT | MASK SCRIPT` (`all` is the mask of all rows), what comes of it a text (see `told`):
//! `rows where E then F` are the rows at which both are true, the second where the first is; `rows where prune E then F`
//! those that are left where pruning by the first comes before; `E` the values of an expression; `E where F` those in the
//! rows at which another is true; `E under MASK F` those, null outside the rows of a mask at which another is true.
//! `splits MASKS OFFSET,FIRST,END` are the splits of rows by masks of fields, `shown E` the plan of an expression.
ghost use Rattle.std.specs.Prelude.{◌≡◌, IfOk};
ghost use Rattle.scan_expr.specs.Bound.{bound_of};
ghost use Rattle.scan_partition.specs.Partable.{IsPartable};

use crate::layouts::layouts;
use crate::told::{push_numbers, told};
use crate::words::{before, dtype, expression, field_masks, mask, numbers, sides, taken, value};
use scan_expr::{BindFault, BoundExpression, Expression};
use scan_layout::LayoutReaderContext;
use scan_plans::{ArrayFuture, MaskFuture, Plan};
use scan_readers::{LayoutReader, LayoutReaderRef, Reader, RowIdxLayoutReader, RowsReader};
use scan_splits::{RowSplits, SplitRange};
use scan_values::{Array, DType, Text};
use std::alloc::Global;
use std::process::Abort;
use std::string::String;
use std::sync::Arc;

/// An expression bound over a dtype.
pub(crate) fn over(
    alloc: Global,
    e: &Expression,
    dtype: &DType,
) -> Result<BoundExpression, BindFault>
    ensures bound { IfOk result (λ b. b ≡ bound_of dtype.now e.now) }
    ensures partable { IfOk result (λ b. IsPartable b) }
{
    let bound = e.bind(alloc, dtype)?;
    Ok(bound)
}

/// The values of an expression at the rows of a mask over all rows.
fn project<R: LayoutReader + Drop>(
    rt: &impl Abort,
    alloc: Global,
    reader: &mut RowIdxLayoutReader<R>,
    words: &str,
    mask: MaskFuture,
) -> ArrayFuture {
    let rows = reader.row_count();
    if mask.len() as u64 != rows {
        panic!(rt; "not as many bits as rows");
    }
    let bound = over(alloc, &expression(rt, alloc, words), reader.dtype()).expect(rt, "over");
    let plan = reader.plan(alloc, &bound).expect(rt, "plan");
    reader
        .projection_evaluation(&(0..rows), &plan, mask)
        .expect(rt, "projection_evaluation")
}

/// The rows of a mask over all rows at which an expression is true.
fn keep<R: LayoutReader + Drop>(
    rt: &impl Abort,
    alloc: Global,
    reader: &mut RowIdxLayoutReader<R>,
    words: &str,
    mask: MaskFuture,
) -> MaskFuture {
    let rows = reader.row_count();
    if mask.len() as u64 != rows {
        panic!(rt; "not as many bits as rows");
    }
    let bound = over(alloc, &expression(rt, alloc, words), reader.dtype()).expect(rt, "over");
    if !bound.dtype().is_bool() {
        panic!(rt; "not a truth value");
    }
    let plan = reader.plan(alloc, &bound).expect(rt, "plan");
    reader
        .filter_evaluation(&(0..rows), &plan, mask)
        .expect(rt, "filter_evaluation")
}

/// The rows of a mask over all rows that pruning by an expression leaves.
fn prune<R: LayoutReader + Drop>(
    rt: &impl Abort,
    alloc: Global,
    reader: &mut RowIdxLayoutReader<R>,
    words: &str,
    bits: &str,
) -> MaskFuture {
    let rows = reader.row_count();
    let mask = mask(rt, alloc, bits);
    if mask.len() as u64 != rows {
        panic!(rt; "not as many bits as rows");
    }
    let bound = over(alloc, &expression(rt, alloc, words), reader.dtype()).expect(rt, "over");
    if !bound.dtype().is_bool() {
        panic!(rt; "not a truth value");
    }
    let plan = reader.plan(alloc, &bound).expect(rt, "plan");
    reader
        .pruning_evaluation(alloc, &(0..rows), &plan, mask)
        .expect(rt, "pruning_evaluation")
}

/// What filters leave of a mask, one after the other.
fn filtered<R: LayoutReader + Drop>(
    rt: &impl Abort,
    alloc: Global,
    reader: &mut RowIdxLayoutReader<R>,
    filters: &str,
    mask: MaskFuture,
) -> MaskFuture {
    let mut left = mask;
    if filters.is_empty() {
        return left;
    }
    for words in filters.split(" then ") {
        left = keep(rt, alloc, reader, words, left);
    }
    left
}

/// What a prune, where there is one, and filters leave of a mask.
pub(crate) fn left<R: LayoutReader + Drop>(
    rt: &impl Abort,
    alloc: Global,
    reader: &mut RowIdxLayoutReader<R>,
    steps: &str,
    bits: &str,
) -> MaskFuture {
    if let Some(steps) = steps.strip_prefix("prune ") {
        let (words, filters) = before(steps, " then ");
        let pruned = prune(rt, alloc, reader, words, bits);
        return filtered(rt, alloc, reader, filters, pruned);
    }
    if bits == "all" {
        let rows = reader.row_count() as usize;
        let all = MaskFuture::new_true(alloc, rows).expect(rt, "new_true");
        return filtered(rt, alloc, reader, steps, all);
    }
    let known = MaskFuture::ready(alloc, mask(rt, alloc, bits));
    filtered(rt, alloc, reader, steps, known)
}

/// The values of an expression, null outside the rows that are left of another mask, where one is said.
pub(crate) fn values<R: LayoutReader + Drop>(
    rt: &impl Abort,
    alloc: Global,
    reader: &mut RowIdxLayoutReader<R>,
    what: &str,
    mask: MaskFuture,
) -> ArrayFuture {
    let (words, outer) = before(what, " under ");
    let future = project(rt, alloc, reader, words, mask);
    if outer.is_empty() {
        return future;
    }
    let (bits, filters) = before(outer, " ");
    let outer = left(rt, alloc, reader, filters, bits);
    future.masked(outer).expect(rt, "masked")
}

/// Where a reader is split by masks of fields in a range of its rows, whose row 0 is some row of the root.
fn told_splits<R: LayoutReader>(
    rt: &impl Abort,
    alloc: Global,
    reader: &mut R,
    text: &str,
) -> String {
    let (masks, range) = sides(rt, text, " ");
    let masks = field_masks(rt, alloc, masks);
    let range = numbers(rt, alloc, range);
    let range = match range.as_slice() {
        [offset, first, end] => SplitRange::try_new(*offset, *first..*end).expect(rt, "try_new"),
        _ => panic!(rt; "no range"),
    };
    let mut splits = RowSplits::new_capacity(alloc, 2).expect(rt, "new_capacity");
    match reader.register_splits(alloc, masks.as_slice(), &range, &mut splits) {
        Ok(()) => {
            let mut told = String::new(alloc);
            let rows = splits.into_sorted_deduped();
            push_numbers(rt, alloc, rows.as_slice(), &mut told);
            told
        }
        Err(fault) => format!(in alloc; "{fault:?}").expect(rt, "format"),
    }
}

/// The plan of an expression, and its node, as a person reads them.
fn shown<R: LayoutReader + Drop>(
    rt: &impl Abort,
    alloc: Global,
    reader: &mut RowIdxLayoutReader<R>,
    words: &str,
) -> String {
    let bound = over(alloc, &expression(rt, alloc, words), reader.dtype()).expect(rt, "over");
    let plan = reader.plan(alloc, &bound).expect(rt, "plan");
    let node = plan.copy_node(alloc).expect(rt, "copy_node");
    let plan: &Plan = &plan;
    format!(in alloc; "{plan}\n{node}").expect(rt, "format")
}

/// What comes of what a case asks of a reader.
fn told_of<R: LayoutReader + Drop>(
    rt: &impl Abort,
    alloc: Global,
    reader: &mut RowIdxLayoutReader<R>,
    store: &str,
    case: &str,
) -> String {
    if let Some(text) = case.strip_prefix("splits ") {
        return told_splits(rt, alloc, reader, text);
    }
    if let Some(words) = case.strip_prefix("shown ") {
        return shown(rt, alloc, reader, words);
    }
    let (asked, script) = sides(rt, case, " | ");
    let (bits, script) = before(script, " ");
    let (what, steps) = before(asked, " where ");
    let mut mask = left(rt, alloc, reader, steps, bits);
    if what == "rows" {
        return told(rt, alloc, &mut mask, store, script);
    }
    let mut future = values(rt, alloc, reader, what, mask);
    told(rt, alloc, &mut future, store, script)
}

/// The same of a reader that numbers another's rows from an offset on, where it may.
fn told_from<R: LayoutReader + Drop>(
    rt: &impl Abort,
    alloc: Global,
    offset: u64,
    child: R,
    store: &str,
    case: &str,
) -> String {
    match RowIdxLayoutReader::new(alloc, offset, child) {
        Ok(reader) => {
            let mut reader = reader;
            told_of(rt, alloc, &mut reader, store, case)
        }
        Err(fault) => format!(in alloc; "{fault:?}").expect(rt, "format"),
    }
}

/// The reader of a layout that is checked.
pub(crate) fn reader(rt: &impl Abort, alloc: Global, words: &str) -> Reader<u8> {
    let node = taken(rt, &mut layouts(rt, alloc, words));
    node.check(node.dtype()).expect(rt, "check");
    let shared = LayoutReaderContext::new(alloc);
    let name = Text::new(String::from_str(alloc, "file").expect(rt, "from_str"));
    Reader::from_layout(alloc, name, &node, &shared).expect(rt, "from_layout")
}

/// A reader of a layout whose rows are numbered from 5 on.
pub(crate) fn numbered(
    rt: &impl Abort,
    alloc: Global,
    words: &str,
) -> RowIdxLayoutReader<Reader<u8>> {
    RowIdxLayoutReader::new(alloc, 5, reader(rt, alloc, words)).expect(rt, "new")
}

/// Values in memory, of a dtype: `1,null,3`.
pub(crate) fn array(rt: &impl Abort, alloc: Global, of: &str, values: &str) -> Array {
    let mut items = Vec::new(alloc);
    for word in values.split(',') {
        items.push(value(rt, word)).expect(rt, "push");
    }
    Array::try_new(dtype(rt, of), items).expect(rt, "try_new")
}

/// A reader of rows in memory: `i32 1,2,3`.
fn in_memory(rt: &impl Abort, alloc: Global, text: &str) -> RowsReader {
    let (of, values) = sides(rt, text, " ");
    let array = Arc::new(alloc, array(rt, alloc, of, values)).expect(rt, "new");
    let name = Text::new(String::from_str(alloc, "rows").expect(rt, "from_str"));
    RowsReader::new(alloc, name, array)
}

/// What comes of what a case asks of a reader by its kind, the number of its first row, and its words.
pub(crate) fn told_by(rt: &impl Abort, alloc: Global, of: &str, store: &str, case: &str) -> String {
    let (kind, of) = sides(rt, of, " ");
    let (offset, words) = sides(rt, of, ": ");
    let offset = offset.parse::<u64>().expect(rt, "parse");
    match kind {
        "layout" => told_from(rt, alloc, offset, reader(rt, alloc, words), store, case),
        "lent" => {
            let mut child = reader(rt, alloc, words);
            told_from(rt, alloc, offset, &mut child, store, case)
        }
        "boxed" => {
            let child = Box::new(alloc, reader(rt, alloc, words)).expect(rt, "new");
            told_from(rt, alloc, offset, LayoutReaderRef(child), store, case)
        }
        "memory" => told_from(rt, alloc, offset, in_memory(rt, alloc, words), store, case),
        _ => panic!(rt; "no kind of a reader"),
    }
}
