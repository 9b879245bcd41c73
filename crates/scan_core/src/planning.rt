//! What a builder sets up: the plans of a scan, and the boundaries of its splits.
ghost use Rattle.std.specs.Prelude.{◌≡◌, ◌≤◌, ◌<◌, ◌+◌, ◌++◌, ◌^◌, IfOk, IfSome, false, true};
ghost use Rattle.scan_values.specs.StrictSorted.{is_rising};
ghost use Rattle.scan_expr.specs.Bound.{bound_conjuncts};
ghost use Rattle.scan_plans.specs.PlanData.{plans_of};
ghost use Rattle.scan_readers.specs.Kept.{Stay};
ghost use Rattle.scan_readers.specs.RowIdxData.{numbered_state};
ghost use Rattle.scan_core.specs.Boundaries.{boundaries};
ghost use Rattle.scan_core.specs.BuilderData.{AreBoundaries, AreFilters, IsFilter, IsOver, asked_masks, boundaries_in, chosen_points, conjuncts_in, lent_filter, range_or_all};
ghost use Rattle.scan_core.specs.Prepared.{numbered_first};
ghost use Rattle.scan_core.specs.RowRanges.{is_past, UpTo};
ghost use Rattle.scan_core.specs.Setup.{Refuses, is_empty_split, size_fault};
ghost use Rattle.scan_core.specs.SplitMeaning.{ArePlansOf, IsScanOf, in_turn};

use crate::field_masks::referenced_field_masks;
use crate::split_by::SplitBy;
use scan_expr::BoundExpression;
use scan_plans::Plan;
use scan_readers::{LayoutReader, plan_with_numbers};
use scan_streams::{ScanPlans, SetupFault};
use scan_values::NoMemory;
use std::alloc::Global;
use std::ops::Range;
use std::sync::Arc;

/// The plans of a scan over a reader whose rows are numbered from an offset on: of the filter's conjuncts, in the order
/// in which they run, and of the projection.
pub(crate) fn plan_numbered<R: LayoutReader + Drop>(
    alloc: Global,
    reader: &mut R,
    row_offset: u64,
    projection: &BoundExpression,
    filter: Option<&BoundExpression>,
) -> Result<ScanPlans, NoMemory>
    requires offset { row_offset + (R.state reader.old).rows < 2 ^ 64 }
    requires over { IsOver (R.state reader.old).dtype projection.now }
    requires filter { IfSome (lent_filter filter) (IsFilter (R.state reader.old).dtype) }
    ensures plans { IfOk result (λ p. IsScanOf (numbered_state row_offset (R.state reader.old))
        (in_turn (numbered_state row_offset (R.state reader.old)) (conjuncts_in (lent_filter filter.entry)))
        projection.now p) }
    ensures same { R.state reader.new ≡ R.state reader.old }
{
    let conjuncts = plan_filter(alloc, reader, row_offset, filter)?;
    let projection = plan_with_numbers(alloc, reader, row_offset, projection)?;
    Ok(ScanPlans::new(conjuncts, projection))
}

/// The plans of a filter's conjuncts, in the order in which they run. No filter has none.
fn plan_filter<R: LayoutReader>(
    alloc: Global,
    reader: &mut R,
    row_offset: u64,
    filter: Option<&BoundExpression>,
) -> Result<Vec<Arc<Plan>>, NoMemory>
    requires offset { row_offset + (R.state reader.old).rows < 2 ^ 64 }
    requires filter { IfSome (lent_filter filter) (IsFilter (R.state reader.old).dtype) }
    ensures plans { IfOk result (λ v. ArePlansOf (numbered_state row_offset (R.state reader.old))
        (in_turn (numbered_state row_offset (R.state reader.old)) (conjuncts_in (lent_filter filter.entry)))
        (plans_of v.items)) }
    ensures same { R.state reader.new ≡ R.state reader.old }
{
    match filter {
        Some(filter) => plan_conjuncts(alloc, reader, row_offset, filter),
        None => Ok(Vec::new(alloc)),
    }
}

/// The plans of the conjuncts of a filter, in the order in which they run.
fn plan_conjuncts<R: LayoutReader>(
    alloc: Global,
    reader: &mut R,
    row_offset: u64,
    filter: &BoundExpression,
) -> Result<Vec<Arc<Plan>>, NoMemory>
    requires offset { row_offset + (R.state reader.old).rows < 2 ^ 64 }
    requires filter { IsFilter (R.state reader.old).dtype filter.now }
    ensures plans { IfOk result (λ v. ArePlansOf (numbered_state row_offset (R.state reader.old))
        (in_turn (numbered_state row_offset (R.state reader.old)) (bound_conjuncts filter.now)) (plans_of v.items)) }
    ensures same { R.state reader.new ≡ R.state reader.old }
{
    let conjuncts = filter.conjuncts(alloc)?;
    let plans = plan_each(alloc, reader, row_offset, &conjuncts)?;
    numbered_first(alloc, plans)
}

/// The plans of Bool expressions, in their order.
fn plan_each<R: LayoutReader>(
    alloc: Global,
    reader: &mut R,
    row_offset: u64,
    conjuncts: &[BoundExpression],
) -> Result<Vec<Arc<Plan>>, NoMemory>
    requires offset { row_offset + (R.state reader.old).rows < 2 ^ 64 }
    requires filters { AreFilters (R.state reader.old).dtype conjuncts.now }
    ensures plans { IfOk result (λ v. ArePlansOf (numbered_state row_offset (R.state reader.old)) conjuncts.now
        (plans_of v.items)) }
    ensures same { R.state reader.new ≡ R.state reader.old }
{
    let mut plans = Vec::with_capacity(alloc, conjuncts.len())?;
    for conjunct in conjuncts {
        plans.push(plan_with_numbers(alloc, reader, row_offset, conjunct)?)?;
    }
    Ok(plans)
}

/// Plans, those over row numbers alone before the others.
fn numbered_first(alloc: Global, plans: Vec<Arc<Plan>>) -> Result<Vec<Arc<Plan>>, NoMemory>
    ensures { IfOk result (λ v. plans_of v.items ≡ numbered_first (plans_of plans.items)) }
{
    let mut ordered = Vec::with_capacity(alloc, plans.len())?;
    let mut others = Vec::new(alloc);
    for plan in plans {
        if plan.is_numbered() {
            ordered.push(plan)?;
        } else {
            others.push(plan)?;
        }
    }
    joined(ordered, others)
}

/// Plans, and others after them.
fn joined(plans: Vec<Arc<Plan>>, others: Vec<Arc<Plan>>) -> Result<Vec<Arc<Plan>>, NoMemory>
    ensures { IfOk result (λ v. plans_of v.items ≡ plans_of plans.items ++ plans_of others.items) }
{
    let mut joined = plans;
    for plan in others {
        joined.push(plan)?;
    }
    Ok(joined)
}

/// The natural boundaries of the splits of a scan, or those of its range or of all rows by what it is split by.
pub(crate) fn cut_points<R: LayoutReader>(
    alloc: Global,
    reader: &mut R,
    projection: &BoundExpression,
    filter: Option<&BoundExpression>,
    natural: Option<Arc<Vec<u64>>>,
    split_by: SplitBy,
    row_range: &Option<Range<u64>>,
) -> Result<Arc<Vec<u64>>, NoMemory>
    requires range { is_past row_range.now (R.state reader.old).rows ≡ false }
    requires size { is_empty_split split_by ≡ false }
    requires over { IsOver (R.state reader.old).dtype projection.now }
    requires filter { IfSome (lent_filter filter) (IsFilter (R.state reader.old).dtype) }
    requires natural { IfSome (boundaries_in natural) (AreBoundaries 0 (R.state reader.old).rows) }
    ensures points { IfOk result (λ a. a.value.items ≡ chosen_points (R.state reader.old) split_by
        (asked_masks projection.now (lent_filter filter.entry)) row_range.now (boundaries_in natural)) }
    ensures rising { IfOk result (λ a. is_rising a.value.items ≡ true) }
    ensures within { IfOk result (λ a. UpTo (R.state reader.old).rows a.value.items) }
    ensures same { R.state reader.new ≡ R.state reader.old }
{
    match natural {
        Some(natural) => Ok(natural),
        None => own_points(alloc, reader, projection, filter, split_by, row_range),
    }
}

/// The boundaries of the splits of a range or of all rows, by what it is split by.
fn own_points<R: LayoutReader>(
    alloc: Global,
    reader: &mut R,
    projection: &BoundExpression,
    filter: Option<&BoundExpression>,
    split_by: SplitBy,
    row_range: &Option<Range<u64>>,
) -> Result<Arc<Vec<u64>>, NoMemory>
    requires range { is_past row_range.now (R.state reader.old).rows ≡ false }
    requires size { is_empty_split split_by ≡ false }
    requires over { IsOver (R.state reader.old).dtype projection.now }
    requires filter { IfSome (lent_filter filter) (IsFilter (R.state reader.old).dtype) }
    ensures points { IfOk result (λ a. a.value.items ≡ boundaries split_by (R.state reader.old)
        (asked_masks projection.now (lent_filter filter.entry))
        (range_or_all row_range.now (R.state reader.old).rows)) }
    ensures rising { IfOk result (λ a. is_rising a.value.items ≡ true) }
    ensures within { IfOk result (λ a. UpTo (R.state reader.old).rows a.value.items) }
    ensures same { R.state reader.new ≡ R.state reader.old }
{
    let range = range_or_all(row_range, reader.row_count());
    match split_points(alloc, reader, projection, filter, split_by, &range) {
        Ok(points) => Ok(Arc::new(alloc, points)?),
        Err(_) => Err(NoMemory),
    }
}

/// The boundaries of the splits of a range of a reader's rows, by what it is split by and what is asked for.
///
/// # Errors
/// `SplitSize` exactly for splits of no rows. Else `NoMemory` alone.
fn split_points<R: LayoutReader>(
    alloc: Global,
    reader: &mut R,
    projection: &BoundExpression,
    filter: Option<&BoundExpression>,
    split_by: SplitBy,
    range: &Range<u64>,
) -> Result<Vec<u64>, SetupFault>
    requires order { range.now.start ≤ range.now.end }
    requires rows { range.now.end ≤ (R.state reader.old).rows }
    requires over { IsOver (R.state reader.old).dtype projection.now }
    requires filter { IfSome (lent_filter filter) (IsFilter (R.state reader.old).dtype) }
    ensures points { IfOk result (λ v. v.items ≡ boundaries split_by (R.state reader.old)
        (asked_masks projection.now (lent_filter filter.entry)) range.now) }
    ensures ends { IfOk result (λ v. AreBoundaries range.now.start range.now.end v.items) }
    ensures fault { Refuses result (size_fault split_by) }
    ensures same { R.state reader.new ≡ R.state reader.old }
    ensures stay { Stay (R.kept reader.old) (R.kept reader.new) }
{
    if split_by == SplitBy::RowCount(0) {
        return Err(SetupFault::SplitSize);
    }
    let masks = referenced_field_masks(alloc, projection, filter)?;
    split_by.splits(alloc, reader, range, &masks)
}

/// A range, or all of so many rows.
fn range_or_all(range: &Option<Range<u64>>, rows: u64) -> Range<u64>
    ensures { result ≡ range_or_all range.now rows }
{
    match range {
        Some(range) => range.start..range.end,
        None => 0..rows,
    }
}
