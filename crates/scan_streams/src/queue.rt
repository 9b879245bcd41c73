//! The splits of a scan that are not started yet. The Rust makes all their tasks at once.
ghost use Rattle.std.specs.Prelude.{◌≡◌, ◌≤◌, ◌+◌, IfOk, length};
ghost use Rattle.scan_streams.specs.Plans.{ReachTo};
ghost use Rattle.scan_streams.specs.Queues.{AreWithin, picked_mask, queued, split_of_rows, IsNext};

use crate::plans::ScanPlans;
use scan_plans::ArrayFuture;
use scan_values::{Mask, NoMemory, Selection};
use std::alloc::Global;
use std::collections::VecDeque;
use std::marker::Model;
use std::ops::Range;
use std::sync::Arc;

/// Which rows a split is about: those of a range that are selected, or the first so many of these.
#[derive(Drop)]
pub struct SplitRows {
    pub range: Range<u64>,
    pub most: Option<usize>,
}

/// The splits of a scan that are not started yet, in order. Each is made when it is taken. Contracts see their futures.
#[derive(Drop)]
pub struct SplitQueue {
    plans: Arc<ScanPlans>,
    selection: Arc<Selection>,
    rows: VecDeque<SplitRows>,
}

impl Model for SplitQueue {
    ghost use Rattle.std.specs.Coded.{coded_list};
    ghost use Rattle.std.specs.Prelude.{List};
    ghost use Rattle.scan_plans.specs.Futures.{FutureData, future_code};
    ghost use Rattle.scan_streams.specs.Queues.{AreWithin, queued};

    ghost Value = { List FutureData };

    ghost coded = { coded_list future_code };

    ghost view = { λ q. queued q.plans.value q.selection.value q.rows.items };

    ghost invariant = { λ q. AreWithin q.plans.value q.rows.items };
}

impl SplitQueue {
    /// The splits of these rows, by these plans, of which a selection picks.
    pub fn new(
        plans: Arc<ScanPlans>,
        selection: Arc<Selection>,
        rows: VecDeque<SplitRows>,
    ) -> SplitQueue
        requires { AreWithin plans.value rows.items }
        ensures { result ≡ queued plans.value selection.value rows.items }
    {
        SplitQueue {
            plans,
            selection,
            rows,
        }
    }

    /// How many splits are left.
    pub fn len(&self) -> usize
        ensures { result ≡ length self.now }
    {
        self.rows.len()
    }

    /// The next split, made now. None where none is left.
    pub(crate) fn pop(&mut self, alloc: Global) -> Result<Option<ArrayFuture>, NoMemory>
        ensures { IfOk result (λ o. IsNext o self.old self.new) }
    {
        match self.rows.pop_front() {
            Some(rows) => Ok(Some(split_of(alloc, &self.plans, &self.selection, &rows)?)),
            None => Ok(None),
        }
    }
}

/// The future of a split.
fn split_of(
    alloc: Global,
    plans: &ScanPlans,
    selection: &Selection,
    rows: &SplitRows,
) -> Result<ArrayFuture, NoMemory>
    requires order { rows.now.range.start ≤ rows.now.range.end }
    requires reach { ReachTo rows.now.range.end plans.now }
    ensures { IfOk result (λ f. f ≡ split_of_rows plans.now selection.now rows.now) }
{
    let mask = mask_of(alloc, selection, rows)?;
    plans.future(alloc, &rows.range, mask)
}

/// For each row of a split's range, whether the split is about it.
fn mask_of(alloc: Global, selection: &Selection, rows: &SplitRows) -> Result<Mask, NoMemory>
    requires { rows.now.range.start ≤ rows.now.range.end }
    ensures mask { IfOk result (λ m. m ≡ picked_mask selection.now rows.now) }
    ensures length { IfOk result (λ m. rows.now.range.start + length m ≡ rows.now.range.end) }
{
    let mask = selection.row_mask(alloc, &rows.range)?;
    match rows.most {
        Some(most) => Ok(mask.limit(most)),
        None => Ok(mask),
    }
}
