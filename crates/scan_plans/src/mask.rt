//! Masks that may have to wait. An own type, after the Rust's `MaskFuture`.
ghost use Rattle.std.specs.Prelude.{◌≡◌, ◌≤◌, ◌<◌, ◌+◌, ◌++◌, ◌∷◌, [], ℕ, IfOk, Err, List, length, map, replicate, false, true, ◌==◌};
ghost use Rattle.scan_values.specs.Fits.{is_bool_type};
ghost use Rattle.scan_values.specs.Masks.{by_rank, true_count};
ghost use Rattle.scan_splits.specs.declared.poll.Poll.TheVariants.{Ready};
ghost use Rattle.scan_plans.specs.Came.{Came, came};
ghost use Rattle.scan_plans.specs.MaskLists.{can_run};
ghost use Rattle.scan_plans.specs.Polled.{HasRun, PollsMask};
ghost use Rattle.scan_plans.specs.Meaning.{Within, plan_dtype, true_rows};
ghost use Rattle.scan_plans.specs.Masks.{MaskData, mask_data, mask_of, mask_wanted, IsMask, AreFilters, SameMask};
ghost use Rattle.scan_plans.specs.Pruning.{pruned, DropsNone, FiltersAlike};
ghost use Rattle.scan_segments.specs.Source.{Store};
ghost use Rattle.scan_plans.specs.Knowing.{KeepsRows, Runs, RunsAll, Knows};
ghost use Rattle.scan_plans.specs.MaskView.{filter_of, filters_of};

use crate::fault::ReadFault;
use crate::given::{Given, give};
use crate::node::PlanNode;
use crate::plan::Plan;
use scan_columns::Column;
use scan_splits::{Inbox, Poll, WantedIds};
use scan_values::{Mask, NoMemory};
use std::alloc::Global;
use std::marker::Model;
use std::ops::Range;
use std::sync::Arc;

/// A plan that is to be true, and its row at which the mask begins.
#[derive(Drop)]
pub struct Filter {
    pub(crate) plan: Arc<Plan>,
    pub(crate) first: u64,
}

/// A mask, and the filters that are still to run over it, in order. What is known is kept. Contracts see the mask so
/// far and the filters.
#[derive(Drop)]
pub struct MaskFuture {
    known: Mask,
    filters: Vec<Filter>,
    // So many filters have run.
    ran: usize,
}

impl Model for MaskFuture {
    ghost use Rattle.std.specs.Prelude.{◌≤◌, drop, length};
    ghost use Rattle.scan_plans.specs.Masks.{MaskData, mask_data, mask_code, IsMask};

    ghost Value = { MaskData };

    ghost coded = { mask_code };

    ghost use Rattle.scan_plans.specs.MaskView.{filters_of};

    ghost view = { λ a. mask_data a.known (filters_of (drop a.ran a.filters.items)) };

    ghost invariant = { λ a. record {
      within : a.ran ≤ length a.filters.items;
      form : IsMask (mask_data a.known (filters_of (drop a.ran a.filters.items)));
    } };
}

/// The rows of a mask at which values of its true rows are true.
fn kept_rows(alloc: Global, mask: &Mask, column: &Column) -> Result<Mask, NoMemory>
    requires dtype { is_bool_type column.now.dtype ≡ true }
    requires length { length column.now.items ≡ true_count mask.now }
    ensures { IfOk result (λ m. KeepsRows mask.now column.now.items m) }
{
    let truths = column.to_mask(alloc)?;
    if mask.all_true() {
        return Ok(truths);
    }
    mask.intersect_by_rank(alloc, &truths)
}

/// What a filter makes of a mask, or what it lacks.
#[derive(Drop)]
pub enum Ran {
    Known(Mask),
    Pending(WantedIds),
}

/// Runs a filter over a mask.
fn run(alloc: Global, filter: &Filter, mask: &Mask, inbox: &Inbox) -> Result<Ran, ReadFault>
    requires dtype { is_bool_type (plan_dtype (filter.now.plan.value).tree) ≡ true }
    requires within { Within (filter.now.plan.value).tree (filter.now.first + length mask.now) }
    ensures { Runs (came inbox.now) mask.now (filter_of filter.now) result }
{
    match give(alloc, filter.plan.node(), filter.first, mask, inbox)? {
        Given::Ready(column) => Ok(Ran::Known(kept_rows(alloc, mask, &column)?)),
        Given::Pending(ids) => Ok(Ran::Pending(ids)),
    }
}

/// A mask after so many filters, and what the next one lacks.
#[derive(Drop)]
pub struct Progress {
    pub known: Mask,
    pub ran: usize,
    pub lacking: Option<WantedIds>,
}

/// Runs filters in order until one lacks something.
fn run_filters(
    alloc: Global,
    mask: &Mask,
    filters: &[Filter],
    inbox: &Inbox,
) -> Result<Progress, ReadFault>
    requires { AreFilters (length mask.now) (filters_of filters.now) }
    ensures { RunsAll (came inbox.now) mask.now (filters_of filters.now) result }
{
    let mut known = mask.try_clone(alloc)?;
    for (ran, filter) in filters.iter().enumerate() {
        match run(alloc, filter, &known, inbox)? {
            Ran::Known(mask) => known = mask,
            Ran::Pending(ids) => {
                return Ok(Progress {
                    known,
                    ran,
                    lacking: Some(ids),
                });
            }
        }
    }
    Ok(Progress {
        known,
        ran: filters.len(),
        lacking: None,
    })
}

impl MaskFuture {
    /// A mask that is known.
    pub fn ready(alloc: Global, mask: Mask) -> MaskFuture
        ensures { result ≡ mask_data mask [] }
    {
        MaskFuture {
            known: mask,
            filters: Vec::new(alloc),
            ran: 0,
        }
    }

    /// All rows true.
    pub fn new_true(alloc: Global, len: usize) -> Result<MaskFuture, NoMemory>
        ensures { IfOk result (λ m. m ≡ mask_data (replicate len true) []) }
    {
        let mask = Mask::new_true(alloc, len)?;
        Ok(MaskFuture::ready(alloc, mask))
    }

    /// How many rows.
    pub fn len(&self) -> usize
        ensures length { result ≡ length self.now.known }
        ensures form { IsMask self.now }
    {
        self.known.len()
    }

    /// Whether there is no row.
    pub fn is_empty(&self) -> bool
        ensures { result ≡ (length self.now.known == 0) }
    {
        self.known.is_empty()
    }

    /// The rows of a mask future at which a plan is true. The plan's filter begins at its row `first`.
    pub(crate) fn filter(self, plan: Arc<Plan>, first: u64) -> Result<MaskFuture, NoMemory>
        requires dtype { is_bool_type (plan_dtype (plan.value).tree) ≡ true }
        requires within { Within (plan.value).tree (first + length self.known) }
        ensures { IfOk result (λ m. m ≡ mask_data self.known (self.filters ++ ((plan.value).tree, first) ∷ [])) }
    {
        let mut made = self;
        made.filters.push(Filter { plan, first })?;
        Ok(made)
    }

    /// Runs filters until one lacks something, and keeps the mask: the ids that lack, or none where the mask is known.
    pub(crate) fn know(
        &mut self,
        alloc: Global,
        inbox: &Inbox,
    ) -> Result<Option<WantedIds>, ReadFault>
        ensures same { SameMask (came inbox.now) self.new self.old }
        ensures length { length self.new.known ≡ length self.old.known }
        ensures answer { Knows (came inbox.now) self.old self.new result }
        ensures run { IfOk result (λ _. can_run (came inbox.now) (self.new ∷ []) ≡ false) }
    {
        if self.ran >= self.filters.len() {
            return Ok(None);
        }
        let rest = &self.filters[self.ran..];
        let progress = run_filters(alloc, &self.known, rest, inbox)?;
        self.known = progress.known;
        self.ran += progress.ran;
        Ok(progress.lacking)
    }

    /// The mask so far.
    pub(crate) fn known(&self) -> &Mask
        ensures { result.now ≡ self.now.known }
    {
        &self.known
    }

    /// The allocator of its filters.
    pub(crate) fn alloc(&self) -> Global {
        *self.filters.allocator()
    }

    /// The mask, or what is wanted next. Each filter that can run does, once: the next poll goes on behind it.
    pub fn poll(&mut self, alloc: Global, inbox: &Inbox) -> Poll<Mask>
        ensures answer { PollsMask (came inbox.now) self.old result }
        ensures same { SameMask (came inbox.now) self.new self.old }
        ensures run { HasRun (came inbox.now) (self.new ∷ []) result }
    {
        match self.know(alloc, inbox) {
            Ok(None) => copied(alloc, self.known()),
            Ok(Some(ids)) => Poll::Pending(ids),
            Err(fault) => refused(fault),
        }
    }
}

impl Plan {
    /// The rows of a mask of a range at which the plan is true.
    pub fn filter(
        plan: &Arc<Plan>,
        range: &Range<u64>,
        mask: MaskFuture,
    ) -> Result<MaskFuture, NoMemory>
        requires dtype { is_bool_type (plan_dtype (plan.now.value).tree) ≡ true }
        requires rows { Within (plan.now.value).tree range.now.end }
        requires length { range.now.start + length mask.known ≡ range.now.end }
        ensures { IfOk result (λ m. m ≡
            mask_data mask.known (mask.filters ++ ((plan.now.value).tree, range.now.start) ∷ [])) }
    {
        mask.filter(plan.clone()?, range.start)
    }
}

impl Plan {
    /// The rows of a mask of a range at which the plan may be true, by what is known before anything is read: those at
    /// which an expression over the numbers of rows is true, and of any other plan all. Nothing is wanted.
    pub fn prune(
        alloc: Global,
        plan: &Arc<Plan>,
        range: &Range<u64>,
        mask: Mask,
    ) -> Result<MaskFuture, NoMemory>
        requires dtype { is_bool_type (plan_dtype (plan.now.value).tree) ≡ true }
        requires rows { Within (plan.now.value).tree range.now.end }
        requires length { range.now.start + length mask ≡ range.now.end }
        ensures answer { IfOk result (λ m. m ≡ pruned (plan.now.value).tree range.now.start mask) }
        ensures wants { (here : Came) → IfOk result (λ m. mask_wanted m here ≡ []) }
        ensures keeps { (store : Store) → IfOk result
            (λ m. DropsNone (plan.now.value).tree store range.now.start mask (mask_of m store)) }
        ensures alike { (store : Store) → IfOk result
            (λ m. FiltersAlike (plan.now.value).tree store range.now.start mask (mask_of m store)) }
    {
        let all = MaskFuture::ready(alloc, mask);
        if plan.is_numbered() {
            return Plan::filter(plan, range, all);
        }
        Ok(all)
    }
}

/// A copy of a mask, as the answer of a poll.
fn copied(alloc: Global, mask: &Mask) -> Poll<Mask>
    ensures answer { (here : Came) (m : MaskData) → PollsMask here m (Ready mask.now) → PollsMask here m result }
    ensures run { (here : Came) (ms : List MaskData) → can_run here ms ≡ false → HasRun here ms result }
{
    match mask.try_clone(alloc) {
        Ok(mask) => Poll::Ready(mask),
        Err(_) => Poll::NoMemory,
    }
}

/// The answer of a poll that refuses.
fn refused(fault: ReadFault) -> Poll<Mask>
    ensures answer { (here : Came) (old new : MaskData) → Knows here old new (Err fault) → PollsMask here old result }
    ensures run { (here : Came) (ms : List MaskData) → HasRun here ms result }
{
    match fault {
        ReadFault::Corrupt(id) => Poll::Corrupt(id),
        ReadFault::Overflow => Poll::Overflow,
        ReadFault::NoMemory => Poll::NoMemory,
    }
}
