//! Scans that are set up. After the Rust's `scan::repeated_scan`.
ghost use Rattle.std.specs.Prelude.{◌≡◌, ◌≤◌, ◌<◌, ◌^◌, ℕ, IfOk, None, Some, false, map};
ghost use Rattle.scan_expr.specs.Infer.{infer};
ghost use Rattle.scan_streams.specs.Grants.{HasRoom};
ghost use Rattle.scan_streams.specs.Plans.{has_filter};
ghost use Rattle.scan_streams.specs.Splits.{AllOf, new_split, reach};
ghost use Rattle.scan_core.specs.RowRanges.{is_past, most_in, AreRanges, IsRange};
ghost use Rattle.scan_core.specs.ScanData.{array_of, scan_data, scan_ranges, split_of, splits_of, IsScan};
ghost use Rattle.scan_core.specs.Setup.{Refuses, range_fault, unlimited};
ghost use Rattle.scan_core.specs.Streaming.{IsOwnSeat, IsStreamOf, IsStreamWith, limit_after, limit_before, scan_dtype, streamed};

use crate::split::SplitFuture;
use crate::split_rows::rows_within;
use crate::splits::{copy_of, intersect_ranges, is_past, narrowed, span_of, split_ranges};
use scan_limit::RowLimit;
use scan_plans::ArrayFuture;
use scan_streams::{Claims, MapStep, ScanPlans, ScanStream, SetupFault, SplitQueue};
use scan_values::{DType, NoMemory, Selection};
use std::alloc::Global;
use std::marker::Model;
use std::ops::Range;
use std::sync::Arc;

/// Which rows a scan reads, how many it gives, in which order, and how many splits it has in progress at once.
#[derive(Drop)]
pub(crate) struct ScanOptions {
    pub row_range: Option<Range<u64>>,
    pub selection: Arc<Selection>,
    pub limit: Option<u64>,
    pub ordered: bool,
    pub concurrency: usize,
}

/// A scan that is set up, to be executed any number of times. Contracts see its plans, the number of rows, the
/// boundaries of its splits, what it reads and gives of the rows, and the step.
#[derive(Drop)]
pub struct RepeatedScan<M> {
    plans: Arc<ScanPlans>,
    row_count: u64,
    boundaries: Arc<Vec<u64>>,
    options: ScanOptions,
    step: Arc<M>,
}

impl<M> Model for RepeatedScan<M> {
    ghost use Rattle.scan_core.specs.ScanCode.{scan_code};
    ghost use Rattle.scan_core.specs.ScanData.{ScanData, IsScan, scan_data};

    ghost Value = { ScanData M };

    ghost coded = { scan_code M.code };

    ghost view = { λ a. scan_data a.plans.value a.row_count a.boundaries.value.items a.options.row_range
        a.options.selection.value a.options.limit a.options.ordered a.options.concurrency a.step.value };

    ghost invariant = { λ a. IsScan (scan_data a.plans.value a.row_count a.boundaries.value.items a.options.row_range
        a.options.selection.value a.options.limit a.options.ordered a.options.concurrency a.step.value) };
}

impl<M> RepeatedScan<M> {
    /// A scan of these plans over so many rows, which is split at these boundaries.
    pub(crate) fn new(
        plans: Arc<ScanPlans>,
        row_count: u64,
        boundaries: Arc<Vec<u64>>,
        options: ScanOptions,
        step: Arc<M>,
    ) -> RepeatedScan<M>
        requires { IsScan (scan_data plans.value row_count boundaries.value.items options.row_range
            options.selection.value options.limit options.ordered options.concurrency step.value) }
        ensures made { result ≡ scan_data plans.value row_count boundaries.value.items options.row_range
            options.selection.value options.limit options.ordered options.concurrency step.value }
        ensures stands { IsScan result }
    {
        RepeatedScan {
            plans,
            row_count,
            boundaries,
            options,
            step,
        }
    }

    /// The dtype of the projection.
    pub fn dtype(&self) -> &DType
        ensures { result.now ≡ infer (((self.now.plans).projection).expr).scope
            (((self.now.plans).projection).expr).expr }
    {
        self.plans.dtype()
    }

    /// Whether it has a filter.
    pub fn has_filter(&self) -> bool
        ensures { result ≡ has_filter self.now.plans }
    {
        self.plans.has_filter()
    }

    /// Which rows it selects.
    pub fn selection(&self) -> &Selection
        ensures { result.now ≡ self.now.selection }
    {
        &self.options.selection
    }

    /// The ranges of the splits within a range of rows, or within all. They lie within the scan's own range too, and
    /// where it selects rows by their indices, between the first and the last of these.
    ///
    /// # Errors
    /// `RowRange` exactly where the range is reversed or its end passes the row count. Else `NoMemory` alone.
    pub fn split_ranges(
        &self,
        alloc: Global,
        row_range: Option<Range<u64>>,
    ) -> Result<Vec<Range<u64>>, SetupFault>
        ensures ranges { IfOk result (λ v. v.items ≡ scan_ranges self.now row_range) }
        ensures within { IfOk result (λ v. AreRanges self.now.rows v.items) }
        ensures fault { Refuses result (range_fault row_range self.now.rows) }
    {
        if is_past(&row_range, self.row_count) {
            return Err(SetupFault::RowRange);
        }
        Ok(self.ranges_within(alloc, row_range)?)
    }

    /// The ranges of the splits within a range that lies within the rows.
    fn ranges_within(
        &self,
        alloc: Global,
        row_range: Option<Range<u64>>,
    ) -> Result<Vec<Range<u64>>, NoMemory>
        requires { is_past row_range self.now.rows ≡ false }
        ensures ranges { IfOk result (λ v. v.items ≡ scan_ranges self.now row_range) }
        ensures within { IfOk result (λ v. AreRanges self.now.rows v.items) }
    {
        let asked = intersect_ranges(copy_of(&self.options.row_range), row_range);
        let named = span_of(&self.options.selection, self.row_count);
        let reach = intersect_ranges(asked, named);
        split_ranges(alloc, &self.boundaries, &reach)
    }
}

impl<M: Drop> RepeatedScan<M> {
    /// The same scan with another limit, or without one. It shares the plans.
    ///
    /// # Errors
    /// `NoMemory` alone.
    pub fn with_some_limit(&self, limit: Option<u64>) -> Result<RepeatedScan<M>, NoMemory>
        ensures made { IfOk result (λ s. s ≡ record self.now { limit = limit }) }
        ensures stands { IfOk result (λ s. IsScan s) }
    {
        let options = ScanOptions {
            row_range: copy_of(&self.options.row_range),
            selection: self.options.selection.clone()?,
            limit,
            ordered: self.options.ordered,
            concurrency: self.options.concurrency,
        };
        let plans = self.plans.clone()?;
        let boundaries = self.boundaries.clone()?;
        let step = self.step.clone()?;
        Ok(RepeatedScan {
            plans,
            row_count: self.row_count,
            boundaries,
            options,
            step,
        })
    }

    /// A future of each split within a range of rows, or within all, in order. Each is of the rows that the scan
    /// selects, of which its filter is true.
    ///
    /// # Errors
    /// `LimitOnFutures` exactly where a limit is set, else `RowRange` exactly where the range is reversed or its end
    /// passes the row count. Else `NoMemory` alone.
    pub fn execute(
        &mut self,
        alloc: Global,
        row_range: Option<Range<u64>>,
    ) -> Result<Vec<SplitFuture<M>>, SetupFault>
        ensures splits { IfOk result (λ v. v.items ≡ splits_of self.old row_range) }
        ensures fault { Refuses result (unlimited self.old.limit (range_fault row_range self.old.rows)) }
        ensures same { self.new ≡ self.old }
    {
        if self.options.limit.is_some() {
            return Err(SetupFault::LimitOnFutures);
        }
        if is_past(&row_range, self.row_count) {
            return Err(SetupFault::RowRange);
        }
        Ok(self.splits_within(alloc, row_range)?)
    }

    /// A future of each split within a range that lies within the rows.
    pub(crate) fn splits_within(
        &self,
        alloc: Global,
        row_range: Option<Range<u64>>,
    ) -> Result<Vec<SplitFuture<M>>, NoMemory>
        requires { is_past row_range self.now.rows ≡ false }
        ensures { IfOk result (λ v. v.items ≡ splits_of self.now row_range) }
    {
        let ranges = self.ranges_within(alloc, row_range)?;
        self.futures(alloc, &ranges)
    }

    /// The futures of splits, in order.
    fn futures(&self, alloc: Global, ranges: &[Range<u64>]) -> Result<Vec<SplitFuture<M>>, NoMemory>
        requires { AreRanges self.now.rows ranges.now }
        ensures { IfOk result (λ v. v.items ≡ map (split_of self.now) ranges.now) }
    {
        let mut futures = Vec::with_capacity(alloc, ranges.len())?;
        for range in ranges {
            futures.push(self.split(alloc, range)?)?;
        }
        Ok(futures)
    }

    /// The future of a split.
    fn split(&self, alloc: Global, range: &Range<u64>) -> Result<SplitFuture<M>, NoMemory>
        requires { IsRange self.now.rows range.now }
        ensures { IfOk result (λ f. f ≡ split_of self.now range.now) }
    {
        let array = self.array(alloc, range)?;
        Ok(SplitFuture::new(array, self.step.clone()?))
    }

    /// The array future of a split: of the rows that the scan selects of a range.
    fn array(&self, alloc: Global, range: &Range<u64>) -> Result<ArrayFuture, NoMemory>
        requires { IsRange self.now.rows range.now }
        ensures { IfOk result (λ f. f ≡ array_of self.now range.now) }
    {
        let picked = narrowed(&self.options.selection, range);
        let mask = self.options.selection.row_mask(alloc, &picked)?;
        self.plans.future(alloc, &picked, mask)
    }
}

impl<M: MapStep + Drop> RepeatedScan<M> {
    /// A stream of what the step makes of the arrays of the splits within a range of rows, or within all. It gives up
    /// to the scan's limit of rows: each execution has the whole limit anew, and without a filter it is taken before
    /// anything is read.
    ///
    /// # Errors
    /// `RowRange` exactly where the range is reversed or its end passes the row count. Else `NoMemory` alone.
    pub fn execute_stream(
        &mut self,
        alloc: Global,
        row_range: Option<Range<u64>>,
    ) -> Result<ScanStream<M>, SetupFault>
        ensures stream { IfOk result (λ t. IsStreamOf self.old row_range t) }
        ensures room { IfOk result (λ t. HasRoom (t.feed).seat (reach (t.feed).splits)) }
        ensures fault { Refuses result (range_fault row_range self.old.rows) }
        ensures same { self.new ≡ self.old }
    {
        if is_past(&row_range, self.row_count) {
            return Err(SetupFault::RowRange);
        }
        let claims = own_claims(alloc, self.limit_after())?;
        Ok(self.stream(alloc, row_range, claims)?)
    }

    /// The same of a scan without a limit of its own: what is given is claimed from a limit that others claim from too,
    /// by a seat that has room for the rows of the range.
    ///
    /// # Errors
    /// `RowRange` exactly where the range is reversed or its end passes the row count. Else `NoMemory` alone.
    pub fn execute_claiming(
        &mut self,
        alloc: Global,
        row_range: Option<Range<u64>>,
        claims: Claims,
    ) -> Result<ScanStream<M>, SetupFault>
        requires none { self.old.limit ≡ None }
        requires room { most_in row_range self.old.rows ≤ claims.room }
        ensures stream { IfOk result (λ t. IsStreamWith self.old row_range (Some claims) t) }
        ensures room { IfOk result (λ t. HasRoom (t.feed).seat (reach (t.feed).splits)) }
        ensures fault { Refuses result (range_fault row_range self.old.rows) }
        ensures same { self.new ≡ self.old }
    {
        if is_past(&row_range, self.row_count) {
            return Err(SetupFault::RowRange);
        }
        Ok(self.stream(alloc, row_range, Some(claims))?)
    }

    /// A stream within a range that lies within the rows, with claims on a limit.
    fn stream(
        &self,
        alloc: Global,
        row_range: Option<Range<u64>>,
        claims: Option<Claims>,
    ) -> Result<ScanStream<M>, NoMemory>
        requires past { is_past row_range self.now.rows ≡ false }
        requires room { HasRoom claims (most_in row_range self.now.rows) }
        ensures stream { IfOk result (λ t. IsStreamWith self.now row_range claims t) }
        ensures room { IfOk result (λ t. HasRoom (t.feed).seat (reach (t.feed).splits)) }
    {
        let queue = self.queue(alloc, row_range)?;
        let dtype = self.plans.dtype().try_clone(alloc)?;
        ScanStream::new(
            alloc,
            dtype,
            queue,
            self.options.ordered,
            self.options.concurrency,
            claims,
            self.step.clone()?,
        )
    }

    /// The splits of a stream.
    fn queue(&self, alloc: Global, row_range: Option<Range<u64>>) -> Result<SplitQueue, NoMemory>
        requires { is_past row_range self.now.rows ≡ false }
        ensures splits { IfOk result (λ q. q ≡ streamed self.now row_range) }
        ensures dtype { IfOk result (λ q. AllOf (scan_dtype self.now) (map new_split q)) }
        ensures reach { IfOk result (λ q. reach (map new_split q) ≤ most_in row_range self.now.rows) }
    {
        let ranges = self.ranges_within(alloc, row_range)?;
        let selection = self.options.selection.clone()?;
        let limit = self.limit_before();
        let rows = rows_within(alloc, &selection, limit, &ranges)?;
        let plans = self.plans.clone()?;
        plans.dtype();
        Ok(SplitQueue::new(plans, selection, rows))
    }

    /// The limit that is taken before anything is read.
    fn limit_before(&self) -> Option<u64>
        ensures { result ≡ limit_before self.now }
    {
        if self.plans.has_filter() {
            return None;
        }
        self.options.limit
    }

    /// The limit that is taken as arrays come.
    fn limit_after(&self) -> Option<u64>
        ensures { result ≡ limit_after self.now }
    {
        if !self.plans.has_filter() {
            return None;
        }
        self.options.limit
    }
}

/// Claims on a limit of their own.
fn own_claims(alloc: Global, limit: Option<u64>) -> Result<Option<Claims>, NoMemory>
    ensures seat { IfOk result (λ c. IsOwnSeat limit c) }
    ensures room { (rows : ℕ) → rows < 2 ^ 64 → IfOk result (λ c. HasRoom c rows) }
{
    let Some(rows) = limit else {
        return Ok(None);
    };
    let (limit, seat) = RowLimit::new(alloc, rows)?;
    let limit = Arc::new(alloc, limit)?;
    Ok(Some(Claims::new(limit, rows, seat)))
}
