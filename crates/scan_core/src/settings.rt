//! What a scan is set up by beside its reader. In the Rust these stand in the builder.
ghost use Rattle.std.specs.Prelude.{◌≡◌, IfOk, None, true};
ghost use Rattle.scan_values.specs.declared.selection.Selection.TheVariants as selection;
ghost use Rattle.scan_expr.specs.Bound.{bound_of};
ghost use Rattle.scan_expr.specs.Expr.{root};
ghost use Rattle.scan_partition.specs.Partable.{IsScope};
ghost use Rattle.scan_streams.specs.MapSteps.{mapped_data};
ghost use Rattle.scan_core.specs.BuilderData.{IsBuilder, boundaries_in};
ghost use Rattle.scan_core.specs.Prepared.{IsPrepared};
ghost use Rattle.scan_core.specs.ScanData.{IsScan, ScanData, splits_of};
ghost use Rattle.scan_core.specs.Settings.{builder_by, with_map};
ghost use Rattle.scan_core.specs.Setup.{Refuses, checked, first_fault, setup_fault, unlimited};

use crate::planning::{cut_points, plan_numbered};
use crate::repeated::{RepeatedScan, ScanOptions};
use crate::split::SplitFuture;
use crate::split_by::SplitBy;
use crate::splits::is_past;
use scan_expr::BoundExpression;
use scan_readers::LayoutReader;
use scan_streams::{Identity, MapStep, Mapped, SetupFault};
use scan_values::{NoMemory, Selection};
use std::alloc::Global;
use std::ops::Range;
use std::sync::Arc;

/// What a builder of a scan has beside the reader.
#[derive(Drop)]
pub struct ScanSettings<M> {
    pub projection: BoundExpression,
    pub filter: Option<BoundExpression>,
    pub ordered: bool,
    pub row_range: Option<Range<u64>>,
    pub selection: Selection,
    pub row_offset: u64,
    pub split_by: SplitBy,
    pub natural_splits: Option<Arc<Vec<u64>>>,
    pub limit: Option<u64>,
    pub concurrency: usize,
    pub step: M,
}

/// What may be over a reader's rows.
pub trait OverReader {
    ghost use Rattle.scan_readers.specs.Readers.{ReaderState};

    /// It is over these rows.
    ghost is_over: { Self → ReaderState → Type 0 };
}

impl<M> OverReader for ScanSettings<M> {
    ghost use Rattle.scan_core.specs.BuilderData.{IsBuilder, boundaries_in};

    ghost is_over = { λ s t. IsBuilder t s.projection s.filter (boundaries_in s.natural_splits) };
}

impl<E: Drop> ScanSettings<Identity<E>> {
    /// Those of a scan of all rows of a reader, as they are.
    ///
    /// # Errors
    /// `NoMemory` alone.
    pub fn all<R: LayoutReader>(alloc: Global, reader: &R) -> Result<Self, NoMemory>
        requires { IsScope (R.state reader.now).dtype }
        ensures settings { IfOk result (λ s. s ≡ record {
          projection = bound_of (R.state reader.now).dtype root;
          filter = None;
          ordered = true;
          row_range = None;
          selection = selection.All;
          row_offset = 0;
          split_by = SplitBy.Layout;
          natural_splits = None;
          limit = None;
          concurrency = 4;
          step = s.step;
        }) }
        ensures over { IfOk result (λ s. IsBuilder (R.state reader.now) s.projection s.filter
            (boundaries_in s.natural_splits)) }
    {
        let dtype = reader.dtype().try_clone(alloc)?;
        let projection = BoundExpression::new_root(alloc, dtype)?;
        Ok(ScanSettings {
            projection,
            filter: None,
            ordered: true,
            row_range: None,
            selection: Selection::All,
            row_offset: 0,
            split_by: SplitBy::Layout,
            natural_splits: None,
            limit: None,
            concurrency: 4,
            step: Identity::new(),
        })
    }
}

impl<M: Drop> ScanSettings<M> {
    /// With a function that is called on what is made of each array. That it may be called on all that is a condition
    /// of the polls that call it.
    pub fn map<B, G: Fn(M::Out) -> Result<B, M::Fault>>(self, g: G) -> ScanSettings<Mapped<M, G, B>>
    where
        M: MapStep,
        ensures { result ≡ with_map self (mapped_data self.step g) }
    {
        let ScanSettings {
            projection,
            filter,
            ordered,
            row_range,
            selection,
            row_offset,
            split_by,
            natural_splits,
            limit,
            concurrency,
            step,
        } = self;
        ScanSettings {
            projection,
            filter,
            ordered,
            row_range,
            selection,
            row_offset,
            split_by,
            natural_splits,
            limit,
            concurrency,
            step: Mapped::new(step, g),
        }
    }

    /// The scan that a builder of these over a reader sets up, where nothing is wrong with them. The reader's rows stay as
    /// they were, also where memory runs out: it keeps plans at most.
    pub fn prepare<R: LayoutReader + Drop>(
        self,
        alloc: Global,
        reader: &mut R,
    ) -> Result<RepeatedScan<M>, NoMemory>
        requires over { IsBuilder (R.state reader.old) self.projection self.filter (boundaries_in self.natural_splits) }
        requires right { setup_fault (builder_by reader.old self) (R.state reader.old).rows ≡ None }
        ensures prepared { IfOk result (λ s. IsPrepared (R.state reader.old) (builder_by reader.old self) s) }
        ensures stands { IfOk result (λ s. IsScan s) }
        ensures same { R.state reader.new ≡ R.state reader.old }
    {
        let ScanSettings {
            projection,
            filter,
            ordered,
            row_range,
            selection,
            row_offset,
            split_by,
            natural_splits,
            limit,
            concurrency,
            step,
        } = self;
        let row_count = reader.row_count();
        let asked = filter.as_ref();
        let points = cut_points(
            alloc,
            &mut *reader,
            &projection,
            asked,
            natural_splits,
            split_by,
            &row_range,
        )?;
        let plans = plan_numbered(alloc, reader, row_offset, &projection, asked)?;
        let plans = Arc::new(alloc, plans)?;
        let step = Arc::new(alloc, step)?;
        let selection = Arc::new(alloc, selection)?;
        let options = ScanOptions {
            row_range,
            selection,
            limit,
            ordered,
            concurrency,
        };
        Ok(RepeatedScan::new(plans, row_count, points, options, step))
    }

    /// The scan that a builder of these over a reader sets up, or the first thing that is wrong with them.
    pub(crate) fn set_up<R: LayoutReader + Drop>(
        self,
        alloc: Global,
        reader: &mut R,
    ) -> Result<RepeatedScan<M>, SetupFault>
        requires over { IsBuilder (R.state reader.old) self.projection self.filter (boundaries_in self.natural_splits) }
        ensures fault { Refuses result (setup_fault (builder_by reader.old self) (R.state reader.old).rows) }
        ensures prepared { IfOk result (λ s. IsPrepared (R.state reader.old) (builder_by reader.old self) s) }
        ensures stands { IfOk result (λ s. IsScan s) }
        ensures same { R.state reader.new ≡ R.state reader.old }
    {
        match self.check(reader) {
            Ok(()) => Ok(self.prepare(alloc, reader)?),
            Err(fault) => Err(fault),
        }
    }

    /// The first thing that is wrong with them.
    pub(crate) fn check<R: LayoutReader>(&self, reader: &R) -> Result<(), SetupFault>
        ensures { result ≡ checked (setup_fault (builder_by reader.now self.now) (R.state reader.now).rows) }
    {
        let rows = reader.row_count();
        if self.concurrency == 0 {
            return Err(SetupFault::Concurrency);
        }
        if self.split_by == SplitBy::RowCount(0) {
            return Err(SetupFault::SplitSize);
        }
        if is_past(&self.row_range, rows) {
            return Err(SetupFault::RowRange);
        }
        if self.row_offset.checked_add(rows).is_none() {
            return Err(SetupFault::RowOffset);
        }
        Ok(())
    }

    /// A future of each split of all that a builder of these over a reader scans, in order.
    pub(crate) fn build<R: LayoutReader + Drop>(
        self,
        alloc: Global,
        reader: &mut R,
    ) -> Result<Vec<SplitFuture<M>>, SetupFault>
        requires over { IsBuilder (R.state reader.old) self.projection self.filter (boundaries_in self.natural_splits) }
        ensures fault { Refuses result (first_fault (setup_fault (builder_by reader.old self)
            (R.state reader.old).rows) (unlimited self.limit None)) }
        ensures splits { IfOk result (λ v. (s : ScanData M) ×
            (IsPrepared (R.state reader.old) (builder_by reader.old self) s × (v.items ≡ splits_of s None))) }
        ensures same { R.state reader.new ≡ R.state reader.old }
    {
        match self.check_futures(reader) {
            Ok(()) => Ok(self.splits(alloc, reader)?),
            Err(fault) => Err(fault),
        }
    }

    /// The first thing that is wrong with them, or that a limit is set.
    fn check_futures<R: LayoutReader>(&self, reader: &R) -> Result<(), SetupFault>
        ensures { result ≡ checked (first_fault (setup_fault (builder_by reader.now self.now)
            (R.state reader.now).rows) (unlimited self.now.limit None)) }
    {
        match self.check(reader) {
            Ok(()) => self.check_limit(),
            Err(fault) => Err(fault),
        }
    }

    /// That a limit is set.
    fn check_limit(&self) -> Result<(), SetupFault>
        ensures { result ≡ checked (unlimited self.now.limit None) }
    {
        if self.limit.is_some() {
            return Err(SetupFault::LimitOnFutures);
        }
        Ok(())
    }

    /// A future of each split, where nothing is wrong with them.
    fn splits<R: LayoutReader + Drop>(
        self,
        alloc: Global,
        reader: &mut R,
    ) -> Result<Vec<SplitFuture<M>>, NoMemory>
        requires over { IsBuilder (R.state reader.old) self.projection self.filter (boundaries_in self.natural_splits) }
        requires right { first_fault (setup_fault (builder_by reader.old self) (R.state reader.old).rows)
            (unlimited self.limit None) ≡ None }
        ensures splits { IfOk result (λ v. (s : ScanData M) ×
            (IsPrepared (R.state reader.old) (builder_by reader.old self) s × (v.items ≡ splits_of s None))) }
        ensures same { R.state reader.new ≡ R.state reader.old }
    {
        let scan = self.prepare(alloc, reader)?;
        scan.splits_within(alloc, None)
    }
}
