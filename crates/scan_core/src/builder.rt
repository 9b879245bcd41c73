//! Builders of scans. After the Rust's `scan::scan_builder`.
ghost use Rattle.std.specs.Prelude.{◌≡◌, IfOk, IfSome, None, Some, true};
ghost use Rattle.scan_values.specs.declared.selection.Selection.TheVariants as selection;
ghost use Rattle.scan_expr.specs.Bound.{bound_of};
ghost use Rattle.scan_expr.specs.Expr.{root};
ghost use Rattle.scan_expr.specs.Infer.{infer};
ghost use Rattle.scan_partition.specs.Partable.{IsScope};
ghost use Rattle.scan_readers.specs.FieldNames.{name_fields};
ghost use Rattle.scan_readers.specs.Kept.{Stay};
ghost use Rattle.scan_streams.specs.MapSteps.{mapped_data};
ghost use Rattle.scan_core.specs.Boundaries.{boundaries};
ghost use Rattle.scan_core.specs.BuilderData.{AreBoundaries, IsBuilder, IsFilter, IsOver, asked_masks, boundaries_in};
ghost use Rattle.scan_core.specs.Prepared.{IsPrepared};
ghost use Rattle.scan_core.specs.ScanData.{IsScan, ScanData, splits_of};
ghost use Rattle.scan_core.specs.Settings.{builder_by, with_map};
ghost use Rattle.scan_core.specs.Setup.{Refuses, first_fault, setup_fault, size_fault, unlimited};
ghost use Rattle.scan_core.specs.SplitRanges.{rows};

use crate::field_masks::referenced_field_masks;
use crate::kept_builder::KeptBuilder;
use crate::repeated::RepeatedScan;
use crate::settings::{OverReader, ScanSettings};
use crate::split::SplitFuture;
use crate::split_by::SplitBy;
use scan_expr::BoundExpression;
use scan_readers::LayoutReader;
use scan_streams::{Identity, MapStep, Mapped, SetupFault};
use scan_values::{DType, FieldMask, NoMemory, Selection, StrictSorted};
use std::alloc::Global;
use std::ops::Range;
use std::sync::Arc;

/// A reader that is lent, and what is over its rows. Contracts see both, and which reader was lent.
pub struct LentReader<'r, R: LayoutReader, S: OverReader + Drop> {
    reader: &'r mut R,
    settings: S,
    pub ghost over: { ∥ S.is_over settings (R.state reader.now) ∥₁ },
}

impl<R: LayoutReader, S: OverReader + Drop> Drop for LentReader<'_, R, S> {
    fn drop(self)
        ensures { self.exit.0.now ≡ self.entry.reader.now }
    {
        let LentReader {
            reader: _reader,
            settings: _settings,
        } = self;
    }
}

/// What is scanned of a reader's rows, and how. Contracts see the reader and the settings (`builder_by`). Whoever lent the
/// reader knows that its rows are as they were once the builder is dropped or has set up a scan.
pub type ScanBuilder<'r, R, M> = LentReader<'r, R, ScanSettings<M>>;

impl<'r, R: LayoutReader + Drop, E: Drop> LentReader<'r, R, ScanSettings<Identity<E>>> {
    /// A scan of all rows of a reader, as they are.
    ///
    /// # Errors
    /// `NoMemory` alone. Of the reader nothing is known then: whoever has to know makes the settings (`ScanSettings::all`)
    /// and then the builder (`of`).
    pub fn new(
        alloc: Global,
        reader: &'r mut R,
    ) -> Result<ScanBuilder<'r, R, Identity<E>>, NoMemory>
        requires { IsScope (R.state reader.old).dtype }
        ensures same_reference { IfOk result (λ b. b.reader.ghost_name ≡ reader.entry.ghost_name) }
        ensures reader { IfOk result (λ b. b.reader.now ≡ reader.old) }
        ensures settings { IfOk result (λ b. b.settings ≡ record {
          projection = bound_of (R.state reader.old).dtype root;
          filter = None;
          ordered = true;
          row_range = None;
          selection = selection.All;
          row_offset = 0;
          split_by = SplitBy.Layout;
          natural_splits = None;
          limit = None;
          concurrency = 4;
          step = b.settings.step;
        }) }
    {
        let settings = ScanSettings::all(alloc, reader)?;
        Ok(LentReader::of(reader, settings))
    }
}

impl<'r, R: LayoutReader + Drop, M: Drop> LentReader<'r, R, ScanSettings<M>> {
    /// A builder of settings that are over a reader's rows. It can not be refused.
    pub fn of(reader: &'r mut R, settings: ScanSettings<M>) -> Self
        requires { IsBuilder (R.state reader.old) settings.projection settings.filter
            (boundaries_in settings.natural_splits) }
        ensures same_reference { result.reader.ghost_name ≡ reader.entry.ghost_name }
        ensures reader { result.reader.now ≡ reader.old }
        ensures settings { result.settings ≡ settings }
    {
        LentReader { reader, settings }
    }

    /// The reader and the settings.
    fn into_parts(self) -> (&'r mut R, ScanSettings<M>)
        ensures same_reference { result.0.ghost_name ≡ self.entry.reader.ghost_name }
        ensures reader { result.0.now ≡ self.entry.reader.now }
        ensures settings { result.1 ≡ self.entry.settings }
        ensures over { IsBuilder (R.state result.0.now) result.1.projection result.1.filter
            (boundaries_in result.1.natural_splits) }
    {
        let LentReader { reader, settings } = self;
        (reader, settings)
    }

    /// The same, to be set up later.
    pub(crate) fn into_kept(self) -> KeptBuilder<'r, R, M>
        ensures { result ≡ builder_by self.entry.reader.now self.entry.settings }
    {
        let (reader, settings) = self.into_parts();
        KeptBuilder::new(reader, settings)
    }

    /// With a filter, bound over the reader's dtype and Bool, in place of the one before.
    pub fn with_filter(self, filter: BoundExpression) -> Self
        requires { IsFilter (R.state self.reader.now).dtype filter }
        ensures same_reference { result.reader.ghost_name ≡ self.entry.reader.ghost_name }
        ensures reader { result.reader.now ≡ self.entry.reader.now }
        ensures settings { result.settings ≡ record self.entry.settings { filter = Some filter } }
    {
        self.with_some_filter(Some(filter))
    }

    /// With a filter, bound over the reader's dtype and Bool, or without one.
    pub fn with_some_filter(self, filter: Option<BoundExpression>) -> Self
        requires { IfSome filter (IsFilter (R.state self.reader.now).dtype) }
        ensures same_reference { result.reader.ghost_name ≡ self.entry.reader.ghost_name }
        ensures reader { result.reader.now ≡ self.entry.reader.now }
        ensures settings { result.settings ≡ record self.entry.settings { filter = filter } }
    {
        let (reader, settings) = self.into_parts();
        let mut settings = settings;
        settings.filter = filter;
        LentReader::of(reader, settings)
    }

    /// With a projection, bound over the reader's dtype.
    pub fn with_projection(self, projection: BoundExpression) -> Self
        requires { IsOver (R.state self.reader.now).dtype projection }
        ensures same_reference { result.reader.ghost_name ≡ self.entry.reader.ghost_name }
        ensures reader { result.reader.now ≡ self.entry.reader.now }
        ensures settings { result.settings ≡ record self.entry.settings { projection = projection } }
    {
        let (reader, settings) = self.into_parts();
        let mut settings = settings;
        settings.projection = projection;
        LentReader::of(reader, settings)
    }

    /// In the rows' order, or in any.
    pub fn with_ordered(self, ordered: bool) -> Self
        ensures same_reference { result.reader.ghost_name ≡ self.entry.reader.ghost_name }
        ensures reader { result.reader.now ≡ self.entry.reader.now }
        ensures settings { result.settings ≡ record self.entry.settings { ordered = ordered } }
    {
        let (reader, settings) = self.into_parts();
        let mut settings = settings;
        settings.ordered = ordered;
        LentReader::of(reader, settings)
    }

    /// Of the rows of a range alone.
    pub fn with_row_range(self, row_range: Range<u64>) -> Self
        ensures same_reference { result.reader.ghost_name ≡ self.entry.reader.ghost_name }
        ensures reader { result.reader.now ≡ self.entry.reader.now }
        ensures settings { result.settings ≡ record self.entry.settings { row_range = Some row_range } }
    {
        let (reader, settings) = self.into_parts();
        let mut settings = settings;
        settings.row_range = Some(row_range);
        LentReader::of(reader, settings)
    }

    /// Of selected rows alone.
    pub fn with_selection(self, selection: Selection) -> Self
        ensures same_reference { result.reader.ghost_name ≡ self.entry.reader.ghost_name }
        ensures reader { result.reader.now ≡ self.entry.reader.now }
        ensures settings { result.settings ≡ record self.entry.settings { selection = selection } }
    {
        let (reader, settings) = self.into_parts();
        let mut settings = settings;
        settings.selection = selection;
        LentReader::of(reader, settings)
    }

    /// Of the rows of these indices alone.
    pub fn with_row_indices(self, indices: StrictSorted) -> Self
        ensures same_reference { result.reader.ghost_name ≡ self.entry.reader.ghost_name }
        ensures reader { result.reader.now ≡ self.entry.reader.now }
        ensures settings { result.settings ≡ record self.entry.settings { selection = selection.IncludeByIndex indices } }
    {
        self.with_selection(Selection::IncludeByIndex(indices))
    }

    /// With this number of the first row.
    pub fn with_row_offset(self, row_offset: u64) -> Self
        ensures same_reference { result.reader.ghost_name ≡ self.entry.reader.ghost_name }
        ensures reader { result.reader.now ≡ self.entry.reader.now }
        ensures settings { result.settings ≡ record self.entry.settings { row_offset = row_offset } }
    {
        let (reader, settings) = self.into_parts();
        let mut settings = settings;
        settings.row_offset = row_offset;
        LentReader::of(reader, settings)
    }

    /// Split by the reader's own splits or by a number of rows.
    pub fn with_split_by(self, split_by: SplitBy) -> Self
        ensures same_reference { result.reader.ghost_name ≡ self.entry.reader.ghost_name }
        ensures reader { result.reader.now ≡ self.entry.reader.now }
        ensures settings { result.settings ≡ record self.entry.settings { split_by = split_by } }
    {
        let (reader, settings) = self.into_parts();
        let mut settings = settings;
        settings.split_by = split_by;
        LentReader::of(reader, settings)
    }

    /// Split at these boundaries, which rise from 0 to the row count, in place of those by which it is split.
    pub fn with_natural_splits(self, boundaries: Arc<Vec<u64>>) -> Self
        requires { AreBoundaries 0 (R.state self.reader.now).rows boundaries.value.items }
        ensures same_reference { result.reader.ghost_name ≡ self.entry.reader.ghost_name }
        ensures reader { result.reader.now ≡ self.entry.reader.now }
        ensures settings { result.settings ≡ record self.entry.settings { natural_splits = Some boundaries } }
    {
        let (reader, settings) = self.into_parts();
        let mut settings = settings;
        settings.natural_splits = Some(boundaries);
        LentReader::of(reader, settings)
    }

    /// With so many splits in progress at once.
    pub fn with_concurrency(self, concurrency: usize) -> Self
        ensures same_reference { result.reader.ghost_name ≡ self.entry.reader.ghost_name }
        ensures reader { result.reader.now ≡ self.entry.reader.now }
        ensures settings { result.settings ≡ record self.entry.settings { concurrency = concurrency } }
    {
        let (reader, settings) = self.into_parts();
        let mut settings = settings;
        settings.concurrency = concurrency;
        LentReader::of(reader, settings)
    }

    /// Of at most so many rows, or of all.
    pub fn with_some_limit(self, limit: Option<u64>) -> Self
        ensures same_reference { result.reader.ghost_name ≡ self.entry.reader.ghost_name }
        ensures reader { result.reader.now ≡ self.entry.reader.now }
        ensures settings { result.settings ≡ record self.entry.settings { limit = limit } }
    {
        let (reader, settings) = self.into_parts();
        let mut settings = settings;
        settings.limit = limit;
        LentReader::of(reader, settings)
    }

    /// Of at most so many rows.
    pub fn with_limit(self, limit: u64) -> Self
        ensures same_reference { result.reader.ghost_name ≡ self.entry.reader.ghost_name }
        ensures reader { result.reader.now ≡ self.entry.reader.now }
        ensures settings { result.settings ≡ record self.entry.settings { limit = Some limit } }
    {
        self.with_some_limit(Some(limit))
    }

    /// Whether the rows are given in their order.
    pub fn ordered(&self) -> bool
        ensures { result ≡ self.now.settings.ordered }
    {
        self.settings.ordered
    }

    /// How many splits are in progress at once.
    pub fn concurrency(&self) -> usize
        ensures { result ≡ self.now.settings.concurrency }
    {
        self.settings.concurrency
    }

    /// The dtype of the projection.
    pub fn dtype(&self) -> &DType
        ensures { result.now ≡ infer (self.now.settings.projection).scope (self.now.settings.projection).expr }
    {
        self.settings.projection.dtype()
    }

    /// With a function that is called on what is made of each array. That it may be called on all that is a condition
    /// of the polls that call it. Who lent the reader and has to know how it ends maps the settings (`ScanSettings::map`).
    pub fn map<B, G: Fn(M::Out) -> Result<B, M::Fault>>(
        self,
        g: G,
    ) -> ScanBuilder<'r, R, Mapped<M, G, B>>
    where
        M: MapStep,
        ensures same_reference { result.reader.ghost_name ≡ self.entry.reader.ghost_name }
        ensures reader { result.reader.now ≡ self.entry.reader.now }
        ensures settings { result.settings ≡ with_map self.entry.settings (mapped_data self.entry.settings.step g) }
    {
        let (reader, settings) = self.into_parts();
        LentReader::of(reader, settings.map(g))
    }

    /// The boundaries of all rows by what it is split by, also where it has natural ones.
    ///
    /// # Errors
    /// `SplitSize` exactly for splits of no rows. Else `NoMemory` alone.
    pub fn full_file_splits(&mut self, alloc: Global) -> Result<Vec<u64>, SetupFault>
        ensures splits { IfOk result (λ v. v.items ≡ boundaries self.old.settings.split_by
            (R.state self.old.reader.now) (asked_masks self.old.settings.projection self.old.settings.filter)
            (rows 0 (R.state self.old.reader.now).rows)) }
        ensures fault { Refuses result (size_fault self.old.settings.split_by) }
        ensures same_reference { self.new.reader.ghost_name ≡ self.old.reader.ghost_name }
        ensures settings { self.new.settings ≡ self.old.settings }
        ensures same { R.state self.new.reader.now ≡ R.state self.old.reader.now }
        ensures stay { Stay (R.kept self.old.reader.now) (R.kept self.new.reader.now) }
    {
        if self.settings.split_by == SplitBy::RowCount(0) {
            return Err(SetupFault::SplitSize);
        }
        let masks = self.masks(alloc)?;
        let all = self.all_rows();
        let split_by = self.settings.split_by;
        split_by.splits(alloc, self.reader, &all, &masks)
    }

    /// The range of all rows.
    fn all_rows(&self) -> Range<u64>
        ensures { result ≡ rows 0 (R.state self.now.reader.now).rows }
    {
        0..self.reader.row_count()
    }

    /// The fields that it asks for.
    fn masks(&self, alloc: Global) -> Result<Vec<FieldMask>, NoMemory>
        ensures masks { IfOk result (λ v. v.items ≡
            asked_masks self.now.settings.projection self.now.settings.filter) }
        ensures named { IfOk result (λ v. name_fields (R.state self.now.reader.now).dtype v.items ≡ true) }
    {
        let settings = &self.settings;
        referenced_field_masks(alloc, &settings.projection, settings.filter.as_ref())
    }
}

impl<'r, R: LayoutReader + Drop, M: Drop> LentReader<'r, R, ScanSettings<M>> {
    /// The scan that it sets up. Its plans number the rows from the row offset on. The conjuncts of the filter run in
    /// their order, but those over row numbers alone before the others. The reader's rows are as they were, after a
    /// refusal too.
    ///
    /// # Errors
    /// The first that holds, and exactly then: `Concurrency` where it is 0; `SplitSize` where splits have no rows;
    /// `RowRange` where the range is reversed or its end passes the row count; `RowOffset` where the row offset and
    /// the row count pass u64 in sum. Else `NoMemory` alone.
    pub fn prepare(self, alloc: Global) -> Result<RepeatedScan<M>, SetupFault>
        ensures fault { Refuses result (setup_fault (builder_by self.entry.reader.now self.entry.settings)
            (R.state self.entry.reader.now).rows) }
        ensures prepared { IfOk result (λ s. IsPrepared (R.state self.entry.reader.now)
            (builder_by self.entry.reader.now self.entry.settings) s) }
        ensures stands { IfOk result (λ s. IsScan s) }
        ensures builder { IsBuilder (R.state self.entry.reader.now) self.entry.settings.projection
            self.entry.settings.filter (boundaries_in self.entry.settings.natural_splits) }
        ensures same { R.state self.exit.0.now ≡ R.state self.entry.reader.now }
    {
        let LentReader { reader, settings } = self;
        settings.set_up(alloc, reader)
    }

    /// A future of each split of all that it scans, in order. The reader's rows are as they were, after a refusal too.
    ///
    /// # Errors
    /// Those of `prepare`; else `LimitOnFutures` exactly where a limit is set. Else `NoMemory` alone.
    pub fn build(self, alloc: Global) -> Result<Vec<SplitFuture<M>>, SetupFault>
        ensures fault { Refuses result (first_fault (setup_fault
            (builder_by self.entry.reader.now self.entry.settings) (R.state self.entry.reader.now).rows)
            (unlimited self.entry.settings.limit None)) }
        ensures splits { IfOk result (λ v. (s : ScanData M) × (IsPrepared (R.state self.entry.reader.now)
            (builder_by self.entry.reader.now self.entry.settings) s × (v.items ≡ splits_of s None))) }
        ensures same { R.state self.exit.0.now ≡ R.state self.entry.reader.now }
    {
        let LentReader { reader, settings } = self;
        settings.build(alloc, reader)
    }
}
