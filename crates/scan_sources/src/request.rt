//! Requests whose expressions are bound, and the scans that they set up. After the Rust's `scan::multi`, whose `BoundScanRequest` this is.
ghost use Rattle.std.specs.Prelude.{◌≡◌, ◌≤◌, ◌<◌, ◌^◌, IfOk, IfSome, None, Some, false, option_map};
ghost use Rattle.scan_expr.specs.Bound.{bound_of};
ghost use Rattle.scan_core.specs.BuilderData.{IsOver, IsFilter, range_or_all};
ghost use Rattle.scan_core.specs.RowRanges.{is_past};
ghost use Rattle.scan_core.specs.ScanData.{IsScan};
ghost use Rattle.scan_sources.specs.Faults.{Refuses, expr_refusal, filter_refusal, bind_refusal};
ghost use Rattle.scan_sources.specs.Requests.{IsBoundOver, IsScanOfRequest, asked_count, bound_request, cut_by, is_bare_struct, reads_nothing, request_dtype, shared_limit};

use crate::fault::SourceFault;
use scan_core::{Identity, RepeatedScan, ScanSettings, SplitBy};
use scan_expr::{BindFault, BoundExpression, Expression, ScanRequest};
use scan_readers::LayoutReader;
use scan_values::{DType, NoMemory, Selection};
use std::alloc::Global;
use std::ops::Range;

/// A scan that makes nothing else of its arrays.
pub type Plain = RepeatedScan<Identity<()>>;

/// What is read of rows, by expressions over their dtype. Partitions play no part.
#[derive(Drop)]
pub struct BoundScanRequest {
    pub projection: BoundExpression,
    pub filter: Option<BoundExpression>,
    pub row_range: Option<Range<u64>>,
    pub selection: Selection,
    pub ordered: bool,
    pub limit: Option<u64>,
}

impl BoundScanRequest {
    /// The request over a dtype.
    ///
    /// # Errors
    /// `Bind` with the first fault: of the projection, then of the filter, then `NotBool` where that is not Bool. Else
    /// `NoMemory` alone.
    pub fn try_new(
        alloc: Global,
        request: ScanRequest,
        dtype: &DType,
    ) -> Result<BoundScanRequest, SourceFault>
        ensures bound { IfOk result (λ q. q ≡ bound_request dtype.now request) }
        ensures over { IfOk result (λ q. IsBoundOver dtype.now q) }
        ensures fault { Refuses result (bind_refusal dtype.now request.projection request.filter) }
    {
        let ScanRequest {
            projection,
            filter,
            row_range,
            selection,
            ordered,
            limit,
            ..
        } = request;
        let (projection, filter) = bind_both(alloc, &projection, &filter, dtype)?;
        Ok(BoundScanRequest {
            projection,
            filter,
            row_range,
            selection,
            ordered,
            limit,
        })
    }
}

impl BoundScanRequest {
    /// The dtype of the projection.
    pub fn dtype(&self) -> &DType
        ensures { result.now ≡ request_dtype self.now }
    {
        self.projection.dtype()
    }

    /// Whether nothing is read: a struct without fields that is not nullable is given of each row, without a filter.
    pub fn reads_nothing(&self) -> bool
        ensures { result ≡ reads_nothing self.now }
    {
        is_bare_struct(self.dtype()) & self.filter.is_none()
    }

    /// How many of so many rows it asks for, where there is no filter: the selected ones of its range, up to its limit.
    pub fn asked_count(&self, rows: u64) -> u64
        requires { is_past self.now.row_range rows ≡ false }
        ensures { result ≡ asked_count self.now rows }
    {
        let range = range_or_all(&self.row_range, rows);
        cut_by(self.limit, self.selection.row_count_in_range(&range))
    }

    /// The limit that the parts of its scan share.
    pub fn shared_limit(&self) -> Option<u64>
        ensures { result ≡ shared_limit self.now }
    {
        if self.filter.is_some() & !self.ordered {
            return self.limit;
        }
        None
    }

    /// A copy that equals this one.
    pub fn try_clone(&self, alloc: Global) -> Result<BoundScanRequest, NoMemory>
        ensures { IfOk result (λ q. q ≡ self.now) }
    {
        let filter = match &self.filter {
            Some(filter) => Some(filter.try_clone(alloc)?),
            None => None,
        };
        Ok(BoundScanRequest {
            projection: self.projection.try_clone(alloc)?,
            filter,
            row_range: copy_of(&self.row_range),
            selection: self.selection.try_clone(alloc)?,
            ordered: self.ordered,
            limit: self.limit,
        })
    }

    /// Its scan over a reader's rows, but for the limit. The rows stay as they were, also where memory runs out.
    pub fn prepare<R: LayoutReader + Drop>(
        self,
        alloc: Global,
        reader: &mut R,
    ) -> Result<Plain, NoMemory>
        requires over { IsBoundOver (R.state reader.old).dtype self }
        requires range { is_past self.row_range (R.state reader.old).rows ≡ false }
        ensures scan { IfOk result (λ s. IsScanOfRequest (R.state reader.old) self s) }
        ensures stands { IfOk result (λ s. IsScan s) }
        ensures same { R.state reader.new ≡ R.state reader.old }
    {
        let BoundScanRequest {
            projection,
            filter,
            row_range,
            selection,
            ordered,
            ..
        } = self;
        let _rows = reader.row_count();
        let step = Identity::new();
        let settings = ScanSettings {
            projection,
            filter,
            ordered,
            row_range,
            selection,
            row_offset: 0,
            split_by: SplitBy::Layout,
            natural_splits: None,
            limit: None,
            concurrency: 4,
            step,
        };
        settings.prepare(alloc, reader)
    }
}

/// Whether a dtype is a struct without fields that is not nullable.
fn is_bare_struct(dtype: &DType) -> bool
    ensures { result ≡ is_bare_struct dtype.now }
{
    match dtype.as_struct_fields_opt() {
        Some(fields) => fields.nfields() == 0 && !dtype.is_nullable(),
        None => false,
    }
}

/// A projection and a filter over a dtype.
///
/// # Errors
/// `Bind` with the first fault: of the projection, then of the filter, then `NotBool` where that is not Bool. Else
/// `NoMemory` alone.
fn bind_both(
    alloc: Global,
    projection: &Expression,
    filter: &Option<Expression>,
    dtype: &DType,
) -> Result<(BoundExpression, Option<BoundExpression>), SourceFault>
    ensures projection { IfOk result (λ b. (b.0 ≡ bound_of dtype.now projection.now) × IsOver dtype.now b.0) }
    ensures filter { IfOk result (λ b. (b.1 ≡ option_map (bound_of dtype.now) filter.now)
        × IfSome b.1 (IsFilter dtype.now)) }
    ensures fault { Refuses result (bind_refusal dtype.now projection.now filter.now) }
{
    let projection = bind_one(alloc, projection, dtype)?;
    let filter = bind_filter(alloc, filter, dtype)?;
    Ok((projection, filter))
}

/// A filter over a dtype, which is Bool.
fn bind_filter(
    alloc: Global,
    filter: &Option<Expression>,
    dtype: &DType,
) -> Result<Option<BoundExpression>, SourceFault>
    ensures bound { IfOk result (λ b. b ≡ option_map (bound_of dtype.now) filter.now) }
    ensures filter { IfOk result (λ b. IfSome b (IsFilter dtype.now)) }
    ensures fault { Refuses result (filter_refusal dtype.now filter.now) }
{
    match filter {
        Some(filter) => Ok(Some(bind_test(alloc, filter, dtype)?)),
        None => Ok(None),
    }
}

/// An expression over a dtype that is Bool.
fn bind_test(
    alloc: Global,
    test: &Expression,
    dtype: &DType,
) -> Result<BoundExpression, SourceFault>
    ensures bound { IfOk result (λ b. b ≡ bound_of dtype.now test.now) }
    ensures filter { IfOk result (λ b. IsFilter dtype.now b) }
    ensures fault { Refuses result (filter_refusal dtype.now (Some test.now)) }
{
    let bound = bind_one(alloc, test, dtype)?;
    if !bound.dtype().is_bool() {
        return Err(SourceFault::Bind(BindFault::NotBool));
    }
    Ok(bound)
}

/// An expression over a dtype.
fn bind_one(alloc: Global, expr: &Expression, dtype: &DType) -> Result<BoundExpression, SourceFault>
    ensures bound { IfOk result (λ b. b ≡ bound_of dtype.now expr.now) }
    ensures over { IfOk result (λ b. IsOver dtype.now b) }
    ensures fault { Refuses result (expr_refusal dtype.now expr.now) }
{
    match expr.bind(alloc, dtype) {
        Ok(bound) => Ok(bound),
        Err(fault) => Err(SourceFault::from(fault)),
    }
}

/// The same range.
fn copy_of(range: &Option<Range<u64>>) -> Option<Range<u64>>
    ensures { result ≡ range.now }
{
    match range {
        Some(range) => Some(range.start..range.end),
        None => None,
    }
}

/// A range, or all of so many rows.
pub fn range_or_all(range: &Option<Range<u64>>, rows: u64) -> Range<u64>
    ensures { result ≡ range_or_all range.now rows }
{
    match range {
        Some(range) => range.start..range.end,
        None => 0..rows,
    }
}

/// Whether a range is reversed, or ends past so many rows.
pub(crate) fn is_past(range: &Option<Range<u64>>, rows: u64) -> bool
    ensures { result ≡ is_past range.now rows }
{
    match range {
        Some(range) => range.end < range.start || rows < range.end,
        None => false,
    }
}

/// A number, or a limit where that is less.
pub(crate) fn cut_by(limit: Option<u64>, n: u64) -> u64
    ensures { result ≡ cut_by limit n }
{
    match limit {
        Some(limit) => n.min(limit),
        None => n,
    }
}
