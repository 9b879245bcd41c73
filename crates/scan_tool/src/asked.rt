//! What a job asks of the rows of files.
ghost use Rattle.std.specs.Prelude.{IfOk, IfSome};
ghost use Rattle.scan_partition.specs.Partable.{IsPartable};
ghost use Rattle.scan_core.specs.BuilderData.{IsFilter};

use crate::files::{OpenFile, common_dtype};
use scan_conditions::{ConditionFault, read_condition, read_selection};
use scan_expr::{BindFault, BoundExpression, Expression, ScanRequest};
use scan_jobs::{Format, ScanJob, ToolFault};
use scan_printing::push_names;
use scan_values::DType;
use std::alloc::Global;

/// What a text that was given for an option says, or why it says nothing.
fn told<T: Drop>(
    option: &'static str,
    text: &String,
    outcome: Result<T, ConditionFault>,
) -> Result<T, ToolFault> {
    match outcome {
        Ok(value) => Ok(value),
        Err(fault) => Err(ToolFault::Condition {
            option,
            text: text.clone()?,
            fault,
        }),
    }
}

/// What is wanted of each row.
fn projection_of(alloc: Global, dtype: &DType, job: &ScanJob) -> Result<Expression, ToolFault> {
    match &job.select {
        Some(text) => told(
            "--select",
            text,
            read_selection(alloc, text.as_str(), dtype),
        ),
        None => Ok(Expression::root()),
    }
}

/// Which rows are wanted.
fn filter_of(alloc: Global, dtype: &DType, job: &ScanJob) -> Result<Option<Expression>, ToolFault> {
    match &job.condition {
        Some(text) => {
            let filter = told("--where", text, read_condition(alloc, text.as_str(), dtype))?;
            Ok(Some(filter))
        }
        None => Ok(None),
    }
}

/// The request that a job makes of rows of a dtype.
fn request_of(alloc: Global, dtype: &DType, job: &ScanJob) -> Result<ScanRequest, ToolFault> {
    let mut request = ScanRequest::new(projection_of(alloc, dtype, job)?);
    request.filter = filter_of(alloc, dtype, job)?;
    if let Some(range) = &job.range {
        request.row_range = Some(range.start..range.end);
    }
    request.ordered = job.ordered;
    request.limit = job.limit;
    Ok(request)
}

/// What is asked of files, and the dtype of their rows.
pub(crate) struct Asked {
    pub(crate) dtype: DType,
    pub(crate) request: ScanRequest,
}

impl Drop for Asked {
    fn drop(self) {
        let Asked {
            dtype: _,
            request: _,
        } = self;
    }
}

/// What a job asks of files, which have to be of one dtype.
pub(crate) fn asked_of<F>(
    alloc: Global,
    opened: &[OpenFile<F>],
    job: &ScanJob,
) -> Result<Asked, ToolFault> {
    let dtype = common_dtype(alloc, opened)?;
    let request = request_of(alloc, &dtype, job)?;
    Ok(Asked { dtype, request })
}

/// An expression bound over the dtype of the rows.
pub(crate) fn bound(
    alloc: Global,
    expr: &Expression,
    dtype: &DType,
) -> Result<BoundExpression, ToolFault>
    ensures { IfOk result (λ b. IsPartable b) }
{
    let bound = expr.bind(alloc, dtype)?;
    Ok(bound)
}

/// A condition bound over the dtype of the rows.
fn bound_test(alloc: Global, expr: &Expression, dtype: &DType) -> Result<BoundExpression, ToolFault>
    ensures { IfOk result (λ f. IsFilter f.scope f) }
{
    let found = bound(alloc, expr, dtype)?;
    if !found.dtype().is_bool() {
        return Err(ToolFault::from(BindFault::NotBool));
    }
    Ok(found)
}

/// The filter bound over the dtype of the rows, where there is one.
pub(crate) fn bound_filter(
    alloc: Global,
    filter: &Option<Expression>,
    dtype: &DType,
) -> Result<Option<BoundExpression>, ToolFault>
    ensures { IfOk result (λ o. IfSome o (λ f. IsFilter f.scope f)) }
{
    match filter {
        Some(filter) => Ok(Some(bound_test(alloc, filter, dtype)?)),
        None => Ok(None),
    }
}

/// The line of the names of what is wanted, where rows are written as CSV.
pub(crate) fn head_of(alloc: Global, asked: &Asked, format: Format) -> Result<Vec<u8>, ToolFault> {
    let mut head = Vec::new(alloc);
    if format == Format::Csv {
        let projection = bound(alloc, &asked.request.projection, &asked.dtype)?;
        push_names(projection.dtype(), &mut head)?;
    }
    Ok(head)
}
