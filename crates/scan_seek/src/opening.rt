//! Openers that are polled to their ends, and the plans over what they give.
ghost use Rattle.std.specs.Prelude.{◌≡◌, ◌≢◌, IfOk, IfErr, None, true, false};
ghost use Rattle.scan_layout.specs.Check.{first_fault};
ghost use Rattle.scan_layout.specs.Form.{HasForm};
ghost use Rattle.scan_layout.specs.Layout.{dtype_of};
ghost use Rattle.scan_opener.specs.Opener.{OpenerFailed};
ghost use Rattle.scan_partition.specs.Partable.{IsPartable};
ghost use Rattle.scan_seek.specs.Keeps.{IsKept, KeepsLayout};
ghost use Rattle.scan_seek.specs.KeptView.{IsPlanOver};
ghost use Rattle.scan_seek.specs.Polls.{IsPolledThrough};
ghost use Rattle.scan_seek.specs.KeptData.{unopened};

use crate::keeping::Kept;
use scan_expr::BoundExpression;
use scan_layout::{LayoutReaderContext, LayoutRef};
use scan_opener::{LayoutReaderFactory, Opening};
use scan_plans::Plan;
use scan_readers::{Reader, plan_with_numbers};
use scan_values::{NoMemory, Text};
use std::alloc::Global;
use std::sync::Arc;

/// Why a file is not opened.
#[derive(Clone, Copy, Debug, PartialEq, Eq)]
pub enum OpenFault {
    /// Its opener failed.
    Failed,
    NoMemory,
}

/// The plan of an expression over a layout, whose rows are numbered from 0 on.
fn plan_of(
    alloc: Global,
    layout: &LayoutRef,
    projection: &BoundExpression,
) -> Result<Arc<Plan>, NoMemory>
    requires form { HasForm layout.now.value (dtype_of layout.now.value) }
    requires scope { projection.now.scope ≡ dtype_of layout.now.value }
    requires bound { IsPartable projection.now }
    ensures { IfOk result (λ p. IsPlanOver layout.now.value projection.now p.value) }
{
    let shared: LayoutReaderContext<u8> = LayoutReaderContext::new(alloc);
    let name = Text::new(String::new(alloc));
    let _rows = layout.row_count();
    let mut reader = Reader::from_layout(alloc, name, layout, &shared)?;
    plan_with_numbers(alloc, &mut reader, 0, projection)
}

/// Whether a layout is of a dtype and well-formed.
fn is_good(layout: &LayoutRef, projection: &BoundExpression) -> bool
    ensures form { result ≡ true → HasForm layout.now.value (dtype_of layout.now.value) }
    ensures scope { result ≡ true → projection.now.scope ≡ dtype_of layout.now.value }
    ensures none { result ≡ true → first_fault layout.now.value projection.now.scope ≡ None }
    ensures some { result ≡ false → first_fault layout.now.value projection.now.scope ≡ None → ⊥ }
{
    layout.check(projection.scope()).is_ok()
}

/// What is kept of a file of a layout.
fn kept_of(alloc: Global, layout: LayoutRef, projection: &BoundExpression) -> Result<Kept, NoMemory>
    requires bound { IsPartable projection.now }
    ensures { IfOk result (KeepsLayout projection.now layout.value) }
{
    if !is_good(&layout, projection) {
        return Ok(Kept::flawed(layout));
    }
    let plan = plan_of(alloc, &layout, projection)?;
    Ok(Kept::ready(layout, plan))
}

/// Polls the opener of a file to its end, and makes the plan of an expression over the layout that it gives, where this is
/// well-formed and of the dtype over which the expression is bound.
///
/// # Errors
/// `Failed` only where the opener's count of faults rose. `NoMemory` also where it has given a layout: it is to be polled
/// anew then.
pub fn open<O: LayoutReaderFactory>(
    alloc: Global,
    opener: &mut O,
    projection: &BoundExpression,
) -> Result<Kept, OpenFault>
    requires bound { IsPartable projection.now }
    ensures ok { IfOk result (IsKept projection.now (O.opener opener.old)) }
    ensures open { IfOk result (λ k. k ≢ unopened) }
    ensures fault { IfErr result (λ e. e ≡ OpenFault.Failed → OpenerFailed (O.opener opener.old) (O.opener opener.new)) }
    ensures moves { IsPolledThrough (O.opener opener.old) (O.opener opener.new) }
{
    'wait: loop {
        match opener.poll_open(alloc) {
            Opening::Pending => {}
            Opening::Skipped => return Ok(Kept::skipped()),
            Opening::Failed => return Err(OpenFault::Failed),
            Opening::NoMemory => return Err(OpenFault::NoMemory),
            Opening::Opened(layout) => match kept_of(alloc, layout, projection) {
                Ok(kept) => return Ok(kept),
                Err(NoMemory) => return Err(OpenFault::NoMemory),
            },
        }
    }
}
