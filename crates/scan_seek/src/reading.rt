//! Rows of a file, by their numbers.
ghost use Rattle.std.specs.Prelude.{◌≡◌, ◌<◌, ◌∷◌, [], All, IfOk, IfErr, OnOk, length, map};
ghost use Rattle.scan_values.specs.Values.{val_of};
ghost use Rattle.scan_segments.specs.Source.{none_live};
ghost use Rattle.scan_plans.specs.Meaning.{Within};
ghost use Rattle.scan_drive.specs.Desks.{Agree};
ghost use Rattle.scan_fetch.specs.Fetches.{KeepsCounts, point, IsApart};
ghost use Rattle.scan_seek.specs.Keeps.{IsRead, HasRow};
ghost use Rattle.scan_seek.specs.Reads.{AreRead, HasSeekCause, SeekMoves};
ghost use Rattle.scan_seek.specs.Rows.{of_miss, one_row, LeavesRows, GivesRows, FailsRows, AreValuesOf, HasPlanCause, ReadMoves};

use crate::keeping::{Kept, Kind};
use scan_drive::Desk;
use scan_fetch::{Miss, bring};
use scan_plans::{ArrayFuture, MaskFuture, Plan};
use scan_segments::{KeyedSegmentCache, SegmentId, SegmentKey, SegmentSource, SegmentSourceId};
use scan_splits::{Inbox, Poll};
use scan_values::{Array, NoMemory, Value};
use std::alloc::{AllocError, AllocFailed, Global};
use std::sync::Arc;

/// Why rows are not read.
#[derive(Clone, Copy, Debug, PartialEq, Eq)]
pub enum SeekFault {
    /// The source failed over a segment.
    Source(SegmentId),
    /// A segment is missing or damaged.
    Corrupt(SegmentId),
    /// The expression overflows at a row.
    Overflow(u64),
    NoMemory,
}

impl From<NoMemory> for SeekFault {
    ghost use Rattle.std.specs.Prelude.{◌≡◌};
    ghost use Rattle.scan_seek.specs.declared.reading.SeekFault.TheVariants as fault;

    ghost from_gives = { λ _ e. e ≡ fault.NoMemory };

    fn from(_: NoMemory) -> SeekFault {
        SeekFault::NoMemory
    }
}

impl From<AllocError> for SeekFault {
    ghost use Rattle.std.specs.Prelude.{◌≡◌};
    ghost use Rattle.scan_seek.specs.declared.reading.SeekFault.TheVariants as fault;

    ghost from_gives = { λ _ e. e ≡ fault.NoMemory };

    fn from(_: AllocError) -> SeekFault {
        SeekFault::NoMemory
    }
}

impl<T: Drop> From<AllocFailed<T>> for SeekFault {
    ghost use Rattle.std.specs.Prelude.{◌≡◌};
    ghost use Rattle.scan_seek.specs.declared.reading.SeekFault.TheVariants as fault;

    ghost from_gives = { λ _ e. e ≡ fault.NoMemory };

    fn from(_: AllocFailed<T>) -> SeekFault {
        SeekFault::NoMemory
    }
}

/// Why segments have not arrived, as why rows are not read.
fn fault_of(miss: Miss) -> SeekFault
    ensures { result ≡ of_miss miss }
{
    match miss {
        Miss::Source(id) => SeekFault::Source(id),
        Miss::NoMemory => SeekFault::NoMemory,
    }
}

/// A projection of one row by a plan of so many.
fn only_row(alloc: Global, plan: &Arc<Plan>, row: u64, count: u64) -> Result<ArrayFuture, NoMemory>
    requires below { row < count }
    requires rows { Within (plan.now.value).tree count }
    ensures { IfOk result (λ f. f ≡ one_row plan.now.value row) }
{
    let _count = count;
    let mask = MaskFuture::new_true(alloc, 1)?;
    Plan::project(plan, &(row..row + 1), mask)
}

/// The value of an array of one.
fn only_value(array: Array) -> Value
    requires { length array.items ≡ 1 }
    ensures { array.items ≡ val_of result ∷ [] }
{
    match array.into_vec().pop() {
        Some(value) => value,
        None => unreachable!(),
    }
}

/// The value of a plan at a row. What arrives stays for the rows that are read after it.
fn value_at<S: SegmentSource, C: KeyedSegmentCache>(
    alloc: Global,
    plan: &Arc<Plan>,
    row: u64,
    count: u64,
    key: &mut SegmentKey,
    source: &mut S,
    desk: &mut Desk,
    cache: &mut C,
    inbox: &mut Inbox,
) -> Result<Value, SeekFault>
    requires below { row < count }
    requires rows { Within (plan.now.value).tree count }
    requires agree { Agree (S.state source.old).live desk.old }
    requires apart { IsApart (point (S.state source.old) (C.cache cache.old) desk.old inbox.old) }
    ensures name { key.new.source_id ≡ key.old.source_id }
    ensures leaves { LeavesRows plan.now.value (row ∷ []) key.old.source_id
        (point (S.state source.old) (C.cache cache.old) desk.old inbox.old)
        (point (S.state source.new) (C.cache cache.new) desk.new inbox.new) }
    ensures gives { IfOk result (λ v. GivesRows plan.now.value (row ∷ []) key.old.source_id
        (point (S.state source.old) (C.cache cache.old) desk.old inbox.old)
        (point (S.state source.new) (C.cache cache.new) desk.new inbox.new) (val_of v ∷ [])) }
    ensures fault { IfErr result (FailsRows plan.now.value (row ∷ []) key.old.source_id
        (point (S.state source.old) (C.cache cache.old) desk.old inbox.old)
        (point (S.state source.new) (C.cache cache.new) desk.new inbox.new)) }
{
    'reads: loop {
        let mut future = only_row(alloc, plan, row, count)?;
        match future.poll(alloc, inbox) {
            Poll::Ready(array) => return Ok(only_value(array)),
            Poll::Pending(ids) => {
                match bring(alloc, ids.as_slice(), key, source, desk, cache, inbox) {
                    Ok(()) => {}
                    Err(miss) => return Err(fault_of(miss)),
                }
            }
            Poll::Corrupt(id) => return Err(SeekFault::Corrupt(id)),
            Poll::Overflow => return Err(SeekFault::Overflow(row)),
            Poll::NoMemory => return Err(SeekFault::NoMemory),
        }
    }
}

/// The values of a plan at rows, one after the other.
fn values_at<S: SegmentSource, C: KeyedSegmentCache>(
    alloc: Global,
    plan: &Arc<Plan>,
    rows: &[u64],
    count: u64,
    key: &mut SegmentKey,
    source: &mut S,
    desk: &mut Desk,
    cache: &mut C,
    inbox: &mut Inbox,
) -> Result<Vec<Value>, SeekFault>
    requires below { All (λ row. row < count) rows.now }
    requires rows { Within (plan.now.value).tree count }
    requires agree { Agree (S.state source.old).live desk.old }
    requires apart { IsApart (point (S.state source.old) (C.cache cache.old) desk.old inbox.old) }
    ensures name { key.new.source_id ≡ key.old.source_id }
    ensures leaves { LeavesRows plan.now.value rows.now key.old.source_id
        (point (S.state source.old) (C.cache cache.old) desk.old inbox.old)
        (point (S.state source.new) (C.cache cache.new) desk.new inbox.new) }
    ensures gives { IfOk result (λ vs. GivesRows plan.now.value rows.now key.old.source_id
        (point (S.state source.old) (C.cache cache.old) desk.old inbox.old)
        (point (S.state source.new) (C.cache cache.new) desk.new inbox.new) (map val_of vs.items)) }
    ensures fault { IfErr result (FailsRows plan.now.value rows.now key.old.source_id
        (point (S.state source.old) (C.cache cache.old) desk.old inbox.old)
        (point (S.state source.new) (C.cache cache.new) desk.new inbox.new)) }
{
    let mut values = Vec::with_capacity(alloc, rows.len())?;
    for row in rows {
        match value_at(alloc, plan, *row, count, key, source, desk, cache, inbox) {
            Ok(value) => values.push(value)?,
            Err(fault) => return Err(fault),
        }
    }
    Ok(values)
}

/// The values of a plan at rows, with nothing live before and after.
fn read_by<S: SegmentSource, C: KeyedSegmentCache>(
    alloc: Global,
    plan: &Arc<Plan>,
    rows: &[u64],
    count: u64,
    name: &SegmentSourceId,
    source: &mut S,
    cache: &mut C,
) -> Result<Vec<Value>, SeekFault>
    requires below { All (λ row. row < count) rows.now }
    requires rows { Within (plan.now.value).tree count }
    requires idle { (S.state source.old).live ≡ none_live }
    ensures values { IfOk result (λ vs. AreValuesOf plan.now.value rows.now name.now (S.state source.old)
        (C.cache cache.old) (map val_of vs.items)) }
    ensures counts { OnOk result (KeepsCounts name.now (S.state source.old) (S.state source.new)
        (C.cache cache.old) (C.cache cache.new)) }
    ensures fault { IfErr result (HasPlanCause plan.now.value rows.now name.now (S.state source.old) (S.state source.new)
        (C.cache cache.old)) }
    ensures moves { ReadMoves plan.now.value rows.now name.now (S.state source.old) (S.state source.new)
        (C.cache cache.old) (C.cache cache.new) }
{
    let source_id = name.try_clone()?;
    let mut key = SegmentKey {
        source_id,
        segment: SegmentId::default(),
    };
    let mut desk = Desk::new(alloc, 0);
    let mut inbox = Inbox::new(alloc);
    let values = values_at(
        alloc, plan, rows, count, &mut key, source, &mut desk, cache, &mut inbox,
    );
    desk.close(source);
    values
}

/// The values of what is read of a file at rows that it has, in order, one row after the other. Each segment that a row
/// touches is looked up in the cache, and asked of the source where it is not there, once in the call; what comes is put
/// into the cache. A row costs what its values cost, and the segments of a file are read in place.
///
/// # Errors
/// `Source` only where the source's count of faults rose, and the segment was asked for. `Corrupt` only where a row touches
/// the segment, and it is missing, does not decode or holds a bad offset. `Overflow` only where the expression overflows at
/// that row. No request is live then, either.
pub fn read_rows<S: SegmentSource, C: KeyedSegmentCache>(
    alloc: Global,
    kept: &Kept,
    rows: &[u64],
    name: &SegmentSourceId,
    source: &mut S,
    cache: &mut C,
) -> Result<Vec<Value>, SeekFault>
    requires ready { IsRead kept.now }
    requires rows { All (HasRow kept.now) rows.now }
    requires idle { (S.state source.old).live ≡ none_live }
    ensures values { IfOk result (λ vs. AreRead kept.now rows.now name.now (S.state source.old) (C.cache cache.old)
        (map val_of vs.items)) }
    ensures counts { OnOk result (KeepsCounts name.now (S.state source.old) (S.state source.new)
        (C.cache cache.old) (C.cache cache.new)) }
    ensures fault { IfErr result (HasSeekCause kept.now rows.now name.now (S.state source.old) (S.state source.new)
        (C.cache cache.old)) }
    ensures moves { SeekMoves kept.now rows.now name.now (S.state source.old) (S.state source.new)
        (C.cache cache.old) (C.cache cache.new) }
{
    match &kept.kind {
        Kind::Ready(layout, plan) => {
            let count = layout.row_count();
            read_by(alloc, plan, rows, count, name, source, cache)
        }
        _ => unreachable!(),
    }
}
