// The rows of a leaf: what they lack, and what they give.
ghost use Rattle.std.specs.Prelude.{◌≡◌, ◌≤◌, ◌<◌, ◌+◌, ◌-◌, ◌∷◌, IfOk, [], length, take, drop, true, nat_le, if◌then◌else◌, option_map};
ghost use Rattle.std.specs.List.{list_any};
ghost use Rattle.scan_values.specs.Arrays.{of_parts};
ghost use Rattle.scan_values.specs.DataType.{DataType};
ghost use Rattle.scan_values.specs.Kinds.{is_scalar_type};
ghost use Rattle.scan_spelling.specs.declared.spelling.Spelling.{Spelling};
ghost use Rattle.scan_layout.specs.Check.{total_rows};
ghost use Rattle.scan_spelling.specs.Places.{Place, places_of, place_of};
ghost use Rattle.scan_plans.specs.PlanTree.{leaf};
ghost use Rattle.scan_plans.specs.Came.{came, arrived};
ghost use Rattle.scan_plans.specs.Meaning.{true_rows};
ghost use Rattle.scan_plans.specs.Wants.{leaf_wanted, part_of};
ghost use Rattle.scan_plans.specs.Reads.{Collects, Reads, ReadsSegment, AddsSegment};

use crate::fault::ReadFault;
use scan_columns::Column;
use scan_layout::{DecodeFault, LeafColumn, Spelling};
use scan_segments::{ByteBuffer, SegmentId};
use scan_splits::{Arrival, Inbox, SegmentRuns, Wants};
use scan_values::{DType, NoMemory};
use std::alloc::Global;
use std::sync::Arc;

/// So many rows are looked at before the next ones.
const BLOCK: usize = 64;

/// Whether a row is true.
#[tactic(auto, using(crate::proofs::Blocks::any_parts))]
pub(crate) fn any_true(bits: &[bool]) -> bool
    ensures { result ≡ list_any (λ b. b) bits.now }
{
    let mut rest = bits;
    while rest.len() > BLOCK {
        let (block, later) = rest.split_at(BLOCK);
        if any_in(block) {
            return true;
        }
        rest = later;
    }
    any_in(rest)
}

/// Whether a row of a block is true, without a way out.
fn any_in(block: &[bool]) -> bool
    ensures { result ≡ list_any (λ b. b) block.now }
{
    let mut any = false;
    for bit in block {
        any |= *bit;
    }
    any
}

/// Of the bits of the rows from `first` on, those of the rows from `start` up to `end`.
pub(crate) fn part_of<'a>(bits: &'a [bool], first: u64, start: u64, end: u64) -> &'a [bool]
    requires { start ≤ end }
    ensures { result.now ≡ part_of first start end bits.entry.now }
{
    let from = within(bits, start.saturating_sub(first));
    let to = within(bits, end.saturating_sub(first));
    &bits[from..to]
}

/// A number, or how many bits there are where these are fewer.
fn within(bits: &[bool], n: u64) -> usize
    ensures { result ≡ Rattle.std.specs.Prelude.min n (length bits.now) }
{
    n.min(bits.len() as u64) as usize
}

/// Whether rows from `first` on end before a row.
pub(crate) fn ends_before(first: u64, bits: &[bool], row: u64) -> bool
    ensures { result ≡ nat_le (length bits.now) (row - first) }
{
    bits.len() as u64 <= row.saturating_sub(first)
}

/// Looks whether a segment has arrived; one that is missing is no good.
fn look(id: SegmentId, inbox: &Inbox, wants: &mut Wants) -> Result<(), ReadFault>
    ensures { (p : Place) → p.id ≡ id → Collects wants.old wants.new (p ∷ []) (came inbox.now) result }
{
    match inbox.get(id) {
        Some(Arrival::Bytes(_)) => Ok(()),
        Some(Arrival::Missing) => Err(ReadFault::Corrupt(id)),
        None => Ok(wants.add(id)?),
    }
}

/// The same, where a row of it is true.
fn look_under(
    bits: &[bool],
    id: SegmentId,
    inbox: &Inbox,
    wants: &mut Wants,
) -> Result<(), ReadFault>
    ensures { (p : Place) → p.id ≡ id → Collects wants.old wants.new (if list_any (λ b. b) bits.now then p ∷ [] else [])
        (came inbox.now) result }
{
    if !any_true(bits) {
        return Ok(());
    }
    look(id, inbox, wants)
}

/// Adds the ids of the segments that hold a true row, of the rows from `first` on, and have not arrived. The walk
/// begins at the first row's segment, and ends with the last row's.
pub(crate) fn collect_leaf(
    runs: &SegmentRuns,
    first: u64,
    bits: &[bool],
    inbox: &Inbox,
    wants: &mut Wants,
) -> Result<(), ReadFault>
    ensures { (d : DataType) (s : Spelling) → Collects wants.old wants.new
        (leaf_wanted 0 (places_of d s runs.now) (true_rows first bits.now)) (came inbox.now) result }
{
    for k in runs.first_at(first)..runs.len() {
        let start = runs.start(k);
        if ends_before(first, bits, start) {
            return Ok(());
        }
        let part = part_of(bits, first, start, runs.end(k));
        look_under(part, runs.id(k), inbox, wants)?;
    }
    Ok(())
}

/// The bytes of a segment, where they have arrived.
fn bytes_of(inbox: &Inbox, id: SegmentId) -> Option<&ByteBuffer>
    ensures { option_map (λ b. b.now) result ≡ arrived (came inbox.now) id }
{
    match inbox.get(id) {
        Some(Arrival::Bytes(bytes)) => Some(bytes),
        _ => None,
    }
}

/// The rows of a segment.
fn read_segment(
    alloc: Global,
    dtype: &Arc<DType>,
    spelling: Spelling,
    id: SegmentId,
    rows: u64,
    inbox: &Inbox,
) -> Result<LeafColumn, ReadFault>
    requires { is_scalar_type dtype.now.value ≡ true }
    ensures { ReadsSegment (arrived (came inbox.now)) (place_of dtype.now.value spelling (id, rows)) result }
{
    let Some(bytes) = bytes_of(inbox, id) else {
        return Err(ReadFault::Corrupt(id));
    };
    match LeafColumn::read(alloc, spelling, dtype, rows, bytes.try_clone()?) {
        Ok(leaf) => Ok(leaf),
        Err(DecodeFault::Spelling) => Err(ReadFault::Corrupt(id)),
        Err(DecodeFault::NoMemory) => Err(ReadFault::NoMemory),
    }
}

/// Values, and then those of a segment at the true rows, of the rows from `skip` on. What stands already is not copied.
fn with_segment(
    alloc: Global,
    column: Column,
    dtype: &Arc<DType>,
    spelling: Spelling,
    id: SegmentId,
    rows: u64,
    skip: u64,
    bits: &[bool],
    inbox: &Inbox,
) -> Result<Column, ReadFault>
    requires scalar { is_scalar_type dtype.now.value ≡ true }
    requires dtype { column.dtype ≡ dtype.now.value }
    requires within { 0 < length bits.now → skip + length bits.now ≤ rows }
    ensures { AddsSegment (arrived (came inbox.now)) (place_of dtype.now.value spelling (id, rows)) skip bits.now column
        result }
{
    if !any_true(bits) {
        return Ok(column);
    }
    let leaf = read_segment(alloc, dtype, spelling, id, rows, inbox)?;
    Ok(column.extend_from_leaf(alloc, &leaf, skip as usize, bits)?)
}

/// No values.
pub(crate) fn no_values(alloc: Global, dtype: &DType) -> Result<Column, NoMemory>
    ensures { IfOk result (λ c. c ≡ of_parts dtype.now []) }
{
    let dtype = Arc::new(alloc, dtype.try_clone(alloc)?)?;
    Ok(Column::empty(alloc, dtype))
}

/// No values, of a dtype that is shared.
fn nothing_yet(alloc: Global, dtype: &Arc<DType>) -> Result<Column, NoMemory>
    ensures { IfOk result (λ c. c ≡ of_parts dtype.now.value []) }
{
    let dtype = dtype.clone()?;
    Ok(Column::empty(alloc, dtype))
}

/// The values of a leaf at the true rows, of the rows from `first` on, by what has arrived.
pub(crate) fn read_leaf(
    alloc: Global,
    dtype: &Arc<DType>,
    spelling: Spelling,
    runs: &SegmentRuns,
    first: u64,
    bits: &[bool],
    inbox: &Inbox,
) -> Result<Column, ReadFault>
    requires scalar { is_scalar_type dtype.now.value ≡ true }
    requires within { first + length bits.now ≤ total_rows runs.now }
    ensures { Reads (leaf dtype.now.value spelling runs.now) (came inbox.now) (true_rows first bits.now) result }
{
    let mut column = nothing_yet(alloc, dtype)?;
    for k in runs.first_at(first)..runs.len() {
        let start = runs.start(k);
        if ends_before(first, bits, start) {
            return Ok(column);
        }
        let part = part_of(bits, first, start, runs.end(k));
        let skip = first.saturating_sub(start);
        column = with_segment(
            alloc,
            column,
            dtype,
            spelling,
            runs.id(k),
            runs.rows(k),
            skip,
            part,
            inbox,
        )?;
    }
    Ok(column)
}
