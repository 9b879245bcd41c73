// Whether what has arrived of what rows want is good, where something lacks still.
ghost use Rattle.std.specs.Prelude.{◌≡◌, ◌<◌, ◌+◌, ◌∷◌, [], Some, length, true, if◌then◌else◌};
ghost use Rattle.std.specs.List.{list_any};
ghost use Rattle.scan_values.specs.Kinds.{is_scalar_type};
ghost use Rattle.scan_layout.specs.Check.{total_rows};
ghost use Rattle.scan_spelling.specs.Places.{places_of, place_of};
ghost use Rattle.scan_plans.specs.Came.{Came, came};
ghost use Rattle.scan_plans.specs.Checking.{ChecksPlaces, ChecksPlan, ChecksAll, KnownOf};
ghost use Rattle.scan_plans.specs.Meaning.{Within, AllWithin, true_rows};
ghost use Rattle.scan_plans.specs.PlanTree.{lengths, plans};
ghost use Rattle.scan_plans.specs.Wants.{leaf_wanted};

use crate::fault::ReadFault;
use crate::leaf::{any_true, ends_before, part_of};
use crate::lists::{Span, span_of};
use crate::node::{Kind, PlanNode, PlanNodes};
use crate::offsets::Offsets;
use scan_layout::{DecodeFault, LeafColumn, Spelling};
use scan_segments::{ByteBuffer, SegmentId};
use scan_splits::{Arrival, Inbox, SegmentRuns, Wants};
use scan_values::{DType, Mask};
use std::alloc::Global;
use std::sync::Arc;

/// Looks at the bytes of a segment that has arrived.
fn check_bytes(
    alloc: Global,
    dtype: &Arc<DType>,
    spelling: Spelling,
    id: SegmentId,
    rows: u64,
    bytes: &ByteBuffer,
) -> Result<(), ReadFault>
    requires { is_scalar_type dtype.now.value ≡ true }
    ensures { (here : Came) → here id ≡ Some (Some bytes.now) →
        ChecksPlaces (place_of dtype.now.value spelling (id, rows) ∷ []) here result }
{
    match LeafColumn::read(alloc, spelling, dtype, rows, bytes.try_clone()?) {
        Ok(_) => Ok(()),
        Err(DecodeFault::Spelling) => Err(ReadFault::Corrupt(id)),
        Err(DecodeFault::NoMemory) => Err(ReadFault::NoMemory),
    }
}

/// Looks at what has arrived of a segment. It is no good where it is missing, or not spelled as its place has it.
fn check_segment(
    alloc: Global,
    dtype: &Arc<DType>,
    spelling: Spelling,
    id: SegmentId,
    rows: u64,
    inbox: &Inbox,
) -> Result<(), ReadFault>
    requires { is_scalar_type dtype.now.value ≡ true }
    ensures { ChecksPlaces (place_of dtype.now.value spelling (id, rows) ∷ []) (came inbox.now) result }
{
    match inbox.get(id) {
        Some(Arrival::Bytes(bytes)) => check_bytes(alloc, dtype, spelling, id, rows, bytes),
        Some(Arrival::Missing) => Err(ReadFault::Corrupt(id)),
        None => Ok(()),
    }
}

/// The same, where a row of it is true.
fn check_under(
    alloc: Global,
    bits: &[bool],
    dtype: &Arc<DType>,
    spelling: Spelling,
    id: SegmentId,
    rows: u64,
    inbox: &Inbox,
) -> Result<(), ReadFault>
    requires { is_scalar_type dtype.now.value ≡ true }
    ensures { ChecksPlaces
        (if list_any (λ b. b) bits.now then place_of dtype.now.value spelling (id, rows) ∷ [] else [])
        (came inbox.now) result }
{
    if !any_true(bits) {
        return Ok(());
    }
    check_segment(alloc, dtype, spelling, id, rows, inbox)
}

/// Looks at what has arrived of the segments of a leaf that hold a true row, of the rows from `first` on.
fn check_leaf(
    alloc: Global,
    dtype: &Arc<DType>,
    spelling: Spelling,
    runs: &SegmentRuns,
    first: u64,
    bits: &[bool],
    inbox: &Inbox,
) -> Result<(), ReadFault>
    requires { is_scalar_type dtype.now.value ≡ true }
    ensures { ChecksPlaces (leaf_wanted 0 (places_of dtype.now.value spelling runs.now) (true_rows first bits.now))
        (came inbox.now) result }
{
    for k in runs.first_at(first)..runs.len() {
        let start = runs.start(k);
        if ends_before(first, bits, start) {
            return Ok(());
        }
        let part = part_of(bits, first, start, runs.end(k));
        check_under(
            alloc,
            part,
            dtype,
            spelling,
            runs.id(k),
            runs.rows(k),
            inbox,
        )?;
    }
    Ok(())
}

impl Offsets {
    /// Looks at what has arrived of the segments that have the offsets of the lists at the true rows and between them,
    /// of the rows from `first` on.
    fn check(&self, alloc: Global, first: u64, mask: &Mask, inbox: &Inbox) -> Result<(), ReadFault>
        requires { first + length mask.now < total_rows self.now.segments }
        ensures { ChecksPlan (lengths self.now) (came inbox.now) (true_rows first mask.now) result }
    {
        let _rows = self.runs.row_count();
        match span_of(alloc, first, mask)? {
            Some(span) => {
                let all = Mask::new_true(alloc, span.mask.len() + 1)?;
                check_leaf(
                    alloc,
                    &self.dtype,
                    self.spelling,
                    &self.runs,
                    span.first,
                    all.as_slice(),
                    inbox,
                )
            }
            None => Ok(()),
        }
    }

    /// The rows of the elements that the lists at the true rows want, from the row `first` on, where they are known.
    fn known(
        &self,
        alloc: Global,
        first: u64,
        mask: &Mask,
        inbox: &Inbox,
    ) -> Result<Option<Span>, ReadFault>
        requires { first + length mask.now < total_rows self.now.segments }
        ensures { KnownOf self.now (came inbox.now) (true_rows first mask.now) result }
    {
        let mut lacking = Wants::new(alloc);
        self.next(alloc, first, mask, inbox, &mut lacking)
    }
}

impl PlanNode {
    /// Looks at what has arrived of the segments that rows want next, of the rows from `first` on. One that is missing,
    /// or not spelled as its place has it, is told, though others lack.
    #[cycle(check)]
    pub(crate) fn check(
        &self,
        alloc: Global,
        first: u64,
        mask: &Mask,
        inbox: &Inbox,
    ) -> Result<(), ReadFault>
        requires { Within self.now (first + length mask.now) }
        ensures { ChecksPlan self.now (came inbox.now) (true_rows first mask.now) result }
    {
        match &self.kind {
            Kind::Leaf(dtype, spelling, runs) => {
                check_leaf(alloc, dtype, *spelling, runs, first, mask.as_slice(), inbox)
            }
            Kind::Evaluate(_, node) => node.check(alloc, first, mask, inbox),
            Kind::Over(_, parts) => parts.check(alloc, first, mask, inbox),
            Kind::Rows(_) | Kind::Constant(_) | Kind::Numbers(_) => Ok(()),
            Kind::Lists(_, elements, offsets) => {
                offsets.check(alloc, first, mask, inbox)?;
                match offsets.known(alloc, first, mask, inbox)? {
                    Some(rows) => elements.check(alloc, rows.first, &rows.mask, inbox),
                    None => Ok(()),
                }
            }
            Kind::Lengths(offsets) => offsets.check(alloc, first, mask, inbox),
            Kind::Valid(values, validity) => {
                validity.check(alloc, first, mask, inbox)?;
                values.check(alloc, first, mask, inbox)
            }
            Kind::ByLengths(_, _, node) => node.check(alloc, first, mask, inbox),
        }
    }
}

impl PlanNodes {
    #[cycle(check)]
    fn check(&self, alloc: Global, first: u64, mask: &Mask, inbox: &Inbox) -> Result<(), ReadFault>
        requires { AllWithin (plans self.now) (first + length mask.now) }
        ensures { ChecksAll (plans self.now) (came inbox.now) (true_rows first mask.now) result }
    {
        for node in &self.items {
            node.check(alloc, first, mask, inbox)?;
        }
        Ok(())
    }
}
