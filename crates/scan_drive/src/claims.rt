//! The rows of a split are claimed, and so many of them are kept as are granted. After the Rust's tasks, each of which
//! takes of its scan's limit what its split has.
ghost use Rattle.std.specs.Prelude.{◌≡◌, IfOk, OnOk};
ghost use Rattle.scan_drive.specs.Claimed.{ClaimsRows, MayClaim};

use crate::active::take_rows;
use crate::slot::{Slot, Stage};
use crate::work::SplitWork;
use scan_limit::{LimitSeat, RowLimit};
use scan_values::NoMemory;
use std::alloc::Global;

/// Claims rows, and keeps the first of them where fewer are granted. A seat has room for more rows than there is memory for.
fn claim_rows<W: SplitWork + Drop>(
    alloc: Global,
    limit: &RowLimit,
    seat: &mut LimitSeat,
    rows: W::Rows,
) -> Result<W::Rows, NoMemory>
    requires { seat.old.budget ≡ limit.now }
    ensures { IfOk result (λ kept. ClaimsRows W.items seat.old seat.new rows kept) }
{
    let count = W::count(&rows);
    if seat.room() < count as u64 {
        return Err(NoMemory);
    }
    let granted = limit.take(seat, count as u64);
    if granted == count as u64 {
        return Ok(rows);
    }
    W::first(alloc, rows, granted as usize)
}

/// Claims the rows of the split in a slot, where they are there.
pub(crate) fn claim_slot<W: SplitWork + Drop>(
    alloc: Global,
    limit: &RowLimit,
    seat: &mut LimitSeat,
    slot: &mut Slot<W, W::Rows>,
) -> Result<(), NoMemory>
    requires { seat.old.budget ≡ limit.now }
    ensures { OnOk result (MayClaim W.items seat.old seat.new slot.old slot.new) }
{
    let Some(rows) = take_rows(slot) else {
        return Ok(());
    };
    let kept = claim_rows::<W>(alloc, limit, seat, rows)?;
    slot.stage = Stage::Read(kept);
    Ok(())
}
