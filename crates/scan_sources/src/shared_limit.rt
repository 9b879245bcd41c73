//! A limit that the parts of a scan share. After the Rust's `scan::limit`, which each part clones.
ghost use Rattle.std.specs.Prelude.{◌≡◌, ◌≤◌, IfOk, Some};
ghost use Rattle.scan_streams.specs.Grants.{HasRoom};
ghost use Rattle.scan_core.specs.Streaming.{IsOwnSeat};
ghost use Rattle.scan_sources.specs.Splits.{Parts, PartsWith};

use scan_limit::{LimitSeat, RowLimit};
use scan_streams::Claims;
use scan_values::NoMemory;
use std::alloc::Global;
use std::marker::Model;
use std::sync::Arc;

/// A limit that parts share, and the seat of which theirs are split off. Contracts see the seat.
#[derive(Drop)]
pub struct SharedLimit {
    limit: Arc<RowLimit>,
    rows: u64,
    seat: LimitSeat,
}

impl Model for SharedLimit {
    ghost use Rattle.scan_limit.specs.Seats.{SeatState, seat_state_code};

    ghost Value = { SeatState };

    ghost coded = { seat_state_code };

    ghost use Rattle.std.specs.Prelude.{◌≡◌};

    ghost view = { λ c. c.seat };

    ghost invariant = { λ c. (c.seat.budget ≡ c.limit.value) × (c.rows ≡ c.seat.budget.limit) };
}

impl SharedLimit {
    /// A limit of so many rows, of which nothing is claimed.
    fn new(alloc: Global, rows: u64) -> Result<SharedLimit, NoMemory>
        ensures { IfOk result (λ s. IsOwnSeat (Some rows) (Some s)) }
    {
        let (limit, seat) = RowLimit::new(alloc, rows)?;
        let limit = Arc::new(alloc, limit)?;
        Ok(SharedLimit { limit, rows, seat })
    }

    /// What a part may claim, up to so many rows.
    fn claims(&mut self, room: u64) -> Result<Claims, NoMemory>
        requires { room ≤ self.old.room }
        ensures { Parts room self.old self.new result }
    {
        let limit = self.limit.clone()?;
        let seat = self.limit.split(&mut self.seat, room)?;
        Ok(Claims::new(limit, self.rows, seat))
    }
}

/// A limit that is shared, or none.
pub fn shared(alloc: Global, limit: Option<u64>) -> Result<Option<SharedLimit>, NoMemory>
    ensures { IfOk result (λ s. IsOwnSeat limit s) }
{
    match limit {
        Some(rows) => Ok(Some(SharedLimit::new(alloc, rows)?)),
        None => Ok(None),
    }
}

/// What a part may claim of a limit that is shared, up to so many rows.
pub fn claims_of(limit: &mut Option<SharedLimit>, room: u64) -> Result<Option<Claims>, NoMemory>
    requires { HasRoom limit.old room }
    ensures { PartsWith room limit.old limit.new result }
{
    match limit {
        Some(limit) => Ok(Some(limit.claims(room)?)),
        None => Ok(None),
    }
}
