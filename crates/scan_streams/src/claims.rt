//! What a stream may claim of a limit on rows, which others may claim from too. After the Rust's `scan::limit`.
ghost use Rattle.std.specs.Prelude.{◌≡◌, ◌<◌, ◌≤◌, true, Some};
ghost use Rattle.scan_streams.specs.Grants.{Claimed, is_spent};

use scan_limit::{LimitSeat, RowLimit};
use std::marker::Model;
use std::sync::Arc;

/// A limit on rows, and the seat through which a stream claims them. Contracts see the seat.
#[derive(Drop)]
pub struct Claims {
    limit: Arc<RowLimit>,
    rows: u64,
    seat: LimitSeat,
}

impl Model for Claims {
    ghost use Rattle.scan_limit.specs.Seats.{SeatState, seat_state_code};

    ghost Value = { SeatState };

    ghost coded = { seat_state_code };

    ghost use Rattle.std.specs.Prelude.{◌≡◌};

    ghost view = { λ c. c.seat };

    ghost invariant = { λ c. (c.seat.budget ≡ c.limit.value) × (c.rows ≡ c.seat.budget.limit) };
}

impl Claims {
    /// Claims on a limit of so many rows, by one of its seats.
    pub fn new(limit: Arc<RowLimit>, rows: u64, seat: LimitSeat) -> Claims
        requires own { seat.budget ≡ limit.value }
        requires rows { rows ≡ seat.budget.limit }
        ensures { result ≡ seat }
    {
        Claims { limit, rows, seat }
    }

    /// Claims rows, and answers how many of them are granted.
    pub fn take(&mut self, rows: u64) -> u64
        requires { rows ≤ self.old.room }
        ensures claimed { Claimed rows result self.old self.new }
        ensures spent { result < rows → is_spent (Some self.new) ≡ true }
    {
        let _within = self.seat.granted();
        self.limit.take(&mut self.seat, rows)
    }

    /// Whether nothing is granted any more: the whole limit was, or less than was claimed.
    pub fn is_spent(&self) -> bool
        ensures { result ≡ is_spent (Some self.now) }
    {
        self.rows <= self.seat.granted() || self.seat.granted() < self.seat.claimed()
    }
}
