//! A seat of a limit: the right to claim rows, with what was claimed and granted through it.
ghost use Rattle.std.specs.Prelude.{◌≡◌, ◌+◌, ◌≤◌};
ghost use Rattle.scan_limit.specs.Budget.{most};

use crate::budget::Account;
use atomic_table::Seat;
use std::marker::Model;

/// The right of one worker to claim rows of a `RowLimit`. Contracts see which limit it is of, and its three counts.
/// What was claimed through a seat stays claimed when the seat is dropped.
#[derive(Drop)]
pub struct LimitSeat {
    pub(crate) seat: Seat<(), Account>,
    pub(crate) room: u64,
    pub(crate) claimed: u64,
    pub(crate) granted: u64,
}

impl Model for LimitSeat {
    ghost use Rattle.std.specs.Prelude.{◌≡◌, ◌+◌, ◌≤◌, []};
    ghost use Rattle.scan_limit.specs.Seats.{SeatState, seat_state_code};

    ghost Value = { SeatState };

    ghost coded = { seat_state_code };

    ghost use Rattle.scan_limit.specs.Budget.{account, most};

    ghost view = { λ s. record {
      budget = record { table = s.seat.table_id; limit = s.seat.me.0.limit };
      room = s.room;
      claimed = s.claimed;
      granted = s.granted;
    } };

    ghost invariant = { λ s. (s.seat.me.0 ≡ account s.seat.me.0.limit s.room s.claimed s.granted)
        × (s.seat.me.1 ≡ []) × (s.granted ≤ s.claimed) × (s.room + s.claimed ≤ most) };
}

impl LimitSeat {
    /// How many rows may still be claimed through this seat.
    pub fn room(&self) -> u64
        ensures room { result ≡ self.now.room }
        ensures fits { self.now.room + self.now.claimed ≤ most }
    {
        self.room
    }

    /// How many rows were claimed through this seat and those that were joined into it.
    pub fn claimed(&self) -> u64
        ensures { result ≡ self.now.claimed }
    {
        self.claimed
    }

    /// How many of the claimed rows were granted.
    pub fn granted(&self) -> u64
        ensures granted { result ≡ self.now.granted }
        ensures within { self.now.granted ≤ self.now.claimed }
    {
        self.granted
    }
}
