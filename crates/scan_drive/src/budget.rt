//! How many rows may be given in a scan without an order. Each worker claims those of the splits that it polls.
ghost use Rattle.std.specs.Prelude.{◌≡◌, ◌+◌, IfOk, MatchOption};
ghost use Rattle.scan_limit.specs.Budget.{most};
ghost use Rattle.scan_drive.specs.Budgets.{IsOpen};

use scan_limit::{LimitSeat, RowLimit};
use scan_values::NoMemory;
use std::alloc::Global;
use std::marker::Model;

/// A limit on the rows of a scan, and the seat of which those of workers are split off. All of these are joined into it
/// again, so it has all that was claimed.
/// Contracts see how many rows it grants, how many were claimed, and how many of these were granted.
#[derive(Drop)]
pub struct Budget {
    limit: RowLimit,
    seat: LimitSeat,
}

impl Model for Budget {
    ghost use Rattle.scan_drive.specs.Budgets.{BudgetData, budget_data_code};

    ghost Value = { BudgetData };

    ghost coded = { budget_data_code };

    ghost use Rattle.std.specs.Prelude.{◌≡◌, ◌+◌};
    ghost use Rattle.scan_limit.specs.Budget.{most};

    ghost view = { λ b. record { limit = b.limit.limit; claimed = b.seat.claimed; granted = b.seat.granted } };

    ghost invariant = { λ b. (b.seat.budget ≡ b.limit) × (b.seat.room + b.seat.claimed ≡ most) };
}

impl Budget {
    /// A budget of so many rows, of which none is claimed.
    pub fn new(alloc: Global, rows: u64) -> Result<Budget, NoMemory>
        ensures { IfOk result (λ b. b ≡ record { limit = rows; claimed = 0; granted = 0 }) }
    {
        let (limit, seat) = RowLimit::new(alloc, rows)?;
        Ok(Budget { limit, seat })
    }

    /// The limit and its seat, through which all was claimed.
    pub(crate) fn into_parts(self) -> (RowLimit, LimitSeat)
        ensures own { result.1.budget ≡ result.0 }
        ensures whole { result.1.room + result.1.claimed ≡ most }
        ensures counts { self ≡ record { limit = result.0.limit; claimed = result.1.claimed; granted = result.1.granted } }
    {
        let Budget { limit, seat } = self;
        (limit, seat)
    }

    /// A limit and the seat through which all was claimed.
    pub(crate) fn of_parts(limit: RowLimit, seat: LimitSeat) -> Budget
        requires own { seat.budget ≡ limit }
        requires whole { seat.room + seat.claimed ≡ most }
        ensures { result ≡ record { limit = limit.limit; claimed = seat.claimed; granted = seat.granted } }
    {
        Budget { limit, seat }
    }

    /// The budget, unless it is used up.
    pub(crate) fn if_open(self) -> Option<Budget>
        ensures { MatchOption result (self.granted ≡ self.limit) (λ b. (b ≡ self) × IsOpen b) }
    {
        let (limit, mut seat) = self.into_parts();
        if limit.is_exhausted(&mut seat) {
            limit.close(seat);
            return None;
        }
        // No more is granted than is claimed.
        let _granted = seat.granted();
        Some(Budget::of_parts(limit, seat))
    }
}
