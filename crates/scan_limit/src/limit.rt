//! The limit itself: one word that each claim adds to.
ghost use Rattle.std.specs.Prelude.{◌≡◌, ◌+◌, ◌-◌, ◌<◌, ◌≤◌, [], false, min, IfOk, Ok, IsTrue};
ghost use Rattle.scan_limit.specs.Budget.{most, grant_of, with_less_room, with_room};
ghost use Rattle.scan_limit.specs.Seats.{seat_with, after_claim, after_split, after_join};

use crate::budget::{Account, Amount, Balance, Claim, Look, Part, Sum};
use crate::seat::LimitSeat;
use atomic_table::{Seat, Shared, Table};
use scan_values::NoMemory;
use std::alloc::Global;
use std::marker::{Brand, Model};

/// A limit on the rows that are granted to all that claim. The workers of a scan share it by reference, and each claims
/// through a seat of its own.
/// Contracts see which limit it is, and how many rows it grants.
#[derive(Drop)]
pub struct RowLimit {
    table: Table<(), Account, u64, Balance, Global>,
    limit: u64,
}

impl Model for RowLimit {
    ghost use Rattle.std.specs.Prelude.{◌≡◌};
    ghost use Rattle.scan_limit.specs.Seats.{Budget, budget_code};

    ghost Value = { Budget };

    ghost coded = { budget_code };

    ghost view = { λ l. record { table = l.table.shared.table_id; limit = l.limit } };

    ghost invariant = { λ l. (l.table.shared.key ≡ l.limit) × (l.table.shared.table_id.words ≡ 1)
        × (l.table.shared.table_id.slots ≡ 0) };
}

// Moves room to a new seat, by an amount that the call picks.
fn cut<A: Amount>(
    shared: &Shared<(), Account, u64, Balance>,
    seat: &mut Seat<(), Account>,
    room: u64,
) -> Seat<(), Account>
    requires amount { room ≡ A.amount }
    requires own { seat.old.table_id ≡ shared.now.table_id }
    requires word { 0 < shared.now.table_id.words }
    requires room { room ≤ seat.old.me.0.room }
    ensures table { seat.new.table_id ≡ seat.old.table_id }
    ensures kept { seat.new.me ≡ (with_less_room room seat.old.me.0, seat.old.me.1) }
    ensures given { (result.table_id ≡ seat.old.table_id) × (result.me ≡ (with_room room seat.old.me.0, [])) }
{
    shared.split_seat::<Part<A>>(seat)
}

impl RowLimit {
    /// A limit of which nothing is claimed, and its first seat, through which all may be claimed.
    pub fn new(alloc: Global, limit: u64) -> Result<(RowLimit, LimitSeat), NoMemory>
        ensures { IfOk result (λ r. (r.0.limit ≡ limit) × (r.1 ≡ seat_with r.0 most)) }
    {
        let (table, seat) = Table::of_words(alloc, &[0], &limit)?;
        let first = LimitSeat {
            seat,
            room: u64::MAX,
            claimed: 0,
            granted: 0,
        };
        Ok((RowLimit { table, limit }, first))
    }

    /// Claims rows and answers how many of them are granted: those that the limit leaves after all that was claimed
    /// before, by whatever seat. It takes no memory. Cost: one atomic addition, with no lock and no wait (no clause
    /// counts additions).
    pub fn take(&self, s: &mut LimitSeat, rows: u64) -> u64
        requires own { s.old.budget ≡ self.now }
        requires room { rows ≤ s.old.room }
        ensures at_least { grant_of self.now.limit (most - s.old.room) rows ≤ result }
        ensures at_most { result ≤ grant_of self.now.limit s.old.claimed rows }
        ensures alone { s.old.room + s.old.claimed ≡ most → result ≡ grant_of self.now.limit s.old.claimed rows }
        ensures spent { s.old.granted < s.old.claimed → result ≡ 0 }
        ensures seat { s.new ≡ after_claim rows result s.old }
    {
        let before = self.table.shared.fetch_add::<Claim>(&mut s.seat, 0, rows);
        let left = self.limit.saturating_sub(before);
        let granted = rows.min(left);
        s.room -= rows;
        s.claimed += rows;
        s.granted += granted;
        granted
    }

    /// Whether as many rows are claimed, by whatever seat, as the limit grants. It is one look at the shared word.
    pub fn is_exhausted(&self, s: &mut LimitSeat) -> bool
        requires own { s.old.budget ≡ self.now }
        ensures yes { self.now.limit ≤ s.old.claimed → IsTrue result }
        ensures spent { s.old.granted < s.old.claimed → IsTrue result }
        ensures no { most - s.old.room < self.now.limit → result ≡ false }
        ensures seat { s.new ≡ s.old }
    {
        self.table.shared.load::<Look>(&mut s.seat, 0) >= self.limit
    }

    /// Moves room of a seat to a new one, which has claimed nothing. It takes no memory, so it never refuses.
    pub fn split(&self, s: &mut LimitSeat, room: u64) -> Result<LimitSeat, NoMemory>
        requires own { s.old.budget ≡ self.now }
        requires room { room ≤ s.old.room }
        ensures kept { s.new ≡ after_split room s.old }
        ensures given { result ≡ Ok (seat_with self.now room) }
    {
        let seat = cut::<Brand>(&self.table.shared, &mut s.seat, room);
        s.room -= room;
        Ok(LimitSeat {
            seat,
            room,
            claimed: 0,
            granted: 0,
        })
    }

    /// Adds the room, the claims and the grants of one seat to another.
    pub fn join(&self, into: &mut LimitSeat, from: LimitSeat)
        requires own { (into.old.budget ≡ self.now) × (from.budget ≡ self.now) }
        ensures { into.new ≡ after_join into.old from }
    {
        let LimitSeat {
            seat,
            room,
            claimed,
            granted,
        } = from;
        self.table.shared.join_seat::<Sum>(&mut into.seat, seat);
        // A look at the word shows that the sums fit.
        let _word = self.table.shared.load::<Look>(&mut into.seat, 0);
        into.room += room;
        into.claimed += claimed;
        into.granted += granted;
    }

    /// Uses the limit up, and answers how many rows were claimed. The seat's room and claims are all that there is, as
    /// they are once every other seat was joined into it, so it claimed them all and has all grants.
    pub fn close(self, s: LimitSeat) -> u64
        requires own { s.budget ≡ self }
        requires whole { s.room + s.claimed ≡ most }
        ensures claimed { result ≡ s.claimed }
        ensures granted { s.granted ≡ min self.limit result }
    {
        let RowLimit { table, .. } = self;
        let LimitSeat { seat, .. } = s;
        let closed = table.close_with(seat);
        let word = closed.word(0);
        closed.free();
        word
    }
}
