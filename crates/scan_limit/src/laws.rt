//! What holds of a budget under every schedule of its seats.
ghost use Rattle.std.specs.Prelude.{◌≡◌, ◌<◌, ℕ, List, [], min, length};
ghost use Rattle.scan_limit.specs.Budget.{IsBalanced};
ghost use Rattle.scan_limit.specs.Schedule.{Books, Event, after, IsAllowed, left_by, WasAllowed};
ghost use Rattle.scan_limit.specs.Schedule.{word_of, account_at, claimed_by_all, granted_to_all, IsWhole, HasAll};

/// A new budget is balanced, and every step of a seat keeps it so: a look, a claim, room that is divided, and a seat
/// that is joined into another. To close a budget changes nothing.
pub fn every_step_keeps_the_balance()
    ensures make { (limit : ℕ) → IsBalanced limit (left_by limit []) }
    ensures step { (limit : ℕ) (e : Event) (s : Books) → IsBalanced limit s → IsAllowed e s
        → IsBalanced limit (after limit e s) }
{}

/// Whatever the order in which seats look, claim, divide and join: the claims of all sum to the word, and their grants
/// to the lesser of the limit and the word. A seat whose room and claims are all that there is has them all.
pub fn every_schedule_balances()
    ensures claims { (limit : ℕ) (past : List Event) → WasAllowed limit past
        → claimed_by_all (left_by limit past) ≡ word_of (left_by limit past) }
    ensures grants { (limit : ℕ) (past : List Event) → WasAllowed limit past
        → granted_to_all (left_by limit past) ≡ min limit (word_of (left_by limit past)) }
    ensures whole { (limit : ℕ) (past : List Event) (seat : ℕ) → WasAllowed limit past
        → seat < length (left_by limit past).views → IsWhole (account_at (left_by limit past) seat)
        → HasAll limit (left_by limit past) (account_at (left_by limit past) seat) }
{}
