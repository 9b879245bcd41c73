// The rule of the budget's word, and what each kind of step does to the accounts of the seats.
ghost use Rattle.std.specs.Prelude.{ℕ};

use atomic_table::{Join, Play, Split, TableRule};
use std::marker::{Brand, PhantomData};

/// What a seat knows: the limit, the rows that it may still claim, those that it claimed, and those it was granted.
/// It is seen by proofs alone, and no value of it is made.
pub struct Account {
    pub limit: u64,
    pub room: u64,
    pub claimed: u64,
    pub granted: u64,
}

/// The claims of all seats sum to the word, and their grants to the lesser of the limit and the word.
pub struct Balance;

impl TableRule<(), Account, u64> for Balance {
    ghost use Rattle.scan_limit.specs.Budget.{IsBalanced, first_account};

    ghost holds = { IsBalanced };

    ghost first = { first_account };
}

/// Rows are added to the word.
pub struct Claim;

impl Play<(), Account> for Claim {
    ghost use Rattle.scan_limit.specs.Budget.{Claims};

    ghost then = { Claims };
}

/// The word is read.
pub struct Look;

impl Play<(), Account> for Look {
    ghost use Rattle.scan_limit.specs.Budget.{Looks};

    ghost then = { Looks };
}

/// How much room goes to a new seat. Each call picks it.
pub trait Amount {
    ghost amount: { ℕ };
}

impl Amount for Brand {
    ghost amount = { 0 };
}

/// So much of a seat's room goes to a new seat.
pub struct Part<A: Amount> {
    of: PhantomData<A>,
}

impl<A: Amount> Split<Account> for Part<A> {
    ghost use Rattle.scan_limit.specs.Budget.{with_less_room, with_room};

    ghost left = { with_less_room A.amount };

    ghost right = { with_room A.amount };
}

/// One seat takes over the account of another.
pub struct Sum;

impl Join<Account> for Sum {
    ghost use Rattle.scan_limit.specs.Budget.{both_accounts, spent};

    ghost both = { both_accounts };

    ghost spent = { spent };
}
