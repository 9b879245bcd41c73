//! Which of an object's numbered calls fail, and which are pending.
ghost use Rattle.std.specs.Prelude.{◌≡◌, ◌<◌, ◌≤◌, List, ℕ, OnSome};
ghost use Rattle.scan_segments.specs.Script.{ScriptState, turns_left, number_after};
ghost use Rattle.scan_segments.specs.Outcomes.{outcome_of};

use scan_values::StrictSorted;
use std::marker::Model;

/// What happens to a call: it does its work, is pending, or fails.
#[derive(Clone, Copy, Debug, PartialEq, Eq)]
pub enum Outcome {
    Goes,
    Waits,
    Fails,
}

/// The numbers of the calls that fail and of those that are pending, and the number of the next call. Past the
/// greatest u64 a call has no number, and neither fails nor is pending.
#[derive(Drop)]
pub struct Script {
    failing: StrictSorted,
    pending: StrictSorted,
    next: Option<u64>,
}

impl Model for Script {
    ghost use Rattle.scan_segments.specs.Script.{ScriptState};

    ghost Value = { ScriptState };

    ghost view = { λ a. record { failing = a.failing; pending = a.pending; next = a.next } };
}

impl Script {
    /// A script whose next call has the number 0.
    pub fn new(failing: StrictSorted, pending: StrictSorted) -> Self
        ensures { result ≡ record { failing = failing; pending = pending; next = Some 0 } }
    {
        Script {
            failing,
            pending,
            next: Some(0),
        }
    }

    /// The outcome of the next call, which then has its number. A call that fails is not pending.
    #[tactic(auto, using(crate::proofs::Counts::left_steps))]
    pub fn step(&mut self) -> Outcome
        ensures outcome { result ≡ outcome_of self.old }
        ensures after { self.new ≡ record self.old { next = number_after self.old.next } }
        ensures turns { turns_left self.new ≤ turns_left self.old }
        ensures waits { result ≡ Outcome.Waits → turns_left self.new < turns_left self.old }
    {
        let number = self.next;
        self.next = next_number(number);
        let Some(k) = number else {
            return Outcome::Goes;
        };
        if self.failing.contains(k) {
            return Outcome::Fails;
        }
        if self.pending.contains(k) {
            return Outcome::Waits;
        }
        Outcome::Goes
    }
}

fn next_number(number: Option<u64>) -> Option<u64>
    ensures { result ≡ number_after number }
{
    match number {
        None => None,
        Some(k) => { if k < u64::MAX { Some(k + 1) } else { None } }
    }
}
