//! Chunks that are given and wait to be taken.
ghost use Rattle.std.specs.Prelude.{◌≡◌, ◌∷◌, ◌++◌, [], OnOk, MatchOption};

use scan_values::NoMemory;
use std::alloc::Global;
use std::collections::VecDeque;
use std::marker::Model;

/// Chunks that wait to be taken, the first one first. Contracts see the list of them.
#[derive(Drop)]
pub struct Outbox<C> {
    waiting: VecDeque<C>,
}

impl<C> Model for Outbox<C> {
    ghost use Rattle.scan_drive.specs.Outgoing.{Outgoing, outgoing_code};

    ghost Value = { Outgoing C };

    ghost coded = { outgoing_code C.code };

    ghost view = { λ a. record { items = a.waiting.items } };
}

impl<C: Drop> Outbox<C> {
    /// None waits.
    pub fn new(alloc: Global) -> Outbox<C>
        ensures { result.items ≡ [] }
    {
        Outbox {
            waiting: VecDeque::new(alloc),
        }
    }

    /// One more waits, behind the others.
    pub fn push(&mut self, chunk: C) -> Result<(), NoMemory>
        ensures { OnOk result (self.new.items ≡ self.old.items ++ chunk ∷ []) }
    {
        self.waiting.push_back(chunk)?;
        Ok(())
    }

    /// Takes the first one out.
    pub fn pop(&mut self) -> Option<C>
        ensures { MatchOption result ((self.old.items ≡ []) × (self.new.items ≡ [])) (λ c. self.old.items ≡ c ∷
            self.new.items) }
    {
        self.waiting.pop_front()
    }
}
