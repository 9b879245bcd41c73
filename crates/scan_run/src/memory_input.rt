//! An input in memory, which tells its bytes.
ghost use Rattle.std.specs.Prelude.{◌≡◌, ◌<◌, Some, drop, length, []};
ghost use Rattle.scan_segments.specs.MemorySource.{stepped};
ghost use Rattle.scan_segments.specs.Outcomes.{outcome_of};
ghost use Rattle.scan_run.specs.Answers.{IsRead};
ghost use Rattle.scan_run.specs.Memory.{read_by, buffer_after, state_after_read, memory_input};

use crate::input::{Input, InputRead};
use scan_segments::{Outcome, Script};
use scan_values::StrictSorted;
use std::alloc::Global;

/// An input of bytes in memory. Its reads are numbered from 0, and those of its script fail.
#[derive(Drop)]
pub struct MemoryInput {
    pub bytes: Vec<u8>,
    pub at: usize,
    pub script: Script,
    pub taken: u64,
    pub ends: u64,
    pub faults: u64,
}

impl MemoryInput {
    /// An input of these bytes, of which the numbered reads of `failing` fail.
    pub fn new(alloc: Global, bytes: Vec<u8>, failing: StrictSorted) -> Self
        ensures bytes { drop result.at result.bytes.items ≡ bytes.items }
        ensures script { result.script ≡ record { failing = failing; pending = []; next = Some 0 } }
        ensures counts { (result.taken ≡ 0) × (result.ends ≡ 0) × (result.faults ≡ 0) }
    {
        MemoryInput {
            bytes,
            at: 0,
            script: Script::new(failing, no_numbers(alloc)),
            taken: 0,
            ends: 0,
            faults: 0,
        }
    }
}

/// No numbers of calls.
pub(crate) fn no_numbers(alloc: Global) -> StrictSorted
    ensures { result ≡ [] }
{
    StrictSorted::try_new(Vec::new(alloc)).unwrap()
}

impl Input for MemoryInput {
    ghost input = { λ s. memory_input s.bytes.items s.script s.at s.taken s.ends s.faults };

    #[tactic(auto, using(crate::proofs::MemoryPieces::fails_able))]
    fn read_some(&mut self, buf: &mut [u8]) -> InputRead
        requires { 0 < length buf.old }
        ensures read { IsRead
            (memory_input self.old.bytes.items self.old.script self.old.at self.old.taken self.old.ends
            self.old.faults)
            (memory_input self.new.bytes.items self.new.script self.new.at self.new.taken self.new.ends
            self.new.faults) buf.new result }
        ensures answer { result
            ≡ read_by (outcome_of self.old.script) (length buf.old) (drop self.old.at self.old.bytes.items) }
        ensures buffer { buf.new ≡ buffer_after result (drop self.old.at self.old.bytes.items) buf.old }
        ensures script { self.new.script ≡ stepped self.old.script }
        ensures after { memory_input self.new.bytes.items self.new.script self.new.at self.new.taken self.new.ends
            self.new.faults
            ≡ state_after_read result
            (memory_input self.old.bytes.items self.old.script self.old.at self.old.taken self.old.ends
            self.old.faults) }
    {
        if let Outcome::Fails = self.script.step() {
            self.faults = self.faults.saturating_add(1);
            return InputRead::Failed;
        }
        if self.at >= self.bytes.len() {
            self.ends = self.ends.saturating_add(1);
            return InputRead::End;
        }
        let left = self.bytes.len() - self.at;
        let n = left.min(buf.len());
        buf[..n].copy_from_slice(&self.bytes[self.at..self.at + n]);
        self.at += n;
        self.taken = self.taken.saturating_add(n as u64);
        InputRead::Bytes(n)
    }
}
