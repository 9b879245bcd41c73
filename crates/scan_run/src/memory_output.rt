//! An output in memory, which tells what it took.
ghost use Rattle.std.specs.Prelude.{◌≡◌, ◌<◌, Some, length, []};
ghost use Rattle.scan_segments.specs.MemorySource.{stepped};
ghost use Rattle.scan_segments.specs.Outcomes.{outcome_of};
ghost use Rattle.scan_run.specs.Answers.{IsWritten};
ghost use Rattle.scan_run.specs.Memory.{IsWriteBy, state_after_write, memory_output};

use crate::memory_input::no_numbers;
use crate::output::{Output, OutputWrite};
use scan_segments::{Outcome, Script};
use scan_values::StrictSorted;
use std::alloc::Global;

/// An output into memory. Its writes are numbered from 0, and those of its script fail.
#[derive(Drop)]
pub struct MemoryOutput {
    pub bytes: Vec<u8>,
    pub script: Script,
    pub faults: u64,
    pub short: u64,
}

impl MemoryOutput {
    /// An output that took nothing yet, of which the numbered writes of `failing` fail.
    pub fn new(alloc: Global, failing: StrictSorted) -> Self
        ensures bytes { result.bytes.items ≡ [] }
        ensures script { result.script ≡ record { failing = failing; pending = []; next = Some 0 } }
        ensures counts { (result.faults ≡ 0) × (result.short ≡ 0) }
    {
        MemoryOutput {
            bytes: Vec::new(alloc),
            script: Script::new(failing, no_numbers(alloc)),
            faults: 0,
            short: 0,
        }
    }

    /// The bytes that it took.
    pub fn written(&self) -> &[u8]
        ensures { result.now ≡ self.now.bytes.items }
    {
        self.bytes.as_slice()
    }
}

impl Output for MemoryOutput {
    ghost output = { λ s. memory_output s.bytes.items s.script s.faults s.short };

    #[tactic(auto, using(crate::proofs::MemoryPieces::fails_able))]
    fn write_some(&mut self, bytes: &[u8]) -> OutputWrite
        requires { 0 < length bytes.now }
        ensures written { IsWritten bytes.now
            (memory_output self.old.bytes.items self.old.script self.old.faults self.old.short)
            (memory_output self.new.bytes.items self.new.script self.new.faults self.new.short) result }
        ensures answer { IsWriteBy (outcome_of self.old.script) (length bytes.now) result }
        ensures script { self.new.script ≡ stepped self.old.script }
        ensures after { memory_output self.new.bytes.items self.new.script self.new.faults self.new.short
            ≡ state_after_write bytes.now result
            (memory_output self.old.bytes.items self.old.script self.old.faults self.old.short) }
    {
        if let Outcome::Fails = self.script.step() {
            self.faults = self.faults.saturating_add(1);
            return OutputWrite::Failed;
        }
        match self.bytes.extend_from_slice(bytes) {
            Ok(()) => OutputWrite::Took(bytes.len()),
            Err(_) => {
                self.short = self.short.saturating_add(1);
                OutputWrite::NoMemory
            }
        }
    }
}
