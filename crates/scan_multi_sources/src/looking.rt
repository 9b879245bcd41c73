//! What comes of looking at a file of a scan. After the Rust's `scan::multi`, where files are futures.
ghost use Rattle.std.specs.Prelude.{◌≡◌, ◌≤◌, ◌<◌, Some, length};
ghost use Rattle.std.specs.List.{slice_get};
ghost use Rattle.scan_multi_sources.specs.FileView.{slot_view};
ghost use Rattle.scan_multi_sources.specs.Files.{opening, slot_data};
ghost use Rattle.scan_multi_sources.specs.Opens.{fails, found};
ghost use Rattle.scan_multi_sources.specs.Polls.{ComesTo, IsStep, LooksAt};
ghost use Rattle.scan_multi_sources.specs.declared.fault.MultiFault.TheVariants as fault;
ghost use Rattle.scan_multi_sources.specs.declared.scan.PartitionPoll.TheVariants as poll;
ghost use Rattle.scan_multi_sources.specs.declared.scan.Step.TheVariants as step;

use crate::fault::MultiFault;
use crate::file_scan::FileScan;
use crate::scan::{PartitionPoll, Step};
use crate::slot::{Slot, Stage};
use scan_layout::LayoutRef;
use scan_opener::{LayoutReaderFactory, Opening};
use std::alloc::Global;

/// Want of memory, as a step.
fn short() -> Step
    ensures { result ≡ step.Answer (poll.Fault fault.NoMemory) }
{
    Step::Answer(PartitionPoll::Fault(MultiFault::NoMemory))
}

impl<O: LayoutReaderFactory + Drop> FileScan<O> {
    /// Looks at the file that was begun at an index, or behind the last begins the next.
    pub(crate) fn step(&mut self, alloc: Global, at: usize) -> Step
        requires { LooksAt self.old at }
        ensures { IsStep O.opener self.old self.new at result }
    {
        match self.slot_at(at) {
            Ok(Some(slot)) => self.look(alloc, at, slot),
            Ok(None) => self.begin(at),
            Err(_) => short(),
        }
    }

    /// Begins the next file, where fewer than so many are.
    fn begin(&mut self, at: usize) -> Step
        requires past { length self.old.window ≤ at }
        requires before { LooksAt self.old at }
        ensures { IsStep O.opener self.old self.new at result }
    {
        if !self.has_room() {
            return Step::Answer(PartitionPoll::Pending);
        }
        match self.begin_next() {
            Ok(true) => Step::Next(at),
            Ok(false) => Step::Answer(self.rest()),
            Err(_) => short(),
        }
    }

    /// Looks at a file that was begun: what comes of its opener, or what was kept.
    fn look(&mut self, alloc: Global, at: usize, slot: Slot) -> Step
        requires slot { slice_get self.old.window at ≡ Some (slot_view slot) }
        requires before { LooksAt self.old at }
        ensures { IsStep O.opener self.old self.new at result }
    {
        let Slot { place, stage } = slot;
        match stage {
            Stage::Opening => self.open(alloc, at, place),
            Stage::Opened(layout) => self.found(alloc, at, place, layout),
            Stage::Failed => self.fail(at, place),
        }
    }

    /// Polls the opener of a file.
    fn open(&mut self, alloc: Global, at: usize, place: usize) -> Step
        requires slot { slice_get self.old.window at ≡ Some (slot_data place opening) }
        requires before { LooksAt self.old at }
        ensures { IsStep O.opener self.old self.new at result }
    {
        match self.poll_file(alloc, place) {
            Opening::Pending => Step::Next(self.after(at)),
            Opening::Opened(layout) => self.found(alloc, at, place, layout),
            Opening::Skipped => {
                self.leave_out(at);
                Step::Next(at)
            }
            Opening::Failed => self.fail(at, place),
            Opening::NoMemory => short(),
        }
    }

    /// A failure of an opener: it is told in its turn.
    fn fail(&mut self, at: usize, place: usize) -> Step
        requires { at < length self.old.window }
        ensures { ComesTo self.old self.new at place fails result }
    {
        if self.is_turn(at) {
            self.deliver(at);
            return Step::Answer(PartitionPoll::Fault(MultiFault::Opener(place)));
        }
        let next = self.after(at);
        self.keep(at, place, Stage::Failed);
        Step::Next(next)
    }

    /// The layout of a file: it is delivered in its turn.
    fn found(&mut self, alloc: Global, at: usize, place: usize, layout: LayoutRef) -> Step
        requires { at < length self.old.window }
        ensures { ComesTo self.old self.new at place (found layout.value) result }
    {
        if !self.is_turn(at) {
            let next = self.after(at);
            self.keep(at, place, Stage::Opened(layout));
            return Step::Next(next);
        }
        match self.partition(alloc, place, &layout) {
            Ok(Some(partition)) => {
                self.deliver(at);
                Step::Answer(PartitionPoll::Partition(partition))
            }
            Ok(None) => {
                self.deliver(at);
                Step::Next(at)
            }
            Err(MultiFault::NoMemory) => {
                self.keep(at, place, Stage::Opened(layout));
                short()
            }
            Err(fault) => {
                self.deliver(at);
                Step::Answer(PartitionPoll::Fault(fault))
            }
        }
    }
}
