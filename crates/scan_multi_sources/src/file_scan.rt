//! Scans of many files, which have their source. After the Rust's `scan::multi`.
ghost use Rattle.std.specs.Prelude.{◌≡◌, ◌<◌, ◌+◌, ◌∷◌, [], IfOk, MatchOption, drop, length, option_map, true};
ghost use Rattle.std.specs.List.{slice_get};
ghost use Rattle.scan_sources.specs.Requests.{request_dtype};
ghost use Rattle.scan_multi_sources.specs.Beginnings.{MayBegin};
ghost use Rattle.scan_multi_sources.specs.FileView.{slot_view, stage_view};
ghost use Rattle.scan_multi_sources.specs.MultiScans.{BeginsNext, IsMultiScan, MayKeep, PollsFile, delivered_at, files_left, has_room, is_turn, kept_at, left_out};
ghost use Rattle.scan_multi_sources.specs.Opens.{Moves};
ghost use Rattle.scan_multi_sources.specs.Polls.{FaultsBy, IsPolled, IsRest, PendingWaited};
ghost use Rattle.scan_multi_sources.specs.Starts.{StartsMulti};

use crate::loan::GivesBack;
use crate::numbers::PartitionNumbers;
use crate::scan::{PartitionPoll, Step};
use crate::slot::{Slot, Stage, copy_at};
use crate::source::MultiLayoutDataSource;
use crate::start::ScanStart;
use scan_opener::{LayoutReaderFactory, Opening};
use scan_sources::{BoundScanRequest, Precision, SharedLimit};
use scan_values::{DType, NoMemory};
use std::alloc::Global;
use std::collections::VecDeque;
use std::marker::Model;

/// A scan of many files that has its source. Contracts see the source, what is asked, the files that were begun, the places
/// of the others, the seat of a limit that partitions share, and how many were delivered.
#[derive(Drop)]
pub struct FileScan<O> {
    pub(crate) source: MultiLayoutDataSource<O>,
    pub(crate) request: BoundScanRequest,
    pub(crate) numbers: PartitionNumbers,
    pub(crate) window: Vec<Slot>,
    pub(crate) waiting: VecDeque<usize>,
    pub(crate) row_limit: Option<SharedLimit>,
    pub(crate) given_rows: u64,
    pub(crate) delivered: usize,
}

impl<O> Model for FileScan<O> {
    ghost use Rattle.std.specs.Prelude.{map};
    ghost use Rattle.scan_multi_sources.specs.FileView.{slot_view};
    ghost use Rattle.scan_multi_sources.specs.MultiScans.{IsMultiScan, MultiScan, multi_scan, multi_scan_code};

    ghost Value = { MultiScan O };

    ghost coded = { multi_scan_code O.code };

    ghost view = { λ a. multi_scan a.source a.request a.numbers (map slot_view a.window.items) a.waiting.items
        a.row_limit a.given_rows a.delivered };

    ghost invariant = { λ a. IsMultiScan (multi_scan a.source a.request a.numbers (map slot_view a.window.items)
        a.waiting.items a.row_limit a.given_rows a.delivered) };
}

impl<O: Drop> FileScan<O> {
    /// A scan of which nothing was begun.
    pub(crate) fn new(alloc: Global, source: MultiLayoutDataSource<O>, start: ScanStart) -> Self
        requires { MayBegin source start }
        ensures { StartsMulti source start.request start.numbers result }
    {
        let ScanStart {
            request,
            numbers,
            waiting,
            row_limit,
        } = start;
        FileScan {
            source,
            request,
            numbers,
            window: Vec::new(alloc),
            waiting,
            row_limit,
            given_rows: 0,
            delivered: 0,
        }
    }
}

impl<O: Drop> GivesBack<O> for FileScan<O> {
    ghost source = { λ s. s.source };

    fn into_source(self) -> MultiLayoutDataSource<O> {
        let FileScan { source, .. } = self;
        source
    }
}

impl<O: LayoutReaderFactory + Drop> FileScan<O> {
    /// The dtype of the projection.
    pub(crate) fn dtype(&self) -> &DType
        ensures { result.now ≡ request_dtype self.now.request }
    {
        self.request.dtype()
    }

    /// How many files are left: exactly none at its end, else at most those that are neither delivered nor skipped.
    pub(crate) fn partition_count(&self) -> Precision<usize>
        ensures { result ≡ files_left self.now }
    {
        let left = self.window.len() + self.waiting.len();
        if left == 0 {
            return Precision::Exact(0);
        }
        Precision::Inexact(left)
    }

    /// The next file, or why there is none yet or any more.
    pub(crate) fn poll_partition(&mut self, alloc: Global) -> PartitionPoll
        ensures polled { IsPolled O.opener self.old self.new result }
        ensures waited { PendingWaited O.opener self.old self.new result }
        ensures faults { FaultsBy O.opener self.old self.new result }
        ensures moves { Moves O.opener self.old.source.children self.new.source.children }
    {
        let _ordered = self.is_ordered();
        let mut at = 0;
        'steps: loop {
            match self.step(alloc, at) {
                Step::Next(next) => at = next,
                Step::Answer(answer) => return answer,
            }
        }
    }

    /// Whether files come as they are listed.
    fn is_ordered(&self) -> bool
        ensures ordered { result ≡ self.now.request.ordered }
        ensures stands { IsMultiScan self.now }
    {
        self.request.ordered
    }

    /// Whether the file that was begun at an index may be delivered: in an ordered scan the first alone.
    pub(crate) fn is_turn(&self, at: usize) -> bool
        ensures { result ≡ is_turn self.now at }
    {
        !self.request.ordered | (at == 0)
    }

    /// Whether fewer files than so many are begun.
    pub(crate) fn has_room(&self) -> bool
        ensures room { result ≡ has_room self.now }
        ensures some { 0 < self.now.source.concurrency }
    {
        self.window.len() < self.source.concurrency()
    }

    /// A copy of the file that was begun at an index, where there is one.
    pub(crate) fn slot_at(&self, at: usize) -> Result<Option<Slot>, NoMemory>
        ensures { IfOk result (λ s. option_map slot_view s ≡ slice_get self.now.window at) }
    {
        copy_at(&self.window, at)
    }

    /// Begins the next file, where there is one.
    pub(crate) fn begin_next(&mut self) -> Result<bool, NoMemory>
        requires { has_room self.old ≡ true }
        ensures { BeginsNext self.old self.new result }
    {
        let Some(place) = first_of(&self.waiting) else {
            return Ok(false);
        };
        self.window.push(Slot {
            place,
            stage: Stage::Opening,
        })?;
        self.waiting.pop_front();
        Ok(true)
    }

    /// What is answered where no file is left to begin: that some wait, or the end.
    pub(crate) fn rest(&self) -> PartitionPoll
        ensures { IsRest self.now result }
    {
        if self.window.is_empty() {
            PartitionPoll::End
        } else {
            PartitionPoll::Pending
        }
    }

    /// The index behind that of a file that was begun.
    pub(crate) fn after(&self, at: usize) -> usize
        requires { at < length self.now.window }
        ensures { result ≡ at + 1 }
    {
        let _begun = self.window.len();
        at + 1
    }

    /// Keeps a file that was begun at an index at this stage.
    pub(crate) fn keep(&mut self, at: usize, place: usize, stage: Stage)
        requires within { at < length self.old.window }
        requires kept { MayKeep self.old (stage_view stage) }
        ensures { self.new ≡ kept_at self.old at place (stage_view stage) }
    {
        self.window[at] = Slot { place, stage };
    }

    /// Leaves out a file that is skipped.
    pub(crate) fn leave_out(&mut self, at: usize)
        requires { at < length self.old.window }
        ensures { self.new ≡ left_out self.old at }
    {
        let _skipped = self.window.remove(at);
    }

    /// Counts a file as delivered.
    pub(crate) fn deliver(&mut self, at: usize)
        requires { at < length self.old.window }
        ensures { self.new ≡ delivered_at self.old at }
    {
        let _delivered = self.window.remove(at);
        self.delivered += 1;
    }

    /// One poll of the opener of the file at a place.
    pub(crate) fn poll_file(&mut self, alloc: Global, place: usize) -> Opening
        ensures { PollsFile O.opener self.old self.new place result }
    {
        self.source.poll_file(alloc, place)
    }
}

/// The first of places, where there is one.
fn first_of(places: &VecDeque<usize>) -> Option<usize>
    ensures { MatchOption result (places.now.items ≡ []) (λ p. places.now.items ≡ p ∷ drop 1 places.now.items) }
{
    match places.front() {
        Some(place) => Some(*place),
        None => None,
    }
}
