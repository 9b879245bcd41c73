//! Scans of many files. After the Rust's `scan::multi`.
ghost use Rattle.std.specs.Prelude.{◌≡◌};
ghost use Rattle.scan_sources.specs.Requests.{request_dtype};
ghost use Rattle.scan_multi_sources.specs.Beginnings.{MayBegin};
ghost use Rattle.scan_multi_sources.specs.MultiScans.{files_left};
ghost use Rattle.scan_multi_sources.specs.Opens.{Moves};
ghost use Rattle.scan_multi_sources.specs.Polls.{FaultsBy, IsPolled, PendingWaited};
ghost use Rattle.scan_multi_sources.specs.Starts.{StartsMulti};

use crate::fault::MultiFault;
use crate::file_scan::FileScan;
use crate::loan::LentSource;
use crate::partition::MultiLayoutPartition;
use crate::source::MultiLayoutDataSource;
use crate::start::ScanStart;
use scan_opener::LayoutReaderFactory;
use scan_sources::Precision;
use scan_values::DType;
use std::alloc::Global;

/// What a poll of a scan of many files answers.
#[derive(Drop)]
pub enum PartitionPoll {
    /// An opener put off its answer.
    Pending,
    /// The next file.
    Partition(MultiLayoutPartition),
    /// No file is left to open or deliver.
    End,
    Fault(MultiFault),
}

/// What comes of a step of a poll.
#[derive(Drop)]
pub(crate) enum Step {
    /// The file that was begun at this index is looked at next.
    Next(usize),
    /// The poll answers.
    Answer(PartitionPoll),
}

/// A scan of many files, of which each is one partition.
pub type MultiLayoutScan<'s, O> = LentSource<'s, O, FileScan<O>>;

impl<'s, O: Drop> LentSource<'s, O, FileScan<O>> {
    /// A scan of which nothing was begun.
    pub(crate) fn new(
        alloc: Global,
        source: &'s mut MultiLayoutDataSource<O>,
        start: ScanStart,
    ) -> MultiLayoutScan<'s, O>
        requires { MayBegin source.old start }
        ensures same_reference { result.source.ghost_name ≡ source.entry.ghost_name }
        ensures starts { StartsMulti source.old start.request start.numbers result.files }
    {
        let taken = source.take(alloc);
        LentSource {
            source,
            files: FileScan::new(alloc, taken, start),
        }
    }
}

impl<'s, O: LayoutReaderFactory + Drop> LentSource<'s, O, FileScan<O>> {
    /// The dtype of the projection.
    pub fn dtype(&self) -> &DType
        ensures { result.now ≡ request_dtype self.now.files.request }
    {
        self.files.dtype()
    }

    /// How many files are left: exactly none at its end, else at most those that are neither delivered nor skipped.
    pub fn partition_count(&self) -> Precision<usize>
        ensures { result ≡ files_left self.now.files }
    {
        self.files.partition_count()
    }

    /// The next file, or why there is none yet or any more. Files that were handed in opened come first, then the others:
    /// in an ordered scan as they are listed, else as they open. Delivered files and faults other than want of memory are
    /// numbered from 0; a skipped file is not. A file whose number lies outside the request's partitions gives nothing.
    pub fn poll_partition(&mut self, alloc: Global) -> PartitionPoll
        ensures same_reference { self.new.source.ghost_name ≡ self.old.source.ghost_name }
        ensures polled { IsPolled O.opener self.old.files self.new.files result }
        ensures waited { PendingWaited O.opener self.old.files self.new.files result }
        ensures faults { FaultsBy O.opener self.old.files self.new.files result }
        ensures moves { Moves O.opener self.old.files.source.children self.new.files.source.children }
    {
        self.files.poll_partition(alloc)
    }
}
