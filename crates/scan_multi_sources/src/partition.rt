//! Partitions of scans of many files: each is one file. After the Rust's `scan::multi`.
ghost use Rattle.std.specs.Prelude.{◌≡◌, IfOk, None};
ghost use Rattle.scan_core.specs.Setup.{Refuses};
ghost use Rattle.scan_streams.specs.Grants.{HasRoom};
ghost use Rattle.scan_streams.specs.Splits.{reach};
ghost use Rattle.scan_sources.specs.Splits.{IsStreamOfSplit};
ghost use Rattle.scan_multi_sources.specs.Partitions.{bytes_known, partition_data, partition_rows};

use scan_core::{Identity, ScanStream, SetupFault};
use scan_sources::{LayoutReaderSplit, Precision, estimate};
use std::alloc::Global;
use std::marker::Model;

/// A file of a scan, to be executed by itself. Contracts see the part that is all of it that is asked for, its number, its
/// place, and the number of bytes that was handed in.
#[derive(Drop)]
pub struct MultiLayoutPartition {
    split: LayoutReaderSplit,
    index: usize,
    child: usize,
    byte_size: Option<u64>,
}

impl Model for MultiLayoutPartition {
    ghost use Rattle.scan_multi_sources.specs.Partitions.{PartitionData, partition_code, partition_data};

    ghost Value = { PartitionData };

    ghost coded = { partition_code };

    ghost view = { λ a. partition_data a.split a.index a.child a.byte_size };
}

impl MultiLayoutPartition {
    /// A file of a scan, by its number and its place.
    pub(crate) fn new(
        split: LayoutReaderSplit,
        index: usize,
        child: usize,
        byte_size: Option<u64>,
    ) -> MultiLayoutPartition
        ensures { result ≡ partition_data split index child byte_size }
    {
        MultiLayoutPartition {
            split,
            index,
            child,
            byte_size,
        }
    }

    /// Its number among the files that were delivered and the faults, from 0 on. Skipped files have none.
    pub fn index(&self) -> usize
        ensures { result ≡ self.now.index }
    {
        self.index
    }

    /// The place of its file among those of the source. An own call.
    pub fn child(&self) -> usize
        ensures { result ≡ self.now.child }
    {
        self.child
    }

    /// The number of its selected rows, up to its limit. It is exact where there is neither a filter nor a shared limit.
    pub fn row_count(&self) -> Precision<u64>
        ensures { result ≡ partition_rows self.now }
    {
        let known = self.split.has_filter() | self.split.is_shared();
        estimate(known, self.split.selected_count())
    }

    /// The number of bytes that was handed in for its file.
    pub fn byte_size(&self) -> Precision<u64>
        ensures { result ≡ bytes_known self.now.bytes }
    {
        match self.byte_size {
            Some(bytes) => Precision::Exact(bytes),
            None => Precision::Absent,
        }
    }

    /// A stream of its rows: of the selected ones of the request's range at which the filter is true, up to its limit.
    /// Nothing is read before the stream is polled.
    ///
    /// # Errors
    /// `NoMemory` alone.
    pub fn execute(self, alloc: Global) -> Result<ScanStream<Identity<()>>, SetupFault>
        ensures stream { IfOk result (λ t. IsStreamOfSplit self.split t) }
        ensures room { IfOk result (λ t. HasRoom (t.feed).seat (reach (t.feed).splits)) }
        ensures fault { Refuses result None }
    {
        self.split.execute(alloc)
    }
}
