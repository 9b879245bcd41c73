//! Streams of the arrays of scans that are set up. After the Rust's `scan::repeated_scan`.
ghost use Rattle.std.specs.Prelude.{◌≡◌, IfOk};
ghost use Rattle.scan_segments.specs.Source.{none_live};
ghost use Rattle.scan_core.specs.LazyData.{IsIterOf};
ghost use Rattle.scan_core.specs.Setup.{Refuses, range_fault};
ghost use Rattle.scan_streams.specs.Grants.{HasRoom};
ghost use Rattle.scan_streams.specs.Splits.{reach};
ghost use Rattle.scan_core.specs.Streaming.{IsStreamOf};

use crate::repeated::RepeatedScan;
use scan_segments::SegmentSource;
use scan_streams::{ArrayIter, Identity, ScanStream, SetupFault};
use std::alloc::Global;
use std::ops::Range;

impl<E: Drop> RepeatedScan<Identity<E>> {
    /// A stream of the arrays of the splits within a range of rows, or within all, by `execute_stream`.
    ///
    /// # Errors
    /// `RowRange` exactly where the range is reversed or its end passes the row count. Else `NoMemory` alone.
    pub fn execute_array_stream(
        &mut self,
        alloc: Global,
        row_range: Option<Range<u64>>,
    ) -> Result<ScanStream<Identity<E>>, SetupFault>
        ensures stream { IfOk result (λ t. IsStreamOf self.old row_range t) }
        ensures room { IfOk result (λ t. HasRoom (t.feed).seat (reach (t.feed).splits)) }
        ensures fault { Refuses result (range_fault row_range self.old.rows) }
        ensures same { self.new ≡ self.old }
    {
        self.execute_stream(alloc, row_range)
    }

    /// These arrays over a source of its own that has no live request.
    ///
    /// # Errors
    /// `RowRange` exactly where the range is reversed or its end passes the row count. Else `NoMemory` alone.
    pub fn execute_array_iter<S: SegmentSource + Drop>(
        &mut self,
        alloc: Global,
        row_range: Option<Range<u64>>,
        source: S,
    ) -> Result<ArrayIter<Identity<E>, S>, SetupFault>
        requires idle { (S.state source).live ≡ none_live }
        ensures iter { IfOk result (λ i. IsIterOf self.old row_range source i) }
        ensures room { IfOk result (λ i. HasRoom ((i.stream).feed).seat (reach ((i.stream).feed).splits)) }
        ensures fault { Refuses result (range_fault row_range self.old.rows) }
        ensures same { self.new ≡ self.old }
    {
        match self.execute_stream(alloc, row_range) {
            Ok(stream) => Ok(ArrayIter::new(stream, source)),
            Err(fault) => Err(fault),
        }
    }
}
