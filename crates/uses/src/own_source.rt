//! A source of one's own: a table of segments, numbered from 0.
ghost use Rattle.std.specs.Prelude.{◌≡◌, ◌∷◌, [], IfOk};
ghost use Rattle.vortex_scan.specs.Words.{IsGiven, answer, given};
ghost use Rattle.uses.specs.Own.{AreOne, memory_opener, table_file, table_source};

use crate::never::never;
use std::alloc::Global;
use std::thread::Threads;
use vortex_scan::dtype::DType;
use vortex_scan::scan::ScanRequest;
use vortex_scan::scan::multi::{MemoryOpener, NoGate, ScanChunk, ScanFault, ScanFile, scan_files};
use vortex_scan::segments::{
    ByteBuffer, Fits, NoOpSegmentCache, Polled, Polls, Requests, SegmentId, SegmentSource,
    SegmentSourceId,
};
use vortex_scan::{LayoutRef, NoMemory};

/// Segments by their places in a table.
#[derive(Drop)]
struct TableSource {
    segments: Vec<ByteBuffer>,
    requests: Requests,
}

impl Fits for TableSource {
    ghost fits = { λ id bytes. Unit {0} };
}

impl Polls for TableSource {
    ghost polls = { λ s id t r. Unit {0} };
}

impl SegmentSource for TableSource {
    ghost use Rattle.uses.specs.Own.{table_state};

    ghost state = { λ s. table_state s.segments.items s.requests };

    fn request(&mut self, alloc: Global, id: SegmentId) -> Result<(), NoMemory> {
        self.requests.begin(id)?;
        Ok(())
    }

    fn poll_segment(&mut self, alloc: Global, id: SegmentId) -> Polled {
        let Some(found) = self.segments.as_slice().get(*id as usize) else {
            self.requests.end(id);
            return Polled::Missing;
        };
        let Ok(bytes) = found.try_clone() else {
            return Polled::NoMemory;
        };
        self.requests.end(id);
        Polled::Bytes(bytes)
    }

    fn drop_request(&mut self, id: SegmentId) {
        self.requests.end(id);
    }

    fn fault_count(&self) -> u64 {
        0
    }
}

/// The one file of a layout, whose segments stand in a table.
fn table(
    alloc: Global,
    layout: LayoutRef,
    segments: Vec<ByteBuffer>,
    source_id: SegmentSourceId,
) -> Result<Vec<ScanFile<MemoryOpener, TableSource>>, NoMemory>
    ensures { IfOk result (λ files.
        AreOne memory_opener table_source (table_file layout.value segments.items) files.items) }
{
    let opener = MemoryOpener::new(Some(layout), never(alloc), never(alloc));
    let requests = Requests::new(alloc);
    let source = TableSource { segments, requests };
    let mut files = Vec::new(alloc);
    files.push(ScanFile {
        opener,
        source,
        source_id,
    })?;
    Ok(files)
}

/// The rows that a request finds in one file whose segments stand in a table: those of the row-by-row answer over its
/// layout and that table, up to the limit. All objects here tell what they are, so nothing is asked of them.
#[tactic(none)]
pub fn rows_of_table<R: Threads + Sync>(
    rt: &R,
    alloc: Global,
    dtype: &DType,
    layout: LayoutRef,
    segments: Vec<ByteBuffer>,
    source_id: SegmentSourceId,
    request: &ScanRequest,
) -> Result<Vec<ScanChunk>, ScanFault>
    ensures { IfOk result (λ chunks. IsGiven request.now.ordered request.now.limit
        (answer dtype.now request.now (table_file layout.value segments.items ∷ [])) (given chunks.items)) }
{
    let mut files = table(alloc, layout, segments, source_id)?;
    let mut cache = NoOpSegmentCache::new();
    let output = scan_files(
        rt,
        alloc,
        dtype,
        &mut files,
        &mut cache,
        request,
        1,
        &NoGate::new(),
    )?;
    Ok(output.chunks)
}
