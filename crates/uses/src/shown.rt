//! An engine that shows rows as they come, and stops once it has enough.
ghost use Rattle.std.specs.Prelude.{◌≡◌, ◌≤◌, All, IfOk, take};
ghost use Rattle.vortex_scan.specs.Words.{IsIdle, IsLawful, answer, given, told};
ghost use Rattle.uses.specs.Uses.{all_of};

use std::alloc::Global;
use std::thread::Threads;
use vortex_scan::NoMemory;
use vortex_scan::dtype::DType;
use vortex_scan::expr::Expression;
use vortex_scan::scan::ScanRequest;
use vortex_scan::scan::multi::{
    ChunkSink, ColumnChunk, Flow, LayoutReaderFactory, NoGate, ScanFault, ScanFile, scan_into,
};
use vortex_scan::segments::{KeyedSegmentCache, SegmentSource};

/// Keeps chunks until they have so many rows together, which it counts up to the greatest u64.
#[derive(Drop)]
struct FirstRows {
    chunks: Vec<ColumnChunk>,
    rows: u64,
    most: u64,
}

impl ChunkSink<ColumnChunk> for FirstRows {
    ghost use Rattle.uses.specs.Shows.{Shows, shows_taking};

    ghost takes = { Shows (λ s. s.chunks.items) (λ s. s.rows) (λ s. s.most) };

    ghost full = { λ s. s.most ≤ s.rows };

    ghost taking = { shows_taking (λ s. s.chunks.items) (λ s. s.rows) (λ s. s.most) };

    fn take(&mut self, chunk: ColumnChunk) -> Result<Flow, NoMemory> {
        self.chunks.reserve(1)?;
        self.rows = self.rows.saturating_add(chunk.rows.len() as u64);
        self.chunks.push_reserved(chunk);
        if self.rows >= self.most {
            return Ok(Flow::Stop);
        }
        Ok(Flow::More)
    }
}

/// Chunks that begin with the first rows of files, at least so many where there are as many: over lawful objects
/// their first rows are those of the row-by-row answer, each with its place and its value. Nothing is read behind
/// what is shown, but for what one worker reads at once.
#[tactic(none)]
pub fn shown_rows<
    R: Threads + Sync,
    O: LayoutReaderFactory + Drop,
    S: SegmentSource + Drop,
    C: KeyedSegmentCache,
>(
    rt: &R,
    alloc: Global,
    dtype: &DType,
    files: &mut Vec<ScanFile<O, S>>,
    cache: &mut C,
    projection: Expression,
    most: u64,
) -> Result<Vec<ColumnChunk>, ScanFault>
    requires { All (IsIdle O.opener S.state) files.old.items }
    ensures first { IfOk result (λ chunks. IsLawful O.opener S.state files.old.items (C.cache cache.old) →
        take most (given chunks.items) ≡ take most
        (answer dtype.now (all_of projection) (told O.opener S.state files.old.items))) }
    ensures idle { All (IsIdle O.opener S.state) files.new.items }
    ensures lawful { IsLawful O.opener S.state files.old.items (C.cache cache.old) →
        IsLawful O.opener S.state files.new.items (C.cache cache.new) }
{
    let request = ScanRequest::new(projection);
    let gate = NoGate::new();
    let mut shown = FirstRows {
        chunks: Vec::new(alloc),
        rows: 0,
        most,
    };
    let _end = scan_into(
        rt, alloc, dtype, files, cache, &request, 1, &gate, &mut shown,
    )?;
    Ok(shown.chunks)
}
