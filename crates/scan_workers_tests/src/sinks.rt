//! Scans whose rows are taken as they are given: what a sink has taken where it stops, or where the scan is refused.

use crate::files::{idle_files, manifest};
use crate::words::number;
use scan_caches::NoOpSegmentCache;
use scan_manifest::Manifest;
use scan_multi::{ChunkSink, ColumnChunk, Flow, MemoryOpener, NoGate, ScanFile, scan_into};
use scan_segments::MemorySource;
use scan_values::NoMemory;
use std::alloc::Global;
use std::process::Abort;
use std::string::String;
use std::thread::Threads;

/// Keeps chunks, and wants no more once it has so many.
#[derive(Drop)]
struct FirstChunks {
    chunks: Vec<ColumnChunk>,
    most: usize,
}

impl ChunkSink<ColumnChunk> for FirstChunks {
    ghost use Rattle.std.specs.Prelude.{◌≤◌, length};
    ghost use Rattle.scan_drive.specs.Taking.{Appends, appends_taking};

    ghost takes = { Appends (λ s. s.chunks.items) };

    ghost full = { λ s. s.most ≤ length s.chunks.items };

    ghost taking = { appends_taking (λ s. s.chunks.items) };

    fn take(&mut self, chunk: ColumnChunk) -> Result<Flow, NoMemory> {
        self.chunks.reserve(1)?;
        self.chunks.push_reserved(chunk);
        if self.chunks.len() >= self.most {
            return Ok(Flow::Stop);
        }
        Ok(Flow::More)
    }
}

/// Counts rows up to the greatest u64, and lets its chunks go.
#[derive(Drop)]
struct RowCount {
    rows: u64,
}

impl ChunkSink<ColumnChunk> for RowCount {
    ghost use Rattle.scan_workers_tests.specs.Counting.{Counts, counts_taking};

    ghost takes = { Counts (λ s. s.rows) };

    ghost full = { λ s. ⊥ };

    ghost taking = { counts_taking (λ s. s.rows) };

    fn take(&mut self, chunk: ColumnChunk) -> Result<Flow, NoMemory> {
        self.rows = self.rows.saturating_add(chunk.rows.len() as u64);
        Ok(Flow::More)
    }
}

/// How many files' openers were polled.
fn push_opened(rt: &impl Abort, files: &[ScanFile<MemoryOpener, MemorySource>], text: &mut String) {
    let mut polled: usize = 0;
    for file in files {
        if file.opener.polled() > 0 {
            polled = polled.saturating_add(1);
        }
    }
    write!(text, " {polled} opened;").expect(rt, "write")
}

fn push_places(rt: &impl Abort, chunks: &[ColumnChunk], text: &mut String) {
    for chunk in chunks {
        let file = chunk.file;
        for row in chunk.rows.as_slice() {
            write!(text, " {file}.{row}").expect(rt, "write");
        }
    }
}

/// How a scan by so many workers into a sink ends, and how many files' openers were polled.
fn taken<R: Abort + Threads + Sync, K: ChunkSink<ColumnChunk>>(
    rt: &R,
    alloc: Global,
    workers: usize,
    text: &str,
    sink: &mut K,
) -> String {
    let Manifest {
        dtype,
        files,
        request,
        ..
    } = manifest(rt, alloc, text);
    let mut files = idle_files(alloc, files).expect(rt, "idle_files");
    let mut cache = NoOpSegmentCache::new();
    let gate = NoGate::new();
    let end = scan_into(
        rt, alloc, &dtype, &mut files, &mut cache, &request, workers, &gate, sink,
    );
    let mut told = String::new(alloc);
    match end {
        Ok(end) => {
            let flow = end.flow;
            write!(told, " {flow:?}").expect(rt, "write")
        }
        Err(fault) => write!(told, " {fault:?}").expect(rt, "write"),
    }
    push_opened(rt, files.as_slice(), &mut told);
    told
}

/// The same, and which rows a sink has taken that wants so many chunks.
pub(crate) fn first<R: Abort + Threads + Sync>(
    rt: &R,
    alloc: Global,
    workers: usize,
    text: &str,
) -> String {
    let mut sink = FirstChunks {
        chunks: Vec::new(alloc),
        most: number(rt, text, ' ', "most:") as usize,
    };
    let mut told = taken(rt, alloc, workers, text, &mut sink);
    push_places(rt, sink.chunks.as_slice(), &mut told);
    told
}

/// The same, and how many rows a sink has counted that lets them go.
pub(crate) fn counted<R: Abort + Threads + Sync>(
    rt: &R,
    alloc: Global,
    workers: usize,
    text: &str,
) -> String {
    let mut sink = RowCount { rows: 0 };
    let mut told = taken(rt, alloc, workers, text, &mut sink);
    let rows = sink.rows;
    write!(told, " {rows} rows").expect(rt, "write");
    told
}
