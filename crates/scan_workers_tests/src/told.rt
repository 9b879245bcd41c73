//! What a scan gives, as a text: the rows, each ` file.row=value`, or why it gives none.

use crate::files::{idle_files, manifest};
use crate::words::after;
use scan_caches::NoOpSegmentCache;
use scan_manifest::Manifest;
use scan_multi::{Gate, MemoryOpener, ScanChunk, ScanFile, scan_files};
use scan_segments::MemorySource;
use std::alloc::Global;
use std::process::Abort;
use std::string::String;
use std::thread::Threads;

fn push_rows(rt: &impl Abort, chunk: &ScanChunk, text: &mut String) {
    let file = chunk.file;
    for (i, row) in chunk.rows.as_slice().iter().enumerate() {
        if i >= chunk.values.len() {
            panic!(rt; "a row without a value");
        }
        let value = chunk.values.get(i);
        write!(text, " {file}.{row}={value}").expect(rt, "write");
    }
}

fn push_chunks(rt: &impl Abort, chunks: &[ScanChunk], text: &mut String) {
    for chunk in chunks {
        push_rows(rt, chunk, text);
    }
}

/// How many segments of each file were asked for: ` asked 3 0`.
fn push_asked(rt: &impl Abort, files: &[ScanFile<MemoryOpener, MemorySource>], text: &mut String) {
    text.push_str(" asked").expect(rt, "push_str");
    for file in files {
        let asked = file.source.asked().len();
        write!(text, " {asked}").expect(rt, "write");
    }
}

/// What a scan by so many workers gives that pass a gate, and, where the words say so, how much is asked of each file.
pub(crate) fn scanned<R: Abort + Threads + Sync, G: Gate>(
    rt: &R,
    alloc: Global,
    gate: &G,
    workers: usize,
    text: &str,
) -> String {
    let Manifest {
        dtype,
        files,
        request,
        ..
    } = manifest(rt, alloc, text);
    let mut files = idle_files(alloc, files).expect(rt, "idle_files");
    let mut cache = NoOpSegmentCache::new();
    let given = scan_files(
        rt, alloc, &dtype, &mut files, &mut cache, &request, workers, gate,
    );
    let mut told = String::new(alloc);
    match given {
        Ok(output) => push_chunks(rt, output.chunks.as_slice(), &mut told),
        Err(fault) => write!(told, " {fault:?}").expect(rt, "write"),
    }
    if !after(text, ' ', "and:").is_empty() {
        push_asked(rt, files.as_slice(), &mut told);
    }
    told
}
