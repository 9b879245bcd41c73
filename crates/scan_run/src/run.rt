//! The program's run, over any input and output.
ghost use Rattle.std.specs.Prelude.{◌≡◌, ◌≢◌, ◌⊎◌, ◌↔◌, ◌<◌, ◌≤◌, ◌+◌, [], ◌∷◌, List, length, map, string_bytes, false, true, IfOk, IfErr, Some, None, if◌then◌else◌};
ghost use Rattle.scan_segments.specs.Cache.{empty_cache};
ghost use Rattle.scan_caches.specs.Bounded.{bounded, keyed_state};
ghost use Rattle.scan_opener.specs.Opener.{skip, layout_of};
ghost use Rattle.scan_opener.specs.OpenerMemory.{given_of};
ghost use Rattle.scan_multi.specs.Output.{ChunkData};
ghost use Rattle.scan_multi.specs.declared.scan.fault.ScanFault.TheVariants as fault;
ghost use Rattle.scan_run.specs.Io.{OutputFailed};
ghost use Rattle.scan_run.specs.Run.{is_scan_words, IsScanned, WroteNone};
ghost use Rattle.scan_run.specs.Stops.{stop_of, status_of, IsStop, IsGiven, Halts, IsReady, Ends};
ghost use Rattle.scan_run.specs.Ran.{RanScan, RanOther, StatusTells};
ghost use Rattle.scan_run.specs.GeneratedLine.{IsGenerated, WroteFrontOfLine, AskNothing};
ghost use Rattle.scan_run.specs.FileOf.{IsFileOf, HasScripts, AreFilesOf, AreReady};
ghost use Rattle.scan_run.specs.AskedOf.{IsAsked};
ghost use Rattle.scan_manifest.specs.Manifest.{all_agree};
ghost use Rattle.scan_manifest.specs.declared.manifest.FileSpec.{FileSpec};
ghost use Rattle.scan_manifest.specs.declared.manifest.Manifest.{Manifest};

use crate::generate::{generated_of, generated_text};
use crate::input::{Input, MOST_BYTES, ReadFault, read_all};
use crate::output::{Output, WriteFault, write_all};
use crate::print::write_output;
use scan_caches::MokaSegmentCache;
use scan_expr::ScanRequest;
use scan_layout::LayoutRef;
use scan_manifest::{
    CacheSpec, FileSpec, Files, LayoutTree, Manifest, ParseFault, manifest_of_bytes,
};
use scan_multi::{
    ColumnOutput, Gate, MemoryOpener, RangeFault, ScanFault, ScanFile, scan_columns_of,
};
use scan_segments::{MemorySource, SegmentSourceId};
use scan_values::{DType, NoMemory};
use std::alloc::Global;
use std::hash::BuildHasher;
use std::thread::Threads;

fn is_scan(words: &[String]) -> bool
    ensures { result ≡ is_scan_words (map string_bytes words.now) }
{
    match words {
        [word] => word.as_str() == "scan",
        _ => false,
    }
}

fn gives_of(skipped: bool, layout: LayoutTree) -> Option<LayoutRef>
    ensures { given_of result ≡ (if skipped then skip else layout_of layout) }
{
    if skipped {
        None
    } else {
        Some(layout.into_root())
    }
}

/// The objects in memory that a file of a manifest tells.
fn make_file(
    alloc: Global,
    spec: FileSpec,
) -> Result<ScanFile<MemoryOpener, MemorySource>, NoMemory>
    ensures file { IfOk result (λ f. IsFileOf spec f) }
    ensures scripts { IfOk result (λ f. HasScripts spec f) }
{
    let FileSpec {
        id,
        layout,
        segments,
        skip,
        opener: calls,
        source,
    } = spec;
    let opener = MemoryOpener::new(gives_of(skip, layout), calls.fail, calls.pending);
    let source = MemorySource::new(alloc, segments.into_map(), source.fail, source.pending);
    let id = String::from_str(alloc, id.as_str())?;
    let source_id = SegmentSourceId::new(alloc, id)?;
    Ok(ScanFile {
        opener,
        source,
        source_id,
    })
}

/// Why a run stops before it prints.
#[derive(Clone, Copy, Debug, PartialEq, Eq)]
pub enum Stop {
    Unbound,
    Unreadable,
    Failed,
    NoMemory,
}

/// Why a run stops by a fault of its scan.
pub fn stop_of(e: ScanFault) -> Stop
    ensures { result ≡ stop_of e }
{
    match e {
        ScanFault::NoMemory => Stop::NoMemory,
        ScanFault::Opener { file: _ } => Stop::Failed,
        ScanFault::Source {
            file: _,
            segment: _,
        } => Stop::Failed,
        ScanFault::DTypeMismatch { file: _ } => Stop::Unreadable,
        ScanFault::Bind(_) => Stop::Unbound,
        ScanFault::Partitions => Stop::Unbound,
        ScanFault::RowRange(RangeFault::Reversed) => Stop::Unbound,
        ScanFault::RowRange(RangeFault::Past { file: _ }) => Stop::Unreadable,
        ScanFault::Layout { file: _, fault: _ } => Stop::Unreadable,
        ScanFault::Corrupt {
            file: _,
            segment: _,
        } => Stop::Unreadable,
        ScanFault::TooManyRows { file: _ } => Stop::Unreadable,
        ScanFault::Concurrency => Stop::Unbound,
        ScanFault::Overflow { file: _ } => Stop::Unreadable,
    }
}

/// The status of a run that stops so.
pub fn status_of(stop: Stop) -> u8
    ensures { result ≡ status_of stop }
{
    match stop {
        Stop::Unbound => 3,
        Stop::Unreadable => 4,
        Stop::Failed => 5,
        Stop::NoMemory => 7,
    }
}

/// The objects in memory that the files of a manifest tell.
pub fn make_files(
    alloc: Global,
    files: Files,
) -> Result<Vec<ScanFile<MemoryOpener, MemorySource>>, NoMemory>
    ensures { IfOk result (λ v. AreFilesOf files v.items) }
{
    let mut made = Vec::new(alloc);
    for spec in files.into_vec() {
        made.push(make_file(alloc, spec)?)?;
    }
    Ok(made)
}

/// What a manifest asks of its files.
struct Asked {
    dtype: DType,
    request: ScanRequest,
    workers: usize,
    cache: CacheSpec,
}

impl Drop for Asked {
    fn drop(self) {
        let Asked {
            dtype: _,
            request: _,
            workers: _,
            cache: _,
        } = self;
    }
}

/// The chunks of a manifest's scan.
fn run_manifest<R: Threads + Sync, G: Gate, S: BuildHasher + Copy + Drop>(
    rt: &R,
    alloc: Global,
    manifest: Manifest,
    gate: &G,
    hasher: S,
) -> Result<ColumnOutput, Stop>
    requires { all_agree manifest.files ≡ true }
    ensures ok { IfOk result (λ out. IsScanned manifest out.chunks) }
    ensures stop { IfErr result (λ s. IsStop manifest s) }
{
    let Manifest {
        dtype,
        files,
        request,
        workers,
        cache,
    } = manifest;
    let asked = Asked {
        dtype,
        request,
        workers,
        cache,
    };
    match make_files(alloc, files) {
        Ok(made) => scan_made(rt, alloc, &asked, made, gate, hasher),
        Err(NoMemory) => Err(Stop::NoMemory),
    }
}

/// An empty cache of a manifest's size and eviction, whose keys are hashed by this.
pub fn new_cache<S: BuildHasher + Copy + Drop>(
    alloc: Global,
    size: &CacheSpec,
    hasher: S,
) -> Result<MokaSegmentCache<S>, NoMemory>
    ensures exact { IfOk result (λ c. c ≡ bounded [] [] size.now.bytes size.now.entries size.now.eviction) }
    ensures empty { IfOk result (λ c. keyed_state c ≡ empty_cache) }
{
    MokaSegmentCache::with_hasher(alloc, size.bytes(), size.entries(), size.eviction(), hasher)
}

/// The chunks of a scan of files that were made.
fn scan_made<R: Threads + Sync, G: Gate, S: BuildHasher + Copy + Drop>(
    rt: &R,
    alloc: Global,
    asked: &Asked,
    made: Vec<ScanFile<MemoryOpener, MemorySource>>,
    gate: &G,
    hasher: S,
) -> Result<ColumnOutput, Stop>
    requires { AreReady made.items }
    ensures ok { IfOk result (λ out. (m : Manifest) → IsAsked m asked.now → AreFilesOf m.files made.items →
        IsScanned m out.chunks) }
    ensures stop { IfErr result (λ s. (m : Manifest) → IsAsked m asked.now → AreFilesOf m.files made.items →
        IsStop m s) }
{
    let mut files = made;
    let mut cache = match new_cache(alloc, &asked.cache, hasher) {
        Ok(cache) => cache,
        Err(NoMemory) => return Err(Stop::NoMemory),
    };
    match scan_columns_of(
        rt,
        alloc,
        &asked.dtype,
        &mut files,
        &mut cache,
        &asked.request,
        asked.workers,
        gate,
    ) {
        Ok(out) => Ok(out),
        Err(e) => Err(stop_of(e)),
    }
}

/// The manifest of an input that is read to its end, or a status.
#[tactic(auto, using(crate::proofs::Stopping::files_agree, crate::proofs::Sures::halts_failed, crate::proofs::Sures::halts_long))]
fn take_manifest<I: Input>(alloc: Global, input: &mut I) -> Result<Manifest, u8>
    ensures ok { IfOk result (λ m. IsGiven m (I.input input.old) (I.input input.new)) }
    ensures agree { IfOk result (λ m. all_agree m.files ≡ true) }
    ensures halt { IfErr result (λ s. Halts s (I.input input.old) (I.input input.new)) }
    ensures stops { (I.input input.new).taken ≤ (I.input input.old).taken + (MOST_BYTES + 65_536) }
{
    match read_all(alloc, input) {
        Ok(bytes) => match manifest_of_bytes(alloc, bytes.as_slice()) {
            Ok(manifest) => Ok(manifest),
            Err(ParseFault::Bad) => Err(2),
            Err(ParseFault::NoMemory) => Err(7),
        },
        Err(ReadFault::TooLong) => Err(6),
        Err(ReadFault::Failed) => Err(6),
        Err(ReadFault::NoMemory) => Err(7),
    }
}

/// What the scan of the manifest that an input is gives, or a status.
fn take_output<R: Threads + Sync, I: Input, G: Gate, S: BuildHasher + Copy + Drop>(
    rt: &R,
    alloc: Global,
    input: &mut I,
    gate: &G,
    hasher: S,
) -> Result<ColumnOutput, u8>
    ensures ok { IfOk result (λ out. IsReady out.chunks (I.input input.old) (I.input input.new)) }
    ensures end { IfErr result (λ s. Ends s (I.input input.old) (I.input input.new)) }
    ensures stops { (I.input input.new).taken ≤ (I.input input.old).taken + (MOST_BYTES + 65_536) }
{
    match take_manifest(alloc, input) {
        Ok(manifest) => match run_manifest(rt, alloc, manifest, gate, hasher) {
            Ok(out) => Ok(out),
            Err(stop) => Err(status_of(stop)),
        },
        Err(status) => Err(status),
    }
}

// The program where the words are not `scan`: it reads no input.
#[tactic(none)]
fn run_generated<R: Threads + Sync, O: Output, G: Gate>(
    rt: &R,
    alloc: Global,
    words: &[String],
    output: &mut O,
    gate: &G,
) -> u8
    ensures done { result ≡ 0 → IsGenerated (map string_bytes words.now) (O.output output.old) (O.output output.new) }
    ensures words { (result ≡ 1) ↔ AskNothing (map string_bytes words.now) }
    ensures io { result ≡ 6 → OutputFailed (O.output output.old) (O.output output.new) }
    ensures nothing { result ≡ 1 → WroteNone (O.output output.old) (O.output output.new) }
    ensures front { WroteFrontOfLine (map string_bytes words.now) (O.output output.old) (O.output output.new) }
    ensures ends { (result ≡ 0) ⊎ (result ≡ 1) ⊎ (result ≡ 6) ⊎ (result ≡ 7) }
{
    let Some((rows, spelling)) = generated_of(words) else {
        return 1;
    };
    match generated_text(rt, alloc, rows, spelling, gate) {
        Ok(text) => match write_all(output, text.as_slice()) {
            Ok(()) => 0,
            Err(WriteFault::Failed) => 6,
            Err(WriteFault::NoMemory) => 7,
        },
        Err(NoMemory) => 7,
    }
}

/// The program. With the words `scan` it reads a manifest from the input, scans its files, and writes a line for each row
/// to the output. With `generate`, a number of rows from 1 to 100,000 and maybe a spelling, `1` or `2`, it reads nothing,
/// scans three generated files, and writes a line of totals. The words are those after the program's name. The answer is
/// the exit status, of which `generate` has 0, 6 and 7 alone:
/// 0 the lines were written, 1 other words, 2 the input is no manifest, 3 the request does not bind,
/// 4 a file's layout is of another dtype or not well-formed, a segment is missing or damaged, or an expression overflows,
/// 5 an opener or a source failed, 6 the input or the output failed or the input has more than 67,108,864 bytes, 7 want
/// of memory. Whatever the status, reading stops once more than 67,108,864 bytes were read. A manifest names sources and
/// segments, and the cache hashes these names by `hasher`: `main` hands one in that is seeded at random.
#[tactic(none)]
pub fn run<R: Threads + Sync, I: Input, O: Output, G: Gate, S: BuildHasher + Copy + Drop>(
    rt: &R,
    alloc: Global,
    words: &[String],
    input: &mut I,
    output: &mut O,
    gate: &G,
    hasher: S,
) -> u8
    ensures scan { is_scan_words (map string_bytes words.now) ≡ true →
        RanScan result (I.input input.old) (I.input input.new) (O.output output.old) (O.output output.new) }
    ensures other { is_scan_words (map string_bytes words.now) ≡ false → RanOther (map string_bytes words.now) result
        (I.input input.old) (I.input input.new) (O.output output.old) (O.output output.new) }
    ensures words { (result ≡ 1) ↔ ((is_scan_words (map string_bytes words.now) ≡ false)
        × AskNothing (map string_bytes words.now)) }
    ensures status { StatusTells result (I.input input.old) (I.input input.new)
        (O.output output.old) (O.output output.new) }
    ensures stops { (I.input input.new).taken ≤ (I.input input.old).taken + (MOST_BYTES + 65_536) }
    ensures statuses { result < 8 }
{
    if !is_scan(words) {
        return run_generated(rt, alloc, words, output, gate);
    }
    match take_output(rt, alloc, input, gate, hasher) {
        Ok(out) => match write_output(alloc, output, &out) {
            Ok(()) => 0,
            Err(WriteFault::Failed) => 6,
            Err(WriteFault::NoMemory) => 7,
        },
        Err(status) => status,
    }
}
