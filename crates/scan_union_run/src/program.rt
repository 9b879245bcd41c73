//! The program, over any input and output.
ghost use Rattle.std.specs.Prelude.{◌≡◌, ◌↔◌, ◌<◌, ◌≤◌, ◌+◌, ℕ, List, IfErr, IfOk, map, false, true, string_bytes};
ghost use Rattle.scan_manifest.specs.Manifest.{all_agree};
ghost use Rattle.scan_manifest.specs.declared.manifest.Manifest.{Manifest};
ghost use Rattle.scan_run.specs.FileOf.{AreFilesOf, AreReady};
ghost use Rattle.scan_union_run.specs.AskedOf.{IsAsked};
ghost use Rattle.scan_union_run.specs.Runs.{Answers, EndsUnion, HaltsUnion, HasUnionEnd, IsGiven, IsUnionDone, IsUnionReady, UnionWrites, WentWell};
ghost use Rattle.scan_union_run.specs.Unions.{IsUnionManifest, IsUnionStop, IsUnited, is_lru, is_union_words, stop_by};

use scan_caches::SegmentEviction;
use scan_expr::ScanRequest;
use scan_manifest::{CacheSpec, Manifest, ParseFault, manifest_of_bytes};
use scan_multi::{ColumnOutput, Gate, MemoryOpener, ScanFile};
use scan_run::run::{Stop, make_files, status_of, stop_of};
use scan_run::{Input, MOST_BYTES, Output, ReadFault, WriteFault, read_all, write_output};
use scan_segments::MemorySource;
use scan_union::{UnionFault, scan_union_columns};
use scan_values::{DType, NoMemory};
use std::alloc::Global;
use std::thread::Threads;

fn is_union(words: &[String]) -> bool
    ensures { result ≡ is_union_words (map string_bytes words.now) }
{
    match words {
        [word] => word.as_str() == "union",
        _ => false,
    }
}

/// Whether a cache drops first what was not used for longest.
fn is_lru(cache: &CacheSpec) -> bool
    ensures { result ≡ is_lru cache.now.eviction }
{
    match cache.eviction() {
        SegmentEviction::Lru => true,
        SegmentEviction::TinyLfu => false,
    }
}

/// The manifest that some bytes are, whose cache is such a one.
fn union_of_bytes(alloc: Global, bytes: &[u8]) -> Result<Manifest, ParseFault>
    ensures ok { IfOk result (λ m. IsUnionManifest bytes.now m) }
    ensures bad { result ≡ Err ParseFault.Bad → (m : Manifest) → ¬ IsUnionManifest bytes.now m }
{
    let manifest = manifest_of_bytes(alloc, bytes)?;
    if !is_lru(&manifest.cache) {
        return Err(ParseFault::Bad);
    }
    Ok(manifest)
}

/// The manifest of an input that is read to its end, or a status.
fn take_union<I: Input>(alloc: Global, input: &mut I) -> Result<Manifest, u8>
    ensures ok { IfOk result (λ m. IsGiven m (I.input input.old) (I.input input.new)) }
    ensures agree { IfOk result (λ m. all_agree m.files ≡ true) }
    ensures halt { IfErr result (λ s. HaltsUnion s (I.input input.old) (I.input input.new)) }
    ensures stops { (I.input input.new).taken ≤ (I.input input.old).taken + (MOST_BYTES + 65_536) }
{
    match read_all(alloc, input) {
        Ok(bytes) => match union_of_bytes(alloc, bytes.as_slice()) {
            Ok(manifest) => Ok(manifest),
            Err(ParseFault::Bad) => Err(2),
            Err(ParseFault::NoMemory) => Err(7),
        },
        Err(ReadFault::TooLong) => Err(6),
        Err(ReadFault::Failed) => Err(6),
        Err(ReadFault::NoMemory) => Err(7),
    }
}

/// Why a run stops by a fault of its scan.
fn stop_by(fault: UnionFault) -> Stop
    ensures { result ≡ stop_by fault }
{
    match fault {
        UnionFault::Scan(fault) => stop_of(fault),
        UnionFault::TooManySegments { file: _ } => Stop::Unreadable,
        UnionFault::NoMemory => Stop::NoMemory,
    }
}

/// What a manifest asks of its files.
struct Asked {
    dtype: DType,
    request: ScanRequest,
    workers: usize,
    cache: CacheSpec,
}

impl Drop for Asked {
    fn drop(self) {
        let Asked {
            dtype: _,
            request: _,
            workers: _,
            cache: _,
        } = self;
    }
}

/// The chunks of a scan of files that were made.
fn scan_made<R: Threads + Sync, G: Gate>(
    rt: &R,
    alloc: Global,
    asked: &Asked,
    made: Vec<ScanFile<MemoryOpener, MemorySource>>,
    gate: &G,
) -> Result<ColumnOutput, Stop>
    requires { AreReady made.items }
    ensures ok { IfOk result (λ out. (m : Manifest) → IsAsked m asked.now → AreFilesOf m.files made.items →
        IsUnited m out.chunks) }
    ensures stop { IfErr result (λ s. (m : Manifest) → IsAsked m asked.now → AreFilesOf m.files made.items →
        IsUnionStop m s) }
{
    let mut files = made;
    match scan_union_columns(
        rt,
        alloc,
        &asked.dtype,
        &mut files,
        asked.cache.bytes(),
        asked.cache.entries(),
        &asked.request,
        asked.workers,
        gate,
    ) {
        Ok(out) => Ok(out),
        Err(fault) => Err(stop_by(fault)),
    }
}

/// The chunks of a manifest's scan.
fn run_manifest<R: Threads + Sync, G: Gate>(
    rt: &R,
    alloc: Global,
    manifest: Manifest,
    gate: &G,
) -> Result<ColumnOutput, Stop>
    requires { all_agree manifest.files ≡ true }
    ensures ok { IfOk result (λ out. IsUnited manifest out.chunks) }
    ensures stop { IfErr result (λ s. IsUnionStop manifest s) }
{
    let Manifest {
        dtype,
        files,
        request,
        workers,
        cache,
    } = manifest;
    let asked = Asked {
        dtype,
        request,
        workers,
        cache,
    };
    match make_files(alloc, files) {
        Ok(made) => scan_made(rt, alloc, &asked, made, gate),
        Err(NoMemory) => Err(Stop::NoMemory),
    }
}

/// What the scan of the manifest that an input is gives, or a status.
fn take_output<R: Threads + Sync, I: Input, G: Gate>(
    rt: &R,
    alloc: Global,
    input: &mut I,
    gate: &G,
) -> Result<ColumnOutput, u8>
    ensures ok { IfOk result (λ out. IsUnionReady out.chunks (I.input input.old) (I.input input.new)) }
    ensures end { IfErr result (λ s. EndsUnion s (I.input input.old) (I.input input.new)) }
    ensures stops { (I.input input.new).taken ≤ (I.input input.old).taken + (MOST_BYTES + 65_536) }
{
    match take_union(alloc, input) {
        Ok(manifest) => match run_manifest(rt, alloc, manifest, gate) {
            Ok(out) => Ok(out),
            Err(stop) => Err(status_of(stop)),
        },
        Err(status) => Err(status),
    }
}

/// The program. With the word `union` it reads a manifest from the input, scans its files under its dtype, which they
/// may be older than, and writes a line for each row to the output. The words are those after the program's name. The
/// answer is the exit status: 0 the lines were written, 1 other words, 2 the input is no manifest or its cache counts
/// uses, 3 the request has a fault, 4 a file's dtype does not fit, its layout is not well-formed, ends before the range
/// or is too large, a segment is missing or damaged, or an expression overflows, 5 an opener or a source failed, 6 the
/// input or the output failed or the input has more than 67,108,864 bytes, 7 want of memory. All files are opened
/// before the first row is read, so a fault of one comes whatever the limit, unless that is 0. Lines are written in
/// pieces: after 6 and 7 the output has taken a front of them, or nothing.
#[tactic(none)]
pub fn run_union<R: Threads + Sync, I: Input, O: Output, G: Gate>(
    rt: &R,
    alloc: Global,
    words: &[String],
    input: &mut I,
    output: &mut O,
    gate: &G,
) -> u8
    ensures words { (result ≡ 1) ↔ (is_union_words (map string_bytes words.now) ≡ false) }
    ensures unread { result ≡ 1 → I.input input.new ≡ I.input input.old }
    ensures done { result ≡ 0 →
        IsUnionDone (I.input input.old) (I.input input.new) (O.output output.old) (O.output output.new) }
    ensures end { HasUnionEnd result
        (I.input input.old) (I.input input.new) (O.output output.old) (O.output output.new) }
    ensures writes { UnionWrites result
        (I.input input.old) (I.input input.new) (O.output output.old) (O.output output.new) }
    ensures answers { is_union_words (map string_bytes words.now) ≡ true → (bytes : List ℕ) →
        WentWell bytes (I.input input.old) (I.input input.new) (O.output output.old) (O.output output.new) →
        Answers bytes result }
    ensures stops { (I.input input.new).taken ≤ (I.input input.old).taken + (MOST_BYTES + 65_536) }
    ensures statuses { result < 8 }
{
    if !is_union(words) {
        return 1;
    }
    match take_output(rt, alloc, input, gate) {
        Ok(out) => match write_output(alloc, output, &out) {
            Ok(()) => 0,
            Err(WriteFault::Failed) => 6,
            Err(WriteFault::NoMemory) => 7,
        },
        Err(status) => status,
    }
}
