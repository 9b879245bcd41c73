//! Scans of files, and the lines of their rows.
ghost use Rattle.std.specs.Prelude.{All, IfOk};
ghost use Rattle.scan_disk.specs.OpenerView.{opener_state};
ghost use Rattle.scan_disk.specs.SourceView.{state_of};
ghost use Rattle.scan_multi.specs.Lawful.{IsIdle};

use crate::asked::{Asked, asked_of, head_of};
use crate::files::OpenFile;
use scan_caches::{MokaSegmentCache, SegmentEviction};
use scan_disk::{BytesAt, FileOpener, FileSource};
use scan_jobs::{Format, ScanJob, ToolFault};
use scan_multi::{Gate, RangeFault, ScanFault, ScanFile, ScanReport};
use scan_printing::{
    LinesFault, Meter, PrintFault, Progress, ScanProgress, Watch, scan_csv, scan_lines,
};
use scan_run::{Output, WriteFault};
use scan_values::NoMemory;
use std::alloc::Global;
use std::hash::BuildHasher;
use std::ops::Range;
use std::thread::Threads;

/// How many bytes and segments the cache of a scan keeps.
const CACHE_BYTES: u64 = 4_194_304;

const CACHE_SEGMENTS: usize = 4_096;

/// Files of the disk that are scanned.
type ScanFiles<F> = Vec<ScanFile<FileOpener<F>, FileSource<F>>>;

/// The path of a file by its place.
fn path_at(alloc: Global, paths: &[String], file: usize) -> Result<String, NoMemory> {
    match paths.get(file) {
        Some(path) => Ok(String::from_str(alloc, path.as_str())?),
        None => Ok(String::new(alloc)),
    }
}

/// A fault of a scan, told with the path of a file.
fn of_file(
    alloc: Global,
    paths: &[String],
    file: usize,
    fault: ScanFault,
) -> Result<ToolFault, NoMemory> {
    Ok(ToolFault::ScanOf {
        path: path_at(alloc, paths, file)?,
        fault,
    })
}

/// Why a segment of a file was not given, where its source tells.
fn of_source<F: BytesAt>(
    alloc: Global,
    paths: &[String],
    files: &[ScanFile<FileOpener<F>, FileSource<F>>],
    file: usize,
    fault: ScanFault,
) -> Result<ToolFault, NoMemory> {
    if let Some(scanned) = files.get(file) {
        if let Some((segment, fault)) = scanned.source.refused() {
            return Ok(ToolFault::Segment {
                path: path_at(alloc, paths, file)?,
                segment: *segment,
                fault,
            });
        }
    }
    of_file(alloc, paths, file, fault)
}

/// Why a scan gives nothing, told with the file.
fn of_scan<F: BytesAt>(
    alloc: Global,
    paths: &[String],
    files: &[ScanFile<FileOpener<F>, FileSource<F>>],
    fault: ScanFault,
) -> Result<ToolFault, NoMemory> {
    match fault {
        ScanFault::NoMemory => Ok(ToolFault::NoMemory),
        ScanFault::Corrupt { file, segment: _ } => of_source(alloc, paths, files, file, fault),
        ScanFault::Source { file, segment: _ } => of_source(alloc, paths, files, file, fault),
        ScanFault::Opener { file } => of_file(alloc, paths, file, fault),
        ScanFault::DTypeMismatch { file } => of_file(alloc, paths, file, fault),
        ScanFault::Layout { file, fault: _ } => of_file(alloc, paths, file, fault),
        ScanFault::TooManyRows { file } => of_file(alloc, paths, file, fault),
        ScanFault::Overflow { file } => of_file(alloc, paths, file, fault),
        ScanFault::RowRange(RangeFault::Past { file }) => of_file(alloc, paths, file, fault),
        _ => Ok(ToolFault::Scan { fault }),
    }
}

/// Why rows were not written.
fn of_lines<F: BytesAt>(
    alloc: Global,
    paths: &[String],
    files: &[ScanFile<FileOpener<F>, FileSource<F>>],
    fault: LinesFault,
) -> Result<ToolFault, NoMemory> {
    match fault {
        LinesFault::Scan(fault) => of_scan(alloc, paths, files, fault),
        LinesFault::Print(PrintFault::Write(WriteFault::Failed)) => Ok(ToolFault::Output),
        LinesFault::Print(PrintFault::Write(WriteFault::NoMemory)) => Ok(ToolFault::NoMemory),
        LinesFault::Print(PrintFault::Uneven) => Ok(ToolFault::Uneven),
    }
}

/// The files of a scan.
fn scan_files_of<F: BytesAt + Drop>(
    alloc: Global,
    opened: Vec<OpenFile<F>>,
    checks: bool,
) -> Result<Vec<ScanFile<FileOpener<F>, FileSource<F>>>, NoMemory>
    ensures { IfOk result (λ v. All (IsIdle (opener_state F.bytes F.can_fail) (state_of F.bytes F.can_fail)) v.items) }
{
    let mut files = Vec::with_capacity(alloc, opened.len())?;
    for file in opened {
        files.push(file.into_scan_file(alloc, checks)?)?;
    }
    Ok(files)
}

/// How many rows are asked for of the files before each, and of all of them, up to the greatest u64.
fn rows_before<F>(
    alloc: Global,
    opened: &[OpenFile<F>],
    range: &Option<Range<u64>>,
) -> Result<(Vec<u64>, u64), NoMemory> {
    let mut before = Vec::with_capacity(alloc, opened.len())?;
    let mut whole = 0u64;
    for file in opened {
        let rows = match range {
            Some(range) => range.end.saturating_sub(range.start),
            None => file.layout.row_count(),
        };
        before.push(whole)?;
        whole = whole.saturating_add(rows);
    }
    Ok((before, whole))
}

/// How far a scan of files is, before it begins.
fn progress_of<'b, R, F>(
    rt: &'b R,
    alloc: Global,
    watch: Watch,
    opened: &[OpenFile<F>],
    range: &Option<Range<u64>>,
) -> Result<ScanProgress<'b, R>, NoMemory> {
    let (before, whole) = rows_before(alloc, opened, range)?;
    let first = match range {
        Some(range) => range.start,
        None => 0,
    };
    let meter = Meter::new(alloc, watch, "scan", whole)?;
    Ok(ScanProgress::new(rt, meter, before, first))
}

/// An empty cache.
fn new_cache<H: BuildHasher + Copy + Drop>(
    alloc: Global,
    hasher: H,
) -> Result<MokaSegmentCache<H>, NoMemory> {
    MokaSegmentCache::with_hasher(
        alloc,
        CACHE_BYTES,
        CACHE_SEGMENTS,
        SegmentEviction::Lru,
        hasher,
    )
}

/// Scans files and writes a line for each row, as it comes.
fn write_rows<
    R: Threads + Sync,
    F: BytesAt + Drop,
    O: Output,
    G: Gate,
    H: BuildHasher + Copy + Drop,
    P: Progress + Drop,
>(
    rt: &R,
    alloc: Global,
    job: &ScanJob,
    asked: &Asked,
    files: &mut Vec<ScanFile<FileOpener<F>, FileSource<F>>>,
    cache: &mut MokaSegmentCache<H>,
    gate: &G,
    output: &mut O,
    head: Vec<u8>,
    progress: P,
) -> Result<ScanReport, LinesFault>
    requires { All (IsIdle (opener_state F.bytes F.can_fail) (state_of F.bytes F.can_fail)) files.old.items }
{
    let dtype = &asked.dtype;
    let request = &asked.request;
    let workers = job.workers;
    match job.format {
        Format::Ndjson => scan_lines(
            rt, alloc, dtype, files, cache, request, workers, gate, output, progress,
        ),
        Format::Csv => scan_csv(
            rt, alloc, dtype, files, cache, request, workers, gate, output, head, progress,
        ),
    }
}

/// Scans files that were made, and tells with the path of a file why it does not.
fn scan_made<
    R: Threads + Sync,
    F: BytesAt + Drop,
    O: Output,
    G: Gate,
    H: BuildHasher + Copy + Drop,
    P: Progress + Drop,
>(
    rt: &R,
    alloc: Global,
    job: &ScanJob,
    asked: &Asked,
    made: Vec<ScanFile<FileOpener<F>, FileSource<F>>>,
    output: &mut O,
    gate: &G,
    hasher: H,
    progress: P,
) -> Result<ScanReport, ToolFault>
    requires { All (IsIdle (opener_state F.bytes F.can_fail) (state_of F.bytes F.can_fail)) made.items }
{
    let mut files = made;
    let head = head_of(alloc, asked, job.format)?;
    let mut cache = new_cache(alloc, hasher)?;
    match write_rows(
        rt, alloc, job, asked, &mut files, &mut cache, gate, output, head, progress,
    ) {
        Ok(report) => Ok(report),
        Err(fault) => Err(of_lines(alloc, job.paths.as_slice(), files.as_slice(), fault)?),
    }
}

/// Scans files that are open and writes a line for each row, as it comes.
pub(crate) fn scan<
    R: Threads + Sync + Eprint,
    F: BytesAt + Drop,
    O: Output,
    G: Gate,
    H: BuildHasher + Copy + Drop,
>(
    rt: &R,
    alloc: Global,
    job: &ScanJob,
    opened: Vec<OpenFile<F>>,
    output: &mut O,
    gate: &G,
    hasher: H,
    watch: Watch,
) -> Result<ScanReport, ToolFault> {
    let asked = asked_of(alloc, opened.as_slice(), job)?;
    let progress = progress_of(rt, alloc, watch, opened.as_slice(), &job.range)?;
    let files = scan_files_of(alloc, opened, job.checks)?;
    scan_made(
        rt, alloc, job, &asked, files, output, gate, hasher, progress,
    )
}
