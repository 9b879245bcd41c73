//! A reader of files on disk.
ghost use Rattle.std.specs.Prelude.{◌≡◌, ◌∷◌, [], List, ℕ, All, IfOk, true};
ghost use Rattle.vortex_scan.specs.Disk.OpenerView.{opener_state};
ghost use Rattle.vortex_scan.specs.Disk.SourceView.{state_of};
ghost use Rattle.vortex_scan.specs.Disk.declared.footer.Footer.{Footer};
ghost use Rattle.vortex_scan.specs.DiskWriter.Written.{IsFileOf};
ghost use Rattle.vortex_scan.specs.Values.Val.{Val};
ghost use Rattle.vortex_scan.specs.Words.{IsGiven, IsIdle, answer, given};
ghost use Rattle.uses.specs.Disk.{AreOfFile, disk_file, items_from};
ghost use Rattle.uses.specs.Own.{AreOne};

use std::alloc::Global;
use std::thread::Threads;
use vortex_scan::NoMemory;
use vortex_scan::arrays::Array;
use vortex_scan::dtype::DType;
use vortex_scan::expr::Expression;
use vortex_scan::file::{
    BytesAt, FileOpener, FileSource, MemoryFile, WriteFault, WriteOptions, file_of,
};
use vortex_scan::scan::ScanRequest;
use vortex_scan::scan::multi::{NoGate, ScanChunk, ScanFault, ScanFile, scan_files};
use vortex_scan::segments::{ByteBuffer, NoOpSegmentCache, SegmentSourceId};

/// The one file whose footer is read from `header` and whose segments are read from `file`, with their digests checked.
fn on_disk<F: BytesAt + Drop>(
    alloc: Global,
    header: F,
    file: F,
    source_id: SegmentSourceId,
) -> Result<Vec<ScanFile<FileOpener<F>, FileSource<F>>>, NoMemory>
    ensures idle { IfOk result (λ files.
        All (IsIdle (opener_state F.bytes F.can_fail) (state_of F.bytes F.can_fail)) files.items) }
    ensures one { IfOk result (λ files. (bytes : List ℕ) (f : Footer) →
        AreOfFile (F.bytes header) (F.bytes file) bytes f →
        AreOne (opener_state F.bytes F.can_fail) (state_of F.bytes F.can_fail) (disk_file bytes f) files.items) }
{
    let opener = FileOpener::new(header);
    let source = FileSource::new(alloc, file, true);
    let mut files = Vec::new(alloc);
    files.push(ScanFile {
        opener,
        source,
        source_id,
    })?;
    Ok(files)
}

/// The rows that a request finds in a file that was opened twice. As far as both tell the bytes of one whole file, they
/// are those of the row-by-row answer over its layout and its segments, up to the limit: this very code runs over
/// `File`, which tells nothing.
#[tactic(none)]
pub fn rows_of_file<R: Threads + Sync, F: BytesAt + Drop>(
    rt: &R,
    alloc: Global,
    dtype: &DType,
    header: F,
    file: F,
    source_id: SegmentSourceId,
    request: &ScanRequest,
) -> Result<Vec<ScanChunk>, ScanFault>
    ensures { IfOk result (λ chunks. (bytes : List ℕ) (f : Footer) →
        AreOfFile (F.bytes header) (F.bytes file) bytes f →
        IsGiven request.now.ordered request.now.limit
        (answer dtype.now request.now (disk_file bytes f ∷ [])) (given chunks.items)) }
{
    let mut files = on_disk(alloc, header, file, source_id)?;
    let mut cache = NoOpSegmentCache::new();
    let output = scan_files(
        rt,
        alloc,
        dtype,
        &mut files,
        &mut cache,
        request,
        1,
        &NoGate::new(),
    )?;
    Ok(output.chunks)
}

/// All rows of a file in memory: of a file of these rows, they are these rows, in order and each with its place.
pub fn rows_back<R: Threads + Sync>(
    rt: &R,
    alloc: Global,
    dtype: &DType,
    file: MemoryFile,
    source_id: SegmentSourceId,
) -> Result<Vec<ScanChunk>, ScanFault>
    ensures { IfOk result (λ chunks. (rows : List Val) → IsFileOf dtype.now rows file →
        given chunks.items ≡ items_from 0 rows) }
{
    let header = file.try_clone()?;
    let request = ScanRequest::new(Expression::root());
    rows_of_file(rt, alloc, dtype, header, file, source_id, &request)
}

/// Why rows that were written did not come back.
pub enum TripFault {
    /// They were not written.
    Write(WriteFault),
    /// They were not read.
    Scan(ScanFault),
}

/// Rows that are written as a file in memory, opened and scanned: they come back as they were.
pub fn written_and_read<R: Threads + Sync>(
    rt: &R,
    alloc: Global,
    rows: &Array,
    options: &WriteOptions,
    source_id: SegmentSourceId,
) -> Result<Vec<ScanChunk>, TripFault>
    ensures { IfOk result (λ chunks. given chunks.items ≡ items_from 0 rows.now.items) }
{
    let bytes = match file_of(alloc, rows, options) {
        Ok(bytes) => bytes,
        Err(fault) => return Err(TripFault::Write(fault)),
    };
    let Ok(bytes) = ByteBuffer::new(alloc, bytes) else {
        return Err(TripFault::Scan(ScanFault::NoMemory));
    };
    match rows_back(rt, alloc, rows.dtype(), MemoryFile::new(bytes), source_id) {
        Ok(chunks) => Ok(chunks),
        Err(fault) => Err(TripFault::Scan(fault)),
    }
}
