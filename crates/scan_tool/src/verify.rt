//! Whether the layout of a file is well-formed, and each segment has its digest.
ghost use Rattle.std.specs.Prelude.{◌≡◌, IfOk};
ghost use Rattle.scan_disk.specs.SourceView.{state_of};
ghost use Rattle.scan_segments.specs.Source.{none_live};
ghost use Rattle.scan_tool.specs.Answered.{IsAnswer};

use crate::files::{OpenFile, check_layout, segments_of};
use scan_disk::{BytesAt, DiskFault, FileSource};
use scan_jobs::ToolFault;
use scan_printing::{Meter, Watch};
use scan_segments::{Polled, SegmentId, SegmentSource};
use scan_values::NoMemory;
use std::alloc::Global;

/// Why a segment was not given.
fn refusal<F: BytesAt>(source: &FileSource<F>) -> DiskFault {
    match source.refused() {
        Some((_, fault)) => fault,
        None => DiskFault::Failed,
    }
}

/// Why a segment is not given that a source answered so, where it is not.
fn told<F: BytesAt>(source: &FileSource<F>, answer: Polled) -> Result<Option<DiskFault>, NoMemory>
    ensures { IfOk result (λ _. IsAnswer answer) }
{
    match answer {
        Polled::Bytes(_) => Ok(None),
        Polled::Missing => Ok(Some(refusal(source))),
        Polled::Failed => Ok(Some(DiskFault::Failed)),
        // A file puts no answer off.
        Polled::Pending => Ok(Some(DiskFault::Failed)),
        Polled::NoMemory => Err(NoMemory),
    }
}

/// Why a source without a live request does not give a segment, where it does not.
fn fault_of<F: BytesAt>(
    alloc: Global,
    source: &mut FileSource<F>,
    id: SegmentId,
) -> Result<Option<DiskFault>, NoMemory>
    requires { (state_of F.bytes F.can_fail source.old).live ≡ none_live }
    ensures { IfOk result (λ _. (state_of F.bytes F.can_fail source.new).live ≡ none_live) }
{
    source.request(alloc, id)?;
    let answer = source.poll_segment(alloc, id);
    told(source, answer)
}

/// Reads a segment, and compares its digest.
fn check_segment<F: BytesAt>(
    alloc: Global,
    source: &mut FileSource<F>,
    path: &str,
    id: SegmentId,
) -> Result<(), ToolFault>
    requires { (state_of F.bytes F.can_fail source.old).live ≡ none_live }
    ensures { IfOk result (λ _. (state_of F.bytes F.can_fail source.new).live ≡ none_live) }
{
    match fault_of(alloc, source, id)? {
        None => Ok(()),
        Some(fault) => Err(ToolFault::Segment {
            path: String::from_str(alloc, path)?,
            segment: *id,
            fault,
        }),
    }
}

/// Reads segments one after the other, and compares their digests.
fn check_segments<R: Eprint, F: BytesAt>(
    rt: &R,
    alloc: Global,
    source: &mut FileSource<F>,
    path: &str,
    segments: &[(SegmentId, u64)],
    meter: &mut Meter,
) -> Result<(), ToolFault>
    requires { (state_of F.bytes F.can_fail source.old).live ≡ none_live }
{
    let mut done = 0u64;
    for segment in segments {
        meter.reach(rt, done);
        check_segment(alloc, source, path, segment.0)?;
        done = done.saturating_add(1);
    }
    meter.reach(rt, done);
    Ok(())
}

/// Checks the layout of a file, reads each segment that it names, and compares its digest. One is in memory at a time. Gives
/// how many there are.
pub(crate) fn verify<R: Eprint, F: BytesAt + Drop>(
    rt: &R,
    alloc: Global,
    file: OpenFile<F>,
    watch: Watch,
) -> Result<usize, ToolFault> {
    check_layout(&file, 0)?;
    let segments = segments_of(alloc, &file.layout)?;
    let OpenFile {
        path,
        file,
        again: _,
        layout: _,
        places,
    } = file;
    let mut meter = Meter::new(alloc, watch, path.as_str(), segments.len() as u64)?;
    let mut source = FileSource::with_places(alloc, file, true, places);
    check_segments(
        rt,
        alloc,
        &mut source,
        path.as_str(),
        segments.as_slice(),
        &mut meter,
    )?;
    Ok(segments.len())
}
