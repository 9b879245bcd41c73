//! What a manifest says of a scan, and what was done to its files.
ghost use Rattle.std.specs.Prelude.{All, IfOk};
ghost use Rattle.scan_segments.specs.MemorySource.{source_state};
ghost use Rattle.scan_multi.specs.Lawful.{IsIdle};
ghost use Rattle.scan_run.specs.FileOf.{memory_opener};

use scan_expr::ScanRequest;
use scan_manifest::{Manifest, ParseFault, manifest_of_bytes};
use scan_multi::{MemoryOpener, ScanFile};
use scan_run::run::make_files;
use scan_segments::MemorySource;
use scan_values::DType;
use std::alloc::Global;
use std::fmt::Write;
use std::process::Abort;

/// The dtype, the files and the request of a manifest.
#[derive(Drop)]
pub(crate) struct Made {
    pub dtype: DType,
    pub files: Vec<ScanFile<MemoryOpener, MemorySource>>,
    pub request: ScanRequest,
}

/// What a manifest says.
pub(crate) fn make(alloc: Global, text: &str) -> Result<Made, ParseFault>
    ensures { IfOk result (λ m. All (IsIdle memory_opener source_state) m.files.items) }
{
    let manifest = manifest_of_bytes(alloc, text.as_bytes())?;
    let Manifest {
        dtype,
        files,
        request,
        workers: _,
        cache: _,
    } = manifest;
    let files = make_files(alloc, files)?;
    Ok(Made {
        dtype,
        files,
        request,
    })
}

/// The ids of the segments that a source was asked for, rising, and whether a request is live: ` 0 1 live`.
pub(crate) fn push_asked(rt: &impl Abort, alloc: Global, source: &MemorySource, text: &mut String) {
    let mut ids = Vec::new(alloc);
    for id in source.asked() {
        ids.push(**id).expect(rt, "push");
    }
    ids.sort().expect(rt, "sort");
    for id in ids {
        write!(text, " {id}").expect(rt, "write");
    }
    if !source.live().is_empty() {
        text.push_str(" live").expect(rt, "push_str");
    }
}

/// How often the opener of each file was polled, and what its source was asked for: ` | 1: 0 1 | 0:`.
pub(crate) fn push_files(
    rt: &impl Abort,
    alloc: Global,
    files: &[ScanFile<MemoryOpener, MemorySource>],
    text: &mut String,
) {
    for file in files {
        write!(text, " | {}:", file.opener.polled()).expect(rt, "write");
        push_asked(rt, alloc, &file.source, text);
    }
}
