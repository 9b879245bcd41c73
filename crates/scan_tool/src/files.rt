//! Files that are opened, with what their footers say.
ghost use Rattle.std.specs.Prelude.{IfOk};
ghost use Rattle.scan_disk.specs.OpenerView.{opener_state};
ghost use Rattle.scan_disk.specs.SourceView.{state_of};
ghost use Rattle.scan_multi.specs.Lawful.{IsIdle};

use scan_conditions::dtype_text;
use scan_disk::{BytesAt, DiskFault, FileOpener, FileSource, Footer, Places, read_footer};
use scan_jobs::ToolFault;
use scan_layout::{LayoutKind, LayoutNode, LayoutRef};
use scan_multi::{ScanFault, ScanFile};
use scan_segments::{SegmentId, SegmentSourceId};
use scan_values::{DType, NoMemory};
use std::alloc::Global;
use std::fs::{File, Files};
use std::rc::Rc;

/// How deep a layout nests at most.
pub(crate) const MOST_LEVELS: u32 = 128;

/// A file that is open, and what its footer says. The two handles are of one file.
#[derive(Drop)]
pub(crate) struct OpenFile<F> {
    pub(crate) path: String,
    pub(crate) file: F,
    pub(crate) again: F,
    pub(crate) layout: LayoutRef,
    pub(crate) places: Places,
}

/// A file of the system that is open.
pub(crate) type DiskFile = OpenFile<Rc<File>>;

fn of_disk(alloc: Global, path: &str, fault: DiskFault) -> ToolFault {
    match String::from_str(alloc, path) {
        Ok(path) => ToolFault::File { path, fault },
        Err(_) => ToolFault::NoMemory,
    }
}

/// Opens a file and reads its footer.
pub(crate) fn open<R: Files<File = File>>(
    rt: &R,
    alloc: Global,
    path: &str,
) -> Result<DiskFile, ToolFault> {
    let name = String::from_str(alloc, path)?;
    let file = match File::open(rt, path) {
        Ok(file) => file,
        Err(_) => return Err(ToolFault::Open { path: name }),
    };
    let Footer { layout, places } = match read_footer(alloc, &file) {
        Ok(footer) => footer,
        Err(fault) => return Err(of_disk(alloc, path, fault)),
    };
    let file = Rc::new(alloc, file)?;
    Ok(OpenFile {
        path: name,
        again: file.clone()?,
        file,
        layout: layout.into_root(),
        places,
    })
}

/// Opens files and reads their footers.
pub(crate) fn open_all<R: Files<File = File>>(
    rt: &R,
    alloc: Global,
    paths: &[String],
) -> Result<Vec<DiskFile>, ToolFault> {
    let mut files = Vec::with_capacity(alloc, paths.len())?;
    for path in paths {
        files.push(open(rt, alloc, path.as_str())?)?;
    }
    Ok(files)
}

/// The dtype of the rows of some files, which have to be of one.
pub(crate) fn common_dtype<F>(alloc: Global, files: &[OpenFile<F>]) -> Result<DType, ToolFault> {
    let Some(first) = files.first() else {
        return Err(ToolFault::Words(String::from_str(alloc, "no file is named")?));
    };
    let wanted = first.layout.dtype();
    for file in files {
        let found = file.layout.dtype();
        if *found != *wanted {
            return Err(ToolFault::OtherDType {
                path: file.path.clone()?,
                found: dtype_text(alloc, found)?,
                wanted: dtype_text(alloc, wanted)?,
            });
        }
    }
    Ok(wanted.try_clone(alloc)?)
}

/// Refuses a file whose layout is not well-formed, as a scan in which it stands at this place does.
pub(crate) fn check_layout<F>(file: &OpenFile<F>, place: usize) -> Result<(), ToolFault> {
    match file.layout.check(file.layout.dtype()) {
        Ok(()) => Ok(()),
        Err(fault) => Err(ToolFault::ScanOf {
            path: file.path.clone()?,
            fault: ScanFault::Layout { file: place, fault },
        }),
    }
}

/// Appends the segments of a layout with the number of rows of each, leaf by leaf.
#[cycle(segments)]
pub(crate) fn push_segments(
    layout: &LayoutNode,
    levels: u32,
    out: &mut Vec<(SegmentId, u64)>,
) -> Result<(), NoMemory> {
    if levels == 0 {
        return Ok(());
    }
    match &layout.kind {
        LayoutKind::Leaf(segments, _) => push_own(segments.as_slice(), out),
        _ => push_below(layout.children.as_slice(), levels - 1, out),
    }
}

fn push_own(
    segments: &[(SegmentId, u64)],
    out: &mut Vec<(SegmentId, u64)>,
) -> Result<(), NoMemory> {
    for segment in segments {
        out.push(*segment)?;
    }
    Ok(())
}

#[cycle(segments)]
fn push_below(
    children: &[LayoutRef],
    levels: u32,
    out: &mut Vec<(SegmentId, u64)>,
) -> Result<(), NoMemory> {
    for child in children {
        push_segments(child, levels, out)?;
    }
    Ok(())
}

/// The segments of a layout.
pub(crate) fn segments_of(
    alloc: Global,
    layout: &LayoutNode,
) -> Result<Vec<(SegmentId, u64)>, NoMemory> {
    let mut found = Vec::new(alloc);
    push_segments(layout, MOST_LEVELS, &mut found)?;
    Ok(found)
}

/// How many bytes a segment has; none where the footer does not name it.
pub(crate) fn length_of(places: &Places, id: SegmentId) -> u64 {
    match places.get(id) {
        Some(place) => place.length,
        None => 0,
    }
}

impl<F: BytesAt + Drop> OpenFile<F> {
    /// The file, to be scanned.
    pub(crate) fn into_scan_file(
        self,
        alloc: Global,
        checks: bool,
    ) -> Result<ScanFile<FileOpener<F>, FileSource<F>>, NoMemory>
        ensures { IfOk result (IsIdle (opener_state F.bytes F.can_fail) (state_of F.bytes F.can_fail)) }
    {
        let OpenFile {
            path,
            file,
            again,
            layout: _,
            places,
        } = self;
        let source_id = SegmentSourceId::new(alloc, path)?;
        let opener = FileOpener::new(again);
        let source = FileSource::with_places(alloc, file, checks, places);
        Ok(ScanFile {
            opener,
            source,
            source_id,
        })
    }
}
