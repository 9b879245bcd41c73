//! What a manifest says, as a text.
use scan_caches::SegmentEviction;
use scan_expr::ScanRequest;
use scan_layout::LayoutRef;
use scan_manifest::{
    CacheSpec, Calls, FileSpec, Files, Manifest, ParseFault, Segments, manifest_of_bytes,
};
use scan_values::{DType, NoMemory, Selection};
use std::alloc::Global;
use std::ops::Range;

/// What is asked of the manifest that a text says: whether it says one, its dtype, its files, their layouts, its request, its
/// workers and its cache, or its projection and what that is bound to.
pub(crate) fn told_manifest(alloc: Global, kind: &str, text: &str) -> Result<String, NoMemory> {
    let manifest = match manifest_of_bytes(alloc, text.as_bytes()) {
        Ok(manifest) => manifest,
        Err(ParseFault::Bad) => return Ok(String::from_str(alloc, "no")?),
        Err(ParseFault::NoMemory) => return Err(NoMemory),
    };
    match kind {
        "manifest" => Ok(String::from_str(alloc, "yes")?),
        "dtype" => Ok(manifest.dtype.to_string(alloc)?),
        "files" => told_files(alloc, manifest.files),
        "layouts" => told_layouts(alloc, manifest.files),
        "request" => told_request(alloc, &manifest.request),
        "rest" => told_rest(alloc, manifest.workers, &manifest.cache),
        "projection" => told_projection(alloc, &manifest.request, &manifest.dtype),
        _ => Ok(String::new(alloc)),
    }
}

/// The projection, and what it is bound to where that is shown in another way.
fn told_projection(
    alloc: Global,
    request: &ScanRequest,
    dtype: &DType,
) -> Result<String, NoMemory> {
    let mut text = request.projection.to_string(alloc)?;
    match request.projection.bind(alloc, dtype) {
        Ok(bound) => {
            let bound = bound.to_string(alloc)?;
            if bound.as_str() != text.as_str() {
                text.push_str(" bound to ")?;
                text.push_str(bound.as_str())?;
            }
        }
        Err(fault) => text.push_str(format!(in alloc; " refused {fault}")?.as_str())?,
    }
    Ok(text)
}

fn told_rest(alloc: Global, workers: usize, cache: &CacheSpec) -> Result<String, NoMemory> {
    let bytes = cache.bytes();
    let entries = cache.entries();
    let eviction = match cache.eviction() {
        SegmentEviction::Lru => "lru",
        SegmentEviction::TinyLfu => "use_counts",
    };
    Ok(format!(in alloc; "{workers} workers; {bytes} bytes, {entries} entries, {eviction}")?)
}

fn push_numbers(
    alloc: Global,
    what: &str,
    numbers: &[u64],
    text: &mut String,
) -> Result<(), NoMemory> {
    text.push_str(what)?;
    for number in numbers {
        text.push_str(format!(in alloc; " {number}")?.as_str())?;
    }
    Ok(())
}

fn push_range(
    alloc: Global,
    what: &str,
    range: &Option<Range<u64>>,
    text: &mut String,
) -> Result<(), NoMemory> {
    if let Some(range) = range {
        let start = range.start;
        let end = range.end;
        text.push_str(format!(in alloc; "; {what} {start}..{end}")?.as_str())?;
    }
    Ok(())
}

fn push_selection(alloc: Global, selection: &Selection, text: &mut String) -> Result<(), NoMemory> {
    match selection {
        Selection::All => Ok(text.push_str("; all")?),
        Selection::IncludeByIndex(rows) => {
            push_numbers(alloc, "; include", rows.as_slice(), text)
        }
        Selection::ExcludeByIndex(rows) => {
            push_numbers(alloc, "; exclude", rows.as_slice(), text)
        }
    }
}

/// Projection, filter, range, selection, partitions, order and limit.
fn told_request(alloc: Global, request: &ScanRequest) -> Result<String, NoMemory> {
    let mut text = request.projection.to_string(alloc)?;
    if let Some(filter) = &request.filter {
        text.push_str(format!(in alloc; "; filter {filter}")?.as_str())?;
    }
    push_range(alloc, "rows", &request.row_range, &mut text)?;
    push_selection(alloc, &request.selection, &mut text)?;
    push_range(alloc, "partitions", &request.partition_range, &mut text)?;
    let is_ordered = request.ordered;
    text.push_str(if is_ordered {
        "; ordered"
    } else {
        "; unordered"
    })?;
    if let Some(limit) = request.limit {
        text.push_str(format!(in alloc; "; limit {limit}")?.as_str())?;
    }
    Ok(text)
}

/// The layouts of files, one behind the other, with a bar for each end of a line.
fn told_layouts(alloc: Global, files: Files) -> Result<String, NoMemory> {
    let mut all = String::new(alloc);
    for file in files.into_vec() {
        let root = file.layout.into_root();
        all.push_str(root.to_string(alloc)?.as_str())?;
    }
    Ok(all.replace(alloc, "\n", "|")?)
}

/// Each file: its name, dtype and rows, its segments, whether it is skipped, and which polls fail and wait.
fn told_files(alloc: Global, files: Files) -> Result<String, NoMemory> {
    let mut text = String::new(alloc);
    for file in files.into_vec() {
        push_file(alloc, file, &mut text)?;
        text.push_str(".")?;
    }
    Ok(text)
}

fn push_file(alloc: Global, file: FileSpec, text: &mut String) -> Result<(), NoMemory> {
    let FileSpec {
        id,
        layout,
        segments,
        skip,
        opener,
        source,
    } = file;
    text.push_str(id.as_str())?;
    push_root(alloc, layout.into_root(), text)?;
    push_segments(alloc, segments, text)?;
    text.push_str(if skip { "; skipped" } else { "" })?;
    push_calls(alloc, "; open", &opener, text)?;
    push_calls(alloc, "; source", &source, text)
}

fn push_root(alloc: Global, root: LayoutRef, text: &mut String) -> Result<(), NoMemory> {
    let dtype = root.dtype();
    let rows = root.row_count();
    text.push_str(format!(in alloc; ": {dtype}, {rows} rows")?.as_str())?;
    Ok(())
}

fn push_segments(alloc: Global, segments: Segments, text: &mut String) -> Result<(), NoMemory> {
    let segments = segments.into_map();
    for (id, bytes) in &segments {
        let id = **id;
        text.push_str(format!(in alloc; "; {id}")?.as_str())?;
        push_bytes(alloc, bytes.as_slice(), text)?;
    }
    Ok(())
}

fn push_bytes(alloc: Global, bytes: &[u8], text: &mut String) -> Result<(), NoMemory> {
    for byte in bytes {
        text.push_str(format!(in alloc; " {byte}")?.as_str())?;
    }
    Ok(())
}

fn push_calls(alloc: Global, what: &str, calls: &Calls, text: &mut String) -> Result<(), NoMemory> {
    text.push_str(what)?;
    if !calls.fail.as_slice().is_empty() {
        push_numbers(alloc, " fails", calls.fail.as_slice(), text)?;
    }
    if !calls.pending.as_slice().is_empty() {
        push_numbers(alloc, " waits", calls.pending.as_slice(), text)?;
    }
    Ok(())
}
