//! Generated files, as objects in memory.
ghost use Rattle.std.specs.Prelude.{◌≡◌, ◌≤◌, ◌+◌, ◌++◌, [], ◌∷◌, IfOk, OnOk, length};
ghost use Rattle.scan_spelling.specs.Written.{slots};
ghost use Rattle.scan_layout.specs.LayoutView.{layouts_of};
ghost use Rattle.scan_run.specs.Generated.{piece_count, ids, elements, offsets, number_type, column_segments, file_segments, leaf_layout, list_layout, file_layout};
ghost use Rattle.scan_run.specs.GeneratedBytes.{bytes_only};
ghost use Rattle.scan_run.specs.GeneratedFiles.{GivesLayout, IsGeneratedSource, IsGeneratedFile, AreGenerated};
ghost use Rattle.scan_run.specs.FileOf.{memory_opener};
ghost use Rattle.scan_segments.specs.MemorySource.{source_state};
ghost use Rattle.scan_spelling.specs.declared.spelling.Spelling.{Spelling};

use super::columns::{element_bytes, id_words, offset_words};
use super::request::{lists_type, number_type, table_type, value_type};
use super::segments::{by_number, piece_count, pieces_of, push_column, push_values};
use crate::memory_input::no_numbers;
use scan_drive::ScanFile;
use scan_layout::{LayoutKind, LayoutNode, LayoutRef, LeafSegments, Spelling};
use scan_opener::MemoryOpener;
use scan_segments::{ByteBuffer, MemorySource, SegmentSourceId};
use scan_values::{DType, NoMemory, PType};
use std::alloc::Global;

// A leaf of so many rows, whose segments are numbered from a number on.
fn leaf(
    alloc: Global,
    spelling: Spelling,
    dtype: DType,
    first: u32,
    rows: usize,
) -> Result<LayoutRef, NoMemory>
    requires few { rows ≤ 1_000_000 }
    requires first { first ≤ 1_000_000 }
    ensures { IfOk result (λ r. r.value ≡ leaf_layout spelling dtype first rows) }
{
    let segments = LeafSegments::new(pieces_of(alloc, first, rows)?);
    let kind = LayoutKind::Leaf(segments, spelling);
    LayoutNode::from_parts(alloc, dtype, rows as u64, kind, Vec::new(alloc))
}

// Two layouts.
fn pair(alloc: Global, first: LayoutRef, second: LayoutRef) -> Result<Vec<LayoutRef>, NoMemory>
    ensures { IfOk result (λ v. layouts_of v.items ≡ first.value ∷ second.value ∷ []) }
{
    let mut made = Vec::new(alloc);
    made.push(first)?;
    made.push(second)?;
    Ok(made)
}

// The leaves of the lists of so many rows.
fn list_leaves(
    alloc: Global,
    spelling: Spelling,
    first: u32,
    elements: usize,
    rows: usize,
) -> Result<Vec<LayoutRef>, NoMemory>
    requires few { rows ≤ 100_000 }
    requires short { elements ≤ 400_000 }
    requires first { first ≤ 1000 }
    ensures { IfOk result (λ v. layouts_of v.items ≡ leaf_layout spelling (number_type PType.U8) first elements
        ∷ leaf_layout spelling (number_type PType.U32) (first + piece_count elements) (rows + 1) ∷ []) }
{
    let second = first + piece_count(elements) as u32;
    let items = leaf(alloc, spelling, number_type(PType::U8), first, elements)?;
    let offsets = leaf(alloc, spelling, number_type(PType::U32), second, rows + 1)?;
    pair(alloc, items, offsets)
}

// The lists of so many rows.
fn list_layout(
    alloc: Global,
    spelling: Spelling,
    first: u32,
    elements: usize,
    rows: usize,
) -> Result<LayoutRef, NoMemory>
    requires few { rows ≤ 100_000 }
    requires short { elements ≤ 400_000 }
    requires first { first ≤ 1000 }
    ensures { IfOk result (λ r. r.value ≡ list_layout spelling first elements rows) }
{
    let children = list_leaves(alloc, spelling, first, elements, rows)?;
    let dtype = lists_type(alloc)?;
    LayoutNode::from_parts(
        alloc,
        dtype,
        rows as u64,
        LayoutKind::List(PType::U32),
        children,
    )
}

// The layout of a file of so many rows, whose lists have so many elements.
fn file_layout(
    alloc: Global,
    spelling: Spelling,
    elements: usize,
    rows: usize,
) -> Result<LayoutRef, NoMemory>
    requires few { rows ≤ 100_000 }
    requires short { elements ≤ 400_000 }
    ensures { IfOk result (λ r. r.value ≡ file_layout spelling elements rows) }
{
    let count = piece_count(rows) as u32;
    let id = leaf(alloc, spelling, number_type(PType::U32), 0, rows)?;
    let value = leaf(alloc, spelling, value_type(), count, rows)?;
    let list = list_layout(alloc, spelling, 2 * count, elements, rows)?;
    let mut children = pair(alloc, id, value)?;
    children.push(list)?;
    let dtype = table_type(alloc)?;
    LayoutNode::from_parts(alloc, dtype, rows as u64, LayoutKind::Struct, children)
}

// The segments of the ids.
fn push_ids(
    alloc: Global,
    segments: &mut Vec<ByteBuffer>,
    first: u32,
    count: u32,
) -> Result<(), NoMemory>
    requires { first + count ≤ 300_000 }
    ensures { OnOk result ((s : Spelling) → segments.new.items
        ≡ segments.old.items ++ column_segments s (number_type PType.U32) (ids first count)) }
{
    let words = id_words(alloc, first, count)?;
    let bytes = words.as_flattened();
    push_column(alloc, segments, bytes, 4, count as usize)
}

// The segments of the offsets.
fn push_offsets(
    alloc: Global,
    segments: &mut Vec<ByteBuffer>,
    first: u32,
    count: u32,
) -> Result<(), NoMemory>
    requires { first + count ≤ 300_000 }
    ensures { OnOk result ((s : Spelling) → segments.new.items
        ≡ segments.old.items ++ column_segments s (number_type PType.U32) (offsets first count)) }
{
    let words = offset_words(alloc, first, count)?;
    let bytes = words.as_flattened();
    push_column(alloc, segments, bytes, 4, count as usize + 1)
}

// All segments of a file, of which the elements are written.
fn file_segments(
    alloc: Global,
    spelling: Spelling,
    written: &[u8],
    first: u32,
    count: u32,
) -> Result<Vec<ByteBuffer>, NoMemory>
    requires rows { first + count ≤ 300_000 }
    requires written { written.now ≡ slots bytes_only (elements first count) }
    requires few { length written.now ≤ 400_000 }
    ensures { IfOk result (λ v. v.items ≡ file_segments spelling first count) }
{
    let mut segments = Vec::new(alloc);
    push_ids(alloc, &mut segments, first, count)?;
    push_values(alloc, &mut segments, spelling, first, count)?;
    push_column(alloc, &mut segments, written, 1, written.len())?;
    push_offsets(alloc, &mut segments, first, count)?;
    Ok(segments)
}

// The source of the segments of a file.
fn make_source(
    alloc: Global,
    spelling: Spelling,
    written: &[u8],
    first: u32,
    count: u32,
) -> Result<MemorySource, NoMemory>
    requires rows { first + count ≤ 300_000 }
    requires written { written.now ≡ slots bytes_only (elements first count) }
    requires few { length written.now ≤ 400_000 }
    ensures { IfOk result (λ s. IsGeneratedSource spelling first count (source_state s)) }
{
    let segments = file_segments(alloc, spelling, written, first, count)?;
    let map = by_number(alloc, segments)?;
    Ok(MemorySource::new(alloc, map, no_numbers(alloc), no_numbers(alloc)))
}

// An opener that gives a layout.
fn make_opener(alloc: Global, layout: LayoutRef) -> MemoryOpener
    ensures { GivesLayout layout.value (memory_opener result) }
{
    MemoryOpener::new(Some(layout), no_numbers(alloc), no_numbers(alloc))
}

fn make_name(alloc: Global, name: &str) -> Result<SegmentSourceId, NoMemory>
    ensures { IfOk result (λ s. s ≡ name.now) }
{
    let text = String::from_str(alloc, name)?;
    SegmentSourceId::new(alloc, text)
}

// A file of so many rows, numbered from a number on.
fn make_file(
    alloc: Global,
    name: &str,
    spelling: Spelling,
    first: u32,
    count: u32,
) -> Result<ScanFile<MemoryOpener, MemorySource>, NoMemory>
    requires rows { first + count ≤ 300_000 }
    requires few { count ≤ 100_000 }
    ensures { IfOk result (λ f. IsGeneratedFile spelling name.now first count f) }
{
    let written = element_bytes(alloc, first, count)?;
    let layout = file_layout(alloc, spelling, written.len(), count as usize)?;
    let source = make_source(alloc, spelling, written.as_slice(), first, count)?;
    let source_id = make_name(alloc, name)?;
    Ok(ScanFile {
        opener: make_opener(alloc, layout),
        source,
        source_id,
    })
}

/// Three files of so many rows each.
pub(crate) fn make_files(
    alloc: Global,
    rows: u32,
    spelling: Spelling,
) -> Result<Vec<ScanFile<MemoryOpener, MemorySource>>, NoMemory>
    requires { rows ≤ 100_000 }
    ensures { IfOk result (λ v. AreGenerated spelling rows v.items) }
{
    let mut files = Vec::with_capacity(alloc, 3)?;
    files.push(make_file(alloc, "gen0", spelling, 0, rows)?)?;
    files.push(make_file(alloc, "gen1", spelling, rows, rows)?)?;
    files.push(make_file(alloc, "gen2", spelling, 2 * rows, rows)?)?;
    Ok(files)
}
