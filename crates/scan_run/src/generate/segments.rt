//! A column in segments of a thousand rows, the last one shorter.
ghost use Rattle.std.specs.Prelude.{◌≡◌, ◌≤◌, ◌+◌, ◌*◌, ◌++◌, [], ◌∷◌, min, List, Some, IfOk, OnOk, length, map};
ghost use Rattle.scan_values.specs.Val.{Val};
ghost use Rattle.scan_spelling.specs.Spelling.{decode};
ghost use Rattle.scan_spelling.specs.Written.{spelled};
ghost use Rattle.scan_run.specs.Generated.{piece_count, pieces, piece_rows, value_type, values, column_segments, numbered};
ghost use Rattle.scan_run.specs.GeneratedBytes.{cut_bytes};

use super::columns::value_bytes;
use super::request::value_type;
use scan_layout::{Spelling, recode_segment};
use scan_segments::{ByteBuffer, SegmentId};
use scan_values::NoMemory;
use std::alloc::Global;
use std::collections::BTreeMap;

/// The rows of a segment, but for the last one of a column.
const PIECE: usize = 1000;

// How many segments so many rows have.
pub(super) fn piece_count(rows: usize) -> usize
    requires { rows ≤ 1_000_000 }
    ensures { result ≡ piece_count rows }
{
    (rows + 999) / PIECE
}

// The first row after a segment.
fn piece_end(piece: usize, rows: usize) -> usize
    requires { piece ≤ 1_000_000 }
    ensures { result ≡ min (1000 * piece + 1000) rows }
{
    (PIECE * piece + PIECE).min(rows)
}

// The number and the rows of each segment of so many rows, from a number on.
pub(super) fn pieces_of(
    alloc: Global,
    first: u32,
    rows: usize,
) -> Result<Vec<(SegmentId, u64)>, NoMemory>
    requires rows { rows ≤ 1_000_000 }
    requires first { first ≤ 1_000_000 }
    ensures { IfOk result (λ v. v.items ≡ numbered first (piece_rows rows)) }
{
    let count = piece_count(rows);
    let mut made = Vec::with_capacity(alloc, count)?;
    for piece in 0..count {
        let id = SegmentId::from(first + piece as u32);
        made.push((id, (piece_end(piece, rows) - PIECE * piece) as u64))?;
    }
    Ok(made)
}

// One more segment, numbered after those that are there.
fn push_segment(
    alloc: Global,
    segments: &mut Vec<ByteBuffer>,
    bytes: Vec<u8>,
) -> Result<(), NoMemory>
    ensures { OnOk result (segments.new.items ≡ segments.old.items ++ bytes.items ∷ []) }
{
    segments.push(ByteBuffer::new(alloc, bytes)?)?;
    Ok(())
}

// The segments of so many rows whose slots have one width.
pub(super) fn push_column(
    alloc: Global,
    segments: &mut Vec<ByteBuffer>,
    slots: &[u8],
    width: usize,
    rows: usize,
) -> Result<(), NoMemory>
    requires few { rows ≤ 1_000_000 }
    requires narrow { width ≤ 8 }
    requires long { length slots.now ≡ width * rows }
    ensures { OnOk result (segments.new.items ≡ segments.old.items ++ map (cut_bytes width slots.now) (pieces rows)) }
{
    for piece in 0..piece_count(rows) {
        let start = width * (PIECE * piece);
        let end = width * piece_end(piece, rows);
        let bytes = Vec::from_slice(alloc, &slots[start..end])?;
        push_segment(alloc, segments, bytes)?;
    }
    Ok(())
}

// The bytes of a segment of values in spelling 1, in a spelling.
fn respelled(
    alloc: Global,
    spelling: Spelling,
    rows: u64,
    bytes: Vec<u8>,
) -> Result<Vec<u8>, NoMemory>
    ensures { IfOk result (λ v. (vs : List Val) → decode Spelling.One value_type rows bytes.items ≡ Some vs →
        bytes.items ≡ spelled Spelling.One value_type vs → v.items ≡ spelled spelling value_type vs) }
{
    match spelling {
        Spelling::One => Ok(bytes),
        Spelling::Two => {
            let dtype = value_type();
            match recode_segment(
                alloc,
                Spelling::One,
                Spelling::Two,
                &dtype,
                rows,
                bytes.as_slice(),
            ) {
                Ok(bytes) => Ok(bytes),
                Err(_) => Err(NoMemory),
            }
        }
    }
}

// The segment of the values of so many rows.
fn value_segment(
    alloc: Global,
    spelling: Spelling,
    first: u32,
    count: u32,
) -> Result<Vec<u8>, NoMemory>
    requires { first + count ≤ 300_000 }
    ensures { IfOk result (λ v. v.items ≡ spelled spelling value_type (values first count)) }
{
    let bytes = value_bytes(alloc, first, count)?;
    respelled(alloc, spelling, count as u64, bytes)
}

// The segments of the values of so many rows.
pub(super) fn push_values(
    alloc: Global,
    segments: &mut Vec<ByteBuffer>,
    spelling: Spelling,
    first: u32,
    count: u32,
) -> Result<(), NoMemory>
    requires { first + count ≤ 300_000 }
    ensures { OnOk result (segments.new.items ≡ segments.old.items
        ++ column_segments spelling value_type (values first count)) }
{
    let rows = count as usize;
    for piece in 0..piece_count(rows) {
        let start = PIECE * piece;
        let end = piece_end(piece, rows);
        let bytes = value_segment(alloc, spelling, first + start as u32, (end - start) as u32)?;
        push_segment(alloc, segments, bytes)?;
    }
    Ok(())
}

// The segments under their numbers.
pub(super) fn by_number(
    alloc: Global,
    segments: Vec<ByteBuffer>,
) -> Result<BTreeMap<SegmentId, ByteBuffer>, NoMemory>
    ensures { IfOk result (λ m. m.entries ≡ numbered 0 segments.items) }
{
    let mut map = BTreeMap::new(alloc);
    let mut id: u32 = 0;
    for bytes in segments {
        map.insert(SegmentId::from(id), bytes)?;
        let Some(next) = id.checked_add(1) else {
            return Err(NoMemory);
        };
        id = next;
    }
    Ok(map)
}
