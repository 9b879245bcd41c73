//! Files that are written of a layout and its segments.
ghost use Rattle.std.specs.Prelude.{◌≡◌, ◌≤◌, ◌+◌, ◌^◌, [], List, ℕ, IfOk, IfErr, OnOk, false, length};
ghost use Rattle.std.specs.Int.{w64, to_le_bytes};
ghost use Rattle.scan_values.specs.DataType.{depth_of};
ghost use Rattle.scan_layout.specs.Form.{HasForm};
ghost use Rattle.scan_layout.specs.Layout.{dtype_of};
ghost use Rattle.scan_encode.specs.SegmentsView.{bytes_of};
ghost use Rattle.scan_disk_writer.specs.FileBytes.{end_bytes, framed, joined, placed, places_from, sealed};
ghost use Rattle.scan_disk_writer.specs.Out.{behind, IsOut};
ghost use Rattle.scan_disk_writer.specs.Written.{IsFile, IsRefused, IsServed, IsTooMuch};

use crate::bytes_out::BytesOut;
use crate::fault::{OutFault, WriteFault};
use crate::footer::footer_text;
use scan_disk::Place;
use scan_encode::Segments;
use scan_layout::LayoutNode;
use sha2::{Digest, Sha256};
use std::alloc::Global;

/// What a file begins and ends with.
const MAGIC: [u8; 8] = *b"SIBLAG02";

/// How deep the dtype of a file is at most.
const DEEPEST: u32 = 42;

/// Refuses a layout that no file has.
fn check_layout(layout: &LayoutNode) -> Result<(), WriteFault>
    ensures served { OnOk result (IsServed layout.now) }
    ensures form { OnOk result (HasForm layout.now (dtype_of layout.now)) }
    ensures refused { IfErr result (IsRefused layout.now [] false) }
{
    let dtype = layout.dtype();
    let depth = dtype.depth();
    if depth > DEEPEST {
        return Err(WriteFault::Depth);
    }
    match layout.check(dtype) {
        Ok(()) => Ok(()),
        Err(fault) => Err(WriteFault::Layout(fault)),
    }
}

/// A segment's place, that begins here.
fn placed(offset: u64, segment: &[u8]) -> Place
    ensures { result ≡ placed offset segment.now }
{
    Place {
        offset,
        length: segment.len() as u64,
        digest: Sha256::digest(segment),
    }
}

/// Where the next segment begins.
fn end_of(offset: u64, segment: &[u8]) -> Result<u64, WriteFault>
    ensures end { IfOk result (λ end. end ≡ offset + length segment.now) }
    ensures size { IfErr result (λ e. (e ≡ WriteFault.Size) × (2 ^ 64 ≤ offset + length segment.now)) }
{
    match offset.checked_add(segment.len() as u64) {
        Some(end) => Ok(end),
        None => Err(WriteFault::Size),
    }
}

/// Where each segment stands, one after the other behind the first magic.
fn places_of(alloc: Global, segments: &[Vec<u8>]) -> Result<Vec<Place>, WriteFault>
    ensures places { IfOk result (λ v. v.items ≡ places_from 8 (bytes_of segments.now)) }
    ensures refused { IfErr result (IsTooMuch (bytes_of segments.now)) }
{
    let mut made = Vec::new(alloc);
    let mut offset = 8u64;
    for segment in segments {
        let bytes = segment.as_slice();
        made.push(placed(offset, bytes))?;
        let end = match end_of(offset, bytes) {
            Ok(end) => end,
            Err(fault) => return Err(fault),
        };
        offset = end;
    }
    Ok(made)
}

/// Writes the segments, one after the other.
fn append_all<W: BytesOut>(out: &mut W, segments: &[Vec<u8>]) -> Result<(), OutFault>
    ensures taken { OnOk result (W.taken out.new ≡ behind (joined (bytes_of segments.now)) (W.taken out.old)) }
    ensures fails { IfErr result (IsOut W.can_fail) }
{
    for segment in segments {
        out.append(segment.as_slice())?;
    }
    Ok(())
}

/// The number of a footer's bytes, as bytes.
fn length_bytes(footer: &[u8]) -> [u8; 8]
    ensures { result ≡ to_le_bytes w64 (length footer.now) }
{
    (footer.len() as u64).to_le_bytes()
}

/// Writes a footer and its digest.
fn append_sealed<W: BytesOut>(out: &mut W, footer: &[u8]) -> Result<(), OutFault>
    ensures taken { OnOk result (W.taken out.new ≡ behind (sealed footer.now) (W.taken out.old)) }
    ensures fails { IfErr result (IsOut W.can_fail) }
{
    let digest = Sha256::digest(footer);
    out.append(footer)?;
    out.append(&digest)
}

/// Writes a footer and its digest, its length and the last magic.
fn append_end<W: BytesOut>(out: &mut W, footer: &[u8]) -> Result<(), OutFault>
    ensures taken { OnOk result (W.taken out.new ≡ behind (end_bytes footer.now) (W.taken out.old)) }
    ensures fails { IfErr result (IsOut W.can_fail) }
{
    let word = length_bytes(footer);
    append_sealed(out, footer)?;
    out.append(&word)?;
    out.append(&MAGIC)
}

/// Writes a file of these segments and this footer.
fn append_file<W: BytesOut>(
    out: &mut W,
    segments: &[Vec<u8>],
    footer: &[u8],
) -> Result<(), OutFault>
    ensures taken { OnOk result (W.taken out.new ≡ behind (framed (joined (bytes_of segments.now)) footer.now) (W.taken out.old)) }
    ensures fails { IfErr result (IsOut W.can_fail) }
{
    out.append(&MAGIC)?;
    append_all(out, segments)?;
    append_end(out, footer)
}

/// Writes a file of segments that stand at these places.
fn write_placed<W: BytesOut>(
    alloc: Global,
    out: &mut W,
    layout: &LayoutNode,
    segments: &[Vec<u8>],
    places: &[Place],
) -> Result<(), WriteFault>
    requires shallow { depth_of (dtype_of layout.now) ≤ 42 }
    requires form { HasForm layout.now (dtype_of layout.now) }
    requires few { length (bytes_of segments.now) ≤ 2 ^ 32 }
    requires places { places.now ≡ places_from 8 (bytes_of segments.now) }
    ensures written { OnOk result ((bytes : List ℕ) × IsFile layout.now (bytes_of segments.now) bytes
        × (W.taken out.new ≡ behind bytes (W.taken out.old))) }
    ensures refused { IfErr result (IsRefused layout.now (bytes_of segments.now) W.can_fail) }
{
    let footer = footer_text(alloc, layout, places)?;
    match append_file(out, segments, footer.as_bytes()) {
        Ok(()) => Ok(()),
        Err(OutFault::Failed) => Err(WriteFault::Failed),
        Err(OutFault::NoMemory) => Err(WriteFault::NoMemory),
    }
}

/// Writes a file of a layout that a file can have.
fn write_checked<W: BytesOut>(
    alloc: Global,
    out: &mut W,
    layout: &LayoutNode,
    segments: &[Vec<u8>],
) -> Result<(), WriteFault>
    requires shallow { depth_of (dtype_of layout.now) ≤ 42 }
    requires form { HasForm layout.now (dtype_of layout.now) }
    requires few { length (bytes_of segments.now) ≤ 2 ^ 32 }
    ensures written { OnOk result ((bytes : List ℕ) × IsFile layout.now (bytes_of segments.now) bytes
        × (W.taken out.new ≡ behind bytes (W.taken out.old))) }
    ensures refused { IfErr result (IsRefused layout.now (bytes_of segments.now) W.can_fail) }
{
    match places_of(alloc, segments) {
        Ok(places) => write_placed(alloc, out, layout, segments, places.as_slice()),
        Err(fault) => Err(fault),
    }
}

/// Writes a file of this layout and these segments, in the form of docs/FILES.md.
///
/// # Errors
/// `Depth` exactly where the dtype is more than 42 deep, else `Layout` exactly where the layout is not well-formed, with
/// its first fault: nothing is written then. `Size` where the segments have more bytes than a u64 counts, `Failed` where
/// a write failed, and `NoMemory`.
pub fn write_file<W: BytesOut>(
    alloc: Global,
    out: &mut W,
    layout: &LayoutNode,
    segments: &Segments,
) -> Result<(), WriteFault>
    ensures served { OnOk result (IsServed layout.now) }
    ensures written { OnOk result ((bytes : List ℕ) × IsFile layout.now segments.now bytes
        × (W.taken out.new ≡ behind bytes (W.taken out.old))) }
    ensures refused { IfErr result (IsRefused layout.now segments.now W.can_fail) }
{
    match check_layout(layout) {
        Ok(()) => write_checked(alloc, out, layout, segments.as_slice()),
        Err(fault) => Err(fault),
    }
}
