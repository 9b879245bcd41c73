//! Rows of a scalar dtype, written as a leaf.
ghost use Rattle.std.specs.Prelude.{◌≡◌, ◌<◌, ◌≤◌, ◌+◌, All, IfOk, IfErr, Some, length, map, max, min, slice_range, true};
ghost use Rattle.scan_values.specs.Arrays.{of_parts};
ghost use Rattle.scan_values.specs.Kinds.{is_scalar_type};
ghost use Rattle.scan_spelling.specs.Places.{decoded, place_of};
ghost use Rattle.scan_spelling.specs.Spelling.{decode};
ghost use Rattle.scan_spelling.specs.Written.{TextFits};
ghost use Rattle.scan_layout.specs.Layout.{node, nodes, no_nodes};
ghost use Rattle.scan_layout.specs.LayoutView.{layouts_of};
ghost use Rattle.scan_encode.specs.Encoded.{Has, IsOf, stored};
ghost use Rattle.scan_encode.specs.Parts.{AllOf};
ghost use Rattle.scan_encode.specs.Rows.{leaf_value};
ghost use Rattle.scan_encode.specs.RowsIn.{rows_in};
ghost use Rattle.scan_encode.specs.Faults.{IsFull};

use crate::fault::RowsFault;
use crate::rows::leaf_values;
use crate::segments::Segments;
use scan_layout::{LayoutKind, LayoutNode, LayoutRef, LeafSegments};
use scan_segments::SegmentId;
use scan_spelling::{EncodeFault, Spelling, encode_segment};
use scan_values::{Array, DType, NoMemory, Value};
use std::alloc::Global;

/// How rows are written.
#[derive(Clone, Copy, Debug, PartialEq, Eq)]
pub struct WriteOptions {
    /// How many rows a segment of a leaf has at most. 0 stands for 1.
    pub segment_rows: usize,
    pub spelling: Spelling,
}

/// The rows of a leaf, as an array.
#[tactic(auto, using(crate::proofs::RowsOf::array_fits))]
fn leaf_array(alloc: Global, dtype: &DType, rows: &[Option<&Value>]) -> Result<Array, NoMemory>
    requires scalar { is_scalar_type dtype.now ≡ true }
    requires fit { AllOf dtype.now (rows_in rows.now) }
    ensures { IfOk result (λ a. a ≡ of_parts dtype.now (map (leaf_value dtype.now) (rows_in rows.now))) }
{
    let dtype_again = dtype.try_clone(alloc)?;
    let values = leaf_values(alloc, dtype, rows)?;
    Ok(Array::of_fitting(dtype_again, values))
}

/// The bytes of a segment of an array whose texts fit.
fn encoded(alloc: Global, spelling: Spelling, a: &Array) -> Result<Vec<u8>, RowsFault>
    requires scalar { is_scalar_type a.now.dtype ≡ true }
    requires short { All TextFits a.now.items }
    ensures again { IfOk result (λ v. decode spelling a.now.dtype (length a.now.items) v.items ≡ Some a.now.items) }
    ensures refused { IfErr result (λ e. e ≡ RowsFault.NoMemory) }
{
    match encode_segment(alloc, spelling, a) {
        Ok(bytes) => Ok(bytes),
        Err(EncodeFault::TooLong) => unreachable!(),
        Err(EncodeFault::NoMemory) => Err(RowsFault::NoMemory),
    }
}

/// The bytes of a segment of rows.
fn segment_bytes(
    alloc: Global,
    spelling: Spelling,
    dtype: &DType,
    rows: &[Option<&Value>],
) -> Result<Vec<u8>, RowsFault>
    requires scalar { is_scalar_type dtype.now ≡ true }
    requires fit { AllOf dtype.now (rows_in rows.now) }
    ensures again { IfOk result (λ v. decode spelling dtype.now (length rows.now) v.items
        ≡ Some (map (leaf_value dtype.now) (rows_in rows.now))) }
    ensures refused { IfErr result (λ e. e ≡ RowsFault.NoMemory) }
{
    let array = leaf_array(alloc, dtype, rows)?;
    encoded(alloc, spelling, &array)
}

/// Writes rows as the next segment. Gives its number.
fn push_segment(
    alloc: Global,
    spelling: Spelling,
    dtype: &DType,
    rows: &[Option<&Value>],
    segments: &mut Segments,
) -> Result<SegmentId, RowsFault>
    requires scalar { is_scalar_type dtype.now ≡ true }
    requires fit { AllOf dtype.now (rows_in rows.now) }
    ensures held { IfOk result (λ id. decoded (stored segments.new) (place_of dtype.now spelling (id, length rows.now))
        ≡ Some (map (leaf_value dtype.now) (rows_in rows.now))) }
    ensures has { Has (stored segments.new) segments.old }
    ensures refused { IfErr result (IsFull segments.new) }
{
    let bytes = segment_bytes(alloc, spelling, dtype, rows)?;
    segments.push(bytes)
}

/// Where the segment of some rows ends that begins here.
fn end_of(start: usize, segment_rows: usize, rows: usize) -> usize
    requires { start < rows }
    ensures after { start < result }
    ensures within { result ≤ rows }
{
    let most = segment_rows.max(1);
    if most < rows - start {
        start + most
    } else {
        rows
    }
}

/// Rows from a place to another.
fn part_of<'a, 'b>(
    rows: &'b [Option<&'a Value>],
    start: usize,
    end: usize,
) -> &'b [Option<&'a Value>]
    requires ordered { start ≤ end }
    requires within { end ≤ length rows.now }
    ensures { result.now ≡ slice_range rows.now start end }
{
    &rows[start..end]
}

/// A leaf of these segments.
fn leaf_of(
    alloc: Global,
    spelling: Spelling,
    dtype: &DType,
    rows: usize,
    segments: Vec<(SegmentId, u64)>,
) -> Result<LayoutRef, NoMemory>
    ensures { IfOk result (λ l. l.value ≡ node dtype.now rows (LayoutKind.Leaf segments.items spelling) no_nodes) }
{
    let kind = LayoutKind::Leaf(LeafSegments::new(segments), spelling);
    node_of(alloc, dtype, rows, kind, Vec::new(alloc))
}

/// Writes rows, of which there are so many, in segments of so many, and gives the leaf of them.
fn push_parts(
    alloc: Global,
    options: &WriteOptions,
    dtype: &DType,
    rows: &[Option<&Value>],
    count: usize,
    segments: &mut Segments,
) -> Result<LayoutRef, RowsFault>
    requires count { count ≡ length rows.now }
    requires scalar { is_scalar_type dtype.now ≡ true }
    requires fit { AllOf dtype.now (rows_in rows.now) }
    ensures leaf { IfOk result (λ l. IsOf dtype.now (rows_in rows.now) segments.new l.value) }
    ensures has { Has (stored segments.new) segments.old }
    ensures refused { IfErr result (IsFull segments.new) }
{
    let mut made = Vec::new(alloc);
    let mut start = 0;
    while start < count {
        let end = end_of(start, options.segment_rows, count);
        let part = part_of(rows, start, end);
        let id = push_segment(alloc, options.spelling, dtype, part, segments)?;
        made.push((id, part.len() as u64))?;
        start = end;
    }
    Ok(leaf_of(alloc, options.spelling, dtype, count, made)?)
}

/// Writes rows as a leaf, in segments of so many.
pub(crate) fn push_leaf(
    alloc: Global,
    options: &WriteOptions,
    dtype: &DType,
    rows: &[Option<&Value>],
    segments: &mut Segments,
) -> Result<LayoutRef, RowsFault>
    requires scalar { is_scalar_type dtype.now ≡ true }
    requires fit { AllOf dtype.now (rows_in rows.now) }
    ensures leaf { IfOk result (λ l. IsOf dtype.now (rows_in rows.now) segments.new l.value) }
    ensures has { Has (stored segments.new) segments.old }
    ensures refused { IfErr result (IsFull segments.new) }
{
    push_parts(alloc, options, dtype, rows, rows.len(), segments)
}

/// A node of these parts.
pub(crate) fn node_of(
    alloc: Global,
    dtype: &DType,
    rows: usize,
    kind: LayoutKind,
    children: Vec<LayoutRef>,
) -> Result<LayoutRef, NoMemory>
    ensures { IfOk result (λ l. l.value ≡ node dtype.now rows kind (nodes (layouts_of children.items))) }
{
    LayoutNode::from_parts(alloc, dtype.try_clone(alloc)?, rows as u64, kind, children)
}
