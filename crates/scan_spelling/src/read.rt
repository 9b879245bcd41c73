//! Reads a segment.
ghost use Rattle.std.specs.Prelude.{◌≡◌, ◌≤◌, length, take, replicate, if◌then◌else◌, IfOk, List, Some, None, map, option_and_then, IsTrue, true};
ghost use Rattle.scan_values.specs.Fits.{fits_all};
ghost use Rattle.std.specs.Str.{is_utf8};
ghost use Rattle.scan_values.specs.Kinds.{is_scalar_type, kind_of};
ghost use Rattle.scan_values.specs.DataType.{nullability_of};
ghost use Rattle.scan_values.specs.Val.{Val, bool_val, int_val, text_val, vals_of, marked_all};
ghost use Rattle.scan_values.specs.Values.{val_of};
ghost use Rattle.scan_spelling.specs.Spelling.{
  part,
  framed,
  slot,
  content,
  under_flag,
  cell,
  cells,
  bits_of,
  bytes_for,
  decode_slots,
  decode_under,
  decode,
  flags_in,
  group_size,
  width,
  int_of,
  bool_of,
  IsSlot,
};
ghost use Rattle.scan_spelling.specs.Spells.{Spells};
ghost use Rattle.scan_spelling.specs.Decoded.{Gives};

use crate::bits::{bit, bytes_for, is_group};
use crate::spelling::{DecodeFault, Spelling};
use scan_values::{Array, DType, DTypeKind, NoMemory, Nullability, PType, Text, Value};
use std::alloc::Global;

/// So many bytes, and those after them.
pub(crate) fn part(bytes: &[u8], n: usize) -> Result<(&[u8], &[u8]), DecodeFault>
    ensures { Gives (λ x. (x.0.now, x.1.now)) result (part n bytes.now) }
{
    if bytes.len() < n {
        return Err(DecodeFault::Spelling);
    }
    Ok(bytes.split_at(n))
}

/// A text's bytes, and those after them.
pub(crate) fn framed(bytes: &[u8]) -> Result<(&[u8], &[u8]), DecodeFault>
    ensures { Gives (λ x. (x.0.now, x.1.now)) result (framed bytes.now) }
{
    match bytes.split_first_chunk::<4>() {
        Some((length, rest)) => part(rest, u32::from_le_bytes(*length) as usize),
        None => Err(DecodeFault::Spelling),
    }
}

/// The number of bytes of an integer.
pub(crate) fn width(ptype: PType) -> usize
    ensures { result ≡ width ptype }
{
    match ptype {
        PType::U8 | PType::I8 => 1,
        PType::U16 | PType::I16 => 2,
        PType::U32 | PType::I32 => 4,
        PType::U64 | PType::I64 => 8,
    }
}

// The bytes of a slot, and those after them.
fn slot(kind: DTypeKind, bytes: &[u8]) -> Result<(&[u8], &[u8]), DecodeFault>
    ensures { Gives (λ x. (x.0.now, x.1.now)) result (slot kind bytes.now) }
{
    match kind {
        DTypeKind::Bool => part(bytes, 1),
        DTypeKind::Primitive(ptype) => part(bytes, width(ptype)),
        DTypeKind::Utf8 => framed(bytes),
        DTypeKind::List | DTypeKind::Struct => Err(DecodeFault::Spelling),
    }
}

/// The number that the bytes are.
pub(crate) fn int_of(ptype: PType, bytes: &[u8]) -> i128
    requires { length bytes.now ≡ width ptype }
    ensures { result ≡ int_of ptype bytes.now }
{
    match ptype {
        PType::U8 => i128::from(bytes[0]),
        PType::I8 => i128::from(i8::from_le_bytes([bytes[0]])),
        PType::U16 => i128::from(u16::from_le_bytes([bytes[0], bytes[1]])),
        PType::I16 => i128::from(i16::from_le_bytes([bytes[0], bytes[1]])),
        PType::U32 => i128::from(u32::from_le_bytes([bytes[0], bytes[1], bytes[2], bytes[3]])),
        PType::I32 => i128::from(i32::from_le_bytes([bytes[0], bytes[1], bytes[2], bytes[3]])),
        PType::U64 => i128::from(u64::from_le_bytes([
            bytes[0], bytes[1], bytes[2], bytes[3], bytes[4], bytes[5], bytes[6], bytes[7],
        ])),
        PType::I64 => i128::from(i64::from_le_bytes([
            bytes[0], bytes[1], bytes[2], bytes[3], bytes[4], bytes[5], bytes[6], bytes[7],
        ])),
    }
}

fn bool_of(byte: u8) -> Result<Value, DecodeFault>
    ensures { Gives val_of result (bool_of byte) }
{
    match byte {
        0 => Ok(Value::Bool(false)),
        1 => Ok(Value::Bool(true)),
        _ => Err(DecodeFault::Spelling),
    }
}

// The text that the bytes are.
#[tactic(auto, using(crate::proofs::TextTests::is_text, crate::proofs::TextTests::is_no_text))]
fn text_of(alloc: Global, bytes: &[u8]) -> Result<Value, DecodeFault>
    ensures { Gives val_of result (if is_utf8 bytes.now then Some (text_val bytes.now) else None) }
{
    match str::from_utf8(bytes) {
        Ok(text) => {
            let text = String::from_str(alloc, text)?;
            Ok(Value::Text(Text::new(text)))
        }
        Err(_) => Err(DecodeFault::Spelling),
    }
}

// The value that a slot's bytes are.
fn content(alloc: Global, kind: DTypeKind, bytes: &[u8]) -> Result<Value, DecodeFault>
    requires { IsSlot kind bytes.now }
    ensures { Gives val_of result (content kind bytes.now) }
{
    match kind {
        DTypeKind::Bool => bool_of(bytes[0]),
        DTypeKind::Primitive(ptype) => Ok(Value::Int(int_of(ptype, bytes))),
        DTypeKind::Utf8 => text_of(alloc, bytes),
        DTypeKind::List | DTypeKind::Struct => Err(DecodeFault::Spelling),
    }
}

// The value of a cell, and the bytes after it.
fn cell(
    alloc: Global,
    kind: DTypeKind,
    flag: u8,
    bytes: &[u8],
) -> Result<(Value, &[u8]), DecodeFault>
    ensures { Gives (λ x. (val_of x.0, x.1.now)) result (cell kind flag bytes.now) }
{
    let (found, rest) = slot(kind, bytes)?;
    match flag {
        0 => Ok((Value::Null, rest)),
        1 => Ok((content(alloc, kind, found)?, rest)),
        _ => Err(DecodeFault::Spelling),
    }
}

// The values of all cells, one for each flag.
#[tactic(auto, using(crate::proofs::Cells::flag_pushed, crate::proofs::Cells::flag_fault, crate::proofs::Cells::flags_end, crate::proofs::Cells::flags_more))]
fn cells(
    alloc: Global,
    kind: DTypeKind,
    flags: &[u8],
    bytes: &[u8],
) -> Result<Vec<Value>, DecodeFault>
    ensures { Gives (λ v. map val_of v.items) result (cells kind flags.now bytes.now) }
{
    let mut values = Vec::with_capacity(alloc, flags.len())?;
    let mut rest = bytes;
    for flag in flags {
        let (value, after) = cell(alloc, kind, *flag, rest)?;
        values.push(value)?;
        rest = after;
    }
    if !rest.is_empty() {
        return Err(DecodeFault::Spelling);
    }
    Ok(values)
}

// The values of so many cells that are all there.
#[tactic(auto, using(crate::proofs::Cells::row_pushed, crate::proofs::Cells::row_fault, crate::proofs::Cells::rows_end, crate::proofs::Cells::rows_more))]
fn plain_cells(
    alloc: Global,
    kind: DTypeKind,
    rows: u64,
    bytes: &[u8],
) -> Result<Vec<Value>, DecodeFault>
    ensures { Gives (λ v. map val_of v.items) result (cells kind (replicate rows 1) bytes.now) }
{
    // Each slot has a byte at least.
    let mut values = Vec::with_capacity(alloc, rows.min(bytes.len() as u64) as usize)?;
    let mut left = bytes;
    for _row in 0..rows {
        let (value, after) = cell(alloc, kind, 1, left)?;
        values.push(value)?;
        left = after;
    }
    if !left.is_empty() {
        return Err(DecodeFault::Spelling);
    }
    Ok(values)
}

// The values of all cells, one for each flag, where a flag is a bit.
#[tactic(auto, using(crate::proofs::Rows::bit_pushed, crate::proofs::Rows::bit_fault, crate::proofs::Rows::bits_end, crate::proofs::Rows::bits_more, crate::proofs::BitGroups::bits_length))]
fn bit_cells(
    alloc: Global,
    kind: DTypeKind,
    rows: u64,
    flags: &[u8],
    bytes: &[u8],
) -> Result<Vec<Value>, DecodeFault>
    requires { length flags.now ≡ bytes_for rows }
    ensures { Gives (λ v. map val_of v.items) result (cells kind (take rows (bits_of flags.now)) bytes.now) }
{
    let mut values = Vec::with_capacity(alloc, rows.min(bytes.len() as u64) as usize)?;
    let mut rest = bytes;
    for row in 0..rows {
        let (value, after) = cell(alloc, kind, bit(flags, row), rest)?;
        values.push(value)?;
        rest = after;
    }
    if !rest.is_empty() {
        return Err(DecodeFault::Spelling);
    }
    Ok(values)
}

// A Bool under its flag.
fn bool_under(flag: u8, value: u8) -> Result<Value, DecodeFault>
    ensures { Gives val_of result (under_flag flag (bool_of value)) }
{
    match flag {
        0 => Ok(Value::Null),
        1 => bool_of(value),
        _ => Err(DecodeFault::Spelling),
    }
}

// Bools of which each is a bit, and so is its flag.
#[tactic(auto, using(crate::proofs::Rows::bool_pushed, crate::proofs::Rows::bool_fault, crate::proofs::Rows::bools_end))]
fn bit_bools(
    alloc: Global,
    rows: u64,
    flags: &[u8],
    bools: &[u8],
) -> Result<Vec<Value>, DecodeFault>
    requires flags { length flags.now ≡ bytes_for rows }
    requires bools { length bools.now ≡ bytes_for rows }
    ensures { Gives (λ v. map val_of v.items) result
        (cells DTypeKind.Bool (take rows (bits_of flags.now)) (take rows (bits_of bools.now))) }
{
    let mut values = Vec::with_capacity(alloc, rows as usize)?;
    for row in 0..rows {
        let value = bool_under(bit(flags, row), bit(bools, row))?;
        values.push(value)?;
    }
    Ok(values)
}

// Bools that are all there, of which each is a bit.
#[tactic(auto, using(crate::proofs::Rows::plain_pushed, crate::proofs::Rows::plain_fault, crate::proofs::Rows::plain_end))]
fn plain_bools(alloc: Global, rows: u64, bools: &[u8]) -> Result<Vec<Value>, DecodeFault>
    requires { length bools.now ≡ bytes_for rows }
    ensures { Gives (λ v. map val_of v.items) result
        (cells DTypeKind.Bool (replicate rows 1) (take rows (bits_of bools.now))) }
{
    let mut values = Vec::with_capacity(alloc, rows as usize)?;
    for row in 0..rows {
        let value = bool_of(bit(bools, row))?;
        values.push(value)?;
    }
    Ok(values)
}

// The values of so many rows that are all there.
fn plain_rows(
    alloc: Global,
    spelling: Spelling,
    kind: DTypeKind,
    rows: u64,
    bytes: &[u8],
) -> Result<Vec<Value>, DecodeFault>
    ensures { Gives (λ v. map val_of v.items) result (decode_slots spelling kind rows (replicate rows 1) bytes.now) }
{
    match (spelling, kind) {
        (Spelling::Two, DTypeKind::Bool) => {
            if !is_group(bytes, rows) {
                return Err(DecodeFault::Spelling);
            }
            plain_bools(alloc, rows, bytes)
        }
        _ => plain_cells(alloc, kind, rows, bytes),
    }
}

// The values of so many rows after the bits that are their flags.
fn rows_after_bits(
    alloc: Global,
    kind: DTypeKind,
    rows: u64,
    flags: &[u8],
    bytes: &[u8],
) -> Result<Vec<Value>, DecodeFault>
    requires { length flags.now ≡ bytes_for rows }
    ensures { Gives (λ v. map val_of v.items) result
        (decode_slots Spelling.Two kind rows (take rows (bits_of flags.now)) bytes.now) }
{
    match kind {
        DTypeKind::Bool => {
            if !is_group(bytes, rows) {
                return Err(DecodeFault::Spelling);
            }
            bit_bools(alloc, rows, flags, bytes)
        }
        _ => bit_cells(alloc, kind, rows, flags, bytes),
    }
}

// The values of so many rows after their flags.
fn rows_after_flags(
    alloc: Global,
    spelling: Spelling,
    kind: DTypeKind,
    rows: u64,
    flags: &[u8],
    bytes: &[u8],
) -> Result<Vec<Value>, DecodeFault>
    requires { length flags.now ≡ group_size spelling rows }
    ensures { Gives (λ v. map val_of v.items) result
        (option_and_then (λ fs. decode_slots spelling kind rows fs bytes.now) (flags_in spelling rows flags.now)) }
{
    match spelling {
        Spelling::One => cells(alloc, kind, flags, bytes),
        Spelling::Two => {
            if !is_group(flags, rows) {
                return Err(DecodeFault::Spelling);
            }
            rows_after_bits(alloc, kind, rows, flags, bytes)
        }
    }
}

/// How many bytes the flags of so many rows take.
pub(crate) fn group_size(spelling: Spelling, rows: u64) -> u64
    ensures { result ≡ group_size spelling rows }
{
    match spelling {
        Spelling::One => rows,
        Spelling::Two => bytes_for(rows),
    }
}

// The values of so many rows.
fn read_rows(
    alloc: Global,
    spelling: Spelling,
    kind: DTypeKind,
    nullability: Nullability,
    rows: u64,
    bytes: &[u8],
) -> Result<Vec<Value>, DecodeFault>
    ensures { Gives (λ v. map val_of v.items) result (decode_under spelling nullability kind rows bytes.now) }
{
    match nullability {
        Nullability::NonNullable => plain_rows(alloc, spelling, kind, rows, bytes),
        Nullability::Nullable => {
            let Ok(size) = usize::try_from(group_size(spelling, rows)) else {
                return Err(DecodeFault::Spelling);
            };
            let (flags, rest) = part(bytes, size)?;
            rows_after_flags(alloc, spelling, kind, rows, flags, rest)
        }
    }
}

// The array of a dtype and values that fit it.
fn array_of(alloc: Global, dtype: &DType, values: Vec<Value>) -> Result<Array, NoMemory>
    requires { fits_all (marked_all (vals_of (map val_of values.items))) dtype.now ≡ true }
    ensures { IfOk result (λ a. (a.dtype ≡ dtype.now) × (a.items ≡ map val_of values.items)) }
{
    let kept = dtype.try_clone(alloc)?;
    Ok(Array::of_fitting(kept, values))
}

// The values of so many rows of a dtype.
fn read_segment(
    alloc: Global,
    spelling: Spelling,
    dtype: &DType,
    rows: u64,
    bytes: &[u8],
) -> Result<Vec<Value>, DecodeFault>
    ensures { Gives (λ v. map val_of v.items) result (decode spelling dtype.now rows bytes.now) }
{
    read_rows(
        alloc,
        spelling,
        dtype.kind(),
        dtype.nullability(),
        rows,
        bytes,
    )
}

// The same as an array.
#[tactic(auto, using(crate::proofs::Fitting::decoded_fit))]
fn read_array(
    alloc: Global,
    spelling: Spelling,
    dtype: &DType,
    rows: u64,
    bytes: &[u8],
) -> Result<Array, DecodeFault>
    ensures dtype { IfOk result (λ a. a.dtype ≡ dtype.now) }
    ensures exact { Gives (λ a. a.items) result (decode spelling dtype.now rows bytes.now) }
{
    let values = read_segment(alloc, spelling, dtype, rows, bytes)?;
    Ok(array_of(alloc, dtype, values)?)
}

/// The values of so many rows of a scalar dtype that the bytes of a segment spell.
///
/// # Errors
/// `Spelling` exactly where the bytes are not the spelling of so many rows, and `NoMemory`.
pub fn decode_segment(
    alloc: Global,
    spelling: Spelling,
    dtype: &DType,
    rows: u64,
    bytes: &[u8],
) -> Result<Array, DecodeFault>
    requires { IsTrue (is_scalar_type dtype.now) }
    ensures dtype { IfOk result (λ a. a.dtype ≡ dtype.now) }

    // What is read is spelled so, and what is spelled so is read.
    ensures found { IfOk result (λ a. Spells spelling dtype.now rows a.items bytes.now) }
    ensures only { (vs : List Val) → Spells spelling dtype.now rows vs bytes.now →
        Gives (λ a. a.items) result (Some vs) }

    // Where nothing is spelled, that is told.
    ensures exact { Gives (λ a. a.items) result (decode spelling dtype.now rows bytes.now) }
{
    read_array(alloc, spelling, dtype, rows, bytes)
}
