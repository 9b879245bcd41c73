//! Writes a segment.
ghost use Rattle.std.specs.Prelude.{◌≡◌, ◌≤◌, ◌<◌, ◌^◌, ◌++◌, length, OnOk, IfOk, IsErrOf, All, replicate, map, IsTrue, Some, true};
ghost use Rattle.scan_values.specs.Kinds.{is_scalar_type};
ghost use Rattle.scan_values.specs.Val.{null_val, int_val, text_val};
ghost use Rattle.scan_values.specs.Values.{val_of};
ghost use Rattle.scan_spelling.specs.Spelling.{width, decode, are_bytes};
ghost use Rattle.scan_spelling.specs.Written.{
  IntFits,
  int_bytes,
  IsOfKind,
  IsText,
  TextFits,
  slot_bytes,
  slots,
  flags,
  flags_as,
  slots_as,
  bit_in,
  number,
  gathered,
  spelling_under,
  spelled,
};

use crate::read::width;
use crate::spelling::{EncodeFault, Spelling};
use scan_values::{Array, DTypeKind, Nullability, PType, Value};
use std::alloc::{AllocError, Global};

// Writes a number at the end.
fn push_int(out: &mut Vec<u8>, ptype: PType, n: i128) -> Result<(), AllocError>
    requires { IntFits ptype n }
    ensures { OnOk result (out.new.items ≡ out.old.items ++ int_bytes ptype n) }
{
    match ptype {
        PType::U8 => out.extend_from_slice(&(n as u8).to_le_bytes()),
        PType::U16 => out.extend_from_slice(&(n as u16).to_le_bytes()),
        PType::U32 => out.extend_from_slice(&(n as u32).to_le_bytes()),
        PType::U64 => out.extend_from_slice(&(n as u64).to_le_bytes()),
        PType::I8 => out.extend_from_slice(&(n as i8).to_le_bytes()),
        PType::I16 => out.extend_from_slice(&(n as i16).to_le_bytes()),
        PType::I32 => out.extend_from_slice(&(n as i32).to_le_bytes()),
        PType::I64 => out.extend_from_slice(&(n as i64).to_le_bytes()),
    }
}

// Writes the zeros of a number's slot at the end.
fn push_zeros(out: &mut Vec<u8>, ptype: PType) -> Result<(), AllocError>
    ensures { OnOk result (out.new.items ≡ out.old.items ++ replicate (width ptype) 0) }
{
    match ptype {
        PType::U8 | PType::I8 => out.extend_from_slice(&[0]),
        PType::U16 | PType::I16 => out.extend_from_slice(&[0, 0]),
        PType::U32 | PType::I32 => out.extend_from_slice(&[0, 0, 0, 0]),
        PType::U64 | PType::I64 => out.extend_from_slice(&[0, 0, 0, 0, 0, 0, 0, 0]),
    }
}

// Writes the slot of a null at the end.
fn push_blank(out: &mut Vec<u8>, kind: DTypeKind) -> Result<(), AllocError>
    ensures { OnOk result (out.new.items ≡ out.old.items ++ slot_bytes kind null_val) }
{
    match kind {
        DTypeKind::Bool => out.extend_from_slice(&[0]),
        DTypeKind::Primitive(ptype) => push_zeros(out, ptype),
        DTypeKind::Utf8 => out.extend_from_slice(&[0, 0, 0, 0]),
        DTypeKind::List | DTypeKind::Struct => Ok(()),
    }
}

// Writes a text with its length at the end.
fn push_text(out: &mut Vec<u8>, text: &str) -> Result<(), EncodeFault>
    ensures written { OnOk result (out.new.items ≡ out.old.items ++ slot_bytes DTypeKind.Utf8 (text_val text.now)) }
    ensures short { OnOk result (TextFits (text_val text.now)) }
    ensures text { OnOk result (IsText (text_val text.now)) }
    ensures long { IsErrOf result EncodeFault.TooLong → TextFits (text_val text.now) → ⊥ }
{
    let Ok(length) = u32::try_from(text.len()) else {
        return Err(EncodeFault::TooLong);
    };
    if out.extend_from_slice(&length.to_le_bytes()).is_err() {
        return Err(EncodeFault::NoMemory);
    }
    match out.extend_from_slice(text.as_bytes()) {
        Ok(()) => Ok(()),
        Err(_) => Err(EncodeFault::NoMemory),
    }
}

// Writes a number of a kind at the end.
fn push_number(out: &mut Vec<u8>, kind: DTypeKind, n: i128) -> Result<(), AllocError>
    requires { IsOfKind kind (int_val n) }
    ensures { OnOk result (out.new.items ≡ out.old.items ++ slot_bytes kind (int_val n)) }
{
    match kind {
        DTypeKind::Primitive(ptype) => push_int(out, ptype, n),
        _ => Ok(()),
    }
}

// Writes the slot of a value at the end.
fn push_slot(out: &mut Vec<u8>, kind: DTypeKind, value: &Value) -> Result<(), EncodeFault>
    requires { IsOfKind kind (val_of value.now) }
    ensures written { OnOk result (out.new.items ≡ out.old.items ++ slot_bytes kind (val_of value.now)) }
    ensures short { OnOk result (TextFits (val_of value.now)) }
    ensures text { OnOk result (IsText (val_of value.now)) }
    ensures long { IsErrOf result EncodeFault.TooLong → TextFits (val_of value.now) → ⊥ }
{
    match value {
        Value::Null => push_blank(out, kind).map_err(|_| EncodeFault::NoMemory),
        Value::Bool(b) => {
            let bit = if *b { 1 } else { 0 };
            out.push(bit).map_err(|_| EncodeFault::NoMemory)
        }
        Value::Int(n) => push_number(out, kind, *n).map_err(|_| EncodeFault::NoMemory),
        Value::Text(text) => push_text(out, text.as_str()),
        Value::List(_) | Value::Struct(_) => Ok(()),
    }
}

// Writes the slots of the values at the end.
#[tactic(auto, using(crate::proofs::Writes::slots_at, crate::proofs::Writes::slots_past))]
fn push_slots(out: &mut Vec<u8>, kind: DTypeKind, items: &[Value]) -> Result<(), EncodeFault>
    requires { All (λ v. IsOfKind kind (val_of v)) items.now }
    ensures written { OnOk result (out.new.items ≡ out.old.items ++ slots kind (map val_of items.now)) }
    ensures short { OnOk result (All (λ v. TextFits (val_of v)) items.now) }
    ensures text { OnOk result (All (λ v. IsText (val_of v)) items.now) }
    ensures long { IsErrOf result EncodeFault.TooLong → All (λ v. TextFits (val_of v)) items.now → ⊥ }
{
    for item in items {
        push_slot(out, kind, item)?;
    }
    Ok(())
}

// Writes the flags of the values at the end.
#[tactic(auto, using(crate::proofs::Writes::flags_at, crate::proofs::Writes::flags_past))]
fn push_flags(out: &mut Vec<u8>, items: &[Value]) -> Result<(), AllocError>
    ensures { OnOk result (out.new.items ≡ out.old.items ++ flags (map val_of items.now)) }
{
    for item in items {
        out.push(bit_in(Bit::There, item))?;
    }
    Ok(())
}

// What a bit of a value tells: that it is there, or that it is true.
#[derive(Clone, Copy)]
enum Bit {
    There,
    True,
}

fn bit_in(bit: Bit, value: &Value) -> u8
    ensures is { result ≡ bit_in bit (val_of value.now) }
    ensures small { result < 2 }
{
    match bit {
        Bit::There => match value {
            Value::Null => 0,
            _ => 1,
        },
        Bit::True => match value {
            Value::Bool(true) => 1,
            _ => 0,
        },
    }
}

// The byte of a bit of each of at most eight values, the first the least significant.
#[tactic(auto, using(crate::proofs::Gathering::bit_joined, crate::proofs::Gathering::bit_fits, crate::proofs::Gathering::twice_more))]
fn byte_of(bit: Bit, items: &[Value]) -> u8
    requires { length items.now ≤ 8 }
    ensures { result ≡ number (map (λ v. bit_in bit (val_of v)) items.now) }
{
    let mut byte = 0;
    for i in 0..items.len() {
        byte = 2 * byte + bit_in(bit, &items[items.len() - 1 - i]);
    }
    byte
}

// Writes a bit of each value at the end, eight in a byte.
fn push_bits(out: &mut Vec<u8>, bit: Bit, items: &[Value]) -> Result<(), AllocError>
    ensures { OnOk result (out.new.items ≡ out.old.items ++ gathered (map (λ v. bit_in bit (val_of v)) items.now)) }
{
    let mut rest = items;
    for _byte in 0..items.len().div_ceil(8) {
        let (now, later) = rest.split_at(rest.len().min(8));
        out.push(byte_of(bit, now))?;
        rest = later;
    }
    Ok(())
}

// Writes the flags of the values at the end.
fn push_group(out: &mut Vec<u8>, spelling: Spelling, items: &[Value]) -> Result<(), AllocError>
    ensures { OnOk result (out.new.items ≡ out.old.items ++ flags_as spelling (flags (map val_of items.now))) }
{
    match spelling {
        Spelling::One => push_flags(out, items),
        Spelling::Two => push_bits(out, Bit::There, items),
    }
}

// Writes Bools at the end, a bit each.
fn push_bools(out: &mut Vec<u8>, items: &[Value]) -> Result<(), EncodeFault>
    requires { All (λ v. IsOfKind DTypeKind.Bool (val_of v)) items.now }
    ensures written { OnOk result
        (out.new.items ≡ out.old.items ++ gathered (slots DTypeKind.Bool (map val_of items.now))) }
    ensures short { OnOk result (All (λ v. TextFits (val_of v)) items.now) }
    ensures text { OnOk result (All (λ v. IsText (val_of v)) items.now) }
    ensures long { IsErrOf result EncodeFault.TooLong → ⊥ }
{
    match push_bits(out, Bit::True, items) {
        Ok(()) => Ok(()),
        Err(_) => Err(EncodeFault::NoMemory),
    }
}

// Writes the slots of the values at the end, as a spelling has them.
fn push_values(
    out: &mut Vec<u8>,
    spelling: Spelling,
    kind: DTypeKind,
    items: &[Value],
) -> Result<(), EncodeFault>
    requires { All (λ v. IsOfKind kind (val_of v)) items.now }
    ensures written { OnOk result
        (out.new.items ≡ out.old.items ++ slots_as spelling kind (slots kind (map val_of items.now))) }
    ensures short { OnOk result (All (λ v. TextFits (val_of v)) items.now) }
    ensures text { OnOk result (All (λ v. IsText (val_of v)) items.now) }
    ensures long { IsErrOf result EncodeFault.TooLong → All (λ v. TextFits (val_of v)) items.now → ⊥ }
{
    match (spelling, kind) {
        (Spelling::Two, DTypeKind::Bool) => push_bools(out, items),
        _ => push_slots(out, kind, items),
    }
}

// Writes the spelling of the values at the end.
fn push_rows(
    out: &mut Vec<u8>,
    spelling: Spelling,
    kind: DTypeKind,
    nullability: Nullability,
    items: &[Value],
) -> Result<(), EncodeFault>
    requires { All (λ v. IsOfKind kind (val_of v)) items.now }
    ensures written { OnOk result
        (out.new.items ≡ out.old.items ++ spelling_under spelling nullability kind (map val_of items.now)) }
    ensures short { OnOk result (All (λ v. TextFits (val_of v)) items.now) }
    ensures text { OnOk result (All (λ v. IsText (val_of v)) items.now) }
    ensures long { IsErrOf result EncodeFault.TooLong → All (λ v. TextFits (val_of v)) items.now → ⊥ }
    ensures bytes { OnOk result (are_bytes out.new.items ≡ true) }
{
    match nullability {
        Nullability::NonNullable => push_values(out, spelling, kind, items),
        Nullability::Nullable => {
            if push_group(out, spelling, items).is_err() {
                return Err(EncodeFault::NoMemory);
            }
            push_values(out, spelling, kind, items)
        }
    }
}

// How many bytes so many slots of a kind have at least, in spelling 1.
fn least_size(kind: DTypeKind, rows: usize) -> usize {
    match kind {
        DTypeKind::Primitive(ptype) => rows.saturating_mul(width(ptype)),
        DTypeKind::Utf8 => rows.saturating_mul(4),
        DTypeKind::Bool | DTypeKind::List | DTypeKind::Struct => 0,
    }
}

/// The bytes, in a spelling, of a segment with the items of an array of a scalar dtype. The slot of a null is zeros.
///
/// # Errors
/// `TooLong` exactly where a text has more than 4294967295 bytes, and `NoMemory`.
pub fn encode_segment(alloc: Global, spelling: Spelling, a: &Array) -> Result<Vec<u8>, EncodeFault>
    requires { IsTrue (is_scalar_type a.now.dtype) }
    ensures written { IfOk result (λ v. v.items ≡ spelled spelling a.now.dtype a.now.items) }

    // What is written is read again.
    ensures again { IfOk result (λ v. decode spelling a.now.dtype (length a.now.items) v.items ≡ Some a.now.items) }

    // A text that is too long is told, and nothing else is.
    ensures short { IfOk result (λ v. All TextFits a.now.items) }
    ensures long { IsErrOf result EncodeFault.TooLong → All TextFits a.now.items → ⊥ }
{
    let items = a.as_slice();
    let kind = a.dtype().kind();
    let mut out = Vec::with_capacity(alloc, least_size(kind, items.len()))?;
    match push_rows(&mut out, spelling, kind, a.dtype().nullability(), items) {
        Ok(()) => Ok(out),
        Err(fault) => Err(fault),
    }
}
