//! Segments under another dtype.
ghost use Rattle.std.specs.Prelude.{◌≡◌, ◌++◌, pos, cond, map, length, All, IfOk, OnOk, IfSome, IsTrue, true, is_some};
ghost use Rattle.std.specs.List.{flat_map};
ghost use Rattle.scan_values.specs.DataType.{nullability_of};
ghost use Rattle.scan_values.specs.Kinds.{is_scalar_type, kind_of, ptype_of};
ghost use Rattle.scan_spelling.specs.Decoded.{Gives};
ghost use Rattle.scan_spelling.specs.Written.{spelled, TextFits, int_bytes, spelling_under};
ghost use Rattle.scan_spelling.specs.declared.spelling.Spelling.TheVariants.{One};
ghost use Rattle.scan_widen.specs.FitsUnder.{fits_under};
ghost use Rattle.scan_widen.specs.Slots.{or_zero, bit, flags_before, IsWide, IsWhole, GainsNull};
ghost use Rattle.scan_widen.specs.Stores.{widened};

use crate::behind::Widening;
use crate::blank::valid_segment;
use scan_segments::ByteBuffer;
use scan_spelling::{
    DecodeFault, EncodeFault, IntRun, LeafColumn, Spelling, decode_segment, encode_segment,
};
use scan_values::{Array, DType, DTypeKind, NoMemory, Nullability, PType};
use std::alloc::{AllocError, Global};

// ---- runs of numbers

// A number that is there, else 0.
fn number_or_zero(valid: bool, number: i64) -> i64
    ensures { result ≡ cond valid number (pos 0) }
{
    if valid { number } else { 0 }
}

// The numbers, with 0 in place of each that is null.
fn or_zero(numbers: Vec<i64>, valid: &[bool]) -> Vec<i64>
    requires { length valid.now ≡ length numbers.items }
    ensures { result.items ≡ or_zero numbers.items valid.now }
{
    let mut numbers = numbers;
    for i in 0..valid.len() {
        numbers[i] = number_or_zero(valid[i], numbers[i]);
    }
    numbers
}

// A number in eight bytes, the lowest first.
fn word(number: i64) -> [u8; 8]
    ensures { result ≡ int_bytes PType.I64 number }
{
    number.to_le_bytes()
}

// Each number in eight bytes.
fn in_eight(alloc: Global, numbers: &[i64]) -> Result<Vec<[u8; 8]>, AllocError>
    ensures { IfOk result (λ v. v.items ≡ map (int_bytes PType.I64) numbers.now) }
{
    numbers
        .iter()
        .map(
            |n|
                ensures { result ≡ int_bytes PType.I64 n.now }
            { word(*n) },
        )
        .collect(alloc)
}

// Adds the slots of numbers, in eight bytes each.
fn push_eight(alloc: Global, numbers: &[i64], out: &mut Vec<u8>) -> Result<(), AllocError>
    ensures unsigned { OnOk result (out.new.items ≡ out.old.items ++ flat_map (int_bytes PType.I64) numbers.now) }
    ensures signed { OnOk result (out.new.items ≡ out.old.items ++ flat_map (int_bytes PType.I64) numbers.now) }
{
    let words = in_eight(alloc, numbers)?;
    out.extend_from_slice(words.as_flattened())
}

// Adds the slots of numbers of 64 bits.
fn push_numbers(
    alloc: Global,
    ptype: PType,
    numbers: &[i64],
    out: &mut Vec<u8>,
) -> Result<(), AllocError>
    requires { IsWide ptype }
    ensures { OnOk result (out.new.items ≡ out.old.items ++ flat_map (int_bytes ptype) numbers.now) }
{
    match ptype {
        PType::U64 => push_eight(alloc, numbers, out),
        PType::I64 => push_eight(alloc, numbers, out),
        PType::U8 => unreachable!(),
        PType::U16 => unreachable!(),
        PType::U32 => unreachable!(),
        PType::I8 => unreachable!(),
        PType::I16 => unreachable!(),
        PType::I32 => unreachable!(),
    }
}

// A byte of each truth value.
fn bits_of(alloc: Global, valid: &[bool]) -> Result<Vec<u8>, AllocError>
    ensures { IfOk result (λ v. v.items ≡ map bit valid.now) }
{
    valid
        .iter()
        .map(
            |b|
                ensures { result ≡ bit b.now }
            { if *b { 1 } else { 0 } },
        )
        .collect(alloc)
}

// The flags of rows, where they have any.
fn flags_of(alloc: Global, nullability: Nullability, valid: &[bool]) -> Result<Vec<u8>, AllocError>
    ensures { IfOk result (λ v. v.items ≡ flags_before nullability (map bit valid.now)) }
{
    match nullability {
        Nullability::NonNullable => Ok(Vec::new(alloc)),
        Nullability::Nullable => bits_of(alloc, valid),
    }
}

// The bytes of a run of numbers, in spelling 1.
#[tactic(auto, using(crate::proofs::RunBytes::run_bytes))]
fn spell_ints(
    alloc: Global,
    nullability: Nullability,
    ptype: PType,
    run: IntRun,
) -> Result<Vec<u8>, AllocError>
    requires { IsWide ptype }
    ensures { IfOk result (λ v. v.items ≡ spelling_under One nullability (DTypeKind.Primitive ptype) run) }
{
    let (numbers, valid) = run.into_parts();
    let numbers = or_zero(numbers, &valid);
    let mut out = flags_of(alloc, nullability, &valid)?;
    push_numbers(alloc, ptype, &numbers, &mut out)?;
    Ok(out)
}

// All rows of a column of numbers, in spelling 1 of numbers of 64 bits: one pass over a run of them. `None` where
// one is past those of an i64.
#[tactic(auto, using(crate::proofs::RunBytes::all_rows))]
fn widen_ints(
    alloc: Global,
    column: &LeafColumn,
    nullability: Nullability,
    ptype: PType,
) -> Result<Option<Vec<u8>>, NoMemory>
    requires wide { IsWide ptype }
    requires ints { is_some (ptype_of column.now.dtype) ≡ true }
    ensures { IfOk result (λ o. IfSome o (λ v. v.items
        ≡ spelling_under One nullability (DTypeKind.Primitive ptype) column.now.items)) }
{
    let all = vec![in alloc; true; column.len()]?;
    match column.ints(alloc, 0, &all)? {
        Some(run) => Ok(Some(spell_ints(alloc, nullability, ptype, run)?)),
        None => Ok(None),
    }
}

// ---- segments

// The bytes of an array that has no text which is too long.
fn write_short(alloc: Global, a: &Array) -> Result<Vec<u8>, NoMemory>
    requires scalar { IsTrue (is_scalar_type a.now.dtype) }
    requires short { All TextFits a.now.items }
    ensures { IfOk result (λ v. v.items ≡ spelled One a.now.dtype a.now.items) }
{
    match encode_segment(alloc, Spelling::One, a) {
        Ok(bytes) => Ok(bytes),
        Err(EncodeFault::TooLong) => unreachable!(),
        Err(EncodeFault::NoMemory) => Err(NoMemory),
    }
}

// The same as `widen_segment`, value by value.
#[tactic(auto, using(crate::proofs::Leaves::vals_go, crate::proofs::Leaves::scalar_goes))]
fn widen_values(alloc: Global, w: &Widening, bytes: &[u8]) -> Result<Vec<u8>, DecodeFault>
    requires scalar { is_scalar_type w.now.from ≡ true }
    requires fits { fits_under w.now.from w.now.to ≡ true }
    ensures { Gives (λ v. v.items) result (widened w.now bytes.now) }
{
    let read = decode_segment(alloc, w.spelling, &w.from.to_dtype(), w.rows, bytes)?;
    let widened = Array::of_fitting(w.to.to_dtype(), read.into_vec());
    Ok(write_short(alloc, &widened)?)
}

// A segment of numbers as one of numbers of 64 bits.
#[tactic(auto, using(crate::proofs::Gaining::widened_is, crate::proofs::Gaining::widened_none))]
fn widen_numbers(
    alloc: Global,
    w: &Widening,
    from: &DType,
    ptype: PType,
    bytes: ByteBuffer,
) -> Result<Vec<u8>, DecodeFault>
    requires scalar { is_scalar_type w.now.from ≡ true }
    requires fits { fits_under w.now.from w.now.to ≡ true }
    requires from { from.now ≡ w.now.from }
    requires ints { is_some (ptype_of from.now) ≡ true }
    requires wide { IsWide ptype }
    requires to { kind_of w.now.to ≡ DTypeKind.Primitive ptype }
    ensures { Gives (λ v. v.items) result (widened w.now bytes) }
{
    let column = LeafColumn::read(alloc, w.spelling, from, w.rows, bytes.try_clone()?)?;
    match widen_ints(alloc, &column, w.to.to_dtype().nullability(), ptype)? {
        Some(bytes) => Ok(bytes),
        None => widen_values(alloc, w, bytes.as_slice()),
    }
}

// A segment that gains null: a flag for each row before the bytes that it has.
#[tactic(auto, using(crate::proofs::Gaining::widened_is, crate::proofs::Gaining::widened_none, crate::proofs::Gaining::gained))]
fn gain_null(
    alloc: Global,
    w: &Widening,
    from: &DType,
    bytes: ByteBuffer,
) -> Result<Vec<u8>, DecodeFault>
    requires scalar { is_scalar_type w.now.from ≡ true }
    requires from { from.now ≡ w.now.from }
    requires plain { nullability_of w.now.from ≡ Nullability.NonNullable }
    requires null { nullability_of w.now.to ≡ Nullability.Nullable }
    requires kind { kind_of w.now.from ≡ kind_of w.now.to }
    requires whole { IsWhole w.now.spelling (kind_of w.now.from) }
    ensures { Gives (λ v. v.items) result (widened w.now bytes) }
{
    let _column = LeafColumn::read(alloc, w.spelling, from, w.rows, bytes.try_clone()?)?;
    let mut out = valid_segment(alloc, w.rows)?;
    out.extend_from_slice(bytes.as_slice())?;
    Ok(out)
}

// Whether a segment of a dtype gains null under another, and has its slots as bytes.
fn gains_null(spelling: Spelling, from: &DType, to: &DType) -> bool
    ensures { result ≡ true → GainsNull spelling from.now to.now }
{
    match (from.nullability(), to.nullability(), spelling, from.kind()) {
        (Nullability::NonNullable, Nullability::Nullable, Spelling::One, _) => true,
        (Nullability::NonNullable, Nullability::Nullable, Spelling::Two, DTypeKind::Utf8) => true,
        _ => false,
    }
}

// A segment of truth values or of texts as one of the same kind.
fn widen_same(
    alloc: Global,
    w: &Widening,
    from: &DType,
    to: &DType,
    bytes: ByteBuffer,
) -> Result<Vec<u8>, DecodeFault>
    requires scalar { is_scalar_type w.now.from ≡ true }
    requires fits { fits_under w.now.from w.now.to ≡ true }
    requires from { from.now ≡ w.now.from }
    requires to { to.now ≡ w.now.to }
    requires kind { kind_of w.now.from ≡ kind_of w.now.to }
    ensures { Gives (λ v. v.items) result (widened w.now bytes) }
{
    if gains_null(w.spelling, from, to) {
        return gain_null(alloc, w, from, bytes);
    }
    widen_values(alloc, w, bytes.as_slice())
}

/// The bytes, in spelling 1 of the other dtype, of the values that the bytes of a segment spell. Numbers
/// that become 64 bits wide are read and written as one run, and what but gains null keeps its bytes behind the flags.
///
/// # Errors
/// `Spelling` exactly where the bytes spell no values, and `NoMemory`.
#[tactic(auto, using(crate::proofs::Forming::ints_from, crate::proofs::Forming::bools_same, crate::proofs::Forming::texts_same, crate::proofs::Forming::no_list, crate::proofs::Forming::no_struct))]
pub fn widen_segment(alloc: Global, w: &Widening, bytes: ByteBuffer) -> Result<Vec<u8>, DecodeFault>
    requires scalar { is_scalar_type w.now.from ≡ true }
    requires fits { fits_under w.now.from w.now.to ≡ true }
    ensures { Gives (λ v. v.items) result (widened w.now bytes) }
{
    let from = w.from.to_dtype();
    let to = w.to.to_dtype();
    match to.kind() {
        DTypeKind::Primitive(PType::U64) => widen_numbers(alloc, w, &from, PType::U64, bytes),
        DTypeKind::Primitive(PType::I64) => widen_numbers(alloc, w, &from, PType::I64, bytes),
        DTypeKind::Primitive(_) => widen_values(alloc, w, bytes.as_slice()),
        DTypeKind::Bool => widen_same(alloc, w, &from, &to, bytes),
        DTypeKind::Utf8 => widen_same(alloc, w, &from, &to, bytes),
        DTypeKind::List => unreachable!(),
        DTypeKind::Struct => unreachable!(),
    }
}
