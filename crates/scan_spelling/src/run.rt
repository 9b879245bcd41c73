//! Runs of integers and of truth values: read of a leaf's bytes at once, and filtered by a mask.
ghost use Rattle.std.specs.Prelude.{◌≡◌, ◌≤◌, ◌<◌, ◌+◌, ◌*◌, ◌/◌, IfOk, IfSome, Some, None, map, length, replicate, take, drop, true};
ghost use Rattle.std.specs.Int.{is_negative, bit_at};
ghost use Rattle.std.specs.Simd.{first_chunks};
ghost use Rattle.std.specs.List.{items_where_true, slice_range, list_all, list_any};
ghost use Rattle.scan_values.specs.declared.dtype.DTypeKind.{DTypeKind};
ghost use Rattle.scan_values.specs.Val.{int_val, bool_val};
ghost use Rattle.scan_spelling.specs.Spelling.{int_of, width, bits_of, byte_bits, group_size, decode_slots, decode_under};
ghost use Rattle.scan_spelling.specs.LeafColumns.{is_set, or_none, spread};
ghost use Rattle.scan_spelling.specs.Typed.{typed};

use crate::read::group_size;
use crate::spelling::Spelling;
use scan_values::{Nullability, PType};
use std::alloc::{AllocError, Global};
use std::marker::Model;

/// Integers, each with whether it is there.
#[derive(Drop)]
pub struct IntRun {
    numbers: Vec<i64>,
    valid: Vec<bool>,
}

impl Model for IntRun {
    ghost use Rattle.std.specs.Prelude.{◌≡◌, List, length};
    ghost use Rattle.std.specs.Coded.{coded_list};
    ghost use Rattle.scan_values.specs.Val.{Val, val_code, int_val};
    ghost use Rattle.scan_spelling.specs.Typed.{typed};

    ghost Value = { List Val };

    ghost coded = { coded_list val_code };

    ghost view = { λ a. typed int_val a.numbers.items a.valid.items };

    ghost invariant = { λ a. length a.valid.items ≡ length a.numbers.items };
}

impl IntRun {
    /// These numbers, null where `valid` is false.
    pub fn new(numbers: Vec<i64>, valid: Vec<bool>) -> IntRun
        requires { length valid.items ≡ length numbers.items }
        ensures { result ≡ typed int_val numbers.items valid.items }
    {
        IntRun { numbers, valid }
    }

    /// The numbers, and for each whether it is there.
    pub fn into_parts(self) -> (Vec<i64>, Vec<bool>)
        ensures even { length result.1.items ≡ length result.0.items }
        ensures values { typed int_val result.0.items result.1.items ≡ self }
    {
        let IntRun { numbers, valid } = self;
        (numbers, valid)
    }
}

/// Truth values, each with whether it is there.
#[derive(Drop)]
pub struct BoolRun {
    bits: Vec<bool>,
    valid: Vec<bool>,
}

impl Model for BoolRun {
    ghost use Rattle.std.specs.Prelude.{◌≡◌, List, length};
    ghost use Rattle.std.specs.Coded.{coded_list};
    ghost use Rattle.scan_values.specs.Val.{Val, val_code, bool_val};
    ghost use Rattle.scan_spelling.specs.Typed.{typed};

    ghost Value = { List Val };

    ghost coded = { coded_list val_code };

    ghost view = { λ a. typed bool_val a.bits.items a.valid.items };

    ghost invariant = { λ a. length a.valid.items ≡ length a.bits.items };
}

impl BoolRun {
    /// These truth values, null where `valid` is false.
    pub fn new(bits: Vec<bool>, valid: Vec<bool>) -> BoolRun
        requires { length valid.items ≡ length bits.items }
        ensures { result ≡ typed bool_val bits.items valid.items }
    {
        BoolRun { bits, valid }
    }

    /// The truth values, and for each whether it is there.
    pub fn into_parts(self) -> (Vec<bool>, Vec<bool>)
        ensures even { length result.1.items ≡ length result.0.items }
        ensures values { typed bool_val result.0.items result.1.items ≡ self }
    {
        let BoolRun { bits, valid } = self;
        (bits, valid)
    }
}

fn u8s(alloc: Global, slots: &[u8], first: usize, end: usize) -> Result<Vec<i64>, AllocError>
    requires ordered { first ≤ end }
    requires within { end ≤ length slots.now / 1 }
    ensures { IfOk result (λ v. v.items ≡ map (int_of PType.U8)
        (slice_range (first_chunks 1 (length slots.now / 1) slots.now) first end)) }
{
    let (words, _) = slots.as_chunks::<1>();
    words[first..end]
        .iter()
        .map(|w| i64::from(w[0]))
        .collect(alloc)
}

fn i8s(alloc: Global, slots: &[u8], first: usize, end: usize) -> Result<Vec<i64>, AllocError>
    requires ordered { first ≤ end }
    requires within { end ≤ length slots.now / 1 }
    ensures { IfOk result (λ v. v.items ≡ map (int_of PType.I8)
        (slice_range (first_chunks 1 (length slots.now / 1) slots.now) first end)) }
{
    let (words, _) = slots.as_chunks::<1>();
    words[first..end]
        .iter()
        .map(|w| i64::from(i8::from_le_bytes(*w)))
        .collect(alloc)
}

fn u16s(alloc: Global, slots: &[u8], first: usize, end: usize) -> Result<Vec<i64>, AllocError>
    requires ordered { first ≤ end }
    requires within { end ≤ length slots.now / 2 }
    ensures { IfOk result (λ v. v.items ≡ map (int_of PType.U16)
        (slice_range (first_chunks 2 (length slots.now / 2) slots.now) first end)) }
{
    let (words, _) = slots.as_chunks::<2>();
    words[first..end]
        .iter()
        .map(|w| i64::from(u16::from_le_bytes(*w)))
        .collect(alloc)
}

fn i16s(alloc: Global, slots: &[u8], first: usize, end: usize) -> Result<Vec<i64>, AllocError>
    requires ordered { first ≤ end }
    requires within { end ≤ length slots.now / 2 }
    ensures { IfOk result (λ v. v.items ≡ map (int_of PType.I16)
        (slice_range (first_chunks 2 (length slots.now / 2) slots.now) first end)) }
{
    let (words, _) = slots.as_chunks::<2>();
    words[first..end]
        .iter()
        .map(|w| i64::from(i16::from_le_bytes(*w)))
        .collect(alloc)
}

fn u32s(alloc: Global, slots: &[u8], first: usize, end: usize) -> Result<Vec<i64>, AllocError>
    requires ordered { first ≤ end }
    requires within { end ≤ length slots.now / 4 }
    ensures { IfOk result (λ v. v.items ≡ map (int_of PType.U32)
        (slice_range (first_chunks 4 (length slots.now / 4) slots.now) first end)) }
{
    let (words, _) = slots.as_chunks::<4>();
    words[first..end]
        .iter()
        .map(|w| i64::from(u32::from_le_bytes(*w)))
        .collect(alloc)
}

fn i32s(alloc: Global, slots: &[u8], first: usize, end: usize) -> Result<Vec<i64>, AllocError>
    requires ordered { first ≤ end }
    requires within { end ≤ length slots.now / 4 }
    ensures { IfOk result (λ v. v.items ≡ map (int_of PType.I32)
        (slice_range (first_chunks 4 (length slots.now / 4) slots.now) first end)) }
{
    let (words, _) = slots.as_chunks::<4>();
    words[first..end]
        .iter()
        .map(|w| i64::from(i32::from_le_bytes(*w)))
        .collect(alloc)
}

fn i64s(alloc: Global, slots: &[u8], first: usize, end: usize) -> Result<Vec<i64>, AllocError>
    requires ordered { first ≤ end }
    requires within { end ≤ length slots.now / 8 }
    ensures { IfOk result (λ v. v.items ≡ map (int_of PType.I64)
        (slice_range (first_chunks 8 (length slots.now / 8) slots.now) first end)) }
{
    let (words, _) = slots.as_chunks::<8>();
    words[first..end]
        .iter()
        .map(|w| i64::from_le_bytes(*w))
        .collect(alloc)
}

/// Whether a number is below 0, without a way out.
fn any_negative(numbers: &[i64]) -> bool
    ensures { result ≡ list_any is_negative numbers.now }
{
    let mut any = false;
    for number in numbers {
        any |= *number < 0;
    }
    any
}

/// The numbers of the slots of u64 in a range of places, where none is past those of an i64.
#[tactic(auto, using(crate::proofs::Runs::unsigned_words))]
fn u64s(
    alloc: Global,
    slots: &[u8],
    first: usize,
    end: usize,
) -> Result<Option<Vec<i64>>, AllocError>
    requires ordered { first ≤ end }
    requires within { end ≤ length slots.now / 8 }
    ensures { IfOk result (λ o. IfSome o (λ v. v.items ≡ map (int_of PType.U64)
        (slice_range (first_chunks 8 (length slots.now / 8) slots.now) first end))) }
{
    let numbers = i64s(alloc, slots, first, end)?;
    if any_negative(&numbers) {
        return Ok(None);
    }
    Ok(Some(numbers))
}

/// The numbers of the slots of a type in a range of places, where none is past those of an i64.
fn numbers_of(
    alloc: Global,
    ptype: PType,
    slots: &[u8],
    first: usize,
    end: usize,
) -> Result<Option<Vec<i64>>, AllocError>
    requires ordered { first ≤ end }
    requires within { end ≤ length slots.now / width ptype }
    ensures { IfOk result (λ o. IfSome o (λ v. v.items ≡ map (int_of ptype)
        (slice_range (first_chunks (width ptype) (length slots.now / width ptype) slots.now) first end))) }
{
    match ptype {
        PType::U8 => Ok(Some(u8s(alloc, slots, first, end)?)),
        PType::U16 => Ok(Some(u16s(alloc, slots, first, end)?)),
        PType::U32 => Ok(Some(u32s(alloc, slots, first, end)?)),
        PType::U64 => u64s(alloc, slots, first, end),
        PType::I8 => Ok(Some(i8s(alloc, slots, first, end)?)),
        PType::I16 => Ok(Some(i16s(alloc, slots, first, end)?)),
        PType::I32 => Ok(Some(i32s(alloc, slots, first, end)?)),
        PType::I64 => Ok(Some(i64s(alloc, slots, first, end)?)),
    }
}

/// For each flag whether it is set.
fn set_flags(alloc: Global, flags: &[u8]) -> Result<Vec<bool>, AllocError>
    ensures { IfOk result (λ v. v.items ≡ map is_set flags.now) }
{
    flags.iter().map(|f| *f != 0).collect(alloc)
}

/// Whether the bit at a place of a byte is set.
fn is_bit_set(byte: u8, place: u32) -> bool
    requires { place < 8 }
    ensures { result ≡ is_set (bit_at byte place) }
{
    (byte >> place) & 1 == 1
}

/// For each bit of a byte whether it is set.
fn byte_flags(byte: u8) -> [bool; 8]
    ensures { result ≡ map is_set (byte_bits byte) }
{
    [
        is_bit_set(byte, 0),
        is_bit_set(byte, 1),
        is_bit_set(byte, 2),
        is_bit_set(byte, 3),
        is_bit_set(byte, 4),
        is_bit_set(byte, 5),
        is_bit_set(byte, 6),
        is_bit_set(byte, 7),
    ]
}

/// The same of each byte.
fn bytes_flags(alloc: Global, bytes: &[u8]) -> Result<Vec<[bool; 8]>, AllocError>
    ensures { IfOk result (λ v. v.items ≡ map (λ b. map is_set (byte_bits b)) bytes.now) }
{
    bytes
        .iter()
        .map(
            |b|
                ensures { result ≡ map is_set (byte_bits b.now) }
            { byte_flags(*b) },
        )
        .collect(alloc)
}

/// For each of a range of bits whether it is set.
fn set_bits(alloc: Global, bytes: &[u8], first: usize, end: usize) -> Result<Vec<bool>, AllocError>
    requires ordered { first ≤ end }
    requires within { end ≤ 8 * length bytes.now }
    ensures { IfOk result (λ v. v.items ≡ map is_set (slice_range (bits_of bytes.now) first end)) }
{
    let start = first / 8;
    let words = bytes_flags(alloc, &bytes[start..end.div_ceil(8)])?;
    let flags = words.as_flattened();
    let bits = Vec::from_slice(alloc, &flags[first - 8 * start..end - 8 * start])?;
    Ok(bits)
}

/// For each of a range of flags of so many rows whether it is set, in either spelling.
pub(crate) fn flags_between(
    alloc: Global,
    spelling: Spelling,
    rows: u64,
    flags: &[u8],
    first: usize,
    end: usize,
) -> Result<Vec<bool>, AllocError>
    requires flags { length flags.now ≡ group_size spelling rows }
    requires ordered { first ≤ end }
    requires within { end ≤ rows }
    ensures { IfOk result (λ v. v.items ≡ map is_set (slice_range (spread spelling rows flags.now) first end)) }
{
    match spelling {
        Spelling::One => set_flags(alloc, &flags[first..end]),
        Spelling::Two => set_bits(alloc, flags, first, end),
    }
}

/// So many flags that are set.
fn all_there(alloc: Global, count: usize) -> Result<Vec<bool>, AllocError>
    ensures { IfOk result (λ v. v.items ≡ replicate count true) }
{
    let valid = vec![in alloc; true; count]?;
    Ok(valid)
}

/// The items at which the mask is true, moved to the front, in room of their own number.
fn kept<T: Copy>(items: Vec<T>, mask: &[bool]) -> Vec<T>
    requires { length mask.now ≡ length items.items }
    ensures { result.items ≡ items_where_true mask.now items.items }
{
    let mut items = items;
    let mut count = 0;
    for i in 0..mask.len() {
        items[count] = items[i];
        count += mask[i] as usize;
    }
    items.truncate(count);
    items.shrink_to_fit();
    items
}

/// Whether each bit is true, without a way out.
fn all_true(bits: &[bool]) -> bool
    ensures { result ≡ list_all (λ b. b) bits.now }
{
    let mut all = true;
    for bit in bits {
        all &= *bit;
    }
    all
}

/// The items at which the mask is true, moved to the front: of a mask that is all true they stay.
#[tactic(auto, using(crate::proofs::Runs::where_all))]
pub fn keep_true<T: Copy>(items: Vec<T>, mask: &[bool]) -> Vec<T>
    requires { length mask.now ≡ length items.items }
    ensures { result.items ≡ items_where_true mask.now items.items }
{
    if all_true(mask) {
        items
    } else {
        kept(items, mask)
    }
}

/// Those of numbers and flags at which the mask is true.
#[tactic(auto, using(crate::proofs::Runs::typed_where, crate::proofs::Runs::where_lengths, crate::proofs::Runs::typed_length))]
fn picked_ints(numbers: Vec<i64>, valid: Vec<bool>, mask: &[bool]) -> IntRun
    requires even { length valid.items ≡ length numbers.items }
    requires mask { length mask.now ≡ length numbers.items }
    ensures { result ≡ items_where_true mask.now (typed int_val numbers.items valid.items) }
{
    IntRun::new(keep_true(numbers, mask), keep_true(valid, mask))
}

/// Those of numbers that are all there at which the mask is true.
#[tactic(auto, using(crate::proofs::Runs::typed_full, crate::proofs::Runs::where_map))]
fn full_ints(alloc: Global, numbers: Vec<i64>, mask: &[bool]) -> Result<IntRun, AllocError>
    requires { length mask.now ≡ length numbers.items }
    ensures { IfOk result (λ r. r ≡ items_where_true mask.now (map int_val numbers.items)) }
{
    let numbers = keep_true(numbers, mask);
    let valid = all_there(alloc, numbers.len())?;
    Ok(IntRun::new(numbers, valid))
}

/// Those of truth values and flags at which the mask is true.
#[tactic(auto, using(crate::proofs::Runs::typed_where, crate::proofs::Runs::where_lengths, crate::proofs::Runs::typed_length))]
fn picked_bools(bits: Vec<bool>, valid: Vec<bool>, mask: &[bool]) -> BoolRun
    requires even { length valid.items ≡ length bits.items }
    requires mask { length mask.now ≡ length bits.items }
    ensures { result ≡ items_where_true mask.now (typed bool_val bits.items valid.items) }
{
    BoolRun::new(keep_true(bits, mask), keep_true(valid, mask))
}

/// Those of truth values that are all there at which the mask is true.
#[tactic(auto, using(crate::proofs::Runs::typed_full, crate::proofs::Runs::where_map))]
fn full_bools(alloc: Global, bits: Vec<bool>, mask: &[bool]) -> Result<BoolRun, AllocError>
    requires { length mask.now ≡ length bits.items }
    ensures { IfOk result (λ r. r ≡ items_where_true mask.now (map bool_val bits.items)) }
{
    let bits = keep_true(bits, mask);
    let valid = all_there(alloc, bits.len())?;
    Ok(BoolRun::new(bits, valid))
}

/// Of so many rows of slots under their flags as the mask has, from a first one on, the true ones.
fn flagged_ints(
    alloc: Global,
    spelling: Spelling,
    ptype: PType,
    rows: u64,
    flags: &[u8],
    slots: &[u8],
    first: usize,
    mask: &[bool],
) -> Result<Option<IntRun>, AllocError>
    requires flags { length flags.now ≡ group_size spelling rows }
    requires spelled { decode_slots spelling (DTypeKind.Primitive ptype) rows (spread spelling rows flags.now) slots.now
        ≡ Some (or_none (decode_slots spelling (DTypeKind.Primitive ptype) rows (spread spelling rows flags.now) slots.now)) }
    requires within { first + length mask.now ≤ rows }
    ensures { IfOk result (λ o. IfSome o (λ r. r ≡ items_where_true mask.now (slice_range
        (or_none (decode_slots spelling (DTypeKind.Primitive ptype) rows (spread spelling rows flags.now) slots.now))
        first (first + length mask.now)))) }
{
    let end = first + mask.len();
    let Some(numbers) = numbers_of(alloc, ptype, slots, first, end)? else {
        return Ok(None);
    };
    let valid = flags_between(alloc, spelling, rows, flags, first, end)?;
    Ok(Some(picked_ints(numbers, valid, mask)))
}

/// The same of slots that are all there.
fn plain_ints(
    alloc: Global,
    spelling: Spelling,
    ptype: PType,
    rows: u64,
    slots: &[u8],
    first: usize,
    mask: &[bool],
) -> Result<Option<IntRun>, AllocError>
    requires spelled { decode_slots spelling (DTypeKind.Primitive ptype) rows (replicate rows 1) slots.now
        ≡ Some (or_none (decode_slots spelling (DTypeKind.Primitive ptype) rows (replicate rows 1) slots.now)) }
    requires within { first + length mask.now ≤ rows }
    ensures { IfOk result (λ o. IfSome o (λ r. r ≡ items_where_true mask.now (slice_range
        (or_none (decode_slots spelling (DTypeKind.Primitive ptype) rows (replicate rows 1) slots.now))
        first (first + length mask.now)))) }
{
    let end = first + mask.len();
    let Some(numbers) = numbers_of(alloc, ptype, slots, first, end)? else {
        return Ok(None);
    };
    let run = full_ints(alloc, numbers, mask)?;
    Ok(Some(run))
}

/// Of so many rows of a segment of integers as the mask has, from a first one on, the true ones; `None` where one of
/// these rows is past the numbers of an i64.
pub(crate) fn int_run(
    alloc: Global,
    spelling: Spelling,
    ptype: PType,
    nullability: Nullability,
    rows: u64,
    bytes: &[u8],
    first: usize,
    mask: &[bool],
) -> Result<Option<IntRun>, AllocError>
    requires spelled { decode_under spelling nullability (DTypeKind.Primitive ptype) rows bytes.now
        ≡ Some (or_none (decode_under spelling nullability (DTypeKind.Primitive ptype) rows bytes.now)) }
    requires within { first + length mask.now ≤ rows }
    ensures { IfOk result (λ o. IfSome o (λ r. r ≡ items_where_true mask.now (slice_range
        (or_none (decode_under spelling nullability (DTypeKind.Primitive ptype) rows bytes.now)) first
        (first + length mask.now)))) }
{
    match nullability {
        Nullability::NonNullable => plain_ints(alloc, spelling, ptype, rows, bytes, first, mask),
        Nullability::Nullable => {
            let (flags, slots) = bytes.split_at(group_size(spelling, rows) as usize);
            flagged_ints(alloc, spelling, ptype, rows, flags, slots, first, mask)
        }
    }
}

/// Of so many rows of Bools under their flags as the mask has, from a first one on, the true ones.
fn flagged_bools(
    alloc: Global,
    spelling: Spelling,
    rows: u64,
    flags: &[u8],
    slots: &[u8],
    first: usize,
    mask: &[bool],
) -> Result<BoolRun, AllocError>
    requires flags { length flags.now ≡ group_size spelling rows }
    requires spelled { decode_slots spelling DTypeKind.Bool rows (spread spelling rows flags.now) slots.now
        ≡ Some (or_none (decode_slots spelling DTypeKind.Bool rows (spread spelling rows flags.now) slots.now)) }
    requires within { first + length mask.now ≤ rows }
    ensures { IfOk result (λ r. r ≡ items_where_true mask.now (slice_range
        (or_none (decode_slots spelling DTypeKind.Bool rows (spread spelling rows flags.now) slots.now))
        first (first + length mask.now))) }
{
    let end = first + mask.len();
    let bits = flags_between(alloc, spelling, rows, slots, first, end)?;
    let valid = flags_between(alloc, spelling, rows, flags, first, end)?;
    Ok(picked_bools(bits, valid, mask))
}

/// The same of Bools that are all there.
fn plain_bools(
    alloc: Global,
    spelling: Spelling,
    rows: u64,
    slots: &[u8],
    first: usize,
    mask: &[bool],
) -> Result<BoolRun, AllocError>
    requires spelled { decode_slots spelling DTypeKind.Bool rows (replicate rows 1) slots.now
        ≡ Some (or_none (decode_slots spelling DTypeKind.Bool rows (replicate rows 1) slots.now)) }
    requires within { first + length mask.now ≤ rows }
    ensures { IfOk result (λ r. r ≡ items_where_true mask.now (slice_range
        (or_none (decode_slots spelling DTypeKind.Bool rows (replicate rows 1) slots.now))
        first (first + length mask.now))) }
{
    let bits = flags_between(alloc, spelling, rows, slots, first, first + mask.len())?;
    full_bools(alloc, bits, mask)
}

/// Of so many rows of a segment of Bools as the mask has, from a first one on, the true ones.
pub(crate) fn bool_run(
    alloc: Global,
    spelling: Spelling,
    nullability: Nullability,
    rows: u64,
    bytes: &[u8],
    first: usize,
    mask: &[bool],
) -> Result<BoolRun, AllocError>
    requires spelled { decode_under spelling nullability DTypeKind.Bool rows bytes.now
        ≡ Some (or_none (decode_under spelling nullability DTypeKind.Bool rows bytes.now)) }
    requires within { first + length mask.now ≤ rows }
    ensures { IfOk result (λ r. r ≡ items_where_true mask.now (slice_range
        (or_none (decode_under spelling nullability DTypeKind.Bool rows bytes.now)) first
        (first + length mask.now))) }
{
    match nullability {
        Nullability::NonNullable => plain_bools(alloc, spelling, rows, bytes, first, mask),
        Nullability::Nullable => {
            let (flags, slots) = bytes.split_at(group_size(spelling, rows) as usize);
            flagged_bools(alloc, spelling, rows, flags, slots, first, mask)
        }
    }
}
