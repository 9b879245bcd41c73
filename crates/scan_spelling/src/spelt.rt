//! Whether bytes are the segment of so many rows, where each slot is of one width.
ghost use Rattle.std.specs.Prelude.{◌≡◌, ◌≤◌, ◌*◌, ◌==◌, length, replicate, take, is_some, option_and_then, true};
ghost use Rattle.scan_spelling.specs.Spelling.{cells, bits_of, bytes_for, group_size, flags_in, decode_slots, decode_under};
ghost use Rattle.scan_spelling.specs.LeafColumns.{slot_width, has_width, are_flags, is_row, are_rows};

use crate::bits::is_group;
use crate::read::{group_size, width};
use crate::spelling::Spelling;
use scan_values::{DTypeKind, Nullability};

/// The bytes of a slot.
pub(crate) fn slot_width(kind: DTypeKind) -> usize
    ensures same { result ≡ slot_width kind }
    ensures low { result ≤ 8 }
{
    match kind {
        DTypeKind::Bool => 1,
        DTypeKind::Primitive(ptype) => width(ptype),
        DTypeKind::Utf8 | DTypeKind::List | DTypeKind::Struct => 0,
    }
}

// Whether each byte is 0 or 1, without a way out.
fn are_flags(flags: &[u8]) -> bool
    ensures { result ≡ are_flags flags.now }
{
    let mut good = true;
    for flag in flags {
        good &= *flag < 2;
    }
    good
}

// Whether a Bool's byte may stand under its flag.
fn is_row(flag: u8, byte: u8) -> bool
    ensures { result ≡ is_row flag byte }
{
    (flag == 0) | ((flag == 1) & (byte < 2))
}

// Whether each Bool's byte may stand under its flag, without a way out.
fn are_rows(flags: &[u8], bytes: &[u8]) -> bool
    requires { length flags.now ≡ length bytes.now }
    ensures { result ≡ are_rows flags.now bytes.now }
{
    let mut good = true;
    for i in 0..flags.len() {
        good &= is_row(flags[i], bytes[i]);
    }
    good
}

// Whether so many slots of a width are so many bytes.
fn is_long(rows: u64, width: usize, bytes: &[u8]) -> bool
    requires { width ≤ 8 }
    ensures { result ≡ (rows * width == length bytes.now) }
{
    (rows as u128) * (width as u128) == bytes.len() as u128
}

// Whether these are the slots of so many rows.
fn are_plain(kind: DTypeKind, rows: u64, bytes: &[u8]) -> bool
    requires { has_width kind ≡ true }
    ensures { result ≡ is_some (cells kind (replicate rows 1) bytes.now) }
{
    if !is_long(rows, slot_width(kind), bytes) {
        return false;
    }
    match kind {
        DTypeKind::Bool => are_flags(bytes),
        _ => true,
    }
}

// Whether these are the slots under these flags.
fn are_flagged(kind: DTypeKind, flags: &[u8], bytes: &[u8]) -> bool
    requires { has_width kind ≡ true }
    ensures { result ≡ is_some (cells kind flags.now bytes.now) }
{
    if !is_long(flags.len() as u64, slot_width(kind), bytes) {
        return false;
    }
    match kind {
        DTypeKind::Bool => are_rows(flags, bytes),
        _ => are_flags(flags),
    }
}

// Whether these are the slots of so many rows that are all there.
fn are_plain_slots(spelling: Spelling, kind: DTypeKind, rows: u64, bytes: &[u8]) -> bool
    requires { has_width kind ≡ true }
    ensures { result ≡ is_some (decode_slots spelling kind rows (replicate rows 1) bytes.now) }
{
    match (spelling, kind) {
        (Spelling::Two, DTypeKind::Bool) => is_group(bytes, rows),
        _ => are_plain(kind, rows, bytes),
    }
}

// Whether these are the slots of so many rows under bits.
fn are_under_bits(kind: DTypeKind, rows: u64, flags: &[u8], bytes: &[u8]) -> bool
    requires width { has_width kind ≡ true }
    requires flags { length flags.now ≡ bytes_for rows }
    ensures { result ≡ is_some (decode_slots Spelling.Two kind rows (take rows (bits_of flags.now)) bytes.now) }
{
    match kind {
        DTypeKind::Bool => is_group(bytes, rows),
        _ => is_long(rows, slot_width(kind), bytes),
    }
}

// Whether these are the flags and the slots of so many rows.
fn are_flagged_slots(
    spelling: Spelling,
    kind: DTypeKind,
    rows: u64,
    flags: &[u8],
    bytes: &[u8],
) -> bool
    requires width { has_width kind ≡ true }
    requires flags { length flags.now ≡ group_size spelling rows }
    ensures { result ≡ is_some
        (option_and_then (λ fs. decode_slots spelling kind rows fs bytes.now) (flags_in spelling rows flags.now)) }
{
    match spelling {
        Spelling::One => are_flagged(kind, flags, bytes),
        Spelling::Two => {
            if !is_group(flags, rows) {
                return false;
            }
            are_under_bits(kind, rows, flags, bytes)
        }
    }
}

/// Whether the bytes spell so many rows.
pub(crate) fn is_spelling(
    spelling: Spelling,
    kind: DTypeKind,
    nullability: Nullability,
    rows: u64,
    bytes: &[u8],
) -> bool
    requires { has_width kind ≡ true }
    ensures { result ≡ is_some (decode_under spelling nullability kind rows bytes.now) }
{
    match nullability {
        Nullability::NonNullable => are_plain_slots(spelling, kind, rows, bytes),
        Nullability::Nullable => {
            let Ok(size) = usize::try_from(group_size(spelling, rows)) else {
                return false;
            };
            if bytes.len() < size {
                return false;
            }
            let (flags, slots) = bytes.split_at(size);
            are_flagged_slots(spelling, kind, rows, flags, slots)
        }
    }
}
