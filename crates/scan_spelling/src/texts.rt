//! Where the texts of a segment end, and the text of a row.
ghost use Rattle.std.specs.Prelude.{◌≡◌, ◌<◌, ◌≤◌, ◌+◌, length, slice_get, slice_index, get_or, is_some, option_and_then, option_map, IfOk, Some, true, take, drop};
ghost use Rattle.scan_values.specs.Val.{Val};
ghost use Rattle.scan_values.specs.Values.{val_of};
ghost use Rattle.scan_values.specs.declared.dtype.DTypeKind.TheVariants as kinds;
ghost use Rattle.scan_spelling.specs.Spelling.{content, under_flag};
ghost use Rattle.scan_spelling.specs.Decoded.{Gives};
ghost use Rattle.scan_spelling.specs.TextColumns.{ends_of, start_of, text_at, row_flags, flag_bytes, ends_under};
ghost use Rattle.scan_spelling.specs.Spelling.{cells, decode_under, flags_in, group_size};
ghost use Rattle.scan_spelling.specs.LeafColumns.{or_none, text_or_null};

use crate::bits::{bit, is_group};
use crate::read::{framed, group_size, part};
use crate::spelling::{DecodeFault, Spelling};
use scan_values::Nullability;
use std::alloc::Global;

// Whether the bytes are a text.
#[tactic(auto, using(crate::proofs::TextTests::is_text, crate::proofs::TextTests::is_no_text))]
fn is_utf8(text: &[u8]) -> bool
    ensures { result ≡ is_some (content kinds.Utf8 text.now) }
{
    match str::from_utf8(text) {
        Ok(_) => true,
        Err(_) => false,
    }
}

// Whether the bytes may stand under a flag.
fn is_text(flag: u8, text: &[u8]) -> bool
    ensures { result ≡ is_some (under_flag flag (content kinds.Utf8 text.now)) }
{
    match flag {
        0 => true,
        1 => is_utf8(text),
        _ => false,
    }
}

/// The flag of a row.
pub(crate) fn flag_of(
    spelling: Spelling,
    nullability: Nullability,
    rows: u64,
    flags: &[u8],
    row: u64,
) -> u8
    requires flags { length flags.now ≡ flag_bytes spelling nullability rows }
    requires within { row < rows }
    ensures { result ≡ get_or (row_flags spelling nullability rows flags.now) row 0 }
{
    match nullability {
        Nullability::NonNullable => 1,
        Nullability::Nullable => match spelling {
            Spelling::One => flags[row as usize],
            Spelling::Two => bit(flags, row),
        },
    }
}

// Where each slot ends.
#[tactic(auto, using(crate::proofs::TextColumns::ends_pushed, crate::proofs::TextColumns::ends_refused, crate::proofs::TextColumns::ends_end, crate::proofs::TextColumns::ends_more, crate::proofs::TextColumns::frame_size, crate::proofs::TextRows::flags_length, crate::proofs::TextRows::text_unframed))]
fn text_ends(
    alloc: Global,
    spelling: Spelling,
    nullability: Nullability,
    rows: u64,
    flags: &[u8],
    bytes: &[u8],
) -> Result<Vec<usize>, DecodeFault>
    requires { length flags.now ≡ flag_bytes spelling nullability rows }
    ensures { Gives (λ v. v.items) result (ends_of 0 (row_flags spelling nullability rows flags.now) bytes.now) }
{
    // Each slot has four bytes at least.
    let mut ends = Vec::with_capacity(alloc, rows.min(bytes.len() as u64 / 4) as usize)?;
    let mut place = 0;
    let mut rest = bytes;
    for row in 0..rows {
        let (text, after) = framed(rest)?;
        if !is_text(flag_of(spelling, nullability, rows, flags, row), text) {
            return Err(DecodeFault::Spelling);
        }
        place = place + 4 + text.len();
        ends.push(place)?;
        rest = after;
    }
    if !rest.is_empty() {
        return Err(DecodeFault::Spelling);
    }
    Ok(ends)
}

// The same after the flags.
fn ends_after_flags(
    alloc: Global,
    spelling: Spelling,
    rows: u64,
    flags: &[u8],
    bytes: &[u8],
) -> Result<Vec<usize>, DecodeFault>
    requires { length flags.now ≡ group_size spelling rows }
    ensures { Gives (λ v. v.items) result
        (option_and_then (λ fs. ends_of 0 fs bytes.now) (flags_in spelling rows flags.now)) }
{
    match spelling {
        Spelling::One => {
            text_ends(
                alloc,
                Spelling::One,
                Nullability::Nullable,
                rows,
                flags,
                bytes,
            )
        }
        Spelling::Two => {
            if !is_group(flags, rows) {
                return Err(DecodeFault::Spelling);
            }
            text_ends(
                alloc,
                Spelling::Two,
                Nullability::Nullable,
                rows,
                flags,
                bytes,
            )
        }
    }
}

/// Where each text of a segment ends, after the flags.
pub(crate) fn ends_under(
    alloc: Global,
    spelling: Spelling,
    nullability: Nullability,
    rows: u64,
    bytes: &[u8],
) -> Result<Vec<usize>, DecodeFault>
    ensures { Gives (λ v. v.items) result (ends_under spelling nullability rows bytes.now) }
{
    match nullability {
        Nullability::NonNullable => {
            text_ends(alloc, spelling, Nullability::NonNullable, rows, &[], bytes)
        }
        Nullability::Nullable => {
            let Ok(size) = usize::try_from(group_size(spelling, rows)) else {
                return Err(DecodeFault::Spelling);
            };
            let (flags, slots) = part(bytes, size)?;
            ends_after_flags(alloc, spelling, rows, flags, slots)
        }
    }
}

// The text under its flag, if it is not null.
#[tactic(auto, using(crate::proofs::TextTests::is_text, crate::proofs::TextTests::is_no_text))]
fn text_value(flag: u8, text: &[u8]) -> Option<&str>
    requires { is_some (under_flag flag (content kinds.Utf8 text.now)) ≡ true }
    ensures { Some (text_or_null (option_map (λ t. t.now) result)) ≡ under_flag flag (content kinds.Utf8 text.now) }
{
    if flag == 0 {
        return None;
    }
    match str::from_utf8(text) {
        Ok(text) => Some(text),
        Err(_) => None,
    }
}

/// The bytes of a slot's text, by where each slot ends.
pub(crate) fn text_at<'a>(bytes: &'a [u8], ends: &[usize], i: usize) -> &'a [u8]
    requires within { i < length ends.now }
    requires rising { start_of ends.now i + 4 ≤ slice_index ends.now i }
    requires end { slice_index ends.now i ≤ length bytes.now }
    ensures { result.now ≡ text_at ends.now bytes.now i }
{
    let start = if i == 0 { 0 } else { ends[i - 1] };
    &bytes[start + 4..ends[i]]
}

// The text of a row, if it is not null, by where each slot ends.
fn text_row<'a>(
    spelling: Spelling,
    nullability: Nullability,
    rows: u64,
    flags: &[u8],
    bytes: &'a [u8],
    ends: &[usize],
    i: usize,
) -> Option<&'a str>
    requires flags { length flags.now ≡ flag_bytes spelling nullability rows }
    requires spelled { cells kinds.Utf8 (row_flags spelling nullability rows flags.now) bytes.now
        ≡ Some (or_none (cells kinds.Utf8 (row_flags spelling nullability rows flags.now) bytes.now)) }
    requires ends { ends_of 0 (row_flags spelling nullability rows flags.now) bytes.now ≡ Some ends.now }
    requires within { i < rows }
    ensures { Some (text_or_null (option_map (λ t. t.now) result))
        ≡ slice_get (or_none (cells kinds.Utf8 (row_flags spelling nullability rows flags.now) bytes.now)) i }
{
    let flag = flag_of(spelling, nullability, rows, flags, i as u64);
    text_value(flag, text_at(bytes, ends, i))
}

/// The text of a row of a segment of texts, if it is not null, by where each ends.
pub(crate) fn text_under<'a>(
    spelling: Spelling,
    nullability: Nullability,
    rows: u64,
    bytes: &'a [u8],
    ends: &[usize],
    i: usize,
) -> Option<&'a str>
    requires spelled { decode_under spelling nullability kinds.Utf8 rows bytes.now
        ≡ Some (or_none (decode_under spelling nullability kinds.Utf8 rows bytes.now)) }
    requires ends { ends_under spelling nullability rows bytes.now ≡ Some ends.now }
    requires within { i < rows }
    ensures { Some (text_or_null (option_map (λ t. t.now) result))
        ≡ slice_get (or_none (decode_under spelling nullability kinds.Utf8 rows bytes.now)) i }
{
    let (flags, slots) = bytes.split_at(flag_bytes(spelling, nullability, rows) as usize);
    text_row(spelling, nullability, rows, flags, slots, ends, i)
}

/// How many bytes hold the flags of so many rows.
pub(crate) fn flag_bytes(spelling: Spelling, nullability: Nullability, rows: u64) -> u64
    ensures { result ≡ flag_bytes spelling nullability rows }
{
    match nullability {
        Nullability::NonNullable => 0,
        Nullability::Nullable => group_size(spelling, rows),
    }
}
