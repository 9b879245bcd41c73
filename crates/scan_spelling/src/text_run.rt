//! Runs of texts: read of a leaf's bytes at once, into one buffer.
ghost use Rattle.std.specs.Prelude.{◌≡◌, ◌≤◌, ◌<◌, ◌+◌, cond, length, slice_get, is_some, IfOk, Some, true};
ghost use Rattle.std.specs.Str.{is_utf8};
ghost use Rattle.std.specs.List.{items_where_true, slice_range};
ghost use Rattle.scan_values.specs.Masks.{true_count};
ghost use Rattle.scan_values.specs.Val.{null_val, text_val};
ghost use Rattle.scan_values.specs.declared.dtype.DTypeKind.TheVariants as kinds;
ghost use Rattle.scan_spelling.specs.Cuts.{sizes, Rises, cuts, AreTexts};
ghost use Rattle.scan_spelling.specs.LeafColumns.{or_none};
ghost use Rattle.scan_spelling.specs.Spelling.{cells, content, decode_under, under_flag};
ghost use Rattle.scan_spelling.specs.TextColumns.{ends_of, ends_under, flag_bytes, row_flags};
ghost use Rattle.scan_spelling.specs.Typed.{typed};

use crate::spelling::Spelling;
use crate::texts::{flag_bytes, flag_of, text_at};
use scan_values::Nullability;
use std::alloc::{AllocError, Global};
use std::marker::Model;

/// Texts one after another in one buffer, each with where it ends and whether it is there.
#[derive(Drop)]
pub struct TextRun {
    bytes: Vec<u8>,
    ends: Vec<usize>,
    valid: Vec<bool>,
}

impl Model for TextRun {
    ghost use Rattle.std.specs.Prelude.{◌≡◌, List, length};
    ghost use Rattle.std.specs.Coded.{coded_list};
    ghost use Rattle.scan_values.specs.Val.{Val, val_code, text_val};
    ghost use Rattle.scan_spelling.specs.Cuts.{sizes, Rises, cuts, AreTexts};
    ghost use Rattle.scan_spelling.specs.Typed.{typed};

    ghost Value = { List Val };

    ghost coded = { coded_list val_code };

    ghost view = { λ a. typed text_val (cuts (sizes 0 a.ends.items) a.bytes.items) a.valid.items };

    ghost invariant = { λ a. (length a.valid.items ≡ length a.ends.items) × Rises 0 a.ends.items
        × AreTexts (sizes 0 a.ends.items) a.bytes.items };
}

impl TextRun {
    /// The texts of these bytes, each of which ends at a place, null where `valid` is false.
    pub fn new(bytes: Vec<u8>, ends: Vec<usize>, valid: Vec<bool>) -> TextRun
        requires even { length valid.items ≡ length ends.items }
        requires rises { Rises 0 ends.items }
        requires texts { AreTexts (sizes 0 ends.items) bytes.items }
        ensures { result ≡ typed text_val (cuts (sizes 0 ends.items) bytes.items) valid.items }
    {
        TextRun { bytes, ends, valid }
    }

    /// The bytes, where each text ends, and for each whether it is there.
    pub fn into_parts(self) -> (Vec<u8>, Vec<usize>, Vec<bool>)
        ensures even { length result.2.items ≡ length result.1.items }
        ensures rises { Rises 0 result.1.items }
        ensures texts { AreTexts (sizes 0 result.1.items) result.0.items }
        ensures values { typed text_val (cuts (sizes 0 result.1.items) result.0.items) result.2.items ≡ self }
    {
        let TextRun { bytes, ends, valid } = self;
        (bytes, ends, valid)
    }
}

// Whether a text is there, and its bytes, which are none where it is not.
#[tactic(auto, using(crate::proofs::Cutting::none_utf8))]
fn text_part(flag: u8, text: &[u8]) -> (bool, &[u8])
    requires { is_some (under_flag flag (content kinds.Utf8 text.now)) ≡ true }
    ensures value { Some (cond result.0 (text_val result.1.now) null_val) ≡ under_flag flag (content kinds.Utf8 text.now) }
    ensures text { is_utf8 result.1.now ≡ true }
{
    if flag == 0 {
        (false, &text[..0])
    } else {
        (true, text)
    }
}

// The same of a row, by where each slot ends.
fn row_part<'a>(
    spelling: Spelling,
    nullability: Nullability,
    rows: u64,
    flags: &[u8],
    bytes: &'a [u8],
    ends: &[usize],
    i: usize,
) -> (bool, &'a [u8])
    requires flags { length flags.now ≡ flag_bytes spelling nullability rows }
    requires spelled { cells kinds.Utf8 (row_flags spelling nullability rows flags.now) bytes.now
        ≡ Some (or_none (cells kinds.Utf8 (row_flags spelling nullability rows flags.now) bytes.now)) }
    requires ends { ends_of 0 (row_flags spelling nullability rows flags.now) bytes.now ≡ Some ends.now }
    requires within { i < rows }
    ensures value { Some (cond result.0 (text_val result.1.now) null_val)
        ≡ slice_get (or_none (cells kinds.Utf8 (row_flags spelling nullability rows flags.now) bytes.now)) i }
    ensures text { is_utf8 result.1.now ≡ true }
{
    let flag = flag_of(spelling, nullability, rows, flags, i as u64);
    text_part(flag, text_at(bytes, ends, i))
}

// How many bytes so many of the rows take, if all take as many.
fn likely_size(rows: u64, bytes: &[u8], count: usize) -> usize {
    count.saturating_mul(bytes.len() / (rows.max(1) as usize))
}

// How many bits are true.
fn count_true(bits: &[bool]) -> usize
    ensures { result ≡ true_count bits.now }
{
    bits.iter().filter(|b| **b).count()
}

// Of so many rows as the mask has, from a first one on, the true ones, by where each slot ends.
#[tactic(auto, using(crate::proofs::Columns::range_passed))]
fn picked_texts(
    alloc: Global,
    spelling: Spelling,
    nullability: Nullability,
    rows: u64,
    flags: &[u8],
    bytes: &[u8],
    ends: &[usize],
    first: usize,
    mask: &[bool],
) -> Result<TextRun, AllocError>
    requires flags { length flags.now ≡ flag_bytes spelling nullability rows }
    requires spelled { cells kinds.Utf8 (row_flags spelling nullability rows flags.now) bytes.now
        ≡ Some (or_none (cells kinds.Utf8 (row_flags spelling nullability rows flags.now) bytes.now)) }
    requires ends { ends_of 0 (row_flags spelling nullability rows flags.now) bytes.now ≡ Some ends.now }
    requires within { first + length mask.now ≤ rows }
    ensures { IfOk result (λ r. r ≡ items_where_true mask.now (slice_range
        (or_none (cells kinds.Utf8 (row_flags spelling nullability rows flags.now) bytes.now)) first
        (first + length mask.now))) }
{
    let count = count_true(mask);
    let mut made = Vec::with_capacity(alloc, likely_size(rows, bytes, count))?;
    let mut places = Vec::with_capacity(alloc, count)?;
    let mut valid = Vec::with_capacity(alloc, count)?;
    for i in 0..mask.len() {
        if !mask[i] {
            continue;
        }
        let (there, text) = row_part(spelling, nullability, rows, flags, bytes, ends, first + i);
        made.extend_from_slice(text)?;
        places.push(made.len())?;
        valid.push(there)?;
    }
    Ok(TextRun::new(made, places, valid))
}

/// Of so many rows of a segment of texts as the mask has, from a first one on, the true ones, by where each ends.
pub(crate) fn text_run(
    alloc: Global,
    spelling: Spelling,
    nullability: Nullability,
    rows: u64,
    bytes: &[u8],
    ends: &[usize],
    first: usize,
    mask: &[bool],
) -> Result<TextRun, AllocError>
    requires spelled { decode_under spelling nullability kinds.Utf8 rows bytes.now
        ≡ Some (or_none (decode_under spelling nullability kinds.Utf8 rows bytes.now)) }
    requires ends { ends_under spelling nullability rows bytes.now ≡ Some ends.now }
    requires within { first + length mask.now ≤ rows }
    ensures { IfOk result (λ r. r ≡ items_where_true mask.now (slice_range
        (or_none (decode_under spelling nullability kinds.Utf8 rows bytes.now)) first (first + length mask.now))) }
{
    let (flags, slots) = bytes.split_at(flag_bytes(spelling, nullability, rows) as usize);
    picked_texts(
        alloc,
        spelling,
        nullability,
        rows,
        flags,
        slots,
        ends,
        first,
        mask,
    )
}
