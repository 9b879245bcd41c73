//! A leaf's segment, read in place. Texts are not of one width, and of them it is kept where each ends: with the bytes, so
//! that the segment is tested once for all who hold these.
ghost use Rattle.std.specs.Prelude.{◌≡◌, ◌<◌, ◌≤◌, ◌+◌, ◌*◌, ◌==◌, length, replicate, take, drop, map, slice_get, is_some, option_map, IfOk, IfSome, IsTrue, List, Some, true, false};
ghost use Rattle.std.specs.List.{items_where_true, slice_range};
ghost use Rattle.scan_values.specs.Arrays.{of_parts};
ghost use Rattle.scan_values.specs.Kinds.{is_scalar_type, kind_of, ptype_of};
ghost use Rattle.scan_values.specs.DataType.{nullability_of};
ghost use Rattle.scan_values.specs.Val.{Val, marked, marked_all, vals_of};
ghost use Rattle.scan_values.specs.Marked.{is_true};
ghost use Rattle.scan_values.specs.Masks.{true_count};
ghost use Rattle.scan_values.specs.Fits.{fits, fits_all, is_bool_type, is_utf8_type};
ghost use Rattle.scan_values.specs.Values.{val_of};
ghost use Rattle.scan_spelling.specs.Spelling.{are_bytes, cells, bits_of, bytes_for, group_size, decode_slots, decode_under, decode};
ghost use Rattle.scan_spelling.specs.Spells.{Spells};
ghost use Rattle.scan_spelling.specs.Decoded.{Gives};
ghost use Rattle.scan_spelling.specs.LeafColumns.{has_width, or_none, spelled, spread, is_here, is_set, int_or_null, bool_or_null, text_or_null};
ghost use Rattle.scan_spelling.specs.TextColumns.{ends_under};
ghost use Rattle.scan_spelling.specs.SlotValues.{slot_val};

use crate::bits::bit;
use crate::known_ends::known_ends;
use crate::read::group_size;
use crate::run::{BoolRun, IntRun, bool_run, flags_between, int_run};
use crate::slot::SlotValue;
use crate::spelling::{DecodeFault, Spelling};
use crate::spelt::{is_spelling, slot_width};
use crate::text_run::{TextRun, text_run};
use crate::texts::{flag_bytes, flag_of, text_under};
use scan_segments::{ByteBuffer, TextEnds};
use scan_values::{DType, DTypeKind, Mask, NoMemory, Nullability, Text, Value};
use std::alloc::Global;
use std::marker::Model;

/// The values of a leaf as the bytes of its segment. Contracts see the dtype and the values.
#[derive(Drop)]
pub struct LeafColumn {
    spelling: Spelling,
    dtype: DType,
    rows: u64,
    bytes: ByteBuffer,
    // Where each value ends where they are texts, else empty.
    ends: TextEnds,
}

impl Model for LeafColumn {
    ghost use Rattle.std.specs.Prelude.{◌≡◌, Some, false};
    ghost use Rattle.scan_values.specs.declared.dtype.DTypeKind.{DTypeKind};
    ghost use Rattle.scan_values.specs.Arrays.{ArrayData, array_code};
    ghost use Rattle.scan_values.specs.DataType.{nullability_of};
    ghost use Rattle.scan_values.specs.Kinds.{kind_of};
    ghost use Rattle.scan_spelling.specs.Spelling.{decode};
    ghost use Rattle.scan_spelling.specs.LeafColumns.{has_width, spelled};
    ghost use Rattle.scan_spelling.specs.TextColumns.{ends_under};

    ghost Value = { ArrayData };

    ghost coded = { array_code };

    ghost view = { λ a. record { dtype = a.dtype; items = spelled a.spelling a.dtype a.rows a.bytes } };

    ghost invariant = { λ a.
        (decode a.spelling a.dtype a.rows a.bytes ≡ Some (spelled a.spelling a.dtype a.rows a.bytes))
        × (has_width (kind_of a.dtype) ≡ false → (kind_of a.dtype ≡ DTypeKind.Utf8)
        × (ends_under a.spelling (nullability_of a.dtype) a.rows a.bytes ≡ Some a.ends)) };
}

// The slot at a place.
fn slot_at(bytes: &[u8], i: usize, width: usize) -> &[u8]
    requires { i * width + width ≤ length bytes.now }
    ensures { result.now ≡ take width (drop (i * width) bytes.now) }
{
    let start = i * width;
    &bytes[start..start + width]
}

// The value at a place of slots that are all there.
fn plain_at(kind: DTypeKind, rows: u64, bytes: &[u8], i: usize) -> SlotValue
    requires width { has_width kind ≡ true }
    requires spelled { cells kind (replicate rows 1) bytes.now
        ≡ Some (or_none (cells kind (replicate rows 1) bytes.now)) }
    requires within { i < rows }
    ensures { Some (slot_val result) ≡ slice_get (or_none (cells kind (replicate rows 1) bytes.now)) i }
{
    let width = slot_width(kind);
    SlotValue::of_slot(kind, 1, slot_at(bytes, i, width))
}

// The value at a place of slots under their flags.
fn flagged_at(kind: DTypeKind, flags: &[u8], bytes: &[u8], i: usize) -> SlotValue
    requires width { has_width kind ≡ true }
    requires spelled { cells kind flags.now bytes.now ≡ Some (or_none (cells kind flags.now bytes.now)) }
    requires within { i < length flags.now }
    ensures { Some (slot_val result) ≡ slice_get (or_none (cells kind flags.now bytes.now)) i }
{
    let width = slot_width(kind);
    SlotValue::of_slot(kind, flags[i], slot_at(bytes, i, width))
}

// The value at a place of slots that are all there, in either spelling.
fn plain_value(spelling: Spelling, kind: DTypeKind, rows: u64, bytes: &[u8], i: usize) -> SlotValue
    requires width { has_width kind ≡ true }
    requires spelled { decode_slots spelling kind rows (replicate rows 1) bytes.now
        ≡ Some (or_none (decode_slots spelling kind rows (replicate rows 1) bytes.now)) }
    requires within { i < rows }
    ensures { Some (slot_val result)
        ≡ slice_get (or_none (decode_slots spelling kind rows (replicate rows 1) bytes.now)) i }
{
    match (spelling, kind) {
        (Spelling::Two, DTypeKind::Bool) => SlotValue::of_bits(1, bit(bytes, i as u64)),
        _ => plain_at(kind, rows, bytes, i),
    }
}

// The value at a place of slots under bits.
fn value_under_bits(kind: DTypeKind, rows: u64, flags: &[u8], bytes: &[u8], i: usize) -> SlotValue
    requires width { has_width kind ≡ true }
    requires flags { length flags.now ≡ bytes_for rows }
    requires spelled { decode_slots Spelling.Two kind rows (take rows (bits_of flags.now)) bytes.now
        ≡ Some (or_none (decode_slots Spelling.Two kind rows (take rows (bits_of flags.now)) bytes.now)) }
    requires within { i < rows }
    ensures { Some (slot_val result)
        ≡ slice_get (or_none (decode_slots Spelling.Two kind rows (take rows (bits_of flags.now)) bytes.now)) i }
{
    let flag = bit(flags, i as u64);
    match kind {
        DTypeKind::Bool => SlotValue::of_bits(flag, bit(bytes, i as u64)),
        _ => {
            let width = slot_width(kind);
            SlotValue::of_slot(kind, flag, slot_at(bytes, i, width))
        }
    }
}

// The value at a place of slots under their flags, in either spelling.
fn flagged_value(
    spelling: Spelling,
    kind: DTypeKind,
    rows: u64,
    flags: &[u8],
    bytes: &[u8],
    i: usize,
) -> SlotValue
    requires width { has_width kind ≡ true }
    requires flags { length flags.now ≡ group_size spelling rows }
    requires spelled { decode_slots spelling kind rows (spread spelling rows flags.now) bytes.now
        ≡ Some (or_none (decode_slots spelling kind rows (spread spelling rows flags.now) bytes.now)) }
    requires within { i < rows }
    ensures { Some (slot_val result)
        ≡ slice_get (or_none (decode_slots spelling kind rows (spread spelling rows flags.now) bytes.now)) i }
{
    match spelling {
        Spelling::One => flagged_at(kind, flags, bytes, i),
        Spelling::Two => value_under_bits(kind, rows, flags, bytes, i),
    }
}

// The value at a place.
fn value_at(
    spelling: Spelling,
    kind: DTypeKind,
    nullability: Nullability,
    rows: u64,
    bytes: &[u8],
    i: usize,
) -> SlotValue
    requires width { has_width kind ≡ true }
    requires spelled { decode_under spelling nullability kind rows bytes.now
        ≡ Some (or_none (decode_under spelling nullability kind rows bytes.now)) }
    requires within { i < rows }
    ensures { Some (slot_val result) ≡ slice_get (or_none (decode_under spelling nullability kind rows bytes.now)) i }
{
    match nullability {
        Nullability::NonNullable => plain_value(spelling, kind, rows, bytes, i),
        Nullability::Nullable => {
            let (flags, slots) = bytes.split_at(group_size(spelling, rows) as usize);
            flagged_value(spelling, kind, rows, flags, slots, i)
        }
    }
}

// Whether a flag is set.
fn is_set(flag: u8) -> bool
    ensures { result ≡ is_set flag }
{
    flag != 0
}

// Whether each of so many flags is set, in either spelling.
#[tactic(auto, using(crate::proofs::Runs::all_flags))]
fn flags_set(alloc: Global, spelling: Spelling, rows: u64, flags: &[u8]) -> Result<Mask, NoMemory>
    requires { length flags.now ≡ group_size spelling rows }
    ensures { IfOk result (λ m. m ≡ map is_set (spread spelling rows flags.now)) }
{
    let bits = flags_between(alloc, spelling, rows, flags, 0, rows as usize)?;
    Ok(Mask::from_bools(bits))
}

// Whether each row is there.
fn rows_here(
    alloc: Global,
    spelling: Spelling,
    kind: DTypeKind,
    nullability: Nullability,
    rows: u64,
    bytes: &[u8],
) -> Result<Mask, NoMemory>
    requires { decode_under spelling nullability kind rows bytes.now
        ≡ Some (or_none (decode_under spelling nullability kind rows bytes.now)) }
    ensures { IfOk result (λ m. m ≡ map is_here (or_none (decode_under spelling nullability kind rows bytes.now))) }
{
    match nullability {
        Nullability::NonNullable => Mask::new_true(alloc, rows as usize),
        Nullability::Nullable => {
            let (flags, _slots) = bytes.split_at(group_size(spelling, rows) as usize);
            flags_set(alloc, spelling, rows, flags)
        }
    }
}

// Whether a row is there.
fn row_here(
    spelling: Spelling,
    kind: DTypeKind,
    nullability: Nullability,
    rows: u64,
    bytes: &[u8],
    i: usize,
) -> bool
    requires spelled { decode_under spelling nullability kind rows bytes.now
        ≡ Some (or_none (decode_under spelling nullability kind rows bytes.now)) }
    requires within { i < rows }
    ensures { Some result
        ≡ option_map is_here (slice_get (or_none (decode_under spelling nullability kind rows bytes.now)) i) }
{
    let (flags, _slots) = bytes.split_at(flag_bytes(spelling, nullability, rows) as usize);
    is_set(flag_of(spelling, nullability, rows, flags, i as u64))
}

// Whether all slots of the kind are of one width.
fn has_width(kind: DTypeKind) -> bool
    ensures { result ≡ has_width kind }
{
    match kind {
        DTypeKind::Bool | DTypeKind::Primitive(_) => true,
        DTypeKind::Utf8 | DTypeKind::List | DTypeKind::Struct => false,
    }
}

// Whether the bytes spell so many rows of a dtype.
fn is_spelt(spelling: Spelling, dtype: &DType, rows: u64, bytes: &[u8]) -> bool
    requires { has_width (kind_of dtype.now) ≡ true }
    ensures { result ≡ is_some (decode spelling dtype.now rows bytes.now) }
{
    is_spelling(spelling, dtype.kind(), dtype.nullability(), rows, bytes)
}

// Each byte is below 256.
fn are_bytes(bytes: &[u8])
    ensures { are_bytes bytes.now ≡ true }
{}

// Where each text of a segment ends.
fn text_ends(
    alloc: Global,
    spelling: Spelling,
    dtype: &DType,
    rows: u64,
    bytes: &ByteBuffer,
) -> Result<TextEnds, DecodeFault>
    requires { kind_of dtype.now ≡ DTypeKind.Utf8 }
    ensures ends { IfOk result (λ t. ends_under spelling (nullability_of dtype.now) rows bytes.now ≡ Some t) }
    ensures exact { Gives (λ t. spelled spelling dtype.now rows bytes.now) result
        (decode spelling dtype.now rows bytes.now) }
{
    are_bytes(bytes.as_slice());
    known_ends(alloc, spelling, dtype.nullability(), rows, bytes)
}

// The text of a row, if it is not null, by where each ends.
fn text_at<'a>(
    spelling: Spelling,
    dtype: &DType,
    rows: u64,
    bytes: &'a [u8],
    ends: &[usize],
    i: usize,
) -> Option<&'a str>
    requires text { kind_of dtype.now ≡ DTypeKind.Utf8 }
    requires spelled { decode spelling dtype.now rows bytes.now ≡ Some (spelled spelling dtype.now rows bytes.now) }
    requires ends { ends_under spelling (nullability_of dtype.now) rows bytes.now ≡ Some ends.now }
    requires within { i < rows }
    ensures { Some (text_or_null (option_map (λ t. t.now) result))
        ≡ slice_get (spelled spelling dtype.now rows bytes.now) i }
{
    text_under(spelling, dtype.nullability(), rows, bytes, ends, i)
}

// The same as a value.
fn text_value(alloc: Global, text: Option<&str>) -> Result<Value, NoMemory>
    ensures { IfOk result (λ v. val_of v ≡ text_or_null (option_map (λ t. t.now) text.entry)) }
{
    match text {
        Some(text) => {
            let text = String::from_str(alloc, text)?;
            Ok(Value::Text(Text::new(text)))
        }
        None => Ok(Value::Null),
    }
}

// How many bits are true.
fn count_true(bits: &[bool]) -> usize
    ensures { result ≡ true_count bits.now }
{
    bits.iter().filter(|b| **b).count()
}

impl LeafColumn {
    // The column of bytes that are known to spell its values, with where each ends where they are texts.
    fn of_spelled(
        spelling: Spelling,
        dtype: DType,
        rows: u64,
        bytes: ByteBuffer,
        ends: TextEnds,
    ) -> LeafColumn
        requires spelled { decode spelling dtype rows bytes ≡ Some (spelled spelling dtype rows bytes) }
        requires ends { has_width (kind_of dtype) ≡ false →
            (kind_of dtype ≡ DTypeKind.Utf8)
            × (ends_under spelling (nullability_of dtype) rows bytes ≡ Some ends) }
        ensures { result ≡ of_parts dtype (spelled spelling dtype rows bytes) }
    {
        LeafColumn {
            spelling,
            dtype,
            rows,
            bytes,
            ends,
        }
    }

    // A segment of slots of one width, whose bytes are tested.
    fn read_places(
        alloc: Global,
        spelling: Spelling,
        dtype: &DType,
        rows: u64,
        bytes: ByteBuffer,
    ) -> Result<LeafColumn, DecodeFault>
        requires { has_width (kind_of dtype.now) ≡ true }
        ensures dtype { IfOk result (λ a. a.dtype ≡ dtype.now) }
        ensures exact { Gives (λ a. a.items) result (decode spelling dtype.now rows bytes) }
    {
        if !is_spelt(spelling, dtype, rows, bytes.as_slice()) {
            return Err(DecodeFault::Spelling);
        }
        let kept = dtype.try_clone(alloc)?;
        Ok(LeafColumn::of_spelled(spelling, kept, rows, bytes, TextEnds::none()))
    }

    // A segment of texts, of which it is kept where each ends.
    fn read_texts(
        alloc: Global,
        spelling: Spelling,
        dtype: &DType,
        rows: u64,
        bytes: ByteBuffer,
    ) -> Result<LeafColumn, DecodeFault>
        requires { kind_of dtype.now ≡ DTypeKind.Utf8 }
        ensures dtype { IfOk result (λ a. a.dtype ≡ dtype.now) }
        ensures exact { Gives (λ a. a.items) result (decode spelling dtype.now rows bytes) }
    {
        let ends = text_ends(alloc, spelling, dtype, rows, &bytes)?;
        let kept = dtype.try_clone(alloc)?;
        Ok(LeafColumn::of_spelled(spelling, kept, rows, bytes, ends))
    }

    // The column, by what is read alone.
    fn read_kept(
        alloc: Global,
        spelling: Spelling,
        dtype: &DType,
        rows: u64,
        bytes: ByteBuffer,
    ) -> Result<LeafColumn, DecodeFault>
        requires { IsTrue (is_scalar_type dtype.now) }
        ensures dtype { IfOk result (λ a. a.dtype ≡ dtype.now) }
        ensures exact { Gives (λ a. a.items) result (decode spelling dtype.now rows bytes) }
    {
        if has_width(dtype.kind()) {
            LeafColumn::read_places(alloc, spelling, dtype, rows, bytes)
        } else {
            LeafColumn::read_texts(alloc, spelling, dtype, rows, bytes)
        }
    }

    /// The segment of so many rows of a scalar dtype, whose bytes are tested once and kept. No value is made, and
    /// memory is taken for a row where it is a text alone.
    ///
    /// # Errors
    /// `Spelling` exactly where the bytes are not the spelling of so many rows, and `NoMemory`.
    pub fn read(
        alloc: Global,
        spelling: Spelling,
        dtype: &DType,
        rows: u64,
        bytes: ByteBuffer,
    ) -> Result<LeafColumn, DecodeFault>
        requires { IsTrue (is_scalar_type dtype.now) }
        ensures dtype { IfOk result (λ a. a.dtype ≡ dtype.now) }

        // What is read is spelled so, and what is spelled so is read.
        ensures found { IfOk result (λ a. Spells spelling dtype.now rows a.items bytes) }
        ensures only { (vs : List Val) → Spells spelling dtype.now rows vs bytes →
            Gives (λ a. a.items) result (Some vs) }

        // Where nothing is spelled, that is told.
        ensures exact { Gives (λ a. a.items) result (decode spelling dtype.now rows bytes) }
    {
        LeafColumn::read_kept(alloc, spelling, dtype, rows, bytes)
    }

    /// The dtype of the values.
    pub fn dtype(&self) -> &DType
        ensures { result.now ≡ self.now.dtype }
    {
        &self.dtype
    }

    /// The dtype of the values, each of which fits it.
    #[tactic(auto, using(crate::proofs::Fitting::decoded_fit))]
    pub fn fitted_dtype(&self) -> &DType
        ensures same { result.now ≡ self.now.dtype }
        ensures fit { fits_all (marked_all (vals_of self.now.items)) self.now.dtype ≡ true }
    {
        &self.dtype
    }

    /// How many rows.
    pub fn len(&self) -> usize
        ensures { result ≡ length self.now.items }
    {
        self.rows as usize
    }

    /// Whether there is no row.
    pub fn is_empty(&self) -> bool
        ensures { result ≡ (length self.now.items == 0) }
    {
        self.len() == 0
    }

    // The text of a row, if it is not null.
    fn text_lent(&self, i: usize) -> Option<&str>
        requires text { has_width (kind_of self.now.dtype) ≡ false }
        requires within { i < length self.now.items }
        ensures { Some (text_or_null (option_map (λ t. t.now) result)) ≡ slice_get self.now.items i }
    {
        text_at(
            self.spelling,
            &self.dtype,
            self.rows,
            self.bytes.as_slice(),
            self.ends.as_slice(),
            i,
        )
    }

    // What the slot of a row holds, where all are of one width.
    fn slot_value(&self, i: usize) -> SlotValue
        requires width { has_width (kind_of self.now.dtype) ≡ true }
        requires within { i < length self.now.items }
        ensures place { Some (slot_val result) ≡ slice_get self.now.items i }
        ensures fits { fits (marked (slot_val result)) self.now.dtype ≡ true }
    {
        value_at(
            self.spelling,
            self.dtype.kind(),
            self.dtype.nullability(),
            self.rows,
            self.bytes.as_slice(),
            i,
        )
    }

    /// The value of a row.
    ///
    /// # Errors
    /// `NoMemory`.
    pub fn value(&self, alloc: Global, i: usize) -> Result<Value, NoMemory>
        requires { i < length self.now.items }
        ensures { IfOk result (λ v. Some (val_of v) ≡ slice_get self.now.items i) }
    {
        if !has_width(self.dtype.kind()) {
            return text_value(alloc, self.text_lent(i));
        }
        Ok(self.slot_value(i).to_value())
    }

    /// The number of a row of integers, if it is not null. No value is made.
    #[tactic(auto, using(crate::proofs::LeafCells::int_width, crate::proofs::LeafCells::int_is))]
    pub fn int_at(&self, i: usize) -> Option<i128>
        requires ints { is_some (ptype_of self.now.dtype) ≡ true }
        requires within { i < length self.now.items }
        ensures { Some (int_or_null result) ≡ slice_get self.now.items i }
    {
        self.slot_value(i).to_int()
    }

    /// Of so many rows of integers as the mask has, from a first one on, the true ones, read at once. `None` where one
    /// of these rows is past the numbers of an i64: then they are to be had one by one.
    ///
    /// # Errors
    /// `NoMemory`.
    #[tactic(auto, using(crate::proofs::LeafCells::int_width, crate::proofs::LeafCells::int_is))]
    pub fn ints(
        &self,
        alloc: Global,
        first: usize,
        mask: &[bool],
    ) -> Result<Option<IntRun>, NoMemory>
        requires ints { is_some (ptype_of self.now.dtype) ≡ true }
        requires within { first + length mask.now ≤ length self.now.items }
        ensures { IfOk result (λ o. IfSome o (λ r. r
            ≡ items_where_true mask.now (slice_range self.now.items first (first + length mask.now)))) }
    {
        match self.dtype.kind() {
            DTypeKind::Primitive(ptype) => Ok(int_run(
                alloc,
                self.spelling,
                ptype,
                self.dtype.nullability(),
                self.rows,
                self.bytes.as_slice(),
                first,
                mask,
            )?),
            _ => Ok(None),
        }
    }

    /// The truth value of a row of Bools, if it is not null. No value is made.
    #[tactic(auto, using(crate::proofs::LeafCells::bool_width, crate::proofs::LeafCells::bool_is))]
    pub fn bool_at(&self, i: usize) -> Option<bool>
        requires bools { is_bool_type self.now.dtype ≡ true }
        requires within { i < length self.now.items }
        ensures { Some (bool_or_null result) ≡ slice_get self.now.items i }
    {
        self.slot_value(i).to_bool()
    }

    /// Of so many rows of Bools as the mask has, from a first one on, the true ones, read at once.
    ///
    /// # Errors
    /// `NoMemory`.
    pub fn bools(&self, alloc: Global, first: usize, mask: &[bool]) -> Result<BoolRun, NoMemory>
        requires bools { is_bool_type self.now.dtype ≡ true }
        requires within { first + length mask.now ≤ length self.now.items }
        ensures { IfOk result (λ r. r
            ≡ items_where_true mask.now (slice_range self.now.items first (first + length mask.now))) }
    {
        let run = bool_run(
            alloc,
            self.spelling,
            self.dtype.nullability(),
            self.rows,
            self.bytes.as_slice(),
            first,
            mask,
        )?;
        Ok(run)
    }

    /// The text of a row of texts, lent out of the segment, if it is not null. No value is made.
    #[tactic(auto, using(crate::proofs::LeafCells::text_width))]
    pub fn text_at(&self, i: usize) -> Option<&str>
        requires texts { is_utf8_type self.now.dtype ≡ true }
        requires within { i < length self.now.items }
        ensures { Some (text_or_null (option_map (λ t. t.now) result)) ≡ slice_get self.now.items i }
    {
        self.text_lent(i)
    }

    /// Of so many rows of texts as the mask has, from a first one on, the true ones, read at once: their bytes are copied
    /// into one buffer, and no value is made.
    ///
    /// # Errors
    /// `NoMemory`.
    pub fn texts(&self, alloc: Global, first: usize, mask: &[bool]) -> Result<TextRun, NoMemory>
        requires texts { is_utf8_type self.now.dtype ≡ true }
        requires within { first + length mask.now ≤ length self.now.items }
        ensures { IfOk result (λ r. r
            ≡ items_where_true mask.now (slice_range self.now.items first (first + length mask.now))) }
    {
        let run = text_run(
            alloc,
            self.spelling,
            self.dtype.nullability(),
            self.rows,
            self.bytes.as_slice(),
            self.ends.as_slice(),
            first,
            mask,
        )?;
        Ok(run)
    }

    /// Whether a row is not null. No value is made.
    pub fn is_valid(&self, i: usize) -> bool
        requires { i < length self.now.items }
        ensures { Some result ≡ option_map is_here (slice_get self.now.items i) }
    {
        row_here(
            self.spelling,
            self.dtype.kind(),
            self.dtype.nullability(),
            self.rows,
            self.bytes.as_slice(),
            i,
        )
    }

    /// The values of the true rows, which alone are made.
    ///
    /// # Errors
    /// `NoMemory`.
    #[tactic(auto, using(crate::proofs::Columns::whole_range))]
    pub fn picked(&self, alloc: Global, mask: &Mask) -> Result<Vec<Value>, NoMemory>
        requires { length mask.now ≡ length self.now.items }
        ensures { IfOk result (λ v. map val_of v.items ≡ items_where_true mask.now self.now.items) }
    {
        self.picked_from(alloc, 0, mask.as_slice())
    }

    /// Of so many rows as the mask has, from a first one on, the values of the true ones, which alone are made.
    ///
    /// # Errors
    /// `NoMemory`.
    #[tactic(auto, using(crate::proofs::Columns::range_pushed, crate::proofs::Columns::range_passed))]
    pub fn picked_from(
        &self,
        alloc: Global,
        first: usize,
        mask: &[bool],
    ) -> Result<Vec<Value>, NoMemory>
        requires { first + length mask.now ≤ length self.now.items }
        ensures { IfOk result (λ v. map val_of v.items
            ≡ items_where_true mask.now (slice_range self.now.items first (first + length mask.now))) }
    {
        let mut items = Vec::with_capacity(alloc, count_true(mask))?;
        let _rows = self.len();
        for i in 0..mask.len() {
            if mask[i] {
                items.push(self.value(alloc, first + i)?)?;
            }
        }
        Ok(items)
    }

    /// For each row, whether it is not null. No value is made.
    ///
    /// # Errors
    /// `NoMemory`.
    pub fn validity(&self, alloc: Global) -> Result<Mask, NoMemory>
        ensures { IfOk result (λ m. m ≡ map is_here self.now.items) }
    {
        rows_here(
            alloc,
            self.spelling,
            self.dtype.kind(),
            self.dtype.nullability(),
            self.rows,
            self.bytes.as_slice(),
        )
    }

    /// For each row of a Bool, whether it is true.
    ///
    /// # Errors
    /// `NoMemory`.
    #[tactic(auto, using(crate::proofs::Columns::truth_pushed))]
    pub fn to_mask(&self, alloc: Global) -> Result<Mask, NoMemory>
        requires { is_bool_type self.now.dtype ≡ true }
        ensures { IfOk result (λ m. m ≡ map (λ v. is_true (marked v)) self.now.items) }
    {
        let mut bits = Vec::with_capacity(alloc, self.len())?;
        for i in 0..self.len() {
            let value = self.value(alloc, i)?;
            bits.push(value.is_true())?;
        }
        Ok(Mask::from_bools(bits))
    }
}
