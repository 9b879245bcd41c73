//! Cells of columns as text, written into a buffer where there is room.
ghost use Rattle.std.specs.Prelude.{◌≡◌, ◌<◌, ◌≤◌, ◌++◌, All, Some, cond, get_or, length, map, slice_get, slice_range, true, codes};
ghost use Rattle.scan_columns.specs.Cells.{vals_in};
ghost use Rattle.scan_columns.specs.Texts.{texts_in};
ghost use Rattle.scan_columns.specs.Typed.{cell};
ghost use Rattle.scan_values.specs.DataType.{DataType};
ghost use Rattle.scan_values.specs.Val.{bool_val, int_val, null_val, text_val, vals_of};
ghost use Rattle.scan_values.specs.Values.{val_of};
ghost use Rattle.scan_lines.specs.Line.{value_text, elements_text, fields_text, fields_in};
ghost use Rattle.scan_lines.specs.Writes.{Writes};

use crate::heads::Heads;
use crate::put::{put_bytes, put_comma, put_int};
use crate::quoted::put_quoted;
use crate::values::{put_bool, put_value};
use scan_columns::{Bools, Cells, Ints, Lists, Structs, Texts};
use std::ops::Range;

#[inline(always)]
fn put_int_slot(number: i128, valid: bool, buf: &mut [u8], at: usize) -> Option<usize>
    requires { at ≤ length buf.old }
    ensures { (d : DataType) → Writes (value_text (cond valid (int_val number) null_val) d) at buf.old buf.new result }
{
    if valid {
        put_int(number, buf, at)
    } else {
        put_bytes(b"null", buf, at)
    }
}

#[inline(always)]
fn put_bool_slot(bit: bool, valid: bool, buf: &mut [u8], at: usize) -> Option<usize>
    requires { at ≤ length buf.old }
    ensures { (d : DataType) → Writes (value_text (cond valid (bool_val bit) null_val) d) at buf.old buf.new result }
{
    if valid {
        put_bool(bit, buf, at)
    } else {
        put_bytes(b"null", buf, at)
    }
}

#[inline(always)]
fn put_int_at(ints: &Ints, i: usize, buf: &mut [u8], at: usize) -> Option<usize>
    requires { (i < length ints.now) × (at ≤ length buf.old) }
    ensures { (d : DataType) → Writes (value_text (get_or ints.now i null_val) d) at buf.old buf.new result }
{
    let (number, valid) = ints.slot(i);
    put_int_slot(number, valid, buf, at)
}

#[inline(always)]
fn put_bool_at(bools: &Bools, i: usize, buf: &mut [u8], at: usize) -> Option<usize>
    requires { (i < length bools.now) × (at ≤ length buf.old) }
    ensures { (d : DataType) → Writes (value_text (get_or bools.now i null_val) d) at buf.old buf.new result }
{
    let (bit, valid) = bools.slot(i);
    put_bool_slot(bit, valid, buf, at)
}

#[inline(always)]
fn put_text_slot(text: &[u8], valid: bool, buf: &mut [u8], at: usize) -> Option<usize>
    requires { at ≤ length buf.old }
    ensures { (d : DataType) → Writes (value_text (cond valid (text_val text.now) null_val) d) at buf.old buf.new result }
{
    if valid {
        put_quoted(text, buf, at)
    } else {
        put_bytes(b"null", buf, at)
    }
}

#[inline(always)]
fn put_text_at(texts: &Texts, i: usize, buf: &mut [u8], at: usize) -> Option<usize>
    requires { (i < length (texts_in texts.now)) × (at ≤ length buf.old) }
    ensures { (d : DataType) → Writes (value_text (get_or (texts_in texts.now) i null_val) d) at buf.old buf.new result }
{
    let (text, valid) = texts.slot(i);
    put_text_slot(text, valid, buf, at)
}

/// Writes the cell at a place, whose column is of the dtype of some heads.
#[cycle(cells)]
#[inline(always)]
pub(crate) fn put_cell(
    cells: &Cells,
    heads: &Heads,
    i: usize,
    buf: &mut [u8],
    at: usize,
) -> Option<usize>
    requires { (i < length (vals_in cells.now)) × (at ≤ length buf.old) }
    ensures { Writes (value_text (get_or (vals_in cells.now) i null_val) heads.now) at buf.old buf.new result }
{
    match cells {
        Cells::Ints(ints) => put_int_at(ints, i, buf, at),
        Cells::Bools(bools) => put_bool_at(bools, i, buf, at),
        Cells::Texts(texts) => put_text_at(texts, i, buf, at),
        Cells::Values(values) => {
            let items = values.as_slice();
            put_value(&items[i], heads, buf, at)
        }
        Cells::Constant(constant) => put_value(constant.value(i), heads, buf, at),
        Cells::Lists(lists) => put_list_at(lists, heads, i, buf, at),
        Cells::Structs(structs) => put_struct_at(structs, heads, i, buf, at),
    }
}

/// Writes the list at a place.
#[cycle(cells)]
#[inline(never)]
fn put_list_at(lists: &Lists, heads: &Heads, i: usize, buf: &mut [u8], at: usize) -> Option<usize>
    requires { (i < length lists.now.items) × (at ≤ length buf.old) }
    ensures { Writes (value_text (get_or lists.now.items i null_val) heads.now) at buf.old buf.new result }
{
    match lists.list_at(i) {
        Some((elements, range)) => put_list(elements, heads.element(), range, buf, at),
        None => put_bytes(b"null", buf, at),
    }
}

#[cycle(cells)]
#[inline(always)]
fn put_list(
    elements: &Cells,
    heads: &Heads,
    range: Range<usize>,
    buf: &mut [u8],
    at: usize,
) -> Option<usize>
    requires { (range.start ≤ range.end) × (range.end ≤ length (vals_in elements.now)) × (at ≤ length buf.old) }
    ensures { Writes (codes "["
        ++ (elements_text true (vals_of (slice_range (vals_in elements.now) range.start range.end)) heads.now
        ++ codes "]")) at buf.old buf.new result }
{
    let end = put_bytes(b"[", buf, at)?;
    let end = put_elements(elements, heads, range.start, range.end, buf, end)?;
    put_bytes(b"]", buf, end)
}

/// Writes the elements of a range of places, with commas between them.
#[cycle(cells)]
#[inline(always)]
fn put_elements(
    elements: &Cells,
    heads: &Heads,
    from: usize,
    to: usize,
    buf: &mut [u8],
    at: usize,
) -> Option<usize>
    requires { (from ≤ to) × (to ≤ length (vals_in elements.now)) × (at ≤ length buf.old) }
    ensures { Writes (elements_text true (vals_of (slice_range (vals_in elements.now) from to)) heads.now)
        at buf.old buf.new result }
{
    let mut end = at;
    for k in 0..to - from {
        end = put_comma(k == 0, buf, end)?;
        end = put_cell(elements, heads, from + k, buf, end)?;
    }
    Some(end)
}

/// Writes the struct at a place.
#[cycle(cells)]
#[inline(never)]
fn put_struct_at(
    structs: &Structs,
    heads: &Heads,
    i: usize,
    buf: &mut [u8],
    at: usize,
) -> Option<usize>
    requires { (i < length structs.now.items) × (at ≤ length buf.old) }
    ensures { Writes (value_text (get_or structs.now.items i null_val) heads.now) at buf.old buf.new result }
{
    match structs.struct_at(i) {
        Some(fields) => put_struct(fields, heads, i, buf, at),
        None => put_bytes(b"null", buf, at),
    }
}

#[cycle(cells)]
#[inline(always)]
fn put_struct(fields: &[Cells], heads: &Heads, i: usize, buf: &mut [u8], at: usize) -> Option<usize>
    requires { (All (λ c. i < length (vals_in c)) fields.now) × (at ≤ length buf.old) }
    ensures { Writes (codes "{"
        ++ (fields_text true (vals_of (map (λ c. get_or (vals_in c) i null_val) fields.now)) (fields_in heads.now)
        ++ codes "}")) at buf.old buf.new result }
{
    let end = put_bytes(b"{", buf, at)?;
    let end = put_fields(fields, heads, i, buf, end)?;
    put_bytes(b"}", buf, end)
}

/// Writes the fields of the struct at a place, each behind its head.
#[cycle(cells)]
#[inline(always)]
fn put_fields(fields: &[Cells], heads: &Heads, i: usize, buf: &mut [u8], at: usize) -> Option<usize>
    requires { (All (λ c. i < length (vals_in c)) fields.now) × (at ≤ length buf.old) }
    ensures { Writes (fields_text true (vals_of (map (λ c. get_or (vals_in c) i null_val) fields.now))
        (fields_in heads.now)) at buf.old buf.new result }
{
    let mut end = at;
    for (k, field) in fields.iter().enumerate() {
        let Some((head, inner)) = heads.field(k) else {
            return Some(end);
        };
        end = head.put(buf, end)?;
        end = put_cell(field, inner, i, buf, end)?;
    }
    Some(end)
}
