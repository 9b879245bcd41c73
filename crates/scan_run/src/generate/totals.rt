//! What is printed of a scan of generated files.
ghost use Rattle.std.specs.Prelude.{◌≡◌, ◌++◌, IfOk, IfSome, List, OnOk, map};
ghost use Rattle.scan_columns.specs.Cells.{vals_in};
ghost use Rattle.scan_values.specs.Val.{Val, int_val, struct_val, vals_of};
ghost use Rattle.scan_values.specs.Values.{val_of};
ghost use Rattle.scan_run.specs.Totals.{HaveNumbers, added, id_in, length_in, with_row, with_values, with_chunks, no_totals, totals_line};
ghost use Rattle.scan_run.specs.declared.generate.totals.Totals.{Totals};

use crate::line::{push_bytes, push_count, push_number};
use scan_columns::{Cells, Column};
use scan_multi::ColumnChunk;
use scan_values::{NoMemory, Value};
use std::alloc::Global;

/// How many rows were given, and the sums of their ids and of the lengths of their lists.
#[derive(Clone, Copy)]
pub(crate) struct Totals {
    pub rows: u64,
    pub ids: i128,
    pub lengths: i128,
}

fn id_among(fields: &[Value]) -> i128
    ensures { result ≡ id_in (struct_val (vals_of (map val_of fields.now))) }
{
    match fields {
        [Value::Int(id), ..] => *id,
        _ => 0,
    }
}

fn length_among(fields: &[Value]) -> i128
    ensures { result ≡ length_in (struct_val (vals_of (map val_of fields.now))) }
{
    match fields {
        [_, rest @ ..] => id_among(rest),
        [] => 0,
    }
}

// The id of a row.
fn id_in(value: &Value) -> i128
    ensures { result ≡ id_in (val_of value.now) }
{
    match value {
        Value::Struct(fields) => id_among(fields.as_slice()),
        _ => 0,
    }
}

// The length of the list of a row.
fn length_in(value: &Value) -> i128
    ensures { result ≡ length_in (val_of value.now) }
{
    match value {
        Value::Struct(fields) => length_among(fields.as_slice()),
        _ => 0,
    }
}

// The totals with one more row.
fn with_row(totals: Totals, value: &Value) -> Result<Totals, NoMemory>
    ensures { IfOk result (λ t. t ≡ with_row totals (val_of value.now)) }
{
    let Some(rows) = totals.rows.checked_add(1) else {
        return Err(NoMemory);
    };
    let Some(ids) = totals.ids.checked_add(id_in(value)) else {
        return Err(NoMemory);
    };
    let Some(lengths) = totals.lengths.checked_add(length_in(value)) else {
        return Err(NoMemory);
    };
    Ok(Totals { rows, ids, lengths })
}

// The integers in the first and in the second fields of rows, where no row is null and both are kept as numbers.
fn numbers_in(values: &Column) -> Option<(&[i64], &[i64])>
    ensures { IfSome result (λ p. HaveNumbers p.0.now p.1.now values.now.items) }
{
    let Cells::Structs(structs) = values.cells() else {
        return None;
    };
    match structs.fields() {
        Some([ids, lengths, ..]) => both_numbers(ids, lengths),
        _ => None,
    }
}

fn both_numbers<'a>(ids: &'a Cells, lengths: &'a Cells) -> Option<(&'a [i64], &'a [i64])>
    ensures { IfSome result (λ p. (map int_val p.0.now ≡ vals_in ids.now) × (map int_val p.1.now ≡ vals_in lengths.now)) }
{
    Some((ids.numbers()?, lengths.numbers()?))
}

// A number, and then others.
fn added(first: i128, numbers: &[i64]) -> Result<i128, NoMemory>
    ensures { IfOk result (λ z. z ≡ added first numbers.now) }
{
    let mut now = first;
    for number in numbers {
        let Some(next) = now.checked_add(i128::from(*number)) else {
            return Err(NoMemory);
        };
        now = next;
    }
    Ok(now)
}

// The totals with more rows, of which each number is read.
fn with_numbers(totals: Totals, ids: &[i64], lengths: &[i64]) -> Result<Totals, NoMemory>
    ensures { IfOk result (λ t. (values : List Val) → HaveNumbers ids.now lengths.now values → t ≡ with_values totals values) }
{
    let Some(rows) = totals.rows.checked_add(ids.len() as u64) else {
        return Err(NoMemory);
    };
    let ids = added(totals.ids, ids)?;
    let lengths = added(totals.lengths, lengths)?;
    Ok(Totals { rows, ids, lengths })
}

// The totals with more rows, of which each value is made.
fn with_each(alloc: Global, totals: Totals, values: &Column) -> Result<Totals, NoMemory>
    ensures { IfOk result (λ t. t ≡ with_values totals values.now.items) }
{
    let mut now = totals;
    for i in 0..values.len() {
        now = with_row(now, values.value(alloc, i)?.as_value())?;
    }
    Ok(now)
}

// The totals with the rows of a column.
fn with_column(alloc: Global, totals: Totals, values: &Column) -> Result<Totals, NoMemory>
    ensures { IfOk result (λ t. t ≡ with_values totals values.now.items) }
{
    match numbers_in(values) {
        Some((ids, lengths)) => with_numbers(totals, ids, lengths),
        None => with_each(alloc, totals, values),
    }
}

/// The totals of some chunks, read off their columns. A sum that no i128 holds is refused as want of memory.
pub(crate) fn totals_of(alloc: Global, chunks: &[ColumnChunk]) -> Result<Totals, NoMemory>
    ensures { IfOk result (λ t. t ≡ with_chunks no_totals chunks.now) }
{
    let mut now = Totals {
        rows: 0,
        ids: 0,
        lengths: 0,
    };
    for chunk in chunks {
        now = with_column(alloc, now, &chunk.values)?;
    }
    Ok(now)
}

/// Appends the line of a scan of so many rows a file: how many rows were given, the sums of their ids and of the lengths of
/// their lists, and how many segments it asked for.
pub(crate) fn push_totals(
    rows: u32,
    given: u64,
    ids: i128,
    lengths: i128,
    asks: u64,
    out: &mut Vec<u8>,
) -> Result<(), NoMemory>
    ensures { OnOk result (out.new.items
        ≡ out.old.items ++ totals_line rows (record { rows = given; ids = ids; lengths = lengths }) asks) }
{
    push_bytes(b"n=", out)?;
    push_count(rows as u64, out)?;
    push_bytes(b" rows=", out)?;
    push_count(given, out)?;
    push_bytes(b" ids=", out)?;
    push_number(ids, out)?;
    push_bytes(b" lengths=", out)?;
    push_number(lengths, out)?;
    push_bytes(b" asked=", out)?;
    push_count(asks, out)?;
    push_bytes(b"\n", out)
}
