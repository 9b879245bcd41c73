//! The rows of a column, added to groups.
ghost use Rattle.std.specs.Prelude.{◌≡◌, ◌<◌, ◌≤◌, ◌++◌, ◌∷◌, [], IfOk, IfSome, List, MatchOption, length, map, replicate, true, ℕ};
ghost use Rattle.scan_values.specs.Val.{Val, null_val};
ghost use Rattle.scan_values.specs.Values.{val_of};
ghost use Rattle.scan_columns.specs.Cells.{vals_in};
ghost use Rattle.scan_columns.specs.Nested.{AreLong};
ghost use Rattle.scan_groups.specs.Order.{are_scalars};
ghost use Rattle.scan_groups.specs.Rows.{Row};
ghost use Rattle.scan_groups.specs.Running.{AreOf, HasRead, HavePlaces, IsUnder, count_of, measures_in, reads_in};
ghost use Rattle.scan_groups.specs.declared.measure.Measured.{Measured};
ghost use Rattle.scan_table.specs.Rows.{fields_in, row_in};
ghost use Rattle.scan_table.specs.Totalled.{AreRead, HasAdded, HaveColumns, HaveKeys, column_in, column_rows, has_keys, rows_in};

use crate::lent::{lent_cells, value_cells};
use scan_columns::{Cells, Column};
use scan_groups::{Groups, RowPlaces, Run};
use scan_values::{Array, NoMemory, Value, Values};
use std::alloc::Global;

/// So many rows of a column at a time are added.
const RUN: usize = 1_024;

/// The fields of a struct; none of anything else.
fn fields_of(alloc: Global, row: Value) -> Vec<Value>
    ensures { map val_of result.items ≡ fields_in (val_of row) }
{
    match row {
        Value::Struct(values) => values.into_vec(),
        Value::Null => Vec::new(alloc),
        Value::Bool(_) => Vec::new(alloc),
        Value::Int(_) => Vec::new(alloc),
        Value::Text(_) => Vec::new(alloc),
        Value::List(_) => Vec::new(alloc),
    }
}

/// A row: the values of so many keys, and then what measures read.
fn add_fields(
    groups: &mut Groups,
    alloc: Global,
    keys: usize,
    fields: Vec<Value>,
) -> Result<(), NoMemory>
    ensures { (ms : List Measured) (rows : List Row) (v : Val) → AreOf keys ms rows groups.old →
        map val_of fields.items ≡ fields_in v → are_scalars (row_in keys v).key ≡ true →
        IfOk result (λ _. AreOf keys ms (rows ++ row_in keys v ∷ []) groups.new) }
{
    let mut key = fields;
    let at = keys.min(key.len());
    let read = key.split_off(at)?;
    groups.add(alloc, Values::new(key), read.as_slice())
}

fn add_row(groups: &mut Groups, alloc: Global, keys: usize, row: Value) -> Result<(), NoMemory>
    ensures { (ms : List Measured) (rows : List Row) → AreOf keys ms rows groups.old →
        are_scalars (row_in keys (val_of row)).key ≡ true →
        IfOk result (λ _. AreOf keys ms (rows ++ row_in keys (val_of row) ∷ []) groups.new) }
{
    let fields = fields_of(alloc, row);
    add_fields(groups, alloc, keys, fields)
}

/// The rows of values, in their order.
fn add_values(
    groups: &mut Groups,
    alloc: Global,
    keys: usize,
    values: Vec<Value>,
) -> Result<(), NoMemory>
    ensures { (ms : List Measured) (rows : List Row) → AreOf keys ms rows groups.old → HaveKeys keys values.items →
        IfOk result (λ _. AreOf keys ms (rows ++ rows_in keys (map val_of values.items)) groups.new) }
{
    for row in values {
        add_row(groups, alloc, keys, row)?;
    }
    Ok(())
}

/// The places of the groups of rows by the one value of their key, where it is kept as an integer, a truth value or a text.
fn place_keys(
    groups: &mut Groups,
    alloc: Global,
    key: &Cells,
) -> Result<Option<RowPlaces>, NoMemory>
    ensures { IfOk result (λ o. MatchOption o (groups.new ≡ groups.old)
        (λ ps. (keys : ℕ) → HavePlaces keys (map (λ v. v ∷ []) (vals_in key.now)) ps groups.old groups.new)) }
{
    if let Some(numbers) = key.numbers() {
        return Ok(Some(groups.place_run(alloc, Run::Numbers(numbers))?));
    }
    match lent_cells(alloc, key)? {
        Some(cells) => Ok(Some(groups.place_run(alloc, Run::Cells(&cells))?)),
        None => Ok(None),
    }
}

/// What a measure reads of rows, where it is made values.
fn read_values(
    groups: &mut Groups,
    alloc: Global,
    measure: usize,
    places: &RowPlaces,
    cells: &Cells,
) -> Result<(), NoMemory>
    requires measure { measure < count_of groups.old }
    requires even { length (vals_in cells.now) ≡ length places.now }
    ensures { IfOk result (λ _. HasRead measure places.now (vals_in cells.now) groups.old groups.new) }
{
    let values = cells.try_clone(alloc)?.into_values(alloc)?;
    let lent = value_cells(alloc, values.as_slice())?;
    groups.add_run(alloc, measure, places, Run::Cells(&lent))
}

/// What a measure reads of rows.
fn read_cells(
    groups: &mut Groups,
    alloc: Global,
    measure: usize,
    places: &RowPlaces,
    cells: &Cells,
) -> Result<(), NoMemory>
    requires measure { measure < count_of groups.old }
    requires even { length (vals_in cells.now) ≡ length places.now }
    ensures { IfOk result (λ _. HasRead measure places.now (vals_in cells.now) groups.old groups.new) }
{
    if let Some(numbers) = cells.numbers() {
        return groups.add_run(alloc, measure, places, Run::Numbers(numbers));
    }
    match lent_cells(alloc, cells)? {
        Some(lent) => groups.add_run(alloc, measure, places, Run::Cells(&lent)),
        None => read_values(groups, alloc, measure, places, cells),
    }
}

/// The column at a place.
fn column_at<'a>(columns: &'a [Cells], place: Option<usize>) -> Option<&'a Cells>
    ensures { MatchOption result ((n : ℕ) → column_in place n (map vals_in columns.entry.now) ≡ replicate n null_val)
        (λ c. (n : ℕ) → column_in place n (map vals_in columns.entry.now) ≡ vals_in c.now) }
{
    let Some(place) = place else {
        return None;
    };
    match columns.get(place) {
        Some(cells) => Some(cells),
        None => None,
    }
}

/// What a measure reads of rows, of several columns. Where there is no such column it reads null.
fn read_measure(
    groups: &mut Groups,
    alloc: Global,
    measure: usize,
    places: &RowPlaces,
    columns: &[Cells],
) -> Result<(), NoMemory>
    requires measure { measure < count_of groups.old }
    requires even { AreLong (length places.now) (map vals_in columns.now) }
    ensures { IfOk result (λ _. HasRead measure places.now
        (column_in (reads_in (measures_in groups.old) measure) (length places.now) (map vals_in columns.now)) groups.old groups.new) }
{
    match column_at(columns, groups.reads(measure)) {
        Some(cells) => read_cells(groups, alloc, measure, places, cells),
        None => groups.add_run(alloc, measure, places, Run::Nulls(places.len())),
    }
}

/// What all measures read of rows.
fn read_all(
    groups: &mut Groups,
    alloc: Global,
    places: &RowPlaces,
    columns: &[Cells],
) -> Result<(), NoMemory>
    requires { AreLong (length places.now) (map vals_in columns.now) }
    ensures { (keys : ℕ) (ms : List Measured) (rows run : List Row) → IsUnder keys ms rows run places.now 0 groups.old →
        AreRead (length places.now) (map vals_in columns.now) run → IfOk result (λ _. AreOf keys ms (rows ++ run) groups.new) }
{
    for measure in 0..groups.measure_count() {
        read_measure(groups, alloc, measure, places, columns)?;
    }
    Ok(())
}

/// Rows whose keys have no values, by their columns.
fn add_keyless(
    groups: &mut Groups,
    alloc: Global,
    columns: &[Cells],
    len: usize,
) -> Result<(), NoMemory>
    requires { AreLong len (map vals_in columns.now) }
    ensures { IfOk result (λ _. HasAdded true 0 (column_rows 0 len (map vals_in columns.now)) groups.old groups.new) }
{
    let places = groups.place_keyless(alloc, len)?;
    read_all(groups, alloc, &places, columns)?;
    Ok(())
}

/// Rows whose keys have one value, by the column of it and the others; false where its kind has no run of cells.
fn add_keyed(
    groups: &mut Groups,
    alloc: Global,
    key: &Cells,
    columns: &[Cells],
) -> Result<bool, NoMemory>
    requires { AreLong (length (vals_in key.now)) (map vals_in columns.now) }
    ensures { IfOk result (λ done. HasAdded done 1
        (column_rows 1 (length (vals_in key.now)) (vals_in key.now ∷ map vals_in columns.now)) groups.old groups.new) }
{
    match place_keys(groups, alloc, key)? {
        Some(places) => {
            read_all(groups, alloc, &places, columns)?;
            Ok(true)
        }
        None => Ok(false),
    }
}

/// Rows by their columns; false where keys have several values, or one of a kind that has no run of cells.
fn add_columns(
    groups: &mut Groups,
    alloc: Global,
    keys: usize,
    columns: &[Cells],
    len: usize,
) -> Result<bool, NoMemory>
    requires { AreLong len (map vals_in columns.now) }
    ensures { IfOk result (λ done. HasAdded done keys (column_rows keys len (map vals_in columns.now)) groups.old groups.new) }
{
    if keys == 0 {
        add_keyless(groups, alloc, columns, len)?;
        return Ok(true);
    }
    if keys > 1 {
        return Ok(false);
    }
    match columns {
        [] => Ok(false),
        [key, rest @ ..] => {
            let done = add_keyed(groups, alloc, key, rest)?;
            Ok(done)
        }
    }
}

/// The columns of the fields of structs, where rows are kept so and none is null.
fn columns_in<'a>(run: &'a Column) -> Option<&'a [Cells]>
    ensures { IfSome result (λ cs. HaveColumns cs.now run.entry.now.items) }
{
    match run.cells() {
        Cells::Structs(structs) => structs.fields(),
        _ => None,
    }
}

/// The rows of a run by its columns; false where they are not kept so, or keys have no run of cells.
fn add_kept(groups: &mut Groups, alloc: Global, keys: usize, run: &Column) -> Result<bool, NoMemory>
    ensures { IfOk result (λ done. HasAdded done keys (rows_in keys run.now.items) groups.old groups.new) }
{
    match columns_in(run) {
        Some(columns) => add_columns(groups, alloc, keys, columns, run.len()),
        None => Ok(false),
    }
}

/// The rows of an array, each as a value.
fn add_array(groups: &mut Groups, alloc: Global, keys: usize, run: Array) -> Result<(), NoMemory>
    ensures { (ms : List Measured) (rows : List Row) → AreOf keys ms rows groups.old → has_keys keys run.dtype ≡ true →
        IfOk result (λ _. AreOf keys ms (rows ++ rows_in keys run.items) groups.new) }
{
    let values = run.into_vec();
    add_values(groups, alloc, keys, values)
}

/// The rows of a run, in their order, by their columns. They are made values instead where keys have several values, where
/// the one value of keys is not kept as integers, truth values or texts, and where rows are not kept as columns.
fn add_run(groups: &mut Groups, alloc: Global, keys: usize, run: Column) -> Result<(), NoMemory>
    ensures { (ms : List Measured) (rows : List Row) → AreOf keys ms rows groups.old → has_keys keys run.dtype ≡ true →
        IfOk result (λ _. AreOf keys ms (rows ++ rows_in keys run.items) groups.new) }
{
    if add_kept(groups, alloc, keys, &run)? {
        return Ok(());
    }
    let array = run.to_array(alloc)?;
    add_array(groups, alloc, keys, array)
}

/// Where a run ends that starts at a place.
fn run_end(from: usize, len: usize) -> usize
    requires { from ≤ len }
    ensures more { from < len → from < result }
    ensures within { result ≤ len }
{
    if len - from > RUN { from + RUN } else { len }
}

/// The rows of a column, in their order, a run at a time.
fn add_runs(
    groups: &mut Groups,
    alloc: Global,
    keys: usize,
    column: &Column,
) -> Result<(), NoMemory>
    ensures { (ms : List Measured) (rows : List Row) → AreOf keys ms rows groups.old → has_keys keys column.now.dtype ≡ true →
        IfOk result (λ _. AreOf keys ms (rows ++ rows_in keys column.now.items) groups.new) }
{
    let len = column.len();
    let mut from = 0;
    'runs: while from < len {
        let to = run_end(from, len);
        let run = column.slice(alloc, from..to)?;
        add_run(groups, alloc, keys, run)?;
        from = to;
    }
    Ok(())
}

/// The rows of a column, in their order; where it is longer than a run, a run at a time.
pub(crate) fn add_column(
    groups: &mut Groups,
    alloc: Global,
    keys: usize,
    column: Column,
) -> Result<(), NoMemory>
    ensures { (ms : List Measured) (rows : List Row) → AreOf keys ms rows groups.old → has_keys keys column.dtype ≡ true →
        IfOk result (λ _. AreOf keys ms (rows ++ rows_in keys column.items) groups.new) }
{
    if column.len() > RUN {
        add_runs(groups, alloc, keys, &column)
    } else {
        add_run(groups, alloc, keys, column)
    }
}
