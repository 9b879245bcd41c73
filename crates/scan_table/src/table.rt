//! The groups of the rows of chunks.
ghost use Rattle.std.specs.Prelude.{◌≡◌, ◌<◌, ◌++◌, ◌^◌, IfErr, IfOk, List, true, length, ℕ};
ghost use Rattle.scan_groups.specs.Rows.{AreGroups, IsPast, Row};
ghost use Rattle.scan_groups.specs.Running.{AreOf, HasGroupsCause};
ghost use Rattle.scan_groups.specs.declared.fault.GroupsFault.{GroupsFault};
ghost use Rattle.scan_groups.specs.declared.measure.Measured.{Measured};
ghost use Rattle.scan_table.specs.Faults.{of_groups};
ghost use Rattle.scan_table.specs.Spec.{all_measured, key_count, measured_from};
ghost use Rattle.scan_table.specs.Totalled.{AreKeyed, chunk_rows, has_keys, rows_in};

use crate::fault::TableFault;
use crate::rows::add_column;
use crate::spec::{Measure, TableSpec};
use scan_groups::{Group, Groups, Measured};
use scan_multi::ColumnChunk;
use scan_values::{FieldName, NoMemory};
use std::alloc::Global;

/// Groups by their keys, rising.
#[derive(Drop)]
pub struct Table {
    pub groups: Vec<Group>,
}

/// What measures tell of the rows of a group, each of what is read at its place.
fn measured(alloc: Global, measures: &[(FieldName, Measure)]) -> Result<Vec<Measured>, NoMemory>
    requires { length measures.now < 2 ^ 63 }
    ensures { IfOk result (λ ms. ms.items ≡ measured_from 0 measures.now) }
{
    let mut made = Vec::with_capacity(alloc, measures.len())?;
    let mut place = 0;
    for i in 0..measures.len() {
        let measure = &measures[i].1;
        made.push(measure.measured(place))?;
        place = measure.behind(place);
    }
    Ok(made)
}

/// The rows of a chunk, which is let go.
fn add_chunk(
    groups: &mut Groups,
    alloc: Global,
    keys: usize,
    chunk: ColumnChunk,
) -> Result<(), NoMemory>
    ensures { (ms : List Measured) (rows : List Row) → AreOf keys ms rows groups.old → has_keys keys chunk.values.dtype ≡ true →
        IfOk result (λ _. AreOf keys ms (rows ++ rows_in keys chunk.values.items) groups.new) }
{
    let ColumnChunk {
        file: _,
        rows: _,
        values,
    } = chunk;
    add_column(groups, alloc, keys, values)
}

/// The rows of chunks, in whatever order they come. Each chunk is let go once its rows are totalled.
fn add_chunks(
    groups: &mut Groups,
    alloc: Global,
    keys: usize,
    chunks: Vec<ColumnChunk>,
) -> Result<(), NoMemory>
    ensures { (ms : List Measured) (rows : List Row) → AreOf keys ms rows groups.old → AreKeyed keys chunks.items →
        IfOk result (λ _. AreOf keys ms (rows ++ chunk_rows keys chunks.items) groups.new) }
{
    for chunk in chunks {
        add_chunk(groups, alloc, keys, chunk)?;
    }
    Ok(())
}

/// The table of the rows of chunks, or the first measure of which some sum is neither an i64 nor a u64.
pub(crate) fn table_of(
    alloc: Global,
    spec: &TableSpec,
    chunks: Vec<ColumnChunk>,
) -> Result<Table, TableFault>
    ensures ok { AreKeyed (key_count spec.now) chunks.items →
        IfOk result (λ t. AreGroups (key_count spec.now) (all_measured spec.now) (chunk_rows (key_count spec.now) chunks.items) t.groups.items
        × ((i : ℕ) → IsPast (all_measured spec.now) (chunk_rows (key_count spec.now) chunks.items) i → ⊥)) }
    ensures err { IfErr result (λ e. (f : GroupsFault) × (e ≡ of_groups f)
        × (AreKeyed (key_count spec.now) chunks.items →
        HasGroupsCause (all_measured spec.now) (chunk_rows (key_count spec.now) chunks.items) f)) }
{
    let measures = measured(alloc, spec.measures.as_slice())?;
    let keys = spec.keys.len();
    let mut groups = Groups::new(alloc, keys, measures)?;
    add_chunks(&mut groups, alloc, keys, chunks)?;
    let groups = groups.into_groups(alloc)?;
    Ok(Table { groups })
}
