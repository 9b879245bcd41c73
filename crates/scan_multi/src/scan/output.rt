//! What a scan gives.
ghost use Rattle.std.specs.Prelude.{◌≡◌, IfOk};
ghost use Rattle.scan_multi.specs.Placed.{chunk_of, IsEven};

use scan_columns::Column;
use scan_drive::{Chunk, FromChunk, ScanReport};
use scan_file::FileRows;
use scan_values::{Array, NoMemory};
use std::alloc::Global;
use std::marker::Model;

/// Some rows of a file by their numbers, and the value of each.
#[derive(Drop)]
pub struct ScanChunk {
    pub file: usize,
    pub rows: Vec<u64>,
    pub values: Array,
}

impl Model for ScanChunk {
    ghost use Rattle.scan_multi.specs.Output.{ChunkData, chunk_code};

    ghost Value = { ChunkData };

    ghost coded = { chunk_code };

    ghost view = { λ a. record { file = a.file; rows = a.rows.items; values = a.values } };
}

/// What a scan gives.
#[derive(Drop)]
pub struct ScanOutput {
    pub chunks: Vec<ScanChunk>,
    pub report: ScanReport,
}

impl Model for ScanOutput {
    ghost use Rattle.scan_multi.specs.Output.{OutputData, output_code};

    ghost Value = { OutputData };

    ghost coded = { output_code };

    ghost view = { λ a. record { chunks = a.chunks.items; report = a.report } };
}

/// Some rows of a file by their numbers, and a column of their values. Contracts see of it what they see of a
/// `ScanChunk`.
#[derive(Drop)]
pub struct ColumnChunk {
    pub file: usize,
    pub rows: Vec<u64>,
    pub values: Column,
}

impl Model for ColumnChunk {
    ghost use Rattle.scan_multi.specs.Output.{ChunkData, chunk_code};

    ghost Value = { ChunkData };

    ghost coded = { chunk_code };

    ghost view = { λ a. record { file = a.file; rows = a.rows.items; values = a.values } };
}

/// What a scan gives, by columns. Contracts see of it what they see of a `ScanOutput`.
#[derive(Drop)]
pub struct ColumnOutput {
    pub chunks: Vec<ColumnChunk>,
    pub report: ScanReport,
}

impl Model for ColumnOutput {
    ghost use Rattle.scan_multi.specs.Output.{OutputData, output_code};

    ghost Value = { OutputData };

    ghost coded = { output_code };

    ghost view = { λ a. record { chunks = a.chunks.items; report = a.report } };
}

impl ColumnChunk {
    /// The same rows with an array of their values.
    pub fn into_array(self, alloc: Global) -> Result<ScanChunk, NoMemory>
        ensures { IfOk result (λ c. c ≡ self) }
    {
        let ColumnChunk { file, rows, values } = self;
        Ok(ScanChunk {
            file,
            rows,
            values: values.to_array(alloc)?,
        })
    }
}

impl ColumnOutput {
    /// The same with an array for each column, made chunk by chunk.
    pub fn into_arrays(self, alloc: Global) -> Result<ScanOutput, NoMemory>
        ensures { IfOk result (λ out. out ≡ self) }
    {
        let ColumnOutput { chunks, report } = self;
        Ok(ScanOutput {
            chunks: arrays_of(alloc, chunks)?,
            report,
        })
    }
}

/// An array for the column of each chunk.
fn arrays_of(alloc: Global, chunks: Vec<ColumnChunk>) -> Result<Vec<ScanChunk>, NoMemory>
    ensures { IfOk result (λ v. v.items ≡ chunks.items) }
{
    let mut made = Vec::with_capacity(alloc, chunks.len())?;
    for chunk in chunks {
        made.push(chunk.into_array(alloc)?)?;
    }
    Ok(made)
}

impl FromChunk<FileRows> for ColumnChunk {
    ghost made = { chunk_of };

    ghost fits = { IsEven };

    /// The rows of a split as a chunk of a scan. No value is copied.
    fn from_chunk(chunk: Chunk<FileRows>) -> ColumnChunk
        ensures made { result ≡ chunk_of chunk }
        ensures fits { IsEven result }
    {
        let Chunk { file, rows } = chunk;
        let (numbers, values) = rows.into_parts();
        ColumnChunk {
            file,
            rows: numbers,
            values,
        }
    }
}
