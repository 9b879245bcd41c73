//! Rows that are written as a file.
ghost use Rattle.std.specs.Prelude.{◌≡◌, List, ℕ, IfOk, IfErr, OnOk, false};
ghost use Rattle.scan_encode.specs.Batches.{AreArraysOf, rows_of_all};
ghost use Rattle.scan_disk_writer.specs.Out.{behind};
ghost use Rattle.scan_disk_writer.specs.Written.{AreRefused, AreServed, IsFileOf};

use crate::bytes_out::{BytesOut, MemoryOut};
use crate::fault::{WriteFault, of_rows};
use crate::file::write_file;
use scan_encode::{Segments, WriteOptions, encode_batches, encode_rows};
use scan_values::{Array, DType};
use std::alloc::Global;

/// Writes a file of the rows of an array, in the form of docs/FILES.md: each leaf in segments of so many rows.
///
/// # Errors
/// `Rows(TooLong)` exactly where a text has more than 4294967295 bytes, else `Depth` where the dtype is more than 42
/// deep: nothing is written then. `Rows(Segments)` and `Size` where there would be more than 4294967296 segments, or
/// more bytes of them than a u64 counts; `Failed` where a write failed; and `NoMemory`.
pub fn write_rows<W: BytesOut>(
    alloc: Global,
    out: &mut W,
    rows: &Array,
    options: &WriteOptions,
) -> Result<(), WriteFault>
    ensures written { OnOk result ((bytes : List ℕ) × IsFileOf rows.now.dtype rows.now.items bytes
        × (W.taken out.new ≡ behind bytes (W.taken out.old))) }
    ensures served { OnOk result (AreServed rows.now.dtype rows.now.items) }
    ensures refused { IfErr result (AreRefused rows.now.dtype rows.now.items W.can_fail) }
{
    let mut segments = Segments::new(alloc);
    match encode_rows(alloc, rows, options, &mut segments) {
        Ok(layout) => write_file(alloc, out, &layout, &segments),
        Err(fault) => Err(of_rows(fault)),
    }
}

/// Writes a file of the rows of arrays of a dtype, one array after the other, in the form of docs/FILES.md: each leaf in
/// segments of so many rows, which may be of several arrays.
///
/// # Errors
/// As of `write_rows`.
pub fn write_batches<W: BytesOut>(
    alloc: Global,
    out: &mut W,
    dtype: &DType,
    batches: &[Array],
    options: &WriteOptions,
) -> Result<(), WriteFault>
    requires { AreArraysOf dtype.now batches.now }
    ensures written { OnOk result ((bytes : List ℕ) × IsFileOf dtype.now (rows_of_all batches.now) bytes
        × (W.taken out.new ≡ behind bytes (W.taken out.old))) }
    ensures served { OnOk result (AreServed dtype.now (rows_of_all batches.now)) }
    ensures refused { IfErr result (AreRefused dtype.now (rows_of_all batches.now) W.can_fail) }
{
    let mut segments = Segments::new(alloc);
    match encode_batches(alloc, dtype, batches, options, &mut segments) {
        Ok(layout) => write_file(alloc, out, &layout, &segments),
        Err(fault) => Err(of_rows(fault)),
    }
}

/// The bytes of a file of the rows of an array.
///
/// # Errors
/// As of `write_rows`, but for `Failed`.
pub fn file_of(alloc: Global, rows: &Array, options: &WriteOptions) -> Result<Vec<u8>, WriteFault>
    ensures file { IfOk result (λ bytes. IsFileOf rows.now.dtype rows.now.items bytes.items) }
    ensures served { OnOk result (AreServed rows.now.dtype rows.now.items) }
    ensures refused { IfErr result (AreRefused rows.now.dtype rows.now.items false) }
{
    let mut out = MemoryOut::new(alloc);
    write_rows(alloc, &mut out, rows, options)?;
    Ok(out.into_bytes())
}
