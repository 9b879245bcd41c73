//! The lines of the chunks of a scan, written in pieces.
ghost use Rattle.std.specs.Prelude.{◌≡◌, ◌<◌, [], All, OnOk, get_or, length};
ghost use Rattle.scan_columns.specs.Cells.{vals_in};
ghost use Rattle.scan_values.specs.DataType.{DataType};
ghost use Rattle.scan_values.specs.Val.{null_val};
ghost use Rattle.scan_multi.specs.Output.{IsChunk};
ghost use Rattle.scan_lines.specs.Heads.{lines_of_rows};
ghost use Rattle.scan_run.specs.Line.{line_of};
ghost use Rattle.scan_run.specs.Printed.{chunk_lines, chunks_lines};
ghost use Rattle.scan_run.specs.Writers.{Writes, WritesAll};

use crate::output::{Output, WriteFault, write_all};
use scan_columns::Cells;
use scan_lines::{Front, Heads, Piece};
use scan_multi::{ColumnChunk, ColumnOutput};
use scan_values::NoMemory;
use std::alloc::Global;

impl From<NoMemory> for WriteFault {
    ghost use Rattle.std.specs.Prelude.{◌≡◌};
    ghost use Rattle.scan_run.specs.declared.output.WriteFault.TheVariants.{NoMemory};

    ghost from_gives = { λ _ e. e ≡ NoMemory };

    fn from(_: NoMemory) -> WriteFault {
        WriteFault::NoMemory
    }
}

/// Writes the line of a row into a piece without text, which grows until there is room.
fn put_long_row(
    alloc: Global,
    piece: &mut Piece,
    front: &Front,
    row: u64,
    cells: &Cells,
    heads: &Heads,
    i: usize,
) -> Result<(), NoMemory>
    requires place { i < length (vals_in cells.now) }
    requires empty { piece.old ≡ [] }
    ensures { OnOk result (piece.new ≡ line_of heads.now front.now row (get_or (vals_in cells.now) i null_val)) }
{
    for _ in 0..64 {
        if piece.put_row(front, row, cells, heads, i) {
            return Ok(());
        }
        piece.grow(alloc)?;
    }
    Err(NoMemory)
}

/// Hands a piece's text to the output, and writes the line of a row into the piece.
#[inline(never)]
fn write_full<O: Output>(
    alloc: Global,
    output: &mut O,
    piece: &mut Piece,
    front: &Front,
    row: u64,
    cells: &Cells,
    heads: &Heads,
    i: usize,
) -> Result<(), WriteFault>
    requires { i < length (vals_in cells.now) }
    ensures { Writes (line_of heads.now front.now row (get_or (vals_in cells.now) i null_val)) piece.old piece.new
        (O.output output.old) (O.output output.new) result }
{
    match write_all(output, piece.as_slice()) {
        Ok(()) => {
            piece.clear();
            match put_long_row(alloc, piece, front, row, cells, heads, i) {
                Ok(()) => Ok(()),
                Err(NoMemory) => Err(WriteFault::NoMemory),
            }
        }
        Err(fault) => Err(fault),
    }
}

/// Writes the line of a row behind a piece's text, which is handed to the output first where there is no room.
#[inline(always)]
fn write_row<O: Output>(
    alloc: Global,
    output: &mut O,
    piece: &mut Piece,
    front: &Front,
    row: u64,
    cells: &Cells,
    heads: &Heads,
    i: usize,
) -> Result<(), WriteFault>
    requires { i < length (vals_in cells.now) }
    ensures { Writes (line_of heads.now front.now row (get_or (vals_in cells.now) i null_val)) piece.old piece.new
        (O.output output.old) (O.output output.new) result }
{
    if piece.put_row(front, row, cells, heads, i) {
        return Ok(());
    }
    write_full(alloc, output, piece, front, row, cells, heads, i)
}

/// Writes the lines of rows of a file behind a piece's text.
fn write_rows<O: Output>(
    alloc: Global,
    output: &mut O,
    piece: &mut Piece,
    front: &Front,
    rows: &[u64],
    cells: &Cells,
    heads: &Heads,
) -> Result<(), WriteFault>
    requires { length rows.now ≡ length (vals_in cells.now) }
    ensures { Writes (lines_of_rows heads.now front.now rows.now (vals_in cells.now)) piece.old piece.new
        (O.output output.old) (O.output output.new) result }
{
    for (i, row) in rows.iter().enumerate() {
        write_row(alloc, output, piece, front, *row, cells, heads, i)?;
    }
    Ok(())
}

/// Writes the lines of a chunk of the dtype of some heads behind a piece's text.
fn write_chunk<O: Output>(
    alloc: Global,
    output: &mut O,
    piece: &mut Piece,
    heads: &Heads,
    chunk: &ColumnChunk,
) -> Result<(), WriteFault>
    requires { IsChunk heads.now chunk.now }
    ensures { Writes (chunk_lines chunk.now) piece.old piece.new (O.output output.old) (O.output output.new) result }
{
    let front = Front::new(alloc, chunk.file)?;
    let cells = chunk.values.cells();
    write_rows(
        alloc,
        output,
        piece,
        &front,
        chunk.rows.as_slice(),
        cells,
        heads,
    )
}

/// Writes the lines of chunks of the dtype of some heads behind a piece's text.
fn write_each<O: Output>(
    alloc: Global,
    output: &mut O,
    piece: &mut Piece,
    heads: &Heads,
    chunks: &[ColumnChunk],
) -> Result<(), WriteFault>
    requires { All (IsChunk heads.now) chunks.now }
    ensures { Writes (chunks_lines chunks.now) piece.old piece.new (O.output output.old) (O.output output.new) result }
{
    for chunk in chunks {
        write_chunk(alloc, output, piece, heads, chunk)?;
    }
    Ok(())
}

/// Writes the lines of some chunks of one dtype, in order, in pieces of 65,536 bytes and more where a line is longer.
/// After a fault the output has taken a front of them.
///
/// # Errors
///
/// `Failed` only where the output's count of faults rose; `NoMemory` also for a piece.
fn write_chunks<O: Output>(
    alloc: Global,
    output: &mut O,
    chunks: &[ColumnChunk],
) -> Result<(), WriteFault>
    requires { (d : DataType) × All (IsChunk d) chunks.now }
    ensures { WritesAll (chunks_lines chunks.now) (O.output output.old) (O.output output.new) result }
{
    match chunks {
        [] => Ok(()),
        [first, ..] => {
            let heads = Heads::of(alloc, first.values.dtype())?;
            let mut piece = Piece::new(alloc)?;
            write_each(alloc, output, &mut piece, &heads, chunks)?;
            write_all(output, piece.as_slice())
        }
    }
}

/// Writes the lines of all chunks of a scan's output, which are of one dtype: a line a row, in their order, in pieces of
/// 65,536 bytes and more where a line is longer. After a fault the output has taken a front of the lines. It takes the
/// memory of a piece, and of the heads of the dtype.
///
/// # Errors
///
/// `Failed` only where the output's count of faults rose, and `NoMemory`.
pub fn write_output<O: Output>(
    alloc: Global,
    output: &mut O,
    out: &ColumnOutput,
) -> Result<(), WriteFault>
    requires { (d : DataType) × All (IsChunk d) out.now.chunks }
    ensures { WritesAll (chunks_lines out.now.chunks) (O.output output.old) (O.output output.new) result }
{
    write_chunks(alloc, output, out.chunks.as_slice())
}
