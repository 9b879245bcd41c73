//! A piece of text that lines are written into, row by row.
ghost use Rattle.std.specs.Prelude.{◌≡◌, ◌<◌, ◌≤◌, ◌++◌, [], IfOk, false, get_or, length, true};
ghost use Rattle.scan_columns.specs.Cells.{vals_in};
ghost use Rattle.scan_values.specs.Val.{null_val};
ghost use Rattle.scan_lines.specs.Heads.{front_of};
ghost use Rattle.scan_lines.specs.Line.{line_of};
ghost use Rattle.scan_lines.specs.Writes.{Writes};

use crate::cells::put_cell;
use crate::head::Head;
use crate::heads::Heads;
use crate::put::{put_bytes, put_count};
use scan_columns::Cells;
use scan_values::NoMemory;
use std::alloc::Global;
use std::marker::Model;

/// How many bytes a piece has room for, until it grows.
pub const PIECE_BYTES: usize = 65_536;

/// What stands before the number of each row of a file, made once for a chunk of its rows. Contracts see the file's place.
#[derive(Drop)]
pub struct Front {
    file: usize,
    head: Head,
}

impl Model for Front {
    ghost use Rattle.std.specs.Prelude.{◌≡◌, ℕ};
    ghost use Rattle.scan_lines.specs.Heads.{front_of};

    ghost Value = { ℕ };

    ghost view = { λ a. a.file };

    ghost invariant = { λ a. a.head ≡ front_of a.file };
}

impl Front {
    /// The front of lines of a file.
    pub fn new(alloc: Global, file: usize) -> Result<Front, NoMemory>
        ensures { IfOk result (λ f. f ≡ file) }
    {
        let head = Head::of_file(alloc, file)?;
        Ok(Front { file, head })
    }

    #[inline(always)]
    fn put(&self, buf: &mut [u8], at: usize) -> Option<usize>
        requires { at ≤ length buf.old }
        ensures { Writes (front_of self.now) at buf.old buf.new result }
    {
        self.head.put(buf, at)
    }
}

/// Writes the line of the row whose value stands at a place.
#[inline(always)]
fn put_line(
    front: &Front,
    row: u64,
    cells: &Cells,
    heads: &Heads,
    i: usize,
    buf: &mut [u8],
    at: usize,
) -> Option<usize>
    requires { (i < length (vals_in cells.now)) × (at ≤ length buf.old) }
    ensures { Writes (line_of heads.now front.now row (get_or (vals_in cells.now) i null_val)) at buf.old buf.new result }
{
    let end = front.put(buf, at)?;
    let end = put_count(row, buf, end)?;
    let end = put_bytes(b",\"value\":", buf, end)?;
    let end = put_cell(cells, heads, i, buf, end)?;
    put_bytes(b"}\n", buf, end)
}

/// Lines that were written and not yet taken, in a buffer of 65,536 bytes that grows by `grow` alone. Contracts see the
/// text.
#[derive(Drop)]
pub struct Piece {
    buf: Vec<u8>,
    end: usize,
}

impl Model for Piece {
    ghost use Rattle.std.specs.Prelude.{◌≤◌, ℕ, List, take, length};

    ghost Value = { List ℕ };

    ghost view = { λ a. take a.end a.buf.items };

    ghost invariant = { λ a. a.end ≤ length a.buf.items };
}

impl Piece {
    /// A piece without text.
    pub fn new(alloc: Global) -> Result<Piece, NoMemory>
        ensures { IfOk result (λ p. p ≡ []) }
    {
        let buf = vec![in alloc; 0u8; PIECE_BYTES]?;
        Ok(Piece { buf, end: 0 })
    }

    /// The text.
    pub fn as_slice(&self) -> &[u8]
        ensures { result.now ≡ self.now }
    {
        &self.buf[..self.end]
    }

    /// Takes the text away. The room stays.
    pub fn clear(&mut self)
        ensures { self.new ≡ [] }
    {
        self.end = 0;
    }

    /// Makes room for twice as many bytes, in place of the text, which is taken away.
    pub fn grow(&mut self, alloc: Global) -> Result<(), NoMemory>
        ensures { self.new ≡ [] }
    {
        self.end = 0;
        let Some(room) = self.buf.len().checked_mul(2) else {
            return Err(NoMemory);
        };
        self.buf = vec![in alloc; 0u8; room]?;
        Ok(())
    }

    /// Writes the line of the row whose value stands at a place of the cells, which are of the dtype of the heads, behind
    /// the text. Where there is no room for it the answer is false, and the text stays as it was.
    #[inline(always)]
    pub fn put_row(
        &mut self,
        front: &Front,
        row: u64,
        cells: &Cells,
        heads: &Heads,
        i: usize,
    ) -> bool
        requires { i < length (vals_in cells.now) }
        ensures row { result ≡ true →
            self.new ≡ self.old ++ line_of heads.now front.now row (get_or (vals_in cells.now) i null_val) }
        ensures none { result ≡ false → self.new ≡ self.old }
    {
        match put_line(front, row, cells, heads, i, &mut self.buf, self.end) {
            Some(end) => {
                self.end = end;
                true
            }
            None => false,
        }
    }
}
