//! What stands before a field, or before a row's number: made once, and written often.
ghost use Rattle.std.specs.Prelude.{◌≡◌, ◌≤◌, length, IfOk};
ghost use Rattle.scan_lines.specs.Heads.{head_text, front_of};
ghost use Rattle.scan_lines.specs.Writes.{Writes};

use crate::put::{put_bytes, put_comma, put_count, put_padded};
use crate::quoted::put_quoted;
use scan_values::{FieldName, NoMemory};
use std::alloc::Global;
use std::marker::Model;

/// A text, and where it is short, a block of sixteen bytes that begins with it.
#[derive(Drop)]
pub(crate) struct Head {
    text: Vec<u8>,
    block: [u8; 16],
    is_short: bool,
}

impl Model for Head {
    ghost use Rattle.std.specs.Prelude.{◌≡◌, ◌≤◌, ℕ, List, true, take, length};

    ghost Value = { List ℕ };

    ghost view = { λ a. a.text.items };

    ghost invariant = { λ a. a.is_short ≡ true → (length a.text.items ≤ 16) × (take (length a.text.items) a.block ≡ a.text.items) };
}

impl Head {
    /// The head of a text.
    pub fn new(alloc: Global, text: &[u8]) -> Result<Head, NoMemory>
        ensures { IfOk result (λ h. h ≡ text.now) }
    {
        let kept = Vec::from_slice(alloc, text)?;
        let mut block = [0u8; 16];
        if text.len() > 16 {
            return Ok(Head {
                text: kept,
                block,
                is_short: false,
            });
        }
        let n = text.len();
        block[..n].copy_from_slice(text);
        Ok(Head {
            text: kept,
            block,
            is_short: true,
        })
    }

    /// What stands before a field of this name.
    pub fn of_field(alloc: Global, is_first: bool, name: &FieldName) -> Result<Head, NoMemory>
        ensures { IfOk result (λ h. h ≡ head_text is_first name.now) }
    {
        let bytes = name.as_str().as_bytes();
        let Some(most) = most_of(bytes.len()) else {
            return Err(NoMemory);
        };
        let mut text = vec![in alloc; 0u8; most]?;
        match put_head(is_first, bytes, &mut text, 0) {
            Some(end) => Head::new(alloc, &text[..end]),
            None => Err(NoMemory),
        }
    }

    /// What stands before the number of a row of a file.
    pub fn of_file(alloc: Global, file: usize) -> Result<Head, NoMemory>
        ensures { IfOk result (λ h. h ≡ front_of file) }
    {
        let mut text = [0u8; 64];
        match put_front(file, &mut text, 0) {
            Some(end) => Head::new(alloc, &text[..end]),
            None => Err(NoMemory),
        }
    }

    /// Writes the text.
    #[inline(always)]
    pub(crate) fn put(&self, buf: &mut [u8], at: usize) -> Option<usize>
        requires { at ≤ length buf.old }
        ensures { Writes self.now at buf.old buf.new result }
    {
        if self.is_short {
            put_padded(&self.block, self.text.len(), buf, at)
        } else {
            put_bytes(self.text.as_slice(), buf, at)
        }
    }
}

/// The most bytes of a head of so many bytes in quotes, each of which six stand for.
fn most_of(len: usize) -> Option<usize> {
    len.checked_mul(6)?.checked_add(4)
}

fn put_head(is_first: bool, name: &[u8], buf: &mut [u8], at: usize) -> Option<usize>
    requires { at ≤ length buf.old }
    ensures { Writes (head_text is_first name.now) at buf.old buf.new result }
{
    let end = put_comma(is_first, buf, at)?;
    let end = put_quoted(name, buf, end)?;
    put_bytes(b":", buf, end)
}

fn put_front(file: usize, buf: &mut [u8], at: usize) -> Option<usize>
    requires { at ≤ length buf.old }
    ensures { Writes (front_of file) at buf.old buf.new result }
{
    let end = put_bytes(b"{\"file\":", buf, at)?;
    let end = put_count(file as u64, buf, end)?;
    put_bytes(b",\"row\":", buf, end)
}
