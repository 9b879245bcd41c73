//! Pieces of a line, written into a buffer where there is room.
ghost use Rattle.std.specs.Prelude.{◌≡◌, ◌≤◌, length, take};
ghost use Rattle.std.specs.Fmt.{decimal, signed_decimal};
ghost use Rattle.scan_lines.specs.Line.{comma};
ghost use Rattle.scan_lines.specs.Writes.{Writes};

use crate::digits::write_count;
use itoa::Buffer;

/// Writes bytes behind the first ones of a buffer: where they end, or None where there is no room.
#[inline(always)]
pub(crate) fn put_bytes(text: &[u8], buf: &mut [u8], at: usize) -> Option<usize>
    requires { at ≤ length buf.old }
    ensures { Writes text.now at buf.old buf.new result }
{
    if buf.len() - at < text.len() {
        return None;
    }
    let end = at + text.len();
    buf[at..end].copy_from_slice(text);
    Some(end)
}

/// Writes the front of a text of sixteen bytes: the whole is copied, and what is behind the front is written over.
#[inline(always)]
pub(crate) fn put_padded(text: &[u8; 16], len: usize, buf: &mut [u8], at: usize) -> Option<usize>
    requires { (at ≤ length buf.old) × (len ≤ 16) }
    ensures { Writes (take len text.now) at buf.old buf.new result }
{
    if buf.len() - at < 16 {
        return None;
    }
    let end = at + 16;
    buf[at..end].copy_from_slice(text);
    Some(at + len)
}

/// Writes a number in decimal.
#[inline(always)]
pub(crate) fn put_count(n: u64, buf: &mut [u8], at: usize) -> Option<usize>
    requires { at ≤ length buf.old }
    ensures { Writes (decimal n) at buf.old buf.new result }
{
    if buf.len() - at < 20 {
        return None;
    }
    Some(write_count(n, buf, at))
}

#[inline(never)]
fn put_wide(n: i128, buf: &mut [u8], at: usize) -> Option<usize>
    requires { at ≤ length buf.old }
    ensures { Writes (signed_decimal n) at buf.old buf.new result }
{
    let mut digits = Buffer::new();
    put_bytes(digits.format(n).as_bytes(), buf, at)
}

/// Writes an integer in decimal.
#[inline(always)]
pub(crate) fn put_int(n: i128, buf: &mut [u8], at: usize) -> Option<usize>
    requires { at ≤ length buf.old }
    ensures { Writes (signed_decimal n) at buf.old buf.new result }
{
    if buf.len() - at < 21 {
        return None;
    }
    let size = n.unsigned_abs();
    if size > u64::MAX as u128 {
        return put_wide(n, buf, at);
    }
    if n >= 0 {
        Some(write_count(size as u64, buf, at))
    } else {
        buf[at] = b'-';
        Some(write_count(size as u64, buf, at + 1))
    }
}

/// Writes a comma, but for the first of some parts.
#[inline(always)]
pub(crate) fn put_comma(is_first: bool, buf: &mut [u8], at: usize) -> Option<usize>
    requires { at ≤ length buf.old }
    ensures { Writes (comma is_first) at buf.old buf.new result }
{
    if is_first {
        Some(at)
    } else {
        put_bytes(b",", buf, at)
    }
}
