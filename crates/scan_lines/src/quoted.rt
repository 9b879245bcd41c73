//! Texts in quotes.
ghost use Rattle.std.specs.Prelude.{◌≡◌, ◌<◌, ◌≤◌, ◌∷◌, [], IsTrue, take, length};
ghost use Rattle.std.specs.List.{flat_map};
ghost use Rattle.scan_lines.specs.Line.{hex_digit, escaped, quoted};
ghost use Rattle.scan_lines.specs.Writes.{Writes};

use crate::put::put_bytes;

fn hex_digit(n: u8) -> u8
    requires { n < 16 }
    ensures { result ≡ hex_digit n }
{
    if n < 10 { n + 48 } else { n + 87 }
}

#[inline(never)]
fn put_escaped(b: u8, buf: &mut [u8], at: usize) -> Option<usize>
    requires { at ≤ length buf.old }
    ensures { Writes (escaped b) at buf.old buf.new result }
{
    match b {
        b'"' => put_bytes(b"\\\"", buf, at),
        b'\\' => put_bytes(b"\\\\", buf, at),
        8 => put_bytes(b"\\b", buf, at),
        9 => put_bytes(b"\\t", buf, at),
        10 => put_bytes(b"\\n", buf, at),
        12 => put_bytes(b"\\f", buf, at),
        13 => put_bytes(b"\\r", buf, at),
        0..=31 => put_bytes(
            &[
                b'\\',
                b'u',
                b'0',
                b'0',
                hex_digit(b / 16),
                hex_digit(b % 16),
            ],
            buf,
            at,
        ),
        _ => put_bytes(&[b], buf, at),
    }
}

#[inline(always)]
fn is_plain(b: u8) -> bool
    ensures { IsTrue result → escaped b ≡ b ∷ [] }
{
    (b >= 32) & (b != b'"') & (b != b'\\')
}

/// How many bytes at the front of a text stand for themselves in quotes.
fn plain_length(text: &[u8]) -> usize
    ensures bound { result ≤ length text.now }
    ensures plain { flat_map escaped (take result text.now) ≡ take result text.now }
{
    for i in 0..text.len() {
        if !is_plain(text[i]) {
            return i;
        }
    }
    text.len()
}

/// Writes a text in quotes.
pub(crate) fn put_quoted(text: &[u8], buf: &mut [u8], at: usize) -> Option<usize>
    requires { at ≤ length buf.old }
    ensures { Writes (quoted text.now) at buf.old buf.new result }
{
    let mut end = put_bytes(b"\"", buf, at)?;
    let mut start = 0;
    'runs: while start < text.len() {
        let rest = &text[start..];
        let n = plain_length(rest);
        if n == 0 {
            end = put_escaped(text[start], buf, end)?;
            start += 1;
        } else {
            end = put_bytes(&rest[..n], buf, end)?;
            start += n;
        }
    }
    put_bytes(b"\"", buf, end)
}
