//! Groups of bits: a flag or a Bool of each row of a segment in spelling 2.
ghost use Rattle.std.specs.Prelude.{◌≡◌, ◌<◌, ◌/◌, ◌==◌, ◌&&◌, length, get_or, drop};
ghost use Rattle.scan_spelling.specs.Spelling.{are_zero, bits_of, bytes_for};

/// How many bytes have so many bits.
pub(crate) fn bytes_for(rows: u64) -> u64
    ensures { result ≡ bytes_for rows }
{
    rows.div_ceil(8)
}

/// The bit of a row.
pub(crate) fn bit(bytes: &[u8], row: u64) -> u8
    requires { row / 8 < length bytes.now }
    ensures { result ≡ get_or (bits_of bytes.now) row 0 }
{
    (bytes[(row / 8) as usize] >> (row % 8)) & 1
}

// Whether the bits after those of so many rows are 0.
#[tactic(auto, using(crate::proofs::BitGroups::spare_bits, crate::proofs::BitGroups::no_spare_bits))]
fn no_more_bits(bytes: &[u8], rows: u64) -> bool
    requires { length bytes.now ≡ bytes_for rows }
    ensures { result ≡ are_zero (drop rows (bits_of bytes.now)) }
{
    let used = rows % 8;
    if used == 0 {
        return true;
    }
    bytes[bytes.len() - 1] >> used == 0
}

/// Whether the bytes are the bits of so many rows, and zeros up to the end of the last byte.
pub(crate) fn is_group(bytes: &[u8], rows: u64) -> bool
    ensures { result ≡ ((length bytes.now == bytes_for rows) && are_zero (drop rows (bits_of bytes.now))) }
{
    bytes.len() as u64 == bytes_for(rows) && no_more_bits(bytes, rows)
}
