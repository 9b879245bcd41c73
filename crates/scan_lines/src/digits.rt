//! The digits of a number, written from the first to the last.
ghost use Rattle.std.specs.Prelude.{◌≡◌, ◌+◌, ◌<◌, ◌≤◌, ◌++◌, length, take};
ghost use Rattle.std.specs.Fmt.{decimal};
ghost use Rattle.scan_lines.specs.Digits.{two, four};

static PAIRS: [u8; 200] =
    *b"00010203040506070809101112131415161718192021222324252627282930313233343536373839404142434445464748495051525354555657585960616263646566676869707172737475767778798081828384858687888990919293949596979899";

#[inline(always)]
fn write_two(n: u64, buf: &mut [u8], at: usize) -> usize
    requires { (n < 100) × (at + 2 ≤ length buf.old) }
    ensures end { result ≡ at + 2 }
    ensures written { take result buf.new ≡ take at buf.old ++ two n }
{
    let from = n as usize * 2;
    let (tens, ones) = (PAIRS[from], PAIRS[from + 1]);
    buf[at] = tens;
    buf[at + 1] = ones;
    at + 2
}

#[inline(always)]
fn write_four(n: u64, buf: &mut [u8], at: usize) -> usize
    requires { (n < 10000) × (at + 4 ≤ length buf.old) }
    ensures end { result ≡ at + 4 }
    ensures written { take result buf.new ≡ take at buf.old ++ four n }
{
    let middle = write_two(n / 100, buf, at);
    write_two(n % 100, buf, middle)
}

#[inline(always)]
fn write_first(n: u64, buf: &mut [u8], at: usize) -> usize
    requires { (n < 100) × (at + length (decimal n) ≤ length buf.old) }
    ensures end { result ≡ at + length (decimal n) }
    ensures written { take result buf.new ≡ take at buf.old ++ decimal n }
{
    if n < 10 {
        buf[at] = b'0' + n as u8;
        return at + 1;
    }
    write_two(n, buf, at)
}

#[inline(always)]
fn write_short(n: u64, buf: &mut [u8], at: usize) -> usize
    requires { (n < 10000) × (at + length (decimal n) ≤ length buf.old) }
    ensures end { result ≡ at + length (decimal n) }
    ensures written { take result buf.new ≡ take at buf.old ++ decimal n }
{
    if n < 100 {
        return write_first(n, buf, at);
    }
    let middle = write_first(n / 100, buf, at);
    write_two(n % 100, buf, middle)
}

#[inline(never)]
fn write_long(n: u64, buf: &mut [u8], at: usize) -> usize
    requires { at + length (decimal n) ≤ length buf.old }
    ensures end { result ≡ at + length (decimal n) }
    ensures written { take result buf.new ≡ take at buf.old ++ decimal n }
{
    if n < 10_000 {
        return write_short(n, buf, at);
    }
    let middle = write_long(n / 10_000, buf, at);
    write_four(n % 10_000, buf, middle)
}

/// Writes a number in decimal, and tells where it ends.
#[inline(always)]
pub(crate) fn write_count(n: u64, buf: &mut [u8], at: usize) -> usize
    requires { at + length (decimal n) ≤ length buf.old }
    ensures end { result ≡ at + length (decimal n) }
    ensures written { take result buf.new ≡ take at buf.old ++ decimal n }
{
    if n < 10_000 {
        return write_short(n, buf, at);
    }
    if n < 100_000_000 {
        let middle = write_short(n / 10_000, buf, at);
        return write_four(n % 10_000, buf, middle);
    }
    write_long(n, buf, at)
}
