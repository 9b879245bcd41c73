//! Hex digits, many side by side.
ghost use Rattle.std.specs.Prelude.{◌≡◌, ◌<◌, ◌+◌, ◌*◌, ℕ, IsTrue, Some, Ok, get_or, length};
ghost use Rattle.hex.specs.Hex.{hex_digit_value, pair_value};

use std::simd::prelude::*;

/// What each digit stands for, and 16 or more where there is none. The first sum takes 0 to 9 to the last ten bytes, of
/// which nothing below is left; the other takes A to F, of either case, to 0 to 5, and what is past 245 stays past it.
#[inline(always)]
fn values(text: u8x32) -> u8x32
    ensures long { length result ≡ 32 }
    ensures digits { (k : ℕ) → k < 32 → get_or result k 0 < 16 →
        hex_digit_value (get_or text k 0) ≡ Some (get_or result k 0) }
{
    let number = (text + u8x32::splat(198)).saturating_sub(u8x32::splat(6)) + u8x32::splat(16);
    let letter = ((text & u8x32::splat(223)) + u8x32::splat(191)).simd_min(u8x32::splat(245));
    number.simd_min(letter + u8x32::splat(10))
}

#[inline(always)]
fn are_below_16(v: u8x32) -> bool
    ensures { IsTrue result → (k : ℕ) → k < 32 → get_or v k 0 < 16 }
{
    v.simd_ge(u8x32::splat(16)).to_bitmask() == 0
}

/// The bytes of 64 digits, and whether all are digits.
#[inline(always)]
pub(crate) fn decode_block(text: u8x64) -> (u8x32, bool)
    ensures long { length result.0 ≡ 32 }
    ensures bytes { IsTrue result.1 → (k : ℕ) → k < 32 → (i : ℕ) →
        pair_value (get_or text (2 * k) 0) (get_or text (2 * k + 1) 0) i ≡ Ok (get_or result.0 k 0) }
{
    let high = values(text.swizzle([
        0, 2, 4, 6, 8, 10, 12, 14, 16, 18, 20, 22, 24, 26, 28, 30, 32, 34, 36, 38, 40, 42, 44, 46,
        48, 50, 52, 54, 56, 58, 60, 62,
    ]));
    let low = values(text.swizzle([
        1, 3, 5, 7, 9, 11, 13, 15, 17, 19, 21, 23, 25, 27, 29, 31, 33, 35, 37, 39, 41, 43, 45, 47,
        49, 51, 53, 55, 57, 59, 61, 63,
    ]));
    let good = are_below_16(high.simd_max(low));
    (high * u8x32::splat(16) + low, good)
}
