//! Hex texts, read 64 digits at a time into room that was not filled before. What is wrong with one is told by `hex`.
ghost use Rattle.std.specs.Prelude.{◌≡◌, ◌⊎◌, ◌≤◌, ℕ, length, drop, IfOk, IfErr, IfSome, Ok};
ghost use Rattle.hex.specs.Hex.{decode_of, decode_pairs, hex_digit_value, pair_value};
ghost use Rattle.hex.specs.declared.error.FromHexError.TheVariants.{OutOfMemory};
ghost use Rattle.scan_manifest.specs.Digits.{prepend};

use crate::hex_lanes::decode_block;
use hex::FromHexError;
use std::alloc::{AllocError, Global};
use std::simd::prelude::*;

fn digit(c: u8) -> Option<u8>
    ensures { result ≡ hex_digit_value c }
{
    match c {
        b'A'..=b'F' => Some(c - 55),
        b'a'..=b'f' => Some(c - 87),
        b'0'..=b'9' => Some(c - 48),
        _ => None,
    }
}

/// The byte of two digits.
fn pair(high: u8, low: u8) -> Option<u8>
    ensures { IfSome result (λ v. (i : ℕ) → pair_value high low i ≡ Ok v) }
{
    match digit(high) {
        Some(high) => match digit(low) {
            Some(low) => Some(high * 16 + low),
            None => None,
        },
        None => None,
    }
}

/// The bytes of a text whose digits before a place are these bytes; none where it is no hex text.
fn decode_rest(text: &[u8], at: usize, bytes: Vec<u8>) -> Result<Option<Vec<u8>>, AllocError>
    requires within { at ≤ length text.now }
    requires before { decode_pairs 0 text.now ≡ prepend bytes.items (decode_pairs at (drop at text.now)) }
    ensures { IfOk result (λ o. IfSome o (λ v. decode_pairs 0 text.now ≡ Ok v.items)) }
{
    let mut bytes = bytes;
    let mut at = at;
    'pairs: while text.len() - at >= 2 {
        let Some(byte) = pair(text[at], text[at + 1]) else {
            return Ok(None);
        };
        bytes.push(byte)?;
        at += 2;
    }
    if at < text.len() {
        return Ok(None);
    }
    Ok(Some(bytes))
}

/// The bytes of a text; none where it is no hex text.
fn decode_digits(alloc: Global, text: &[u8]) -> Result<Option<Vec<u8>>, AllocError>
    ensures { IfOk result (λ o. IfSome o (λ v. decode_pairs 0 text.now ≡ Ok v.items)) }
{
    let mut bytes = Vec::with_capacity(alloc, text.len() / 2)?;
    let mut at = 0;
    'blocks: while text.len() - at >= 64 {
        let (block, good) = decode_block(u8x64::from_slice(&text[at..]));
        if !good {
            return Ok(None);
        }
        bytes.extend_from_slice(&block.to_array())?;
        at += 64;
    }
    decode_rest(text, at, bytes)
}

/// The bytes of a hex text.
pub(crate) fn decode(alloc: Global, text: &[u8]) -> Result<Vec<u8>, FromHexError>
    ensures ok { IfOk result (λ bytes. decode_of text.now ≡ Ok bytes.items) }
    ensures err { IfErr result (λ e. (e ≡ OutOfMemory) ⊎ (decode_of text.now ≡ Err e)) }
{
    if text.len() % 2 != 0 {
        return hex::decode(alloc, text);
    }
    match decode_digits(alloc, text)? {
        Some(bytes) => Ok(bytes),
        None => hex::decode(alloc, text),
    }
}
