//! The columns of a generated file, as bytes.
ghost use Rattle.std.specs.Prelude.{◌≡◌, ◌≤◌, ◌+◌, ◌-◌, ◌++◌, IfOk, OnOk, length, map, true};
ghost use Rattle.std.specs.List.{flat_map};
ghost use Rattle.scan_spelling.specs.Spelling.{are_bytes};
ghost use Rattle.scan_spelling.specs.Written.{slots, flags, slot_bytes, flag_of};
ghost use Rattle.scan_run.specs.Generated.{id_of, value_of, ids, values, elements, offsets};
ghost use Rattle.scan_run.specs.GeneratedBytes.{longs, signs, bytes_only};

use scan_values::NoMemory;
use std::alloc::{AllocError, Global};

// The ids of so many rows, four bytes each.
pub(super) fn id_words(alloc: Global, first: u32, count: u32) -> Result<Vec<[u8; 4]>, AllocError>
    requires { first + count ≤ 300_000 }
    ensures { IfOk result (λ v. flat_map (λ x. x) v.items ≡ slots longs (ids first count)) }
{
    (first..first + count)
        .map(
            |g|
                ensures { result ≡ slot_bytes longs (id_of g) }
            { g.to_le_bytes() },
        )
        .collect(alloc)
}

// For a row 0 where its value is null, else 1.
fn flag_at(g: u32) -> u8
    ensures { result ≡ flag_of (value_of g) }
{
    if g % 5 == 4 { 0 } else { 1 }
}

// The value of a row in four bytes, zeros where it is null.
fn value_word(g: u32) -> [u8; 4]
    ensures { result ≡ slot_bytes signs (value_of g) }
{
    let n = if g % 5 == 4 { 0 } else { g % 10 };
    n.to_le_bytes()
}

// The flags of the values of so many rows.
fn value_flags(alloc: Global, first: u32, count: u32) -> Result<Vec<u8>, AllocError>
    requires { first + count ≤ 300_000 }
    ensures { IfOk result (λ v. v.items ≡ flags (values first count)) }
{
    (first..first + count)
        .map(
            |g|
                ensures { result ≡ flag_of (value_of g) }
            { flag_at(g) },
        )
        .collect(alloc)
}

// The slots of the values of so many rows.
fn value_words(alloc: Global, first: u32, count: u32) -> Result<Vec<[u8; 4]>, AllocError>
    requires { first + count ≤ 300_000 }
    ensures { IfOk result (λ v. flat_map (λ x. x) v.items ≡ slots signs (values first count)) }
{
    (first..first + count)
        .map(
            |g|
                ensures { result ≡ slot_bytes signs (value_of g) }
            { value_word(g) },
        )
        .collect(alloc)
}

// Writes words behind bytes.
fn push_words(words: &[[u8; 4]], out: &mut Vec<u8>) -> Result<(), AllocError>
    ensures written { OnOk result (out.new.items ≡ out.old.items ++ flat_map (λ x. x) words.now) }
    ensures bytes { OnOk result (are_bytes out.new.items ≡ true) }
{
    out.extend_from_slice(words.as_flattened())
}

// The values of so many rows, their flags before them.
pub(super) fn value_bytes(alloc: Global, first: u32, count: u32) -> Result<Vec<u8>, NoMemory>
    requires { first + count ≤ 300_000 }
    ensures same { IfOk result (λ v. v.items ≡ flags (values first count) ++ slots signs (values first count)) }
    ensures bytes { IfOk result (λ v. are_bytes v.items ≡ true) }
{
    let mut bytes = value_flags(alloc, first, count)?;
    let words = value_words(alloc, first, count)?;
    push_words(words.as_slice(), &mut bytes)?;
    Ok(bytes)
}

// How many elements the lists of all rows before one have: one in each odd row, and two in two of four.
fn elements_before(g: u32) -> u32
    requires { g ≤ 300_000 }
    ensures { result ≡ length (elements 0 g) }
{
    g / 2 + g / 4 * 2 + (g + 1) / 4 * 2
}

// The elements of the lists of so many rows, a byte each. Those of all rows are 1, 2, 3, 3, 4, 5, 5, 6, 7, 7, ..: the
// numbers in order, and each odd one but the first twice.
pub(super) fn element_bytes(alloc: Global, first: u32, count: u32) -> Result<Vec<u8>, AllocError>
    requires { first + count ≤ 300_000 }
    ensures { IfOk result (λ v. v.items ≡ slots bytes_only (elements first count)) }
{
    (elements_before(first)..elements_before(first + count))
        .map(|k| ((k - k / 3 + 1) % 256) as u8)
        .collect(alloc)
}

// Where the list of each row begins among the elements, and where the last one ends, four bytes each.
pub(super) fn offset_words(
    alloc: Global,
    first: u32,
    count: u32,
) -> Result<Vec<[u8; 4]>, AllocError>
    requires { first + count ≤ 300_000 }
    ensures { IfOk result (λ v. flat_map (λ x. x) v.items ≡ slots longs (offsets first count)) }
{
    let start = elements_before(first);
    (first..first + count + 1)
        .map(
            |g|
                requires below { g ≤ 300_000 }
                requires behind { start ≤ length (elements 0 g) }
                ensures { result ≡ slot_bytes longs (id_of (length (elements 0 g) - start)) }
            { (elements_before(g) - start).to_le_bytes() },
        )
        .collect(alloc)
}
