//! Segments of rows that a file does not have.
ghost use Rattle.std.specs.Prelude.{◌≡◌, ◌+◌, ◌*◌, IfOk, replicate};
ghost use Rattle.scan_spelling.specs.Written.{spelled};
ghost use Rattle.scan_spelling.specs.declared.spelling.Spelling.TheVariants.{One};
ghost use Rattle.scan_widen.specs.Blanks.{blank_val, row_size};

use crate::scalar::ScalarType;
use scan_values::{DTypeKind, NoMemory, Nullability, PType};
use std::alloc::Global;

// How many bytes a blank row has in spelling 1: its flag, where it has one, and its slot, or the length of its text.
fn row_size(kind: DTypeKind, nullability: Nullability) -> u64
    ensures is { result ≡ row_size kind nullability }
{
    let slot = match kind {
        DTypeKind::Bool => 1,
        DTypeKind::Primitive(PType::U8) => 1,
        DTypeKind::Primitive(PType::I8) => 1,
        DTypeKind::Primitive(PType::U16) => 2,
        DTypeKind::Primitive(PType::I16) => 2,
        DTypeKind::Primitive(PType::U32) => 4,
        DTypeKind::Primitive(PType::I32) => 4,
        DTypeKind::Primitive(PType::U64) => 8,
        DTypeKind::Primitive(PType::I64) => 8,
        DTypeKind::Utf8 => 4,
        DTypeKind::List => 0,
        DTypeKind::Struct => 0,
    };
    match nullability {
        Nullability::NonNullable => slot,
        Nullability::Nullable => slot + 1,
    }
}

// So many bytes.
fn filled(alloc: Global, count: u64, byte: u8) -> Result<Vec<u8>, NoMemory>
    ensures { IfOk result (λ v. v.items ≡ replicate count byte) }
{
    let Ok(count) = usize::try_from(count) else {
        return Err(NoMemory);
    };
    Ok(vec![in alloc; byte; count]?)
}

/// So many rows, in spelling 1, of null where a scalar dtype has it, and else of false, of 0 or of the empty text.
///
/// # Errors
/// `NoMemory`.
#[tactic(auto, using(crate::proofs::Blanked::blank_bytes))]
pub fn blank_segment(alloc: Global, scalar: ScalarType, rows: u64) -> Result<Vec<u8>, NoMemory>
    ensures { IfOk result (λ v. v.items ≡ spelled One scalar (replicate rows (blank_val scalar))) }
{
    let dtype = scalar.to_dtype();
    match rows.checked_mul(row_size(dtype.kind(), dtype.nullability())) {
        Some(count) => filled(alloc, count, 0),
        None => Err(NoMemory),
    }
}

/// The validity of so many rows that are all there, in spelling 1.
///
/// # Errors
/// `NoMemory`.
pub fn valid_segment(alloc: Global, rows: u64) -> Result<Vec<u8>, NoMemory>
    ensures { IfOk result (λ v. v.items ≡ replicate rows 1) }
{
    filled(alloc, rows, 1)
}
