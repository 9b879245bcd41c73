//! Moves a segment from one spelling to another.
ghost use Rattle.std.specs.Prelude.{◌≡◌, length, All, IfOk, IsTrue, Some, option_map};
ghost use Rattle.scan_values.specs.Kinds.{is_scalar_type};
ghost use Rattle.scan_spelling.specs.Spelling.{decode};
ghost use Rattle.scan_spelling.specs.Written.{spelled, TextFits};
ghost use Rattle.scan_spelling.specs.Decoded.{Gives};

use crate::read::decode_segment;
use crate::spelling::{DecodeFault, EncodeFault, Spelling};
use crate::write::encode_segment;
use scan_values::{Array, DType, NoMemory};
use std::alloc::Global;

// The bytes of an array that has no text which is too long.
fn write_short(alloc: Global, spelling: Spelling, a: &Array) -> Result<Vec<u8>, NoMemory>
    requires scalar { IsTrue (is_scalar_type a.now.dtype) }
    requires short { All TextFits a.now.items }
    ensures written { IfOk result (λ v. v.items ≡ spelled spelling a.now.dtype a.now.items) }
    ensures again { IfOk result (λ v. decode spelling a.now.dtype (length a.now.items) v.items ≡ Some a.now.items) }
{
    match encode_segment(alloc, spelling, a) {
        Ok(bytes) => Ok(bytes),
        Err(EncodeFault::TooLong) => unreachable!(),
        Err(EncodeFault::NoMemory) => Err(NoMemory),
    }
}

/// The bytes in one spelling of what the bytes of a segment of so many rows of a scalar dtype spell in another.
///
/// # Errors
/// `Spelling` exactly where the bytes are not the spelling of so many rows, and `NoMemory`.
#[tactic(auto, using(crate::proofs::Recoding::texts_fit, crate::proofs::Recoding::kept_as))]
pub fn recode_segment(
    alloc: Global,
    from: Spelling,
    to: Spelling,
    dtype: &DType,
    rows: u64,
    bytes: &[u8],
) -> Result<Vec<u8>, DecodeFault>
    requires { IsTrue (is_scalar_type dtype.now) }

    // What is given is read as the bytes were.
    ensures kept { IfOk result (λ v. decode to dtype.now rows v.items ≡ decode from dtype.now rows bytes.now) }

    // It is the other spelling of the values that the bytes spell, and where these spell none, that is told.
    ensures exact { Gives (λ v. v.items) result
        (option_map (spelled to dtype.now) (decode from dtype.now rows bytes.now)) }
{
    let array = decode_segment(alloc, from, dtype, rows, bytes)?;
    Ok(write_short(alloc, to, &array)?)
}
