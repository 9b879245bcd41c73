// Where the texts of a segment end, of what is kept beside its bytes, or found and kept.
ghost use Rattle.std.specs.Prelude.{◌≡◌};
ghost use Rattle.scan_spelling.specs.Decoded.{Gives};
ghost use Rattle.scan_spelling.specs.TextColumns.{ends_under, flag_group};

use crate::spelling::{DecodeFault, Spelling};
use crate::texts::ends_under;
use scan_segments::{ByteBuffer, FlagGroup, TextEnds};
use scan_values::Nullability;
use std::alloc::Global;

/// How the flags of rows stand before their texts.
fn flag_group(spelling: Spelling, nullability: Nullability) -> FlagGroup
    ensures { result ≡ flag_group spelling nullability }
{
    match nullability {
        Nullability::NonNullable => FlagGroup::Absent,
        Nullability::Nullable => match spelling {
            Spelling::One => FlagGroup::Bytes,
            Spelling::Two => FlagGroup::Bits,
        },
    }
}

/// Where each text of a segment ends, after the flags: found by the first who asks, and shared by all who hold the
/// bytes.
pub(crate) fn known_ends(
    alloc: Global,
    spelling: Spelling,
    nullability: Nullability,
    rows: u64,
    bytes: &ByteBuffer,
) -> Result<TextEnds, DecodeFault>
    ensures { Gives (λ t. t) result (ends_under spelling nullability rows bytes.now) }
{
    let group = flag_group(spelling, nullability);
    if let Some(ends) = bytes.text_ends(group, rows) {
        return Ok(ends);
    }
    let found = ends_under(alloc, spelling, nullability, rows, bytes.as_slice())?;
    let ends = TextEnds::new(alloc, found)?;
    bytes.keep_text_ends(group, rows, ends.try_clone()?);
    Ok(ends)
}
