// The integer types and nullability, after the crate's `vortex_array::dtype`.
ghost use Rattle.std.specs.Prelude.{◌≡◌, ◌<◌};
ghost use Rattle.scan_values.specs.DataType.{is_null_kind, ptype_tree};
ghost use Rattle.scan_values.specs.Ranges.{in_range, is_unsigned, is_signed};

/// Whether a dtype has the value null.
#[derive(Clone, Copy, PartialEq, Eq, Debug)]
pub enum Nullability {
    NonNullable,
    Nullable,
}

/// An integer type.
#[derive(Clone, Copy, PartialEq, Eq, Debug)]
pub enum PType {
    U8,
    U16,
    U32,
    U64,
    I8,
    I16,
    I32,
    I64,
}

impl Nullability {
    /// Whether there is a null.
    pub fn is_nullable(self) -> bool
        ensures { result ≡ is_null_kind self }
    {
        match self {
            Nullability::NonNullable => false,
            Nullability::Nullable => true,
        }
    }
}

impl PType {
    /// A number for each type.
    pub(crate) fn number(self) -> u8
        ensures value { result ≡ ptype_tree self }
        ensures bound { result < 8 }
    {
        self as u8
    }

    /// Whether a number is one of this type.
    pub fn holds(self, number: i128) -> bool
        ensures { result ≡ in_range self number }
    {
        match self {
            PType::U8 => is_unsigned_below(1 << 8, number),
            PType::U16 => is_unsigned_below(1 << 16, number),
            PType::U32 => is_unsigned_below(1 << 32, number),
            PType::U64 => is_unsigned_below(1 << 64, number),
            PType::I8 => is_signed_below(1 << 7, number),
            PType::I16 => is_signed_below(1 << 15, number),
            PType::I32 => is_signed_below(1 << 31, number),
            PType::I64 => is_signed_below(1 << 63, number),
        }
    }
}

fn is_unsigned_below(limit: u128, number: i128) -> bool
    ensures { result ≡ is_unsigned limit number }
{
    number >= 0 && (number as u128) < limit
}

fn is_signed_below(limit: u128, number: i128) -> bool
    ensures { result ≡ is_signed limit number }
{
    if number >= 0 {
        (number as u128) < limit
    } else {
        ((-(number + 1)) as u128) < limit
    }
}
