//! How the values of a leaf are spelled as the bytes of a segment. Own spellings, in place of the Rust's arrays.
//!
//! A segment of n rows in spelling 1 has, where its leaf is nullable, n bytes that are 0 (null) or 1, and then n slots
//! in order. The slot of a Bool is one byte 0 or 1, that of an integer its bytes, the lowest first, in two's complement
//! where it is signed, and that of a text its length in four bytes, the lowest first, and so many bytes of UTF-8.
//! Nothing follows. The slot of a null stands there too, and what it holds is ignored.
//!
//! In spelling 2 the flags of n rows are n bits in as few bytes as have them, and so are the slots of Bools. Row i has
//! bit i mod 8 of byte i / 8, the least significant being bit 0. The bits after the last row are 0.
use scan_values::NoMemory;
use std::alloc::{AllocError, AllocFailed};
use thiserror::Error;

/// How a segment is spelled: `One` with a byte for each flag and each Bool, `Two` with a bit.
#[derive(Clone, Copy, Debug, PartialEq, Eq, Default)]
pub enum Spelling {
    #[default]
    One,
    Two,
}

/// Why a segment is not read.
#[derive(Clone, Copy, Debug, PartialEq, Eq, Error)]
pub enum DecodeFault {
    #[error("the bytes are not the spelling of the rows")]
    Spelling,
    #[error("out of memory")]
    NoMemory,
}

/// Why an array is not written.
#[derive(Clone, Copy, Debug, PartialEq, Eq, Error)]
pub enum EncodeFault {
    #[error("a text has more than 4294967295 bytes")]
    TooLong,
    #[error("out of memory")]
    NoMemory,
}

impl From<NoMemory> for DecodeFault {
    ghost use Rattle.std.specs.Prelude.{◌≡◌};
    ghost use Rattle.scan_spelling.specs.declared.spelling.DecodeFault.TheVariants as fault;

    ghost from_gives = { λ _ e. e ≡ fault.NoMemory };

    fn from(_: NoMemory) -> DecodeFault {
        DecodeFault::NoMemory
    }
}

impl From<AllocError> for DecodeFault {
    ghost use Rattle.std.specs.Prelude.{◌≡◌};
    ghost use Rattle.scan_spelling.specs.declared.spelling.DecodeFault.TheVariants as fault;

    ghost from_gives = { λ _ e. e ≡ fault.NoMemory };

    fn from(_: AllocError) -> DecodeFault {
        DecodeFault::NoMemory
    }
}

impl<T: Drop> From<AllocFailed<T>> for DecodeFault {
    ghost use Rattle.std.specs.Prelude.{◌≡◌};
    ghost use Rattle.scan_spelling.specs.declared.spelling.DecodeFault.TheVariants as fault;

    ghost from_gives = { λ _ e. e ≡ fault.NoMemory };

    fn from(_: AllocFailed<T>) -> DecodeFault {
        DecodeFault::NoMemory
    }
}

impl From<AllocError> for EncodeFault {
    ghost use Rattle.std.specs.Prelude.{◌≡◌};
    ghost use Rattle.scan_spelling.specs.declared.spelling.EncodeFault.TheVariants as fault;

    ghost from_gives = { λ _ e. e ≡ fault.NoMemory };

    fn from(_: AllocError) -> EncodeFault {
        EncodeFault::NoMemory
    }
}

impl<T: Drop> From<AllocFailed<T>> for EncodeFault {
    ghost use Rattle.std.specs.Prelude.{◌≡◌};
    ghost use Rattle.scan_spelling.specs.declared.spelling.EncodeFault.TheVariants as fault;

    ghost from_gives = { λ _ e. e ≡ fault.NoMemory };

    fn from(_: AllocFailed<T>) -> EncodeFault {
        EncodeFault::NoMemory
    }
}
