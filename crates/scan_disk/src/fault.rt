//! Why a file, or a segment of it, is not read.
use scan_values::NoMemory;
use std::alloc::AllocError;
use thiserror::Error;

/// Why a file, or a segment of it, is not read.
#[derive(Clone, Copy, Debug, PartialEq, Eq, Error)]
pub enum DiskFault {
    /// It is shorter than its two magics, and the digest and the length of its footer.
    #[error("the file is too short")]
    Short,
    /// It does not begin and end with the magic.
    #[error("the file does not begin and end with SIBLAG02")]
    Magic,
    /// The footer would begin before the segments do.
    #[error("the footer is said to be longer than the file has room for")]
    FooterLength,
    /// The bytes of the footer have another digest than the one behind them.
    #[error("the footer is damaged: its SHA-256 differs from the one behind it")]
    FooterDigest,
    /// The bytes of the footer say no footer.
    #[error("the footer does not say the dtype, the layout and the segments of a file")]
    Footer,
    /// A segment's place is not in the file, or not between the first magic and the footer.
    #[error("the place of a segment is outside the file")]
    Place,
    /// The footer names no such segment.
    #[error("the file has no such segment")]
    NoSegment,
    /// The bytes of a segment have another digest than the footer tells.
    #[error("the segment is damaged: its SHA-256 differs from the one in the footer")]
    Digest,
    /// A read of the file failed.
    #[error("the file can't be read")]
    Failed,
    #[error("out of memory")]
    NoMemory,
}

impl From<NoMemory> for DiskFault {
    ghost use Rattle.std.specs.Prelude.{◌≡◌};
    ghost use Rattle.scan_disk.specs.declared.fault.DiskFault.TheVariants as fault;

    ghost from_gives = { λ _ e. e ≡ fault.NoMemory };

    fn from(_: NoMemory) -> DiskFault {
        DiskFault::NoMemory
    }
}

impl From<AllocError> for DiskFault {
    ghost use Rattle.std.specs.Prelude.{◌≡◌};
    ghost use Rattle.scan_disk.specs.declared.fault.DiskFault.TheVariants as fault;

    ghost from_gives = { λ _ e. e ≡ fault.NoMemory };

    fn from(_: AllocError) -> DiskFault {
        DiskFault::NoMemory
    }
}
