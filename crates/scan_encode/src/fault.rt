//! Why rows are not encoded.
use scan_spelling::EncodeFault;
use scan_values::NoMemory;
use std::alloc::{AllocError, AllocFailed};
use thiserror::Error;

/// Why rows are not encoded.
#[derive(Clone, Copy, Debug, PartialEq, Eq, Error)]
pub enum RowsFault {
    #[error("a text has more than 4294967295 bytes")]
    TooLong,
    /// There would be more segments than there are numbers for.
    #[error("there are no more than 4294967296 segments")]
    Segments,
    #[error("out of memory")]
    NoMemory,
}

impl From<NoMemory> for RowsFault {
    ghost use Rattle.std.specs.Prelude.{◌≡◌};
    ghost use Rattle.scan_encode.specs.declared.fault.RowsFault.TheVariants as fault;

    ghost from_gives = { λ _ e. e ≡ fault.NoMemory };

    fn from(_: NoMemory) -> RowsFault {
        RowsFault::NoMemory
    }
}

impl From<AllocError> for RowsFault {
    ghost use Rattle.std.specs.Prelude.{◌≡◌};
    ghost use Rattle.scan_encode.specs.declared.fault.RowsFault.TheVariants as fault;

    ghost from_gives = { λ _ e. e ≡ fault.NoMemory };

    fn from(_: AllocError) -> RowsFault {
        RowsFault::NoMemory
    }
}

impl<T: Drop> From<AllocFailed<T>> for RowsFault {
    ghost use Rattle.std.specs.Prelude.{◌≡◌};
    ghost use Rattle.scan_encode.specs.declared.fault.RowsFault.TheVariants as fault;

    ghost from_gives = { λ _ e. e ≡ fault.NoMemory };

    fn from(_: AllocFailed<T>) -> RowsFault {
        RowsFault::NoMemory
    }
}

impl From<EncodeFault> for RowsFault {
    ghost use Rattle.std.specs.Prelude.{◌≡◌};
    ghost use Rattle.scan_encode.specs.Faults.{encode_fault};

    ghost from_gives = { λ f e. e ≡ encode_fault f };

    fn from(fault: EncodeFault) -> RowsFault {
        match fault {
            EncodeFault::TooLong => RowsFault::TooLong,
            EncodeFault::NoMemory => RowsFault::NoMemory,
        }
    }
}
