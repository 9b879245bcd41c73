//! Why a scan over a union gives nothing.
ghost use Rattle.std.specs.Prelude.{◌≡◌};
ghost use Rattle.scan_union.specs.Under.{of_file};

use scan_multi::{RangeFault, ScanFault};
use scan_values::NoMemory;
use scan_widened::FileFault;
use std::alloc::{AllocError, AllocFailed};
use thiserror::Error;

/// Why a scan over a union gives nothing. `file` is the place of a file in the list, and `segment` one of its own.
#[derive(Clone, Copy, Debug, PartialEq, Eq, Error)]
pub enum UnionFault {
    #[error("{0}")]
    Scan(ScanFault),
    #[error("file {file} has more than 4294967296 segments under the dtype")]
    TooManySegments { file: usize },
    #[error("out of memory")]
    NoMemory,
}

impl From<ScanFault> for UnionFault {
    ghost use Rattle.std.specs.Prelude.{◌≡◌};
    ghost use Rattle.scan_union.specs.Under.{of_scan};

    ghost from_gives = { λ f e. e ≡ of_scan f };

    fn from(fault: ScanFault) -> UnionFault {
        match fault {
            ScanFault::NoMemory => UnionFault::NoMemory,
            _ => UnionFault::Scan(fault),
        }
    }
}

impl From<NoMemory> for UnionFault {
    ghost use Rattle.std.specs.Prelude.{◌≡◌};
    ghost use Rattle.scan_union.specs.declared.fault.UnionFault.TheVariants as fault;

    ghost from_gives = { λ _ e. e ≡ fault.NoMemory };

    fn from(_: NoMemory) -> UnionFault {
        UnionFault::NoMemory
    }
}

impl From<AllocError> for UnionFault {
    ghost use Rattle.std.specs.Prelude.{◌≡◌};
    ghost use Rattle.scan_union.specs.declared.fault.UnionFault.TheVariants as fault;

    ghost from_gives = { λ _ e. e ≡ fault.NoMemory };

    fn from(_: AllocError) -> UnionFault {
        UnionFault::NoMemory
    }
}

impl<T: Drop> From<AllocFailed<T>> for UnionFault {
    ghost use Rattle.std.specs.Prelude.{◌≡◌};
    ghost use Rattle.scan_union.specs.declared.fault.UnionFault.TheVariants as fault;

    ghost from_gives = { λ _ e. e ≡ fault.NoMemory };

    fn from(_: AllocFailed<T>) -> UnionFault {
        UnionFault::NoMemory
    }
}

// Why a file is not read, at its place.
pub(crate) fn of_file(file: usize, fault: FileFault) -> UnionFault
    ensures { result ≡ of_file file fault }
{
    match fault {
        FileFault::Opener => UnionFault::Scan(ScanFault::Opener { file }),
        FileFault::DTypeMismatch => UnionFault::Scan(ScanFault::DTypeMismatch { file }),
        FileFault::Layout(fault) => UnionFault::Scan(ScanFault::Layout { file, fault }),
        FileFault::RowRangePast => UnionFault::Scan(ScanFault::RowRange(RangeFault::Past { file })),
        FileFault::TooManyRows => UnionFault::Scan(ScanFault::TooManyRows { file }),
        FileFault::TooManySegments => UnionFault::TooManySegments { file },
        FileFault::NoMemory => UnionFault::NoMemory,
    }
}
