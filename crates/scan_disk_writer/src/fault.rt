//! Why a file is not written.
ghost use Rattle.std.specs.Prelude.{◌≡◌};
ghost use Rattle.scan_disk_writer.specs.Faults.{rows_fault};

use scan_encode::RowsFault;
use scan_layout::LayoutFault;
use scan_values::NoMemory;
use std::alloc::{AllocError, AllocFailed};
use thiserror::Error;

/// Why bytes were not taken.
#[derive(Clone, Copy, Debug, PartialEq, Eq, Error)]
pub enum OutFault {
    #[error("the write failed")]
    Failed,
    #[error("out of memory")]
    NoMemory,
}

impl From<AllocError> for OutFault {
    ghost use Rattle.std.specs.Prelude.{◌≡◌};
    ghost use Rattle.scan_disk_writer.specs.declared.fault.OutFault.TheVariants as fault;

    ghost from_gives = { λ _ e. e ≡ fault.NoMemory };

    fn from(_: AllocError) -> OutFault {
        OutFault::NoMemory
    }
}

/// Why a file is not written.
#[derive(Clone, Copy, Debug, PartialEq, Eq, Error)]
pub enum WriteFault {
    /// The dtype nests deeper than the footer of a file says it.
    #[error("a dtype of a file is no more than 42 deep")]
    Depth,
    /// The layout is not well-formed.
    #[error("the layout is not well-formed: {0}")]
    Layout(LayoutFault),
    /// The rows are not encoded.
    #[error("{0}")]
    Rows(RowsFault),
    /// The segments have more bytes than a u64 counts.
    #[error("a file has no more than 18446744073709551615 bytes")]
    Size,
    #[error("the file can't be written")]
    Failed,
    #[error("out of memory")]
    NoMemory,
}

impl From<OutFault> for WriteFault {
    ghost use Rattle.std.specs.Prelude.{◌≡◌};
    ghost use Rattle.scan_disk_writer.specs.Faults.{out_fault};

    ghost from_gives = { λ f e. e ≡ out_fault f };

    fn from(fault: OutFault) -> WriteFault {
        match fault {
            OutFault::Failed => WriteFault::Failed,
            OutFault::NoMemory => WriteFault::NoMemory,
        }
    }
}

impl From<NoMemory> for WriteFault {
    ghost use Rattle.std.specs.Prelude.{◌≡◌};
    ghost use Rattle.scan_disk_writer.specs.declared.fault.WriteFault.TheVariants as fault;

    ghost from_gives = { λ _ e. e ≡ fault.NoMemory };

    fn from(_: NoMemory) -> WriteFault {
        WriteFault::NoMemory
    }
}

impl From<AllocError> for WriteFault {
    ghost use Rattle.std.specs.Prelude.{◌≡◌};
    ghost use Rattle.scan_disk_writer.specs.declared.fault.WriteFault.TheVariants as fault;

    ghost from_gives = { λ _ e. e ≡ fault.NoMemory };

    fn from(_: AllocError) -> WriteFault {
        WriteFault::NoMemory
    }
}

impl<T: Drop> From<AllocFailed<T>> for WriteFault {
    ghost use Rattle.std.specs.Prelude.{◌≡◌};
    ghost use Rattle.scan_disk_writer.specs.declared.fault.WriteFault.TheVariants as fault;

    ghost from_gives = { λ _ e. e ≡ fault.NoMemory };

    fn from(_: AllocFailed<T>) -> WriteFault {
        WriteFault::NoMemory
    }
}

/// Why a file is not written of which the rows are not encoded.
pub(crate) fn of_rows(fault: RowsFault) -> WriteFault
    ensures { result ≡ rows_fault fault }
{
    match fault {
        RowsFault::TooLong => WriteFault::Rows(RowsFault::TooLong),
        RowsFault::Segments => WriteFault::Rows(RowsFault::Segments),
        RowsFault::NoMemory => WriteFault::NoMemory,
    }
}

impl From<RowsFault> for WriteFault {
    ghost use Rattle.std.specs.Prelude.{◌≡◌};
    ghost use Rattle.scan_disk_writer.specs.Faults.{rows_fault};

    ghost from_gives = { λ f e. e ≡ rows_fault f };

    fn from(fault: RowsFault) -> WriteFault {
        of_rows(fault)
    }
}
