//! Why a file is not read under a dtype.
use scan_layout::LayoutFault;
use scan_values::NoMemory;
use thiserror::Error;

/// Why a file is not read under a dtype.
#[derive(Clone, Copy, Debug, PartialEq, Eq, Error)]
pub enum FileFault {
    #[error("the opener failed")]
    Opener,
    #[error("its dtype does not fit")]
    DTypeMismatch,
    #[error("{0}")]
    Layout(LayoutFault),
    #[error("the range ends past its rows")]
    RowRangePast,
    #[error("its rows pass what is counted")]
    TooManyRows,
    #[error("it has more than 4294967296 segments under the dtype")]
    TooManySegments,
    #[error("out of memory")]
    NoMemory,
}

impl From<NoMemory> for FileFault {
    ghost use Rattle.std.specs.Prelude.{◌≡◌};
    ghost use Rattle.scan_widened.specs.declared.fault.FileFault.TheVariants as fault;

    ghost from_gives = { λ _ e. e ≡ fault.NoMemory };

    fn from(_: NoMemory) -> FileFault {
        FileFault::NoMemory
    }
}
