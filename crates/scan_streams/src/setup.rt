//! Why a scan is not set up. An own type: the Rust's `scan::scan_builder` panics, or answers an error without a name.
use scan_values::NoMemory;
use thiserror::Error;

/// Why a scan is not set up.
#[derive(Clone, Copy, Debug, PartialEq, Eq, Error)]
pub enum SetupFault {
    #[error("the concurrency is 0")]
    Concurrency,
    #[error("splits of no rows")]
    SplitSize,
    #[error("the row offset and the row count pass u64 in sum")]
    RowOffset,
    #[error("futures of a scan that has a limit")]
    LimitOnFutures,
    #[error("the range is reversed, or its end passes the row count")]
    RowRange,
    #[error("out of memory")]
    NoMemory,
}

impl From<NoMemory> for SetupFault {
    ghost use Rattle.std.specs.Prelude.{◌≡◌};
    ghost use Rattle.scan_streams.specs.declared.setup.SetupFault.TheVariants as fault;

    ghost from_gives = { λ _ e. e ≡ fault.NoMemory };

    fn from(_: NoMemory) -> SetupFault {
        SetupFault::NoMemory
    }
}
