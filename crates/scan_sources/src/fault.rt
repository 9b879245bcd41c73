//! Why a source is not made or not scanned. An own type: the Rust's `scan::layout` and `scan::multi` answer errors without names.
use scan_expr::BindFault;
use scan_values::NoMemory;
use thiserror::Error;

/// Why a source is not made or not scanned.
#[derive(Clone, Copy, Debug, PartialEq, Eq, Error)]
pub enum SourceFault {
    #[error("the concurrency is 0")]
    Concurrency,
    #[error("splits of no rows")]
    SplitSize,
    #[error("the range is reversed, or its end passes the row count")]
    RowRange,
    #[error("{0}")]
    Bind(BindFault),
    #[error("the byte sizes are neither none nor one for each child")]
    ByteSizes,
    #[error("out of memory")]
    NoMemory,
}

impl From<NoMemory> for SourceFault {
    ghost use Rattle.std.specs.Prelude.{◌≡◌};
    ghost use Rattle.scan_sources.specs.declared.fault.SourceFault.TheVariants as fault;

    ghost from_gives = { λ _ e. e ≡ fault.NoMemory };

    fn from(_: NoMemory) -> SourceFault {
        SourceFault::NoMemory
    }
}

impl From<BindFault> for SourceFault {
    ghost use Rattle.std.specs.Prelude.{◌≡◌};
    ghost use Rattle.scan_sources.specs.Faults.{of_bind};

    ghost from_gives = { λ f e. e ≡ of_bind f };

    fn from(fault: BindFault) -> SourceFault {
        match fault {
            BindFault::NoMemory => SourceFault::NoMemory,
            fault => SourceFault::Bind(fault),
        }
    }
}
