//! Why splits are not registered.
use scan_values::NoMemory;
use thiserror::Error;

/// Why splits are not registered.
#[derive(Clone, Copy, Debug, PartialEq, Eq, Error)]
pub enum SplitFault {
    #[error("the range's end passes the row count")]
    Bounds,
    #[error("a mask names no field")]
    NoSuchField,
    #[error("out of memory")]
    NoMemory,
}

impl From<NoMemory> for SplitFault {
    ghost use Rattle.std.specs.Prelude.{◌≡◌};
    ghost use Rattle.scan_splits.specs.declared.fault.SplitFault.TheVariants as fault;

    ghost from_gives = { λ _ e. e ≡ fault.NoMemory };

    fn from(_: NoMemory) -> SplitFault {
        SplitFault::NoMemory
    }
}
