//! What can be wrong with a layout. An own type: the Rust makes layouts unchecked.
use scan_values::NoMemory;
use std::alloc::{AllocError, AllocFailed};
use thiserror::Error;

/// The first fault of a layout, or want of memory.
#[derive(Clone, Copy, Debug, PartialEq, Eq, Error)]
pub enum LayoutFault {
    #[error("a node has not the right number of children")]
    ChildCount,
    #[error("a node has not the dtype that its place wants, or its kind does not serve it")]
    ChildDType,
    #[error("a child's row count is not the one that its place wants")]
    ChildRows,
    #[error("a list has not one offset more than rows")]
    Offsets,
    #[error("the rows of a leaf's segments pass 18446744073709551615")]
    RowSum,
    #[error("a dtype is deeper than 64")]
    Deep,
    #[error("out of memory")]
    NoMemory,
}

impl From<NoMemory> for LayoutFault {
    ghost use Rattle.std.specs.Prelude.{◌≡◌};
    ghost use Rattle.scan_layout.specs.declared.fault.LayoutFault.TheVariants as fault;

    ghost from_gives = { λ _ e. e ≡ fault.NoMemory };

    fn from(_: NoMemory) -> LayoutFault {
        LayoutFault::NoMemory
    }
}

impl From<AllocError> for LayoutFault {
    ghost use Rattle.std.specs.Prelude.{◌≡◌};
    ghost use Rattle.scan_layout.specs.declared.fault.LayoutFault.TheVariants as fault;

    ghost from_gives = { λ _ e. e ≡ fault.NoMemory };

    fn from(_: AllocError) -> LayoutFault {
        LayoutFault::NoMemory
    }
}

impl<T: Drop> From<AllocFailed<T>> for LayoutFault {
    ghost use Rattle.std.specs.Prelude.{◌≡◌};
    ghost use Rattle.scan_layout.specs.declared.fault.LayoutFault.TheVariants as fault;

    ghost from_gives = { λ _ e. e ≡ fault.NoMemory };

    fn from(_: AllocFailed<T>) -> LayoutFault {
        LayoutFault::NoMemory
    }
}
