//! Why rows are not given.
use scan_expr::BindFault;
use scan_layout::LayoutFault;
use scan_places::PlaceFault;
use scan_segments::SegmentId;
use scan_values::NoMemory;
use std::alloc::{AllocError, AllocFailed};
use thiserror::Error;

/// Why rows are not given. `file` is the place of a file in the list, `place` an index in the list of places.
#[derive(Clone, Copy, Debug, PartialEq, Eq, Error)]
pub enum LookupFault {
    #[error("out of memory")]
    NoMemory,
    #[error("the projection does not bind: {0}")]
    Bind(BindFault),
    #[error("there is no row at place {place}")]
    NoPlace { place: usize },
    #[error("the opener of file {file} failed")]
    Opener { file: usize },
    #[error("the source of file {file} failed over {segment}")]
    Source { file: usize, segment: SegmentId },
    #[error("file {file} has another dtype")]
    DTypeMismatch { file: usize },
    #[error("the layout of file {file}: {fault}")]
    Layout { file: usize, fault: LayoutFault },
    #[error("{segment} of file {file} is missing or damaged")]
    Corrupt { file: usize, segment: SegmentId },
    #[error("the projection overflows at row {row} of file {file}")]
    Overflow { file: usize, row: u64 },
}

impl From<NoMemory> for LookupFault {
    ghost use Rattle.std.specs.Prelude.{◌≡◌};
    ghost use Rattle.scan_lookup.specs.declared.fault.LookupFault.TheVariants as fault;

    ghost from_gives = { λ _ e. e ≡ fault.NoMemory };

    fn from(_: NoMemory) -> LookupFault {
        LookupFault::NoMemory
    }
}

impl From<AllocError> for LookupFault {
    ghost use Rattle.std.specs.Prelude.{◌≡◌};
    ghost use Rattle.scan_lookup.specs.declared.fault.LookupFault.TheVariants as fault;

    ghost from_gives = { λ _ e. e ≡ fault.NoMemory };

    fn from(_: AllocError) -> LookupFault {
        LookupFault::NoMemory
    }
}

impl<T: Drop> From<AllocFailed<T>> for LookupFault {
    ghost use Rattle.std.specs.Prelude.{◌≡◌};
    ghost use Rattle.scan_lookup.specs.declared.fault.LookupFault.TheVariants as fault;

    ghost from_gives = { λ _ e. e ≡ fault.NoMemory };

    fn from(_: AllocFailed<T>) -> LookupFault {
        LookupFault::NoMemory
    }
}

impl From<BindFault> for LookupFault {
    ghost use Rattle.std.specs.Prelude.{◌≡◌};
    ghost use Rattle.scan_lookup.specs.Faults.{of_bind};

    ghost from_gives = { λ f e. e ≡ of_bind f };

    fn from(fault: BindFault) -> LookupFault {
        match fault {
            BindFault::NoMemory => LookupFault::NoMemory,
            _ => LookupFault::Bind(fault),
        }
    }
}

impl From<PlaceFault> for LookupFault {
    ghost use Rattle.std.specs.Prelude.{◌≡◌};
    ghost use Rattle.scan_lookup.specs.Faults.{of_place};

    ghost from_gives = { λ f e. e ≡ of_place f };

    fn from(fault: PlaceFault) -> LookupFault {
        match fault {
            PlaceFault::NoMemory => LookupFault::NoMemory,
            PlaceFault::NoPlace { place } => LookupFault::NoPlace { place },
            PlaceFault::Opener { file } => LookupFault::Opener { file },
            PlaceFault::DTypeMismatch { file } => LookupFault::DTypeMismatch { file },
            PlaceFault::Layout { file, fault } => LookupFault::Layout { file, fault },
        }
    }
}
