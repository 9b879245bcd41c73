//! Why there is no table.
use scan_expr::BindFault;
use scan_groups::GroupsFault;
use scan_multi::ScanFault;
use scan_values::NoMemory;
use std::alloc::{AllocError, AllocFailed};
use thiserror::Error;

/// Why there is no table. Numbers are places in the spec.
#[derive(Clone, Copy, Debug, PartialEq, Eq, Error)]
pub enum TableFault {
    #[error("{0}")]
    Scan(ScanFault),
    #[error("key {key} is neither a truth value nor an integer nor a text")]
    KeyType { key: usize },
    #[error("measure {measure} is not over such values")]
    MeasureType { measure: usize },
    #[error("a sum of measure {measure} is neither an i64 nor a u64")]
    SumRange { measure: usize },
    #[error("out of memory")]
    NoMemory,
}

impl From<NoMemory> for TableFault {
    ghost use Rattle.std.specs.Prelude.{◌≡◌};
    ghost use Rattle.scan_table.specs.declared.fault.TableFault.TheVariants as fault;

    ghost from_gives = { λ _ e. e ≡ fault.NoMemory };

    fn from(_: NoMemory) -> TableFault {
        TableFault::NoMemory
    }
}

impl From<AllocError> for TableFault {
    ghost use Rattle.std.specs.Prelude.{◌≡◌};
    ghost use Rattle.scan_table.specs.declared.fault.TableFault.TheVariants as fault;

    ghost from_gives = { λ _ e. e ≡ fault.NoMemory };

    fn from(_: AllocError) -> TableFault {
        TableFault::NoMemory
    }
}

impl<T: Drop> From<AllocFailed<T>> for TableFault {
    ghost use Rattle.std.specs.Prelude.{◌≡◌};
    ghost use Rattle.scan_table.specs.declared.fault.TableFault.TheVariants as fault;

    ghost from_gives = { λ _ e. e ≡ fault.NoMemory };

    fn from(_: AllocFailed<T>) -> TableFault {
        TableFault::NoMemory
    }
}

impl From<ScanFault> for TableFault {
    ghost use Rattle.std.specs.Prelude.{◌≡◌};
    ghost use Rattle.scan_table.specs.Faults.{of_scan};

    ghost from_gives = { λ f e. e ≡ of_scan f };

    fn from(fault: ScanFault) -> TableFault {
        match fault {
            ScanFault::NoMemory => TableFault::NoMemory,
            _ => TableFault::Scan(fault),
        }
    }
}

impl From<BindFault> for TableFault {
    ghost use Rattle.std.specs.Prelude.{◌≡◌};
    ghost use Rattle.scan_table.specs.Faults.{of_bind_fault};

    ghost from_gives = { λ f e. e ≡ of_bind_fault f };

    fn from(fault: BindFault) -> TableFault {
        match fault {
            BindFault::NoMemory => TableFault::NoMemory,
            _ => TableFault::Scan(ScanFault::Bind(fault)),
        }
    }
}

impl From<GroupsFault> for TableFault {
    ghost use Rattle.std.specs.Prelude.{◌≡◌};
    ghost use Rattle.scan_table.specs.Faults.{of_groups};

    ghost from_gives = { λ f e. e ≡ of_groups f };

    fn from(fault: GroupsFault) -> TableFault {
        match fault {
            GroupsFault::SumRange { measure } => TableFault::SumRange { measure },
            GroupsFault::NoMemory => TableFault::NoMemory,
        }
    }
}
