// Why rows of a plan are not read.
use scan_expr::ApplyFault;
use scan_segments::SegmentId;
use scan_values::NoMemory;

/// A segment is no good, an evaluation overflows, or memory ran out.
#[derive(Clone, Copy, Debug)]
pub enum ReadFault {
    Corrupt(SegmentId),
    Overflow,
    NoMemory,
}

impl From<NoMemory> for ReadFault {
    ghost use Rattle.std.specs.Prelude.{◌≡◌};
    ghost use Rattle.scan_plans.specs.declared.fault.ReadFault.TheVariants as fault;

    ghost from_gives = { λ _ e. e ≡ fault.NoMemory };

    fn from(_: NoMemory) -> ReadFault {
        ReadFault::NoMemory
    }
}

impl From<std::alloc::AllocError> for ReadFault {
    ghost use Rattle.std.specs.Prelude.{◌≡◌};
    ghost use Rattle.scan_plans.specs.declared.fault.ReadFault.TheVariants as fault;

    ghost from_gives = { λ _ e. e ≡ fault.NoMemory };

    fn from(_: std::alloc::AllocError) -> ReadFault {
        ReadFault::NoMemory
    }
}

impl<T: Drop> From<std::alloc::AllocFailed<T>> for ReadFault {
    ghost use Rattle.std.specs.Prelude.{◌≡◌};
    ghost use Rattle.scan_plans.specs.declared.fault.ReadFault.TheVariants as fault;

    ghost from_gives = { λ _ e. e ≡ fault.NoMemory };

    fn from(_: std::alloc::AllocFailed<T>) -> ReadFault {
        ReadFault::NoMemory
    }
}

impl From<ApplyFault> for ReadFault {
    ghost use Rattle.std.specs.Prelude.{◌≡◌};
    ghost use Rattle.scan_plans.specs.Faults.{read_fault};

    ghost from_gives = { λ f e. e ≡ read_fault f };

    fn from(fault: ApplyFault) -> ReadFault {
        match fault {
            ApplyFault::Overflow => ReadFault::Overflow,
            ApplyFault::NoMemory => ReadFault::NoMemory,
        }
    }
}
