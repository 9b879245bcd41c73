//! Why groups have no values.
use scan_values::NoMemory;
use std::alloc::AllocError;
use thiserror::Error;

/// Why groups have no values.
#[derive(Clone, Copy, Debug, PartialEq, Eq, Error)]
pub enum GroupsFault {
    /// Some group's sum is neither an i64 nor a u64: the first such measure.
    #[error("a sum of measure {measure} is neither an i64 nor a u64")]
    SumRange { measure: usize },
    /// There was no memory.
    #[error("out of memory")]
    NoMemory,
}

impl From<NoMemory> for GroupsFault {
    ghost use Rattle.std.specs.Prelude.{◌≡◌};
    ghost use Rattle.scan_groups.specs.declared.fault.GroupsFault.TheVariants as fault;

    ghost from_gives = { λ _ e. e ≡ fault.NoMemory };

    fn from(_: NoMemory) -> GroupsFault {
        GroupsFault::NoMemory
    }
}

impl From<AllocError> for GroupsFault {
    ghost use Rattle.std.specs.Prelude.{◌≡◌};
    ghost use Rattle.scan_groups.specs.declared.fault.GroupsFault.TheVariants as fault;

    ghost from_gives = { λ _ e. e ≡ fault.NoMemory };

    fn from(_: AllocError) -> GroupsFault {
        GroupsFault::NoMemory
    }
}
