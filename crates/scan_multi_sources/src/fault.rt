//! Why a file of a scan gives no partition. An own type: the Rust's `scan::multi` answers errors without names.
use scan_layout::LayoutFault;
use scan_values::NoMemory;
use thiserror::Error;

/// Why a file of a scan gives no partition, with its place among the files of the source.
#[derive(Clone, Copy, Debug, PartialEq, Eq, Error)]
pub enum MultiFault {
    /// The same file is tried again at the next poll.
    #[error("out of memory")]
    NoMemory,
    #[error("file {0} is not opened")]
    Opener(usize),
    #[error("file {0} has another dtype")]
    DTypeMismatch(usize),
    #[error("file {0}: {1}")]
    Layout(usize, LayoutFault),
    #[error("the range ends past the rows of file {0}")]
    RowRange(usize),
    #[error("the row counts up to file {0} pass u64 in sum")]
    TooManyRows(usize),
}

impl From<NoMemory> for MultiFault {
    ghost use Rattle.std.specs.Prelude.{◌≡◌};
    ghost use Rattle.scan_multi_sources.specs.declared.fault.MultiFault.TheVariants as fault;

    ghost from_gives = { λ _ e. e ≡ fault.NoMemory };

    fn from(_: NoMemory) -> MultiFault {
        MultiFault::NoMemory
    }
}
