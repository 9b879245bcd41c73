//! Why a scan gives nothing.
ghost use Rattle.std.specs.Prelude.{◌≡◌};
ghost use Rattle.scan_multi.specs.Placed.{refused, stopped, placed};

use scan_drive::{DriveFault, RoundFault};
use scan_expr::BindFault;
use scan_file::FileFault;
use scan_layout::LayoutFault;
use scan_segments::SegmentId;
use scan_values::NoMemory;
use thiserror::Error;

/// What is wrong with a range of rows.
#[derive(Clone, Copy, Debug, PartialEq, Eq, Error)]
pub enum RangeFault {
    #[error("the range starts after its end")]
    Reversed,
    #[error("the range ends past the rows of file {file}")]
    Past { file: usize },
}

/// Why a scan gives nothing. `file` is the place of a file in the list.
#[derive(Clone, Copy, Debug, PartialEq, Eq, Error)]
pub enum ScanFault {
    #[error("out of memory")]
    NoMemory,
    #[error("the opener of file {file} failed")]
    Opener { file: usize },
    #[error("the source of file {file} failed at {segment}")]
    Source { file: usize, segment: SegmentId },
    #[error("file {file} has another dtype")]
    DTypeMismatch { file: usize },
    #[error("the request does not bind: {0}")]
    Bind(BindFault),
    #[error("the request restricts partitions")]
    Partitions,
    #[error("{0}")]
    RowRange(RangeFault),
    #[error("the layout of file {file}: {fault}")]
    Layout { file: usize, fault: LayoutFault },
    #[error("{segment} of file {file} is missing or damaged")]
    Corrupt { file: usize, segment: SegmentId },
    #[error("the rows up to file {file} pass the greatest u64")]
    TooManyRows { file: usize },
    #[error("there are no workers")]
    Concurrency,
    #[error("an expression overflows in file {file}")]
    Overflow { file: usize },
}

impl From<BindFault> for ScanFault {
    ghost use Rattle.std.specs.Prelude.{◌≡◌};
    ghost use Rattle.scan_multi.specs.Request.{bound_fault};

    ghost from_gives = { λ f e. e ≡ bound_fault f };

    fn from(f: BindFault) -> ScanFault {
        match f {
            BindFault::NoMemory => ScanFault::NoMemory,
            _ => ScanFault::Bind(f),
        }
    }
}

impl From<NoMemory> for ScanFault {
    ghost use Rattle.std.specs.Prelude.{◌≡◌};
    ghost use Rattle.scan_multi.specs.declared.scan.fault.ScanFault.TheVariants as fault;

    ghost from_gives = { λ _ e. e ≡ fault.NoMemory };

    fn from(_: NoMemory) -> ScanFault {
        ScanFault::NoMemory
    }
}

/// Why a file is not read, at its place.
fn refused(file: usize, fault: FileFault) -> ScanFault
    ensures { result ≡ refused file fault }
{
    match fault {
        FileFault::Opener => ScanFault::Opener { file },
        FileFault::DTypeMismatch => ScanFault::DTypeMismatch { file },
        FileFault::Layout(fault) => ScanFault::Layout { file, fault },
        FileFault::RowRangePast => ScanFault::RowRange(RangeFault::Past { file }),
    }
}

/// Why a split of a file is not read to its end.
fn stopped(fault: DriveFault) -> ScanFault
    ensures { result ≡ stopped fault }
{
    match fault {
        DriveFault::NoMemory => ScanFault::NoMemory,
        DriveFault::Source { file, segment } => ScanFault::Source { file, segment },
        DriveFault::Corrupt { file, segment } => ScanFault::Corrupt { file, segment },
        DriveFault::Overflow { file } => ScanFault::Overflow { file },
    }
}

/// Why a drive ends without all rows.
pub(crate) fn placed(fault: RoundFault<FileFault>) -> ScanFault
    ensures { result ≡ placed fault }
{
    match fault {
        RoundFault::Split(fault) => stopped(fault),
        RoundFault::TooManyRows(file) => ScanFault::TooManyRows { file },
        RoundFault::Refused(file, fault) => refused(file, fault),
    }
}
