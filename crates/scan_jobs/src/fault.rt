//! Why the program stops, told for people: the file, the place and the cause.
ghost use Rattle.std.specs.Prelude.{◌≡◌, ◌<◌};
ghost use Rattle.scan_jobs.specs.Status.{cause_status, disk_status, import_status, scan_status, status_of, write_status};

use scan_conditions::{Cause, ConditionFault};
use scan_disk::DiskFault;
use scan_disk_writer::WriteFault;
use scan_expr::BindFault;
use scan_import::{ImportCause, ImportFault};
use scan_multi::{RangeFault, ScanFault};
use scan_values::NoMemory;
use std::alloc::{AllocError, AllocFailed};
use thiserror::Error;

/// Why the program stops.
#[derive(Debug, Drop, Error)]
pub enum ToolFault {
    #[error("{0}")]
    Words(String),
    #[error("{path}: can't be opened")]
    Open {
        path: String,
    },
    #[error("{path}: {fault}")]
    File {
        path: String,
        fault: DiskFault,
    },
    #[error("{path}: segment {segment}: {fault}")]
    Segment {
        path: String,
        segment: u32,
        fault: DiskFault,
    },
    #[error("{path}: its rows are of {found}, and those of the first file of {wanted}")]
    OtherDType {
        path: String,
        found: String,
        wanted: String,
    },
    #[error("{option} '{text}' {fault}")]
    Condition {
        option: &'static str,
        text: String,
        fault: ConditionFault,
    },
    #[error("{fault}")]
    Scan {
        fault: ScanFault,
    },
    #[error("{path}: {fault}")]
    ScanOf {
        path: String,
        fault: ScanFault,
    },
    #[error("{path}: {fault}")]
    Import {
        path: String,
        fault: ImportFault,
    },
    #[error("{path}: line {line}: '{column}' is not of {dtype}")]
    Cell {
        path: String,
        line: u64,
        column: String,
        dtype: String,
    },
    #[error("{path}: {fault}")]
    Write {
        path: String,
        fault: WriteFault,
    },
    #[error("a scan gave rows without values")]
    Uneven,
    #[error("the output can't be written")]
    Output,
    #[error("out of memory")]
    NoMemory,
}

impl From<NoMemory> for ToolFault {
    fn from(_: NoMemory) -> ToolFault {
        ToolFault::NoMemory
    }
}

impl From<BindFault> for ToolFault {
    fn from(fault: BindFault) -> ToolFault {
        ToolFault::Scan {
            fault: ScanFault::from(fault),
        }
    }
}

impl From<AllocError> for ToolFault {
    fn from(_: AllocError) -> ToolFault {
        ToolFault::NoMemory
    }
}

impl<T: Drop> From<AllocFailed<T>> for ToolFault {
    fn from(_: AllocFailed<T>) -> ToolFault {
        ToolFault::NoMemory
    }
}

fn disk_status(fault: DiskFault) -> u8
    ensures exact { result ≡ disk_status fault }
    ensures some { (0 < result) × (result < 8) }
{
    match fault {
        DiskFault::NoMemory => 7,
        DiskFault::Failed => 5,
        DiskFault::Place => 4,
        DiskFault::NoSegment => 4,
        DiskFault::Digest => 4,
        _ => 2,
    }
}

fn scan_status(fault: ScanFault) -> u8
    ensures exact { result ≡ scan_status fault }
    ensures some { (0 < result) × (result < 8) }
{
    match fault {
        ScanFault::NoMemory => 7,
        ScanFault::Opener { file: _ } => 5,
        ScanFault::Source {
            file: _,
            segment: _,
        } => 5,
        ScanFault::Bind(_) => 3,
        ScanFault::Partitions => 3,
        ScanFault::RowRange(RangeFault::Reversed) => 3,
        ScanFault::Concurrency => 3,
        _ => 4,
    }
}

fn cause_status(cause: Cause) -> u8
    ensures exact { result ≡ cause_status cause }
    ensures some { (0 < result) × (result < 8) }
{
    match cause {
        Cause::NoMemory => 7,
        _ => 3,
    }
}

fn import_status(cause: ImportCause) -> u8
    ensures exact { result ≡ import_status cause }
    ensures some { (0 < result) × (result < 8) }
{
    match cause {
        ImportCause::NoMemory => 7,
        ImportCause::Failed => 6,
        _ => 2,
    }
}

fn write_status(fault: WriteFault) -> u8
    ensures exact { result ≡ write_status fault }
    ensures some { (0 < result) × (result < 8) }
{
    match fault {
        WriteFault::NoMemory => 7,
        WriteFault::Failed => 6,
        _ => 3,
    }
}

impl ToolFault {
    /// The exit status: 1 other words, 2 the input is no file that is served or gives no rows, 3 the request does not
    /// bind, 4 a segment is missing or damaged or an expression overflows, 5 a file can't be opened or read, 6 the input
    /// or the output failed, 7 want of memory.
    pub fn status(&self) -> u8
        ensures exact { result ≡ status_of self.now }
        ensures some { (0 < result) × (result < 8) }
    {
        match self {
            ToolFault::Words(_) => 1,
            ToolFault::Open { path: _ } => 5,
            ToolFault::File { path: _, fault } => disk_status(*fault),
            ToolFault::Segment {
                path: _,
                segment: _,
                fault,
            } => disk_status(*fault),
            ToolFault::OtherDType {
                path: _,
                found: _,
                wanted: _,
            } => 4,
            ToolFault::Condition {
                option: _,
                text: _,
                fault,
            } => cause_status(fault.cause),
            ToolFault::Scan { fault } => scan_status(*fault),
            ToolFault::ScanOf { path: _, fault } => scan_status(*fault),
            ToolFault::Import { path: _, fault } => import_status(fault.cause),
            ToolFault::Cell {
                path: _,
                line: _,
                column: _,
                dtype: _,
            } => 2,
            ToolFault::Write { path: _, fault } => write_status(*fault),
            ToolFault::Uneven => 4,
            ToolFault::Output => 6,
            ToolFault::NoMemory => 7,
        }
    }
}
