//! Why rows are not read, and where.
ghost use Rattle.std.specs.Prelude.{◌≡◌};

use scan_values::NoMemory;
use std::alloc::{AllocError, AllocFailed};
use std::io::{Error, ErrorKind};
use thiserror::Error as DeriveError;

/// Why rows are not read. A column is told by its place in the dtype.
#[derive(Clone, Copy, Debug, PartialEq, Eq, DeriveError)]
pub enum ImportCause {
    #[error("the file can't be read")]
    Failed,
    #[error("a text is no UTF-8")]
    NotText,
    #[error("the rows have no columns: a dtype of a struct is wanted")]
    NotStruct,
    #[error("there is no first line, with the names of the columns")]
    NoNames,
    #[error("column {column} of the dtype is not in the first line")]
    NoColumn { column: usize },
    #[error("the first line has {found} columns, and the dtype {wanted}")]
    Columns { wanted: usize, found: usize },
    #[error("the line has {found} cells, and the first line {wanted}")]
    Cells { wanted: u64, found: u64 },
    #[error("column {column} is not of its dtype")]
    NotOfType { column: usize },
    #[error("it is no JSON")]
    NotJson,
    #[error("it is no JSON object")]
    NotObject,
    #[error("it has a key that the dtype has not")]
    Key,
    #[error("a name of a column stands twice or is reserved")]
    Name,
    #[error("the rows are not of their dtype")]
    Rows,
    #[error("there is no row that shows a dtype")]
    NoRows,
    #[error("it has a value that no dtype has together with those before it")]
    Mixed,
    #[error("its values nest deeper than a dtype does")]
    Deep,
    #[error("out of memory")]
    NoMemory,
}

/// Why rows are not read, and in which line. The first line has number 1; 0 stands for none.
#[derive(Clone, Copy, Debug, PartialEq, Eq, DeriveError)]
#[error("line {line}: {cause}")]
pub struct ImportFault {
    pub line: u64,
    pub cause: ImportCause,
}

impl ImportFault {
    pub(crate) fn new(line: u64, cause: ImportCause) -> ImportFault
        ensures { result ≡ record { line = line; cause = cause } }
    {
        ImportFault { line, cause }
    }
}

impl From<NoMemory> for ImportFault {
    ghost use Rattle.std.specs.Prelude.{◌≡◌};
    ghost use Rattle.scan_import.specs.declared.fault.ImportCause.TheVariants as cause;

    ghost from_gives = { λ _ e. e.cause ≡ cause.NoMemory };

    fn from(_: NoMemory) -> ImportFault {
        ImportFault::new(0, ImportCause::NoMemory)
    }
}

impl From<AllocError> for ImportFault {
    ghost use Rattle.std.specs.Prelude.{◌≡◌};
    ghost use Rattle.scan_import.specs.declared.fault.ImportCause.TheVariants as cause;

    ghost from_gives = { λ _ e. e.cause ≡ cause.NoMemory };

    fn from(_: AllocError) -> ImportFault {
        ImportFault::new(0, ImportCause::NoMemory)
    }
}

impl<T: Drop> From<AllocFailed<T>> for ImportFault {
    ghost use Rattle.std.specs.Prelude.{◌≡◌};
    ghost use Rattle.scan_import.specs.declared.fault.ImportCause.TheVariants as cause;

    ghost from_gives = { λ _ e. e.cause ≡ cause.NoMemory };

    fn from(_: AllocFailed<T>) -> ImportFault {
        ImportFault::new(0, ImportCause::NoMemory)
    }
}

/// Why a read failed.
pub(crate) fn cause_of_read(fault: &Error) -> ImportCause {
    match fault.kind() {
        ErrorKind::OutOfMemory => ImportCause::NoMemory,
        ErrorKind::InvalidData => ImportCause::NotText,
        _ => ImportCause::Failed,
    }
}

/// Why the values of a list are not had: the one at a place means nothing, or want of memory.
#[derive(Clone, Copy, Debug, PartialEq, Eq)]
pub(crate) enum ValuesFault {
    Nothing(usize),
    NoMemory,
}

impl From<NoMemory> for ValuesFault {
    ghost use Rattle.std.specs.Prelude.{◌≡◌};
    ghost use Rattle.scan_import.specs.declared.fault.ValuesFault.TheVariants as fault;

    ghost from_gives = { λ _ e. e ≡ fault.NoMemory };

    fn from(_: NoMemory) -> ValuesFault {
        ValuesFault::NoMemory
    }
}

impl From<AllocError> for ValuesFault {
    ghost use Rattle.std.specs.Prelude.{◌≡◌};
    ghost use Rattle.scan_import.specs.declared.fault.ValuesFault.TheVariants as fault;

    ghost from_gives = { λ _ e. e ≡ fault.NoMemory };

    fn from(_: AllocError) -> ValuesFault {
        ValuesFault::NoMemory
    }
}

impl<T: Drop> From<AllocFailed<T>> for ValuesFault {
    ghost use Rattle.std.specs.Prelude.{◌≡◌};
    ghost use Rattle.scan_import.specs.declared.fault.ValuesFault.TheVariants as fault;

    ghost from_gives = { λ _ e. e ≡ fault.NoMemory };

    fn from(_: AllocFailed<T>) -> ValuesFault {
        ValuesFault::NoMemory
    }
}
