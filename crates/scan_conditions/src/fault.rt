//! Why a text says nothing, and where.
use scan_expr::BindFault;
use scan_values::NoMemory;
use std::alloc::{AllocError, AllocFailed};
use thiserror::Error;

/// Why a text is no condition, no selection or no dtype.
#[derive(Clone, Copy, Debug, PartialEq, Eq, Error)]
pub enum Cause {
    #[error("nothing begins like this")]
    Character,
    #[error("the quote is not closed")]
    Quote,
    #[error("a number of no more than 64 bits is wanted here")]
    Number,
    #[error("a field, a value or a condition is wanted here")]
    NoOperand,
    #[error("an operator or the end is wanted here")]
    NoOperator,
    #[error("it is not closed")]
    Open,
    #[error("no parenthesis was opened")]
    Close,
    #[error("no function has this name")]
    Function,
    #[error("no field has this name")]
    Field,
    #[error("only a struct has fields")]
    NotStruct,
    #[error("the length is only that of a list")]
    NotList,
    #[error("a truth value is wanted here")]
    NotBool,
    #[error("the two sides are not of one type")]
    Operands,
    #[error("nothing beside the number tells its type")]
    Untyped,
    #[error("the number is not of the type of the other side")]
    Range,
    #[error("a name stands twice or is reserved")]
    Name,
    #[error("a dtype is wanted here")]
    NoType,
    #[error("a colon is wanted here")]
    Colon,
    #[error("it nests too deeply")]
    Deep,
    #[error("out of memory")]
    NoMemory,
}

/// Why a text says nothing, and at which of its bytes that shows. The first has number 0.
#[derive(Clone, Copy, Debug, PartialEq, Eq, Error)]
#[error("at byte {place}: {cause}")]
pub struct ConditionFault {
    pub place: usize,
    pub cause: Cause,
}

impl ConditionFault {
    pub(crate) fn new(place: usize, cause: Cause) -> ConditionFault {
        ConditionFault { place, cause }
    }
}

impl From<NoMemory> for ConditionFault {
    fn from(_: NoMemory) -> ConditionFault {
        ConditionFault::new(0, Cause::NoMemory)
    }
}

impl From<AllocError> for ConditionFault {
    fn from(_: AllocError) -> ConditionFault {
        ConditionFault::new(0, Cause::NoMemory)
    }
}

impl<T: Drop> From<AllocFailed<T>> for ConditionFault {
    fn from(_: AllocFailed<T>) -> ConditionFault {
        ConditionFault::new(0, Cause::NoMemory)
    }
}

/// Why an expression that was read does not bind.
pub(crate) fn cause_of(fault: BindFault) -> Cause {
    match fault {
        BindFault::NoField => Cause::Field,
        BindFault::NotStruct => Cause::NotStruct,
        BindFault::NotList => Cause::NotList,
        BindFault::NotBool => Cause::NotBool,
        BindFault::Operands => Cause::Operands,
        BindFault::RepeatedName => Cause::Name,
        BindFault::ReservedName => Cause::Name,
        BindFault::Literal => Cause::Range,
        BindFault::Deep => Cause::Deep,
        BindFault::NoMemory => Cause::NoMemory,
    }
}
