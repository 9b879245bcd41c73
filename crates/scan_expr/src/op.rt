// The operators of an expression.
ghost use Rattle.std.specs.Prelude.{◌≡◌, IfOk};
ghost use Rattle.scan_expr.specs.declared.op.BindFault.TheVariants.{NoMemory as OutOfMemory};
ghost use Rattle.scan_expr.specs.declared.op.ApplyFault.TheVariants.{NoMemory as NoMemoryLeft};

use scan_values::{FieldName, Names, NoMemory};
use std::alloc::{AllocError, AllocFailed, Global};
use thiserror::Error;

/// An operator on one expression.
#[derive(Drop)]
pub enum Unary {
    GetItem(FieldName),
    Select(Names),
    Exclude(Names),
    Not,
    IsNull,
    IsNotNull,
    ListLength,
}

/// An operator on two expressions.
#[derive(Clone, Copy, PartialEq, Eq, Debug)]
pub enum Binary {
    Mask,
    And,
    Or,
    Equal,
    NotEqual,
    Less,
    LessOrEqual,
    Greater,
    GreaterOrEqual,
    CheckedAdd,
    CheckedSub,
}

/// Why an expression does not bind over a dtype.
#[derive(Clone, Copy, PartialEq, Eq, Debug, Error)]
pub enum BindFault {
    #[error("the struct has no field of this name")]
    NoField,
    #[error("not a struct")]
    NotStruct,
    #[error("not a list")]
    NotList,
    #[error("not a boolean of the nullability that is wanted")]
    NotBool,
    #[error("the operands cannot be compared or added")]
    Operands,
    #[error("a name is repeated")]
    RepeatedName,
    #[error("a name is reserved")]
    ReservedName,
    #[error("the literal is not of its dtype")]
    Literal,
    #[error("nested too deeply")]
    Deep,
    #[error("out of memory")]
    NoMemory,
}

impl From<NoMemory> for BindFault {
    ghost from_gives = { λ _ e. e ≡ OutOfMemory };

    fn from(_: NoMemory) -> BindFault {
        BindFault::NoMemory
    }
}

impl From<AllocError> for BindFault {
    ghost from_gives = { λ _ e. e ≡ OutOfMemory };

    fn from(_: AllocError) -> BindFault {
        BindFault::NoMemory
    }
}

impl<T: Drop> From<AllocFailed<T>> for BindFault {
    ghost from_gives = { λ _ e. e ≡ OutOfMemory };

    fn from(_: AllocFailed<T>) -> BindFault {
        BindFault::NoMemory
    }
}

/// Why an expression has no value on a row.
#[derive(Clone, Copy, PartialEq, Eq, Debug, Error)]
pub enum ApplyFault {
    #[error("a sum or difference lies outside its type")]
    Overflow,
    #[error("out of memory")]
    NoMemory,
}

impl From<NoMemory> for ApplyFault {
    ghost from_gives = { λ _ e. e ≡ NoMemoryLeft };

    fn from(_: NoMemory) -> ApplyFault {
        ApplyFault::NoMemory
    }
}

impl From<AllocError> for ApplyFault {
    ghost from_gives = { λ _ e. e ≡ NoMemoryLeft };

    fn from(_: AllocError) -> ApplyFault {
        ApplyFault::NoMemory
    }
}

impl<T: Drop> From<AllocFailed<T>> for ApplyFault {
    ghost from_gives = { λ _ e. e ≡ NoMemoryLeft };

    fn from(_: AllocFailed<T>) -> ApplyFault {
        ApplyFault::NoMemory
    }
}

impl Unary {
    pub fn try_clone(&self, alloc: Global) -> Result<Unary, NoMemory>
        ensures { IfOk result (λ u. u ≡ self.now) }
    {
        Ok(match self {
            Unary::GetItem(name) => Unary::GetItem(name.try_clone(alloc)?),
            Unary::Select(names) => Unary::Select(names.try_clone(alloc)?),
            Unary::Exclude(names) => Unary::Exclude(names.try_clone(alloc)?),
            Unary::Not => Unary::Not,
            Unary::IsNull => Unary::IsNull,
            Unary::IsNotNull => Unary::IsNotNull,
            Unary::ListLength => Unary::ListLength,
        })
    }
}
