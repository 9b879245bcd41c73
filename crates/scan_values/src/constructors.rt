// Short forms of dtypes and fields.
ghost use Rattle.std.specs.Prelude.{◌≡◌, IfOk, map};
ghost use Rattle.scan_values.specs.DataType.{bool_type, int_type, utf8_type, with_nullability};

use crate::dtype::{DType, StructFields};
use crate::memory::NoMemory;
use crate::ptype::{Nullability, PType};
use crate::text::FieldName;
use std::alloc::Global;
use std::string::String;

/// Dtypes without null.
impl DType {
    /// Truth values.
    pub fn boolean() -> DType
        ensures { result ≡ bool_type Nullability.NonNullable }
    {
        DType::bool(Nullability::NonNullable)
    }

    /// Texts.
    pub fn text() -> DType
        ensures { result ≡ utf8_type Nullability.NonNullable }
    {
        DType::utf8(Nullability::NonNullable)
    }

    /// Unsigned integers of 8 bits.
    pub fn u8() -> DType
        ensures { result ≡ int_type PType.U8 Nullability.NonNullable }
    {
        DType::primitive(PType::U8, Nullability::NonNullable)
    }

    /// Unsigned integers of 16 bits.
    pub fn u16() -> DType
        ensures { result ≡ int_type PType.U16 Nullability.NonNullable }
    {
        DType::primitive(PType::U16, Nullability::NonNullable)
    }

    /// Unsigned integers of 32 bits.
    pub fn u32() -> DType
        ensures { result ≡ int_type PType.U32 Nullability.NonNullable }
    {
        DType::primitive(PType::U32, Nullability::NonNullable)
    }

    /// Unsigned integers of 64 bits.
    pub fn u64() -> DType
        ensures { result ≡ int_type PType.U64 Nullability.NonNullable }
    {
        DType::primitive(PType::U64, Nullability::NonNullable)
    }

    /// Signed integers of 8 bits.
    pub fn i8() -> DType
        ensures { result ≡ int_type PType.I8 Nullability.NonNullable }
    {
        DType::primitive(PType::I8, Nullability::NonNullable)
    }

    /// Signed integers of 16 bits.
    pub fn i16() -> DType
        ensures { result ≡ int_type PType.I16 Nullability.NonNullable }
    {
        DType::primitive(PType::I16, Nullability::NonNullable)
    }

    /// Signed integers of 32 bits.
    pub fn i32() -> DType
        ensures { result ≡ int_type PType.I32 Nullability.NonNullable }
    {
        DType::primitive(PType::I32, Nullability::NonNullable)
    }

    /// Signed integers of 64 bits.
    pub fn i64() -> DType
        ensures { result ≡ int_type PType.I64 Nullability.NonNullable }
    {
        DType::primitive(PType::I64, Nullability::NonNullable)
    }

    /// The same dtype with null.
    pub fn nullable(self) -> DType
        ensures { result ≡ with_nullability Nullability.Nullable self }
    {
        self.with_nullability(Nullability::Nullable)
    }
}

impl FieldName {
    /// The name that a text is.
    pub fn from_str(alloc: Global, text: &str) -> Result<FieldName, NoMemory>
        ensures { IfOk result (λ n. n ≡ text.now) }
    {
        Ok(FieldName::new(String::from_str(alloc, text)?))
    }
}

impl StructFields {
    /// Fields of these names and dtypes.
    pub fn from_pairs(alloc: Global, pairs: Vec<(&str, DType)>) -> Result<StructFields, NoMemory>
        ensures { IfOk result (λ fs. fs ≡ map (λ p. (p.0.now, p.1)) pairs.entry.items) }
    {
        let mut names = Vec::with_capacity(alloc, pairs.len())?;
        let mut dtypes = Vec::with_capacity(alloc, pairs.len())?;
        for pair in pairs {
            let (name, dtype) = pair;
            names.push(FieldName::from_str(alloc, name)?)?;
            dtypes.push(dtype)?;
        }
        Ok(StructFields::new(names, dtypes))
    }
}
