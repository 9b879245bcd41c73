//! Scalar dtypes, which take no memory.
ghost use Rattle.std.specs.Prelude.{◌≡◌, IsTrue, true};
ghost use Rattle.scan_values.specs.Kinds.{is_scalar_type};
ghost use Rattle.scan_widen.specs.Scalars.{flags};

use scan_values::{DType, DTypeKind, Nullability, PType};
use std::marker::Model;

/// The kind of a scalar dtype.
#[derive(Clone, Copy, Debug, PartialEq, Eq)]
pub enum ScalarKind {
    Bool,
    Int(PType),
    Utf8,
}

/// A scalar dtype. Contracts see it as that dtype.
#[derive(Clone, Copy, Debug, PartialEq, Eq)]
pub struct ScalarType {
    kind: ScalarKind,
    nullability: Nullability,
}

impl Model for ScalarType {
    ghost use Rattle.scan_values.specs.DataType.{DataType, data_type_code, nullability_of};
    ghost use Rattle.scan_widen.specs.Scalars.{scalar_type, scalar_kind, same_kind, same_nullability};

    ghost Value = { DataType };

    ghost coded = { data_type_code };

    ghost view = { λ a. scalar_type a.kind a.nullability };

    ghost inverse = { λ t. record { kind = scalar_kind t; nullability = nullability_of t } };

    ghost inverse_ok = { λ a h i. record {
      kind = same_kind a.kind a.nullability i;
      nullability = same_nullability a.kind a.nullability i;
    } };
}

impl ScalarType {
    /// Truth values that are never null.
    pub fn flags() -> ScalarType
        ensures { result ≡ flags }
    {
        ScalarType {
            kind: ScalarKind::Bool,
            nullability: Nullability::NonNullable,
        }
    }

    /// The same as a scalar dtype.
    pub fn of(dtype: &DType) -> ScalarType
        requires { is_scalar_type dtype.now ≡ true }
        ensures { result ≡ dtype.now }
    {
        let kind = match dtype.kind() {
            DTypeKind::Bool => ScalarKind::Bool,
            DTypeKind::Primitive(ptype) => ScalarKind::Int(ptype),
            DTypeKind::Utf8 => ScalarKind::Utf8,
            DTypeKind::List | DTypeKind::Struct => unreachable!(),
        };
        ScalarType {
            kind,
            nullability: dtype.nullability(),
        }
    }

    /// The same as a dtype.
    pub fn to_dtype(self) -> DType
        ensures same { result ≡ self }
        ensures scalar { is_scalar_type result ≡ true }
    {
        match self.kind {
            ScalarKind::Bool => DType::bool(self.nullability),
            ScalarKind::Int(ptype) => DType::primitive(ptype, self.nullability),
            ScalarKind::Utf8 => DType::utf8(self.nullability),
        }
    }
}
