//! Types of data, their fields, and paths to these. After the Rust's `dtype`.

pub use scan_values::{
    DType, DTypeFault, DTypeKind, FieldMask, FieldName, FieldPath, NameFault, Names, Nullability,
    PType, StructFields,
};
