// Values, dtypes, arrays, masks and selections.
#![tactic(auto)]

mod array;
mod constructors;
mod dtype;
mod field_names;
mod field_path;
mod mask;
mod memory;
mod ptype;
mod selection;
pub mod shown;
mod text;
mod threads;
mod value;

pub use array::{Array, ArrayFault};
pub use dtype::{DType, DTypeFault, DTypeKind, StructFields};
pub use field_path::{FieldMask, FieldPath};
pub use mask::Mask;
pub use memory::NoMemory;
pub use ptype::{Nullability, PType};
pub use selection::{Selection, StrictSorted, StrictSortedFault};
pub use text::{FieldName, NameFault, Names, Text, has_name, names_fault};
pub use threads::values_cross_threads;
pub use value::{Value, Values};
