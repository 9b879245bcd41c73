//! Expressions, what binds them to a dtype and evaluates them, and what takes them apart. After the Rust's `expr`.

pub mod stats;
pub mod transform;

pub use scan_core::referenced_field_masks;
pub use scan_expr::{
    ApplyFault, Binary, BindFault, BoundExpression, BoundNode, Expression, Lent, Unary,
};
