//! Files of older schemas under one dtype: which dtype's values can be read as another's, what a file's segments are as
//! segments of the other dtype, and the layout of a file under it.
#![tactic(auto)]

mod behind;
mod blank;
mod count;
mod countable;
mod fits;
mod laws;
mod parts;
mod scalar;
mod under;
mod widen;

pub use behind::{Behind, Widening};
pub use blank::{blank_segment, valid_segment};
pub use countable::is_countable;
pub use fits::fits_under;
pub use scalar::{ScalarKind, ScalarType};
pub use under::{UnionLayout, union_layout};
pub use widen::widen_segment;
