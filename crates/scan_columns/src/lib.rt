//! Columns: values of one dtype, kept by kind, and the evaluation of expressions over them.
#![tactic(auto)]

mod access;
mod binary;
mod bools;
mod by_value;
mod cells;
mod column;
mod compared;
mod constant;
mod ends;
mod evaluate;
mod integers;
mod ints;
mod kept;
mod laws;
mod leaf;
mod lent;
mod lists;
mod nodes;
mod numbers;
mod parts;
mod picks;
mod rest;
mod rows;
mod slots;
mod strings;
mod structs;
mod texts;
mod threads;
mod truths;
mod unary;
mod values;

pub use bools::Bools;
pub use cells::{Cells, Lists, Structs};
pub use column::Column;
pub use constant::Constant;
pub use ints::Ints;
pub use laws::{
    an_evaluation_gives_what_apply_gives, an_evaluation_over_parts_gives_what_apply_gives,
};
pub use texts::Texts;
pub use threads::columns_cross_threads;
