//! Conditions, selections and dtypes as people write them.
#![tactic(auto)]

mod chars;
mod condition;
mod dtypes;
mod fault;
mod leaf;
mod lexer;
mod operand;
mod operator;
mod path;
mod reader;
mod selection;
mod token;

pub use condition::read_condition;
pub use dtypes::{dtype_text, read_dtype};
pub use fault::{Cause, ConditionFault};
pub use selection::read_selection;
