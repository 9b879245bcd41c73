// Expressions, their binding to a dtype and their evaluation.
#![tactic(auto)]

mod apply;
mod bind;
mod bound;
mod compare;
mod constructors;
mod evaluate;
mod expression;
mod index;
mod laws;
mod op;
mod request;
mod shown;
mod threads;
mod tree;
mod typing;

pub use bound::{BoundExpression, BoundNode};
pub use evaluate::Lent;
pub use expression::Expression;
pub use laws::{
    a_filter_overflows_where_a_conjunct_does, clean_values_stay_clean, conjuncts_are_all_true,
    needs_are_those_of_the_uses, row_numbers_play_no_part, row_numbers_play_no_part_in_overflows,
    values_fit_the_dtype, what_binds_has_the_inferred_dtype,
};
pub use op::{ApplyFault, Binary, BindFault, Unary};
pub use request::ScanRequest;
pub use threads::expressions_cross_threads;
