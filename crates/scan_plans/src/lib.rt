//! Plans: what a reader makes of an expression, what rows of it want of the segments, and what they give.
#![tactic(auto)]

mod checking;
mod climbing;
mod copying;
mod fault;
mod future;
mod given;
mod laws;
mod leaf;
mod lists;
mod mask;
mod node;
mod offsets;
mod plan;
mod reading;
mod shown;
mod sizes;
mod threads;

pub use future::ArrayFuture;
pub use laws::{
    leaves_want_no_more_for_less, leaves_want_what_is_touched, no_row_wants_nothing_of_a_leaf,
    plans_want_no_more_for_less, plans_want_nothing_for_no_row,
    wants_are_fixed_when_a_plan_is_made,
};
pub use mask::MaskFuture;
pub use node::{PlanNode, PlanNodes};
pub use offsets::Offsets;
pub use plan::Plan;
pub use threads::plans_cross_threads;
