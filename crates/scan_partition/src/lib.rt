// Expressions over a struct, a list or a row's number, taken apart by what they read.
#![tactic(auto)]

mod cuts;
mod direct;
mod divide;
mod expand;
mod groups;
mod item;
mod join;
mod laws;
mod leaves;
mod list_;
mod parts;
mod places;
mod rewrite;
mod rewrites;
mod root;
mod row_idx;
mod struct_;
mod threads;

pub use direct::DirectProjection;
pub use divide::PartitionedExpr;
pub use item::Item;
pub use laws::{
    chosen_fields_are_the_whole, expansion_keeps_values, expansion_needs_no_more,
    necessary_children_are_needed, own_dtypes_are_tighter, parts_join_to_the_whole,
    parts_may_be_parted, parts_need_no_more, rewriting_over_lists_keeps_values,
    row_parts_join_to_the_whole, stepping_in_keeps_known_values, stepping_in_keeps_the_typing,
    stepping_in_keeps_values,
};
pub use list_::{ListChildrenNeeded, necessary_children};
pub use rewrites::{
    expand_struct_root, expanded_struct_root, rewrite_offsets, rewrite_validity, step_into,
};
pub use row_idx::{Partition, PartitionedRowIdx, Partitioning, partition_row_idx};
pub use struct_::{Partitioned, partition, partition_struct};
pub use threads::partitions_cross_threads;
