//! Expressions taken apart by what they read, and put together again. After the Rust's `expr::transform`,
//! `layouts::partitioned`, `layouts::list::expr` and `layouts::row_idx::expr`.

pub use scan_partition::{
    DirectProjection, Item, ListChildrenNeeded, Partition, Partitioned, PartitionedExpr,
    PartitionedRowIdx, Partitioning, expand_struct_root, expanded_struct_root, necessary_children,
    partition, partition_row_idx, partition_struct, parts_may_be_parted, rewrite_offsets,
    rewrite_validity, step_into,
};
