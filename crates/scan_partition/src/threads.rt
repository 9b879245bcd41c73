// What may cross threads.
use crate::direct::DirectProjection;
use crate::divide::PartitionedExpr;
use crate::item::Item;
use crate::row_idx::{Partition, PartitionedRowIdx, Partitioning};
use crate::struct_::Partitioned;

fn crosses<T: Send + Sync>() {}

/// Items and partitioned expressions may be sent to other threads and be shared by them.
pub fn partitions_cross_threads() {
    crosses::<Item>();
    crosses::<DirectProjection>();
    crosses::<PartitionedExpr>();
    crosses::<Partitioned>();
    crosses::<Partition>();
    crosses::<PartitionedRowIdx>();
    crosses::<Partitioning>();
}
