// What may cross threads.
use crate::future::ArrayFuture;
use crate::mask::MaskFuture;
use crate::node::PlanNode;
use crate::plan::Plan;

fn crosses<T: Send + Sync>() {}

/// Plans, their nodes, and futures of masks and arrays may be sent to other threads and be shared by them.
pub fn plans_cross_threads() {
    crosses::<PlanNode>();
    crosses::<Plan>();
    crosses::<MaskFuture>();
    crosses::<ArrayFuture>();
}
