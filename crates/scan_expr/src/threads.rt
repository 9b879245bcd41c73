// What may cross threads.
use crate::bound::BoundExpression;
use crate::expression::Expression;
use crate::request::ScanRequest;

fn crosses<T: Send + Sync>() {}

/// Expressions, bound ones and requests may be sent to other threads and be shared by them.
pub fn expressions_cross_threads() {
    crosses::<Expression>();
    crosses::<BoundExpression>();
    crosses::<ScanRequest>();
}
