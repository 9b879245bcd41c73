// What may cross threads.
use crate::array::Array;
use crate::dtype::DType;
use crate::mask::Mask;
use crate::value::Value;

fn crosses<T: Send + Sync>() {}

/// Dtypes, values, arrays and masks may be sent to other threads and be shared by them.
pub fn values_cross_threads() {
    crosses::<DType>();
    crosses::<Value>();
    crosses::<Array>();
    crosses::<Mask>();
}
