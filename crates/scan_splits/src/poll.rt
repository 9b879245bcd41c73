//! The answers of polls. An own type, after the Rust's `std::task::Poll` of a `VortexResult`.
use crate::wanted::WantedIds;
use scan_segments::SegmentId;

/// The answer of a poll: the value, the segments that are wanted next, a segment that is missing or no good, a sum or
/// difference past its dtype, or want of memory.
#[derive(Drop)]
pub enum Poll<T> {
    Ready(T),
    Pending(WantedIds),
    Corrupt(SegmentId),
    Overflow,
    NoMemory,
}
