//! The answers of streams, and why they end before their time. After the Rust's `scan::scan_builder`, whose streams give a `VortexResult`.
use crate::setup::SetupFault;
use scan_segments::SegmentId;
use std::fmt::Display;
use thiserror::Error;

/// Why splits are not read any further.
#[derive(Clone, Copy, Debug, PartialEq, Eq)]
pub enum Halt {
    /// The source failed at a segment.
    Source(SegmentId),
    /// A segment is missing or no good.
    Corrupt(SegmentId),
    /// A sum or difference is past its dtype.
    Overflow,
    NoMemory,
}

/// Why a stream ends before its time. `F` is the fault of its map.
#[derive(Debug, Drop, Error)]
#[error_bound(F: Display)]
pub enum StreamFault<F> {
    /// The source failed at a segment.
    #[error("the source failed at {0}")]
    Source(SegmentId),
    /// A segment is missing or no good.
    #[error("{0} is missing or damaged")]
    Corrupt(SegmentId),
    /// The map refused an array.
    #[error("{0}")]
    Map(F),
    /// The scan was not set up. A stream that is set up later gives this alone.
    #[error("{0}")]
    Setup(SetupFault),
    #[error("out of memory")]
    NoMemory,
    /// A sum or difference is past its dtype.
    #[error("a sum or difference lies outside its type")]
    Overflow,
}

/// The answer of a poll of a stream. After `End` and `Fault` each poll gives `End`.
#[derive(Debug, Drop)]
pub enum StreamPoll<T, F> {
    /// The source put off an answer.
    Pending,
    /// What the map made of the array of a split.
    Item(T),
    End,
    Fault(StreamFault<F>),
}
