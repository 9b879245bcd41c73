//! Segments: ids and shared bytes, what a source and a cache of them is, and sources in memory and in a box.
#![tactic(auto)]

pub mod boxed;
pub mod cache;
pub mod memory_source;
pub mod requests;
pub mod script;
pub mod segment;
pub mod source;
pub mod text_ends;

pub use boxed::BoxedSource;
pub use cache::{CacheEvent, CacheGet, CachePut, KeyedSegmentCache, SegmentCache};
pub use memory_source::MemorySource;
pub use requests::Requests;
pub use script::{Outcome, Script};
pub use segment::{ByteBuffer, SegmentFault, SegmentId, SegmentKey, SegmentSourceId};
pub use source::{Fits, Polled, Polls, SegmentSource};
pub use text_ends::{FlagGroup, TextEnds};
