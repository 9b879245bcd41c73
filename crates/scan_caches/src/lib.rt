//! Caches of segments, and an adapter that looks in a cache before it asks a source.
#![tactic(auto)]

pub mod adapter;
pub mod bounded;
pub mod file_cache;
pub mod instrumented;
pub mod memory_cache;
pub mod no_op;
mod use_counts;

pub use adapter::SegmentCacheSourceAdapter;
pub use bounded::{MokaSegmentCache, SegmentEviction};
pub use file_cache::FileSegmentCache;
pub use instrumented::InstrumentedSegmentCache;
pub use memory_cache::MemoryCache;
pub use no_op::NoOpSegmentCache;
