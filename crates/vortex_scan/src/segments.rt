//! Segments of bytes: their ids, what a source and a cache of them is, caches, and requests that are shared. After the
//! Rust's `segments`.

pub use scan_caches::{
    FileSegmentCache, InstrumentedSegmentCache, MemoryCache, MokaSegmentCache, NoOpSegmentCache,
    SegmentCacheSourceAdapter, SegmentEviction,
};
pub use scan_segments::{
    BoxedSource, ByteBuffer, CacheEvent, CacheGet, CachePut, Fits, FlagGroup, KeyedSegmentCache,
    MemorySource, Outcome, Polled, Polls, Requests, Script, SegmentCache, SegmentFault, SegmentId,
    SegmentKey, SegmentSource, SegmentSourceId, TextEnds,
};
pub use scan_sharing::{
    Holder, Locked, SharedAnswer, SharedEvent, SharedKind, SharedPolled, SharedSegmentSource,
    SharedTable, Ticket, TicketPolled,
};
