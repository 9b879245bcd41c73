//! Requests of one segment that are shared: a table of them, and a source that is shared under a lock.
#![tactic(auto)]

mod entry;
pub mod holder;
pub mod laws;
pub mod locked;
pub mod shared;
pub mod shared_source;
pub mod ticket;

pub use holder::{Holder, SharedAnswer, SharedEvent, SharedKind, SharedPolled, TicketPolled};
pub use locked::Locked;
pub use shared::SharedTable;
pub use shared_source::SharedSegmentSource;
pub use ticket::Ticket;
