//! How a live segment is served.
use scan_sharing::Holder;

/// By a request of the file's source, which is held, or out of nothing.
#[derive(Drop)]
pub(crate) enum Stage {
    Held(Holder),
    Made,
}
