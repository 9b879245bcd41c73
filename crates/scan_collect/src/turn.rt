//! What comes of a poll by which arrays are read.
ghost use Rattle.scan_collect.specs.Gathers.{Pushes};

use scan_streams::StreamFault;
use scan_values::Array;

/// What comes of a poll.
#[derive(Drop)]
pub(crate) enum Turn<E> {
    /// It is polled again.
    More,
    /// Nothing is left.
    Last,
    Stop(StreamFault<E>),
}

/// Keeps an array.
pub(crate) fn keep<E: Drop>(arrays: &mut Vec<Array>, array: Array) -> Turn<E>
    ensures { Pushes array arrays.old.items arrays.new.items result }
{
    match arrays.push(array) {
        Ok(()) => Turn::More,
        Err(_) => Turn::Stop(StreamFault::NoMemory),
    }
}
