//! The lines of rows, written from columns into pieces of text.
#![tactic(auto)]

mod cells;
mod digits;
mod head;
mod heads;
mod piece;
mod put;
mod quoted;
mod values;

pub use heads::Heads;
pub use piece::{Front, PIECE_BYTES, Piece};
