//! Rows from files on disk: the form of a file, a source of its segments, and an opener that gives its layout, over
//! anything that is read by places.
#![tactic(auto)]

mod bytes_at;
mod content;
mod fault;
mod footer;
mod opener;
mod place;
mod source;

pub use bytes_at::{BytesAt, MemoryFile, ReadFault};
pub use content::read_footer;
pub use fault::DiskFault;
pub use footer::Footer;
pub use opener::FileOpener;
pub use place::{Place, Places};
pub use source::FileSource;
