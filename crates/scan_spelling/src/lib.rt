//! The spelling of leaf segments: what it writes, what it reads, and a segment read in place.
#![tactic(auto)]

mod bits;
mod column;
mod known_ends;
mod read;
mod recode;
mod run;
mod slot;
pub mod spelling;
mod spelt;
mod text_run;
mod texts;
mod write;

pub use column::LeafColumn;
pub use read::decode_segment;
pub use recode::recode_segment;
pub use run::{BoolRun, IntRun, keep_true};
pub use spelling::{DecodeFault, EncodeFault, Spelling};
pub use text_run::TextRun;
pub use write::encode_segment;
