//! The spellings of leaves, and the layouts of lists, structs and row numbers. After the Rust's `layouts`.

pub mod list;
pub mod row_idx;
pub mod struct_;

pub use scan_layout::{
    BoolRun, DecodeFault, EncodeFault, IntRun, LeafColumn, Spelling, decode_segment,
    encode_segment, keep_true, recode_segment,
};
