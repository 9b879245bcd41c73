//! What a manifest says: a dtype, files, a request and a cache, read from JSON.
#![tactic(auto)]

mod agreement;
mod dtype;
mod expression;
mod hex_digits;
mod hex_lanes;
mod json;
mod layout;
mod manifest;

pub use expression::read_expression;
pub use json::ParseFault;
pub use manifest::{
    CacheSpec, Calls, FileSpec, Files, LayoutTree, Manifest, Segments, manifest_of,
    manifest_of_bytes,
};
