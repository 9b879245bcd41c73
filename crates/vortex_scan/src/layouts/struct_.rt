//! Layouts of structs. After the Rust's `layouts::struct_`.

pub use scan_layout::{Struct, StructLayout, StructLayoutEncoding};
