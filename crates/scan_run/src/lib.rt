//! The program's run over any input and output, and the lines that it prints.
#![tactic(auto)]

mod generate;
mod input;
mod line;
mod memory_input;
mod memory_output;
mod output;
mod print;
pub mod run;
mod std_input;
mod std_output;

pub use input::{Input, InputRead, MOST_BYTES, ReadFault, read_all};
pub use line::{push_line, push_value};
pub use memory_input::MemoryInput;
pub use memory_output::MemoryOutput;
pub use output::{Output, OutputWrite, WriteFault, write_all};
pub use print::write_output;
pub use scan_manifest::{
    CacheSpec, FileSpec, Manifest, ParseFault, manifest_of, manifest_of_bytes, read_expression,
};
pub use scan_multi::NoGate;
pub use std_input::StdInput;
pub use std_output::StdOutput;
