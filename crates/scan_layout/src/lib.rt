//! Layout trees, their check, typed layouts, the context of readers and children that are made at first use. It gives
//! the items of scan_spelling on, by which leaves are written and read.
#![tactic(auto)]

pub mod check;
pub mod children;
pub mod fault;
pub mod laws;
pub mod layouts;
pub mod node;
pub mod reader_context;
pub mod shown;

pub use children::{ChildFault, ChildOpener, LazyReaderChildren};
pub use fault::LayoutFault;
pub use layouts::list::{
    ELEMENTS_CHILD_INDEX, List, ListLayout, ListLayoutEncoding, ListLayoutMetadata,
    NUM_CHILDREN_NON_NULLABLE, OFFSETS_CHILD_INDEX, VALIDITY_CHILD_INDEX,
};
pub use layouts::struct_::{Struct, StructLayout, StructLayoutEncoding};
pub use layouts::{Layout, MaskFault, SlotFault};
pub use node::{LayoutKind, LayoutNode, LayoutRef, LeafSegments, Nodes};
pub use reader_context::LayoutReaderContext;
pub use scan_spelling::{
    BoolRun, DecodeFault, EncodeFault, IntRun, LeafColumn, Spelling, decode_segment,
    encode_segment, keep_true, recode_segment,
};
