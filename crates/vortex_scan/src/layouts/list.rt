//! Layouts of lists. After the Rust's `layouts::list`.

pub use scan_layout::{
    ELEMENTS_CHILD_INDEX, List, ListLayout, ListLayoutEncoding, ListLayoutMetadata,
    NUM_CHILDREN_NON_NULLABLE, OFFSETS_CHILD_INDEX, VALIDITY_CHILD_INDEX,
};
pub use scan_readers::{list_split_grid_size, map_element_split_to_outer_grid};
