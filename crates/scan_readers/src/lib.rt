//! Readers of layouts: what makes plans of expressions, keeps them, and registers splits. It gives on what its user
//! meets of the crates below it: ranges of splits and their rows, plans and their polls, and shared arrays.
#![tactic(auto)]

mod kept;
mod kind;
mod laws;
mod layout;
mod leaf;
mod list;
mod nested;
mod passing;
mod reader;
mod reading;
mod row_idx;
mod rows;

pub use laws::plans_want_between_their_rows;
pub use layout::Reader;
pub use passing::LayoutReaderRef;
pub use reader::LayoutReader;
pub use row_idx::{RowIdxFault, RowIdxLayoutReader, plan_with_numbers};
pub use rows::RowsReader;
pub use scan_plans::{ArrayFuture, MaskFuture, Plan};
pub use scan_shared::{
    Answer, Law, Note, Shared, SharedArray, SharedPoll, SharedProbeState, SharedSlots,
};
pub use scan_splits::{
    Arrival, Inbox, Poll, RowSplits, SplitFault, SplitRange, SplitRangeFault, WantedIds,
    list_split_grid_size, map_element_split_to_outer_grid,
};
