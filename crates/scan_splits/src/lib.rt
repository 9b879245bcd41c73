//! What the readers of layouts stand on: ranges and rows of splits, the splits of layouts, the runs of a leaf's segments,
//! what has arrived, what is wanted, and the answers of polls.
#![tactic(auto)]

mod fault;
mod grid;
mod inbox;
mod list_splits;
mod poll;
mod push;
mod register;
mod row_splits;
mod segment_runs;
mod split_range;
mod threads;
mod wanted;

pub use fault::SplitFault;
pub use grid::{list_split_grid_size, map_element_split_to_outer_grid};
pub use inbox::{Arrival, Inbox};
pub use list_splits::register_list_splits;
pub use poll::Poll;
pub use register::register_layout_splits;
pub use row_splits::RowSplits;
pub use segment_runs::SegmentRuns;
pub use split_range::{SplitRange, SplitRangeFault};
pub use threads::{polls_cross_threads, splits_cross_threads};
pub use wanted::{WantedIds, Wants};
