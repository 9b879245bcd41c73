//! Scans of one reader: where they are split, how they are set up, and what their splits and streams give.
#![tactic(auto)]

mod array_streams;
mod begin;
mod builder;
mod field_masks;
mod kept_builder;
mod laws;
mod lazy_stream;
mod name_set;
mod planning;
mod repeated;
mod scan_iter;
mod settings;
mod split;
mod split_by;
mod split_rows;
mod splits;
mod threads;

pub use builder::{LentReader, ScanBuilder};
pub use field_masks::referenced_field_masks;
pub use laws::{
    order_of_conjuncts_changes_no_row, order_of_conjuncts_spoils_no_more,
    order_of_conjuncts_wants_no_more, splits_follow_each_other, splits_give_what_is_asked,
    splits_in_turn_mean_what_is_written, splits_mean_their_expressions,
    streams_give_the_first_rows,
};
pub use lazy_stream::LazyScanStream;
pub use repeated::RepeatedScan;
pub use scan_iter::ScanIter;
pub use scan_limit::{LimitSeat, RowLimit};
pub use scan_streams::{
    ArrayIter, Claims, Identity, MapStep, Mapped, ScanPlans, ScanStream, SetupFault, StreamFault,
    StreamPoll,
};
pub use settings::{OverReader, ScanSettings};
pub use split::{SplitFuture, SplitPoll};
pub use split_by::SplitBy;
pub use splits::{intersect_ranges, span_of, split_ranges};
pub use threads::splits_cross_threads;
