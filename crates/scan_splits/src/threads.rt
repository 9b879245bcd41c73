//! What may cross threads.
use crate::inbox::{Arrival, Inbox};
use crate::poll::Poll;
use crate::row_splits::RowSplits;
use crate::segment_runs::SegmentRuns;
use crate::split_range::SplitRange;
use crate::wanted::{WantedIds, Wants};

fn crosses<T: Send + Sync>() {}

/// Ranges, splits, inboxes, wants and the runs of segments may be sent to other threads and be shared by them.
pub fn splits_cross_threads() {
    crosses::<SplitRange>();
    crosses::<RowSplits>();
    crosses::<Arrival>();
    crosses::<Inbox>();
    crosses::<WantedIds>();
    crosses::<Wants>();
    crosses::<SegmentRuns>();
}

/// So may the answers of polls for a value that may.
pub fn polls_cross_threads<T: Send + Sync>() {
    crosses::<Poll<T>>();
}
