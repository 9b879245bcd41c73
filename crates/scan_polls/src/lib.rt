//! What polls of a scan of many files come to, one after the other: each file is answered once.
#![tactic(auto)]

mod laws;

pub use laws::{
    files_are_answered_once, files_come_in_rising_places, files_come_in_their_order,
    files_stand_once, no_file_is_due_at_the_end, no_more_files_are_begun,
    numbers_of_partitions_rise, opened_files_come_first, opened_files_stand_first,
    partitions_are_numbered_by_delivery, worked_rows,
};
