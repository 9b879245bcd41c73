//! Callers of the library, as one would write them: each says in its own words what it may conclude of a scan. All but
//! the writer of lines stand over the names of vortex_scan alone.
#![tactic(auto)]

mod by_settings;
mod collect;
mod count;
mod disk;
mod files_twice;
mod first;
mod in_parts;
mod look;
mod matching;
mod never;
mod own_source;
mod program;
mod reader_twice;
mod row;
mod shown;
mod source_twice;
mod sum;
mod twice;
mod under;

pub use by_settings::values_of_range;
pub use collect::{first_values, first_values_from, read_all};
pub use count::count_rows;
pub use disk::{TripFault, rows_back, rows_of_file, written_and_read};
pub use files_twice::{files_asked, scan_files_twice};
pub use first::first_rows;
pub use in_parts::{InParts, PartsFault, RowsOfPart, rows_in_parts};
pub use look::values_at;
pub use matching::{first_matches, first_matches_from};
pub use own_source::rows_of_table;
pub use program::lines_of;
pub use reader_twice::{first_rows_of, first_rows_twice};
pub use row::value_at_row;
pub use shown::shown_rows;
pub use source_twice::scan_source_twice;
pub use sum::sum_rows;
pub use twice::scan_twice;
pub use under::first_rows_under;
