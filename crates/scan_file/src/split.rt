//! A split of a file, as a drive over many files sees it. After the Rust's `scan::tasks`, whose tasks are async functions.
ghost use Rattle.std.specs.Prelude.{◌≡◌, IfOk, length};
ghost use Rattle.scan_plans.specs.Futures.{known_rows};
ghost use Rattle.scan_file.specs.FileSplits.{FutureComes, split_state};
ghost use Rattle.scan_file.specs.FileRows.{row_items, rows_data};

use crate::rows::FileRows;
use scan_columns::Column;
use scan_drive::SplitWork;
use scan_plans::ArrayFuture;
use scan_splits::{Inbox, Poll};
use scan_values::NoMemory;
use std::alloc::Global;

/// The projection of a split of a file: it gives the values with the numbers of their rows.
#[derive(Drop)]
pub struct FileSplit {
    pub future: ArrayFuture,
}

impl FileSplit {
    /// The split of a projection.
    pub fn new(future: ArrayFuture) -> FileSplit
        ensures { result.future ≡ future }
    {
        FileSplit { future }
    }
}

/// The values that a future gave, with the numbers of their rows.
fn with_numbers(alloc: Global, future: &ArrayFuture, values: Column) -> Result<FileRows, NoMemory>
    requires { length values.items ≡ length (known_rows future.now) }
    ensures { IfOk result (λ r. r ≡ rows_data (known_rows future.now) values) }
{
    let numbers = future.rows(alloc)?;
    Ok(FileRows::new(numbers, values))
}

impl SplitWork for FileSplit {
    type Rows = FileRows;

    ghost items = { λ r. row_items r };

    ghost split = { λ s. split_state s.future };

    ghost comes = { λ s here store e. FutureComes s.future here store e };

    fn poll(&mut self, alloc: Global, inbox: &Inbox) -> Poll<FileRows> {
        match self.future.poll_column(alloc, inbox) {
            Poll::Ready(values) => match with_numbers(alloc, &self.future, values) {
                Ok(rows) => Poll::Ready(rows),
                Err(_) => Poll::NoMemory,
            },
            Poll::Pending(ids) => Poll::Pending(ids),
            Poll::Corrupt(id) => Poll::Corrupt(id),
            Poll::Overflow => Poll::Overflow,
            Poll::NoMemory => Poll::NoMemory,
        }
    }

    /// A split that can't be read to its end stands for one row.
    fn most(&self, alloc: Global) -> Result<u64, NoMemory> {
        let numbers = self.future.rows(alloc)?;
        Ok((numbers.len() as u64).max(1))
    }

    fn count(rows: &FileRows) -> usize {
        rows.len()
    }

    fn first(alloc: Global, rows: FileRows, most: usize) -> Result<FileRows, NoMemory> {
        rows.first(alloc, most)
    }
}
