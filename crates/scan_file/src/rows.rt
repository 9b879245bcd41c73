//! Rows of a split, and their values. An own type: the Rust gives the values alone.
ghost use Rattle.std.specs.Prelude.{◌≡◌, ◌==◌, IfOk, length, take};
ghost use Rattle.scan_file.specs.FileRows.{AreEven, row_items, rows_data};

use scan_columns::Column;
use scan_values::NoMemory;
use std::alloc::Global;
use std::marker::Model;

/// Rows by their numbers, with a column of their values. Contracts see the numbers and the values as an array.
#[derive(Drop)]
pub struct FileRows {
    numbers: Vec<u64>,
    values: Column,
}

impl Model for FileRows {
    ghost use Rattle.scan_file.specs.FileRows.{AreEven, RowsData, rows_code, rows_data};

    ghost Value = { RowsData };

    ghost coded = { rows_code };

    ghost view = { λ a. rows_data a.numbers.items a.values };

    ghost invariant = { λ a. AreEven (rows_data a.numbers.items a.values) };
}

impl FileRows {
    /// Rows of these numbers, with as many values.
    pub fn new(numbers: Vec<u64>, values: Column) -> FileRows
        requires { AreEven (rows_data numbers.items values) }
        ensures { result ≡ rows_data numbers.items values }
    {
        FileRows { numbers, values }
    }

    /// The numbers of the rows.
    pub fn numbers(&self) -> &[u64]
        ensures numbers { result.now ≡ self.now.numbers }
        ensures even { AreEven self.now }
    {
        &self.numbers
    }

    /// Their values.
    pub fn values(&self) -> &Column
        ensures values { result.now ≡ self.now.values }
        ensures even { AreEven self.now }
    {
        &self.values
    }

    /// The numbers and the values.
    pub fn into_parts(self) -> (Vec<u64>, Column)
        ensures parts { rows_data result.0.items result.1 ≡ self }
        ensures even { length result.0.items ≡ length result.1.items }
    {
        let FileRows { numbers, values } = self;
        (numbers, values)
    }

    /// How many rows these are.
    pub fn len(&self) -> usize
        ensures { result ≡ length (row_items self.now) }
    {
        self.values.len()
    }

    /// Whether there is no row.
    pub fn is_empty(&self) -> bool
        ensures { result ≡ (length (row_items self.now) == 0) }
    {
        self.values.is_empty()
    }

    /// The first rows, at most so many.
    pub fn first(self, alloc: Global, most: usize) -> Result<FileRows, NoMemory>
        ensures { IfOk result (λ r. row_items r ≡ take most (row_items self)) }
    {
        if self.values.len() <= most {
            return Ok(self);
        }
        let FileRows { numbers, values } = self;
        let mut numbers = numbers;
        numbers.truncate(most);
        let values = values.slice(alloc, 0..most)?;
        Ok(FileRows { numbers, values })
    }
}
