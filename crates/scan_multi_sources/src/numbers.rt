//! Which of the delivered files are given, by their numbers. After the Rust's `scan::multi`.
ghost use Rattle.std.specs.Prelude.{◌≡◌, IfOk};
ghost use Rattle.scan_multi_sources.specs.Numbers.{is_given, is_within};
ghost use Rattle.scan_values.specs.Selections.{selects};

use scan_expr::ScanRequest;
use scan_values::{NoMemory, Selection};
use std::alloc::Global;
use std::ops::Range;

/// The restriction of a request to partitions of these numbers.
#[derive(Drop)]
pub(crate) struct PartitionNumbers {
    pub range: Option<Range<u64>>,
    pub selection: Selection,
}

impl PartitionNumbers {
    /// Those of a request.
    pub fn of(alloc: Global, request: &ScanRequest) -> Result<PartitionNumbers, NoMemory>
        ensures { IfOk result (λ n. n ≡ record {
          range = request.now.partition_range;
          selection = request.now.partition_selection;
        }) }
    {
        let range = match &request.partition_range {
            Some(range) => Some(range.start..range.end),
            None => None,
        };
        let selection = request.partition_selection.try_clone(alloc)?;
        Ok(PartitionNumbers { range, selection })
    }

    /// Whether the file of a number is given.
    pub fn has(&self, number: u64) -> bool
        ensures { result ≡ is_given self.now number }
    {
        is_within(&self.range, number) & is_selected(&self.selection, number)
    }
}

/// Whether a number lies in a range, or in all.
fn is_within(range: &Option<Range<u64>>, number: u64) -> bool
    ensures { result ≡ is_within range.now number }
{
    match range {
        Some(range) => (range.start <= number) & (number < range.end),
        None => true,
    }
}

/// Whether a selection has a number.
fn is_selected(selection: &Selection, number: u64) -> bool
    ensures { result ≡ selects selection.now number }
{
    match selection {
        Selection::All => true,
        Selection::IncludeByIndex(numbers) => numbers.contains(number),
        Selection::ExcludeByIndex(numbers) => !numbers.contains(number),
    }
}
