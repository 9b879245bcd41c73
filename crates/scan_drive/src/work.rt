//! A split, as a drive over many files sees it. An own type, after the Rust's split tasks, which are async functions.
use scan_splits::{Inbox, Poll};
use scan_values::NoMemory;
use std::alloc::Global;

/// A split of a file: what gives its rows once its segments have arrived.
pub trait SplitWork {
    ghost use Rattle.std.specs.Prelude.{List};
    ghost use Rattle.scan_drive.specs.Files.{Item};
    ghost use Rattle.scan_segments.specs.Source.{Store};
    ghost use Rattle.scan_splits.specs.Arrivals.{Arrivals};
    ghost use Rattle.scan_drive.specs.Splits.{SplitState, Event};

    /// Rows, as it gives them. A worker may make them.
    type Rows: Drop + Send;

    /// The rows that are given.
    ghost items: { Self.Rows → List Item };

    /// Its rows over a store, whether it overflows there, and the ids that it may want.
    ghost split: { Self → SplitState Item };

    /// What it comes to under a store, once so much has arrived.
    ghost comes: { Self → Arrivals → Store → Event → Type 0 };

    ghost use Rattle.std.specs.Prelude.{◌≡◌, ◌≤◌, length, take, IfOk};
    ghost use Rattle.scan_drive.specs.Splits.{SameSplit, Polls};

    /// The rows, or what is wanted next. After any answer but `Pending` and `NoMemory` it is not to be polled again.
    fn poll(&mut self, alloc: Global, inbox: &Inbox) -> Poll<Self::Rows>
        ensures answer { Polls split comes items inbox.now self.old result }
        ensures same { SameSplit split comes inbox.now self.new self.old };

    /// How many rows it gives at most: all that it is about, where no filter has to tell which.
    fn most(&self, alloc: Global) -> Result<u64, NoMemory>
        ensures { IfOk result (λ n. (store : Store) → length ((split self.now).rows store) ≤ n) };

    /// How many rows these are.
    fn count(rows: &Self::Rows) -> usize
        ensures { result ≡ length (items rows.now) };

    /// The first rows of these, at most so many.
    fn first(alloc: Global, rows: Self::Rows, most: usize) -> Result<Self::Rows, NoMemory>
        ensures { IfOk result (λ r. items r ≡ take most (items rows)) };
}
