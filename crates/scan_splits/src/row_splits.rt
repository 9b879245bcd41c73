//! Rows at which a scan is split. After the Rust's `reader`.
ghost use Rattle.std.specs.Prelude.{◌≡◌, ◌++◌, ◌∷◌, [], IfOk, OnOk, OnErr, true};
ghost use Rattle.std.specs.List.Sorted.{IsSorted, IsStrictlyIncreasing};
ghost use Rattle.std.specs.Ordering.{nat_cmp};
ghost use Rattle.scan_splits.specs.RowLists.{never_falls, SameNumbers};

use scan_values::NoMemory;
use std::alloc::Global;
use std::marker::Model;

/// Rows of the root at which a scan is split. Contracts see the list of the rows that were pushed.
#[derive(Drop)]
pub struct RowSplits {
    rows: Vec<u64>,
    // Whether no row was below the one before.
    rising: bool,
}

impl Model for RowSplits {
    ghost use Rattle.std.specs.Prelude.{◌≡◌, List, ℕ, true};
    ghost use Rattle.scan_splits.specs.RowLists.{never_falls};

    ghost Value = { List ℕ };

    ghost view = { λ a. a.rows.items };

    ghost invariant = { λ a. a.rising ≡ true → never_falls a.rows.items ≡ true };
}

impl RowSplits {
    /// No rows, with room for so many.
    pub fn new_capacity(alloc: Global, n: usize) -> Result<Self, NoMemory>
        ensures { IfOk result (λ s. s ≡ []) }
    {
        let rows = Vec::with_capacity(alloc, n)?;
        Ok(RowSplits { rows, rising: true })
    }

    /// One more row. After a refusal the rows are as before.
    pub fn push(&mut self, row: u64) -> Result<(), NoMemory>
        ensures ok { OnOk result (self.new ≡ self.old ++ row ∷ []) }
        ensures err { OnErr result (self.new ≡ self.old) }
    {
        let goes_on = follows(&self.rows, row);
        if self.rows.push(row).is_err() {
            return Err(NoMemory);
        }
        self.rising = self.rising && goes_on;
        Ok(())
    }

    /// More rows, none of which is below the one before. After a refusal the rows are as before.
    #[tactic(auto, using(crate::proofs::Rising::goes_on_at))]
    pub fn extend_ascending(&mut self, rows: &[u64]) -> Result<(), NoMemory>
        requires { never_falls rows.now ≡ true }
        ensures ok { OnOk result (self.new ≡ self.old ++ rows.now) }
        ensures err { OnErr result (self.new ≡ self.old) }
    {
        let Some(first) = rows.first() else {
            return Ok(());
        };
        let goes_on = follows(&self.rows, *first);
        if self.rows.extend_from_slice(rows).is_err() {
            return Err(NoMemory);
        }
        self.rising = self.rising && goes_on;
        Ok(())
    }

    /// Room for so many more rows. The rows are as before.
    pub fn reserve(&mut self, additional: usize) -> Result<(), NoMemory>
        ensures { self.new ≡ self.old }
    {
        if self.rows.reserve(additional).is_err() {
            return Err(NoMemory);
        }
        Ok(())
    }

    /// The rows that were pushed, each once, each above the one before. They are sorted only where a push fell below
    /// the one before it.
    pub fn into_sorted_deduped(self) -> Vec<u64>
        ensures rising { IsStrictlyIncreasing result.items }
        ensures same { SameNumbers result.items self }
    {
        let RowSplits { rows, rising } = self;
        let mut rows = sorted(rows, rising);
        rows.dedup();
        rows
    }
}

// The rows in order. They need no sort where they rise already.
#[tactic(auto, using(crate::proofs::Rising::rises_already, crate::proofs::Rising::moved))]
fn sorted(rows: Vec<u64>, rising: bool) -> Vec<u64>
    requires { rising ≡ true → never_falls rows.items ≡ true }
    ensures order { IsSorted nat_cmp result.items }
    ensures same { SameNumbers result.items rows.items }
{
    let mut rows = rows;
    if !rising {
        rows.sort_unstable();
    }
    rows
}

// Whether a row is not below the last one.
#[tactic(auto, using(crate::proofs::Rising::goes_on_last))]
fn follows(rows: &Vec<u64>, row: u64) -> bool
    ensures { result ≡ true → never_falls rows.now.items ≡ true → never_falls (rows.now.items ++ row ∷ []) ≡ true }
{
    match rows.last() {
        Some(last) => *last <= row,
        None => true,
    }
}
