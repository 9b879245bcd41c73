// How many elements lists have, by where these end, as a run of numbers.
ghost use Rattle.std.specs.Prelude.{◌≡◌, ◌<◌, ◌^◌, IfOk, IsTrue, length, map, pos};
ghost use Rattle.scan_columns.specs.Nested.{sizes, sums, Rises};
ghost use Rattle.scan_plans.specs.ListItems.{last_from, last_in};

use std::alloc::{AllocError, Global};

/// Whether where the last list ends is a number of an i64.
#[tactic(auto, using(crate::proofs::ListCells::last_is))]
pub(crate) fn are_near(offsets: &[u64]) -> bool
    requires { 0 < length offsets.now }
    ensures { IsTrue result → last_in offsets.now < 2 ^ 63 }
{
    offsets[offsets.len() - 1] <= 9_223_372_036_854_775_807
}

/// How many elements each list has, by where the first begins and each ends, written over others.
fn written_sizes(made: Vec<i64>, start: u64, ends: &[u64]) -> Vec<i64>
    requires rises { Rises start ends.now }
    requires low { last_from start ends.now < 2 ^ 63 }
    requires length { length made.items ≡ length ends.now }
    ensures { result.items ≡ map pos (sizes start ends.now) }
{
    let mut made = made;
    let mut before = start;
    for i in 0..ends.len() {
        let end = ends[i];
        made[i] = (end - before) as i64;
        before = end;
    }
    made
}

/// How many elements each list has, by where the first begins and each ends.
pub(crate) fn sizes_of(alloc: Global, start: u64, ends: &[u64]) -> Result<Vec<i64>, AllocError>
    requires rises { Rises start ends.now }
    requires low { last_from start ends.now < 2 ^ 63 }
    ensures { IfOk result (λ v. v.items ≡ map pos (sizes start ends.now)) }
{
    let made = vec![in alloc; 0; ends.len()]?;
    Ok(written_sizes(made, start, ends))
}

/// Where each list ends, by where the first begins and each ends, as if the first began at 0.
#[tactic(auto, using(crate::proofs::LastOffsets::sums_are))]
pub(crate) fn ends_from(alloc: Global, start: u64, ends: &[u64]) -> Result<Vec<usize>, AllocError>
    requires { Rises start ends.now }
    ensures { IfOk result (λ v. v.items ≡ sums 0 (sizes start ends.now)) }
{
    ends.iter()
        .map(|end| end.saturating_sub(start) as usize)
        .collect(alloc)
}
