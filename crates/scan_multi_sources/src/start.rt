//! Scans of many files at their start. After the Rust's `scan::multi`.
ghost use Rattle.std.specs.Prelude.{◌≡◌, ◌++◌, ◌<◌, IfOk, IfSome, Err, false, map};
ghost use Rattle.std.specs.Borrow.{sem, RestsIfErr};
ghost use Rattle.scan_sources.specs.Faults.{Refuses};
ghost use Rattle.scan_sources.specs.Requests.{IsBoundOver, bound_request};
ghost use Rattle.scan_multi_sources.specs.Beginnings.{MayBegin};
ghost use Rattle.scan_multi_sources.specs.ChildView.{child_data};
ghost use Rattle.scan_multi_sources.specs.FileFaults.{is_reversed};
ghost use Rattle.scan_multi_sources.specs.contracts.source.MultiLayoutDataSource.{the_row};
ghost use Rattle.scan_multi_sources.specs.Starts.{StartsMulti, first_places, limit_shared, multi_refusal, number_refusal, numbers_of, places_of};

use crate::child::MultiLayoutChild;
use crate::numbers::PartitionNumbers;
use crate::scan::MultiLayoutScan;
use crate::source::MultiLayoutDataSource;
use scan_expr::ScanRequest;
use scan_sources::{BoundScanRequest, SharedLimit, SourceFault, shared};
use scan_values::NoMemory;
use std::alloc::Global;
use std::collections::VecDeque;
use std::ops::Range;

/// What a scan of a source begins with.
#[derive(Drop)]
pub(crate) struct ScanStart {
    pub request: BoundScanRequest,
    pub numbers: PartitionNumbers,
    pub waiting: VecDeque<usize>,
    pub row_limit: Option<SharedLimit>,
}

impl<O: Drop> MultiLayoutDataSource<O> {
    /// A scan of what is asked for, of each file. It holds the source: once it is dropped the source has its files again,
    /// as the scan's polls left their openers.
    ///
    /// # Errors
    /// The first that holds, and exactly then, unless memory runs out before: `Concurrency` where it is 0; `RowRange`
    /// where the range is reversed; `Bind` with the first fault of the projection, then of the filter, then `NotBool`. The
    /// first two take no memory. Else `NoMemory` alone. Each leaves the source as it was.
    pub fn scan(
        &mut self,
        alloc: Global,
        request: ScanRequest,
    ) -> Result<MultiLayoutScan<'_, O>, SourceFault>
        ensures* rests { sem 𝓛 (RestsIfErr (the_row O.row) self.entry (λ s. s.source.ghost_name) result
            (λ last. last ≡ self.old)) }
        ensures same_reference { IfOk result (λ s. s.source.ghost_name ≡ self.entry.ghost_name) }
        ensures numbers { IfSome (number_refusal self.old.concurrency request.row_range) (λ f. result ≡ Err f) }
        ensures fault { Refuses result (multi_refusal self.old request) }
        ensures scan { IfOk result (λ s. StartsMulti self.old
            (bound_request self.old.dtype request) (numbers_of request) s.files) }
    {
        let start = self.start(alloc, request)?;
        Ok(MultiLayoutScan::new(alloc, self, start))
    }

    /// What a scan of what is asked for begins with.
    fn start(&self, alloc: Global, request: ScanRequest) -> Result<ScanStart, SourceFault>
        ensures numbers { IfSome (number_refusal self.now.concurrency request.row_range) (λ f. result ≡ Err f) }
        ensures fault { Refuses result (multi_refusal self.now request) }
        ensures asked { IfOk result (λ s. (s.request ≡ bound_request self.now.dtype request)
            × (s.numbers ≡ numbers_of request)) }
        ensures may { IfOk result (λ s. MayBegin self.now s) }
    {
        if self.concurrency == 0 {
            return Err(SourceFault::Concurrency);
        }
        if is_reversed(&request.row_range) {
            return Err(SourceFault::RowRange);
        }
        let numbers = PartitionNumbers::of(alloc, &request)?;
        let request = BoundScanRequest::try_new(alloc, request, &self.dtype)?;
        Ok(start_of(alloc, self, request, numbers)?)
    }
}

/// What a scan begins with that may begin.
fn start_of<O: Drop>(
    alloc: Global,
    source: &MultiLayoutDataSource<O>,
    request: BoundScanRequest,
    numbers: PartitionNumbers,
) -> Result<ScanStart, NoMemory>
    requires some { 0 < source.now.concurrency }
    requires over { IsBoundOver source.now.dtype request }
    requires forward { is_reversed request.row_range ≡ false }
    ensures asked { IfOk result (λ s. (s.request ≡ request) × (s.numbers ≡ numbers)) }
    ensures may { IfOk result (λ s. MayBegin source.now s) }
{
    let row_limit = shared(alloc, limit_shared(&request))?;
    let waiting = first_places(alloc, &source.children)?;
    Ok(ScanStart {
        request,
        numbers,
        waiting,
        row_limit,
    })
}

/// The limit that partitions share: that of a scan in any order.
fn limit_shared(request: &BoundScanRequest) -> Option<u64>
    ensures { result ≡ limit_shared request.now }
{
    if request.ordered {
        return None;
    }
    request.limit
}

/// The places of files in the order in which they come: first those that are opened.
fn first_places<O>(
    alloc: Global,
    children: &[MultiLayoutChild<O>],
) -> Result<VecDeque<usize>, NoMemory>
    ensures { IfOk result (λ v. v.items ≡ first_places (map child_data children.now)) }
{
    let mut places = VecDeque::with_capacity(alloc, children.len())?;
    push_places(&mut places, children, true)?;
    push_places(&mut places, children, false)?;
    Ok(places)
}

/// Adds the places of the files that are opened, or of those that are not.
fn push_places<O>(
    places: &mut VecDeque<usize>,
    children: &[MultiLayoutChild<O>],
    want: bool,
) -> Result<(), NoMemory>
    ensures { IfOk result (λ _. places.new.items ≡ places.old.items ++ places_of want (map child_data children.now) 0) }
{
    for place in 0..children.len() {
        if !children[place].is_opened(want) {
            continue;
        }
        places.push_back(place)?;
    }
    Ok(())
}

/// Whether a range is reversed.
fn is_reversed(range: &Option<Range<u64>>) -> bool
    ensures { result ≡ is_reversed range.now }
{
    match range {
        Some(range) => range.end < range.start,
        None => false,
    }
}
