//! Numbers of calls.
ghost use Rattle.std.specs.Prelude.{◌≡◌, []};

use std::alloc::Global;
use vortex_scan::scan::StrictSorted;

/// No numbers of calls: nothing fails by a script.
pub(crate) fn never(alloc: Global) -> StrictSorted
    ensures { result ≡ [] }
{
    StrictSorted::try_new(Vec::new(alloc)).unwrap()
}
