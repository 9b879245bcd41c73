// What rows of a node give or lack.
ghost use Rattle.std.specs.Prelude.{◌≡◌, ◌≤◌, ◌+◌, length};
ghost use Rattle.scan_plans.specs.Came.{came};
ghost use Rattle.scan_plans.specs.Given.{Lacks, Gives};
ghost use Rattle.scan_plans.specs.Meaning.{Within, true_rows};

use crate::fault::ReadFault;
use crate::node::PlanNode;
use scan_columns::Column;
use scan_splits::{Inbox, WantedIds, Wants};
use scan_values::Mask;
use std::alloc::Global;

/// Values, or the ids of the segments that lack.
#[derive(Drop)]
pub enum Given {
    Ready(Column),
    Pending(WantedIds),
}

/// The ids of the segments that true rows want next and that have not arrived, if any. Where there are some, what has
/// arrived is looked at: a segment that is no good is told before others are waited for.
fn lacking(
    alloc: Global,
    node: &PlanNode,
    first: u64,
    mask: &Mask,
    inbox: &Inbox,
) -> Result<Option<WantedIds>, ReadFault>
    requires { Within node.now (first + length mask.now) }
    ensures { Lacks node.now (came inbox.now) (true_rows first mask.now) result }
{
    let mut wants = Wants::new(alloc);
    node.collect(alloc, first, mask, inbox, &mut wants)?;
    match wants.into_wanted() {
        Some(ids) => {
            let _some = ids.as_slice();
            node.check(alloc, first, mask, inbox)?;
            Ok(Some(ids))
        }
        None => Ok(None),
    }
}

/// The values at the true rows, of the rows from `first` on. Nothing is read before all that they want has arrived.
pub(crate) fn give(
    alloc: Global,
    node: &PlanNode,
    first: u64,
    mask: &Mask,
    inbox: &Inbox,
) -> Result<Given, ReadFault>
    requires { Within node.now (first + length mask.now) }
    ensures { Gives node.now (came inbox.now) (true_rows first mask.now) result }
{
    match lacking(alloc, node, first, mask, inbox)? {
        Some(ids) => Ok(Given::Pending(ids)),
        None => Ok(Given::Ready(node.read(alloc, first, mask, inbox)?)),
    }
}
