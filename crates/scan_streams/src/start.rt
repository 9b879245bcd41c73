// The slots of splits that are started.
ghost use Rattle.std.specs.Prelude.{◌≡◌, ◌≤◌, ◌++◌, ◌∷◌, [], IfOk, OnOk, length};
ghost use Rattle.scan_streams.specs.Readings.{Starts, Takes, next_slot, later, news_of};
ghost use Rattle.scan_streams.specs.Slots.{is_done, slot_at};

use crate::queue::SplitQueue;
use crate::run::Run;
use crate::slot::Slot;
use scan_columns::Column;
use scan_values::NoMemory;
use std::alloc::Global;
use std::collections::VecDeque;

/// The next split in order, started, for a slot that then has news; none where all are started.
fn next_split(
    alloc: Global,
    queue: &mut SplitQueue,
    news: &mut VecDeque<usize>,
    place: usize,
) -> Result<Slot, NoMemory>
    ensures slot { IfOk result (λ s. s ≡ next_slot queue.old) }
    ensures queue { OnOk result (queue.new ≡ later queue.old) }
    ensures news { OnOk result (news.new.items ≡ news.old.items ++ news_of queue.old place) }
{
    let Some(future) = queue.pop(alloc)? else {
        return Ok(Slot::Empty);
    };
    news.push_back(place)?;
    Ok(Slot::Run(Run::new(alloc, future)))
}

/// Starts so many splits, each in a slot of its own.
pub(crate) fn start_all(
    alloc: Global,
    slots: &mut Vec<Slot>,
    queue: &mut SplitQueue,
    news: &mut VecDeque<usize>,
    count: usize,
) -> Result<(), NoMemory>
    requires none { slots.old.items ≡ [] }
    requires count { count ≤ length queue.old }
    ensures { OnOk result (Starts count queue.old slots.new.items queue.new news.new.items) }
{
    for place in 0..count {
        let slot = next_split(alloc, queue, news, place)?;
        slots.push(slot)?;
    }
    Ok(())
}

/// The array in a slot, where there is one. Its slot goes to the next split.
pub(crate) fn take(
    alloc: Global,
    slots: &mut Vec<Slot>,
    queue: &mut SplitQueue,
    news: &mut VecDeque<usize>,
    place: usize,
) -> Result<Option<Column>, NoMemory>
    ensures { IfOk result (λ o. Takes place slots.old.items slots.new.items queue.old queue.new
        news.old.items news.new.items o) }
{
    match slots.get(place) {
        Some(Slot::Done(_)) => {}
        _ => return Ok(None),
    }
    let next = next_split(alloc, queue, news, place)?;
    let given = std::mem::replace(&mut slots[place], next);
    Ok(given.into_array())
}
