//! The slots of the splits in progress. An own type: the Rust buffers tasks.
ghost use Rattle.std.specs.Prelude.{◌≡◌, ◌≤◌, ◌+◌, true, false, IfOk, OnOk, MatchOption, length};
ghost use Rattle.scan_values.specs.Selections.{is_among};
ghost use Rattle.scan_splits.specs.Wanted.{no_repeats};
ghost use Rattle.scan_streams.specs.Measures.{slots_steps};
ghost use Rattle.scan_streams.specs.Slots.{slot_at, slot_waits, is_fresh, is_done, handed, handed_all, AllWait, HasNews, also_if};
ghost use Rattle.scan_streams.specs.declared.slot.Slot.TheVariants as slot;

use crate::run::Run;
use scan_columns::Column;
use scan_segments::SegmentId;
use scan_splits::Arrival;
use scan_values::NoMemory;
use std::collections::VecDeque;

/// A place for a split in progress: none, one that is being read, or the array of one that is read, kept as a column.
pub enum Slot {
    Empty,
    Run(Run),
    Done(Column),
}

impl Drop for Slot {
    fn drop(self) {
        match self {
            Slot::Empty => {}
            Slot::Run(_) => {}
            Slot::Done(_) => {}
        }
    }
}

impl Slot {
    /// The array of a split that is read.
    pub(crate) fn into_array(self) -> Option<Column>
        ensures { MatchOption result (is_done self ≡ false) (λ a. self ≡ slot.Done a) }
    {
        match self {
            Slot::Done(array) => Some(array),
            Slot::Empty | Slot::Run(_) => None,
        }
    }
}

/// What arrived, shared.
fn share(arrival: &Arrival) -> Result<Arrival, NoMemory>
    ensures { IfOk result (λ a. a ≡ arrival.now) }
{
    match arrival {
        Arrival::Bytes(bytes) => match bytes.try_clone() {
            Ok(shared) => Ok(Arrival::Bytes(shared)),
            Err(_) => Err(NoMemory),
        },
        Arrival::Missing => Ok(Arrival::Missing),
    }
}

/// Hands what arrived of an id to the split that waits for it, and answers whether the split waits for nothing now.
fn hand_one(slot: &mut Slot, id: SegmentId, arrival: &Arrival) -> Result<bool, NoMemory>
    requires { slot_waits slot.old id ≡ true }
    ensures ok { OnOk result (slot.new ≡ handed id arrival.now slot.old) }
    ensures fresh { IfOk result (λ b. b ≡ is_fresh slot.new) }
{
    match slot {
        Slot::Run(run) => run.deliver(id, share(arrival)?),
        Slot::Empty | Slot::Done(_) => unreachable!(),
    }
}

/// Lists a place, where it is to be.
pub(crate) fn list_if(yes: bool, place: usize, list: &mut VecDeque<usize>) -> Result<(), NoMemory>
    ensures { OnOk result (list.new.items ≡ also_if yes place list.old.items) }
{
    if !yes {
        return Ok(());
    }
    list.push_back(place)?;
    Ok(())
}

/// Hands what arrived of an id to the splits at these places, which wait for it. Those that wait for nothing now have news.
pub(crate) fn hand(
    slots: &mut Vec<Slot>,
    places: &[usize],
    id: SegmentId,
    arrival: &Arrival,
    news: &mut VecDeque<usize>,
) -> Result<(), NoMemory>
    requires wait { AllWait id places.now slots.old.items }
    requires distinct { no_repeats places.now ≡ true }
    ensures slots { OnOk result (slots.new.items ≡ handed_all id arrival.now places.now slots.old.items) }
    ensures news { OnOk result (HasNews slots.old.items news.old.items → HasNews slots.new.items news.new.items) }
    ensures steps { OnOk result (slots_steps slots.new.items + length news.new.items + length places.now
        ≤ slots_steps slots.old.items + length news.old.items) }
{
    for place in places {
        let ready = hand_one(&mut slots[*place], id, arrival)?;
        list_if(ready, *place, news)?;
    }
    Ok(())
}
