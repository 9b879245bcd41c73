//! Places, each once, grouped by their files.
ghost use Rattle.std.specs.Prelude.{◌≡◌, None, OnOk, IfOk};
ghost use Rattle.std.specs.FinMap as map;
ghost use Rattle.scan_lookup.specs.Grouped.{AreNumbered, AreGrouped, Adds, HasGroup, HasMore, HasNumbers, IsEmptyGroup};

use crate::numbers::Numbers;
use scan_places::Place;
use scan_values::NoMemory;
use std::alloc::Global;

/// Rows of a file, each once, and the number of each in their list.
#[derive(Drop)]
pub(crate) struct Group {
    pub(crate) file: usize,
    pub(crate) rows: Vec<u64>,
    numbers: Numbers,
}

/// Where the row of a place stands: the number of its group, and its number there.
#[derive(Clone, Copy, Debug, PartialEq, Eq)]
pub(crate) struct Slot {
    pub(crate) group: usize,
    pub(crate) place: usize,
}

/// Places by their files, in the order in which these were first named, and where the row of each place stands.
#[derive(Drop)]
pub(crate) struct Groups {
    pub(crate) groups: Vec<Group>,
    pub(crate) slots: Vec<Slot>,
}

/// A group of a file, without rows.
fn no_rows(alloc: Global, file: usize) -> Group
    ensures { IsEmptyGroup file result }
{
    Group {
        file,
        rows: Vec::new(alloc),
        numbers: Numbers::new(alloc),
    }
}

/// Adds a group without rows for a file that has none.
fn add_group(
    alloc: Global,
    groups: &mut Vec<Group>,
    numbers: &mut Numbers,
    file: usize,
) -> Result<usize, NoMemory>
    requires numbers { AreNumbered numbers.old groups.old.items }
    requires none { map.get numbers.old file ≡ None }
    ensures { IfOk result (λ n. HasGroup file n groups.old.items groups.new.items numbers.old numbers.new) }
{
    let number = groups.len();
    let group = no_rows(alloc, file);
    groups.push(group)?;
    numbers.add(file as u64, number)?;
    Ok(number)
}

/// The number of the group of a file, which is added where there is none.
fn group_of(
    alloc: Global,
    groups: &mut Vec<Group>,
    numbers: &mut Numbers,
    file: usize,
) -> Result<usize, NoMemory>
    requires { AreNumbered numbers.old groups.old.items }
    ensures { IfOk result (λ n. HasGroup file n groups.old.items groups.new.items numbers.old numbers.new) }
{
    match numbers.number(file as u64) {
        Some(number) => Ok(number),
        None => add_group(alloc, groups, numbers, file),
    }
}

/// Adds a row to a group that does not have it, and says its number there.
fn push_row(group: &mut Group, row: u64) -> Result<usize, NoMemory>
    requires numbers { HasNumbers group.old }
    requires none { map.get group.old.numbers row ≡ None }
    ensures { IfOk result (λ n. HasMore n row group.old group.new) }
{
    let number = group.rows.len();
    group.rows.push(row)?;
    group.numbers.add(row, number)?;
    Ok(number)
}

/// The number of a row in a group, to which it is added where it is not there.
fn add_row(group: &mut Group, row: u64) -> Result<usize, NoMemory>
    requires { HasNumbers group.old }
    ensures { IfOk result (λ n. HasMore n row group.old group.new) }
{
    match group.numbers.number(row) {
        Some(number) => Ok(number),
        None => push_row(group, row),
    }
}

/// Where the row of a place stands in the group of its file, to which it is added where it is not there.
fn add(
    alloc: Global,
    groups: &mut Vec<Group>,
    numbers: &mut Numbers,
    place: Place,
) -> Result<Slot, NoMemory>
    requires { AreNumbered numbers.old groups.old.items }
    ensures { IfOk result (λ s. Adds place groups.old.items groups.new.items numbers.old numbers.new s) }
{
    let group = group_of(alloc, groups, numbers, place.file)?;
    let own = &mut groups[group];
    let number = add_row(own, place.row)?;
    Ok(Slot {
        group,
        place: number,
    })
}

/// Places by their files, those that are repeated once. It costs two maps' logs a place.
pub(crate) fn grouped(alloc: Global, places: &[Place]) -> Result<Groups, NoMemory>
    ensures { IfOk result (λ g. AreGrouped places.now g.groups.items g.slots.items) }
{
    let mut groups = Vec::new(alloc);
    let mut numbers = Numbers::new(alloc);
    let mut slots = Vec::with_capacity(alloc, places.len())?;
    for i in 0..places.len() {
        let slot = add(alloc, &mut groups, &mut numbers, places[i])?;
        slots.push(slot)?;
    }
    Ok(Groups { groups, slots })
}
