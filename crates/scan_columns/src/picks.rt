// Columns picked by their places, each moved at its last use.
ghost use Rattle.std.specs.Prelude.{◌≡◌, ◌<◌, ◌++◌, ℕ, List, [], IfOk, length, map, get_or, true, false, nat_eq};
ghost use Rattle.std.specs.List.{list_any};
ghost use Rattle.scan_columns.specs.Cells.{vals_in};
ghost use Rattle.scan_columns.specs.Rows.{picked, AreBelow};
ghost use Rattle.scan_columns.specs.LastUses.{AreLast};

use crate::cells::Cells;
use scan_values::{NoMemory, Values};
use std::alloc::Global;
use std::mem;

/// The columns, and then the others.
pub(crate) fn followed(columns: Vec<Cells>, others: Vec<Cells>) -> Result<Vec<Cells>, NoMemory>
    ensures { IfOk result (λ v. map vals_in v.items ≡ map vals_in columns.items ++ map vals_in others.items) }
{
    let mut made = columns;
    for other in others {
        made.push(other)?;
    }
    Ok(made)
}

/// For each of so many columns the number of the last of these places that is its own.
fn last_uses(alloc: Global, places: &[usize], count: usize) -> Result<Vec<usize>, NoMemory>
    requires { AreBelow count places.now }
    ensures count { IfOk result (λ v. length v.items ≡ count) }
    ensures last { IfOk result (λ v. AreLast places.now v.items) }
{
    let mut last = vec![in alloc; 0usize; count]?;
    for i in 0..places.len() {
        last[places[i]] = i;
    }
    Ok(last)
}

/// The columns at these places, in that order: each moved at its last use, and copied at those before.
pub(crate) fn picked(
    alloc: Global,
    columns: &mut [Cells],
    places: &[usize],
) -> Result<Vec<Cells>, NoMemory>
    requires { AreBelow (length (map vals_in columns.old)) places.now }
    ensures { IfOk result (λ v. map vals_in v.items ≡ picked (map vals_in columns.old) places.now) }
{
    let last = last_uses(alloc, places, columns.len())?;
    let mut made = Vec::with_capacity(alloc, places.len())?;
    for (i, place) in places.iter().enumerate() {
        let is_last = last[*place] == i;
        made.push(at_place(alloc, columns, *place, is_last)?)?;
    }
    Ok(made)
}

/// The column at a place: moved where it is used no more, else copied.
fn at_place(
    alloc: Global,
    columns: &mut [Cells],
    place: usize,
    is_last: bool,
) -> Result<Cells, NoMemory>
    requires { place < length columns.old }
    ensures cells { IfOk result (λ c. vals_in c ≡ get_or (map vals_in columns.old) place []) }
    ensures count { length columns.new ≡ length columns.old }
    ensures later { (ps : List ℕ) → (is_last ≡ true → list_any (λ p. nat_eq p place) ps ≡ false)
        → picked (map vals_in columns.new) ps ≡ picked (map vals_in columns.old) ps }
{
    if !is_last {
        return columns[place].try_clone(alloc);
    }
    let none = Cells::Values(Values::new(Vec::new(alloc)));
    Ok(mem::replace(&mut columns[place], none))
}
