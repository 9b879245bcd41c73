// Cuts by their items.
ghost use Rattle.std.specs.Prelude.{◌≡◌, IfOk, map, length, []};
ghost use Rattle.scan_partition.specs.Partition.{added, groups_of, found};
ghost use Rattle.scan_partition.specs.Soles.{item_seen, cut_seen};
ghost use Rattle.scan_partition.specs.Planted.{numbered_cuts};
ghost use Rattle.scan_partition.specs.Plans.{group_seen, leaf_seen};
ghost use Rattle.scan_partition.specs.Places.{ArePlaced, index_of};

use crate::cuts::{Cut, ItemRef};
use crate::places::Places;
use scan_expr::BoundExpression;
use scan_values::NoMemory;
use std::alloc::Global;

/// An item, with the parts of an expression that use it.
#[derive(Drop)]
pub(crate) struct Group<'a> {
    pub(crate) item: ItemRef<'a>,
    pub(crate) parts: Vec<&'a BoundExpression>,
}

/// Where the root reads a part: of which item, and as which one.
#[derive(Clone, Copy)]
pub(crate) struct Leaf<'a> {
    pub(crate) item: ItemRef<'a>,
    pub(crate) number: usize,
}

/// The groups of an expression's parts, where each item's stands, and the leaves from left to right.
#[derive(Drop)]
pub(crate) struct Plan<'a> {
    pub(crate) groups: Vec<Group<'a>>,
    pub(crate) leaves: Vec<Leaf<'a>>,
    places: Places<'a>,
    ghost placed: { ArePlaced places (map group_seen groups.items) },
}

/// Puts a cut into its item's group, or begins one. Gives the number of the cuts that were there.
fn add<'a>(
    alloc: Global,
    groups: &mut Vec<Group<'a>>,
    places: &mut Places<'a>,
    cut: Cut<'a>,
) -> Result<usize, NoMemory>
    requires { ArePlaced places.old (map group_seen groups.old.items) }
    ensures placed { IfOk result (λ _. ArePlaced places.new (map group_seen groups.new.items)) }
    ensures groups { IfOk result (λ _. map group_seen groups.new.items ≡ added
        (item_seen cut.entry.item) cut.entry.expr.now.expr (map group_seen groups.old.items)) }
    ensures number { IfOk result (λ n. n ≡ length (found (item_seen cut.entry.item) (map group_seen groups.old.items))) }
{
    match places.get(cut.item) {
        Some(k) => {
            let number = groups[k].parts.len();
            groups[k].parts.push(cut.expr)?;
            Ok(number)
        }
        None => {
            let mut parts = Vec::with_capacity(alloc, 1)?;
            parts.push(cut.expr)?;
            places.set(cut.item, groups.len())?;
            groups.push(Group {
                item: cut.item,
                parts,
            })?;
            Ok(0)
        }
    }
}

/// The cuts by their items, and the leaf that each becomes.
pub(crate) fn planned<'a>(alloc: Global, cuts: &[Cut<'a>]) -> Result<Plan<'a>, NoMemory>
    ensures groups { IfOk result (λ p. map group_seen p.groups.items ≡ groups_of (map cut_seen cuts.now)) }
    ensures leaves { IfOk result (λ p. map leaf_seen p.leaves.items ≡ numbered_cuts [] (map cut_seen cuts.now)) }
{
    let mut groups = Vec::new(alloc);
    let mut places = Places::new(alloc);
    let mut leaves = Vec::with_capacity(alloc, cuts.len())?;
    for cut in cuts {
        let number = add(alloc, &mut groups, &mut places, *cut)?;
        leaves.push(Leaf {
            item: cut.item,
            number,
        })?;
    }
    Ok(Plan {
        groups,
        leaves,
        places,
    })
}

/// The place of an item's group.
pub(crate) fn group_place(plan: &Plan, item: ItemRef) -> Option<usize>
    ensures { result ≡ index_of (item_seen item.entry) (map group_seen plan.now.groups.items) }
{
    plan.places.get(item)
}
