//! Arrays that may have to wait. An own type, after the Rust's `ArrayFuture`.
ghost use Rattle.std.specs.Prelude.{◌≡◌, ◌≤◌, ◌+◌, ◌^◌, ◌∷◌, ℕ, List, [], IfOk, Ok, Err, None, false, get_or, length, map, not};
ghost use Rattle.std.specs.List.{list_all};
ghost use Rattle.scan_values.specs.Arrays.{ArrayData};
ghost use Rattle.scan_values.specs.DataType.{with_nullability};
ghost use Rattle.scan_values.specs.Val.{marked};
ghost use Rattle.scan_values.specs.declared.ptype.Nullability.{Nullability};
ghost use Rattle.scan_segments.specs.Source.{Store};
ghost use Rattle.scan_plans.specs.Came.{Came, came};
ghost use Rattle.scan_plans.specs.FutureView.{source_tree, source_first, source_mask};
ghost use Rattle.scan_plans.specs.Futures.{FutureData, future_data, array_data, masked_data, future_dtype, future_wanted, future_may, items_of, known_rows, masks_in, rows_of, SameFuture};
ghost use Rattle.scan_plans.specs.Given.{Gives};
ghost use Rattle.scan_plans.specs.Knowing.{Knows};
ghost use Rattle.scan_plans.specs.MaskLists.{can_run, nulled, SameMasks};
ghost use Rattle.scan_plans.specs.Masks.{MaskData, mask_of, SameMask};
ghost use Rattle.scan_plans.specs.Meaning.{Within, true_rows};
ghost use Rattle.scan_plans.specs.PlanTree.{PlanTree};
ghost use Rattle.scan_plans.specs.Polled.{HasRun, Polls, KnowsRows};
ghost use Rattle.scan_plans.specs.Projecting.{KnowsAll, IsUnder, padded, as_given, Projects, KnowsItems};

use crate::fault::ReadFault;
use crate::given::{Given, give};
use crate::mask::MaskFuture;
use crate::plan::Plan;
use scan_columns::Column;
use scan_splits::{Inbox, Poll, WantedIds};
use scan_values::{Array, Mask, NoMemory};
use std::alloc::Global;
use std::marker::Model;
use std::ops::Range;
use std::sync::Arc;

/// What gives the values of a future: a plan, from a row on, under a mask; or an array that is there.
pub(crate) enum Source {
    Plan(Arc<Plan>, u64, MaskFuture),
    Array(Array),
}

impl Drop for Source {
    fn drop(self) {
        match self {
            Source::Plan(_, _, _) => {}
            Source::Array(_) => {}
        }
    }
}

/// A column, or the ids of the segments that lack.
#[derive(Drop)]
pub enum Items {
    Ready(Column),
    Pending(WantedIds),
}

/// A projection of a plan under a mask, or an array, and the masks outside which its items are null: a request, of
/// which what is known of the masks is kept. Contracts see the plan, its row at which the mask begins, and the masks.
#[derive(Drop)]
pub struct ArrayFuture {
    source: Source,
    outer: Vec<MaskFuture>,
}

impl Model for ArrayFuture {
    ghost use Rattle.scan_plans.specs.Futures.{FutureData, future_code, IsFuture, InNumbers};

    ghost Value = { FutureData };

    ghost coded = { future_code };

    ghost use Rattle.scan_plans.specs.FutureView.{future_of};

    ghost view = { λ a. future_of a.source a.outer.items };

    ghost invariant = { λ a. record {
      within : IsFuture (future_of a.source a.outer.items);
      numbers : InNumbers (future_of a.source a.outer.items);
    } };
}

impl Plan {
    /// The values of the plan at a mask's true rows of a range.
    pub fn project(
        plan: &Arc<Plan>,
        range: &Range<u64>,
        mask: MaskFuture,
    ) -> Result<ArrayFuture, NoMemory>
        requires rows { Within (plan.now.value).tree range.now.end }
        requires length { range.now.start + length mask.known ≡ range.now.end }
        ensures { IfOk result (λ f. f ≡ future_data plan.now.value range.now.start mask) }
    {
        let alloc = mask.alloc();
        let _end = range.end;
        Ok(ArrayFuture {
            source: Source::Plan(plan.clone()?, range.start, mask),
            outer: Vec::new(alloc),
        })
    }
}

impl Source {
    /// Runs filters of its mask until one lacks something: the ids that lack, or none where the mask is known.
    fn know(&mut self, alloc: Global, inbox: &Inbox) -> Result<Option<WantedIds>, ReadFault>
        ensures tree { source_tree self.new ≡ source_tree self.old }
        ensures first { source_first self.new ≡ source_first self.old }
        ensures length { length (source_mask self.new).known ≡ length (source_mask self.old).known }
        ensures same { SameMask (came inbox.now) (source_mask self.new) (source_mask self.old) }
        ensures answer { Knows (came inbox.now) (source_mask self.old) (source_mask self.new) result }
        ensures run { IfOk result (λ _. can_run (came inbox.now) (source_mask self.new ∷ []) ≡ false) }
    {
        match self {
            Source::Plan(_, _, mask) => mask.know(alloc, inbox),
            Source::Array(_) => Ok(None),
        }
    }

    /// The values at the true rows of what is known of its mask.
    fn give(&self, alloc: Global, inbox: &Inbox) -> Result<Items, ReadFault>
        requires { Within (source_tree self.now) (source_first self.now + length (source_mask self.now).known) }
        ensures { Gives (source_tree self.now) (came inbox.now)
            (true_rows (source_first self.now) (source_mask self.now).known) (as_given result) }
    {
        match self {
            Source::Plan(plan, first, mask) => {
                let given = give(alloc, plan.node(), *first, mask.known(), inbox)?;
                Ok(as_items(given))
            }
            Source::Array(array) => Ok(Items::Ready(column_of(alloc, array)?)),
        }
    }

    /// Whether no row is true of what is known of its mask.
    fn is_empty(&self) -> bool
        ensures { result ≡ list_all not (source_mask self.now).known }
    {
        match self {
            Source::Plan(_, _, mask) => mask.known().all_false(),
            Source::Array(array) => array.is_empty(),
        }
    }

    /// The numbers of the true rows of what is known of its mask.
    fn rows(&self, alloc: Global) -> Result<Vec<u64>, NoMemory>
        requires { source_first self.now + length (source_mask self.now).known ≤ 2 ^ 64 }
        ensures { IfOk result (λ v. v.items ≡ true_rows (source_first self.now) (source_mask self.now).known) }
    {
        match self {
            Source::Plan(_, first, mask) => true_numbers(alloc, *first, mask.known().as_slice()),
            Source::Array(array) => {
                let all = Mask::new_true(alloc, array.len())?;
                true_numbers(alloc, 0, all.as_slice())
            }
        }
    }
}

/// The numbers of the true rows of a mask that begins at a row, written over others without a branch.
fn written_rows(rows: Vec<u64>, first: u64, bits: &[bool]) -> Vec<u64>
    requires within { first + length bits.now ≤ 2 ^ 64 }
    requires length { length rows.items ≡ length bits.now }
    ensures { result.items ≡ true_rows first bits.now }
{
    let mut rows = rows;
    let mut count = 0;
    for i in 0..bits.len() {
        rows[count] = first + i as u64;
        count += bits[i] as usize;
    }
    rows.truncate(count);
    rows
}

/// The numbers of the true rows of a mask that begins at a row.
fn true_numbers(alloc: Global, first: u64, bits: &[bool]) -> Result<Vec<u64>, NoMemory>
    requires { first + length bits.now ≤ 2 ^ 64 }
    ensures { IfOk result (λ v. v.items ≡ true_rows first bits.now) }
{
    let rows = vec![in alloc; 0; bits.len()]?;
    let mut rows = written_rows(rows, first, bits);
    rows.shrink_to_fit();
    Ok(rows)
}

/// A column of an array's values.
fn column_of(alloc: Global, array: &Array) -> Result<Column, NoMemory>
    ensures { IfOk result (λ c. c ≡ array.now) }
{
    let copy = array.try_clone(alloc)?;
    Column::from_array(alloc, copy)
}

/// What a plan gives, as what a future gives.
fn as_items(given: Given) -> Items
    ensures { (p : PlanTree) (here : Came) (is : List ℕ) → Gives p here is (Ok given) → Gives p here is (as_given (Ok result)) }
{
    match given {
        Given::Ready(column) => Items::Ready(column),
        Given::Pending(ids) => Items::Pending(ids),
    }
}

/// Runs filters of masks, in order, until one lacks something: the ids that lack, or none where all masks are known.
fn know_all(
    masks: &mut [MaskFuture],
    alloc: Global,
    inbox: &Inbox,
) -> Result<Option<WantedIds>, ReadFault>
    ensures same { SameMasks (came inbox.now) masks.new masks.old }
    ensures answer { KnowsAll (came inbox.now) masks.old masks.new result }
    ensures run { IfOk result (λ _. can_run (came inbox.now) masks.new ≡ false) }
{
    for mask in masks.iter_mut() {
        if let Some(ids) = mask.know(alloc, inbox)? {
            return Ok(Some(ids));
        }
    }
    Ok(None)
}

/// The bit of a row, false past the mask's end.
fn bit_at(bits: &[bool], i: usize) -> bool
    ensures { result ≡ get_or bits.now i false }
{
    i < bits.len() && bits[i]
}

/// So many bits of a mask, false past its end.
fn fitted(alloc: Global, mask: &Mask, len: usize) -> Result<Mask, NoMemory>
    ensures { IfOk result (λ m. m ≡ padded len mask.now) }
{
    let bits = mask.as_slice();
    let mut made = Vec::with_capacity(alloc, len)?;
    for i in 0..len {
        made.push(bit_at(bits, i))?;
    }
    Ok(Mask::from_bools(made))
}

/// A column, null outside what is known of masks.
fn under(alloc: Global, column: Column, masks: &[MaskFuture]) -> Result<Column, NoMemory>
    ensures { IfOk result (λ a. IsUnder masks.now column a) }
{
    let mut masked = column;
    for mask in masks {
        let bits = fitted(alloc, mask.known(), masked.len())?;
        masked = masked.mask(alloc, &bits)?;
    }
    Ok(masked)
}

impl ArrayFuture {
    /// An array that is there. It wants nothing.
    pub fn ready(alloc: Global, array: Array) -> ArrayFuture
        ensures answer { result ≡ array_data array }
        ensures dtype { future_dtype result ≡ array.dtype }
        ensures items { (store : Store) → items_of result store ≡ map marked array.items }
        ensures wants { (here : Came) → future_wanted result here ≡ [] }
        ensures may { future_may result ≡ [] }
    {
        let _count = array.len();
        ArrayFuture {
            source: Source::Array(array),
            outer: Vec::new(alloc),
        }
    }

    /// The array, null outside a mask. An item past the mask's end is outside it.
    pub fn masked(self, mask: MaskFuture) -> Result<ArrayFuture, NoMemory>
        ensures answer { IfOk result (λ f. f ≡ masked_data self mask) }
        ensures dtype { IfOk result (λ f. future_dtype f ≡ with_nullability Nullability.Nullable (future_dtype self)) }
        ensures items { (store : Store) → IfOk result
            (λ f. items_of f store ≡ nulled (mask_of mask store) (items_of self store)) }
        ensures length { (store : Store) → IfOk result (λ f. length (items_of f store) ≡ length (items_of self store)) }
    {
        let mut masked = self;
        masked.outer.push(mask)?;
        Ok(masked)
    }

    /// Runs filters of the masks, in order, until one lacks something.
    fn know(&mut self, alloc: Global, inbox: &Inbox) -> Result<Option<WantedIds>, ReadFault>
        ensures same { SameFuture (came inbox.now) self.new self.old }
        ensures answer { KnowsAll (came inbox.now) (masks_in self.old) (masks_in self.new) result }
        ensures run { IfOk result (λ _. can_run (came inbox.now) (masks_in self.new) ≡ false) }
    {
        if let Some(ids) = self.source.know(alloc, inbox)? {
            return Ok(Some(ids));
        }
        know_all(&mut self.outer, alloc, inbox)
    }

    /// The array, or the ids that lack, where the masks are known.
    fn values(&self, alloc: Global, inbox: &Inbox) -> Result<Items, ReadFault>
        ensures { (old : FutureData) → SameFuture (came inbox.now) self.now old →
            KnowsAll (came inbox.now) (masks_in old) (masks_in self.now) (Ok None) →
            Projects (came inbox.now) old result }
    {
        match self.source.give(alloc, inbox)? {
            Items::Ready(column) => Ok(Items::Ready(under(alloc, column, &self.outer)?)),
            Items::Pending(ids) => Ok(Items::Pending(ids)),
        }
    }

    /// The array, or the ids that lack.
    fn read(&mut self, alloc: Global, inbox: &Inbox) -> Result<Items, ReadFault>
        ensures same { SameFuture (came inbox.now) self.new self.old }
        ensures answer { Projects (came inbox.now) self.old result }
        ensures rows { KnowsItems (came inbox.now) self.old self.new result }
        ensures run { IfOk result (λ _. can_run (came inbox.now) (masks_in self.new) ≡ false) }
    {
        if let Some(ids) = self.know(alloc, inbox)? {
            return Ok(Items::Pending(ids));
        }
        self.values(alloc, inbox)
    }

    /// The values as a column, or what is wanted next. Each filter that can run does, once: the next poll goes on behind it.
    pub fn poll_column(&mut self, alloc: Global, inbox: &Inbox) -> Poll<Column>
        ensures answer { Polls (came inbox.now) self.old result }
        ensures same { SameFuture (came inbox.now) self.new self.old }
        ensures rows { KnowsRows (came inbox.now) self.old self.new result }
        ensures run { HasRun (came inbox.now) (masks_in self.new) result }
    {
        match self.read(alloc, inbox) {
            Ok(items) => answered(items),
            Err(fault) => refused(fault),
        }
    }

    /// The array of the values, or what is wanted next. Each filter that can run does, once.
    pub fn poll(&mut self, alloc: Global, inbox: &Inbox) -> Poll<Array>
        ensures answer { Polls (came inbox.now) self.old result }
        ensures same { SameFuture (came inbox.now) self.new self.old }
        ensures rows { KnowsRows (came inbox.now) self.old self.new result }
        ensures run { HasRun (came inbox.now) (masks_in self.new) result }
    {
        match self.poll_column(alloc, inbox) {
            Poll::Ready(column) => match column.to_array(alloc) {
                Ok(array) => Poll::Ready(array),
                Err(_) => Poll::NoMemory,
            },
            Poll::Pending(ids) => Poll::Pending(ids),
            Poll::Corrupt(id) => Poll::Corrupt(id),
            Poll::Overflow => Poll::Overflow,
            Poll::NoMemory => Poll::NoMemory,
        }
    }

    /// The numbers of the rows of what is known of its mask, in order. Once a poll gave an array these are the rows of
    /// its values, of an array that is there the numbers of its items.
    pub fn rows(&self, alloc: Global) -> Result<Vec<u64>, NoMemory>
        ensures { IfOk result (λ v. v.items ≡ known_rows self.now) }
    {
        self.source.rows(alloc)
    }

    /// Whether no row is left of what is known of its mask, so that it gives none.
    pub fn is_empty(&self) -> bool
        ensures { result ≡ list_all not (self.now.mask).known }
    {
        self.source.is_empty()
    }
}

/// The answer of a poll of which this is read.
fn answered(items: Items) -> Poll<Column>
    ensures answer { (here : Came) (f : FutureData) → Projects here f (Ok items) → Polls here f result }
    ensures rows { (here : Came) (old new : FutureData) → KnowsItems here old new (Ok items) →
        KnowsRows here old new result }
    ensures run { (here : Came) (ms : List MaskData) → can_run here ms ≡ false → HasRun here ms result }
{
    match items {
        Items::Ready(column) => Poll::Ready(column),
        Items::Pending(ids) => Poll::Pending(ids),
    }
}

/// The answer of a poll that refuses.
fn refused(fault: ReadFault) -> Poll<Column>
    ensures answer { (here : Came) (f : FutureData) → Projects here f (Err fault) → Polls here f result }
    ensures rows { (here : Came) (old new : FutureData) → KnowsRows here old new result }
    ensures run { (here : Came) (ms : List MaskData) → HasRun here ms result }
{
    match fault {
        ReadFault::Corrupt(id) => Poll::Corrupt(id),
        ReadFault::Overflow => Poll::Overflow,
        ReadFault::NoMemory => Poll::NoMemory,
    }
}
