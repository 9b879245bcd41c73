//! Lists: the offsets that rows of them need, and how these cut the elements.
ghost use Rattle.std.specs.Prelude.{◌≡◌, ◌≤◌, ◌<◌, ◌+◌, ◌-◌, ◌^◌, ◌∷◌, ℕ, [], IfOk, Some, Ok, length, map, replicate, true, false};
ghost use Rattle.std.specs.List.{items_where_true};
ghost use Rattle.scan_values.specs.Arrays.{of_parts};
ghost use Rattle.scan_values.specs.DataType.{DataType, int_type};
ghost use Rattle.scan_values.specs.declared.ptype.Nullability.TheVariants.{NonNullable};
ghost use Rattle.scan_values.specs.declared.ptype.PType.TheVariants.{U64};
ghost use Rattle.scan_values.specs.Kinds.{element_of};
ghost use Rattle.scan_values.specs.Val.{int_val};
ghost use Rattle.scan_values.specs.Values.{val_of};
ghost use Rattle.scan_columns.specs.Nested.{sizes, sums, Rises, total, cuts, list_of};
ghost use Rattle.scan_columns.specs.Typed.{typed};
ghost use Rattle.scan_layout.specs.Check.{total_rows};
ghost use Rattle.scan_spelling.specs.Places.{places_of};
ghost use Rattle.scan_spelling.specs.declared.spelling.Spelling.{Spelling};
ghost use Rattle.scan_plans.specs.Came.{came};
ghost use Rattle.scan_plans.specs.ListItems.{number_of, length_val, sizes_in, first_in, last_in};
ghost use Rattle.scan_plans.specs.Lists.{good_offset, is_whole};
ghost use Rattle.scan_plans.specs.Meaning.{true_rows};
ghost use Rattle.scan_plans.specs.OffsetsData.{AreNumbers};
ghost use Rattle.scan_plans.specs.OffsetReads.{Spans, Checks, ReadsOffsets, Cuts, AreRows, AreRead, CutsWhole, HasElements, ElementsOf, NextOf, AddsIds, elements_in, ListsOf, NoneOf, Climbs};
ghost use Rattle.scan_plans.specs.PlanTree.{lengths};
ghost use Rattle.scan_plans.specs.Reads.{CollectsPlan, Reads};
ghost use Rattle.scan_plans.specs.Wants.{leaf_wanted, names_id, offsets_wanted, Complete};

use crate::climbing::climbing_column;
use crate::fault::ReadFault;
use crate::leaf::{collect_leaf, no_values, read_leaf};
use crate::offsets::Offsets;
use crate::sizes::{are_near, ends_from, sizes_of};
use scan_columns::Column;
use scan_segments::SegmentId;
use scan_splits::{Inbox, SegmentRuns, WantedIds, Wants};
use scan_values::{Array, DType, Mask, NoMemory, Nullability, PType, Value};
use std::alloc::Global;
use std::sync::Arc;

/// A mask that begins with the first row that is true, and ends with the last.
#[derive(Drop)]
pub struct Span {
    pub(crate) first: u64,
    pub(crate) mask: Mask,
}

/// Lists side by side, from the one at a row on: which are asked for, and where each begins and the last ends.
#[derive(Drop)]
pub struct Cut {
    pub(crate) first: u64,
    pub(crate) mask: Mask,
    pub(crate) offsets: Vec<u64>,
}

/// Lists side by side, and the rows of the elements that are read for them.
#[derive(Drop)]
pub struct Whole {
    pub(crate) cut: Cut,
    pub(crate) rows: Span,
}

/// The true rows of the rows from `first` on, without those before and after them.
pub(crate) fn span_of(alloc: Global, first: u64, mask: &Mask) -> Result<Option<Span>, NoMemory>
    requires { first + length mask.now < 2 ^ 64 }
    ensures { IfOk result (λ s. Spans first mask.now s) }
{
    let Some(start) = mask.first() else {
        return Ok(None);
    };
    let Some(last) = mask.last() else {
        return Ok(None);
    };
    let part = mask.slice(alloc, start..last + 1)?;
    Ok(Some(Span {
        first: first + start as u64,
        mask: part,
    }))
}

/// The number that a value is.
fn number(value: &Value) -> i128
    ensures { result ≡ number_of (val_of value.now) }
{
    match value {
        Value::Int(n) => *n,
        _ => 0,
    }
}

/// The numbers of an array.
fn numbers(alloc: Global, array: &Array) -> Result<Vec<i128>, NoMemory>
    requires { AreNumbers array.now.dtype }
    ensures { IfOk result (λ v. map int_val v.items ≡ array.now.items) }
{
    let values = array.as_slice();
    let mut made = Vec::with_capacity(alloc, values.len())?;
    for value in values {
        made.push(number(value))?;
    }
    Ok(made)
}

/// A number as an offset, where it is neither negative, nor below the one before it, nor past the elements.
fn good_offset(most: u64, before: u64, number: i128) -> Option<u64>
    ensures { result ≡ good_offset most before number }
{
    match u64::try_from(number) {
        Ok(n) => {
            if before <= n && n <= most {
                Some(n)
            } else {
                None
            }
        }
        Err(_) => None,
    }
}

/// The id of the segment of a leaf that has a row.
fn segment_of(runs: &SegmentRuns, row: u64) -> SegmentId
    requires { row < total_rows runs.now }
    ensures { (d : DataType) (s : Spelling) →
        names_id result (leaf_wanted 0 (places_of d s runs.now) (row ∷ [])) ≡ true }
{
    runs.id(runs.first_at(row))
}

impl Offsets {
    /// The offsets that numbers are, from a row on, where all of them are good.
    fn checked(&self, alloc: Global, first: u64, numbers: &[i128]) -> Result<Vec<u64>, ReadFault>
        requires { first + length numbers.now ≤ total_rows self.now.segments }
        ensures { Checks (λ v. v.items) self.now first numbers.now result }
    {
        let _rows = self.runs.row_count();
        let mut made = Vec::with_capacity(alloc, numbers.len())?;
        let mut before = 0;
        for (i, number) in numbers.iter().enumerate() {
            let Some(offset) = good_offset(self.elements, before, *number) else {
                return Err(ReadFault::Corrupt(segment_of(&self.runs, first + i as u64)));
            };
            made.push(offset)?;
            before = offset;
        }
        Ok(made)
    }

    /// So many offsets, from the one of a row on: read at once, or, where one is no good, one after another.
    fn read(
        &self,
        alloc: Global,
        first: u64,
        count: usize,
        inbox: &Inbox,
    ) -> Result<Vec<u64>, ReadFault>
        requires { first + count ≤ total_rows self.now.segments }
        ensures { ReadsOffsets (λ v. v.items) self.now (came inbox.now) first count result }
    {
        let mask = Mask::new_true(alloc, count)?;
        let column = read_leaf(
            alloc,
            &self.dtype,
            self.spelling,
            &self.runs,
            first,
            mask.as_slice(),
            inbox,
        )?;
        if let Some(offsets) = climbing_column(alloc, self.elements, &column)? {
            return Ok(offsets);
        }
        let array = column.to_array(alloc)?;
        let numbers = numbers(alloc, &array)?;
        self.checked(alloc, first, &numbers)
    }

    /// The offsets of the lists at the true rows and between them, of the rows from `first` on.
    pub(crate) fn cut(
        &self,
        alloc: Global,
        first: u64,
        mask: &Mask,
        inbox: &Inbox,
    ) -> Result<Option<Cut>, ReadFault>
        requires { first + length mask.now < total_rows self.now.segments }
        ensures { Cuts self.now (came inbox.now) (true_rows first mask.now) result }
    {
        let _rows = self.runs.row_count();
        match span_of(alloc, first, mask)? {
            Some(span) => {
                let offsets = self.read(alloc, span.first, span.mask.len() + 1, inbox)?;
                Ok(Some(Cut {
                    first: span.first,
                    mask: span.mask,
                    offsets,
                }))
            }
            None => Ok(None),
        }
    }

    /// Adds the ids of the segments that have the offsets of the lists at the true rows and between them, of the rows
    /// from `first` on, and have not arrived.
    pub(crate) fn collect(
        &self,
        alloc: Global,
        first: u64,
        mask: &Mask,
        inbox: &Inbox,
        wants: &mut Wants,
    ) -> Result<(), ReadFault>
        requires { first + length mask.now < total_rows self.now.segments }
        ensures { CollectsPlan wants.old wants.new (lengths self.now) (came inbox.now) (true_rows first mask.now) result }
    {
        let _rows = self.runs.row_count();
        match span_of(alloc, first, mask)? {
            Some(span) => {
                let all = Mask::new_true(alloc, span.mask.len() + 1)?;
                collect_leaf(&self.runs, span.first, all.as_slice(), inbox, wants)
            }
            None => Ok(()),
        }
    }

    /// Whether a mask is true at each list that there is, and there is one.
    fn is_whole(&self, mask: &Mask) -> bool
        ensures { (first : ℕ) → result ≡ is_whole self.now (true_rows first mask.now) }
    {
        let count = mask.true_count() as u64;
        count > 0 && count == self.runs.row_count().saturating_sub(1)
    }

    /// The rows of the elements that are read for lists with these offsets: of all lists all that there are.
    fn rows_read(&self, alloc: Global, mask: &Mask, offsets: &[u64]) -> Result<Span, NoMemory>
        requires some { 0 < length offsets.now }
        requires climbs { Climbs self.now.elements 0 offsets.now }
        ensures { (first : ℕ) → IfOk result (λ s. AreRead self.now (true_rows first mask.now) offsets.now s.first s.mask) }
    {
        if self.is_whole(mask) {
            all_elements(alloc, self.elements)
        } else {
            elements_of(alloc, self.elements, offsets)
        }
    }

    /// The offsets of the lists at the true rows and between them, of the rows from `first` on, with the rows of the
    /// elements that are read for them.
    pub(crate) fn whole(
        &self,
        alloc: Global,
        first: u64,
        mask: &Mask,
        inbox: &Inbox,
    ) -> Result<Option<Whole>, ReadFault>
        requires { first + length mask.now < total_rows self.now.segments }
        ensures { CutsWhole self.now (came inbox.now) (true_rows first mask.now) result }
    {
        match self.cut(alloc, first, mask, inbox)? {
            Some(cut) => {
                let rows = self.rows_read(alloc, mask, &cut.offsets)?;
                Ok(Some(Whole { cut, rows }))
            }
            None => Ok(None),
        }
    }

    /// The elements that the lists at the true rows want, of the rows from `first` on, where no offset lacks.
    fn next_elements(
        &self,
        alloc: Global,
        first: u64,
        mask: &Mask,
        inbox: &Inbox,
    ) -> Result<Span, ReadFault>
        requires { first + length mask.now < total_rows self.now.segments }
        ensures { Complete (offsets_wanted self.now (true_rows first mask.now)) (came inbox.now) →
            ElementsOf self.now (came inbox.now) (true_rows first mask.now) result }
    {
        match self.whole(alloc, first, mask, inbox)? {
            Some(whole) => {
                let Whole { cut: _, rows } = whole;
                Ok(rows)
            }
            None => Ok(all_elements(alloc, 0)?),
        }
    }

    /// Adds the ids of the offsets that lack, or gives the rows of the elements, where none does.
    fn next_by_offsets(
        &self,
        alloc: Global,
        first: u64,
        mask: &Mask,
        inbox: &Inbox,
        wants: &mut Wants,
    ) -> Result<Option<Span>, ReadFault>
        requires rows { first + length mask.now < total_rows self.now.segments }
        requires part { is_whole self.now (true_rows first mask.now) ≡ false }
        ensures { NextOf wants.old wants.new self.now (came inbox.now) (true_rows first mask.now) result }
    {
        let mut lacking = Wants::new(alloc);
        self.collect(alloc, first, mask, inbox, &mut lacking)?;
        match lacking.into_wanted() {
            Some(ids) => {
                let _some = ids.as_slice();
                add_all(&ids, wants)?;
                Ok(None)
            }
            None => Ok(Some(self.next_elements(alloc, first, mask, inbox)?)),
        }
    }

    /// What the lists at the true rows want next, of the rows from `first` on: adds the ids of the offsets that lack,
    /// and gives the rows of the elements, where these are known. Of all lists they are all elements, at once.
    pub(crate) fn next(
        &self,
        alloc: Global,
        first: u64,
        mask: &Mask,
        inbox: &Inbox,
        wants: &mut Wants,
    ) -> Result<Option<Span>, ReadFault>
        requires { first + length mask.now < total_rows self.now.segments }
        ensures { NextOf wants.old wants.new self.now (came inbox.now) (true_rows first mask.now) result }
    {
        if self.is_whole(mask) {
            self.collect(alloc, first, mask, inbox, wants)?;
            return Ok(Some(all_elements(alloc, self.elements)?));
        }
        self.next_by_offsets(alloc, first, mask, inbox, wants)
    }
}

/// Adds ids.
fn add_all(ids: &WantedIds, wants: &mut Wants) -> Result<(), ReadFault>
    ensures { AddsIds wants.old ids.now wants.new result }
{
    let items = ids.as_slice();
    for id in items {
        wants.add(*id)?;
    }
    Ok(())
}

/// How many elements each list has, by where the first begins and each ends, as values.
fn size_values(alloc: Global, start: u64, ends: &[u64]) -> Result<Vec<Value>, NoMemory>
    requires { Rises start ends.now }
    ensures { IfOk result (λ v. map val_of v.items ≡ map length_val (sizes start ends.now)) }
{
    let mut made = Vec::with_capacity(alloc, ends.len())?;
    let mut before = start;
    for end in ends {
        made.push(Value::Int((*end - before) as i128))?;
        before = *end;
    }
    Ok(made)
}

/// How many elements those lists have at which the mask is true, by where the first begins and each ends, through values.
fn far_lengths(alloc: Global, most: u64, offsets: &[u64], mask: &Mask) -> Result<Column, NoMemory>
    requires length { length offsets.now ≡ length mask.now + 1 }
    requires climbs { Climbs most 0 offsets.now }
    ensures { IfOk result (λ c. c ≡
        of_parts (int_type U64 NonNullable) (items_where_true mask.now (map length_val (sizes_in offsets.now)))) }
{
    let dtype = DType::primitive(PType::U64, Nullability::NonNullable);
    let sizes = size_values(alloc, offsets[0], &offsets[1..])?;
    let column = Column::from_array(alloc, Array::of_fitting(dtype, sizes))?;
    column.filter(alloc, mask)
}

/// The same, where each ends at a number of an i64: no value is made.
fn near_lengths(alloc: Global, most: u64, offsets: &[u64], mask: &Mask) -> Result<Column, NoMemory>
    requires length { length offsets.now ≡ length mask.now + 1 }
    requires climbs { Climbs most 0 offsets.now }
    requires near { last_in offsets.now < 2 ^ 63 }
    ensures { IfOk result (λ c. c ≡
        of_parts (int_type U64 NonNullable) (items_where_true mask.now (map length_val (sizes_in offsets.now)))) }
{
    let dtype = DType::primitive(PType::U64, Nullability::NonNullable);
    let dtype = Arc::new(alloc, dtype)?;
    let sizes = sizes_of(alloc, offsets[0], &offsets[1..])?;
    let column = Column::of_numbers(alloc, dtype, sizes)?;
    column.filter(alloc, mask)
}

/// How many elements those lists have at which the mask is true, by where the first begins and each ends.
fn lengths_of(alloc: Global, most: u64, offsets: &[u64], mask: &Mask) -> Result<Column, NoMemory>
    requires length { length offsets.now ≡ length mask.now + 1 }
    requires climbs { Climbs most 0 offsets.now }
    ensures { IfOk result (λ c. c ≡
        of_parts (int_type U64 NonNullable) (items_where_true mask.now (map length_val (sizes_in offsets.now)))) }
{
    if are_near(offsets) {
        near_lengths(alloc, most, offsets, mask)
    } else {
        far_lengths(alloc, most, offsets, mask)
    }
}

/// No lengths.
fn no_lengths(alloc: Global) -> Result<Column, NoMemory>
    ensures { IfOk result (λ c. c ≡ of_parts (int_type U64 NonNullable) []) }
{
    let dtype = DType::primitive(PType::U64, Nullability::NonNullable);
    no_values(alloc, &dtype)
}

/// How many elements the lists at the true rows have, of the rows from `first` on.
pub(crate) fn read_lengths(
    alloc: Global,
    offsets: &Offsets,
    first: u64,
    mask: &Mask,
    inbox: &Inbox,
) -> Result<Column, ReadFault>
    requires { first + length mask.now < total_rows offsets.now.segments }
    ensures { Reads (lengths offsets.now) (came inbox.now) (true_rows first mask.now) result }
{
    match offsets.cut(alloc, first, mask, inbox)? {
        Some(cut) => Ok(lengths_of(alloc, offsets.elements, &cut.offsets, &cut.mask)?),
        None => Ok(no_lengths(alloc)?),
    }
}

/// Where each list ends, by where the first begins and each ends, as if the first began at 0.
fn rebased(alloc: Global, start: u64, ends: &[u64]) -> Result<Vec<usize>, NoMemory>
    requires { Rises start ends.now }
    ensures { IfOk result (λ v. v.items ≡ sums 0 (sizes start ends.now)) }
{
    Ok(ends_from(alloc, start, ends)?)
}

/// The rows of so many elements, which are all.
fn all_elements(alloc: Global, count: u64) -> Result<Span, NoMemory>
    ensures { IfOk result (λ s. AreRows 0 count s.first s.mask) }
{
    let mask = Mask::new_true(alloc, count as usize)?;
    Ok(Span { first: 0, mask })
}

/// The rows of the elements of lists side by side, by where the first begins and each ends.
fn elements_of(alloc: Global, most: u64, offsets: &[u64]) -> Result<Span, NoMemory>
    requires some { 0 < length offsets.now }
    requires climbs { Climbs most 0 offsets.now }
    ensures { IfOk result (λ s. AreRows (first_in offsets.now) (last_in offsets.now - first_in offsets.now) s.first s.mask) }
{
    let first = offsets[0];
    let last = offsets[offsets.len() - 1];
    let mask = Mask::new_true(alloc, (last - first) as usize)?;
    Ok(Span { first, mask })
}

/// Of the elements from a row on those of lists side by side, by where the first begins and each ends.
fn own_elements(
    alloc: Global,
    offsets: &[u64],
    first: u64,
    elements: Column,
) -> Result<Column, NoMemory>
    requires some { 0 < length offsets.now }
    requires order { first_in offsets.now ≤ last_in offsets.now }
    requires begins { first ≤ first_in offsets.now }
    requires ends { last_in offsets.now ≤ first + length elements.items }
    ensures { IfOk result (λ c. c ≡ elements_in offsets.now first elements) }
{
    let start = (offsets[0] - first) as usize;
    let end = (offsets[offsets.len() - 1] - first) as usize;
    if end - start == elements.len() {
        return Ok(elements);
    }
    elements.slice(alloc, start..end)
}

/// Those lists at which the mask is true, cut out of their elements by where the first begins and each ends.
fn cut_lists(
    alloc: Global,
    dtype: &Arc<DType>,
    cut: &Cut,
    elements: Column,
) -> Result<Column, ReadFault>
    requires element { Some elements.dtype ≡ element_of dtype.now.value }
    requires length { length cut.now.offsets.items ≡ length cut.now.mask + 1 }
    requires rises { Rises 0 cut.now.offsets.items }
    requires whole { total (sizes_in cut.now.offsets.items) ≡ length elements.items }
    ensures { ListsOf dtype.now.value cut.now elements result }
{
    let ends = rebased(alloc, cut.offsets[0], &cut.offsets[1..])?;
    let column = Column::lists(alloc, dtype.clone()?, ends, None, elements)?;
    if cut.mask.all_true() {
        return Ok(column);
    }
    Ok(column.filter(alloc, &cut.mask)?)
}

/// The lists of a cut, of the elements that were read for them.
pub(crate) fn lists_of(
    alloc: Global,
    dtype: &Arc<DType>,
    whole: &Whole,
    elements: Column,
) -> Result<Column, ReadFault>
    requires element { Some elements.dtype ≡ element_of dtype.now.value }
    requires length { length whole.now.cut.offsets.items ≡ length whole.now.cut.mask + 1 }
    requires rises { Rises 0 whole.now.cut.offsets.items }
    requires among { HasElements whole.now (length elements.items) }
    ensures { ListsOf dtype.now.value whole.now.cut
        (elements_in whole.now.cut.offsets.items whole.now.rows.first elements) result }
{
    let cut = &whole.cut;
    let own = own_elements(alloc, &cut.offsets, whole.rows.first, elements)?;
    cut_lists(alloc, dtype, cut, own)
}

/// No lists.
pub(crate) fn no_lists(alloc: Global, dtype: &DType) -> Result<Column, ReadFault>
    ensures { NoneOf dtype.now result }
{
    Ok(no_values(alloc, dtype)?)
}
