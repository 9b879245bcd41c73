//! The values at places that are there.
ghost use Rattle.std.specs.Prelude.{◌≡◌, All, IfOk, IfErr, OnOk, Some, map, length, true};
ghost use Rattle.scan_values.specs.Values.{val_of};
ghost use Rattle.scan_expr.specs.Infer.{infer};
ghost use Rattle.scan_segments.specs.Source.{none_live};
ghost use Rattle.scan_fetch.specs.Fetches.{KeepsCounts};
ghost use Rattle.scan_seek.specs.Keeps.{HasRow, IsRead};
ghost use Rattle.scan_seek.specs.Reads.{AreRead, HasSeekCause, SeekMoves};
ghost use Rattle.scan_partition.specs.Partable.{IsPartable};
ghost use Rattle.scan_places.specs.Walks.{AreKept, HasPlaceRow};
ghost use Rattle.scan_lookup.specs.Faults.{of_seek};
ghost use Rattle.scan_lookup.specs.Reading.{AreApart, AllAreRead, AreValues, FailsGroup, FailsGroups, FailsReads};
ghost use Rattle.scan_lookup.specs.Reading.{GroupIsRead, HasValue, IsReadable, IsSeekFault, KeepsFileCounts};
ghost use Rattle.scan_lookup.specs.Reading.{KeepsOthers, ReadsGroup, ReadsGroups, ReadsPlaces, slot_value};
ghost use Rattle.scan_lookup.specs.Lookups.{IsReply, IsLookupRefusedFor, LookupMoves};
ghost use Rattle.scan_lookup.specs.Session.{is_open_in};
ghost use Rattle.scan_multi.specs.Lawful.{IsIdle};

use crate::fault::LookupFault;
use crate::groups::{Group, Slot, grouped};
use scan_drive::ScanFile;
use scan_expr::BoundExpression;
use scan_opener::LayoutReaderFactory;
use scan_places::{Place, open_places};
use scan_seek::{Kept, SeekFault, read_rows};
use scan_segments::{KeyedSegmentCache, SegmentSource};
use scan_values::{Array, NoMemory, Value};
use std::alloc::Global;

/// A fault of reading rows, as one of the file at a place in the list.
fn fault_of(file: usize, fault: SeekFault) -> LookupFault
    ensures { result ≡ of_seek file fault }
{
    match fault {
        SeekFault::Source(segment) => LookupFault::Source { file, segment },
        SeekFault::Corrupt(segment) => LookupFault::Corrupt { file, segment },
        SeekFault::Overflow(row) => LookupFault::Overflow { file, row },
        SeekFault::NoMemory => LookupFault::NoMemory,
    }
}

/// The values of rows of a file, which is the one of a number in the list.
fn read_file<O, S: SegmentSource, C: KeyedSegmentCache>(
    alloc: Global,
    file: &mut ScanFile<O, S>,
    kept: &Kept,
    cache: &mut C,
    rows: &[u64],
    number: usize,
) -> Result<Vec<Value>, LookupFault>
    requires ready { IsRead kept.now }
    requires rows { All (HasRow kept.now) rows.now }
    requires idle { (S.state file.old.source).live ≡ none_live }
    ensures keeps { KeepsOthers file.old file.new }
    ensures values { IfOk result (λ vs. AreRead kept.now rows.now file.old.source_id (S.state file.old.source)
        (C.cache cache.old) (map val_of vs.items)) }
    ensures counts { OnOk result (KeepsCounts file.old.source_id (S.state file.old.source) (S.state file.new.source)
        (C.cache cache.old) (C.cache cache.new)) }
    ensures fault { IfErr result (IsSeekFault number (HasSeekCause kept.now rows.now file.old.source_id
        (S.state file.old.source) (S.state file.new.source) (C.cache cache.old))) }
    ensures moves { SeekMoves kept.now rows.now file.old.source_id (S.state file.old.source) (S.state file.new.source)
        (C.cache cache.old) (C.cache cache.new) }
{
    let name = &file.source_id;
    let source = &mut file.source;
    match read_rows(alloc, kept, rows, name, source, cache) {
        Ok(values) => Ok(values),
        Err(fault) => Err(fault_of(number, fault)),
    }
}

/// The values of the rows of a group.
fn read_group<O, S: SegmentSource, C: KeyedSegmentCache>(
    alloc: Global,
    files: &mut Vec<ScanFile<O, S>>,
    kept: &[Kept],
    cache: &mut C,
    group: &Group,
) -> Result<Vec<Value>, LookupFault>
    requires even { length kept.now ≡ length files.old.items }
    requires readable { IsReadable files.old.items kept.now group.now }
    requires idle { All (λ f. (S.state f.source).live ≡ none_live) files.old.items }
    ensures reads { ReadsGroup S.state kept.now files.old.items files.new.items
        (C.cache cache.old) (C.cache cache.new) group.now }
    ensures values { IfOk result (λ vs. GroupIsRead S.state kept.now files.old.items (C.cache cache.old) group.now
        (map val_of vs.items)) }
    ensures counts { OnOk result (KeepsFileCounts S.state files.old.items files.new.items
        (C.cache cache.old) (C.cache cache.new)) }
    ensures fault { IfErr result (FailsGroup S.state kept.now files.old.items files.new.items
        (C.cache cache.old) group.now) }
{
    let number = group.file;
    let rows = group.rows.as_slice();
    let own = &kept[number];
    let file = &mut files[number];
    read_file(alloc, file, own, cache, rows, number)
}

/// The values of the rows of groups, group by group.
fn read_groups<O, S: SegmentSource, C: KeyedSegmentCache>(
    alloc: Global,
    files: &mut Vec<ScanFile<O, S>>,
    kept: &[Kept],
    cache: &mut C,
    groups: &[Group],
) -> Result<Vec<Vec<Value>>, LookupFault>
    requires even { length kept.now ≡ length files.old.items }
    requires readable { All (IsReadable files.old.items kept.now) groups.now }
    requires apart { AreApart groups.now }
    requires idle { All (λ f. (S.state f.source).live ≡ none_live) files.old.items }
    ensures reads { ReadsGroups S.state kept.now files.old.items files.new.items
        (C.cache cache.old) (C.cache cache.new) groups.now }
    ensures values { IfOk result (λ vs. AllAreRead S.state kept.now files.old.items
        (C.cache cache.old) groups.now vs.items) }
    ensures counts { OnOk result (KeepsFileCounts S.state files.old.items files.new.items
        (C.cache cache.old) (C.cache cache.new)) }
    ensures fault { IfErr result (FailsGroups S.state kept.now files.old.items files.new.items
        (C.cache cache.old) groups.now) }
{
    let mut values = Vec::with_capacity(alloc, groups.len())?;
    for i in 0..groups.len() {
        match read_group(alloc, files, kept, cache, &groups[i]) {
            Ok(own) => values.push(own)?,
            Err(fault) => return Err(fault),
        }
    }
    Ok(values)
}

/// A copy of the value in a slot.
fn value_in(alloc: Global, values: &[Vec<Value>], slot: Slot) -> Result<Value, NoMemory>
    requires { HasValue values.now slot }
    ensures { IfOk result (λ v. Some (val_of v) ≡ slot_value values.now slot) }
{
    let own = &values[slot.group];
    own[slot.place].try_clone(alloc)
}

/// Of values by groups those in these slots, in order.
fn picked(alloc: Global, values: &[Vec<Value>], slots: &[Slot]) -> Result<Vec<Value>, NoMemory>
    requires { All (HasValue values.now) slots.now }
    ensures { IfOk result (λ vs. map Some (map val_of vs.items) ≡ map (slot_value values.now) slots.now) }
{
    let mut picked = Vec::with_capacity(alloc, slots.len())?;
    for i in 0..slots.len() {
        let value = value_in(alloc, values, slots[i])?;
        picked.push(value)?;
    }
    Ok(picked)
}

/// Values of the dtype of an expression.
fn array_of(
    alloc: Global,
    projection: &BoundExpression,
    values: Vec<Value>,
) -> Result<Array, NoMemory>
    ensures dtype { IfOk result (λ a. a.dtype ≡ infer projection.now.scope projection.now.expr) }
    ensures items { IfOk result (λ a. a.items ≡ map val_of values.items) }
{
    let dtype = projection.dtype().try_clone(alloc)?;
    match Array::try_new(dtype, values) {
        Ok(array) => Ok(array),
        Err(_) => Err(NoMemory),
    }
}

/// The values at places by their files, each file read once.
fn read_places<O, S: SegmentSource, C: KeyedSegmentCache>(
    alloc: Global,
    files: &mut Vec<ScanFile<O, S>>,
    kept: &[Kept],
    cache: &mut C,
    places: &[Place],
) -> Result<Vec<Value>, LookupFault>
    requires even { length kept.now ≡ length files.old.items }
    requires there { All (HasPlaceRow files.old.items kept.now) places.now }
    requires idle { All (λ f. (S.state f.source).live ≡ none_live) files.old.items }
    ensures reads { ReadsPlaces S.state kept.now files.old.items files.new.items
        (C.cache cache.old) (C.cache cache.new) places.now }
    ensures values { IfOk result (λ vs. AreValues S.state kept.now files.old.items
        (C.cache cache.old) places.now (map val_of vs.items)) }
    ensures counts { OnOk result (KeepsFileCounts S.state files.old.items files.new.items
        (C.cache cache.old) (C.cache cache.new)) }
    ensures fault { IfErr result (FailsReads S.state kept.now files.old.items files.new.items
        (C.cache cache.old) places.now) }
{
    let by_file = grouped(alloc, places)?;
    let groups = by_file.groups.as_slice();
    let slots = by_file.slots.as_slice();
    match read_groups(alloc, files, kept, cache, groups) {
        Ok(values) => Ok(picked(alloc, values.as_slice(), slots)?),
        Err(fault) => Err(fault),
    }
}

/// The values of an expression at places that are there, as an array.
pub(crate) fn look_into<O, S: SegmentSource, C: KeyedSegmentCache>(
    alloc: Global,
    projection: &BoundExpression,
    files: &mut Vec<ScanFile<O, S>>,
    kept: &[Kept],
    cache: &mut C,
    places: &[Place],
) -> Result<Array, LookupFault>
    requires even { length kept.now ≡ length files.old.items }
    requires there { All (HasPlaceRow files.old.items kept.now) places.now }
    requires idle { All (λ f. (S.state f.source).live ≡ none_live) files.old.items }
    ensures reads { ReadsPlaces S.state kept.now files.old.items files.new.items
        (C.cache cache.old) (C.cache cache.new) places.now }
    ensures dtype { IfOk result (λ a. a.dtype ≡ infer projection.now.scope projection.now.expr) }
    ensures values { IfOk result (λ a. AreValues S.state kept.now files.old.items
        (C.cache cache.old) places.now a.items) }
    ensures counts { OnOk result (KeepsFileCounts S.state files.old.items files.new.items
        (C.cache cache.old) (C.cache cache.new)) }
    ensures fault { IfErr result (FailsReads S.state kept.now files.old.items files.new.items
        (C.cache cache.old) places.now) }
{
    match read_places(alloc, files, kept, cache, places) {
        Ok(values) => Ok(array_of(alloc, projection, values)?),
        Err(fault) => Err(fault),
    }
}

/// The values of an expression at places of files, of which this is kept: their files are opened, and then read.
pub(crate) fn look<O: LayoutReaderFactory, S: SegmentSource, C: KeyedSegmentCache>(
    alloc: Global,
    projection: &BoundExpression,
    files: &mut Vec<ScanFile<O, S>>,
    kept: &mut Vec<Kept>,
    cache: &mut C,
    places: &[Place],
) -> Result<Array, LookupFault>
    requires parts { IsPartable projection.now }
    requires even { length kept.old.items ≡ length files.old.items }
    requires kept { AreKept O.opener projection.now files.old.items kept.old.items }
    requires idle { All (IsIdle O.opener S.state) files.old.items }
    ensures even { length kept.new.items ≡ length files.new.items }
    ensures kept { AreKept O.opener projection.now files.new.items kept.new.items }
    ensures ok { IfOk result (IsReply O.opener S.state projection.now places.now files.old.items files.new.items
        (C.cache cache.old) (C.cache cache.new)) }
    ensures open { OnOk result (All (λ p. is_open_in kept.new.items p.file ≡ true) places.now) }
    ensures err { IfErr result (IsLookupRefusedFor O.opener S.state projection.now places.now files.old.items
        files.new.items (C.cache cache.old) (C.cache cache.new)) }
    ensures moves { LookupMoves O.opener S.state projection.now places.now files.old.items files.new.items
        kept.old.items kept.new.items (C.cache cache.old) (C.cache cache.new) }
{
    match open_places(alloc, projection, files, kept, places) {
        Ok(()) => look_into(alloc, projection, files, kept.as_slice(), cache, places),
        Err(fault) => Err(LookupFault::from(fault)),
    }
}
