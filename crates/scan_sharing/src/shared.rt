//! A table of requests that are shared: each id is asked of the source once for all that hold it. After the Rust's `segments::shared`.
ghost use Rattle.std.specs.Prelude.{◌≡◌, ◌⊎◌, ◌+◌, ◌<◌, ◌≤◌, ◌∷◌, [], ℕ, false, true, IfOk, IfSome, OnOk, OnErr, is_some, Some, None};
ghost use Rattle.std.specs.List.{list_any};
ghost use Rattle.std.specs.Ordering.{nat_cmp};
ghost use Rattle.std.specs.BTreeMap.{insert_entry};
ghost use Rattle.std.specs.Map.{values_of};
ghost use Rattle.scan_segments.specs.Source.{Begins, Stays, Ends, has};
ghost use Rattle.scan_sharing.specs.Sharing.{owed, entry_at, is_held, is_live, after, Same, Agree};
ghost use Rattle.scan_sharing.specs.SharedTables.{AreBelow, Asks, Gives, Polls, Moves, begun, without_number, has_others};
ghost use Rattle.scan_segments.specs.Polled.{PolledOnce};
ghost use Rattle.scan_sharing.specs.Kinds.{kind_in};
ghost use Rattle.scan_sharing.specs.declared.holder.SharedEvent.TheVariants as event;
ghost use Rattle.scan_sharing.specs.declared.holder.SharedPolled.TheVariants as polled;

use crate::entry::Entry;
use crate::holder::{Holder, SharedKind, SharedPolled};
use scan_segments::{SegmentId, SegmentSource};
use scan_values::NoMemory;
use std::alloc::Global;
use std::collections::BTreeMap;
use std::marker::Model;

/// Requests by id. Contracts see a list of the ids, rising, each with the set of its holders and the answer that is kept.
#[derive(Drop)]
pub struct SharedTable {
    entries: BTreeMap<SegmentId, Entry>,
    next: u64,
}

impl Model for SharedTable {
    ghost use Rattle.std.specs.Prelude.{ℕ, List};
    ghost use Rattle.scan_sharing.specs.declared.holder.SharedAnswer.{SharedAnswer};
    ghost use Rattle.scan_sharing.specs.Sharing.{Held};

    ghost Value = { List (ℕ × Held SharedAnswer) };

    ghost view = { λ t. t.entries.entries };

    ghost use Rattle.scan_sharing.specs.SharedTables.{AreBelow};

    ghost invariant = { λ t. AreBelow t.next t.entries.entries };
}

impl SharedTable {
    /// A table without requests.
    pub fn new(alloc: Global) -> SharedTable
        ensures { result ≡ [] }
    {
        SharedTable {
            entries: BTreeMap::new(alloc),
            next: 0,
        }
    }

    /// Joins the request of the id where one is held, or else asks the source.
    /// What the table owes (`owed`) is how many events are still to come of it: an answer for each live request, and the
    /// end of each holder. A request adds two at most, so whoever keeps a history makes room for two.
    pub fn request<S: SegmentSource>(
        &mut self,
        alloc: Global,
        id: SegmentId,
        source: &mut S,
    ) -> Result<Holder, NoMemory>
        requires { Agree (S.state source.old).live (entry_at self.old) }
        ensures step { IfOk result (λ h. (h.id ≡ id)
            × Same (entry_at self.new) (after (event.Requested id h.number) (entry_at self.old))) }
        ensures fresh { IfOk result (λ h. (i : ℕ) → is_held h.number (entry_at self.old i) ≡ false) }
        ensures asked { OnOk result (Asks (entry_at self.old id) id (S.state source.old) (S.state source.new)) }
        ensures agree { Agree (S.state source.new).live (entry_at self.new) }
        ensures owed { OnOk result (owed self.new ≤ owed self.old + 2) }
        ensures err { OnErr result ((self.new ≡ self.old) × Stays (S.state source.old) (S.state source.new)) }
    {
        let Some(number) = new_number(&self.entries, self.next) else {
            return Err(NoMemory);
        };
        enter(&mut self.entries, alloc, id, number, source)?;
        self.next = self.next.max(number + 1);
        Ok(Holder::new(id, number))
    }

    /// Gives the answer of the holder's request where one is kept, or else polls the source. The first poll that
    /// finds an end keeps it.
    pub fn poll<S: SegmentSource>(
        &mut self,
        alloc: Global,
        h: &Holder,
        source: &mut S,
    ) -> SharedPolled
        requires held { is_held h.now.number (entry_at self.old h.now.id) ≡ true }
        requires agree { Agree (S.state source.old).live (entry_at self.old) }
        ensures step { Polls S.fits (S.state source.old) (S.state source.new) self.old self.new h.now.id }
        ensures once { PolledOnce S.polls h.now.id source.old source.new }
        ensures gives { Gives (entry_at self.new h.now.id) result }
        ensures pending { result ≡ polled.Pending → (S.state source.new).turns < (S.state source.old).turns }
        ensures agree { Agree (S.state source.new).live (entry_at self.new) }
    {
        poll_entry(&mut self.entries, alloc, h.id(), source)
    }

    /// Gives a holder up. The last one of a request ends it in the source, where it is live, and in the table.
    /// The table then owes at least one event less.
    pub fn drop_holder<S: SegmentSource>(&mut self, h: Holder, source: &mut S)
        requires held { is_held h.number (entry_at self.old h.id) ≡ true }
        requires agree { Agree (S.state source.old).live (entry_at self.old) }
        ensures step { Same (entry_at self.new) (after (event.Dropped h.id h.number) (entry_at self.old)) }
        ensures source { Stays (S.state source.old) (S.state source.new)
            ⊎ Ends h.id (S.state source.old) (S.state source.new) }
        ensures agree { Agree (S.state source.new).live (entry_at self.new) }
        ensures owed { owed self.new + 1 ≤ owed self.old }
    {
        leave_entry(&mut self.entries, h.id(), h.number(), source)
    }

    /// Whether a request of the segment is held.
    pub fn contains(&self, id: SegmentId) -> bool
        ensures { result ≡ is_some (entry_at self.now id) }
    {
        self.entries.contains_key(&id)
    }

    /// Whether the table has such a holder.
    pub fn holds(&self, h: &Holder) -> bool
        ensures { result ≡ is_held h.now.number (entry_at self.now h.now.id) }
    {
        has_holder(&self.entries, h.id(), h.number())
    }

    // The kind of the answer that is kept for the holder's request.
    pub(crate) fn kind(&self, h: &Holder) -> Option<SharedKind>
        ensures { result ≡ kind_in (entry_at self.now h.now.id) }
    {
        kind_at(&self.entries, h.id())
    }
}

// The kind of the answer that is kept for the segment.
fn kind_at(entries: &BTreeMap<SegmentId, Entry>, id: SegmentId) -> Option<SharedKind>
    ensures { result ≡ kind_in (entry_at entries.now.entries id) }
{
    match entries.get(&id) {
        Some(entry) => entry.kind(),
        None => None,
    }
}

fn has_holder(entries: &BTreeMap<SegmentId, Entry>, id: SegmentId, number: u64) -> bool
    ensures { result ≡ is_held number (entry_at entries.now.entries id) }
{
    match entries.get(&id) {
        Some(entry) => entry.has(number),
        None => false,
    }
}

// Whether a holder of these entries has the number.
fn is_used(entries: &BTreeMap<SegmentId, Entry>, number: u64) -> bool
    ensures { result ≡ list_any (λ e. has number e.holders) (values_of entries.now.entries) }
{
    entries.values().any(|e| e.has(number))
}

fn free_number(entries: &BTreeMap<SegmentId, Entry>) -> Option<u64>
    ensures free { IfSome result (λ n. list_any (λ e. has n e.holders) (values_of entries.now.entries) ≡ false) }
    ensures small { IfSome result (λ n. n < u64.MAX) }
{
    for number in 0..u64::MAX {
        if !is_used(entries, number) {
            return Some(number);
        }
    }
    None
}

// A number that no holder has: the next one, and once numbers are used up one that was given back.
fn new_number(entries: &BTreeMap<SegmentId, Entry>, next: u64) -> Option<u64>
    requires { AreBelow next entries.now.entries }
    ensures free { IfSome result (λ n. (i : ℕ) → is_held n (entry_at entries.now.entries i) ≡ false) }
    ensures small { IfSome result (λ n. n < u64.MAX) }
{
    if next < u64::MAX {
        return Some(next);
    }
    free_number(entries)
}

// The holder joins the entry of the id, which is there.
fn join_entry(
    entries: &mut BTreeMap<SegmentId, Entry>,
    id: SegmentId,
    number: u64,
) -> Result<(), NoMemory>
    requires { is_some (entry_at entries.old.entries id) ≡ true }
    ensures ok { OnOk result (Same (entry_at entries.new.entries) (after (event.Requested id number)
        (entry_at entries.old.entries))) }
    ensures err { OnErr result (entries.new.entries ≡ entries.old.entries) }
    ensures owed { OnOk result (owed entries.new.entries ≤ owed entries.old.entries + 1) }
{
    match entries.get_mut(&id) {
        Some(entry) => entry.join(number),
        None => unreachable!(),
    }
}

// A new entry of the id, which is not there.
fn add_entry(
    entries: &mut BTreeMap<SegmentId, Entry>,
    alloc: Global,
    id: SegmentId,
    number: u64,
) -> Result<(), NoMemory>
    requires { entry_at entries.old.entries id ≡ None }
    ensures entries { OnOk result (entries.new.entries ≡ insert_entry nat_cmp entries.old.entries id (begun number)) }
    ensures ok { OnOk result (Same (entry_at entries.new.entries) (after (event.Requested id number)
        (entry_at entries.old.entries))) }
    ensures owed { OnOk result (owed entries.new.entries ≡ owed entries.old.entries + 2) }
    ensures err { OnErr result (entries.new.entries ≡ entries.old.entries) }
{
    let entry = Entry::new(alloc, number)?;
    match entries.insert(id, entry) {
        Ok(_) => Ok(()),
        Err(_) => Err(NoMemory),
    }
}

// A new entry of the id, which is not there, whose request is live.
fn new_entry<S: SegmentSource>(
    entries: &mut BTreeMap<SegmentId, Entry>,
    alloc: Global,
    id: SegmentId,
    number: u64,
    source: &mut S,
) -> Result<(), NoMemory>
    requires absent { entry_at entries.old.entries id ≡ None }
    requires dead { (S.state source.old).live id ≡ false }
    ensures ok { OnOk result (Same (entry_at entries.new.entries) (after (event.Requested id number)
        (entry_at entries.old.entries))) }
    ensures err { OnErr result (entries.new.entries ≡ entries.old.entries) }
    ensures owed { OnOk result (owed entries.new.entries ≡ owed entries.old.entries + 2) }
    ensures begins { OnOk result (Begins id (S.state source.old) (S.state source.new)) }
    ensures stays { OnErr result (Stays (S.state source.old) (S.state source.new)) }
{
    match add_entry(entries, alloc, id, number) {
        Ok(()) => match source.request(alloc, id) {
            Ok(()) => Ok(()),
            Err(refused) => {
                entries.remove(&id);
                Err(refused)
            }
        },
        Err(refused) => Err(refused),
    }
}

// The holder joins the entry of the id, or the source is asked.
fn enter<S: SegmentSource>(
    entries: &mut BTreeMap<SegmentId, Entry>,
    alloc: Global,
    id: SegmentId,
    number: u64,
    source: &mut S,
) -> Result<(), NoMemory>
    requires { Agree (S.state source.old).live (entry_at entries.old.entries) }
    ensures ok { OnOk result (Same (entry_at entries.new.entries) (after (event.Requested id number)
        (entry_at entries.old.entries))) }
    ensures err { OnErr result ((entries.new.entries ≡ entries.old.entries)
        × Stays (S.state source.old) (S.state source.new)) }
    ensures asked { OnOk result (Asks (entry_at entries.old.entries id) id (S.state source.old) (S.state source.new)) }
    ensures agree { Agree (S.state source.new).live (entry_at entries.new.entries) }
    ensures owed { OnOk result (owed entries.new.entries ≤ owed entries.old.entries + 2) }
{
    if entries.contains_key(&id) {
        return join_entry(entries, id, number);
    }
    new_entry(entries, alloc, id, number, source)
}

// Polls the entry of the id, which is there.
fn poll_entry<S: SegmentSource>(
    entries: &mut BTreeMap<SegmentId, Entry>,
    alloc: Global,
    id: SegmentId,
    source: &mut S,
) -> SharedPolled
    requires there { is_some (entry_at entries.old.entries id) ≡ true }
    requires agree { Agree (S.state source.old).live (entry_at entries.old.entries) }
    ensures step { Polls S.fits (S.state source.old) (S.state source.new) entries.old.entries entries.new.entries id }
    ensures once { PolledOnce S.polls id source.old source.new }
    ensures gives { Gives (entry_at entries.new.entries id) result }
    ensures pending { result ≡ polled.Pending → (S.state source.new).turns < (S.state source.old).turns }
    ensures agree { Agree (S.state source.new).live (entry_at entries.new.entries) }
{
    match entries.get_mut(&id) {
        Some(entry) => entry.poll(alloc, id, source),
        None => unreachable!(),
    }
}

// Takes the holder out of the entry of the id, which is there, and answers whether it has others.
fn take_holder(entries: &mut BTreeMap<SegmentId, Entry>, id: SegmentId, number: u64) -> bool
    requires { is_held number (entry_at entries.old.entries id) ≡ true }
    ensures moves { Moves id (Some (without_number number
        (entry_at entries.old.entries id))) entries.old.entries entries.new.entries }
    ensures owed { owed entries.new.entries + 1 ≤ owed entries.old.entries }
    ensures others { result ≡ has_others (without_number number (entry_at entries.old.entries id)) }
{
    match entries.get_mut(&id) {
        Some(entry) => entry.leave(number),
        None => unreachable!(),
    }
}

// Takes the entry of the id out, and answers whether its request was live.
fn end_entry(entries: &mut BTreeMap<SegmentId, Entry>, id: SegmentId) -> bool
    ensures moves { Moves id None entries.old.entries entries.new.entries }
    ensures owed { owed entries.new.entries ≤ owed entries.old.entries }
    ensures live { result ≡ is_live (entry_at entries.old.entries id) }
{
    match entries.remove(&id) {
        Some(entry) => entry.is_live(),
        None => false,
    }
}

// Takes the holder out of the entry of the id, which is there. The last one ends the request and the entry.
fn leave_entry<S: SegmentSource>(
    entries: &mut BTreeMap<SegmentId, Entry>,
    id: SegmentId,
    number: u64,
    source: &mut S,
)
    requires held { is_held number (entry_at entries.old.entries id) ≡ true }
    requires agree { Agree (S.state source.old).live (entry_at entries.old.entries) }
    ensures step { Same (entry_at entries.new.entries) (after (event.Dropped id number)
        (entry_at entries.old.entries)) }
    ensures source { Stays (S.state source.old) (S.state source.new)
        ⊎ Ends id (S.state source.old) (S.state source.new) }
    ensures agree { Agree (S.state source.new).live (entry_at entries.new.entries) }
    ensures owed { owed entries.new.entries + 1 ≤ owed entries.old.entries }
{
    if take_holder(entries, id, number) {
        return;
    }
    if end_entry(entries, id) {
        source.drop_request(id);
    }
}
