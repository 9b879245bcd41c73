//! The live requests of a source, each id once, with those that wait for it. An own type, after the sharing of the Rust's `segments::shared`.
ghost use Rattle.std.specs.Prelude.{◌≡◌, [], true, false, None, Some, is_some, IfOk, IfSome, OnOk, OnErr, length, ◌<◌};
ghost use Rattle.scan_segments.specs.Source.{Begins, Stays, none_live};
ghost use Rattle.scan_drive.specs.Sources.{SourceMoves, NoId};
ghost use Rattle.scan_drive.specs.Desks.{Waiters, waiters_at, waits, Agree, IsAwaited, live_ids, added, is_in, Stay, Moves, Asks, Replies};
ghost use Rattle.scan_drive.specs.Ledger.{KeepsLedger, KeepsWant, KeepsReply};
ghost use Rattle.scan_drive.specs.Wants.{IsWanted, IsUnwanted, PutsWhatCame, missed_by};

use crate::cached::{Looked, Wanted, look_up, offer_reply};
use crate::places::Places;
use scan_segments::{KeyedSegmentCache, Polled, SegmentId, SegmentKey, SegmentSource};
use scan_splits::Arrival;
use scan_values::NoMemory;
use std::alloc::Global;
use std::collections::BTreeMap;
use std::marker::Model;

/// What a poll of a live request gives.
#[derive(Drop)]
pub enum Reply {
    Pending,
    /// What arrived, and the places that waited for it.
    Came(Arrival, Places),
    /// The source failed, with the places that waited.
    Failed(Places),
    NoMemory,
}

/// The live requests of a source. Contracts see a list of the ids, rising, each with the places that wait for it.
#[derive(Drop)]
pub struct Desk {
    waiters: BTreeMap<SegmentId, Places>,
    // which file it is of, in the order of the caller
    file: usize,
}

impl Model for Desk {
    ghost use Rattle.std.specs.Prelude.{ℕ, List};

    ghost Value = { List (ℕ × List ℕ) };

    ghost view = { λ d. d.waiters.entries };
}

impl Desk {
    /// A desk of a file, without requests.
    pub fn new(alloc: Global, file: usize) -> Desk
        ensures { result ≡ [] }
    {
        Desk {
            waiters: BTreeMap::new(alloc),
            file,
        }
    }

    /// Which file it is of.
    pub fn file(&self) -> usize {
        self.file
    }

    /// Whether no request is live.
    pub fn is_empty(&self) -> bool
        ensures none { result ≡ true → self.now ≡ [] }
        ensures some { result ≡ false → self.now ≡ [] → ⊥ }
    {
        self.waiters.is_empty()
    }

    /// Whether an id is live.
    pub fn is_live(&self, id: SegmentId) -> bool
        ensures { result ≡ is_some (waiters_at self.now id) }
    {
        self.waiters.contains_key(&id)
    }

    /// The ids that are live, rising.
    pub fn live(&self, alloc: Global) -> Result<Vec<SegmentId>, NoMemory>
        ensures { IfOk result (λ ids. ids.items ≡ live_ids self.now) }
    {
        let mut ids = Vec::with_capacity(alloc, self.waiters.len())?;
        for id in self.waiters.keys() {
            ids.push(*id)?;
        }
        Ok(ids)
    }

    /// A want of a place: it is looked up in the cache, by a lookup of its own that is polled to its end. What is not
    /// there is shared with the live request of its id, or else asked of the source.
    pub fn want<S: SegmentSource, C: KeyedSegmentCache>(
        &mut self,
        alloc: Global,
        key: &SegmentKey,
        place: usize,
        source: &mut S,
        cache: &mut C,
    ) -> Result<Wanted, NoMemory>
        requires agree { Agree (S.state source.old).live self.old }
        requires new { waits self.old key.now.segment place ≡ false }
        ensures ok { IfOk result (λ w. IsWanted key.now place (C.cache cache.old) (C.cache cache.new)
            (S.state source.old) (S.state source.new) self.old self.new w) }
        ensures err { OnErr result (IsUnwanted (C.cache cache.old) (C.cache cache.new)
            (S.state source.old) (S.state source.new) self.old self.new) }
        ensures agree { Agree (S.state source.new).live self.new }
        ensures ledger { KeepsLedger key.now.source_id (S.state source.old) (S.state source.new)
            (C.cache cache.old) (C.cache cache.new) }
        ensures balance { IfOk result (λ w. KeepsWant key.now.source_id (S.state source.old) (S.state source.new)
            (C.cache cache.old) (C.cache cache.new) w) }
    {
        match look_up(alloc, key, cache) {
            Looked::Hit(bytes) => Ok(Wanted::Hit(bytes)),
            Looked::NoMemory => Err(NoMemory),
            Looked::Missed => {
                let shared = self.is_live(key.segment);
                match self.ask(alloc, key.segment, place, source) {
                    Ok(()) => Ok(missed(shared)),
                    Err(refused) => Err(refused),
                }
            }
        }
    }

    /// Polls the live request of an id, which is gone where it has ended. Bytes that came are put into the cache, by a
    /// put that is polled to its end.
    pub fn collect<S: SegmentSource, C: KeyedSegmentCache>(
        &mut self,
        alloc: Global,
        key: &SegmentKey,
        source: &mut S,
        cache: &mut C,
    ) -> Reply
        requires agree { Agree (S.state source.old).live self.old }
        requires live { is_some (waiters_at self.old key.now.segment) ≡ true }
        ensures replies { Replies key.now.segment (S.state source.old) (S.state source.new) self.old self.new result }
        ensures puts { PutsWhatCame key.now (C.cache cache.old) (C.cache cache.new) result }
        ensures agree { Agree (S.state source.new).live self.new }
        ensures source { SourceMoves NoId (S.state source.old) (S.state source.new) }
        ensures ledger { KeepsLedger key.now.source_id (S.state source.old) (S.state source.new)
            (C.cache cache.old) (C.cache cache.new) }
        ensures balance { KeepsReply key.now.source_id (S.state source.old) (S.state source.new)
            (C.cache cache.old) (C.cache cache.new) result }
    {
        let reply = self.poll(alloc, key.segment, source);
        offer_reply(alloc, key, &reply, cache);
        reply
    }

    /// A place waits for an id, which is asked of the source unless it is live.
    pub(crate) fn ask<S: SegmentSource>(
        &mut self,
        alloc: Global,
        id: SegmentId,
        place: usize,
        source: &mut S,
    ) -> Result<(), NoMemory>
        requires agree { Agree (S.state source.old).live self.old }
        requires new { waits self.old id place ≡ false }
        ensures moves { OnOk result (Moves id (Some (added place (waiters_at self.old id))) self.old self.new) }
        ensures asked { OnOk result (Asks (waiters_at self.old id) id (S.state source.old) (S.state source.new)) }
        ensures agree { Agree (S.state source.new).live self.new }
        ensures err { OnErr result (Stay self.old self.new × Stays (S.state source.old) (S.state source.new)) }
    {
        enter(&mut self.waiters, alloc, id, place, source)
    }

    /// Polls the live request of an id, which is gone where it has ended.
    pub(crate) fn poll<S: SegmentSource>(
        &mut self,
        alloc: Global,
        id: SegmentId,
        source: &mut S,
    ) -> Reply
        requires agree { Agree (S.state source.old).live self.old }
        requires live { is_some (waiters_at self.old id) ≡ true }
        ensures replies { Replies id (S.state source.old) (S.state source.new) self.old self.new result }
        ensures agree { Agree (S.state source.new).live self.new }
        ensures source { SourceMoves NoId (S.state source.old) (S.state source.new) }
    {
        match source.poll_segment(alloc, id) {
            Polled::Pending => Reply::Pending,
            Polled::NoMemory => Reply::NoMemory,
            Polled::Failed => {
                let places = take_out(&mut self.waiters, id);
                Reply::Failed(places)
            }
            Polled::Missing => {
                let places = take_out(&mut self.waiters, id);
                Reply::Came(Arrival::Missing, places)
            }
            Polled::Bytes(bytes) => {
                let places = take_out(&mut self.waiters, id);
                Reply::Came(Arrival::Bytes(bytes), places)
            }
        }
    }

    /// Drops all that is live.
    pub fn close<S: SegmentSource>(&mut self, source: &mut S)
        requires { Agree (S.state source.old).live self.old }
        ensures empty { self.new ≡ [] }
        ensures awaited { IsAwaited self.old }
        ensures idle { (S.state source.new).live ≡ none_live }
        ensures source { SourceMoves NoId (S.state source.old) (S.state source.new) }
    {
        drop_all(&mut self.waiters, source)
    }
}

// How a want that the cache does not have ended.
fn missed(shared: bool) -> Wanted
    ensures { result ≡ missed_by shared }
{
    if shared {
        Wanted::Shared
    } else {
        Wanted::Asked
    }
}

// The first id that is live.
fn first_live(waiters: &BTreeMap<SegmentId, Places>) -> Option<SegmentId>
    ensures some { IfSome result (λ id. is_some (waiters_at waiters.now.entries id) ≡ true) }
    ensures none { result ≡ None → waiters.now.entries ≡ [] }
{
    match waiters.first_key_value() {
        Some((id, _)) => Some(*id),
        None => None,
    }
}

// Drops all that is live.
fn drop_all<S: SegmentSource>(waiters: &mut BTreeMap<SegmentId, Places>, source: &mut S)
    requires { Agree (S.state source.old).live waiters.old.entries }
    ensures empty { waiters.new.entries ≡ [] }
    ensures awaited { IsAwaited waiters.old.entries }
    ensures agree { Agree (S.state source.new).live waiters.new.entries }
    ensures source { SourceMoves NoId (S.state source.old) (S.state source.new) }
{
    'drops: while let Some(id) = first_live(waiters) {
        source.drop_request(id);
        let places = take_out(waiters, id);
        let _waiting = places.as_slice();
    }
}

// Takes out the places that wait for an id, which is live.
fn take_out(waiters: &mut BTreeMap<SegmentId, Places>, id: SegmentId) -> Places
    requires { is_some (waiters_at waiters.old.entries id) ≡ true }
    ensures places { waiters_at waiters.old.entries id ≡ Some result }
    ensures moves { Moves id None waiters.old.entries waiters.new.entries }
    ensures length { length waiters.new.entries < length waiters.old.entries }
{
    match waiters.remove(&id) {
        Some(places) => places,
        None => unreachable!(),
    }
}

// One more place for an id that is live.
fn join(
    waiters: &mut BTreeMap<SegmentId, Places>,
    id: SegmentId,
    place: usize,
) -> Result<(), NoMemory>
    requires there { is_some (waiters_at waiters.old.entries id) ≡ true }
    requires new { waits waiters.old.entries id place ≡ false }
    ensures ok { OnOk result (Moves id (Some (added place (waiters_at waiters.old.entries id)))
        waiters.old.entries waiters.new.entries) }
    ensures err { OnErr result (Stay waiters.old.entries waiters.new.entries) }
{
    match waiters.get_mut(&id) {
        Some(places) => places.add(place),
        None => unreachable!(),
    }
}

// The first place for an id that is not live, which is asked of the source.
fn begin<S: SegmentSource>(
    waiters: &mut BTreeMap<SegmentId, Places>,
    alloc: Global,
    id: SegmentId,
    place: usize,
    source: &mut S,
) -> Result<(), NoMemory>
    requires absent { waiters_at waiters.old.entries id ≡ None }
    requires dead { (S.state source.old).live id ≡ false }
    ensures ok { OnOk result (Moves id (Some (added place None)) waiters.old.entries waiters.new.entries) }
    ensures begins { OnOk result (Begins id (S.state source.old) (S.state source.new)) }
    ensures err { OnErr result (Stay waiters.old.entries waiters.new.entries) }
    ensures stays { OnErr result (Stays (S.state source.old) (S.state source.new)) }
{
    match enlist(waiters, alloc, id, place) {
        Ok(()) => match source.request(alloc, id) {
            Ok(()) => Ok(()),
            Err(refused) => {
                waiters.remove(&id);
                Err(refused)
            }
        },
        Err(refused) => Err(refused),
    }
}

// The first place for an id.
fn enlist(
    waiters: &mut BTreeMap<SegmentId, Places>,
    alloc: Global,
    id: SegmentId,
    place: usize,
) -> Result<(), NoMemory>
    requires { waiters_at waiters.old.entries id ≡ None }
    ensures ok { OnOk result (Moves id (Some (added place None)) waiters.old.entries waiters.new.entries) }
    ensures err { OnErr result (Stay waiters.old.entries waiters.new.entries) }
{
    let places = Places::one(alloc, place)?;
    match waiters.insert(id, places) {
        Ok(_) => Ok(()),
        Err(_) => Err(NoMemory),
    }
}

// A place waits for an id, or the source is asked for it.
fn enter<S: SegmentSource>(
    waiters: &mut BTreeMap<SegmentId, Places>,
    alloc: Global,
    id: SegmentId,
    place: usize,
    source: &mut S,
) -> Result<(), NoMemory>
    requires agree { Agree (S.state source.old).live waiters.old.entries }
    requires new { waits waiters.old.entries id place ≡ false }
    ensures ok { OnOk result (Moves id (Some (added place (waiters_at waiters.old.entries id)))
        waiters.old.entries waiters.new.entries) }
    ensures asked { OnOk result (Asks (waiters_at waiters.old.entries id) id (S.state source.old) (S.state source.new)) }
    ensures agree { Agree (S.state source.new).live waiters.new.entries }
    ensures err { OnErr result (Stay waiters.old.entries waiters.new.entries
        × Stays (S.state source.old) (S.state source.new)) }
{
    if waiters.contains_key(&id) {
        return join(waiters, id, place);
    }
    begin(waiters, alloc, id, place, source)
}
