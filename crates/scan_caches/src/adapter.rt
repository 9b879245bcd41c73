//! A source that looks segments up in a cache before it asks another source. After the Rust's `segments::cache`.
ghost use Rattle.std.specs.Prelude.{◌≡◌, ◌⊎◌, ℕ, List, [], nat_eq, cond, is_some, true, false, Some, None, OnOk, OnErr};
ghost use Rattle.scan_segments.specs.Source.{SourceState, Store, none_live, with_live, without_live, Begins, Stays, Ends};
ghost use Rattle.scan_segments.specs.Polled.{IsPolled, PolledOnce};
ghost use Rattle.scan_segments.specs.Cached.{Offers};
ghost use Rattle.scan_caches.specs.Adapter.{Looks, PollsSource, PollsBoth, LooksAgain, LooksFirst, KeepsStages, IsLinked, Requests, PollsAdapted, DropsAdapted, KeepsTrust, GivesTrusted, adapted, stage_at, has_stage, is_asked, asked_after, live_after};
ghost use Rattle.scan_caches.specs.declared.adapter.Stage.TheVariants as stage;
ghost use Rattle.scan_caches.specs.declared.adapter.Looked.TheVariants as looked;

use scan_segments::{
    ByteBuffer, CacheGet, CachePut, Fits, Polled, Polls, SegmentCache, SegmentId, SegmentSource,
};
use scan_values::NoMemory;
use std::alloc::Global;
use std::collections::BTreeMap;
use std::marker::Model;

/// How far a live id has come: its lookup is pending, its bytes were found, or the inner source was asked.
#[derive(Drop)]
pub enum Stage {
    Looking,
    Found(ByteBuffer),
    Asked,
}

/// How one poll of a lookup ends. After a miss or a fault the inner source has been asked.
#[derive(Drop)]
pub enum Looked {
    Pending,
    Hit(ByteBuffer),
    Asked,
    NoMemory,
}

/// A source over a cache and an inner source. Contracts see both, the ids that were asked of the adapter, and the
/// stages of the live ones.
#[derive(Drop)]
pub struct SegmentCacheSourceAdapter<C: SegmentCache, S: SegmentSource> {
    cache: C,
    source: S,
    asked: Vec<SegmentId>,
    stages: BTreeMap<SegmentId, Stage>,
}

impl<C: SegmentCache, S: SegmentSource> Model for SegmentCacheSourceAdapter<C, S> {
    ghost use Rattle.scan_caches.specs.Adapter.{Adapted, IsLinked};

    ghost Value = { Adapted C S };

    ghost view = { λ a. record {
      cache = a.cache;
      source = a.source;
      asked = a.asked.items;
      stages = a.stages.entries;
    } };

    ghost invariant = { λ a. IsLinked (S.state a.source).live a.stages.entries };
}

impl<C: SegmentCache, S: SegmentSource> SegmentCacheSourceAdapter<C, S> {
    /// A source that looks up in this cache and asks this source, which has no live request.
    pub fn new(alloc: Global, cache: C, source: S) -> Self
        requires { (S.state source).live ≡ none_live }
        ensures { result ≡ record { cache = cache; source = source; asked = []; stages = [] } }
    {
        SegmentCacheSourceAdapter {
            cache,
            source,
            asked: Vec::new(alloc),
            stages: BTreeMap::new(alloc),
        }
    }

    /// The inner source.
    pub fn source(&self) -> &S
        ensures { result.now ≡ self.now.source }
    {
        &self.source
    }
}

impl<C: SegmentCache, S: SegmentSource> Fits for SegmentCacheSourceAdapter<C, S> {
    ghost fits = { λ id bytes. Unit {0} };
}

impl<C: SegmentCache, S: SegmentSource> Polls for SegmentCacheSourceAdapter<C, S> {
    ghost polls = { λ a id b r. PollsAdapted C.cache S.state C.gets S.polls S.fits id a b r };
}

impl<C: SegmentCache, S: SegmentSource> SegmentSource for SegmentCacheSourceAdapter<C, S> {
    ghost state = { adapted C.cache S.state };

    fn request(&mut self, alloc: Global, id: SegmentId) -> Result<(), NoMemory>
        requires { has_stage self.old.stages id ≡ false }
        ensures ok { OnOk result (Begins id (adapted C.cache S.state self.old) (adapted C.cache S.state self.new)) }
        ensures err { OnErr result (Stays (adapted C.cache S.state self.old) (adapted C.cache S.state self.new)) }
        ensures looks { Requests C.cache S.state C.gets id self.old self.new }
        ensures begun { OnOk result (is_some (stage_at self.new.stages id) ≡ true) }
        ensures refused { OnErr result (stage_at self.new.stages id ≡ None) }
        ensures others { KeepsStages id self.old.stages self.new.stages }
        ensures content { KeepsTrust C.cache S.state self.old self.new }
    {
        self.asked.reserve(1)?;
        match begin(
            &mut self.cache,
            &mut self.source,
            &mut self.stages,
            alloc,
            id,
        ) {
            Ok(()) => {
                self.asked.push_reserved(id);
                Ok(())
            }
            Err(refused) => Err(refused),
        }
    }

    fn poll_segment(&mut self, alloc: Global, id: SegmentId) -> Polled
        requires { has_stage self.old.stages id ≡ true }
        ensures polled { IsPolled (λ id bytes. Unit {0}) id (adapted C.cache S.state self.old)
            (adapted C.cache S.state self.new) result }
        ensures exact { PollsAdapted C.cache S.state C.gets S.polls S.fits id self.old self.new result }
        ensures once { is_asked (stage_at self.old.stages id) ≡ true → PolledOnce S.polls id self.old.source self.new.source }
        ensures others { KeepsStages id self.old.stages self.new.stages }
        ensures content { GivesTrusted C.cache S.state id result self.old self.new }
    {
        poll_stage(
            &mut self.cache,
            &mut self.source,
            &mut self.stages,
            alloc,
            id,
        )
    }

    fn drop_request(&mut self, id: SegmentId)
        ensures ends { Ends id (adapted C.cache S.state self.old) (adapted C.cache S.state self.new) }
        ensures drops { DropsAdapted C.cache S.state id self.old self.new }
        ensures stage { stage_at self.new.stages id ≡ None }
        ensures others { KeepsStages id self.old.stages self.new.stages }
        ensures content { KeepsTrust C.cache S.state self.old self.new }
    {
        let was_asked = has_asked(&self.stages, id);
        end(&mut self.stages, id);
        if was_asked {
            self.source.drop_request(id);
        }
    }

    fn fault_count(&self) -> u64 {
        self.source.fault_count()
    }
}

// Begins a request of an id that is not live: its lookup is polled once.
fn begin<C: SegmentCache, S: SegmentSource>(
    cache: &mut C,
    source: &mut S,
    stages: &mut BTreeMap<SegmentId, Stage>,
    alloc: Global,
    id: SegmentId,
) -> Result<(), NoMemory>
    requires linked { IsLinked (S.state source.old).live stages.old.entries }
    requires fresh { has_stage stages.old.entries id ≡ false }
    ensures linked { IsLinked (S.state source.new).live stages.new.entries }
    ensures live { OnOk result (has_stage stages.new.entries ≡ with_live id (has_stage stages.old.entries)) }
    ensures err { OnErr result (has_stage stages.new.entries ≡ has_stage stages.old.entries) }
    ensures looks { (LooksFirst C.cache C.gets S.state id cache.old cache.new source.old source.new
        (stage_at stages.new.entries id)) ⊎ ((cache.new ≡ cache.old) × (source.new ≡ source.old)
        × (stage_at stages.new.entries id ≡ None)) }
    ensures begun { OnOk result (is_some (stage_at stages.new.entries id) ≡ true) }
    ensures refused { OnErr result (stage_at stages.new.entries id ≡ None) }
    ensures others { KeepsStages id stages.old.entries stages.new.entries }
{
    add_stage(stages, id)?;
    match look(cache, source, alloc, id) {
        Looked::Pending => { Ok(()) }
        Looked::Hit(bytes) => {
            set_stage(stages, id, Stage::Found(bytes));
            Ok(())
        }
        Looked::Asked => {
            set_stage(stages, id, Stage::Asked);
            Ok(())
        }
        Looked::NoMemory => {
            end(stages, id);
            Err(NoMemory)
        }
    }
}

// Polls a lookup once, and asks the source where it missed or failed.
fn look<C: SegmentCache, S: SegmentSource>(
    cache: &mut C,
    source: &mut S,
    alloc: Global,
    id: SegmentId,
) -> Looked
    requires { (S.state source.old).live id ≡ false }
    ensures { Looks C.cache C.gets S.state id cache.old cache.new source.old source.new result }
{
    match cache.poll_get(alloc, id) {
        CacheGet::Pending => Looked::Pending,
        CacheGet::Hit(bytes) => Looked::Hit(bytes),
        CacheGet::Miss => ask(source, alloc, id),
        CacheGet::Failed => ask(source, alloc, id),
        CacheGet::NoMemory => Looked::NoMemory,
    }
}

// Asks the source, after a lookup that ended without bytes.
fn ask<S: SegmentSource>(source: &mut S, alloc: Global, id: SegmentId) -> Looked
    requires { (S.state source.old).live id ≡ false }
    ensures { ((result ≡ looked.Asked) × Begins id (S.state source.old) (S.state source.new))
        ⊎ ((result ≡ looked.NoMemory) × Stays (S.state source.old) (S.state source.new)) }
{
    match source.request(alloc, id) {
        Ok(()) => Looked::Asked,
        Err(_) => Looked::NoMemory,
    }
}

// Offers bytes to the cache until the put ends.
fn offer<C: SegmentCache>(cache: &mut C, alloc: Global, id: SegmentId, bytes: &ByteBuffer)
    ensures { Offers id bytes.now (C.cache cache.old) (C.cache cache.new) }
{
    'wait: loop {
        match cache.poll_put(alloc, id, bytes) {
            CachePut::Pending => {}
            CachePut::Stored => return,
            CachePut::Passed => return,
            CachePut::Failed => return,
            CachePut::NoMemory => return,
        }
    }
}

// Polls the inner source, and offers bytes that come from it to the cache.
fn poll_source<C: SegmentCache, S: SegmentSource>(
    cache: &mut C,
    source: &mut S,
    alloc: Global,
    id: SegmentId,
) -> Polled
    requires { (S.state source.old).live id ≡ true }
    ensures once { PolledOnce S.polls id source.old source.new }
    ensures polls { PollsSource C.cache C.gets S.state S.polls S.fits id cache.old cache.new source.old source.new
        result }
{
    match source.poll_segment(alloc, id) {
        Polled::Pending => Polled::Pending,
        Polled::Bytes(bytes) => {
            offer(cache, alloc, id, &bytes);
            Polled::Bytes(bytes)
        }
        Polled::Missing => Polled::Missing,
        Polled::Failed => Polled::Failed,
        Polled::NoMemory => Polled::NoMemory,
    }
}

// Gives an id its first stage.
fn add_stage(stages: &mut BTreeMap<SegmentId, Stage>, id: SegmentId) -> Result<(), NoMemory>
    ensures ok { OnOk result ((q : ℕ) → stage_at stages.new.entries q ≡ cond (nat_eq id q) (Some stage.Looking)
        (stage_at stages.old.entries q)) }
    ensures live { OnOk result (has_stage stages.new.entries ≡ with_live id (has_stage stages.old.entries)) }
    ensures err { OnErr result (stages.new.entries ≡ stages.old.entries) }
{
    match stages.insert(id, Stage::Looking) {
        Ok(_) => Ok(()),
        Err(_) => Err(NoMemory),
    }
}

// Gives an id that has a stage another one.
fn set_stage(stages: &mut BTreeMap<SegmentId, Stage>, id: SegmentId, stage: Stage)
    requires { is_some (stage_at stages.old.entries id) ≡ true }
    ensures stages { (q : ℕ) → stage_at stages.new.entries q ≡ cond (nat_eq id q) (Some stage)
        (stage_at stages.old.entries q) }
    ensures live { has_stage stages.new.entries ≡ has_stage stages.old.entries }
{
    match stages.insert(id, stage) {
        Ok(_) => {}
        Err(_) => unreachable!(),
    }
}

// Ends a request: the id has no stage.
fn end(stages: &mut BTreeMap<SegmentId, Stage>, id: SegmentId)
    ensures stages { (q : ℕ) → stage_at stages.new.entries q ≡ cond (nat_eq id q) None (stage_at stages.old.entries q) }
    ensures live { has_stage stages.new.entries ≡ without_live id (has_stage stages.old.entries) }
{
    stages.remove(&id);
}

fn has_asked(stages: &BTreeMap<SegmentId, Stage>, id: SegmentId) -> bool
    ensures { result ≡ is_asked (stage_at stages.now.entries id) }
{
    match stages.get(&id) {
        Some(Stage::Asked) => true,
        Some(Stage::Looking) => false,
        Some(Stage::Found(_)) => false,
        None => false,
    }
}

// Polls a live id by its stage.
fn poll_stage<C: SegmentCache, S: SegmentSource>(
    cache: &mut C,
    source: &mut S,
    stages: &mut BTreeMap<SegmentId, Stage>,
    alloc: Global,
    id: SegmentId,
) -> Polled
    requires linked { IsLinked (S.state source.old).live stages.old.entries }
    requires there { is_some (stage_at stages.old.entries id) ≡ true }
    ensures once { is_asked (stage_at stages.old.entries id) ≡ true → PolledOnce S.polls id source.old source.new }
    ensures linked { IsLinked (S.state source.new).live stages.new.entries }
    ensures live { has_stage stages.new.entries ≡ live_after result id (has_stage stages.old.entries) }
    ensures steps { PollsBoth C.cache C.gets S.state S.polls S.fits id cache.old cache.new source.old source.new
        result (stage_at stages.new.entries id) (stage_at stages.old.entries id) }
    ensures others { KeepsStages id stages.old.entries stages.new.entries }
{
    match stages.get(&id) {
        Some(Stage::Looking) => poll_looking(cache, source, stages, alloc, id),
        Some(Stage::Asked) => poll_asked(cache, source, stages, alloc, id),
        Some(Stage::Found(bytes)) => match bytes.try_clone() {
            Ok(bytes) => {
                end(stages, id);
                Polled::Bytes(bytes)
            }
            Err(_) => Polled::NoMemory,
        },
        None => unreachable!(),
    }
}

// Polls an id that was asked of the inner source.
fn poll_asked<C: SegmentCache, S: SegmentSource>(
    cache: &mut C,
    source: &mut S,
    stages: &mut BTreeMap<SegmentId, Stage>,
    alloc: Global,
    id: SegmentId,
) -> Polled
    requires linked { IsLinked (S.state source.old).live stages.old.entries }
    requires asked { stage_at stages.old.entries id ≡ Some stage.Asked }
    ensures once { PolledOnce S.polls id source.old source.new }
    ensures linked { IsLinked (S.state source.new).live stages.new.entries }
    ensures live { has_stage stages.new.entries ≡ live_after result id (has_stage stages.old.entries) }
    ensures steps { PollsSource C.cache C.gets S.state S.polls S.fits id cache.old cache.new source.old source.new
        result }
    ensures stage { stage_at stages.new.entries id ≡ asked_after result }
    ensures others { KeepsStages id stages.old.entries stages.new.entries }
{
    let polled = poll_source(cache, source, alloc, id);
    match polled {
        Polled::Pending => Polled::Pending,
        Polled::NoMemory => Polled::NoMemory,
        Polled::Bytes(bytes) => {
            end(stages, id);
            Polled::Bytes(bytes)
        }
        Polled::Missing => {
            end(stages, id);
            Polled::Missing
        }
        Polled::Failed => {
            end(stages, id);
            Polled::Failed
        }
    }
}

// Polls an id whose lookup is pending.
fn poll_looking<C: SegmentCache, S: SegmentSource>(
    cache: &mut C,
    source: &mut S,
    stages: &mut BTreeMap<SegmentId, Stage>,
    alloc: Global,
    id: SegmentId,
) -> Polled
    requires linked { IsLinked (S.state source.old).live stages.old.entries }
    requires looking { stage_at stages.old.entries id ≡ Some stage.Looking }
    ensures linked { IsLinked (S.state source.new).live stages.new.entries }
    ensures live { has_stage stages.new.entries ≡ live_after result id (has_stage stages.old.entries) }
    ensures steps { LooksAgain C.cache C.gets S.state S.polls S.fits id cache.old cache.new source.old source.new
        result (stage_at stages.new.entries id) }
    ensures others { KeepsStages id stages.old.entries stages.new.entries }
{
    match look(cache, source, alloc, id) {
        Looked::Pending => Polled::Pending,
        Looked::NoMemory => Polled::NoMemory,
        Looked::Hit(bytes) => {
            end(stages, id);
            Polled::Bytes(bytes)
        }
        Looked::Asked => {
            set_stage(stages, id, Stage::Asked);
            poll_asked(cache, source, stages, alloc, id)
        }
    }
}
