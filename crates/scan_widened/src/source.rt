//! A source of the segments of a file under another dtype, over the file's own.
ghost use Rattle.std.specs.Prelude.{◌≡◌, vec_len, vec_capacity, ◌≤◌, ◌<◌, ◌^◌, ℕ, List, [], nat_eq, cond, is_some, true, false, Option, Some, None, IfSome, OnOk, OnErr, All, slice_get};
ghost use Rattle.scan_segments.specs.Source.{none_live, with_live, without_live, Stays, TellsBytes, TellsNone};
ghost use Rattle.scan_segments.specs.declared.source.Polled.TheVariants as plain;
ghost use Rattle.scan_sharing.specs.Sharing.{Agree, entry_at, is_held};
ghost use Rattle.scan_sharing.specs.SharedTables.{Asks};
ghost use Rattle.scan_sharing.specs.declared.holder.SharedPolled.TheVariants as polled;
ghost use Rattle.scan_widen.specs.Parts.{IsReadable};
ghost use Rattle.scan_widen.specs.Stores.{inner_id, made_behind};
ghost use Rattle.scan_widen.specs.declared.behind.Behind.{Behind};
ghost use Rattle.scan_widened.specs.declared.stage.Stage.{Stage as StageModel};
ghost use Rattle.scan_widened.specs.declared.stage.Stage.TheVariants as stage;
ghost use Rattle.scan_widened.specs.Identity.{inner_of};
ghost use Rattle.scan_widened.specs.Sources.{stage_at, has_stage, IsTied, IsWhole, IsToldShared, IsToldOver, IsReadOver, IsMadeOver, StandsOver, noted, left_live, count_failed, Rests, HoldersStand, state_of, fresh, Follow};

use crate::stage::Stage;
use scan_segments::{ByteBuffer, Fits, Polled, Polls, SegmentId, SegmentSource};
use scan_sharing::{Holder, SharedPolled, SharedTable};
use scan_spelling::DecodeFault;
use scan_values::NoMemory;
use scan_widen::Behind;
use std::alloc::Global;
use std::collections::HashMap;
use std::marker::Model;

/// The segments of a file under another dtype, numbered from 0. A segment behind which one of the file stands is asked of the
/// file's source, once for all that are live, and what comes is widened; the others ask nothing. Contracts see which source
/// it stands over, what stands behind each segment, and what was asked of both since it was made.
///
/// As a source it holds the widened segments where the file's source tells, and can still put off an answer as often as that
/// one. It fails where that one fails. What is missing there, or does not decode, is missing here. Before the ids that were
/// asked of it its list of asks has a mark of what it stands over, by which `into_inner` tells what its use did to the file's
/// own source.
#[derive(Drop)]
pub struct UnionSource<S: SegmentSource> {
    inner: S,
    behind: Vec<Behind>,
    table: SharedTable,
    asked: Vec<SegmentId>,
    inner_asked: Vec<SegmentId>,
    stages: HashMap<SegmentId, Stage>,
    faults: u64,
    before: u64,
}

impl<S: SegmentSource> Model for UnionSource<S> {
    ghost use Rattle.scan_widened.specs.Sources.{UnionState, IsWhole};

    ghost Value = { UnionState S };

    ghost use Rattle.std.specs.Coded.{codes};
    ghost use Rattle.scan_widened.specs.BehindCode.{behind_code};

    ghost coded = { Prim.hlevel (codes, behind_code, S.code) };

    ghost view = { λ a. record {
      inner = a.inner;
      behind = a.behind.items;
      table = a.table;
      asked = a.asked.items;
      inner_asked = a.inner_asked.items;
      stages = a.stages.entries;
      faults = a.faults;
      before = a.before;
    } };

    ghost invariant = { λ a. IsWhole S.state (record {
      inner = a.inner;
      behind = a.behind.items;
      table = a.table;
      asked = a.asked.items;
      inner_asked = a.inner_asked.items;
      stages = a.stages.entries;
      faults = a.faults;
      before = a.before;
    }) };
}

impl<S: SegmentSource> UnionSource<S> {
    /// A source of segments numbered from 0, behind which these stand, over a source without a live request.
    pub fn new(alloc: Global, inner: S, behind: Vec<Behind>) -> Self
        requires idle { (S.state inner).live ≡ none_live }
        requires readable { All IsReadable behind.items }
        ensures { result ≡ fresh S.state inner behind.items }
    {
        let before = inner.fault_count();
        UnionSource {
            inner,
            behind,
            table: SharedTable::new(alloc),
            asked: Vec::new(alloc),
            inner_asked: Vec::new(alloc),
            stages: HashMap::new(alloc),
            faults: 0,
            before,
        }
    }

    /// The file's segment behind one, where there is one.
    pub fn inner_of(&self, id: SegmentId) -> Option<SegmentId>
        ensures { result ≡ inner_of self.now.behind id }
    {
        inner_at(&self.behind, id)
    }

    /// The file's own source. Whatever was done to this one since it was made, if it is lent as it was, the file's own tells
    /// the same, has no live request, and was asked for what stands behind the segments that were asked here, and for nothing
    /// else.
    pub fn into_inner(self) -> S
        ensures inner { result ≡ self.inner }
        ensures follows { Follow S.state self }
    {
        let UnionSource {
            inner,
            behind: _,
            table: _,
            asked: _,
            inner_asked: _,
            stages: _,
            faults: _,
            before: _,
        } = self;
        inner
    }
}

// What stands behind a segment.
fn behind_at(behind: &[Behind], id: SegmentId) -> Option<Behind>
    ensures { result ≡ slice_get behind.now id }
{
    behind.get(*id as usize).copied()
}

// The file's segment behind one, where there is one.
fn inner_at(behind: &[Behind], id: SegmentId) -> Option<SegmentId>
    ensures { result ≡ inner_of behind.now id }
{
    match behind_at(behind, id) {
        Some(behind) => behind.inner(),
        None => None,
    }
}

// ---- the stages of live segments

// Gives an id that has no stage its first.
fn add_stage(stages: &mut HashMap<SegmentId, Stage>, id: SegmentId) -> Result<(), NoMemory>
    ensures ok { OnOk result ((q : ℕ) → stage_at stages.new.entries q ≡ cond (nat_eq id q) (Some stage.Made)
        (stage_at stages.old.entries q)) }
    ensures err { OnErr result (stages.new.entries ≡ stages.old.entries) }
{
    match stages.insert(id, Stage::Made) {
        Ok(_) => Ok(()),
        Err(_) => Err(NoMemory),
    }
}

// Gives an id that has a stage another one.
fn set_stage(stages: &mut HashMap<SegmentId, Stage>, id: SegmentId, stage: Stage)
    requires { is_some (stage_at stages.old.entries id) ≡ true }
    ensures { (q : ℕ) → stage_at stages.new.entries q ≡ cond (nat_eq id q) (Some stage) (stage_at stages.old.entries q) }
{
    match stages.insert(id, stage) {
        Ok(_) => {}
        Err(_) => unreachable!(),
    }
}

// Takes the stage of an id.
fn take_stage(stages: &mut HashMap<SegmentId, Stage>, id: SegmentId)
    ensures { (q : ℕ) → stage_at stages.new.entries q ≡ cond (nat_eq id q) None (stage_at stages.old.entries q) }
{
    stages.remove(&id);
}

// ---- the requests of the file's source

// Begins a request of an id that has no stage, behind which a segment of the file stands.
fn begin<S: SegmentSource>(
    table: &mut SharedTable,
    source: &mut S,
    stages: &mut HashMap<SegmentId, Stage>,
    alloc: Global,
    before: u64,
    id: SegmentId,
    inner: SegmentId,
) -> Result<(), NoMemory>
    requires agree { Agree (S.state source.old).live (entry_at table.old) }
    requires fresh { stage_at stages.old.entries id ≡ None }
    ensures tied { (behind : List Behind) → inner_of behind id ≡ Some inner →
        IsTied (S.state source.old) before behind table.old stages.old.entries →
        IsTied (S.state source.new) before behind table.new stages.new.entries }
    ensures live { OnOk result (has_stage stages.new.entries ≡ with_live id (has_stage stages.old.entries)) }
    ensures err { OnErr result (has_stage stages.new.entries ≡ has_stage stages.old.entries) }
    ensures asks { OnOk result (Asks (entry_at table.old inner) inner (S.state source.old) (S.state source.new)) }
    ensures refused { OnErr result (Stays (S.state source.old) (S.state source.new)) }
{
    add_stage(stages, id)?;
    match table.request(alloc, inner, source) {
        Ok(holder) => {
            set_stage(stages, id, Stage::Held(holder));
            Ok(())
        }
        Err(refused) => {
            take_stage(stages, id);
            Err(refused)
        }
    }
}

// Polls the request that a stage holds.
fn poll_shared<S: SegmentSource>(
    table: &mut SharedTable,
    source: &mut S,
    alloc: Global,
    before: u64,
    holder: &Holder,
) -> SharedPolled
    requires agree { Agree (S.state source.old).live (entry_at table.old) }
    requires held { is_held holder.now.number (entry_at table.old holder.now.id) ≡ true }
    ensures tied { (behind : List Behind) (st : List (ℕ × StageModel)) → before ≤ (S.state source.old).faults →
        IsTied (S.state source.old) before behind table.old st → IsTied (S.state source.new) before behind table.new st }
    ensures told { (behind : List Behind) (st : List (ℕ × StageModel)) → before ≤ (S.state source.old).faults →
        IsTied (S.state source.old) before behind table.old st →
        IsToldShared (S.state source.new) before holder.now.id result }
    ensures rests { Rests (S.state source.old) (S.state source.new) }
    ensures pending { result ≡ polled.Pending → (S.state source.new).turns < (S.state source.old).turns }
{
    table.poll(alloc, holder, source)
}

// Ends the request of a live id, whose stage may hold one of the file's source.
fn end<S: SegmentSource>(
    table: &mut SharedTable,
    source: &mut S,
    stages: &mut HashMap<SegmentId, Stage>,
    before: u64,
    id: SegmentId,
)
    requires agree { Agree (S.state source.old).live (entry_at table.old) }
    requires held { HoldersStand table.old stages.old.entries }
    ensures tied { (behind : List Behind) → IsTied (S.state source.old) before behind table.old stages.old.entries →
        IsTied (S.state source.new) before behind table.new stages.new.entries }
    ensures rests { Rests (S.state source.old) (S.state source.new) }
    ensures live { has_stage stages.new.entries ≡ without_live id (has_stage stages.old.entries) }
{
    match stages.remove(&id) {
        Some(Stage::Held(holder)) => table.drop_holder(holder, source),
        Some(Stage::Made) => {}
        None => {}
    }
}

// Notes that the file's source was asked for a segment, unless its request was shared.
fn note(inner_asked: &mut Vec<SegmentId>, shared: bool, inner: SegmentId)
    requires { vec_len inner_asked.old < vec_capacity inner_asked.old }
    ensures { inner_asked.new.items ≡ noted shared inner_asked.old.items inner }
{
    if !shared {
        inner_asked.push_reserved(inner);
    }
}

// ---- what a poll answers

// The bytes of the file's segment as those of one behind which it stands.
fn read_over(alloc: Global, behind: Behind, bytes: ByteBuffer) -> Polled
    requires inner { is_some (inner_id behind) ≡ true }
    requires readable { IsReadable behind }
    ensures { IsReadOver behind bytes result }
{
    match behind.read(alloc, bytes) {
        Ok(bytes) => Polled::Bytes(bytes),
        Err(DecodeFault::Spelling) => Polled::Missing,
        Err(DecodeFault::NoMemory) => Polled::NoMemory,
    }
}

// The bytes of a segment behind which none of the file stands.
fn make_over(alloc: Global, behind: Behind) -> Polled
    requires { inner_id behind ≡ None }
    ensures { IsMadeOver behind result }
{
    match behind.made(alloc) {
        Ok(bytes) => Polled::Bytes(bytes),
        Err(NoMemory) => Polled::NoMemory,
    }
}

// Polls the request that a stage holds, of the segment that stands behind.
fn poll_held<S: SegmentSource>(
    table: &mut SharedTable,
    source: &mut S,
    alloc: Global,
    before: u64,
    holder: &Holder,
    behind: Behind,
) -> Polled
    requires agree { Agree (S.state source.old).live (entry_at table.old) }
    requires held { is_held holder.now.number (entry_at table.old holder.now.id) ≡ true }
    requires inner { inner_id behind ≡ Some holder.now.id }
    requires readable { IsReadable behind }
    ensures tied { (all : List Behind) (st : List (ℕ × StageModel)) → before ≤ (S.state source.old).faults →
        IsTied (S.state source.old) before all table.old st → IsTied (S.state source.new) before all table.new st }
    ensures told { (all : List Behind) (st : List (ℕ × StageModel)) → before ≤ (S.state source.old).faults →
        IsTied (S.state source.old) before all table.old st → IsToldOver (S.state source.new) before (Some behind) result }
    ensures rests { Rests (S.state source.old) (S.state source.new) }
    ensures pending { result ≡ plain.Pending → (S.state source.new).turns < (S.state source.old).turns }
{
    match poll_shared(table, source, alloc, before, holder) {
        SharedPolled::Pending => Polled::Pending,
        SharedPolled::Bytes(bytes) => read_over(alloc, behind, bytes),
        SharedPolled::Missing => Polled::Missing,
        SharedPolled::Failed(_) => Polled::Failed,
        SharedPolled::NoMemory => Polled::NoMemory,
    }
}

// Polls a live id, behind which this stands. Its stage stays.
fn poll_over<S: SegmentSource>(
    table: &mut SharedTable,
    source: &mut S,
    stages: &HashMap<SegmentId, Stage>,
    alloc: Global,
    before: u64,
    id: SegmentId,
    behind: Behind,
) -> Polled
    requires agree { Agree (S.state source.old).live (entry_at table.old) }
    requires live { has_stage stages.now.entries id ≡ true }
    requires stands { StandsOver table.old stages.now.entries id (Some behind) }
    ensures tied { (all : List Behind) → before ≤ (S.state source.old).faults →
        IsTied (S.state source.old) before all table.old stages.now.entries →
        IsTied (S.state source.new) before all table.new stages.now.entries }
    ensures told { (all : List Behind) → before ≤ (S.state source.old).faults →
        IsTied (S.state source.old) before all table.old stages.now.entries →
        IsToldOver (S.state source.new) before (Some behind) result }
    ensures rests { Rests (S.state source.old) (S.state source.new) }
    ensures pending { result ≡ plain.Pending → (S.state source.new).turns < (S.state source.old).turns }
{
    match stages.get(&id) {
        Some(Stage::Held(holder)) => poll_held(table, source, alloc, before, holder, behind),
        Some(Stage::Made) => make_over(alloc, behind),
        None => unreachable!(),
    }
}

// Polls a live id. Nothing is there where nothing stands behind it.
fn poll_stage<S: SegmentSource>(
    table: &mut SharedTable,
    source: &mut S,
    stages: &HashMap<SegmentId, Stage>,
    alloc: Global,
    before: u64,
    id: SegmentId,
    behind: Option<Behind>,
) -> Polled
    requires agree { Agree (S.state source.old).live (entry_at table.old) }
    requires live { has_stage stages.now.entries id ≡ true }
    requires stands { StandsOver table.old stages.now.entries id behind }
    ensures tied { (all : List Behind) → before ≤ (S.state source.old).faults →
        IsTied (S.state source.old) before all table.old stages.now.entries →
        IsTied (S.state source.new) before all table.new stages.now.entries }
    ensures told { (all : List Behind) → before ≤ (S.state source.old).faults →
        IsTied (S.state source.old) before all table.old stages.now.entries →
        IsToldOver (S.state source.new) before behind result }
    ensures rests { Rests (S.state source.old) (S.state source.new) }
    ensures pending { result ≡ plain.Pending → (S.state source.new).turns < (S.state source.old).turns }
{
    match behind {
        Some(behind) => poll_over(table, source, stages, alloc, before, id, behind),
        None => Polled::Missing,
    }
}

// Ends the request of a live id, unless it has no answer yet.
fn settle<S: SegmentSource>(
    table: &mut SharedTable,
    source: &mut S,
    stages: &mut HashMap<SegmentId, Stage>,
    before: u64,
    id: SegmentId,
    polled: &Polled,
)
    requires agree { Agree (S.state source.old).live (entry_at table.old) }
    requires held { HoldersStand table.old stages.old.entries }
    ensures tied { (behind : List Behind) → IsTied (S.state source.old) before behind table.old stages.old.entries →
        IsTied (S.state source.new) before behind table.new stages.new.entries }
    ensures rests { Rests (S.state source.old) (S.state source.new) }
    ensures live { has_stage stages.new.entries ≡ left_live polled.now id (has_stage stages.old.entries) }
{
    match polled {
        Polled::Pending => {}
        Polled::NoMemory => {}
        Polled::Bytes(_) => end(table, source, stages, before, id),
        Polled::Missing => end(table, source, stages, before, id),
        Polled::Failed => end(table, source, stages, before, id),
    }
}

// The failures that were given, with that of an answer.
fn count_failed(faults: u64, polled: &Polled) -> u64
    ensures { result ≡ count_failed faults polled.now }
{
    match polled {
        Polled::Failed => faults.saturating_add(1),
        Polled::Pending => faults,
        Polled::NoMemory => faults,
        Polled::Bytes(_) => faults,
        Polled::Missing => faults,
    }
}

// ---- the source

impl<S: SegmentSource> Fits for UnionSource<S> {
    ghost fits = { λ id bytes. Unit {0} };
}

impl<S: SegmentSource> Polls for UnionSource<S> {
    ghost polls = { λ s id t r. Unit {0} };
}

impl<S: SegmentSource> SegmentSource for UnionSource<S> {
    ghost state = { state_of S.state };

    fn request(&mut self, alloc: Global, id: SegmentId) -> Result<(), NoMemory> {
        self.asked.reserve(1)?;
        self.inner_asked.reserve(1)?;
        match inner_at(&self.behind, id) {
            Some(inner) => {
                let shared = self.table.contains(inner);
                begin(
                    &mut self.table,
                    &mut self.inner,
                    &mut self.stages,
                    alloc,
                    self.before,
                    id,
                    inner,
                )?;
                note(&mut self.inner_asked, shared, inner);
                self.asked.push_reserved(id);
                Ok(())
            }
            None => {
                add_stage(&mut self.stages, id)?;
                self.asked.push_reserved(id);
                Ok(())
            }
        }
    }

    fn poll_segment(&mut self, alloc: Global, id: SegmentId) -> Polled {
        let behind = behind_at(&self.behind, id);
        let polled = poll_stage(
            &mut self.table,
            &mut self.inner,
            &self.stages,
            alloc,
            self.before,
            id,
            behind,
        );
        settle(
            &mut self.table,
            &mut self.inner,
            &mut self.stages,
            self.before,
            id,
            &polled,
        );
        self.faults = count_failed(self.faults, &polled);
        polled
    }

    fn drop_request(&mut self, id: SegmentId) {
        end(
            &mut self.table,
            &mut self.inner,
            &mut self.stages,
            self.before,
            id,
        );
    }

    fn fault_count(&self) -> u64 {
        self.faults
    }
}
