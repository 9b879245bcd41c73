//! Iterators over a builder's scan, which is set up at the first call. After the Rust's `scan::scan_builder`.
ghost use Rattle.std.specs.Prelude.{◌≡◌, true};
ghost use Rattle.scan_segments.specs.Source.{none_live};
ghost use Rattle.scan_core.specs.LazyData.{is_waiting, waits};
ghost use Rattle.scan_core.specs.LazyIter.{iter_dtype, IsIdle, IsIterStarted, IterApplies, NextsLazy, NextsStarted};
ghost use Rattle.scan_core.specs.LazyIterState.{iter_fault, iter_state, over_source, IsFresh, IterComes};
ghost use Rattle.scan_core.specs.Settings.{builder_by};

use crate::begin::{State, Waiting, begin};
use crate::builder::LentReader;
use crate::settings::ScanSettings;
use scan_readers::LayoutReader;
use scan_segments::SegmentSource;
use scan_streams::{ArrayIter, Identity, MapStep, SetupFault, StreamFault};
use scan_values::{DType, Nullability};
use std::alloc::Global;
use std::marker::Model;

/// How far a lazy iterator is.
#[derive(Drop)]
enum IterState<'r, R: LayoutReader, M: Drop, S: SegmentSource> {
    /// It was not asked yet.
    Waiting(Waiting<'r, R, M>, S),
    /// The iterator over the source.
    Running(ArrayIter<M, S>),
    /// Its scan is refused before it is set up.
    Refused(Waiting<'r, R, M>, SetupFault),
    /// Memory was short while its scan was set up. This is the dtype of the projection.
    Short(DType),
}

/// What a map makes of the arrays of all that a builder scans, over a source of its own. The scan is set up at the first
/// call. Contracts see the builder and the source before that, and the iterator after it; or, where the scan was refused,
/// the dtype of the projection.
#[derive(Drop)]
pub struct ScanIter<'r, R: LayoutReader, M: Drop, S: SegmentSource> {
    state: IterState<'r, R, M, S>,
}

impl<'r, R: LayoutReader, M: Drop, S: SegmentSource> Model for ScanIter<'r, R, M, S> {
    ghost use Rattle.scan_core.specs.LazyIter.{LazyIter, lazy_iter_code, IsIdle};
    ghost use Rattle.scan_core.specs.LazyIterState.{iter_state};

    ghost Value = { LazyIter R M S };

    ghost coded = { lazy_iter_code R.code M.code S.code };

    ghost view = { λ a. iter_state a.state };

    ghost invariant = { λ a. IsIdle S.state (iter_state a.state) };
}

impl<'r, R: LayoutReader + Drop, M: MapStep + Drop> LentReader<'r, R, ScanSettings<M>> {
    /// What the map makes of the arrays of all that it scans, over a source that has no live request. The scan is set up
    /// at the first call.
    pub fn into_iter<S: SegmentSource + Drop>(self, source: S) -> ScanIter<'r, R, M, S>
        requires idle { (S.state source).live ≡ none_live }
        ensures { result ≡ waits (builder_by self.entry.reader.now self.entry.settings, source) }
    {
        ScanIter {
            state: IterState::Waiting(Waiting::new(self.into_kept()), source),
        }
    }
}

impl<'r, R: LayoutReader + Drop, E: Drop> LentReader<'r, R, ScanSettings<Identity<E>>> {
    /// The arrays of all that it scans, by `into_iter`.
    pub fn into_array_iter<S: SegmentSource + Drop>(
        self,
        source: S,
    ) -> ScanIter<'r, R, Identity<E>, S>
        requires idle { (S.state source).live ≡ none_live }
        ensures { result ≡ waits (builder_by self.entry.reader.now self.entry.settings, source) }
    {
        self.into_iter(source)
    }
}

impl<'r, R: LayoutReader + Drop, M: MapStep + Drop, S: SegmentSource + Drop> ScanIter<'r, R, M, S> {
    /// The dtype of the projection.
    pub fn dtype(&self) -> &DType
        ensures { result.now ≡ iter_dtype self.now }
    {
        match &self.state {
            IterState::Waiting(waiting, _) => waiting.builder().dtype(),
            IterState::Running(iter) => iter.dtype(),
            IterState::Refused(waiting, _) => waiting.builder().dtype(),
            IterState::Short(dtype) => dtype,
        }
    }

    /// What the map makes of the next array, however often the source puts off an answer, and none where no array is
    /// left. The first call sets the scan up, or gives the fault of `ScanBuilder::prepare`. A fault is given once; after
    /// it, and after none, there is none.
    pub fn next(&mut self, alloc: Global) -> Option<Result<M::Out, StreamFault<M::Fault>>>
        requires step { IterApplies M.can_apply self.old }
        ensures answer { NextsLazy R.state S.state M.answers self.old self.new result }
    {
        match self.start(alloc) {
            Ok(()) => self.go_on(alloc),
            Err(fault) => Some(Err(StreamFault::Setup(fault))),
        }
    }

    /// Sets the scan up, where nothing was asked yet.
    #[tactic(auto, using(crate::proofs::Iterating::iter_not_started))]
    fn start(&mut self, alloc: Global) -> Result<(), SetupFault>
        ensures { IsIterStarted R.state self.old self.new result }
    {
        if self.waits() {
            return started(alloc, &mut self.state);
        }
        Ok(())
    }

    /// Whether nothing was asked yet.
    fn waits(&self) -> bool
        ensures { result ≡ is_waiting self.now }
    {
        match &self.state {
            IterState::Waiting(_, _) => true,
            _ => false,
        }
    }

    /// What comes next of the iterator, where there is one.
    fn go_on(&mut self, alloc: Global) -> Option<Result<M::Out, StreamFault<M::Fault>>>
        requires step { IterApplies M.can_apply self.old }
        ensures answer { NextsStarted S.state M.answers self.old self.new result }
    {
        next_of(alloc, &mut self.state)
    }
}

/// Sets a waiting scan up, and tells why it is refused.
#[tactic(auto, using(crate::proofs::Iterating::iter_started_by))]
fn started<'r, R: LayoutReader + Drop, M: MapStep + Drop, S: SegmentSource + Drop>(
    alloc: Global,
    state: &mut IterState<'r, R, M, S>,
) -> Result<(), SetupFault>
    requires waits { is_waiting (iter_state state.old) ≡ true }
    requires idle { IsIdle S.state (iter_state state.old) }
    ensures started { IsIterStarted R.state (iter_state state.old) (iter_state state.new) result }
    ensures idle { IsIdle S.state (iter_state state.new) }
{
    let none = IterState::Short(DType::bool(Nullability::NonNullable));
    let waiting = std::mem::replace(state, none);
    let begun = asked(alloc, waiting);
    let fault = fault_of(&begun);
    leave(std::mem::replace(state, begun));
    fault
}

/// A state in which no builder waits: what comes of it is there.
#[tactic(auto, using(crate::proofs::Iterating::begun_over, crate::proofs::Iterating::fresh_begun, crate::proofs::Iterating::idle_over))]
fn asked<'r, R: LayoutReader + Drop, M: MapStep + Drop, S: SegmentSource + Drop>(
    alloc: Global,
    state: IterState<'r, R, M, S>,
) -> IterState<'r, R, M, S>
    requires { IsIdle S.state (iter_state state) }
    ensures comes { IterComes R.state state.entry result }
    ensures idle { IsIdle S.state (iter_state result) }
{
    match state {
        IterState::Waiting(waiting, source) => {
            with_source(begin(alloc, waiting.into_builder()), source)
        }
        state => state,
    }
}

/// What comes of a builder, over a source that has no live request.
fn with_source<'r, R: LayoutReader + Drop, M: MapStep + Drop, S: SegmentSource + Drop>(
    state: State<'r, R, M>,
    source: S,
) -> IterState<'r, R, M, S>
    requires fresh { IsFresh state }
    requires idle { (S.state source).live ≡ none_live }
    ensures { result ≡ over_source state.entry source }
{
    match state {
        State::Waiting(waiting) => IterState::Waiting(waiting, source),
        State::Running(stream) => IterState::Running(ArrayIter::new(stream, source)),
        State::Refused(waiting, fault) => IterState::Refused(waiting, fault),
        State::Short(dtype) => IterState::Short(dtype),
    }
}

/// Why there is no iterator.
fn fault_of<'r, R: LayoutReader + Drop, M: MapStep + Drop, S: SegmentSource + Drop>(
    state: &IterState<'r, R, M, S>,
) -> Result<(), SetupFault>
    ensures { result ≡ iter_fault state.now }
{
    match state {
        IterState::Refused(_, fault) => Err(*fault),
        IterState::Short(_) => Err(SetupFault::NoMemory),
        _ => Ok(()),
    }
}

/// What comes next of a state that has an iterator.
fn next_of<'r, R: LayoutReader + Drop, M: MapStep + Drop, S: SegmentSource + Drop>(
    alloc: Global,
    state: &mut IterState<'r, R, M, S>,
) -> Option<Result<M::Out, StreamFault<M::Fault>>>
    requires step { IterApplies M.can_apply (iter_state state.old) }
    requires idle { IsIdle S.state (iter_state state.old) }
    ensures answer { NextsStarted S.state M.answers (iter_state state.old) (iter_state state.new) result }
    ensures idle { IsIdle S.state (iter_state state.new) }
{
    match state {
        IterState::Running(iter) => iter.next(alloc),
        IterState::Waiting(_, _) => None,
        IterState::Refused(_, _) => None,
        IterState::Short(_) => None,
    }
}

/// Drops a state.
fn leave<'r, R: LayoutReader + Drop, M: MapStep + Drop, S: SegmentSource + Drop>(
    _state: IterState<'r, R, M, S>,
) {}
