//! Streams of a builder's scan, which is set up at the first poll. After the Rust's `scan::scan_builder`.
ghost use Rattle.std.specs.Prelude.{◌≡◌, true};
ghost use Rattle.scan_segments.specs.Source.{none_live};
ghost use Rattle.scan_streams.specs.Sources.{SourceMoves, NoId};
ghost use Rattle.scan_streams.specs.Streams.{LiveAs};
ghost use Rattle.scan_core.specs.LazyData.{waits, is_waiting, lazy_dtype, lazy_live, IsStarted, LazyApplies, MayAskLazy};
ghost use Rattle.scan_core.specs.LazyData.{PollsLazy, PollsStarted};
ghost use Rattle.scan_core.specs.LazyState.{lazy_state};
ghost use Rattle.scan_core.specs.Settings.{builder_by};

use crate::begin::{State, Waiting, asked};
use crate::builder::LentReader;
use crate::settings::ScanSettings;
use scan_readers::LayoutReader;
use scan_segments::SegmentSource;
use scan_streams::{Identity, MapStep, SetupFault, StreamFault, StreamPoll};
use scan_values::{DType, Nullability};
use std::alloc::Global;
use std::marker::Model;

/// A stream of all that a builder scans, which is set up at the first poll. Contracts see the builder before that, and
/// the stream after it; or, where the scan was refused, the dtype of the projection.
#[derive(Drop)]
pub struct LazyScanStream<'r, R: LayoutReader, M: Drop> {
    state: State<'r, R, M>,
}

impl<'r, R: LayoutReader, M: Drop> Model for LazyScanStream<'r, R, M> {
    ghost use Rattle.scan_core.specs.LazyData.{LazyStream, lazy_stream_code};
    ghost use Rattle.scan_core.specs.LazyState.{lazy_state};

    ghost Value = { LazyStream R M };

    ghost coded = { lazy_stream_code R.code M.code };

    ghost view = { λ a. lazy_state a.state };
}

impl<'r, R: LayoutReader + Drop, M: MapStep + Drop> LentReader<'r, R, ScanSettings<M>> {
    /// A stream of all that it scans, which is set up at the first poll.
    pub fn into_stream(self) -> LazyScanStream<'r, R, M>
        ensures { result ≡ waits (builder_by self.entry.reader.now self.entry.settings) }
    {
        LazyScanStream {
            state: State::Waiting(Waiting::new(self.into_kept())),
        }
    }
}

impl<'r, R: LayoutReader + Drop, E: Drop> LentReader<'r, R, ScanSettings<Identity<E>>> {
    /// A stream of the arrays of all that it scans, by `into_stream`.
    pub fn into_array_stream(self) -> LazyScanStream<'r, R, Identity<E>>
        ensures { result ≡ waits (builder_by self.entry.reader.now self.entry.settings) }
    {
        self.into_stream()
    }
}

impl<'r, R: LayoutReader + Drop, M: MapStep + Drop> LazyScanStream<'r, R, M> {
    /// The dtype of the projection.
    pub fn dtype(&self) -> &DType
        ensures { result.now ≡ lazy_dtype self.now }
    {
        match &self.state {
            State::Waiting(waiting) => waiting.builder().dtype(),
            State::Running(stream) => stream.dtype(),
            State::Refused(waiting, _) => waiting.builder().dtype(),
            State::Short(dtype) => dtype,
        }
    }

    /// What the map makes of the next array, once that is there. The first poll sets the scan up, or gives the fault of
    /// `ScanBuilder::prepare`, and asks nothing then. Before a fault and before the end it drops what is live, and from
    /// then on each poll gives the end.
    pub fn poll_next<S: SegmentSource>(
        &mut self,
        alloc: Global,
        source: &mut S,
    ) -> StreamPoll<M::Out, M::Fault>
        requires step { LazyApplies M.can_apply self.old }
        requires live { LiveAs (S.state source.old).live (lazy_live self.old) }
        ensures live { LiveAs (S.state source.new).live (lazy_live self.new) }
        ensures source { SourceMoves (MayAskLazy R.state (S.state source.old).holds self.old)
            (S.state source.old) (S.state source.new) }
        ensures answer { PollsLazy R.state M.answers (S.state source.old) (S.state source.new) self.old self.new result }
    {
        match self.start(alloc) {
            Ok(()) => self.go_on(alloc, source),
            Err(fault) => StreamPoll::Fault(StreamFault::Setup(fault)),
        }
    }

    /// Drops all that is live.
    pub fn cancel<S: SegmentSource>(self, source: &mut S)
        requires { LiveAs (S.state source.old).live (lazy_live self) }
        ensures idle { (S.state source.new).live ≡ none_live }
        ensures source { SourceMoves NoId (S.state source.old) (S.state source.new) }
    {
        let LazyScanStream { state } = self;
        cancel(state, source);
    }

    /// Sets the scan up, where it was not polled yet.
    #[tactic(auto, using(crate::proofs::Beginning::not_started))]
    fn start(&mut self, alloc: Global) -> Result<(), SetupFault>
        ensures { IsStarted R.state self.old self.new result }
    {
        if self.waits() {
            return started(alloc, &mut self.state);
        }
        Ok(())
    }

    /// Whether it was not polled yet.
    fn waits(&self) -> bool
        ensures { result ≡ is_waiting self.now }
    {
        match &self.state {
            State::Waiting(_) => true,
            _ => false,
        }
    }

    /// Polls the stream, where the scan is set up.
    fn go_on<S: SegmentSource>(
        &mut self,
        alloc: Global,
        source: &mut S,
    ) -> StreamPoll<M::Out, M::Fault>
        requires step { LazyApplies M.can_apply self.old }
        requires live { LiveAs (S.state source.old).live (lazy_live self.old) }
        ensures live { LiveAs (S.state source.new).live (lazy_live self.new) }
        ensures source { SourceMoves (MayAskLazy R.state (S.state source.old).holds self.old)
            (S.state source.old) (S.state source.new) }
        ensures answer { PollsStarted M.answers (S.state source.old) (S.state source.new) self.old self.new result }
    {
        poll(alloc, &mut self.state, source)
    }
}

/// Sets a waiting scan up, and tells why it is refused.
#[tactic(auto, using(crate::proofs::Beginning::started_by))]
fn started<'r, R: LayoutReader + Drop, M: MapStep + Drop>(
    alloc: Global,
    state: &mut State<'r, R, M>,
) -> Result<(), SetupFault>
    requires { is_waiting (lazy_state state.old) ≡ true }
    ensures { IsStarted R.state (lazy_state state.old) (lazy_state state.new) result }
{
    let none = State::Short(DType::bool(Nullability::NonNullable));
    let waiting = std::mem::replace(state, none);
    let begun = asked(alloc, waiting);
    let fault = begun.fault();
    leave(std::mem::replace(state, begun));
    fault
}

/// Polls the stream of a state that has one.
fn poll<'r, R: LayoutReader + Drop, M: MapStep + Drop, S: SegmentSource>(
    alloc: Global,
    state: &mut State<'r, R, M>,
    source: &mut S,
) -> StreamPoll<M::Out, M::Fault>
    requires step { LazyApplies M.can_apply (lazy_state state.old) }
    requires live { LiveAs (S.state source.old).live (lazy_live (lazy_state state.old)) }
    ensures live { LiveAs (S.state source.new).live (lazy_live (lazy_state state.new)) }
    ensures source { SourceMoves (MayAskLazy R.state (S.state source.old).holds (lazy_state state.old))
        (S.state source.old) (S.state source.new) }
    ensures answer { PollsStarted M.answers (S.state source.old) (S.state source.new)
        (lazy_state state.old) (lazy_state state.new) result }
{
    match state {
        State::Running(stream) => stream.poll_next(alloc, source),
        State::Waiting(_) => StreamPoll::End,
        State::Refused(_, _) => StreamPoll::End,
        State::Short(_) => StreamPoll::End,
    }
}

/// Drops all that is live of a state that has a stream.
fn cancel<'r, R: LayoutReader + Drop, M: MapStep + Drop, S: SegmentSource>(
    state: State<'r, R, M>,
    source: &mut S,
)
    requires { LiveAs (S.state source.old).live (lazy_live (lazy_state state)) }
    ensures idle { (S.state source.new).live ≡ none_live }
    ensures source { SourceMoves NoId (S.state source.old) (S.state source.new) }
{
    match state {
        State::Running(stream) => stream.cancel(source),
        state => leave(state),
    }
}

/// Drops a state.
fn leave<'r, R: LayoutReader + Drop, M: MapStep + Drop>(_state: State<'r, R, M>) {}
