//! The streams that builders begin, and why they do not. After the Rust's `scan::scan_builder`.
ghost use Rattle.std.specs.Prelude.{◌≡◌, IfOk, None};
ghost use Rattle.scan_core.specs.LazyData.{builder_dtype, IsStreamOfBuilder};
ghost use Rattle.scan_core.specs.LazyState.{state_fault, Comes, IsBegun};
ghost use Rattle.scan_core.specs.Setup.{setup_fault};

use crate::kept_builder::KeptBuilder;
use scan_readers::LayoutReader;
use scan_streams::{MapStep, ScanStream, SetupFault};
use scan_values::DType;
use std::alloc::Global;

/// A builder whose scan is set up later, or never. It is dropped by hand, so that no drop of what keeps it looks into it.
pub(crate) struct Waiting<'r, R: LayoutReader, M: Drop> {
    builder: KeptBuilder<'r, R, M>,
}

impl<'r, R: LayoutReader, M: Drop> Waiting<'r, R, M> {
    /// A builder that waits.
    pub(crate) fn new(builder: KeptBuilder<'r, R, M>) -> Self
        ensures { result.builder ≡ builder.entry }
    {
        Waiting { builder }
    }

    /// The builder, to be looked at.
    pub(crate) fn builder(&self) -> &KeptBuilder<'r, R, M>
        ensures { result.now ≡ self.now.builder }
    {
        &self.builder
    }

    /// The builder, to be set up.
    pub(crate) fn into_builder(self) -> KeptBuilder<'r, R, M>
        ensures { result ≡ self.entry.builder }
    {
        let Waiting { builder } = self;
        builder
    }
}

impl<R: LayoutReader, M: Drop> Drop for Waiting<'_, R, M> {
    fn drop(self) {
        let Waiting { builder: _builder } = self;
    }
}

/// How far a scan is that is set up when it is first asked.
#[derive(Drop)]
pub(crate) enum State<'r, R: LayoutReader, M: Drop> {
    /// It was not asked yet.
    Waiting(Waiting<'r, R, M>),
    /// The stream of all that is scanned.
    Running(ScanStream<M>),
    /// It is refused before it is set up.
    Refused(Waiting<'r, R, M>, SetupFault),
    /// Memory was short while it was set up. This is the dtype of its projection.
    Short(DType),
}

impl<'r, R: LayoutReader + Drop, M: MapStep + Drop> State<'r, R, M> {
    /// Why there is no stream.
    pub(crate) fn fault(&self) -> Result<(), SetupFault>
        ensures { result ≡ state_fault self.now }
    {
        match self {
            State::Refused(_, fault) => Err(*fault),
            State::Short(_) => Err(SetupFault::NoMemory),
            _ => Ok(()),
        }
    }
}

/// A state in which no builder waits: what comes of it is there.
pub(crate) fn asked<'r, R: LayoutReader + Drop, M: MapStep + Drop>(
    alloc: Global,
    state: State<'r, R, M>,
) -> State<'r, R, M>
    ensures { Comes R.state state.entry result }
{
    match state {
        State::Waiting(waiting) => begin(alloc, waiting.into_builder()),
        state => state,
    }
}

/// What comes of a builder: the stream of all that it scans, or why there is none.
pub(crate) fn begin<'r, R: LayoutReader + Drop, M: MapStep + Drop>(
    alloc: Global,
    builder: KeptBuilder<'r, R, M>,
) -> State<'r, R, M>
    ensures { IsBegun R.state builder.entry result }
{
    match builder.check() {
        Ok(()) => begin_lawful(alloc, builder),
        Err(fault) => State::Refused(Waiting::new(builder), fault),
    }
}

/// The same of a builder with whose settings nothing is wrong.
fn begin_lawful<'r, R: LayoutReader + Drop, M: MapStep + Drop>(
    alloc: Global,
    builder: KeptBuilder<'r, R, M>,
) -> State<'r, R, M>
    requires { setup_fault builder (R.state builder.reader).rows ≡ None }
    ensures { IsBegun R.state builder.entry result }
{
    match builder.dtype().try_clone(alloc) {
        Ok(dtype) => begin_of(alloc, builder, dtype),
        Err(_) => State::Refused(Waiting::new(builder), SetupFault::NoMemory),
    }
}

/// The same of one whose projection is of this dtype.
fn begin_of<'r, R: LayoutReader + Drop, M: MapStep + Drop>(
    alloc: Global,
    builder: KeptBuilder<'r, R, M>,
    dtype: DType,
) -> State<'r, R, M>
    requires lawful { setup_fault builder (R.state builder.reader).rows ≡ None }
    requires dtype { dtype ≡ builder_dtype builder }
    ensures { IsBegun R.state builder.entry result }
{
    match stream_of(alloc, builder) {
        Ok(stream) => State::Running(stream),
        Err(_) => State::Short(dtype),
    }
}

/// The stream of all that a builder scans with whose settings nothing is wrong.
fn stream_of<'r, R: LayoutReader + Drop, M: MapStep + Drop>(
    alloc: Global,
    builder: KeptBuilder<'r, R, M>,
) -> Result<ScanStream<M>, SetupFault>
    requires { setup_fault builder (R.state builder.reader).rows ≡ None }
    ensures { IfOk result (λ t. IsStreamOfBuilder (R.state builder.entry.reader) builder.entry t) }
{
    let mut scan = builder.set_up(alloc)?;
    scan.execute_stream(alloc, None)
}
