//! Builders whose scan is set up later. After the Rust's `scan::scan_builder`.
ghost use Rattle.std.specs.Prelude.{◌≡◌, IfOk, None};
ghost use Rattle.scan_core.specs.BuilderData.{IsBuilder, boundaries_in};
ghost use Rattle.scan_core.specs.LazyData.{builder_dtype};
ghost use Rattle.scan_core.specs.Prepared.{IsPrepared};
ghost use Rattle.scan_core.specs.Settings.{builder_by};
ghost use Rattle.scan_core.specs.Setup.{checked, setup_fault};

use crate::repeated::RepeatedScan;
use crate::settings::ScanSettings;
use scan_readers::LayoutReader;
use scan_streams::SetupFault;
use scan_values::{DType, NoMemory};
use std::alloc::Global;
use std::marker::Model;

/// A builder that a lazy stream or iterator keeps. Contracts see the reader, the expressions, the settings and the step.
#[derive(Drop)]
pub(crate) struct KeptBuilder<'r, R: LayoutReader, M> {
    reader: &'r mut R,
    settings: ScanSettings<M>,
}

impl<'r, R: LayoutReader, M> Model for KeptBuilder<'r, R, M> {
    ghost use Rattle.scan_core.specs.BuilderData.{BuilderData, IsBuilder, boundaries_in};
    ghost use Rattle.scan_core.specs.ScanCode.{builder_code};
    ghost use Rattle.scan_core.specs.Settings.{builder_by};

    ghost Value = { BuilderData R M };

    ghost coded = { builder_code R.code M.code };

    ghost view = { λ a. builder_by a.reader.now a.settings };

    ghost invariant = { λ a. IsBuilder (R.state a.reader.now) a.settings.projection a.settings.filter
        (boundaries_in a.settings.natural_splits) };
}

impl<'r, R: LayoutReader + Drop, M: Drop> KeptBuilder<'r, R, M> {
    /// Settings over a reader's rows.
    pub(crate) fn new(reader: &'r mut R, settings: ScanSettings<M>) -> Self
        requires { IsBuilder (R.state reader.old) settings.projection settings.filter
            (boundaries_in settings.natural_splits) }
        ensures { result ≡ builder_by reader.old settings }
    {
        KeptBuilder { reader, settings }
    }

    /// The dtype of the projection.
    pub(crate) fn dtype(&self) -> &DType
        ensures { result.now ≡ builder_dtype self.now }
    {
        self.settings.projection.dtype()
    }

    /// The first thing that is wrong with its settings.
    pub(crate) fn check(&self) -> Result<(), SetupFault>
        ensures { result ≡ checked (setup_fault self.now (R.state self.now.reader).rows) }
    {
        self.settings.check(&*self.reader)
    }

    /// The scan that it sets up, where nothing is wrong with its settings.
    pub(crate) fn set_up(self, alloc: Global) -> Result<RepeatedScan<M>, NoMemory>
        requires { setup_fault self (R.state self.reader).rows ≡ None }
        ensures { IfOk result (λ s. IsPrepared (R.state self.entry.reader) self.entry s) }
    {
        let KeptBuilder { reader, settings } = self;
        settings.prepare(alloc, reader)
    }
}
