//! Loans of sources of many files. The Rust's scans hold the source and write to it.
ghost use Rattle.std.specs.Prelude.{◌≡◌};

use crate::source::MultiLayoutDataSource;

/// What took all that a source has, to give it back.
pub trait GivesBack<O: Drop> {
    ghost use Rattle.std.specs.Prelude.{◌≡◌};
    ghost use Rattle.scan_multi_sources.specs.Sources.{MultiData};

    /// What it gives back.
    ghost source: { Self → MultiData O };

    /// What the source has now.
    fn into_source(self) -> MultiLayoutDataSource<O>
        ensures { result ≡ source self };
}

/// A loan of a source of many files by what took all that the source has. It gives that back when it is dropped. Contracts
/// see what took it (`files`), and which source it gives it back to.
pub struct LentSource<'s, O: Drop, F: GivesBack<O> + Drop> {
    pub(crate) source: &'s mut MultiLayoutDataSource<O>,
    pub(crate) files: F,
}

impl<O: Drop, F: GivesBack<O> + Drop> Drop for LentSource<'_, O, F> {
    fn drop(self)
        ensures { self.exit.0.now ≡ F.source self.entry.files }
    {
        let LentSource { source, files } = self;
        *source = files.into_source();
    }
}
