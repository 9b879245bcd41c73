//! An opener of a file.
ghost use Rattle.std.specs.Prelude.{◌≡◌, None};

use crate::bytes_at::BytesAt;
use crate::content::read_footer;
use crate::fault::DiskFault;
use scan_opener::{LayoutReaderFactory, Opening};
use std::alloc::Global;
use std::marker::Model;

/// An opener that reads the footer of a file and gives its layout. It fails where the file can't be read or is none
/// that is served, and `refused` says why. Contracts see the file, the last refusal, and how often it was refused and
/// polled.
#[derive(Drop)]
pub struct FileOpener<F> {
    file: F,
    refused: Option<DiskFault>,
    faults: u64,
    polls: u64,
}

impl<F> Model for FileOpener<F> {
    ghost use Rattle.scan_disk.specs.OpenerView.{OpenerView, opener_code};

    ghost Value = { OpenerView F };

    ghost coded = { opener_code F.code };

    ghost view = { λ o. record { file = o.file; refused = o.refused; faults = o.faults; polls = o.polls } };
}

impl<F: BytesAt> FileOpener<F> {
    /// An opener of this file.
    pub fn new(file: F) -> Self
        ensures { result ≡ record { file = file; refused = None; faults = 0; polls = 0 } }
    {
        FileOpener {
            file,
            refused: None,
            faults: 0,
            polls: 0,
        }
    }

    /// The file.
    pub fn file(&self) -> &F
        ensures { result.now ≡ self.now.file }
    {
        &self.file
    }

    /// Why the file was refused last.
    pub fn refused(&self) -> Option<DiskFault>
        ensures { result ≡ self.now.refused }
    {
        self.refused
    }

    /// How often the file was refused, up to the greatest u64.
    pub fn faults(&self) -> u64
        ensures { result ≡ self.now.faults }
    {
        self.faults
    }

    /// How many polls were made, up to the greatest u64.
    pub fn polled(&self) -> u64
        ensures { result ≡ self.now.polls }
    {
        self.polls
    }
}

impl<F: BytesAt> LayoutReaderFactory for FileOpener<F> {
    ghost use Rattle.scan_disk.specs.OpenerView.{opener_state, TellsCause};
    ghost use Rattle.scan_opener.specs.Opener.{IsPolledOpen};

    ghost opener = { opener_state F.bytes F.can_fail };

    fn poll_open(&mut self, alloc: Global) -> Opening
        ensures polled { IsPolledOpen (opener_state F.bytes F.can_fail self.old)
            (opener_state F.bytes F.can_fail self.new) result }
        ensures cause { TellsCause F.bytes F.can_fail self.old self.new result }
    {
        self.polls = self.polls.saturating_add(1);
        match read_footer(alloc, &self.file) {
            Ok(footer) => Opening::Opened(footer.layout.into_root()),
            Err(DiskFault::NoMemory) => Opening::NoMemory,
            Err(fault) => {
                self.refused = Some(fault);
                self.faults = self.faults.saturating_add(1);
                Opening::Failed
            }
        }
    }
}
