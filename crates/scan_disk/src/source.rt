//! A source of the segments of a file.
ghost use Rattle.std.specs.Prelude.{◌≡◌, [], None, Some, OnOk, IfSome, IsSome};
ghost use Rattle.scan_disk.specs.Given.{IsGiven};
ghost use Rattle.scan_disk.specs.Segments.{at_place, known_of, places_of, segment_of};

use crate::bytes_at::BytesAt;
use crate::content::{read_footer, read_part};
use crate::fault::DiskFault;
use crate::place::{Place, Places};
use scan_segments::{ByteBuffer, Fits, Polled, Polls, Requests, SegmentId, SegmentSource};
use scan_values::NoMemory;
use sha2::{Digest, Sha256};
use std::alloc::Global;
use std::marker::Model;

/// The segments of a file. It reads where they stand when it is first polled, and each segment in one read, into the
/// buffer that it hands on. A segment that the file has not, or whose digest differs where it is asked to check, is
/// missing, and `refused` says why. Contracts see the file, whether digests are checked, the places where they are
/// known, the last refusal, the requests and the faults.
#[derive(Drop)]
pub struct FileSource<F> {
    file: F,
    checks: bool,
    known: Option<Places>,
    refused: Option<(SegmentId, DiskFault)>,
    requests: Requests,
    faults: u64,
}

impl<F> Model for FileSource<F> {
    ghost use Rattle.scan_disk.specs.SourceView.{SourceView, source_code};

    ghost Value = { SourceView F };

    ghost coded = { source_code F.code };

    ghost view = { λ s. record {
      file = s.file;
      checks = s.checks;
      known = s.known;
      refused = s.refused;
      requests = s.requests;
      faults = s.faults;
    } };
}

impl<F: BytesAt> FileSource<F> {
    /// The segments of a file, whose digests are checked or not.
    pub fn new(alloc: Global, file: F, checks: bool) -> Self
        ensures { result ≡ record {
          file = file;
          checks = checks;
          known = None;
          refused = None;
          requests = record { asked = []; live = [] };
          faults = 0;
        } }
    {
        FileSource {
            file,
            checks,
            known: None,
            refused: None,
            requests: Requests::new(alloc),
            faults: 0,
        }
    }

    /// The segments of a file of which it is known where they stand, as from `read_footer`.
    pub fn with_places(alloc: Global, file: F, checks: bool, places: Places) -> Self
        ensures { result ≡ record {
          file = file;
          checks = checks;
          known = Some places;
          refused = None;
          requests = record { asked = []; live = [] };
          faults = 0;
        } }
    {
        FileSource {
            file,
            checks,
            known: Some(places),
            refused: None,
            requests: Requests::new(alloc),
            faults: 0,
        }
    }

    /// The file.
    pub fn file(&self) -> &F
        ensures { result.now ≡ self.now.file }
    {
        &self.file
    }

    /// A segment of the file. Where its segments stand is known from then on.
    fn read(&mut self, alloc: Global, id: SegmentId) -> Result<ByteBuffer, DiskFault>
        ensures given { IsGiven (F.bytes self.old.file) (F.can_fail self.old.file)
            (segment_of self.old.checks self.old.known id) result }
        ensures places { IfSome (F.bytes self.old.file)
            (λ bytes. places_of self.new.known bytes ≡ places_of self.old.known bytes) }
        ensures rest { self.new ≡ record self.old { known = self.new.known } }
    {
        learn(alloc, &self.file, &mut self.known)?;
        find(alloc, &self.file, self.checks, &self.known, id)
    }

    /// The segment that was refused last, and why.
    pub fn refused(&self) -> Option<(SegmentId, DiskFault)>
        ensures { result ≡ self.now.refused }
    {
        self.refused
    }
}

impl<F: BytesAt> Fits for FileSource<F> {
    ghost fits = { λ id bytes. Unit {0} };
}

impl<F: BytesAt> Polls for FileSource<F> {
    ghost use Rattle.scan_disk.specs.SourceView.{TellsCause};

    ghost polls = { λ s id t r. TellsCause F.bytes F.can_fail id s t r };
}

impl<F: BytesAt> SegmentSource for FileSource<F> {
    ghost use Rattle.scan_disk.specs.SourceView.{state_of};

    ghost state = { state_of F.bytes F.can_fail };

    fn request(&mut self, alloc: Global, id: SegmentId) -> Result<(), NoMemory> {
        self.requests.begin(id)?;
        Ok(())
    }

    fn poll_segment(&mut self, alloc: Global, id: SegmentId) -> Polled {
        match self.read(alloc, id) {
            Ok(bytes) => {
                self.requests.end(id);
                Polled::Bytes(bytes)
            }
            Err(DiskFault::NoMemory) => Polled::NoMemory,
            Err(DiskFault::Failed) => {
                self.requests.end(id);
                self.faults = self.faults.saturating_add(1);
                Polled::Failed
            }
            Err(fault) => {
                self.requests.end(id);
                self.refused = Some((id, fault));
                Polled::Missing
            }
        }
    }

    fn drop_request(&mut self, id: SegmentId) {
        self.requests.end(id);
    }

    fn fault_count(&self) -> u64 {
        self.faults
    }
}

/// Reads where the segments of a file stand, if that is not known.
fn learn<F: BytesAt>(alloc: Global, file: &F, known: &mut Option<Places>) -> Result<(), DiskFault>
    ensures given { IsGiven (F.bytes file.now) (F.can_fail file.now)
        (λ bytes. known_of (places_of known.old bytes)) result }
    ensures same { IfSome (F.bytes file.now) (λ bytes. places_of known.new bytes ≡ places_of known.old bytes) }
    ensures known { OnOk result (IsSome known.new) }
{
    if known.is_some() {
        return Ok(());
    }
    let footer = read_footer(alloc, file)?;
    *known = Some(footer.places);
    Ok(())
}

/// A segment of a file of which it is known where its segments stand.
fn find<F: BytesAt>(
    alloc: Global,
    file: &F,
    checks: bool,
    known: &Option<Places>,
    id: SegmentId,
) -> Result<ByteBuffer, DiskFault>
    requires { IsSome known.now }
    ensures { IsGiven (F.bytes file.now) (F.can_fail file.now) (segment_of checks known.now id) result }
{
    match known {
        Some(places) => match places.get(id) {
            Some(place) => read_place(alloc, file, checks, &place),
            None => Err(DiskFault::NoSegment),
        },
        None => unreachable!(),
    }
}

/// The bytes at a place of a file.
fn read_place<F: BytesAt>(
    alloc: Global,
    file: &F,
    checks: bool,
    place: &Place,
) -> Result<ByteBuffer, DiskFault>
    ensures { IsGiven (F.bytes file.now) (F.can_fail file.now)
        (λ bytes. at_place checks bytes (Some place.now)) result }
{
    let bytes = read_part(alloc, file, place.offset, place.length)?;
    if checks && Sha256::digest(bytes.as_slice()) != place.digest {
        return Err(DiskFault::Digest);
    }
    Ok(bytes)
}
