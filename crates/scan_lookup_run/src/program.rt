//! The program, over any input and output.
ghost use Rattle.std.specs.Prelude.{◌≡◌, ◌↔◌, ◌<◌, ◌≤◌, ◌+◌, ◌++◌, [], ℕ, List, IfErr, IfOk, false, length, map, string_bytes, true};
ghost use Rattle.scan_manifest.specs.Manifest.{all_agree};
ghost use Rattle.scan_run.specs.FileOf.{AreFilesOf, AreReady};
ghost use Rattle.scan_lookup_run.specs.AskedOf.{IsAsked};
ghost use Rattle.scan_lookup_run.specs.Replied.{IsTextOf, reply_lines};
ghost use Rattle.scan_lookup_run.specs.Runs.{Answers, EndsLookup, HaltsLookup, HasLookupEnd, IsEnd, IsGiven, IsLookupDone, IsLookupReady, LookupWrites, WentWell, is_lookup_words, status_of_fault};
ghost use Rattle.scan_lookup_run.specs.Served.{EndsBy, HasServed, HasServedAll, Serves};
ghost use Rattle.scan_lookup_run.specs.declared.reading.Job.{Job};

use crate::places::{Lookups, Places};
use crate::reading::{Job, job_of_bytes};
use scan_caches::MokaSegmentCache;
use scan_expr::Expression;
use scan_lookup::{LookupFault, LookupSession, Place};
use scan_manifest::{CacheSpec, ParseFault};
use scan_multi::{MemoryOpener, ScanFile};
use scan_run::run::{make_files, new_cache};
use scan_run::{Input, MOST_BYTES, Output, ReadFault, WriteFault, push_line, read_all, write_all};
use scan_segments::MemorySource;
use scan_values::{Array, DType, NoMemory};
use std::alloc::Global;
use std::hash::BuildHasher;

fn is_lookup(words: &[String]) -> bool
    ensures { result ≡ is_lookup_words (map string_bytes words.now) }
{
    match words {
        [word] => word.as_str() == "lookup",
        _ => false,
    }
}

/// The job of an input that is read to its end, or a status.
fn take_job<I: Input>(alloc: Global, input: &mut I) -> Result<Job, u8>
    ensures ok { IfOk result (λ j. IsGiven j (I.input input.old) (I.input input.new)) }
    ensures agree { IfOk result (λ j. all_agree j.files ≡ true) }
    ensures halt { IfErr result (λ s. HaltsLookup s (I.input input.old) (I.input input.new)) }
    ensures stops { (I.input input.new).taken ≤ (I.input input.old).taken + (MOST_BYTES + 65_536) }
{
    match read_all(alloc, input) {
        Ok(bytes) => match job_of_bytes(alloc, bytes.as_slice()) {
            Ok(job) => Ok(job),
            Err(ParseFault::Bad) => Err(2),
            Err(ParseFault::NoMemory) => Err(7),
        },
        Err(ReadFault::TooLong) => Err(6),
        Err(ReadFault::Failed) => Err(6),
        Err(ReadFault::NoMemory) => Err(7),
    }
}

/// The status of a run one of whose look-ups is refused.
fn status_of_fault(fault: LookupFault) -> u8
    ensures { result ≡ status_of_fault fault }
{
    match fault {
        LookupFault::Bind(_) => 3,
        LookupFault::NoPlace { place: _ } => 4,
        LookupFault::DTypeMismatch { file: _ } => 4,
        LookupFault::Layout { file: _, fault: _ } => 4,
        LookupFault::Corrupt {
            file: _,
            segment: _,
        } => 4,
        LookupFault::Overflow { file: _, row: _ } => 4,
        LookupFault::Opener { file: _ } => 5,
        LookupFault::Source {
            file: _,
            segment: _,
        } => 5,
        LookupFault::NoMemory => 7,
    }
}

/// A line for each place, of the value that is given at it.
fn push_reply(places: &[Place], reply: &Array, out: &mut Vec<u8>) -> Result<(), NoMemory>
    requires { length reply.now.items ≡ length places.now }
    ensures { IfOk result (λ _. out.new.items ≡ out.old.items ++ reply_lines reply.now.dtype places.now reply.now.items) }
{
    let dtype = reply.dtype();
    let values = reply.as_slice();
    for i in 0..places.len() {
        let place = places[i];
        push_line(place.file, place.row, &values[i], dtype, out)?;
    }
    Ok(())
}

/// The lines of one look-up.
fn push_lookup<H: BuildHasher + Copy + Drop>(
    alloc: Global,
    session: &mut LookupSession<MemoryOpener, MemorySource, MokaSegmentCache<H>>,
    places: &[Place],
    out: &mut Vec<u8>,
) -> Result<(), LookupFault>
    ensures ok { IfOk result (λ _. (j : Job) → Serves j session.old →
        HasServed j places.now session.new out.old.items out.new.items) }
    ensures err { IfErr result (λ e. EndsBy places.now session.old (status_of_fault e)) }
{
    match session.look_up(alloc, places) {
        Ok(reply) => match push_reply(places, &reply, out) {
            Ok(()) => Ok(()),
            Err(NoMemory) => Err(LookupFault::NoMemory),
        },
        Err(fault) => Err(fault),
    }
}

/// The lines of look-ups, one after the other.
fn push_lookups<H: BuildHasher + Copy + Drop>(
    alloc: Global,
    session: &mut LookupSession<MemoryOpener, MemorySource, MokaSegmentCache<H>>,
    lookups: &[Places],
    out: &mut Vec<u8>,
) -> Result<(), LookupFault>
    ensures ok { IfOk result (λ _. (j : Job) → Serves j session.old → j.lookups ≡ lookups.now →
        HasServedAll j out.old.items out.new.items) }
    ensures err { IfErr result (λ e. (j : Job) → Serves j session.old → j.lookups ≡ lookups.now →
        IsEnd j (status_of_fault e)) }
{
    for places in lookups {
        match push_lookup(alloc, session, places.as_slice(), out) {
            Ok(()) => {}
            Err(fault) => return Err(fault),
        }
    }
    Ok(())
}

/// The lines of look-ups over a session.
fn session_text<H: BuildHasher + Copy + Drop>(
    alloc: Global,
    mut session: LookupSession<MemoryOpener, MemorySource, MokaSegmentCache<H>>,
    lookups: &[Places],
) -> Result<Vec<u8>, LookupFault>
    ensures ok { IfOk result (λ text. (j : Job) → Serves j session → j.lookups ≡ lookups.now →
        HasServedAll j [] text.items) }
    ensures err { IfErr result (λ e. (j : Job) → Serves j session → j.lookups ≡ lookups.now →
        IsEnd j (status_of_fault e)) }
{
    let mut text = Vec::new(alloc);
    match push_lookups(alloc, &mut session, lookups, &mut text) {
        Ok(()) => Ok(text),
        Err(fault) => Err(fault),
    }
}

/// What a job asks of its files.
struct Asked {
    dtype: DType,
    projection: Expression,
    cache: CacheSpec,
    lookups: Lookups,
}

impl Drop for Asked {
    fn drop(self) {
        let Asked {
            dtype: _,
            projection: _,
            cache: _,
            lookups: _,
        } = self;
    }
}

/// The lines of look-ups in files that were made.
fn made_text<H: BuildHasher + Copy + Drop>(
    alloc: Global,
    asked: &Asked,
    made: Vec<ScanFile<MemoryOpener, MemorySource>>,
    hasher: H,
) -> Result<Vec<u8>, LookupFault>
    requires { AreReady made.items }
    ensures ok { IfOk result (λ text. (j : Job) → IsAsked j asked.now → AreFilesOf j.files made.items →
        IsTextOf j text.items) }
    ensures err { IfErr result (λ e. (j : Job) → IsAsked j asked.now → AreFilesOf j.files made.items →
        IsEnd j (status_of_fault e)) }
{
    let cache = new_cache(alloc, &asked.cache, hasher)?;
    match LookupSession::new(alloc, &asked.dtype, &asked.projection, made, cache) {
        Ok(session) => session_text(alloc, session, asked.lookups.as_slice()),
        Err(fault) => Err(fault),
    }
}

/// The lines of a job's look-ups.
fn lookup_text<H: BuildHasher + Copy + Drop>(
    alloc: Global,
    job: Job,
    hasher: H,
) -> Result<Vec<u8>, LookupFault>
    requires { all_agree job.files ≡ true }
    ensures ok { IfOk result (λ text. IsTextOf job text.items) }
    ensures err { IfErr result (λ e. IsEnd job (status_of_fault e)) }
{
    let Job {
        dtype,
        files,
        projection,
        cache,
        lookups,
    } = job;
    let asked = Asked {
        dtype,
        projection,
        cache,
        lookups,
    };
    match make_files(alloc, files) {
        Ok(made) => made_text(alloc, &asked, made, hasher),
        Err(NoMemory) => Err(LookupFault::NoMemory),
    }
}

/// The lines of the job that an input is, or a status.
fn take_text<I: Input, H: BuildHasher + Copy + Drop>(
    alloc: Global,
    input: &mut I,
    hasher: H,
) -> Result<Vec<u8>, u8>
    ensures ok { IfOk result (λ text. IsLookupReady text.items (I.input input.old) (I.input input.new)) }
    ensures end { IfErr result (λ s. EndsLookup s (I.input input.old) (I.input input.new)) }
    ensures stops { (I.input input.new).taken ≤ (I.input input.old).taken + (MOST_BYTES + 65_536) }
{
    match take_job(alloc, input) {
        Ok(job) => match lookup_text(alloc, job, hasher) {
            Ok(text) => Ok(text),
            Err(fault) => Err(status_of_fault(fault)),
        },
        Err(status) => Err(status),
    }
}

/// The program. With the word `lookup` it reads a manifest and lists of places from the input, looks the lists up one
/// after the other over one session, and writes a line for each place to the output once all are answered. The words are
/// those after the program's name. The answer is the exit status: 0 the lines were written, 1 other words, 2 the input
/// asks for no look-ups, 3 the projection does not bind, 4 a place has no row, or the row can't be read or overflows, 5
/// an opener or a source failed, 6 the input or the output failed or the input has more than 67,108,864 bytes, 7 want of
/// memory. The cache hashes names of the input by `hasher`.
pub fn run_lookup<I: Input, O: Output, H: BuildHasher + Copy + Drop>(
    alloc: Global,
    words: &[String],
    input: &mut I,
    output: &mut O,
    hasher: H,
) -> u8
    ensures words { (result ≡ 1) ↔ (is_lookup_words (map string_bytes words.now) ≡ false) }
    ensures unread { result ≡ 1 → I.input input.new ≡ I.input input.old }
    ensures done { result ≡ 0 →
        IsLookupDone (I.input input.old) (I.input input.new) (O.output output.old) (O.output output.new) }
    ensures end { HasLookupEnd result
        (I.input input.old) (I.input input.new) (O.output output.old) (O.output output.new) }
    ensures writes { LookupWrites result
        (I.input input.old) (I.input input.new) (O.output output.old) (O.output output.new) }
    ensures answers { is_lookup_words (map string_bytes words.now) ≡ true → (bytes : List ℕ) →
        WentWell bytes (I.input input.old) (I.input input.new) (O.output output.old) (O.output output.new) →
        Answers bytes result }
    ensures stops { (I.input input.new).taken ≤ (I.input input.old).taken + (MOST_BYTES + 65_536) }
    ensures statuses { result < 8 }
{
    if !is_lookup(words) {
        return 1;
    }
    match take_text(alloc, input, hasher) {
        Ok(text) => match write_all(output, text.as_slice()) {
            Ok(()) => 0,
            Err(WriteFault::Failed) => 6,
            Err(WriteFault::NoMemory) => 7,
        },
        Err(status) => status,
    }
}
