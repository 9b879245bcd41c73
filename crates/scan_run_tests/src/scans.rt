//! Scans of a manifest's files, as texts: `0: 0 1 {1, 10} {2, 20}; | 1: 0 1; | 2 0 0 2`, the chunks with their files, rows and
//! values, or a fault; of each file how often its opener was polled and which segments were asked for; and how many segments were
//! wanted, found, shared and asked for, or the fault's words. Of two scans of the same files `then` and a comma stand between.
ghost use Rattle.std.specs.Prelude.{◌≡◌, All};
ghost use Rattle.scan_segments.specs.Source.{none_live};
ghost use Rattle.scan_segments.specs.MemorySource.{source_state};

use crate::cases::{FOUR_ROWS, NAMES, SCANS};
use scan_caches::MemoryCache;
use scan_layout::LayoutNode;
use scan_manifest::{ParseFault, manifest_of_bytes};
use scan_multi::{
    BoxedFactory, LayoutReaderFactory, MemoryOpener, NoGate, Opening, ScanFile, ScanOutput,
    scan_files,
};
use scan_run::run::{make_files, new_cache};
use scan_segments::{CacheEvent, KeyedSegmentCache, MemorySource};
use scan_values::{DType, StrictSorted};
use std::alloc::Global;
use std::hash::{BuildHasherDefault, FoldHasher};
use std::process::Abort;
use std::thread::Threads;

/// A text with what each name in it stands for. The text of a name may have names of later lines.
fn spelled(rt: &impl Abort, alloc: Global, text: &str) -> String {
    let mut whole = String::from_str(alloc, text).expect(rt, "from_str");
    for line in NAMES.lines() {
        if let Some((name, meaning)) = line.split_once(' ') {
            whole = whole.replace(alloc, name, meaning).expect(rt, "replace");
        }
    }
    whole
}

/// Numbers that rise.
pub(crate) fn sorted(rt: &impl Abort, alloc: Global, numbers: &[u64]) -> StrictSorted {
    StrictSorted::try_new(Vec::from_slice(alloc, numbers).expect(rt, "from_slice")).expect(
        rt, "try_new",
    )
}

/// The chunks, and the report.
fn push_output(
    alloc: Global,
    output: &ScanOutput,
    told: &mut String,
    report: &mut String,
) -> Result<(), ParseFault> {
    for chunk in output.chunks.as_slice() {
        let file = chunk.file;
        told.push_str(format!(in alloc; "{file}:")?.as_str())?;
        for row in chunk.rows.as_slice() {
            told.push_str(format!(in alloc; " {row}")?.as_str())?;
        }
        for value in chunk.values.as_slice() {
            told.push_str(format!(in alloc; " {value}")?.as_str())?;
        }
        told.push_str("; ")?;
    }
    let wants = output.report.wants;
    let hits = output.report.hits;
    let shared = output.report.shared;
    let asks = output.report.asks;
    report.push_str(format!(in alloc; "{wants} {hits} {shared} {asks}")?.as_str())?;
    Ok(())
}

/// What a scan of files gives, by the request of a manifest.
fn scan_once<R: Threads + Sync, C: KeyedSegmentCache>(
    rt: &R,
    alloc: Global,
    text: &str,
    files: &mut Vec<ScanFile<MemoryOpener, MemorySource>>,
    cache: &mut C,
    told: &mut String,
    report: &mut String,
) -> Result<(), ParseFault>
    requires { All (λ f. (source_state f.source).live ≡ none_live) files.old.items }
    ensures { All (λ f. (source_state f.source).live ≡ none_live) files.new.items }
{
    let manifest = manifest_of_bytes(alloc, text.as_bytes())?;
    let gate = NoGate::new();
    match scan_files(
        rt,
        alloc,
        &manifest.dtype,
        files,
        cache,
        &manifest.request,
        manifest.workers,
        &gate,
    ) {
        Ok(output) => push_output(alloc, &output, told, report),
        Err(fault) => {
            told.push_str(format!(in alloc; "{fault:?} ")?.as_str())?;
            report.push_str(format!(in alloc; "{fault}")?.as_str())?;
            Ok(())
        }
    }
}

/// Of each file how often its opener was polled, and which segments its source was asked for, rising, or that one is live.
fn push_left(
    alloc: Global,
    files: &[ScanFile<MemoryOpener, MemorySource>],
    told: &mut String,
) -> Result<(), ParseFault> {
    for file in files {
        let polls = file.opener.polled();
        told.push_str(format!(in alloc; "{polls}:")?.as_str())?;
        let mut ids = Vec::new(alloc);
        for id in file.source.asked() {
            ids.push(**id)?;
        }
        ids.sort()?;
        for id in ids {
            told.push_str(format!(in alloc; " {id}")?.as_str())?;
        }
        told.push_str(if file.source.live().is_empty() {
            "; "
        } else {
            " live; "
        })?;
    }
    Ok(())
}

/// What one or two scans of files give and leave.
fn scan_twice<R: Threads + Sync, C: KeyedSegmentCache>(
    rt: &R,
    alloc: Global,
    text: &str,
    files: &mut Vec<ScanFile<MemoryOpener, MemorySource>>,
    cache: &mut C,
) -> Result<String, ParseFault>
    requires { All (λ f. (source_state f.source).live ≡ none_live) files.old.items }
{
    let mut told = String::new(alloc);
    let mut report = String::new(alloc);
    let (first, second) = text.split_once(" then ").unwrap_or((text, ""));
    scan_once(rt, alloc, first, files, cache, &mut told, &mut report)?;
    if !second.is_empty() {
        told.push_str("then ")?;
        report.push_str(", ")?;
        scan_once(rt, alloc, second, files, cache, &mut told, &mut report)?;
    }
    told.push_str("| ")?;
    push_left(alloc, files.as_slice(), &mut told)?;
    told.push_str("| ")?;
    told.push_str(report.as_str())?;
    Ok(told)
}

/// What scans of a manifest's files over a cache give and leave.
fn scanned<R: Threads + Sync, C: KeyedSegmentCache>(
    rt: &R,
    alloc: Global,
    text: &str,
    cache: &mut C,
) -> Result<String, ParseFault> {
    let (first, _) = text.split_once(" then ").unwrap_or((text, ""));
    let manifest = manifest_of_bytes(alloc, first.as_bytes())?;
    let mut files = make_files(alloc, manifest.files)?;
    scan_twice(rt, alloc, text, &mut files, cache)
}

/// What scans give and leave where that is not what a line wants, as far as that goes, or where a request is live afterwards:
/// `WHAT IT SHOWS :: MANIFEST => WHAT IT GIVES`, over an empty cache of the manifest's size.
fn told_otherwise<R: Threads + Sync + Abort>(rt: &R, alloc: Global, line: &str) -> Option<String> {
    let line = spelled(rt, alloc, line);
    let (_, case) = line.split_once(" :: ").unwrap_or(("", ""));
    let (text, wanted) = case.split_once(" => ").unwrap_or(("", ""));
    let (first, _) = text.split_once(" then ").unwrap_or((text, ""));
    let manifest = manifest_of_bytes(alloc, first.as_bytes()).expect(rt, "manifest_of_bytes");
    let hasher: BuildHasherDefault<FoldHasher> = BuildHasherDefault::new();
    let mut cache = new_cache(alloc, &manifest.cache, hasher).expect(rt, "new_cache");
    let told = scanned(rt, alloc, text, &mut cache).expect(rt, "scanned");
    let is_so = match told.strip_prefix(wanted) {
        Some(rest) => rest.is_empty() || rest.starts_with(" | "),
        None => false,
    };
    if is_so && !told.as_str().contains("live") {
        None
    } else {
        Some(told)
    }
}

#[test]
fn scans_give_and_leave_this(rt: HostRuntime) {
    let alloc = rt.alloc();
    let mut wrong = String::new(alloc);
    for line in SCANS.lines() {
        if !line.starts_with("#") {
            if let Some(told) = told_otherwise(&rt, alloc, line) {
                let told = format!(in alloc; "{line} BUT {told}\n").expect(&rt, "format");
                wrong.push_str(told.as_str()).expect(&rt, "push_str");
            }
        }
    }
    assert!(rt; wrong.is_empty(), "{wrong}");
}

/// What a scan over a cache gives and leaves whose calls of these numbers fail, or wait, and how lookups and puts ended.
fn told_over<R: Threads + Sync + Abort>(
    rt: &R,
    alloc: Global,
    text: &str,
    failing: &[u64],
    pending: &[u64],
) -> String {
    let text = spelled(rt, alloc, text);
    let failing = sorted(rt, alloc, failing);
    let mut cache = MemoryCache::new(alloc, failing, sorted(rt, alloc, pending));
    let mut told = scanned(rt, alloc, text.as_str(), &mut cache).expect(rt, "scanned");
    for event in cache.ended() {
        let (how, key) = match event {
            CacheEvent::Missed(key) => ("missed", key),
            CacheEvent::Found(key) => ("found", key),
            CacheEvent::Offered(key) => ("offered", key),
        };
        let id = key.segment;
        let words = format!(in alloc; "; {how} {id}").expect(rt, "format");
        told.push_str(words.as_str()).expect(rt, "push_str");
    }
    told
}

#[test]
fn each_call_of_a_cache_fails_and_waits_in_turn_and_changes_no_row(rt: HostRuntime) {
    let alloc = rt.alloc();
    let (text, wanted) = FOUR_ROWS;
    let wanted = spelled(&rt, alloc, wanted);
    for number in 0..12 {
        let fails = told_over(&rt, alloc, text, &[number], &[]);
        assert!(rt; fails.starts_with(wanted.as_str()), "{number}: {fails}");
        let waits = told_over(&rt, alloc, text, &[], &[number]);
        assert!(rt; waits.starts_with(wanted.as_str()), "{number}: {waits}");
    }
    let text = r#"{"dtype":<COLUMNS>,"files":[<A>}],"request":<OF_A>}"#;
    let told = told_over(&rt, alloc, text, &[0, 1], &[]);
    assert_eq!(rt;
        told.as_str(),
        "0: 0 1 2 {1} {2} {3}; | 1: 0; | 1 0 0 1; missed SegmentId(0); offered SegmentId(0)"
    );
}

#[test]
fn a_boxed_opener_opens(rt: HostRuntime) {
    let alloc = rt.alloc();
    let failing = sorted(&rt, alloc, &[0]);
    let layout = LayoutNode::leaf(alloc, DType::i32(), Vec::new(alloc)).expect(&rt, "leaf");
    let opener = MemoryOpener::new(Some(layout), failing, sorted(&rt, alloc, &[1]));
    let mut boxed = BoxedFactory(Box::new(alloc, opener).expect(&rt, "new"));
    assert!(rt; matches!(boxed.poll_open(alloc), Opening::Failed));
    assert!(rt; matches!(boxed.poll_open(alloc), Opening::Pending));
    assert!(rt; matches!(boxed.poll_open(alloc), Opening::Opened(_)));
}
