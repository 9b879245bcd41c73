//! Files of numbers of u8, of three rows or of six, each row in a segment of its own. Row k has the number k.
ghost use Rattle.std.specs.Prelude.{◌≡◌, All, IfOk};
ghost use Rattle.scan_segments.specs.Source.{none_live};
ghost use Rattle.scan_segments.specs.MemorySource.{source_state};

use crate::words::{after, number, sides};
use scan_manifest::{Files, Manifest, manifest_of_bytes};
use scan_multi::{MemoryOpener, ScanFile};
use scan_run::run::make_files;
use scan_segments::MemorySource;
use scan_values::NoMemory;
use std::alloc::Global;
use std::process::Abort;

/// Files, of whose openers and sources all is known.
pub(crate) type MadeFiles = Vec<ScanFile<MemoryOpener, MemorySource>>;

// The layout of a file of three rows, or of six.
fn layout(rows: &str) -> &'static str {
    match rows {
        "3" => r#"{"leaf":[[0,1],[1,1],[2,1]],"rows":3}"#,
        _ => r#"{"leaf":[[0,1],[1,1],[2,1],[3,1],[4,1],[5,1]],"rows":6}"#,
    }
}

/// The numbers below one, with a comma before each but the first.
fn push_below(rt: &impl Abort, number: u64, text: &mut String) {
    for k in 0..number {
        let mark = if k > 0 { "," } else { "" };
        write!(text, "{mark}{k}").expect(rt, "write");
    }
}

/// A file of a word: of so many rows, maybe skipped, the polls of its opener that wait, and those of its source that fail or
/// wait, or the number below which all wait: `6/opens:1,2/waits:1,2,5`, `3/fails:0/below:60`, `3/skip`.
fn push_file(rt: &impl Abort, word: &str, text: &mut String) {
    let rows = match word.split_once('/') {
        Some((rows, _)) => layout(rows),
        None => layout(word),
    };
    let skip = match word.strip_suffix("/skip") {
        Some(_) => r#","skip":true"#,
        None => "",
    };
    let opens = after(word, '/', "opens:");
    let fails = after(word, '/', "fails:");
    let waits = after(word, '/', "waits:");
    write!(
        text,
        "{{\"id\":\"A\",\"layout\":{rows},\"segments\":[[0,\"00\"],[1,\"01\"],[2,\"02\"],[3,\"03\"],[4,\"04\"],[5,\"05\"]]{skip},\"open\":{{\"pending\":[{opens}]}},\"source\":{{\"fail\":[{fails}],\"pending\":[{waits}"
    )
    .expect(rt, "write");
    push_below(rt, number(rt, word, '/', "below:"), text);
    text.push_str("]}}").expect(rt, "push_str")
}

/// The manifest of the files that a line names first, and of what is then asked of them.
pub(crate) fn manifest(rt: &impl Abort, alloc: Global, text: &str) -> Manifest {
    let (files, rest) = sides(rt, text, " ");
    let (ask, _words) = sides(rt, rest, " ");
    let mut all = String::new(alloc);
    for word in files.split('+') {
        if !all.is_empty() {
            all.push_str(",").expect(rt, "push_str");
        }
        push_file(rt, word, &mut all);
    }
    let text = format!(in alloc;
        "{{\"dtype\":\"u8\",\"files\":[{all}],\"request\":{{\"projection\":{ask}}}}}"
    ).expect(rt, "format");
    manifest_of_bytes(alloc, text.as_bytes()).expect(rt, "manifest_of_bytes")
}

/// The files of a manifest, of whose sources none has a live request.
pub(crate) fn idle_files(alloc: Global, files: Files) -> Result<MadeFiles, NoMemory>
    ensures { IfOk result (λ v. All (λ f. (source_state f.source).live ≡ none_live) v.items) }
{
    let made = make_files(alloc, files)?;
    Ok(made)
}
