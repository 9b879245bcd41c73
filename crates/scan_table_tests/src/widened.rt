//! Files that open under another dtype: what stands behind each of their segments there, what a source of those gives, and
//! what it asks of the file's own.
ghost use Rattle.std.specs.Prelude.{◌≡◌, [], All, false};
ghost use Rattle.scan_segments.specs.Source.{none_live};
ghost use Rattle.scan_segments.specs.MemorySource.{source_state};
ghost use Rattle.scan_multi.specs.Lawful.{IsIdle};
ghost use Rattle.scan_run.specs.FileOf.{memory_opener};
ghost use Rattle.scan_widen.specs.Parts.{IsReadable};

use crate::files::{Made, make, push_asked};
use crate::texts::{expanded, sides};
use scan_manifest::ParseFault;
use scan_multi::{MemoryOpener, ScanFile};
use scan_segments::{ByteBuffer, MemorySource, Polled, SegmentId, SegmentSource};
use scan_widen::Behind;
use scan_widened::{UnionSource, open_under};
use std::alloc::Global;
use std::fmt::Write;
use std::process::Abort;

/// The first of some files.
fn first(
    rt: &impl Abort,
    files: Vec<ScanFile<MemoryOpener, MemorySource>>,
) -> ScanFile<MemoryOpener, MemorySource>
    requires { All (IsIdle memory_opener source_state) files.items }
    ensures { (source_state result.source).live ≡ none_live }
{
    match files.into_iter().next() {
        Some(file) => file,
        None => panic!(rt; "no file"),
    }
}

/// A segment that is asked for and polled to its end, or none where it is missing.
fn read<S: SegmentSource>(
    rt: &impl Abort,
    alloc: Global,
    source: &mut S,
    id: SegmentId,
) -> Option<ByteBuffer>
    requires { (S.state source.old).live id ≡ false }
{
    source.request(alloc, id).expect(rt, "request");
    'wait: loop {
        match source.poll_segment(alloc, id) {
            Polled::Pending => {}
            Polled::Bytes(bytes) => return Some(bytes),
            Polled::Missing => return None,
            Polled::Failed => panic!(rt; "failed"),
            Polled::NoMemory => panic!(rt; "out of memory"),
        }
    }
}

/// What a source gives of a segment, which of the file's stands behind it, and what is asked: ` 0102 of 5 asks 5;`.
fn push_bytes(
    rt: &impl Abort,
    alloc: Global,
    source: UnionSource<MemorySource>,
    id: SegmentId,
    text: &mut String,
)
    requires { source.stages ≡ [] }
{
    let mut source = source;
    match read(rt, alloc, &mut source, id) {
        Some(bytes) => {
            let digits = hex::encode(alloc, bytes.as_slice()).expect(rt, "encode");
            write!(text, " {digits}").expect(rt, "write");
        }
        None => text.push_str(" missing").expect(rt, "push_str"),
    }
    if let Some(inner) = source.inner_of(id) {
        write!(text, " of {}", *inner).expect(rt, "write");
    }
    text.push_str(" asks").expect(rt, "push_str");
    push_asked(rt, alloc, &source.into_inner(), text);
    text.push_str(";").expect(rt, "push_str");
}

/// What stands behind a segment: ` kept 0:`.
fn push_behind(rt: &impl Abort, behind: &Behind, text: &mut String) {
    let written = match behind {
        Behind::Kept(id) => write!(text, " kept {}:", **id),
        Behind::Widened(w) => write!(text, " widened {} of {}:", *w.id, w.rows),
        Behind::Blank(_, rows) => write!(text, " blank of {rows}:"),
        Behind::Valid(rows) => write!(text, " valid of {rows}:"),
    };
    written.expect(rt, "write")
}

/// What stands behind each segment, and what a source of its own over that of a manifest's file gives of it.
fn segments_text(
    rt: &impl Abort,
    alloc: Global,
    manifest: &str,
    behind: &[Behind],
) -> Result<String, ParseFault>
    requires { All IsReadable behind.now }
{
    let mut text = String::new(alloc);
    for (i, one) in behind.iter().enumerate() {
        push_behind(rt, one, &mut text);
        let copy = Vec::from_slice(alloc, behind)?;
        let file = first(rt, make(alloc, manifest)?.files);
        let source = UnionSource::new(alloc, file.source, copy);
        let id = SegmentId::try_from(i).expect(rt, "try_from");
        push_bytes(rt, alloc, source, id, &mut text);
    }
    Ok(text)
}

/// What a manifest's file is under its dtype, where so many rows are before it.
fn told(rt: &impl Abort, alloc: Global, manifest: &str, before: u64) -> Result<String, ParseFault> {
    let Made {
        dtype,
        files,
        request,
    } = make(alloc, manifest)?;
    let mut file = first(rt, files);
    match open_under(alloc, &dtype, &request.row_range, before, &mut file.opener) {
        Ok(Some(union)) => segments_text(rt, alloc, manifest, union.segments.as_slice()),
        Ok(None) => Ok(String::from_str(alloc, " skipped")?),
        Err(fault) => Ok(format!(in alloc; " {fault:?}")?),
    }
}

/// Whether a line `FROM under TO of LAYOUT with SEGMENTS to END after BEFORE ->TOLD` holds: a file of a dtype under another,
/// where so many rows are before it and a range ends there.
fn holds(rt: &impl Abort, alloc: Global, line: &str) -> bool {
    let (case, wanted) = sides(rt, line, " ->");
    let (file, range) = case.split_once(" to ").unwrap_or((case, "0 after 0"));
    let (from, file) = sides(rt, file, " under ");
    let (to, file) = sides(rt, file, " of ");
    let (layout, segments) = sides(rt, file, " with ");
    let segments = segments.strip_prefix("none").unwrap_or(segments);
    let (end, before) = sides(rt, range, " after ");
    let manifest = format!(in alloc;
        "{{\"dtype\":{to},\"files\":[{{\"id\":\"F\",\"dtype\":{from},\"layout\":{layout},\"segments\":[{segments}]}}],\"request\":{{\"projection\":\"$\",\"range\":[0,{end}]}}}}"
    ).expect(rt, "format");
    let manifest = expanded(rt, alloc, NAMES, manifest.as_str());
    let before = before.parse::<u64>().expect(rt, "parse");
    let told = told(rt, alloc, manifest.as_str(), before).expect(rt, "told");
    told.as_str() == wanted
}

#[test]
fn files_open_under_a_dtype_with_segments_that_are_kept_widened_or_blank(rt: HostRuntime) {
    for line in FILES.lines() {
        assert!(rt; holds(&rt, rt.alloc(), line), "at {line}");
    }
}

const NAMES: &str = r##"<ab> {"struct":[["a","i32"],["b","i32"]]}
<ab-tree> {"struct":[{"leaf":[[0,3]],"rows":3},{"leaf":[[1,2],[2,1]],"rows":3}],"rows":3}
<ab-segments> [0,"010000000200000003000000"],[1,"0a00000014000000"],[2,"1effffff"]
<lists> {"list":{"struct":[["x","i8"]]}}
<lists-tree> {"list":[{"struct":[{"leaf":[[0,3]],"rows":3,"spelling":2}],"rows":3},{"leaf":[[9,4]],"rows":4}],"offsets":"u16","rows":3}
<lists-segments> [0,"01ff7f"],[9,"0000020002000300"]
<none> {"struct":[]}
<today> {"struct":[["a","i64"],["c","utf8?"]]}
<two-rows> {"struct":[{"leaf":[[0,2]],"rows":2},{"leaf":[[1,2]],"rows":2}],"rows":2}
<uneven> {"struct":[{"leaf":[[0,2]],"rows":2},{"leaf":[[1,1]],"rows":1}],"rows":2}"##;

// Layouts; lists by their elements; a validity that is handed on; blank rows of each scalar and one that is gained; numbers
// that keep sign and value; slots of nulls; flags that are gained; bytes that spell nothing; segments that are kept; and
// which fault is told first.
const FILES: &str =
    r##"<ab> under <ab> of <ab-tree> with <ab-segments> -> kept 0: 010000000200000003000000 of 0 asks 0; kept 1: 0a00000014000000 of 1 asks 1; kept 2: 1effffff of 2 asks 2;
<ab> under {"struct":[["b","i32"],["a","i32"]]} of <ab-tree> with <ab-segments> -> kept 1: 0a00000014000000 of 1 asks 1; kept 2: 1effffff of 2 asks 2; kept 0: 010000000200000003000000 of 0 asks 0;
<ab> under <today> of <ab-tree> with <ab-segments> -> widened 0 of 3: 010000000000000002000000000000000300000000000000 of 0 asks 0; blank of 3: 000000000000000000000000000000 asks;
<ab> under {"struct":[["b","i32?"]],"nullable":true} of <ab-tree> with <ab-segments> -> valid of 3: 010101 asks; widened 1 of 2: 01010a00000014000000 of 1 asks 1; widened 2 of 1: 011effffff of 2 asks 2;
<ab> under {"struct":[["a","i32"],["a","i64"]]} of <ab-tree> with <ab-segments> -> kept 0: 010000000200000003000000 of 0 asks 0; widened 0 of 3: 010000000000000002000000000000000300000000000000 of 0 asks 0;
<ab> under {"struct":[["s",{"struct":[["x","u8"]],"nullable":true}]]} of <ab-tree> with <ab-segments> -> blank of 3: 000000 asks; blank of 3: 000000 asks;
<ab> under {"struct":[["l",{"list":"u8","nullable":true}]]} of <ab-tree> with <ab-segments> -> blank of 4: 00000000000000000000000000000000 asks; blank of 3: 000000 asks;
<ab> under <none> of <ab-tree> with <ab-segments> ->
<lists> under <lists> of <lists-tree> with <lists-segments> -> kept 0: 01ff7f of 0 asks 0; kept 9: 0000020002000300 of 9 asks 9;
<lists> under {"list":{"struct":[["x","i16"]]}} of <lists-tree> with <lists-segments> -> widened 0 of 3: 0100ffff7f00 of 0 asks 0; kept 9: 0000020002000300 of 9 asks 9;
<lists> under {"list":{"struct":[["x","i8"],["y","bool?"]]}} of <lists-tree> with <lists-segments> -> kept 0: 01ff7f of 0 asks 0; blank of 3: 000000000000 asks; kept 9: 0000020002000300 of 9 asks 9;
<lists> under {"list":{"struct":[["x","i8"]]},"nullable":true} of <lists-tree> with <lists-segments> -> kept 0: 01ff7f of 0 asks 0; kept 9: 0000020002000300 of 9 asks 9; valid of 3: 010101 asks;
<lists> under {"list":{"struct":[["x","i8"]],"nullable":true}} of <lists-tree> with <lists-segments> -> valid of 3: 010101 asks; kept 0: 01ff7f of 0 asks 0; kept 9: 0000020002000300 of 9 asks 9;
{"struct":[["a","i32"]],"nullable":true} under {"struct":[["a","i64"]],"nullable":true} of {"struct":[{"leaf":[[7,2]],"rows":2},{"leaf":[[3,2]],"rows":2}],"rows":2} with [7,"0100"],[3,"05000000faffffff"] -> kept 7: 0100 of 7 asks 7; widened 3 of 2: 0500000000000000faffffffffffffff of 3 asks 3;
<none> under {"struct":[["a","i64?"],["l",{"list":"u8","nullable":true}]],"nullable":true} of {"struct":[],"rows":0} with none -> blank of 1: 00000000 asks;
<none> under {"struct":[["s",{"struct":[["b","bool"],["i","u32"],["t","utf8"]],"nullable":true}],["c","bool?"],["d","i64?"],["e","utf8?"]],"nullable":true} of {"struct":[],"rows":3} with none -> valid of 3: 010101 asks; blank of 3: 000000 asks; blank of 3: 000000 asks; blank of 3: 000000000000000000000000 asks; blank of 3: 000000000000000000000000 asks; blank of 3: 000000000000 asks; blank of 3: 000000000000000000000000000000000000000000000000000000 asks; blank of 3: 000000000000000000000000000000 asks;
"i8" under "i16" of {"leaf":[[0,2]],"rows":2} with [0,"ff7f"] -> widened 0 of 2: ffff7f00 of 0 asks 0;
"i8" under "i64" of {"leaf":[[0,2]],"rows":2} with [0,"8001"] -> widened 0 of 2: 80ffffffffffffff0100000000000000 of 0 asks 0;
"u8" under "i16" of {"leaf":[[0,2]],"rows":2} with [0,"ff00"] -> widened 0 of 2: ff000000 of 0 asks 0;
"u8" under "u64" of {"leaf":[[0,2]],"rows":2} with [0,"ff01"] -> widened 0 of 2: ff000000000000000100000000000000 of 0 asks 0;
"u16" under "u32" of {"leaf":[[0,2]],"rows":2} with [0,"ffff0100"] -> widened 0 of 2: ffff000001000000 of 0 asks 0;
"u16" under "i32" of {"leaf":[[0,2]],"rows":2} with [0,"00800200"] -> widened 0 of 2: 0080000002000000 of 0 asks 0;
"i16" under "i32" of {"leaf":[[0,2]],"rows":2} with [0,"00800200"] -> widened 0 of 2: 0080ffff02000000 of 0 asks 0;
"u32" under "i64" of {"leaf":[[0,2]],"rows":2} with [0,"0000008003000000"] -> widened 0 of 2: 00000080000000000300000000000000 of 0 asks 0;
"i8?" under "i16?" of {"leaf":[[0,3]],"rows":3} with [0,"010001ff0903"] -> widened 0 of 3: 010001ffff00000300 of 0 asks 0;
"i8?" under "i16?" of {"leaf":[[0,3]],"rows":3,"spelling":2} with [0,"05ff0903"] -> widened 0 of 3: 010001ffff00000300 of 0 asks 0;
"bool" under "bool?" of {"leaf":[[0,3]],"rows":3} with [0,"010001"] -> widened 0 of 3: 010101010001 of 0 asks 0;
"bool" under "bool?" of {"leaf":[[0,3]],"rows":3,"spelling":2} with [0,"05"] -> widened 0 of 3: 010101010001 of 0 asks 0;
"u8" under "u8?" of {"leaf":[[0,3]],"rows":3,"spelling":2} with [0,"070809"] -> widened 0 of 3: 010101070809 of 0 asks 0;
"u8" under "u16?" of {"leaf":[[0,3]],"rows":3} with [0,"070809"] -> widened 0 of 3: 010101070008000900 of 0 asks 0;
"utf8" under "utf8?" of {"leaf":[[0,3]],"rows":3,"spelling":2} with [0,"01000000780000000000000000"] -> widened 0 of 3: 01010101000000780000000000000000 of 0 asks 0;
"i16" under "i32?" of {"leaf":[[0,2]],"rows":2} with [0,"000000"] -> widened 0 of 2: missing of 0 asks 0;
"i16" under "i32?" of {"leaf":[[0,2]],"rows":2} with [0,"0000000000"] -> widened 0 of 2: missing of 0 asks 0;
"bool" under "bool?" of {"leaf":[[0,2]],"rows":2} with [0,"0002"] -> widened 0 of 2: missing of 0 asks 0;
"bool" under "bool?" of {"leaf":[[0,2]],"rows":2,"spelling":2} with [0,"05"] -> widened 0 of 2: missing of 0 asks 0;
"i8?" under "i16?" of {"leaf":[[0,2]],"rows":2} with [0,"02010000"] -> widened 0 of 2: missing of 0 asks 0;
"utf8" under "utf8?" of {"leaf":[[0,2]],"rows":2} with [0,"01000000ff00000000"] -> widened 0 of 2: missing of 0 asks 0;
"u8" under "u8" of {"leaf":[[3,2]],"rows":2} with [3,"0506"] -> kept 3: 0506 of 3 asks 3;
"bool" under "bool" of {"leaf":[[4,3]],"rows":3,"spelling":2} with [4,"05"] -> kept 4: 05 of 4 asks 4;
<ab> under <today> of <two-rows> with [0,"01000000ffffffff"] to 2 after 0 -> widened 0 of 2: 0100000000000000ffffffffffffffff of 0 asks 0; blank of 2: 00000000000000000000 asks;
{"struct":[["a","utf8"],["b","i32"]]} under <today> of <uneven> with none to 3 after 0 -> DTypeMismatch
<ab> under <today> of <uneven> with none to 3 after 0 -> Layout(ChildRows)
<ab> under <today> of <two-rows> with none to 3 after 18446744073709551615 -> RowRangePast
<ab> under <today> of <two-rows> with none to 2 after 18446744073709551614 -> TooManyRows
<ab> under <today> of <two-rows>,"skip":true with none to 3 after 18446744073709551615 -> skipped
<none> under <none> of {"struct":[],"rows":18446744073709551615} with none -> TooManyRows
<none> under <none> of {"struct":[],"rows":18446744073709551614} with none ->
{"struct":[["t","bool"],["a","i32"]]} under {"struct":[["a","i64"],["c","utf8?"],["t","bool"]]} of {"struct":[{"leaf":[[7,1]],"rows":1},{"leaf":[[5,1]],"rows":1}],"rows":1} with [5,"ffffffff"],[7,"09"] -> widened 5 of 1: ffffffffffffffff of 5 asks 5; blank of 1: 0000000000 asks; kept 7: 09 of 7 asks 7;"##;
