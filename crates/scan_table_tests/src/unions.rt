//! What a scan of files of older schemas gives or why it gives nothing, and what it asks of its files.
use crate::files::{Made, make, push_files};
use crate::texts::{expanded, sides};
use scan_manifest::ParseFault;
use scan_multi::{NoGate, ScanChunk, ScanOutput};
use scan_union::{UnionFault, scan_union};
use std::alloc::Global;
use std::fmt::Write;
use std::process::Abort;
use std::thread::Threads;

/// The rows of a chunk: ` 0.1={2, null}` for row 1 of file 0.
fn push_chunk(rt: &impl Abort, chunk: &ScanChunk, text: &mut String) {
    for (row, value) in chunk
        .rows
        .as_slice()
        .iter()
        .zip(chunk.values.as_slice().iter())
    {
        write!(text, " {}.{row}={value}", chunk.file).expect(rt, "write");
    }
}

/// The rows that a scan gives, or its fault.
fn given_text(rt: &impl Abort, alloc: Global, given: &Result<ScanOutput, UnionFault>) -> String {
    let mut text = String::new(alloc);
    match given {
        Ok(output) => {
            for chunk in output.chunks.as_slice() {
                push_chunk(rt, chunk, &mut text);
            }
        }
        Err(fault) => write!(text, " {fault:?}").expect(rt, "write"),
    }
    text
}

/// What a scan of a manifest by so many workers comes to, and what was done to its files.
fn told<R: Abort + Threads + Sync>(
    rt: &R,
    alloc: Global,
    manifest: &str,
    workers: usize,
) -> Result<String, ParseFault> {
    let Made {
        dtype,
        mut files,
        request,
    } = make(alloc, manifest)?;
    let gate = NoGate::new();
    let given = scan_union(
        rt, alloc, &dtype, &mut files, 1_048_576, 1_024, &request, workers, &gate,
    );
    let mut text = given_text(rt, alloc, &given);
    push_files(rt, alloc, files.as_slice(), &mut text);
    Ok(text)
}

/// Whether a line `MANIFEST by WORKERS ->TOLD` holds.
fn holds<R: Abort + Threads + Sync>(rt: &R, alloc: Global, line: &str) -> bool {
    let (asked, wanted) = sides(rt, line, " ->");
    let (manifest, workers) = sides(rt, asked, " by ");
    let manifest = expanded(rt, alloc, NAMES, manifest);
    let workers = workers.parse::<usize>().expect(rt, "parse");
    let told = told(rt, alloc, manifest.as_str(), workers).expect(rt, "told");
    told.as_str() == wanted
}

#[test]
fn scans_under_a_dtype_give_rows_or_tell_the_first_fault_and_ask_for_what_they_read(
    rt: HostRuntime,
) {
    for line in SCANS.lines() {
        assert!(rt; holds(&rt, rt.alloc(), line), "at {line}");
    }
}

// Fields are widened or lacking; `<closed>` fails to open, `<cut>` has a segment that is a byte short, `<twice>` two leaves
// over one segment.
const NAMES: &str = r##"<a> {"get":["a","$"]}
<b> {"get":["b","$"]}
<c> {"get":["c","$"]}
<l> {"get":["l","$"]}
<all> {"projection":"$"}
<of-a> {"projection":<a>}
<of-b> {"projection":<b>}
<of-c> {"projection":<c>}
<today> {"struct":[["a","i64"],["c","utf8?"]]}
<pair> {"struct":[["b","i64"],["a","i32"]]}
<late-pair> {"struct":[["a","i64"],["b","i64?"]]}
<lists> {"struct":[["l",{"list":"i32?","nullable":true}]]}
<high> {"struct":[["b","i32"],["a","u8"]]}
<A> {"id":"A","dtype":{"struct":[["a","i32"],["b","i32"]]},"layout":{"struct":[{"leaf":[[0,3]],"rows":3},{"leaf":[[1,3]],"rows":3}],"rows":3},"segments":[[0,"010000000200000003000000"],[1,"0a000000140000001e000000"]]}
<cut> {"id":"X","dtype":{"struct":[["a","i32"],["b","i32"]]},"layout":{"struct":[{"leaf":[[0,3]],"rows":3},{"leaf":[[1,3]],"rows":3}],"rows":3},"segments":[[0,"0100000002000000030000"],[1,"0a000000140000001e000000"]]}
<turned> {"id":"B","dtype":{"struct":[["c","utf8"],["a","i64"]]},"layout":{"struct":[{"leaf":[[0,1]],"rows":1},{"leaf":[[1,1]],"rows":1}],"rows":1},"segments":[[0,"0100000078"],[1,"ffffffffffffffff"]]}
<other> {"id":"O","dtype":{"struct":[["a","utf8"]]},"layout":{"struct":[{"leaf":[[0,1]],"rows":1}],"rows":1},"segments":[[0,"0100000078"]]}
<skipped> {"id":"S","dtype":{"struct":[["a","utf8"]]},"skip":true,"layout":{"struct":[{"leaf":[[0,1]],"rows":1}],"rows":1},"segments":[[0,"0100000078"]]}
<closed> {"id":"C","dtype":{"struct":[["a","utf8"]]},"open":{"fail":[0]},"layout":{"struct":[{"leaf":[[0,1]],"rows":1}],"rows":1},"segments":[]}
<uneven> {"id":"U","dtype":{"struct":[["a","i32"]]},"layout":{"struct":[{"leaf":[[0,2]],"rows":2}],"rows":1},"segments":[]}
<twice> {"id":"T","dtype":{"struct":[["a","i32"],["b","i32"]]},"layout":{"struct":[{"leaf":[[5,1]],"rows":1},{"leaf":[[5,1]],"rows":1}],"rows":1},"segments":[[5,"ffffffff"]]}
<twice-failing> {"id":"T","dtype":{"struct":[["a","i32"],["b","i32"]]},"layout":{"struct":[{"leaf":[[5,1]],"rows":1},{"leaf":[[5,1]],"rows":1}],"rows":1},"segments":[[5,"ffffffff"]],"source":{"fail":[0]}}
<twice-late> {"id":"T","dtype":{"struct":[["a","i32"],["b","i32"]]},"layout":{"struct":[{"leaf":[[5,1]],"rows":1},{"leaf":[[5,1]],"rows":1}],"rows":1},"segments":[[5,"ffffffff"]],"source":{"pending":[0,1,2]},"open":{"pending":[0,1]}}
<late> {"id":"L","dtype":{"struct":[["a","i32"]]},"layout":{"struct":[{"leaf":[[3,1]],"rows":1}],"rows":1},"segments":[[3,"07000000"]],"source":{"pending":[0,1,2,3,4,5]}}
<offsets> {"id":"L","dtype":{"struct":[["l",{"list":"i8?"}]]},"layout":{"struct":[{"list":[{"leaf":[[0,3]],"rows":3,"spelling":2},{"leaf":[[9,4]],"rows":4}],"offsets":"u16","rows":3}],"rows":3},"segments":[[0,"0501ff03"],[9,"0000020002000300"]]}
<bad-offsets> {"id":"L","dtype":{"struct":[["l",{"list":"i8?"}]]},"layout":{"struct":[{"list":[{"leaf":[[0,3]],"rows":3,"spelling":2},{"leaf":[[9,4]],"rows":4}],"offsets":"u16","rows":3}],"rows":3},"segments":[[0,"0501ff03"],[9,"0000020001000300"]]}
<top> {"id":"H","dtype":{"struct":[["a","u8"],["b","u16"]]},"layout":{"struct":[{"leaf":[[4294967295,1],[4294967294,1]],"rows":2},{"leaf":[[4294967293,2]],"rows":2}],"rows":2},"segments":[[4294967293,"0102ff00"],[4294967294,"08"],[4294967295,"09"]]}
<top-missing> {"id":"H","dtype":{"struct":[["a","u8"],["b","u16"]]},"layout":{"struct":[{"leaf":[[4294967295,1],[4294967294,1]],"rows":2},{"leaf":[[4294967293,2]],"rows":2}],"rows":2},"segments":[[4294967293,"0102ff00"],[4294967294,"08"]]}
<top-cut> {"id":"H","dtype":{"struct":[["a","u8"],["b","u16"]]},"layout":{"struct":[{"leaf":[[4294967295,1],[4294967294,1]],"rows":2},{"leaf":[[4294967293,2]],"rows":2}],"rows":2},"segments":[[4294967293,"0102ff"],[4294967294,"08"],[4294967295,"09"]]}
<most> {"id":"M","dtype":{"struct":[]},"layout":{"struct":[],"rows":18446744073709551614},"segments":[]}
<endless> {"id":"E","dtype":{"struct":[]},"layout":{"struct":[],"rows":18446744073709551615},"segments":[]}"##;

// Rows and asks; by four workers; damage by the segments of the file; failures for each leaf over them; faults of the
// request, which touch no file; faults of files in their order; a failure that is told once its turn comes.
const SCANS: &str =
    r##"{"dtype":<today>,"files":[<A>],"request":<all>} by 1 -> 0.0={1, null} 0.1={2, null} 0.2={3, null} | 1: 0
{"dtype":<today>,"files":[<A>],"request":<of-c>} by 1 -> 0.0=null 0.1=null 0.2=null | 1:
{"dtype":<today>,"files":[<cut>],"request":<of-c>} by 1 -> 0.0=null 0.1=null 0.2=null | 1:
{"dtype":<today>,"files":[<A>,<turned>],"request":<all>} by 1 -> 0.0={1, null} 0.1={2, null} 0.2={3, null} 1.0={-1, "x"} | 1: 0 | 1: 0 1
{"dtype":<today>,"files":[<A>,<A>],"request":<of-a>} by 1 -> 0.0=1 0.1=2 0.2=3 1.0=1 1.1=2 1.2=3 | 1: 0 | 1: 0
{"dtype":<today>,"files":[<skipped>,<A>],"request":<of-a>} by 1 -> 1.0=1 1.1=2 1.2=3 | 1: | 1: 0
{"dtype":<today>,"files":[<closed>,<A>],"request":{"projection":"$","limit":0}} by 1 -> | 0: | 0:
{"dtype":<pair>,"files":[<twice>],"request":<all>} by 1 -> 0.0={-1, -1} | 1: 5
{"dtype":<pair>,"files":[<twice-late>],"request":<all>} by 1 -> 0.0={-1, -1} | 3: 5
{"dtype":<lists>,"files":[<offsets>],"request":<all>} by 1 -> 0.0={[1, null]} 0.1={[]} 0.2={[3]} | 1: 0 9
{"dtype":<lists>,"files":[<offsets>],"request":{"projection":{"is_null":<l>}}} by 1 -> 0.0=false 0.1=false 0.2=false | 1:
{"dtype":<lists>,"files":[<offsets>],"request":{"projection":{"list_length":<l>}}} by 1 -> 0.0=2 0.1=0 0.2=1 | 1: 9
{"dtype":<high>,"files":[<top>],"request":<all>} by 1 -> 0.0={513, 9} 0.1={255, 8} | 1: 4294967293 4294967294 4294967295
{"dtype":<high>,"files":[<top-cut>],"request":<of-a>} by 1 -> 0.0=9 0.1=8 | 1: 4294967294 4294967295
{"dtype":<today>,"files":[<A>,<turned>],"request":<of-a>} by 4 -> 0.0=1 0.1=2 0.2=3 1.0=-1 | 1: 0 | 1: 1
{"dtype":<today>,"files":[<A>],"request":<of-c>} by 4 -> 0.0=null 0.1=null 0.2=null | 1:
{"dtype":<lists>,"files":[<offsets>],"request":{"projection":{"list_length":<l>}}} by 4 -> 0.0=2 0.1=0 0.2=1 | 1: 9
{"dtype":<today>,"files":[<closed>],"request":{"projection":"$","limit":0}} by 4 -> | 0:
{"dtype":<today>,"files":[<cut>],"request":<of-a>} by 1 -> Scan(Corrupt { file: 0, segment: SegmentId(0) }) | 1: 0
{"dtype":<today>,"files":[<A>,<cut>],"request":<of-a>} by 1 -> Scan(Corrupt { file: 1, segment: SegmentId(0) }) | 1: 0 | 1: 0
{"dtype":<lists>,"files":[<bad-offsets>],"request":{"projection":{"list_length":<l>}}} by 1 -> Scan(Corrupt { file: 0, segment: SegmentId(9) }) | 1: 9
{"dtype":<high>,"files":[<top-missing>],"request":<of-a>} by 1 -> Scan(Corrupt { file: 0, segment: SegmentId(4294967295) }) | 1: 4294967294 4294967295
{"dtype":<high>,"files":[<top-cut>],"request":<of-b>} by 1 -> Scan(Corrupt { file: 0, segment: SegmentId(4294967293) }) | 1: 4294967293
{"dtype":<pair>,"files":[<twice-failing>],"request":<all>} by 1 -> Scan(Source { file: 0, segment: SegmentId(5) }) | 1: 5
{"dtype":<pair>,"files":[<twice-failing>],"request":<of-a>} by 1 -> Scan(Source { file: 0, segment: SegmentId(5) }) | 1: 5
{"dtype":<pair>,"files":[<twice-failing>],"request":<of-b>} by 1 -> Scan(Source { file: 0, segment: SegmentId(5) }) | 1: 5
{"dtype":<today>,"files":[<closed>],"request":{"projection":{"get":["z","$"]}}} by 1 -> Scan(Bind(NoField)) | 0:
{"dtype":<today>,"files":[<closed>],"request":{"projection":"$","range":[3,2]}} by 1 -> Scan(RowRange(Reversed)) | 0:
{"dtype":<today>,"files":[<closed>],"request":{"projection":"$","partitions":[0,1]}} by 1 -> Scan(Partitions) | 0:
{"dtype":<today>,"files":[<other>,<closed>],"request":<all>} by 1 -> Scan(DTypeMismatch { file: 0 }) | 1: | 0:
{"dtype":<today>,"files":[<A>,<other>],"request":{"projection":"$","limit":1}} by 1 -> Scan(DTypeMismatch { file: 1 }) | 1: | 1:
{"dtype":<today>,"files":[<A>,<uneven>,<other>],"request":<all>} by 1 -> Scan(Layout { file: 1, fault: ChildRows }) | 1: | 1: | 0:
{"dtype":{"struct":[["a","i16"]]},"files":[<uneven>,<other>],"request":<all>} by 1 -> Scan(DTypeMismatch { file: 0 }) | 1: | 0:
{"dtype":<today>,"files":[<A>,<turned>,<other>],"request":{"projection":"$","range":[0,2]}} by 1 -> Scan(RowRange(Past { file: 1 })) | 1: | 1: | 0:
{"dtype":{"struct":[]},"files":[<endless>],"request":<all>} by 1 -> Scan(TooManyRows { file: 0 }) | 1:
{"dtype":{"struct":[]},"files":[<most>,<most>],"request":<all>} by 1 -> Scan(TooManyRows { file: 1 }) | 1: | 1:
{"dtype":<today>,"files":[<A>,<closed>,<other>],"request":<all>} by 1 -> Scan(Opener { file: 1 }) | 1: | 1: | 0:
{"dtype":<today>,"files":[<closed>],"request":{"projection":{"get":["z","$"]}}} by 0 -> Scan(Concurrency) | 0:
{"dtype":<late-pair>,"files":[<late>,<twice-failing>],"request":<all>} by 2 -> Scan(Source { file: 1, segment: SegmentId(5) }) | 1: 3 | 1: 5"##;
