//! Streams of scans that are set up.
ghost use Rattle.std.specs.Prelude.{◌≡◌};
ghost use Rattle.scan_segments.specs.MemorySource.{source_state};
ghost use Rattle.scan_streams.specs.Streams.{LiveAs};

use crate::case::{asked, number, sides};
use crate::rows::{count, file, int, prepared, scan};
use crate::sources::{and_live, push_source, source};
use crate::told::{Made, push_poll, refused};
use scan_core::{Identity, MapStep, RepeatedScan, ScanStream};
use scan_segments::MemorySource;
use std::alloc::Global;
use std::process::Abort;
use std::string::String;

/// What so many polls give, and what was asked then.
fn polls<T: Made + Drop, M: MapStep<Out = T, Fault = u8> + Drop>(
    rt: &impl Abort,
    alloc: Global,
    stream: &mut ScanStream<M>,
    source: &mut MemorySource,
    count: u64,
) -> String
    requires step { (m : M) → M.can_apply m }
    requires live { LiveAs (source_state source.old).live (stream.old.feed).live }
    ensures live { LiveAs (source_state source.new).live (stream.new.feed).live }
{
    let mut text = String::new(alloc);
    for _ in 0..count {
        let poll = stream.poll_next(alloc, source);
        push_poll(rt, alloc, &poll, &mut text);
    }
    push_source(rt, alloc, source, &mut text);
    text
}

/// What so many polls give, what was asked then, and what is live after it is given up.
pub(crate) fn story<T: Made + Drop, M: MapStep<Out = T, Fault = u8> + Drop>(
    rt: &impl Abort,
    alloc: Global,
    stream: ScanStream<M>,
    source: MemorySource,
    count: u64,
) -> String
    requires step { (m : M) → M.can_apply m }
    requires live { LiveAs (source_state source).live (stream.feed).live }
{
    let mut stream = stream;
    let mut source = source;
    let text = polls(rt, alloc, &mut stream, &mut source, count);
    stream.cancel(&mut source);
    and_live(rt, alloc, text, &source)
}

/// The story of a stream of a scan over the source of a case, or why there is none.
fn once(
    rt: &impl Abort,
    alloc: Global,
    scan: &mut RepeatedScan<Identity<u8>>,
    case: &str,
) -> String {
    let count = number(rt, case, "polls:", 3);
    let source = source(rt, alloc, case);
    match scan.execute_array_stream(alloc, asked(rt, case)) {
        Ok(stream) => story(rt, alloc, stream, source, count),
        Err(fault) => refused(rt, alloc, fault),
    }
}

/// Whether `CASE -> TEXT` holds of each of two streams of one scan.
fn gives_twice(rt: &impl Abort, alloc: Global, line: &str) -> bool {
    let (case, wanted) = sides(rt, line, " -> ");
    let mut scan = prepared(rt, alloc, case);
    let first = once(rt, alloc, &mut scan, case);
    let second = once(rt, alloc, &mut scan, case);
    (first.as_str() == wanted) & (second.as_str() == wanted)
}

// Each execution has the whole limit, and is of the rows of its range; nothing of the second split is asked before the
// first array.
#[test]
fn a_scan_is_executed_twice_in_a_row(rt: HostRuntime) {
    for line in "file -> (1 10),(2 20),(3 30); end; end; asked 0 1, live 0; live 0
two of:b at_once:1 limit:2 -> 10,20; end; end; asked 2, live 0; live 0
two at_once:1 wait:0,1,2,3 polls:0 -> asked, live 0; live 0
two at_once:1 wait:0,1,2,3 polls:1 -> pending; asked 0 2, live 2; live 0
two at_once:1 wait:0,1,2,3 polls:2 -> pending; pending; asked 0 2, live 2; live 0
two at_once:1 wait:0,1,2,3 polls:3 -> pending; pending; (1 10),(2 20); asked 0 2, live 0; live 0
two of:b at_once:1 asked:1..3 polls:2 -> 20; 30; asked 2 3, live 0; live 0
two of:b at_once:1 asked:2..2 polls:2 -> end; end; asked, live 0; live 0
two of:b at_once:1 asked:2..1 -> the range is reversed, or its end passes the row count
two of:b at_once:1 asked:0..4 -> the range is reversed, or its end passes the row count"
        .lines()
    {
        assert!(rt; gives_twice(&rt, rt.alloc(), line), "at {line}");
    }
}

/// What three polls give of what a map that refuses one row alone makes of three rows.
fn counted(rt: &impl Abort, alloc: Global, case: &str) -> String {
    let mut reader = file(rt, alloc, case);
    let source = source(rt, alloc, case);
    let builder = scan(rt, alloc, &mut reader, case);
    let mut scan = builder
        .map(|array| count(array))
        .prepare(alloc)
        .expect(rt, "prepare");
    let stream = scan
        .execute_stream(alloc, None)
        .expect(rt, "execute_stream");
    story(rt, alloc, stream, source, 3)
}

#[test]
fn a_map_refuses_an_array_once(rt: HostRuntime) {
    let alloc = rt.alloc();
    let all = counted(&rt, alloc, "file");
    assert_eq!(rt; all.as_str(), "3 rows; end; end; asked 0 1, live 0; live 0");
    let one = counted(&rt, alloc, "file limit:1");
    assert_eq!(rt; one.as_str(), "map 7; end; end; asked 0 1, live 0; live 0");
}

/// Whether a stream has the dtype of `b`.
fn is_of_b(rt: &impl Abort, alloc: Global) -> bool {
    let mut scan = prepared(rt, alloc, "two of:b");
    let stream = scan
        .execute_array_stream(alloc, None)
        .expect(rt, "execute_array_stream");
    *stream.dtype() == int()
}

#[test]
fn a_stream_has_the_dtype_of_the_projection(rt: HostRuntime) {
    assert!(rt; is_of_b(&rt, rt.alloc()));
}
