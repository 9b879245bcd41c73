//! Streams that builders set up at their first poll.
ghost use Rattle.std.specs.Prelude.{◌≡◌};
ghost use Rattle.scan_segments.specs.MemorySource.{source_state};
ghost use Rattle.scan_streams.specs.Streams.{LiveAs};
ghost use Rattle.scan_core.specs.LazyData.{lazy_live};

use crate::case::{number, sides};
use crate::rows::{count, file, int, scan};
use crate::sources::{and_live, push_source, source};
use crate::told::{Made, push_poll};
use scan_core::{LazyScanStream, MapStep};
use scan_readers::LayoutReader;
use scan_segments::MemorySource;
use std::alloc::Global;
use std::process::Abort;
use std::string::String;

/// What so many polls give, and what was asked then.
#[tactic(auto, using(crate::proofs::Applying::stream_applies))]
fn polls<T: Made + Drop, M: MapStep<Out = T, Fault = u8> + Drop, R: LayoutReader + Drop>(
    rt: &impl Abort,
    alloc: Global,
    stream: &mut LazyScanStream<R, M>,
    source: &mut MemorySource,
    count: u64,
) -> String
    requires step { (m : M) → M.can_apply m }
    requires live { LiveAs (source_state source.old).live (lazy_live stream.old) }
    ensures live { LiveAs (source_state source.new).live (lazy_live stream.new) }
{
    let mut text = String::new(alloc);
    for _ in 0..count {
        let poll = stream.poll_next(alloc, source);
        push_poll(rt, alloc, &poll, &mut text);
    }
    push_source(rt, alloc, source, &mut text);
    text
}

/// What so many polls give, what was asked then, and what is live after it is given up.
fn story<T: Made + Drop, M: MapStep<Out = T, Fault = u8> + Drop, R: LayoutReader + Drop>(
    rt: &impl Abort,
    alloc: Global,
    stream: LazyScanStream<R, M>,
    source: MemorySource,
    count: u64,
) -> String
    requires step { (m : M) → M.can_apply m }
    requires live { LiveAs (source_state source).live (lazy_live stream) }
{
    let mut stream = stream;
    let mut source = source;
    let text = polls(rt, alloc, &mut stream, &mut source, count);
    stream.cancel(&mut source);
    and_live(rt, alloc, text, &source)
}

/// The story of a case.
fn arrays(rt: &impl Abort, alloc: Global, case: &str) -> String {
    let count = number(rt, case, "polls:", 2);
    let mut reader = file(rt, alloc, case);
    let source = source(rt, alloc, case);
    let builder = scan(rt, alloc, &mut reader, case);
    story(rt, alloc, builder.into_array_stream(), source, count)
}

/// Whether `CASE -> TEXT` holds.
fn gives(rt: &impl Abort, alloc: Global, line: &str) -> bool {
    let (case, wanted) = sides(rt, line, " -> ");
    arrays(rt, alloc, case).as_str() == wanted
}

#[test]
fn a_stream_gives_the_array_of_each_split_and_then_the_end(rt: HostRuntime) {
    for line in "two of:b at_once:1 polls:4 -> 10,20; 30; end; end; asked 2 3, live 0; live 0
two of:b at_once:2 polls:4 -> 10,20; 30; end; end; asked 2 3, live 0; live 0
two of:b at_once:4 polls:4 -> 10,20; 30; end; end; asked 2 3, live 0; live 0"
        .lines()
    {
        assert!(rt; gives(&rt, rt.alloc(), line), "at {line}");
    }
}

#[test]
fn what_is_live_is_dropped_where_a_stream_is_given_up(rt: HostRuntime) {
    for line in "two of:b at_once:2 wait:0,1,2 polls:0 -> asked, live 0; live 0
two of:b at_once:2 wait:0,1,2 polls:1 -> pending; asked 2 3, live 2; live 0
two of:b at_once:1 wait:0,1,2 polls:2 -> pending; pending; asked 2, live 1; live 0"
        .lines()
    {
        assert!(rt; gives(&rt, rt.alloc(), line), "at {line}");
    }
}

// A scan that is refused asks nothing.
#[test]
fn a_fault_of_the_source_or_of_the_settings_is_said_once(rt: HostRuntime) {
    for line in "two of:b at_once:1 fail:1 polls:4 -> 10,20; source SegmentId(3); end; end; asked 2 3, live 0; live 0
two of:b at_once:1 segments:2 polls:3 -> corrupt SegmentId(2); end; end; asked 2, live 0; live 0
file at_once:0 by:1 rows:0..3 -> setup: the concurrency is 0; end; asked, live 0; live 0
file at_once:1 by:0 rows:0..3 -> setup: splits of no rows; end; asked, live 0; live 0
file at_once:1 by:1 rows:2..1 -> setup: the range is reversed, or its end passes the row count; end; asked, live 0; live 0
file at_once:1 by:1 rows:0..3 offset:18446744073709551615 -> setup: the row offset and the row count pass u64 in sum; end; asked, live 0; live 0"
        .lines()
    {
        assert!(rt; gives(&rt, rt.alloc(), line), "at {line}");
    }
}

/// The story of what a map that refuses one row alone makes of three rows.
fn counted(rt: &impl Abort, alloc: Global, case: &str) -> String {
    let mut reader = file(rt, alloc, case);
    let source = source(rt, alloc, case);
    let builder = scan(rt, alloc, &mut reader, case);
    let counts = builder.map(|array| count(array));
    story(rt, alloc, counts.into_stream(), source, 3)
}

#[test]
fn a_limit_is_applied_before_the_map(rt: HostRuntime) {
    let alloc = rt.alloc();
    for (case, wanted) in [
        ("file", "3 rows; end; end; asked 0 1, live 0; live 0"),
        (
            "file limit:2",
            "2 rows; end; end; asked 0 1, live 0; live 0",
        ),
        ("file limit:1", "map 7; end; end; asked 0 1, live 0; live 0"),
        ("file limit:0", "end; end; end; asked, live 0; live 0"),
    ] {
        assert_eq!(rt; counted(&rt, alloc, case).as_str(), wanted);
    }
}

/// Whether its dtype is that of `b`, before the first poll and after it.
fn is_of_b(rt: &impl Abort, alloc: Global, case: &str) -> bool {
    let mut reader = file(rt, alloc, case);
    let mut source = source(rt, alloc, case);
    let mut stream = scan(rt, alloc, &mut reader, case).into_array_stream();
    let before = *stream.dtype() == int();
    polls(rt, alloc, &mut stream, &mut source, 1);
    before & (*stream.dtype() == int())
}

#[test]
fn a_stream_has_the_dtype_of_the_projection(rt: HostRuntime) {
    let alloc = rt.alloc();
    assert!(rt; is_of_b(&rt, alloc, "two of:b at_once:1"));
    assert!(rt; is_of_b(&rt, alloc, "two of:b at_once:0"));
}
