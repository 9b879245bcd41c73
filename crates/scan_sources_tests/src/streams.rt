//! Streams over a source in memory: what each story tells.
use crate::six_rows::{source_of, stream_of};
use crate::stories::{and_live, told};
use std::alloc::Global;
use std::process::Abort;

/// What a stream tells that goes through a script.
fn story(rt: &impl Abort, alloc: Global, case: &str, script: &str) -> String {
    let mut source = source_of(rt, alloc, case);
    let mut stream = stream_of(rt, alloc, case);
    told(rt, alloc, &mut stream, &mut source, script)
}

/// Whether `CASE | SCRIPT -> TEXT` holds.
fn holds(rt: &impl Abort, alloc: Global, line: &str) -> bool {
    let Some((story_of, wanted)) = line.split_once(" -> ") else {
        panic!(rt; "half a line");
    };
    let Some((case, script)) = story_of.split_once(" | ") else {
        panic!(rt; "no script");
    };
    story(rt, alloc, case, script).as_str() == wanted
}

#[test]
fn arrays_come_in_split_order_whatever_the_concurrency(rt: HostRuntime) {
    for line in "at_once:1 | pppppal -> 1,2; 3; 4,5,6; end; end; asked 0 1 2; live 0
at_once:2 | pppppal -> 1,2; 3; 4,5,6; end; end; asked 0 1 2; live 0
at_once:4 | pppppal -> 1,2; 3; 4,5,6; end; end; asked 0 1 2; live 0
at_once:100 | pppppal -> 1,2; 3; 4,5,6; end; end; asked 0 1 2; live 0"
        .lines()
    {
        assert!(rt; holds(&rt, rt.alloc(), line), "at {line}");
    }
}

// What is asked, what stays live, and where a stream ends.
#[test]
fn a_stream_asks_for_what_its_splits_want(rt: HostRuntime) {
    for line in "at_once:1 wait:0,1 | pppapa -> pending; pending; 1,2; asked 0; 3; asked 0 1
at_once:2 first:1 second:2 wait:0 | plppppa -> pending; live 1; 1; 2; 3,4,5,6; end; asked 0 1 2
at_once:2 unordered wait:0 | pappp -> 3; asked 0 1; 1,2; 4,5,6; end
at_once:3 fail:1 wait:0 | pppal -> source 1; end; end; asked 0 1 2; live 0
at_once:1 segments:1 | ppp -> 1,2; corrupt 1; end"
        .lines()
    {
        assert!(rt; holds(&rt, rt.alloc(), line), "at {line}");
    }
}

// A map refuses arrays of so many rows; rows are trimmed before they are mapped.
#[test]
fn limits_trim_and_maps_refuse(rt: HostRuntime) {
    for line in "limit:4 | ppppp -> 1,2; 3; 4; end; end
limit:2 | ppa -> 1,2; end; asked 0
at_once:3 refuse:1 wait:2 | ppppl -> 1,2; map 1; end; end; live 0
limit:5 refuse:3 | pppp -> 1,2; 3; 4,5; end
refuse:3 | pppp -> 1,2; 3; map 3; end"
        .lines()
    {
        assert!(rt; holds(&rt, rt.alloc(), line), "at {line}");
    }
}

/// The same where the stream is given up at the end of the script.
fn given_up(rt: &impl Abort, alloc: Global, case: &str, script: &str) -> String {
    let mut source = source_of(rt, alloc, case);
    let mut stream = stream_of(rt, alloc, case);
    let text = told(rt, alloc, &mut stream, &mut source, script);
    stream.cancel(&mut source);
    and_live(rt, alloc, text, &source)
}

#[test]
fn what_is_live_is_dropped_where_a_stream_is_given_up(rt: HostRuntime) {
    let text = given_up(&rt, rt.alloc(), "at_once:3 wait:0,1,2", "pl");
    assert_eq!(rt; text.as_str(), "pending; live 3; live 0");
}
