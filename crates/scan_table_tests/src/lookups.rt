//! Look-ups over one session, one after the other: what each gives, and which segments it asks of each file's source.
ghost use Rattle.std.specs.Prelude.{◌≡◌, ◌≤◌, length};

use crate::files::{Made, make, push_asked};
use crate::texts::{expanded, rising, sides};
use scan_caches::{MemoryCache, MokaSegmentCache, NoOpSegmentCache, SegmentEviction};
use scan_lookup::{LookupFault, LookupSession, Place};
use scan_manifest::ParseFault;
use scan_multi::MemoryOpener;
use scan_segments::{KeyedSegmentCache, MemorySource};
use scan_values::Array;
use std::alloc::Global;
use std::fmt::Write;
use std::process::Abort;

/// Places: `0.2 1.0`, the row 2 of the file 0 and the row 0 of the file 1; or `nowhere`.
fn places_of(rt: &impl Abort, alloc: Global, text: &str) -> Vec<Place> {
    let mut places = Vec::new(alloc);
    for word in text.split_whitespace() {
        if word != "nowhere" {
            let (file, row) = sides(rt, word, ".");
            let file = file.parse::<usize>().expect(rt, "parse");
            let row = row.parse::<u64>().expect(rt, "parse");
            places.push(Place { file, row }).expect(rt, "push");
        }
    }
    places
}

/// The values that a look-up gives, or its fault.
fn reply_text(rt: &impl Abort, alloc: Global, reply: &Result<Array, LookupFault>) -> String {
    let mut text = String::new(alloc);
    match reply {
        Ok(values) => {
            for value in values.as_slice() {
                write!(text, " {value}").expect(rt, "write");
            }
        }
        Err(fault) => write!(text, " {fault:?}").expect(rt, "write"),
    }
    text
}

/// What each of so many files was asked for since the session began, rising, and which are not open: ` | 0 0 1 | shut`.
fn push_sources<C: KeyedSegmentCache + Drop>(
    rt: &impl Abort,
    alloc: Global,
    session: &LookupSession<MemoryOpener, MemorySource, C>,
    files: usize,
    text: &mut String,
)
    requires { files ≤ length session.now.files }
{
    for file in 0..files {
        text.push_str(if session.is_open(file) {
            " |"
        } else {
            " | shut"
        })
        .expect(rt, "push_str");
        push_asked(rt, alloc, session.source(file), text);
    }
}

/// Whether lines `PLACES ->TOLD` hold, one look-up after the other.
fn all_hold<C: KeyedSegmentCache + Drop>(
    rt: &impl Abort,
    alloc: Global,
    session: &mut LookupSession<MemoryOpener, MemorySource, C>,
    files: usize,
    lines: &str,
) -> bool
    requires { files ≤ length session.old.files }
{
    for line in lines.lines() {
        let (places, wanted) = sides(rt, line, " ->");
        let places = places_of(rt, alloc, places);
        let reply = session.look_up(alloc, places.as_slice());
        let mut told = reply_text(rt, alloc, &reply);
        push_sources(rt, alloc, session, files, &mut told);
        if told.as_str() != wanted {
            return false;
        }
    }
    true
}

/// Whether they hold over a session of the files and the projection of a manifest.
fn hold_over<C: KeyedSegmentCache + Drop>(
    rt: &impl Abort,
    alloc: Global,
    manifest: &str,
    cache: C,
    lines: &str,
) -> Result<bool, ParseFault> {
    let Made {
        dtype,
        files,
        request,
    } = make(alloc, manifest)?;
    let count = files.len();
    let mut session = LookupSession::new(alloc, &dtype, &request.projection, files, cache).expect(
        rt, "new",
    );
    Ok(all_hold(rt, alloc, &mut session, count, lines))
}

/// Whether a story holds: a line `CACHE; TITLE`, a manifest, and lines of look-ups. The lookups and puts of a failing cache are
/// numbered together: a first lookup and put fail, a put fails, and none.
fn holds(rt: &impl Abort, alloc: Global, story: &str) -> bool {
    let (head, rest) = sides(rt, story, "\n");
    let (cache, _title) = sides(rt, head, "; ");
    let (manifest, lines) = sides(rt, rest, "\n");
    let manifest = expanded(rt, alloc, NAMES, manifest);
    let manifest = manifest.as_str();
    let lru = SegmentEviction::Lru;
    let held = match cache {
        "none" => hold_over(rt, alloc, manifest, NoOpSegmentCache::new(), lines),
        "failing" => {
            let lookups = rising(rt, alloc, "0 1 3");
            let cache = MemoryCache::new(alloc, lookups, rising(rt, alloc, "4"));
            hold_over(rt, alloc, manifest, cache, lines)
        }
        "large" => {
            let cache = MokaSegmentCache::new(alloc, 1_048_576, 1_024, lru).expect(rt, "new");
            hold_over(rt, alloc, manifest, cache, lines)
        }
        "one segment" => {
            let cache = MokaSegmentCache::new(alloc, 1_048_576, 1, lru).expect(rt, "new");
            hold_over(rt, alloc, manifest, cache, lines)
        }
        _ => {
            let cache = MokaSegmentCache::new(alloc, 3, 1_024, lru).expect(rt, "new");
            hold_over(rt, alloc, manifest, cache, lines)
        }
    };
    held.expect(rt, "hold_over")
}

#[test]
fn each_look_up_gives_and_asks_for_what_it_should(rt: HostRuntime) {
    for story in STORIES.split("\n\n") {
        assert!(rt; holds(&rt, rt.alloc(), story), "at {story}");
    }
}

const NAMES: &str = r##"<a> {"struct":[["a","i32"]]}
<ab> {"struct":[["a","i32"],["b","i32"]]}
<all> "request":{"projection":"$"}
<two> {"struct":[{"leaf":[[0,1],[1,1]],"rows":2}],"rows":2},"segments":[[0,"01000000"],[1,"02000000"]]
<cut> {"struct":[{"leaf":[[0,1],[1,1]],"rows":2}],"rows":2},"segments":[[0,"01000000"],[1,"0200"]]
<A> {"id":"A","layout":{"struct":[{"leaf":[[0,3]],"rows":3},{"leaf":[[1,2],[2,1]],"rows":3}],"rows":3},"segments":[[0,"010000000200000003000000"],[1,"0a00000014000000"],[2,"1e000000"]]}
<overflow> {"id":"A","layout":{"struct":[{"leaf":[[0,3]],"rows":3},{"leaf":[[1,3]],"rows":3}],"rows":3},"segments":[[0,"01000000ffffff7f03000000"],[1,"020000000100000004000000"]]}
<a-null> {"id":"A","layout":{"struct":[{"leaf":[[2,3]],"rows":3},{"leaf":[[0,1],[1,2]],"rows":3}],"rows":3},"segments":[[0,"01000000"],[1,"0200000003"],[2,"010001"]]}
<L> {"id":"L","layout":{"list":[{"leaf":[[1,2],[2,3],[3,4]],"rows":9},{"leaf":[[0,5]],"rows":5}],"offsets":"u32","rows":4},"segments":[[0,"0000000002000000020000000500000009000000"],[1,"0a0000000b000000"],[2,"0c0000000d0000000e000000"],[3,"0f000000100000001100000012000000"]]}"##;

const STORIES: &str = r##"none; repeats, and places in falling order
{"dtype":<ab>,"files":[<A>],<all>}
0.2 0.0 0.2 -> {3, 30} {1, 10} {3, 30} | 0 1 2
0.1 -> {2, 20} | 0 0 1 1 2
nowhere -> | 0 0 1 1 2

none; a list asks for its own elements
{"dtype":{"list":"i32"},"files":[<L>],<all>}
0.2 -> [12, 13, 14] | 0 2
0.1 -> [] | 0 0 2
0.4 -> NoPlace { place: 0 } | 0 0 2
0.3 0.0 -> [15, 16, 17, 18] [10, 11] | 0 0 0 1 2 3

none; a place that there is not, behind places that there are
{"dtype":<ab>,"files":[<A>],<all>}
0.0 0.3 -> NoPlace { place: 1 } |
0.0 0.1 1.0 -> NoPlace { place: 2 } |
1.0 0.0 -> NoPlace { place: 0 } |
0.0 -> {1, 10} | 0 1

none; a skipped file
{"dtype":<a>,"files":[{"id":"S","layout":<two>,"skip":true},{"id":"A","layout":<two>}],<all>}
1.0 0.0 -> NoPlace { place: 1 } | |
1.1 -> {2} | | 1

none; a damaged segment beside a good place
{"dtype":<a>,"files":[{"id":"A","layout":<cut>}],<all>}
0.0 -> {1} | 0
0.1 -> Corrupt { file: 0, segment: SegmentId(1) } | 0 1
0.0 0.0 -> {1} {1} | 0 0 1

none; a missing segment
{"dtype":<a>,"files":[{"id":"A","layout":{"struct":[{"leaf":[[0,1],[1,1]],"rows":2}],"rows":2},"segments":[[0,"01000000"]]}],<all>}
0.1 -> Corrupt { file: 0, segment: SegmentId(1) } | 1
0.0 -> {1} | 0 1

none; an overflow at an asked row, and at one that is not asked
{"dtype":<ab>,"files":[<overflow>],"request":{"projection":{"add":[{"get":["a","$"]},{"get":["b","$"]}]}}}
0.0 0.2 -> 3 7 | 0 1
0.1 -> Overflow { file: 0, row: 1 } | 0 0 1 1
0.2 -> 7 | 0 0 0 1 1 1

none; an inner sum that overflows, of which the whole would not
{"dtype":<ab>,"files":[<overflow>],"request":{"projection":{"sub":[{"add":[{"get":["a","$"]},{"get":["b","$"]}]},{"get":["b","$"]}]}}}
0.0 -> 1 | 0 1
0.1 -> Overflow { file: 0, row: 1 } | 0 0 1 1

none; a null row over a damaged field
{"dtype":{"struct":[["a","i32"]],"nullable":true},"files":[<a-null>],<all>}
0.0 -> {1} | 0 2
0.1 -> Corrupt { file: 0, segment: SegmentId(1) } | 0 1 2 2
0.2 -> Corrupt { file: 0, segment: SegmentId(1) } | 0 1 1 2 2 2

none; a null row over a field that is not asked for
{"dtype":{"struct":[["a","i32"]],"nullable":true},"files":[<a-null>],"request":{"projection":{"is_null":"$"}}}
0.1 0.0 0.2 -> true false false | 2

none; lists of lists
{"dtype":{"list":{"list":"i32"}},"files":[{"id":"N","layout":{"list":[{"list":[{"leaf":[[2,1],[3,2]],"rows":3},{"leaf":[[1,4]],"rows":4}],"offsets":"u32","rows":3},{"leaf":[[0,3]],"rows":3}],"offsets":"u32","rows":2},"segments":[[0,"000000000200000003000000"],[1,"00000000010000000100000003000000"],[2,"07000000"],[3,"0800000009000000"]]}],<all>}
0.0 -> [[7], []] | 0 1 2
0.1 -> [[8, 9]] | 0 0 1 1 2 3
0.1 0.0 -> [[8, 9]] [[7], []] | 0 0 0 1 1 1 2 2 3 3

none; texts, nulls and lists of texts
{"dtype":{"struct":[["id","u64"],["name","utf8?"],["tags",{"list":"utf8"}]]},"files":[{"id":"T","layout":{"struct":[{"leaf":[[0,2]],"rows":2},{"leaf":[[1,2]],"rows":2},{"list":[{"leaf":[[2,2]],"rows":2},{"leaf":[[3,3]],"rows":3}],"offsets":"u32","rows":2}],"rows":2},"segments":[[0,"07000000000000000900000000000000"],[1,"01000300000041646100000000"],[2,"010000007802000000797a"],[3,"000000000200000002000000"]]}],<all>}
0.1 -> {9, null, []} | 0 1 3
0.0 0.1 -> {7, "Ada", ["x", "yz"]} {9, null, []} | 0 0 1 1 2 3 3

none; an opener that fails once
{"dtype":<a>,"files":[{"id":"A","layout":<two>,"open":{"fail":[0]}},{"id":"B","layout":<two>}],<all>}
1.0 0.0 2.0 -> Opener { file: 0 } | shut |
0.0 1.1 -> {1} {2} | 0 | 1

none; a source that fails once
{"dtype":<a>,"files":[{"id":"A","layout":<two>,"source":{"fail":[0]}}],<all>}
0.0 -> Source { file: 0, segment: SegmentId(0) } | 0
0.0 0.1 -> {1} {2} | 0 0 1

none; an opener and a source that put off their answers
{"dtype":<a>,"files":[{"id":"A","layout":<two>,"open":{"pending":[0,1]},"source":{"pending":[0,2]}}],<all>}
0.0 0.1 -> {1} {2} | 0 1
0.1 -> {2} | 0 1 1

none; a file of another dtype, and one that is not well-formed
{"dtype":<a>,"files":[{"id":"A","layout":<two>},{"id":"B","layout":{"struct":[{"leaf":[[0,1]],"rows":1}],"rows":1},"segments":[[0,"0100000000000000"]],"dtype":{"struct":[["a","i64"]]}},{"id":"C","layout":{"struct":[{"leaf":[[0,2]],"rows":2}],"rows":3},"segments":[[0,"0100000002000000"]]}],<all>}
0.0 1.0 -> DTypeMismatch { file: 1 } | | | shut
2.9 1.0 -> Layout { file: 2, fault: ChildRows } | | |
1.0 -> DTypeMismatch { file: 1 } | | |
0.0 -> {1} | 0 | |

none; rows of one segment ask for it once, and no row asks for the column
{"dtype":<a>,"files":[{"id":"A","layout":{"struct":[{"leaf":[[0,2],[1,2],[2,2]],"rows":6}],"rows":6},"segments":[[0,"0000000001000000"],[1,"0200000003000000"],[2,"0400000005000000"]]}],<all>}
0.3 0.2 0.3 -> {3} {2} {3} | 1
0.5 0.0 -> {5} {0} | 0 1 2
0.1 0.2 0.3 0.4 -> {1} {2} {3} {4} | 0 0 1 1 2 2

none; row numbers ask for nothing
{"dtype":<a>,"files":[{"id":"A","layout":{"struct":[{"leaf":[[0,1],[1,1]],"rows":2}],"rows":2},"segments":[]},{"id":"B","layout":{"struct":[{"leaf":[[0,1],[1,1]],"rows":2}],"rows":2},"segments":[]}],"request":{"projection":{"pack":[["n","#row_idx"]]}}}
1.1 0.1 0.0 -> {1} {1} {0} | |

none; a literal of a file with rows
{"dtype":<a>,"files":[{"id":"A","layout":{"struct":[{"leaf":[[0,1],[1,1]],"rows":2}],"rows":2},"segments":[]}],"request":{"projection":{"lit":7,"type":"u8"}}}
0.1 -> 7 |
0.2 -> NoPlace { place: 0 } |

large; what a cache has is not asked for
{"dtype":<a>,"files":[{"id":"A","layout":<two>},{"id":"A","layout":<two>}],<all>}
0.0 -> {1} | 0 | shut
0.0 -> {1} | 0 | shut
1.0 -> {1} | 0 |
0.1 -> {2} | 0 1 |
0.1 -> {2} | 0 1 |

one segment; a full cache drops the segment before
{"dtype":<a>,"files":[{"id":"A","layout":<two>},{"id":"A","layout":<two>}],<all>}
0.0 -> {1} | 0 | shut
0.0 -> {1} | 0 | shut
0.1 -> {2} | 0 1 | shut
0.0 -> {1} | 0 0 1 | shut
1.0 -> {1} | 0 0 1 |

three bytes; a cache without room keeps nothing
{"dtype":<a>,"files":[{"id":"A","layout":<two>},{"id":"A","layout":<two>}],<all>}
0.0 -> {1} | 0 | shut
0.0 -> {1} | 0 0 | shut
1.0 -> {1} | 0 0 | 0

failing; a fault of a cache is a miss
{"dtype":<a>,"files":[{"id":"A","layout":<two>},{"id":"A","layout":<two>}],<all>}
0.0 -> {1} | 0 | shut
0.0 -> {1} | 0 0 | shut
0.0 -> {1} | 0 0 0 | shut
0.0 -> {1} | 0 0 0 | shut

none; an empty list in a session of its own
{"dtype":{"list":"i32"},"files":[<L>],<all>}
0.1 -> [] | 0

none; no row in a session of its own
{"dtype":{"list":"i32"},"files":[<L>],<all>}
0.4 -> NoPlace { place: 0 } |

none; no places open no file
{"dtype":{"list":"i32"},"files":[<L>],<all>}
nowhere -> | shut"##;
