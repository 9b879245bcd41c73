//! Two streams that claim their rows of one limit.
ghost use Rattle.scan_streams.specs.Grants.{HasRoom};

use crate::six_rows::{source_of, stream_under};
use crate::stories::told;
use scan_limit::RowLimit;
use scan_streams::Claims;
use std::alloc::Global;
use std::process::Abort;
use std::string::String;
use std::sync::Arc;

/// Claims of two streams on one limit of so many rows.
fn shared(rt: &impl Abort, alloc: Global, rows: u64) -> (Option<Claims>, Option<Claims>)
    ensures first { HasRoom result.0 6 }
    ensures second { HasRoom result.1 6 }
{
    let (limit, mut seat) = RowLimit::new(alloc, rows).expect(rt, "new");
    let limit = Arc::new(alloc, limit).expect(rt, "new");
    let second = limit.split(&mut seat, 6).expect(rt, "split");
    let other = Claims::new(limit.clone().expect(rt, "clone"), rows, second);
    (Some(Claims::new(limit, rows, seat)), Some(other))
}

/// What two polls of a stream give that claims its rows.
fn claimed(rt: &impl Abort, alloc: Global, claims: Option<Claims>) -> String
    requires { HasRoom claims 6 }
{
    let mut source = source_of(rt, alloc, "");
    let mut stream = stream_under(rt, alloc, "", claims);
    told(rt, alloc, &mut stream, &mut source, "pp")
}

#[test]
fn two_streams_share_a_limit(rt: HostRuntime) {
    let alloc = rt.alloc();
    let (first, second) = shared(&rt, alloc, 4);
    let left = claimed(&rt, alloc, first);
    assert_eq!(rt; left.as_str(), "1,2; 3");
    let right = claimed(&rt, alloc, second);
    assert_eq!(rt; right.as_str(), "1; end");
}
