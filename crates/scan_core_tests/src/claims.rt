//! Streams of one scan that claim their rows of one limit.
ghost use Rattle.std.specs.Prelude.{◌≡◌, ◌≤◌, None};

use crate::array_streams::story;
use crate::rows::{field, file, scan_of};
use crate::sources::source;
use scan_core::{Claims, Identity, RepeatedScan, RowLimit, SetupFault};
use scan_readers::LayoutReader;
use std::alloc::Global;
use std::ops::Range;
use std::process::Abort;
use std::string::String;
use std::sync::Arc;

/// A scan of the numbers `b`, in two splits, of which one is read at a time.
fn unlimited(rt: &impl Abort, alloc: Global) -> RepeatedScan<Identity<u8>>
    ensures rows { result.rows ≡ 3 }
    ensures limit { result.limit ≡ None }
{
    let mut reader = file(rt, alloc, "two");
    if reader.row_count() != 3 {
        panic!(rt; "not three rows");
    }
    let builder = scan_of(rt, alloc, &mut reader, &field(rt, alloc, "b"))
        .with_concurrency(1)
        .with_some_limit(None);
    builder.prepare(alloc).expect(rt, "prepare")
}

/// Claims of two streams on one limit of so many rows.
fn shared(rt: &impl Abort, alloc: Global, rows: u64) -> (Claims, Claims)
    ensures first { 3 ≤ result.0.room }
    ensures second { 3 ≤ result.1.room }
{
    let (limit, mut seat) = RowLimit::new(alloc, rows).expect(rt, "new");
    let limit = Arc::new(alloc, limit).expect(rt, "new");
    let second = limit.split(&mut seat, 3).expect(rt, "split");
    let other = Claims::new(limit.clone().expect(rt, "clone"), rows, second);
    (Claims::new(limit, rows, seat), other)
}

/// What three polls give of all rows of a scan, up to what is granted.
fn claimed(
    rt: &impl Abort,
    alloc: Global,
    scan: &mut RepeatedScan<Identity<u8>>,
    claims: Claims,
) -> String
    requires limit { scan.old.limit ≡ None }
    requires room { scan.old.rows ≤ claims.room }
    ensures { scan.new ≡ scan.old }
{
    let source = source(rt, alloc, "");
    let stream = scan
        .execute_claiming(alloc, None, claims)
        .expect(rt, "execute_claiming");
    story(rt, alloc, stream, source, 3)
}

/// What two streams of a scan give, one after the other, that share a limit.
fn both(rt: &impl Abort, alloc: Global, rows: u64) -> (String, String) {
    let mut scan = unlimited(rt, alloc);
    let (first, second) = shared(rt, alloc, rows);
    let one = claimed(rt, alloc, &mut scan, first);
    let other = claimed(rt, alloc, &mut scan, second);
    (one, other)
}

#[test]
fn two_streams_of_a_scan_share_a_limit(rt: HostRuntime) {
    let alloc = rt.alloc();
    let (one, other) = both(&rt, alloc, 4);
    assert_eq!(rt; one.as_str(), "10,20; 30; end; asked 2 3, live 0; live 0");
    assert_eq!(rt; other.as_str(), "10; end; end; asked 2, live 0; live 0");
    let (one, other) = both(&rt, alloc, 2);
    assert_eq!(rt; one.as_str(), "10,20; end; end; asked 2, live 0; live 0");
    assert_eq!(rt; other.as_str(), "end; end; end; asked 2, live 0; live 0");
}

/// Why a scan is not executed over these rows.
fn unexecuted(rt: &impl Abort, alloc: Global, range: Range<u64>) -> Option<SetupFault> {
    let mut scan = unlimited(rt, alloc);
    let (claims, _other) = shared(rt, alloc, 4);
    scan.execute_claiming(alloc, Some(range), claims).err()
}

#[test]
fn claims_are_made_within_the_rows(rt: HostRuntime) {
    let alloc = rt.alloc();
    assert!(rt; unexecuted(&rt, alloc, 0..3).is_none());
    assert!(rt; unexecuted(&rt, alloc, 2..1) == Some(SetupFault::RowRange));
    assert!(rt; unexecuted(&rt, alloc, 0..4) == Some(SetupFault::RowRange));
}

/// How many of two claims of three rows each are granted of a limit of five, each with whether the limit is spent then.
fn of_five(rt: &impl Abort, alloc: Global) -> [(u64, bool); 2] {
    let (limit, seat) = RowLimit::new(alloc, 5).expect(rt, "new");
    let limit = Arc::new(alloc, limit).expect(rt, "new");
    let mut claims = Claims::new(limit, 5, seat);
    let first = claims.take(3);
    let after_first = claims.is_spent();
    let second = claims.take(3);
    [(first, after_first), (second, claims.is_spent())]
}

#[test]
fn claims_are_spent_where_less_is_granted(rt: HostRuntime) {
    let alloc = rt.alloc();
    assert!(rt; of_five(&rt, alloc) == [(3, false), (2, true)]);
}
