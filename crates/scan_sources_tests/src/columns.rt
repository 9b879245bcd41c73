//! Streams that give their arrays as columns.
ghost use Rattle.std.specs.Prelude.{◌≡◌, []};

use crate::six_rows::{claims, got, is_ordered, source_of, splits, stream};
use crate::stories::{and_live, told_columns};
use scan_streams::{Identity, ScanStream};
use std::alloc::Global;
use std::process::Abort;

/// The stream of a case: of three splits of six rows, three at once, under its limit.
fn columns_of(rt: &impl Abort, alloc: Global, case: &str) -> ScanStream<Identity<usize>>
    ensures { (result.feed).live ≡ [] }
{
    let claims = claims(rt, alloc, case);
    let splits = got(rt, splits(alloc, 2, 3));
    stream(
        rt,
        alloc,
        splits,
        is_ordered(case),
        3,
        claims,
        Identity::new(),
    )
}

/// Whether `CASE -> TEXT` holds of what seven polls give, and of how much is live then.
fn holds(rt: &impl Abort, alloc: Global, line: &str) -> bool {
    let Some((case, wanted)) = line.split_once(" -> ") else {
        panic!(rt; "half a line");
    };
    seven(rt, alloc, case).as_str() == wanted
}

fn seven(rt: &impl Abort, alloc: Global, case: &str) -> String {
    let mut source = source_of(rt, alloc, case);
    let mut stream = columns_of(rt, alloc, case);
    let text = told_columns(rt, alloc, &mut stream, &mut source, 7);
    and_live(rt, alloc, text, &source)
}

// A source that fails ends the columns.
#[test]
fn columns_come_in_the_order_of_splits_with_the_granted_rows_alone(rt: HostRuntime) {
    for line in " -> 1,2; 3; 4,5,6; end; end; end; end; live 0
wait:0,1,2 -> pending; 1,2; 3; 4,5,6; end; end; end; live 0
limit:4 -> 1,2; 3; 4; end; end; end; end; live 0
limit:0 -> end; end; end; end; end; end; end; live 0
unordered fail:1 -> source 1; end; end; end; end; end; end; live 0"
        .lines()
    {
        assert!(rt; holds(&rt, rt.alloc(), line), "at {line}");
    }
}
