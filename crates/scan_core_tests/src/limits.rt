// Rows that are claimed from one budget, by one worker or by four.
ghost use Rattle.std.specs.Prelude.{◌≡◌, ◌+◌, ◌*◌, ◌≤◌, min};
ghost use denote.Param.Send.{IsSync};
ghost use Rattle.scan_limit.specs.Budget.{most};

use scan_limit::{LimitSeat, RowLimit};
use scan_values::NoMemory;
use std::alloc::Global;
use std::process::Abort;
use std::thread;
use std::thread::Threads;

#[test]
fn two_seats_share_a_limit_of_three(rt: HostRuntime) {
    let (limit, mut first) = RowLimit::new(rt.alloc(), 3).expect(&rt, "new");
    let mut second = limit.split(&mut first, 5).expect(&rt, "split");
    assert_eq!(rt; (second.room(), second.claimed()), (5, 0));
    assert_eq!(rt; limit.take(&mut second, 2), 2);
    assert!(rt; !limit.is_exhausted(&mut first));
    assert_eq!(rt; limit.take(&mut first, 2), 1);
    assert!(rt; limit.is_exhausted(&mut first));
    limit.join(&mut first, second);
    assert_eq!(rt; (first.claimed(), first.granted()), (4, 3));
    assert_eq!(rt; limit.close(first), 4);
}

#[test]
fn grants_end_at_the_limit(rt: HostRuntime) {
    let (limit, mut seat) = RowLimit::new(rt.alloc(), 10).expect(&rt, "new");
    assert_eq!(rt; seat.room(), u64::MAX);
    assert_eq!(rt; limit.take(&mut seat, 4), 4);
    assert_eq!(rt; limit.take(&mut seat, 4), 4);
    assert_eq!(rt; limit.take(&mut seat, 4), 2);
    assert_eq!(rt; limit.take(&mut seat, 4), 0);
    assert_eq!(rt; (seat.claimed(), seat.granted()), (16, 10));
    assert_eq!(rt; limit.close(seat), 16);
}

// Claims so many rows, one at a time.
fn claim_one_by_one(limit: &RowLimit, mut seat: LimitSeat, rows: u64) -> LimitSeat
    requires own { seat.budget ≡ limit.now }
    requires room { rows ≤ seat.room }
    ensures own { result.budget ≡ seat.budget }
    ensures room { result.room + rows ≡ seat.room }
    ensures claimed { result.claimed ≡ seat.claimed + rows }
{
    for _ in 0..rows {
        limit.take(&mut seat, 1);
    }
    seat
}

// Two workers claim so many rows each, and the seat of the one is joined into that of the other.
fn claim_in_two<R: Threads + Sync>(
    rt: &R,
    limit: &RowLimit,
    first: LimitSeat,
    second: LimitSeat,
    rows: u64,
) -> LimitSeat
    requires own { (first.budget ≡ limit.now) × (second.budget ≡ limit.now) }
    requires room { (rows ≤ first.room) × (rows ≤ second.room) }
    ensures own { result.budget ≡ limit.now }
    ensures room { result.room + 2 * rows ≡ first.room + second.room }
    ensures claimed { result.claimed ≡ first.claimed + second.claimed + 2 * rows }
{
    let (mut first, second) = thread::join(
        rt,
        move || -> LimitSeat
            requires { (first.budget ≡ limit.now) × (rows ≤ first.room) }
            ensures own { result.budget ≡ first.budget }
            ensures room { result.room + rows ≡ first.room }
            ensures claimed { result.claimed ≡ first.claimed + rows }
        { claim_one_by_one(limit, first, rows) },
        move || -> LimitSeat
            requires { (second.budget ≡ limit.now) × (rows ≤ second.room) }
            ensures own { result.budget ≡ second.budget }
            ensures room { result.room + rows ≡ second.room }
            ensures claimed { result.claimed ≡ second.claimed + rows }
        { claim_one_by_one(limit, second, rows) },
    );
    limit.join(&mut first, second);
    first
}

// Four workers claim so many rows each, and together are granted as many as the limit allows.
fn granted_to_four<R: Abort + Threads + Sync>(rt: &R, alloc: Global, limit: u64, rows: u64) -> u64
    requires { 4 * rows ≤ most }
    ensures { result ≡ min limit (4 * rows) }
{
    let (limit, mut first) = RowLimit::new(alloc, limit).expect(rt, "new");
    let second = limit.split(&mut first, rows).expect(rt, "split");
    let mut third = limit.split(&mut first, 2 * rows).expect(rt, "split");
    let fourth = limit.split(&mut third, rows).expect(rt, "split");
    let budget = &limit;
    let (mut first, third) = thread::join(
        rt,
        move || -> LimitSeat
            requires sync { IsSync R.row }
            requires own { (first.budget ≡ budget.now) × (second.budget ≡ budget.now) }
            requires room { (rows ≤ first.room) × (rows ≤ second.room) }
            ensures own { result.budget ≡ budget.entry.now }
            ensures room { result.room + 2 * rows ≡ first.room + second.room }
            ensures claimed { result.claimed ≡ first.claimed + second.claimed + 2 * rows }
        { claim_in_two(rt, budget, first, second, rows) },
        move || -> LimitSeat
            requires sync { IsSync R.row }
            requires own { (third.budget ≡ budget.now) × (fourth.budget ≡ budget.now) }
            requires room { (rows ≤ third.room) × (rows ≤ fourth.room) }
            ensures own { result.budget ≡ budget.entry.now }
            ensures room { result.room + 2 * rows ≡ third.room + fourth.room }
            ensures claimed { result.claimed ≡ third.claimed + fourth.claimed + 2 * rows }
        { claim_in_two(rt, budget, third, fourth, rows) },
    );
    limit.join(&mut first, third);
    let granted = first.granted();
    limit.close(first);
    granted
}

#[test]
fn four_threads_are_granted_the_limit(rt: HostRuntime) {
    for (limit, rows, granted) in [(1000, 1000, 1000), (5000, 1000, 4000), (0, 10, 0)] {
        assert_eq!(rt; granted_to_four(&rt, rt.alloc(), limit, rows), granted);
    }
}
