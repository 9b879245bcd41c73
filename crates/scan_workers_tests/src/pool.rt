//! Phases of a pool: numbers that are raised by one in each.
ghost use Rattle.std.specs.Prelude.{All, OnOk};
ghost use Rattle.scan_pool.specs.Seats.{IsIdle};

use scan_pool::{Seat, Seated, Work, boxes, close_all, run_all, with_threads};
use std::alloc::{AllocError, Global};
use std::thread::Threads;

/// Numbers that are raised.
#[derive(Drop)]
struct Raise {
    numbers: Vec<u64>,
}

impl Work for Raise {
    ghost done = { λ old new. Unit {0} };
}

/// Raises each number by one.
fn add_one(work: &mut Raise) {
    for i in 0..work.numbers.len() {
        work.numbers[i] = work.numbers[i].wrapping_add(1);
    }
}

/// So many pieces of three numbers, which begin with 0.
fn pieces(alloc: Global, count: usize) -> Result<Vec<Raise>, AllocError> {
    let mut works = Vec::new(alloc);
    for _ in 0..count {
        let numbers = Vec::from_elem(alloc, 0, 3)?;
        works.push(Raise { numbers })?;
    }
    Ok(works)
}

/// So many phases, after which the seats are closed.
fn phases(seats: &mut [Seat<Raise>], works: &mut Vec<Raise>, count: u64) -> Result<(), AllocError>
    requires { All IsIdle seats.old }
    ensures { OnOk result (All IsIdle seats.new) }
{
    let run = |work: &mut Raise| add_one(work);
    for _ in 0..count {
        run_all(seats, works, &run)?;
    }
    Ok(())
}

/// The same, and lets the threads go.
fn phases_then_close(
    seats: &mut Vec<Seat<Raise>>,
    works: &mut Vec<Raise>,
    count: u64,
) -> Result<(), AllocError>
    requires { All IsIdle seats.old.items }
    ensures { OnOk result (All IsIdle seats.new.items) }
{
    let done = phases(seats.as_mut_slice(), works, count);
    close_all(seats);
    done
}

/// Whether all numbers of all pieces are this.
fn all_are(works: &[Raise], number: u64) -> bool {
    works.iter().all(|work| work.numbers.as_slice() == [number, number, number].as_slice())
}

/// What phases come to where threads serve.
fn served<R: Threads + Sync>(
    rt: &R,
    alloc: Global,
    threads: usize,
    count: usize,
) -> Result<Vec<Raise>, AllocError> {
    let works = pieces(alloc, count)?;
    let (seats, mut servers) = boxes::<Raise>(alloc, threads)?;
    let mut seated = Seated {
        seats,
        state: works,
    };
    let run = |work: &mut Raise| add_one(work);
    let mut drive = |seated: &mut Seated<Raise, Vec<Raise>>| -> Result<(), AllocError>
        requires { All IsIdle seated.now.seats.items }
    { phases_then_close(&mut seated.seats, &mut seated.state, 100) };
    with_threads(rt, servers.as_mut_slice(), &run, &mut seated, &mut drive)?;
    let Seated { state, .. } = seated;
    Ok(state)
}

#[test]
fn threads_do_all_phases(rt: HostRuntime) {
    for (threads, count) in [(1, 2), (3, 4), (3, 2), (2, 7), (3, 0)] {
        let works = served(&rt, rt.alloc(), threads, count).expect(&rt, "served");
        assert_eq!(rt; works.len(), count);
        assert!(rt; all_are(works.as_slice(), 100));
    }
}

/// Nobody takes out what is sent: it comes back as it was, and the caller does it.
#[test]
fn the_caller_does_what_no_thread_does(rt: HostRuntime) {
    let alloc = rt.alloc();
    let mut works = pieces(alloc, 4).expect(&rt, "pieces");
    let (mut seats, _servers) = boxes::<Raise>(alloc, 3).expect(&rt, "boxes");
    phases_then_close(&mut seats, &mut works, 5).expect(&rt, "phases_then_close");
    assert!(rt; all_are(works.as_slice(), 5));
    phases_then_close(&mut seats, &mut works, 5).expect(&rt, "phases_then_close");
    assert!(rt; all_are(works.as_slice(), 10));
}
