//! Work is divided among the seats of a pool and its caller.
ghost use Rattle.std.specs.Prelude.{◌≡◌, true, All, IfOk, OnOk, MatchOption, Some, None};
ghost use Rattle.std.specs.Fn.{CalledAtMut};
ghost use Rattle.std.specs.List.{AllZip};
ghost use Rattle.scan_pool.specs.Closures.{Does};
ghost use Rattle.scan_pool.specs.Seats.{IsIdle, IsOut, IsServing};

use crate::mail::{Work, run_work};
use crate::seat::{Seat, Server};
use std::alloc::AllocError;
use std::thread;
use std::thread::Threads;

/// The work, done.
fn done_here<T: Work, F: Fn(&mut T)>(run: &F, work: T) -> T
    requires { Does F.Fn run.now T.done }
    ensures { T.done work result }
{
    let mut work = work;
    run_work(run, &mut work);
    work
}

/// Waits for what a seat has sent, or does what it could not send.
fn done_at<T: Work, F: Fn(&mut T)>(
    seat: &mut Seat<T>,
    unsent: Option<T>,
    run: &F,
) -> Result<T, AllocError>
    requires does { Does F.Fn run.now T.done }
    requires sent { MatchOption unsent ((b : T) × IsOut b seat.old) (λ _. IsIdle seat.old) }
    ensures idle { OnOk result (IsIdle seat.new) }
    ensures done { IfOk result (λ w. MatchOption unsent ((b : T) → IsOut b seat.old → T.done b w) (λ x. T.done x w)) }
{
    match unsent {
        None => seat.take_back(run),
        Some(work) => Ok(done_here(run, work)),
    }
}

/// Sends the last pieces of work to one seat each, does the others by the closure, the first among them, and waits for
/// those that were sent.
pub fn run_all<T: Work, F: Fn(&mut T)>(
    seats: &mut [Seat<T>],
    works: &mut Vec<T>,
    run: &F,
) -> Result<(), AllocError>
    requires { All IsIdle seats.old × Does F.Fn run.now T.done }
    ensures idle { OnOk result (All IsIdle seats.new) }
    ensures done { OnOk result (AllZip T.done works.old.items works.new.items) }
{
    let Some(work) = works.pop() else {
        return Ok(());
    };
    if works.is_empty() || seats.is_empty() {
        let done = done_here(run, work);
        run_all(seats, works, run)?;
        works.push(done)?;
        return Ok(());
    }
    let Some((seat, rest)) = seats.split_first_mut() else {
        unreachable!()
    };
    let unsent = seat.send(work);
    run_all(rest, works, run)?;
    let done = done_at(seat, unsent, run)?;
    works.push(done)?;
    Ok(())
}

/// Serves each box by a thread of its own, which does by the closure what is sent, until all seats are closed.
fn serve_each<R: Threads + Sync, T: Work, F: Fn(&mut T) + Sync>(
    rt: &R,
    servers: &mut [Server<T>],
    run: &F,
)
    requires { All IsServing servers.old × Does F.Fn run.now T.done }
{
    let count = servers.len();
    if count > 0 {
        let serve = |_index: usize, server: &mut Server<T>|
            requires { IsServing server.now × Does F.Fn run.now T.done }
        { server.serve(run) };
        thread::for_each_mut(rt, servers, count, &serve);
    }
}

/// Serves a box in this thread and the others each by one of its own.
fn serve_both<R: Threads + Sync, T: Work, F: Fn(&mut T) + Sync>(
    rt: &R,
    first: &mut Server<T>,
    others: &mut [Server<T>],
    run: &F,
)
    requires first { IsServing first.old }
    requires others { All IsServing others.old }
    requires does { Does F.Fn run.now T.done }
{
    let mut serve_others = ||
        requires { All IsServing others.now × Does F.Fn run.now T.done }
    { serve_each(rt, others, run) };
    let mut serve_first = ||
        requires { IsServing first.now × Does F.Fn run.now T.done }
    { first.serve(run) };
    thread::join_mut(rt, &mut serve_others, &mut serve_first);
}

/// Serves the first box in this thread, and the others, once something is sent to the second, each by one of its own.
fn serve_all<R: Threads + Sync, T: Work, F: Fn(&mut T) + Sync>(
    rt: &R,
    servers: &mut [Server<T>],
    run: &F,
)
    requires { All IsServing servers.old × Does F.Fn run.now T.done }
{
    let Some((first, others)) = servers.split_first_mut() else {
        return;
    };
    if first.serve_until(others, run) {
        serve_both(rt, first, others, run);
    }
}

/// Seats of a pool, and what a closure changes that sends work through them.
#[derive(Drop)]
pub struct Seated<T: Work, S> {
    pub seats: Vec<Seat<T>>,
    pub state: S,
}

/// Lets the threads that serve these seats go.
pub fn close_all<T: Work>(seats: &Vec<Seat<T>>) {
    for seat in seats.iter() {
        seat.close();
    }
}

/// Calls a closure.
fn call<X, A, D: FnMut(&mut X) -> A>(drive: &mut D, x: &mut X) -> A
    requires { (y : _) → y.now ≡ x.old → D.pre drive.old y }
    ensures { CalledAtMut D.FnMut drive.old x.old result drive.new x.new }
{
    drive(x)
}

/// Calls a closure, `drive`, once while a thread serves each box, and waits for the threads: it has to close the seats. One
/// thread starts at once, and the others once work is sent to a second seat.
pub fn with_threads<R: Threads + Sync, T: Work, F: Fn(&mut T) + Sync, S, A, D: FnMut(&mut S) -> A>(
    rt: &R,
    servers: &mut [Server<T>],
    run: &F,
    state: &mut S,
    drive: &mut D,
) -> A
    requires serving { All IsServing servers.old × Does F.Fn run.now T.done }
    requires callable { (x : _) → x.now ≡ state.old → D.pre drive.old x }
    ensures { CalledAtMut D.FnMut drive.old state.old result drive.new state.new }
{
    let mut serve = ||
        requires { All IsServing servers.now × Does F.Fn run.now T.done }
    { serve_all(rt, servers, run) };
    let mut rounds = || -> A
        requires { (x : _) → x.now ≡ state.now → D.pre drive.now x }
        ensures { CalledAtMut D.FnMut drive.entry.now state.entry.now result drive.exit.now state.exit.now }
    { call(drive, state) };
    let (_, done) = thread::join_mut(rt, &mut serve, &mut rounds);
    done
}
