//! The two sides of a box: a seat, which sends, and a server, which a thread runs.
ghost use Rattle.std.specs.Prelude.{◌≡◌, true, false, None, Some, All, IfOk, IfSome, OnOk, MatchOption};
ghost use Rattle.crossbeam_queue.specs.Passes.{view, IsPassOf};
ghost use Rattle.scan_pool.specs.Boxes.{Meets, IsKept, knows};
ghost use Rattle.scan_pool.specs.Closures.{Does};
ghost use Rattle.scan_pool.specs.Seats.{IsIdle, IsOut, IsServing};

use crate::mail::{
    Knows, Line, Mail, Sides, Work, finish, try_put, try_send, try_take, try_take_back,
};
use crossbeam_queue::Pass;
use std::alloc::{AllocError, Global};
use std::sync::Arc;
use std::sync::atomic::{AtomicU64, Ordering};
use std::thread;

// The bell's number once its seat is closed.
const CLOSED: u64 = u64::MAX;

/// A box between a seat and its server, and a bell that the seat rings.
#[derive(Drop)]
struct Mailbox<T: Work> {
    line: Line<T>,
    bell: AtomicU64,
}

/// The side that sends.
#[derive(Drop)]
pub struct Seat<T: Work> {
    mailbox: Arc<Mailbox<T>>,
    pass: Pass<Mail<T>, Knows<T>>,
    rings: u64,
}

/// The side that a thread runs.
#[derive(Drop)]
pub struct Server<T: Work> {
    mailbox: Arc<Mailbox<T>>,
    pass: Pass<Mail<T>, Knows<T>>,
}

/// Mail with its work done.
fn with_done<T: Work, F: Fn(&mut T)>(run: &F, mail: Mail<T>) -> Mail<T>
    requires { Does F.Fn run.now T.done }
    ensures { (b : T) → Meets T.done b mail → Meets T.done b result }
{
    Mail {
        work: finish(run, mail),
        is_done: true,
    }
}

/// Puts mail in. It says whether it did, which may fail only after 2^64 - 1 turns.
fn put<T: Work>(line: &Line<T>, pass: &mut Pass<Mail<T>, Knows<T>>, mail: Mail<T>) -> bool
    requires own { IsPassOf line.now pass.old }
    requires has { IsKept T.done mail (view pass.old) }
    ensures { result ≡ true → IsPassOf line.now pass.new × (view pass.new ≡ knows false true None None) }
{
    let mut mail = mail;
    for _ in 0..u64::MAX {
        match try_put(line, pass, mail) {
            Ok(()) => return true,
            Err(back) => mail = back,
        }
        thread::yield_now();
    }
    false
}

impl<T: Work> Server<T> {
    /// Does what lies in the box, if anything does. It says whether the box may be served on.
    fn answer<F: Fn(&mut T)>(&mut self, run: &F) -> bool
        requires { IsServing self.old × Does F.Fn run.now T.done }
        ensures { result ≡ true → IsServing self.new }
    {
        match try_take(&self.mailbox.line, &mut self.pass) {
            None => true,
            Some(mail) => put(&self.mailbox.line, &mut self.pass, with_done(run, mail)),
        }
    }

    /// Whether its seat has sent anything, and is not closed.
    fn has_rung(&self) -> bool {
        let rings = self.mailbox.bell.load(Ordering::SeqCst);
        rings != 0 && rings != CLOSED
    }

    /// Does what is sent after so many rings, if anything is. It says how many rings it has heard by then, and nothing
    /// once the seat is closed.
    fn turn<F: Fn(&mut T)>(&mut self, heard: u64, run: &F) -> Option<u64>
        requires { IsServing self.old × Does F.Fn run.now T.done }
        ensures { IfSome result (λ _. IsServing self.new) }
    {
        let rings = self.mailbox.bell.load(Ordering::SeqCst);
        if rings == CLOSED {
            return None;
        }
        if rings == heard {
            thread::yield_now();
        } else if !self.answer(run) {
            return None;
        }
        Some(rings)
    }

    /// Does what is sent until the seat is closed.
    pub(crate) fn serve<F: Fn(&mut T)>(&mut self, run: &F)
        requires { IsServing self.old × Does F.Fn run.now T.done }
    {
        let mut heard = 0;
        for _ in 0..u64::MAX {
            match self.turn(heard, run) {
                Some(rings) => heard = rings,
                None => return,
            }
        }
    }

    /// Does what is sent until the seat is closed, or until the first of others has sent something: it says whether that
    /// is why.
    pub(crate) fn serve_until<F: Fn(&mut T)>(&mut self, others: &[Server<T>], run: &F) -> bool
        requires { IsServing self.old × Does F.Fn run.now T.done }
        ensures { result ≡ true → IsServing self.new }
    {
        let mut heard = 0;
        for _ in 0..u64::MAX {
            if are_used(others) {
                return true;
            }
            match self.turn(heard, run) {
                Some(rings) => heard = rings,
                None => return false,
            }
        }
        false
    }
}

/// Whether the first of these servers has been sent anything, if there is one.
fn are_used<T: Work>(servers: &[Server<T>]) -> bool {
    match servers.first() {
        Some(server) => server.has_rung(),
        None => false,
    }
}

impl<T: Work> Seat<T> {
    /// Whether it has sent anything.
    pub fn has_sent(&self) -> bool {
        self.rings != 0
    }

    /// Sends work. It comes back where it cannot be sent.
    pub(crate) fn send(&mut self, work: T) -> Option<T>
        requires { IsIdle self.old }
        ensures { MatchOption result (IsOut work self.new) (λ w. (w ≡ work) × IsIdle self.new) }
    {
        match try_send(&self.mailbox.line, &mut self.pass, work) {
            Err(work) => Some(work),
            Ok(()) => {
                self.rings = self.rings.wrapping_add(1);
                self.mailbox.bell.store(self.rings, Ordering::SeqCst);
                None
            }
        }
    }

    /// Waits for what was sent, done. It may fail only after 2^64 - 1 turns.
    pub(crate) fn take_back<F: Fn(&mut T)>(&mut self, run: &F) -> Result<T, AllocError>
        requires out { (b : T) × IsOut b self.old }
        requires does { Does F.Fn run.now T.done }
        ensures idle { OnOk result (IsIdle self.new) }
        ensures done { IfOk result (λ w. (b : T) → IsOut b self.old → T.done b w) }
    {
        for _ in 0..u64::MAX {
            match try_take_back(&self.mailbox.line, &mut self.pass, run) {
                Some(work) => return Ok(work),
                None => thread::yield_now(),
            }
        }
        Err(AllocError)
    }

    /// Lets the server go.
    pub(crate) fn close(&self) {
        self.mailbox.bell.store(CLOSED, Ordering::SeqCst);
    }
}

/// A box with both of its sides.
fn sides<T: Work>(alloc: Global) -> Result<(Seat<T>, Server<T>), AllocError>
    ensures { IfOk result (λ r. IsIdle r.0 × IsServing r.1) }
{
    let (line, mut pass) = Line::<T>::ruled(alloc, 1)?;
    let other = line.another::<Sides>(&mut pass);
    let bell = AtomicU64::new(0);
    let mailbox = Arc::new(alloc, Mailbox { line, bell })?;
    let server = Server {
        mailbox: Arc::try_clone(&mailbox)?,
        pass: other,
    };
    let seat = Seat {
        mailbox,
        pass,
        rings: 0,
    };
    Ok((seat, server))
}

/// Both sides of so many boxes, in the same order.
pub fn boxes<T: Work>(
    alloc: Global,
    count: usize,
) -> Result<(Vec<Seat<T>>, Vec<Server<T>>), AllocError>
    ensures { IfOk result (λ r. All IsIdle r.0.items × All IsServing r.1.items) }
{
    let mut seats = Vec::new(alloc);
    let mut servers = Vec::new(alloc);
    for _ in 0..count {
        let (seat, server) = sides(alloc)?;
        seats.push(seat)?;
        servers.push(server)?;
    }
    Ok((seats, servers))
}
