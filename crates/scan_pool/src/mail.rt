//! A box in which one piece of work lies at a time: it goes to a thread, and comes back done.
ghost use Rattle.std.specs.Prelude.{◌≡◌, true, false, None, Some, IfOk, IfErr, MatchOption, MatchResult};
ghost use Rattle.crossbeam_queue.specs.Passes.{view, IsSamePass, IsPassOf};
ghost use Rattle.scan_pool.specs.Boxes.{Meets, IsKept, knows};
ghost use Rattle.scan_pool.specs.Closures.{Does};

use crossbeam_queue::protocol::{Outcome, Protocol, Split};
use crossbeam_queue::{Pass, RuledArrayQueue};

/// A piece of work that a thread of a pool can do by a closure.
pub trait Work: Drop + Send {
    /// What it comes to.
    ghost done: { Self → Self → Type 0 };
}

/// Does work.
pub(crate) fn run_work<T: Work, F: Fn(&mut T)>(run: &F, work: &mut T)
    requires { Does F.Fn run.now T.done }
    ensures { T.done work.old work.new }
{
    run(work);
}

/// Work on its way: still to be done, or done.
#[derive(Drop)]
pub struct Mail<T> {
    pub work: T,
    pub is_done: bool,
}

/// What a pass may do, which work it has sent that is not back, and which mail it has taken out. It is seen by proofs alone.
pub struct Knows<T> {
    pub sends: bool,
    pub serves: bool,
    pub sent: Option<T>,
    pub has: Option<Mail<T>>,
}

/// What was sent is in the box or with the thread, as it was or done.
pub struct Exchange;

impl<T: Work> Protocol<Mail<T>, Knows<T>> for Exchange {
    ghost use Rattle.std.specs.Prelude.{true, None};
    ghost use Rattle.scan_pool.specs.Boxes.{Exchanged, knows};

    ghost holds = { Exchanged T.done };

    ghost first = { knows true true None None };
}

/// One pass sends, and the other serves.
pub struct Sides;

impl<T> Split<Knows<T>> for Sides {
    ghost use Rattle.std.specs.Prelude.{true, false, None};
    ghost use Rattle.scan_pool.specs.Boxes.{knows};

    ghost left = { λ v. knows true false v.sent None };

    ghost right = { λ v. knows false true None v.has };
}

/// Work is sent.
struct Sent;

impl<T> Outcome<Mail<T>, Knows<T>> for Sent {
    ghost use Rattle.std.specs.Prelude.{◌≡◌, Some};
    ghost use Rattle.scan_pool.specs.Boxes.{knows};

    ghost then = { λ v x w. w ≡ knows v.sends v.serves (Some x.work) v.has };
}

/// Work that was sent comes back.
struct Back;

impl<T: Work> Outcome<Mail<T>, Knows<T>> for Back {
    ghost use Rattle.std.specs.Prelude.{◌≡◌, None};
    ghost use Rattle.scan_pool.specs.Boxes.{Answers, knows};

    ghost then = { λ v x w. (w ≡ knows v.sends v.serves None v.has) × Answers T.done v.sent x };
}

/// The thread takes mail out.
struct Taken;

impl<T> Outcome<Mail<T>, Knows<T>> for Taken {
    ghost use Rattle.std.specs.Prelude.{◌≡◌, Some};
    ghost use Rattle.scan_pool.specs.Boxes.{knows};

    ghost then = { λ v x w. w ≡ knows v.sends v.serves v.sent (Some x) };
}

/// The thread puts mail in.
struct Put;

impl<T> Outcome<Mail<T>, Knows<T>> for Put {
    ghost use Rattle.std.specs.Prelude.{◌≡◌, None};
    ghost use Rattle.scan_pool.specs.Boxes.{knows};

    ghost then = { λ v x w. w ≡ knows v.sends v.serves v.sent None };
}

pub(crate) type Line<T> = RuledArrayQueue<Mail<T>, Knows<T>, Exchange>;

/// Sends work, unless the box is not free for it.
pub(crate) fn try_send<T: Work>(
    line: &Line<T>,
    pass: &mut Pass<Mail<T>, Knows<T>>,
    work: T,
) -> Result<(), T>
    requires own { IsPassOf line.now pass.old }
    requires idle { view pass.old ≡ knows true false None None }
    ensures own { IsPassOf line.now pass.new }
    ensures sent { MatchResult result (λ _. view pass.new ≡ knows true false (Some work) None)
        (λ w. (w ≡ work) × (view pass.new ≡ knows true false None None)) }
{
    match line.try_push_as::<Sent>(
        pass,
        Mail {
            work,
            is_done: false,
        },
    ) {
        Ok(()) => Ok(()),
        Err(mail) => Err(mail.work),
    }
}

/// Does the work, unless it is done.
pub(crate) fn finish<T: Work, F: Fn(&mut T)>(run: &F, mail: Mail<T>) -> T
    requires { Does F.Fn run.now T.done }
    ensures { (b : T) → Meets T.done b mail → T.done b result }
{
    let Mail { mut work, is_done } = mail;
    if !is_done {
        run_work(run, &mut work);
    }
    work
}

/// Takes back what was sent, done, or still to be done where no thread has taken it out; nothing where a thread is at it.
pub(crate) fn try_take_back<T: Work, F: Fn(&mut T)>(
    line: &Line<T>,
    pass: &mut Pass<Mail<T>, Knows<T>>,
    run: &F,
) -> Option<T>
    requires does { Does F.Fn run.now T.done }
    requires own { IsPassOf line.now pass.old }
    requires sent { (b : T) × (view pass.old ≡ knows true false (Some b) None) }
    ensures own { IsPassOf line.now pass.new }
    ensures back { MatchOption result (view pass.new ≡ view pass.old)
        (λ w. (view pass.new ≡ knows true false None None) × ((b : T) → view pass.old ≡ knows true false (Some b) None → T.done b w)) }
{
    let mail = line.try_pop_as::<Back>(pass)?;
    Some(finish(run, mail))
}

/// Takes mail out, if there is any.
pub(crate) fn try_take<T: Work>(
    line: &Line<T>,
    pass: &mut Pass<Mail<T>, Knows<T>>,
) -> Option<Mail<T>>
    requires own { IsPassOf line.now pass.old }
    requires idle { view pass.old ≡ knows false true None None }
    ensures own { IsPassOf line.now pass.new }
    ensures taken { MatchOption result (view pass.new ≡ knows false true None None)
        (λ m. view pass.new ≡ knows false true None (Some m)) }
{
    line.try_pop_as::<Taken>(pass)
}

/// Puts the mail that was taken out back in, done, unless the box is not free for it.
pub(crate) fn try_put<T: Work>(
    line: &Line<T>,
    pass: &mut Pass<Mail<T>, Knows<T>>,
    mail: Mail<T>,
) -> Result<(), Mail<T>>
    requires own { IsPassOf line.now pass.old }
    requires has { IsKept T.done mail (view pass.old) }
    ensures own { IsPassOf line.now pass.new }
    ensures put { MatchResult result (λ _. view pass.new ≡ knows false true None None)
        (λ m. (m ≡ mail) × (view pass.new ≡ view pass.old)) }
{
    line.try_push_as::<Put>(pass, mail)
}
