//! What opens a file: it is polled until it gives the splits of the file, or says why it is not read. An own type: the
//! Rust opens files in async functions.
ghost use Rattle.std.specs.Prelude.{◌≡◌, ◌≤◌, ◌<◌, ◌+◌, false, OnOk, IfOk};
ghost use Rattle.scan_drive.specs.Openers.{Opens, IsHeldFor, StaysOpen, PhaseKeeps, as_number};
ghost use Rattle.scan_drive.specs.Phases.{is_unopened};
ghost use Rattle.scan_drive.specs.Polls.{IsPolledIn};
ghost use Rattle.scan_drive.specs.declared.phase.Phase.TheVariants as phases;

use crate::phase::Phase;
use crate::work::SplitWork;
use scan_values::NoMemory;
use std::alloc::Global;
use std::collections::VecDeque;

/// What a poll of an opener gives.
#[derive(Drop)]
pub enum Opening<W, F> {
    /// There is no answer yet.
    Pending,
    /// The splits of the file, in order, and how many rows the file has. A file that is skipped has none.
    Opened(VecDeque<W>, u64),
    /// Why the file is not read.
    Refused(F),
    NoMemory,
}

/// What opens the files of a scan: it polls the opener of a file, checks what that gives and plans the splits.
pub trait SplitOpener<O, W: SplitWork, F> {
    ghost use Rattle.std.specs.Prelude.{List};
    ghost use Rattle.scan_drive.specs.Files.{Item};
    ghost use Rattle.scan_drive.specs.Openers.{OpenerState, PollsOpen};

    /// What the opener of a file gives to this scan, its faults, its turns and how often it was polled.
    ghost state: { Self → O → OpenerState Item };

    /// What a poll does to the opener of a file.
    ghost polls: { O → O → Type 0 };

    /// Why a poll of the opener of a file may say that it is not read.
    ghost refuses: { Self → O → O → F → Type 0 };

    /// What a poll of the opener of a file shows that gives these splits.
    ghost admits: { Self → O → O → List W → Type 0 };

    /// One poll. It is pending only where the turns fell.
    fn poll_open(&self, alloc: Global, opener: &mut O) -> Opening<W, F>
        ensures answer { PollsOpen W.split W.comes (state self.now) (refuses self.now) (admits self.now)
            opener.old opener.new result }
        ensures polled { polls opener.old opener.new };
}

/// Polls the opener of a file once, unless it has answered, and says whether it has now.
pub fn open_file<X: SplitOpener<O, W, F>, O, W: SplitWork + Drop, F: Drop>(
    alloc: Global,
    context: &X,
    opener: &mut O,
    phase: &mut Phase<W, F>,
) -> Result<bool, NoMemory>
    ensures opens { Opens (X.state context.now) X.polls opener.old opener.new }
    ensures once { IsPolledIn (X.state context.now) phase.old opener.old opener.new }
    ensures opened { IfOk result (λ b. is_unopened phase.new + as_number b ≤ is_unopened phase.old) }
    ensures same { IfOk result (λ b. b ≡ false → phase.new ≡ phase.old) }
    ensures waits { IfOk result (λ b. b ≡ false → phase.old ≡ phases.Unopened →
        (X.state context.now opener.new).turns < (X.state context.now opener.old).turns) }
    ensures keeps { OnOk result (PhaseKeeps W.split W.comes (X.state context.now opener.old).gives phase.old phase.new) }
    ensures held { OnOk result (IsHeldFor (X.refuses context.now) opener.old opener.new phase.old phase.new) }
    ensures splits { OnOk result (StaysOpen (X.admits context.now opener.old opener.new) phase.old phase.new) }
{
    match phase {
        Phase::Unopened => {}
        Phase::Queued(_, _) => return Ok(false),
        Phase::Held(_) => return Ok(false),
    }
    match context.poll_open(alloc, opener) {
        Opening::Pending => Ok(false),
        Opening::NoMemory => Err(NoMemory),
        Opening::Opened(splits, rows) => {
            *phase = Phase::Queued(splits, rows);
            Ok(true)
        }
        Opening::Refused(fault) => {
            *phase = Phase::Held(fault);
            Ok(true)
        }
    }
}
