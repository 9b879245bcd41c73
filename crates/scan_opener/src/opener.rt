//! Openers of files. After the Rust's `scan::multi`.
ghost use Rattle.std.specs.Prelude.{◌≡◌, None, Some};
ghost use Rattle.scan_segments.specs.Faults.{one_more};
ghost use Rattle.scan_segments.specs.MemorySource.{stepped};
ghost use Rattle.scan_segments.specs.Outcomes.{outcome_of};
ghost use Rattle.scan_opener.specs.Opener.{IsPolledOpen};
ghost use Rattle.scan_opener.specs.OpenerMemory.{given_of, opener_state, IsAnswerBy, faults_after};

use scan_layout::LayoutRef;
use scan_segments::{Outcome, Script};
use scan_values::StrictSorted;
use std::alloc::Global;
use std::rc::Rc;

/// What a poll of an opener gives.
#[derive(Drop)]
pub enum Opening {
    /// There is no answer yet.
    Pending,
    /// The layout of the file.
    Opened(LayoutRef),
    /// The file has nothing for this scan.
    Skipped,
    /// The opener's count of faults rose.
    Failed,
    NoMemory,
}

/// Opens a file: it is polled until it gives a layout, skips the file or fails. Polled after an answer, it answers anew.
pub trait LayoutReaderFactory {
    ghost use Rattle.scan_opener.specs.Opener.{OpenerState, IsPolledOpen};

    /// What the opener gives, its faults, its turns and how often it was polled.
    ghost opener: { Self → OpenerState };

    /// One poll. It fails only where the count of faults rose, and is pending only where the turns fell.
    fn poll_open(&mut self, alloc: Global) -> Opening
        ensures { IsPolledOpen (opener self.old) (opener self.new) result };
}

/// An opener that gives a layout that it was made with, or a skip. Its polls are numbered from 0, up to the greatest
/// u64; one without a number neither fails nor is pending.
#[derive(Drop)]
pub struct MemoryOpener {
    pub gives: Option<LayoutRef>,
    pub script: Script,
    pub faults: u64,
    pub polls: u64,
}

impl MemoryOpener {
    /// An opener of a layout, or of a skip where there is none. The numbered polls of `failing` fail, and those of
    /// `pending` are pending.
    pub fn new(gives: Option<LayoutRef>, failing: StrictSorted, pending: StrictSorted) -> Self
        ensures gives { result.gives ≡ gives }
        ensures script { result.script ≡ record { failing = failing; pending = pending; next = Some 0 } }
        ensures faults { result.faults ≡ 0 }
        ensures polls { result.polls ≡ 0 }
    {
        MemoryOpener {
            gives,
            script: Script::new(failing, pending),
            faults: 0,
            polls: 0,
        }
    }

    /// How many polls were made, up to the greatest u64.
    pub fn polled(&self) -> u64
        ensures { result ≡ self.now.polls }
    {
        self.polls
    }
}

impl LayoutReaderFactory for MemoryOpener {
    ghost opener = { λ s. opener_state s.gives s.script s.faults s.polls };

    fn poll_open(&mut self, alloc: Global) -> Opening
        ensures polled { IsPolledOpen
            (opener_state self.old.gives self.old.script self.old.faults self.old.polls)
            (opener_state self.new.gives self.new.script self.new.faults self.new.polls) result }
        ensures answer { IsAnswerBy (outcome_of self.old.script) (given_of self.old.gives) result }
        ensures after { self.new ≡ record self.old {
          script = stepped self.old.script;
          polls = one_more self.old.polls;
          faults = faults_after result self.old.faults;
        } }
    {
        self.polls = self.polls.saturating_add(1);
        match self.script.step() {
            Outcome::Fails => {
                self.faults = self.faults.saturating_add(1);
                return Opening::Failed;
            }
            Outcome::Waits => return Opening::Pending,
            Outcome::Goes => {}
        }
        let Some(layout) = &self.gives else {
            return Opening::Skipped;
        };
        match Rc::clone(layout) {
            Ok(layout) => Opening::Opened(layout),
            Err(_) => Opening::NoMemory,
        }
    }
}

/// An opener in a box.
#[derive(Drop)]
pub struct BoxedFactory(pub Box<dyn LayoutReaderFactory + Drop>);

impl LayoutReaderFactory for BoxedFactory {
    ghost opener = { λ s. (LayoutReaderFactory-box s.0).opener s.0.value };

    fn poll_open(&mut self, alloc: Global) -> Opening {
        self.0.poll_open(alloc)
    }
}
