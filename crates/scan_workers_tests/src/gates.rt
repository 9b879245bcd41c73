//! A gate that tells what has passed it.
use scan_multi::Gate;
use std::sync::atomic::{AtomicU64, Ordering};
use std::thread;

/// Counts how often the workers numbered 1 have passed, and the others, and holds each of two workers in its first phase
/// until the other has come, for so many turns at most. A worker that has seen the other is marked.
#[derive(Drop)]
pub(crate) struct Meeting {
    pub turns: u32,
    pub first: AtomicU64,
    pub first_saw: AtomicU64,
    pub other: AtomicU64,
    pub other_saw: AtomicU64,
}

/// Comes, and waits for the other where it has not come before.
fn meet(own: &AtomicU64, other: &AtomicU64, saw: &AtomicU64, turns: u32) {
    if own.fetch_add(1, Ordering::SeqCst) > 0 {
        return;
    }
    for _ in 0..turns {
        if other.load(Ordering::SeqCst) > 0 {
            saw.store(1, Ordering::SeqCst);
            break;
        }
        thread::yield_now();
    }
}

impl Meeting {
    pub(crate) fn new(turns: u32) -> Meeting {
        Meeting {
            turns,
            first: AtomicU64::new(0),
            first_saw: AtomicU64::new(0),
            other: AtomicU64::new(0),
            other_saw: AtomicU64::new(0),
        }
    }
}

impl Gate for Meeting {
    fn pass(&self, worker: usize) {
        if worker == 1 {
            meet(&self.first, &self.other, &self.first_saw, self.turns);
        } else {
            meet(&self.other, &self.first, &self.other_saw, self.turns);
        }
    }
}
