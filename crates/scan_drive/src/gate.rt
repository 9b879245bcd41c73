//! What a worker passes before it works. An own type: the Rust has none.

/// Passed by each worker before its first split of a phase. The workers of a scan are numbered from 1.
pub trait Gate: Sync {
    fn pass(&self, worker: usize);
}

/// A gate that each worker passes at once.
#[derive(Clone, Copy, Debug)]
pub struct NoGate;

impl NoGate {
    /// The gate.
    pub fn new() -> Self {
        NoGate
    }
}

impl Gate for NoGate {
    fn pass(&self, _worker: usize) {}
}
