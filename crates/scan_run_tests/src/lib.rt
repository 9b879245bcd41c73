//! Scans of a manifest's files, with what each asks and leaves, and runs, reads and writes of which one call fails: what the
//! cases of siblaguur_examples can't say.
#![tactic(auto)]

#[cfg(test)]
mod cases;
#[cfg(test)]
mod edges;
#[cfg(test)]
mod runs;
#[cfg(test)]
mod scans;
