//! Tests of the workers of a scan: two of them are at work at once, and their number changes no answer; of what a sink has
//! taken; of the row budget, claimed by one thread or by four; and of the pool, what its threads do and what is done without
//! them. Scans are lines of a text, each read and held to what it says.
#![tactic(auto)]

#[cfg(test)]
mod cases;
#[cfg(test)]
mod files;
#[cfg(test)]
mod gates;
#[cfg(test)]
mod pool;
#[cfg(test)]
mod sinks;
#[cfg(test)]
mod threads;
#[cfg(test)]
mod told;
#[cfg(test)]
mod words;
