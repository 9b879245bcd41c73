//! Tests of the row budget, of what a scan of one reader asks for and is split into, and of what its splits, streams and
//! iterators give, set up at once or when they are first asked. Most are lines of a text, each read and held to what it
//! says.
#![tactic(auto)]

#[cfg(test)]
mod array_iters;
#[cfg(test)]
mod array_streams;
#[cfg(test)]
mod case;
#[cfg(test)]
mod claims;
#[cfg(test)]
mod executed;
#[cfg(test)]
mod field_masks;
#[cfg(test)]
mod lazy_iters;
#[cfg(test)]
mod lazy_streams;
#[cfg(test)]
mod limits;
#[cfg(test)]
mod ranges;
#[cfg(test)]
mod rows;
#[cfg(test)]
mod setup;
#[cfg(test)]
mod sources;
#[cfg(test)]
mod split;
#[cfg(test)]
mod split_by;
#[cfg(test)]
mod told;
