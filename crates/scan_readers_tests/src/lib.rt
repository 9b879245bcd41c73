//! Worked examples over public calls: segments, their sources, caches and requests that are shared, layouts, splits, arrays
//! that are computed once, and readers, by what they want of a store of segments and what they give.
#![tactic(auto)]

#[cfg(test)]
mod asked;
#[cfg(test)]
mod caches;
#[cfg(test)]
mod futures;
#[cfg(test)]
mod layouts;
#[cfg(test)]
mod ranges;
#[cfg(test)]
mod segments;
#[cfg(test)]
mod shared_arrays;
#[cfg(test)]
mod sharing;
#[cfg(test)]
mod sources;
#[cfg(test)]
mod stories;
#[cfg(test)]
mod structs;
#[cfg(test)]
mod told;
#[cfg(test)]
mod typed;
#[cfg(test)]
mod words;
