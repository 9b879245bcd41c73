//! Worked examples of streams: what they ask, give and end with; and of sources of data, of one reader and of many files:
//! what is known of their rows and bytes, what the parts of their scans give, and what is refused.
#![tactic(auto)]

#[cfg(test)]
mod columns;
#[cfg(test)]
mod empties;
#[cfg(test)]
mod estimates;
#[cfg(test)]
mod iters;
#[cfg(test)]
mod limits;
#[cfg(test)]
mod maps;
#[cfg(test)]
mod pairs;
#[cfg(test)]
mod partitions;
#[cfg(test)]
mod parts;
#[cfg(test)]
mod requests;
#[cfg(test)]
mod rows;
#[cfg(test)]
mod six_rows;
#[cfg(test)]
mod stories;
#[cfg(test)]
mod streams;
#[cfg(test)]
mod told;
