//! Worked examples of files on disk: files in memory and of the system and what is refused of them, and what a writer
//! writes of rows and refuses.
#![tactic(auto)]

#[cfg(test)]
mod fixtures;
#[cfg(test)]
mod not_written;
#[cfg(test)]
mod reading;
#[cfg(test)]
mod refusals;
#[cfg(test)]
mod system;
#[cfg(test)]
mod writing;
