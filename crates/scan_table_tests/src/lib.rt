//! Tables, files of older schemas and rows by their places, by the calls themselves: what each gives or which fault it
//! tells, and what was done to the files. Whole runs are the examples of siblaguur_jobs_examples.
#![tactic(auto)]

#[cfg(test)]
mod files;
#[cfg(test)]
mod fitting;
#[cfg(test)]
mod lookups;
#[cfg(test)]
mod tables;
#[cfg(test)]
mod texts;
#[cfg(test)]
mod unions;
#[cfg(test)]
mod widened;
