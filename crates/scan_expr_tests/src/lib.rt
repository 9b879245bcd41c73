//! Worked examples over public calls, as lines of a text: values, expressions, expressions taken apart by what they read,
//! columns, and groups of rows. A line says what a call is given and, behind an arrow, what it gives, as that is shown.
#![tactic(auto)]

#[cfg(test)]
mod columns;
#[cfg(test)]
mod expressions;
#[cfg(test)]
mod grouping;
#[cfg(test)]
mod joins;
#[cfg(test)]
mod leaves;
#[cfg(test)]
mod lines;
#[cfg(test)]
mod parts;
#[cfg(test)]
mod readings;
#[cfg(test)]
mod table;
#[cfg(test)]
mod values;
#[cfg(test)]
mod words;
