//! Groups of rows by their keys, and running totals over each.
#![tactic(auto)]

mod adding;
mod all_sums;
mod cell;
mod counts;
mod fault;
mod group;
mod groups;
mod key;
mod known;
mod laws;
mod measure;
mod near;
mod order;
mod places;
mod row_places;
mod run;
mod sum;
mod tally;

pub use cell::Cell;
pub use fault::GroupsFault;
pub use group::Group;
pub use groups::Groups;
pub use laws::order_does_not_matter;
pub use measure::Measured;
pub use order::compare;
pub use row_places::RowPlaces;
pub use run::Run;
