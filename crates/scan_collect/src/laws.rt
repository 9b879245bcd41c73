//! Laws of what is read to its end. Each is the contract of a function that calls the laws it rests on, or none.
ghost use Rattle.scan_collect.specs.Laws.{ReadsGiveTheFirstRows, WorkedRows};

use scan_core::{splits_give_what_is_asked, streams_give_the_first_rows};

/// What is read without a fault of a stream or an iterator of a scan that a builder set up, from its first poll to its end:
/// its arrays hold the values of the builder's projection at the first of the rows that it selects of its range, within the
/// stream's, at which each conjunct of its filter is true. These are as many as the builder's limit, or all where they are
/// fewer, in the order of the rows or, without an order, in some order; no row comes twice, and no value is damaged.
pub fn reads_give_the_first_rows<R, M>()
    ensures { ReadsGiveTheFirstRows R M }
{
    streams_give_the_first_rows::<M>();
    splits_give_what_is_asked::<R, M>();
}

/// Worked rows: the first two of three rows in order and in some order, all of them, and fewer than a limit.
pub fn worked_rows()
    ensures { WorkedRows }
{}
