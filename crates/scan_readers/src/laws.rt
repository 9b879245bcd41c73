//! Laws of plans of readers. Each is the contract of a function that does nothing.
ghost use Rattle.scan_readers.specs.Laws.{PlansWantBetween};

/// Of a mask a plan wants only what the rows from the first true one to the last touch, however long the mask is.
pub fn plans_want_between_their_rows()
    ensures { PlansWantBetween }
{}
