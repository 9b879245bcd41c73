//! Laws of plans. Each is the contract of a function that does nothing.
ghost use Rattle.scan_plans.specs.Laws.{WantsLieInMay, LeavesWantWhatIsTouched, LeavesWantNoMoreForLess, NoRowWantsNothing, PlansWantNothingForNoRow, PlansWantNoMoreForLess};

/// What a plan wants, whatever has arrived, is named when it is made.
pub fn wants_are_fixed_when_a_plan_is_made()
    ensures { WantsLieInMay }
{}

/// True rows of a range want of a leaf only what the range touches.
pub fn leaves_want_what_is_touched()
    ensures { LeavesWantWhatIsTouched }
{}

/// Fewer true rows want no more of a leaf.
pub fn leaves_want_no_more_for_less()
    ensures { LeavesWantNoMoreForLess }
{}

/// A mask that is all false wants nothing of a leaf.
pub fn no_row_wants_nothing_of_a_leaf()
    ensures { NoRowWantsNothing }
{}

/// A mask that is all false wants nothing of a plan.
pub fn plans_want_nothing_for_no_row()
    ensures { PlansWantNothingForNoRow }
{}

/// Fewer true rows want no more of a plan than the others come to want.
pub fn plans_want_no_more_for_less()
    ensures { PlansWantNoMoreForLess }
{}
