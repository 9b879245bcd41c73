//! Laws of files under another dtype. Each is the contract of a function that does nothing.
ghost use Rattle.scan_widen.specs.Countable.{FormsUnder};
ghost use Rattle.scan_widen.specs.Laws.{RangesHold, ValuesGo, WidenedReadsAgain};
ghost use Rattle.scan_widen.specs.Rows.{RowsUnderDType, RowsWiden};

/// A layout that is well-formed is so under a dtype that its own fits.
pub fn layouts_keep_their_form()
    ensures { FormsUnder }
{}

/// A row of a layout under a dtype is its row, widened: over the segments that stand behind, and over any store that
/// has them.
pub fn rows_are_widened()
    ensures behind { RowsUnderDType }
    ensures any { RowsWiden }
{}

/// A number of one integer type is one of each that it fits under.
pub fn ranges_hold()
    ensures { RangesHold }
{}

/// Values of a scalar dtype are values of each that it fits under.
#[tactic(auto, using(crate::proofs::Leaves::vals_go))]
pub fn values_are_values_there()
    ensures { ValuesGo }
{}

/// The values of a segment, spelled as ones of another dtype, are read again.
#[tactic(auto, using(crate::proofs::Again::widened_again))]
pub fn what_is_widened_is_read_again()
    ensures { WidenedReadsAgain }
{}
