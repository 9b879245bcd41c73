//! Laws of scans. Each is the contract of a function that does nothing.
ghost use Rattle.scan_core.specs.Given.{SplitsGiveWhatIsAsked};
ghost use Rattle.scan_core.specs.SplitMeaning.{SplitsMeanTheirExpressions, OrderChangesNoRow, OrderWantsNoMore, OrderSpoilsNoMore, InTurnMeansWritten};
ghost use Rattle.scan_core.specs.SplitRanges.{SplitsOfARangeFollow, SplitsOfAllFollow};
ghost use Rattle.scan_core.specs.Streaming.{StreamsGiveTheFirstRows};

/// The plans of a scan's conjuncts and projection give the projection at the rows at which all conjuncts are true, and
/// want a segment only where some row has all conjuncts before it true.
pub fn splits_mean_their_expressions()
    ensures { SplitsMeanTheirExpressions }
{}

/// Conjuncts over row numbers may run first.
pub fn order_of_conjuncts_changes_no_row()
    ensures { OrderChangesNoRow }
{}

/// And nothing more is wanted then.
pub fn order_of_conjuncts_wants_no_more()
    ensures { OrderWantsNoMore }
{}

/// Nor is more found to be no good.
pub fn order_of_conjuncts_spoils_no_more()
    ensures { OrderSpoilsNoMore }
{}

/// So the splits of a scan that is set up give and want what its filter means as it is written.
pub fn splits_in_turn_mean_what_is_written()
    ensures { InTurnMeansWritten }
{}

/// The ranges of splits at rising boundaries follow each other, none without rows: those of a range from its first row
/// to its last, and those of all rows from the first boundary to the last.
pub fn splits_follow_each_other()
    ensures range { SplitsOfARangeFollow }
    ensures all { SplitsOfAllFollow }
{}

/// The splits of a scan that a builder set up, within a further range or all, give the values of its projection at
/// those rows that it selects of its range at which each conjunct of its filter is true, in the order of the rows.
pub fn splits_give_what_is_asked<R, M>()
    ensures { SplitsGiveWhatIsAsked R M }
{}

/// The splits of a stream give what all splits of its scan give, one after the other. Without a filter they give the
/// first of it, as many rows as the scan's limit.
pub fn streams_give_the_first_rows<M>()
    ensures { StreamsGiveTheFirstRows M }
{}
