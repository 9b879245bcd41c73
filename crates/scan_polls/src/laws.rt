//! Laws of polls of scans of many files. Each is the contract of a function that does nothing.
ghost use Rattle.scan_polls.specs.Examples.{WorkedRows};
ghost use Rattle.scan_polls.specs.Laws.{AnsweredOnce, BegunAtMost, ComeInOrder, ComeInRisingPlaces, EndsWithAll, NoneDueAtEnd, NumberedByDelivery, NumberedFromStart, NumbersRise, OpenedComeFirst, OpenedLeadAsMade, OpenedStandFirst, StandOnce};

/// Each file that is due when polls begin is answered by one of them, was skipped, was passed over by its number, or is
/// still due: one of these, and once. At the end none is due.
pub fn files_are_answered_once<O>()
    ensures { AnsweredOnce O }
{}

/// In an ordered scan the answers and the files that are still due stand in the order in which the files were due.
pub fn files_come_in_their_order<O>()
    ensures { ComeInOrder O }
{}

/// The numbers of partitions rise: each counts the files before it that were delivered, with a partition or a fault or
/// passed over by its number.
pub fn numbers_of_partitions_rise<O>()
    ensures { NumbersRise O }
{}

/// No more files are begun at a time than the concurrency allows.
pub fn no_more_files_are_begun<O>()
    ensures { BegunAtMost O }
{}

/// When a scan begins each file of its source is due once.
pub fn files_stand_once<O>()
    ensures { StandOnce O }
{}

/// When a scan begins, the files that were handed in opened stand before the others among those that are due.
pub fn opened_files_stand_first<O>()
    ensures { OpenedStandFirst O }
{}

/// They stand first after each poll, and a poll answers of another file only where none of them is due any more: in an
/// ordered scan and in an unordered one.
pub fn opened_files_come_first<O>()
    ensures { OpenedComeFirst O }
{}

/// In an ordered scan from its beginning the places of the files that are answered, and behind them of those that are still
/// due, rise: first those of files that were handed in opened, then those of the others. Where the opened files stand
/// before the others in the source, as in each that `new_with_first` or `new_deferred` makes, all of them rise: each answer
/// is of a later file than those before it.
pub fn files_come_in_rising_places<O>()
    ensures places { ComeInRisingPlaces O }
    ensures made { OpenedLeadAsMade O }
{}

/// A poll that answers the end leaves no file due. So from the beginning of a scan to its end each file of the source was
/// delivered (with a partition or a fault, or passed over by its number) or skipped, and once.
pub fn no_file_is_due_at_the_end<O>()
    ensures none { NoneDueAtEnd O }
    ensures all { EndsWithAll O }
{}

/// The number of a partition is exactly how many files were delivered before it: before the polls began, by their answers
/// (partitions, and faults of files), and passed over, which only files are whose numbers are not to be given. In a scan
/// from its beginning that leaves out no number it is the number of answers about files before it.
pub fn partitions_are_numbered_by_delivery<O>()
    ensures number { NumberedByDelivery O }
    ensures start { NumberedFromStart O }
{}

/// Worked rows: a file that was handed in opened comes before one that was not, and where it stands behind it, places do
/// not rise over both; numbers that are given; a list of places with one left out.
pub fn worked_rows<O>()
    ensures { WorkedRows O }
{}
