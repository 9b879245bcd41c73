//! Laws of a drive. Each is the contract of a function that does nothing.
ghost use Rattle.scan_drive.specs.Laws.{CutsGiveTheFirstRows, CutsKeepGroups};

/// Groups of rows that are cut at a limit have the first rows.
pub fn cuts_give_the_first_rows()
    ensures { CutsGiveTheFirstRows }
{}

/// A limit behind a group leaves it whole.
pub fn cuts_keep_groups()
    ensures { CutsKeepGroups }
{}
