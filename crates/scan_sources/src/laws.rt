//! Laws of the parts of scans. Each is the contract of a function that calls the laws it rests on.
ghost use Rattle.scan_sources.specs.Parts.{PartsCoverTheScan, PartsGiveTheFirstRows, PartsGiveTheScan};
ghost use Rattle.scan_sources.specs.Scans.{PartsGiveTheirRows};

use scan_core::{splits_give_what_is_asked, streams_give_the_first_rows};

/// A part of a scan of one reader gives the values of the request's projection at those selected rows of the request's
/// range that lie in the part's at which each conjunct of the filter is true, in the order of the rows. Without a filter
/// it gives the first of them, as many as its limit.
pub fn splits_give_their_rows<M>()
    ensures { PartsGiveTheirRows M }
{
    splits_give_what_is_asked::<(), M>();
    streams_give_the_first_rows::<M>();
}

/// The parts that a scan of one reader gives, one after the other, follow each other from the first row that was in no part
/// yet: no row is left out or stands in two. Once the scan is over and something is left of its limit, they end with its
/// rows.
pub fn parts_cover_the_scan<M>()
    ensures { PartsCoverTheScan M }
{}

/// Without a limit the parts together give what the scan is asked for: the values of the request's projection at the selected
/// rows of the request's range, from the first row of the parts to the last, at which the filter is true, in the order of
/// the rows.
pub fn parts_give_the_scan<M>()
    ensures { PartsGiveTheScan M }
{
    splits_give_their_rows::<M>();
}

/// With a limit that the parts don't share, they together give the first of the rows that the request asks for, as many as
/// its limit, in the order of the rows. Without a filter they give exactly these, and there is no further part once they
/// gave as many. With one, in order, each part gives up to the whole limit, and the first of what the parts give one after
/// the other are the first of the request, once no part is left or they gave enough.
pub fn parts_give_the_first_rows<M>()
    ensures { PartsGiveTheFirstRows M }
{
    splits_give_their_rows::<M>();
}
