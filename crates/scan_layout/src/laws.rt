//! Laws of layouts. Each is the contract of a function that does nothing.
ghost use Rattle.scan_layout.specs.Examples.{WorkedRows};
ghost use Rattle.scan_layout.specs.Laws.{StandsOnTouched, RowsFitTheDType, CleanWhereDecoded, MasksSplitByFields};

/// A row's value stands on the segments that the row touches, and on no others.
pub fn a_row_stands_on_what_it_touches()
    ensures { StandsOnTouched }
{}

/// Each row of a well-formed layout has a value that fits the layout's dtype, whatever the store.
pub fn rows_fit_the_dtype()
    ensures { RowsFitTheDType }
{}

/// A row is damaged only where a segment that it touches is missing, does not decode or holds a bad offset of a list
/// that is not null.
pub fn a_row_is_clean_where_its_segments_decode()
    ensures { CleanWhereDecoded }
{}

/// The fields that masks match are those by which a struct is split: one rule, over masks and over names.
pub fn masks_split_by_the_fields_that_they_match()
    ensures { MasksSplitByFields }
{}

/// Worked rows: a nullable struct, lists, falling offsets, nulls over no elements, no offsets, splits, bits.
pub fn worked_rows()
    ensures { WorkedRows }
{}
