// Laws of partitioning.
ghost use Rattle.scan_partition.specs.Laws.{ExpansionKeepsValues, SteppingInKeepsValues, PartsJoinToTheWhole, OnePartIsTheWhole, SteppingInKeepsKnownValues, OwnDTypesAreTighter, SteppingInKeepsTheTyping, RowPartsJoinToTheWhole, RewritingValidityKeepsValues, RewritingOffsetsKeepsValues, ChosenFieldsAreTheWhole};
ghost use Rattle.scan_partition.specs.Partable.{BoundIsPartable, StructPartsPartable, KeptPartsPartable, RowPartsArePartable, ExpandedIsPartable, ValidityIsPartable, LengthsArePartable, SteppedIsPartable};
ghost use Rattle.scan_partition.specs.Needing.{ExpansionNeedsNoMore, PartsNeedNoMore, KeptPartsNeedNoMore, RowPartsNeedNoMore};
ghost use Rattle.scan_partition.specs.Joining.{PartsJoinRowByRow};
ghost use Rattle.scan_partition.specs.ListUses.{NecessaryIsNeeded, TypedUsesAreOfTheList};

/// An expression by the fields of a struct gives the same on each value of the struct.
pub fn expansion_keeps_values()
    ensures { ExpansionKeepsValues }
{}

/// An expression over its one item gives the same, on what the item is there.
pub fn stepping_in_keeps_values()
    ensures { SteppingInKeepsValues }
{}

/// The same over a field's own dtype, which may be less nullable, where the nodes' values are known.
pub fn stepping_in_keeps_known_values()
    ensures { SteppingInKeepsKnownValues }
{}

/// What stepping in asks of a dtype holds of an item's own, and of the item's over the struct.
pub fn own_dtypes_are_tighter()
    ensures { OwnDTypesAreTighter }
{}

/// A typed expression over its one item is typed.
pub fn stepping_in_keeps_the_typing()
    ensures { SteppingInKeepsTheTyping }
{}

/// The parts, each on what is read of its item, joined by the root give the value of the whole, and its dtype; and row by
/// row the arrays of parts join to the root over the parts' values.
pub fn parts_join_to_the_whole()
    ensures several { PartsJoinToTheWhole }
    ensures one { OnePartIsTheWhole }
    ensures rows { PartsJoinRowByRow }
{}

/// So do the parts over the row's number and over the scope.
pub fn row_parts_join_to_the_whole()
    ensures { RowPartsJoinToTheWhole }
{}

/// An expression that only chooses fields gives them.
pub fn chosen_fields_are_the_whole()
    ensures { ChosenFieldsAreTheWhole }
{}

/// What reads of a list only whether it is null, or its length too, gives the same over its validity or its lengths.
pub fn rewriting_over_lists_keeps_values()
    ensures validity { RewritingValidityKeepsValues }
    ensures offsets { RewritingOffsetsKeepsValues }
{}

/// What an expression needs of a list are the leaves of the children that are necessary, and where it types, each of
/// its uses is of the list itself.
pub fn necessary_children_are_needed()
    ensures needed { NecessaryIsNeeded }
    ensures plain { TypedUsesAreOfTheList }
{}

/// An expression by the fields of a struct needs no leaf that the expression does not need.
pub fn expansion_needs_no_more()
    ensures { ExpansionNeedsNoMore }
{}

/// What a part of an expression over a struct needs of its item, the expression needs under that item; what a part
/// needs that is kept over the struct, or that reads the child beside a row's number, the expression needs. An
/// expression that only chooses fields needs these whole, and nothing else.
pub fn parts_need_no_more()
    ensures of_struct { PartsNeedNoMore }
    ensures kept { KeptPartsNeedNoMore }
    ensures of_rows { RowPartsNeedNoMore }
{}

/// What binds may be parted, over a struct and by row numbers, and so may each part again over what it reads; also the
/// expression by the struct's fields, and the one over a list's validity or its lengths.
pub fn parts_may_be_parted()
    ensures bound { BoundIsPartable }
    ensures of_struct { StructPartsPartable }
    ensures kept { KeptPartsPartable }
    ensures of_rows { RowPartsArePartable }
    ensures expanded { ExpandedIsPartable }
    ensures validity { ValidityIsPartable }
    ensures lengths { LengthsArePartable }
    ensures stepped { SteppedIsPartable }
{}
