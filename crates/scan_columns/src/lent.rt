//! What is taken of a column without a copy.
ghost use Rattle.std.specs.Prelude.{◌≡◌, IfSome, map};
ghost use Rattle.scan_spelling.specs.LeafColumns.{is_here};
ghost use Rattle.scan_values.specs.Val.{bool_val};
ghost use Rattle.scan_columns.specs.Cells.{vals_in};
ghost use Rattle.scan_columns.specs.Texts.{texts_in};

use crate::cells::Cells;
use crate::column::Column;
use crate::texts::Texts;

impl Column {
    /// For each value, whether it is there: of integers, truth values, lists, structs and texts in one buffer, which
    /// are kept with a bit each.
    pub fn validity<'a>(&'a self) -> Option<&'a [bool]>
        ensures { IfSome result (λ bs. bs.now ≡ map is_here self.entry.now.items) }
    {
        self.cells.validity()
    }

    /// The truth values, where they are kept as such and all are there.
    pub fn truths<'a>(&'a self) -> Option<&'a [bool]>
        ensures { IfSome result (λ bs. map bool_val bs.now ≡ self.entry.now.items) }
    {
        match &self.cells {
            Cells::Bools(bools) => bools.all_there(),
            _ => None,
        }
    }

    /// The texts, where they are kept in one buffer: so are those of a leaf.
    pub fn texts<'a>(&'a self) -> Option<&'a Texts>
        ensures { IfSome result (λ t. texts_in t.now ≡ self.entry.now.items) }
    {
        match &self.cells {
            Cells::Texts(texts) => Some(texts),
            _ => None,
        }
    }
}

impl Cells {
    /// For each whether it is there, where they are kept with a bit each.
    fn validity<'a>(&'a self) -> Option<&'a [bool]>
        ensures { IfSome result (λ bs. bs.now ≡ map is_here (vals_in self.entry.now)) }
    {
        match self {
            Cells::Ints(ints) => Some(ints.validity()),
            Cells::Bools(bools) => Some(bools.validity()),
            Cells::Texts(texts) => Some(texts.validity()),
            Cells::Lists(lists) => Some(lists.validity()),
            Cells::Structs(structs) => Some(structs.validity()),
            Cells::Values(_) | Cells::Constant(_) => None,
        }
    }
}
