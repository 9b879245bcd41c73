//! What printers and sums read of a column: its cells, and one list or one struct of those.
ghost use Rattle.std.specs.Prelude.{◌≡◌, ◌<◌, IfSome, None, Some, length, map, slice_get};
ghost use Rattle.scan_values.specs.Val.{null_val};
ghost use Rattle.scan_columns.specs.Access.{IsListAt, IsStructAt, AreFieldsIn};
ghost use Rattle.scan_columns.specs.Cells.{vals_in};
ghost use Rattle.scan_columns.specs.Nested.{AreLong, Rises, cuts, list_of, rows_of, sizes, struct_of, total};
ghost use Rattle.scan_columns.specs.Typed.{typed};

use crate::cells::{Cells, Lists, Structs};
use crate::column::Column;
use crate::slots::all_true;
use std::ops::Range;

impl Column {
    /// The values by kind, as they are kept.
    pub fn cells(&self) -> &Cells
        ensures { vals_in result.now ≡ self.now.items }
    {
        &self.cells
    }
}

impl Lists {
    /// Where each list ends among the elements of all, whether it is there, and those elements; a list begins where the
    /// one before it ends, the first at 0.
    #[tactic(auto, using(crate::proofs::NestedLemmas::sizes_length))]
    pub fn parts<'a>(&'a self) -> (&'a [usize], &'a [bool], &'a Cells)
        ensures rises { Rises 0 result.0.now }
        ensures whole { total (sizes 0 result.0.now) ≡ length (vals_in result.2.now) }
        ensures long { length result.1.now ≡ length result.0.now }
        ensures is { self.entry.now.items ≡
            typed list_of (cuts (sizes 0 result.0.now) (vals_in result.2.now)) result.1.now }
    {
        (self.ends.as_slice(), self.valid.as_slice(), &*self.elements)
    }

    /// The elements of all lists, and the places among them of those of the list at a place; `None` where it is null.
    #[inline(always)]
    pub fn list_at<'a>(&'a self, i: usize) -> Option<(&'a Cells, Range<usize>)>
        requires { i < length self.now.items }
        ensures some { IfSome result (λ p. IsListAt self.entry.now i p.0.now p.1.start p.1.end) }
        ensures none { result ≡ None → Some null_val ≡ slice_get self.entry.now.items i }
    {
        let _count = self.len();
        let valid = self.valid.as_slice();
        if valid[i] {
            Some((&*self.elements, self.ends.start(i)..self.ends.start(i + 1)))
        } else {
            None
        }
    }
}

impl Structs {
    /// For each struct whether it is there, and the cells of the fields, in field order, each as long.
    pub fn parts<'a>(&'a self) -> (&'a [bool], &'a [Cells])
        ensures long { AreLong (length result.0.now) (map vals_in result.1.now) }
        ensures is { self.entry.now.items ≡
            typed struct_of (rows_of (length result.0.now) (map vals_in result.1.now)) result.0.now }
    {
        (self.valid.as_slice(), self.fields.as_slice())
    }

    /// The cells of the fields, of which the struct at a place has one each, in field order; `None` where it is null.
    #[inline(always)]
    pub fn struct_at<'a>(&'a self, i: usize) -> Option<&'a [Cells]>
        requires { i < length self.now.items }
        ensures some { IfSome result (λ fs. IsStructAt self.entry.now i fs.now) }
        ensures none { result ≡ None → Some null_val ≡ slice_get self.entry.now.items i }
    {
        let valid = self.valid.as_slice();
        if valid[i] {
            Some(self.fields.as_slice())
        } else {
            None
        }
    }

    /// The cells of the fields, in field order, where no struct is null.
    pub fn fields<'a>(&'a self) -> Option<&'a [Cells]>
        ensures { IfSome result (λ fs. AreFieldsIn self.entry.now fs.now) }
    {
        if all_true(self.valid.as_slice()) {
            Some(self.fields.as_slice())
        } else {
            None
        }
    }
}
