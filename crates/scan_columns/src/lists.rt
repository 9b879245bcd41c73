// Lists, kept as one run of their elements.
ghost use Rattle.std.specs.Prelude.{◌≡◌, ◌≤◌, ◌++◌, cond, IfOk, map, length, slice_range};
ghost use Rattle.std.specs.List.{items_where_true};
ghost use Rattle.scan_values.specs.Values.{val_of};
ghost use Rattle.scan_values.specs.Val.{marked, null_val};
ghost use Rattle.scan_values.specs.Masks.{null_where_false};
ghost use Rattle.scan_expr.specs.Eval.{is_nothing};
ghost use Rattle.scan_spelling.specs.LeafColumns.{is_here};
ghost use Rattle.scan_columns.specs.Cells.{vals_in};
ghost use Rattle.scan_columns.specs.Nested.{sizes, Rises, total, cuts, list_of};
ghost use Rattle.scan_columns.specs.Operands.{length_val};
ghost use Rattle.scan_columns.specs.Typed.{typed};

use crate::cells::{Cells, Lists};
use crate::ends::Ends;
use crate::ints::Ints;
use crate::rest::Rest;
use crate::slots::{both, contrary, kept, part};
use scan_values::{Mask, NoMemory, Value, Values};
use std::alloc::Global;
use std::ops::Range;

impl Lists {
    /// The elements, cut into lists, of which those are null where `valid` is false.
    pub fn new(ends: Ends, valid: Vec<bool>, elements: Box<Cells>) -> Lists
        requires even { length valid.items ≡ length ends }
        requires whole { total ends ≡ length (vals_in elements.value) }
        ensures { result.items ≡ typed list_of (cuts ends (vals_in elements.value)) valid.items }
    {
        Lists {
            ends,
            valid,
            elements,
        }
    }

    /// How many.
    #[tactic(auto, using(crate::proofs::NestedLemmas::lists_length))]
    pub fn len(&self) -> usize
        ensures { result ≡ length self.now.items }
    {
        self.ends.len()
    }

    /// The values, of which each element is moved.
    #[tactic(auto, using(crate::proofs::NestedLemmas::lists_length, crate::proofs::NestedLemmas::sizes_length))]
    #[cycle(into_values)]
    pub fn into_values(self, alloc: Global) -> Result<Vec<Value>, NoMemory>
        ensures { IfOk result (λ v. map val_of v.items ≡ self.items) }
    {
        let Lists {
            ends,
            valid,
            elements,
        } = self;
        let values = Box::into_inner(elements).into_values(alloc)?;
        lists_from(alloc, ends.as_slice(), valid.as_slice(), values)
    }

    /// For each whether it is there.
    #[tactic(auto, using(crate::proofs::NestedLemmas::lists_here))]
    pub fn validity(&self) -> &[bool]
        ensures { result.now ≡ map is_here self.now.items }
    {
        self.valid.as_slice()
    }

    /// Where there is no list.
    #[tactic(auto, using(crate::proofs::NestedLemmas::list_nulls))]
    pub fn nulls(&self, alloc: Global) -> Result<Mask, NoMemory>
        ensures { IfOk result (λ m. m ≡ map (λ v. is_nothing (marked v)) self.now.items) }
    {
        let bits = contrary(alloc, self.valid.as_slice())?;
        Ok(Mask::from_bools(bits))
    }

    /// How many elements each list has.
    pub fn lengths(&self, alloc: Global) -> Result<Ints, NoMemory>
        ensures { IfOk result (λ v. v ≡ map length_val self.now.items) }
    {
        let counts = self.ends.counts(alloc)?;
        let valid = Vec::from_slice(alloc, self.valid.as_slice())?;
        Ok(Ints::new(counts, valid))
    }

    /// Those at which the mask is true.
    #[cycle(filter)]
    pub fn filter(&self, alloc: Global, m: &Mask) -> Result<Lists, NoMemory>
        requires { length m.now ≡ length self.now.items }
        ensures { IfOk result (λ v. v.items ≡ items_where_true m.now self.now.items) }
    {
        let within = self.ends.spread(alloc, m)?;
        let ends = self.ends.filter(alloc, m)?;
        let valid = kept(alloc, self.valid.as_slice(), m)?;
        let elements = self.elements.filter(alloc, &within)?;
        Ok(Lists::new(ends, valid, Box::new(alloc, elements)?))
    }

    /// These, null where the mask is false.
    #[tactic(auto, using(crate::proofs::NestedLemmas::lists_mask, crate::proofs::NestedLemmas::lists_length))]
    pub fn mask(&self, alloc: Global, m: &Mask) -> Result<Lists, NoMemory>
        requires { length m.now ≡ length self.now.items }
        ensures { IfOk result (λ v. v.items ≡ null_where_false m.now self.now.items) }
    {
        let ends = self.ends.try_clone(alloc)?;
        let valid = both(alloc, self.valid.as_slice(), m.as_slice())?;
        let elements = self.elements.try_clone(alloc)?;
        Ok(Lists::new(ends, valid, Box::new(alloc, elements)?))
    }

    /// Those of a range of places.
    #[cycle(slice)]
    pub fn slice(&self, alloc: Global, r: Range<usize>) -> Result<Lists, NoMemory>
        requires ordered { r.start ≤ r.end }
        requires within { r.end ≤ length self.now.items }
        ensures { IfOk result (λ v. v.items ≡ slice_range self.now.items r.start r.end) }
    {
        let from = self.ends.start(r.start);
        let to = self.ends.start(r.end);
        let ends = self.ends.slice(alloc, r.start, r.end)?;
        let valid = part(alloc, self.valid.as_slice(), r.start, r.end)?;
        let elements = self.elements.slice(alloc, from..to)?;
        Ok(Lists::new(ends, valid, Box::new(alloc, elements)?))
    }

    /// These, and then the others.
    #[cycle(append)]
    pub fn append(self, alloc: Global, other: Lists) -> Result<Lists, NoMemory>
        ensures { IfOk result (λ v. v.items ≡ self.items ++ other.items) }
    {
        let Lists {
            ends,
            mut valid,
            elements,
        } = self;
        valid.extend_from_slice(other.valid.as_slice())?;
        let ends = ends.append(&other.ends)?;
        let elements = Box::into_inner(elements).append(alloc, Box::into_inner(other.elements))?;
        Ok(Lists::new(ends, valid, Box::new(alloc, elements)?))
    }

    /// A copy that equals this one.
    #[cycle(clone)]
    pub fn try_clone(&self, alloc: Global) -> Result<Lists, NoMemory>
        ensures { IfOk result (λ v. v.items ≡ self.now.items) }
    {
        let ends = self.ends.try_clone(alloc)?;
        let valid = Vec::from_slice(alloc, self.valid.as_slice())?;
        let elements = self.elements.try_clone(alloc)?;
        Ok(Lists::new(ends, valid, Box::new(alloc, elements)?))
    }
}

fn list_cell(values: Vec<Value>, valid: bool) -> Value
    ensures { val_of result ≡ cond valid (list_of (map val_of values.items)) null_val }
{
    if valid {
        Value::List(Values::new(values))
    } else {
        Value::Null
    }
}

/// The values, cut into lists by where each ends.
fn lists_from(
    alloc: Global,
    ends: &[usize],
    valid: &[bool],
    values: Vec<Value>,
) -> Result<Vec<Value>, NoMemory>
    requires rises { Rises 0 ends.now }
    requires even { length valid.now ≡ length ends.now }
    ensures { IfOk result (λ v. map val_of v.items
        ≡ typed list_of (cuts (sizes 0 ends.now) (map val_of values.items)) valid.now) }
{
    let mut made = Vec::with_capacity(alloc, ends.len())?;
    let mut rest = Rest::new(values);
    let mut start = 0;
    for (i, end) in ends.iter().enumerate() {
        let part = rest.next_values(alloc, *end - start)?;
        made.push(list_cell(part, valid[i]))?;
        start = *end;
    }
    Ok(made)
}
