// The cells of a column, by kind.
ghost use Rattle.std.specs.Prelude.{◌≡◌, ◌<◌, ◌≤◌, ◌++◌, IfOk, IfSome, Some, map, length, slice_get, slice_range};
ghost use Rattle.std.specs.List.{items_where_true};
ghost use Rattle.scan_values.specs.Values.{val_of};
ghost use Rattle.scan_values.specs.Val.{marked, int_val};
ghost use Rattle.scan_values.specs.Marked.{is_true};
ghost use Rattle.scan_values.specs.Masks.{null_where_false};
ghost use Rattle.scan_expr.specs.Eval.{is_nothing};
ghost use Rattle.scan_columns.specs.Compared.{compare_val};
ghost use Rattle.scan_expr.specs.Lending.{lent_val};
ghost use Rattle.scan_columns.specs.Cells.{vals_in};
ghost use Rattle.scan_columns.specs.Texts.{texts_in};

use crate::bools::{Bools, bools_of};
use crate::compared::is_null;
use crate::constant::Constant;
use crate::ends::Ends;
use crate::ints::{Ints, ints_of};
use crate::texts::Texts;
use crate::values::{appended, compared_values, copied, kept_values, masked_values};
use scan_expr::{Binary, Lent};
use scan_values::{DType, Mask, NoMemory, Value, Values};
use std::alloc::Global;
use std::marker::Model;
use std::ops::Range;

/// Cells, kept by kind.
#[cycle(cells)]
#[derive(Drop)]
pub enum Cells {
    Ints(Ints),
    Bools(Bools),
    Texts(Texts),
    Values(Values),
    Constant(Constant),
    Lists(Lists),
    Structs(Structs),
}

/// Lists: the cells of all their elements, and where each list ends.
#[cycle(cells)]
#[derive(Drop)]
pub struct Lists {
    pub(crate) ends: Ends,
    pub(crate) valid: Vec<bool>,
    pub(crate) elements: Box<Cells>,
}

impl Model for Lists {
    ghost use Rattle.std.specs.Prelude.{◌≡◌, length};
    ghost use Rattle.scan_columns.specs.Nested.{Deep, deep_code, cuts, total, list_of};
    ghost use Rattle.scan_columns.specs.Typed.{typed};

    ghost Value = { Deep };

    ghost coded = { deep_code };

    ghost use Rattle.scan_columns.specs.Cells.{vals_in, depth_in};

    ghost view = { λ a. record {
      depth = depth_in a.elements.value;
      items = typed list_of (cuts a.ends (vals_in a.elements.value)) a.valid.items;
    } };

    ghost invariant = { λ a. (length a.valid.items ≡ length a.ends)
        × (total a.ends ≡ length (vals_in a.elements.value)) };

    ghost size = { λ d. d.depth };

    ghost use Rattle.scan_columns.specs.CellsFall.{list_falls};

    ghost size_decreases = { λ a h. list_falls a.elements.value };
}

/// Structs: the cells of each field.
#[cycle(cells)]
#[derive(Drop)]
pub struct Structs {
    pub(crate) valid: Vec<bool>,
    pub(crate) fields: Vec<Cells>,
}

impl Model for Structs {
    ghost use Rattle.std.specs.Prelude.{map, length};
    ghost use Rattle.scan_columns.specs.Nested.{Deep, deep_code, rows_of, struct_of, AreLong};
    ghost use Rattle.scan_columns.specs.Typed.{typed};

    ghost Value = { Deep };

    ghost coded = { deep_code };

    ghost use Rattle.scan_columns.specs.Cells.{vals_in, deepest};

    ghost view = { λ a. record {
      depth = deepest a.fields.items;
      items = typed struct_of (rows_of (length a.valid.items) (map vals_in a.fields.items)) a.valid.items;
    } };

    ghost invariant = { λ a. AreLong (length a.valid.items) (map vals_in a.fields.items) };

    ghost size = { λ d. d.depth };

    ghost use Rattle.scan_columns.specs.CellsFall.{struct_falls};

    ghost size_decreases = { λ a h. struct_falls a.fields.items };
}

impl Cells {
    /// Values of a dtype: integers as numbers, truth values as bits, anything else as values.
    pub fn of_values(alloc: Global, dtype: &DType, values: Vec<Value>) -> Result<Cells, NoMemory>
        ensures { IfOk result (λ c. vals_in c ≡ map val_of values.items) }
    {
        if dtype.as_ptype_opt().is_some() {
            if let Some(ints) = ints_of(alloc, values.as_slice())? {
                return Ok(Cells::Ints(ints));
            }
        }
        if dtype.is_bool() {
            if let Some(bools) = bools_of(alloc, values.as_slice())? {
                return Ok(Cells::Bools(bools));
            }
        }
        Ok(Cells::Values(Values::new(values)))
    }

    /// How many.
    pub fn len(&self) -> usize
        ensures { result ≡ length (vals_in self.now) }
    {
        match self {
            Cells::Ints(ints) => ints.len(),
            Cells::Bools(bools) => bools.len(),
            Cells::Texts(texts) => texts.len(),
            Cells::Values(values) => values.len(),
            Cells::Constant(constant) => constant.len(),
            Cells::Lists(lists) => lists.len(),
            Cells::Structs(structs) => structs.len(),
        }
    }

    /// The numbers, where they are kept as integers, all are there, and none is past those of an i64.
    pub fn numbers<'a>(&'a self) -> Option<&'a [i64]>
        ensures { IfSome result (λ xs. map int_val xs.now ≡ vals_in self.entry.now) }
    {
        match self {
            Cells::Ints(ints) => ints.numbers(),
            _ => None,
        }
    }

    /// The value at a place, lent or made.
    pub fn lent<'a>(&'a self, alloc: Global, i: usize) -> Result<Lent<'a>, NoMemory>
        requires { i < length (vals_in self.now) }
        ensures { IfOk result (λ v. Some (lent_val v) ≡ slice_get (vals_in self.entry.now) i) }
    {
        match self {
            Cells::Ints(ints) => Ok(Lent::Made(ints.value(i))),
            Cells::Bools(bools) => Ok(Lent::Made(bools.value(i))),
            Cells::Texts(texts) => Ok(Lent::Made(texts.value(alloc, i)?)),
            Cells::Values(values) => Ok(Lent::Held(&values.as_slice()[i])),
            Cells::Constant(constant) => Ok(Lent::Held(constant.value(i))),
            Cells::Lists(_) | Cells::Structs(_) => Ok(Lent::Made(self.made(alloc, i)?)),
        }
    }

    /// The value at a place, made anew.
    fn made(&self, alloc: Global, i: usize) -> Result<Value, NoMemory>
        requires { i < length (vals_in self.now) }
        ensures { IfOk result (λ v. Some (val_of v) ≡ slice_get (vals_in self.now) i) }
    {
        let _count = self.len();
        let mut values = self.slice(alloc, i..i + 1)?.into_values(alloc)?;
        match values.pop() {
            Some(value) => Ok(value),
            None => Ok(Value::Null),
        }
    }

    /// The values, moved where they are kept as such.
    #[cycle(into_values)]
    pub fn into_values(self, alloc: Global) -> Result<Vec<Value>, NoMemory>
        ensures { IfOk result (λ v. map val_of v.items ≡ vals_in self) }
    {
        match self {
            Cells::Ints(ints) => ints.to_values(alloc),
            Cells::Bools(bools) => bools.to_values(alloc),
            Cells::Texts(texts) => texts.to_values(alloc),
            Cells::Values(values) => Ok(values.into_vec()),
            Cells::Constant(constant) => constant.to_values(alloc),
            Cells::Lists(lists) => lists.into_values(alloc),
            Cells::Structs(structs) => structs.into_values(alloc),
        }
    }

    /// Those at which the mask is true.
    #[cycle(filter)]
    pub fn filter(&self, alloc: Global, m: &Mask) -> Result<Cells, NoMemory>
        requires { length m.now ≡ length (vals_in self.now) }
        ensures { IfOk result (λ c. vals_in c ≡ items_where_true m.now (vals_in self.now)) }
    {
        match self {
            Cells::Ints(ints) => Ok(Cells::Ints(ints.filter(alloc, m)?)),
            Cells::Bools(bools) => Ok(Cells::Bools(bools.filter(alloc, m)?)),
            Cells::Texts(texts) => Ok(Cells::Texts(texts.filter(alloc, m)?)),
            Cells::Values(values) => {
                let made = kept_values(alloc, values.as_slice(), m)?;
                Ok(Cells::Values(Values::new(made)))
            }
            Cells::Constant(constant) => Ok(Cells::Constant(constant.filter(alloc, m)?)),
            Cells::Lists(lists) => Ok(Cells::Lists(lists.filter(alloc, m)?)),
            Cells::Structs(structs) => Ok(Cells::Structs(structs.filter(alloc, m)?)),
        }
    }

    /// These, null where the mask is false.
    pub fn mask(&self, alloc: Global, m: &Mask) -> Result<Cells, NoMemory>
        requires { length m.now ≡ length (vals_in self.now) }
        ensures { IfOk result (λ c. vals_in c ≡ null_where_false m.now (vals_in self.now)) }
    {
        match self {
            Cells::Ints(ints) => Ok(Cells::Ints(ints.mask(alloc, m)?)),
            Cells::Bools(bools) => Ok(Cells::Bools(bools.mask(alloc, m)?)),
            Cells::Texts(texts) => Ok(Cells::Texts(texts.mask(alloc, m)?)),
            Cells::Values(values) => {
                let made = masked_values(alloc, values.as_slice(), m)?;
                Ok(Cells::Values(Values::new(made)))
            }
            Cells::Constant(constant) => {
                let values = constant.to_values(alloc)?;
                let made = masked_values(alloc, values.as_slice(), m)?;
                Ok(Cells::Values(Values::new(made)))
            }
            Cells::Lists(lists) => Ok(Cells::Lists(lists.mask(alloc, m)?)),
            Cells::Structs(structs) => Ok(Cells::Structs(structs.mask(alloc, m)?)),
        }
    }

    /// Those of a range of places.
    #[cycle(slice)]
    pub fn slice(&self, alloc: Global, r: Range<usize>) -> Result<Cells, NoMemory>
        requires ordered { r.start ≤ r.end }
        requires within { r.end ≤ length (vals_in self.now) }
        ensures { IfOk result (λ c. vals_in c ≡ slice_range (vals_in self.now) r.start r.end) }
    {
        match self {
            Cells::Ints(ints) => Ok(Cells::Ints(ints.slice(alloc, r)?)),
            Cells::Bools(bools) => Ok(Cells::Bools(bools.slice(alloc, r)?)),
            Cells::Texts(texts) => Ok(Cells::Texts(texts.slice(alloc, r)?)),
            Cells::Values(values) => {
                let made = copied(alloc, values.as_slice(), r)?;
                Ok(Cells::Values(Values::new(made)))
            }
            Cells::Constant(constant) => Ok(Cells::Constant(constant.slice(alloc, r)?)),
            Cells::Lists(lists) => Ok(Cells::Lists(lists.slice(alloc, r)?)),
            Cells::Structs(structs) => Ok(Cells::Structs(structs.slice(alloc, r)?)),
        }
    }

    /// These, and then the others: of one kind as that kind, else as values.
    #[cycle(append)]
    pub fn append(self, alloc: Global, other: Cells) -> Result<Cells, NoMemory>
        ensures { IfOk result (λ c. vals_in c ≡ vals_in self ++ vals_in other) }
    {
        match (self, other) {
            (Cells::Ints(ints), Cells::Ints(others)) => Ok(Cells::Ints(ints.append(&others)?)),
            (Cells::Bools(bools), Cells::Bools(others)) => Ok(Cells::Bools(bools.append(&others)?)),
            (Cells::Texts(texts), Cells::Texts(others)) => Ok(Cells::Texts(texts.append(&others)?)),
            (Cells::Lists(lists), Cells::Lists(others)) => {
                Ok(Cells::Lists(lists.append(alloc, others)?))
            }
            (Cells::Structs(structs), Cells::Structs(others)) => structs.append(alloc, others),
            (first, second) => joined_values(alloc, first, second),
        }
    }

    /// A copy that equals this one.
    #[cycle(clone)]
    pub fn try_clone(&self, alloc: Global) -> Result<Cells, NoMemory>
        ensures { IfOk result (λ c. vals_in c ≡ vals_in self.now) }
    {
        match self {
            Cells::Ints(ints) => Ok(Cells::Ints(ints.try_clone(alloc)?)),
            Cells::Bools(bools) => Ok(Cells::Bools(bools.try_clone(alloc)?)),
            Cells::Texts(texts) => Ok(Cells::Texts(texts.try_clone(alloc)?)),
            Cells::Values(values) => Ok(Cells::Values(values.try_clone(alloc)?)),
            Cells::Constant(constant) => Ok(Cells::Constant(constant.try_clone(alloc)?)),
            Cells::Lists(lists) => Ok(Cells::Lists(lists.try_clone(alloc)?)),
            Cells::Structs(structs) => Ok(Cells::Structs(structs.try_clone(alloc)?)),
        }
    }

    /// Of each whether it compares so with a number.
    pub fn compare(&self, alloc: Global, op: Binary, literal: i128) -> Result<Cells, NoMemory>
        ensures { IfOk result (λ c. vals_in c ≡ map (compare_val op literal) (vals_in self.now)) }
    {
        match self {
            Cells::Ints(ints) => Ok(Cells::Bools(ints.compare(alloc, op, literal)?)),
            Cells::Bools(bools) => {
                let values = bools.to_values(alloc)?;
                let made = compared_values(alloc, op, values.as_slice(), literal)?;
                Ok(Cells::Values(Values::new(made)))
            }
            Cells::Texts(texts) => {
                let values = texts.to_values(alloc)?;
                let made = compared_values(alloc, op, values.as_slice(), literal)?;
                Ok(Cells::Values(Values::new(made)))
            }
            Cells::Values(values) => {
                let made = compared_values(alloc, op, values.as_slice(), literal)?;
                Ok(Cells::Values(Values::new(made)))
            }
            Cells::Constant(constant) => Ok(Cells::Constant(constant.compare(op, literal))),
            Cells::Lists(_) | Cells::Structs(_) => {
                let values = self.try_clone(alloc)?.into_values(alloc)?;
                let made = compared_values(alloc, op, values.as_slice(), literal)?;
                Ok(Cells::Values(Values::new(made)))
            }
        }
    }

    /// Where the value is true.
    pub fn truths(&self, alloc: Global) -> Result<Mask, NoMemory>
        ensures { IfOk result (λ m. m ≡ map (λ v. is_true (marked v)) (vals_in self.now)) }
    {
        match self {
            Cells::Bools(bools) => bools.truths(alloc),
            _ => {
                let mut bits = Vec::with_capacity(alloc, self.len())?;
                for i in 0..self.len() {
                    bits.push(self.lent(alloc, i)?.as_value().is_true())?;
                }
                Ok(Mask::from_bools(bits))
            }
        }
    }

    /// Where there is no value.
    pub fn nulls(&self, alloc: Global) -> Result<Mask, NoMemory>
        ensures { IfOk result (λ m. m ≡ map (λ v. is_nothing (marked v)) (vals_in self.now)) }
    {
        match self {
            Cells::Ints(ints) => ints.nulls(alloc),
            Cells::Bools(bools) => bools.nulls(alloc),
            Cells::Texts(texts) => texts.nulls(alloc),
            Cells::Constant(constant) => constant.nulls(alloc),
            Cells::Lists(lists) => lists.nulls(alloc),
            Cells::Structs(structs) => structs.nulls(alloc),
            Cells::Values(values) => {
                let items = values.as_slice();
                let mut bits = Vec::with_capacity(alloc, items.len())?;
                for value in items {
                    bits.push(is_null(value))?;
                }
                Ok(Mask::from_bools(bits))
            }
        }
    }
}

/// The values of cells, and then those of others.
pub(crate) fn joined_values(alloc: Global, first: Cells, second: Cells) -> Result<Cells, NoMemory>
    ensures { IfOk result (λ c. vals_in c ≡ vals_in first ++ vals_in second) }
{
    let values = first.into_values(alloc)?;
    let others = second.into_values(alloc)?;
    let made = appended(values, others)?;
    Ok(Cells::Values(Values::new(made)))
}
