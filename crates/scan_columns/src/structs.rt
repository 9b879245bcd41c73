// Structs, kept as the cells of each field.
ghost use Rattle.std.specs.Prelude.{◌≡◌, ◌<◌, ◌≤◌, ◌++◌, [], cond, IfOk, IfSome, map, length, get_or, slice_range};
ghost use Rattle.std.specs.List.{items_where_true};
ghost use Rattle.scan_values.specs.Values.{val_of};
ghost use Rattle.scan_values.specs.Val.{marked, null_val};
ghost use Rattle.scan_values.specs.Masks.{null_where_false};
ghost use Rattle.scan_expr.specs.Eval.{is_nothing};
ghost use Rattle.scan_spelling.specs.LeafColumns.{is_here};
ghost use Rattle.scan_columns.specs.Cells.{vals_in};
ghost use Rattle.scan_columns.specs.Nested.{rows_of, struct_of, AreLong};
ghost use Rattle.scan_columns.specs.Operands.{field_val};
ghost use Rattle.scan_columns.specs.Rows.{IsFieldIn, IsPlaceOf};
ghost use Rattle.scan_columns.specs.Typed.{typed};

use crate::cells::{Cells, Structs, joined_values};
use crate::rest::{Rest, next_row};
use crate::slots::{all_true, both, contrary, kept, part};
use scan_values::{DType, FieldName, Mask, NoMemory, Value, Values};
use std::alloc::Global;
use std::ops::Range;

impl Structs {
    /// The rows of the fields, of which those are null where `valid` is false.
    pub fn new(valid: Vec<bool>, fields: Vec<Cells>) -> Structs
        requires { AreLong (length valid.items) (map vals_in fields.items) }
        ensures { result.items
            ≡ typed struct_of (rows_of (length valid.items) (map vals_in fields.items)) valid.items }
    {
        Structs { valid, fields }
    }

    /// How many.
    #[tactic(auto, using(crate::proofs::NestedLemmas::structs_length))]
    pub fn len(&self) -> usize
        ensures { result ≡ length self.now.items }
    {
        self.valid.len()
    }

    /// The values, of which each field's is moved.
    #[cycle(into_values)]
    pub fn into_values(self, alloc: Global) -> Result<Vec<Value>, NoMemory>
        ensures { IfOk result (λ v. map val_of v.items ≡ self.items) }
    {
        let Structs { valid, fields } = self;
        let mut columns = Vec::with_capacity(alloc, fields.len())?;
        for field in fields {
            columns.push(Rest::new(field.into_values(alloc)?))?;
        }
        structs_from(alloc, valid.as_slice(), &mut columns)
    }

    /// For each whether it is there.
    #[tactic(auto, using(crate::proofs::NestedLemmas::structs_here))]
    pub fn validity(&self) -> &[bool]
        ensures { result.now ≡ map is_here self.now.items }
    {
        self.valid.as_slice()
    }

    /// Where there is no struct.
    #[tactic(auto, using(crate::proofs::NestedLemmas::struct_nulls))]
    pub fn nulls(&self, alloc: Global) -> Result<Mask, NoMemory>
        ensures { IfOk result (λ m. m ≡ map (λ v. is_nothing (marked v)) self.now.items) }
    {
        let bits = contrary(alloc, self.valid.as_slice())?;
        Ok(Mask::from_bools(bits))
    }

    /// A field of structs of this dtype, lent where no struct is null.
    pub fn lent_field<'a>(&'a self, dtype: &DType, name: &FieldName) -> Option<&'a Cells>
        ensures { IfSome result (λ c. vals_in c.now ≡ map (field_val name.now dtype.now) self.entry.now.items) }
    {
        if all_true(self.valid.as_slice()) {
            field_in(self.fields.as_slice(), dtype, name)
        } else {
            None
        }
    }

    /// A copy of a field of structs of this dtype, null where the struct is.
    pub fn field(
        &self,
        alloc: Global,
        dtype: &DType,
        name: &FieldName,
    ) -> Result<Option<Cells>, NoMemory>
        ensures { IfOk result (λ o. IfSome o (λ c.
            vals_in c ≡ map (field_val name.now dtype.now) self.now.items)) }
    {
        match field_in(self.fields.as_slice(), dtype, name) {
            Some(cells) => Ok(Some(masked(alloc, cells, self.valid.as_slice())?)),
            None => Ok(None),
        }
    }

    /// Those at which the mask is true.
    #[cycle(filter)]
    pub fn filter(&self, alloc: Global, m: &Mask) -> Result<Structs, NoMemory>
        requires { length m.now ≡ length self.now.items }
        ensures { IfOk result (λ v. v.items ≡ items_where_true m.now self.now.items) }
    {
        let valid = kept(alloc, self.valid.as_slice(), m)?;
        let mut fields = Vec::with_capacity(alloc, self.fields.len())?;
        for field in &self.fields {
            fields.push(field.filter(alloc, m)?)?;
        }
        Ok(Structs::new(valid, fields))
    }

    /// These, null where the mask is false.
    pub fn mask(&self, alloc: Global, m: &Mask) -> Result<Structs, NoMemory>
        requires { length m.now ≡ length self.now.items }
        ensures { IfOk result (λ v. v.items ≡ null_where_false m.now self.now.items) }
    {
        let valid = both(alloc, self.valid.as_slice(), m.as_slice())?;
        let fields = copied_cells(alloc, self.fields.as_slice())?;
        Ok(Structs::new(valid, fields))
    }

    /// Those of a range of places.
    #[cycle(slice)]
    pub fn slice(&self, alloc: Global, r: Range<usize>) -> Result<Structs, NoMemory>
        requires ordered { r.start ≤ r.end }
        requires within { r.end ≤ length self.now.items }
        ensures { IfOk result (λ v. v.items ≡ slice_range self.now.items r.start r.end) }
    {
        let (start, end) = (r.start, r.end);
        let valid = part(alloc, self.valid.as_slice(), start, end)?;
        let mut fields = Vec::with_capacity(alloc, self.fields.len())?;
        for field in &self.fields {
            fields.push(field.slice(alloc, start..end)?)?;
        }
        Ok(Structs::new(valid, fields))
    }

    /// These, and then the others: field by field where both have as many, else as values.
    #[cycle(append)]
    pub fn append(self, alloc: Global, other: Structs) -> Result<Cells, NoMemory>
        ensures { IfOk result (λ c. vals_in c ≡ self.items ++ other.items) }
    {
        if self.fields.len() != other.fields.len() {
            return joined_values(alloc, Cells::Structs(self), Cells::Structs(other));
        }
        let Structs { mut valid, fields } = self;
        valid.extend_from_slice(other.valid.as_slice())?;
        let mut rest = other.fields.into_iter();
        let mut made = Vec::with_capacity(alloc, fields.len())?;
        for field in fields {
            let Some(second) = rest.next() else {
                unreachable!()
            };
            made.push(field.append(alloc, second)?)?;
        }
        Ok(Cells::Structs(Structs::new(valid, made)))
    }

    /// A copy that equals this one.
    #[cycle(clone)]
    pub fn try_clone(&self, alloc: Global) -> Result<Structs, NoMemory>
        ensures { IfOk result (λ v. v.items ≡ self.now.items) }
    {
        let valid = Vec::from_slice(alloc, self.valid.as_slice())?;
        let mut fields = Vec::with_capacity(alloc, self.fields.len())?;
        for field in &self.fields {
            fields.push(field.try_clone(alloc)?)?;
        }
        Ok(Structs::new(valid, fields))
    }
}

/// The place of the first field of this name in a struct.
pub(crate) fn place_in(dtype: &DType, name: &FieldName) -> Option<usize>
    ensures { IfSome result (IsPlaceOf name.now dtype.now) }
{
    match dtype.as_struct_fields_opt() {
        Some(fields) => fields.find(name),
        None => None,
    }
}

pub(crate) fn column_at(columns: &[Cells], place: usize) -> Option<&Cells>
    ensures { IfSome result (λ c. (place < length columns.now) × (vals_in c.now ≡ get_or (map vals_in columns.now) place [])) }
{
    if place < columns.len() {
        Some(&columns[place])
    } else {
        None
    }
}

/// The column of a field of a struct of this dtype.
fn field_in<'a>(columns: &'a [Cells], dtype: &DType, name: &FieldName) -> Option<&'a Cells>
    ensures { IfSome result (λ c. IsFieldIn name.now dtype.now (map vals_in columns.entry.now) (vals_in c.now)) }
{
    match place_in(dtype, name) {
        Some(place) => column_at(columns, place),
        None => None,
    }
}

/// A copy of the cells, null where a bit is false.
fn masked(alloc: Global, cells: &Cells, bits: &[bool]) -> Result<Cells, NoMemory>
    requires { length bits.now ≡ length (vals_in cells.now) }
    ensures { IfOk result (λ c. vals_in c ≡ null_where_false bits.now (vals_in cells.now)) }
{
    if all_true(bits) {
        return cells.try_clone(alloc);
    }
    let mask = Mask::from_bools(Vec::from_slice(alloc, bits)?);
    cells.mask(alloc, &mask)
}

pub(crate) fn copied_cells(alloc: Global, cells: &[Cells]) -> Result<Vec<Cells>, NoMemory>
    ensures { IfOk result (λ v. map vals_in v.items ≡ map vals_in cells.now) }
{
    let mut made = Vec::with_capacity(alloc, cells.len())?;
    for cell in cells {
        made.push(cell.try_clone(alloc)?)?;
    }
    Ok(made)
}

fn struct_cell(values: Vec<Value>, valid: bool) -> Value
    ensures { val_of result ≡ cond valid (struct_of (map val_of values.items)) null_val }
{
    if valid {
        Value::Struct(Values::new(values))
    } else {
        Value::Null
    }
}

/// A struct for each row of the columns, null where `valid` is false.
fn structs_from(alloc: Global, valid: &[bool], columns: &mut [Rest]) -> Result<Vec<Value>, NoMemory>
    ensures { IfOk result (λ v. map val_of v.items
        ≡ typed struct_of (rows_of (length valid.now) columns.old) valid.now) }
{
    let mut made = Vec::with_capacity(alloc, valid.len())?;
    for there in valid {
        let row = next_row(alloc, columns)?;
        made.push(struct_cell(row, *there))?;
    }
    Ok(made)
}
