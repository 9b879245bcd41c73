// The places of a struct's fields, found by their names.
ghost use Rattle.std.specs.Prelude.{◌≡◌, ◌≢◌, List, [], ◌∷◌, ℕ, IfOk, IfErr, None, true, false, map};
ghost use Rattle.std.specs.Ordering.{nat_cmp};
ghost use Rattle.std.specs.Cmp.Lexicographic.{slice_cmp};
ghost use Rattle.std.specs.BTreeSet.{contains_by};
ghost use Rattle.scan_expr.specs.Infer.{struct_fields};
ghost use Rattle.scan_expr.specs.Typing.{unary_fault, has_field, have_fields};
ghost use Rattle.scan_values.specs.NameFaults.{has_name, field_names};
ghost use Rattle.scan_values.specs.DataType.{fields_of};
ghost use Rattle.scan_expr.specs.Places.{place_of, left_places, unary_places};

use crate::op::{BindFault, Unary};
use scan_values::{DType, FieldName, Names, NoMemory, StructFields};
use std::alloc::Global;
use std::collections::BTreeSet;

/// Some names, each found in a logarithm of their number.
#[derive(Drop)]
pub(crate) struct NameSet<'a> {
    names: &'a Names,
    seen: BTreeSet<&'a str>,
    ghost held: { (n : List ℕ) → contains_by (λ k. slice_cmp nat_cmp n k.now) seen ≡ has_name n names.now },
}

impl<'a> NameSet<'a> {
    ghost use Rattle.std.specs.Prelude.{◌≡◌, IfOk};
    ghost use Rattle.scan_values.specs.NameFaults.{has_name};

    pub(crate) fn of(alloc: Global, names: &'a Names) -> Result<NameSet<'a>, NoMemory>
        ensures { IfOk result (λ s. s.names.now ≡ names.entry.now) }
    {
        let mut seen = BTreeSet::new(alloc);
        for name in names.as_slice() {
            seen.insert(name.as_str())?;
        }
        Ok(NameSet { names, seen })
    }

    /// Whether a name is one of them.
    pub(crate) fn has(&self, name: &FieldName) -> bool
        ensures { result ≡ has_name name.now self.now.names.now }
    {
        self.seen.contains(name.as_str())
    }
}

/// One place.
pub(crate) fn one_place(alloc: Global, place: usize) -> Result<Vec<usize>, NoMemory>
    ensures { IfOk result (λ v. v.items ≡ place ∷ []) }
{
    let mut places = Vec::with_capacity(alloc, 1)?;
    places.push(place)?;
    Ok(places)
}

/// The place of the first field of this name, or that there is none.
pub(crate) fn place_found(
    alloc: Global,
    name: &FieldName,
    fields: &StructFields,
) -> Result<Vec<usize>, BindFault>
    ensures found { IfOk result (λ _. has_field name.now (fields_of fields.now) ≡ true) }
    ensures places { IfOk result (λ v. v.items ≡ place_of (fields_of fields.now) name.now ∷ []) }
    ensures lost { IfErr result (λ f. f ≢ BindFault.NoMemory →
        (f ≡ BindFault.NoField) × (has_field name.now (fields_of fields.now) ≡ false)) }
{
    match fields.find(name) {
        Some(place) => Ok(one_place(alloc, place)?),
        None => Err(BindFault::NoField),
    }
}

/// The places of the first fields of these names, in the order written, or that one of them is no field's.
pub(crate) fn places_found(
    alloc: Global,
    names: &Names,
    fields: &StructFields,
) -> Result<Vec<usize>, BindFault>
    ensures found { IfOk result (λ _. have_fields names.now (fields_of fields.now) ≡ true) }
    ensures places { IfOk result (λ v. v.items ≡ map (place_of (fields_of fields.now)) names.now) }
    ensures lost { IfErr result (λ f. f ≢ BindFault.NoMemory →
        (f ≡ BindFault.NoField) × (have_fields names.now (fields_of fields.now) ≡ false)) }
{
    let mut places = Vec::with_capacity(alloc, names.as_slice().len())?;
    for name in names.as_slice() {
        let Some(place) = fields.find(name) else {
            return Err(BindFault::NoField);
        };
        places.push(place)?;
    }
    Ok(places)
}

/// The places of the fields of other names.
pub(crate) fn places_left(
    alloc: Global,
    names: &Names,
    fields: &StructFields,
) -> Result<Vec<usize>, NoMemory>
    ensures { IfOk result (λ v. v.items ≡ left_places names.now 0 (field_names (fields_of fields.now))) }
{
    let taken = NameSet::of(alloc, names)?;
    let mut places = Vec::new(alloc);
    for (i, name) in fields.names().iter().enumerate() {
        if !taken.has(name) {
            places.push(i)?;
        }
    }
    Ok(places)
}

/// Where the fields stand that an operator takes of values of this dtype.
pub(crate) fn places_of(alloc: Global, op: &Unary, dtype: &DType) -> Result<Vec<usize>, NoMemory>
    requires { unary_fault op.now dtype.now ≡ None }
    ensures { IfOk result (λ v. v.items ≡ unary_places op.now (struct_fields dtype.now)) }
{
    let Some(fields) = dtype.as_struct_fields_opt() else {
        return Ok(Vec::new(alloc));
    };
    match op {
        Unary::GetItem(name) => place_found(alloc, name, fields).map_err(|_| NoMemory),
        Unary::Select(names) => places_found(alloc, names, fields).map_err(|_| NoMemory),
        Unary::Exclude(names) => places_left(alloc, names, fields),
        _ => Ok(Vec::new(alloc)),
    }
}
