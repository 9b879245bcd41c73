//! The heads of all fields of a dtype: what stands before each, made once and written for every row.
ghost use Rattle.std.specs.Prelude.{◌≡◌, IfOk, None, option_map, slice_get, true};
ghost use Rattle.scan_values.specs.FieldLists.{dtypes_of};
ghost use Rattle.scan_values.specs.Kinds.{struct_fields_of};
ghost use Rattle.scan_lines.specs.Heads.{heads_of, head_texts, names_in, parts_of};
ghost use Rattle.scan_lines.specs.Line.{element_in, fields_in};

use crate::head::Head;
use scan_values::{DType, FieldName, NoMemory, StructFields};
use std::alloc::Global;
use std::marker::Model;

/// What stands before each field of the structs in values of a dtype, at every depth: a comma but for the first, and the
/// field's name in quotes. Contracts see the dtype.
#[cycle(heads)]
#[derive(Drop)]
pub struct Heads {
    dtype: DType,
    texts: Vec<Head>,
    parts: Vec<Heads>,
}

impl Model for Heads {
    ghost use Rattle.std.specs.Prelude.{◌≡◌, true};
    ghost use Rattle.scan_values.specs.DataType.{DataType, data_type_code, size_of};
    ghost use Rattle.scan_lines.specs.Heads.{head_texts, names_in, parts_of};
    ghost use Rattle.scan_lines.specs.Line.{fields_in};

    ghost Value = { DataType };

    ghost coded = { data_type_code };

    ghost view = { λ a. a.dtype };

    ghost invariant = { λ a. (a.parts.items ≡ parts_of a.dtype)
        × (a.texts.items ≡ head_texts true (names_in (fields_in a.dtype))) };

    ghost size = { size_of };

    ghost use Rattle.scan_lines.specs.HeadsFall.{heads_fall};

    ghost size_decreases = { λ a h. heads_fall a.dtype a.parts.items h.0 };
}

impl Heads {
    /// The heads of a dtype, of these parts.
    fn new(dtype: DType, texts: Vec<Head>, parts: Vec<Heads>) -> Heads
        requires parts { parts.items ≡ parts_of dtype }
        requires texts { texts.items ≡ head_texts true (names_in (fields_in dtype)) }
        ensures { result ≡ dtype }
    {
        Heads {
            dtype,
            texts,
            parts,
        }
    }

    /// The heads of a dtype. It takes memory for each field.
    #[cycle(heads)]
    pub fn of(alloc: Global, dtype: &DType) -> Result<Heads, NoMemory>
        ensures { IfOk result (λ h. h ≡ dtype.now) }
    {
        let texts = texts_in(alloc, dtype)?;
        let parts = parts_in(alloc, dtype)?;
        Ok(Heads::new(dtype.try_clone(alloc)?, texts, parts))
    }

    /// What stands before the field at a place and the heads of its dtype, where a struct of the dtype has one.
    #[inline(always)]
    pub(crate) fn field(&self, k: usize) -> Option<(&Head, &Heads)>
        ensures { option_map (λ p. (p.0.now, p.1.now)) result ≡ slice_get (heads_of true (fields_in self.now)) k }
    {
        let texts = self.texts.as_slice();
        let parts = self.parts.as_slice();
        if k < texts.len() {
            Some((&texts[k], &parts[k]))
        } else {
            None
        }
    }

    /// The heads of the elements of a list of the dtype.
    pub(crate) fn element(&self) -> &Heads
        ensures { result.now ≡ element_in self.now }
    {
        let parts = self.parts.as_slice();
        match self.dtype.as_list_element_opt() {
            Some(_) => &parts[0],
            None => self,
        }
    }
}

/// The heads of these names.
fn texts_of(alloc: Global, names: &[FieldName]) -> Result<Vec<Head>, NoMemory>
    ensures { IfOk result (λ v. v.items ≡ head_texts true names.now) }
{
    let mut made = Vec::with_capacity(alloc, names.len())?;
    for (k, name) in names.iter().enumerate() {
        made.push(Head::of_field(alloc, k == 0, name)?)?;
    }
    Ok(made)
}

/// The heads of the fields of structs of a dtype.
fn texts_in(alloc: Global, dtype: &DType) -> Result<Vec<Head>, NoMemory>
    ensures { IfOk result (λ v. v.items ≡ head_texts true (names_in (fields_in dtype.now))) }
{
    match dtype.as_struct_fields_opt() {
        Some(fields) => texts_of(alloc, fields.names()),
        None => Ok(Vec::new(alloc)),
    }
}

/// The heads within those of a dtype: of its fields, or of its elements.
#[cycle(heads)]
fn parts_in(alloc: Global, dtype: &DType) -> Result<Vec<Heads>, NoMemory>
    ensures { IfOk result (λ v. v.items ≡ parts_of dtype.now) }
{
    match dtype.as_struct_fields_opt() {
        Some(fields) => field_parts(alloc, fields),
        None => element_parts(alloc, dtype),
    }
}

/// The heads within those of a dtype that is no struct's.
#[cycle(heads)]
fn element_parts(alloc: Global, dtype: &DType) -> Result<Vec<Heads>, NoMemory>
    requires { struct_fields_of dtype.now ≡ None }
    ensures { IfOk result (λ v. v.items ≡ parts_of dtype.now) }
{
    match dtype.as_list_element_opt() {
        Some(element) => {
            let mut made = Vec::with_capacity(alloc, 1)?;
            made.push(Heads::of(alloc, element)?)?;
            Ok(made)
        }
        None => Ok(Vec::new(alloc)),
    }
}

/// The heads of the dtype of each field.
#[cycle(heads)]
fn field_parts(alloc: Global, fields: &StructFields) -> Result<Vec<Heads>, NoMemory>
    ensures { IfOk result (λ v. v.items ≡ dtypes_of fields.now) }
{
    let mut made = Vec::with_capacity(alloc, fields.nfields())?;
    for i in 0..fields.nfields() {
        let Some(dtype) = fields.field_by_index(i) else {
            unreachable!()
        };
        made.push(Heads::of(alloc, dtype)?)?;
    }
    Ok(made)
}
