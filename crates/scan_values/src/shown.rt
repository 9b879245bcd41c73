//! Dtypes and values as a person reads them. After the Rust's `Display` of dtypes: `{a=i32, b=list(utf8?)}?`. A value does
//! not know its dtype, so a struct's is shown without the names of its fields: `{5, "text", [true, null]}`.
ghost use Rattle.std.specs.Prelude.{◌≡◌, ◌++◌, map, true, codes, option_map, slice_get};
ghost use Rattle.std.specs.Fmt.{WritesOnOk, signed_decimal};
ghost use Rattle.scan_values.specs.DataType.{fields_of};
ghost use Rattle.scan_values.specs.Kinds.{is_scalar_type};
ghost use Rattle.scan_values.specs.Val.{vals_of};
ghost use Rattle.scan_values.specs.Values.{val_of};
ghost use Rattle.scan_values.specs.Shown.{comma, shown_null, shown_ptype, shown_dtype, shown_kind, shown_field, shown_fields};
ghost use Rattle.scan_values.specs.Shown.{shown_bool, shown_val, shown_vals};

use crate::dtype::{DType, DTypeKind, StructFields};
use crate::ptype::{Nullability, PType};
use crate::text::{FieldName, Text};
use crate::value::Value;
use itoa::Buffer;
use std::fmt::{self, Debug, Display, Formatter, Write};

impl Display for PType {
    ghost use Rattle.std.specs.Prelude.{Some};

    ghost output = { λ p. Some (shown_ptype p) };

    fn fmt<W: Write>(&self, f: &mut Formatter<W>) -> fmt::Result {
        f.write_str(ptype_name(*self))
    }
}

impl Display for Nullability {
    ghost use Rattle.std.specs.Prelude.{Some};

    ghost output = { λ n. Some (shown_null n) };

    fn fmt<W: Write>(&self, f: &mut Formatter<W>) -> fmt::Result {
        f.write_str(null_mark(*self))
    }
}

impl Display for FieldName {
    ghost use Rattle.std.specs.Prelude.{Some};

    ghost output = { λ n. Some n };

    fn fmt<W: Write>(&self, f: &mut Formatter<W>) -> fmt::Result {
        f.write_str(self.as_str())
    }
}

impl Debug for FieldName {
    ghost use Rattle.std.specs.Prelude.{Some};

    ghost debug_output = { λ n. Some n };

    fn fmt<W: Write>(&self, f: &mut Formatter<W>) -> fmt::Result {
        f.write_str(self.as_str())
    }
}

impl Display for Text {
    ghost use Rattle.std.specs.Prelude.{Some};

    ghost output = { λ t. Some t };

    fn fmt<W: Write>(&self, f: &mut Formatter<W>) -> fmt::Result {
        f.write_str(self.as_str())
    }
}

impl Debug for Text {
    ghost use Rattle.std.specs.Prelude.{Some};

    ghost debug_output = { λ t. Some t };

    fn fmt<W: Write>(&self, f: &mut Formatter<W>) -> fmt::Result {
        f.write_str(self.as_str())
    }
}

impl Display for DType {
    ghost use Rattle.std.specs.Prelude.{Some};

    ghost output = { λ d. Some (shown_dtype d) };

    fn fmt<W: Write>(&self, f: &mut Formatter<W>) -> fmt::Result {
        show_dtype(self, f)
    }
}

impl Debug for DType {
    ghost use Rattle.std.specs.Prelude.{Some};

    ghost debug_output = { λ d. Some (shown_dtype d) };

    fn fmt<W: Write>(&self, f: &mut Formatter<W>) -> fmt::Result {
        show_dtype(self, f)
    }
}

impl Display for Value {
    ghost use Rattle.std.specs.Prelude.{Some};

    ghost output = { λ v. Some (shown_val (val_of v)) };

    fn fmt<W: Write>(&self, f: &mut Formatter<W>) -> fmt::Result {
        show_value(self, f)
    }
}

impl Debug for Value {
    ghost use Rattle.std.specs.Prelude.{Some};

    ghost debug_output = { λ v. Some (shown_val (val_of v)) };

    fn fmt<W: Write>(&self, f: &mut Formatter<W>) -> fmt::Result {
        show_value(self, f)
    }
}

/// The name of an integer type.
fn ptype_name(p: PType) -> &'static str
    ensures { result.now ≡ shown_ptype p }
{
    match p {
        PType::U8 => "u8",
        PType::U16 => "u16",
        PType::U32 => "u32",
        PType::U64 => "u64",
        PType::I8 => "i8",
        PType::I16 => "i16",
        PType::I32 => "i32",
        PType::I64 => "i64",
    }
}

/// What stands behind a dtype: a question mark where it has null.
fn null_mark(n: Nullability) -> &'static str
    ensures { result.now ≡ shown_null n }
{
    match n {
        Nullability::NonNullable => "",
        Nullability::Nullable => "?",
    }
}

/// What stands before an item: nothing before the first.
pub fn comma(is_first: bool) -> &'static str
    ensures { result.now ≡ comma is_first }
{
    if is_first { "" } else { ", " }
}

#[cycle(show_types)]
fn show_dtype<W: Write>(dtype: &DType, f: &mut Formatter<W>) -> fmt::Result
    ensures { WritesOnOk W.write_str_gives f.old result (shown_dtype dtype.now) f.new }
{
    show_kind(dtype, f)?;
    f.write_str(null_mark(dtype.nullability()))
}

#[cycle(show_types)]
fn show_kind<W: Write>(dtype: &DType, f: &mut Formatter<W>) -> fmt::Result
    ensures { WritesOnOk W.write_str_gives f.old result (shown_kind dtype.now) f.new }
{
    if let Some(element) = dtype.as_list_element_opt() {
        return show_list(element, f);
    }
    if let Some(fields) = dtype.as_struct_fields_opt() {
        return show_struct(fields, f);
    }
    f.write_str(scalar_name(dtype))
}

/// The name of a scalar dtype without its question mark.
fn scalar_name(dtype: &DType) -> &'static str
    requires { is_scalar_type dtype.now ≡ true }
    ensures { result.now ≡ shown_kind dtype.now }
{
    match dtype.kind() {
        DTypeKind::Primitive(p) => ptype_name(p),
        DTypeKind::Bool => "bool",
        _ => "utf8",
    }
}

#[cycle(show_types)]
fn show_list<W: Write>(element: &DType, f: &mut Formatter<W>) -> fmt::Result
    ensures { WritesOnOk W.write_str_gives f.old result (codes "list(" ++ (shown_dtype element.now ++ codes ")")) f.new }
{
    f.write_str("list(")?;
    show_dtype(element, f)?;
    f.write_str(")")
}

#[cycle(show_types)]
fn show_struct<W: Write>(fields: &StructFields, f: &mut Formatter<W>) -> fmt::Result
    ensures { WritesOnOk W.write_str_gives f.old result
        (codes "{" ++ (shown_fields true (fields_of fields.now) ++ codes "}")) f.new }
{
    f.write_str("{")?;
    show_fields(fields, f)?;
    f.write_str("}")
}

fn name_at(names: &[FieldName], i: usize) -> Option<&FieldName>
    ensures { option_map (λ n. n.now) result ≡ slice_get names.now i }
{
    names.get(i)
}

/// The name and the dtype of a field.
fn field_at(fields: &StructFields, i: usize) -> Option<(&FieldName, &DType)>
    ensures { option_map (λ p. (p.0.now, p.1.now)) result ≡ slice_get fields.now i }
{
    let dtype = fields.field_by_index(i)?;
    let name = name_at(fields.names(), i)?;
    Some((name, dtype))
}

#[cycle(show_types)]
fn show_fields<W: Write>(fields: &StructFields, f: &mut Formatter<W>) -> fmt::Result
    ensures { WritesOnOk W.write_str_gives f.old result (shown_fields true (fields_of fields.now)) f.new }
{
    for i in 0..fields.nfields() {
        let Some((name, dtype)) = field_at(fields, i) else {
            return Ok(());
        };
        show_field(i == 0, name, dtype, f)?;
    }
    Ok(())
}

#[cycle(show_types)]
fn show_field<W: Write>(
    is_first: bool,
    name: &FieldName,
    dtype: &DType,
    f: &mut Formatter<W>,
) -> fmt::Result
    ensures { WritesOnOk W.write_str_gives f.old result (shown_field is_first name.now dtype.now) f.new }
{
    f.write_str(comma(is_first))?;
    f.write_str(name.as_str())?;
    f.write_str("=")?;
    show_dtype(dtype, f)
}

/// The name of a truth value.
fn bool_name(b: bool) -> &'static str
    ensures { result.now ≡ shown_bool b }
{
    if b { "true" } else { "false" }
}

fn show_number<W: Write>(number: i128, f: &mut Formatter<W>) -> fmt::Result
    ensures { WritesOnOk W.write_str_gives f.old result (signed_decimal number) f.new }
{
    let mut buffer = Buffer::new();
    f.write_str(buffer.format(number))
}

fn show_text<W: Write>(text: &str, f: &mut Formatter<W>) -> fmt::Result
    ensures { WritesOnOk W.write_str_gives f.old result (codes "\"" ++ (text.now ++ codes "\"")) f.new }
{
    f.write_str("\"")?;
    f.write_str(text)?;
    f.write_str("\"")
}

#[cycle(show_values)]
fn show_value<W: Write>(value: &Value, f: &mut Formatter<W>) -> fmt::Result
    ensures { WritesOnOk W.write_str_gives f.old result (shown_val (val_of value.now)) f.new }
{
    match value {
        Value::Null => f.write_str("null"),
        Value::Bool(b) => f.write_str(bool_name(*b)),
        Value::Int(number) => show_number(*number, f),
        Value::Text(text) => show_text(text.as_str(), f),
        Value::List(values) => show_within("[", values.as_slice(), "]", f),
        Value::Struct(values) => show_within("{", values.as_slice(), "}", f),
    }
}

#[cycle(show_values)]
fn show_within<W: Write>(
    before: &str,
    values: &[Value],
    behind: &str,
    f: &mut Formatter<W>,
) -> fmt::Result
    ensures { WritesOnOk W.write_str_gives f.old result
        (before.now ++ (shown_vals true (vals_of (map val_of values.now)) ++ behind.now)) f.new }
{
    f.write_str(before)?;
    show_values(values, f)?;
    f.write_str(behind)
}

#[cycle(show_values)]
fn show_values<W: Write>(values: &[Value], f: &mut Formatter<W>) -> fmt::Result
    ensures { WritesOnOk W.write_str_gives f.old result (shown_vals true (vals_of (map val_of values.now))) f.new }
{
    for (i, value) in values.iter().enumerate() {
        show_item(i == 0, value, f)?;
    }
    Ok(())
}

#[cycle(show_values)]
fn show_item<W: Write>(is_first: bool, value: &Value, f: &mut Formatter<W>) -> fmt::Result
    ensures { WritesOnOk W.write_str_gives f.old result (comma is_first ++ shown_val (val_of value.now)) f.new }
{
    f.write_str(comma(is_first))?;
    show_value(value, f)
}
