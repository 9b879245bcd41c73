//! Values as text, written into a buffer where there is room.
ghost use Rattle.std.specs.Prelude.{◌≡◌, ◌≤◌, ◌++◌, length, map, true, codes};
ghost use Rattle.scan_values.specs.DataType.{DataType};
ghost use Rattle.scan_values.specs.Val.{bool_val, vals_of};
ghost use Rattle.scan_values.specs.Values.{val_of};
ghost use Rattle.scan_lines.specs.Line.{value_text, elements_text, fields_text, fields_in};
ghost use Rattle.scan_lines.specs.Writes.{Writes};

use crate::heads::Heads;
use crate::put::{put_bytes, put_comma, put_int};
use crate::quoted::put_quoted;
use scan_values::Value;

#[inline(always)]
pub(crate) fn put_bool(b: bool, buf: &mut [u8], at: usize) -> Option<usize>
    requires { at ≤ length buf.old }
    ensures { (d : DataType) → Writes (value_text (bool_val b) d) at buf.old buf.new result }
{
    if b {
        put_bytes(b"true", buf, at)
    } else {
        put_bytes(b"false", buf, at)
    }
}

/// Writes a value of the dtype of some heads.
#[cycle(values)]
pub(crate) fn put_value(value: &Value, heads: &Heads, buf: &mut [u8], at: usize) -> Option<usize>
    requires { at ≤ length buf.old }
    ensures { Writes (value_text (val_of value.now) heads.now) at buf.old buf.new result }
{
    match value {
        Value::Null => put_bytes(b"null", buf, at),
        Value::Bool(b) => put_bool(*b, buf, at),
        Value::Int(n) => put_int(*n, buf, at),
        Value::Text(text) => put_quoted(text.as_str().as_bytes(), buf, at),
        Value::List(values) => put_list(values.as_slice(), heads.element(), buf, at),
        Value::Struct(values) => put_struct(values.as_slice(), heads, buf, at),
    }
}

#[cycle(values)]
fn put_list(values: &[Value], element: &Heads, buf: &mut [u8], at: usize) -> Option<usize>
    requires { at ≤ length buf.old }
    ensures { Writes (codes "[" ++ (elements_text true (vals_of (map val_of values.now)) element.now ++ codes "]"))
        at buf.old buf.new result }
{
    let end = put_bytes(b"[", buf, at)?;
    let end = put_elements(values, element, buf, end)?;
    put_bytes(b"]", buf, end)
}

#[cycle(values)]
fn put_elements(values: &[Value], element: &Heads, buf: &mut [u8], at: usize) -> Option<usize>
    requires { at ≤ length buf.old }
    ensures { Writes (elements_text true (vals_of (map val_of values.now)) element.now) at buf.old buf.new result }
{
    let mut end = at;
    for (k, value) in values.iter().enumerate() {
        end = put_comma(k == 0, buf, end)?;
        end = put_value(value, element, buf, end)?;
    }
    Some(end)
}

#[cycle(values)]
fn put_struct(values: &[Value], heads: &Heads, buf: &mut [u8], at: usize) -> Option<usize>
    requires { at ≤ length buf.old }
    ensures { Writes (codes "{" ++ (fields_text true (vals_of (map val_of values.now)) (fields_in heads.now) ++ codes "}"))
        at buf.old buf.new result }
{
    let end = put_bytes(b"{", buf, at)?;
    let end = put_fields(values, heads, buf, end)?;
    put_bytes(b"}", buf, end)
}

#[cycle(values)]
fn put_fields(values: &[Value], heads: &Heads, buf: &mut [u8], at: usize) -> Option<usize>
    requires { at ≤ length buf.old }
    ensures { Writes (fields_text true (vals_of (map val_of values.now)) (fields_in heads.now)) at buf.old buf.new result }
{
    let mut end = at;
    for (k, value) in values.iter().enumerate() {
        let Some((head, inner)) = heads.field(k) else {
            return Some(end);
        };
        end = head.put(buf, end)?;
        end = put_value(value, inner, buf, end)?;
    }
    Some(end)
}
