//! The lines that a scan prints: one a row, with its file, its number in that file and its value.
ghost use Rattle.std.specs.Prelude.{◌≡◌, ◌++◌, ◌<◌, ◌≤◌, ◌*◌, [], ◌∷◌, true, IsTrue, OnOk, OnErr, take, map, codes, length, option_map, slice_get};
ghost use Rattle.std.specs.Fmt.{decimal, signed_decimal};
ghost use Rattle.std.specs.List.{flat_map};
ghost use Rattle.scan_values.specs.DataType.{fields_of};
ghost use Rattle.scan_values.specs.Values.{val_of};
ghost use Rattle.scan_values.specs.Val.{vals_of};
ghost use Rattle.scan_run.specs.Line.{hex_digit, escaped, quoted, element_in, comma, value_text, elements_text, fields_text, fields_in, line_of, AppendsFront};

use itoa::Buffer;
use scan_values::{DType, FieldName, NoMemory, StructFields, Value};

fn hex_digit(n: u8) -> u8
    requires { n < 16 }
    ensures { result ≡ hex_digit n }
{
    if n < 10 { n + 48 } else { n + 87 }
}

/// Appends bytes, or nothing.
pub(crate) fn push_bytes(text: &[u8], out: &mut Vec<u8>) -> Result<(), NoMemory>
    ensures ok { OnOk result (out.new.items ≡ out.old.items ++ text.now) }
    ensures err { OnErr result (out.new.items ≡ out.old.items) }
{
    out.extend_from_slice(text)?;
    Ok(())
}

fn push_byte(b: u8, out: &mut Vec<u8>) -> Result<(), NoMemory>
    ensures ok { OnOk result (out.new.items ≡ out.old.items ++ escaped b) }
    ensures err { OnErr result (out.new.items ≡ out.old.items) }
{
    match b {
        b'"' => push_bytes(b"\\\"", out),
        b'\\' => push_bytes(b"\\\\", out),
        8 => push_bytes(b"\\b", out),
        9 => push_bytes(b"\\t", out),
        10 => push_bytes(b"\\n", out),
        12 => push_bytes(b"\\f", out),
        13 => push_bytes(b"\\r", out),
        0..=31 => push_bytes(
            &[
                b'\\',
                b'u',
                b'0',
                b'0',
                hex_digit(b / 16),
                hex_digit(b % 16),
            ],
            out,
        ),
        _ => push_bytes(&[b], out),
    }
}

fn is_plain(b: u8) -> bool
    ensures { IsTrue result → escaped b ≡ b ∷ [] }
{
    b >= 32 && b != b'"' && b != b'\\'
}

/// How many bytes at the front of a text stand for themselves in quotes.
fn plain_length(text: &[u8]) -> usize
    ensures bound { result ≤ length text.now }
    ensures plain { flat_map escaped (take result text.now) ≡ take result text.now }
{
    for i in 0..text.len() {
        if !is_plain(text[i]) {
            return i;
        }
    }
    text.len()
}

fn push_quoted(text: &[u8], out: &mut Vec<u8>) -> Result<(), NoMemory>
    ensures ok { OnOk result (out.new.items ≡ out.old.items ++ quoted text.now) }
    ensures front { OnErr result (AppendsFront (quoted text.now) out.old.items out.new.items) }
{
    push_bytes(b"\"", out)?;
    let mut start = 0;
    'runs: while start < text.len() {
        let rest = &text[start..];
        let n = plain_length(rest);
        if n == 0 {
            push_byte(text[start], out)?;
            start += 1;
        } else {
            push_bytes(&rest[..n], out)?;
            start += n;
        }
    }
    push_bytes(b"\"", out)
}

pub(crate) fn push_number(n: i128, out: &mut Vec<u8>) -> Result<(), NoMemory>
    ensures ok { OnOk result (out.new.items ≡ out.old.items ++ signed_decimal n) }
    ensures err { OnErr result (out.new.items ≡ out.old.items) }
{
    let mut buffer = Buffer::new();
    push_bytes(buffer.format(n).as_bytes(), out)
}

pub(crate) fn push_count(n: u64, out: &mut Vec<u8>) -> Result<(), NoMemory>
    ensures ok { OnOk result (out.new.items ≡ out.old.items ++ decimal n) }
    ensures err { OnErr result (out.new.items ≡ out.old.items) }
{
    let mut buffer = Buffer::new();
    push_bytes(buffer.format(n).as_bytes(), out)
}

fn push_comma(is_first: bool, out: &mut Vec<u8>) -> Result<(), NoMemory>
    ensures ok { OnOk result (out.new.items ≡ out.old.items ++ comma is_first) }
    ensures err { OnErr result (out.new.items ≡ out.old.items) }
{
    if is_first {
        Ok(())
    } else {
        push_bytes(b",", out)
    }
}

fn element_in(dtype: &DType) -> &DType
    ensures { result.now ≡ element_in dtype.now }
{
    match dtype.as_list_element_opt() {
        Some(element) => element,
        None => dtype,
    }
}

/// Appends a value of a dtype as JSON: numbers in decimal, texts in quotes, structs with the names of their fields in
/// field order, no spaces. After a refusal a front of it may have been appended.
#[cycle(print)]
pub fn push_value(value: &Value, dtype: &DType, out: &mut Vec<u8>) -> Result<(), NoMemory>
    ensures ok { OnOk result (out.new.items ≡ out.old.items ++ value_text (val_of value.now) dtype.now) }
    ensures front { OnErr result (AppendsFront (value_text (val_of value.now) dtype.now) out.old.items out.new.items) }
{
    match value {
        Value::Null => push_bytes(b"null", out),
        Value::Bool(true) => push_bytes(b"true", out),
        Value::Bool(false) => push_bytes(b"false", out),
        Value::Int(n) => push_number(*n, out),
        Value::Text(text) => push_quoted(text.as_str().as_bytes(), out),
        Value::List(values) => {
            push_bytes(b"[", out)?;
            push_elements(values.as_slice(), element_in(dtype), out)?;
            push_bytes(b"]", out)
        }
        Value::Struct(values) => {
            push_bytes(b"{", out)?;
            push_struct(values.as_slice(), dtype, out)?;
            push_bytes(b"}", out)
        }
    }
}

#[cycle(print)]
fn push_elements(values: &[Value], element: &DType, out: &mut Vec<u8>) -> Result<(), NoMemory>
    ensures ok { OnOk result (out.new.items
        ≡ out.old.items ++ elements_text true (vals_of (map val_of values.now)) element.now) }
    ensures front { OnErr result (AppendsFront (elements_text true (vals_of (map val_of values.now)) element.now)
        out.old.items out.new.items) }
{
    for (i, value) in values.iter().enumerate() {
        push_comma(i == 0, out)?;
        push_value(value, element, out)?;
    }
    Ok(())
}

#[cycle(print)]
fn push_struct(values: &[Value], dtype: &DType, out: &mut Vec<u8>) -> Result<(), NoMemory>
    ensures ok { OnOk result (out.new.items
        ≡ out.old.items ++ fields_text true (vals_of (map val_of values.now)) (fields_in dtype.now)) }
    ensures front { OnErr result (AppendsFront (fields_text true (vals_of (map val_of values.now)) (fields_in dtype.now))
        out.old.items out.new.items) }
{
    match dtype.as_struct_fields_opt() {
        Some(fields) => push_fields(values, fields, out),
        None => Ok(()),
    }
}

#[cycle(print)]
fn push_fields(values: &[Value], fields: &StructFields, out: &mut Vec<u8>) -> Result<(), NoMemory>
    ensures ok { OnOk result (out.new.items
        ≡ out.old.items ++ fields_text true (vals_of (map val_of values.now)) (fields_of fields.now)) }
    ensures front { OnErr result (AppendsFront (fields_text true (vals_of (map val_of values.now)) (fields_of fields.now))
        out.old.items out.new.items) }
{
    for (i, value) in values.iter().enumerate() {
        let Some((name, dtype)) = field_at(fields, i) else {
            return Ok(());
        };
        push_field(i == 0, name, value, dtype, out)?;
    }
    Ok(())
}

#[cycle(print)]
fn push_field(
    is_first: bool,
    name: &FieldName,
    value: &Value,
    dtype: &DType,
    out: &mut Vec<u8>,
) -> Result<(), NoMemory>
    ensures ok { OnOk result (out.new.items ≡ out.old.items
        ++ (comma is_first ++ (quoted name.now ++ (codes ":" ++ value_text (val_of value.now) dtype.now)))) }
    ensures front { OnErr result (AppendsFront
        (comma is_first ++ (quoted name.now ++ (codes ":" ++ value_text (val_of value.now) dtype.now)))
        out.old.items out.new.items) }
{
    push_comma(is_first, out)?;
    push_quoted(name.as_str().as_bytes(), out)?;
    push_bytes(b":", out)?;
    push_value(value, dtype, out)
}

fn name_at(names: &[FieldName], i: usize) -> Option<&FieldName>
    ensures { option_map (λ n. n.now) result ≡ slice_get names.now i }
{
    names.get(i)
}

fn field_at(fields: &StructFields, i: usize) -> Option<(&FieldName, &DType)>
    ensures { option_map (λ p. (p.0.now, p.1.now)) result ≡ slice_get fields.now i }
{
    let dtype = fields.field_by_index(i)?;
    let name = name_at(fields.names(), i)?;
    Some((name, dtype))
}

/// Appends the line of a row: its file's place, its number in that file, and its value. After a refusal a front of it
/// may have been appended.
pub fn push_line(
    file: usize,
    row: u64,
    value: &Value,
    dtype: &DType,
    out: &mut Vec<u8>,
) -> Result<(), NoMemory>
    ensures ok { OnOk result (out.new.items ≡ out.old.items ++ line_of dtype.now file row (val_of value.now)) }
    ensures front { OnErr result (AppendsFront (line_of dtype.now file row (val_of value.now))
        out.old.items out.new.items) }
{
    push_bytes(b"{\"file\":", out)?;
    push_count(file as u64, out)?;
    push_bytes(b",\"row\":", out)?;
    push_count(row, out)?;
    push_bytes(b",\"value\":", out)?;
    push_value(value, dtype, out)?;
    push_bytes(b"}\n", out)
}
