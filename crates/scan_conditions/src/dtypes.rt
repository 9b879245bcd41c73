//! Dtypes as people write them: `i64`, `utf8?`, `[u8]`, `{id: i64, at: {x: i32, y: i32}?}`. A `?` stands behind what may be
//! null.
use crate::chars::{is_at, name_at, skip_spaces, text_of, word_end};
use crate::fault::{Cause, ConditionFault};
use scan_values::{
    DType, DTypeFault, DTypeKind, FieldName, NoMemory, Nullability, PType, StructFields,
};
use std::alloc::Global;

/// How deep a dtype nests at most.
const MOST_LEVELS: u32 = 66;

fn scalar_named(name: &str) -> Option<DType> {
    match name {
        "bool" => Some(DType::boolean()),
        "utf8" => Some(DType::text()),
        "u8" => Some(DType::u8()),
        "u16" => Some(DType::u16()),
        "u32" => Some(DType::u32()),
        "u64" => Some(DType::u64()),
        "i8" => Some(DType::i8()),
        "i16" => Some(DType::i16()),
        "i32" => Some(DType::i32()),
        "i64" => Some(DType::i64()),
        _ => None,
    }
}

/// The scalar dtype that stands here, and where it ends.
fn scalar_at(alloc: Global, chars: &[char], at: usize) -> Result<(DType, usize), ConditionFault> {
    if at >= chars.len() {
        return Err(ConditionFault::new(at, Cause::NoType));
    }
    let end = word_end(chars, at);
    let name = text_of(alloc, &chars[at..end])?;
    match scalar_named(name.as_str()) {
        Some(dtype) => Ok((dtype, end)),
        None => Err(ConditionFault::new(at, Cause::NoType)),
    }
}

/// The dtype that stands here, of no more than so many levels, and where it ends.
#[cycle(reading)]
fn type_at(
    alloc: Global,
    chars: &[char],
    at: usize,
    levels: u32,
) -> Result<(DType, usize), ConditionFault> {
    let at = skip_spaces(chars, at);
    if levels == 0 {
        return Err(ConditionFault::new(at, Cause::Deep));
    }
    let (dtype, end) = if is_at(chars, at, '[') {
        list_at(alloc, chars, at, levels - 1)?
    } else if is_at(chars, at, '{') {
        struct_at(alloc, chars, at, levels - 1)?
    } else {
        scalar_at(alloc, chars, at)?
    };
    if is_at(chars, end, '?') {
        Ok((dtype.nullable(), end + 1))
    } else {
        Ok((dtype, end))
    }
}

/// The dtype of lists whose bracket stands here, and where it ends.
#[cycle(reading)]
fn list_at(
    alloc: Global,
    chars: &[char],
    at: usize,
    levels: u32,
) -> Result<(DType, usize), ConditionFault> {
    let (element, end) = type_at(alloc, chars, at.saturating_add(1), levels)?;
    let end = skip_spaces(chars, end);
    if !is_at(chars, end, ']') {
        return Err(ConditionFault::new(at, Cause::Open));
    }
    match DType::list(alloc, element, Nullability::NonNullable) {
        Ok(dtype) => Ok((dtype, end + 1)),
        Err(DTypeFault::Deep) => Err(ConditionFault::new(at, Cause::Deep)),
        Err(DTypeFault::NoMemory) => Err(ConditionFault::new(at, Cause::NoMemory)),
    }
}

/// The dtype of structs whose brace stands here, and where it ends.
#[cycle(reading)]
fn struct_at(
    alloc: Global,
    chars: &[char],
    at: usize,
    levels: u32,
) -> Result<(DType, usize), ConditionFault> {
    let (fields, end) = fields_at(alloc, chars, at.saturating_add(1), levels)?;
    if !is_at(chars, end, '}') {
        return Err(ConditionFault::new(at, Cause::Open));
    }
    Ok((struct_of(alloc, fields, at)?, end + 1))
}

/// The fields that stand here, with a comma between them, and where they end.
#[cycle(reading)]
fn fields_at(
    alloc: Global,
    chars: &[char],
    at: usize,
    levels: u32,
) -> Result<(Vec<(FieldName, DType)>, usize), ConditionFault> {
    let mut fields = Vec::new(alloc);
    let mut end = skip_spaces(chars, at);
    if end >= chars.len() || is_at(chars, end, '}') {
        return Ok((fields, end));
    }
    for _ in 0..chars.len() {
        let (field, next) = field_at(alloc, chars, end, levels)?;
        fields.push(field)?;
        end = skip_spaces(chars, next);
        if !is_at(chars, end, ',') {
            return Ok((fields, end));
        }
        end += 1;
    }
    Err(ConditionFault::new(end, Cause::NoType))
}

/// The field that stands here, a name and a dtype with a colon between them, and where it ends.
#[cycle(reading)]
fn field_at(
    alloc: Global,
    chars: &[char],
    at: usize,
    levels: u32,
) -> Result<((FieldName, DType), usize), ConditionFault> {
    let (name, end) = name_at(alloc, chars, skip_spaces(chars, at))?;
    let end = skip_spaces(chars, end);
    if !is_at(chars, end, ':') {
        return Err(ConditionFault::new(end, Cause::Colon));
    }
    let (dtype, end) = type_at(alloc, chars, end + 1, levels)?;
    Ok(((name, dtype), end))
}

/// The dtype of structs of these fields.
fn struct_of(
    alloc: Global,
    fields: Vec<(FieldName, DType)>,
    at: usize,
) -> Result<DType, ConditionFault> {
    let mut names = Vec::with_capacity(alloc, fields.len())?;
    let mut dtypes = Vec::with_capacity(alloc, fields.len())?;
    for (name, dtype) in fields {
        names.push(name)?;
        dtypes.push(dtype)?;
    }
    let fields = StructFields::new(names, dtypes);
    match DType::struct_(fields, Nullability::NonNullable) {
        Ok(dtype) => match dtype.names_fault(alloc)? {
            None => Ok(dtype),
            Some(_) => Err(ConditionFault::new(at, Cause::Name)),
        },
        Err(_) => Err(ConditionFault::new(at, Cause::Deep)),
    }
}

/// Whether the text begins with a field: a name and a colon.
fn begins_with_field(alloc: Global, chars: &[char]) -> bool {
    match name_at(alloc, chars, skip_spaces(chars, 0)) {
        Ok((_, end)) => is_at(chars, skip_spaces(chars, end), ':'),
        Err(_) => false,
    }
}

/// The dtype that a text says. The outermost braces may lack, as in `id: i64, name: utf8?`.
///
/// # Errors
/// The first character at which the text is no dtype, and why; and `NoMemory`.
pub fn read_dtype(alloc: Global, text: &str) -> Result<DType, ConditionFault> {
    let chars: Vec<char> = text.chars().collect(alloc)?;
    let (dtype, end) = if begins_with_field(alloc, &chars) {
        let (fields, end) = fields_at(alloc, &chars, 0, MOST_LEVELS)?;
        (struct_of(alloc, fields, 0)?, end)
    } else {
        type_at(alloc, &chars, 0, MOST_LEVELS)?
    };
    let end = skip_spaces(&chars, end);
    if end < chars.len() {
        return Err(ConditionFault::new(end, Cause::NoOperator));
    }
    Ok(dtype)
}

fn ptype_name(p: PType) -> &'static str {
    match p {
        PType::U8 => "u8",
        PType::U16 => "u16",
        PType::U32 => "u32",
        PType::U64 => "u64",
        PType::I8 => "i8",
        PType::I16 => "i16",
        PType::I32 => "i32",
        PType::I64 => "i64",
    }
}

/// Whether a name needs no quotes.
fn is_plain_name(name: &str) -> bool {
    match name.chars().next() {
        Some(c) => !c.is_numeric() && name.chars().all(|c| c.is_alphanumeric() || c == '_'),
        None => false,
    }
}

/// Appends a name, in double quotes where it is no word.
fn push_name(name: &str, out: &mut String) -> Result<(), NoMemory> {
    if is_plain_name(name) {
        out.push_str(name)?;
        return Ok(());
    }
    out.push('"')?;
    for c in name.chars() {
        if c == '"' {
            out.push(c)?;
        }
        out.push(c)?;
    }
    out.push('"')?;
    Ok(())
}

/// Appends a dtype of no more than so many levels.
#[cycle(writing)]
fn push_type(dtype: &DType, levels: u32, out: &mut String) -> Result<(), NoMemory> {
    if levels == 0 {
        return Ok(());
    }
    match dtype.kind() {
        DTypeKind::Bool => out.push_str("bool")?,
        DTypeKind::Utf8 => out.push_str("utf8")?,
        DTypeKind::Primitive(p) => out.push_str(ptype_name(p))?,
        DTypeKind::List => push_list(dtype, levels - 1, out)?,
        DTypeKind::Struct => push_struct(dtype, levels - 1, out)?,
    }
    if dtype.is_nullable() {
        out.push('?')?;
    }
    Ok(())
}

#[cycle(writing)]
fn push_list(dtype: &DType, levels: u32, out: &mut String) -> Result<(), NoMemory> {
    out.push('[')?;
    if let Some(element) = dtype.as_list_element_opt() {
        push_type(element, levels, out)?;
    }
    out.push(']')?;
    Ok(())
}

#[cycle(writing)]
fn push_struct(dtype: &DType, levels: u32, out: &mut String) -> Result<(), NoMemory> {
    out.push('{')?;
    if let Some(fields) = dtype.as_struct_fields_opt() {
        push_fields(fields, levels, out)?;
    }
    out.push('}')?;
    Ok(())
}

#[cycle(writing)]
fn push_fields(fields: &StructFields, levels: u32, out: &mut String) -> Result<(), NoMemory> {
    for (i, name) in fields.names().iter().enumerate() {
        if i > 0 {
            out.push_str(", ")?;
        }
        push_name(name.as_str(), out)?;
        out.push_str(": ")?;
        if let Some(dtype) = fields.field_by_index(i) {
            push_type(dtype, levels, out)?;
        }
    }
    Ok(())
}

/// A dtype as `read_dtype` reads it.
pub fn dtype_text(alloc: Global, dtype: &DType) -> Result<String, NoMemory> {
    let mut text = String::new(alloc);
    push_type(dtype, MOST_LEVELS, &mut text)?;
    Ok(text)
}
