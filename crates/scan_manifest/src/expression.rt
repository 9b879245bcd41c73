//! Expressions, read from JSON.
ghost use Rattle.std.specs.Prelude.{◌≡◌, ◌∷◌, ◌*◌, ◌+◌, IfOk, length, zip, option_map, option_and_then, Some, None, codes};
ghost use Rattle.serde_json.specs.View.{view, items_view, members_view};
ghost use Rattle.serde_json.specs.Find.{get, as_str, as_array, as_number, as_integer};
ghost use Rattle.scan_values.specs.Val.{int_val};
ghost use Rattle.scan_values.specs.Values.{val_of};
ghost use Rattle.scan_expr.specs.Expr.{unary, binary, root, row_index};
ghost use Rattle.scan_manifest.specs.Parse.{IsParse, IsParseBy};
ghost use Rattle.scan_manifest.specs.Json.{each, list_in};
ghost use Rattle.scan_manifest.specs.Exprs.{unary_named, binary_named, operator_in, value_in, literal_in, part_in, parts_from, pack_in, only_member, only_in, by_operator, by_binary, by_unary, operation_in, pack_or, node_in, leaf_named, expr_within, expr_in};

use crate::dtype::{MOST_LEVELS, read_dtype, read_nullability};
use crate::json::{Form, ParseFault, has_form, member, read_items, read_pair, read_text};
use scan_expr::{Binary, Expression, Unary};
use scan_values::{FieldName, Names, NoMemory, Text, Value as Constant};
use serde_json::{Map, Value};
use std::alloc::Global;

fn unary_named(key: &str) -> Option<Unary>
    ensures { result ≡ unary_named key.now }
{
    match key {
        "not" => Some(Unary::Not),
        "is_null" => Some(Unary::IsNull),
        "is_not_null" => Some(Unary::IsNotNull),
        "list_length" => Some(Unary::ListLength),
        _ => None,
    }
}

fn binary_named(key: &str) -> Option<Binary>
    ensures { result ≡ binary_named key.now }
{
    match key {
        "mask" => Some(Binary::Mask),
        "and" => Some(Binary::And),
        "or" => Some(Binary::Or),
        "eq" => Some(Binary::Equal),
        "ne" => Some(Binary::NotEqual),
        "lt" => Some(Binary::Less),
        "le" => Some(Binary::LessOrEqual),
        "gt" => Some(Binary::Greater),
        "ge" => Some(Binary::GreaterOrEqual),
        "add" => Some(Binary::CheckedAdd),
        "sub" => Some(Binary::CheckedSub),
        _ => None,
    }
}

fn make_unary(alloc: Global, op: Unary, e: Expression) -> Result<Expression, NoMemory>
    ensures { IfOk result (λ x. x ≡ unary op e) }
{
    match op {
        Unary::GetItem(name) => Expression::get_item(alloc, name, e),
        Unary::Select(names) => Expression::select(alloc, names.into_vec(), e),
        Unary::Exclude(names) => Expression::select_exclude(alloc, names.into_vec(), e),
        Unary::Not => Expression::not(alloc, e),
        Unary::IsNull => Expression::is_null(alloc, e),
        Unary::IsNotNull => Expression::is_not_null(alloc, e),
        Unary::ListLength => Expression::list_length(alloc, e),
    }
}

fn make_binary(
    alloc: Global,
    op: Binary,
    a: Expression,
    b: Expression,
) -> Result<Expression, NoMemory>
    ensures { IfOk result (λ x. x ≡ binary op a b) }
{
    match op {
        Binary::Mask => Expression::mask(alloc, a, b),
        Binary::And => Expression::and(alloc, a, b),
        Binary::Or => Expression::or(alloc, a, b),
        Binary::Equal => Expression::eq(alloc, a, b),
        Binary::NotEqual => Expression::not_eq(alloc, a, b),
        Binary::Less => Expression::lt(alloc, a, b),
        Binary::LessOrEqual => Expression::lt_eq(alloc, a, b),
        Binary::Greater => Expression::gt(alloc, a, b),
        Binary::GreaterOrEqual => Expression::gt_eq(alloc, a, b),
        Binary::CheckedAdd => Expression::checked_add(alloc, a, b),
        Binary::CheckedSub => Expression::checked_sub(alloc, a, b),
    }
}

fn read_name(alloc: Global, json: &Value) -> Result<FieldName, ParseFault>
    ensures { IsParse (as_str (view json.now)) result }
{
    let text = read_text(json)?;
    Ok(FieldName::new(String::from_str(alloc, text)?))
}

fn read_name_list(alloc: Global, list: &[Value]) -> Result<Vec<FieldName>, ParseFault>
    ensures { IsParseBy (λ v. v.items) (each as_str (items_view list.now)) result }
{
    let mut names = Vec::new(alloc);
    for json in list {
        names.push(read_name(alloc, json)?)?;
    }
    Ok(names)
}

fn read_names(alloc: Global, json: &Value) -> Result<Names, ParseFault>
    ensures { IsParse (list_in as_str (view json.now)) result }
{
    Ok(Names::new(read_name_list(alloc, read_items(json)?)?))
}

fn read_operator(alloc: Global, key: &str, json: &Value) -> Result<Unary, ParseFault>
    ensures { IsParse (operator_in key.now (view json.now)) result }
{
    match key {
        "get" => Ok(Unary::GetItem(read_name(alloc, json)?)),
        "select" => Ok(Unary::Select(read_names(alloc, json)?)),
        "exclude" => Ok(Unary::Exclude(read_names(alloc, json)?)),
        _ => Err(ParseFault::Bad),
    }
}

fn read_integer(json: &Value) -> Result<Constant, ParseFault>
    ensures { IsParseBy val_of (option_map int_val (option_and_then as_integer (as_number (view json.now)))) result }
{
    if let Some(n) = json.as_u64() {
        return Ok(Constant::Int(n as i128));
    }
    match json.as_i64() {
        Some(n) => Ok(Constant::Int(n as i128)),
        None => Err(ParseFault::Bad),
    }
}

/// The value of a literal.
fn read_constant(alloc: Global, json: &Value) -> Result<Constant, ParseFault>
    ensures { IsParseBy val_of (value_in (view json.now)) result }
{
    match json {
        Value::Null => Ok(Constant::Null),
        Value::Bool(b) => Ok(Constant::Bool(*b)),
        Value::Number(_) => read_integer(json),
        Value::String(text) => {
            let text = String::from_str(alloc, text.as_str())?;
            Ok(Constant::Text(Text::new(text)))
        }
        Value::Array(_) => Err(ParseFault::Bad),
        Value::Object(_) => Err(ParseFault::Bad),
    }
}

fn read_literal(alloc: Global, json: &Value, value: &Value) -> Result<Expression, ParseFault>
    ensures { IsParse (literal_in (view json.now) (view value.now)) result }
{
    if !has_form(Form::Literal, json) {
        return Err(ParseFault::Bad);
    }
    let value = read_constant(alloc, value)?;
    let dtype = read_dtype(alloc, member(json, "type")?)?;
    Ok(Expression::lit(dtype, value))
}

fn only_entry(map: &Map<String, Value>) -> Option<(&str, &Value)>
    ensures { option_map (λ p. (p.0.now, view p.1.now)) result ≡ only_member (members_view map.now.entries) }
{
    if map.len() != 1 {
        return None;
    }
    match map.first_key_value() {
        Some((key, value)) => Some((key.as_str(), value)),
        None => None,
    }
}

/// The key and the value of an object with one member.
fn read_only(json: &Value) -> Result<(&str, &Value), ParseFault>
    ensures { IsParseBy (λ p. (p.0.now, view p.1.now)) (only_in (view json.now)) result }
{
    let Some(map) = json.as_object() else {
        return Err(ParseFault::Bad);
    };
    match only_entry(map) {
        Some(entry) => Ok(entry),
        None => Err(ParseFault::Bad),
    }
}

fn leaf_named(text: &str) -> Option<Expression>
    ensures { result ≡ leaf_named text.now }
{
    match text {
        "$" => Some(Expression::root()),
        "#row_idx" => Some(Expression::row_idx()),
        _ => None,
    }
}

/// An expression that nests no deeper than so many levels.
#[cycle(exprs)]
fn read_expr_within(alloc: Global, json: &Value, levels: u32) -> Result<Expression, ParseFault>
    ensures { IsParse (expr_within levels (view json.now)) result }
{
    if levels == 0 {
        return Err(ParseFault::Bad);
    }
    match json.as_str() {
        Some(text) => match leaf_named(text) {
            Some(e) => Ok(e),
            None => Err(ParseFault::Bad),
        },
        None => read_node(alloc, json, levels - 1),
    }
}

#[cycle(exprs)]
fn read_node(alloc: Global, json: &Value, levels: u32) -> Result<Expression, ParseFault>
    ensures { IsParse (node_in (expr_within levels) (view json.now) (get (codes "lit") (view json.now))) result }
{
    match json.get("lit") {
        Some(value) => read_literal(alloc, json, value),
        None => read_pack_or(alloc, json, levels),
    }
}

#[cycle(exprs)]
fn read_pack_or(alloc: Global, json: &Value, levels: u32) -> Result<Expression, ParseFault>
    ensures { IsParse (pack_or (expr_within levels) (view json.now) (get (codes "pack") (view json.now))) result }
{
    match json.get("pack") {
        Some(parts) => read_pack(alloc, json, parts, levels),
        None => read_operation(alloc, json, levels),
    }
}

#[cycle(exprs)]
fn read_pack(
    alloc: Global,
    json: &Value,
    parts: &Value,
    levels: u32,
) -> Result<Expression, ParseFault>
    ensures { IsParse (pack_in (expr_within levels) (view json.now) (view parts.now)) result }
{
    if !has_form(Form::Pack, json) {
        return Err(ParseFault::Bad);
    }
    let (names, parts) = read_parts(alloc, read_items(parts)?, levels)?;
    let n = read_nullability(json)?;
    Ok(Expression::pack(names, parts, n))
}

#[cycle(exprs)]
fn read_parts(
    alloc: Global,
    list: &[Value],
    levels: u32,
) -> Result<(Vec<FieldName>, Vec<Expression>), ParseFault>
    ensures lengths { IfOk result (λ p. length p.1.items ≡ length p.0.items) }
    ensures parts { IsParseBy (λ p. zip p.0.items p.1.items) (each (part_in (expr_within levels)) (items_view list.now)) result }
{
    let mut names = Vec::new(alloc);
    let mut parts = Vec::new(alloc);
    for json in list {
        let (name, part) = read_part(alloc, json, levels)?;
        names.push(name)?;
        parts.push(part)?;
    }
    Ok((names, parts))
}

#[cycle(exprs)]
fn read_part(
    alloc: Global,
    json: &Value,
    levels: u32,
) -> Result<(FieldName, Expression), ParseFault>
    ensures { IsParse (part_in (expr_within levels) (view json.now)) result }
{
    let (name, e) = read_pair(json)?;
    let name = read_name(alloc, name)?;
    let e = read_expr_within(alloc, e, levels)?;
    Ok((name, e))
}

#[cycle(exprs)]
fn read_operation(alloc: Global, json: &Value, levels: u32) -> Result<Expression, ParseFault>
    ensures { IsParse (operation_in (expr_within levels) (view json.now)) result }
{
    let (key, value) = read_only(json)?;
    match unary_named(key) {
        Some(op) => {
            let e = read_expr_within(alloc, value, levels)?;
            Ok(make_unary(alloc, op, e)?)
        }
        None => read_binary_or(alloc, key, value, levels),
    }
}

#[cycle(exprs)]
fn read_binary_or(
    alloc: Global,
    key: &str,
    value: &Value,
    levels: u32,
) -> Result<Expression, ParseFault>
    ensures { IsParse (by_binary (expr_within levels) key.now (view value.now) (binary_named key.now)) result }
{
    match binary_named(key) {
        Some(op) => {
            let (a, b) = read_pair(value)?;
            let a = read_expr_within(alloc, a, levels)?;
            let b = read_expr_within(alloc, b, levels)?;
            Ok(make_binary(alloc, op, a, b)?)
        }
        None => read_applied(alloc, key, value, levels),
    }
}

#[cycle(exprs)]
fn read_applied(
    alloc: Global,
    key: &str,
    value: &Value,
    levels: u32,
) -> Result<Expression, ParseFault>
    ensures { IsParse (by_operator (expr_within levels) key.now (view value.now)) result }
{
    let (operand, e) = read_pair(value)?;
    let op = read_operator(alloc, key, operand)?;
    let e = read_expr_within(alloc, e, levels)?;
    Ok(make_unary(alloc, op, e)?)
}

/// An expression.
pub(crate) fn read_expr(alloc: Global, json: &Value) -> Result<Expression, ParseFault>
    ensures { IsParse (expr_in (view json.now)) result }
{
    read_expr_within(alloc, json, MOST_LEVELS)
}

/// The expression that a JSON value says; none exactly where it says no expression.
///
/// # Errors
///
/// `NoMemory`.
pub fn read_expression(alloc: Global, json: &Value) -> Result<Option<Expression>, NoMemory>
    ensures { IfOk result (λ e. e ≡ expr_in (view json.now)) }
{
    match read_expr(alloc, json) {
        Ok(e) => Ok(Some(e)),
        Err(ParseFault::Bad) => Ok(None),
        Err(ParseFault::NoMemory) => Err(NoMemory),
    }
}
