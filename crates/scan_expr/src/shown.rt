//! Expressions as a person reads them: `($.v >= 5 as i32)`, `pack(id: $.id, n: list_length($.l))`.
ghost use Rattle.std.specs.Prelude.{◌≡◌, ◌++◌, true, codes, length, map};
ghost use Rattle.std.specs.Fmt.{WritesOnOk};
ghost use Rattle.scan_values.specs.Values.{val_of};
ghost use Rattle.scan_expr.specs.Expr.{literal, unary, binary, pack, parts_of};
ghost use Rattle.scan_values.specs.Shown.{comma};
ghost use Rattle.scan_expr.specs.Shown.{shown_names, shown_expr, shown_part, shown_parts};
ghost use Rattle.scan_expr.specs.Shown.{unary_front, unary_back, binary_front, binary_middle};

use crate::bound::BoundExpression;
use crate::expression::Expression;
use crate::op::{Binary, Unary};
use crate::tree::{Top, Tree};
use scan_values::shown::comma;
use scan_values::{DType, FieldName, Names, Nullability, Value};
use std::fmt::{self, Debug, Display, Formatter, Write};

impl Display for Expression {
    ghost use Rattle.std.specs.Prelude.{Some};

    ghost output = { λ e. Some (shown_expr e) };

    fn fmt<W: Write>(&self, f: &mut Formatter<W>) -> fmt::Result {
        show_tree(self, f)
    }
}

impl Debug for Expression {
    ghost use Rattle.std.specs.Prelude.{Some};

    ghost debug_output = { λ e. Some (shown_expr e) };

    fn fmt<W: Write>(&self, f: &mut Formatter<W>) -> fmt::Result {
        show_tree(self, f)
    }
}

impl Display for BoundExpression {
    ghost use Rattle.std.specs.Prelude.{Some};

    ghost output = { λ b. Some (shown_expr b.expr) };

    fn fmt<W: Write>(&self, f: &mut Formatter<W>) -> fmt::Result {
        show_tree(self, f)
    }
}

impl Debug for BoundExpression {
    ghost use Rattle.std.specs.Prelude.{Some};

    ghost debug_output = { λ b. Some (shown_expr b.expr) };

    fn fmt<W: Write>(&self, f: &mut Formatter<W>) -> fmt::Result {
        show_tree(self, f)
    }
}

fn show_names<W: Write>(names: &[FieldName], f: &mut Formatter<W>) -> fmt::Result
    ensures { WritesOnOk W.write_str_gives f.old result (shown_names true names.now) f.new }
{
    for (i, name) in names.iter().enumerate() {
        show_name(i == 0, name, f)?;
    }
    Ok(())
}

fn show_name<W: Write>(is_first: bool, name: &FieldName, f: &mut Formatter<W>) -> fmt::Result
    ensures { WritesOnOk W.write_str_gives f.old result (comma is_first ++ name.now) f.new }
{
    f.write_str(comma(is_first))?;
    f.write_str(name.as_str())
}

/// What stands before the part of an operator on one expression.
fn front_of(op: &Unary) -> &'static str
    ensures { result.now ≡ unary_front op.now }
{
    match op {
        Unary::GetItem(_) => "",
        Unary::Select(_) => "select(",
        Unary::Exclude(_) => "exclude(",
        Unary::Not => "not(",
        Unary::IsNull => "is_null(",
        Unary::IsNotNull => "is_not_null(",
        Unary::ListLength => "list_length(",
    }
}

/// What stands behind it.
fn show_back<W: Write>(op: &Unary, f: &mut Formatter<W>) -> fmt::Result
    ensures { WritesOnOk W.write_str_gives f.old result (unary_back op.now) f.new }
{
    match op {
        Unary::GetItem(name) => show_get(name, f),
        Unary::Select(names) => show_choice(names, f),
        Unary::Exclude(names) => show_choice(names, f),
        Unary::Not => f.write_str(")"),
        Unary::IsNull => f.write_str(")"),
        Unary::IsNotNull => f.write_str(")"),
        Unary::ListLength => f.write_str(")"),
    }
}

fn show_get<W: Write>(name: &FieldName, f: &mut Formatter<W>) -> fmt::Result
    ensures { WritesOnOk W.write_str_gives f.old result (codes "." ++ name.now) f.new }
{
    f.write_str(".")?;
    f.write_str(name.as_str())
}

fn show_choice<W: Write>(names: &Names, f: &mut Formatter<W>) -> fmt::Result
    ensures { WritesOnOk W.write_str_gives f.old result
        (codes ", {" ++ (shown_names true names.now ++ codes "})")) f.new }
{
    f.write_str(", {")?;
    show_names(names.as_slice(), f)?;
    f.write_str("})")
}

/// What stands before the first part of an operator on two.
fn first_of(op: Binary) -> &'static str
    ensures { result.now ≡ binary_front op }
{
    match op {
        Binary::Mask => "mask(",
        _ => "(",
    }
}

/// What stands between them.
fn between(op: Binary) -> &'static str
    ensures { result.now ≡ binary_middle op }
{
    match op {
        Binary::Mask => ", ",
        Binary::And => " and ",
        Binary::Or => " or ",
        Binary::Equal => " == ",
        Binary::NotEqual => " != ",
        Binary::Less => " < ",
        Binary::LessOrEqual => " <= ",
        Binary::Greater => " > ",
        Binary::GreaterOrEqual => " >= ",
        Binary::CheckedAdd => " + ",
        Binary::CheckedSub => " - ",
    }
}

fn show_literal<W: Write>(dtype: &DType, value: &Value, f: &mut Formatter<W>) -> fmt::Result
    ensures { WritesOnOk W.write_str_gives f.old result (shown_expr (literal dtype.now (val_of value.now))) f.new }
{
    write!(f, "{value} as {dtype}")
}

#[cycle(show)]
fn show_tree<T: Tree, W: Write>(tree: &T, f: &mut Formatter<W>) -> fmt::Result
    ensures { WritesOnOk W.write_str_gives f.old result (shown_expr (T.expr tree.now)) f.new }
{
    match tree.top() {
        Top::Root => f.write_str("$"),
        Top::RowIdx => f.write_str("#row_idx"),
        Top::Literal(dtype, value) => show_literal(dtype, value, f),
        Top::Unary(op, e) => show_unary(op, e, f),
        Top::Binary(op, a, b) => show_binary(op, a, b, f),
        Top::Pack(names, parts, n) => show_pack(names, parts, n, f),
    }
}

#[cycle(show)]
fn show_unary<T: Tree, W: Write>(op: &Unary, e: &T, f: &mut Formatter<W>) -> fmt::Result
    ensures { WritesOnOk W.write_str_gives f.old result (shown_expr (unary op.now (T.expr e.now))) f.new }
{
    f.write_str(front_of(op))?;
    show_tree(e, f)?;
    show_back(op, f)
}

#[cycle(show)]
fn show_binary<T: Tree, W: Write>(op: Binary, a: &T, b: &T, f: &mut Formatter<W>) -> fmt::Result
    ensures { WritesOnOk W.write_str_gives f.old result (shown_expr (binary op (T.expr a.now) (T.expr b.now))) f.new }
{
    f.write_str(first_of(op))?;
    show_tree(a, f)?;
    f.write_str(between(op))?;
    show_tree(b, f)?;
    f.write_str(")")
}

#[cycle(show)]
fn show_pack<T: Tree, W: Write>(
    names: &[FieldName],
    parts: &[T],
    n: Nullability,
    f: &mut Formatter<W>,
) -> fmt::Result
    requires { length parts.now ≡ length names.now }
    ensures { WritesOnOk W.write_str_gives f.old result
        (shown_expr (pack (parts_of names.now (map T.expr parts.now)) n)) f.new }
{
    f.write_str("pack(")?;
    show_parts(names, parts, f)?;
    write!(f, "){n}")
}

#[cycle(show)]
fn show_parts<T: Tree, W: Write>(
    names: &[FieldName],
    parts: &[T],
    f: &mut Formatter<W>,
) -> fmt::Result
    requires { length parts.now ≡ length names.now }
    ensures { WritesOnOk W.write_str_gives f.old result
        (shown_parts true (parts_of names.now (map T.expr parts.now))) f.new }
{
    for (i, part) in parts.iter().enumerate() {
        show_part(i == 0, &names[i], part, f)?;
    }
    Ok(())
}

#[cycle(show)]
fn show_part<T: Tree, W: Write>(
    is_first: bool,
    name: &FieldName,
    part: &T,
    f: &mut Formatter<W>,
) -> fmt::Result
    ensures { WritesOnOk W.write_str_gives f.old result (shown_part is_first name.now (T.expr part.now)) f.new }
{
    f.write_str(comma(is_first))?;
    f.write_str(name.as_str())?;
    f.write_str(": ")?;
    show_tree(part, f)
}
