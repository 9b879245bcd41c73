// The constructors of expressions that take parts, after the crate's `vortex_array::expr`.
use crate::expression::Expression;
use crate::op::{Binary, Unary};
use scan_values::{DType, FieldName, Names, NoMemory, Nullability, PType, Text, Value};
use std::alloc::Global;
use std::string::String;

impl Expression {
    ghost use Rattle.std.specs.Prelude.{◌≡◌, IfOk};
    ghost use Rattle.scan_expr.specs.Expr.{unary, binary};

    /// A field of a struct.
    pub fn get_item(alloc: Global, name: FieldName, e: Expression) -> Result<Expression, NoMemory>
        ensures { IfOk result (λ x. x ≡ unary (Unary.GetItem name) e) }
    {
        Expression::unary(alloc, Unary::GetItem(name), e)
    }

    /// The struct of these fields, in the order written.
    pub fn select(
        alloc: Global,
        names: Vec<FieldName>,
        e: Expression,
    ) -> Result<Expression, NoMemory>
        ensures { IfOk result (λ x. x ≡ unary (Unary.Select names.items) e) }
    {
        Expression::unary(alloc, Unary::Select(Names::new(names)), e)
    }

    /// The struct of all other fields.
    pub fn select_exclude(
        alloc: Global,
        names: Vec<FieldName>,
        e: Expression,
    ) -> Result<Expression, NoMemory>
        ensures { IfOk result (λ x. x ≡ unary (Unary.Exclude names.items) e) }
    {
        Expression::unary(alloc, Unary::Exclude(Names::new(names)), e)
    }

    /// The value of `e` where `m` is true, else Null.
    pub fn mask(alloc: Global, e: Expression, m: Expression) -> Result<Expression, NoMemory>
        ensures { IfOk result (λ x. x ≡ binary Binary.Mask e m) }
    {
        Expression::binary(alloc, Binary::Mask, e, m)
    }

    /// The contrary of a Bool.
    pub fn not(alloc: Global, e: Expression) -> Result<Expression, NoMemory>
        ensures { IfOk result (λ x. x ≡ unary Unary.Not e) }
    {
        Expression::unary(alloc, Unary::Not, e)
    }

    /// Whether the value is Null.
    pub fn is_null(alloc: Global, e: Expression) -> Result<Expression, NoMemory>
        ensures { IfOk result (λ x. x ≡ unary Unary.IsNull e) }
    {
        Expression::unary(alloc, Unary::IsNull, e)
    }

    /// Whether the value is not Null.
    pub fn is_not_null(alloc: Global, e: Expression) -> Result<Expression, NoMemory>
        ensures { IfOk result (λ x. x ≡ unary Unary.IsNotNull e) }
    {
        Expression::unary(alloc, Unary::IsNotNull, e)
    }

    /// The number of a list's elements.
    pub fn list_length(alloc: Global, e: Expression) -> Result<Expression, NoMemory>
        ensures { IfOk result (λ x. x ≡ unary Unary.ListLength e) }
    {
        Expression::unary(alloc, Unary::ListLength, e)
    }

    /// Both, by three truth values.
    pub fn and(alloc: Global, a: Expression, b: Expression) -> Result<Expression, NoMemory>
        ensures { IfOk result (λ x. x ≡ binary Binary.And a b) }
    {
        Expression::binary(alloc, Binary::And, a, b)
    }

    /// Either, by three truth values.
    pub fn or(alloc: Global, a: Expression, b: Expression) -> Result<Expression, NoMemory>
        ensures { IfOk result (λ x. x ≡ binary Binary.Or a b) }
    {
        Expression::binary(alloc, Binary::Or, a, b)
    }

    /// Whether the two are equal.
    pub fn eq(alloc: Global, a: Expression, b: Expression) -> Result<Expression, NoMemory>
        ensures { IfOk result (λ x. x ≡ binary Binary.Equal a b) }
    {
        Expression::binary(alloc, Binary::Equal, a, b)
    }

    /// Whether the two differ.
    pub fn not_eq(alloc: Global, a: Expression, b: Expression) -> Result<Expression, NoMemory>
        ensures { IfOk result (λ x. x ≡ binary Binary.NotEqual a b) }
    {
        Expression::binary(alloc, Binary::NotEqual, a, b)
    }

    /// Whether the first is below the second.
    pub fn lt(alloc: Global, a: Expression, b: Expression) -> Result<Expression, NoMemory>
        ensures { IfOk result (λ x. x ≡ binary Binary.Less a b) }
    {
        Expression::binary(alloc, Binary::Less, a, b)
    }

    /// Whether the first is not above the second.
    pub fn lt_eq(alloc: Global, a: Expression, b: Expression) -> Result<Expression, NoMemory>
        ensures { IfOk result (λ x. x ≡ binary Binary.LessOrEqual a b) }
    {
        Expression::binary(alloc, Binary::LessOrEqual, a, b)
    }

    /// Whether the first is above the second.
    pub fn gt(alloc: Global, a: Expression, b: Expression) -> Result<Expression, NoMemory>
        ensures { IfOk result (λ x. x ≡ binary Binary.Greater a b) }
    {
        Expression::binary(alloc, Binary::Greater, a, b)
    }

    /// Whether the first is not below the second.
    pub fn gt_eq(alloc: Global, a: Expression, b: Expression) -> Result<Expression, NoMemory>
        ensures { IfOk result (λ x. x ≡ binary Binary.GreaterOrEqual a b) }
    {
        Expression::binary(alloc, Binary::GreaterOrEqual, a, b)
    }

    /// The sum of two integers of one type; a row where it is none of that type has no value.
    pub fn checked_add(alloc: Global, a: Expression, b: Expression) -> Result<Expression, NoMemory>
        ensures { IfOk result (λ x. x ≡ binary Binary.CheckedAdd a b) }
    {
        Expression::binary(alloc, Binary::CheckedAdd, a, b)
    }

    /// The difference of two integers of one type; a row where it is none of that type has no value.
    pub fn checked_sub(alloc: Global, a: Expression, b: Expression) -> Result<Expression, NoMemory>
        ensures { IfOk result (λ x. x ≡ binary Binary.CheckedSub a b) }
    {
        Expression::binary(alloc, Binary::CheckedSub, a, b)
    }
}

/// Short forms of what requests are mostly made of.
impl Expression {
    ghost use Rattle.std.specs.Prelude.{◌≡◌, IfOk};
    ghost use Rattle.scan_values.specs.DataType.{bool_type, int_type, utf8_type};
    ghost use Rattle.scan_values.specs.Val.{bool_val, int_val, text_val};
    ghost use Rattle.scan_expr.specs.Expr.{root, literal, unary};

    /// The column of this name, `$.name`.
    pub fn col(alloc: Global, name: &str) -> Result<Expression, NoMemory>
        ensures { IfOk result (λ x. x ≡ unary (Unary.GetItem name.now) root) }
    {
        let name = FieldName::new(String::from_str(alloc, name)?);
        Expression::get_item(alloc, name, Expression::root())
    }

    /// A literal of an integer type. One outside the type does not bind.
    pub fn lit_int(p: PType, v: i128) -> Expression
        ensures { result ≡ literal (int_type p Nullability.NonNullable) (int_val v) }
    {
        let dtype = DType::primitive(p, Nullability::NonNullable);
        Expression::lit(dtype, Value::Int(v))
    }

    /// A literal truth value.
    pub fn lit_bool(b: bool) -> Expression
        ensures { result ≡ literal (bool_type Nullability.NonNullable) (bool_val b) }
    {
        let dtype = DType::bool(Nullability::NonNullable);
        Expression::lit(dtype, Value::Bool(b))
    }

    /// A literal text.
    pub fn lit_utf8(alloc: Global, text: &str) -> Result<Expression, NoMemory>
        ensures { IfOk result (λ x. x ≡ literal (utf8_type Nullability.NonNullable) (text_val text.now)) }
    {
        let text = Text::new(String::from_str(alloc, text)?);
        let dtype = DType::utf8(Nullability::NonNullable);
        Ok(Expression::lit(dtype, Value::Text(text)))
    }
}
