//! The fields that a scan asks for.
ghost use Rattle.std.specs.Prelude.{◌≡◌, length};

use crate::rows::{int, name};
use scan_core::referenced_field_masks;
use scan_expr::{BoundExpression, Expression};
use scan_values::{DType, FieldMask, FieldName, Nullability, StructFields, Value};
use std::alloc::Global;
use std::process::Abort;
use std::string::String;

/// The struct of the numbers `x` and `y`.
fn inner(rt: &impl Abort, alloc: Global) -> DType {
    let mut pairs = Vec::new(alloc);
    pairs.push(("x", int())).expect(rt, "push");
    pairs.push(("y", int())).expect(rt, "push");
    let fields = StructFields::from_pairs(alloc, pairs).expect(rt, "from_pairs");
    DType::struct_(fields, Nullability::Nullable).expect(rt, "struct_")
}

/// The struct of the struct `a` and the numbers `b` and `c`.
fn outer(rt: &impl Abort, alloc: Global) -> DType {
    let mut pairs = Vec::new(alloc);
    pairs.push(("a", inner(rt, alloc))).expect(rt, "push");
    pairs.push(("b", int())).expect(rt, "push");
    pairs.push(("c", int())).expect(rt, "push");
    let fields = StructFields::from_pairs(alloc, pairs).expect(rt, "from_pairs");
    DType::struct_(fields, Nullability::NonNullable).expect(rt, "struct_")
}

/// `e.text`.
fn field(rt: &impl Abort, alloc: Global, text: &str, e: Expression) -> Expression {
    let name = name(rt, alloc, text);
    Expression::get_item(alloc, name, e).expect(rt, "get_item")
}

/// These two names.
fn two(rt: &impl Abort, alloc: Global, first: &str, second: &str) -> Vec<FieldName>
    ensures { length result.items ≡ 2 }
{
    let mut names = Vec::new(alloc);
    names.push(name(rt, alloc, first)).expect(rt, "push");
    names.push(name(rt, alloc, second)).expect(rt, "push");
    names
}

/// These two expressions.
fn both(rt: &impl Abort, alloc: Global, first: Expression, second: Expression) -> Vec<Expression>
    ensures { length result.items ≡ 2 }
{
    let mut parts = Vec::new(alloc);
    parts.push(first).expect(rt, "push");
    parts.push(second).expect(rt, "push");
    parts
}

/// `$.text`.
fn of_root(rt: &impl Abort, alloc: Global, text: &str) -> Expression {
    field(rt, alloc, text, Expression::root())
}

/// `select(["y", "x"], $.a)`.
fn chosen(rt: &impl Abort, alloc: Global) -> Expression {
    let names = two(rt, alloc, "y", "x");
    Expression::select(alloc, names, of_root(rt, alloc, "a")).expect(rt, "select")
}

/// `$` without `a` and `c`.
fn not_excluded(rt: &impl Abort, alloc: Global) -> Expression {
    let names = two(rt, alloc, "a", "c");
    Expression::select_exclude(alloc, names, Expression::root()).expect(rt, "select_exclude")
}

/// `$.c`, and the same of `select(["b", "c"], $)`.
fn twice(rt: &impl Abort, alloc: Global) -> Expression {
    let names = two(rt, alloc, "b", "c");
    let second = Expression::select(alloc, names, Expression::root()).expect(rt, "select");
    let second = field(rt, alloc, "c", second);
    Expression::eq(alloc, of_root(rt, alloc, "c"), second).expect(rt, "eq")
}

/// The struct of `$` as `x` and of `$.a` as `y`.
fn packed(rt: &impl Abort, alloc: Global) -> Expression {
    let names = two(rt, alloc, "x", "y");
    let parts = both(rt, alloc, Expression::root(), of_root(rt, alloc, "a"));
    Expression::pack(names, parts, Nullability::Nullable)
}

/// `e.x`, of the struct `e` of `$.b` as `x` and of 1 as `y`.
fn of_a_pack(rt: &impl Abort, alloc: Global) -> Expression {
    let names = two(rt, alloc, "x", "y");
    let one = Expression::lit(int(), Value::Int(1));
    let parts = both(rt, alloc, of_root(rt, alloc, "b"), one);
    field(
        rt,
        alloc,
        "x",
        Expression::pack(names, parts, Nullability::NonNullable),
    )
}

/// `$.b = 1`.
fn b_is_one(rt: &impl Abort, alloc: Global) -> Expression {
    let one = Expression::lit(int(), Value::Int(1));
    Expression::eq(alloc, of_root(rt, alloc, "b"), one).expect(rt, "eq")
}

/// What is projected or filtered by.
fn expression(rt: &impl Abort, alloc: Global, case: &str) -> Expression {
    match case {
        "all" => Expression::root(),
        "one" => Expression::lit(int(), Value::Int(1)),
        "field" => of_root(rt, alloc, "a"),
        "inner" => field(rt, alloc, "y", of_root(rt, alloc, "a")),
        "tested" => Expression::is_null(alloc, of_root(rt, alloc, "a")).expect(rt, "is_null"),
        "chosen" => chosen(rt, alloc),
        "not excluded" => not_excluded(rt, alloc),
        "twice" => twice(rt, alloc),
        "packed" => packed(rt, alloc),
        "of a pack" => of_a_pack(rt, alloc),
        "b is one" => b_is_one(rt, alloc),
        _ => panic!(rt; "no expression"),
    }
}

fn bound(rt: &impl Abort, alloc: Global, case: &str) -> BoundExpression {
    let dtype = outer(rt, alloc);
    expression(rt, alloc, case)
        .bind(alloc, &dtype)
        .expect(rt, "bind")
}

/// Masks as texts, `$` for all.
fn spelled(rt: &impl Abort, alloc: Global, masks: &[FieldMask]) -> String {
    let mut text = String::new(alloc);
    for mask in masks {
        text.push('$').expect(rt, "push");
        if let FieldMask::Prefix(path) = mask {
            for name in path.names() {
                text.push('.').expect(rt, "push");
                text.push_str(name.as_str()).expect(rt, "push_str");
            }
        }
    }
    text
}

/// The masks of a projection, and of the filter of a case where it has one: `not excluded where twice`.
fn told(rt: &impl Abort, alloc: Global, case: &str) -> String {
    let Some((projection, filter)) = case.split_once(" where ") else {
        let masks = referenced_field_masks(alloc, &bound(rt, alloc, case), None).expect(
            rt,
            "referenced_field_masks",
        );
        return spelled(rt, alloc, &masks);
    };
    let projection = bound(rt, alloc, projection);
    let filter = bound(rt, alloc, filter);
    let masks = referenced_field_masks(alloc, &projection, Some(&filter)).expect(
        rt,
        "referenced_field_masks",
    );
    spelled(rt, alloc, &masks)
}

// A filter adds what is new.
#[test]
fn masks_are_the_paths_of_what_is_used(rt: HostRuntime) {
    let alloc = rt.alloc();
    for (case, wanted) in [
        ("all", "$"),
        ("one", ""),
        ("inner", "$.a.y"),
        ("chosen", "$.a.y$.a.x"),
        ("not excluded", "$.b"),
        ("tested", "$.a"),
        ("twice", "$.c$.b"),
        ("packed", "$$.a"),
        ("of a pack", "$.b"),
        ("field where b is one", "$.a$.b"),
        ("not excluded where twice", "$.b$.c"),
    ] {
        assert_eq!(rt; told(&rt, alloc, case).as_str(), wanted);
    }
}
