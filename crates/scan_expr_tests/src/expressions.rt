//! What binds over which dtype, what it gives on rows and on arrays, and copies.
ghost use Rattle.std.specs.Prelude.{◌≡◌, IfOk};
ghost use Rattle.scan_expr.specs.Bound.{bound_of};
ghost use Rattle.scan_partition.specs.Partable.{IsPartable};

use crate::lines::{Told, hold, shown, sides};
use crate::words::{dtype, expression, taken, values};
use scan_expr::{ApplyFault, BindFault, BoundExpression, Expression, ScanRequest};
use scan_values::{Array, DType, Value};
use std::alloc::Global;
use std::process::Abort;

/// An expression over a dtype.
pub(crate) fn over(
    alloc: Global,
    expr: &Expression,
    dtype: &DType,
) -> Result<BoundExpression, BindFault>
    ensures is { IfOk result (λ b. b ≡ bound_of dtype.now expr.now) }
    ensures partable { IfOk result (λ b. IsPartable b) }
{
    let bound = expr.bind(alloc, dtype)?;
    Ok(bound)
}

/// The expression of `SCOPE | EXPRESSION`.
pub(crate) fn bound_in(rt: &impl Abort, alloc: Global, case: &str) -> BoundExpression
    ensures { IsPartable result }
{
    let (scope, words) = sides(rt, case, " | ");
    let scope = dtype(rt, alloc, scope);
    let expr = expression(rt, alloc, words);
    over(alloc, &expr, &scope).expect(rt, "over")
}

/// The dtype of `SCOPE | EXPRESSION`, or why it does not bind.
fn bind_told(rt: &impl Abort, alloc: Global, case: &str) -> String {
    let (scope, words) = sides(rt, case, " | ");
    let scope = dtype(rt, alloc, scope);
    match expression(rt, alloc, words).bind(alloc, &scope) {
        Ok(bound) => {
            let dtype = bound.dtype();
            format!(in alloc; "{dtype}").expect(rt, "format")
        }
        Err(fault) => format!(in alloc; "{fault:?}").expect(rt, "format"),
    }
}

fn value_told(rt: &impl Abort, alloc: Global, found: Result<Value, ApplyFault>) -> String {
    match found {
        Ok(value) => format!(in alloc; "{value}").expect(rt, "format"),
        Err(fault) => format!(in alloc; "{fault:?}").expect(rt, "format"),
    }
}

/// What an expression gives in the row of number 7, where it is lent, and the same where it is given away.
fn on_row(rt: &impl Abort, alloc: Global, e: &BoundExpression, row: Value) -> String {
    let lent = value_told(rt, alloc, e.value_at(alloc, &row, 7));
    let given = value_told(rt, alloc, e.value_of(alloc, row, 7));
    assert!(rt; lent.as_str() == given.as_str(), "{given}, not {lent}");
    lent
}

/// What an expression gives on an array.
fn on_array(
    rt: &impl Abort,
    alloc: Global,
    e: &Expression,
    rows: &Array,
) -> Result<String, BindFault> {
    let bound = over(alloc, e, rows.dtype())?;
    if bound.uses_row_idx() {
        panic!(rt; "row numbers");
    }
    match bound.apply(alloc, rows) {
        Ok(found) => Ok(shown(rt, alloc, found.as_slice())),
        Err(fault) => Ok(format!(in alloc; "{fault:?}").expect(rt, "format")),
    }
}

/// Calls on expressions.
#[derive(Clone, Copy)]
enum On {
    /// `SCOPE | EXPRESSION -> DTYPE`, or a fault.
    Bind,
    /// `SCOPE | EXPRESSION -> EXPRESSIONS`: its conjuncts, from left to right.
    Conjuncts,
    /// `SCOPE | EXPRESSION @ ROW -> VALUE`, or `Overflow`.
    Row,
    /// `SCOPE | EXPRESSION @ ROWS -> VALUES`, or `Overflow`.
    Array,
}

impl Told for On {
    fn told(&self, rt: &impl Abort, alloc: Global, case: &str) -> String {
        match self {
            On::Bind => bind_told(rt, alloc, case),
            On::Conjuncts => {
                let conjuncts = bound_in(rt, alloc, case).conjuncts(alloc);
                shown(rt, alloc, conjuncts.expect(rt, "conjuncts").as_slice())
            }
            On::Row => {
                let (case, row) = sides(rt, case, " @ ");
                let e = bound_in(rt, alloc, case);
                on_row(rt, alloc, &e, taken(rt, &mut values(rt, alloc, row)))
            }
            On::Array => {
                let (case, rows) = sides(rt, case, " @ ");
                let (scope, words) = sides(rt, case, " | ");
                let e = expression(rt, alloc, words);
                let rows = Array::try_new(dtype(rt, alloc, scope), values(rt, alloc, rows));
                on_array(rt, alloc, &e, &rows.expect(rt, "try_new")).expect(rt, "on_array")
            }
        }
    }
}

#[test]
fn binding_gives_a_dtype_or_the_first_fault(rt: HostRuntime) {
    let alloc = rt.alloc();
    hold(
        &rt,
        alloc,
        &On::Bind,
        "i32 i32 struct:a,b | $ get:a -> i32
i32 i32 struct:a,b ? | $ get:a -> i32?
i8 struct:a | $ get:a i8:1 + -> i8
i8 struct:a | i8:1 $ get:a + -> i8
i8 ? struct:a | i8:1 $ get:a + -> i8?
i32 i32 struct:a,b | $ get:z -> NoField
i32 i32 struct:a,b | $ get:a get:b -> NotStruct
i32 i32 struct:a,b | $ select:a,a -> RepeatedName
i32 i32 struct:a,b | $ exclude:z -> NoField
i32 i32 struct:a,b | $ get:a length -> NotList
i32 i32 struct:a,b | $ get:a i64:1 = -> Operands
i32 i32 struct:a,b | u8:300 -> Literal
i32 i32 struct:a,b | $ get:a $ get:b pack:#validity,y -> ReservedName
i8 struct:a | $ get:a u8:1 + -> Operands",
    );
    hold(
        &rt,
        alloc,
        &On::Conjuncts,
        "i32 ? | $ is_null $ is_not_null and $ i32:1 = and -> is_null($), is_not_null($), ($ == 1 as i32)",
    );
}

#[test]
fn operators_give_null_or_a_value_and_sums_overflow(rt: HostRuntime) {
    let alloc = rt.alloc();
    hold(
        &rt,
        alloc,
        &On::Row,
        "i32 ? | # @ null -> 7
i32 ? | # @ 1 -> 7",
    );
    for on in [On::Row, On::Array] {
        hold(
            &rt,
            alloc,
            &on,
            "i32 ? | $ @ null -> null
i32 ? | $ @ 1 -> 1
i32 ? | i32:1 @ null -> 1
i32 ? | i32:1 @ 1 -> 1
i32 ? | $ is_null @ null -> true
i32 ? | $ is_null @ 1 -> false
i32 ? | $ is_not_null @ null -> false
i32 ? | $ is_not_null @ 1 -> true
i32 ? | i32:2 $ is_not_null mask @ null -> null
i32 ? | i32:2 $ is_not_null mask @ 1 -> 2
i32 ? | $ i32:1 = @ null -> null
i32 ? | $ i32:1 = @ 1 -> true
i32 ? | $ i32:1 != @ null -> null
i32 ? | $ i32:1 != @ 1 -> false
i32 ? | $ i32:1 < @ null -> null
i32 ? | $ i32:1 < @ 1 -> false
i32 ? | $ i32:1 <= @ null -> null
i32 ? | $ i32:1 <= @ 1 -> true
i32 ? | $ i32:1 > @ null -> null
i32 ? | $ i32:1 > @ 1 -> false
i32 ? | $ i32:1 >= @ null -> null
i32 ? | $ i32:1 >= @ 1 -> true
i32 i32 struct:a,b | $ get:a $ get:b + @ 1 10 struct:2 -> 11
i32 i32 struct:a,b | $ get:a $ get:b + @ 2 20 struct:2 -> 22
i32 i32 struct:a,b | $ get:a $ get:b + @ 3 30 struct:2 -> 33
i8 ? struct:a | $ get:a $ get:a + @ 27 struct:1 -> 54
i8 ? struct:a | $ get:a $ get:a + @ 63 struct:1 -> 126
i8 ? struct:a | $ get:a $ get:a + @ 64 struct:1 -> Overflow
i8 ? struct:a | $ get:a $ get:a + @ 100 struct:1 -> Overflow
i8 ? struct:a | $ get:a $ get:a + @ -64 struct:1 -> -128
i8 ? struct:a | $ get:a $ get:a + @ -65 struct:1 -> Overflow
i8 ? struct:a | $ get:a $ get:a + @ null struct:1 -> null
i8 ? struct:a | $ get:a i8:100 - @ 100 struct:1 -> 0
i8 ? struct:a | $ get:a i8:100 - @ 27 struct:1 -> -73
i8 ? struct:a | $ get:a i8:100 - @ -29 struct:1 -> Overflow
i8 ? struct:a | $ get:a i8:0 >= $ get:a $ get:a + i8:0 > or @ 100 struct:1 -> Overflow
i8 ? struct:a | $ get:a i8:0 >= $ get:a $ get:a + i8:0 > or @ 27 struct:1 -> true",
        );
    }
    hold(
        &rt,
        alloc,
        &On::Array,
        "i32 ? | $ is_null not @ null 1 -> false, true
i8 ? struct:a | $ get:a $ get:a + @ null struct:1 27 struct:1 -> null, 54
i8 ? struct:a | $ get:a $ get:a + @ 63 struct:1 -64 struct:1 -> 126, -128
i8 ? struct:a | $ get:a $ get:a + @ 27 struct:1 100 struct:1 -> Overflow",
    );
}

// ---- copies
/// The field a of the rows 1 to 2 where it is null, at most 3.
fn request(rt: &impl Abort, alloc: Global) -> ScanRequest {
    let mut request = ScanRequest::new(expression(rt, alloc, "$ get:a"));
    request.filter = Some(expression(rt, alloc, "$ is_null"));
    request.row_range = Some(1..2);
    request.limit = Some(3);
    request
}

#[test]
fn copies_are_shown_alike_and_equal(rt: HostRuntime) {
    let alloc = rt.alloc();
    let copy = request(&rt, alloc)
        .try_clone(alloc)
        .expect(&rt, "try_clone");
    let (projection, filter) = (&copy.projection, &copy.filter);
    let text = format!(in alloc; "{projection} where {filter:?}").expect(&rt, "format");
    assert_eq!(rt; text.as_str(), "$.a where Some(is_null($))");
    assert_eq!(rt; copy.row_range, Some(1..2));
    assert_eq!(rt; copy.limit, Some(3));
    assert!(rt; copy.ordered);
    let e = expression(&rt, alloc, "i32:5 $ get:b pack:x,y");
    let copy = e.try_clone(alloc).expect(&rt, "try_clone");
    let text = format!(in alloc; "{copy}").expect(&rt, "format");
    assert_eq!(rt; text.as_str(), "pack(x: 5 as i32, y: $.b)");
}

#[test]
fn copies_of_bound_expressions_are_equal(rt: HostRuntime) {
    let alloc = rt.alloc();
    let bound = bound_in(&rt, alloc, "i32 ? | $ i32:1 <");
    let copy = bound.try_clone(alloc).expect(&rt, "try_clone");
    assert!(rt; copy == bound);
    assert_eq!(rt; copy.children().len(), 2);
    let root = BoundExpression::new_root(alloc, DType::boolean()).expect(&rt, "new_root");
    assert!(rt; root.is_root());
}
