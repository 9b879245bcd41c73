//! A table of nine rows with nulls at each level, as columns and as values, and what expressions give over it.
ghost use Rattle.std.specs.Prelude.{◌≡◌, true, map, List};
ghost use Rattle.scan_values.specs.Arrays.{ArrayData};
ghost use Rattle.scan_columns.specs.Joined.{AreAsLong, IsScopeOf};

use crate::columns::{How, column, column_told, evaluated, stepped};
use crate::lines::{Told, hold};
use crate::words::{expression, names};
use scan_columns::Column;
use scan_expr::{ApplyFault, Expression};
use scan_values::{DType, Nullability, StructFields};
use std::alloc::Global;
use std::process::Abort;

const ROWS: usize = 9;

// The columns a, b, p, q and l.
const COLUMNS: &str = "i8 ? @ 1 2 3 -5 100 null null 7 0
i8 ? @ 2 2 null 4 27 null 5 -7 0
bool ? @ true true true false false false null null null
bool ? @ true false null true false null true false null
i8 ? list ? @ null 1 list:2 null list:0 null list:1 null null 1 2 list:3 list:0 null list:1 null";

const TABLE: &str = "i8 ? i8 ? bool ? bool ? i8 ? list ? struct:a,b,p,q,l @ \
     1 2 true true null 1 list:2 struct:5 \
     2 2 true false null struct:5 \
     3 null true null list:0 struct:5 \
     -5 4 false true null list:1 struct:5 \
     100 27 false false null struct:5 \
     null null false null null 1 2 list:3 struct:5 \
     null 5 null true list:0 struct:5 \
     7 -7 null false null list:1 struct:5 \
     0 0 null null null struct:5";

fn columns(rt: &impl Abort, alloc: Global) -> Vec<Column> {
    let mut made = Vec::new(alloc);
    for case in COLUMNS.lines() {
        made.push(column(rt, alloc, case)).expect(rt, "push");
    }
    made
}

fn dtypes_of(rt: &impl Abort, alloc: Global, columns: &[Column]) -> Vec<DType>
    ensures { result.items ≡ map (λ (a : ArrayData). a.dtype) columns.now }
{
    let mut made = Vec::new(alloc);
    for column in columns {
        made.push(column.dtype().try_clone(alloc).expect(rt, "try_clone"))
            .expect(rt, "push");
    }
    made
}

/// The struct of the columns' dtypes.
fn scope_of(rt: &impl Abort, alloc: Global, columns: &[Column]) -> DType
    ensures { IsScopeOf columns.now result }
{
    let names = names(rt, alloc, "a,b,p,q,l");
    let dtypes = dtypes_of(rt, alloc, columns);
    if names.len() != dtypes.len() {
        panic!(rt; "another count");
    }
    DType::struct_(StructFields::new(names, dtypes), Nullability::NonNullable).expect(rt, "struct_")
}

fn are_long(columns: &[Column], len: usize) -> bool
    ensures { result ≡ true → AreAsLong len columns.now }
{
    for column in columns {
        if column.len() != len {
            return false;
        }
    }
    true
}

/// An expression over the columns, typed as they are, kept as a column.
fn over_columns(rt: &impl Abort, alloc: Global, e: &Expression) -> Result<Column, ApplyFault> {
    let parts = columns(rt, alloc);
    let scope = scope_of(rt, alloc, &parts);
    let root = e.bind(alloc, &scope).expect(rt, "bind");
    if !are_long(&parts, ROWS) {
        panic!(rt; "another length");
    }
    Column::evaluate_over(alloc, &root, parts, ROWS)
}

/// The table, kept as its columns.
fn kept(rt: &impl Abort, alloc: Global) -> Column {
    over_columns(rt, alloc, &Expression::root()).expect(rt, "over_columns")
}

/// Where an expression is evaluated, or what is made of the table in steps.
#[derive(Clone, Copy)]
enum On {
    /// `EXPRESSION -> VALUES` over the columns.
    Columns,
    /// `EXPRESSION -> VALUES` over structs.
    Structs(How),
    /// `EXPRESSION -> VALUES` over structs that are kept as columns.
    Kept,
    /// `STEPS -> VALUES` of those.
    Steps,
}

impl Told for On {
    fn told(&self, rt: &impl Abort, alloc: Global, case: &str) -> String {
        match self {
            On::Columns => {
                let e = expression(rt, alloc, case);
                column_told(rt, alloc, over_columns(rt, alloc, &e))
            }
            On::Structs(how) => evaluated(rt, alloc, *how, column(rt, alloc, TABLE), case),
            On::Kept => evaluated(rt, alloc, How::Lent, kept(rt, alloc), case),
            On::Steps => column_told(rt, alloc, Ok(stepped(rt, alloc, kept(rt, alloc), case))),
        }
    }
}

#[test]
fn operators_over_columns_and_over_structs(rt: HostRuntime) {
    for on in [On::Columns, On::Structs(How::Owned)] {
        hold(
            &rt,
            rt.alloc(),
            &on,
            "$ get:p -> true, true, true, false, false, false, null, null, null
$ get:p not -> false, false, false, true, true, true, null, null, null
$ get:a is_null -> false, false, false, false, false, true, true, false, false
$ get:a is_not_null -> true, true, true, true, true, false, false, true, true
$ is_null -> false, false, false, false, false, false, false, false, false
$ get:p $ get:q is_not_null mask -> true, true, null, false, false, null, null, null, null
$ select:q,a $ get:p is_not_null mask is_null -> false, false, false, false, false, false, true, true, true
$ get:p $ get:q and -> true, false, null, false, false, false, null, false, null
true $ get:p and -> true, true, true, false, false, false, null, null, null
$ get:p $ get:q or -> true, true, true, true, false, null, true, null, null
$ get:p false or -> true, true, true, false, false, false, null, null, null
$ get:p $ get:q = -> true, false, null, false, true, null, null, null, null
$ get:p $ get:q < -> false, false, null, true, false, null, null, null, null
$ get:p true = -> true, true, true, false, false, false, null, null, null
$ get:a $ get:b < -> true, false, null, true, false, null, null, false, false
$ get:a $ get:b = -> false, true, null, false, false, null, null, false, true
$ get:a $ get:b >= -> false, true, null, false, true, null, null, true, true
$ get:a $ get:b <= -> true, true, null, true, false, null, null, false, true
$ get:a $ get:b > -> false, false, null, false, true, null, null, true, false
$ get:a $ get:b != -> true, false, null, true, true, null, null, true, false
$ get:a i8:2 >= -> false, true, true, false, true, null, null, true, false
i8:2 $ get:a <= -> false, true, true, false, true, null, null, true, false
$ get:a -> 1, 2, 3, -5, 100, null, null, 7, 0
i8:5 -> 5, 5, 5, 5, 5, 5, 5, 5, 5
$ get:a $ get:b + -> 3, 4, null, -1, 127, null, null, 0, 0
$ get:a $ get:b - -> -1, 0, null, -9, 73, null, null, 14, 0
$ get:a i8:27 + -> 28, 29, 30, 22, 127, null, null, 34, 27
i8:100 $ get:a - -> 99, 98, 97, 105, 0, null, null, 93, 100
$ get:a $ get:p is_not_null mask -> 1, 2, 3, -5, 100, null, null, null, null
$ get:l length -> 2, null, 0, 1, null, 3, 0, 1, null
$ get:p not $ get:a $ get:b + pack:l,a get:a -> 3, 4, null, -1, 127, null, null, 0, 0
$ select:q,a get:a -> 1, 2, 3, -5, 100, null, null, 7, 0
$ exclude:b,l get:a -> 1, 2, 3, -5, 100, null, null, 7, 0
$ select:q,a $ get:p is_not_null mask get:a -> 1, 2, 3, -5, 100, null, null, null, null
$ get:a $ get:b $ get:a pack:l,p,q -> {1, 2, 1}, {2, 2, 2}, {3, null, 3}, {-5, 4, -5}, {100, 27, 100}, {null, null, null}, {null, 5, null}, {7, -7, 7}, {0, 0, 0}
$ get:a i8:27 + -> 28, 29, 30, 22, 127, null, null, 34, 27
$ get:a i8:28 + -> Overflow
$ get:a i8:123 - -> -122, -121, -120, -128, -23, null, null, -116, -123
$ get:a i8:124 - -> Overflow
$ get:a i8:-123 + -> -122, -121, -120, -128, -23, null, null, -116, -123
$ get:a i8:-124 + -> Overflow
$ get:a i8:28 + is_null -> Overflow
$ get:a i8:28 + i8:0 > -> Overflow
i8:0 $ get:a i8:28 + > -> Overflow
$ get:a i8:28 + false mask -> Overflow
$ get:a i8:28 + pack:a -> Overflow",
        );
    }
}

#[test]
fn structs_over_columns_have_their_fields_places_and_rows(rt: HostRuntime) {
    let alloc = rt.alloc();
    hold(
        &rt,
        alloc,
        &On::Kept,
        "$ get:a -> 1, 2, 3, -5, 100, null, null, 7, 0
$ get:a $ get:b + -> 3, 4, null, -1, 127, null, null, 0, 0
$ get:a $ get:p is_not_null mask -> 1, 2, 3, -5, 100, null, null, null, null
$ get:l length -> 2, null, 0, 1, null, 3, 0, 1, null
$ select:q,a get:a -> 1, 2, 3, -5, 100, null, null, 7, 0
$ $ get:p is_not_null mask get:a -> 1, 2, 3, -5, 100, null, null, null, null",
    );
    hold(
        &rt,
        alloc,
        &On::Columns,
        "# -> 0, 1, 2, 3, 4, 5, 6, 7, 8
# -> 0, 1, 2, 3, 4, 5, 6, 7, 8",
    );
    hold(
        &rt,
        alloc,
        &On::Steps,
        "copy: -> {1, 2, true, true, [null, 1]}, {2, 2, true, false, null}, {3, null, true, null, []}, {-5, 4, false, true, [null]}, {100, 27, false, false, null}, {null, null, false, null, [null, 1, 2]}, {null, 5, null, true, []}, {7, -7, null, false, [null]}, {0, 0, null, null, null}
then:0 -> {1, 2, true, true, [null, 1]}, {2, 2, true, false, null}, {3, null, true, null, []}, {-5, 4, false, true, [null]}, {100, 27, false, false, null}, {null, null, false, null, [null, 1, 2]}, {null, 5, null, true, []}, {7, -7, null, false, [null]}, {0, 0, null, null, null}, {1, 2, true, true, [null, 1]}, {2, 2, true, false, null}, {3, null, true, null, []}, {-5, 4, false, true, [null]}, {100, 27, false, false, null}, {null, null, false, null, [null, 1, 2]}, {null, 5, null, true, []}, {7, -7, null, false, [null]}, {0, 0, null, null, null}",
    );
}
