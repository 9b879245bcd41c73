//! Columns from and to arrays, their rows, and expressions over them. A column is said as `DTYPE @ VALUES`, each dtype
//! with two values and a null between them; lists and structs have a null within them too.
use crate::lines::{Told, hold, shown, sides};
use crate::words::{array, expression, mask, taken, values};
use scan_columns::Column;
use scan_expr::ApplyFault;
use scan_values::Mask;
use std::alloc::Global;
use std::process::Abort;

pub(crate) fn column(rt: &impl Abort, alloc: Global, case: &str) -> Column {
    Column::from_array(alloc, array(rt, alloc, case)).expect(rt, "from_array")
}

/// The values of a column, or why there are none.
pub(crate) fn column_told(
    rt: &impl Abort,
    alloc: Global,
    found: Result<Column, ApplyFault>,
) -> String {
    match found {
        Ok(column) => {
            let array = column.to_array(alloc).expect(rt, "to_array");
            shown(rt, alloc, array.as_slice())
        }
        Err(fault) => format!(in alloc; "{fault:?}").expect(rt, "format"),
    }
}

// ---- rows
/// The rows from one on.
fn rows_from(rt: &impl Abort, alloc: Global, column: &Column, start: usize) -> Column {
    let end = column.len();
    if end < start {
        panic!(rt; "another length");
    }
    column.slice(alloc, start..end).expect(rt, "slice")
}

/// A column, and then another.
fn appended(rt: &impl Abort, alloc: Global, column: Column, other: Column) -> Column {
    if *column.dtype() != *other.dtype() {
        panic!(rt; "another dtype");
    }
    column.append(alloc, other).expect(rt, "append")
}

/// A value, as often as a column has values.
fn filled(rt: &impl Abort, alloc: Global, column: &Column, text: &str) -> Column {
    let value = taken(rt, &mut values(rt, alloc, text));
    let dtype = column.shared_dtype().clone().expect(rt, "clone");
    if !value.fits(&dtype) {
        panic!(rt; "another dtype");
    }
    Column::constant(dtype, value, column.len())
}

fn step(rt: &impl Abort, alloc: Global, column: Column, step: &str) -> Column {
    let (what, text) = sides(rt, step, ":");
    match what {
        "from" => rows_from(
            rt,
            alloc,
            &column,
            text.parse::<usize>().expect(rt, "parse"),
        ),
        "fill" => filled(rt, alloc, &column, text),
        "copy" => column.try_clone(alloc).expect(rt, "try_clone"),
        "then" => {
            let other = rows_from(
                rt,
                alloc,
                &column,
                text.parse::<usize>().expect(rt, "parse"),
            );
            appended(rt, alloc, column, other)
        }
        _ => picked(rt, alloc, &column, what, &mask(rt, alloc, text)),
    }
}

/// The values at which a mask is true, or all, null where it is false.
fn picked(rt: &impl Abort, alloc: Global, column: &Column, what: &str, mask: &Mask) -> Column {
    if mask.len() != column.len() {
        panic!(rt; "another length");
    }
    match what {
        "mask" => column.mask(alloc, mask).expect(rt, "mask"),
        "filter" => column.filter(alloc, mask).expect(rt, "filter"),
        _ => panic!(rt; "no step"),
    }
}

/// What is made of a column in steps: `filter:110 mask:10 from:1 fill:5 copy:`; with `then:1` its rows from one on follow it.
pub(crate) fn stepped(rt: &impl Abort, alloc: Global, column: Column, steps: &str) -> Column {
    let mut made = column;
    for word in steps.split_whitespace() {
        made = step(rt, alloc, made, word);
    }
    made
}

// ---- expressions
/// How an expression is evaluated.
#[derive(Clone, Copy)]
pub(crate) enum How {
    Lent,
    Owned,
    Mask,
}

/// What an expression gives on a column; as a mask, where it is true.
pub(crate) fn evaluated(
    rt: &impl Abort,
    alloc: Global,
    how: How,
    column: Column,
    words: &str,
) -> String {
    let e = expression(rt, alloc, words);
    let bound = e.bind(alloc, column.dtype()).expect(rt, "bind");
    if *column.dtype() != *bound.scope() {
        panic!(rt; "another scope");
    }
    if bound.uses_row_idx() {
        panic!(rt; "row numbers");
    }
    match how {
        How::Lent => column_told(rt, alloc, column.evaluate(alloc, &bound)),
        How::Owned => column_told(rt, alloc, column.evaluate_owned(alloc, &bound)),
        How::Mask => mask_told(rt, alloc, column.evaluate_mask(alloc, &bound)),
    }
}

fn mask_told(rt: &impl Abort, alloc: Global, found: Result<Mask, ApplyFault>) -> String {
    match found {
        Ok(mask) => shown(rt, alloc, mask.as_slice()),
        Err(fault) => format!(in alloc; "{fault:?}").expect(rt, "format"),
    }
}

/// Calls on columns.
#[derive(Clone, Copy)]
enum On {
    /// `DTYPE @ VALUES | STEPS -> VALUES`.
    Steps,
    /// `DTYPE @ VALUES -> TRUTHS`: where a column is null.
    Nulls,
    /// `DTYPE @ VALUES | EXPRESSION -> VALUES`, or `Overflow`.
    Values(How),
}

impl Told for On {
    fn told(&self, rt: &impl Abort, alloc: Global, case: &str) -> String {
        match self {
            On::Steps => {
                let (rows, steps) = sides(rt, case, " | ");
                column_told(
                    rt,
                    alloc,
                    Ok(stepped(rt, alloc, column(rt, alloc, rows), steps)),
                )
            }
            On::Nulls => {
                let nulls = column(rt, alloc, case).nulls(alloc).expect(rt, "nulls");
                shown(rt, alloc, nulls.as_slice())
            }
            On::Values(how) => {
                let (rows, words) = sides(rt, case, " | ");
                evaluated(rt, alloc, *how, column(rt, alloc, rows), words)
            }
        }
    }
}

#[test]
fn rows_of_a_column_are_kept_masked_cut_filled_and_appended(rt: HostRuntime) {
    let alloc = rt.alloc();
    hold(
        &rt,
        alloc,
        &On::Steps,
        "i8 ? @ 27 null 100 | copy: -> 27, null, 100
bool ? @ true null false | copy: -> true, null, false
text ? @ text:x null text:yz | copy: -> \"x\", null, \"yz\"
i8 ? list ? @ 27 null list:2 null 100 null list:2 | copy: -> [27, null], null, [100, null]
i8 ? i8 ? struct:x,y ? @ 27 null struct:2 null 100 null struct:2 | copy: -> {27, null}, null, {100, null}
i8 ? @ 27 null 100 | filter:110 -> 27, null
bool ? @ true null false | filter:110 -> true, null
text ? @ text:x null text:yz | filter:110 -> \"x\", null
i8 ? list ? @ 27 null list:2 null 100 null list:2 | filter:110 -> [27, null], null
i8 ? i8 ? struct:x,y ? @ 27 null struct:2 null 100 null struct:2 | filter:110 -> {27, null}, null
i8 ? @ 27 null 100 | mask:110 from:1 -> null, null
bool ? @ true null false | mask:110 from:1 -> null, null
text ? @ text:x null text:yz | mask:110 from:1 -> null, null
i8 ? list ? @ 27 null list:2 null 100 null list:2 | mask:110 from:1 -> null, null
i8 ? i8 ? struct:x,y ? @ 27 null struct:2 null 100 null struct:2 | mask:110 from:1 -> null, null
i8 ? @ 27 null 100 | then:0 -> 27, null, 100, 27, null, 100
bool ? @ true null false | then:0 -> true, null, false, true, null, false
text ? @ text:x null text:yz | then:0 -> \"x\", null, \"yz\", \"x\", null, \"yz\"
i8 ? list ? @ 1 null list:2 null 3 list:1 | then:0 -> [1, null], null, [3], [1, null], null, [3]
i8 ? i8 ? struct:x,y ? @ 27 null struct:2 null | then:0 -> {27, null}, null, {27, null}, null
i8 ? @ 27 null | fill:5 -> 5, 5",
    );
    hold(
        &rt,
        alloc,
        &On::Nulls,
        "i8 ? @ 27 null 100 -> false, true, false
bool ? @ true null false -> false, true, false
text ? @ text:x null text:yz -> false, true, false
i8 ? list ? @ 27 null list:2 null 100 null list:2 -> false, true, false
i8 ? i8 ? struct:x,y ? @ 27 null struct:2 null 100 null struct:2 -> false, true, false",
    );
}

#[test]
fn expressions_are_true_on_rows_of_a_column_and_null_on_null(rt: HostRuntime) {
    let alloc = rt.alloc();
    hold(
        &rt,
        alloc,
        &On::Values(How::Mask),
        "i8 ? @ 27 null 100 | $ i8:27 >= -> true, false, true
i8 ? @ 27 null 100 | $ is_null -> false, true, false
i8 ? @ 27 null 100 | $ $ + i8:0 > -> Overflow
text ? @ text:x null text:yz | $ text:x = -> true, false, false
text ? @ text:x null text:yz | $ text:x != -> false, false, true
text ? @ text:x null text:yz | $ text:y < -> true, false, false
text ? @ text:x null text:yz | $ text:yz <= -> true, false, true
text ? @ text:x null text:yz | $ text: > -> true, false, true
text ? @ text:x null text:yz | $ text:yzz >= -> false, false, false
text ? @ text:x null text:yz | $ $ = -> true, false, true
text ? @ text:x null text:yz | $ $ < -> false, false, false",
    );
    for how in [How::Lent, How::Owned] {
        hold(
            &rt,
            alloc,
            &On::Values(how),
            "i8 ? @ 27 null 100 | $ i8:100 - -> -73, null, 0
text ? @ text:x null text:yz | $ text:y < -> true, null, false",
        );
    }
}
