//! Conditions, read over a dtype.
ghost use Rattle.std.specs.Prelude.{◌≡◌, IfOk, None, Some};
ghost use Rattle.scan_expr.specs.Typing.{filter_fault};
ghost use Rattle.scan_conditions.specs.Written.{IsCondition};

use crate::fault::{ConditionFault, cause_of};
use crate::lexer::parts_of;
use crate::reader::read_parts;
use scan_expr::{BindFault, Expression};
use scan_values::DType;
use std::alloc::Global;

/// Binds a filter over a dtype, which has to be Bool.
fn bind_test(alloc: Global, rows: &DType, filter: &Expression) -> Result<(), BindFault>
    ensures { IfOk result (λ _. filter_fault rows.now (Some filter.now) ≡ None) }
{
    let bound = filter.bind(alloc, rows)?;
    if !bound.dtype().is_bool() {
        return Err(BindFault::NotBool);
    }
    Ok(())
}

/// The condition that a text says of rows of a dtype: operators between operands, as in `a >= 5 and is_not_null(b.c)`.
///
/// An operand is a field, as `a`, `b.c` or `"two words".c`; the number of the row, `#row_idx`; a text in single quotes,
/// `true`, `false`, or a whole number; `is_null(x)`, `is_not_null(x)`, `list_length(x)`; or a condition in parentheses. A
/// quote within quotes stands twice. `+` and `-` bind closest, then `=`, `!=`, `<`, `<=`, `>`, `>=`, then `not`, `and`
/// and `or`; operators that bind as closely are taken from the left, and what binds less closely than what it stands in,
/// as `a = not b`, stands in parentheses. A number has the type of the other side.
///
/// # Errors
/// A place at which the text shows that it is no condition, and why: what is no part of a text, a part that can't stand
/// there, more than 64 levels of parentheses, functions and `not`, and what does not bind. `NoMemory`.
pub fn read_condition(alloc: Global, text: &str, rows: &DType) -> Result<Expression, ConditionFault>
    ensures says { IfOk result (λ e. IsCondition rows.now text.now e) }
    ensures binds { IfOk result (λ e. filter_fault rows.now (Some e) ≡ None) }
{
    let parts = parts_of(alloc, text)?;
    let expression = read_parts(alloc, rows, parts.as_slice())?;
    match bind_test(alloc, rows, &expression) {
        Ok(_) => Ok(expression),
        Err(fault) => Err(ConditionFault::new(0, cause_of(fault))),
    }
}
