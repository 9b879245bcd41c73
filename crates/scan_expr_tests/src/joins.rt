//! Parts that are joined: those of a masked field, of a sum, and row numbers beside a child.
ghost use Rattle.std.specs.Prelude.{◌≡◌, IfOk, length};
ghost use Rattle.scan_expr.specs.Infer.{infer};

use crate::expressions::bound_in;
use crate::lines::{Told, hold, shown, sides};
use crate::parts::{expanded, parted};
use crate::words::values;
use scan_expr::{ApplyFault, BoundExpression};
use scan_partition::{
    Partitioned, PartitionedExpr, PartitionedRowIdx, Partitioning, partition, partition_row_idx,
};
use scan_values::{Array, Value};
use std::alloc::Global;
use std::process::Abort;
use std::test::Fail;

/// Values of a part.
fn column(alloc: Global, part: &BoundExpression, items: Vec<Value>) -> Result<Array, Fail>
    ensures dtype { IfOk result (λ a. a.dtype ≡ infer part.now.scope part.now.expr) }
    ensures length { IfOk result (λ a. length a.items ≡ length items.items) }
{
    let dtype = part.dtype().try_clone(alloc)?;
    Ok(Array::try_new(dtype, items)?)
}

/// Two parts of so many rows, joined; none where the root overflows.
fn joined(
    alloc: Global,
    parts: &PartitionedExpr,
    first: Vec<Value>,
    second: Vec<Value>,
    rows: usize,
) -> Result<Option<Array>, Fail>
    requires items { length parts.now.items ≡ 2 }
    requires parts { length parts.now.parts ≡ 2 }
    requires first { length first.items ≡ rows }
    requires second { length second.items ≡ rows }
{
    let one = column(alloc, parts.part(0), first)?;
    let other = column(alloc, parts.part(1), second)?;
    let mut columns = Vec::new(alloc);
    columns.push(one)?;
    columns.push(other)?;
    match parts.join(alloc, columns, rows) {
        Ok(array) => Ok(Some(array)),
        Err(ApplyFault::Overflow) => Ok(None),
        Err(fault) => Err(Fail::from(fault)),
    }
}

/// The same of a part over row numbers and one over the child, in whatever order.
fn rows_joined(
    alloc: Global,
    parts: &PartitionedRowIdx,
    first: Vec<Value>,
    second: Vec<Value>,
    rows: usize,
) -> Result<Option<Array>, Fail>
    requires items { length parts.now.items ≡ 2 }
    requires parts { length parts.now.parts ≡ 2 }
    requires first { length first.items ≡ rows }
    requires second { length second.items ≡ rows }
{
    let one = column(alloc, parts.part(0), first)?;
    let other = column(alloc, parts.part(1), second)?;
    let mut columns = Vec::new(alloc);
    columns.push(one)?;
    columns.push(other)?;
    match parts.join(alloc, columns, rows) {
        Ok(array) => Ok(Some(array)),
        Err(ApplyFault::Overflow) => Ok(None),
        Err(fault) => Err(Fail::from(fault)),
    }
}

fn found_told(rt: &impl Abort, alloc: Global, found: Result<Option<Array>, Fail>) -> String {
    match found {
        Ok(Some(array)) => shown(rt, alloc, array.as_slice()),
        Ok(None) => String::from_str(alloc, "Overflow").expect(rt, "from_str"),
        Err(_) => panic!(rt; "no rows"),
    }
}

/// Two parts over `VALUES & VALUES`, joined.
fn join_told(rt: &impl Abort, alloc: Global, parts: &PartitionedExpr, rows: &str) -> String {
    let (first, second) = sides(rt, rows, " & ");
    let first = values(rt, alloc, first);
    let second = values(rt, alloc, second);
    let count = first.len();
    if second.len() != count {
        panic!(rt; "another length");
    }
    if parts.items().len() != 2 {
        panic!(rt; "not of two parts");
    }
    found_told(rt, alloc, joined(alloc, parts, first, second, count))
}

fn rows_join_told(rt: &impl Abort, alloc: Global, parts: &PartitionedRowIdx, rows: &str) -> String {
    let (first, second) = sides(rt, rows, " & ");
    let first = values(rt, alloc, first);
    let second = values(rt, alloc, second);
    let count = first.len();
    if second.len() != count {
        panic!(rt; "another length");
    }
    if parts.items().len() != 2 {
        panic!(rt; "not of two parts");
    }
    found_told(rt, alloc, rows_joined(alloc, parts, first, second, count))
}

/// What `SCOPE | EXPRESSION @ VALUES & VALUES` is parted by.
#[derive(Clone, Copy)]
enum By {
    /// The items of a struct, each part over it.
    Kept,
    /// The items of a struct, each part over its item.
    Items,
    /// The row's number and the child.
    Rows,
}

impl Told for By {
    fn told(&self, rt: &impl Abort, alloc: Global, case: &str) -> String {
        let (case, rows) = sides(rt, case, " @ ");
        match self {
            By::Kept => {
                let expanded = expanded(rt, alloc, case);
                let parts = partition(alloc, &expanded).expect(rt, "partition");
                join_told(rt, alloc, &parts, rows)
            }
            By::Items => {
                let e = bound_in(rt, alloc, case);
                match &parted(rt, alloc, &e) {
                    Partitioned::Multi(parts) => join_told(rt, alloc, parts, rows),
                    _ => panic!(rt; "not by several items"),
                }
            }
            By::Rows => {
                let e = bound_in(rt, alloc, case);
                match &partition_row_idx(alloc, &e).expect(rt, "partition_row_idx") {
                    Partitioning::Both(parts) => rows_join_told(rt, alloc, parts, rows),
                    _ => panic!(rt; "not by both"),
                }
            }
        }
    }
}

#[test]
fn parts_are_joined_and_tell_that_their_root_overflows(rt: HostRuntime) {
    let alloc = rt.alloc();
    hold(
        &rt,
        alloc,
        &By::Kept,
        "i32 struct:a ? | $ get:a @ 1 2 3 & true false true -> 1, null, 3",
    );
    hold(
        &rt,
        alloc,
        &By::Items,
        "i8 i8 struct:a,b | $ get:a $ get:b + @ 100 & 27 -> 127
i8 i8 struct:a,b | $ get:a $ get:b + @ 100 & 28 -> Overflow",
    );
    hold(
        &rt,
        alloc,
        &By::Rows,
        "u64 | # $ < @ 5 6 7 & 6 6 9 -> true, false, true",
    );
}
