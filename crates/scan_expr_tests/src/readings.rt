//! Expressions by row number and child, what they read of a list, and stepping into an item.
ghost use Rattle.std.specs.Prelude.{◌≡◌, IfOk};
ghost use Rattle.scan_partition.specs.Items.{AtMost, IsExpanded, use_of};
ghost use Rattle.scan_partition.specs.Partable.{RowPartsPartable};

use crate::expressions::{bound_in, over};
use crate::lines::{Told, hold};
use crate::parts::{over_told, push_depths};
use crate::words::dtype;
use scan_expr::{BindFault, BoundExpression, Expression};
use scan_partition::{
    Item, ListChildrenNeeded, PartitionedRowIdx, Partitioning, necessary_children,
    partition_row_idx, rewrite_offsets, rewrite_validity, step_into,
};
use scan_values::{DType, FieldName, NoMemory, PType};
use std::alloc::Global;
use std::fmt::Write;
use std::process::Abort;

// ---- lists
/// An expression that reads no elements of a list, over its validity or its lengths.
pub(crate) fn over_list(
    rt: &impl Abort,
    alloc: Global,
    e: &BoundExpression,
) -> Option<BoundExpression> {
    match necessary_children(e) {
        ListChildrenNeeded::Validity => {
            Some(rewrite_validity(alloc, e).expect(rt, "rewrite_validity"))
        }
        ListChildrenNeeded::OffsetsAndValidity => {
            let lengths = DType::primitive(PType::U64, e.scope().nullability());
            Some(rewrite_offsets(alloc, e, &lengths).expect(rt, "rewrite_offsets"))
        }
        ListChildrenNeeded::All => None,
    }
}

fn list_told(rt: &impl Abort, alloc: Global, e: &BoundExpression) -> String {
    let needed = necessary_children(e);
    match over_list(rt, alloc, e) {
        Some(e) => {
            let e = over_told(rt, alloc, &e);
            format!(in alloc; "{needed:?}: {e}").expect(rt, "format")
        }
        None => format!(in alloc; "{needed:?}").expect(rt, "format"),
    }
}

// ---- the row's number and the child
fn both_told(rt: &impl Abort, alloc: Global, parts: &PartitionedRowIdx) -> String {
    let mut text = String::new(alloc);
    for i in 0..parts.items().len() {
        let item = parts.items()[i].name();
        let part = over_told(rt, alloc, parts.part(i));
        write!(text, "{item}: {part}; ").expect(rt, "write");
    }
    let root = parts.root();
    write!(text, "{root}").expect(rt, "write");
    text
}

fn rows_told(rt: &impl Abort, alloc: Global, found: &Partitioning) -> String {
    match found {
        Partitioning::RowIdx(part) => {
            let part = over_told(rt, alloc, part);
            format!(in alloc; "row numbers alone: {part}").expect(rt, "format")
        }
        Partitioning::Child(part) => {
            let part = over_told(rt, alloc, part);
            format!(in alloc; "the child alone: {part}").expect(rt, "format")
        }
        Partitioning::Both(parts) => both_told(rt, alloc, parts),
    }
}

/// How deep the first part is beside another, and how deep its first part.
fn child_depths(rt: &impl Abort, alloc: Global, found: &Partitioning) -> String
    requires { RowPartsPartable found.now }
{
    let mut text = String::new(alloc);
    match found {
        Partitioning::Both(parts) => {
            if parts.items().is_empty() {
                panic!(rt; "by nothing");
            }
            let child = parts.part(0);
            push_depths(rt, alloc, child, 1, &mut text);
        }
        _ => panic!(rt; "not by both"),
    }
    text
}

// ---- a field
/// `$.text > 1`.
fn above_one(alloc: Global, text: &str) -> Result<Expression, NoMemory>
    ensures expanded { IfOk result (λ e. IsExpanded e) }
    ensures alone { IfOk result (λ e. AtMost (Item.Field text.now) (use_of e)) }
{
    let above = Expression::gt(
        alloc,
        Expression::col(alloc, text)?,
        Expression::lit_int(PType::I32, 1),
    )?;
    Ok(above)
}

/// `$.text > 1`, over that field alone.
fn above_one_stepped(
    alloc: Global,
    text: &str,
    scope: &DType,
) -> Result<BoundExpression, BindFault> {
    let above = over(alloc, &above_one(alloc, text)?, scope)?;
    let part = over(alloc, &Expression::col(alloc, text)?, scope)?;
    let item = Item::Field(FieldName::from_str(alloc, text)?);
    Ok(step_into(alloc, &above, &item, part.dtype())?)
}

/// Calls on expressions.
#[derive(Clone, Copy)]
enum On {
    /// `SCOPE | EXPRESSION -> CHILDREN: EXPRESSION`, over a list.
    List,
    /// `SCOPE | EXPRESSION -> PARTS`, by the row's number and the child.
    Rows,
    /// `SCOPE | EXPRESSION -> DEPTHS`, of the same.
    Depths,
    /// `SCOPE -> EXPRESSION`: `$.a > 1` over the field a of the scope.
    AboveOne,
}

impl Told for On {
    fn told(&self, rt: &impl Abort, alloc: Global, case: &str) -> String {
        match self {
            On::List => list_told(rt, alloc, &bound_in(rt, alloc, case)),
            On::Rows => {
                let e = bound_in(rt, alloc, case);
                let found = partition_row_idx(alloc, &e).expect(rt, "partition_row_idx");
                rows_told(rt, alloc, &found)
            }
            On::Depths => {
                let e = bound_in(rt, alloc, case);
                let found = partition_row_idx(alloc, &e).expect(rt, "partition_row_idx");
                child_depths(rt, alloc, &found)
            }
            On::AboveOne => {
                let scope = dtype(rt, alloc, case);
                let e = above_one_stepped(alloc, "a", &scope).expect(rt, "above_one_stepped");
                over_told(rt, alloc, &e)
            }
        }
    }
}

#[test]
fn lists_row_numbers_and_fields_are_read_by_what_an_expression_needs(rt: HostRuntime) {
    let alloc = rt.alloc();
    hold(
        &rt,
        alloc,
        &On::List,
        "i32 list ? | $ is_null -> Validity: not($) over bool
i32 list ? | $ length -> OffsetsAndValidity: $ over u64?
i32 list ? | $ -> All
i32 list ? | i32:1 -> Validity: 1 as i32 over bool",
    );
    hold(
        &rt,
        alloc,
        &On::Rows,
        "i32 | # u64:1 >= -> row numbers alone: ($ >= 1 as u64) over u64
i32 struct:a | $ get:a -> the child alone: $.a over {a=i32}
i32 | i32:1 -> 1 as i32
u64 | # $ < -> row_idx: $ over u64; child: $ over u64; ($.row_idx < $.child)",
    );
    hold(
        &rt,
        alloc,
        &On::Depths,
        "i32 i32 struct:a,b | \
         $ get:a packs:63 # u64:0 > mask is_null $ packs:62 # u64:0 > mask is_null and ->  65 65",
    );
    hold(
        &rt,
        alloc,
        &On::AboveOne,
        "i32 i32 struct:a,b -> ($ > 1 as i32) over i32",
    );
}

#[test]
fn a_copy_of_an_item_is_the_same(rt: HostRuntime) {
    let alloc = rt.alloc();
    let item = Item::Field(FieldName::from_str(alloc, "a").expect(&rt, "from_str"));
    let copy = item.try_clone(alloc).expect(&rt, "try_clone");
    assert!(rt; copy.same(&item));
    assert!(rt; !copy.same(&Item::Validity));
}
