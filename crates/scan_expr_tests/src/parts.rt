//! Expressions over a struct, by its items, and parts that are parted again.
ghost use Rattle.std.specs.Prelude.{IfSome};
ghost use Rattle.scan_partition.specs.Partable.{CanPart, IsPartable, PartsPartable};

use crate::expressions::bound_in;
use crate::lines::{Told, hold, shown};
use crate::readings::over_list;
use crate::words::dtype;
use scan_expr::BoundExpression;
use scan_partition::{
    Partitioned, PartitionedExpr, expand_struct_root, expanded_struct_root, partition,
    partition_struct,
};
use scan_values::DType;
use std::alloc::Global;
use std::fmt::Write;
use std::process::Abort;

/// An expression over a struct, by its items.
pub(crate) fn parted(rt: &impl Abort, alloc: Global, part: &BoundExpression) -> Partitioned
    requires { IsPartable part.now }
    ensures { PartsPartable result }
{
    match part.scope().as_struct_fields_opt() {
        Some(_) => partition_struct(alloc, part).expect(rt, "partition_struct"),
        None => panic!(rt; "a part over no struct"),
    }
}

/// `SCOPE | EXPRESSION`, by the fields of the scope.
pub(crate) fn expanded(rt: &impl Abort, alloc: Global, case: &str) -> BoundExpression
    ensures { CanPart result }
{
    let bound = bound_in(rt, alloc, case);
    match bound.scope().as_struct_fields_opt() {
        Some(_) => expand_struct_root(alloc, &bound).expect(rt, "expand_struct_root"),
        None => panic!(rt; "over no struct"),
    }
}

/// `$`, by the fields of a scope.
fn expanded_root(rt: &impl Abort, alloc: Global, scope: &DType) -> BoundExpression {
    match scope.as_struct_fields_opt() {
        Some(_) => expanded_struct_root(alloc, scope).expect(rt, "expanded_struct_root"),
        None => panic!(rt; "no struct"),
    }
}

// ---- told
/// An expression, and what it is over.
pub(crate) fn over_told(rt: &impl Abort, alloc: Global, e: &BoundExpression) -> String {
    let scope = e.scope();
    format!(in alloc; "{e} over {scope}").expect(rt, "format")
}

/// Each item with its part, and what joins them.
fn several_told(rt: &impl Abort, alloc: Global, parts: &PartitionedExpr) -> String {
    let mut text = String::new(alloc);
    for i in 0..parts.items().len() {
        let item = parts.items()[i].name();
        let part = over_told(rt, alloc, parts.part(i));
        write!(text, "{item}: {part}; ").expect(rt, "write");
    }
    let root = parts.root();
    write!(text, "{root}").expect(rt, "write");
    text
}

fn parts_told(rt: &impl Abort, alloc: Global, parts: &Partitioned) -> String {
    match parts {
        Partitioned::Direct(chosen) => {
            let (fields, names) = (chosen.fields(), shown(rt, alloc, chosen.names().as_slice()));
            format!(in alloc; "fields {fields:?} as {names}").expect(rt, "format")
        }
        Partitioned::Single(item, part) => {
            let part = over_told(rt, alloc, part);
            format!(in alloc; "{item} alone: {part}").expect(rt, "format")
        }
        Partitioned::Multi(parts) => several_told(rt, alloc, parts),
    }
}

/// The part of the first item.
fn first_part(parts: &Partitioned) -> Option<&BoundExpression>
    requires { PartsPartable parts.now }
    ensures { IfSome result (λ b. IsPartable b.now) }
{
    match parts {
        Partitioned::Direct(_) => None,
        Partitioned::Single(_, part) => Some(part),
        Partitioned::Multi(parts) => {
            if parts.items().is_empty() {
                None
            } else {
                Some(parts.part(0))
            }
        }
    }
}

/// How deep the dtype of an expression is, of the part of its first item, of that one's, so many levels down; over a
/// list it is of what reads no elements.
pub(crate) fn push_depths(
    rt: &impl Abort,
    alloc: Global,
    e: &BoundExpression,
    levels: usize,
    text: &mut String,
)
    requires { IsPartable e.now }
{
    let depth = e.dtype().depth();
    write!(text, " {depth}").expect(rt, "write");
    if levels == 0 {
        return;
    }
    if e.scope().as_list_element_opt().is_some() {
        let Some(over) = over_list(rt, alloc, e) else {
            panic!(rt; "the elements are read");
        };
        let depth = over.dtype().depth();
        write!(text, " {depth}").expect(rt, "write");
        return;
    }
    let parts = parted(rt, alloc, e);
    if let Some(part) = first_part(&parts) {
        push_depths(rt, alloc, part, levels - 1, text);
    }
}

/// Calls on expressions over structs.
#[derive(Clone, Copy)]
enum On {
    /// `SCOPE | EXPRESSION -> PARTS`.
    Struct,
    /// `SCOPE | EXPRESSION -> EXPRESSION`: by the fields of the scope.
    Expanded,
    /// `SCOPE -> EXPRESSION`: `$` by the fields of the scope.
    Root,
    /// `SCOPE | EXPRESSION -> PARTS`, over the scope.
    Kept,
    /// `SCOPE | EXPRESSION -> DEPTHS`: three levels down.
    Depths,
}

impl Told for On {
    fn told(&self, rt: &impl Abort, alloc: Global, case: &str) -> String {
        match self {
            On::Struct => {
                let e = bound_in(rt, alloc, case);
                parts_told(rt, alloc, &parted(rt, alloc, &e))
            }
            On::Expanded => over_told(rt, alloc, &expanded(rt, alloc, case)),
            On::Root => {
                let root = expanded_root(rt, alloc, &dtype(rt, alloc, case));
                over_told(rt, alloc, &root)
            }
            On::Kept => {
                let expanded = expanded(rt, alloc, case);
                let parts = partition(alloc, &expanded).expect(rt, "partition");
                several_told(rt, alloc, &parts)
            }
            On::Depths => {
                let mut text = String::new(alloc);
                push_depths(rt, alloc, &bound_in(rt, alloc, case), 3, &mut text);
                text
            }
        }
    }
}

#[test]
fn expressions_over_structs_are_parted_by_items_and_again(rt: HostRuntime) {
    let alloc = rt.alloc();
    hold(
        &rt,
        alloc,
        &On::Struct,
        "i32 i32 struct:a,b | $ -> fields [0, 1] as a, b
i32 i32 struct:a,b | $ get:a i32:1 > -> a alone: ($ > 1 as i32) over i32
i32 i32 struct:a,b | $ get:a $ get:b < -> a: $ over i32; b: $ over i32; ($.a < $.b)",
    );
    hold(
        &rt,
        alloc,
        &On::Root,
        "i32 struct:a ? -> mask(pack(a: $.a), is_not_null($)) over {a=i32}?",
    );
    hold(
        &rt,
        alloc,
        &On::Expanded,
        "i32 struct:a ? | $ get:a -> mask($.a, is_not_null($)) over {a=i32}?",
    );
    hold(
        &rt,
        alloc,
        &On::Kept,
        "i32 struct:a ? | $ get:a -> a: $.a over {a=i32}?; #validity: is_not_null($) over {a=i32}?; mask($.a, $.#validity)",
    );
    hold(
        &rt,
        alloc,
        &On::Depths,
        "i32 i32 struct:a,b bool struct:u,v bool struct:x,y | \
         $ get:x get:u get:a packs:63 $ get:y mask is_null $ get:x get:u packs:62 $ get:y mask is_null and ->  1 65 65 65
i32 list ? bool struct:x,y | \
         $ get:x is_null packs:63 $ get:y mask is_null $ get:x length packs:63 $ get:y mask is_null and ->  1 65 65",
    );
}
