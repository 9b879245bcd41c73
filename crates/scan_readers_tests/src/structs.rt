//! Children that readers of structs make, and plans that they keep.
use crate::asked::{over, reader, told_by};
use crate::told::push;
use crate::words::expression;
use scan_readers::{LayoutReader, Reader};
use std::alloc::Global;
use std::process::Abort;
use std::string::String;
use std::sync::Arc;

/// The words of a struct of so many fields and one more, named by their places, which share one leaf.
fn wide(rt: &impl Abort, alloc: Global, count: usize) -> String {
    let mut words = String::new(alloc);
    for _ in 0..count {
        push(rt, &mut words, "i32@0:3 ");
    }
    push(rt, &mut words, "i32@0:3 struct:3:");
    for place in 0..count {
        let name = format!(in alloc; "{place},").expect(rt, "format");
        push(rt, &mut words, name.as_str());
    }
    let name = format!(in alloc; "{count}").expect(rt, "format");
    push(rt, &mut words, name.as_str());
    words
}

/// Which of the first children are made, none of which has children.
fn push_made(rt: &impl Abort, alloc: Global, reader: &Reader<u8>, text: &mut String) {
    push(rt, text, "made");
    for place in 0..1001 {
        if reader.is_made(&[place, 0]) {
            panic!(rt; "a child of a leaf");
        }
        if reader.is_made(&[place]) {
            let told = format!(in alloc; " {place}").expect(rt, "format");
            push(rt, text, told.as_str());
        }
    }
}

/// Which children of a layout are made at first, and by the plan of an expression, and whether its plan is kept.
fn told_made(rt: &impl Abort, alloc: Global, of: &str, words: &str) -> String {
    let mut reader = reader(rt, alloc, of);
    if !reader.is_made(&[]) {
        panic!(rt; "the reader itself");
    }
    let mut text = String::new(alloc);
    push_made(rt, alloc, &reader, &mut text);
    push(rt, &mut text, "; ");
    let bound = over(alloc, &expression(rt, alloc, words), reader.dtype()).expect(rt, "over");
    if bound.uses_row_idx() {
        panic!(rt; "a row's number");
    }
    let plan = reader.plan(alloc, &bound).expect(rt, "plan");
    push_made(rt, alloc, &reader, &mut text);
    let holders = Arc::strong_count(&plan);
    let _again = reader.plan(alloc, &bound).expect(rt, "plan");
    let is_kept = Arc::strong_count(&plan) > holders;
    push(
        rt,
        &mut text,
        if is_kept { "; kept" } else { "; planned anew" },
    );
    text
}

/// The struct of the numbers `a` and `b`, of which a row may be null.
const PAIR: &str = "bool@2:3 i32@0:3 i32@1:3 struct?:3:a,b";

const SAME: &str = "$ get:10 $ get:500 =";

#[test]
fn the_children_that_are_used_are_made_and_an_equal_expression_gets_the_plan_that_is_kept(
    rt: HostRuntime,
) {
    let alloc = rt.alloc();
    let wide = wide(&rt, alloc, 999);
    for (of, words, wanted) in [
        (PAIR, "i32:1", "made; made; kept"),
        (PAIR, "$ get:a", "made; made 0 1; kept"),
        (wide.as_str(), SAME, "made; made 10 500; kept"),
    ] {
        let told = told_made(&rt, alloc, of, words);
        assert_eq!(rt; told.as_str(), wanted, "at {words}");
    }
    let of = format!(in alloc; "layout 0: {wide}").expect(&rt, "format");
    let case = format!(in alloc; "{SAME} | 111 run").expect(&rt, "format");
    let store = "0=010000000200000003000000";
    let told = told_by(&rt, alloc, of.as_str(), store, case.as_str());
    assert_eq!(rt; told.as_str(), "wants 0; gives [true,true,true] at [0,1,2]");
}
