//! Layouts of a kind that is known, what is wrong with layouts, the context of readers, and children that are made at first
//! use.
use crate::layouts::{layouts, list_of, made, struct_of};
use crate::told::{begin, push};
use crate::words::{before, dtype, field_masks, sides};
use scan_layout::{
    ChildOpener, LayoutReaderContext, LayoutRef, LazyReaderChildren, ListLayoutMetadata, SlotFault,
};
use scan_values::{DType, FieldMask, NoMemory, Nullability, PType, Text};
use std::alloc::Global;
use std::cell::Cell;
use std::process::Abort;
use std::string::String;
use std::sync::Arc;

/// What the last word makes of layouts, as of `i32@1:4 u32@0:3 + unchecked`: its fault, or what a check of it finds, and
/// its line.
fn told_layout(rt: &impl Abort, alloc: Global, case: &str) -> String {
    let (words, word) = sides(rt, case, "+ ");
    let mut stack = layouts(rt, alloc, words);
    match made(rt, alloc, &mut stack, word) {
        Ok(node) => {
            let fault = node.check(node.dtype()).err();
            let shown = format!(in alloc; "{node}").expect(rt, "format");
            let (line, _) = before(shown.as_str(), "\n");
            format!(in alloc; "fault {fault:?}: {line}").expect(rt, "format")
        }
        Err(fault) => format!(in alloc; "{fault:?}").expect(rt, "format"),
    }
}

// A leaf has the rows of its segments, which sum within u64, and keeps its spelling, which is the first one where none is
// given; a struct has a child for each field, of its rows, and a list its validity where it may be null; a tree that is made
// of its parts is checked later.
const LAYOUTS: &str = "+ i32@0:3 -> fault None: leaf i32, 3 rows, spelling 1, segments 0 (3)
+ i32@0:18446744073709551614,1:1 -> fault None: leaf i32, 18446744073709551615 rows, spelling 1, segments 0 (18446744073709551614), 1 (1)
+ i32@0:18446744073709551615,1:1 -> RowSum
+ i32?/2@0:3 -> fault None: leaf i32?, 3 rows, spelling 2, segments 0 (3)
+ i32?/@0:3 -> fault None: leaf i32?, 3 rows, spelling 1, segments 0 (3)
i32@0:3 i32@0:3 + struct:3:a,b -> fault None: struct {a=i32, b=i32}, 3 rows
i32@0:3 i32@0:3 + struct:3:a,b- -> ChildCount
i32@0:3 i32@0:2 + struct:3:a,b -> ChildRows
i32@1:9 u32@0:5 + list -> fault None: list list(i32), 4 rows, offsets u32
i32@1:9 u32@0:5 + list?- -> ChildCount
i32@1:4 u32@0:3 + unchecked -> fault None: list list(i32), 2 rows, offsets u32
i32@1:4 u32@0:2 + unchecked -> fault Some(Offsets): list list(i32), 2 rows, offsets u32";

fn push_dtype(rt: &impl Abort, alloc: Global, dtype: Result<DType, SlotFault>, text: &mut String) {
    begin(rt, text);
    let told = match dtype {
        Ok(dtype) => format!(in alloc; "{dtype}").expect(rt, "format"),
        Err(fault) => format!(in alloc; "{fault:?}").expect(rt, "format"),
    };
    push(rt, text, told.as_str())
}

/// What a struct of three rows and two columns tells.
fn told_struct(rt: &impl Abort, alloc: Global) -> String {
    let mut stack = layouts(rt, alloc, "i32@0:3 i32@1:3");
    let layout = struct_of(rt, alloc, &mut stack, "3:a,b", Nullability::NonNullable).expect(
        rt,
        "struct_of",
    );
    let (slots, fields) = (layout.nslots(), layout.struct_fields().nfields());
    let rows = layout.node().row_count();
    let (first, second) = (layout.slot_to_child(0), layout.slot_to_child(1));
    let mut text = format!(in alloc;
        "{slots} slots, {fields} fields, {rows} rows; children {first:?}, {second:?}"
    ).expect(rt, "format");
    push_dtype(rt, alloc, layout.child_dtype(alloc, 1), &mut text);
    push_dtype(rt, alloc, layout.child_dtype(alloc, 3), &mut text);
    for name in ["b", "z"] {
        let masks = field_masks(rt, alloc, name);
        let told = match layout.matching_fields(alloc, masks.as_slice()) {
            Ok(found) => match found.as_slice() {
                [(FieldMask::All, i)] => format!(in alloc; "; All, {i}").expect(rt, "format"),
                _ => panic!(rt; "not one field, or a mask below it"),
            },
            Err(fault) => format!(in alloc; "; {fault:?}").expect(rt, "format"),
        };
        push(rt, &mut text, told.as_str());
    }
    text
}

/// What a list over nine elements and five offsets tells.
fn told_list(rt: &impl Abort, alloc: Global) -> String {
    let mut stack = layouts(rt, alloc, "i32@1:9 u32@0:5");
    let layout = list_of(rt, alloc, &mut stack, None, Nullability::NonNullable).expect(
        rt, "list_of",
    );
    let (slots, rows) = (layout.nslots(), layout.node().row_count());
    let ptype = layout.offsets_ptype();
    let (elements, offsets) = (layout.elements().row_count(), layout.offsets().row_count());
    let is_valid = layout.validity().is_none();
    let (second, third) = (layout.slot_to_child(1), layout.slot_to_child(2));
    let mut text = format!(in alloc;
        "{slots} slots, {rows} rows, {elements} elements, {offsets} offsets of {ptype}, never null {is_valid}; children {second:?}, {third:?}"
    ).expect(rt, "format");
    push_dtype(rt, alloc, layout.child_dtype(alloc, 0), &mut text);
    push_dtype(rt, alloc, layout.child_dtype(alloc, 2), &mut text);
    text
}

#[test]
fn layouts_have_their_children_slots_and_faults(rt: HostRuntime) {
    let alloc = rt.alloc();
    for line in LAYOUTS.lines() {
        let (case, wanted) = sides(&rt, line, " -> ");
        let told = told_layout(&rt, alloc, case);
        assert_eq!(rt; told.as_str(), wanted, "at {case}");
    }
    let of_struct =
        "3 slots, 2 fields, 3 rows; children None, Some(0); i32; NoSlot; All, 1; NoSuchField";
    assert!(rt; told_struct(&rt, alloc).as_str() == of_struct);
    let of_list =
        "3 slots, 4 rows, 9 elements, 5 offsets of u32, never null true; children Some(1), None; i32; NoSlot";
    assert!(rt; told_list(&rt, alloc).as_str() == of_list);
    assert!(rt; ListLayoutMetadata::new(PType::U16).offsets_ptype() == PType::U16);
}

// ---- the context of readers
/// The number of an id.
fn number(context: &LayoutReaderContext<u8>, id: u32) -> Option<u8> {
    match context.get(id) {
        Some(value) => Some(**value),
        None => None,
    }
}

#[test]
fn a_context_keeps_what_it_was(rt: HostRuntime) {
    let alloc = rt.alloc();
    let empty: LayoutReaderContext<u8> = LayoutReaderContext::new(alloc);
    let five = Arc::new(alloc, 5u8).expect(&rt, "new");
    let first = empty.with(alloc, 1, five).expect(&rt, "with");
    let six = Arc::new(alloc, 6u8).expect(&rt, "new");
    let second = first.with(alloc, 1, six).expect(&rt, "with");
    let copy = second.try_clone(alloc).expect(&rt, "try_clone");
    assert_eq!(rt; (number(&empty, 1), number(&first, 1)), (None, Some(5)));
    assert_eq!(rt; (number(&second, 2), number(&copy, 1)), (None, Some(6)));
}

// ---- children that are made at first use
/// Makes of each child the number of its calls so far, and behind it the number of the child's rows: 102 at the first call,
/// of two rows.
#[derive(Drop)]
struct Calls {
    so_far: Cell<u64>,
}

impl ChildOpener<u8> for Calls {
    type Made = u64;

    ghost makes = { λ opener node dtype name ctx made. Unit {0} };

    fn make(
        &self,
        _alloc: Global,
        node: &LayoutRef,
        _dtype: &DType,
        _name: &Text,
        _ctx: &LayoutReaderContext<u8>,
    ) -> Result<u64, NoMemory> {
        let calls = self.so_far.get().saturating_add(1);
        self.so_far.set(calls);
        Ok(calls.saturating_mul(100).saturating_add(node.row_count()))
    }
}

/// Two children, of 3 and of 2 rows, of one dtype and name, or each of its own.
fn children(rt: &impl Abort, alloc: Global, is_uniform: bool) -> LazyReaderChildren<u8, Calls> {
    let nodes = layouts(rt, alloc, "i32@0:3 i32@0:2");
    let context = LayoutReaderContext::new(alloc);
    let opener = Calls {
        so_far: Cell::new(0),
    };
    let int = dtype(rt, "i32");
    let name = Text::new(String::from_str(alloc, "child").expect(rt, "from_str"));
    if is_uniform {
        return LazyReaderChildren::new_uniform(alloc, nodes, int, name, opener, context).expect(
            rt,
            "new_uniform",
        );
    }
    let mut dtypes = Vec::new(alloc);
    let mut names = Vec::new(alloc);
    for _ in 0..2 {
        dtypes.push(dtype(rt, "i32")).expect(rt, "push");
        let name = Text::new(String::from_str(alloc, "child").expect(rt, "from_str"));
        names.push(name).expect(rt, "push");
    }
    if dtypes.len() != nodes.len() {
        panic!(rt; "a dtype for each node");
    }
    if names.len() != nodes.len() {
        panic!(rt; "a name for each node");
    }
    LazyReaderChildren::new(alloc, nodes, dtypes, names, opener, context).expect(rt, "new")
}

fn push_child(
    rt: &impl Abort,
    alloc: Global,
    children: &mut LazyReaderChildren<u8, Calls>,
    idx: usize,
    text: &mut String,
) {
    begin(rt, text);
    let told = match children.get(alloc, idx) {
        Ok(made) => {
            let made = *made;
            format!(in alloc; "{made}").expect(rt, "format")
        }
        Err(fault) => format!(in alloc; "{fault:?}").expect(rt, "format"),
    };
    push(rt, text, told.as_str())
}

/// What is made of the children 2, 1, 1 and 0, in turn, and which are made behind the first of these.
fn told_children(rt: &impl Abort, alloc: Global, is_uniform: bool) -> String {
    let mut children = children(rt, alloc, is_uniform);
    let mut text = String::new(alloc);
    push_child(rt, alloc, &mut children, 2, &mut text);
    push_child(rt, alloc, &mut children, 1, &mut text);
    let (first, second) = (children.is_made(0), children.is_made(1));
    let told = format!(in alloc; "; made {first}, {second}").expect(rt, "format");
    push(rt, &mut text, told.as_str());
    push_child(rt, alloc, &mut children, 1, &mut text);
    push_child(rt, alloc, &mut children, 0, &mut text);
    text
}

#[test]
fn a_child_is_made_at_its_first_use_and_by_one_call(rt: HostRuntime) {
    for is_uniform in [true, false] {
        let told = told_children(&rt, rt.alloc(), is_uniform);
        assert_eq!(rt;
            told.as_str(),
            "ChildIndex; 102; made false, true; 102; 203"
        );
    }
}
