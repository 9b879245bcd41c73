//! Dtypes, names, arrays, masks, selections of rows and masks of fields.
ghost use Rattle.std.specs.Prelude.{◌≡◌};

use crate::lines::{Told, hold, shown, sides};
use crate::words::{array, dtype, mask, names, taken, values};
use scan_expr::{BindFault, Expression};
use scan_values::{
    Array, ArrayFault, DType, DTypeFault, FieldMask, FieldPath, Mask, NameFault, Names,
    Nullability, Selection, StrictSorted, StrictSortedFault, names_fault,
};
use std::alloc::Global;
use std::process::Abort;

// ---- dtypes, names and values
#[test]
fn lists_nest_to_depth_66_and_bind_to_depth_64(rt: HostRuntime) {
    let alloc = rt.alloc();
    let mut dtype = DType::i32();
    for depth in 2..67 {
        dtype = DType::list(alloc, dtype, Nullability::NonNullable).expect(&rt, "list");
        assert_eq!(rt; dtype.depth(), depth);
        let refused = Expression::root().bind(alloc, &dtype).err();
        let wanted = if depth > 64 {
            Some(BindFault::Deep)
        } else {
            None
        };
        assert_eq!(rt; refused, wanted);
    }
    let deeper = DType::list(alloc, dtype, Nullability::NonNullable);
    assert_eq!(rt; deeper.err(), Some(DTypeFault::Deep));
}

#[test]
fn names_are_looked_at_in_turn_and_copies_are_equal(rt: HostRuntime) {
    let alloc = rt.alloc();
    for (text, wanted) in [
        ("a,b", None),
        ("a,a", Some(NameFault::Repeated)),
        ("a,#validity", Some(NameFault::Reserved)),
    ] {
        let names = Names::new(names(&rt, alloc, text));
        let copy = names.try_clone(alloc).expect(&rt, "try_clone");
        assert!(rt; copy == names, "{text}");
        let found = names_fault(alloc, copy.as_slice()).expect(&rt, "names_fault");
        assert_eq!(rt; found, wanted);
    }
    let value = taken(&rt, &mut values(&rt, alloc, "3 text:x struct:2"));
    assert!(rt; value.try_clone(alloc).expect(&rt, "try_clone") == value);
    let dtype = dtype(&rt, alloc, "text text text struct:a,b,a ?");
    assert!(rt; dtype.try_clone(alloc).expect(&rt, "try_clone") == dtype);
    let fault = dtype.names_fault(alloc).expect(&rt, "names_fault");
    assert_eq!(rt; fault, Some(NameFault::Repeated));
}

// ---- arrays
/// `DTYPE @ VALUES | STEP -> DTYPE; VALUES`: the rows `from:1` on, those that `filter:101` keeps, those that `mask:101`
/// leaves, or a `copy:`.
#[derive(Clone, Copy)]
struct Rows;

impl Told for Rows {
    fn told(&self, rt: &impl Abort, alloc: Global, case: &str) -> String {
        let (rows, step) = sides(rt, case, " | ");
        let made = stepped(rt, alloc, &array(rt, alloc, rows), step);
        let values = shown(rt, alloc, made.as_slice());
        let dtype = made.dtype();
        format!(in alloc; "{dtype}; {values}").expect(rt, "format")
    }
}

fn stepped(rt: &impl Abort, alloc: Global, array: &Array, step: &str) -> Array {
    let (what, text) = sides(rt, step, ":");
    if what == "copy" {
        return array.try_clone(alloc).expect(rt, "try_clone");
    }
    if what == "from" {
        let (start, end) = (text.parse::<usize>().expect(rt, "parse"), array.len());
        if end < start {
            panic!(rt; "another length");
        }
        return array.slice(alloc, start..end).expect(rt, "slice");
    }
    let mask = mask(rt, alloc, text);
    if mask.len() != array.len() {
        panic!(rt; "another length");
    }
    if what == "mask" {
        return array.mask(alloc, &mask).expect(rt, "mask");
    }
    array.filter(alloc, &mask).expect(rt, "filter")
}

#[test]
fn arrays_are_cut_kept_masked_copied_and_made_masks(rt: HostRuntime) {
    let alloc = rt.alloc();
    hold(
        &rt,
        alloc,
        &Rows,
        "i32 @ 1 2 3 | from:1 -> i32; 2, 3
i32 @ 1 2 3 | copy: -> i32; 1, 2, 3
i32 @ 1 2 3 | filter:101 -> i32; 1, 3
i32 @ 1 2 3 | mask:101 -> i32?; 1, null, 3",
    );
    let fault = Array::try_new(DType::i32(), values(&rt, alloc, "text:x")).err();
    assert_eq!(rt; fault, Some(ArrayFault::NotOfType));
    let truths = array(&rt, alloc, "bool ? @ null true");
    if !truths.dtype().is_bool() {
        panic!(rt; "no truth values");
    }
    let mask = truths.to_mask(alloc).expect(&rt, "to_mask");
    assert!(rt; mask.as_slice() == [false, true].as_slice());
}

// ---- masks
fn bits(rt: &impl Abort, alloc: Global, bits: &[bool]) -> Mask
    ensures { result ≡ bits.now }
{
    Mask::from_bools(Vec::from_slice(alloc, bits).expect(rt, "from_slice"))
}

#[test]
fn masks_are_cut_limited_and_intersected(rt: HostRuntime) {
    let alloc = rt.alloc();
    let (t, f) = (true, false);
    let m = bits(&rt, alloc, &[true, false, true, false]);
    assert_eq!(rt; m.true_count(), 2);
    assert_eq!(rt; (m.first(), m.last()), (Some(0), Some(2)));
    let part = m.slice(alloc, 1..3).expect(&rt, "slice");
    assert!(rt; part.as_slice() == [f, t].as_slice());
    let ranked = m.intersect_by_rank(alloc, &bits(&rt, alloc, &[false, true]));
    assert!(rt; ranked.expect(&rt, "intersect_by_rank").as_slice() == [f, f, t, f].as_slice());
    let both = m.and(alloc, &bits(&rt, alloc, &[true, true, false, false]));
    assert!(rt; both.expect(&rt, "and").as_slice() == [t, f, f, f].as_slice());
    let copy = m.try_clone(alloc).expect(&rt, "try_clone");
    assert!(rt; copy.as_slice() == [t, f, t, f].as_slice());
    assert!(rt; copy.limit(1).as_slice() == [t, f, f, f].as_slice());
    for (len, is_empty) in [(2, false), (0, true)] {
        let mask = Mask::new_true(alloc, len).expect(&rt, "new_true");
        assert_eq!(rt; (mask.all_true(), mask.all_false()), (true, is_empty));
        let mask = Mask::new_false(alloc, len).expect(&rt, "new_false");
        assert_eq!(rt; (mask.all_true(), mask.all_false()), (is_empty, true));
    }
    for (letters, is_sparse) in [("10000", false), ("100000", true)] {
        assert_eq!(rt; mask(&rt, alloc, letters).is_sparse(), is_sparse);
    }
}

// ---- selections
/// All rows, 1 and 3 or all but these.
fn selection(rt: &impl Abort, alloc: Global, which: &str) -> Selection {
    let rows = Vec::from_slice(alloc, &[1, 3]).expect(rt, "from_slice");
    let rows = StrictSorted::try_new(rows).expect(rt, "try_new");
    match which {
        "all" => Selection::default(),
        "these" => Selection::IncludeByIndex(rows),
        _ => Selection::ExcludeByIndex(rows),
    }
}

#[test]
fn selections_mark_and_count_rows_and_masks_of_fields_are_stepped_into(rt: HostRuntime) {
    let alloc = rt.alloc();
    for (which, wanted, count) in [
        ("all", [true, true, true], 3),
        ("these", [true, false, true], 2),
        ("others", [false, true, false], 1),
    ] {
        let selection = selection(&rt, alloc, which);
        let copy = selection.try_clone(alloc).expect(&rt, "try_clone");
        assert_eq!(rt; copy.row_count_in_range(&(1..4)), count);
        let mask = copy.row_mask(alloc, &(1..4)).expect(&rt, "row_mask");
        assert!(rt; mask.as_slice() == wanted.as_slice());
    }
    let equal = Vec::from_slice(alloc, &[1, 1]).expect(&rt, "from_slice");
    assert_eq!(rt;
        StrictSorted::try_new(equal).err(),
        Some(StrictSortedFault::NotRising)
    );
    let path = FieldPath::from_names(names(&rt, alloc, "a,b"));
    let mask = FieldMask::Prefix(path)
        .try_clone(alloc)
        .expect(&rt, "try_clone");
    assert!(rt; !mask.matches_all());
    let first = mask.starting_field();
    assert!(rt;
        format!(in alloc; "{first:?}")
            .expect(&rt, "format")
            .as_str()
            == "Some(a)"
    );
    let below = mask.step_into();
    let first = below.starting_field();
    assert!(rt;
        format!(in alloc; "{first:?}")
            .expect(&rt, "format")
            .as_str()
            == "Some(b)"
    );
    assert!(rt; below.step_into().matches_all());
    let root = FieldPath::root(alloc)
        .try_clone(alloc)
        .expect(&rt, "try_clone");
    assert!(rt; FieldMask::Prefix(root).matches_all());
}
