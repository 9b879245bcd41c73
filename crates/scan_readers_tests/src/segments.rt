//! Segments as they are spelled, and columns that are read in place.
use crate::asked::array;
use crate::told::{push, push_bits, push_values};
use crate::words::{bytes, dtype, mask, sides, spelling};
use scan_layout::{LeafColumn, Spelling, decode_segment, encode_segment, recode_segment};
use scan_values::DType;
use std::alloc::Global;
use std::process::Abort;
use std::string::String;

/// The values that `ROWS BYTES` spell, or their bytes in the other spelling.
fn read(
    rt: &impl Abort,
    alloc: Global,
    kind: &str,
    spelling: Spelling,
    dtype: &DType,
    of: &str,
) -> String {
    let (rows, spelled) = sides(rt, of, " ");
    let rows = rows.parse::<u64>().expect(rt, "parse");
    let spelled = bytes(rt, alloc, spelled);
    if !dtype.is_scalar() {
        panic!(rt; "not a scalar dtype");
    }
    if kind == "decode" {
        return match decode_segment(alloc, spelling, dtype, rows, spelled.as_slice()) {
            Ok(array) => {
                let mut text = String::new(alloc);
                push_values(rt, alloc, array.as_slice(), 9, &mut text);
                text
            }
            Err(fault) => format!(in alloc; "{fault:?}").expect(rt, "format"),
        };
    }
    let to = match spelling {
        Spelling::One => Spelling::Two,
        Spelling::Two => Spelling::One,
    };
    match recode_segment(alloc, spelling, to, dtype, rows, spelled.as_slice()) {
        Ok(bytes) => hex::encode(alloc, bytes.as_slice()).expect(rt, "encode"),
        Err(fault) => format!(in alloc; "{fault:?}").expect(rt, "format"),
    }
}

/// The bytes of values.
fn encoded(rt: &impl Abort, alloc: Global, spelling: Spelling, dtype: &str, of: &str) -> String {
    let array = array(rt, alloc, dtype, of);
    if !array.dtype().is_scalar() {
        panic!(rt; "not a scalar dtype");
    }
    let bytes = encode_segment(alloc, spelling, &array).expect(rt, "encode_segment");
    hex::encode(alloc, bytes.as_slice()).expect(rt, "encode")
}

/// Of three rows the values of the first and the last, and of the second and the last those of the last.
fn push_picked(rt: &impl Abort, alloc: Global, column: &LeafColumn, text: &mut String) {
    let ends = mask(rt, alloc, "101");
    if ends.len() != column.len() {
        panic!(rt; "not three rows");
    }
    let picked = column.picked(alloc, &ends).expect(rt, "picked");
    push(rt, text, "; picked ");
    push_values(rt, alloc, picked.as_slice(), 9, text);
    let last = mask(rt, alloc, "01");
    if last.len() > 2 {
        panic!(rt; "more than two bits");
    }
    if column.len() != 3 {
        panic!(rt; "not three rows");
    }
    let picked = column
        .picked_from(alloc, 1, last.as_slice())
        .expect(rt, "picked_from");
    push(rt, text, " and ");
    push_values(rt, alloc, picked.as_slice(), 9, text)
}

/// The values of a column of the three rows that some bytes spell, which are there, and which are true, where they are Bools.
fn told_column(
    rt: &impl Abort,
    alloc: Global,
    spelling: Spelling,
    dtype: &DType,
    spelled: &str,
) -> String {
    if !dtype.is_scalar() {
        panic!(rt; "not a scalar dtype");
    }
    let spelled = bytes(rt, alloc, spelled);
    let column = LeafColumn::read(alloc, spelling, dtype, 3, spelled).expect(rt, "read");
    let mut values = Vec::new(alloc);
    for i in 0..column.len() {
        values
            .push(column.value(alloc, i).expect(rt, "value"))
            .expect(rt, "push");
    }
    let mut text = String::new(alloc);
    push_values(rt, alloc, values.as_slice(), 9, &mut text);
    push(rt, &mut text, "; there ");
    let valid = column.validity(alloc).expect(rt, "validity");
    push_bits(rt, valid.as_slice(), &mut text);
    push_picked(rt, alloc, &column, &mut text);
    if !column.dtype().is_bool() {
        return text;
    }
    push(rt, &mut text, "; true ");
    let truths = column.to_mask(alloc).expect(rt, "to_mask");
    push_bits(rt, truths.as_slice(), &mut text);
    text
}

// Two numbers, and no byte less or more; a null is spelled with zeros, or has the bit of a false, and what stands in its slot
// is ignored; a flag or a Bool is 0 or 1, and an unused bit is 0; a segment is moved to the other spelling, where it is
// spelled; a column is read where it stands.
const SEGMENTS: &str = "decode 1 i32 2 0100000002000000 -> 1,2
decode 1 i32 2 01000000020000 -> Spelling
decode 1 i32 2 010000000200000000 -> Spelling
encode 1 bool? true,null -> 01000100
decode 1 bool? 2 01000100 -> true,null
decode 1 bool? 2 01000105 -> true,null
decode 1 bool? 2 02000100 -> Spelling
encode 2 bool? true,null -> 0101
decode 2 bool? 2 0101 -> true,null
decode 2 bool? 2 0103 -> true,null
decode 2 bool? 2 0501 -> Spelling
decode 2 bool? 2 0105 -> Spelling
recode 1 i32? 3 010001010000000000000003000000 -> 05010000000000000003000000
recode 2 i32? 3 010001010000000000000003000000 -> Spelling
column 1 i32 010000000200000003000000 -> 1,2,3; there 111; picked 1,3 and 3
column 2 i32 010000000200000003000000 -> 1,2,3; there 111; picked 1,3 and 3
column 1 i32? 010001010000000000000003000000 -> 1,null,3; there 101; picked 1,3 and 3
column 2 i32? 05010000000000000003000000 -> 1,null,3; there 101; picked 1,3 and 3
column 1 bool? 010001010100 -> true,null,false; there 101; picked true,false and false; true 100
column 2 bool? 0503 -> true,null,false; there 101; picked true,false and false; true 100";

#[test]
fn segments_are_read_and_written_in_both_spellings(rt: HostRuntime) {
    let alloc = rt.alloc();
    for line in SEGMENTS.lines() {
        let (case, wanted) = sides(&rt, line, " -> ");
        let (kind, text) = sides(&rt, case, " ");
        let (number, text) = sides(&rt, text, " ");
        let (words, of) = sides(&rt, text, " ");
        let spelling = spelling(&rt, number);
        let dtype = dtype(&rt, words);
        let told = match kind {
            "column" => told_column(&rt, alloc, spelling, &dtype, of),
            "encode" => encoded(&rt, alloc, spelling, words, of),
            _ => read(&rt, alloc, kind, spelling, &dtype, of),
        };
        assert_eq!(rt; told.as_str(), wanted, "at {case}");
    }
}
