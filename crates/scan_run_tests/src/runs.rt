//! Runs whose reads and writes fail, each in turn, long lines and long inputs, and lines of values.
use crate::scans::sorted;
use scan_run::run::run;
use scan_run::{MemoryInput, MemoryOutput, NoGate, WriteFault, push_line, push_value, write_all};
use scan_values::{DType, NameFault, Text, Value};
use std::alloc::Global;
use std::hash::{BuildHasherDefault, FoldHasher};
use std::process::Abort;
use std::thread::Threads;

const A: &str =
    r#"{"dtype":{"struct":[["a","i32"]]},"files":[{"id":"A","layout":{"struct":[{"leaf":[[0,3]],"rows":3}],"rows":3},"segments":[[0,"010000000200000003000000"]]}],"request":{"projection":"$"}}"#;

const LINES_OF_A: &str = r#"{"file":0,"row":0,"value":{"a":1}}
{"file":0,"row":1,"value":{"a":2}}
{"file":0,"row":2,"value":{"a":3}}
"#;

/// Enough rows for several pieces of lines, each of which has its number.
const MANY: &str =
    r##"{"dtype":{"struct":[]},"files":[{"id":"E","layout":{"struct":[],"rows":5000},"segments":[]}],"request":{"projection":{"pack":[["a","#row_idx"]]}}}"##;

/// The status of a run on the word `scan`, and what it wrote. The numbered reads and writes fail.
fn ran<R: Threads + Sync + Abort>(
    rt: &R,
    alloc: Global,
    bytes: Vec<u8>,
    reads: &[u64],
    writes: &[u64],
) -> (u8, Vec<u8>) {
    let mut words = Vec::new(alloc);
    words
        .push(String::from_str(alloc, "scan").expect(rt, "from_str"))
        .expect(rt, "push");
    let mut input = MemoryInput::new(alloc, bytes, sorted(rt, alloc, reads));
    let mut output = MemoryOutput::new(alloc, sorted(rt, alloc, writes));
    let hasher: BuildHasherDefault<FoldHasher> = BuildHasherDefault::new();
    let gate = NoGate::new();
    let status = run(
        rt,
        alloc,
        words.as_slice(),
        &mut input,
        &mut output,
        &gate,
        hasher,
    );
    (status, output.bytes)
}

/// The status of a run on a text, and how many of these bytes it wrote, which are the front of them.
fn front_of<R: Threads + Sync + Abort>(
    rt: &R,
    alloc: Global,
    text: &str,
    calls: (&[u64], &[u64]),
    whole: &str,
) -> (u8, usize) {
    let bytes = Vec::from_slice(alloc, text.as_bytes()).expect(rt, "from_slice");
    let (reads, writes) = calls;
    let (status, written) = ran(rt, alloc, bytes, reads, writes);
    assert!(rt; whole.as_bytes().starts_with(written.as_slice()));
    assert!(rt; written.is_empty() || written.ends_with(b"}\n"));
    (status, written.len())
}

#[test]
fn each_read_and_each_write_fails_in_turn(rt: HostRuntime) {
    let alloc = rt.alloc();
    let whole = LINES_OF_A;
    assert_eq!(rt; front_of(&rt, alloc, A, (&[0], &[]), whole), (6, 0));
    assert_eq!(rt; front_of(&rt, alloc, A, (&[1], &[]), whole), (6, 0));
    assert_eq!(rt;
        front_of(&rt, alloc, A, (&[2], &[]), whole),
        (0, whole.len())
    );
    assert_eq!(rt; front_of(&rt, alloc, A, (&[], &[0]), whole), (6, 0));
    assert_eq!(rt;
        front_of(&rt, alloc, A, (&[], &[1]), whole),
        (0, whole.len())
    );
}

#[test]
fn more_rows_than_a_piece_has_room_for_are_all_written(rt: HostRuntime) {
    let alloc = rt.alloc();
    let mut whole = String::new(alloc);
    for n in 0..5000 {
        let line = format!(in alloc; "{{\"file\":0,\"row\":{n},\"value\":{{\"a\":{n}}}}}\n");
        whole
            .push_str(line.expect(&rt, "format").as_str())
            .expect(&rt, "push_str");
    }
    let (status, all) = front_of(&rt, alloc, MANY, (&[], &[]), whole.as_str());
    assert_eq!(rt; (status, all), (0, whole.len()));
    let mut before = 0;
    for number in 0..3 {
        let (status, len) = front_of(&rt, alloc, MANY, (&[], &[number]), whole.as_str());
        assert_eq!(rt; status, 6);
        assert!(rt;
            number == 0 || (before < len && len < whole.len()),
            "write {number}"
        );
        before = len;
    }
    let (status, piece) = front_of(&rt, alloc, MANY, (&[], &[1]), whole.as_str());
    assert!(rt;
        status == 6 && piece <= 65_536 && 65_536 < piece.saturating_add(100),
        "{piece}"
    );
    let (status, all) = front_of(&rt, alloc, MANY, (&[], &[100]), whole.as_str());
    assert_eq!(rt; (status, all), (0, whole.len()));
}

#[test]
fn a_row_that_is_longer_than_a_piece_is_written(rt: HostRuntime) {
    let alloc = rt.alloc();
    let hex = "78".repeat(alloc, 200_000).expect(&rt, "repeat");
    let text = format!(in alloc;
        "{{\"dtype\":\"utf8\",\"files\":[{{\"id\":\"A\",\"layout\":{{\"leaf\":[[0,2]],\"rows\":2}},\"segments\":[[0,\"400d0300{hex}0100000079\"]]}}],\"request\":{{\"projection\":\"$\"}}}}"
    ).expect(&rt, "format");
    let letters = "x".repeat(alloc, 200_000).expect(&rt, "repeat");
    let whole = format!(in alloc;
        "{{\"file\":0,\"row\":0,\"value\":\"{letters}\"}}\n{{\"file\":0,\"row\":1,\"value\":\"y\"}}\n"
    ).expect(&rt, "format");
    let ends = front_of(&rt, alloc, text.as_str(), (&[], &[]), whole.as_str());
    assert_eq!(rt; ends, (0, whole.len()));
}

#[test]
fn an_input_may_have_67108864_bytes(rt: HostRuntime) {
    let alloc = rt.alloc();
    let piece = "x".repeat(alloc, 65_536).expect(&rt, "repeat");
    for (more, wanted) in [("", 2), ("x", 6)] {
        let mut bytes = Vec::from_slice(alloc, more.as_bytes()).expect(&rt, "from_slice");
        for _ in 0..1_024 {
            bytes
                .extend_from_slice(piece.as_str().as_bytes())
                .expect(&rt, "extend_from_slice");
        }
        let (status, lines) = ran(&rt, alloc, bytes, &[], &[]);
        assert!(rt; status == wanted && lines.is_empty(), "{status}");
    }
}

#[test]
fn an_output_takes_all_bytes_or_fails(rt: HostRuntime) {
    let alloc = rt.alloc();
    let mut output = MemoryOutput::new(alloc, sorted(&rt, alloc, &[1]));
    assert_eq!(rt; write_all(&mut output, b"one"), Ok(()));
    assert_eq!(rt; write_all(&mut output, b"two"), Err(WriteFault::Failed));
    assert_eq!(rt; write_all(&mut output, b"three"), Ok(()));
    assert_eq!(rt; output.written(), b"onethree".as_slice());
}

#[test]
fn lines_and_values_are_pushed_and_shown(rt: HostRuntime) {
    let alloc = rt.alloc();
    let mut out = Vec::new(alloc);
    let least = Value::Int(-9_223_372_036_854_775_808);
    push_line(12, u64::MAX, &least, &DType::i64(), &mut out).expect(&rt, "push_line");
    let dtype = DType::i64().nullable();
    push_line(12, u64::MAX, &Value::Null, &dtype, &mut out).expect(&rt, "push_line");
    let text = String::from_str(
        alloc,
        "a\"b\\c\u{8}\t\n\u{c}\r\u{0}\u{b}\u{1f}\u{7f}/\u{e9}\u{1f600}",
    );
    let text = Value::Text(Text::new(text.expect(&rt, "from_str")));
    push_value(&text, &DType::text(), &mut out).expect(&rt, "push_value");
    let front = "{\"file\":12,\"row\":18446744073709551615,\"value\":";
    let wanted = format!(in alloc;
        "{front}-9223372036854775808}}\n{front}null}}\n\"a\\\"b\\\\c\\b\\t\\n\\f\\r\\u0000\\u000b\\u001f\u{7f}/\u{e9}\u{1f600}\""
    ).expect(&rt, "format");
    assert_eq!(rt; out.as_slice(), wanted.as_str().as_bytes());
    let least = Value::Int(-170_141_183_460_469_231_731_687_303_715_884_105_728);
    let fault = NameFault::Reserved;
    let shown = format!(in alloc; "{least}, {fault}").expect(&rt, "format");
    assert_eq!(rt;
        shown.as_str(),
        "-170141183460469231731687303715884105728, a name is reserved"
    );
}
