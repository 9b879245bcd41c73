//! Files that are refused, by name: files that are cut or changed, and footers that lie.
use crate::fixtures::{
    FIRST, FOOTER, MAGIC, SECOND, SEGMENTS, file_of, file_with, memory, said, sides, tells, told,
    whole,
};
use std::alloc::Global;
use std::process::Abort;

/// The bytes with the lowest bit of one of them changed.
fn changed(rt: &impl Abort, alloc: Global, bytes: &[u8], at: usize) -> Vec<u8> {
    let mut changed = Vec::new(alloc);
    for (i, byte) in bytes.iter().enumerate() {
        changed
            .push(if i == at { *byte ^ 1 } else { *byte })
            .expect(rt, "push");
    }
    changed
}

#[test]
fn a_file_that_is_cut_or_changed_at_any_byte_is_refused_or_gives_its_segments(rt: HostRuntime) {
    let alloc = rt.alloc();
    let bytes = whole(&rt, alloc);
    assert_eq!(rt; bytes.len(), 293);
    for n in 0..bytes.len() {
        let part = &bytes.as_slice()[..n];
        let wanted = if n < 56 {
            "Short | Short"
        } else {
            "Magic | Magic"
        };
        assert!(rt; tells(&rt, alloc, part, true, &[0], wanted), "cut at {n}");
    }
    for (begin, end, wanted) in [
        (0, 8, "Magic | Magic Magic"),
        (8, 18, "<leaf> | Digest <2>"),
        (18, 23, "<leaf> | <1> Digest"),
        (23, 278, "FooterDigest | FooterDigest FooterDigest"),
        (278, 285, "FooterLength | FooterLength FooterLength"),
        (285, 293, "Magic | Magic Magic"),
    ] {
        for at in begin..end {
            let changed = changed(&rt, alloc, bytes.as_slice(), at);
            assert!(rt;
                tells(&rt, alloc, changed.as_slice(), true, &[0, 1], wanted),
                "byte {at}"
            );
        }
    }
    let first = changed(&rt, alloc, bytes.as_slice(), 8);
    let wanted = "<leaf> | 00000100000000000000 <2>";
    assert!(rt; tells(&rt, alloc, first.as_slice(), false, &[0, 1], wanted));
}

/// `=` for the bytes of the whole file, and else the first letter of the refusal.
fn letter<'a>(answer: &'a str, same: &str) -> &'a str {
    match answer {
        "Footer" => "F",
        "Place" => "P",
        "NoSegment" => "N",
        "Digest" => "D",
        _ if answer == same => "=",
        _ => "x",
    }
}

/// The letters of both segments of a file with this footer.
fn letters(rt: &impl Abort, alloc: Global, footer: &[u8], first: &mut String, second: &mut String) {
    let bytes = file_with(rt, alloc, SEGMENTS, footer);
    let (one, other) = (
        memory(rt, alloc, bytes.as_slice()),
        memory(rt, alloc, bytes.as_slice()),
    );
    let told = told(rt, alloc, one, other, true, &[0, 1]);
    let (_opened, given) = sides(rt, told.as_str(), " | ");
    let (one, other) = sides(rt, given, " ");
    first.push_str(letter(one, FIRST)).expect(rt, "push_str");
    second
        .push_str(letter(other, SECOND))
        .expect(rt, "push_str");
}

// The lowest bit of each byte of a footer is changed in turn, and its digest is that of the changed footer.
#[test]
fn a_footer_that_is_changed_with_its_digest_is_refused_or_says_where_segments_are(rt: HostRuntime) {
    let alloc = rt.alloc();
    let footer = said(&rt, alloc, FOOTER);
    let mut first = String::new(alloc);
    let mut second = String::new(alloc);
    for at in 0..footer.len() {
        let changed = changed(&rt, alloc, footer.as_bytes(), at);
        letters(&rt, alloc, changed.as_slice(), &mut first, &mut second);
    }
    assert_eq!(rt; first.as_str(), FIRST_LETTERS);
    assert_eq!(rt; second.as_str(), SECOND_LETTERS);
}

/// The first segment, by the form of a footer.
const FIRST_LETTERS: &str =
    "FFFFFFFFFFFFFFFFFFFFFFFFFFFFFFFFFFF=F=FFF=F=FFFFFFFFFF=FFFFFFFFFFFFFFFFFDFFDFFDDDDFDDDDDDDDDDDDDDDDDDDDDDDDDDDDDDFDDFDDFDDDFDDDFDDDDDDDFDDDDDDFFFFFFFPF=FF=====F========F====F=F=========================F===========F====FFFF";

/// The second segment.
const SECOND_LETTERS: &str =
    "FFFFFFFFFFFFFFFFFFFFFFFFFFFFFFFFFFF=F=FFF=F=FFFFFFFFFF=FFFFFFFFFFFFFFFFF=FF=FF====F==============================F==F==F===F===F=======F======FFFFFFFPFDFFDDDDDFDDDDDDDDFDDDDFDFDDDDDDDDDDDDDDDDDDDDDDDDDFDDDDDDDDDDDFDDDDFFFF";

/// Whether a line `FOOTER -> OPENED | FIRST` holds of a file of both segments with that footer.
fn holds(rt: &impl Abort, alloc: Global, line: &str) -> bool {
    let (footer, wanted) = sides(rt, line, " -> ");
    let footer = said(rt, alloc, footer);
    let bytes = file_with(rt, alloc, SEGMENTS, footer.as_bytes());
    tells(rt, alloc, bytes.as_slice(), true, &[0], wanted)
}

#[test]
fn footers_that_lie_or_say_none_are_refused(rt: HostRuntime) {
    for line in FOOTERS.lines() {
        assert!(rt; holds(&rt, rt.alloc(), line), "at {line}");
    }
    let bytes = file_with(&rt, rt.alloc(), SEGMENTS, &[0xff]);
    assert!(rt;
        tells(
            &rt,
            rt.alloc(),
            bytes.as_slice(),
            true,
            &[0],
            "Footer | Footer"
        )
    );
}

// Places, digests of 64 hex digits of either case, and footers that are none.
const FOOTERS: &str = r#"{<i32>,"segments":[[0,8,10,"<first>"],[1,18,5,"<second>"]]} -> <leaf> | <1>
{<i32>,"segments":[]} -> <leaf> | NoSegment
{<i32>,"segments":[[4294967295,8,10,"<first>"]]} -> <leaf> | NoSegment
{<i32>,"segments":[[0,8,10,"<first>"],[1,8,10,"<first>"]]} -> <leaf> | <1>
{<i32>,"segments":[[1,18,5,"<first>"],[0,8,10,"<first>"]]} -> <leaf> | <1>
{<i32>,"segments":[[0,9,10,"<first>"]]} -> <leaf> | Digest
{<i32>,"segments":[[0,8,9,"<first>"]]} -> <leaf> | Digest
{<i32>,"segments":[[0,13,10,"<first>"]]} -> <leaf> | Digest
{<i32>,"segments":[[0,7,10,"<first>"]]} -> Place | Place
{<i32>,"segments":[[0,14,10,"<first>"]]} -> Place | Place
{<i32>,"segments":[[0,24,0,"<first>"]]} -> Place | Place
{<i32>,"segments":[[0,8,18446744073709551615,"<first>"]]} -> Place | Place
{<i32>,"segments":[[0,18446744073709551615,10,"<first>"]]} -> Place | Place
{<i32>,"segments":[[0,8,10,"<first>"],[1,18,6,"<first>"]]} -> Place | Place
{<i32>,"segments":[[0,8,18446744073709551616,"<first>"]]} -> Footer | Footer
{<i32>,"segments":[[4294967296,8,10,"<first>"]]} -> Footer | Footer
{<i32>,"segments":[[0,8,10,"<first>"],[0,18,5,"<first>"]]} -> Footer | Footer
{<i32>,"segments":[[0,8,10,"<first>0"]]} -> Footer | Footer
{<i32>,"segments":[[0,8,10,"<first>","<first>"]]} -> Footer | Footer
{<i32>,"segments":[[0,8,10]]} -> Footer | Footer
{<i32>,"segments":[[0,-8,10,"<first>"]]} -> Footer | Footer
{<i32>,"segments":[[0,8.0,10,"<first>"]]} -> Footer | Footer
{<i32>,"segments":[["0",8,10,"<first>"]]} -> Footer | Footer
{<i32>,"segments":[[0,8,10,"<first>"],]} -> Footer | Footer
{<i32>,"segments":[[0,8,10,"<first>"]]} -> <leaf> | <1>
{<i32>,"segments":[[0,8,10,"C79DFD1639CB01C6E9475BECCD17D9E076CA80F62F4C5A505A1586CC7A3E9338"]]} -> <leaf> | <1>
{<i32>,"segments":[[0,8,10,"<second>"]]} -> <leaf> | Digest
{<i32>,"segments":[[0,8,10,"c79dfd1639cb01c6e9475beccd17d9e076ca80f62f4c5a505a1586cc7a3e93"]]} -> Footer | Footer
{<i32>,"segments":[[0,8,10,"g79dfd1639cb01c6e9475beccd17d9e076ca80f62f4c5a505a1586cc7a3e9338"]]} -> Footer | Footer
{<i32>,"segments":[[0,8,10,""]]} -> Footer | Footer
 -> Footer | Footer
[] -> Footer | Footer
{} -> Footer | Footer
{} {} -> Footer | Footer
{"dtype":"i32?","layout":{"leaf":[],"rows":0}} -> Footer | Footer
{"dtype":"i32?","segments":[]} -> Footer | Footer
{"layout":{"leaf":[],"rows":0},"segments":[]} -> Footer | Footer
{"dtype":"i32?","layout":{"leaf":[],"rows":0},"segments":[],"version":1} -> Footer | Footer
{"dtype":"f32","layout":{"leaf":[],"rows":0},"segments":[]} -> Footer | Footer
{"dtype":"i32?","layout":{"leaf":[]},"segments":[]} -> Footer | Footer
{"dtype":"i32?","layout":{"leaf":[],"rows":0,"spelling":3},"segments":[]} -> Footer | Footer
{"dtype":"i32?","layout":{"leaf":[],"rows":0},"segments":{}} -> Footer | Footer
{"dtype":"i32?","layout":{"leaf":[],"rows":0},"segments":[] -> Footer | Footer
 {"segments":[],"dtype":"i32?","layout":{"rows":0,"spelling":2,"leaf":[]}}  -> leaf i32?, 0 rows, spelling 2, segments  | NoSegment"#;

/// A footer of two columns.
const COLUMNS: &str =
    r#"{"dtype":{"nullable":false,"struct":[["a","u8"],["b","u8"]]},"layout":{"rows":1,"struct":[{"leaf":[[0,1]],"rows":1},{"leaf":[[1,1]],"rows":1}]},"segments":[]}"#;

/// Whether a file with that footer, in which one text is replaced by another, is so, with the digest of that footer.
fn tells_replaced(rt: &impl Abort, alloc: Global, from: &str, to: &str, wanted: &str) -> bool {
    let footer = COLUMNS.replace(alloc, from, to).expect(rt, "replace");
    let footer = footer.as_bytes();
    let of = COLUMNS.as_bytes();
    let bytes = file_of(rt, alloc, MAGIC, &[], footer, of, footer.len() as u64);
    tells(rt, alloc, bytes.as_slice(), true, &[], wanted)
}

#[test]
fn a_footer_of_another_digest_length_or_version_is_refused(rt: HostRuntime) {
    let alloc = rt.alloc();
    let opened =
        "struct {a=u8, b=u8}, 1 rows\n  leaf u8, 1 rows, spelling 1, segments 0 (1)\n  leaf u8, 1 rows, spelling 1, segments 1 (1) |";
    for (from, to, wanted) in [
        ("none", "", opened),
        (r#"["a","u8"]"#, r#"["c","u8"]"#, "FooterDigest |"),
        (r#"["a","u8"]"#, r#"["a","i8"]"#, "FooterDigest |"),
        (
            r#"["a","u8"],["b","u8"]"#,
            r#"["b","u8"],["a","u8"]"#,
            "FooterDigest |",
        ),
        (r#"[[0,1]]"#, r#"[[1,1]]"#, "FooterDigest |"),
        (r#"{"dtype""#, r#" {"dtype""#, "FooterDigest |"),
    ] {
        assert!(rt; tells_replaced(&rt, alloc, from, to, wanted), "{to}");
    }
    // a file of 72 bytes whose footer is `1`
    for (length, wanted) in [
        (0, "FooterDigest |"),
        (1, "Footer |"),
        (2, "FooterDigest |"),
        (16, "FooterDigest |"),
        (17, "FooterLength |"),
        (48, "FooterLength |"),
        (72, "FooterLength |"),
        (u64::MAX, "FooterLength |"),
    ] {
        let bytes = file_of(&rt, alloc, MAGIC, SEGMENTS, b"1", b"1", length);
        assert!(rt;
            tells(&rt, alloc, bytes.as_slice(), true, &[], wanted),
            "{length}"
        );
        let bytes = file_of(&rt, alloc, b"SIBLAG01", SEGMENTS, b"1", b"1", length);
        assert!(rt;
            tells(&rt, alloc, bytes.as_slice(), true, &[], "Magic |"),
            "{length}"
        );
    }
}
