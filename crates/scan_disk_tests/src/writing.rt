//! Files that are written, byte by byte as another writer of the form writes them.
ghost use Rattle.std.specs.Prelude.{◌≡◌};

use crate::fixtures::sides;
use scan_disk_writer::{MemoryOut, file_of, write_batches};
use scan_encode::WriteOptions;
use scan_import::rows_of_json;
use scan_manifest::manifest_of_bytes;
use scan_spelling::Spelling;
use scan_values::{Array, DType, Value};
use std::alloc::Global;
use std::io::Cursor;
use std::process::Abort;

/// The dtype that a text says.
fn dtype(rt: &impl Abort, alloc: Global, text: &str) -> DType {
    let manifest = format!(in alloc;
        "{{\"dtype\":{text},\"files\":[],\"request\":{{\"projection\":\"$\"}}}}"
    ).expect(rt, "format");
    match manifest_of_bytes(alloc, manifest.as_bytes()) {
        Ok(manifest) => manifest.dtype,
        Err(_) => panic!(rt; "no dtype"),
    }
}

/// The values in a list of JSON.
fn values(rt: &impl Abort, alloc: Global, of: &str, list: &str) -> Vec<Value> {
    let of = format!(in alloc; "{{\"struct\":[[\"v\",{{\"list\":{of}}}]]}}").expect(rt, "format");
    let of = dtype(rt, alloc, of.as_str());
    let line = format!(in alloc; "{{\"v\":{list}}}").expect(rt, "format");
    let Ok(rows) = rows_of_json(alloc, Cursor::new(line.as_bytes()), &of) else {
        panic!(rt; "no rows");
    };
    let [Value::Struct(fields)] = rows.as_slice() else {
        panic!(rt; "no row");
    };
    let [Value::List(values)] = fields.as_slice() else {
        panic!(rt; "no list");
    };
    values.try_clone(alloc).expect(rt, "try_clone").into_vec()
}

/// The rows of a dtype, which a text says too, in a list of JSON.
pub(crate) fn rows(rt: &impl Abort, alloc: Global, dtype: &DType, of: &str, list: &str) -> Array
    ensures { result.dtype ≡ dtype.now }
{
    let dtype = dtype.try_clone(alloc).expect(rt, "try_clone");
    match Array::try_new(dtype, values(rt, alloc, of, list)) {
        Ok(rows) => rows,
        Err(_) => panic!(rt; "no array"),
    }
}

/// The bytes of a file of the rows of a list, or of those of two arrays: `[1,2] and [3]`.
fn written(
    rt: &impl Abort,
    alloc: Global,
    of: &str,
    lists: &str,
    options: &WriteOptions,
) -> Vec<u8> {
    let dtype = dtype(rt, alloc, of);
    let Some((first, second)) = lists.split_once(" and ") else {
        let rows = rows(rt, alloc, &dtype, of, lists);
        return file_of(alloc, &rows, options).expect(rt, "file_of");
    };
    let batches = [
        rows(rt, alloc, &dtype, of, first),
        rows(rt, alloc, &dtype, of, second),
    ];
    let mut out = MemoryOut::new(alloc);
    write_batches(alloc, &mut out, &dtype, batches.as_slice(), options).expect(rt, "write_batches");
    out.into_bytes()
}

/// Whether a block holds: a line `DTYPE of LISTS by SEGMENT_ROWS spelled SPELLING`, and the body, the footer and its digest of
/// a file of these rows.
fn holds(rt: &impl Abort, alloc: Global, block: &str) -> bool {
    let (line, rest) = sides(rt, block, "\n");
    let (body, rest) = sides(rt, rest, "\n");
    let (footer, digest) = sides(rt, rest, "\n");
    let (of, line) = sides(rt, line, " of ");
    let (list, line) = sides(rt, line, " by ");
    let (segment_rows, spelling) = sides(rt, line, " spelled ");
    let one = spelling == "One";
    let options = WriteOptions {
        segment_rows: segment_rows.parse::<usize>().expect(rt, "parse"),
        spelling: if one { Spelling::One } else { Spelling::Two },
    };
    let file = written(rt, alloc, of, list, &options);
    let found = hex::encode(alloc, file.as_slice()).expect(rt, "encode");
    found.as_str() == file_text(rt, alloc, body, footer, digest).as_str()
}

/// A file of this body, in hex, and this footer and its digest, in hex.
fn file_text(rt: &impl Abort, alloc: Global, body: &str, footer: &str, digest: &str) -> String {
    let magic = hex::encode(alloc, b"SIBLAG02".as_slice()).expect(rt, "encode");
    let length = (footer.len() as u64).to_le_bytes();
    let length = hex::encode(alloc, length.as_slice()).expect(rt, "encode");
    let footer = hex::encode(alloc, footer.as_bytes()).expect(rt, "encode");
    format!(in alloc; "{magic}{body}{footer}{digest}{length}{magic}").expect(rt, "format")
}

#[test]
fn rows_are_written_byte_by_byte_as_another_writer_writes_them(rt: HostRuntime) {
    for block in FILES.split("\n\n") {
        assert!(rt; holds(&rt, rt.alloc(), block), "at {block}");
    }
}

// Segments of so many rows, by both spellings; rows of two arrays, of which both have rows in one segment; a null struct has rows in its fields, and 0 rows a segment are 1; a file of
// no lists has the offset where the first would begin.
const FILES: &str =
    r#"{"struct":[["n","i32?"],["l",{"list":"utf8?","nullable":true}]]} of [{"n":1,"l":["a",null]},{"n":null,"l":null},{"n":-3,"l":["bc"]}] by 2 spelled One
0100010000000000000001fdffffff0000000000000000020000000000000002000000000000000300000000000000010001010001000000610000000001020000006263
{"dtype":{"nullable":false,"struct":[["n","i32?"],["l",{"list":"utf8?","nullable":true}]]},"layout":{"rows":3,"struct":[{"leaf":[[0,2],[1,1]],"rows":3,"spelling":1},{"list":[{"leaf":[[6,2],[7,1]],"rows":3,"spelling":1},{"leaf":[[2,2],[3,2]],"rows":4,"spelling":1},{"leaf":[[4,2],[5,1]],"rows":3,"spelling":1}],"offsets":"u64","rows":3}]},"segments":[[0,8,10,"c79dfd1639cb01c6e9475beccd17d9e076ca80f62f4c5a505a1586cc7a3e9338"],[1,18,5,"e9406fc075bc88ab770a2f00edbcbc8522888d56e2789d9ade1509353b0a6843"],[2,23,16,"c571327cb01ac1de6972713cbf6cc1fc3c2cab8b581ee0bc3fe6d8b56963fd5b"],[3,39,16,"fe6d3d3bb5dd778af1128cc7b2b33668d51b9a52dfc8f2342be37ddc06a0072d"],[4,55,2,"47dc540c94ceb704a23875c11273e16bb0b8a87aed84de911f2133568115f254"],[5,57,1,"4bf5122f344554c53bde2ebb8cd2b7e3d1600ad631c385a5d7cce23c7785459a"],[6,58,11,"040558f299d8307a7451278ed0899cac3d097bd3d3b8c6b91b032c87746b98c3"],[7,69,7,"3d17acefc7e16ee2ff235ed83ac8e9eb87c8e22182803f0ce1da57d9acec72fc"]]}
191490eb471b1fbcdcb2e898b55e00bed2493360d4f1c76d92d1b1225d934eb6

{"struct":[["n","i32?"],["l",{"list":"utf8?","nullable":true}]]} of [{"n":1,"l":["a",null]}] and [{"n":null,"l":null},{"n":-3,"l":["bc"]}] by 2 spelled One
0100010000000000000001fdffffff0000000000000000020000000000000002000000000000000300000000000000010001010001000000610000000001020000006263
{"dtype":{"nullable":false,"struct":[["n","i32?"],["l",{"list":"utf8?","nullable":true}]]},"layout":{"rows":3,"struct":[{"leaf":[[0,2],[1,1]],"rows":3,"spelling":1},{"list":[{"leaf":[[6,2],[7,1]],"rows":3,"spelling":1},{"leaf":[[2,2],[3,2]],"rows":4,"spelling":1},{"leaf":[[4,2],[5,1]],"rows":3,"spelling":1}],"offsets":"u64","rows":3}]},"segments":[[0,8,10,"c79dfd1639cb01c6e9475beccd17d9e076ca80f62f4c5a505a1586cc7a3e9338"],[1,18,5,"e9406fc075bc88ab770a2f00edbcbc8522888d56e2789d9ade1509353b0a6843"],[2,23,16,"c571327cb01ac1de6972713cbf6cc1fc3c2cab8b581ee0bc3fe6d8b56963fd5b"],[3,39,16,"fe6d3d3bb5dd778af1128cc7b2b33668d51b9a52dfc8f2342be37ddc06a0072d"],[4,55,2,"47dc540c94ceb704a23875c11273e16bb0b8a87aed84de911f2133568115f254"],[5,57,1,"4bf5122f344554c53bde2ebb8cd2b7e3d1600ad631c385a5d7cce23c7785459a"],[6,58,11,"040558f299d8307a7451278ed0899cac3d097bd3d3b8c6b91b032c87746b98c3"],[7,69,7,"3d17acefc7e16ee2ff235ed83ac8e9eb87c8e22182803f0ce1da57d9acec72fc"]]}
191490eb471b1fbcdcb2e898b55e00bed2493360d4f1c76d92d1b1225d934eb6

{"struct":[["n","i32?"],["l",{"list":"utf8?","nullable":true}]]} of [{"n":1,"l":["a",null]},{"n":null,"l":null},{"n":-3,"l":["bc"]}] by 2 spelled Two
01010000000000000001fdffffff000000000000000002000000000000000200000000000000030000000000000001010101000000610000000001020000006263
{"dtype":{"nullable":false,"struct":[["n","i32?"],["l",{"list":"utf8?","nullable":true}]]},"layout":{"rows":3,"struct":[{"leaf":[[0,2],[1,1]],"rows":3,"spelling":2},{"list":[{"leaf":[[6,2],[7,1]],"rows":3,"spelling":2},{"leaf":[[2,2],[3,2]],"rows":4,"spelling":2},{"leaf":[[4,2],[5,1]],"rows":3,"spelling":2}],"offsets":"u64","rows":3}]},"segments":[[0,8,9,"46f8ec5a439c92e1df8299e1a4432a7ee172d8496b5e33e0a35a7b67163371b5"],[1,17,5,"e9406fc075bc88ab770a2f00edbcbc8522888d56e2789d9ade1509353b0a6843"],[2,22,16,"c571327cb01ac1de6972713cbf6cc1fc3c2cab8b581ee0bc3fe6d8b56963fd5b"],[3,38,16,"fe6d3d3bb5dd778af1128cc7b2b33668d51b9a52dfc8f2342be37ddc06a0072d"],[4,54,1,"4bf5122f344554c53bde2ebb8cd2b7e3d1600ad631c385a5d7cce23c7785459a"],[5,55,1,"4bf5122f344554c53bde2ebb8cd2b7e3d1600ad631c385a5d7cce23c7785459a"],[6,56,10,"631d5eb81d4ecf14dae072f8738a152baa8c2139960e937f5ab2cdefeef5e6b2"],[7,66,7,"3d17acefc7e16ee2ff235ed83ac8e9eb87c8e22182803f0ce1da57d9acec72fc"]]}
1a1f67a2534f8d525e788dcf0d02827d61757f38673ccf9d347fddd4e31c9dbc

{"struct":[["a","u8"],["b",{"list":{"list":"bool"}}]],"nullable":true} of [null,{"a":7,"b":[[true],[],[false,true]]},{"a":0,"b":[]}] by 1 spelled Two
00010100070000000000000000000000000000000000030000000000000003000000000000000000000000000000010000000000000001000000000000000300000000000000010001
{"dtype":{"nullable":true,"struct":[["a","u8"],["b",{"list":{"list":"bool","nullable":false},"nullable":false}]]},"layout":{"rows":3,"struct":[{"leaf":[[0,1],[1,1],[2,1]],"rows":3,"spelling":2},{"leaf":[[3,1],[4,1],[5,1]],"rows":3,"spelling":2},{"list":[{"list":[{"leaf":[[14,1],[15,1],[16,1]],"rows":3,"spelling":2},{"leaf":[[10,1],[11,1],[12,1],[13,1]],"rows":4,"spelling":2}],"offsets":"u64","rows":3},{"leaf":[[6,1],[7,1],[8,1],[9,1]],"rows":4,"spelling":2}],"offsets":"u64","rows":3}]},"segments":[[0,8,1,"6e340b9cffb37a989ca544e6bb780a2c78901d3fb33738768511a30617afa01d"],[1,9,1,"4bf5122f344554c53bde2ebb8cd2b7e3d1600ad631c385a5d7cce23c7785459a"],[2,10,1,"4bf5122f344554c53bde2ebb8cd2b7e3d1600ad631c385a5d7cce23c7785459a"],[3,11,1,"6e340b9cffb37a989ca544e6bb780a2c78901d3fb33738768511a30617afa01d"],[4,12,1,"ca358758f6d27e6cf45272937977a748fd88391db679ceda7dc7bf1f005ee879"],[5,13,1,"6e340b9cffb37a989ca544e6bb780a2c78901d3fb33738768511a30617afa01d"],[6,14,8,"af5570f5a1810b7af78caf4bc70a660f0df51e42baf91d4de5b2328de0e83dfc"],[7,22,8,"af5570f5a1810b7af78caf4bc70a660f0df51e42baf91d4de5b2328de0e83dfc"],[8,30,8,"35be322d094f9d154a8aba4733b8497f180353bd7ae7b0a15f90b586b549f28b"],[9,38,8,"35be322d094f9d154a8aba4733b8497f180353bd7ae7b0a15f90b586b549f28b"],[10,46,8,"af5570f5a1810b7af78caf4bc70a660f0df51e42baf91d4de5b2328de0e83dfc"],[11,54,8,"7c9fa136d4413fa6173637e883b6998d32e1d675f88cddff9dcbcf331820f4b8"],[12,62,8,"7c9fa136d4413fa6173637e883b6998d32e1d675f88cddff9dcbcf331820f4b8"],[13,70,8,"35be322d094f9d154a8aba4733b8497f180353bd7ae7b0a15f90b586b549f28b"],[14,78,1,"4bf5122f344554c53bde2ebb8cd2b7e3d1600ad631c385a5d7cce23c7785459a"],[15,79,1,"6e340b9cffb37a989ca544e6bb780a2c78901d3fb33738768511a30617afa01d"],[16,80,1,"4bf5122f344554c53bde2ebb8cd2b7e3d1600ad631c385a5d7cce23c7785459a"]]}
c713602df813b0c560a73a85ff41356c0889d1af1791b86898034410bdd3d398

{"struct":[["a","u8"],["b",{"list":{"list":"bool"}}]],"nullable":true} of [null,{"a":7,"b":[[true],[],[false,true]]},{"a":0,"b":[]}] by 0 spelled Two
00010100070000000000000000000000000000000000030000000000000003000000000000000000000000000000010000000000000001000000000000000300000000000000010001
{"dtype":{"nullable":true,"struct":[["a","u8"],["b",{"list":{"list":"bool","nullable":false},"nullable":false}]]},"layout":{"rows":3,"struct":[{"leaf":[[0,1],[1,1],[2,1]],"rows":3,"spelling":2},{"leaf":[[3,1],[4,1],[5,1]],"rows":3,"spelling":2},{"list":[{"list":[{"leaf":[[14,1],[15,1],[16,1]],"rows":3,"spelling":2},{"leaf":[[10,1],[11,1],[12,1],[13,1]],"rows":4,"spelling":2}],"offsets":"u64","rows":3},{"leaf":[[6,1],[7,1],[8,1],[9,1]],"rows":4,"spelling":2}],"offsets":"u64","rows":3}]},"segments":[[0,8,1,"6e340b9cffb37a989ca544e6bb780a2c78901d3fb33738768511a30617afa01d"],[1,9,1,"4bf5122f344554c53bde2ebb8cd2b7e3d1600ad631c385a5d7cce23c7785459a"],[2,10,1,"4bf5122f344554c53bde2ebb8cd2b7e3d1600ad631c385a5d7cce23c7785459a"],[3,11,1,"6e340b9cffb37a989ca544e6bb780a2c78901d3fb33738768511a30617afa01d"],[4,12,1,"ca358758f6d27e6cf45272937977a748fd88391db679ceda7dc7bf1f005ee879"],[5,13,1,"6e340b9cffb37a989ca544e6bb780a2c78901d3fb33738768511a30617afa01d"],[6,14,8,"af5570f5a1810b7af78caf4bc70a660f0df51e42baf91d4de5b2328de0e83dfc"],[7,22,8,"af5570f5a1810b7af78caf4bc70a660f0df51e42baf91d4de5b2328de0e83dfc"],[8,30,8,"35be322d094f9d154a8aba4733b8497f180353bd7ae7b0a15f90b586b549f28b"],[9,38,8,"35be322d094f9d154a8aba4733b8497f180353bd7ae7b0a15f90b586b549f28b"],[10,46,8,"af5570f5a1810b7af78caf4bc70a660f0df51e42baf91d4de5b2328de0e83dfc"],[11,54,8,"7c9fa136d4413fa6173637e883b6998d32e1d675f88cddff9dcbcf331820f4b8"],[12,62,8,"7c9fa136d4413fa6173637e883b6998d32e1d675f88cddff9dcbcf331820f4b8"],[13,70,8,"35be322d094f9d154a8aba4733b8497f180353bd7ae7b0a15f90b586b549f28b"],[14,78,1,"4bf5122f344554c53bde2ebb8cd2b7e3d1600ad631c385a5d7cce23c7785459a"],[15,79,1,"6e340b9cffb37a989ca544e6bb780a2c78901d3fb33738768511a30617afa01d"],[16,80,1,"4bf5122f344554c53bde2ebb8cd2b7e3d1600ad631c385a5d7cce23c7785459a"]]}
c713602df813b0c560a73a85ff41356c0889d1af1791b86898034410bdd3d398

{"list":"u8"} of [] by 4 spelled One
0000000000000000
{"dtype":{"list":"u8","nullable":false},"layout":{"list":[{"leaf":[],"rows":0,"spelling":1},{"leaf":[[0,1]],"rows":1,"spelling":1}],"offsets":"u64","rows":0},"segments":[[0,8,8,"af5570f5a1810b7af78caf4bc70a660f0df51e42baf91d4de5b2328de0e83dfc"]]}
0786a86a9a2fdd639836018f12cf52af55df540a4526cc443a9231cff7e73530"#;
