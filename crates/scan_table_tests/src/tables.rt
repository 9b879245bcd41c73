//! Which fault of a table is told first, which sum is past 64 bits, and what a table asks of its files.
use crate::files::{Made, make, push_files};
use crate::texts::{expanded, sides};
use scan_caches::NoOpSegmentCache;
use scan_expr::Expression;
use scan_manifest::{ParseFault, read_expression};
use scan_multi::NoGate;
use scan_table::{Measure, TableSpec, scan_table};
use scan_values::{FieldName, Selection};
use serde_json::Value;
use std::alloc::Global;
use std::fmt::Write;
use std::process::Abort;
use std::thread::Threads;

/// What stands in a case behind this word.
fn after<'a>(case: &'a str, word: &str) -> Option<&'a str> {
    for part in case.split_whitespace() {
        if let Some(text) = part.strip_prefix(word) {
            return Some(text);
        }
    }
    None
}

/// An expression by its JSON.
fn part(rt: &impl Abort, alloc: Global, text: &str) -> Expression {
    let json = Value::from_str(alloc, text).expect(rt, "from_str");
    match read_expression(alloc, &json).expect(rt, "read_expression") {
        Some(part) => part,
        None => panic!(rt; "no expression"),
    }
}

/// A measure by its kind, or none.
fn measure(rt: &impl Abort, alloc: Global, kind: &str, of: &str) -> Option<Measure> {
    match kind {
        "count" => Some(Measure::Count),
        "values" => Some(Measure::Values(part(rt, alloc, of))),
        "sum" => Some(Measure::Sum(part(rt, alloc, of))),
        "least" => Some(Measure::Least(part(rt, alloc, of))),
        "greatest" => Some(Measure::Greatest(part(rt, alloc, of))),
        _ => None,
    }
}

/// What a case asks for: `key:k="$" count:n= sum:s="$" filter:"$" range:0..2`.
fn spec(rt: &impl Abort, alloc: Global, case: &str) -> TableSpec {
    let mut keys = Vec::new(alloc);
    let mut measures = Vec::new(alloc);
    for word in case.split_whitespace() {
        let (kind, said) = sides(rt, word, ":");
        let (name, of) = said.split_once('=').unwrap_or(("", ""));
        let name = FieldName::from_str(alloc, name).expect(rt, "from_str");
        if kind == "key" {
            keys.push((name, part(rt, alloc, of))).expect(rt, "push");
        } else if let Some(measure) = measure(rt, alloc, kind, of) {
            measures.push((name, measure)).expect(rt, "push");
        }
    }
    let filter = match after(case, "filter:") {
        Some(text) => Some(part(rt, alloc, text)),
        None => None,
    };
    let row_range = match after(case, "range:") {
        Some(text) => {
            let (start, end) = sides(rt, text, "..");
            Some(start.parse::<u64>().expect(rt, "parse")..end.parse::<u64>().expect(rt, "parse"))
        }
        None => None,
    };
    TableSpec {
        keys,
        measures,
        filter,
        row_range,
        selection: Selection::All,
    }
}

/// How many groups a table of a manifest's files has, or its fault, and what was done to the files.
fn told<R: Abort + Threads + Sync>(
    rt: &R,
    alloc: Global,
    manifest: &str,
    spec: &TableSpec,
    workers: usize,
) -> Result<String, ParseFault> {
    let Made {
        dtype,
        mut files,
        request: _,
    } = make(alloc, manifest)?;
    let mut cache = NoOpSegmentCache::new();
    let gate = NoGate::new();
    let given = scan_table(
        rt, alloc, &dtype, &mut files, &mut cache, spec, workers, &gate,
    );
    let mut text = match given {
        Ok(table) => format!(in alloc; " {} groups", table.groups.len()).expect(rt, "format"),
        Err(fault) => format!(in alloc; " {fault:?}").expect(rt, "format"),
    };
    push_files(rt, alloc, files.as_slice(), &mut text);
    Ok(text)
}

/// Whether a line `WORKERS CASE ->TOLD` holds of a manifest.
fn holds<R: Abort + Threads + Sync>(rt: &R, alloc: Global, manifest: &str, line: &str) -> bool {
    let line = expanded(rt, alloc, NAMES, line);
    let (asked, wanted) = sides(rt, line.as_str(), " ->");
    let (workers, case) = sides(rt, asked, " ");
    let workers = workers.parse::<usize>().expect(rt, "parse");
    let spec = spec(rt, alloc, case);
    let told = told(rt, alloc, manifest, &spec, workers).expect(rt, "told");
    told.as_str() == wanted
}

#[test]
fn the_first_fault_of_a_table_is_told(rt: HostRuntime) {
    for block in TABLES.split("\n\n") {
        let (manifest, lines) = sides(&rt, block, "\n");
        for line in lines.lines() {
            assert!(rt; holds(&rt, rt.alloc(), manifest, line), "at {line}");
        }
    }
}

const NAMES: &str = r##"<a> {"get":["a","$"]}
<w> {"get":["w","$"]}
<x> {"get":["x","$"]}
<y> {"get":["y","$"]}
<z> {"get":["z","$"]}
<big> {"ge":[{"get":["b","$"]},{"lit":20,"type":"i32"}]}"##;

// Over no files of {a: i32, w: utf8} faults come in their order; of two sums the first that is past 64 bits is told; a
// count alone asks for nothing.
const TABLES: &str =
    r##"{"dtype":{"struct":[["a","i32"],["w","utf8"]]},"files":[],"request":{"projection":"$"}}
0 range:2..1 key:#validity=<a> count:n= -> Scan(Concurrency)
1 range:2..1 key:#validity=<a> count:n= -> Scan(RowRange(Reversed))
1 key:k=<z> count:n= count:k= count:#validity= -> Scan(Bind(RepeatedName))
1 key:k=<z> count:#validity= count:k= -> Scan(Bind(ReservedName))
1 filter:<a> key:k="$" sum:s=<z> -> Scan(Bind(NoField))
1 filter:<a> key:k="$" count:n= -> Scan(Bind(NotBool))
1 key:a=<a> key:w=<w> key:k="$" sum:s=<w> -> KeyType { key: 2 }
1 key:w=<w> count:n= least:l=<w> values:v="$" sum:s=<w> -> MeasureType { measure: 3 }
1 values:v="$" greatest:g=<a> least:l="$" -> MeasureType { measure: 2 }
1 count:n= sum:s=<a> -> 1 groups

{"dtype":{"struct":[["x","u64"],["y","u64"]]},"files":[{"id":"A","layout":{"struct":[{"leaf":[[0,2]],"rows":2},{"leaf":[[1,2]],"rows":2}],"rows":2},"segments":[[0,"ffffffffffffffff0100000000000000"],[1,"feffffffffffffff0100000000000000"]]}],"request":{"projection":"$"}}
4 count:n= sum:y=<y> sum:x=<x> -> SumRange { measure: 2 } | 1: 0 1
4 count:n= sum:x=<x> sum:y=<y> sum:z=<x> -> SumRange { measure: 1 } | 1: 0 1
4 sum:y=<y> greatest:x=<x> -> 1 groups | 1: 0 1

{"dtype":{"struct":[["x","u64"]]},"files":[{"id":"A","layout":{"struct":[{"leaf":[[0,2]],"rows":2}],"rows":2},"segments":[[0,"ffffffffffffffff0100000000000000"]]}],"request":{"projection":"$"}}
1 sum:s=<x> -> SumRange { measure: 0 } | 1: 0

{"dtype":{"struct":[["a","i32"],["b","i32"]]},"files":[{"id":"A","layout":{"struct":[{"leaf":[[0,3]],"rows":3},{"leaf":[[1,3]],"rows":3}],"rows":3},"segments":[[0,"010000000200000003000000"],[1,"0a000000140000001e000000"]]},{"id":"A","layout":{"struct":[{"leaf":[[0,3]],"rows":3},{"leaf":[[1,3]],"rows":3}],"rows":3},"segments":[[0,"010000000200000003000000"],[1,"0a000000140000001e000000"]]}],"request":{"projection":"$"}}
2 key:big=<big> count:n= sum:s=<a> -> 2 groups | 1: 0 1 | 1: 0 1
1 count:n= -> 1 groups | 1: | 1:"##;
