//! Groups of rows by keys of each kind, each measure, and sums at the ends of their range.
use crate::lines::{Told, hold, shown, sides};
use crate::words::{taken, values};
use scan_groups::{Cell, Group, Groups, Measured, Run, compare};
use scan_values::Values;
use std::alloc::Global;
use std::fmt::Write;
use std::process::Abort;

/// A measure: `count`, or what is told of the values at a place, as `sum:1`.
fn measured(rt: &impl Abort, word: &str) -> Measured {
    let Some((what, place)) = word.split_once(':') else {
        return Measured::Count;
    };
    let place = place.parse::<usize>().expect(rt, "parse");
    match what {
        "values" => Measured::Values(place),
        "sum" => Measured::Sum(place),
        "least" => Measured::Least(place),
        "greatest" => Measured::Greatest(place),
        _ => panic!(rt; "no measure"),
    }
}

/// Groups of no rows, by so many keys and with these measures: `1 count sum:0`.
fn of_no_rows(rt: &impl Abort, alloc: Global, words: &str) -> Groups {
    let (keys, words) = sides(rt, words, " ");
    let mut measures = Vec::new(alloc);
    for word in words.split_whitespace() {
        measures.push(measured(rt, word)).expect(rt, "push");
    }
    Groups::new(alloc, keys.parse::<usize>().expect(rt, "parse"), measures).expect(rt, "new")
}

/// One more row: `KEY / READ`.
fn add(rt: &impl Abort, alloc: Global, groups: &mut Groups, row: &str) {
    let (key, read) = sides(rt, row, "/");
    let read = values(rt, alloc, read);
    groups
        .add(alloc, Values::new(values(rt, alloc, key)), read.as_slice())
        .expect(rt, "add");
}

/// Each group's key, and its measures.
fn all_told(rt: &impl Abort, alloc: Global, groups: &[Group]) -> String {
    let mut text = String::new(alloc);
    for (i, group) in groups.iter().enumerate() {
        if i > 0 {
            text.push_str("; ").expect(rt, "push_str");
        }
        let key = shown(rt, alloc, group.key.as_slice());
        let measures = shown(rt, alloc, group.measures.as_slice());
        write!(text, "{key}: {measures}").expect(rt, "write");
    }
    text
}

fn groups_told(rt: &impl Abort, alloc: Global, groups: Groups) -> String {
    match groups.into_groups(alloc) {
        Ok(groups) => all_told(rt, alloc, groups.as_slice()),
        Err(fault) => format!(in alloc; "{fault:?}").expect(rt, "format"),
    }
}

/// Calls on rows and values.
#[derive(Clone, Copy)]
enum On {
    /// `KEYS MEASURES | KEY / READ ; KEY / READ -> KEY: MEASURES; KEY: MEASURES`, or a fault.
    Rows,
    /// `VALUE VALUE -> ORDERING`.
    Compare,
}

impl Told for On {
    fn told(&self, rt: &impl Abort, alloc: Global, case: &str) -> String {
        match self {
            On::Rows => {
                let (words, rows) = sides(rt, case, " | ");
                let mut groups = of_no_rows(rt, alloc, words);
                for row in rows.split(';') {
                    add(rt, alloc, &mut groups, row);
                }
                groups_told(rt, alloc, groups)
            }
            On::Compare => {
                let mut values = values(rt, alloc, case);
                let b = taken(rt, &mut values);
                let order = compare(&taken(rt, &mut values), &b);
                format!(in alloc; "{order:?}").expect(rt, "format")
            }
        }
    }
}

#[test]
fn keys_are_in_order_and_each_measure_has_its_range(rt: HostRuntime) {
    let alloc = rt.alloc();
    hold(
        &rt,
        alloc,
        &On::Rows,
        "1 count | text:b / ; null / ; 5 / ; true / ; text:ab / ; false / ; -5 / ; text:a / ; null / ; 5 / -> null: 2; false: 1; true: 1; -5: 1; 5: 2; \"a\": 1; \"ab\": 1; \"b\": 1
2 sum:0 | true 1 / 4; false 2 / 5; true null / 6; true 1 / -1 -> false, 2: 5; true, null: 6; true, 1: 3
1 count values:0 sum:0 least:0 greatest:0 | 1 / null; 1 / 3; 2 / null; 1 / -7; 2 / null; 1 / null -> 1: 4, 2, -4, -7, 3; 2: 2, 0, null, null, null
0 least:0 greatest:0 least:1 greatest:1 values:2 | / text:b true; / text:ab null; / text:a false; / null true -> : \"a\", \"b\", false, true, 0
0 sum:0 | / 18446744073709551615 -> : 18446744073709551615
0 sum:0 | / 18446744073709551615; / -1; / 1 -> : 18446744073709551615
0 sum:0 | / 18446744073709551615; / 18446744073709551615; / -18446744073709551615 -> : 18446744073709551615
0 sum:0 | / -9223372036854775808 -> : -9223372036854775808
0 sum:0 | / -9223372036854775808; / -9223372036854775808; / 18446744073709551615 -> : -1
0 sum:0 | / -9223372036854775807; / -1 -> : -9223372036854775808
0 sum:0 | / 18446744073709551615; / 1 -> SumRange { measure: 0 }
0 sum:0 | / 18446744073709551615; / 18446744073709551615 -> SumRange { measure: 0 }
0 sum:0 | / -9223372036854775808; / -1 -> SumRange { measure: 0 }
0 sum:0 | / -9223372036854775808; / -9223372036854775808 -> SumRange { measure: 0 }
1 count sum:0 sum:2 sum:1 | 1 / 1 1 18446744073709551615; 1 / 1 1 18446744073709551615; 2 / 1 18446744073709551615 1; 2 / 1 18446744073709551615 1 -> SumRange { measure: 2 }
1 count values:0 sum:0 least:0 greatest:0 | text:x / 3; null / 18446744073709551615; text:x / -4 -> null: 1, 1, 18446744073709551615, 18446744073709551615, 18446744073709551615; \"x\": 2, 2, -1, -4, 3
1 count values:0 sum:0 least:0 greatest:0 | text:x / -4; text:x / 3; null / 18446744073709551615 -> null: 1, 1, 18446744073709551615, 18446744073709551615, 18446744073709551615; \"x\": 2, 2, -1, -4, 3",
    );
    hold(
        &rt,
        alloc,
        &On::Compare,
        "null false -> Less
true -9223372036854775808 -> Less
text:a 18446744073709551615 -> Greater
list:0 text:a -> Greater
7 7 -> Equal",
    );
    for (words, wanted) in [
        (
            "0 count values:0 sum:0 least:0 greatest:0",
            ": 0, 0, null, null, null",
        ),
        ("1 count values:0 sum:0 least:0 greatest:0", ""),
    ] {
        let told = groups_told(&rt, alloc, of_no_rows(&rt, alloc, words));
        assert_eq!(rt; told.as_str(), wanted);
    }
}

// ---- runs
/// The sums of what is read of rows, by their keys of one value each, given in runs.
fn sums_by(rt: &impl Abort, alloc: Global, runs: &[(Run, Run)]) -> String {
    let mut groups = of_no_rows(rt, alloc, "1 sum:0");
    for (keys, read) in runs {
        let places = groups.place_run(alloc, *keys).expect(rt, "place_run");
        if groups.measure_count() == 0 {
            panic!(rt; "no measure");
        }
        if places.len() != read.len() {
            panic!(rt; "as many keys as rows");
        }
        groups
            .add_run(alloc, 0, &places, *read)
            .expect(rt, "add_run");
    }
    groups_told(rt, alloc, groups)
}

#[test]
fn runs_of_numbers_and_of_lent_values_make_one_sum(rt: HostRuntime) {
    let alloc = rt.alloc();
    let run = (Run::Numbers(&[5, -5, 5, 7]), Run::Numbers(&[1, 2, 3, -4]));
    assert_eq!(rt; sums_by(&rt, alloc, &[run]).as_str(), "-5: 2; 5: 4; 7: -4");
    let runs = [
        (
            Run::Numbers(&[1, 2, 1]),
            Run::Numbers(&[2_147_483_647, -2_147_483_648, 1]),
        ),
        (Run::Numbers(&[1]), Run::Nulls(1)),
        (
            Run::Numbers(&[1, 2]),
            Run::Numbers(&[9_223_372_036_854_775_807, -9_223_372_034_707_292_160]),
        ),
        (Run::Numbers(&[1, 3, 2]), Run::Numbers(&[1, 5, 0])),
    ];
    assert_eq!(rt;
        sums_by(&rt, alloc, &runs).as_str(),
        "1: 9223372039002259456; 2: -9223372036854775808; 3: 5"
    );
    let keys = [
        Cell::Text("b"),
        Cell::Null,
        Cell::Truth(true),
        Cell::Text("b"),
        Cell::Number(18_446_744_073_709_551_615),
        Cell::Null,
    ];
    let read = [
        Cell::Number(1),
        Cell::Null,
        Cell::Number(18_446_744_073_709_551_615),
        Cell::Number(2),
        Cell::Number(-3),
        Cell::Null,
    ];
    let run = (Run::Cells(&keys), Run::Cells(&read));
    assert_eq!(rt;
        sums_by(&rt, alloc, &[run]).as_str(),
        "null: null; true: 18446744073709551615; 18446744073709551615: -3; \"b\": 3"
    );
}
