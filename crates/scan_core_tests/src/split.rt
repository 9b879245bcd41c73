//! Splits of three rows, polled before and after segments arrive. In a script `poll` polls, `0:1,1,0` delivers the
//! segment 0 of these bytes, and `2!` says that the segment 2 is missing.
ghost use Rattle.std.specs.Prelude.{◌≡◌};
ghost use Rattle.scan_plans.specs.Meaning.{Within};
ghost use Rattle.scan_streams.specs.Plans.{IsConjunct, ReachTo};

use crate::case::sides;
use crate::rows::{count, field, flagged, int, over};
use crate::told::push_split;
use scan_core::{Identity, Mapped, ScanPlans, SplitFuture};
use scan_expr::Expression;
use scan_plans::{ArrayFuture, Plan};
use scan_readers::{LayoutReader, RowsReader};
use scan_segments::{ByteBuffer, SegmentId};
use scan_splits::{Arrival, Inbox};
use scan_values::{Array, Mask, Text, Value};
use std::alloc::Global;
use std::process::Abort;
use std::string::String;
use std::sync::Arc;

// ---- plans
/// A reader's plan of an expression over three rows.
fn plan<R: LayoutReader>(
    rt: &impl Abort,
    alloc: Global,
    reader: &mut R,
    e: &Expression,
) -> Arc<Plan>
    ensures { Within (result.value).tree 3 }
{
    let bound = over(alloc, e, reader.dtype()).expect(rt, "over");
    if bound.uses_row_idx() {
        panic!(rt; "a row's number");
    }
    if reader.row_count() != 3 {
        panic!(rt; "not three rows");
    }
    reader.plan(alloc, &bound).expect(rt, "plan")
}

/// Its plan of a truth value.
fn conjunct<R: LayoutReader>(
    rt: &impl Abort,
    alloc: Global,
    reader: &mut R,
    e: &Expression,
) -> Arc<Plan>
    ensures { IsConjunct 3 result.value }
{
    let plan = plan(rt, alloc, reader, e);
    if !plan.expr().dtype().is_bool() {
        panic!(rt; "not a truth value");
    }
    plan
}

/// `$.b > 4`
fn above_four(rt: &impl Abort, alloc: Global) -> Expression {
    let four = Expression::lit(int(), Value::Int(4));
    Expression::gt(alloc, field(rt, alloc, "b"), four).expect(rt, "gt")
}

fn both(
    rt: &impl Abort,
    alloc: Global,
    first: Arc<Plan>,
    second: Arc<Plan>,
    projection: Arc<Plan>,
) -> ScanPlans
    requires first { IsConjunct 3 first.value }
    requires second { IsConjunct 3 second.value }
    requires projection { Within (projection.value).tree 3 }
    ensures { ReachTo 3 result }
{
    let mut conjuncts = Vec::new(alloc);
    conjuncts.push(first).expect(rt, "push");
    conjuncts.push(second).expect(rt, "push");
    ScanPlans::new(conjuncts, projection)
}

/// The plans of `$.b`, where `$.a` and then `$.b > 4` is true.
fn two_conjuncts(rt: &impl Abort, alloc: Global) -> ScanPlans
    ensures { ReachTo 3 result }
{
    let mut reader = flagged(rt, alloc);
    let first = conjunct(rt, alloc, &mut reader, &field(rt, alloc, "a"));
    let second = conjunct(rt, alloc, &mut reader, &above_four(rt, alloc));
    let projection = plan(rt, alloc, &mut reader, &field(rt, alloc, "b"));
    both(rt, alloc, first, second, projection)
}

/// The numbers 1, 2 and the greatest i32, in memory.
fn numbers(rt: &impl Abort, alloc: Global) -> RowsReader {
    let mut items = Vec::new(alloc);
    for number in [1, 2, 2147483647] {
        items.push(Value::Int(number)).expect(rt, "push");
    }
    let array = Arc::new(alloc, Array::try_new(int(), items).expect(rt, "try_new")).expect(
        rt, "new",
    );
    let name = Text::new(String::from_str(alloc, "memory").expect(rt, "from_str"));
    RowsReader::new(alloc, name, array)
}

/// The plans of an expression over them.
fn of_numbers(rt: &impl Abort, alloc: Global, e: &Expression) -> ScanPlans
    ensures { ReachTo 3 result }
{
    let mut reader = numbers(rt, alloc);
    let projection = plan(rt, alloc, &mut reader, e);
    ScanPlans::new(Vec::new(alloc), projection)
}

/// `$ + 1`
fn next(rt: &impl Abort, alloc: Global) -> Expression {
    let one = Expression::lit(int(), Value::Int(1));
    Expression::checked_add(alloc, Expression::root(), one).expect(rt, "checked_add")
}

/// The plans of two conjuncts, of the next of each number, or of the numbers.
fn plans(rt: &impl Abort, alloc: Global, name: &str) -> ScanPlans
    ensures { ReachTo 3 result }
{
    match name {
        "conjuncts" => two_conjuncts(rt, alloc),
        "next" => of_numbers(rt, alloc, &next(rt, alloc)),
        _ => of_numbers(rt, alloc, &Expression::root()),
    }
}

// ---- splits
/// The array of the three rows of plans, under a mask by its letters: `conjuncts 110`.
fn rows_of(rt: &impl Abort, alloc: Global, case: &str) -> ArrayFuture {
    let (name, letters) = sides(rt, case, " ");
    let mut bits = Vec::new(alloc);
    for letter in letters.as_bytes() {
        bits.push(*letter == b'1').expect(rt, "push");
    }
    if bits.len() != 3 {
        panic!(rt; "not three rows");
    }
    let plans = plans(rt, alloc, name);
    plans
        .future(alloc, &(0..3), Mask::from_bools(bits))
        .expect(rt, "future")
}

fn bytes_of(rt: &impl Abort, alloc: Global, text: &str) -> ByteBuffer {
    let mut bytes = Vec::new(alloc);
    for byte in text.split(',') {
        bytes
            .push(byte.parse::<u8>().expect(rt, "parse"))
            .expect(rt, "push");
    }
    ByteBuffer::new(alloc, bytes).expect(rt, "new")
}

/// What came of a segment.
fn arrive(rt: &impl Abort, inbox: &mut Inbox, id: &str, arrival: Arrival) {
    let id = SegmentId::from(id.parse::<u32>().expect(rt, "parse"));
    if inbox.has(id) {
        panic!(rt; "arrived before");
    }
    inbox.deliver(id, arrival).expect(rt, "deliver")
}

/// Does what a word of a script says of a segment.
fn deliver(rt: &impl Abort, alloc: Global, inbox: &mut Inbox, word: &str) {
    if let Some((id, text)) = word.split_once(':') {
        return arrive(rt, inbox, id, Arrival::Bytes(bytes_of(rt, alloc, text)));
    }
    match word.strip_suffix('!') {
        Some(id) => arrive(rt, inbox, id, Arrival::Missing),
        None => panic!(rt; "no word of a script"),
    }
}

/// What a split tells that gives its array.
fn told(rt: &impl Abort, alloc: Global, case: &str, script: &str) -> String {
    let step: Identity<u8> = Identity::new();
    let step = Arc::new(alloc, step).expect(rt, "new");
    let mut split = SplitFuture::new(rows_of(rt, alloc, case), step);
    told_by(rt, alloc, &mut split, script)
}

fn told_by(
    rt: &impl Abort,
    alloc: Global,
    split: &mut SplitFuture<Identity<u8>>,
    script: &str,
) -> String {
    let mut inbox = Inbox::new(alloc);
    let mut text = String::new(alloc);
    for word in script.split_whitespace() {
        match word {
            "poll" => push_split(rt, alloc, &split.poll(alloc, &inbox), &mut text),
            _ => deliver(rt, alloc, &mut inbox, word),
        }
    }
    text
}

/// Whether `PLANS ROWS | SCRIPT -> TEXT` holds.
fn holds(rt: &impl Abort, alloc: Global, line: &str) -> bool {
    let (case, wanted) = sides(rt, line, " -> ");
    let (case, script) = sides(rt, case, " | ");
    told(rt, alloc, case, script).as_str() == wanted
}

// Where no row is left, and under an all-false mask, nothing more is asked for; a missing segment is no good; a sum
// overflows at a row that is left.
#[test]
fn a_conjunct_is_asked_where_all_before_it_are_true(rt: HostRuntime) {
    for line in "conjuncts 111 | poll 0:1,1,0 poll 1:4,0,0,0,5,0,0,0 poll -> wants 0; wants 1; gives 5
conjuncts 110 | 0:0,0,1 poll -> gives none
conjuncts 000 | poll -> gives none
conjuncts 001 | 0:0,0,1 2! poll -> corrupt SegmentId(2)
next 110 | poll -> gives 2,3
next 001 | poll -> overflow"
        .lines()
    {
        assert!(rt; holds(&rt, rt.alloc(), line), "at {line}");
    }
}

/// What a poll makes of the numbers under a mask, by their number, or a fault where there is one alone.
fn counted(rt: &impl Abort, alloc: Global, case: &str) -> String {
    let rows = rows_of(rt, alloc, case);
    let identity: Identity<u8> = Identity::new();
    let step = Arc::new(alloc, Mapped::new(identity, |array| count(array))).expect(rt, "new");
    let mut split = SplitFuture::new(rows, step);
    let mut text = String::new(alloc);
    push_split(rt, alloc, &split.poll(alloc, &Inbox::new(alloc)), &mut text);
    text
}

#[test]
fn a_map_is_applied_where_a_row_is_left(rt: HostRuntime) {
    let alloc = rt.alloc();
    assert_eq!(rt; counted(&rt, alloc, "numbers 110").as_str(), "gives 2 rows");
    assert_eq!(rt; counted(&rt, alloc, "numbers 100").as_str(), "map 7");
    assert_eq!(rt; counted(&rt, alloc, "numbers 000").as_str(), "gives none");
}
