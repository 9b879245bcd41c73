//! What the examples are made of: six numbers in three segments, 0 (1 and 2), 1 (3) and 2 (4, 5 and 6).
ghost use Rattle.std.specs.Prelude.{◌≡◌, ◌<◌, ◌≤◌, ℕ, [], Some, IfOk, map, Ok};
ghost use Rattle.scan_layout.specs.Check.{total_rows};
ghost use Rattle.scan_plans.specs.Meaning.{Within, plan_dtype};
ghost use Rattle.scan_streams.specs.Grants.{HasRoom};
ghost use Rattle.scan_streams.specs.Splits.{AllOf, new_split, reach};
ghost use Rattle.scan_sources_tests.specs.SixRows.{int, part, parts, AreOfSix};

use crate::maps::UnlessOf;
use crate::requests::{after, number, rising};
use scan_expr::Expression;
use scan_layout::{LeafSegments, Spelling};
use scan_limit::RowLimit;
use scan_plans::{Plan, PlanNode};
use scan_segments::{ByteBuffer, MemorySource, SegmentId};
use scan_splits::SegmentRuns;
use scan_streams::{Claims, MapStep, ScanPlans, ScanStream, SplitQueue, SplitRows};
use scan_values::{DType, Nullability, PType, Selection, StrictSorted};
use std::alloc::Global;
use std::collections::{BTreeMap, VecDeque};
use std::process::Abort;
use std::sync::Arc;
use std::test::Fail;

/// What a helper gave, where it did not fail.
pub(crate) fn got<T: Drop>(rt: &impl Abort, given: Result<T, Fail>) -> T
    ensures { given ≡ Ok result }
{
    match given {
        Ok(it) => it,
        Err(_) => panic!(rt; "a helper failed"),
    }
}

/// Numbers of i32, without null.
pub(crate) fn int() -> DType
    ensures { result ≡ int }
{
    DType::primitive(PType::I32, Nullability::NonNullable)
}

fn three_segments(alloc: Global) -> Result<SegmentRuns, Fail>
    ensures { IfOk result (λ runs. total_rows runs ≡ 6) }
{
    let mut segments = Vec::new(alloc);
    segments.push((SegmentId::from(0), 2))?;
    segments.push((SegmentId::from(1), 1))?;
    segments.push((SegmentId::from(2), 3))?;
    let segments = LeafSegments::new(segments);
    Ok(SegmentRuns::from_segments(alloc, &segments)?)
}

/// The plan of the numbers.
fn plan(alloc: Global) -> Result<Arc<Plan>, Fail>
    ensures dtype { IfOk result (λ p. plan_dtype (p.value).tree ≡ int) }
    ensures rows { (n : ℕ) → n ≤ 6 → IfOk result (λ p. Within (p.value).tree n) }
{
    let runs = Arc::new(alloc, three_segments(alloc)?)?;
    let dtype = Arc::new(alloc, int())?;
    let bound = Expression::root().bind(alloc, &int())?;
    let node = PlanNode::leaf(dtype, Spelling::One, runs);
    Ok(Arc::new(alloc, Plan::new(bound, node))?)
}

fn plans(alloc: Global) -> Result<Arc<ScanPlans>, Fail>
    ensures { IfOk result (λ p. AreOfSix p.value) }
{
    let projection = plan(alloc)?;
    Ok(Arc::new(alloc, ScanPlans::new(Vec::new(alloc), projection))?)
}

/// All rows from one up to another.
fn part(start: u64, end: u64) -> SplitRows
    ensures { result ≡ part start end }
{
    SplitRows {
        range: start..end,
        most: None,
    }
}

fn rows(alloc: Global, first: u64, second: u64) -> Result<VecDeque<SplitRows>, Fail>
    ensures { IfOk result (λ r. r.items ≡ parts first second) }
{
    let mut rows = VecDeque::new(alloc);
    rows.push_back(part(0, first))?;
    rows.push_back(part(first, second))?;
    rows.push_back(part(second, 6))?;
    Ok(rows)
}

/// Splits of all numbers, cut before these two rows.
pub(crate) fn splits(alloc: Global, first: u64, second: u64) -> Result<SplitQueue, Fail>
    requires order { first ≤ second }
    requires within { second ≤ 6 }
    ensures dtype { IfOk result (λ q. AllOf int (map new_split q)) }
    ensures reach { IfOk result (λ q. reach (map new_split q) ≤ 6) }
{
    let plans = plans(alloc)?;
    let selection = Arc::new(alloc, Selection::All)?;
    let rows = rows(alloc, first, second)?;
    Ok(SplitQueue::new(plans, selection, rows))
}

// ---- what a story begins with, by words: `at_once:2 limit:4 wait:0,1`
/// The polls of a case behind this word, by their numbers.
fn polls(rt: &impl Abort, alloc: Global, case: &str, word: &str) -> StrictSorted {
    match after(case, word) {
        Some(text) => rising(rt, alloc, text),
        None => StrictSorted::try_new(Vec::new(alloc)).expect(rt, "try_new"),
    }
}

/// Claims on a limit of so many rows.
fn limit(rt: &impl Abort, alloc: Global, rows: u64) -> Claims
    ensures { HasRoom (Some result) 6 }
{
    let (limit, seat) = RowLimit::new(alloc, rows).expect(rt, "new");
    let limit = Arc::new(alloc, limit).expect(rt, "new");
    Claims::new(limit, rows, seat)
}

/// Claims on the limit of a case, if it has one.
pub(crate) fn claims(rt: &impl Abort, alloc: Global, case: &str) -> Option<Claims>
    ensures { HasRoom result 6 }
{
    match after(case, "limit:") {
        Some(text) => Some(limit(rt, alloc, text.parse::<u64>().expect(rt, "parse"))),
        None => None,
    }
}

/// The stream of a case: of splits that are cut before two rows, so many at once, in order or not, and with a map that
/// refuses arrays of so many rows, which none has where nothing is said.
pub(crate) fn stream_under(
    rt: &impl Abort,
    alloc: Global,
    case: &str,
    claims: Option<Claims>,
) -> ScanStream<UnlessOf>
    requires { HasRoom claims 6 }
    ensures { (result.feed).live ≡ [] }
{
    let first = number(rt, case, "first:", 2);
    let second = number(rt, case, "second:", 3);
    let at_once = number(rt, case, "at_once:", 1) as usize;
    let refused = number(rt, case, "refuse:", 9) as usize;
    if second < first || 6 < second || at_once == 0 {
        panic!(rt; "no such splits");
    }
    let splits = got(rt, splits(alloc, first, second));
    stream(
        rt,
        alloc,
        splits,
        is_ordered(case),
        at_once,
        claims,
        UnlessOf::new(refused),
    )
}

pub(crate) fn is_ordered(case: &str) -> bool {
    after(case, "unordered").is_none()
}

/// The same under the limit of the case.
pub(crate) fn stream_of(rt: &impl Abort, alloc: Global, case: &str) -> ScanStream<UnlessOf>
    ensures { (result.feed).live ≡ [] }
{
    stream_under(rt, alloc, case, claims(rt, alloc, case))
}

/// A stream of these splits.
pub(crate) fn stream<M: MapStep + Drop>(
    rt: &impl Abort,
    alloc: Global,
    splits: SplitQueue,
    ordered: bool,
    concurrency: usize,
    claims: Option<Claims>,
    step: M,
) -> ScanStream<M>
    requires concurrency { 0 < concurrency }
    requires dtype { AllOf int (map new_split splits) }
    requires reach { reach (map new_split splits) ≤ 6 }
    requires room { HasRoom claims 6 }
    ensures live { (result.feed).live ≡ [] }
    ensures step { result.step ≡ step }
{
    let step = Arc::new(alloc, step).expect(rt, "new");
    ScanStream::new(alloc, int(), splits, ordered, concurrency, claims, step).expect(rt, "new")
}

fn bytes_of(id: u32) -> &'static [u8] {
    match id {
        0 => &[1, 0, 0, 0, 2, 0, 0, 0],
        1 => &[3, 0, 0, 0],
        _ => &[4, 0, 0, 0, 5, 0, 0, 0, 6, 0, 0, 0],
    }
}

fn segment(rt: &impl Abort, alloc: Global, id: u32) -> ByteBuffer {
    ByteBuffer::new(
        alloc,
        Vec::from_slice(alloc, bytes_of(id)).expect(rt, "from_slice"),
    )
    .expect(rt, "new")
}

/// The first so many segments.
fn segments(rt: &impl Abort, alloc: Global, count: u64) -> BTreeMap<SegmentId, ByteBuffer> {
    let mut segments = BTreeMap::new(alloc);
    for id in 0..count.min(3) as u32 {
        let inserted: Result<_, _> = segments.insert(SegmentId::from(id), segment(rt, alloc, id));
        inserted.expect(rt, "insert");
    }
    segments
}

/// The source of a case: of all segments or the first so many; some of its polls fail or are pending, by their numbers.
pub(crate) fn source_of(rt: &impl Abort, alloc: Global, case: &str) -> MemorySource
    ensures { result.live ≡ [] }
{
    let failing = polls(rt, alloc, case, "fail:");
    let pending = polls(rt, alloc, case, "wait:");
    let segments = segments(rt, alloc, number(rt, case, "segments:", 3));
    MemorySource::new(alloc, segments, failing, pending)
}
