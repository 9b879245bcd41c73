//! Sources of numbers, and the segments of all files.
ghost use Rattle.std.specs.Prelude.{◌≡◌, []};

use scan_layout::{LayoutNode, LayoutReaderContext, LayoutRef};
use scan_readers::{Reader, RowsReader};
use scan_segments::{ByteBuffer, MemorySource, SegmentId};
use scan_sources::LayoutReaderDataSource;
use scan_values::{Array, DType, FieldName, Nullability, PType, StrictSorted, Text, Value};
use std::alloc::Global;
use std::collections::BTreeMap;
use std::process::Abort;
use std::sync::Arc;

/// Numbers of i32, without null.
pub(crate) fn int() -> DType {
    DType::primitive(PType::I32, Nullability::NonNullable)
}

pub(crate) fn name(rt: &impl Abort, alloc: Global, text: &str) -> FieldName {
    FieldName::new(String::from_str(alloc, text).expect(rt, "from_str"))
}

/// The numbers 0 to 9 in memory.
pub(crate) fn ten(rt: &impl Abort, alloc: Global) -> LayoutReaderDataSource<RowsReader> {
    let mut items = Vec::new(alloc);
    for number in 0..10_usize {
        items.push(Value::Int(number as i128)).expect(rt, "push");
    }
    let array = Arc::new(alloc, Array::try_new(int(), items).expect(rt, "try_new")).expect(
        rt, "new",
    );
    let name = Text::new(String::from_str(alloc, "memory").expect(rt, "from_str"));
    LayoutReaderDataSource::new(RowsReader::new(alloc, name, array))
}

/// A leaf of one segment of so many numbers.
pub(crate) fn leaf(rt: &impl Abort, alloc: Global, segment: u32, rows: u64) -> LayoutRef {
    let mut segments = Vec::new(alloc);
    segments
        .push((SegmentId::from(segment), rows))
        .expect(rt, "push");
    LayoutNode::leaf(alloc, int(), segments).expect(rt, "leaf")
}

/// A file of so many numbers, in one segment.
pub(crate) fn file(
    rt: &impl Abort,
    alloc: Global,
    rows: u64,
) -> LayoutReaderDataSource<Reader<u8>> {
    let node = leaf(rt, alloc, 0, rows);
    node.check(node.dtype()).expect(rt, "check");
    let shared = LayoutReaderContext::new(alloc);
    let name = Text::new(String::from_str(alloc, "file").expect(rt, "from_str"));
    let reader = Reader::from_layout(alloc, name, &node, &shared).expect(rt, "from_layout");
    LayoutReaderDataSource::new(reader)
}

fn segment(rt: &impl Abort, alloc: Global, bytes: &[u8]) -> ByteBuffer {
    ByteBuffer::new(
        alloc,
        Vec::from_slice(alloc, bytes).expect(rt, "from_slice"),
    )
    .expect(rt, "new")
}

fn two_segments(rt: &impl Abort, alloc: Global) -> BTreeMap<SegmentId, ByteBuffer> {
    let mut segments = BTreeMap::new(alloc);
    for (id, bytes) in [
        (0_u32, [1, 0, 0, 0, 2, 0, 0, 0, 3, 0, 0, 0]),
        (1, [10, 0, 0, 0, 20, 0, 0, 0, 30, 0, 0, 0]),
    ] {
        let inserted: Result<_, _> = segments.insert(
            SegmentId::from(id),
            segment(rt, alloc, &bytes),
        );
        inserted.expect(rt, "insert");
    }
    segments
}

fn never(rt: &impl Abort, alloc: Global) -> StrictSorted {
    StrictSorted::try_new(Vec::new(alloc)).expect(rt, "try_new")
}

/// A source of the segments of the numbers 1, 2 and 3, and 10, 20 and 30.
pub(crate) fn segments(rt: &impl Abort, alloc: Global) -> MemorySource
    ensures { result.live ≡ [] }
{
    let failing = never(rt, alloc);
    let pending = never(rt, alloc);
    MemorySource::new(alloc, two_segments(rt, alloc), failing, pending)
}
