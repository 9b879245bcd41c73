//! A file of three rows, and what files answer, as texts.
ghost use Rattle.std.specs.Prelude.{◌≡◌, IfOk};
ghost use Rattle.scan_segments.specs.Source.{none_live};
ghost use Rattle.scan_disk.specs.SourceView.{state_of};

use scan_disk::{BytesAt, FileOpener, FileSource, MemoryFile};
use scan_opener::{LayoutReaderFactory, Opening};
use scan_segments::{ByteBuffer, Polled, SegmentId, SegmentSource};
use sha2::{Digest, Sha256};
use std::alloc::Global;
use std::process::Abort;
use std::test::Fail;

/// What a file begins and ends with.
pub(crate) const MAGIC: &[u8] = b"SIBLAG02";

/// The segments 0, of 1 and a null, and 1, of -3, of i32 with nulls.
pub(crate) const SEGMENTS: &[u8] = &[1, 0, 1, 0, 0, 0, 0, 0, 0, 0, 1, 0xfd, 0xff, 0xff, 0xff];

/// The first segment, in hex.
pub(crate) const FIRST: &str = "01000100000000000000";

/// The second segment, in hex.
pub(crate) const SECOND: &str = "01fdffffff";

/// The footer of the whole file.
pub(crate) const FOOTER: &str = r#"{<i32>,"segments":[[0,8,10,"<first>"],[1,18,5,"<second>"]]}"#;

// Both segments and their SHA-256, what a footer says of their layout, and how it is shown.
const NAMES: &str = r#"<1> 01000100000000000000
<2> 01fdffffff
<first> c79dfd1639cb01c6e9475beccd17d9e076ca80f62f4c5a505a1586cc7a3e9338
<second> e9406fc075bc88ab770a2f00edbcbc8522888d56e2789d9ade1509353b0a6843
<i32> "dtype":"i32?","layout":{"leaf":[[0,2],[1,1]],"rows":3}
<leaf> leaf i32?, 3 rows, spelling 1, segments 0 (2), 1 (1)"#;

/// The two sides of a mark.
pub(crate) fn sides<'a>(rt: &impl Abort, line: &'a str, mark: &str) -> (&'a str, &'a str) {
    match line.split_once(mark) {
        Some(sides) => sides,
        None => panic!(rt; "half a line"),
    }
}

/// A text in which each name stands for its text.
pub(crate) fn said(rt: &impl Abort, alloc: Global, text: &str) -> String {
    let mut made = String::from_str(alloc, text).expect(rt, "from_str");
    for line in NAMES.lines() {
        let (name, meant) = sides(rt, line, " ");
        made = made
            .as_str()
            .replace(alloc, name, meant)
            .expect(rt, "replace");
    }
    made
}

fn push_bytes(rt: &impl Abort, bytes: &mut Vec<u8>, more: &[u8]) {
    bytes
        .extend_from_slice(more)
        .expect(rt, "extend_from_slice");
}

/// A file that begins with this magic, of this body and footer, whose footer has the digest of another one and this length.
pub(crate) fn file_of(
    rt: &impl Abort,
    alloc: Global,
    magic: &[u8],
    body: &[u8],
    footer: &[u8],
    of: &[u8],
    length: u64,
) -> Vec<u8> {
    let digest = Sha256::digest(of);
    let length = length.to_le_bytes();
    let mut bytes = Vec::from_slice(alloc, magic).expect(rt, "from_slice");
    push_bytes(rt, &mut bytes, body);
    push_bytes(rt, &mut bytes, footer);
    push_bytes(rt, &mut bytes, digest.as_slice());
    push_bytes(rt, &mut bytes, length.as_slice());
    push_bytes(rt, &mut bytes, MAGIC);
    bytes
}

/// A file of this body and footer.
pub(crate) fn file_with(rt: &impl Abort, alloc: Global, body: &[u8], footer: &[u8]) -> Vec<u8> {
    file_of(rt, alloc, MAGIC, body, footer, footer, footer.len() as u64)
}

/// The whole file.
pub(crate) fn whole(rt: &impl Abort, alloc: Global) -> Vec<u8> {
    let footer = said(rt, alloc, FOOTER);
    file_with(rt, alloc, SEGMENTS, footer.as_bytes())
}

/// A file in memory.
pub(crate) fn memory(rt: &impl Abort, alloc: Global, bytes: &[u8]) -> MemoryFile {
    let bytes = Vec::from_slice(alloc, bytes).expect(rt, "from_slice");
    MemoryFile::new(ByteBuffer::new(alloc, bytes).expect(rt, "new"))
}

/// The cause of a segment that is missing.
fn refusal<F: BytesAt>(
    alloc: Global,
    source: &FileSource<F>,
    id: SegmentId,
) -> Result<String, Fail> {
    match source.refused() {
        Some((of, fault)) if of == id => Ok(format!(in alloc; "{fault:?}")?),
        _ => Ok(String::from_str(alloc, "no cause")?),
    }
}

/// What a source without a live request gives for a segment: its bytes in hex, or the name of the refusal.
pub(crate) fn segment_of<F: BytesAt>(
    alloc: Global,
    source: &mut FileSource<F>,
    id: u32,
) -> Result<String, Fail>
    requires { (state_of F.bytes F.can_fail source.old).live ≡ none_live }
    ensures { IfOk result (λ _. (state_of F.bytes F.can_fail source.new).live ≡ none_live) }
{
    let id = SegmentId::from(id);
    source.request(alloc, id)?;
    match source.poll_segment(alloc, id) {
        Polled::Bytes(bytes) => Ok(hex::encode(alloc, bytes.as_slice())?),
        Polled::Missing => refusal(alloc, source, id),
        Polled::Failed => Ok(format!(in alloc; "failed {}", source.fault_count())?),
        Polled::Pending => Err(Fail::from("pending")),
        Polled::NoMemory => Err(Fail::from("no memory")),
    }
}

/// Appends what a source gives for segments, one after the other.
pub(crate) fn push_segments<F: BytesAt>(
    rt: &impl Abort,
    alloc: Global,
    source: &mut FileSource<F>,
    ids: &[u32],
    text: &mut String,
)
    requires { (state_of F.bytes F.can_fail source.old).live ≡ none_live }
{
    for id in ids {
        match segment_of(alloc, source, *id) {
            Ok(segment) => {
                text.push_str(" ").expect(rt, "push_str");
                text.push_str(segment.as_str()).expect(rt, "push_str");
            }
            Err(_) => panic!(rt; "no answer"),
        }
    }
}

/// What an opener answers, its layout or the name of the refusal.
pub(crate) fn opened<F: BytesAt>(
    rt: &impl Abort,
    alloc: Global,
    opener: &mut FileOpener<F>,
) -> String {
    match opener.poll_open(alloc) {
        Opening::Opened(layout) => layout.to_string(alloc).expect(rt, "to_string"),
        Opening::Failed => match opener.refused() {
            Some(fault) => format!(in alloc; "{fault:?}").expect(rt, "format"),
            None => panic!(rt; "no cause"),
        },
        Opening::Pending => panic!(rt; "pending"),
        Opening::Skipped => panic!(rt; "skipped"),
        Opening::NoMemory => panic!(rt; "no memory"),
    }
}

/// What an opener of a file answers, and what a source of it gives for segments: `Magic | Magic Magic`.
pub(crate) fn told<F: BytesAt + Drop>(
    rt: &impl Abort,
    alloc: Global,
    for_opener: F,
    for_source: F,
    checks: bool,
    ids: &[u32],
) -> String {
    let mut opener = FileOpener::new(for_opener);
    let mut text = opened(rt, alloc, &mut opener);
    text.push_str(" |").expect(rt, "push_str");
    let mut source = FileSource::new(alloc, for_source, checks);
    push_segments(rt, alloc, &mut source, ids, &mut text);
    text
}

/// Whether that is told of a file in memory.
pub(crate) fn tells(
    rt: &impl Abort,
    alloc: Global,
    bytes: &[u8],
    checks: bool,
    ids: &[u32],
    wanted: &str,
) -> bool {
    let (one, other) = (memory(rt, alloc, bytes), memory(rt, alloc, bytes));
    let told = told(rt, alloc, one, other, checks, ids);
    told.as_str() == said(rt, alloc, wanted).as_str()
}
