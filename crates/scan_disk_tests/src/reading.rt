//! Files that are read.
ghost use Rattle.std.specs.Prelude.{◌≡◌, Some, false};
ghost use Rattle.scan_segments.specs.Source.{none_live};
ghost use Rattle.scan_disk.specs.SourceView.{state_of};

use crate::fixtures::{FIRST, file_with, memory, opened, push_segments, segment_of, tells, whole};
use scan_disk::{
    BytesAt, DiskFault, FileOpener, FileSource, MemoryFile, Place, Places, ReadFault, read_footer,
};
use scan_segments::{SegmentId, SegmentSource};
use std::alloc::Global;
use std::collections::BTreeMap;
use std::process::Abort;
use std::test::Fail;

/// The file, as a writer of the form in Python writes it.
const WRITTEN: &str =
    "5349424c414730320100010000000000000001fdffffff7b226474797065223a226933323f222c226c61796f7574223a7b226c656166223a5b5b302c325d2c5b312c315d5d2c22726f7773223a337d2c227365676d656e7473223a5b5b302c382c31302c2263373964666431363339636230316336653934373562656363643137643965303736636138306636326634633561353035613135383663633761336539333338225d2c5b312c31382c352c2265393430366663303735626338386162373730613266303065646263626338353232383838643536653237383964396164653135303933353362306136383433225d5d7dc146152b57100178867e476f8104f32504177636bb48da1cb17e46cfdec196aade000000000000005349424c41473032";

#[test]
fn a_file_is_read_to_its_layout_and_segments(rt: HostRuntime) {
    let alloc = rt.alloc();
    let bytes = whole(&rt, alloc);
    let digits = hex::encode(alloc, bytes.as_slice()).expect(&rt, "encode");
    assert_eq!(rt; digits.as_str(), WRITTEN);
    for checks in [false, true] {
        let wanted = "<leaf> | <1> <2> NoSegment <1>";
        assert!(rt; tells(&rt, alloc, bytes.as_slice(), checks, &[0, 1, 2, 0], wanted));
    }
    let footer = r#"{"dtype":"u8","layout":{"leaf":[],"rows":0},"segments":[]}"#;
    let smallest = file_with(&rt, alloc, &[], footer.as_bytes());
    assert_eq!(rt; smallest.len(), 114);
    let wanted = "leaf u8, 0 rows, spelling 1, segments  | NoSegment";
    assert!(rt; tells(&rt, alloc, smallest.as_slice(), true, &[0], wanted));
}

/// Two bytes at 1, whose digest is not this one, and two at 2.
fn places(rt: &impl Abort, alloc: Global) -> Places {
    let mut map = BTreeMap::new(alloc);
    for (id, offset) in [(5_u32, 1), (9, 2)] {
        let place = Place {
            offset,
            length: 2,
            digest: [0; 32],
        };
        let inserted: Result<_, _> = map.insert(SegmentId::from(id), place);
        inserted.expect(rt, "insert");
    }
    Places::new(map)
}

/// What a source that knows the places of segments gives for them.
fn given_by(
    rt: &impl Abort,
    alloc: Global,
    file: MemoryFile,
    known: Places,
    checks: bool,
    ids: &[u32],
) -> String {
    let mut source = FileSource::with_places(alloc, file, checks, known);
    let mut text = String::new(alloc);
    push_segments(rt, alloc, &mut source, ids, &mut text);
    text
}

#[test]
fn places_that_are_known_are_read_of_any_bytes(rt: HostRuntime) {
    let alloc = rt.alloc();
    let wanted = Place {
        offset: 1,
        length: 2,
        digest: [0; 32],
    };
    assert_eq!(rt; places(&rt, alloc).get(SegmentId::from(5)), Some(wanted));
    assert_eq!(rt; places(&rt, alloc).get(SegmentId::from(1)), None);
    for (checks, wanted) in [(false, " 0203 Place"), (true, " Digest Place")] {
        let file = memory(&rt, alloc, &[1, 2, 3]);
        let given = given_by(&rt, alloc, file, places(&rt, alloc), checks, &[5, 9]);
        assert_eq!(rt; given.as_str(), wanted);
    }
    let file = memory(&rt, alloc, whole(&rt, alloc).as_slice());
    let Ok(footer) = read_footer(alloc, &file) else {
        panic!(rt; "no footer");
    };
    let given = given_by(&rt, alloc, file, footer.places, true, &[1, 7, 0]);
    assert_eq!(rt;
        given.as_str(),
        " 01fdffffff NoSegment 01000100000000000000"
    );
}

/// Whether a request that is dropped can be made again, and is answered then.
fn asks_again(alloc: Global, source: &mut FileSource<MemoryFile>) -> Result<String, Fail>
    requires { (state_of (λ f. Some f) (λ f. false) source.old).live ≡ none_live }
{
    let id = SegmentId::from(0);
    source.request(alloc, id)?;
    source.drop_request(id);
    segment_of(alloc, source, 0)
}

#[test]
fn an_opener_tells_what_it_did_and_its_file(rt: HostRuntime) {
    let alloc = rt.alloc();
    let mut opener = FileOpener::new(memory(&rt, alloc, &[0; 56]));
    assert_eq!(rt;
        (opener.refused(), opener.faults(), opener.polled()),
        (None, 0, 0)
    );
    for _ in 0..2 {
        assert_eq!(rt; opened(&rt, alloc, &mut opener).as_str(), "Magic");
    }
    let wanted = (Some(DiskFault::Magic), 2, 2);
    assert_eq!(rt;
        (opener.refused(), opener.faults(), opener.polled()),
        wanted
    );
    assert_eq!(rt; opener.file().size(), Ok(56));
}

#[test]
fn a_source_tells_what_it_did_and_its_file(rt: HostRuntime) {
    let alloc = rt.alloc();
    let file = memory(&rt, alloc, whole(&rt, alloc).as_slice());
    let mut source = FileSource::new(alloc, file, true);
    let first = match asks_again(alloc, &mut source) {
        Ok(first) => first,
        Err(_) => panic!(rt; "no answer"),
    };
    assert_eq!(rt; first.as_str(), FIRST);
    assert_eq!(rt; (source.refused(), source.fault_count()), (None, 0));
    assert_eq!(rt; source.file().size(), Ok(293));
}

#[test]
fn a_buffer_is_filled_from_a_place_that_the_file_has(rt: HostRuntime) {
    let alloc = rt.alloc();
    let file = memory(&rt, alloc, &[1, 2, 3]);
    for (offset, wanted, bytes) in [
        (0, Ok(()), [1, 2]),
        (1, Ok(()), [2, 3]),
        (2, Err(ReadFault::Outside), [0, 0]),
        (u64::MAX, Err(ReadFault::Outside), [0, 0]),
    ] {
        let mut buffer = [0u8; 2];
        assert_eq!(rt; file.fill(offset, &mut buffer), wanted);
        assert_eq!(rt; buffer, bytes);
    }
}
