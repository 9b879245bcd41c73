//! What is not written, and files of the system.
use crate::writing::rows;
use scan_disk_writer::{
    BytesOut, MemoryOut, NewFile, OutFault, WriteFault, file_of, write_file, write_rows,
};
use scan_encode::{Segments, WriteOptions, encode_batches, encode_rows};
use scan_layout::{LayoutFault, LayoutKind, LayoutNode};
use scan_spelling::Spelling;
use scan_values::{Array, DType, Nullability};
use std::alloc::Global;
use std::fs::{self, File};
use std::process::{self, Abort};
use std::slice;

const TWO_ROWS: WriteOptions = WriteOptions {
    segment_rows: 2,
    spelling: Spelling::One,
};

/// Why no rows of so many lists in one another are not written.
fn nested_fault(rt: &impl Abort, alloc: Global, lists: usize) -> Option<WriteFault> {
    let mut dtype = DType::u8();
    for _ in 0..lists {
        dtype = DType::list(alloc, dtype, Nullability::NonNullable).expect(rt, "list");
    }
    let rows = Array::try_new(dtype, Vec::new(alloc)).expect(rt, "try_new");
    file_of(alloc, &rows, &TWO_ROWS).err()
}

/// Why a struct without fields is not written of which a leaf is the layout.
fn unserved(rt: &impl Abort, alloc: Global) -> Option<WriteFault> {
    let kind = LayoutKind::Struct;
    let layout = LayoutNode::from_parts(alloc, DType::u8(), 0, kind, Vec::new(alloc)).expect(
        rt,
        "from_parts",
    );
    let mut out = MemoryOut::new(alloc);
    write_file(alloc, &mut out, &layout, &Segments::new(alloc)).err()
}

/// What takes bytes so often, and then fails.
#[derive(Drop)]
struct Failing {
    left: u64,
}

impl BytesOut for Failing {
    ghost use Rattle.std.specs.Prelude.{None, true};

    ghost taken = { λ out. None };

    ghost can_fail = { true };

    fn append(&mut self, _bytes: &[u8]) -> Result<(), OutFault> {
        if self.left == 0 {
            return Err(OutFault::Failed);
        }
        self.left -= 1;
        Ok(())
    }
}

#[test]
fn what_is_too_deep_or_not_well_formed_is_told(rt: HostRuntime) {
    let alloc = rt.alloc();
    assert_eq!(rt; nested_fault(&rt, alloc, 41), None);
    assert_eq!(rt; nested_fault(&rt, alloc, 42), Some(WriteFault::Depth));
    let wanted = WriteFault::Layout(LayoutFault::ChildDType);
    assert_eq!(rt; unserved(&rt, alloc), Some(wanted));
}

#[test]
fn a_write_that_fails_is_told(rt: HostRuntime) {
    let alloc = rt.alloc();
    let bytes = rows(&rt, alloc, &DType::u8(), "\"u8\"", "[1,2,3]");
    for left in 0..8 {
        let mut out = Failing { left };
        let wanted = if left < 7 {
            Err(WriteFault::Failed)
        } else {
            Ok(())
        };
        assert_eq!(rt;
            write_rows(alloc, &mut out, &bytes, &TWO_ROWS),
            wanted,
            "after {left}"
        );
    }
}

#[test]
fn segments_have_numbers_from_nought_on(rt: HostRuntime) {
    let alloc = rt.alloc();
    let bytes = rows(&rt, alloc, &DType::u8(), "\"u8\"", "[1,2,3]");
    let mut segments = Segments::new(alloc);
    for size in [2, 4] {
        assert!(rt; encode_rows(alloc, &bytes, &TWO_ROWS, &mut segments).is_ok());
        let found = segments.as_slice();
        assert_eq!(rt; found.len(), size);
        let Some(last) = found.last() else {
            panic!(rt; "no segment");
        };
        assert_eq!(rt; last.as_slice(), [3u8].as_slice());
    }
    let batches = slice::from_ref(&bytes);
    let encoded = encode_batches(alloc, bytes.dtype(), batches, &TWO_ROWS, &mut segments);
    assert!(rt; encoded.is_ok());
    assert_eq!(rt; segments.as_slice().len(), 6);
}

/// Begins a file of the system, writes rows to it, and moves it to its name.
fn write_new(rt: &HostRuntime, path: &str, rows: &Array) -> Result<bool, WriteFault> {
    let alloc = rt.alloc();
    let mut out = NewFile::create(alloc, rt, path)?;
    write_rows(alloc, &mut out, rows, &TWO_ROWS)?;
    let was_there = File::open(rt, path).is_ok();
    out.move_there(rt)?;
    Ok(was_there)
}

/// Begins a file of the system and takes it away.
fn begin_new(rt: &HostRuntime, path: &str) -> Result<(), WriteFault> {
    let alloc = rt.alloc();
    let mut out = NewFile::create(alloc, rt, path)?;
    out.append(&[1, 2, 3])?;
    out.remove(rt);
    Ok(())
}

#[test]
fn a_file_stands_under_its_name_only_when_it_is_whole(rt: HostRuntime) {
    let alloc = rt.alloc();
    let id = process::id(rt.process());
    let path = format!(in alloc; "/tmp/scan_disk_write_{id}").expect(&rt, "format");
    let part = format!(in alloc; "{path}.part").expect(&rt, "format");
    let rows = rows(&rt, alloc, &DType::u8(), "\"u8\"", "[1,2,3]");
    assert_eq!(rt; begin_new(&rt, path.as_str()), Ok(()));
    assert!(rt; File::open(&rt, path.as_str()).is_err());
    assert!(rt; File::open(&rt, part.as_str()).is_err());
    assert_eq!(rt; write_new(&rt, path.as_str(), &rows), Ok(false));
    assert!(rt; File::open(&rt, part.as_str()).is_err());
    let found = fs::read(&rt, path.as_str()).expect(&rt, "read");
    fs::remove_file(&rt, path.as_str()).expect(&rt, "remove_file");
    let wanted = file_of(alloc, &rows, &TWO_ROWS).expect(&rt, "file_of");
    assert_eq!(rt; found.as_slice(), wanted.as_slice());
    assert_eq!(rt;
        write_new(&rt, "/tmp/none/of/these", &rows),
        Err(WriteFault::Failed)
    );
}
