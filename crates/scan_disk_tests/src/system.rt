//! Files of the system, and files that change or fail while they are read.
use crate::fixtures::{memory, opened, push_segments, said, sides, told, whole};
use scan_disk::{BytesAt, FileOpener, FileSource, MemoryFile, ReadFault};
use std::alloc::Global;
use std::cell::Cell;
use std::fs::{self, File, Files};
use std::process::{self, Abort};
use std::rc::Rc;
use std::test::Fail;

/// Writes the whole file, and reads it by its name.
fn on_disk(
    rt: &(impl Files<File = File> + Abort),
    alloc: Global,
    path: &str,
) -> Result<String, Fail> {
    fs::write(rt, path, whole(rt, alloc).as_slice())?;
    let file = Rc::new(alloc, File::open(rt, path)?)?;
    Ok(told(rt, alloc, Rc::clone(&file)?, file, true, &[0, 1]))
}

#[test]
fn files_of_the_system_are_read_and_directories_are_refused(rt: HostRuntime) {
    let alloc = rt.alloc();
    let id = process::id(rt.process());
    let path = format!(in alloc; "/tmp/scan_disk_{id}").expect(&rt, "format");
    let found = match on_disk(&rt, alloc, path.as_str()) {
        Ok(found) => found,
        Err(_) => panic!(rt; "not on disk"),
    };
    fs::remove_file(&rt, path.as_str()).expect(&rt, "remove_file");
    assert_eq!(rt;
        found.as_str(),
        said(&rt, alloc, "<leaf> | <1> <2>").as_str()
    );
    assert!(rt; File::open(&rt, "/tmp/scan_disk/none").is_err());
    let one = File::open(&rt, "/").expect(&rt, "open");
    let other = File::open(&rt, "/").expect(&rt, "open");
    let found = told(&rt, alloc, one, other, false, &[0]);
    // a directory has a size of its own on each system of files
    assert!(rt;
        found.as_str() == "Failed | failed 1" || found.as_str() == "Short | Short",
        "{found}"
    );
}

/// A file in memory that is another one after so many calls, or of which each further call fails.
#[derive(Drop)]
struct Turning {
    before: MemoryFile,
    after: Option<MemoryFile>,
    left: Cell<u64>,
}

impl Turning {
    fn file(&self) -> Option<&MemoryFile> {
        let left = self.left.get();
        if left == 0 {
            return self.after.as_ref();
        }
        self.left.set(left - 1);
        Some(&self.before)
    }
}

impl BytesAt for Turning {
    ghost use Rattle.std.specs.Prelude.{None, true};

    ghost bytes = { λ file. None };

    ghost can_fail = { λ file. true };

    fn size(&self) -> Result<u64, ReadFault> {
        match self.file() {
            Some(file) => file.size(),
            None => Err(ReadFault::Failed),
        }
    }

    fn fill(&self, offset: u64, buffer: &mut [u8]) -> Result<(), ReadFault> {
        match self.file() {
            Some(file) => file.fill(offset, buffer),
            None => Err(ReadFault::Failed),
        }
    }
}

/// The whole file, of which the first bytes are left after so many calls, or which fails then.
fn turned_after(rt: &impl Abort, alloc: Global, calls: u64, left: &str) -> Turning {
    let bytes = whole(rt, alloc);
    let after = match left.parse::<usize>() {
        Ok(left) => bytes.as_slice().get(..left),
        Err(_) => None,
    };
    Turning {
        before: memory(rt, alloc, bytes.as_slice()),
        after: match after {
            Some(part) => Some(memory(rt, alloc, part)),
            None => None,
        },
        left: Cell::new(calls),
    }
}

/// Whether a line `CALLS LEFT -> OPENED, FAULTS of POLLS | FIRST` holds.
fn holds(rt: &impl Abort, alloc: Global, line: &str) -> bool {
    let (turns, wanted) = sides(rt, line, " -> ");
    let (calls, left) = sides(rt, turns, " ");
    let calls = calls.parse::<u64>().expect(rt, "parse");
    let mut opener = FileOpener::new(turned_after(rt, alloc, calls, left));
    let mut source = FileSource::new(alloc, turned_after(rt, alloc, calls, left), true);
    let answer = opened(rt, alloc, &mut opener);
    let (faults, polls) = (opener.faults(), opener.polled());
    let mut text = format!(in alloc; "{answer}, {faults} of {polls} |").expect(rt, "format");
    push_segments(rt, alloc, &mut source, &[0], &mut text);
    text.as_str() == said(rt, alloc, wanted).as_str()
}

#[test]
fn a_file_that_shrinks_is_refused_and_a_read_that_fails_is_counted(rt: HostRuntime) {
    for line in TURNS.lines() {
        assert!(rt; holds(&rt, rt.alloc(), line), "at {line}");
    }
}

const TURNS: &str = "0 17 -> Short, 1 of 1 | Short
1 17 -> Short, 1 of 1 | Short
2 17 -> Short, 1 of 1 | Short
3 17 -> Short, 1 of 1 | Short
4 17 -> Place, 1 of 1 | Place
5 17 -> <leaf>, 0 of 1 | Place
6 17 -> <leaf>, 0 of 1 | <1>
0 fails -> Failed, 1 of 1 | failed 1
1 fails -> Failed, 1 of 1 | failed 1
2 fails -> Failed, 1 of 1 | failed 1
3 fails -> Failed, 1 of 1 | failed 1
4 fails -> Failed, 1 of 1 | failed 1
5 fails -> <leaf>, 0 of 1 | failed 1
6 fails -> <leaf>, 0 of 1 | <1>";
